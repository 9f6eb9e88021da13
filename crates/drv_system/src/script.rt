//! A system that answers from lists.

// In clauses: `IsWithinLimit` says that no answer is longer than a file may be.
ghost use Rattle.drv_system.specs.Limit.{IsWithinLimit};
ghost use Rattle.drv_system.specs.Running.{is_told, made, run_of};
ghost use Rattle.drv_system.specs.Script.{following, children_after, claim_in, first_answer, read_as};
ghost use Rattle.drv_system.specs.Script.{removal_in, script_children, scripted_claim};
ghost use Rattle.drv_system.specs.Script.{scripted_kind, scripted_read, scripted_removal};
ghost use Rattle.drv_system.specs.Script.{scripted_start, scripted_telling, scripted_variable};
ghost use Rattle.drv_system.specs.Script.{scripted_wait, start_in, start_numbered, wait_in};
ghost use Rattle.drv_system.specs.declared.event.Event.TheVariants as event;
ghost use Rattle.drv_words.specs.Stepping.{fits_start};
ghost use Rattle.drv_words.specs.declared.answers.Answer.TheVariants as answer;
ghost use Rattle.drv_words.specs.declared.steps.Step.TheVariants as step;
ghost use Rattle.std.specs.Cmp.Lexicographic.{pointwise};
ghost use Rattle.std.specs.Map.{lookup};
ghost use Rattle.std.specs.Option.{option_copied};
ghost use Rattle.std.specs.Prelude.{◌≡◌, ◌+◌, ◌<◌, ◌≤◌, ◌∷◌, ◌++◌, [], IfOk, OnErr, OnOk, drop};
ghost use Rattle.std.specs.Prelude.{false, if◌then◌else◌, is_some, nat_eq, slice_get, true};

use crate::noting::{note_kind, note_put, note_read, note_said, note_variable};
use crate::{Event, MOST_BYTES, PathKind, ReadAnswer, System, TellAnswer};
use drv_words::{
    Answer, ClaimAnswer, Listing, Note, Place, Plan, RemoveAnswer, RunEvent, StartAnswer, Step,
    WaitAnswer, Word,
};
use std::alloc::{AllocError, Global};
use std::marker::Model;

/// A system that answers from lists, for tests and trials. A path or name is looked up in its list,
/// and the first entry counts.
///
/// A step of a run takes the next answer of its list, if that has the step's kind. Any other answer
/// stays and blocks the later ones, and the step is answered by Claimed, Started, Exit(0) or
/// Removed. Children are numbered from 0, whatever the list says.
#[derive(Drop)]
pub struct ScriptSystem {
    files: Listing<(Word, Option<Word>)>,
    dirs: Listing<Word>,
    variables: Listing<(Word, Word)>,
    answers: Listing<Answer>,
    /// The number of answers that were taken.
    taken: usize,
    /// The number of children that were started.
    children: u64,
    mute: bool,
    journal: Vec<Event>,
}

impl Model for ScriptSystem {
    ghost use Rattle.drv_system.specs.Code.Holding.{Numbered};
    ghost use Rattle.drv_system.specs.Script.{Scripted};
    ghost use Rattle.std.specs.Prelude.{◌-◌, drop, vec_capacity, vec_len};

    ghost Value = { Scripted };

    ghost view = { λ s. record {
      script = record {
        files = s.files;
        dirs = s.dirs;
        variables = s.variables;
        answers = drop s.taken s.answers;
        mute = s.mute;
      };
      journal = s.journal.items;
      children = s.children;
      spare_events = vec_capacity s.journal - vec_len s.journal;
    } };

    ghost invariant = { λ s. Numbered s.children s.journal.items };
}

impl ScriptSystem {
    /// A system with these files, folders and variables, and with these answers to the steps of a
    /// run.
    ///
    /// A file without bytes can't be read.
    pub fn new(
        alloc: Global,
        files: Listing<(Word, Option<Word>)>,
        dirs: Listing<Word>,
        variables: Listing<(Word, Word)>,
        answers: Listing<Answer>,
    ) -> ScriptSystem
        ensures script { result.script
            ≡ record {
              files = files;
              dirs = dirs;
              variables = variables;
              answers = answers;
              mute = false;
            } }
        ensures journal { result.journal ≡ [] }
        ensures children { result.children ≡ 0 }
    {
        ScriptSystem {
            files,
            dirs,
            variables,
            answers,
            taken: 0,
            children: 0,
            mute: false,
            journal: Vec::new(alloc),
        }
    }

    /// From now on messages fail: those of `say`, `put` and `report`.
    pub fn mute(&mut self)
        ensures { self.new ≡ record self.old { script = record self.old.script { mute = true } } }
    {
        self.mute = true;
    }

    /// The answer to a message.
    fn telling(&self) -> TellAnswer
        ensures { result ≡ scripted_telling self.now.script }
    {
        if self.mute {
            TellAnswer::Failed
        } else {
            TellAnswer::Told
        }
    }

    /// The kind of a path: the files of the list count before the folders.
    fn listed_kind(&self, path: &Word) -> PathKind
        ensures { result ≡ scripted_kind self.now.script path.now }
    {
        if find(self.files.as_slice(), path).is_some() {
            PathKind::Plain
        } else if self.dirs.as_slice().contains(path) {
            PathKind::Dir
        } else {
            PathKind::Missing
        }
    }
}

impl System for ScriptSystem {
    ghost use Rattle.drv_system.specs.Script.{script_children};

    ghost events = { λ s. s.journal };

    ghost spare_events = { λ s. s.spare_events };

    ghost spare_children = { λ s. script_children };

    fn journal(&self) -> &[Event]
        ensures { result.now ≡ self.now.journal }
    {
        self.journal.as_slice()
    }

    /// The bytes of the file, if it is listed with some.
    #[tactic(auto, using(crate::proofs::Holding::numbered_beside, crate::proofs::Holding::numbered_same))]
    fn read_file(&mut self, path: &Word) -> Result<ReadAnswer, AllocError>
        ensures event { IfOk result (λ answer. self.new.journal
            ≡ self.old.journal ++ event.Read path.now answer ∷ []) }
        ensures within { IfOk result IsWithinLimit }
        ensures memory { OnErr result (self.new.journal ≡ self.old.journal) }
        ensures answer { IfOk result (λ answer. answer ≡ scripted_read self.old.script path.now) }
        ensures script { self.new.script ≡ self.old.script }
        ensures started { self.new.children ≡ self.old.children }
    {
        let answer = read_listed(find(self.files.as_slice(), path))?;
        note_read(&mut self.journal, path, &answer)?;
        Ok(answer)
    }

    /// Plain for a listed file, Dir for a listed folder.
    #[tactic(auto, using(crate::proofs::Holding::numbered_beside, crate::proofs::Holding::numbered_same))]
    fn kind(&mut self, path: &Word) -> Result<PathKind, AllocError>
        ensures event { IfOk result (λ kind. self.new.journal
            ≡ self.old.journal ++ event.Kind path.now kind ∷ []) }
        ensures memory { OnErr result (self.new.journal ≡ self.old.journal) }
        ensures answer { IfOk result (λ kind. kind ≡ scripted_kind self.old.script path.now) }
        ensures script { self.new.script ≡ self.old.script }
        ensures started { self.new.children ≡ self.old.children }
    {
        let kind = self.listed_kind(path);
        note_kind(&mut self.journal, path, kind)?;
        Ok(kind)
    }

    /// The value of the variable, if it is listed.
    #[tactic(auto, using(crate::proofs::Holding::numbered_beside, crate::proofs::Holding::numbered_same))]
    fn variable(&mut self, name: &Word) -> Result<Option<Word>, AllocError>
        ensures event { IfOk result (λ value. self.new.journal
            ≡ self.old.journal ++ event.Variable name.now value ∷ []) }
        ensures memory { OnErr result (self.new.journal ≡ self.old.journal) }
        ensures answer { IfOk result (λ value. value ≡ scripted_variable self.old.script name.now) }
        ensures script { self.new.script ≡ self.old.script }
        ensures started { self.new.children ≡ self.old.children }
    {
        let value = copy_of(find(self.variables.as_slice(), name))?;
        note_variable(&mut self.journal, name, &value)?;
        Ok(value)
    }

    /// Told, until `mute` was called.
    #[tactic(auto, using(crate::proofs::Holding::numbered_beside, crate::proofs::Holding::numbered_same))]
    fn say(&mut self, text: &Word) -> Result<TellAnswer, AllocError>
        ensures event { IfOk result (λ answer. self.new.journal
            ≡ self.old.journal ++ event.Say text.now answer ∷ []) }
        ensures memory { OnErr result (self.new.journal ≡ self.old.journal) }
        ensures answer { IfOk result (λ answer. answer ≡ scripted_telling self.old.script) }
        ensures script { self.new.script ≡ self.old.script }
        ensures started { self.new.children ≡ self.old.children }
    {
        let answer = self.telling();
        note_said(&mut self.journal, text, answer)?;
        Ok(answer)
    }

    /// Told, until `mute` was called.
    #[tactic(auto, using(crate::proofs::Holding::numbered_beside, crate::proofs::Holding::numbered_same))]
    fn put(&mut self, text: &Word) -> Result<TellAnswer, AllocError>
        ensures event { IfOk result (λ answer. self.new.journal
            ≡ self.old.journal ++ event.Put text.now answer ∷ []) }
        ensures memory { OnErr result (self.new.journal ≡ self.old.journal) }
        ensures answer { IfOk result (λ answer. answer ≡ scripted_telling self.old.script) }
        ensures script { self.new.script ≡ self.old.script }
        ensures started { self.new.children ≡ self.old.children }
    {
        let answer = self.telling();
        note_put(&mut self.journal, text, answer)?;
        Ok(answer)
    }

    #[tactic(auto, using(crate::proofs::Holding::numbered_same))]
    fn reserve_events(&mut self, count: usize) -> Result<(), AllocError>
        ensures room { OnOk result (count ≤ self.new.spare_events) }
        ensures children { OnOk result (count ≤ script_children) }
        ensures unchanged { self.new.journal ≡ self.old.journal }
        ensures script { self.new.script ≡ self.old.script }
        ensures started { self.new.children ≡ self.old.children }
    {
        self.journal.reserve(count)
    }

    #[tactic(auto, using(crate::proofs::Holding::numbered_step))]
    fn claim(&mut self, plan: &Plan, place: Place) -> ClaimAnswer
        requires room { 0 < self.old.spare_events }
        ensures event { self.new.journal
            ≡ self.old.journal ++ made (step.Claim place) (answer.Claim result) ∷ [] }
        ensures room { self.old.spare_events ≤ self.new.spare_events + 1 }
        ensures answer { result ≡ scripted_claim self.old.script }
        ensures script { self.new.script
            ≡ following (claim_in (first_answer self.old.script)) self.old.script }
        ensures started { self.new.children ≡ self.old.children }
    {
        let _asked = plan;
        let given = claim_in(front_of(self.answers.as_slice(), self.taken));
        pass_over(self.answers.as_slice(), &mut self.taken, &given);
        let answer = given.unwrap_or(ClaimAnswer::Claimed);
        self.journal.push_reserved(Event::Run(RunEvent {
            step: Step::Claim(place),
            answer: Answer::Claim(answer),
        }));
        answer
    }

    #[tactic(auto, using(crate::proofs::Holding::numbered_start, crate::proofs::Holding::script_is_new))]
    fn start(&mut self, plan: &Plan, place: Place, from_pipe: bool, to_pipe: bool) -> StartAnswer
        requires room { 0 < self.old.spare_events }
        ensures event { self.new.journal
            ≡ self.old.journal
            ++ made (step.Start place from_pipe to_pipe) (answer.Start result) ∷ [] }
        ensures fresh { fits_start (run_of self.old.journal) result ≡ true }
        ensures room { self.old.spare_events ≤ self.new.spare_events + 1 }
        ensures answer { result ≡ scripted_start self.old.children self.old.script }
        ensures script { self.new.script
            ≡ following (start_in (first_answer self.old.script)) self.old.script }
        ensures started { self.new.children ≡ children_after self.old.children result }
    {
        let _asked = plan;
        let given = start_in(front_of(self.answers.as_slice(), self.taken));
        pass_over(self.answers.as_slice(), &mut self.taken, &given);
        let answer = with_number(self.children, given);
        self.children = count_with(self.children, answer);
        self.journal.push_reserved(Event::Run(RunEvent {
            step: Step::Start {
                place,
                from_pipe,
                to_pipe,
            },
            answer: Answer::Start(answer),
        }));
        answer
    }

    #[tactic(auto, using(crate::proofs::Holding::numbered_step))]
    fn close_pipe(&mut self)
        requires room { 0 < self.old.spare_events }
        ensures event { self.new.journal
            ≡ self.old.journal ++ made step.ClosePipe answer.Closed ∷ [] }
        ensures room { self.old.spare_events ≤ self.new.spare_events + 1 }
        ensures script { self.new.script ≡ self.old.script }
        ensures started { self.new.children ≡ self.old.children }
    {
        self.journal.push_reserved(Event::Run(RunEvent {
            step: Step::ClosePipe,
            answer: Answer::Closed,
        }));
    }

    #[tactic(auto, using(crate::proofs::Holding::numbered_step))]
    fn wait(&mut self, place: Place, id: u64) -> WaitAnswer
        requires room { 0 < self.old.spare_events }
        ensures event { self.new.journal
            ≡ self.old.journal ++ made (step.Wait place id) (answer.Wait result) ∷ [] }
        ensures room { self.old.spare_events ≤ self.new.spare_events + 1 }
        ensures answer { result ≡ scripted_wait self.old.script }
        ensures script { self.new.script
            ≡ following (wait_in (first_answer self.old.script)) self.old.script }
        ensures started { self.new.children ≡ self.old.children }
    {
        let given = wait_in(front_of(self.answers.as_slice(), self.taken));
        pass_over(self.answers.as_slice(), &mut self.taken, &given);
        let answer = given.unwrap_or(WaitAnswer::Exit(0));
        self.journal.push_reserved(Event::Run(RunEvent {
            step: Step::Wait { place, id },
            answer: Answer::Wait(answer),
        }));
        answer
    }

    /// Every child has ended.
    #[tactic(auto, using(crate::proofs::Holding::numbered_same))]
    fn has_ended(&mut self, _id: u64) -> bool
        ensures unchanged { self.new.journal ≡ self.old.journal }
        ensures room { self.old.spare_events ≤ self.new.spare_events }
        ensures answer { result ≡ true }
        ensures script { self.new.script ≡ self.old.script }
        ensures started { self.new.children ≡ self.old.children }
    {
        true
    }

    #[tactic(auto, using(crate::proofs::Holding::numbered_step))]
    fn remove(&mut self, plan: &Plan, place: Place) -> RemoveAnswer
        requires room { 0 < self.old.spare_events }
        ensures event { self.new.journal
            ≡ self.old.journal ++ made (step.Remove place) (answer.Remove result) ∷ [] }
        ensures room { self.old.spare_events ≤ self.new.spare_events + 1 }
        ensures answer { result ≡ scripted_removal self.old.script }
        ensures script { self.new.script
            ≡ following (removal_in (first_answer self.old.script)) self.old.script }
        ensures started { self.new.children ≡ self.old.children }
    {
        let _asked = plan;
        let given = removal_in(front_of(self.answers.as_slice(), self.taken));
        pass_over(self.answers.as_slice(), &mut self.taken, &given);
        let answer = given.unwrap_or(RemoveAnswer::Removed);
        self.journal.push_reserved(Event::Run(RunEvent {
            step: Step::Remove(place),
            answer: Answer::Remove(answer),
        }));
        answer
    }

    /// Told, until `mute` was called.
    #[tactic(auto, using(crate::proofs::Holding::numbered_step))]
    fn report(&mut self, plan: &Plan, note: Note) -> TellAnswer
        requires room { 0 < self.old.spare_events }
        ensures event { self.new.journal
            ≡ self.old.journal ++ made (step.Report note) (answer.Reported (is_told result)) ∷ [] }
        ensures room { self.old.spare_events ≤ self.new.spare_events + 1 }
        ensures answer { result ≡ scripted_telling self.old.script }
        ensures script { self.new.script ≡ self.old.script }
        ensures started { self.new.children ≡ self.old.children }
    {
        let _asked = plan;
        let answer = self.telling();
        self.journal.push_reserved(Event::Run(RunEvent {
            step: Step::Report(note),
            answer: Answer::Reported(answer.is_told()),
        }));
        answer
    }
}

/// The next answer that is left.
#[tactic(auto, using(crate::proofs::Scripted::front_is))]
fn front_of(answers: &[Answer], taken: usize) -> Option<Answer>
    ensures { result ≡ slice_get (drop taken answers.now) 0 }
{
    answers.get(taken).copied()
}

/// Drops the next answer, if it had the kind that was asked for.
#[tactic(auto, using(crate::proofs::Scripted::one_less, crate::proofs::Scripted::none_less))]
fn pass_over<A>(answers: &[Answer], taken: &mut usize, answer: &Option<A>)
    ensures { drop taken.new answers.now
        ≡ (if is_some answer.now
        then drop 1 (drop taken.old answers.now) else drop taken.old answers.now) }
{
    if answer.is_none() {
        return;
    }
    // No answer is left, so none is dropped.
    if answers.len() <= *taken {
        return;
    }
    *taken += 1;
}

/// The answer to a claim, if it is one.
fn claim_in(answer: Option<Answer>) -> Option<ClaimAnswer>
    ensures { result ≡ claim_in answer }
{
    match answer {
        Some(Answer::Claim(answer)) => Some(answer),
        _ => None,
    }
}

/// The answer to a start, if it is one.
fn start_in(answer: Option<Answer>) -> Option<StartAnswer>
    ensures { result ≡ start_in answer }
{
    match answer {
        Some(Answer::Start(answer)) => Some(answer),
        _ => None,
    }
}

/// The answer to a wait, if it is one.
fn wait_in(answer: Option<Answer>) -> Option<WaitAnswer>
    ensures { result ≡ wait_in answer }
{
    match answer {
        Some(Answer::Wait(answer)) => Some(answer),
        _ => None,
    }
}

/// The answer to a removal, if it is one.
fn removal_in(answer: Option<Answer>) -> Option<RemoveAnswer>
    ensures { result ≡ removal_in answer }
{
    match answer {
        Some(Answer::Remove(answer)) => Some(answer),
        _ => None,
    }
}

/// The number of children after a start.
fn count_with(children: u64, answer: StartAnswer) -> u64
    requires { children < 18446744073709551615 }
    ensures { result ≡ children_after children answer }
{
    match answer {
        StartAnswer::Started(_) => children + 1,
        StartAnswer::NotStarted(_) => children,
    }
}

/// The answer to a start: the child gets the next number.
fn with_number(id: u64, given: Option<StartAnswer>) -> StartAnswer
    ensures { result ≡ start_numbered id given }
{
    match given {
        Some(StartAnswer::NotStarted(why)) => StartAnswer::NotStarted(why),
        _ => StartAnswer::Started(id),
    }
}

/// The first value of a key.
fn find<'a, V>(list: &'a [(Word, V)], key: &Word) -> Option<&'a V>
    ensures { option_copied result ≡ lookup (pointwise nat_eq key.now) list.now }
{
    for item in list {
        if *key == item.0 {
            return Some(&item.1);
        }
    }
    None
}

/// How a file with this entry is read, if it has one.
fn read_listed(listed: Option<&Option<Word>>) -> Result<ReadAnswer, AllocError>
    ensures answer { IfOk result (λ answer. answer ≡ read_as (option_copied listed.entry)) }
    ensures within { IfOk result IsWithinLimit }
{
    match listed {
        None => Ok(ReadAnswer::Missing),
        Some(None) => Ok(ReadAnswer::Failed),
        Some(Some(bytes)) if bytes.len() > MOST_BYTES => Ok(ReadAnswer::TooLarge),
        Some(Some(bytes)) => Ok(ReadAnswer::Read(bytes.clone()?)),
    }
}

/// A copy of a value, if there is one.
fn copy_of(value: Option<&Word>) -> Result<Option<Word>, AllocError>
    ensures { IfOk result (λ copy. copy ≡ option_copied value.entry) }
{
    match value {
        Some(word) => Ok(Some(word.clone()?)),
        None => Ok(None),
    }
}
