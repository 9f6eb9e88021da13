//! The system of a process.

ghost use Rattle.drv_system.specs.declared.event.TellAnswer.TheVariants as tell;
ghost use Rattle.std.specs.Io.KnownBytes.{Appends};
ghost use Rattle.std.specs.Prelude.{◌≡◌, ◌∷◌, ◌++◌, [], IfOk, OnErr};

use crate::environment::Environment;
use crate::files::{make_file, remove_file};
use crate::noting::{note_kind, note_read, note_variable};
use crate::places::{command_at, name_at, temp_at};
use crate::processes::{Output, answer_of, has_ended, reason_of, spawn, wait_for};
use crate::reading::read_path;
use crate::reporting::Reports;
use crate::reports::Reporter;
use crate::{Event, PathKind, ReadAnswer, System, TellAnswer};
use drv_words::{
    Answer, ClaimAnswer, NotStarted, Note, Place, Plan, RemoveAnswer, RunEvent, StartAnswer, Step,
    WaitAnswer, Word,
};
use std::alloc::AllocError;
use std::io::{self, ErrorKind, PipeReader, Write};
use std::marker::Model;
use std::process::Child;
use std::time::Duration;
use std::{fs, str, thread};

/// The length of a pause, in microseconds.
const MOMENT: u64 = 500;

/// The files, the environment, the standard streams and the children of this process.
///
/// A path or a name that is not text, or has a zero byte, is treated as if it didn't exist. A file
/// of such a name can't be claimed, and a command with such a word is not started.
#[derive(Drop)]
pub struct HostSystem {
    rt: HostRuntime,
    journal: Vec<Event>,
    /// The started children, until they are waited for. The number of a child is its index.
    children: Vec<Option<Child>>,
    /// The reading end of the pending pipe.
    pending: Option<PipeReader>,
    /// The variables that children get from it.
    own: Environment,
    /// The variables that only children get, with their values.
    variables: Vec<(Word, Word)>,
    reports: Reports,
}

impl Model for HostSystem {
    ghost use Rattle.drv_system.specs.Code.Holding.{Holds};
    ghost use Rattle.drv_system.specs.Host.{Host};
    ghost use Rattle.std.specs.Prelude.{◌-◌, is_some, vec_capacity, vec_len};

    ghost Value = { Host };

    ghost view = { λ s. record {
      journal = s.journal.items;
      spare_events = vec_capacity s.journal - vec_len s.journal;
      spare_children = vec_capacity s.children - vec_len s.children;
    } };

    ghost invariant = { λ s. Holds (vec_len s.children) (is_some s.pending) s.journal.items };
}

impl HostSystem {
    /// The system of this process, before any question. It reports in the name of `gdrv`.
    pub fn new(rt: HostRuntime) -> HostSystem
        ensures { result.journal ≡ [] }
    {
        HostSystem::reporting_as(rt, Reporter::Gdrv)
    }

    /// The system of this process, before any question. It reports in the name of a program.
    pub fn reporting_as(rt: HostRuntime, reporter: Reporter) -> HostSystem
        ensures { result.journal ≡ [] }
    {
        let journal = Vec::new(rt.alloc());
        let children = Vec::new(rt.alloc());
        let variables = Vec::new(rt.alloc());
        HostSystem {
            rt,
            journal,
            children,
            pending: None,
            own: Environment::Unread,
            variables,
            reports: Reports::new(reporter),
        }
    }

    /// Whether a command crashed: a signal ended it that no user sends to end a command. gcc's exit
    /// status is 4 then (GCC manual, "Invoking GCC": an internal compiler error).
    pub fn has_crashed(&self) -> bool {
        self.reports.has_crashed()
    }

    /// Sets a variable for later children, but not for this process.
    pub fn set_for_children(&mut self, name: Word, value: Word) -> Result<(), AllocError>
        ensures { self.new.journal ≡ self.old.journal }
    {
        self.variables.push((name, value))?;
        Ok(())
    }
}

impl System for HostSystem {
    ghost events = { λ s. s.journal };

    ghost spare_events = { λ s. s.spare_events };

    ghost spare_children = { λ s. s.spare_children };

    fn journal(&self) -> &[Event] {
        self.journal.as_slice()
    }

    #[tactic(auto, using(crate::proofs::Holding::holds_beside, crate::proofs::Holding::holds_same))]
    /// Reads the file. A folder can't be read, and a path through a plain file leads nowhere.
    fn read_file(&mut self, path: &Word) -> Result<ReadAnswer, AllocError> {
        let answer = match as_text(path.as_bytes()) {
            Some(path) => read_path(&self.rt, self.rt.alloc(), path)?,
            None => ReadAnswer::Missing,
        };
        note_read(&mut self.journal, path, &answer)?;
        Ok(answer)
    }

    #[tactic(auto, using(crate::proofs::Holding::holds_beside, crate::proofs::Holding::holds_same))]
    fn kind(&mut self, path: &Word) -> Result<PathKind, AllocError> {
        let kind = match as_text(path.as_bytes()) {
            Some(path) => kind_at(&self.rt, path)?,
            None => PathKind::Missing,
        };
        note_kind(&mut self.journal, path, kind)?;
        Ok(kind)
    }

    #[tactic(auto, using(crate::proofs::Holding::holds_beside, crate::proofs::Holding::holds_same))]
    fn variable(&mut self, name: &Word) -> Result<Option<Word>, AllocError> {
        let value = self.own.value(&self.rt, name)?;
        note_variable(&mut self.journal, name, &value)?;
        Ok(value)
    }

    #[tactic(auto, using(crate::proofs::Holding::holds_beside, crate::proofs::Holding::holds_same))]
    fn say(&mut self, text: &Word) -> Result<TellAnswer, AllocError> {
        let said = text.clone()?;
        self.journal.reserve(1)?;
        let answer = tell_error(&self.rt, text);
        self.journal.push_reserved(Event::Say(said, answer));
        Ok(answer)
    }

    #[tactic(auto, using(crate::proofs::Holding::holds_beside, crate::proofs::Holding::holds_same))]
    fn put(&mut self, text: &Word) -> Result<TellAnswer, AllocError> {
        let put = text.clone()?;
        self.journal.reserve(1)?;
        let stream = self.rt.stdout();
        let answer = tell(&mut io::writer(&stream), text);
        self.journal.push_reserved(Event::Put(put, answer));
        Ok(answer)
    }

    #[tactic(auto, using(crate::proofs::Holding::holds_same))]
    fn reserve_events(&mut self, count: usize) -> Result<(), AllocError> {
        self.journal.reserve(count)?;
        self.children.reserve(count)
    }

    #[tactic(auto, using(crate::proofs::Holding::holds_step))]
    fn claim(&mut self, plan: &Plan, place: Place) -> ClaimAnswer {
        let answer = match temp_at(plan, place) {
            Some(temp) => match as_text(temp.path.as_bytes()) {
                Some(path) => make_file(&self.rt, path, temp.contents.as_bytes()),
                None => ClaimAnswer::Failed,
            },
            None => ClaimAnswer::Failed,
        };
        self.journal.push_reserved(Event::Run(RunEvent {
            step: Step::Claim(place),
            answer: Answer::Claim(answer),
        }));
        answer
    }

    #[tactic(auto, using(crate::proofs::Holding::holds_after, crate::proofs::Holding::holds_step, crate::proofs::Holding::holds_is_new))]
    /// Starts a program, which is searched for in PATH if its name has no slash. A file that is
    /// neither a program nor begins with `#!` is not started. The child has this process's standard
    /// streams except for the pipes, and no other open file.
    fn start(&mut self, plan: &Plan, place: Place, from_pipe: bool, to_pipe: bool) -> StartAnswer {
        let step = Step::Start {
            place,
            from_pipe,
            to_pipe,
        };
        let Some(command) = command_at(plan, place) else {
            let answer = StartAnswer::NotStarted(NotStarted::Other);
            self.journal.push_reserved(Event::Run(RunEvent {
                step,
                answer: Answer::Start(answer),
            }));
            return answer;
        };
        let output = if to_pipe { Output::Pipe } else { Output::Own };
        match spawn(
            &self.rt,
            command,
            self.variables.as_slice(),
            &self.pending,
            output,
        ) {
            Ok((child, next)) => {
                let answer = StartAnswer::Started(self.children.len() as u64);
                self.children.push_reserved(Some(child));
                self.pending = next;
                self.journal.push_reserved(Event::Run(RunEvent {
                    step,
                    answer: Answer::Start(answer),
                }));
                answer
            }
            Err(e) => {
                let answer = StartAnswer::NotStarted(reason_of(&e));
                self.reports.note_refusal(e);
                self.journal.push_reserved(Event::Run(RunEvent {
                    step,
                    answer: Answer::Start(answer),
                }));
                answer
            }
        }
    }

    #[tactic(auto, using(crate::proofs::Holding::holds_step))]
    fn close_pipe(&mut self) {
        self.pending = None;
        self.journal.push_reserved(Event::Run(RunEvent {
            step: Step::ClosePipe,
            answer: Answer::Closed,
        }));
    }

    #[tactic(auto, using(crate::proofs::Holding::holds_step))]
    fn wait(&mut self, place: Place, id: u64) -> WaitAnswer {
        let status = wait_for(&mut self.children, id);
        let answer = answer_of(status);
        self.reports.note_end(&self.rt, place, status);
        self.journal.push_reserved(Event::Run(RunEvent {
            step: Step::Wait { place, id },
            answer: Answer::Wait(answer),
        }));
        answer
    }

    #[tactic(auto, using(crate::proofs::Holding::holds_same))]
    fn has_ended(&mut self, id: u64) -> bool {
        has_ended(&mut self.children, id)
    }

    /// Sleeps for half a millisecond.
    fn pause(&self) {
        thread::sleep(&self.rt, Duration::from_micros(MOMENT))
    }

    #[tactic(auto, using(crate::proofs::Holding::holds_step))]
    fn remove(&mut self, plan: &Plan, place: Place) -> RemoveAnswer {
        let answer = match name_at(plan, place) {
            Some(path) => match as_text(path.as_bytes()) {
                Some(path) => remove_file(&self.rt, path),
                None => RemoveAnswer::Missing,
            },
            None => RemoveAnswer::Failed,
        };
        self.journal.push_reserved(Event::Run(RunEvent {
            step: Step::Remove(place),
            answer: Answer::Remove(answer),
        }));
        answer
    }

    #[tactic(auto, using(crate::proofs::Holding::holds_step))]
    fn report(&mut self, plan: &Plan, note: Note) -> TellAnswer {
        let answer = self.reports.tell(&self.rt, plan, note);
        self.journal.push_reserved(Event::Run(RunEvent {
            step: Step::Report(note),
            answer: Answer::Reported(answer.is_told()),
        }));
        answer
    }
}

/// The text of a word that can be a path or a name: it is UTF-8 and has no zero byte.
pub(crate) fn as_text(bytes: &[u8]) -> Option<&str> {
    // The system would end the name at its first zero byte.
    if bytes.contains(&0) {
        return None;
    }
    str::from_utf8(bytes).ok()
}

/// The kind of file that a path leads to.
fn kind_at(rt: &HostRuntime, path: &str) -> Result<PathKind, AllocError> {
    match fs::metadata(rt, path) {
        Ok(found) if found.is_file() => Ok(PathKind::Plain),
        Ok(found) if found.is_dir() => Ok(PathKind::Dir),
        Ok(_) => Ok(PathKind::Other),
        // Lack of memory says nothing of the path.
        Err(e) if e.kind() == ErrorKind::OutOfMemory => Err(AllocError),
        Err(_) => Ok(PathKind::Missing),
    }
}

/// Writes a text to standard error as a whole, or reports the failure.
pub(crate) fn tell_error(rt: &HostRuntime, text: &Word) -> TellAnswer {
    let stream = rt.stderr();
    tell(&mut io::writer(&stream), text)
}

/// Writes a text as a whole, or reports the failure.
fn tell<W: Write>(stream: &mut W, text: &Word) -> TellAnswer
    ensures { result ≡ tell.Told
        → Appends (W.contents stream.old) (W.contents stream.new) text.now }
{
    match stream.write_all(text.as_bytes()) {
        Ok(()) => TellAnswer::Told,
        Err(_) => TellAnswer::Failed,
    }
}
