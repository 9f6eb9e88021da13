//! What the spec files of a line give it.

// In clauses: `Extends F G` says that G has every answer of F. `Asked` says that a call only asked,
// and that the table has the answers. `GivesKnown` says that a result is the one defined over the
// facts, or lack of memory.
ghost use Rattle.drv_cc.specs.SelfSpecs.{seen_items};
ghost use Rattle.drv_cc.specs.declared.answer.Answer.TheVariants as answer;
ghost use Rattle.drv_cc.specs.declared.refusal.Refusal.TheVariants as refusal;
ghost use Rattle.drv_compile.specs.Reading.{specs_given};
ghost use Rattle.drv_compile.specs.Runs.{line_given};
ghost use Rattle.drv_compile.specs.SelfSpecs.{answer_after, answer_by, answer_given, of_groups};
ghost use Rattle.drv_compile.specs.SelfSpecs.{of_job, of_outcome, self_worked};
ghost use Rattle.drv_compile.specs.SelfSpecs.{worked_by, worked_for, worked_of};
ghost use Rattle.drv_compile.specs.declared.self_specs.Worked.TheVariants as worked;
ghost use Rattle.drv_machine.specs.Outcome.{outcome};
ghost use Rattle.drv_plan.specs.Denoted.{of_text};
ghost use Rattle.drv_plan.specs.declared.fault.PlanFault.TheVariants as plan_fault;
ghost use Rattle.drv_run.specs.declared.ending.Ending.TheVariants as ending;
ghost use Rattle.drv_search.specs.Search.{prefixes_of};
ghost use Rattle.drv_specs.specs.Sets.{text_of};
ghost use Rattle.drv_syntax.specs.Parsed.{tree_of};
ghost use Rattle.drv_system.specs.Asking.{Extends};
ghost use Rattle.drv_system.specs.Code.Asked.{Asked};
ghost use Rattle.drv_system.specs.Facts.{Facts};
ghost use Rattle.drv_system.specs.Gives.{GivesKnown};
ghost use Rattle.drv_system.specs.Known.{Is};
ghost use Rattle.std.specs.Option.{unwrap_or};
ghost use Rattle.std.specs.Prelude.{◌≡◌, ◌∷◌, [], IfOk, Ok, Some, codes, length};

use crate::finding::known_names;
use crate::reading::{items_names, specs_given};
use crate::request::GccLine;
use crate::running::{DriverLine, line_given, prefixes_of, specs_of};
use drv_args::{Item, Line, Settings};
use drv_cc::{Answer, Given, OptionNames, Refusal, front_with, seen_items};
use drv_machine::{Context, Outcome, run};
use drv_plan::PlanFault;
use drv_run::Ending;
use drv_search::Prefixes;
use drv_specs::SpecSet;
use drv_syntax::SpecTree;
use drv_system::{Outside, System};
use drv_words::{Command, Group, Job, Listing, Word, copy_words};
use std::alloc::{AllocError, Global};

/// What a text of two commands gives.
#[derive(Drop)]
pub(crate) enum Worked {
    /// The specs have no such text.
    Nothing,
    /// More than words.
    More,
    /// Words, and which switches are left.
    Gives(Given),
}

/// The specs of a line of the driver.
#[derive(Drop)]
struct OwnSpecs<'a> {
    /// Its settings.
    settings: &'a Settings,
    /// What its spec files make.
    set: &'a SpecSet,
    /// The prefixes of its `-B`.
    prefixes: &'a Prefixes,
}

/// What two groups give, if each is one command.
fn of_pair(alloc: Global, given: &[Command], left: &[Command]) -> Result<Worked, AllocError>
    ensures { IfOk result (λ made. made ≡ of_groups (given.now ∷ left.now ∷ [])) }
{
    match (given, left) {
        ([given], [left]) => Ok(Worked::Gives(Given {
            left: copy_words(alloc, left.words.as_slice())?,
            words: copy_words(alloc, given.words.as_slice())?,
        })),
        _ => Ok(Worked::More),
    }
}

/// What groups give, if they are two.
fn of_groups(alloc: Global, groups: &[Group]) -> Result<Worked, AllocError>
    ensures { IfOk result (λ made. made ≡ of_groups groups.now) }
{
    match groups {
        [given, left] => of_pair(alloc, given.as_slice(), left.as_slice()),
        _ => Ok(Worked::More),
    }
}

/// What the job of the text gives.
fn of_job(alloc: Global, job: &Job) -> Result<Worked, AllocError>
    ensures { IfOk result (λ made. made ≡ of_job job.now) }
{
    if job.temps.is_empty() {
        of_groups(alloc, job.groups.as_slice())
    } else {
        Ok(Worked::More)
    }
}

/// A text worked.
fn work<S: System>(
    alloc: Global,
    text: &SpecTree,
    context: &Context<'_>,
    outside: &mut Outside<'_, S>,
) -> Result<Outcome, PlanFault>
    ensures asks { Asked S.events outside.old outside.new }
    ensures works { (F : Facts) → Extends outside.new.facts.now F
        → GivesKnown plan_fault.Memory (λ done. done) result
        (of_text (outcome F context.now (tree_of text.now))) }
{
    let done = run(alloc, text, context, outside.sys, outside.facts)?;
    Ok(done)
}

/// What the text gives in a context.
fn worked_in<S: System>(
    alloc: Global,
    text: &SpecTree,
    context: &Context<'_>,
    outside: &mut Outside<'_, S>,
) -> Result<Worked, Ending>
    ensures asks { Asked S.events outside.old outside.new }
    ensures works { (F : Facts) → Extends outside.new.facts.now F
        → GivesKnown ending.OutOfMemory (λ made. made) result
        (of_outcome (of_text (outcome F context.now (tree_of text.now)))) }
{
    let done = work(alloc, text, context, outside)?;
    Ok(of_job(alloc, &done.job)?)
}

/// What the text gives a line.
fn worked_line<S: System>(
    alloc: Global,
    own: &OwnSpecs<'_>,
    text: &SpecTree,
    line: &Line,
    outside: &mut Outside<'_, S>,
) -> Result<Worked, Ending>
    ensures asks { Asked S.events outside.old outside.new }
    ensures works { (F : Facts) → Extends outside.new.facts.now F
        → prefixes_of F own.now.settings.now.prefixes ≡ Is own.now.prefixes.now
        → GivesKnown ending.OutOfMemory (λ made. made) result
        (worked_for F own.now.settings.now own.now.set.now text.now (Ok line.now)) }
{
    let context = Context::new(alloc, line, own.set, own.prefixes, 0)?;
    worked_in(alloc, text, &context, outside)
}

/// What the text gives a line whose switches these are.
fn worked_for<S: System>(
    alloc: Global,
    own: &OwnSpecs<'_>,
    text: &SpecTree,
    seen: &DriverLine,
    outside: &mut Outside<'_, S>,
) -> Result<Worked, Ending>
    ensures asks { Asked S.events outside.old outside.new }
    ensures works { (F : Facts) → Extends outside.new.facts.now F
        → prefixes_of F own.now.settings.now.prefixes ≡ Is own.now.prefixes.now
        → GivesKnown ending.OutOfMemory (λ made. made) result
        (worked_for F own.now.settings.now own.now.set.now text.now (line_given seen.now)) }
{
    let line = line_given(alloc, seen)?;
    worked_line(alloc, own, text, &line, outside)
}

/// What a text of specs of this name gives a line whose switches these are.
fn worked_by<S: System>(
    alloc: Global,
    own: &OwnSpecs<'_>,
    name: &[u8],
    seen: &DriverLine,
    outside: &mut Outside<'_, S>,
) -> Result<Worked, Ending>
    ensures asks { Asked S.events outside.old outside.new }
    ensures works { (F : Facts) → Extends outside.new.facts.now F
        → prefixes_of F own.now.settings.now.prefixes ≡ Is own.now.prefixes.now
        → GivesKnown ending.OutOfMemory (λ made. made) result
        (worked_by F own.now.settings.now own.now.set.now (line_given seen.now)
        (text_of own.now.set.now name.now)) }
{
    match own.set.tree(name) {
        Some(text) => worked_for(alloc, own, text, seen, outside),
        None => Ok(Worked::Nothing),
    }
}

/// What the text of this name gives a line whose switches these are, with the specs of a line of the
/// driver.
///
/// # Errors
/// How the call ends: for lack of memory, or as by the first refusal of a line, of a spec file or of
/// that text.
#[tactic(auto, using(drv_system::proofs::AskedCalls::asked_further))]
pub(crate) fn text_worked<S: System>(
    alloc: Global,
    name: &[u8],
    first: &DriverLine,
    seen: &DriverLine,
    outside: &mut Outside<'_, S>,
) -> Result<Worked, Ending>
    ensures asks { Asked S.events outside.old outside.new }
    ensures works { (F : Facts) → Extends outside.new.facts.now F
        → GivesKnown ending.OutOfMemory (λ made. made) result
        (worked_of F name.now (line_given seen.now) (line_given first.now)) }
{
    let line = line_given(alloc, first)?;
    let settings = &line.settings;
    let prefixes = prefixes_of(alloc, settings, outside)?;
    let set = specs_of(alloc, settings, &prefixes, outside)?;
    let own = OwnSpecs {
        settings,
        set: &set,
        prefixes: &prefixes,
    };
    worked_by(alloc, &own, name, seen, outside)
}

/// The refusal of a text that gives more than options.
fn refused_more(alloc: Global) -> Result<Answer, AllocError>
    ensures { IfOk result (λ made. made ≡ answer.Refuse (refusal.GivenMore ∷ [])) }
{
    let mut refusals = Listing::new(alloc);
    refusals.push(Refusal::GivenMore)?;
    Ok(Answer::Refuse(refusals))
}

/// The names of options: those of the compiler, or else the ones that are known.
fn names_or_known<'a>(options: &'a Option<Word>, known: &'a [u8]) -> &'a [u8]
    ensures { result.now ≡ unwrap_or options.now known.now }
{
    match options {
        Some(options) => options.as_bytes(),
        None => known,
    }
}

/// The answer to a line that is given options.
#[tactic(auto, using(drv_system::proofs::AskedCalls::asked_further))]
fn answer_with<S: System>(
    alloc: Global,
    line: &GccLine<'_>,
    first: &DriverLine,
    given: &Given,
    outside: &mut Outside<'_, S>,
) -> Result<Answer, AllocError>
    ensures asks { Asked S.events outside.old outside.new }
    ensures answer { (F : Facts) → Extends outside.new.facts.now F → IfOk result (λ made.
        answer_by F line.now.chain.specs line.now.chain.around line.now.chain.known
        line.now.given.words first.now (worked.Gives given.now) ≡ Is (Ok (Some made))) }
{
    let chain = &line.chain;
    let options = known_names(alloc, chain.specs.as_bytes(), outside)?;
    let named = items_names(alloc, first.items.as_slice(), outside)?;
    let names = names_or_known(&options, chain.known.as_bytes());
    let beyond = OptionNames {
        known: names,
        named: named.as_slice(),
    };
    let args = line.given.words.as_slice();
    front_with(alloc, &beyond, &chain.around, args, given)
}

/// The answer to a line by what its spec files gave; none where it stays as it is.
fn answer_by<S: System>(
    alloc: Global,
    line: &GccLine<'_>,
    first: &DriverLine,
    worked: Worked,
    outside: &mut Outside<'_, S>,
) -> Result<Option<Answer>, AllocError>
    ensures asks { Asked S.events outside.old outside.new }
    ensures answer { (F : Facts) → Extends outside.new.facts.now F → IfOk result (λ made.
        answer_by F line.now.chain.specs line.now.chain.around line.now.chain.known
        line.now.given.words first.now worked ≡ Is (Ok made)) }
{
    match worked {
        Worked::Nothing => Ok(None),
        Worked::More => Ok(Some(refused_more(alloc)?)),
        Worked::Gives(given) => {
            let answer = answer_with(alloc, line, first, &given, outside)?;
            Ok(Some(answer))
        }
    }
}

/// The answer to a line that names spec files.
#[tactic(auto, using(drv_system::proofs::AskedCalls::asked_further))]
fn answer_of_specs<S: System>(
    alloc: Global,
    line: &GccLine<'_>,
    first: &DriverLine,
    outside: &mut Outside<'_, S>,
) -> Result<Option<Answer>, Ending>
    ensures asks { Asked S.events outside.old outside.new }
    ensures answer { (F : Facts) → Extends outside.new.facts.now F
        → GivesKnown ending.OutOfMemory (λ made. made) result
        (answer_after F line.now.chain.specs line.now.chain.around line.now.chain.known
        line.now.given.words first.now
        (self_worked F first.now (seen_items line.now.chain.known line.now.given.words))) }
{
    let known = line.chain.known.as_bytes();
    let items = seen_items(alloc, known, line.given.words.as_slice())?;
    let seen = DriverLine {
        items,
        from_file: first.from_file,
    };
    let worked = text_worked(alloc, b"gdrv_self", first, &seen, outside)?;
    let answer = answer_by(alloc, line, first, worked, outside)?;
    Ok(answer)
}

/// How many spec files items of the driver's line name.
pub(crate) fn count_specs(alloc: Global, items: &[Item]) -> Result<usize, AllocError>
    ensures { IfOk result (λ count. count ≡ length (specs_given items.now)) }
{
    Ok(specs_given(alloc, items)?.len())
}

/// The answer to a line with the options that its spec files give it, and none where it stays as it
/// is (GCC, "gcc.cc", set_up_specs, do_self_spec). The text `self_spec` is run once, after the last
/// spec file is loaded, with the switches of the line and no input.
///
/// `first` is the driver's line for it, after the spec file of the call. It asks the system only
/// where the table has no answer.
///
/// # Errors
/// How the call ends: for lack of memory, or as by the first refusal of the line, of a spec file
/// or of that text.
#[tactic(auto, using(drv_system::proofs::AskedCalls::asked_none))]
pub(crate) fn answer_given<S: System>(
    alloc: Global,
    line: &GccLine<'_>,
    first: &DriverLine,
    outside: &mut Outside<'_, S>,
) -> Result<Option<Answer>, Ending>
    ensures asks { Asked S.events outside.old outside.new }
    ensures answer { (F : Facts) → Extends outside.new.facts.now F
        → GivesKnown ending.OutOfMemory (λ made. made) result
        (answer_given F line.now.chain.specs line.now.chain.around line.now.chain.known
        line.now.given.words first.now) }
{
    if count_specs(alloc, first.items.as_slice())? <= 1 {
        return Ok(None);
    }
    answer_of_specs(alloc, line, first, outside)
}
