//! What the driver is called with for a line.

// In clauses: `Extends F G` says that G has every answer of F. `Asked` says that a call only asked,
// and that the table has the answers. `Noted before after P` says that the host was asked, and that
// P holds of these events. `IfTold stop P` says that P holds of the text of a stop, if it has one.
ghost use Rattle.drv_compile.specs.Driven.{IsCalled, IsChosen, IsDenied, IsMachined, IsMade, IsUnanswered};
ghost use Rattle.drv_compile.specs.Driven.{IsUncalled, IsUndrivenAfter, IsWorker, IsWorkerAfter};
ghost use Rattle.drv_compile.specs.Driven.{Passes, Replaces, Undriven, answer_of, driver_items};
ghost use Rattle.drv_compile.specs.Inputs.{Noted};
ghost use Rattle.drv_compile.specs.Tasks.{IfTold};
ghost use Rattle.drv_system.specs.Asking.{Extends};
ghost use Rattle.drv_system.specs.Code.Asked.{Asked};
ghost use Rattle.drv_system.specs.Facts.{Facts};
ghost use Rattle.drv_system.specs.Known.{Is};
ghost use Rattle.std.specs.Option.{option_copied};
ghost use Rattle.std.specs.Prelude.{◌≡◌, IfOk, MatchResult, Ok};

use crate::host::Host;
use crate::machines::{MachineItems, for_machines, items_by};
use crate::parts::{Texts, texts_asked};
use crate::passing::line_passed;
use crate::refusing::stop_after;
use crate::releases::children_by;
use crate::request::GccLine;
use crate::row_asking::row_asked;
use crate::running::DriverLine;
use crate::self_specs::answer_given;
use crate::stop::{Stop, undone};
use crate::suffixing::suffixed_by;
use crate::telling::refusals_text;
use crate::wording::damaged_text;
use drv_args::{Effect, Expanded, Item};
use drv_cc::{Answer, Call, Variable};
use drv_system::{Outside, System};
use drv_words::{Listing, Word};
use std::alloc::{AllocError, Global};

/// What the driver is called with.
#[derive(Drop)]
pub(crate) struct Driven {
    /// The driver's line.
    pub(crate) line: DriverLine,
    /// The variables that are set for its children.
    pub(crate) children: Listing<Variable>,
}

/// Who carries out a line.
#[derive(Drop)]
pub(crate) enum Worker {
    /// The driver, which is called so.
    Driver(Driven),
    /// Nobody: no row has the words for these options of the line.
    Nobody(Word),
}

/// The items of the driver's line: the spec file, that a front precedes it, and those of the front.
fn driver_items(
    alloc: Global,
    path: Word,
    items: Listing<Item>,
) -> Result<Listing<Item>, AllocError>
    ensures { IfOk result (λ all. all ≡ driver_items path items) }
{
    let mut all = Vec::new(alloc);
    all.push(Item {
        effect: Effect::Specs,
        option: Word::from_bytes(alloc, b"-specs=")?,
        argument: path,
    })?;
    all.push(Item {
        effect: Effect::Switch,
        option: Word::from_bytes(alloc, b"--gdrv-front")?,
        argument: Word::empty(alloc),
    })?;
    all.append(&mut items.into_vec())?;
    Ok(Listing::from_vec(all))
}

/// Who carries out a line with these items, with this file that has its texts, and with the suffix
/// of programs that the rows name.
fn made_call(
    alloc: Global,
    path: Word,
    rows: Option<&[u8]>,
    made: MachineItems,
    given: &Expanded,
) -> Result<Worker, AllocError>
    ensures { IfOk result (λ worker. IsMade path (option_copied rows.entry) made given.now worker) }
{
    match made {
        MachineItems::Lacks(options) => Ok(Worker::Nobody(options)),
        MachineItems::Made(items, children) => {
            let suffixed = suffixed_by(alloc, rows, items)?;
            let all = driver_items(alloc, path, suffixed)?;
            let line = DriverLine {
                items: all,
                from_file: given.from_file,
            };
            Ok(Worker::Driver(Driven { line, children }))
        }
    }
}

/// Who carries out a line by itself, with the file at this path, which has its texts. The host is
/// asked for a row that the text about the compiler lacks.
fn machined_call<S: System, H: Host<S>>(
    alloc: Global,
    line: &GccLine<'_>,
    path: Word,
    call: Call,
    host: &mut H,
) -> Result<Worker, AllocError>
    ensures { Noted (H.notes host.old) (H.notes host.new)
        (λ events. IfOk result (λ worker. IsMachined line.now.chain path call line.now.given
        events worker)) }
{
    let about = line.chain.about.as_bytes();
    let rows = for_machines(about);
    let row = row_asked(alloc, &line.chain.specs, rows, call.items.as_slice(), host)?;
    let children = children_by(alloc, about, call.children)?;
    let made = items_by(alloc, row, call.items, children)?;
    made_call(alloc, path, rows, made, &line.given)
}

/// Who carries out a line by itself, with the file that has its texts.
///
/// # Errors
/// The text about a file that is missing or not whole.
fn driver_of_call<S: System, H: Host<S>>(
    alloc: Global,
    line: &GccLine<'_>,
    call: Call,
    outside: &mut Outside<'_, S>,
    host: &mut H,
) -> Result<Worker, Stop>
    ensures asks { Asked S.events outside.old outside.new }
    ensures calls { Noted (H.notes host.old) (H.notes host.new)
        (λ events. (F : Facts) → Extends outside.new.facts.now F
        → MatchResult result
        (λ worker. IsCalled F line.now.chain call line.now.given events worker)
        (λ stop. IfTold stop
        (IsUncalled F line.now.request.now.calling.now line.now.chain.specs call events))) }
{
    let specs = line.chain.specs.as_bytes();
    let texts = texts_asked(alloc, specs, call.items.as_slice(), call.stages, outside)?;
    match texts {
        Texts::Whole(path) => {
            let worker = machined_call(alloc, line, path, call, host)?;
            Ok(worker)
        }
        Texts::Damaged(path) => {
            let text = damaged_text(alloc, line.request.calling, path.as_bytes(), specs)?;
            Err(Stop::Told(text))
        }
    }
}

/// What the spec files of a line give it.
///
/// # Errors
/// The text of the refusal of one of them.
#[tactic(auto, using(drv_system::proofs::AskedCalls::asked_further))]
fn answer<S: System>(
    alloc: Global,
    line: &GccLine<'_>,
    first: &Driven,
    outside: &mut Outside<'_, S>,
) -> Result<Option<Answer>, Stop>
    ensures asks { Asked S.events outside.old outside.new }
    ensures answers { (F : Facts) → Extends outside.new.facts.now F
        → MatchResult result
        (λ answer. answer_of F line.now.chain line.now.given first.now ≡ Is (Ok answer))
        (λ stop. IfTold stop
        (IsUnanswered F line.now.request.now.calling.now.name line.now.chain line.now.given first.now)) }
{
    let name = line.request.calling.name.as_bytes();
    match answer_given(alloc, line, &first.line, outside) {
        Ok(answer) => Ok(answer),
        Err(ending) => Err(stop_after(alloc, name, &ending)),
    }
}

/// The call that the spec files of a line ask for in its place, if they ask for one.
///
/// # Errors
/// The text of the refusal of what they gave.
fn call_given(
    alloc: Global,
    line: &GccLine<'_>,
    answer: Option<Answer>,
) -> Result<Option<Call>, Stop>
    ensures { MatchResult result (λ call. Replaces answer call)
        (λ stop. IfTold stop (IsDenied line.now.request.now.calling.now line.now.chain answer)) }
{
    match answer {
        Some(Answer::Run(call)) => Ok(Some(call)),
        Some(Answer::Refuse(refusals)) => {
            let name = line.request.calling.name.as_bytes();
            let known = line.chain.known.as_bytes();
            let text = refusals_text(alloc, name, known, refusals.as_slice())?;
            Err(Stop::Told(text))
        }
        Some(Answer::Ask) => Ok(None),
        None => Ok(None),
    }
}

/// Who carries out a line that the driver would be called with so, with the options that the spec
/// files of the line give it.
///
/// # Errors
/// The text of a refusal.
#[tactic(auto, using(drv_system::proofs::AskedCalls::asked_further))]
fn worker_after<S: System, H: Host<S>>(
    alloc: Global,
    line: &GccLine<'_>,
    first: Driven,
    outside: &mut Outside<'_, S>,
    host: &mut H,
) -> Result<Worker, Stop>
    ensures asks { Asked S.events outside.old outside.new }
    ensures drives { Noted (H.notes host.old) (H.notes host.new)
        (λ events. (F : Facts) → Extends outside.new.facts.now F
        → MatchResult result
        (λ worker. IsWorkerAfter F line.now.chain line.now.given first events worker)
        (λ stop. IfTold stop
        (IsUndrivenAfter F line.now.request.now.calling.now line.now.chain line.now.given first events))) }
{
    match answer(alloc, line, &first, outside) {
        Ok(answer) => match call_given(alloc, line, answer)? {
            Some(call) => driver_of_call(alloc, line, call, outside, host),
            None => Ok(Worker::Driver(first)),
        },
        Err(stop) => Err(undone(stop, first.line)),
    }
}

/// Who carries out a line, with the options that its spec files give it. The driver's line has no
/// libraries of its link.
///
/// # Errors
/// The text of a refusal.
#[tactic(auto, using(drv_system::proofs::AskedCalls::asked_further))]
fn chosen_worker<S: System, H: Host<S>>(
    alloc: Global,
    line: &GccLine<'_>,
    call: Call,
    outside: &mut Outside<'_, S>,
    host: &mut H,
) -> Result<Worker, Stop>
    ensures asks { Asked S.events outside.old outside.new }
    ensures drives { Noted (H.notes host.old) (H.notes host.new)
        (λ events. (F : Facts) → Extends outside.new.facts.now F
        → MatchResult result
        (λ worker. IsChosen F line.now.chain call line.now.given events worker)
        (λ stop. IfTold stop
        (Undriven F line.now.request.now.calling.now line.now.chain call line.now.given events))) }
{
    match driver_of_call(alloc, line, call, outside, host)? {
        Worker::Driver(first) => worker_after(alloc, line, first, outside, host),
        Worker::Nobody(options) => Ok(Worker::Nobody(options)),
    }
}

/// What the driver is called with, with the libraries of the link.
fn with_libraries<S: System>(
    alloc: Global,
    driven: Driven,
    outside: &mut Outside<'_, S>,
) -> Result<Driven, AllocError>
    ensures asks { Asked S.events outside.old outside.new }
    ensures passes { (F : Facts) → Extends outside.new.facts.now F
        → IfOk result (λ made. Passes F driven made) }
{
    let Driven { line, children } = driven;
    let line = line_passed(alloc, line, outside)?;
    Ok(Driven { line, children })
}

/// Who carries out a line, with the options and libraries that its spec files give it. It asks the
/// system only where the table has no answer, and the host for a row that the file lacks.
///
/// # Errors
/// The text of a refusal.
#[tactic(auto, using(drv_system::proofs::AskedCalls::asked_further))]
pub(crate) fn worker_of<S: System, H: Host<S>>(
    alloc: Global,
    line: &GccLine<'_>,
    call: Call,
    outside: &mut Outside<'_, S>,
    host: &mut H,
) -> Result<Worker, Stop>
    ensures asks { Asked S.events outside.old outside.new }
    ensures drives { Noted (H.notes host.old) (H.notes host.new)
        (λ events. (F : Facts) → Extends outside.new.facts.now F
        → MatchResult result
        (λ worker. IsWorker F line.now.chain call line.now.given events worker)
        (λ stop. IfTold stop
        (Undriven F line.now.request.now.calling.now line.now.chain call line.now.given events))) }
{
    match chosen_worker(alloc, line, call, outside, host)? {
        Worker::Driver(driven) => {
            let passed = with_libraries(alloc, driven, outside)?;
            Ok(Worker::Driver(passed))
        }
        Worker::Nobody(options) => Ok(Worker::Nobody(options)),
    }
}
