//! A call of `gdrv-cc`.

// In clauses: `Noted before after P` says that the host was asked, and that P holds of these
// events.
ghost use Rattle.drv_compile.specs.Code.Compiling.{Carried, IsClosed, IsOpened, Noting, Spoken};
ghost use Rattle.drv_compile.specs.Code.Compiling.{TellsStop, TellsText, Worked};
ghost use Rattle.drv_compile.specs.Compiles.{Compiled, is_absent, is_missing, is_own};
ghost use Rattle.drv_compile.specs.Compiles.{jobs_before_link, lacks_program, program_of, settings};
ghost use Rattle.drv_compile.specs.Settling.{Going};
ghost use Rattle.drv_compile.specs.Inputs.{Noted};
ghost use Rattle.drv_compile.specs.declared.host.HostEvent.{HostEvent};
ghost use Rattle.drv_system.specs.Running.{run_of};
ghost use Rattle.drv_system.specs.declared.event.Event.{Event};
ghost use Rattle.drv_words.specs.Stepping.{pipe_pending};
ghost use Rattle.std.specs.Option.{option_copied};
ghost use Rattle.std.specs.Prelude.{◌≡◌, ◌≤◌, List, OnErr, OnOk, false, length};

use crate::host::Host;
use crate::preparing::{Prepared, prepare};
use crate::request::Request;
use crate::stop::Stop;
use crate::temp_folder::settle;
use drv_cc::Variable;
use drv_run::{Work, do_work};
use drv_system::{Event, FactTable, Outside, System};
use drv_words::{Answer, Job, NotStarted, Place, RunEvent, StartAnswer, Step, Word};
use std::alloc::{AllocError, Global};

/// How a call ends.
#[derive(Debug, Drop)]
pub enum Outcome {
    /// All was done and said, with this exit status.
    Done(u8),
    /// All was done, with this exit status. An allocation for what is said after it was refused.
    Unnoted(u8),
    /// An allocation was refused, and nothing was made or started.
    OutOfMemory,
}

/// Sets the variables of a line for children.
fn set_children<S: System, H: Host<S>>(
    children: &[Variable],
    sys: &mut S,
    host: &mut H,
) -> Result<(), AllocError>
    ensures sets { Noted (H.notes host.old) (H.notes host.new)
        (λ events. OnOk result
        (events ≡ settings (length (S.events sys.old)) children.now)) }
    ensures unchanged { S.events sys.new ≡ S.events sys.old }
{
    for variable in children {
        host.set_for_children(sys, variable)?;
    }
    Ok(())
}

/// Whether an answer is that a program was not found.
fn is_missing(answer: Answer) -> bool
    ensures { result ≡ is_missing answer }
{
    matches!(
        answer,
        Answer::Start(StartAnswer::NotStarted(NotStarted::NotFound))
    )
}

/// The jobs of a work before its link.
fn jobs_before_link(work: &Work) -> &[Job]
    ensures { result.now ≡ jobs_before_link work.now }
{
    match work {
        Work::Dump(_) => &[],
        Work::Show(plan) | Work::CarryOut { plan, .. } => plan.jobs.as_slice(),
    }
}

/// The program that a step starts for one of these jobs, if it starts one.
fn program_of(jobs: &[Job], step: Step) -> Option<&Word>
    ensures { option_copied result ≡ program_of jobs.now step }
{
    match step {
        Step::Start {
            place: Place::Command { job, group, index },
            ..
        } => {
            let group = jobs.get(job)?.groups.as_slice().get(group)?;
            Some(&group.as_slice().get(index)?.program)
        }
        _ => None,
    }
}

/// Whether there is a program, and it is another than the wrapper of the line.
fn is_own(wrapper: &Word, program: Option<&Word>) -> bool
    ensures { result ≡ is_own wrapper.now (option_copied program.entry) }
{
    match program {
        Some(program) => program.as_bytes() != wrapper.as_bytes(),
        None => false,
    }
}

/// Whether an event says that a program of one of these jobs was not found, which is not the
/// wrapper of the line.
fn is_absent(jobs: &[Job], wrapper: &Word, event: &Event) -> bool
    ensures { result ≡ is_absent jobs.now wrapper.now event.now }
{
    match event {
        Event::Run(RunEvent { step, answer }) => {
            is_missing(*answer) && is_own(wrapper, program_of(jobs, *step))
        }
        _ => false,
    }
}

/// Whether a program of the compiler was not found, which is no linker and no wrapper.
fn lacks_program(prepared: &Prepared, events: &[Event]) -> bool
    ensures { result ≡ lacks_program prepared.now events.now }
{
    let jobs = jobs_before_link(&prepared.work);
    events
        .iter()
        .any(|event| is_absent(jobs, &prepared.wrapper, event))
}

/// Says a text after a work, if there is one.
fn say_after<S: System>(sys: &mut S, text: &Word, status: u8) -> Outcome
    requires pipe { pipe_pending (run_of (S.events sys.old)) ≡ false }
    ensures closes { IsClosed (S.events sys.old) (S.events sys.new) text.now status result }
    ensures pipe { pipe_pending (run_of (S.events sys.new)) ≡ false }
{
    if text.is_empty() {
        return Outcome::Done(status);
    }
    match sys.say(text) {
        Ok(_) => Outcome::Done(status),
        Err(_) => Outcome::Unnoted(status),
    }
}

/// Says the hint if the work after the first `before` events did not find a program of the
/// compiler, or else the remark.
fn say_hint_or_remark<S: System>(
    sys: &mut S,
    before: usize,
    prepared: &Prepared,
    status: u8,
) -> Outcome
    requires pipe { pipe_pending (run_of (S.events sys.old)) ≡ false }
    requires before { before ≤ length (S.events sys.old) }
    ensures notes { Noting (S.events sys.old) (S.events sys.new) before prepared.now status result }
    ensures pipe { pipe_pending (run_of (S.events sys.new)) ≡ false }
{
    let text = if lacks_program(prepared, &sys.journal()[before..]) {
        &prepared.hint
    } else {
        &prepared.remark
    };
    say_after(sys, text, status)
}

/// Does what is prepared, and says the hint where its run does not find a program of the compiler,
/// or else the remark.
fn carry_out<S: System>(alloc: Global, name: &[u8], prepared: &Prepared, sys: &mut S) -> Outcome
    requires pipe { pipe_pending (run_of (S.events sys.old)) ≡ false }
    ensures does { Worked name.now (S.events sys.old) (S.events sys.new) prepared.now result }
    ensures pipe { pipe_pending (run_of (S.events sys.new)) ≡ false }
{
    let before = sys.journal().len();
    match do_work(alloc, sys, name, &prepared.work) {
        Ok(status) => say_hint_or_remark(sys, before, prepared, status),
        Err(_) => Outcome::OutOfMemory,
    }
}

/// Says what is said before a work, if there is anything.
fn say_before<S: System>(sys: &mut S, said: &Word) -> Result<(), AllocError>
    requires pipe { pipe_pending (run_of (S.events sys.old)) ≡ false }
    ensures opens { OnOk result (IsOpened (S.events sys.old) (S.events sys.new) said.now) }
    ensures memory { OnErr result (S.events sys.new ≡ S.events sys.old) }
    ensures pipe { pipe_pending (run_of (S.events sys.new)) ≡ false }
{
    if !said.is_empty() {
        sys.say(said)?;
    }
    Ok(())
}

/// Says what is said before the work of what is prepared, and does that.
fn say_and_carry_out<S: System>(
    alloc: Global,
    name: &[u8],
    prepared: &Prepared,
    sys: &mut S,
) -> Outcome
    requires pipe { pipe_pending (run_of (S.events sys.old)) ≡ false }
    ensures does { Spoken name.now (S.events sys.old) (S.events sys.new) prepared.now result }
    ensures pipe { pipe_pending (run_of (S.events sys.new)) ≡ false }
{
    match say_before(sys, &prepared.said) {
        Ok(()) => carry_out(alloc, name, prepared, sys),
        Err(_) => Outcome::OutOfMemory,
    }
}

/// Sets the variables for the children of what is prepared, says what is said first, and does it.
fn carried_out<S: System, H: Host<S>>(
    alloc: Global,
    name: &[u8],
    prepared: &Prepared,
    sys: &mut S,
    host: &mut H,
) -> Outcome
    requires pipe { pipe_pending (run_of (S.events sys.old)) ≡ false }
    ensures carries { Noted (H.notes host.old) (H.notes host.new)
        (λ events. Carried name.now (S.events sys.old) (S.events sys.new) prepared.now events
        result) }
    ensures pipe { pipe_pending (run_of (S.events sys.new)) ≡ false }
{
    match set_children(prepared.children.as_slice(), sys, host) {
        Ok(()) => say_and_carry_out(alloc, name, prepared, sys),
        Err(_) => Outcome::OutOfMemory,
    }
}

/// Says the text of a refusal.
fn say_refusal<S: System>(sys: &mut S, text: &Word) -> Outcome
    requires pipe { pipe_pending (run_of (S.events sys.old)) ≡ false }
    ensures tells { TellsText (S.events sys.old) (S.events sys.new) text.now result }
    ensures pipe { pipe_pending (run_of (S.events sys.new)) ≡ false }
{
    match sys.say(text) {
        Ok(_) => Outcome::Done(1),
        Err(_) => Outcome::OutOfMemory,
    }
}

/// Says why a call ends before its work.
fn say_stop<S: System>(sys: &mut S, stop: &Stop) -> Outcome
    requires pipe { pipe_pending (run_of (S.events sys.old)) ≡ false }
    ensures tells { TellsStop (S.events sys.old) (S.events sys.new) stop.now result }
    ensures pipe { pipe_pending (run_of (S.events sys.new)) ≡ false }
{
    match stop {
        Stop::Told(text) | Stop::Undone(text, _) => say_refusal(sys, text),
        Stop::Memory => Outcome::OutOfMemory,
    }
}

/// A call over a table that has the folder of temporaries.
#[tactic(auto, using(drv_run::proofs::Endings::no_pipe_after_questions))]
fn compile_settled<S: System, H: Host<S>>(
    alloc: Global,
    request: &Request<'_>,
    sys: &mut S,
    facts: &mut FactTable,
    host: &mut H,
) -> Outcome
    requires pipe { pipe_pending (run_of (S.events sys.old)) ≡ false }
    ensures compiled { (journal : List Event) (notes : List HostEvent)
        → Going journal (S.events sys.old) notes (H.notes host.old) facts.old
        → Compiled journal (S.events sys.new) notes (H.notes host.new) request.now.calling.now
        request.now.own.now request.now.args.now request.now.seed result }
    ensures pipe { pipe_pending (run_of (S.events sys.new)) ≡ false }
{
    match prepare(alloc, request, &mut Outside { sys, facts }, host) {
        Ok(prepared) => {
            let name = request.calling.name.as_bytes();
            carried_out(alloc, name, &prepared, sys, host)
        }
        Err(stop) => say_stop(sys, &stop),
    }
}

/// A call of `gdrv-cc` with these arguments (GCC manual, "Invoking GCC"; as `c99`, POSIX c99).
///
/// The call first asks for the folder of temporaries: TMPDIR, TMP and TEMP may name it, if files can
/// be made there.
///
/// A line that is a question goes to the compiler of the spec file: the call starts it with the same
/// arguments, and its status is the answer. Of a refused line the call says why, with the status 1.
/// Any other line is carried out by the driver over the set of that spec file, with its variables
/// set for the children. Where no row has the words for the line's machine, the host asks the
/// compiler for them, and if it gives none, the line is refused. Where the run does not find a
/// program of a source, or the compiler of a question, the call says a hint. It says none about a
/// linker or a wrapper, which the line may choose.
///
/// A refused call, and one that lacks memory, makes and starts nothing. No pipe is pending after a
/// call.
#[tactic(auto, using(crate::proofs::Settled::no_pipe_begun))]
pub fn compile<S: System, H: Host<S>>(
    alloc: Global,
    request: &Request<'_>,
    sys: &mut S,
    host: &mut H,
) -> Outcome
    requires pipe { pipe_pending (run_of (S.events sys.old)) ≡ false }
    ensures compiled { Compiled (S.events sys.old) (S.events sys.new)
        (H.notes host.old) (H.notes host.new) request.now.calling.now request.now.own.now
        request.now.args.now request.now.seed result }
    ensures pipe { pipe_pending (run_of (S.events sys.new)) ≡ false }
{
    let facts = &mut FactTable::new(alloc);
    match settle(alloc, sys, facts, host) {
        Ok(()) => compile_settled(alloc, request, sys, facts, host),
        Err(_) => Outcome::OutOfMemory,
    }
}
