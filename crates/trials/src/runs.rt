//! Whole runs: of a plan, and over the script of standard input of a call of the driver. Prints the
//! steps with their answers, and the status; for a plan also the most events that it needs; for a
//! call also the messages and the ending.

ghost use Rattle.std.specs.Prelude.{◌≡◌, []};

use drv_core::events_needed;
use drv_run::{Ending, Refusal, drive, execute, fault_line};
use drv_system::{Event, HostSystem, ScriptSystem, System};
use drv_words::{Listing, Plan, Word, copy_words};
use std::alloc::{AllocError, Global};
use std::io;
use trial_parts::{
    Running, Transcript, add_events, choose_blocks, plan, read_lines, running_of, system,
};

/// The seed of the names of temporaries: they begin with `cc0000002a_`.
const SEED: u32 = 42;

/// How a plan is carried out.
#[derive(Clone, Copy)]
pub enum Way {
    /// Over the script of standard input.
    Scripted,
    /// On this machine.
    OnHost,
    /// Block by block, as the lines behind it say.
    Chosen,
}

/// Carries out a plan on a fresh system.
fn carry_out<S: System>(
    alloc: Global,
    sys: &mut S,
    plan: &Plan,
    running: Running,
    out: &mut Transcript,
) -> Result<(), AllocError>
    requires new { S.events sys.old ≡ [] }
{
    let sources = running.window.number();
    let status = execute(alloc, sys, plan, running.pass_codes, sources)?;
    add_events(sys.journal(), Some(plan), out)?;
    out.add_line(b"status ", usize::from(status))?;
    out.add_line(b"needed ", events_needed(plan).unwrap_or(0))
}

/// Carries out the plan of these lines over the script of these lines.
fn over_script(
    alloc: Global,
    lines: &[Listing<Word>],
    plan: &Plan,
    running: Running,
    out: &mut Transcript,
) -> Result<(), AllocError> {
    let mut sys = system(alloc, lines)?;
    carry_out(alloc, &mut sys, plan, running, out)
}

/// Carries out a plan on this machine.
fn on_host(
    rt: &HostRuntime,
    plan: &Plan,
    running: Running,
    out: &mut Transcript,
) -> Result<(), AllocError> {
    let mut sys = HostSystem::new(rt.clone()?);
    carry_out(rt.alloc(), &mut sys, plan, running, out)
}

/// Carries out the plan of standard input, with the window that the words say.
pub fn try_plan(
    rt: &HostRuntime,
    way: Way,
    words: &[Word],
    out: &mut Transcript,
) -> io::Result<()> {
    let Some(running) = running_of(words) else {
        return Ok(out.add(b"a window is 1 to 64\n")?);
    };
    let lines = read_lines(rt)?;
    let lines = lines.as_slice();
    let plan = plan(rt.alloc(), lines)?;
    match way {
        Way::Scripted => over_script(rt.alloc(), lines, &plan, running, out)?,
        Way::OnHost => on_host(rt, &plan, running, out)?,
        Way::Chosen => choose_blocks(rt.alloc(), &plan, lines, running, out)?,
    }
    Ok(())
}

/// Adds a refusal as the user reads it.
fn add_refusal(alloc: Global, refusal: &Refusal, out: &mut Transcript) -> Result<(), AllocError> {
    let line = fault_line(alloc, refusal)?;
    out.add(line.as_bytes())
}

/// Adds how a call ended.
fn add_ending(alloc: Global, ending: &Ending, out: &mut Transcript) -> Result<(), AllocError> {
    match ending {
        Ending::Done(status) => out.add_line(b"status ", usize::from(*status)),
        Ending::Refused(refusal) => add_refusal(alloc, refusal, out),
        Ending::OutOfMemory => out.add(b"out of memory\n"),
    }
}

/// Whether a step of a run was made.
fn has_step(events: &[Event]) -> bool {
    events
        .iter()
        .any(|event: &Event| matches!(event, Event::Run(_)))
}

/// Adds what a call did, and how it ended.
///
/// # Errors
/// A lack of memory, even if the call ended so; but if the call made a step before, that is wrong,
/// and is printed.
fn add_call(
    alloc: Global,
    events: &[Event],
    ending: &Ending,
    out: &mut Transcript,
) -> Result<(), AllocError> {
    if matches!(ending, Ending::OutOfMemory) && !has_step(events) {
        return Err(AllocError);
    }
    if events.is_empty() {
        out.add(b"no event\n")?;
    }
    add_events(events, None, out)?;
    add_ending(alloc, ending, out)
}

/// Calls the driver over the script of these lines.
fn drive_over(
    alloc: Global,
    lines: &[Listing<Word>],
    args: Listing<Word>,
    out: &mut Transcript,
) -> Result<(), AllocError> {
    let mut sys = system(alloc, lines)?;
    let ending = drive(alloc, &mut sys, args, SEED);
    add_call(alloc, sys.journal(), &ending, out)
}

/// Calls the driver with these arguments.
pub fn try_drive(rt: &HostRuntime, args: &[Word], out: &mut Transcript) -> io::Result<()> {
    let lines = read_lines(rt)?;
    let args = copy_words(rt.alloc(), args)?;
    Ok(drive_over(rt.alloc(), lines.as_slice(), args, out)?)
}
