//! The tools for spec files: they say what a command would do, and do not do it.
#![tactic(auto)]

mod calling;
mod checks;
mod colouring;
mod command_line;
mod differing;
mod explaining;
mod forms;
mod help;
mod options;
mod outcome;
mod planning;
mod printing;
mod reading;
mod requesting;
mod running;
mod warning_names;

use calling::{Call, call_of};
use checks::tell_check;
use colouring::Style;
use differing::tell_difference;
use drv_compile::Process;
use drv_run::Ending;
use drv_system::{HostSystem, arguments, complain};
use drv_words::Word;
use explaining::tell_why;
use outcome::{Outcome, TROUBLE};
use planning::tell_plan;
use printing::Printer;
use running::tell_after;
use std::alloc::AllocError;
use std::io::{self, ErrorKind};
use std::process::ExitCode;

const OUT_OF_MEMORY: &[u8] = b"gdrv-specs: out of memory\n";

/// Tells the user of an outcome, and gives its exit status. Of the bytes of its text none steers a
/// terminal but those of its colours.
fn finish(rt: &HostRuntime, printer: &Printer, outcome: &Outcome) -> Result<ExitCode, AllocError> {
    let text = outcome.text(rt.alloc())?;
    let shown = printer.shown(rt.alloc(), Style::Findings, &text)?;
    complain(rt, shown.as_bytes());
    Ok(ExitCode::from(outcome.status()))
}

/// Does what a call asks for.
fn act(rt: &HostRuntime, sys: &mut HostSystem, call: &Call) -> Result<Outcome, Outcome> {
    let alloc = rt.alloc();
    let printer = &Printer::to_output(rt, sys)?;
    let host = &mut Process::new(rt.clone()?);
    let status = match call {
        Call::Ask(asked) => match asked.answer(&mut io::writer(&rt.stdout())) {
            Ok(()) => 0,
            Err(_) => TROUBLE,
        },
        Call::Plan(form, command) => return Ok(tell_plan(alloc, sys, host, *form, command)),
        Call::After(failures, command) => {
            tell_after(alloc, sys, host, printer, failures.as_slice(), command)?
        }
        Call::Differ(comparison) => tell_difference(alloc, sys, host, printer, comparison)?,
        Call::Check(request) => tell_check(alloc, sys, printer, request)?,
        Call::Why(asked, command) => tell_why(alloc, sys, host, printer, asked, command)?,
    };
    Ok(Outcome::Ended(Ending::Done(status)))
}

/// Does what the arguments of this process ask for, and tells the user how it ended.
fn run(rt: &HostRuntime, args: &[Word]) -> Result<ExitCode, AllocError> {
    let mut sys = HostSystem::new(rt.clone()?);
    match call_of(rt, args) {
        Ok(call) => {
            let printer = Printer::to_error(rt, &mut sys)?;
            let (Ok(outcome) | Err(outcome)) = act(rt, &mut sys, &call);
            finish(rt, &printer, &outcome)
        }
        Err(fault) => finish(rt, &Printer { colours: None }, &Outcome::Misused(fault)),
    }
}

/// Ends for lack of arguments, and says why.
fn without_arguments(rt: &HostRuntime, error: &io::Error) -> ExitCode {
    match format!(in rt.alloc(); "gdrv-specs: {error}\n") {
        Ok(text) if error.kind() != ErrorKind::OutOfMemory => complain(rt, text.as_bytes()),
        _ => complain(rt, OUT_OF_MEMORY),
    }
    ExitCode::from(TROUBLE)
}

fn main(rt: HostRuntime) -> ExitCode {
    let args = match arguments(&rt) {
        Ok(args) => args,
        Err(e) => return without_arguments(&rt, &e),
    };
    match run(&rt, args.as_slice()) {
        Ok(status) => status,
        Err(_) => {
            complain(&rt, OUT_OF_MEMORY);
            ExitCode::from(TROUBLE)
        }
    }
}
