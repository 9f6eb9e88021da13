//! The compiler driver under the name that people call: a line of gcc in, or one of c99, its
//! commands carried out by the driver with the spec file beside the program.
#![tactic(auto)]

ghost use Rattle.gdrv_cc.specs.Endings.{after_crash, status_of};
ghost use Rattle.std.specs.Prelude.{◌≡◌};

mod completion;

use completion::{asks_completion, write_completion};
use drv_compile::{Outcome, Process, Request, calling_of, compile, own_specs};
use drv_system::{HostSystem, Reporter, arguments, called_as, clock_seed, complain};
use std::io::{self, ErrorKind};
use std::mem::forget;
use std::process::ExitCode;

const OUT_OF_MEMORY: &[u8] = b"gdrv-cc: error: out of memory\n";

/// The exit status of a call in which a command of the compiler crashed (`ICE_EXIT_CODE` of gcc).
const CRASHED: u8 = 4;

/// The exit status of an outcome. Where memory lacked, it says so.
fn finish(rt: &HostRuntime, outcome: &Outcome) -> ExitCode
    ensures { result.status ≡ status_of outcome.now }
{
    match outcome {
        Outcome::Done(status) => ExitCode::from(*status),
        Outcome::Unnoted(status) => {
            complain(rt, OUT_OF_MEMORY);
            ExitCode::from(*status)
        }
        Outcome::OutOfMemory => {
            complain(rt, OUT_OF_MEMORY);
            ExitCode::from(1)
        }
    }
}

/// Ends with status 1 for lack of arguments, and says why.
fn without_arguments(rt: &HostRuntime, error: &io::Error) -> ExitCode
    ensures { result.status ≡ 1 }
{
    match format!(in rt.alloc(); "gdrv-cc: error: {error}\n") {
        Ok(text) if error.kind() != ErrorKind::OutOfMemory => complain(rt, text.as_bytes()),
        _ => complain(rt, OUT_OF_MEMORY),
    }
    ExitCode::from(1)
}

/// The outcome of a call in which a command of the compiler crashed, with gcc's status for that.
fn after_crash(outcome: Outcome) -> Outcome
    ensures { result ≡ after_crash outcome }
{
    match outcome {
        Outcome::Done(_) => Outcome::Done(CRASHED),
        Outcome::Unnoted(_) => Outcome::Unnoted(CRASHED),
        Outcome::OutOfMemory => Outcome::OutOfMemory,
    }
}

/// Prints what bash reads to complete words. The exit status is 1 where it couldn't be written.
fn answer(rt: &HostRuntime) -> Outcome {
    let stream = rt.stdout();
    match write_completion(&mut io::writer(&stream)) {
        Ok(()) => Outcome::Done(0),
        Err(_) => Outcome::Done(1),
    }
}

/// Has this process's call done.
fn call(rt: &HostRuntime) -> io::Result<Outcome> {
    let path = called_as(rt)?;
    let calling = calling_of(rt.alloc(), path.as_bytes())?;
    let args = arguments(rt)?;
    if asks_completion(calling.front, args.as_slice()) {
        return Ok(answer(rt));
    }
    let own = own_specs(rt, calling.machine.as_bytes())?;
    let seed = clock_seed(rt)?;
    let mut sys = HostSystem::reporting_as(rt.clone()?, Reporter::GdrvCc);
    let mut host = Process::new(rt.clone()?);
    let request = Request {
        calling: &calling,
        own: &own,
        args: &args,
        seed,
    };
    let outcome = compile(rt.alloc(), &request, &mut sys, &mut host);
    let has_crashed = sys.has_crashed();
    // The process ends: what dropping them takes is saved.
    forget(sys);
    forget(host);
    Ok(if has_crashed {
        after_crash(outcome)
    } else {
        outcome
    })
}

fn main(rt: HostRuntime) -> ExitCode {
    match call(&rt) {
        Ok(outcome) => finish(&rt, &outcome),
        Err(e) => without_arguments(&rt, &e),
    }
}
