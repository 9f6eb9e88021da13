//! The driver program: carries out a command line. It prints a plan or a refusal to standard error,
//! and the specs to standard output.
#![tactic(auto)]

ghost use Rattle.drv_run.specs.Exits.{exit_status_of, told_of};
ghost use Rattle.std.specs.Io.KnownBytes.{Appends};
ghost use Rattle.std.specs.Prelude.{◌≡◌, OnOk};

mod question;
mod records;

use drv_run::{Ending, drive, ending_text};
use drv_system::{HostSystem, System, arguments, clock_seed, complain};
use drv_words::{Listing, Word};
use question::{Question, question_of};
use records::tell_of_records;
use std::alloc::{AllocError, Global};
use std::io::{self, ErrorKind, Write};
use std::process::ExitCode;

/// The message where there is no memory for another one.
const OUT_OF_MEMORY: &[u8] = b"gdrv: out of memory\n";

/// The message on an argument that is not UTF-8.
const BAD_ARGUMENT: &[u8] = b"gdrv: bad argument\n";

/// Writes what the user gets of an ending, and no byte more: one line, or nothing where the work was
/// done.
///
/// # Errors
/// Lack of memory, or why it could not be written.
fn tell<W: Write>(alloc: Global, to: &mut W, ending: &Ending) -> io::Result<()>
    ensures { OnOk result
        (Appends (W.contents to.old) (W.contents to.new) (told_of ending.now)) }
{
    let text = ending_text(alloc, ending)?;
    to.write_all(text.as_bytes())
}

/// Reports an ending to the user, and returns its exit status.
fn finish(rt: &HostRuntime, ending: &Ending) -> ExitCode
    ensures { result.status ≡ exit_status_of ending.now }
{
    let stream = rt.stderr();
    if let Err(e) = tell(rt.alloc(), &mut io::writer(&stream), ending) {
        if e.kind() == ErrorKind::OutOfMemory {
            complain(rt, OUT_OF_MEMORY);
        }
    }
    ExitCode::from(ending.exit_status())
}

/// Reports that the arguments can't be read, and returns status 1.
fn without_arguments(rt: &HostRuntime, error: &io::Error) -> ExitCode
    ensures { result.status ≡ 1 }
{
    if error.kind() == ErrorKind::OutOfMemory {
        complain(rt, OUT_OF_MEMORY);
    } else {
        complain(rt, BAD_ARGUMENT);
    }
    ExitCode::from(1)
}

/// Answers a question on standard output. Returns the exit status, which is 1 if the answer
/// couldn't be written.
fn answer(rt: &HostRuntime, asked: Question) -> ExitCode {
    let stream = rt.stdout();
    match asked.answer(&mut io::writer(&stream)) {
        Ok(()) => ExitCode::from(0),
        Err(_) => ExitCode::from(1),
    }
}

/// Runs the driver for this process. On a terminal it adds a line if the built-in specs alone were
/// used, since then nothing was compiled.
fn call(rt: &HostRuntime, args: Listing<Word>) -> Result<ExitCode, AllocError> {
    let seed = clock_seed(rt)?;
    let mut sys = HostSystem::new(rt.clone()?);
    let ending = drive(rt.alloc(), &mut sys, args, seed);
    let status = finish(rt, &ending);
    tell_of_records(rt, sys.journal());
    Ok(status)
}

/// Answers a question about the program, or runs the driver.
fn main(rt: HostRuntime) -> ExitCode {
    let args = match arguments(&rt) {
        Ok(args) => args,
        Err(e) => return without_arguments(&rt, &e),
    };
    match question_of(args.as_slice()) {
        Some(asked) => answer(&rt, asked),
        None => match call(&rt, args) {
            Ok(status) => status,
            Err(_) => finish(&rt, &Ending::OutOfMemory),
        },
    }
}
