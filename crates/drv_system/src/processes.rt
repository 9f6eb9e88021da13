//! Children of this process, and the pipes between them.

ghost use Rattle.drv_system.specs.Code.Output.{is_pipe};
ghost use Rattle.std.specs.Option.{IfSome};
ghost use Rattle.std.specs.Prelude.{◌≡◌, IfOk, is_some, true, vec_capacity, vec_len};

use crate::host::as_text;
use drv_words::{Command, NotStarted, WaitAnswer, Word};
use std::alloc::Global;
use std::io::{self, Error, ErrorKind, PipeReader};
use std::os::unix::process::ExitStatusExt;
use std::process::{self, Child, ExitStatus};

/// The destination of a command's standard output.
#[derive(Clone, Copy)]
pub enum Output {
    /// Into a new pipe.
    Pipe,
    /// The standard output of this process.
    Own,
}

/// Adds the words of a command.
fn add_words(made: &mut process::Command, words: &[Word]) -> io::Result<()> {
    for word in words {
        made.arg(text(word.as_bytes())?)?;
    }
    Ok(())
}

/// Sets variables, given by name and value, for one command.
fn set_variables(made: &mut process::Command, variables: &[(Word, Word)]) -> io::Result<()> {
    for variable in variables {
        made.env(text(variable.0.as_bytes())?, text(variable.1.as_bytes())?)?;
    }
    Ok(())
}

/// Adds the words of a command, and lets it read the end of a pipe, if one is given.
fn prepare(
    made: &mut process::Command,
    words: &[Word],
    variables: &[(Word, Word)],
    pending: &Option<PipeReader>,
) -> io::Result<()> {
    add_words(made, words)?;
    set_variables(made, variables)?;
    if let Some(reader) = pending {
        made.stdin(reader.try_clone()?);
    }
    Ok(())
}

/// A command with its words and variables, which reads the end of a pipe, if one is given.
fn command_of(
    alloc: Global,
    command: &Command,
    variables: &[(Word, Word)],
    pending: &Option<PipeReader>,
) -> io::Result<process::Command> {
    let program = text(command.program.as_bytes())?;
    let mut made = process::Command::new(alloc, program)?;
    prepare(&mut made, command.words.as_slice(), variables, pending)?;
    Ok(made)
}

/// Starts a command that writes a new pipe, and returns the reading end of that.
fn spawn_into_pipe(
    rt: &HostRuntime,
    made: &mut process::Command,
) -> io::Result<(Child, Option<PipeReader>)>
    ensures { IfOk result (λ started. is_some started.1 ≡ true) }
{
    let (reader, writer) = io::pipe(rt)?;
    made.stdout(writer);
    Ok((made.spawn(rt)?, Some(reader)))
}

/// Starts a command with this output.
fn spawn_made(
    rt: &HostRuntime,
    made: &mut process::Command,
    output: Output,
) -> io::Result<(Child, Option<PipeReader>)>
    ensures { IfOk result (λ started. is_some started.1 ≡ is_pipe output) }
{
    match output {
        Output::Pipe => spawn_into_pipe(rt, made),
        Output::Own => Ok((made.spawn(rt)?, None)),
    }
}

/// Starts a command with these variables and those of this process. It reads the given end of a
/// pipe, or else this process's standard input. Returns the reading end of a new pipe, if there is
/// one.
pub fn spawn(
    rt: &HostRuntime,
    command: &Command,
    variables: &[(Word, Word)],
    pending: &Option<PipeReader>,
    output: Output,
) -> io::Result<(Child, Option<PipeReader>)>
    ensures { IfOk result (λ started. is_some started.1 ≡ is_pipe output) }
{
    let mut made = command_of(rt.alloc(), command, variables, pending)?;
    spawn_made(rt, &mut made, output)
}

/// Starts a command with the streams and variables of this process, and waits until it ends.
///
/// # Errors
/// Why it could not be started.
pub fn call(rt: &HostRuntime, command: &Command) -> Result<WaitAnswer, NotStarted> {
    match spawn(rt, command, &[], &None, Output::Own) {
        Ok((child, _)) => Ok(answer_of(status_of(child))),
        Err(e) => Err(reason_of(&e)),
    }
}

/// The text of a word, or an error if it is not text.
fn text(word: &[u8]) -> io::Result<&str> {
    as_text(word).ok_or(Error::new(ErrorKind::InvalidInput, "a word is not UTF-8"))
}

/// Why a program was not started.
pub fn reason_of(error: &Error) -> NotStarted {
    match error.kind() {
        ErrorKind::NotFound | ErrorKind::NotADirectory => NotStarted::NotFound,
        ErrorKind::PermissionDenied => NotStarted::Denied,
        ErrorKind::OutOfMemory => NotStarted::NoMemory,
        _ => NotStarted::Other,
    }
}

/// Waits for the child of this number, whose place is then empty. Returns none if its end is
/// unknown.
pub fn wait_for(children: &mut Vec<Option<Child>>, id: u64) -> Option<ExitStatus>
    ensures len { vec_len children.new ≡ vec_len children.old }
    ensures room { vec_capacity children.new ≡ vec_capacity children.old }
{
    let index = usize::try_from(id).ok()?;
    let child = children.get_mut(index)?.take()?;
    status_of(child)
}

/// Whether the child of this number has ended, without waiting for it. The answer is also yes after
/// a wait for it, and if the question fails.
pub fn has_ended(children: &mut Vec<Option<Child>>, id: u64) -> bool
    ensures len { vec_len children.new ≡ vec_len children.old }
    ensures room { vec_capacity children.new ≡ vec_capacity children.old }
{
    let Ok(index) = usize::try_from(id) else {
        return true;
    };
    let Some(Some(child)) = children.get_mut(index) else {
        return true;
    };
    match child.try_wait() {
        Ok(None) => false,
        Ok(Some(_)) | Err(_) => true,
    }
}

/// The status of a child, once it has ended.
fn status_of(mut child: Child) -> Option<ExitStatus> {
    child.wait().ok()
}

/// How a child of this status ended.
pub fn answer_of(status: Option<ExitStatus>) -> WaitAnswer {
    let Some(status) = status else {
        return WaitAnswer::Lost;
    };
    match status.code() {
        Some(code) => match u8::try_from(code) {
            Ok(code) => WaitAnswer::Exit(code),
            Err(_) => WaitAnswer::Lost,
        },
        None => WaitAnswer::Signal,
    }
}

/// The signal that ended a child of this status, if one did.
pub fn signal_of(status: Option<ExitStatus>) -> Option<i32> {
    status?.signal()
}
