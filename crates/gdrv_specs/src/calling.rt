//! What a call of the program asks for.

use crate::command_line::{CommandLine, Program, command_of};
use crate::differing::{Comparison, side_of};
use crate::forms::Form;
use crate::help::Question;
use crate::options::{Tool, near_tool, tool_named};
use crate::requesting::{Request, path_of, request_of};
use drv_why::Asked;
use drv_words::{Listing, Word};
use std::alloc::{AllocError, Global};

/// What a call asks for.
#[derive(Drop)]
pub enum Call {
    /// What the program says of itself.
    Ask(Question),
    /// The plan of a command, in a form.
    Plan(Form, CommandLine),
    /// The run of a command, in which these commands fail, as `PLACE=ANSWER`.
    After(Listing<Word>, CommandLine),
    /// What differs between the plans of a command with one spec file and with another.
    Differ(Comparison),
    /// What is found in spec files.
    Check(Request),
    /// Where the words of a command's plan are from, or what kept one away.
    Why(Asked, CommandLine),
}

/// Why a call asks for nothing.
#[derive(Drop)]
pub enum CallFault {
    /// Memory was wanted.
    Memory,
    /// It has no word.
    NoTool,
    /// No tool has the name that is its first word; one may be near.
    UnknownTool {
        word: Word,
        near: Option<Word>,
    },
    /// The tool has no such option; one may be near.
    UnknownOption {
        tool: Tool,
        word: Word,
        near: Option<Word>,
    },
    /// No word follows this option, which is the last word.
    MissingArgument(Word),
    /// `diff` takes the paths of two spec files, and then nothing, or `--` and a command.
    NotTwoFiles,
    /// `check` takes the path of one file or more.
    NoFiles,
    /// The tool takes no file.
    StrayWord {
        tool: Tool,
        word: Word,
    },
    /// The tool takes a command.
    NoCommand(Tool),
    /// No word follows `--`.
    NoProgram,
    /// Nobody here reads the line of this program.
    UnknownProgram(Word),
}

impl From<AllocError> for CallFault {
    fn from(_error: AllocError) -> CallFault {
        CallFault::Memory
    }
}

/// The command of a tool that takes no file.
fn command_alone(
    rt: &HostRuntime,
    tool: Tool,
    request: &Request,
) -> Result<CommandLine, CallFault> {
    if let [word, ..] = request.files.as_slice() {
        let word = word.clone()?;
        return Err(CallFault::StrayWord { tool, word });
    }
    match &request.command {
        Some(words) => command_of(rt, words.as_slice()),
        None => Err(CallFault::NoCommand(tool)),
    }
}

/// The command that prints all texts.
fn dumping_command(alloc: Global) -> Result<CommandLine, AllocError> {
    let mut words = Listing::new(alloc);
    words.push(Word::from_bytes(alloc, b"-dumpspecs")?)?;
    Ok(CommandLine {
        program: Program::Driver,
        words,
        seed: 0,
    })
}

/// The command of a comparison: without one it is of the texts.
fn command_compared(rt: &HostRuntime, request: &Request) -> Result<CommandLine, CallFault> {
    match &request.command {
        Some(words) => command_of(rt, words.as_slice()),
        None => Ok(dumping_command(rt.alloc())?),
    }
}

/// The comparison that a call asks for.
fn difference_asked(rt: &HostRuntime, request: &Request) -> Result<Call, CallFault> {
    let [first, second] = request.files.as_slice() else {
        return Err(CallFault::NotTwoFiles);
    };
    let first = side_of(rt.alloc(), first, command_compared(rt, request)?)?;
    let mut second = side_of(rt.alloc(), second, command_compared(rt, request)?)?;
    // Names of temporaries are no difference.
    second.command.seed = first.command.seed;
    Ok(Call::Differ(Comparison {
        detail: request.detail,
        first,
        second,
    }))
}

/// Adds the paths of files.
fn add_paths(alloc: Global, paths: &mut Listing<Word>, files: &[Word]) -> Result<(), AllocError> {
    for file in files {
        paths.push(path_of(alloc, file)?)?;
    }
    Ok(())
}

/// The check that a call asks for: words behind `--` are files too.
fn check_asked(alloc: Global, request: Request) -> Result<Call, CallFault> {
    let mut files = Listing::new(alloc);
    add_paths(alloc, &mut files, request.files.as_slice())?;
    if let Some(words) = &request.command {
        add_paths(alloc, &mut files, words.as_slice())?;
    }
    if files.is_empty() {
        return Err(CallFault::NoFiles);
    }
    Ok(Call::Check(Request { files, ..request }))
}

/// What a call of a tool with these words asks for.
fn tool_asked(rt: &HostRuntime, tool: Tool, words: &[Word]) -> Result<Call, CallFault> {
    let request = request_of(rt.alloc(), tool, words)?;
    if request.help {
        return Ok(Call::Ask(Question::Tool(tool)));
    }
    match tool {
        Tool::Check => check_asked(rt.alloc(), request),
        Tool::Diff => difference_asked(rt, &request),
        Tool::Plan => Ok(Call::Plan(request.form, command_alone(rt, tool, &request)?)),
        Tool::After => {
            let command = command_alone(rt, tool, &request)?;
            Ok(Call::After(request.failures, command))
        }
        Tool::Why => {
            let command = command_alone(rt, tool, &request)?;
            Ok(Call::Why(request.asked, command))
        }
    }
}

/// What the first word asks of the program itself.
fn question_asked(alloc: Global, word: &Word) -> Result<Call, CallFault> {
    match word.as_bytes() {
        b"--help" | b"-h" => Ok(Call::Ask(Question::Help)),
        b"--version" => Ok(Call::Ask(Question::Version)),
        other => Err(CallFault::UnknownTool {
            word: word.clone()?,
            near: near_tool(alloc, other)?,
        }),
    }
}

/// What a call with these arguments asks for.
///
/// # Errors
/// Lack of memory. It has no arguments, or the first one is no tool. An option is none of the tool,
/// or lacks its argument. The files or the command of the tool are wanting, or nobody here reads
/// the line of its program.
pub fn call_of(rt: &HostRuntime, args: &[Word]) -> Result<Call, CallFault> {
    let [first, words @ ..] = args else {
        return Err(CallFault::NoTool);
    };
    match tool_named(first.as_bytes()) {
        Some(tool) => tool_asked(rt, tool, words),
        None => question_asked(rt.alloc(), first),
    }
}
