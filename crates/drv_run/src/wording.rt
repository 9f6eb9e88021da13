//! The text of a refusal.

ghost use Rattle.drv_run.specs.Exits.{told_of};
ghost use Rattle.drv_run.specs.Texts.{args_text, around, at_byte, c99_text, funcs_text};
ghost use Rattle.drv_run.specs.Texts.{machine_text, plan_text, refusal_line, refusal_text};
ghost use Rattle.drv_run.specs.Texts.{search_text, specs_text, syntax_text};
ghost use Rattle.std.specs.Prelude.{◌≡◌, ◌++◌, OnOk, IfOk, decimal};

use crate::ending::{Ending, Refusal};
use drv_args::ArgsFault;
use drv_c99::C99Fault;
use drv_funcs::FuncsFault;
use drv_machine::MachineFault;
use drv_plan::PlanFault;
use drv_search::SearchFault;
use drv_specs::SpecsFault;
use drv_syntax::SyntaxFault;
use drv_words::Word;
use itoa::Buffer;
use std::alloc::{AllocError, Global};

/// The text of each fault that is lack of memory.
const MEMORY: &[u8] = b"out of memory";

/// Adds a word between two texts.
fn push_around(line: &mut Word, before: &[u8], word: &Word, after: &[u8]) -> Result<(), AllocError>
    ensures { OnOk result (line.new ≡ line.old ++ around before.now word.now after.now) }
{
    line.extend_from_slice(before)?;
    line.extend_from_slice(word.as_bytes())?;
    line.extend_from_slice(after)
}

/// Adds two texts.
fn push_both(line: &mut Word, first: &[u8], second: &[u8]) -> Result<(), AllocError>
    ensures { OnOk result (line.new ≡ line.old ++ (first.now ++ second.now)) }
{
    line.extend_from_slice(first)?;
    line.extend_from_slice(second)
}

/// Adds a text, and a number in decimal digits.
fn push_numbered(line: &mut Word, what: &[u8], number: usize) -> Result<(), AllocError>
    ensures { OnOk result (line.new ≡ line.old ++ (what.now ++ decimal number)) }
{
    line.extend_from_slice(what)?;
    line.extend_from_slice(Buffer::new().format(number).as_bytes())
}

/// Adds a text, and where in another text it holds, in bytes from its start.
fn push_at(line: &mut Word, what: &[u8], byte: usize) -> Result<(), AllocError>
    ensures { OnOk result (line.new ≡ line.old ++ at_byte what.now byte) }
{
    line.extend_from_slice(what)?;
    push_numbered(line, b" at byte ", byte)
}

/// Adds the text of a fault of the arguments.
fn push_args_text(line: &mut Word, fault: &ArgsFault) -> Result<(), AllocError>
    ensures { OnOk result (line.new ≡ line.old ++ args_text fault.now) }
{
    match fault {
        ArgsFault::Memory => line.extend_from_slice(MEMORY),
        ArgsFault::TooManyFiles => line.extend_from_slice(b"too many @-files"),
        ArgsFault::ResponseTooLarge(path) => {
            push_around(line, b"response file '", path, b"' is too large")
        }
        ArgsFault::TooManyArguments => line.extend_from_slice(b"more than 65536 arguments"),
        ArgsFault::MissingArgument(option) => {
            push_around(line, b"missing argument to '", option, b"'")
        }
        ArgsFault::BadJobs(word) => push_around(line, b"bad job count '", word, b"'"),
        ArgsFault::NoInputs => line.extend_from_slice(b"no input files"),
        ArgsFault::StdinNeedsLanguage => {
            line.extend_from_slice(b"-E or -x required when input is from standard input")
        }
        ArgsFault::OutputWithMany => {
            line.extend_from_slice(b"cannot specify -o with -c, -S or -E with multiple files")
        }
        ArgsFault::OutputIsInput(input) => {
            push_around(
                line,
                b"input file '",
                input,
                b"' is the same as output file",
            )
        }
    }
}

/// Adds the text of a fault of a line of `c99`.
fn push_c99_text(line: &mut Word, fault: &C99Fault) -> Result<(), AllocError>
    ensures { OnOk result (line.new ≡ line.old ++ c99_text fault.now) }
{
    match fault {
        C99Fault::Memory => line.extend_from_slice(MEMORY),
        C99Fault::UnknownOption(word) => { push_around(line, b"c99: unknown option '", word, b"'") }
        C99Fault::MissingArgument(option) => {
            push_around(line, b"c99: missing argument to '", option, b"'")
        }
        C99Fault::NoOperand => line.extend_from_slice(b"c99: no operand"),
        C99Fault::BadLevel(argument) => {
            push_around(line, b"c99: bad optimization level '", argument, b"'")
        }
    }
}

/// Adds the text of a fault of a search.
fn push_search_text(line: &mut Word, fault: &SearchFault) -> Result<(), AllocError>
    ensures { OnOk result (line.new ≡ line.old ++ search_text fault.now) }
{
    match fault {
        SearchFault::Memory => line.extend_from_slice(MEMORY),
        SearchFault::ScriptMissing(name) => {
            push_around(line, b"linker script '", name, b"' not found")
        }
    }
}

/// Adds the text of a fault of a function.
fn push_funcs_text(line: &mut Word, fault: &FuncsFault) -> Result<(), AllocError>
    ensures { OnOk result (line.new ≡ line.old ++ funcs_text fault.now) }
{
    match fault {
        FuncsFault::Memory => line.extend_from_slice(MEMORY),
        FuncsFault::VariableMissing(name) => {
            push_around(line, b"environment variable '", name, b"' not defined")
        }
        FuncsFault::WrongCount(function) => {
            push_both(line, b"wrong number of arguments to ", function.name())
        }
        FuncsFault::BadVersion(word) => push_around(line, b"bad version '", word, b"'"),
        FuncsFault::NotInLink(function) => {
            push_both(line, function.name(), b" is for the link alone")
        }
        FuncsFault::BadOperator(word) => push_around(line, b"bad comparison '", word, b"'"),
    }
}

/// Adds the text of a fault of a spec text that is run.
fn push_machine_text(line: &mut Word, fault: &MachineFault) -> Result<(), AllocError>
    ensures { OnOk result (line.new ≡ line.old ++ machine_text fault.now) }
{
    match fault {
        MachineFault::Memory => line.extend_from_slice(MEMORY),
        MachineFault::UserError(text) => line.extend_from_slice(text.as_bytes()),
        MachineFault::SpecTooDeep => line.extend_from_slice(b"specs nested too deep"),
        MachineFault::TooManySteps => line.extend_from_slice(b"too many spec steps"),
        MachineFault::NoInput => line.extend_from_slice(b"no input file in this spec"),
        MachineFault::NotInLink => line.extend_from_slice(b"%o is for the link alone"),
        MachineFault::StrayPipe => line.extend_from_slice(b"stray pipe"),
        MachineFault::PipeTooLong => line.extend_from_slice(b"more than 16 commands in one pipe"),
        MachineFault::Search(fault) => push_search_text(line, fault),
        MachineFault::Funcs(fault) => push_funcs_text(line, fault),
    }
}

/// Adds the text of a fault of a spec text's grammar.
fn push_syntax_text(line: &mut Word, fault: &SyntaxFault) -> Result<(), AllocError>
    ensures { OnOk result (line.new ≡ line.old ++ syntax_text fault.now) }
{
    match fault {
        SyntaxFault::Memory => line.extend_from_slice(MEMORY),
        SyntaxFault::BadDirective(n) => push_at(line, b"bad directive", *n),
        SyntaxFault::Unclosed(n) => push_at(line, b"unclosed directive", *n),
        SyntaxFault::StarOutside(n) => push_at(line, b"%* outside braces", *n),
        SyntaxFault::MixedStar(n) => push_at(line, b"%* with a test that is not starred", *n),
        SyntaxFault::TooNested(n) => push_at(line, b"nested too deep", *n),
        SyntaxFault::UnknownFunction(n) => push_at(line, b"unknown spec function", *n),
        SyntaxFault::EmptyTest(n) => push_at(line, b"empty test", *n),
        SyntaxFault::TextTooLong => line.extend_from_slice(b"spec text too long"),
    }
}

/// Adds the text of a fault of spec files.
fn push_specs_text(line: &mut Word, fault: &SpecsFault) -> Result<(), AllocError>
    ensures { OnOk result (line.new ≡ line.old ++ specs_text fault.now) }
{
    match fault {
        SpecsFault::Memory => line.extend_from_slice(MEMORY),
        SpecsFault::NoSuchFile(path) => push_around(line, b"spec file '", path, b"' not found"),
        SpecsFault::Unreadable(path) => {
            push_around(line, b"spec file '", path, b"' cannot be read")
        }
        SpecsFault::RenameMissing(name) => push_around(line, b"no spec '", name, b"' to rename"),
        SpecsFault::RenameTaken(name) => push_around(line, b"spec '", name, b"' is already there"),
        SpecsFault::BadLine(n) => push_numbered(line, b"bad spec line ", *n),
        SpecsFault::IncludeTooDeep => line.extend_from_slice(b"includes nested too deep"),
        SpecsFault::AliasOfAlias(key) => push_around(line, b"language '", key, b"' is an alias"),
        SpecsFault::TrailingBackslash(name) => {
            push_around(line, b"spec '", name, b"' ends with a backslash")
        }
        SpecsFault::BadName(name) => push_around(line, b"bad spec name '", name, b"'"),
        SpecsFault::TooManyIncludes => line.extend_from_slice(b"too many spec files"),
        SpecsFault::Syntax { name, fault } => {
            push_around(line, b"spec '", name, b"': ")?;
            push_syntax_text(line, fault)
        }
    }
}

/// Adds the text of a fault of the plan.
fn push_plan_text(line: &mut Word, fault: &PlanFault) -> Result<(), AllocError>
    ensures { OnOk result (line.new ≡ line.old ++ plan_text fault.now) }
{
    match fault {
        PlanFault::Memory => line.extend_from_slice(MEMORY),
        PlanFault::Machine(fault) => push_machine_text(line, fault),
        PlanFault::UnknownLanguage(name) => {
            push_around(line, b"language '", name, b"' not recognized")
        }
        PlanFault::NotInstalled(name) => {
            line.extend_from_slice(name.as_bytes())?;
            line.extend_from_slice(b" compiler not installed on this system")
        }
    }
}

/// Adds the text of a refusal.
fn push_refusal_text(line: &mut Word, refusal: &Refusal) -> Result<(), AllocError>
    ensures { OnOk result (line.new ≡ line.old ++ refusal_text refusal.now) }
{
    match refusal {
        Refusal::Args(fault) => push_args_text(line, fault),
        Refusal::C99(fault) => push_c99_text(line, fault),
        Refusal::Specs(fault) => push_specs_text(line, fault),
        Refusal::Plan(fault) => push_plan_text(line, fault),
    }
}

/// The text of a refusal: why, without the program's name.
pub fn refusal_text(alloc: Global, refusal: &Refusal) -> Result<Word, AllocError>
    ensures { IfOk result (λ text. text ≡ refusal_text refusal.now) }
{
    let mut text = Word::empty(alloc);
    push_refusal_text(&mut text, refusal)?;
    Ok(text)
}

/// The line that tells a refusal: the program's name, why, and a newline.
pub fn fault_line(alloc: Global, refusal: &Refusal) -> Result<Word, AllocError>
    ensures { IfOk result (λ line. line ≡ refusal_line refusal.now) }
{
    let mut line = Word::from_bytes(alloc, b"gdrv: ")?;
    push_refusal_text(&mut line, refusal)?;
    line.push(b'\n')?;
    Ok(line)
}

/// What standard error gets of an ending: no byte where the work was done.
pub fn ending_text(alloc: Global, ending: &Ending) -> Result<Word, AllocError>
    ensures { IfOk result (λ text. text ≡ told_of ending.now) }
{
    match ending {
        Ending::Done(_) => Ok(Word::empty(alloc)),
        Ending::Refused(refusal) => fault_line(alloc, refusal),
        Ending::OutOfMemory => Word::from_bytes(alloc, b"gdrv: out of memory\n"),
    }
}
