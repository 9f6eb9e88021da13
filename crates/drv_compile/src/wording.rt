//! What the user reads.

ghost use Rattle.drv_compile.specs.Texts.{absent_text, adding, error_line, fatal_line, file_said, given_text};
ghost use Rattle.drv_compile.specs.Texts.{gone_text, help_text, if_only, lack_text, meant};
ghost use Rattle.drv_compile.specs.Texts.{overwritten_text, quoted, read_text, version_text};
ghost use Rattle.drv_compile.specs.Texts.{refusal_text};
ghost use Rattle.drv_compile.specs.Texts.{takes_file, takes_goal, takes_macro, takes_path};
ghost use Rattle.drv_compile.specs.Texts.{gcc_of, is_for, unknown_text, unwritten_text, unworded_text, writing};
ghost use Rattle.drv_compile.specs.Texts.{damaged_text, no_compiler_text, no_place_text};
ghost use Rattle.drv_compile.specs.Texts.{no_specs_text, unread_text, variable_text};
ghost use Rattle.drv_compile.specs.Words.{told_refusal};
ghost use Rattle.std.specs.Option.{option_copied};
ghost use Rattle.std.specs.Prelude.{◌≡◌, ◌++◌, [], IfOk, List, OnOk, if◌then◌else◌, ℕ};

use crate::calling::{Calling, before_ending};
use crate::overwriting::{Clash, ReadAs};
use crate::places::companion;
use drv_cc::Refusal;
use drv_plan::PlanFault;
use drv_run::refusal_text;
use drv_words::{Word, base};
use std::alloc::{AllocError, Global};

/// What is said of a language that no spec file of this program is for.
const NOT_SUPPORTED: &[u8] = b" is not supported: gdrv-cc compiles C and assembler";

/// What is said of options of which no row has the words.
const NOT_KNOWN: &[u8] = b"' are not known; ";

/// Adds three texts.
fn add(text: &mut Word, before: &[u8], word: &[u8], after: &[u8]) -> Result<(), AllocError>
    ensures { OnOk result (text.new ≡ text.old ++ quoted before.now word.now after.now) }
{
    text.extend_from_slice(before)?;
    text.extend_from_slice(word)?;
    text.extend_from_slice(after)
}

/// A line of three texts after the program's name.
pub(crate) fn error_line(
    alloc: Global,
    name: &[u8],
    before: &[u8],
    word: &[u8],
    after: &[u8],
) -> Result<Word, AllocError>
    ensures { IfOk result (λ line. line ≡ error_line name.now
        (quoted before.now word.now after.now)) }
{
    let mut line = Word::from_bytes(alloc, name)?;
    line.extend_from_slice(b": error: ")?;
    add(&mut line, before, word, after)?;
    line.push(b'\n')?;
    Ok(line)
}

/// Whether an option takes a file.
fn takes_file(option: &[u8]) -> bool
    ensures { result ≡ takes_file option.now }
{
    option == b"-o".as_slice()
        || option == b"-include".as_slice()
        || option == b"-imacros".as_slice()
        || option == b"-MF".as_slice()
        || option == b"--output".as_slice()
        || option == b"--include".as_slice()
        || option == b"--imacros".as_slice()
}

/// Whether an option takes a macro.
fn takes_macro(option: &[u8]) -> bool
    ensures { result ≡ takes_macro option.now }
{
    option == b"-D".as_slice()
        || option == b"-U".as_slice()
        || option == b"--define-macro".as_slice()
        || option == b"--undefine-macro".as_slice()
}

/// Whether an option takes a path.
fn takes_path(option: &[u8]) -> bool
    ensures { result ≡ takes_path option.now }
{
    option == b"-I".as_slice()
        || option == b"-isystem".as_slice()
        || option == b"-iquote".as_slice()
        || option == b"-idirafter".as_slice()
        || option == b"-isysroot".as_slice()
        || option == b"--include-directory".as_slice()
        || option == b"--include-directory-after".as_slice()
}

/// Whether an option takes a target of make.
fn takes_goal(option: &[u8]) -> bool
    ensures { result ≡ takes_goal option.now }
{
    option == b"-MT".as_slice() || option == b"-MQ".as_slice()
}

/// What is said before an option that lacks its argument.
fn lack_text(option: &[u8]) -> &'static [u8]
    ensures { result.now ≡ lack_text option.now }
{
    if takes_file(option) {
        b"missing filename after '"
    } else if takes_macro(option) {
        b"macro name missing after '"
    } else if takes_path(option) {
        b"missing path after '"
    } else if takes_goal(option) {
        b"missing makefile target after '"
    } else if option == b"-A".as_slice() || option == b"--assert".as_slice() {
        b"assertion missing after '"
    } else {
        b"missing argument to '"
    }
}

/// Adds what is said after a word that is no option.
fn add_meant(text: &mut Word, near: Option<&[u8]>) -> Result<(), AllocError>
    ensures { OnOk result (text.new ≡ text.old ++ meant (option_copied near.entry)) }
{
    match near {
        Some(option) => add(text, b"'; did you mean '", option, b"'?"),
        None => text.push(b'\''),
    }
}

/// Adds what is said of a word that is no option.
fn add_unknown(text: &mut Word, word: &[u8], near: Option<&[u8]>) -> Result<(), AllocError>
    ensures { OnOk result (text.new ≡ text.old
        ++ unknown_text word.now (option_copied near.entry)) }
{
    text.extend_from_slice(b"unrecognized command-line option '")?;
    text.extend_from_slice(word)?;
    add_meant(text, near)
}

/// Adds the line for a word that is no option.
fn add_unknown_line(
    text: &mut Word,
    name: &[u8],
    word: &[u8],
    near: Option<&[u8]>,
) -> Result<(), AllocError>
    ensures { OnOk result (text.new ≡ text.old
        ++ error_line name.now (unknown_text word.now (option_copied near.entry))) }
{
    text.extend_from_slice(name)?;
    text.extend_from_slice(b": error: ")?;
    add_unknown(text, word, near)?;
    text.push(b'\n')
}

/// Adds a line of three texts after the program's name.
fn add_line(
    text: &mut Word,
    name: &[u8],
    before: &[u8],
    word: &[u8],
    after: &[u8],
) -> Result<(), AllocError>
    ensures { OnOk result (text.new ≡ text.old
        ++ error_line name.now (quoted before.now word.now after.now)) }
{
    text.extend_from_slice(name)?;
    text.extend_from_slice(b": error: ")?;
    add(text, before, word, after)?;
    text.push(b'\n')
}

/// Adds what is said of a file among the options that spec files give.
fn add_given_text(text: &mut Word, word: &[u8]) -> Result<(), AllocError>
    ensures { OnOk result (text.new ≡ text.old ++ given_text word.now) }
{
    if word == b"-".as_slice() {
        text.extend_from_slice(b"spec-generated switch is just '-'")
    } else {
        add(text, b"switch '", word, b"' does not start with '-'")
    }
}

/// Adds the line of a file among the options that spec files give.
fn add_given(text: &mut Word, name: &[u8], word: &[u8]) -> Result<(), AllocError>
    ensures { OnOk result (text.new ≡ text.old ++ fatal_line name.now (given_text word.now)) }
{
    text.extend_from_slice(name)?;
    text.extend_from_slice(b": fatal error: ")?;
    add_given_text(text, word)?;
    text.extend_from_slice(b"\ncompilation terminated.\n")
}

/// Adds the text of a refusal of the front. `near` is the option that an unknown word was meant to
/// be, if one is near.
pub(crate) fn add_refusal(
    text: &mut Word,
    name: &[u8],
    refusal: &Refusal,
    near: Option<&[u8]>,
) -> Result<(), AllocError>
    ensures { OnOk result (text.new ≡ text.old
        ++ refusal_text name.now refusal.now (option_copied near.entry)) }
{
    match refusal {
        Refusal::UnknownOption(word) => add_unknown_line(text, name, word.as_bytes(), near),
        Refusal::NoArgument(option) => {
            let option = option.as_bytes();
            add_line(text, name, lack_text(option), option, b"'")
        }
        Refusal::NotTaken(option) => {
            add_line(
                text,
                name,
                b"option '",
                option.as_bytes(),
                b"' is not supported",
            )
        }
        Refusal::GivenFile(word) => add_given(text, name, word.as_bytes()),
        Refusal::GivenMore => add_line(
            text,
            name,
            b"the spec files of the line give more than options: 'self_spec' is not one command",
            b"",
            b"",
        ),
        Refusal::EmptyOutput => {
            text.extend_from_slice(name)?;
            text.extend_from_slice(
                b": fatal error: output filename may not be empty\ncompilation terminated.\n",
            )
        }
        Refusal::NoInput => {
            text.extend_from_slice(name)?;
            text.extend_from_slice(b": fatal error: no input files\ncompilation terminated.\n")
        }
    }
}

/// The name that is said of a file: of a response file without its sign.
fn file_said(path: &[u8]) -> &[u8]
    ensures { result.now ≡ file_said path.now }
{
    match path {
        [b'@', following @ ..] => following,
        _ => path,
    }
}

/// Adds the text about an input that is not there.
pub(crate) fn add_absent(text: &mut Word, name: &[u8], path: &[u8]) -> Result<(), AllocError>
    ensures { OnOk result (text.new ≡ text.old ++ absent_text name.now path.now) }
{
    add_line(
        text,
        name,
        b"",
        file_said(path),
        b": No such file or directory",
    )
}

/// What a file is called by what it is read as.
fn read_text(read_as: ReadAs) -> &'static [u8]
    ensures { result.now ≡ read_text read_as }
{
    match read_as {
        ReadAs::Input => b"input file '",
        ReadAs::Specs => b"spec file '",
        ReadAs::Response => b"response file '",
    }
}

/// The text about an output that is a file that the line reads.
pub(crate) fn overwrite_text(alloc: Global, name: &[u8], clash: &Clash) -> Result<Word, AllocError>
    ensures { IfOk result (λ text. text ≡ overwritten_text name.now clash.now) }
{
    let mut text = Word::from_bytes(alloc, name)?;
    text.extend_from_slice(b": fatal error: ")?;
    text.extend_from_slice(read_text(clash.read_as))?;
    text.extend_from_slice(clash.output.as_bytes())?;
    text.extend_from_slice(b"' is the same as output file\ncompilation terminated.\n")?;
    Ok(text)
}

/// Whether a spec file is named for a machine.
fn is_for(machine: &[u8], stem: Option<&[u8]>) -> bool
    ensures { result ≡ is_for machine.now (option_copied stem.entry) }
{
    match stem {
        Some(stem) => stem == machine,
        None => false,
    }
}

/// The machine, if a spec file is named for it; else the user says for which gcc the file is.
fn gcc_of<'m>(specs: &[u8], machine: &'m [u8]) -> &'m [u8]
    ensures { result.now ≡ gcc_of specs.now machine.now }
{
    if is_for(machine, before_ending(b".specs", base(specs))) {
        machine
    } else {
        b"GCC"
    }
}

/// Adds the command that writes the spec file of a machine.
fn add_writing(text: &mut Word, specs: &[u8], machine: &[u8]) -> Result<(), AllocError>
    ensures { OnOk result (text.new ≡ text.old ++ writing specs.now machine.now) }
{
    add(text, b"'gdrv-write-specs -o ", specs, b" ")?;
    text.extend_from_slice(gcc_of(specs, machine))?;
    text.extend_from_slice(b"' writes it")
}

/// The text about a file that `gdrv-write-specs` writes, and that is not there or is not what it
/// writes.
fn unwritten_text(
    alloc: Global,
    calling: &Calling,
    before: &[u8],
    path: &[u8],
    specs: &[u8],
) -> Result<Word, AllocError>
    ensures { IfOk result (λ line. line ≡ unwritten_text calling.now.name before.now path.now
        specs.now calling.now.machine) }
{
    let mut line = Word::from_bytes(alloc, calling.name.as_bytes())?;
    line.extend_from_slice(b": error: ")?;
    add(&mut line, before, path, b"'; ")?;
    add_writing(&mut line, specs, calling.machine.as_bytes())?;
    line.push(b'\n')?;
    Ok(line)
}

/// Adds the text for a spec file whose compiler may be gone.
fn add_gone(text: &mut Word, name: &[u8], specs: &[u8], machine: &[u8]) -> Result<(), AllocError>
    ensures { OnOk result (text.new ≡ text.old ++ gone_text name.now specs.now machine.now) }
{
    text.extend_from_slice(name)?;
    text.extend_from_slice(
        b": note: the spec file may be for a gcc that was changed or is gone: ",
    )?;
    add_writing(text, specs, machine)?;
    text.extend_from_slice(b" again\n")
}

/// The text after a run that did not find a program.
pub(crate) fn gone_text(alloc: Global, calling: &Calling, specs: &[u8]) -> Result<Word, AllocError>
    ensures { IfOk result (λ text. text
        ≡ gone_text calling.now.name specs.now calling.now.machine) }
{
    let mut text = Word::empty(alloc);
    let name = calling.name.as_bytes();
    add_gone(&mut text, name, specs, calling.machine.as_bytes())?;
    Ok(text)
}

/// Whether a word is the only one of a line.
fn is_only(word: &[u8], words: &[Word]) -> bool
    ensures { (text : List ℕ) → if_only word.now words.now text ≡ (if result then text else []) }
{
    match words {
        [only] => only.as_bytes() == word,
        _ => false,
    }
}

/// What is said before the compiler's own help.
pub(crate) fn help_text(
    alloc: Global,
    name: &[u8],
    compiler: &[u8],
    words: &[Word],
) -> Result<Word, AllocError>
    ensures { IfOk result (λ text. text ≡ help_text name.now compiler.now words.now) }
{
    let mut text = Word::empty(alloc);
    if is_only(b"--help", words) {
        add(&mut text, b"Usage: ", name, b" [options] file...\n")?;
        add(
            &mut text,
            b"It compiles C and assembler as ",
            compiler,
            b" does, whose options follow. See gdrv-cc(1).\n",
        )?;
    }
    Ok(text)
}

/// What is said after the compiler's own version.
pub(crate) fn version_text(
    alloc: Global,
    name: &[u8],
    compiler: &[u8],
    words: &[Word],
) -> Result<Word, AllocError>
    ensures { IfOk result (λ text. text ≡ version_text name.now compiler.now words.now) }
{
    let mut text = Word::empty(alloc);
    if is_only(b"--version", words) {
        text.extend_from_slice(name)?;
        add(&mut text, b": a driver for ", compiler, b"\n")?;
    }
    Ok(text)
}

/// The text about a response file that is there and can't be read.
pub(crate) fn unread_text(alloc: Global, name: &[u8], path: &[u8]) -> Result<Word, AllocError>
    ensures { IfOk result (λ text. text ≡ unread_text name.now path.now) }
{
    error_line(alloc, name, b"response file '", path, b"' cannot be read")
}

/// The text about a variable that gcc's driver takes and this one doesn't.
pub(crate) fn variable_text(alloc: Global, name: &[u8]) -> Result<Word, AllocError>
    ensures { IfOk result (λ text. text ≡ variable_text name.now) }
{
    error_line(
        alloc,
        name,
        b"variable '",
        b"GCC_EXEC_PREFIX",
        b"' is not supported",
    )
}

/// The text where neither the program's place is known nor a variable names a spec file.
pub(crate) fn no_place_text(alloc: Global, name: &[u8]) -> Result<Word, AllocError>
    ensures { IfOk result (λ text. text ≡ no_place_text name.now) }
{
    error_line(
        alloc,
        name,
        b"",
        b"cannot find this program's own path (is /proc mounted?), and GDRV_CC_SPECS is not set",
        b"",
    )
}

/// The text about a spec file that isn't where it should be.
pub(crate) fn no_specs_text(
    alloc: Global,
    calling: &Calling,
    path: &[u8],
) -> Result<Word, AllocError>
    ensures { IfOk result (λ text. text
        ≡ no_specs_text calling.now.name path.now calling.now.machine) }
{
    unwritten_text(alloc, calling, b"there is no spec file '", path, path)
}

/// The text about a spec file beside which no compiler is named.
pub(crate) fn no_compiler_text(
    alloc: Global,
    calling: &Calling,
    specs: &[u8],
) -> Result<Word, AllocError>
    ensures { IfOk result (λ text. text
        ≡ no_compiler_text calling.now.name specs.now calling.now.machine) }
{
    let path = companion(alloc, specs, b".gcc")?;
    unwritten_text(
        alloc,
        calling,
        b"no compiler is named by '",
        path.as_bytes(),
        specs,
    )
}

/// The text about a file beside a spec file that is missing or not whole.
pub(crate) fn damaged_text(
    alloc: Global,
    calling: &Calling,
    path: &[u8],
    specs: &[u8],
) -> Result<Word, AllocError>
    ensures { IfOk result (λ text. text
        ≡ damaged_text calling.now.name path.now specs.now calling.now.machine) }
{
    unwritten_text(alloc, calling, b"missing or damaged file '", path, specs)
}

/// Adds the command that asks the compiler for the words of options.
fn add_adding(text: &mut Word, specs: &[u8], options: &[u8]) -> Result<(), AllocError>
    ensures { OnOk result (text.new ≡ text.old ++ adding specs.now options.now) }
{
    add(text, b"'gdrv-write-specs --add ", specs, b" ")?;
    text.extend_from_slice(options)?;
    text.extend_from_slice(b"' asks the compiler for them")
}

/// The text of the refusal of a line, as no row has the words for these options.
pub(crate) fn unworded_text(
    alloc: Global,
    name: &[u8],
    specs: &[u8],
    options: &[u8],
) -> Result<Word, AllocError>
    ensures { IfOk result (λ line. line ≡ unworded_text name.now specs.now options.now) }
{
    let mut line = Word::from_bytes(alloc, name)?;
    line.extend_from_slice(b": error: ")?;
    add(&mut line, b"the words for '", options, NOT_KNOWN)?;
    add_adding(&mut line, specs, options)?;
    line.push(b'\n')?;
    Ok(line)
}

/// The text of a refusal of the driver: that of c99 has its name in its text.
pub(crate) fn told_refusal(
    alloc: Global,
    name: &[u8],
    refusal: &drv_run::Refusal,
) -> Result<Word, AllocError>
    ensures { IfOk result (λ text. text ≡ told_refusal name.now refusal.now) }
{
    match refusal {
        drv_run::Refusal::C99(_) => {
            let mut line = refusal_text(alloc, refusal)?;
            line.push(b'\n')?;
            Ok(line)
        }
        drv_run::Refusal::Plan(PlanFault::NotInstalled(language)) => {
            error_line(alloc, name, b"", language.as_bytes(), NOT_SUPPORTED)
        }
        drv_run::Refusal::Args(_)
        | drv_run::Refusal::Specs(_)
        | drv_run::Refusal::Plan(
            PlanFault::Memory | PlanFault::Machine(_) | PlanFault::UnknownLanguage(_),
        ) => {
            let text = refusal_text(alloc, refusal)?;
            error_line(alloc, name, b"", text.as_bytes(), b"")
        }
    }
}
