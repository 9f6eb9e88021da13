//! What is said before a run whose commands are shown.

ghost use Rattle.drv_compile.specs.Opening.{opening, shows, text_shown};
ghost use Rattle.drv_compile.specs.Texts.{line_of, said_text, switches_line};
ghost use Rattle.std.specs.List.{flat_map, list_any};
ghost use Rattle.std.specs.Prelude.{◌≡◌, ◌++◌, IfOk, OnOk};

use crate::compilers::values;
use drv_args::{Effect, Item, Setting};
use drv_cc::Variable;
use drv_words::{Listing, Word};
use std::alloc::{AllocError, Global};

/// Adds lines.
fn add_lines(lines: &[Word], text: &mut Word) -> Result<(), AllocError>
    ensures { OnOk result (text.new ≡ text.old ++ flat_map line_of lines.now) }
{
    for line in lines {
        add_line(line.as_bytes(), text)?;
    }
    Ok(())
}

/// Adds a line.
fn add_line(line: &[u8], text: &mut Word) -> Result<(), AllocError>
    ensures { OnOk result (text.new ≡ text.old ++ line_of line.now) }
{
    text.extend_from_slice(line)?;
    text.push(b'\n')
}

/// Adds the line of a variable, if that has the switches of a link.
fn add_switches_line(variable: &Variable, text: &mut Word) -> Result<(), AllocError>
    ensures { OnOk result (text.new ≡ text.old ++ switches_line variable.now) }
{
    if variable.name.as_bytes() == b"COLLECT_GCC_OPTIONS".as_slice() {
        text.extend_from_slice(b"COLLECT_GCC_OPTIONS=")?;
        text.extend_from_slice(variable.value.as_bytes())?;
        text.push(b'\n')?;
    }
    Ok(())
}

/// Adds the lines of variables.
fn add_switches_lines(children: &[Variable], text: &mut Word) -> Result<(), AllocError>
    ensures { OnOk result (text.new ≡ text.old ++ flat_map switches_line children.now) }
{
    for variable in children {
        add_switches_line(variable, text)?;
    }
    Ok(())
}

/// What is said by these lines, with these variables of the children.
fn said_text(alloc: Global, lines: &[Word], children: &[Variable]) -> Result<Word, AllocError>
    ensures { IfOk result (λ text. text ≡ said_text lines.now children.now) }
{
    let mut text = Word::empty(alloc);
    add_lines(lines, &mut text)?;
    add_switches_lines(children, &mut text)?;
    Ok(text)
}

/// Whether an option asks that commands are shown.
fn shows(effect: Effect) -> bool
    ensures { result ≡ shows effect }
{
    matches!(effect, Effect::TurnsOn(Setting::Verbose | Setting::Dry))
}

/// Whether the commands of a line with these items are shown.
fn is_shown(items: &[Item]) -> bool
    ensures { result ≡ list_any (λ i. shows i.effect) items.now }
{
    items.iter().any(|item| shows(item.effect))
}

/// The text of these lines, if there are any.
fn text_shown(alloc: Global, lines: &[Word], children: &[Variable]) -> Result<Word, AllocError>
    ensures { IfOk result (λ text. text ≡ text_shown children.now lines.now) }
{
    match lines {
        [] => Ok(Word::empty(alloc)),
        _ => said_text(alloc, lines, children),
    }
}

/// What is said before the work of a line with these items, where its commands are shown, by a text
/// about the compiler.
pub(crate) fn opening(
    alloc: Global,
    about: &[u8],
    items: &[Item],
    children: &[Variable],
) -> Result<Word, AllocError>
    ensures { IfOk result (λ text. text ≡ opening about.now items.now children.now) }
{
    if !is_shown(items) {
        return Ok(Word::empty(alloc));
    }
    let lines = values(alloc, b"said ", about)?;
    text_shown(alloc, lines.as_slice(), children)
}
