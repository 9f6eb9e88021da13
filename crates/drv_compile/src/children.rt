//! The switches of a line for its children, with the words of the row for its machine.

ghost use Rattle.drv_compile.specs.Machines.{child_line, child_variable, child_word, child_words};
ghost use Rattle.drv_compile.specs.Machines.{goes, is_left_out, is_word, quoted_word, replaced};
ghost use Rattle.drv_compile.specs.Machines.{row_words, without_option, without_options};
ghost use Rattle.std.specs.List.{list_any};
ghost use Rattle.std.specs.Prelude.{◌≡◌, ◌++◌, IfOk, OnOk, map};

use crate::compilers::rest_of;
use crate::machines::{is_machine, options_of};
use bstr::ByteSlice;
use drv_args::Item;
use drv_cc::Variable;
use drv_words::{Listing, Word};
use std::alloc::{AllocError, Global};

/// Adds a word between quotes, after a blank.
fn push_quoted(text: &mut Word, word: &[u8]) -> Result<(), AllocError>
    ensures { OnOk result (text.new ≡ text.old ++ quoted_word word.now) }
{
    text.extend_from_slice(b" '")?;
    text.extend_from_slice(word)?;
    text.extend_from_slice(b"'")
}

/// A text with another one wherever it has this part.
fn replaced(alloc: Global, text: &[u8], part: &[u8], other: &[u8]) -> Result<Word, AllocError>
    ensures { IfOk result (λ made. made ≡ replaced text.now part.now other.now) }
{
    let bytes = text.replace(alloc, part, other)?;
    Ok(Word::from_vec(bytes))
}

/// Whether a word is that of an item.
fn is_word(item: &Item, word: &[u8]) -> bool
    ensures { result ≡ is_word item.now word.now }
{
    let option = item.option.as_bytes();
    word.starts_with(option) && rest_of(option, word) == item.argument.as_bytes()
}

/// Whether a row has the word of an item.
fn has_word(row: &[u8], item: &Item) -> bool
    ensures { result ≡ list_any (is_word item.now) (row_words row.now) }
{
    row.split(|byte| *byte == b'\t')
        .any(|word| is_word(item, word))
}

/// Whether a line has a word.
fn is_given(items: &[Item], word: &[u8]) -> bool
    ensures { result ≡ list_any (λ i. is_word i word.now) items.now }
{
    items.iter().any(|item| is_word(item, word))
}

/// Whether a word of a row isn't added for the children: it is one of this driver's own, or the line
/// has it already.
fn is_left_out(items: &[Item], word: &[u8]) -> bool
    ensures { result ≡ is_left_out items.now word.now }
{
    word.starts_with(b"--gdrv-") || is_given(items, word)
}

/// Whether the row takes away an option for the machine.
fn goes(row: &[u8], item: &Item) -> bool
    ensures { result ≡ goes row.now item.now }
{
    is_machine(item.option.as_bytes()) && !has_word(row, item)
}

/// A text without an option that the row takes away.
fn without_option(alloc: Global, row: &[u8], item: &Item, text: Word) -> Result<Word, AllocError>
    ensures { IfOk result (λ made. made ≡ without_option row.now item.now text) }
{
    if !goes(row, item) {
        return Ok(text);
    }
    let mut word = item.option.clone()?;
    word.extend_from_slice(item.argument.as_bytes())?;
    let mut quoted = Word::empty(alloc);
    push_quoted(&mut quoted, word.as_bytes())?;
    replaced(alloc, text.as_bytes(), quoted.as_bytes(), b"")
}

/// A text without the options of a line that the row takes away.
fn without_options(
    alloc: Global,
    row: &[u8],
    items: &[Item],
    text: Word,
) -> Result<Word, AllocError>
    ensures { IfOk result (λ made. made ≡ without_options row.now items.now text) }
{
    let mut left = text;
    for item in items {
        left = without_option(alloc, row, item, left)?;
    }
    Ok(left)
}

/// How the word of a row begins that is for the children alone.
const CHILD: &[u8] = b"--gdrv-child=";

/// Adds a word of a row for the children.
fn push_child_word(items: &[Item], text: &mut Word, word: &[u8]) -> Result<(), AllocError>
    ensures { OnOk result (text.new ≡ text.old ++ child_word items.now word.now) }
{
    if word.starts_with(CHILD) {
        push_quoted(text, rest_of(CHILD, word))
    } else if word.is_empty() || is_left_out(items, word) {
        Ok(())
    } else {
        push_quoted(text, word)
    }
}

/// The words of a row for the children.
fn child_words(alloc: Global, items: &[Item], row: &[u8]) -> Result<Word, AllocError>
    ensures { IfOk result (λ words. words ≡ child_words items.now row.now) }
{
    let mut words = Word::empty(alloc);
    for word in row.split(|byte| *byte == b'\t') {
        push_child_word(items, &mut words, word)?;
    }
    Ok(words)
}

/// The switches of a line for the children, by its row.
fn child_line(alloc: Global, items: &[Item], row: &[u8], text: &[u8]) -> Result<Word, AllocError>
    ensures { IfOk result (λ line. line ≡ child_line items.now row.now text.now) }
{
    let mut spaced = Word::from_bytes(alloc, b" ")?;
    spaced.extend_from_slice(text)?;
    let left = without_options(alloc, row, items, spaced)?;
    let words = child_words(alloc, items, row)?;
    let line = replaced(alloc, left.as_bytes(), b" '--gdrv-row'", words.as_bytes())?;
    options_of(alloc, line.as_bytes())
}

/// A variable of the children, by the row of the line.
fn child_variable(
    alloc: Global,
    items: &[Item],
    row: &[u8],
    variable: &Variable,
) -> Result<Variable, AllocError>
    ensures { IfOk result (λ made. made ≡ child_variable items.now row.now variable.now) }
{
    let value = variable.value.as_bytes();
    let value = if variable.name.as_bytes() == b"COLLECT_GCC_OPTIONS".as_slice() {
        child_line(alloc, items, row, value)?
    } else {
        Word::from_bytes(alloc, value)?
    };
    Ok(Variable {
        name: variable.name.clone()?,
        value,
    })
}

/// The variables of the children, by the row of the line.
pub(crate) fn child_variables(
    alloc: Global,
    items: &[Item],
    row: &[u8],
    children: &[Variable],
) -> Result<Listing<Variable>, AllocError>
    ensures { IfOk result (λ made. made ≡ map (child_variable items.now row.now) children.now) }
{
    let mut made = Listing::new(alloc);
    for variable in children {
        made.push(child_variable(alloc, items, row, variable)?)?;
    }
    Ok(made)
}
