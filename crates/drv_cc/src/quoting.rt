//! The switches of a line as one text, for its children.

ghost use Rattle.drv_cc.specs.Front.{assembler_line, assembler_variables, children, compiler_words};
ghost use Rattle.drv_cc.specs.Front.{dump_option, dump_words, has_pieces, is_passed, is_switch};
ghost use Rattle.drv_cc.specs.Front.{piece_byte, variables, variables_by};
ghost use Rattle.drv_cc.specs.Front.{piece_text, piece_variables, quoted, quoted_byte, quoted_line};
ghost use Rattle.drv_cc.specs.Front.{quoted_pieces, switch_words, variable};
ghost use Rattle.std.specs.List.{flat_map};
ghost use Rattle.std.specs.Prelude.{◌≡◌, ◌∷◌, ◌++◌, [], IfOk, OnOk, codes};

use crate::adding::add_thread_words;
use crate::child_lines::{add_machine_words, told};
use crate::classes::is;
use crate::environment::{add_linked_variables, add_offload_variables};
use crate::item::Item;
use crate::keeping::has;
use crate::leading::{beginning, link_beginning, stops};
use crate::reading::rest_after;
use crate::targets::add_child_words;
use crate::words::add_word;
use crate::{Surroundings, Variable};
use drv_options::Role;
use drv_words::{Listing, Word};
use std::alloc::{AllocError, Global};

/// Adds a byte of a word between single quotes.
fn quote_byte(byte: u8, text: &mut Word) -> Result<(), AllocError>
    ensures { OnOk result (text.new ≡ text.old ++ quoted_byte byte) }
{
    if byte == b'\'' {
        text.extend_from_slice(b"'\\''")
    } else {
        text.push(byte)
    }
}

/// Adds a word between single quotes.
fn quote(word: &[u8], text: &mut Word) -> Result<(), AllocError>
    ensures { OnOk result (text.new ≡ text.old ++ quoted word.now) }
{
    text.push(b'\'')?;
    for byte in word {
        quote_byte(*byte, text)?;
    }
    text.push(b'\'')
}

/// Words between single quotes, with a blank between two.
fn quoted_line(alloc: Global, words: &[Word]) -> Result<Word, AllocError>
    ensures { IfOk result (λ text. text ≡ quoted_line words.now) }
{
    let mut text = Word::empty(alloc);
    let [first, others @ ..] = words else {
        return Ok(text);
    };
    quote(first.as_bytes(), &mut text)?;
    for word in others {
        text.push(b' ')?;
        quote(word.as_bytes(), &mut text)?;
    }
    Ok(text)
}

/// Whether an item is a switch.
fn is_switch(item: &Item) -> bool
    ensures { result ≡ is_switch item.now.role }
{
    matches!(item.role, Role::Switch | Role::Unknown)
}

/// Whether the children get an item.
fn is_passed(item: &Item) -> bool
    ensures { result ≡ is_passed item.now }
{
    is_switch(item) || is(item.name.as_bytes(), b"-v")
}

/// Adds the words of the switches.
pub(crate) fn add_switches(
    alloc: Global,
    items: &[Item],
    words: &mut Listing<Word>,
) -> Result<(), AllocError>
    ensures { OnOk result (words.new ≡ words.old ++ switch_words items.now) }
{
    for item in items {
        if is_passed(item) {
            add_child_words(alloc, item, words)?;
        }
    }
    Ok(())
}

/// Adds how side files begin, as an option with its argument.
fn add_dump_option(alloc: Global, lead: Word, words: &mut Listing<Word>) -> Result<(), AllocError>
    ensures { OnOk result (words.new ≡ words.old ++ codes "-dumpdir" ∷ lead ∷ []) }
{
    add_word(alloc, words, b"-dumpdir")?;
    words.push(lead)?;
    Ok(())
}

/// Adds how the side files of a line's sources begin, if there is something.
fn add_source_dumps(alloc: Global, lead: Word, words: &mut Listing<Word>) -> Result<(), AllocError>
    ensures { OnOk result (words.new ≡ words.old ++ dump_option lead) }
{
    if lead.is_empty() {
        return Ok(());
    }
    add_dump_option(alloc, lead, words)
}

/// Adds how the side files of a line begin: those of its link, if it has one.
pub(crate) fn add_dump_words(
    alloc: Global,
    items: &[Item],
    words: &mut Listing<Word>,
) -> Result<(), AllocError>
    ensures { OnOk result (words.new ≡ words.old ++ dump_words items.now) }
{
    if stops(items) {
        let lead = beginning(alloc, items)?;
        return add_source_dumps(alloc, lead, words);
    }
    let lead = link_beginning(alloc, items)?;
    add_dump_option(alloc, lead, words)
}

/// The words that the compiler is called again with.
fn compiler_words(alloc: Global, told: &[Word], items: &[Item]) -> Result<Listing<Word>, AllocError>
    ensures { IfOk result (λ words. words ≡ compiler_words told.now items.now) }
{
    let mut words = Listing::new(alloc);
    add_switches(alloc, items, &mut words)?;
    add_machine_words(told, &mut words)?;
    add_thread_words(alloc, items, &mut words)?;
    add_dump_words(alloc, items, &mut words)?;
    Ok(words)
}

/// A variable.
fn variable(alloc: Global, name: &[u8], value: Word) -> Result<Variable, AllocError>
    ensures { IfOk result (λ made. made ≡ variable name.now value) }
{
    Ok(Variable {
        name: Word::from_bytes(alloc, name)?,
        value,
    })
}

/// Adds a byte of pieces between single quotes.
fn quote_piece_byte(byte: u8, text: &mut Word) -> Result<(), AllocError>
    ensures { OnOk result (text.new ≡ text.old ++ piece_byte byte) }
{
    if byte == b',' {
        text.extend_from_slice(b"' '")
    } else {
        quote_byte(byte, text)
    }
}

/// Adds the pieces of an argument, each between single quotes.
fn quote_pieces(argument: &[u8], text: &mut Word) -> Result<(), AllocError>
    ensures { OnOk result (text.new ≡ text.old ++ quoted_pieces argument.now) }
{
    text.push(b'\'')?;
    for byte in argument {
        quote_piece_byte(*byte, text)?;
    }
    text.push(b'\'')
}

/// Adds the pieces for the assembler that an item has, with a blank before each.
fn add_pieces(item: &Item, text: &mut Word) -> Result<(), AllocError>
    ensures { OnOk result (text.new ≡ text.old ++ piece_text item.now) }
{
    if is(item.name.as_bytes(), b"-Wa,") {
        text.push(b' ')?;
        return quote_pieces(item.argument.as_bytes(), text);
    }
    if is(item.name.as_bytes(), b"-Xassembler") {
        text.push(b' ')?;
        return quote(item.argument.as_bytes(), text);
    }
    Ok(())
}

/// Adds the pieces for the assembler, with a blank before each.
fn add_all_pieces(items: &[Item], text: &mut Word) -> Result<(), AllocError>
    ensures { OnOk result (text.new ≡ text.old ++ flat_map piece_text items.now) }
{
    for item in items {
        add_pieces(item, text)?;
    }
    Ok(())
}

/// The pieces for the assembler, each between single quotes, with a blank between two.
fn assembler_line(alloc: Global, items: &[Item]) -> Result<Word, AllocError>
    ensures { IfOk result (λ text. text ≡ assembler_line items.now) }
{
    let mut text = Word::empty(alloc);
    add_all_pieces(items, &mut text)?;
    Word::from_bytes(alloc, rest_after(text.as_bytes(), b" "))
}

/// Whether there are pieces for the assembler.
fn has_pieces(items: &[Item]) -> bool
    ensures { result ≡ has_pieces items.now }
{
    has(items, b"-Wa,") || has(items, b"-Xassembler")
}

/// Adds a variable.
pub(crate) fn add_variable(
    alloc: Global,
    name: &[u8],
    value: Word,
    children: &mut Listing<Variable>,
) -> Result<(), AllocError>
    ensures { OnOk result (children.new ≡ children.old ++ variable name.now value ∷ []) }
{
    children.push(variable(alloc, name, value)?)?;
    Ok(())
}

/// Adds the variable of the pieces for the assembler.
fn add_piece_variable(
    alloc: Global,
    items: &[Item],
    children: &mut Listing<Variable>,
) -> Result<(), AllocError>
    ensures { OnOk result (children.new ≡ children.old ++ piece_variables items.now) }
{
    let pieces = assembler_line(alloc, items)?;
    add_variable(alloc, b"COLLECT_AS_OPTIONS", pieces, children)
}

/// Adds the variable of the pieces for the assembler, if there are some.
fn add_assembler_variables(
    alloc: Global,
    items: &[Item],
    children: &mut Listing<Variable>,
) -> Result<(), AllocError>
    ensures { OnOk result (children.new ≡ children.old ++ assembler_variables items.now) }
{
    if has_pieces(items) {
        add_piece_variable(alloc, items, children)
    } else {
        Ok(())
    }
}

/// Adds the variable of the compiler that is called again.
fn add_compiler(
    alloc: Global,
    around: &Surroundings,
    children: &mut Listing<Variable>,
) -> Result<(), AllocError>
    ensures { OnOk result (children.new
        ≡ children.old ++ variable (codes "COLLECT_GCC") around.now.compiler ∷ []) }
{
    let compiler = around.compiler.clone()?;
    add_variable(alloc, b"COLLECT_GCC", compiler, children)
}

/// Adds the variable of the words that the compiler is called again with.
fn add_options(
    alloc: Global,
    words: &[Word],
    children: &mut Listing<Variable>,
) -> Result<(), AllocError>
    ensures { OnOk result (children.new ≡ children.old
        ++ variable (codes "COLLECT_GCC_OPTIONS") (quoted_line words.now) ∷ []) }
{
    let options = quoted_line(alloc, words)?;
    add_variable(alloc, b"COLLECT_GCC_OPTIONS", options, children)
}

/// The variables by which the compiler is called again with these words.
fn variables_by(
    alloc: Global,
    around: &Surroundings,
    words: &[Word],
) -> Result<Listing<Variable>, AllocError>
    ensures { IfOk result (λ made. made ≡ variables_by around.now words.now) }
{
    let mut children = Listing::new(alloc);
    add_compiler(alloc, around, &mut children)?;
    add_options(alloc, words, &mut children)?;
    Ok(children)
}

/// All variables for the children of a line with these items, for which the compiler is called again
/// with these words, and gives them what is told.
pub(crate) fn variables(
    alloc: Global,
    around: &Surroundings,
    told: &[Word],
    items: &[Item],
    words: &[Word],
) -> Result<Listing<Variable>, AllocError>
    ensures { IfOk result (λ made. made ≡ variables around.now told.now items.now words.now) }
{
    let mut children = variables_by(alloc, around, words)?;
    add_assembler_variables(alloc, items, &mut children)?;
    add_offload_variables(alloc, told, items, &mut children)?;
    add_linked_variables(alloc, around, told, items, &mut children)?;
    Ok(children)
}

/// The variables of a line's children.
pub(crate) fn children(
    alloc: Global,
    around: &Surroundings,
    items: &[Item],
) -> Result<Listing<Variable>, AllocError>
    ensures { IfOk result (λ made. made ≡ children around.now items.now) }
{
    let told = told(alloc, around.children.as_slice(), items)?;
    let words = compiler_words(alloc, told.as_slice(), items)?;
    variables(alloc, around, told.as_slice(), items, words.as_slice())
}
