//! The options of a line that choose its machine, and the words that gcc makes of them.

ghost use Rattle.drv_compile.specs.Machines.{chooser_word, chooser_words};
ghost use Rattle.drv_compile.specs.Machines.{folder_item, is_machine, key_of, key_word};
ghost use Rattle.drv_compile.specs.Machines.{found_or_missing, items_by, plain_items, row_among};
ghost use Rattle.drv_compile.specs.Machines.{row_beginning, row_in, row_items, row_of, word_item};
ghost use Rattle.drv_compile.specs.Machines.{word_items};
ghost use Rattle.drv_compile.specs.Suffixes.{suffixed_by};
ghost use Rattle.drv_compile.specs.declared.machines.LineRow.TheVariants.{Found};
ghost use Rattle.drv_args.specs.declared.items.Item.{Item};
ghost use Rattle.drv_cc.specs.declared.answer.Variable.{Variable};
ghost use Rattle.std.specs.List.{flat_map};
ghost use Rattle.std.specs.Option.{option_copied};
ghost use Rattle.std.specs.Prelude.{◌≡◌, ◌++◌, IfOk, List, OnOk, Some, drop};

use crate::children::child_variables;
use crate::compilers::{first_value, has_either, rest_of, values};
use drv_args::{Effect, Item};
use drv_cc::Variable;
use drv_words::{Listing, Word, push_marked};
use std::alloc::{AllocError, Global};

/// The row of a line.
#[derive(Drop)]
pub(crate) enum LineRow {
    /// There are no rows: no line needs one.
    Unneeded,
    /// The words of the row.
    Found(Word),
    /// The line's key, of which no row has the words.
    Missing(Word),
}

/// The items of a line with the words for its machine, and the variables of its children.
#[derive(Drop)]
pub(crate) enum MachineItems {
    /// The items and the variables: in both the words of the line's row are in the place of its
    /// options for a machine.
    Made(Listing<Item>, Listing<Variable>),
    /// The options of the line's key, of which no row has the words.
    Lacks(Word),
}

/// Whether an option chooses a machine.
pub(crate) fn is_machine(option: &[u8]) -> bool
    ensures { result ≡ is_machine option.now }
{
    option.starts_with(b"-m") || option == b"-EB".as_slice() || option == b"-EL".as_slice()
}

/// Adds an option that chooses a machine.
fn push_key(key: &mut Word, item: &Item) -> Result<(), AllocError>
    ensures { OnOk result (key.new ≡ key.old ++ key_word item.now) }
{
    if is_machine(item.option.as_bytes()) {
        key.push(b' ')?;
        push_marked(key, item.option.as_bytes())?;
        push_marked(key, item.argument.as_bytes())?;
    }
    Ok(())
}

/// Adds the options that choose a machine.
fn push_keys(key: &mut Word, items: &[Item]) -> Result<(), AllocError>
    ensures { OnOk result (key.new ≡ key.old ++ flat_map key_word items.now) }
{
    for item in items {
        push_key(key, item)?;
    }
    Ok(())
}

/// Adds the word that a line `key` has for an option, with the blank before it.
fn push_chooser(key: &mut Word, line: &[u8], item: &Item) -> Result<(), AllocError>
    ensures { OnOk result (key.new ≡ key.old ++ chooser_word line.now item.now) }
{
    let option = item.option.as_bytes();
    if !line.starts_with(option) {
        return Ok(());
    }
    match rest_of(option, line) {
        [b' ', word @ ..] => {
            key.push(b' ')?;
            key.extend_from_slice(word)
        }
        _ => Ok(()),
    }
}

/// Adds the words that a line `key` has for these options.
fn push_choosers(key: &mut Word, line: &[u8], items: &[Item]) -> Result<(), AllocError>
    ensures { OnOk result (key.new ≡ key.old ++ chooser_words items.now line.now) }
{
    for item in items {
        push_chooser(key, line, item)?;
    }
    Ok(())
}

/// Adds the words that the lines `key` have for these options.
fn push_all_choosers(key: &mut Word, lines: &[Word], items: &[Item]) -> Result<(), AllocError>
    ensures { OnOk result (key.new ≡ key.old ++ flat_map (chooser_words items.now) lines.now) }
{
    for line in lines {
        push_choosers(key, line.as_bytes(), items)?;
    }
    Ok(())
}

/// The key of a line: the options that choose its machine, and then the words of a text's lines
/// `key` for others.
fn key_of(alloc: Global, text: &[u8], items: &[Item]) -> Result<Word, AllocError>
    ensures { IfOk result (λ key. key ≡ key_of text.now items.now) }
{
    let lines = values(alloc, b"key ", text)?;
    let mut key = Word::empty(alloc);
    push_keys(&mut key, items)?;
    push_all_choosers(&mut key, lines.as_slice(), items)?;
    Ok(key)
}

/// How the row of a key begins.
fn row_beginning(alloc: Global, key: &[u8]) -> Result<Word, AllocError>
    ensures { IfOk result (λ beginning. beginning ≡ row_beginning key.now) }
{
    let mut beginning = Word::from_bytes(alloc, b"machine")?;
    beginning.extend_from_slice(key)?;
    beginning.extend_from_slice(b"\t")?;
    Ok(beginning)
}

/// The word of a row for a folder of its libraries begins so.
const FOLDER: &[u8] = b"--gdrv-in=";

/// A folder of libraries as a prefix.
fn folder_item(alloc: Global, word: &[u8]) -> Result<Item, AllocError>
    ensures { IfOk result (λ item. item ≡ folder_item word.now) }
{
    Ok(Item {
        effect: Effect::Prefix,
        option: Word::from_bytes(alloc, FOLDER)?,
        argument: Word::from_bytes(alloc, rest_of(FOLDER, word))?,
    })
}

/// A word of a row as an item: a folder is a prefix, and any other word a switch.
fn word_item(alloc: Global, word: &[u8]) -> Result<Item, AllocError>
    ensures { IfOk result (λ item. item ≡ word_item word.now) }
{
    if word.starts_with(FOLDER) {
        return folder_item(alloc, word);
    }
    Ok(Item {
        effect: Effect::Switch,
        option: Word::from_bytes(alloc, word)?,
        argument: Word::empty(alloc),
    })
}

/// Adds a word of a row.
fn push_word(alloc: Global, word: &[u8], items: &mut Listing<Item>) -> Result<(), AllocError>
    ensures { OnOk result (items.new ≡ items.old ++ word_items word.now) }
{
    if !word.is_empty() {
        items.push(word_item(alloc, word)?)?;
    }
    Ok(())
}

/// The words of a row as items.
fn row_items(alloc: Global, row: &[u8]) -> Result<Listing<Item>, AllocError>
    ensures { IfOk result (λ items. items ≡ row_items row.now) }
{
    let mut items = Listing::new(alloc);
    for word in row.split(|byte| *byte == b'\t') {
        push_word(alloc, word, &mut items)?;
    }
    Ok(items)
}

/// The items that are for no machine.
fn plain_items(items: Listing<Item>) -> Listing<Item>
    ensures { result ≡ plain_items items }
{
    let mut plain = items.into_vec();
    plain.retain(|item| !is_machine(item.option.as_bytes()));
    Listing::from_vec(plain)
}

/// The options of a key or of a line, without the blank before them.
pub(crate) fn options_of(alloc: Global, key: &[u8]) -> Result<Word, AllocError>
    ensures { IfOk result (λ options. options ≡ drop 1 key.now) }
{
    Word::from_bytes(alloc, key.get(1..).unwrap_or(&[]))
}

/// The row for a key, if one was found.
fn found_or_missing(alloc: Global, key: &[u8], row: Option<Word>) -> Result<LineRow, AllocError>
    ensures { IfOk result (λ found. found ≡ found_or_missing key.now row) }
{
    let Some(row) = row else {
        let key = Word::from_bytes(alloc, key)?;
        return Ok(LineRow::Missing(key));
    };
    Ok(LineRow::Found(row))
}

/// The row for a key among the rows of a text.
pub(crate) fn row_among(alloc: Global, text: &[u8], key: &[u8]) -> Result<LineRow, AllocError>
    ensures { IfOk result (λ row. row ≡ row_among text.now key.now) }
{
    let beginning = row_beginning(alloc, key)?;
    let row = first_value(alloc, beginning.as_bytes(), text)?;
    found_or_missing(alloc, key, row)
}

/// The row of a line by a text. Where that has no rows, no line needs one.
fn row_in(alloc: Global, text: &[u8], items: &[Item]) -> Result<LineRow, AllocError>
    ensures { IfOk result (λ row. row ≡ row_in text.now items.now) }
{
    if first_value(alloc, b"machine", text)?.is_none() {
        return Ok(LineRow::Unneeded);
    }
    let key = key_of(alloc, text, items)?;
    row_among(alloc, text, key.as_bytes())
}

/// The row of a line by the text of a file, if that is whole.
pub(crate) fn row_of(
    alloc: Global,
    text: Option<&[u8]>,
    items: &[Item],
) -> Result<LineRow, AllocError>
    ensures { IfOk result (λ row. row ≡ row_of (option_copied text.entry) items.now) }
{
    match text {
        Some(text) => row_in(alloc, text, items),
        None => Ok(LineRow::Unneeded),
    }
}

/// The items of a line with the words of its row before them, and the variables of its children.
fn with_row(
    alloc: Global,
    row: &[u8],
    items: Listing<Item>,
    children: &[Variable],
) -> Result<MachineItems, AllocError>
    ensures { IfOk result (λ made. made ≡ items_by (Found row.now) items children.now) }
{
    let told = child_variables(alloc, items.as_slice(), row, children)?;
    let mut made = row_items(alloc, row)?.into_vec();
    made.append(&mut plain_items(items).into_vec())?;
    Ok(MachineItems::Made(Listing::from_vec(made), told))
}

/// The items of a line and the variables of its children by its row. Where no line needs one, the
/// items stay.
pub(crate) fn items_by(
    alloc: Global,
    row: LineRow,
    items: Listing<Item>,
    children: Listing<Variable>,
) -> Result<MachineItems, AllocError>
    ensures { IfOk result (λ made. made ≡ items_by row items children) }
{
    match row {
        LineRow::Unneeded => {
            let told = child_variables(alloc, &[], b"", children.as_slice())?;
            Ok(MachineItems::Made(items, told))
        }
        LineRow::Found(row) => with_row(alloc, row.as_bytes(), items, children.as_slice()),
        LineRow::Missing(key) => {
            let options = options_of(alloc, key.as_bytes())?;
            Ok(MachineItems::Lacks(options))
        }
    }
}

/// The text, if it has rows for machines or names a suffix of programs. A line by any other text
/// stays as it is.
pub(crate) fn for_machines(text: &[u8]) -> Option<&[u8]>
    ensures rows { (items : List Item)
        → row_of (option_copied result) items ≡ row_of (Some text.now) items }
    ensures suffix { (items : List Item)
        → suffixed_by (option_copied result) items ≡ suffixed_by (Some text.now) items }
{
    if has_either(b"machine", b"suffix ", text) {
        return Some(text);
    }
    None
}
