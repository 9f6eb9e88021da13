//! A line read as a list of items.

ghost use Rattle.drv_cc.specs.Code.Building.{Notes, row_shown, shown, start_shown};
ghost use Rattle.drv_cc.specs.Items.{begins, beyond, first_row, is_file, is_passed_over, item};
ghost use Rattle.drv_cc.specs.Items.{items_of, known_item, machine_item, machine_name, meant_option};
ghost use Rattle.drv_cc.specs.Items.{lacks, newer_item, passed_item, plain};
ghost use Rattle.drv_cc.specs.Items.{start_of, start_renamed, with_rest};
ghost use Rattle.drv_options.specs.declared.option.Role.TheVariants as lacking;
ghost use Rattle.drv_options.specs.declared.option.Role.TheVariants.{Switch};
ghost use Rattle.drv_options.specs.declared.option.Spelling.TheVariants.{Alone};
ghost use Rattle.std.specs.Prelude.{◌≡◌, ◌∷◌, ◌++◌, [], IfOk, None, OnOk, codes, drop, false, length};
ghost use Rattle.std.specs.Prelude.{true};

use crate::classes::{is_ignored, is_ignored_joined};
use crate::fences::Fence;
use crate::item::Item;
use crate::known::{is_known_line, is_own};
use crate::renaming::{is_renamed, meant_option};
use crate::table::{Row, first_row};
use crate::values::{accepts, accepts_near, is_off, judges, turns_off};
use drv_options::{Role, Spelling, Takes};
use drv_words::{Listing, Word};
use std::alloc::{AllocError, Global};

/// How a word begins.
#[derive(Drop)]
enum Start {
    /// It is an item.
    Whole(Item),
    /// It is an option that takes the next word.
    Wants(Row),
}

/// The rest of a word after an option.
pub(crate) fn rest_after<'a>(word: &'a [u8], option: &[u8]) -> &'a [u8]
    ensures { result.now ≡ drop (length option.now) word.now }
{
    word.get(option.len()..).unwrap_or(&[])
}

/// An option to which newer compilers alone give this name: as it is, or by the name. Without names
/// of options it is unknown.
pub(crate) fn newer_item(
    alloc: Global,
    known: &[u8],
    option: &[u8],
    name: &[u8],
) -> Result<Item, AllocError>
    ensures { IfOk result (λ item. item ≡ newer_item known.now option.now name.now) }
{
    if known.is_empty() {
        return Item::of_two_names(alloc, option, name);
    }
    let own = if is_own(known, option) { option } else { name };
    Item::new(alloc, own, b"", Spelling::Alone, Role::Switch)
}

/// An option with what follows it in its word.
fn with_rest(alloc: Global, known: &[u8], row: &Row, rest: &[u8]) -> Result<Start, AllocError>
    ensures { IfOk result (λ start. start_shown start
        ≡ with_rest known.now row.now.takes (shown row.now) rest.now) }
{
    match row.takes {
        Takes::Nothing => Ok(Start::Whole(Item::by_row(alloc, row, b"")?)),
        Takes::Newer => Ok(Start::Whole(newer_item(alloc, known, row.option, row.name)?)),
        Takes::Next => Ok(Start::Wants(*row)),
        Takes::Either if rest.is_empty() => Ok(Start::Wants(*row)),
        Takes::Attached if rest.is_empty() => {
            Ok(Start::Whole(Item::plain(alloc, Role::Lacking, row.option)?))
        }
        Takes::Attached | Takes::Rest | Takes::Either => {
            Ok(Start::Whole(Item::by_row(alloc, row, rest)?))
        }
    }
}

/// What `-mcpu=` is called: `-mtune=` where a line of the known names says so.
fn machine_name(known: &[u8]) -> &'static [u8]
    ensures { result.now ≡ machine_name known.now }
{
    if is_known_line(known, b"-mcpu=>-mtune=") {
        b"-mtune="
    } else {
        b"-mcpu="
    }
}

/// The option `-mcpu=` with the machine after it.
fn machine_item(alloc: Global, known: &[u8], machine: &[u8]) -> Result<Item, AllocError>
    ensures { IfOk result (λ item. item ≡ machine_item known.now machine.now) }
{
    let name = machine_name(known);
    Item::new(alloc, name, machine, Spelling::Joined, Role::Switch)
}

/// Whether an option names a machine.
fn names_machine(name: &[u8]) -> bool
    ensures { result ≡ begins (codes "-mcpu=") name.now }
{
    matches!(name, [b'-', b'm', b'c', b'p', b'u', b'=', ..])
}

/// An option that is known beyond the table.
fn known_item(alloc: Global, known: &[u8], name: &[u8]) -> Result<Item, AllocError>
    ensures { IfOk result (λ item. item ≡ known_item known.now name.now) }
{
    if names_machine(name) {
        return machine_item(alloc, known, rest_after(name, b"-mcpu="));
    }
    Item::new(alloc, name, b"", Spelling::Alone, Role::Switch)
}

/// A word that no row fits and that is not passed over, by the name that it has.
fn by_names(alloc: Global, known: &[u8], word: &[u8], name: &[u8]) -> Result<Item, AllocError>
    requires { is_passed_over name.now ≡ false }
    ensures { IfOk result (λ item. item ≡ beyond known.now word.now name.now) }
{
    if turns_off(alloc, known, word)? || accepts(alloc, known, name)? {
        return known_item(alloc, known, name);
    }
    let role = if judges(alloc, known, name)? {
        Role::Question
    } else {
        Role::Unknown
    };
    Item::plain(alloc, role, word)
}

/// Whether an option is passed over, or its other sign is.
fn is_passed_over(name: &[u8]) -> bool
    ensures { result ≡ is_passed_over name.now }
{
    match name {
        [hyphen, letter, b'n', b'o', b'-', rest @ ..] => is_ignored_joined(*hyphen, *letter, rest),
        _ => is_ignored(name),
    }
}

/// Whether names say that the compiler lacks an option.
fn lacks(alloc: Global, known: &[u8], name: &[u8]) -> Result<bool, AllocError>
    ensures { IfOk result (λ is. is ≡ lacks known.now name.now) }
{
    let mut line = Word::from_bytes(alloc, name)?;
    line.extend_from_slice(b"?")?;
    Ok(is_own(known, line.as_bytes()))
}

/// An option that newer compilers pass over.
fn passed_item(alloc: Global, known: &[u8], word: &[u8], name: &[u8]) -> Result<Item, AllocError>
    ensures { IfOk result (λ item. item ≡ passed_item known.now word.now name.now) }
{
    if known.is_empty() {
        return Item::plain(alloc, Role::Unknown, word);
    }
    if lacks(alloc, known, name)? {
        return Item::plain(alloc, Role::Question, word);
    }
    let spelling = if is_own(known, name) {
        Spelling::Alone
    } else {
        Spelling::Nowhere
    };
    Item::new(alloc, name, b"", spelling, Role::Switch)
}

/// A word that no row fits, as an item of its own name. Without names it is unknown, if it turns no
/// warning off.
fn beyond(alloc: Global, known: &[u8], word: &[u8], name: &[u8]) -> Result<Item, AllocError>
    ensures { IfOk result (λ item. item ≡ beyond known.now word.now name.now) }
{
    if known.is_empty() && !name.is_empty() && !is_off(word) {
        return Item::plain(alloc, Role::Unknown, word);
    }
    if is_passed_over(name) {
        return passed_item(alloc, known, word, name);
    }
    by_names(alloc, known, word, name)
}

/// The same, by the name that the word has itself.
#[tactic(auto, using(crate::proofs::Again::unrenamed_named, crate::proofs::Again::renamed_named))]
pub(crate) fn by_own_name(alloc: Global, known: &[u8], word: &[u8]) -> Result<Item, AllocError>
    ensures { IfOk result (λ item. item ≡ beyond known.now word.now (meant_option word.now)) }
{
    if !is_renamed(word) {
        return beyond(alloc, known, word, word);
    }
    let name = meant_option(alloc, word)?;
    beyond(alloc, known, word, name.as_bytes())
}

/// Whether a word is a switch of its own name by names of options: they have it as it is, or it
/// turns a warning off. These lines of them tell where it is.
#[tactic(auto, using(crate::proofs::Again::own_switch, crate::proofs::Again::found_switch))]
pub(crate) fn is_own_switch(
    alloc: Global,
    known: &[u8],
    fences: &[Fence],
    word: &[u8],
) -> Result<bool, AllocError>
    ensures { IfOk result (λ is. is ≡ true
        → beyond known.now word.now (meant_option word.now) ≡ item word.now [] Alone Switch) }
{
    if is_renamed(word) || names_machine(word) || is_passed_over(word) {
        return Ok(false);
    }
    if !is_off(word) && accepts_near(known, fences, word) {
        return Ok(true);
    }
    Ok(turns_off(alloc, known, word)? || accepts(alloc, known, word)?)
}

/// How a word that no row fits begins.
#[tactic(auto, using(crate::proofs::Noted::unrenamed_begins))]
fn start_renamed(alloc: Global, known: &[u8], word: &[u8]) -> Result<Start, AllocError>
    requires { first_row word.now ≡ None }
    ensures { IfOk result (λ start. start_shown start
        ≡ start_renamed known.now word.now (meant_option word.now) (first_row (meant_option word.now))) }
{
    if !is_renamed(word) {
        return Ok(Start::Whole(beyond(alloc, known, word, word)?));
    }
    let name = meant_option(alloc, word)?;
    match first_row(name.as_bytes()) {
        Some(row) => with_rest(alloc, known, &row, rest_after(name.as_bytes(), row.option)),
        None => Ok(Start::Whole(beyond(alloc, known, word, name.as_bytes())?)),
    }
}

/// Whether a word is no option.
fn is_file(word: &[u8]) -> bool
    ensures { result ≡ is_file word.now }
{
    !matches!(word, [b'-', _, ..])
}

/// How a word begins.
fn start_of(alloc: Global, known: &[u8], word: &[u8]) -> Result<Start, AllocError>
    ensures { IfOk result (λ start. start_shown start ≡ start_of known.now word.now) }
{
    if is_file(word) {
        return Ok(Start::Whole(Item::plain(alloc, Role::Input, word)?));
    }
    match first_row(word) {
        Some(row) => with_rest(alloc, known, &row, rest_after(word, row.option)),
        None => start_renamed(alloc, known, word),
    }
}

/// Notes a word, where the option of a row has its argument or takes none; it gives the row that
/// takes the next word.
#[tactic(auto, using(crate::proofs::Noted::wanted_noted, crate::proofs::Noted::wants_noted, crate::proofs::Noted::whole_noted))]
fn note_word(
    alloc: Global,
    known: &[u8],
    items: &mut Listing<Item>,
    wanting: Option<Row>,
    word: &[u8],
) -> Result<Option<Row>, AllocError>
    ensures { IfOk result (Notes known.now items.old items.new (row_shown wanting) word.now) }
{
    if let Some(row) = wanting {
        items.push(Item::by_row(alloc, &row, word)?)?;
        return Ok(None);
    }
    match start_of(alloc, known, word)? {
        Start::Wants(row) => Ok(Some(row)),
        Start::Whole(item) => {
            items.push(item)?;
            Ok(None)
        }
    }
}

/// Notes words, and gives the row that takes a word after them.
fn note_words(
    alloc: Global,
    known: &[u8],
    words: &[Word],
    items: &mut Listing<Item>,
) -> Result<Option<Row>, AllocError>
    ensures { IfOk result (λ wanting. items.new ++ items_of known.now (row_shown wanting) []
        ≡ items.old ++ items_of known.now None words.now) }
{
    let mut wanting = None;
    for word in words {
        wanting = note_word(alloc, known, items, wanting, word.as_bytes())?;
    }
    Ok(wanting)
}

/// Adds the option of a row, which lacks its argument.
fn add_lacking(alloc: Global, row: Row, items: &mut Listing<Item>) -> Result<(), AllocError>
    ensures { OnOk result (items.new ≡ items.old ++ plain lacking.Lacking row.option.now ∷ []) }
{
    items.push(Item::plain(alloc, Role::Lacking, row.option)?)?;
    Ok(())
}

/// The items of a line.
pub(crate) fn items_of(
    alloc: Global,
    known: &[u8],
    words: &[Word],
) -> Result<Listing<Item>, AllocError>
    ensures { IfOk result (λ items. items ≡ items_of known.now None words.now) }
{
    let mut items = Listing::new(alloc);
    if let Some(row) = note_words(alloc, known, words, &mut items)? {
        add_lacking(alloc, row, &mut items)?;
    }
    Ok(items)
}
