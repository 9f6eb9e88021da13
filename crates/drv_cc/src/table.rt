//! The look-up of an option's row. The first row that fits a word decides.

ghost use Rattle.drv_cc.specs.Code.Building.{shown};
ghost use Rattle.drv_cc.specs.Code.Parts.{last_byte, second};
ghost use Rattle.drv_cc.specs.Items.{begins, first_row, fits, option_fits, takes_rest};
ghost use Rattle.drv_cc.specs.Table.{capitals, features, later_letters, later_long_names, letters};
ghost use Rattle.drv_cc.specs.Table.{long_names, machines, row_by, warnings};
ghost use Rattle.std.specs.Option.{option_map};
ghost use Rattle.std.specs.Prelude.{◌≡◌, ◌++◌, false, find, get_or, map, true};

use crate::classes::is;
use drv_options::{
    CAPITALS, FEATURES, LATER_LETTERS, LATER_LONG_NAMES, LETTERS, LONG_NAMES, MACHINES, OptionRow,
    Role, Spelling, Takes, WARNINGS,
};

/// A row of the option table.
#[derive(Clone, Copy)]
pub(crate) struct Row {
    /// The bytes that a word must be, or begin with.
    pub(crate) option: &'static [u8],
    /// How it takes its argument.
    pub(crate) takes: Takes,
    /// The name that it is called by.
    pub(crate) name: &'static [u8],
    /// How that is spelled.
    pub(crate) spelling: Spelling,
    /// What it is on the line.
    pub(crate) role: Role,
}

impl Row {
    /// A row of that file.
    fn of(row: &OptionRow) -> Row
        ensures { shown result ≡ row_by row.now.0.now row.now.1 row.now.2.now row.now.3 row.now.4 }
    {
        let (option, takes, other_name, spelling, role) = *row;
        let name = if other_name.is_empty() {
            option
        } else {
            other_name
        };
        Row {
            option,
            takes,
            name,
            spelling,
            role,
        }
    }
}

/// Whether an argument may follow an option in its word.
fn takes_rest(takes: Takes) -> bool
    ensures { result ≡ takes_rest takes }
{
    matches!(takes, Takes::Attached | Takes::Rest | Takes::Either)
}

/// Whether an option fits a word. Most are longer than it.
#[tactic(auto, using(crate::proofs::Parts::longer_fits))]
fn fits(takes: Takes, option: &[u8], word: &[u8]) -> bool
    ensures { result ≡ option_fits takes word.now option.now }
{
    if word.len() < option.len() {
        false
    } else if takes_rest(takes) {
        begins(option, word)
    } else {
        is(option, word)
    }
}

/// The last byte of a word, or 0.
pub(crate) fn last_byte(word: &[u8]) -> u8
    ensures { result ≡ last_byte word.now }
{
    match word {
        [.., byte] => *byte,
        _ => 0,
    }
}

/// The byte at a place of a word, or 0.
fn byte_at(word: &[u8], at: usize) -> u8
    ensures { result ≡ get_or word.now at 0 }
{
    match word.get(at) {
        Some(byte) => *byte,
        None => 0,
    }
}

/// Whether the last byte of an option is not at its place in a word.
#[tactic(auto, using(crate::proofs::Parts::end_differs))]
fn differs(option: &[u8], word: &[u8]) -> bool
    ensures { result ≡ true → begins option.now word.now ≡ false }
{
    if option.is_empty() {
        return false;
    }
    last_byte(option) != byte_at(word, option.len() - 1)
}

/// Whether a word begins with an option.
fn begins(option: &[u8], word: &[u8]) -> bool
    ensures { result ≡ begins option.now word.now }
{
    if differs(option, word) {
        return false;
    }
    word.starts_with(option)
}

/// The second byte of a word, or 0.
fn second(word: &[u8]) -> u8
    ensures { result ≡ second word.now }
{
    match word {
        [_, letter, ..] => *letter,
        _ => 0,
    }
}

/// The first of these rows that fits a word.
fn row_among(rows: &[OptionRow], word: &[u8]) -> Option<Row>
    ensures { option_map shown result
        ≡ find (fits word.now) (map (λ row. row_by row.0.now row.1 row.2.now row.3 row.4) rows.now) }
{
    for row in rows {
        if fits(row.1, row.0, word) {
            return Some(Row::of(row));
        }
    }
    None
}

/// The row of a long name, to those of `--i`.
fn early_long_name(word: &[u8]) -> Option<Row>
    ensures { option_map shown result ≡ find (fits word.now) long_names }
{
    row_among(&LONG_NAMES, word)
}

/// The row of a long name after them.
fn later_long_name(word: &[u8]) -> Option<Row>
    ensures { option_map shown result ≡ find (fits word.now) later_long_names }
{
    row_among(&LATER_LONG_NAMES, word)
}

/// The row of a word of `-W`.
fn warning(word: &[u8]) -> Option<Row>
    ensures { option_map shown result ≡ find (fits word.now) warnings }
{
    row_among(&WARNINGS, word)
}

/// The row of a word of `-f`.
fn feature(word: &[u8]) -> Option<Row>
    ensures { option_map shown result ≡ find (fits word.now) features }
{
    row_among(&FEATURES, word)
}

/// The row of a word of `-g` or `-m`.
fn machine(word: &[u8]) -> Option<Row>
    ensures { option_map shown result ≡ find (fits word.now) machines }
{
    row_among(&MACHINES, word)
}

/// The row of a word of a capital letter.
fn capital(word: &[u8]) -> Option<Row>
    ensures { option_map shown result ≡ find (fits word.now) capitals }
{
    row_among(&CAPITALS, word)
}

/// The row of a word of another letter, to those of `-o`.
fn letter(word: &[u8]) -> Option<Row>
    ensures { option_map shown result ≡ find (fits word.now) letters }
{
    row_among(&LETTERS, word)
}

/// The row of a word of a letter after them.
fn later_letter(word: &[u8]) -> Option<Row>
    ensures { option_map shown result ≡ find (fits word.now) later_letters }
{
    row_among(&LATER_LETTERS, word)
}

/// The row of a long name.
#[tactic(auto, using(crate::proofs::Parts::found_early, crate::proofs::Parts::found_later))]
fn long_name(word: &[u8]) -> Option<Row>
    ensures { option_map shown result ≡ find (fits word.now) (long_names ++ later_long_names) }
{
    if let Some(row) = early_long_name(word) {
        return Some(row);
    }
    later_long_name(word)
}

/// The row of a word: it is among those that have its second byte.
pub(crate) fn first_row(word: &[u8]) -> Option<Row>
    ensures { option_map shown result ≡ first_row word.now }
{
    match second(word) {
        b'-' => long_name(word),
        b'W' => warning(word),
        b'f' => feature(word),
        b'g' | b'm' => machine(word),
        0..=b'Z' => capital(word),
        0..=b'o' => letter(word),
        _ => later_letter(word),
    }
}
