//! The class of an option, of which the last item of a line stays.

ghost use Rattle.drv_cc.specs.Items.{class_alone, class_by, class_in, class_of, has_two_signs};
ghost use Rattle.drv_cc.specs.Items.{is_among, positive_form, same};
ghost use Rattle.drv_cc.specs.Table.{classes, ignored, texts};
ghost use Rattle.std.specs.Option.{option_map};
ghost use Rattle.std.specs.Prelude.{◌≡◌, ◌∷◌, IfOk, map};

use crate::table::last_byte;
use drv_options::{CLASSES, IGNORED, Spelling};
use drv_words::Word;
use std::alloc::{AllocError, Global};

/// Whether a name is one of these.
pub(crate) fn is_one_of(names: &[&[u8]], name: &[u8]) -> bool
    ensures { result ≡ is_among (map (λ other. other.now) names.now) name.now }
{
    for other in names {
        if is(name, other) {
            return true;
        }
    }
    false
}

/// Whether an option is passed over.
pub(crate) fn is_ignored(name: &[u8]) -> bool
    ensures { result ≡ is_among ignored name.now }
{
    is_one_of(&IGNORED, name)
}

/// Whether a name begins with these two bytes and goes on so.
fn is_joined(name: &[u8], hyphen: u8, letter: u8, rest: &[u8]) -> bool
    ensures { result ≡ same (hyphen ∷ letter ∷ rest.now) name.now }
{
    match name {
        [first, second, left @ ..] => is(rest, left) && *first == hyphen && *second == letter,
        _ => false,
    }
}

/// Whether one of these names does.
fn has_joined(names: &[&[u8]], hyphen: u8, letter: u8, rest: &[u8]) -> bool
    ensures { result ≡ is_among (map (λ other. other.now) names.now) (hyphen ∷ letter ∷ rest.now) }
{
    for other in names {
        if is_joined(other, hyphen, letter, rest) {
            return true;
        }
    }
    false
}

/// Whether an option is passed over that begins with these two bytes and goes on so.
pub(crate) fn is_ignored_joined(hyphen: u8, letter: u8, rest: &[u8]) -> bool
    ensures { result ≡ is_among ignored (hyphen ∷ letter ∷ rest.now) }
{
    has_joined(&IGNORED, hyphen, letter, rest)
}

/// Whether a text has a name between blanks.
pub(crate) fn stands_in(text: &[u8], name: &[u8]) -> bool
    ensures { result ≡ is_among (texts text.now) name.now }
{
    text.split(|byte| *byte == b' ').any(|other| name == other)
}

/// Whether a name is this one. Most differ in their lengths or in their last bytes.
#[tactic(auto, using(crate::proofs::OtherNames::other_length, crate::proofs::OtherNames::other_end))]
pub(crate) fn is(name: &[u8], other: &[u8]) -> bool
    ensures { result ≡ same name.now other.now }
{
    name.len() == other.len() && last_byte(name) == last_byte(other) && name == other
}

/// The class that a name has among options with their classes.
fn class_among(rows: &[(&'static [u8], &'static [u8])], name: &[u8]) -> Option<&'static [u8]>
    ensures { option_map (λ class. class.now) result
        ≡ class_in (map (λ row. (row.0.now, row.1.now)) rows.now) name.now }
{
    for row in rows {
        if is(name, row.0) {
            return Some(row.1);
        }
    }
    None
}

/// The class that a name has in the list.
fn listed_class(name: &[u8]) -> Option<&'static [u8]>
    ensures { option_map (λ class. class.now) result ≡ class_in classes name.now }
{
    class_among(&CLASSES, name)
}

/// Whether an option's name is one with two signs.
fn has_two_signs(name: &[u8]) -> bool
    ensures { result ≡ has_two_signs name.now }
{
    matches!(name, [_, b'W' | b'f' | b'g' | b'm', ..])
}

/// The positive form of an option.
pub(crate) fn positive_form(alloc: Global, name: &[u8]) -> Result<Word, AllocError>
    ensures { IfOk result (λ word. word ≡ positive_form name.now) }
{
    match name {
        [dash, letter, b'n', b'o', b'-', rest @ ..] => {
            let mut word = Word::from_bytes(alloc, &[*dash, *letter])?;
            word.extend_from_slice(rest)?;
            Ok(word)
        }
        _ => Word::from_bytes(alloc, name),
    }
}

/// The class of an option that takes no argument.
fn class_alone(alloc: Global, name: &[u8]) -> Result<Word, AllocError>
    ensures { IfOk result (λ word. word ≡ class_alone name.now) }
{
    if !has_two_signs(name) || name.contains(&b'=') {
        return Ok(Word::empty(alloc));
    }
    positive_form(alloc, name)
}

/// The class of an option that is not in the list.
fn class_by(alloc: Global, spelling: Spelling, name: &[u8]) -> Result<Word, AllocError>
    ensures { IfOk result (λ word. word ≡ class_by spelling name.now) }
{
    match spelling {
        Spelling::Alone => class_alone(alloc, name),
        Spelling::Joined | Spelling::Separate | Spelling::Nowhere => Ok(Word::empty(alloc)),
    }
}

/// The class of an option, by its name and how it is spelled; empty where it has none.
pub(crate) fn class_of(alloc: Global, spelling: Spelling, name: &[u8]) -> Result<Word, AllocError>
    ensures { IfOk result (λ word. word ≡ class_of spelling name.now) }
{
    match listed_class(name) {
        Some(class) => Word::from_bytes(alloc, class),
        None => class_by(alloc, spelling, name),
    }
}
