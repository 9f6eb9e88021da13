//! What arguments an option takes that is known beyond the table: any, a number, or listed ones. A
//! mark behind the name says so.

ghost use Rattle.drv_cc.specs.Items.{accepts, begins, head_of, is_digit, is_known};
ghost use Rattle.drv_cc.specs.Items.{is_number, is_open, judges, leaves, name_before_argument};
ghost use Rattle.drv_cc.specs.Items.{takes_value};
ghost use Rattle.drv_cc.specs.Items.{turns_off, value_of};
ghost use Rattle.std.specs.List.{list_all};
ghost use Rattle.std.specs.Prelude.{◌≡◌, ◌++◌, ◌&&◌, IfOk, codes, not, true};

use crate::classes::positive_form;
use crate::fences::{Fence, is_found_near};
use crate::known::{are_known, is_either_known, is_found, is_known_line};
use crate::places::first_place;
use crate::reading::rest_after;
use drv_words::Word;
use std::alloc::{AllocError, Global};

/// A word up to its first `=`, and that too.
#[tactic(auto, using(crate::proofs::Cuts::head_at, crate::proofs::Cuts::head_whole))]
fn head_of(word: &[u8]) -> &[u8]
    ensures { result.now ≡ head_of word.now }
{
    match first_place(b'=', word) {
        Some(at) => &word[..at + 1],
        None => word,
    }
}

/// What follows the first `=` of a word.
fn value_of(name: &[u8]) -> &[u8]
    ensures { result.now ≡ value_of name.now }
{
    rest_after(name, head_of(name))
}

/// Whether a byte is a digit.
fn is_digit(byte: u8) -> bool
    ensures { result ≡ is_digit byte }
{
    b'0' <= byte && byte <= b'9'
}

/// Whether all bytes are digits.
fn are_digits(value: &[u8]) -> bool
    ensures { result ≡ list_all is_digit value.now }
{
    value.iter().all(|byte| is_digit(*byte))
}

/// Whether an argument is a number.
pub(crate) fn is_number(value: &[u8]) -> bool
    ensures { result ≡ is_number value.now }
{
    !value.is_empty() && are_digits(value)
}

/// The name of an option up to its argument, with a mark.
fn head_with_mark(alloc: Global, name: &[u8], mark: &[u8]) -> Result<Word, AllocError>
    ensures { IfOk result (λ line. line ≡ head_of name.now ++ mark.now) }
{
    let mut line = Word::from_bytes(alloc, head_of(name))?;
    line.extend_from_slice(mark)?;
    Ok(line)
}

/// The name of an option up to its argument, with the mark of a number where that is one.
fn name_before_argument(alloc: Global, name: &[u8]) -> Result<Word, AllocError>
    ensures { IfOk result (λ line. line ≡ name_before_argument name.now) }
{
    if is_number(value_of(name)) {
        head_with_mark(alloc, name, b"#")
    } else {
        Word::from_bytes(alloc, head_of(name))
    }
}

/// Whether a name is no whole option: its argument follows it, or it has a mark.
fn is_open(name: &[u8]) -> bool
    ensures { result ≡ is_open name.now }
{
    name.ends_with(b"=") || name.ends_with(b"-") || name.ends_with(b"?") || name.ends_with(b"#")
}

/// Whether an option is known by a name that ends so, and has its argument before that.
fn accepts_open(alloc: Global, known: &[u8], name: &[u8]) -> Result<bool, AllocError>
    ensures { IfOk result (λ is. is
        ≡ (not (is_known known.now name.now) && takes_value known.now name.now)) }
{
    if is_known_line(known, name) {
        return Ok(false);
    }
    let numbered = name_before_argument(alloc, name)?;
    Ok(is_either_known(known, head_of(name), numbered.as_bytes()))
}

/// Whether an option is known, with its argument.
#[tactic(auto, using(crate::proofs::Again::no_names_accept))]
pub(crate) fn accepts(alloc: Global, known: &[u8], name: &[u8]) -> Result<bool, AllocError>
    ensures { IfOk result (λ is. is ≡ accepts known.now name.now) }
{
    if known.is_empty() && !name.is_empty() {
        return Ok(false);
    }
    if is_open(name) {
        return accepts_open(alloc, known, name);
    }
    if is_found(known, name) {
        return Ok(true);
    }
    let numbered = name_before_argument(alloc, name)?;
    Ok(are_known(known, name, head_of(name), numbered.as_bytes()))
}

/// Whether an option is known, with any argument or none, as far as these lines of the names tell.
#[tactic(auto, using(crate::proofs::Again::near_accepted))]
pub(crate) fn accepts_near(known: &[u8], fences: &[Fence], name: &[u8]) -> bool
    ensures { result ≡ true → accepts known.now name.now ≡ true }
{
    if is_open(name) {
        return false;
    }
    is_found_near(known, fences, name) || is_found_near(known, fences, head_of(name))
}

/// Whether an option is known whose argument the compiler judges.
#[tactic(auto, using(crate::proofs::Again::no_names_judge))]
pub(crate) fn judges(alloc: Global, known: &[u8], name: &[u8]) -> Result<bool, AllocError>
    ensures { IfOk result (λ is. is ≡ judges known.now name.now) }
{
    if known.is_empty() && !name.is_empty() {
        return Ok(false);
    }
    let listed = head_with_mark(alloc, name, b"?")?;
    let number = head_with_mark(alloc, name, b"#")?;
    Ok(are_known(known, name, listed.as_bytes(), number.as_bytes()))
}

/// Whether the compiler is left the negative of an option: names are known, and none of them takes
/// an argument so.
fn leaves(alloc: Global, known: &[u8], positive: &[u8]) -> Result<bool, AllocError>
    ensures { IfOk result (λ is. is ≡ leaves known.now positive.now) }
{
    if known.is_empty() {
        return Ok(false);
    }
    if is_known_line(known, head_of(positive)) {
        return Ok(false);
    }
    Ok(!judges(alloc, known, positive)?)
}

/// Whether a word begins as the options do that turn a warning off.
pub(crate) fn is_off(word: &[u8]) -> bool
    ensures { result ≡ begins (codes "-Wno-") word.now }
{
    matches!(word, [b'-', b'W', b'n', b'o', b'-', ..])
}

/// Whether a word turns a warning off, as far as gcc's driver knows.
pub(crate) fn turns_off(alloc: Global, known: &[u8], word: &[u8]) -> Result<bool, AllocError>
    ensures { IfOk result (λ is. is ≡ turns_off known.now word.now) }
{
    if !is_off(word) {
        return Ok(false);
    }
    if !word.contains(&b'=') {
        return Ok(true);
    }
    let positive = positive_form(alloc, word)?;
    leaves(alloc, known, positive.as_bytes())
}
