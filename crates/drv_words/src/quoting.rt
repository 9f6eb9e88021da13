//! The printed form of a word.

ghost use Rattle.drv_words.specs.Printed.{ShowsWord, is_bare, is_plain, is_special, quoted};
ghost use Rattle.drv_words.specs.Printed.{escaped};
ghost use Rattle.std.specs.List.{list_all};
ghost use Rattle.std.specs.Prelude.{◌≡◌, ◌++◌, IfOk, OnOk};

use crate::Word;
use std::alloc::{AllocError, Global};

/// Whether a byte needs no quotes: a letter, a digit or one of `./-_`. Small letters come first,
/// since most bytes are those. The last test alone decides: `-`, `.` and `/` come right before the
/// digits in ASCII.
pub(crate) fn is_plain_byte(byte: u8) -> bool
    ensures { result ≡ is_plain byte }
{
    if byte >= b'a' {
        return byte <= b'z';
    }
    if byte >= b'A' {
        return byte <= b'Z' || byte == b'_';
    }
    byte >= b'-' && byte <= b'9'
}

/// Whether a byte needs a backslash between double quotes.
pub(crate) fn is_special_byte(byte: u8) -> bool
    ensures { result ≡ is_special byte }
{
    matches!(byte, b'"' | b'\\' | b'$')
}

/// Whether no byte needs quotes.
fn are_plain_bytes(word: &[u8]) -> bool
    ensures { result ≡ list_all is_plain word.now }
{
    word.iter().all(|byte| is_plain_byte(*byte))
}

/// Whether a word needs no quotes.
pub(crate) fn is_bare_word(word: &[u8]) -> bool
    ensures { result ≡ is_bare word.now }
{
    !word.is_empty() && are_plain_bytes(word)
}

/// Adds the text between the quotes.
fn push_escaped(text: &mut Vec<u8>, word: &[u8]) -> Result<(), AllocError>
    ensures { OnOk result (text.new.items ≡ text.old.items ++ escaped word.now) }
{
    for &byte in word {
        if is_special_byte(byte) {
            text.push(b'\\')?;
        }
        text.push(byte)?;
    }
    Ok(())
}

/// Adds the printed form of a word, as [`quote`] returns it.
pub fn push_quoted(text: &mut Vec<u8>, word: &Word) -> Result<(), AllocError>
    ensures { OnOk result (text.new.items ≡ text.old.items ++ quoted word.now) }
{
    let bytes = word.as_bytes();
    if is_bare_word(bytes) {
        return text.extend_from_slice(bytes);
    }
    text.push(b'"')?;
    push_escaped(text, bytes)?;
    text.push(b'"')?;
    Ok(())
}

/// The printed form of a word, as in a line of `-###`. A word of letters, digits and `./-_` is
/// printed as it is. Any other is put in double quotes, with a backslash before `"`, `\` and `$`
/// (GCC manual, "Overall Options").
pub fn quote(alloc: Global, word: &Word) -> Result<Word, AllocError>
    ensures text { IfOk result (λ text. text ≡ quoted word.now) }
    ensures shows { IfOk result (λ text. ShowsWord text word.now) }
{
    let mut text = Vec::new(alloc);
    push_quoted(&mut text, word)?;
    Ok(Word::from_vec(text))
}
