//! Words in the shell's language.

ghost use Rattle.drv_forms.specs.Shell.{bare_variable, begins, inside};
ghost use Rattle.drv_forms.specs.Shell.{quoted, quoted_variable, shell_word as word_text};
ghost use Rattle.drv_forms.specs.Shell.{spaced, stem_spaced};
ghost use Rattle.drv_forms.specs.Shell.{stem_text, stem_word};
ghost use Rattle.drv_words.specs.Printed.{is_bare, is_plain};
ghost use Rattle.std.specs.List.{list_all};
ghost use Rattle.std.specs.Prelude.{◌≡◌, ◌++◌, IsTrue, OnOk, length};
ghost use Rattle.std.specs.Prelude.{◌≤◌, ◌<◌};

use drv_words::Word;
use std::alloc::AllocError;

/// The variable, where there are no quotes around it.
const BARE_VARIABLE: &[u8] = b"\"$gdrv_stem\"";

/// The variable, between single quotes.
const QUOTED_VARIABLE: &[u8] = b"'\"$gdrv_stem\"'";

/// Whether a byte means itself in the shell's language: a letter, a digit or one of `./-_`.
fn is_plain_byte(byte: u8) -> bool
    ensures { result ≡ is_plain byte }
{
    byte.is_ascii_alphanumeric() || matches!(byte, b'.' | b'/' | b'-' | b'_')
}

/// Whether no byte needs quotes.
fn are_plain_bytes(word: &[u8]) -> bool
    ensures { result ≡ list_all is_plain word.now }
{
    word.iter().all(|byte| is_plain_byte(*byte))
}

/// Whether a word needs no quotes.
fn is_bare_word(word: &[u8]) -> bool
    ensures { result ≡ is_bare word.now }
{
    !word.is_empty() && are_plain_bytes(word)
}

/// Whether bytes begin with the stem.
fn begins_with(stem: &[u8], bytes: &[u8]) -> bool
    ensures is { result ≡ begins stem.now bytes.now }
    ensures some { IsTrue result → 0 < length stem.now }
    ensures within { IsTrue result → length stem.now ≤ length bytes.now }
{
    !stem.is_empty() && bytes.starts_with(stem)
}

/// Adds a byte that is between single quotes.
fn push_quoted(text: &mut Vec<u8>, byte: u8) -> Result<(), AllocError>
    ensures { OnOk result (text.new.items ≡ text.old.items ++ quoted byte) }
{
    if byte == b'\'' {
        text.extend_from_slice(b"'\\''")?;
    } else {
        text.push(byte)?;
    }
    Ok(())
}

/// Adds what is between single quotes, with the variable for a stem.
#[tactic(auto, using(crate::proofs::Shells::stem_turn, crate::proofs::Shells::byte_turn))]
fn push_inside(
    text: &mut Vec<u8>,
    stem: &[u8],
    variable: &[u8],
    word: &[u8],
) -> Result<(), AllocError>
    ensures { OnOk result (text.new.items ≡ text.old.items ++ inside stem.now variable.now 0 word.now) }
{
    let mut left = word;
    while let [byte, following @ ..] = left {
        if begins_with(stem, left) {
            text.extend_from_slice(variable)?;
            left = left.split_at(stem.len()).1;
        } else {
            push_quoted(text, *byte)?;
            left = following;
        }
    }
    Ok(())
}

/// Adds a word as the shell reads it, with the variable for a stem.
fn push_stem_word(text: &mut Vec<u8>, stem: &[u8], word: &[u8]) -> Result<(), AllocError>
    ensures { OnOk result (text.new.items ≡ text.old.items ++ stem_word stem.now word.now) }
{
    if is_bare_word(word) {
        return push_inside(text, stem, BARE_VARIABLE, word);
    }
    text.push(b'\'')?;
    push_inside(text, stem, QUOTED_VARIABLE, word)?;
    text.push(b'\'')?;
    Ok(())
}

/// Adds a word as the shell reads it.
pub(crate) fn push_shell_word(text: &mut Vec<u8>, word: &[u8]) -> Result<(), AllocError>
    ensures { OnOk result (text.new.items ≡ text.old.items ++ word_text word.now) }
{
    push_stem_word(text, b"", word)
}

/// Adds a word after a space, with the variable for a stem.
pub(crate) fn push_stem_spaced(
    text: &mut Vec<u8>,
    stem: &[u8],
    word: &[u8],
) -> Result<(), AllocError>
    ensures { OnOk result (text.new.items ≡ text.old.items ++ stem_spaced stem.now word.now) }
{
    text.push(b' ')?;
    push_stem_word(text, stem, word)
}

/// Adds a word after a space.
pub(crate) fn push_spaced(text: &mut Vec<u8>, word: &[u8]) -> Result<(), AllocError>
    ensures { OnOk result (text.new.items ≡ text.old.items ++ spaced word.now) }
{
    push_stem_spaced(text, b"", word)
}

/// Adds words, each after a space, with the variable for a stem.
pub(crate) fn push_stem_words(
    text: &mut Vec<u8>,
    stem: &[u8],
    words: &[Word],
) -> Result<(), AllocError>
    ensures { OnOk result (text.new.items ≡ text.old.items ++ stem_text stem.now words.now) }
{
    for word in words {
        push_stem_spaced(text, stem, word.as_bytes())?;
    }
    Ok(())
}
