//! Words in spec texts.

ghost use Rattle.drv_gcc.specs.SpecFile.{is_of, marked, or_nothing, spec_word, test_byte, test_word};
ghost use Rattle.drv_gcc.specs.SpecFile.{then_blank, word_byte};
ghost use Rattle.std.specs.Prelude.{◌≡◌, ◌++◌, OnOk};

use drv_words::Word;
use std::alloc::AllocError;

/// Adds a byte, with a backslash before it where it isn't plain.
fn push_marked(text: &mut Word, is_plain: bool, byte: u8) -> Result<(), AllocError>
    ensures { OnOk result (text.new ≡ text.old ++ marked is_plain byte) }
{
    if !is_plain {
        text.push(b'\\')?;
    }
    text.push(byte)
}

/// Adds a byte of a word.
fn push_word_byte(text: &mut Word, byte: u8) -> Result<(), AllocError>
    ensures { OnOk result (text.new ≡ text.old ++ word_byte byte) }
{
    let is_plain = byte.is_ascii_alphanumeric()
        || matches!(
            byte,
            b'_' | b'.' | b'/' | b'=' | b'+' | b',' | b':' | b'@' | b'~' | b'-'
        );
    push_marked(text, is_plain, byte)
}

/// Adds a word as a spec text has it.
pub(crate) fn push_word(text: &mut Word, word: &[u8]) -> Result<(), AllocError>
    ensures { OnOk result (text.new ≡ text.old ++ spec_word word.now) }
{
    for byte in word {
        push_word_byte(text, *byte)?;
    }
    Ok(())
}

/// Adds a word and a blank.
pub(crate) fn push_then_blank(text: &mut Word, word: &[u8]) -> Result<(), AllocError>
    ensures { OnOk result (text.new ≡ text.old ++ then_blank word.now) }
{
    push_word(text, word)?;
    text.push(b' ')
}

/// Adds a word, or what says nothing in the place of an empty one.
pub(crate) fn push_or_nothing(text: &mut Word, word: &[u8]) -> Result<(), AllocError>
    ensures { OnOk result (text.new ≡ text.old ++ or_nothing word.now) }
{
    if word.is_empty() {
        return text.extend_from_slice(b"%{-gdrv-none:}");
    }
    push_word(text, word)
}

/// Adds a byte of a test.
fn push_test_byte(text: &mut Word, byte: u8) -> Result<(), AllocError>
    ensures { OnOk result (text.new ≡ text.old ++ test_byte byte) }
{
    let is_plain = byte.is_ascii_alphanumeric()
        || matches!(byte, b'_' | b'=' | b'+' | b',' | b'.' | b'@' | b'-');
    push_marked(text, is_plain, byte)
}

/// Adds a word as a test of switches has it.
pub(crate) fn push_test(text: &mut Word, word: &[u8]) -> Result<(), AllocError>
    ensures { OnOk result (text.new ≡ text.old ++ test_word word.now) }
{
    for byte in word {
        push_test_byte(text, *byte)?;
    }
    Ok(())
}
