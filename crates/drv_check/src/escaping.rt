//! Texts of others for a reader: no byte of theirs steers a terminal.

ghost use Rattle.std.specs.Prelude.{◌<◌};

use drv_words::Word;
use std::alloc::{AllocError, Global};

/// Whether a byte may steer a terminal.
pub(crate) fn is_control(byte: u8) -> bool {
    byte < b' ' && byte != b'\t' && byte != b'\n'
}

/// A digit in base 16.
fn hex_digit(digit: u8) -> u8
    requires { digit < 16 }
{
    if digit < 10 {
        b'0' + digit
    } else {
        b'a' + (digit - 10)
    }
}

/// Adds a byte, or of a control byte its number.
fn push_visible(text: &mut Word, byte: u8) -> Result<(), AllocError> {
    if !is_control(byte) {
        return text.push(byte);
    }
    text.extend_from_slice(b"\\x")?;
    text.push(hex_digit(byte / 16))?;
    text.push(hex_digit(byte % 16))
}

/// A text in which each control byte but tabs and newlines is its number, as `\x1b`.
pub fn visible(alloc: Global, text: &Word) -> Result<Word, AllocError> {
    let mut shown = Word::empty(alloc);
    for &byte in text.as_bytes() {
        push_visible(&mut shown, byte)?;
    }
    Ok(shown)
}
