//! A spec file's text without carriage returns and continued lines.

ghost use Rattle.drv_words.specs.Bytes.{backslash};
ghost use Rattle.drv_specs.specs.Lines.{settle};
ghost use Rattle.drv_specs.specs.Code.Slices.{settled_onto};
ghost use Rattle.std.specs.List.{ends_with};
ghost use Rattle.std.specs.Prelude.{◌≡◌, ◌∷◌, [], IfOk, OnOk, nat_eq};

use crate::bytes::following;
use bstr::ByteSlice;
use std::alloc::{AllocError, Global};

/// Whether a text ends with a backslash.
pub(crate) fn ends_with_backslash(text: &[u8]) -> bool
    ensures { result ≡ ends_with nat_eq text.now (backslash ∷ []) }
{
    text.ends_with(b"\\")
}

/// Puts the end of a line after a text: a carriage return goes, and a newline after a backslash
/// with that.
fn settle_onto(text: &mut Vec<u8>, byte: u8) -> Result<(), AllocError>
    ensures { OnOk result (text.new.items ≡ settled_onto text.old.items byte) }
{
    if byte == b'\r' {
        return Ok(());
    }
    // A line that a backslash continues.
    if byte == b'\n' && ends_with_backslash(text.as_slice()) {
        text.pop();
        return Ok(());
    }
    text.push(byte)?;
    Ok(())
}

/// What is left of a spec file's text.
pub fn settle(alloc: Global, text: &[u8]) -> Result<Vec<u8>, AllocError>
    ensures { IfOk result (λ left. left.items ≡ settle text.now) }
{
    let mut left = Vec::new(alloc);
    left.reserve(text.len())?;
    let mut rest = text;
    while let Some(at) = rest.find_byteset(b"\r\n") {
        left.extend_from_slice(&rest[..at])?;
        settle_onto(&mut left, rest[at])?;
        rest = following(rest, at + 1);
    }
    left.extend_from_slice(rest)?;
    Ok(left)
}
