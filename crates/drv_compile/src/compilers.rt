//! What the files beside a spec file say: for which compiler it was written, and the names of that
//! compiler's options. And the names in a spec file of the line.

ghost use Rattle.drv_compile.specs.Code.CutLines.{begins_with, lines_from};
ghost use Rattle.drv_compile.specs.Compilers.{is_between, lines, names_in, value_in, values};
ghost use Rattle.drv_compile.specs.Decides.{first_of};
ghost use Rattle.std.specs.List.{list_any, starts_with};
ghost use Rattle.std.specs.Option.{option_map};
ghost use Rattle.std.specs.Prelude.{◌≡◌, ◌<◌, ◌∷◌, ◌++◌, IfOk, IfSome, OnOk, drop, find, length};
ghost use Rattle.std.specs.Prelude.{nat_eq};

use bstr::ByteSlice;
use drv_words::{Listing, Word};
use std::alloc::{AllocError, Global};

/// Adds the value that a line has for a key, if it has one.
fn add_value(
    alloc: Global,
    key: &[u8],
    line: &[u8],
    found: &mut Listing<Word>,
) -> Result<(), AllocError>
    ensures { OnOk result (found.new ≡ found.old ++ value_in key.now line.now) }
{
    if line.starts_with(key) {
        found.push(Word::from_bytes(alloc, &line[key.len()..])?)?;
    }
    Ok(())
}

/// A text's first line, and what follows its newline, if it has one.
#[tactic(auto, using(crate::proofs::CutLines::line_cut, crate::proofs::CutLines::line_alone, crate::proofs::CutLines::less_left))]
fn cut_line(text: &[u8]) -> (&[u8], Option<&[u8]>)
    ensures lines { lines text.now
        ≡ result.0.now ∷ lines_from (option_map (λ left. left.now) result.1) }
    ensures less { IfSome result.1 (λ left. length left.now < length text.now) }
{
    match text.find_byte(b'\n') {
        Some(at) => (&text[..at], Some(&text[at + 1..])),
        None => (text, None),
    }
}

/// The values of a key in a text, in its order: what follows the key in each line that begins with
/// it.
pub fn values(alloc: Global, key: &[u8], text: &[u8]) -> Result<Listing<Word>, AllocError>
    ensures { IfOk result (λ found. found ≡ values key.now text.now) }
{
    let mut found = Listing::new(alloc);
    let mut left = Some(text);
    while let Some(text) = left {
        let (line, following) = cut_line(text);
        add_value(alloc, key, line, &mut found)?;
        left = following;
    }
    Ok(found)
}

/// The first line of a text that begins with a key. What follows it isn't read.
fn first_line<'t>(key: &[u8], text: &'t [u8]) -> Option<&'t [u8]>
    ensures { option_map (λ line. line.now) result
        ≡ find (λ line. starts_with nat_eq line key.now) (lines text.now) }
{
    let mut left = Some(text);
    while let Some(text) = left {
        let (line, following) = cut_line(text);
        if line.starts_with(key) {
            return Some(line);
        }
        left = following;
    }
    None
}

/// Whether a line of a text begins with one of two keys.
pub(crate) fn has_either(one: &[u8], other: &[u8], text: &[u8]) -> bool
    ensures { result ≡ list_any (begins_with one.now other.now) (lines text.now) }
{
    let mut left = Some(text);
    while let Some(text) = left {
        let (line, following) = cut_line(text);
        if line.starts_with(one) || line.starts_with(other) {
            return true;
        }
        left = following;
    }
    false
}

/// The first value of a key in a text, if there is one.
pub(crate) fn first_value(
    alloc: Global,
    key: &[u8],
    text: &[u8],
) -> Result<Option<Word>, AllocError>
    ensures { IfOk result (λ value. value ≡ first_of (values key.now text.now)) }
{
    match first_line(key, text) {
        Some(line) => Ok(Some(Word::from_bytes(alloc, rest_of(key, line))?)),
        None => Ok(None),
    }
}

/// What follows a key in a line that begins with it.
pub(crate) fn rest_of<'l>(key: &[u8], line: &'l [u8]) -> &'l [u8]
    ensures { result.now ≡ drop (length key.now) line.now }
{
    line.get(key.len()..).unwrap_or(&[])
}

/// Whether a byte is in no name of a switch.
fn is_between(byte: u8) -> bool
    ensures { result ≡ is_between byte }
{
    !(byte.is_ascii_alphanumeric()
        || byte == b'_'
        || byte == b'-'
        || byte == b'+'
        || byte == b'='
        || byte == b','
        || byte == b'.'
        || byte == b'@'
        || byte == b'*')
}

/// The names in a spec file's text (GCC, "gcc.cc", validate_switches), and what else there looks
/// like one.
pub fn names_in(alloc: Global, text: &[u8]) -> Result<Listing<Word>, AllocError>
    ensures { IfOk result (λ names. names ≡ names_in text.now) }
{
    let mut names = Listing::new(alloc);
    for name in text.split(|byte| is_between(*byte)) {
        names.push(Word::from_bytes(alloc, name)?)?;
    }
    Ok(names)
}
