//! How many bytes of one kind a text begins with.

ghost use Rattle.bstr.specs.Bytes.{is_in};
ghost use Rattle.bstr.specs.Find.{IsFirstByte};
ghost use Rattle.drv_syntax.specs.Code.Runs as plain;
ghost use Rattle.std.specs.List.{prefix_len};
ghost use Rattle.std.specs.Prelude.{◌≡◌, ◌≤◌, length};

use crate::descent::bytes::{is_name_byte, is_suffix, is_white};
use crate::descent::contexts::ListKind;
use crate::descent::words::{Class, belongs};
use bstr::ByteSlice;

/// What the bytes of a run are.
#[derive(Clone, Copy)]
pub enum RunKind {
    /// White space.
    White,
    /// Bytes of a name.
    Name,
    /// Bytes of a suffix.
    Suffix,
    /// Plain bytes in a list of this kind.
    Plain(ListKind),
    /// Bytes of this class, and no backslash.
    Word(Class),
}

/// The byte is plain in a list of this kind.
#[inline(always)]
fn stands(kind: ListKind, b: u8) -> bool
    ensures { result ≡ plain.runs kind b }
{
    b.is_ascii_lowercase()
        || match b {
            b'\\' | b'%' | b'|' | b' ' | b'\t' | b'\n' => false,
            b';' | b'}' => !matches!(kind, ListKind::InX),
            b')' => !matches!(kind, ListKind::InArguments),
            _ => true,
        }
}

/// The byte is one of such a run.
#[inline(always)]
fn is_in(kind: RunKind, b: u8) -> bool
    ensures { result ≡ plain.in_run kind b }
{
    match kind {
        RunKind::White => is_white(b),
        RunKind::Name => is_name_byte(b),
        RunKind::Suffix => is_suffix(b),
        RunKind::Plain(list) => stands(list, b),
        RunKind::Word(class) => belongs(class, b) && b != b'\\',
    }
}

/// The place of the first byte that ends a text for the user in a list of this kind, or escapes a byte.
#[inline(always)]
fn said_end(list: ListKind, text: &[u8]) -> Option<usize>
    ensures { IsFirstByte (is_in (plain.said_stops list)) text.now result }
{
    match list {
        ListKind::Top | ListKind::InArguments => text.find_byteset(b"\\\n"),
        ListKind::InX => text.find_byteset(b"\\\n;}"),
    }
}

/// How many bytes of a text for the user, in a list of this kind, a text begins with.
#[tactic(auto, using(crate::proofs::SaidRuns::said_length, crate::proofs::SaidRuns::said_within))]
fn said_length(list: ListKind, text: &[u8]) -> usize
    ensures run { result ≡ prefix_len (plain.in_run (RunKind.Word (Class.Said list))) text.now }
    ensures within { result ≤ length text.now }
{
    said_end(list, text).unwrap_or(text.len())
}

/// How many bytes of such a run a text begins with. Most runs have few bytes, so each is tested; texts
/// for the user have many.
#[inline(always)]
pub fn run_length(kind: RunKind, text: &[u8]) -> usize
    ensures run { result ≡ prefix_len (plain.in_run kind) text.now }
    ensures within { result ≤ length text.now }
{
    if let RunKind::Word(Class::Said(list)) = kind {
        return said_length(list, text);
    }
    let mut length = 0;
    while length < text.len() && is_in(kind, text[length]) {
        length += 1;
    }
    length
}
