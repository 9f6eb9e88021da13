//! What the next byte is among the tests of braces.

ghost use Rattle.drv_dump.specs.Grammar as grammar;
ghost use Rattle.std.specs.Prelude.{◌≡◌};

use crate::turn::{InPiece, Place, Side, Turn, call_kind, closes, reads};
use crate::{Kind, Misfit};

/// In a test: a letter, a digit, or one of `_-+=,.@`.
fn is_test_byte(byte: u8) -> bool
    ensures { result ≡ grammar.is_test_byte byte }
{
    byte.is_ascii_alphanumeric() || matches!(byte, b'_' | b'-' | b'+' | b'=' | b',' | b'.' | b'@')
}

/// White space beside a test, or between words.
pub(crate) fn is_white(byte: u8) -> bool
    ensures { result ≡ grammar.is_white byte }
{
    matches!(byte, b' ' | b'\t' | b'\n')
}

/// A byte that begins a test.
fn asked_turn(side: Side, depth: usize, byte: u8) -> Turn
    ensures { result ≡ grammar.asked_turn side depth byte }
{
    if byte == b'%' {
        reads(
            InPiece::First,
            call_kind(side),
            Place::TestPercent(side),
            depth,
        )
    } else if is_test_byte(byte) {
        reads(InPiece::First, Kind::Test, Place::Test, depth)
    } else {
        Turn::Refused(Misfit::BadTest)
    }
}

/// A byte after the `!` of a test.
pub(crate) fn negated_turn(depth: usize, byte: u8) -> Turn
    ensures { result ≡ grammar.negated_turn depth byte }
{
    if is_white(byte) {
        reads(InPiece::First, Kind::Blank, Place::Negated, depth)
    } else {
        asked_turn(Side::Negated, depth, byte)
    }
}

/// A byte before a test.
pub(crate) fn turn_before_test(depth: usize, byte: u8) -> Turn
    ensures { result ≡ grammar.turn_before_test depth byte }
{
    if is_white(byte) {
        reads(InPiece::First, Kind::Blank, Place::BeforeTest, depth)
    } else if byte == b'!' {
        reads(InPiece::First, Kind::Negation, Place::Negated, depth)
    } else {
        asked_turn(Side::AmongTests, depth, byte)
    }
}

/// A byte before the tests of another alternative.
pub(crate) fn choice_turn(depth: usize, byte: u8) -> Turn
    ensures { result ≡ grammar.choice_turn depth byte }
{
    if is_white(byte) {
        reads(InPiece::First, Kind::Blank, Place::BeforeChoice, depth)
    } else if byte == b':' {
        reads(InPiece::First, Kind::Then, Place::Ready, depth)
    } else {
        turn_before_test(depth, byte)
    }
}

/// A byte after the `%` of a test.
pub(crate) fn percent_test_turn(side: Side, depth: usize, byte: u8) -> Turn
    ensures { result ≡ grammar.percent_test_turn side depth byte }
{
    if byte == b':' {
        reads(
            InPiece::Later,
            call_kind(side),
            Place::Function(side),
            depth,
        )
    } else {
        Turn::Refused(Misfit::BadTest)
    }
}

/// A byte after a test.
pub(crate) fn after_test_turn(depth: usize, byte: u8) -> Turn
    ensures { result ≡ grammar.after_test_turn depth byte }
{
    match byte {
        b' ' | b'\t' | b'\n' => reads(InPiece::First, Kind::Blank, Place::AfterTest, depth),
        b'|' => reads(InPiece::First, Kind::Either, Place::BeforeTest, depth),
        b'&' => reads(InPiece::First, Kind::Both, Place::BeforeTest, depth),
        b':' => reads(InPiece::First, Kind::Then, Place::Ready, depth),
        b'}' => closes(depth),
        _ => Turn::Refused(Misfit::BadTest),
    }
}

/// A byte in a test, or after it.
pub(crate) fn inner_test_turn(depth: usize, byte: u8) -> Turn
    ensures { result ≡ grammar.inner_test_turn depth byte }
{
    if is_test_byte(byte) {
        reads(InPiece::Later, Kind::Test, Place::Test, depth)
    } else if byte == b'*' {
        reads(InPiece::Later, Kind::Test, Place::AfterTest, depth)
    } else {
        after_test_turn(depth, byte)
    }
}
