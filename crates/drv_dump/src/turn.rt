//! What the next byte of a spec text is, by its place.

ghost use Rattle.drv_dump.specs.Grammar as grammar;
ghost use Rattle.std.specs.Prelude.{◌≡◌};

use crate::turns_of_tests::{
    after_test_turn, choice_turn, inner_test_turn, negated_turn, percent_test_turn,
    turn_before_test,
};
use crate::{Kind, Misfit};

/// The most nested braces, and the most nested parentheses of a function.
const MOST_LEVELS: usize = 64;

/// The place of a function.
#[derive(Clone, Copy, Debug)]
pub(crate) enum Side {
    /// In a text.
    InText,
    /// Among the tests of braces.
    AmongTests,
    /// The same, after `!`.
    Negated,
}

/// The place of a byte.
#[derive(Clone, Copy, Debug)]
pub(crate) enum Place {
    /// Before any text, or after a piece that is whole.
    Ready,
    /// After text.
    Text,
    /// After a backslash.
    Escape,
    /// After `%`.
    Percent,
    /// In a message.
    Message,
    /// In `%(`.
    NamedText,
    /// After `%W` or `%@`.
    WantsBrace,
    /// After `%x`.
    WantsOption,
    /// In `%x{`.
    Option,
    /// In the name of a function.
    Function(Side),
    /// In the arguments of a function, inside this many parentheses of their own.
    Arguments(Side, usize),
    /// Before a test.
    BeforeTest,
    /// Before the tests of another alternative, which may have none.
    BeforeChoice,
    /// After `!`.
    Negated,
    /// After `%` among tests.
    TestPercent(Side),
    /// In a test.
    Test,
    /// After a test.
    AfterTest,
}

/// Whether a byte begins a piece.
#[derive(Clone, Copy, Debug)]
pub(crate) enum InPiece {
    /// It is the first of a piece.
    First,
    /// It is part of the piece before it.
    Later,
}

/// What a byte is.
#[derive(Clone, Copy, Debug)]
pub(crate) enum Turn {
    /// A byte of a piece of this kind; the place of the next one, and in how many braces that is.
    Reads {
        in_piece: InPiece,
        kind: Kind,
        place: Place,
        depth: usize,
    },
    /// It fits nothing.
    Refused(Misfit),
}

/// A directive whose letter makes it whole.
fn is_whole_directive(byte: u8) -> bool
    ensures { result ≡ grammar.is_whole_directive byte }
{
    matches!(
        byte,
        b'%' | b'1'
            | b'2'
            | b'a'
            | b'A'
            | b'b'
            | b'B'
            | b'c'
            | b'C'
            | b'd'
            | b'D'
            | b'E'
            | b'g'
            | b'G'
            | b'i'
            | b'I'
            | b'j'
            | b'l'
            | b'L'
            | b'm'
            | b'M'
            | b'o'
            | b'O'
            | b'p'
            | b'P'
            | b'R'
            | b's'
            | b'S'
            | b'T'
            | b'u'
            | b'U'
            | b'v'
            | b'V'
            | b'w'
            | b'X'
            | b'Y'
            | b'Z'
            | b'.'
            | b'<'
            | b'>'
            | b'|'
            | b'*'
            | b'"'
    )
}

/// In the name of a function.
fn is_function_byte(byte: u8) -> bool
    ensures { result ≡ grammar.is_function_byte byte }
{
    byte.is_ascii_alphanumeric() || byte == b'-' || byte == b'_'
}

/// A byte of a piece that leaves the braces as they are.
pub(crate) fn reads(in_piece: InPiece, kind: Kind, place: Place, depth: usize) -> Turn
    ensures { result ≡ grammar.reads in_piece kind place depth }
{
    Turn::Reads {
        in_piece,
        kind,
        place,
        depth,
    }
}

/// A byte that opens braces.
fn opens(depth: usize) -> Turn
    ensures { result ≡ grammar.opens depth }
{
    if depth < MOST_LEVELS {
        reads(InPiece::Later, Kind::Opening, Place::BeforeTest, depth + 1)
    } else {
        Turn::Refused(Misfit::TooNested)
    }
}

/// A byte that closes braces.
pub(crate) fn closes(depth: usize) -> Turn
    ensures { result ≡ grammar.closes depth }
{
    if depth == 0 {
        Turn::Refused(Misfit::BareBrace)
    } else {
        reads(InPiece::First, Kind::Closing, Place::Ready, depth - 1)
    }
}

/// A byte of a text, which would be the first or a later one of a piece.
fn text_turn(in_piece: InPiece, depth: usize, byte: u8) -> Turn
    ensures { result ≡ grammar.text_turn in_piece depth byte }
{
    match byte {
        b'%' => reads(InPiece::First, Kind::Directive, Place::Percent, depth),
        b'\\' => reads(in_piece, Kind::Text, Place::Escape, depth),
        b'{' => Turn::Refused(Misfit::BareBrace),
        b'}' => closes(depth),
        b';' if depth > 0 => reads(InPiece::First, Kind::Otherwise, Place::BeforeChoice, depth),
        _ => reads(in_piece, Kind::Text, Place::Text, depth),
    }
}

/// A byte after a backslash.
fn escape_turn(depth: usize, byte: u8) -> Turn
    ensures { result ≡ grammar.escape_turn depth byte }
{
    if depth > 0 && matches!(byte, b'{' | b'}' | b';') {
        Turn::Refused(Misfit::EscapedMark)
    } else {
        reads(InPiece::Later, Kind::Text, Place::Text, depth)
    }
}

/// A byte after `%`.
fn percent_turn(depth: usize, byte: u8) -> Turn
    ensures { result ≡ grammar.percent_turn depth byte }
{
    match byte {
        b'{' => opens(depth),
        b'W' | b'@' => reads(InPiece::Later, Kind::Opening, Place::WantsBrace, depth),
        b'(' => reads(InPiece::Later, Kind::NamedText, Place::NamedText, depth),
        b':' => reads(
            InPiece::Later,
            Kind::Call,
            Place::Function(Side::InText),
            depth,
        ),
        b'x' => reads(
            InPiece::Later,
            Kind::LinkerOption,
            Place::WantsOption,
            depth,
        ),
        b'e' | b'n' => reads(InPiece::Later, Kind::Message, Place::Message, depth),
        _ if is_whole_directive(byte) => reads(
            InPiece::Later,
            Kind::Directive,
            Place::Ready,
            depth,
        ),
        _ => Turn::Refused(Misfit::UnknownDirective),
    }
}

/// A byte of a message.
fn message_turn(depth: usize, byte: u8) -> Turn
    ensures { result ≡ grammar.message_turn depth byte }
{
    if byte == b'\n' || depth > 0 && matches!(byte, b'{' | b'}' | b';') {
        text_turn(InPiece::First, depth, byte)
    } else {
        reads(InPiece::Later, Kind::Message, Place::Message, depth)
    }
}

/// A byte of a piece that ends with this one.
fn closed_turn(kind: Kind, place: Place, end: u8, depth: usize, byte: u8) -> Turn
    ensures { result ≡ grammar.closed_turn kind place end depth byte }
{
    if byte == end {
        reads(InPiece::Later, kind, Place::Ready, depth)
    } else {
        reads(InPiece::Later, kind, place, depth)
    }
}

/// A byte at the brace of `%W{` or `%@{`.
fn brace_turn(depth: usize, byte: u8) -> Turn
    ensures { result ≡ grammar.brace_turn depth byte }
{
    if byte == b'{' {
        opens(depth)
    } else {
        Turn::Refused(Misfit::UnknownDirective)
    }
}

/// A byte at the brace of `%x{`.
fn option_turn(depth: usize, byte: u8) -> Turn
    ensures { result ≡ grammar.option_turn depth byte }
{
    if byte == b'{' {
        reads(InPiece::Later, Kind::LinkerOption, Place::Option, depth)
    } else {
        Turn::Refused(Misfit::UnknownDirective)
    }
}

/// What a function is.
pub(crate) fn call_kind(side: Side) -> Kind
    ensures { result ≡ grammar.call_kind side }
{
    match side {
        Side::InText => Kind::Call,
        Side::AmongTests => Kind::TestCall,
        Side::Negated => Kind::NegatedCall,
    }
}

/// A byte of a function's name.
fn function_turn(side: Side, depth: usize, byte: u8) -> Turn
    ensures { result ≡ grammar.function_turn side depth byte }
{
    if byte == b'(' {
        reads(
            InPiece::Later,
            call_kind(side),
            Place::Arguments(side, 0),
            depth,
        )
    } else if is_function_byte(byte) {
        reads(
            InPiece::Later,
            call_kind(side),
            Place::Function(side),
            depth,
        )
    } else {
        Turn::Refused(Misfit::BadFunction)
    }
}

/// The place of the byte after a function.
fn after_call(side: Side) -> Place
    ensures { result ≡ grammar.after_call side }
{
    match side {
        Side::InText => Place::Ready,
        Side::AmongTests | Side::Negated => Place::AfterTest,
    }
}

/// A byte of a function's arguments.
fn argument_turn(side: Side, inside: usize, depth: usize, byte: u8) -> Turn
    ensures { result ≡ grammar.argument_turn side inside depth byte }
{
    let place = match byte {
        b'(' if inside < MOST_LEVELS => Place::Arguments(side, inside + 1),
        b'(' => return Turn::Refused(Misfit::TooNested),
        b')' if inside == 0 => after_call(side),
        b')' => Place::Arguments(side, inside - 1),
        _ => Place::Arguments(side, inside),
    };
    reads(InPiece::Later, call_kind(side), place, depth)
}

/// What a byte is at a place, inside this many braces.
pub(crate) fn turn_at(place: Place, depth: usize, byte: u8) -> Turn
    ensures { result ≡ grammar.turn place depth byte }
{
    match place {
        Place::Ready => text_turn(InPiece::First, depth, byte),
        Place::Text => text_turn(InPiece::Later, depth, byte),
        Place::Escape => escape_turn(depth, byte),
        Place::Percent => percent_turn(depth, byte),
        Place::Message => message_turn(depth, byte),
        Place::NamedText => closed_turn(Kind::NamedText, Place::NamedText, b')', depth, byte),
        Place::Option => closed_turn(Kind::LinkerOption, Place::Option, b'}', depth, byte),
        Place::WantsBrace => brace_turn(depth, byte),
        Place::WantsOption => option_turn(depth, byte),
        Place::Function(side) => function_turn(side, depth, byte),
        Place::Arguments(side, inside) => argument_turn(side, inside, depth, byte),
        Place::BeforeTest => turn_before_test(depth, byte),
        Place::BeforeChoice => choice_turn(depth, byte),
        Place::Negated => negated_turn(depth, byte),
        Place::TestPercent(side) => percent_test_turn(side, depth, byte),
        Place::Test => inner_test_turn(depth, byte),
        Place::AfterTest => after_test_turn(depth, byte),
    }
}
