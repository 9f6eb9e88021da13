//! The pieces of a spec text.

use drv_words::Word;

/// What a piece of a spec text is.
#[derive(Clone, Copy, Debug)]
pub enum Kind {
    /// Plain bytes, blanks and escapes among them.
    Text,
    /// `%` and a byte: a directive that is whole with it.
    Directive,
    /// `%e` or `%n` and a message, up to the end of the line or of what it is in.
    Message,
    /// `%(NAME)`.
    NamedText,
    /// `%x{OPTION}`.
    LinkerOption,
    /// `%:NAME(ARGUMENTS)` in a text.
    Call,
    /// `%:NAME(ARGUMENTS)` as a test.
    TestCall,
    /// The same after `!`.
    NegatedCall,
    /// `%{`, `%W{` or `%@{`.
    Opening,
    /// White space beside a test.
    Blank,
    /// The `!` before a test.
    Negation,
    /// A test: the name of a switch, with or without a star, a suffix or a language.
    Test,
    /// The `|` between tests.
    Either,
    /// The `&` between switches.
    Both,
    /// The `:` before what an alternative gives.
    Then,
    /// The `;` before the next alternative.
    Otherwise,
    /// The `}` of braces.
    Closing,
}

/// A piece of a spec text: what it is, and how it is written.
#[derive(Debug, Drop)]
pub struct Piece {
    /// What it is.
    pub kind: Kind,
    /// How it is written.
    pub bytes: Word,
}
