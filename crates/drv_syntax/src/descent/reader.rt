//! What has been read of a text: its parts so far, and what is left.

ghost use Rattle.drv_syntax.specs.Code.Writing.{leaf_here, leaf_until, open_at, seen, spelled};
ghost use Rattle.drv_syntax.specs.Labels.{part_label, word_label};
ghost use Rattle.drv_syntax.specs.Descent.{is_empty};
ghost use Rattle.drv_words.specs.Gives.{Gives};
ghost use Rattle.std.specs.Prelude.{◌≡◌, false, Ok};

use crate::descent::rest::Rest;
use crate::descent::tokens::Tokens;
use crate::fault::SyntaxFault;
use crate::labels::{Labels, Naming, WORD_ALONE};
use crate::token::TokenKind;

/// What has been read of a text.
#[derive(Drop)]
pub struct Reader<'a> {
    /// What is left of it.
    pub rest: Rest<'a>,
    /// The tokens of its parts, with those that are still open.
    pub tokens: Tokens,
    /// Their labels.
    pub labels: Labels,
    /// The innermost X has a `%*` of its own so far.
    pub holds_star: bool,
    /// The last word with escapes, without their backslashes.
    pub word: Vec<u8>,
}

/// The bytes from one place of a text to another.
#[derive(Clone, Copy)]
pub struct Extent {
    /// Where they begin.
    pub start: u32,
    /// Where they end.
    pub end: u32,
}

/// A word that was read.
#[derive(Clone, Copy)]
pub enum Spelled<'a> {
    /// Without escapes: these bytes of the text.
    Lent(&'a [u8]),
    /// With escapes: the last word that had some, which the reader keeps.
    Copied,
}

/// The text ends in this directive, where the outermost that is open is this one.
pub fn unclosed_fault(outer: Option<u32>, at: u32) -> SyntaxFault
    ensures { result ≡ SyntaxFault.Unclosed (open_at outer at) }
{
    match outer {
        Some(outer) => SyntaxFault::Unclosed(outer as usize),
        None => SyntaxFault::Unclosed(at as usize),
    }
}

/// The word has no bytes, where the last word with escapes is this one.
#[inline(always)]
pub fn is_none(word: Spelled<'_>, copied: &[u8]) -> bool
    ensures { result ≡ is_empty (spelled word.entry copied.now) }
{
    match word {
        Spelled::Lent(bytes) => bytes.is_empty(),
        Spelled::Copied => copied.is_empty(),
    }
}

/// A part from this place on that names a word, without parts inside it.
#[inline(always)]
pub fn part_with_word(
    kind: TokenKind,
    start: u32,
    word: &[u8],
    r: &mut Reader<'_>,
) -> Result<(), SyntaxFault>
    ensures { Gives SyntaxFault.Memory (λ _. seen r.new) result
        (Ok (leaf_here kind (word_label word.now) start (seen r.old))) }
{
    r.tokens.push(kind, start, r.rest.at())?;
    r.labels.push(word, WORD_ALONE)
}

/// A part from this place on that names a word that was read, of which this is said.
#[inline(always)]
pub fn write_here(
    kind: TokenKind,
    start: u32,
    word: Spelled<'_>,
    naming: Naming,
    r: &mut Reader<'_>,
) -> Result<(), SyntaxFault>
    ensures { Gives SyntaxFault.Memory (λ _. seen r.new) result (Ok (leaf_here kind
        (part_label (spelled word.entry r.old.word.items) naming.starred naming.negated
        naming.asks) start (seen r.old))) }
{
    r.tokens.push(kind, start, r.rest.at())?;
    match word {
        Spelled::Lent(bytes) => r.labels.push(bytes, naming),
        Spelled::Copied => r.labels.push(&r.word, naming),
    }
}

/// A part with these bytes that names a word, of which this is said.
#[inline(always)]
pub fn part_of_word(
    kind: TokenKind,
    extent: Extent,
    word: Spelled<'_>,
    naming: Naming,
    r: &mut Reader<'_>,
) -> Result<(), SyntaxFault>
    ensures { Gives SyntaxFault.Memory (λ _. seen r.new) result (Ok (leaf_until kind
        (part_label (spelled word.entry r.old.word.items) naming.starred naming.negated
        naming.asks) extent.start extent.end (seen r.old))) }
{
    r.tokens.push(kind, extent.start, extent.end)?;
    match word {
        Spelled::Lent(bytes) => r.labels.push(bytes, naming),
        Spelled::Copied => r.labels.push(&r.word, naming),
    }
}
