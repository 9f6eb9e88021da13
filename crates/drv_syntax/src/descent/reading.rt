//! A whole text.

ghost use Rattle.drv_syntax.specs.Code.Ending.{ending_by, ending_in};
ghost use Rattle.drv_syntax.specs.Code.Messages.{IsMessage, IsOpen, Says, said_to};
ghost use Rattle.drv_syntax.specs.Code.Whole.{rest_given, whole_given};
ghost use Rattle.drv_words.specs.Gives.{Gives};
ghost use Rattle.std.specs.Prelude.{◌≡◌, ◌≤◌, ◌+◌, [], Ok, length, true};

use crate::descent::contexts::{ListContext, ListKind, StarOwner};
use crate::descent::ending::Ending;
use crate::descent::lists::items;
use crate::descent::reader::Reader;
use crate::descent::rest::Rest;
use crate::descent::runs::{RunKind, run_length};
use crate::descent::tokens::Tokens;
use crate::descent::words::{Class, first, second, word_run};
use crate::directives::{Directive, directive_of};
use crate::fault::SyntaxFault;
use crate::labels::Labels;
use crate::token::{Token, TokenKind};
use std::alloc::Global;

/// The tokens and the labels of a text.
#[derive(Drop)]
pub struct TextParts {
    /// Its tokens.
    pub tokens: Tokens,
    /// Their labels.
    pub labels: Labels,
}

/// The room for tokens that is reserved at first for so many bytes.
fn first_room(size: usize) -> usize {
    match size {
        0..=64 => size,
        65..=192 => 64,
        193..=4096 => size,
        _ => 4096,
    }
}

/// The parts of a text, of which those of its first bytes, so many, are these.
fn read<'a>(
    alloc: Global,
    start: u32,
    more: &'a [u8],
    tokens: Tokens,
    labels: Labels,
) -> Result<Reader<'a>, SyntaxFault>
    requires size { start + length more.now ≤ 1048576 }
    ensures { Gives SyntaxFault.Memory (λ r. (r.tokens, r.labels)) result
        (rest_given start more.now tokens labels) }
{
    let mut r = Reader {
        rest: Rest::new(start, more),
        tokens,
        labels,
        holds_star: false,
        word: Vec::new(alloc),
    };
    let c = ListContext {
        kind: ListKind::Top,
        in_arguments: false,
        owner: StarOwner::Nobody,
        levels: 64,
    };
    items(None, c, &mut r)?;
    Ok(r)
}

/// How a text ends whose last token is of this kind.
#[inline(always)]
fn ending_by(kind: TokenKind) -> Ending
    ensures { result ≡ ending_by kind }
{
    match kind {
        TokenKind::TempName(_) | TokenKind::Hide => Ending::Word,
        TokenKind::UserError | TokenKind::Notice => Ending::Message,
        _ => Ending::Item,
    }
}

/// How a text of this size ends that has these tokens.
pub fn ending_in(size: usize, tokens: &[Token]) -> Ending
    ensures { result ≡ ending_in size tokens.now }
{
    match tokens.last() {
        Some(token) if token.end as usize == size => ending_by(token.kind),
        _ => Ending::Item,
    }
}

/// The tokens and the labels of a text.
pub fn read_text(alloc: Global, text: &[u8]) -> Result<TextParts, SyntaxFault>
    requires { length text.now ≤ 1048576 }
    ensures { Gives SyntaxFault.Memory (λ p. (p.tokens, p.labels)) result (whole_given text.now) }
{
    let count = first_room(text.len());
    let tokens = Tokens::with_capacity(alloc, count)?;
    let bytes = if text.len() > 4096 { 4096 } else { text.len() };
    let labels = Labels::with_capacity(alloc, count, bytes)?;
    let r = read(alloc, 0, text, tokens, labels)?;
    let Reader {
        mut tokens,
        mut labels,
        ..
    } = r;
    // Many texts are kept, and few grow.
    tokens.shrink();
    labels.shrink();
    Ok(TextParts { tokens, labels })
}

/// The tokens and the labels of a text, of which those of its first bytes, so many, are these.
pub fn read_more(
    alloc: Global,
    start: u32,
    more: &[u8],
    old: TextParts,
) -> Result<TextParts, SyntaxFault>
    requires { start + length more.now ≤ 1048576 }
    ensures { Gives SyntaxFault.Memory (λ p. (p.tokens, p.labels)) result
        (rest_given start more.now old.tokens old.labels) }
{
    let TextParts { tokens, labels } = old;
    let r = read(alloc, start, more, tokens, labels)?;
    let Reader { tokens, labels, .. } = r;
    Ok(TextParts { tokens, labels })
}

/// Whether these bytes neither end a text for the user nor escape a byte of it.
pub fn says(more: &[u8]) -> bool
    ensures { result ≡ true → Says more.now }
{
    run_length(RunKind::Word(Class::Said(ListKind::Top)), more) == more.len()
}

/// Whether a text is one text for the user, which could go on.
fn is_message(alloc: Global, text: &[u8]) -> bool
    requires { length text.now ≤ 1048576 }
    ensures { result ≡ true → IsMessage text.now }
{
    let Some(percent) = first(text) else {
        return false;
    };
    if percent != b'%' {
        return false;
    }
    let Some(letter) = second(text) else {
        return false;
    };
    let Directive::WithSaying(_kind) = directive_of(letter) else {
        return false;
    };
    let mut r = Reader {
        rest: Rest::new(0, text),
        tokens: Tokens::new(alloc),
        labels: Labels::new(alloc),
        holds_star: false,
        word: Vec::new(alloc),
    };
    r.rest.take(2);
    let Ok(Some(_word)) = word_run(Class::Said(ListKind::Top), &mut r) else {
        return false;
    };
    let Some(_more) = r.rest.first() else {
        return true;
    };
    false
}

/// Whether a text with these tokens ends in a text for the user that could go on. What precedes that is
/// read once more.
pub fn is_open(alloc: Global, text: &[u8], tokens: &[Token]) -> bool
    requires { length text.now ≤ 1048576 }
    ensures { result ≡ true → IsOpen text.now }
{
    let Some(token) = tokens.last() else {
        return false;
    };
    if !ending_in(text.len(), tokens).is_message() {
        return false;
    }
    let start = token.start as usize;
    if start > text.len() {
        return false;
    }
    let message = &text[start..];
    let Ok(front) = read_text(alloc, &text[..start]) else {
        return false;
    };
    if !ending_in(start, front.tokens.as_slice()).goes_on(message) {
        return false;
    }
    is_message(alloc, message)
}

/// The tokens and the labels of a text of which these are known, where the last part goes on with these
/// bytes up to this place.
pub fn say_on(end: u32, more: &[u8], old: TextParts) -> Result<TextParts, SyntaxFault>
    ensures { Gives SyntaxFault.Memory (λ p. (p.tokens, p.labels)) result
        (said_to end more.now (Ok (old.tokens, old.labels))) }
{
    let TextParts {
        mut tokens,
        mut labels,
    } = old;
    tokens.end_last(end);
    labels.lengthen_last(more)?;
    Ok(TextParts { tokens, labels })
}

/// The tokens and labels of a text without bytes. The call allocates nothing.
pub fn read_nothing(alloc: Global) -> TextParts
    ensures tokens { result.tokens ≡ [] }
    ensures labels { result.labels ≡ [] }
{
    TextParts {
        tokens: Tokens::new(alloc),
        labels: Labels::new(alloc),
    }
}
