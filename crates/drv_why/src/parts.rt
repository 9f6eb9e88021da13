//! What of a text a word is from: what two blanks enclose, or an item that may have words inside.

use drv_syntax::{SpecTree, Token, TokenKind};
use std::alloc::{AllocError, Global};

/// The bytes of a text from one place up to another.
#[derive(Clone, Copy)]
pub(crate) struct Extent {
    pub(crate) start: usize,
    pub(crate) end: usize,
}

/// Whether an item has no words inside, and is no end of a word.
fn is_simple(kind: TokenKind) -> bool {
    matches!(
        kind,
        TokenKind::Plain
            | TokenKind::Escape
            | TokenKind::Leaf(_)
            | TokenKind::TempName(_)
            | TokenKind::Star
    )
}

/// Whether an item ends a word.
pub(crate) fn is_break(kind: TokenKind) -> bool {
    matches!(
        kind,
        TokenKind::Blank | TokenKind::Newline | TokenKind::Pipe
    )
}

/// Whether the item at a place is a test.
pub(crate) fn is_test(tokens: &[Token], at: usize) -> bool {
    match tokens.get(at) {
        Some(token) => matches!(token.kind, TokenKind::Test),
        None => false,
    }
}

/// The innermost part that a place is in.
pub(crate) fn around(tokens: &[Token], at: usize) -> Option<usize> {
    tokens.get(..at)?.iter().rposition(|token| at < token.next)
}

/// Where the list ends that a place is in.
pub(crate) fn list_end(tokens: &[Token], at: usize) -> usize {
    if let Some(outer) = around(tokens, at)
        && let Some(token) = tokens.get(outer)
    {
        return token.next;
    }
    tokens.len()
}

/// The items of a list from one place up to another, without what is inside them.
pub(crate) fn items(
    alloc: Global,
    tokens: &[Token],
    from: usize,
    end: usize,
) -> Result<Vec<usize>, AllocError> {
    let mut items = Vec::new(alloc);
    let mut next = from;
    for at in from..end {
        if at == next
            && let Some(token) = tokens.get(at)
        {
            items.push(at)?;
            next = token.next;
        }
    }
    Ok(items)
}

/// The alternatives of the same braces before one.
pub(crate) fn earlier(
    alloc: Global,
    tokens: &[Token],
    alternative: usize,
) -> Result<Vec<usize>, AllocError> {
    match around(tokens, alternative) {
        Some(braces) => items(alloc, tokens, braces.saturating_add(1), alternative),
        None => Ok(Vec::new(alloc)),
    }
}

/// The place behind the tests of an alternative.
fn after_tests(tokens: &[Token], alternative: usize) -> usize {
    let mut next = alternative.saturating_add(1);
    for at in next..tokens.len() {
        if at == next && is_test(tokens, at) {
            next = tokens[at].next;
        }
    }
    next
}

/// Where in a list that begins at a place the part begins that an item is in.
fn begun(alloc: Global, tokens: &[Token], first: usize, at: usize) -> Result<usize, AllocError> {
    let mut start = first;
    for item in items(alloc, tokens, first, at)? {
        if let Some(token) = tokens.get(item)
            && !is_simple(token.kind)
        {
            start = token.next;
        }
    }
    Ok(start)
}

/// The braces of an alternative, where they have no other one.
fn braces_of(tokens: &[Token], alternative: usize) -> Option<usize> {
    let outer = around(tokens, alternative)?;
    let is_only = alternative == outer.saturating_add(1)
        && tokens.get(alternative)?.next == tokens.get(outer)?.next;
    if is_only { Some(outer) } else { None }
}

/// Whether none of the tests of an alternative has a star.
fn is_plain(text: &SpecTree, alternative: usize, first: usize) -> bool {
    (alternative..first.min(text.tokens().len())).all(|place| !text.is_starred(place))
}

/// The item that begins the part that an item is in. What an alternative begins with belongs to that,
/// or to its braces where they have no other one; but not where a test has a star.
pub(crate) fn part_of(alloc: Global, text: &SpecTree, at: usize) -> Result<usize, AllocError> {
    let tokens = text.tokens();
    let mut at = at;
    for _ in 0..tokens.len() {
        let Some(outer) = around(tokens, at) else {
            return begun(alloc, tokens, 0, at);
        };
        let first = after_tests(tokens, outer);
        let start = begun(alloc, tokens, first, at)?;
        let begins = start <= first && is_plain(text, outer, first);
        if !begins && !is_test(tokens, at) {
            return Ok(start);
        }
        match braces_of(tokens, outer) {
            Some(braces) => at = braces,
            None => return Ok(outer),
        }
    }
    Ok(at)
}

/// The bytes of one item.
pub(crate) fn own_extent(text: &SpecTree, at: usize) -> Extent {
    match text.tokens().get(at) {
        Some(token) => Extent {
            start: token.start as usize,
            end: token.end as usize,
        },
        None => Extent { start: 0, end: 0 },
    }
}

/// The bytes of the part that an item begins.
pub(crate) fn part_extent(
    alloc: Global,
    text: &SpecTree,
    start: usize,
) -> Result<Extent, AllocError> {
    let tokens = text.tokens();
    let mut extent = own_extent(text, start);
    for item in items(alloc, tokens, start, list_end(tokens, start))? {
        let Some(token) = tokens.get(item) else {
            break;
        };
        if is_break(token.kind) {
            break;
        }
        extent.end = token.end as usize;
        if !is_simple(token.kind) {
            break;
        }
    }
    Ok(extent)
}
