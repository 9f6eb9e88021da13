//! Directives that mark a word (`%d`, `%w`, `%s`, `%T`), where there is none.

use crate::findings::Warning;
use crate::warning::Mark;
use drv_syntax::{Leaf, SpecTree, Token, TokenKind};
use std::alloc::AllocError;

/// Whether a token marks a word.
fn is_mark(kind: TokenKind) -> bool {
    matches!(
        kind,
        TokenKind::Leaf(Leaf::Removed | Leaf::Output | Leaf::FoundFile | Leaf::FoundScript)
    )
}

/// Whether a token is white space.
fn is_space(kind: TokenKind) -> bool {
    matches!(kind, TokenKind::Blank | TokenKind::Newline)
}

/// The warning of a token after one and before others, if it marks no word: white space, or an end
/// of a text of this size that is run by itself, is on both sides.
fn lost_warning(
    size: Option<usize>,
    before: Option<Token>,
    token: Token,
    rest: &[Token],
) -> Option<Warning> {
    let follows_space = before.is_some_and(|it| is_space(it.kind) && it.end == token.start);
    let precedes_space = matches!(rest, [it, ..] if is_space(it.kind) && it.start == token.end);
    let begins = size.is_some() && token.start == 0;
    let ends = size == Some(token.end as usize);
    if !is_mark(token.kind) {
        None
    } else if follows_space && precedes_space {
        Some(Warning::LostMark)
    } else if (follows_space || begins) && (precedes_space || ends) {
        Some(Warning::LostInPair)
    } else {
        None
    }
}

/// Adds the warnings of tokens that mark no word. The text has this size if it is run by itself.
pub(crate) fn push_lost(
    marks: &mut Vec<Mark>,
    tree: &SpecTree,
    size: Option<usize>,
    start: usize,
) -> Result<(), AllocError> {
    let tokens = tree.tokens();
    let mut before = None;
    for (place, &token) in tokens.iter().enumerate() {
        let warning = lost_warning(size, before, token, &tokens[place + 1..]);
        if let Some(warning) = warning {
            marks.push(Mark::of_token(start, token, warning))?;
        }
        before = Some(token);
    }
    Ok(())
}
