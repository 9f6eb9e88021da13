//! What is surely not meant in the tokens of a text.

ghost use Rattle.drv_syntax.specs.Parsed.{tree_of};
ghost use Rattle.drv_syntax.specs.Tokens.{tokens_of};
ghost use Rattle.std.specs.Prelude.{◌<◌, length};

use crate::findings::Warning;
use crate::known_names::{Names, gcc_has};
use crate::never_true::switch_warning;
use crate::warning::Mark;
use drv_match::Pattern;
use drv_specs::bytes::is_white;
use drv_syntax::{SpecTree, TestKind, Token, TokenKind};
use drv_words::Word;
use std::alloc::{AllocError, Global};

/// The warning of plain bytes: a quote that begins a word. The text begins with it, or white space,
/// a colon, a bar or the parenthesis of a function's words precedes it.
fn quote_warning(tree: &SpecTree, word: &[u8], token: Token) -> Option<Warning> {
    let before = match (token.start as usize).checked_sub(1) {
        Some(at) => tree.text().get(at).copied(),
        None => None,
    };
    let begins = match before {
        Some(byte) => is_white(byte) || matches!(byte, b':' | b'|' | b'('),
        None => true,
    };
    match word {
        [b'"' | b'\'', ..] if begins => Some(Warning::QuotedWord),
        _ => None,
    }
}

/// The warning of a test or pattern of switches, if no switch has it.
fn pattern_warning(whose: Names, tree: &SpecTree, place: usize) -> Option<Warning>
    requires { place < length (tokens_of (tree_of tree.now)) }
{
    let pattern = Pattern {
        name: tree.word(place),
        star: tree.is_starred(place),
    };
    switch_warning(whose, &pattern)
}

/// The warning of the token at this place of a tree.
fn token_warning(whose: Names, tree: &SpecTree, place: usize, token: Token) -> Option<Warning>
    requires { place < length (tokens_of (tree_of tree.now)) }
{
    match token.kind {
        TokenKind::Plain => quote_warning(tree, tree.word(place), token),
        TokenKind::Test => match tree.asks(place) {
            TestKind::Switch => pattern_warning(whose, tree, place),
            _ => None,
        },
        TokenKind::Pattern => pattern_warning(whose, tree, place),
        TokenKind::NamedText if !gcc_has(whose, tree.word(place)) => Some(Warning::UnknownText),
        _ => None,
    }
}

/// Adds the warnings of the tokens of a tree, whose text begins at this byte of the piece. Whether a
/// text of a name is there, the end of the check tells.
pub(crate) fn push_tokens(
    alloc: Global,
    marks: &mut Vec<Mark>,
    whose: Names,
    tree: &SpecTree,
    start: usize,
) -> Result<(), AllocError> {
    for (place, &token) in tree.tokens().iter().enumerate() {
        if let Some(warning) = token_warning(whose, tree, place, token) {
            let mut mark = Mark::of_token(start, token, warning);
            if let Warning::UnknownText = warning {
                mark.name = Some(Word::from_bytes(alloc, tree.word(place))?);
            }
            marks.push(mark)?;
        }
    }
    Ok(())
}

/// The names of texts that a tree names.
pub(crate) fn names_in(alloc: Global, tree: &SpecTree) -> Result<Vec<Word>, AllocError> {
    let mut names = Vec::new(alloc);
    for (place, token) in tree.tokens().iter().enumerate() {
        if let TokenKind::NamedText | TokenKind::BuiltinText = token.kind {
            names.push(Word::from_bytes(alloc, tree.word(place))?)?;
        }
    }
    Ok(names)
}
