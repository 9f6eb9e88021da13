//! Parts of a text by their places in its flat list.

ghost use Rattle.drv_machine.specs.Code.ByKind.{labelled};
ghost use Rattle.drv_machine.specs.Code.Standing.{Spans, Stands, after_tests, tests_in};
ghost use Rattle.drv_syntax.specs.Labels.{Nodes, label_at};
ghost use Rattle.drv_syntax.specs.Parsed.{tree_of};
ghost use Rattle.drv_syntax.specs.Tokens.{tokens_of};
ghost use Rattle.std.specs.Prelude.{◌≡◌, ◌<◌, Some, length, slice_get};

use drv_match::Pattern;
use drv_syntax::{SpecTree, Token, TokenKind};

/// The token at a place.
pub fn token_at(tree: &SpecTree, at: usize) -> Token
    requires { at < length (tokens_of (tree_of tree.now)) }
    ensures { slice_get (tokens_of (tree_of tree.now)) at ≡ Some result }
{
    tree.tokens()[at]
}

/// The pattern that the part at a place names.
pub fn pattern_at(tree: &SpecTree, at: usize) -> Pattern<'_>
    requires { at < length (tokens_of (tree_of tree.now)) }
    ensures { result ≡ labelled (label_at (tree_of tree.now) at) }
{
    Pattern {
        name: tree.word(at),
        star: tree.is_starred(at),
    }
}

/// The end of the tests that are first among parts.
pub fn tests_end(tree: &SpecTree, start: usize, end: usize) -> usize
    requires { Spans tree.now start end }
    ensures tests { (nodes : Nodes) → Stands tree.now start nodes end
        → Stands tree.now start (tests_in nodes) result }
    ensures rest { (nodes : Nodes) → Stands tree.now start nodes end
        → Stands tree.now result (after_tests nodes) end }
{
    let mut at = start;
    while at < end {
        let token = token_at(tree, at);
        match token.kind {
            TokenKind::Test => at = token.next as usize,
            _ => return at,
        }
    }
    at
}
