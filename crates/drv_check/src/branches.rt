//! Branches of a choice that no line reaches.

ghost use Rattle.drv_check.specs.Branches.{asks_all, covers, is_covered, is_default, is_unreachable, names_all};
ghost use Rattle.drv_check.specs.Branches.{test_at};
ghost use Rattle.drv_syntax.specs.Parsed.{tree_of};
ghost use Rattle.drv_syntax.specs.Tokens.{tokens_of};
ghost use Rattle.std.specs.List.{list_all};
ghost use Rattle.std.specs.Prelude.{◌≡◌, ◌<◌, length};

use crate::findings::Warning;
use crate::warning::Mark;
use drv_syntax::{SpecTree, TestKind, TokenKind};
use std::alloc::{AllocError, Global};
use std::marker::Model;

/// A test of a branch.
#[derive(Debug, Drop)]
struct Ask<'a> {
    word: &'a [u8],
    starred: bool,
    negated: bool,
    asks: TestKind,
}

impl<'a> Model for Ask<'a> {
    ghost use Rattle.drv_syntax.specs.Labels.{Label, part_label};

    ghost Value = { Label };

    ghost view = { λ ask. part_label ask.word.now ask.starred ask.negated ask.asks };
}

/// Whether the first pattern names each switch that the second one names.
fn names_all(first: &Ask<'_>, second: &Ask<'_>) -> bool
    ensures { result ≡ names_all first.now second.now }
{
    if first.starred {
        second.word.starts_with(first.word)
    } else {
        !second.starred && second.word == first.word
    }
}

/// Whether what the first test asks is so wherever what the second one asks is so.
fn asks_all(first: &Ask<'_>, second: &Ask<'_>) -> bool
    ensures { result ≡ asks_all first.now.asks second.now.asks first.now second.now }
{
    match (first.asks, second.asks) {
        (TestKind::Switch, TestKind::Switch) => names_all(first, second),
        (TestKind::Suffix, TestKind::Suffix) => second.word == first.word,
        (TestKind::Language, TestKind::Language) => second.word == first.word,
        _ => false,
    }
}

/// Whether the first test is true wherever the second one is.
fn covers(first: &Ask<'_>, second: &Ask<'_>) -> bool
    ensures { result ≡ covers first.now second.now }
{
    if first.negated {
        second.negated && asks_all(second, first)
    } else {
        !second.negated && asks_all(first, second)
    }
}

/// The test at this place of a tree.
fn test_at(tree: &SpecTree, place: usize) -> Ask<'_>
    requires { place < length (tokens_of (tree_of tree.now)) }
    ensures { result ≡ test_at (tree_of tree.now) place }
{
    Ask {
        word: tree.word(place),
        starred: tree.is_starred(place),
        negated: tree.is_negated(place),
        asks: tree.asks(place),
    }
}

/// The tests of a branch, from its first part on: those of its parts that are inside no other one.
fn tests_of<'a>(
    alloc: Global,
    tree: &'a SpecTree,
    inside: usize,
    end: usize,
) -> Result<Vec<Ask<'a>>, AllocError> {
    let tokens = tree.tokens();
    let mut tests = Vec::new(alloc);
    let mut next = inside;
    for place in inside..end {
        if place < next || place >= tokens.len() {
            continue;
        }
        let token = tokens[place];
        next = token.next;
        if let TokenKind::Test = token.kind {
            tests.push(test_at(tree, place))?;
        }
    }
    Ok(tests)
}

/// Whether one of these tests covers this one.
fn is_covered(earlier: &[Ask<'_>], test: &Ask<'_>) -> bool
    ensures { result ≡ is_covered earlier.now test.now }
{
    earlier.iter().any(|other| covers(other, test))
}

/// Whether these tests cover all of those.
fn are_covered(earlier: &[Ask<'_>], tests: &[Ask<'_>]) -> bool
    ensures { result ≡ list_all (is_covered earlier.now) tests.now }
{
    tests.iter().all(|test| is_covered(earlier, test))
}

/// Whether a branch has no test.
fn is_default(tests: &[Ask<'_>]) -> bool
    ensures { result ≡ is_default tests.now }
{
    matches!(tests, [])
}

/// Whether no line reaches a branch with these tests after those.
fn is_unreachable(earlier: &[Ask<'_>], tests: &[Ask<'_>]) -> bool
    ensures { result ≡ is_unreachable earlier.now tests.now }
{
    !is_default(tests) && are_covered(earlier, tests)
}

/// Adds the warnings of the branches of the part at this place.
fn push_branches(
    alloc: Global,
    marks: &mut Vec<Mark>,
    tree: &SpecTree,
    start: usize,
    place: usize,
    end: usize,
) -> Result<(), AllocError> {
    let tokens = tree.tokens();
    let mut earlier = Vec::new(alloc);
    let mut next = place;
    for place in place..end {
        if place < next || place >= tokens.len() {
            continue;
        }
        let token = tokens[place];
        next = token.next;
        if let TokenKind::Alternative = token.kind {
            let mut tests = tests_of(alloc, tree, place.saturating_add(1), token.next)?;
            if is_unreachable(earlier.as_slice(), tests.as_slice()) {
                marks.push(Mark::of_token(start, token, Warning::Unreachable))?;
            }
            earlier.append(&mut tests)?;
        }
    }
    Ok(())
}

/// Adds the warnings of the choices of a tree, whose text begins at this byte of the piece.
pub(crate) fn push_choices(
    alloc: Global,
    marks: &mut Vec<Mark>,
    tree: &SpecTree,
    start: usize,
) -> Result<(), AllocError> {
    for (place, token) in tree.tokens().iter().enumerate() {
        push_branches(
            alloc,
            marks,
            tree,
            start,
            place.saturating_add(1),
            token.next,
        )?;
    }
    Ok(())
}
