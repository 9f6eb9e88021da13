//! Tests of an alternative: the first that is true, or that is by a function.

ghost use Rattle.drv_machine.specs.Code.ByKind.{Found, Within, asked_step, is_call};
ghost use Rattle.drv_machine.specs.Code.Running.{reached, run};
ghost use Rattle.drv_machine.specs.Code.Standing.{Spans, Stands};
ghost use Rattle.drv_machine.specs.Working.{Levels};
ghost use Rattle.drv_syntax.specs.Labels.{label_at, test_nodes};
ghost use Rattle.drv_syntax.specs.Parsed.{tree_of};
ghost use Rattle.drv_syntax.specs.Tokens.{tokens_of};
ghost use Rattle.drv_syntax.specs.Tree.{Tests};
ghost use Rattle.drv_system.specs.Facts.{Facts};
ghost use Rattle.drv_system.specs.Known.{Is};
ghost use Rattle.std.specs.Prelude.{◌≡◌, ◌<◌, List, Ok, false, length, ℕ};

use crate::Context;
use crate::machine::Machine;
use crate::names::{has_language, has_suffix};
use crate::tokens_at::{pattern_at, token_at};
use drv_syntax::{SpecTree, TestKind};

/// Whether what the test at a place asks, which is no function, is so, its `!` aside.
fn truth(text: &SpecTree, context: &Context<'_>, at: usize, machine: &Machine) -> bool
    requires in_list { at < length (tokens_of (tree_of text.now)) }
    requires no_result { is_call (label_at (tree_of text.now) at) ≡ false }
    ensures { (n : ℕ) (F : Facts) → run F context.now (reached n machine.now)
        (asked_step context.now (label_at (tree_of text.now) at)) ≡ Is (Ok (result, reached n machine.now)) }
{
    match text.asks(at) {
        TestKind::Switch => {
            let pattern = pattern_at(text, at);
            context.switches().has_hit(&pattern, machine.hidden())
        }
        TestKind::Suffix => has_suffix(context.input(), text.word(at)),
        TestKind::Language => has_language(context.input(), text.word(at)),
        TestKind::Result => false,
    }
}

/// Whether the test at a place is by a function.
fn is_call(text: &SpecTree, at: usize) -> bool
    requires { at < length (tokens_of (tree_of text.now)) }
    ensures { result ≡ is_call (label_at (tree_of text.now) at) }
{
    match text.asks(at) {
        TestKind::Result => true,
        TestKind::Switch | TestKind::Suffix | TestKind::Language => false,
    }
}

/// What was found among tests.
pub(crate) enum Judged {
    /// The test at this place is true, and none before it.
    True(usize),
    /// The test at this place is by a function, whose arguments are run first, and none before it
    /// is true.
    Asks(usize),
    /// None is true.
    Neither,
}

/// What is found first among the tests from one place up to another.
pub(crate) fn first_true(
    text: &SpecTree,
    context: &Context<'_>,
    start: usize,
    end: usize,
    machine: &Machine,
) -> Judged
    requires { Spans text.now start end }
    ensures within { Within start end (length (tokens_of (tree_of text.now))) result }
    ensures does { (n : ℕ) (F : Facts) (tests : Tests) (levels : Levels) (star : List ℕ)
        → Stands text.now start (test_nodes tests) end
        → Found F context.now text.now end (reached n machine.now) (reached n machine.now)
        (Ok result) tests levels star }
{
    let mut at = start;
    while at < end {
        if is_call(text, at) {
            return Judged::Asks(at);
        }
        if truth(text, context, at, machine) != text.is_negated(at) {
            return Judged::True(at);
        }
        at = token_at(text, at).next;
    }
    Judged::Neither
}
