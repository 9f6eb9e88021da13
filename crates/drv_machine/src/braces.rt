//! Braces with alternatives.

ghost use Rattle.drv_machine.specs.Atoms.{choices_step, items_step, worked};
ghost use Rattle.drv_machine.specs.Code.ByKind.{asks_switch};
ghost use Rattle.drv_machine.specs.Code.Running as running;
ghost use Rattle.drv_machine.specs.Code.Running.{reached};
ghost use Rattle.drv_machine.specs.Code.Standing.{Spans, Stands};
ghost use Rattle.drv_machine.specs.Code.Walking.{AskFits, Following, Kept, Went, decided_on};
ghost use Rattle.drv_machine.specs.Code.Walking.{weight};
ghost use Rattle.drv_machine.specs.Working.{Answer, Step};
ghost use Rattle.drv_syntax.specs.Labels.{choice_nodes, label_at, nodes_of, test_label};
ghost use Rattle.drv_syntax.specs.Parsed.{tree_of};
ghost use Rattle.drv_syntax.specs.Stars.{has_star};
ghost use Rattle.drv_syntax.specs.Tokens.{tokens_of};
ghost use Rattle.drv_syntax.specs.Tree as tree;
ghost use Rattle.drv_system.specs.Facts.{Facts};
ghost use Rattle.std.specs.Prelude.{◌≡◌, ◌&&◌, ◌+◌, ◌-◌, ◌<◌, ◌≤◌, Bool, OnOk, Some, length, ℕ};

use crate::asking::{Judged, first_true};
use crate::calling::open_test;
use crate::hits::enter_next;
use crate::machine::Machine;
use crate::tokens_at::{tests_end, token_at};
use crate::walk::{Asking, Each, Walk};
use crate::{Context, MachineFault};
use drv_syntax::{SpecTree, TestKind};

/// Whether an X is run for each hit: the test at a place asks for a switch, and X has a `%*` of its
/// own.
fn is_for_each(text: &SpecTree, test: usize, own: bool) -> bool
    requires { test < length (tokens_of (tree_of text.now)) }
    ensures { result ≡ (asks_switch (label_at (tree_of text.now) test) && own) }
{
    match text.asks(test) {
        TestKind::Switch => own,
        TestKind::Suffix | TestKind::Language | TestKind::Result => false,
    }
}

/// An X by the test at a place, which is true: it is opened for each hit where X has a `%*` of its
/// own, as is said, else reached.
fn enter_alternative(
    context: &Context<'_>,
    each: Each,
    own: bool,
    walk: &mut Walk<'_>,
    machine: &Machine,
) -> Result<(), MachineFault>
    requires { each.test < length (tokens_of (tree_of walk.old.text.now)) }
    ensures does { (n : ℕ) (F : Facts) (negated : Bool) (asked : tree.Asked) (items : tree.Items)
        (others : Step (Unit {0})) (given : Answer (Unit {0} × running.Machine))
        → own ≡ has_star items → label_at (tree_of walk.old.text.now) each.test ≡ test_label negated asked
        → Stands walk.old.text.now each.start (nodes_of items) each.end
        → Following F context.now walk.old.text.now walk.old each.end
        (λ levels star. worked F context.now (Some asked) (has_star items)
        (λ rest inside. items_step F context.now items inside rest) levels star others)
        (reached n machine.now) given
        → Went F context.now walk.new.text.now walk.new (reached n machine.now) given result }
    ensures lighter { OnOk result (weight (length context.now.switches) walk.new.frames
        ≤ weight (length context.now.switches) walk.old.frames + length context.now.switches) }
{
    let text = walk.text;
    if is_for_each(text, each.test, own) {
        return enter_next(context, each, 0, walk, machine);
    }
    walk.at = each.start;
    Ok(())
}

/// A test by a function was answered: its X is reached or opened, or the tests after it are judged,
/// and then the alternatives after them.
#[inline(never)]
pub(crate) fn answer(
    context: &Context<'_>,
    asking: Asking,
    holds: bool,
    walk: &mut Walk<'_>,
    machine: &mut Machine,
) -> Result<(), MachineFault>
    requires { (items : tree.Items) × (kept : Kept) × AskFits walk.old.text.now asking items kept }
    ensures does { (n : ℕ) (F : Facts) (items : tree.Items) (kept : Kept)
        (given : Answer (Unit {0} × running.Machine)) → AskFits walk.old.text.now asking items kept
        → Following F context.now walk.old.text.now walk.old asking.end
        (λ levels star. decided_on F context.now items kept levels star holds) (reached n machine.old) given
        → Went F context.now walk.new.text.now walk.new (reached n machine.new) given result }
    ensures lighter { OnOk result (weight (length context.now.switches) walk.new.frames
        ≤ weight (length context.now.switches) walk.old.frames +
        (length context.now.switches + (asking.end - asking.test))) }
{
    let text = walk.text;
    let mut each = Each {
        test: asking.test,
        start: asking.start,
        end: asking.next,
    };
    if holds != text.is_negated(asking.test) {
        return enter_alternative(context, each, asking.own, walk, machine);
    }
    match first_true(text, context, asking.from, asking.start, machine) {
        Judged::True(test) => {
            each.test = test;
            enter_alternative(context, each, asking.own, walk, machine)
        }
        Judged::Asks(test) => {
            let later = Asking {
                test,
                from: token_at(text, test).next,
                ..asking
            };
            open_test(later, walk, machine)
        }
        Judged::Neither => choose(context, asking.next, asking.end, walk, machine),
    }
}

/// The first alternative with a true test, among those from one place up to another, is reached or
/// opened; or the default is; or the place after them is reached.
#[inline(never)]
pub(crate) fn choose(
    context: &Context<'_>,
    start: usize,
    end: usize,
    walk: &mut Walk<'_>,
    machine: &mut Machine,
) -> Result<(), MachineFault>
    requires { Spans walk.old.text.now start end }
    ensures does { (n : ℕ) (F : Facts) (choices : tree.Choices)
        (given : Answer (Unit {0} × running.Machine))
        → Stands walk.old.text.now start (choice_nodes choices) end
        → Following F context.now walk.old.text.now walk.old end
        (λ levels star. choices_step F context.now choices levels star) (reached n machine.old) given
        → Went F context.now walk.new.text.now walk.new (reached n machine.new) given result }
    ensures lighter { OnOk result (weight (length context.now.switches) walk.new.frames
        ≤ weight (length context.now.switches) walk.old.frames +
        (length context.now.switches + (end - start))) }
{
    let text = walk.text;
    let mut at = start;
    while at < end {
        let next = token_at(text, at).next;
        let items = tests_end(text, at + 1, next);
        if items == at + 1 {
            walk.at = items;
            return Ok(());
        }
        let own = text.holds_star(at);
        match first_true(text, context, at + 1, items, machine) {
            Judged::True(test) => {
                let each = Each {
                    test,
                    start: items,
                    end: next,
                };
                return enter_alternative(context, each, own, walk, machine);
            }
            Judged::Asks(test) => {
                let asking = Asking {
                    test,
                    from: token_at(text, test).next,
                    start: items,
                    next,
                    own,
                    end,
                };
                return open_test(asking, walk, machine);
            }
            Judged::Neither => at = next,
        }
    }
    walk.at = end;
    Ok(())
}
