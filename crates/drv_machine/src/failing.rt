//! `%W{..}`: its last word is a failure file.

ghost use Rattle.drv_system.specs.Code.Asked.{Asked};
ghost use Rattle.drv_machine.specs.Atoms.{brace_step, item_step};
ghost use Rattle.drv_machine.specs.Context as specs;
ghost use Rattle.drv_machine.specs.Code.Running as running;
ghost use Rattle.drv_machine.specs.Code.Running.{reached};
ghost use Rattle.drv_machine.specs.Code.Standing.{Spans, Stands};
ghost use Rattle.drv_machine.specs.Code.Walking.{Following, Chooses, Emits, Reaches, Went};
ghost use Rattle.drv_machine.specs.Working.{Answer};
ghost use Rattle.drv_syntax.specs.Labels.{brace_nodes};
ghost use Rattle.drv_syntax.specs.Tree as tree;
ghost use Rattle.drv_system.specs.Asking.{Extends};
ghost use Rattle.drv_system.specs.Facts.{Facts};
ghost use Rattle.std.specs.Prelude.{◌≡◌, IsFalse, IsTrue, length, ℕ};

use crate::braces::choose;
use crate::emitting::emit;
use crate::machine::Machine;
use crate::tokens_at::token_at;
use crate::walk::{Frame, Opened, Parts, Walk};
use crate::{Context, MachineFault};
use drv_syntax::{SpecTree, TokenKind};
use drv_system::{Outside, System};

/// Whether there are patterns from one place up to another, and no alternatives.
fn has_patterns(text: &SpecTree, start: usize, end: usize) -> bool
    requires { Spans text.now start end }
    ensures patterns { IsTrue result → (brace : tree.Brace)
        → Stands text.now start (brace_nodes brace) end → Emits brace }
    ensures choices { IsFalse result → (brace : tree.Brace)
        → Stands text.now start (brace_nodes brace) end → Chooses text.now start end brace }
{
    if start >= end {
        return false;
    }
    match token_at(text, start).kind {
        TokenKind::Pattern => true,
        _ => false,
    }
}

/// The part in braces from one place up to another is run, or reached.
#[tactic(auto, using(drv_system::proofs::AskedCalls::asked_none))]
pub(crate) fn work_brace<S: System>(
    context: &Context<'_>,
    parts: Parts,
    walk: &mut Walk<'_>,
    machine: &mut Machine,
    outside: &mut Outside<'_, S>,
) -> Result<(), MachineFault>
    requires { Spans walk.old.text.now parts.start parts.end }
    ensures asks { Asked S.events outside.old outside.new }
    ensures does { (n : ℕ) (F : Facts) → Extends outside.new.facts.now F
        → (brace : tree.Brace) (given : Answer (Unit {0} × running.Machine))
        → Stands walk.old.text.now parts.start (brace_nodes brace) parts.end
        → Following F context.now walk.old.text.now walk.old parts.end
        (λ levels star. brace_step F context.now brace levels star) (reached n machine.old) given
        → Went F context.now walk.new.text.now walk.new (reached n machine.new) given result }
{
    let text = walk.text;
    if has_patterns(text, parts.start, parts.end) {
        walk.at = parts.end;
        return emit(text, context, parts, machine, outside);
    }
    choose(context, parts.start, parts.end, walk, machine)
}

/// A `%W` whose inside ends at a place is opened.
///
/// # Errors
/// `SpecTooDeep` where 64 parts are open.
fn open_failure(end: usize, walk: &mut Walk<'_>, machine: &mut Machine) -> Result<(), MachineFault>
    ensures does { (n : ℕ) (F : Facts) (C : specs.Context) (brace : tree.Brace)
        (given : Answer (Unit {0} × running.Machine))
        → Following F C walk.old.text.now walk.old end (λ levels star. item_step F C
        (tree.FailureFile brace) levels star) (reached n machine.old) given
        → Reaches F C walk.new.text.now walk.new end (λ levels star. brace_step F C brace levels star)
        (reached n machine.new) given result }
    ensures same { machine.new.world ≡ machine.old.world }
    ensures same_text { walk.new.text.now ≡ walk.old.text.now }
{
    walk.frames.push(Frame {
        opened: Opened::Failure { back: end },
        end: walk.end,
        star: walk.star,
    })?;
    walk.end = end;
    machine.begin_failure()
}

/// A `%W` is opened, and its part from one place up to another is run, or reached.
#[inline(never)]
#[tactic(auto, using(drv_system::proofs::AskedCalls::asked_none))]
pub(crate) fn work_failure<S: System>(
    context: &Context<'_>,
    parts: Parts,
    walk: &mut Walk<'_>,
    machine: &mut Machine,
    outside: &mut Outside<'_, S>,
) -> Result<(), MachineFault>
    requires { Spans walk.old.text.now parts.start parts.end }
    ensures asks { Asked S.events outside.old outside.new }
    ensures does { (n : ℕ) (F : Facts) → Extends outside.new.facts.now F
        → (brace : tree.Brace) (given : Answer (Unit {0} × running.Machine))
        → Stands walk.old.text.now parts.start (brace_nodes brace) parts.end
        → Following F context.now walk.old.text.now walk.old parts.end
        (λ levels star. item_step F context.now (tree.FailureFile brace) levels star) (reached n machine.old)
        given → Went F context.now walk.new.text.now walk.new (reached n machine.new) given result }
{
    open_failure(parts.end, walk, machine)?;
    work_brace(context, parts, walk, machine, outside)
}
