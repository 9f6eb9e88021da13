//! An X that is run for each hit.

ghost use Rattle.drv_system.specs.Code.Asked.{Asked};
ghost use Rattle.drv_machine.specs.Atoms.{matching};
ghost use Rattle.drv_machine.specs.Context as specs;
ghost use Rattle.drv_machine.specs.Code.ByKind.{labelled};
ghost use Rattle.drv_machine.specs.Code.Running as running;
ghost use Rattle.drv_machine.specs.Code.Running.{reached};
ghost use Rattle.drv_machine.specs.Code.Standing.{Stands};
ghost use Rattle.drv_machine.specs.Code.Walking.{Following, HitFits, NextHit, Went, each_from};
ghost use Rattle.drv_machine.specs.Code.Walking.{from_hit, hit_end, weight};
ghost use Rattle.drv_machine.specs.Working.{Answer, Levels};
ghost use Rattle.drv_syntax.specs.Labels.{label_at, nodes_of};
ghost use Rattle.drv_syntax.specs.Parsed.{tree_of};
ghost use Rattle.drv_syntax.specs.Tokens.{tokens_of};
ghost use Rattle.drv_syntax.specs.Tree as tree;
ghost use Rattle.drv_system.specs.Asking.{Extends};
ghost use Rattle.drv_system.specs.Facts.{Facts};
ghost use Rattle.std.specs.Prelude.{◌≡◌, ◌+◌, ◌-◌, ◌<◌, ◌≤◌, IfSome, OnOk, length, ℕ};

use crate::machine::Machine;
use crate::tokens_at::pattern_at;
use crate::walk::{Each, Frame, Hit, Opened, Rest, Walk};
use crate::{Context, MachineFault};
use drv_match::Pattern;
use drv_syntax::SpecTree;
use drv_system::{Outside, System};

/// The next switch from a place on that a pattern hits, if one does.
fn next_hit(
    context: &Context<'_>,
    pattern: &Pattern<'_>,
    from: usize,
    machine: &Machine,
) -> Option<usize>
    ensures within { IfSome result (λ i. (from ≤ i) × (i < length context.now.switches)) }
    ensures finds { (n : ℕ) (F : Facts) (p : tree.Pattern) (items : tree.Items) (levels : Levels)
        → pattern.now ≡ matching p → NextHit F context.now (reached n machine.now) p items levels from result }
{
    context.switches().next_hit(pattern, machine.hidden(), from)
}

/// An X is opened for the hit at a place of the line.
fn open_hit(each: Each, switch: usize, size: usize, walk: &mut Walk<'_>) -> Result<(), MachineFault>
    ensures does { (F : Facts) (C : specs.Context) (p : tree.Pattern)
        (items : tree.Items) (s : running.Machine) (given : Answer (Unit {0} × running.Machine))
        → HitFits walk.old.text.now C each switch p items → size ≡ length (matching p).name
        → Following F C walk.old.text.now walk.old each.end
        (λ levels star. from_hit F C p items levels switch) s given
        → Went F C walk.new.text.now walk.new s given result }
    ensures lighter { (n : ℕ) → OnOk result
        (weight n walk.new.frames ≤ weight n walk.old.frames + (n - switch)) }
{
    walk.frames.push(Frame {
        opened: Opened::Hit { each, switch },
        end: walk.end,
        star: walk.star,
    })?;
    walk.at = each.start;
    walk.end = each.end;
    walk.star = Some(Rest { switch, size });
    Ok(())
}

/// An X for each hit from a switch on: it is opened for the next one, or the walk goes on after it.
pub(crate) fn enter_next(
    context: &Context<'_>,
    each: Each,
    from: usize,
    walk: &mut Walk<'_>,
    machine: &Machine,
) -> Result<(), MachineFault>
    requires { each.test < length (tokens_of (tree_of walk.old.text.now)) }
    ensures does { (n : ℕ) (F : Facts) (p : tree.Pattern) (items : tree.Items)
        (given : Answer (Unit {0} × running.Machine))
        → labelled (label_at (tree_of walk.old.text.now) each.test) ≡ matching p
        → Stands walk.old.text.now each.start (nodes_of items) each.end
        → Following F context.now walk.old.text.now walk.old each.end
        (λ levels star. each_from F context.now p items levels from) (reached n machine.now) given
        → Went F context.now walk.new.text.now walk.new (reached n machine.now) given result }
    ensures lighter { OnOk result (weight (length context.now.switches) walk.new.frames
        ≤ weight (length context.now.switches) walk.old.frames +
        (length context.now.switches - from)) }
{
    let text = walk.text;
    let pattern = pattern_at(text, each.test);
    match next_hit(context, &pattern, from, machine) {
        Some(switch) => open_hit(each, switch, pattern.name.len(), walk),
        None => {
            walk.at = each.end;
            Ok(())
        }
    }
}

/// A working of an X for a hit ends: the switch's argument is put, and X is opened for the next
/// one.
#[inline(never)]
#[tactic(auto, using(drv_system::proofs::AskedCalls::asked_further))]
pub(crate) fn close_hit<S: System>(
    context: &Context<'_>,
    hit: Hit,
    walk: &mut Walk<'_>,
    machine: &mut Machine,
    outside: &mut Outside<'_, S>,
) -> Result<(), MachineFault>
    requires in_list { hit.each.test < length (tokens_of (tree_of walk.old.text.now)) }
    requires in_line { hit.switch < length context.now.switches }
    ensures asks { Asked S.events outside.old outside.new }
    ensures does { (n : ℕ) (F : Facts) → Extends outside.new.facts.now F
        → (p : tree.Pattern) (items : tree.Items) (given : Answer (Unit {0} × running.Machine))
        → HitFits walk.old.text.now context.now hit.each hit.switch p items
        → Following F context.now walk.old.text.now walk.old hit.each.end
        (λ levels star. hit_end F context.now p items levels hit.switch) (reached n machine.old) given
        → Went F context.now walk.new.text.now walk.new (reached n machine.new) given result }
    ensures lighter { OnOk result (weight (length context.now.switches) walk.new.frames
        < weight (length context.now.switches) walk.old.frames +
        (length context.now.switches - hit.switch)) }
{
    let count = context.switches().len();
    prove!(hit.switch < count);
    machine.put_argument(context, hit.switch, outside)?;
    enter_next(context, hit.each, hit.switch + 1, walk, machine)
}
