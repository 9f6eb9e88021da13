//! Functions in a text, whose arguments are run as an open part with a cut of its own.

ghost use Rattle.drv_machine.specs.Atoms.{item_step};
ghost use Rattle.drv_machine.specs.Context as specs;
ghost use Rattle.drv_machine.specs.Code.Running as running;
ghost use Rattle.drv_machine.specs.Code.Running.{reached};
ghost use Rattle.drv_machine.specs.Code.Standing.{Stands};
ghost use Rattle.drv_machine.specs.Code.Walking.{AskFits, Following, Kept, Went, tested_on, weight};
ghost use Rattle.drv_machine.specs.Working.{Answer};
ghost use Rattle.drv_syntax.specs.Labels.{label_at, nodes_of};
ghost use Rattle.drv_syntax.specs.Parsed.{tree_of};
ghost use Rattle.drv_syntax.specs.Tokens.{tokens_of};
ghost use Rattle.drv_syntax.specs.Tree as tree;
ghost use Rattle.drv_system.specs.Facts.{Facts};
ghost use Rattle.std.specs.Prelude.{◌≡◌, ◌+◌, ◌-◌, ◌<◌, ◌≤◌, List, OnOk, length, ℕ};

use crate::MachineFault;
use crate::machine::Machine;
use crate::walk::{Asking, Frame, Opened, Walk};

/// The arguments of the function item at a place are opened, which end where the next item begins.
/// What is cut so far is put aside.
///
/// # Errors
/// `SpecTooDeep` where 64 parts are open.
#[inline(never)]
pub(crate) fn open_call(
    at: usize,
    next: usize,
    walk: &mut Walk<'_>,
    machine: &mut Machine,
) -> Result<(), MachineFault>
    requires { at < next }
    ensures does { (n : ℕ) (F : Facts) (C : specs.Context) (name : List ℕ)
        (items : tree.Items) (given : Answer (Unit {0} × running.Machine))
        → at < length (tokens_of (tree_of walk.old.text.now)) → (label_at (tree_of walk.old.text.now) at).word ≡ name
        → Stands walk.old.text.now (at + 1) (nodes_of items) next
        → Following F C walk.old.text.now walk.old next (λ levels star. item_step F C
        (tree.Function name items) levels star) (reached n machine.old) given
        → Went F C walk.new.text.now walk.new (reached n machine.new) given result }
    ensures same { machine.new.world ≡ machine.old.world }
{
    let outer = Box::new(machine.alloc(), machine.put_aside())?;
    walk.frames.push(Frame {
        opened: Opened::Call {
            at,
            back: next,
            outer,
        },
        end: walk.end,
        star: walk.star,
    })?;
    walk.at = at + 1;
    walk.end = next;
    Ok(())
}

/// The arguments of the function that a test asks are opened. What is cut so far is put aside.
///
/// # Errors
/// `SpecTooDeep` where 64 parts are open.
#[inline(never)]
pub(crate) fn open_test(
    asking: Asking,
    walk: &mut Walk<'_>,
    machine: &mut Machine,
) -> Result<(), MachineFault>
    requires { asking.test < asking.start }
    ensures does { (n : ℕ) (F : Facts) (C : specs.Context) (items arguments : tree.Items)
        (kept : Kept) (given : Answer (Unit {0} × running.Machine)) → AskFits walk.old.text.now asking items kept
        → Stands walk.old.text.now (asking.test + 1) (nodes_of arguments) asking.from
        → Following F C walk.old.text.now walk.old asking.end
        (λ levels star. tested_on F C arguments items kept levels star) (reached n machine.old) given
        → Went F C walk.new.text.now walk.new (reached n machine.new) given result }
    ensures lighter { (n : ℕ) → OnOk result
        (weight n walk.new.frames ≤ weight n walk.old.frames +
        (n + 1 + (asking.end - asking.test))) }
    ensures same { machine.new.world ≡ machine.old.world }
{
    let places = Box::new(machine.alloc(), asking)?;
    let outer = Box::new(machine.alloc(), machine.put_aside())?;
    walk.frames.push(Frame {
        opened: Opened::Asks { places, outer },
        end: walk.end,
        star: walk.star,
    })?;
    walk.at = asking.test + 1;
    walk.end = asking.from;
    Ok(())
}
