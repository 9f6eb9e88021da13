//! `%@{..}`: an open part, whose words go to a file where words of the line come from one.

ghost use Rattle.drv_system.specs.Code.Asked.{Asked};
ghost use Rattle.drv_machine.specs.Atoms.{brace_step, item_step, starts_file};
ghost use Rattle.drv_machine.specs.Code.Running as running;
ghost use Rattle.drv_machine.specs.Code.Running.{reached};
ghost use Rattle.drv_machine.specs.Code.Standing.{Spans, Stands};
ghost use Rattle.drv_machine.specs.Code.Walking.{Following, Reaches, Went};
ghost use Rattle.drv_machine.specs.Working.{Answer, most_open};
ghost use Rattle.drv_syntax.specs.Labels.{brace_nodes};
ghost use Rattle.drv_syntax.specs.Tree as tree;
ghost use Rattle.drv_system.specs.Asking.{Extends};
ghost use Rattle.drv_system.specs.Facts.{Facts};
ghost use Rattle.std.specs.Prelude.{◌≡◌, ◌⊎◌, ◌<◌, ◌∷◌, ◌++◌, [], IfErr, OnOk, length, ℕ};

use crate::failing::work_brace;
use crate::machine::Machine;
use crate::walk::{Frame, Opened, Parts, Walk};
use crate::{Context, MachineFault};
use drv_syntax::SpecTree;
use drv_system::{Outside, System};

/// Whether a `%@` makes a file here.
fn starts_file(context: &Context<'_>, machine: &Machine) -> bool
    ensures { (F : Facts) → result ≡ starts_file F context.now machine.now.world }
{
    context.from_file() && !machine.is_in_file()
}

/// A part is opened that ends at a place.
///
/// # Errors
/// `SpecTooDeep` where 64 parts are open.
fn open_part<'w>(opened: Opened<'w>, end: usize, walk: &mut Walk<'w>) -> Result<(), MachineFault>
    ensures ok { OnOk result (walk.new ≡ record walk.old {
      end = end;
      frames = walk.old.frames
          ++ record {
            opened = opened.entry;
            end = walk.old.end;
            star =
                walk.old.star;
          } ∷ [];
    }) }
    ensures room { OnOk result (length walk.old.frames < most_open) }
    ensures err { IfErr result (λ fault. (fault ≡ MachineFault.Memory) ⊎
        ((fault ≡ MachineFault.SpecTooDeep) × (length walk.old.frames ≡ most_open))) }
    ensures same_text { walk.new.text.now ≡ walk.old.text.now }
{
    walk.frames.push(Frame {
        opened,
        end: walk.end,
        star: walk.star,
    })?;
    walk.end = end;
    Ok(())
}

/// A `%@` whose inside ends at a place is opened; a file begins, if it makes one.
///
/// # Errors
/// `SpecTooDeep` where 64 parts are open.
#[tactic(auto, using(drv_system::proofs::AskedCalls::asked_none))]
fn open_filed<S: System>(
    end: usize,
    context: &Context<'_>,
    walk: &mut Walk<'_>,
    machine: &mut Machine,
    outside: &mut Outside<'_, S>,
) -> Result<(), MachineFault>
    ensures asks { Asked S.events outside.old outside.new }
    ensures does { (n : ℕ) (F : Facts) → Extends outside.new.facts.now F
        → (brace : tree.Brace) (given : Answer (Unit {0} × running.Machine))
        → Following F context.now walk.old.text.now walk.old end
        (λ levels star. item_step F context.now (tree.ArgumentsFile brace) levels star) (reached n machine.old)
        given → Reaches F context.now walk.new.text.now walk.new end
        (λ levels star. brace_step F context.now brace levels star) (reached n machine.new) given result }
    ensures same_text { walk.new.text.now ≡ walk.old.text.now }
{
    if !starts_file(context, machine) {
        return open_part(Opened::Inside { back: end }, end, walk);
    }
    open_part(Opened::File { back: end }, end, walk)?;
    machine.begin_file(context, outside)
}

/// A `%@` is opened, and its part from one place up to another is run, or reached.
#[inline(never)]
pub(crate) fn work_filed<S: System>(
    context: &Context<'_>,
    parts: Parts,
    walk: &mut Walk<'_>,
    machine: &mut Machine,
    outside: &mut Outside<'_, S>,
) -> Result<(), MachineFault>
    requires { Spans walk.old.text.now parts.start parts.end }
    ensures asks { Asked S.events outside.old outside.new }
    ensures does { (n : ℕ) (F : Facts) → Extends outside.new.facts.now F
        → (brace : tree.Brace) (given : Answer (Unit {0} × running.Machine))
        → Stands walk.old.text.now parts.start (brace_nodes brace) parts.end
        → Following F context.now walk.old.text.now walk.old parts.end
        (λ levels star. item_step F context.now (tree.ArgumentsFile brace) levels star) (reached n machine.old)
        given → Went F context.now walk.new.text.now walk.new (reached n machine.new) given result }
{
    open_filed(parts.end, context, walk, machine, outside)?;
    work_brace(context, parts, walk, machine, outside)
}
