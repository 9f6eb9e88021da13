//! Switches put as the line has them.

ghost use Rattle.drv_system.specs.Code.Asked.{Asked};
ghost use Rattle.drv_machine.specs.Atoms.{emitted, matching};
ghost use Rattle.drv_machine.specs.Code.ByKind.{put_at};
ghost use Rattle.drv_machine.specs.Code.Running.{Does};
ghost use Rattle.drv_machine.specs.Code.Standing.{Spans, Stands};
ghost use Rattle.drv_machine.specs.Working.{puts};
ghost use Rattle.drv_syntax.specs.Labels.{pattern_nodes};
ghost use Rattle.drv_syntax.specs.Tree as tree;
ghost use Rattle.drv_system.specs.Asking.{Extends};
ghost use Rattle.drv_system.specs.Facts.{Facts};
ghost use Rattle.std.specs.Prelude.{◌≡◌, ◌<◌, All, IfOk, List, length, map, ℕ};

use crate::machine::Machine;
use crate::tokens_at::{pattern_at, token_at};
use crate::walk::Parts;
use crate::{Context, MachineFault};
use drv_match::Pattern;
use drv_syntax::SpecTree;
use drv_system::{Outside, System};
use drv_words::Listing;
use std::alloc::{AllocError, Global};

/// The patterns from one place up to another.
fn patterns_in<'a>(
    alloc: Global,
    text: &'a SpecTree,
    start: usize,
    end: usize,
) -> Result<Listing<Pattern<'a>>, AllocError>
    requires { Spans text.now start end }
    ensures { (patterns : List (tree.Span × tree.Pattern))
        → Stands text.now start (pattern_nodes patterns) end
        → IfOk result (λ all. all ≡ map (λ p. matching p.1) patterns) }
{
    let mut patterns = Listing::new(alloc);
    let mut at = start;
    while at < end {
        patterns.push(pattern_at(text, at))?;
        at = token_at(text, at).next;
    }
    Ok(patterns)
}

/// Puts the switches at these places.
fn put_switches<S: System>(
    context: &Context<'_>,
    places: &[usize],
    machine: &mut Machine,
    outside: &mut Outside<'_, S>,
) -> Result<(), MachineFault>
    requires { All (λ place. place < length context.now.switches) places.now }
    ensures asks { Asked S.events outside.old outside.new }
    ensures does { (n : ℕ) (F : Facts) → Extends outside.new.facts.now F
        → Does F context.now n machine.old machine.new result (puts (put_at F context.now places.now)) }
{
    for place in places {
        machine.put_switch(context, *place, outside)?;
    }
    Ok(())
}

/// How many words the switches at these places are, with their arguments.
fn words_at(context: &Context<'_>, places: &[usize]) -> usize
    requires { All (λ place. place < length context.now.switches) places.now }
{
    let mut count = 0_usize;
    for place in places {
        count = count.saturating_add(1);
        if context.argument(*place).is_some() {
            count = count.saturating_add(1);
        }
    }
    count
}

/// Puts each switch that one of the patterns from one place up to another hits, for which it makes
/// room first.
#[tactic(auto, using(drv_system::proofs::AskedCalls::asked_none))]
pub(crate) fn emit<S: System>(
    text: &SpecTree,
    context: &Context<'_>,
    parts: Parts,
    machine: &mut Machine,
    outside: &mut Outside<'_, S>,
) -> Result<(), MachineFault>
    requires { Spans text.now parts.start parts.end }
    ensures asks { Asked S.events outside.old outside.new }
    ensures does { (n : ℕ) (F : Facts) → Extends outside.new.facts.now F
        → (patterns : List (tree.Span × tree.Pattern))
        → Stands text.now parts.start (pattern_nodes patterns) parts.end
        → Does F context.now n machine.old machine.new result
        (puts (emitted F context.now patterns machine.old.world.hidden)) }
{
    let alloc = machine.alloc();
    let patterns = patterns_in(alloc, text, parts.start, parts.end)?;
    let hidden = machine.hidden();
    let places = context
        .switches()
        .any_hits(alloc, patterns.as_slice(), hidden)?;
    let places = places.as_slice();
    machine.make_room(words_at(context, places))?;
    put_switches(context, places, machine, outside)
}
