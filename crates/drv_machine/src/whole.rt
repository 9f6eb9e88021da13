//! A spec text worked.

ghost use Rattle.drv_system.specs.Code.Asked.{Asked};
ghost use Rattle.drv_machine.specs.Atoms.{whole_text};
ghost use Rattle.drv_machine.specs.Outcome.{finished, outcome};
ghost use Rattle.drv_machine.specs.Code.Counting.{state};
ghost use Rattle.drv_machine.specs.Code.Running.{run};
ghost use Rattle.drv_machine.specs.Traces.{is_astray, word_counts};
ghost use Rattle.drv_machine.specs.Working.{◌>>-◌};
ghost use Rattle.drv_syntax.specs.Parsed.{tree_of};
ghost use Rattle.drv_system.specs.Asking.{Asks, Extends};
ghost use Rattle.drv_system.specs.Facts.{Facts};
ghost use Rattle.drv_system.specs.Gives.{GivesKnown};
ghost use Rattle.std.specs.List.{list_any};
ghost use Rattle.std.specs.Prelude.{◌≡◌, IfOk, IfSome, false, length, map};

use crate::machine::{Machine, Tally, outcome_of};
use crate::placing::{fits, strays};
use crate::trace::Trace;
use crate::tracing::Tracing;
use crate::turns::work_text;
use crate::watch::{Unwatched, Watch};
use crate::{Context, MachineFault, Outcome};
use drv_syntax::SpecTree;
use drv_system::{FactTable, Outside, System};
use drv_words::Group;
use std::alloc::{AllocError, Global};

/// Works the whole text, whose end ends its last command, and judges what was cut.
fn finish<S: System, W: Watch>(
    text: &SpecTree,
    context: &Context<'_>,
    tally: &mut Tally,
    outside: &mut Outside<'_, S>,
    watch: &mut W,
) -> Result<Outcome, MachineFault>
    ensures asks { Asked S.events outside.old outside.new }
    ensures does { (F : Facts) → Extends outside.new.facts.now F
        → GivesKnown MachineFault.Memory (λ o. o) result
        (run F context.now (state tally.old) (whole_text F context.now (tree_of text.now)) >>- λ r.
        finished F context.now r.1.world r.1.cut) }
{
    work_text(text, context, tally, outside, watch)?;
    watch.end_text(&tally.machine);
    tally.machine.end_line(context, outside)?;
    outcome_of(&mut tally.machine, tally.items, context, outside)
}

/// A spec text worked to its end.
fn work_to_end<S: System, W: Watch>(
    alloc: Global,
    text: &SpecTree,
    context: &Context<'_>,
    outside: &mut Outside<'_, S>,
    watch: &mut W,
) -> Result<Outcome, MachineFault>
    ensures asks { Asked S.events outside.old outside.new }
    ensures does { (F : Facts) → Extends outside.new.facts.now F
        → GivesKnown MachineFault.Memory (λ o. o) result
        (outcome F context.now (tree_of text.now)) }
{
    let machine = Machine::new(alloc, context)?;
    let mut tally = Tally { machine, items: 0 };
    finish(text, context, &mut tally, outside, watch)
}

/// Works a spec text: its job, and what it cost. It asks the system only where the table has no
/// answer.
///
/// # Errors
/// The first refusal in the order of the text, those of pipes last; see `MachineFault`.
pub fn run<S: System>(
    alloc: Global,
    tree: &SpecTree,
    context: &Context<'_>,
    sys: &mut S,
    facts: &mut FactTable,
) -> Result<Outcome, MachineFault>
    ensures asks { Asks (S.events sys.old) (S.events sys.new) facts.old facts.new }
    ensures works { (F : Facts) → Extends facts.new F
        → GivesKnown MachineFault.Memory (λ o. o) result
        (outcome F context.now (tree_of tree.now)) }
{
    work_to_end(
        alloc,
        tree,
        context,
        &mut Outside { sys, facts },
        &mut Unwatched,
    )
}

/// What working a text gives, and where the words of its commands come from.
#[derive(Drop)]
pub struct Traced {
    pub outcome: Outcome,
    /// None where a word has no origin, or one at no item of its text.
    pub trace: Option<Trace>,
}

/// The trace, if each origin is at an item of its text.
fn placed(context: &Context<'_>, tree: &SpecTree, trace: Trace) -> Option<Trace>
    ensures same { IfSome result (λ t. t ≡ trace) }
    ensures placed { IfSome result (λ t.
        list_any (list_any (is_astray context.now tree.now t.texts)) t.commands ≡ false) }
{
    if strays(
        context,
        tree,
        trace.texts.as_slice(),
        trace.commands.as_slice(),
    ) {
        return None;
    }
    Some(trace)
}

/// The trace, if it has an origin for each word of these groups.
fn fitting(alloc: Global, groups: &[Group], trace: Trace) -> Result<Option<Trace>, AllocError>
    ensures same { IfOk result (λ kept. IfSome kept (λ t. t ≡ trace)) }
    ensures fits { IfOk result (λ kept. IfSome kept (λ t.
        map length t.commands ≡ word_counts groups.now)) }
{
    if fits(alloc, groups, trace.commands.as_slice())? {
        return Ok(Some(trace));
    }
    Ok(None)
}

/// An outcome with its trace, if that has an origin for each word, at an item of its text.
fn with_trace(
    alloc: Global,
    context: &Context<'_>,
    tree: &SpecTree,
    outcome: Outcome,
    trace: Trace,
) -> Result<Traced, AllocError>
    ensures outcome { IfOk result (λ t. t.outcome ≡ outcome) }
    ensures placed { IfOk result (λ t. IfSome t.trace (λ trace.
        list_any (list_any (is_astray context.now tree.now trace.texts)) trace.commands ≡ false)) }
    ensures fits { IfOk result (λ t. IfSome t.trace (λ trace.
        map length trace.commands ≡ word_counts t.outcome.job.groups)) }
{
    let Some(trace) = fitting(alloc, outcome.job.groups.as_slice(), trace)? else {
        return Ok(Traced {
            outcome,
            trace: None,
        });
    };
    Ok(Traced {
        outcome,
        trace: placed(context, tree, trace),
    })
}

/// Works a spec text as `run` does, and notes where words come from.
///
/// # Errors
/// Those of `run`.
pub fn run_traced<S: System>(
    alloc: Global,
    tree: &SpecTree,
    context: &Context<'_>,
    sys: &mut S,
    facts: &mut FactTable,
) -> Result<Traced, MachineFault>
    ensures asks { Asks (S.events sys.old) (S.events sys.new) facts.old facts.new }
    ensures works { (F : Facts) → Extends facts.new F
        → GivesKnown MachineFault.Memory (λ t. t.outcome) result
        (outcome F context.now (tree_of tree.now)) }
    ensures placed { IfOk result (λ t. IfSome t.trace (λ trace.
        list_any (list_any (is_astray context.now tree.now trace.texts)) trace.commands ≡ false)) }
    ensures fits { IfOk result (λ t. IfSome t.trace (λ trace.
        map length trace.commands ≡ word_counts t.outcome.job.groups)) }
{
    let mut tracing = Tracing::new(alloc);
    let outcome = work_to_end(
        alloc,
        tree,
        context,
        &mut Outside { sys, facts },
        &mut tracing,
    )?;
    tracing.finish()?;
    Ok(with_trace(alloc, context, tree, outcome, tracing.into_trace())?)
}
