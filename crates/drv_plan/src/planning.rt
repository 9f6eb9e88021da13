//! The plan of a line.

// In clauses: `Extends F G` says that G has every answer of F. `GivesKnown` says that a result is
// the one defined over the facts, or lack of memory. `Asked` says that a call only asked, and that
// the table has the answers.
ghost use Rattle.drv_machine.specs.declared.fault.MachineFault.TheVariants as machine;
ghost use Rattle.drv_plan.specs.Denoted.{denoted, finished, plan_of, then_by, with_command};
ghost use Rattle.drv_plan.specs.Denoted.{with_inputs, with_link};
ghost use Rattle.drv_search.specs.Search.{prefixes_of};
ghost use Rattle.drv_system.specs.Asking.{Asks, Extends};
ghost use Rattle.drv_system.specs.Code.Asked.{Asked};
ghost use Rattle.drv_system.specs.Facts.{Facts};
ghost use Rattle.drv_system.specs.Gives.{GivesKnown};
ghost use Rattle.drv_system.specs.Known.{Is};
ghost use Rattle.std.specs.Prelude.{◌≡◌, ◌==◌, ◌≢◌, IfErr, IfOk, length};

use crate::PlanFault;
use crate::notices::notices_of;
use crate::progress::Progress;
use crate::sources::add_inputs;
use crate::working::{Noting, Plain, Work};
use drv_args::{Input, Line};
use drv_machine::{Context, Trace};
use drv_search::Prefixes;
use drv_specs::SpecSet;
use drv_system::{FactTable, Outside, System};
use drv_words::{Job, Listing, Plan, Word};
use std::alloc::{AllocError, Global};
use std::mem;

/// The name of the link's text.
const LINK_COMMAND: &[u8] = b"link_command";

/// The link, if its job has a command.
fn with_command(job: Job) -> Option<Job>
    ensures { result ≡ with_command job }
{
    // A link's text may give no command, and then nothing is linked.
    if job.groups.is_empty() {
        None
    } else {
        Some(job)
    }
}

/// Whether there is nothing to link.
fn is_empty_link(outputs: &[Word]) -> bool
    ensures { result ≡ (length outputs.now == 0) }
{
    outputs.is_empty()
}

/// The link, if there is something to link and a text for it.
fn link_of<S: System, W: Work>(
    alloc: Global,
    set: &SpecSet,
    progress: &mut Progress<'_>,
    outside: &mut Outside<'_, S>,
    worker: &mut W,
) -> Result<Option<Job>, PlanFault>
    ensures asks { Asked S.events outside.old outside.new }
    ensures works { (F : Facts) → Extends outside.new.facts.now F
        → GivesKnown PlanFault.Memory (λ link. (link, progress.new)) result
        (with_link F set.now progress.old) }
{
    if is_empty_link(progress.outputs.as_slice()) {
        return Ok(None);
    }
    match set.tree(LINK_COMMAND) {
        Some(text) => Ok(with_command(progress.work_link(alloc, text, outside, worker)?)),
        None => Ok(None),
    }
}

/// The plan with this link. Jobs and notices are moved out of the progress.
fn plan_of(
    alloc: Global,
    link: Option<Job>,
    progress: &mut Progress<'_>,
) -> Result<Plan, AllocError>
    ensures { IfOk result (λ plan. plan ≡ plan_of (link, progress.old)) }
{
    let notices = notices_of(alloc, &link, progress)?;
    Ok(Plan {
        notices,
        jobs: mem::replace(&mut progress.jobs, Listing::new(alloc)),
        link,
    })
}

/// The plan of the inputs after those that are done. Jobs and notices are moved out of the progress.
#[tactic(auto, using(drv_system::proofs::AskedCalls::asked_further))]
fn plan_inputs<'a, S: System, W: Work>(
    alloc: Global,
    set: &'a SpecSet,
    inputs: &'a [Input],
    progress: &mut Progress<'a>,
    outside: &mut Outside<'_, S>,
    worker: &mut W,
) -> Result<Plan, PlanFault>
    ensures asks { Asked S.events outside.old outside.new }
    ensures works { (F : Facts) → Extends outside.new.facts.now F
        → GivesKnown PlanFault.Memory (λ plan. plan) result
        (then_by (with_inputs F set.now 0 inputs.now progress.old) (λ g. finished F set.now g)) }
{
    add_inputs(alloc, set, inputs, progress, outside, worker)?;
    let link = link_of(alloc, set, progress, outside, worker)?;
    Ok(plan_of(alloc, link, progress)?)
}

/// A line with its specs, and the seed of the names of temporaries.
#[derive(Clone, Copy)]
pub struct Specified<'a> {
    pub line: &'a Line,
    pub set: &'a SpecSet,
    pub seed: u32,
}

/// The plan of a line with its specs, as `plan` gives it, along the prefixes of its `-B`.
///
/// # Errors
/// Those of `plan`.
#[tactic(auto, using(drv_system::proofs::Asking::asks_nothing))]
pub fn plan_along<S: System>(
    alloc: Global,
    given: &Specified<'_>,
    prefixes: &Prefixes,
    sys: &mut S,
    facts: &mut FactTable,
) -> Result<Plan, PlanFault>
    ensures asks { Asks (S.events sys.old) (S.events sys.new) facts.old facts.new }
    ensures plans { (F : Facts) → Extends facts.new F
        → prefixes_of F given.now.line.now.settings.prefixes ≡ Is prefixes.now
        → GivesKnown PlanFault.Memory (λ p. p) result
        (denoted F given.now.line.now given.now.set.now given.now.seed) }
    ensures apart { IfErr result (λ fault. fault ≢ PlanFault.Machine machine.Memory) }
{
    let context = Context::new(alloc, given.line, given.set, prefixes, given.seed)?;
    let inputs = given.line.inputs.as_slice();
    let mut progress = Progress::new(alloc, context, inputs.len())?;
    let outside = &mut Outside { sys, facts };
    plan_inputs(alloc, given.set, inputs, &mut progress, outside, &mut Plain)
}

/// A plan, and where the words of its commands come from.
#[derive(Drop)]
pub struct TracedPlan {
    pub plan: Plan,
    /// One for each text that was run: those of the jobs, and the link's, if it was run.
    pub traces: Listing<Option<Trace>>,
}

/// The plan of a line with its specs, as `plan_along` gives it, and where its words come from.
///
/// # Errors
/// Those of `plan`.
#[tactic(auto, using(drv_system::proofs::Asking::asks_nothing))]
pub fn plan_traced<S: System>(
    alloc: Global,
    given: &Specified<'_>,
    prefixes: &Prefixes,
    sys: &mut S,
    facts: &mut FactTable,
) -> Result<TracedPlan, PlanFault>
    ensures asks { Asks (S.events sys.old) (S.events sys.new) facts.old facts.new }
    ensures plans { (F : Facts) → Extends facts.new F
        → prefixes_of F given.now.line.now.settings.prefixes ≡ Is prefixes.now
        → GivesKnown PlanFault.Memory (λ t. t.plan) result
        (denoted F given.now.line.now given.now.set.now given.now.seed) }
{
    let context = Context::new(alloc, given.line, given.set, prefixes, given.seed)?;
    let inputs = given.line.inputs.as_slice();
    let mut progress = Progress::new(alloc, context, inputs.len())?;
    let outside = &mut Outside { sys, facts };
    let mut noting = Noting::new(alloc);
    let plan = plan_inputs(
        alloc,
        given.set,
        inputs,
        &mut progress,
        outside,
        &mut noting,
    )?;
    Ok(TracedPlan {
        plan,
        traces: noting.into_traces(),
    })
}

/// The plan of a line with its specs: each source, with the text of its language, in the order of
/// the line, and the link, if there is one (GCC manual, "Overall Options" and "Spec Files"). Names
/// of temporaries contain this seed. The system is asked only if the table has no answer.
///
/// # Errors
/// The first refusal in the order of the inputs, with the link last: `UnknownLanguage` and
/// `NotInstalled` for a file, and the machine's refusal of a text.
#[tactic(auto, using(drv_system::proofs::Asking::asks_then))]
pub fn plan<S: System>(
    alloc: Global,
    line: &Line,
    set: &SpecSet,
    seed: u32,
    sys: &mut S,
    facts: &mut FactTable,
) -> Result<Plan, PlanFault>
    ensures asks { Asks (S.events sys.old) (S.events sys.new) facts.old facts.new }
    ensures plans { (F : Facts) → Extends facts.new F
        → GivesKnown PlanFault.Memory (λ p. p) result (denoted F line.now set.now seed) }
    ensures apart { IfErr result (λ fault. fault ≢ PlanFault.Machine machine.Memory) }
{
    let prefixes = Prefixes::new(alloc, line.settings.prefixes.as_slice(), sys, facts)?;
    plan_along(alloc, &Specified { line, set, seed }, &prefixes, sys, facts)
}
