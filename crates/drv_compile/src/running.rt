//! The work of items of the driver's line.

// In clauses: `Extends F G` says that G has every answer of F. `Asked` says that a call only asked,
// and that the table has the answers. `GivesKnown` says that a result is the one defined over the
// facts, or lack of memory. `Gives` says that a result is the defined one, or lack of memory.
ghost use Rattle.drv_args.specs.declared.fault.ArgsFault.TheVariants as args_fault;
ghost use Rattle.drv_compile.specs.Code.Working.{IsUnworked, IsWorked};
ghost use Rattle.drv_compile.specs.Runs.{Stops, Works, line_given, specs_of, work_served};
ghost use Rattle.drv_plan.specs.declared.fault.PlanFault.TheVariants as plan_fault;
ghost use Rattle.drv_search.specs.Search.{prefixes_of};
ghost use Rattle.drv_specs.specs.declared.fault.SpecsFault.TheVariants as specs_fault;
ghost use Rattle.drv_system.specs.Asking.{Extends};
ghost use Rattle.drv_system.specs.Code.Asked.{Asked};
ghost use Rattle.drv_system.specs.Facts.{Facts};
ghost use Rattle.drv_system.specs.Gives.{GivesKnown};
ghost use Rattle.drv_system.specs.Known.{Is};
ghost use Rattle.drv_words.specs.Gives.{Gives};
ghost use Rattle.std.specs.Prelude.{◌≡◌, IfOk, MatchResult};

use crate::languages::first_unserved;
use crate::sources::refuse_several;
use drv_args::{ArgsFault, Item, Line, Settings, line_of};
use drv_plan::{PlanFault, Specified};
use drv_run::{Ending, Work, load_along, work_along};
use drv_search::Prefixes;
use drv_specs::{SpecSet, SpecsFault, suffixes};
use drv_system::{Outside, System};
use drv_words::{Listing, Word};
use std::alloc::{AllocError, Global};
use std::mem::forget;

/// The driver's line, as items.
#[derive(Drop)]
pub struct DriverLine {
    /// Its items.
    pub items: Listing<Item>,
    /// Whether words of a response file are among those of the call, even if there were none.
    pub from_file: bool,
}

/// The line that items give.
///
/// # Errors
/// Its refusal.
pub(crate) fn line_given(alloc: Global, given: &DriverLine) -> Result<Line, ArgsFault>
    ensures line { Gives args_fault.Memory (λ line. line) result (line_given given.now) }
{
    line_of(alloc, given.from_file, given.items.as_slice())
}

/// The prefixes of a line's `-B`.
pub(crate) fn prefixes_of<S: System>(
    alloc: Global,
    settings: &Settings,
    outside: &mut Outside<'_, S>,
) -> Result<Prefixes, AllocError>
    ensures asks { Asked S.events outside.old outside.new }
    ensures prefixes { (F : Facts) → Extends outside.new.facts.now F
        → IfOk result (λ prefixes. prefixes_of F settings.now.prefixes ≡ Is prefixes) }
{
    let dirs = settings.prefixes.as_slice();
    Prefixes::new(alloc, dirs, outside.sys, outside.facts)
}

/// The specs of a line, along the prefixes of its `-B`: what the files of `-specs=` make of the
/// suffixes.
pub(crate) fn specs_of<S: System>(
    alloc: Global,
    settings: &Settings,
    prefixes: &Prefixes,
    outside: &mut Outside<'_, S>,
) -> Result<SpecSet, SpecsFault>
    ensures asks { Asked S.events outside.old outside.new }
    ensures loads { (F : Facts) → Extends outside.new.facts.now F
        → prefixes_of F settings.now.prefixes ≡ Is prefixes.now
        → GivesKnown specs_fault.Memory (λ set. set) result (specs_of F settings.now) }
{
    let set = suffixes(alloc)?;
    load_along(set, settings, prefixes, outside.sys, outside.facts)
}

/// What a line with these specs asks for, along the prefixes of its `-B`, if no source is in a
/// language that no spec file serves.
///
/// # Errors
/// The name of that language, or the refusal of the plan.
#[tactic(auto, using(drv_system::proofs::AskedCalls::asked_none))]
fn served_work<S: System>(
    alloc: Global,
    given: &Specified<'_>,
    prefixes: &Prefixes,
    outside: &mut Outside<'_, S>,
) -> Result<Work, PlanFault>
    ensures asks { Asked S.events outside.old outside.new }
    ensures works { (F : Facts) → Extends outside.new.facts.now F
        → prefixes_of F given.now.line.now.settings.prefixes ≡ Is prefixes.now
        → GivesKnown plan_fault.Memory (λ work. work) result
        (work_served F given.now.line.now given.now.set.now given.now.seed) }
{
    let foreign = first_unserved(alloc, given.set, given.line.inputs.as_slice())?;
    match foreign {
        Some(language) => {
            let name = Word::from_bytes(alloc, language)?;
            Err(PlanFault::NotInstalled(name))
        }
        None => work_along(alloc, given, prefixes, outside.sys, outside.facts),
    }
}

/// What a line with these specs asks for, along the prefixes of its `-B`, if it doesn't name one
/// output for several sources.
///
/// # Errors
/// That refusal, or that of the plan.
fn line_work<S: System>(
    alloc: Global,
    given: &Specified<'_>,
    prefixes: &Prefixes,
    outside: &mut Outside<'_, S>,
) -> Result<Work, Ending>
    ensures asks { Asked S.events outside.old outside.new }
    ensures works { (F : Facts) → Extends outside.new.facts.now F
        → prefixes_of F given.now.line.now.settings.prefixes ≡ Is prefixes.now
        → MatchResult result
        (λ work. IsWorked F given.now.line.now given.now.set.now given.now.seed work)
        (λ ending. IsUnworked F given.now.line.now given.now.set.now given.now.seed ending) }
{
    refuse_several(alloc, given.set, given.line)?;
    let work = served_work(alloc, given, prefixes, outside)?;
    Ok(work)
}

/// What items of the driver's line ask for: the line judged, its spec files loaded, and its plan with what
/// is done with it. It asks the system only where the table has no answer.
///
/// # Errors
/// The first refusal of these steps.
#[tactic(auto, using(drv_system::proofs::AskedCalls::asked_further))]
pub(crate) fn work_of_items<S: System>(
    alloc: Global,
    given: &DriverLine,
    seed: u32,
    outside: &mut Outside<'_, S>,
) -> Result<Work, Ending>
    ensures asks { Asked S.events outside.old outside.new }
    ensures comes { (F : Facts) → Extends outside.new.facts.now F
        → MatchResult result (λ work. Works F given.now seed work)
        (λ ending. Stops F given.now seed ending) }
{
    let line = line_given(alloc, given)?;
    let prefixes = prefixes_of(alloc, &line.settings, outside)?;
    let set = specs_of(alloc, &line.settings, &prefixes, outside)?;
    let specified = Specified {
        line: &line,
        set: &set,
        seed,
    };
    let work = line_work(alloc, &specified, &prefixes, outside);
    // The call ends soon: what dropping the set takes is saved.
    forget(set);
    work
}
