//! What arguments ask for.

// In clauses: `Extends F G` says that G has every answer of F. `Asked` says that a call only asked,
// and that the table has the answers. `GivesKnown` says that a result is the one defined over the
// facts, or lack of memory. `IsApart` says that lack of memory is no refusal. `Asks` says that a
// call only asked: it added new questions to the journal, and their answers to the table.
ghost use Rattle.drv_machine.specs.declared.fault.MachineFault.TheVariants as machine_fault;
ghost use Rattle.drv_plan.specs.declared.fault.PlanFault.TheVariants as plan_fault;
ghost use Rattle.drv_run.specs.Drives.{Comes, IsApart, files_loaded, specs_of, specs_over, work_of};
ghost use Rattle.drv_run.specs.Code.Deciding.{ComesOfLine};
ghost use Rattle.drv_search.specs.Search.{prefixes_of};
ghost use Rattle.drv_specs.specs.declared.fault.SpecsFault.TheVariants as specs_fault;
ghost use Rattle.drv_system.specs.Asking.{Asks, Extends};
ghost use Rattle.drv_system.specs.Code.Asked.{Asked};
ghost use Rattle.drv_system.specs.Facts.{Facts};
ghost use Rattle.drv_system.specs.Gives.{GivesKnown};
ghost use Rattle.drv_system.specs.Known.{Is};
ghost use Rattle.std.specs.Prelude.{◌≡◌, ◌≢◌, IfErr, IfOk};

use crate::ending::Ending;
use crate::reading::line_of_args;
use crate::work::{Work, work_with};
use drv_args::{Line, Settings};
use drv_plan::{PlanFault, Specified, plan_along};
use drv_search::Prefixes;
use drv_specs::{SpecSet, SpecsFault, builtin};
use drv_system::{FactTable, Outside, System};
use drv_words::{Listing, Word};
use std::alloc::{AllocError, Global};

/// A set with files of specs loaded, in their order. No copy of it is made.
#[tactic(auto, using(drv_system::proofs::AskedCalls::asked_further))]
fn load_files<S: System>(
    set: SpecSet,
    names: &[Word],
    prefixes: &Prefixes,
    outside: &mut Outside<'_, S>,
) -> Result<SpecSet, SpecsFault>
    ensures asks { Asked S.events outside.old outside.new }
    ensures loads { (F : Facts) → Extends outside.new.facts.now F
        → GivesKnown specs_fault.Memory (λ loaded. loaded) result
        (files_loaded F prefixes.now set names.now) }
{
    let mut loaded = set;
    for name in names {
        loaded = loaded.with_file(name, prefixes, outside.sys, outside.facts)?;
    }
    Ok(loaded)
}

/// The specs of a line over a set, along the prefixes of its `-B`: what the files of `-specs=` make
/// of it, in the line's order. It asks the system only where the table has no answer.
///
/// # Errors
/// The refusal of the first file that is refused.
pub fn load_along<S: System>(
    set: SpecSet,
    settings: &Settings,
    prefixes: &Prefixes,
    sys: &mut S,
    facts: &mut FactTable,
) -> Result<SpecSet, SpecsFault>
    ensures asks { Asks (S.events sys.old) (S.events sys.new) facts.old facts.new }
    ensures loads { (F : Facts) → Extends facts.new F
        → prefixes_of F settings.now.prefixes ≡ Is prefixes.now
        → GivesKnown specs_fault.Memory (λ loaded. loaded) result
        (specs_over F set settings.now) }
{
    load_files(
        set,
        settings.specs.as_slice(),
        prefixes,
        &mut Outside { sys, facts },
    )
}

/// The specs of a line over a set, as `load_along` gives them. The prefixes of `-B` are found first.
///
/// # Errors
/// Those of `load_along`.
#[tactic(auto, using(drv_system::proofs::Asking::asks_then))]
pub fn load_specs<S: System>(
    alloc: Global,
    set: SpecSet,
    settings: &Settings,
    sys: &mut S,
    facts: &mut FactTable,
) -> Result<SpecSet, SpecsFault>
    ensures asks { Asks (S.events sys.old) (S.events sys.new) facts.old facts.new }
    ensures loads { (F : Facts) → Extends facts.new F
        → GivesKnown specs_fault.Memory (λ loaded. loaded) result
        (specs_over F set settings.now) }
{
    let prefixes = Prefixes::new(alloc, settings.prefixes.as_slice(), sys, facts)?;
    load_along(set, settings, &prefixes, sys, facts)
}

/// The prefixes of a line's `-B`.
fn prefixes_of<S: System>(
    alloc: Global,
    settings: &Settings,
    outside: &mut Outside<'_, S>,
) -> Result<Prefixes, AllocError>
    ensures asks { Asked S.events outside.old outside.new }
    ensures prefixes { (F : Facts) → Extends outside.new.facts.now F
        → IfOk result (λ prefixes. prefixes_of F settings.now.prefixes ≡ Is prefixes) }
{
    Prefixes::new(
        alloc,
        settings.prefixes.as_slice(),
        outside.sys,
        outside.facts,
    )
}

/// The specs of a line, along the prefixes of its `-B`: the built-in ones, and what the files of
/// `-specs=` make of them.
fn specs_along<S: System>(
    alloc: Global,
    settings: &Settings,
    prefixes: &Prefixes,
    outside: &mut Outside<'_, S>,
) -> Result<SpecSet, SpecsFault>
    ensures asks { Asked S.events outside.old outside.new }
    ensures loads { (F : Facts) → Extends outside.new.facts.now F
        → prefixes_of F settings.now.prefixes ≡ Is prefixes.now
        → GivesKnown specs_fault.Memory (λ set. set) result (specs_of F settings.now) }
{
    let set = builtin(alloc)?;
    load_along(set, settings, prefixes, outside.sys, outside.facts)
}

/// What a line with these specs asks for, along the prefixes of its `-B`: their dump, or its plan
/// with what is done with it (GCC manual, "Overall Options", `-dumpspecs` and `-###`). The seed is
/// for the names of temporaries. It asks the system only where the table has no answer.
///
/// # Errors
/// The refusal of the plan.
#[tactic(auto, using(drv_system::proofs::Asking::asks_nothing))]
pub fn work_along<S: System>(
    alloc: Global,
    given: &Specified<'_>,
    prefixes: &Prefixes,
    sys: &mut S,
    facts: &mut FactTable,
) -> Result<Work, PlanFault>
    ensures asks { Asks (S.events sys.old) (S.events sys.new) facts.old facts.new }
    ensures works { (F : Facts) → Extends facts.new F
        → prefixes_of F given.now.line.now.settings.prefixes ≡ Is prefixes.now
        → GivesKnown plan_fault.Memory (λ work. work) result
        (work_of F given.now.line.now given.now.set.now given.now.seed) }
    ensures apart { IfErr result (λ fault. fault ≢ PlanFault.Machine machine_fault.Memory) }
{
    if given.line.settings.dump {
        return Ok(Work::Dump(given.set.dump()?));
    }
    let plan = plan_along(alloc, given, prefixes, sys, facts)?;
    Ok(work_with(&given.line.settings, plan))
}

/// What a line with these specs asks for, as `work_along` gives it. The prefixes of its `-B` are
/// found first.
///
/// # Errors
/// Those of `work_along`.
#[tactic(auto, using(drv_system::proofs::Asking::asks_then))]
pub fn work_of<S: System>(
    alloc: Global,
    given: &Specified<'_>,
    sys: &mut S,
    facts: &mut FactTable,
) -> Result<Work, PlanFault>
    ensures asks { Asks (S.events sys.old) (S.events sys.new) facts.old facts.new }
    ensures works { (F : Facts) → Extends facts.new F
        → GivesKnown plan_fault.Memory (λ work. work) result
        (work_of F given.now.line.now given.now.set.now given.now.seed) }
    ensures apart { IfErr result (λ fault. fault ≢ PlanFault.Machine machine_fault.Memory) }
{
    let prefixes = Prefixes::new(alloc, given.line.settings.prefixes.as_slice(), sys, facts)?;
    work_along(alloc, given, &prefixes, sys, facts)
}

/// What a line asks for: its spec files are loaded first. The prefixes of its `-B` are found once.
/// It asks the system only where the table has no answer.
///
/// # Errors
/// The first refusal: of a spec file, or of the plan.
#[tactic(auto, using(drv_system::proofs::AskedCalls::asked_further))]
fn work_of_line<S: System>(
    alloc: Global,
    line: &Line,
    seed: u32,
    outside: &mut Outside<'_, S>,
) -> Result<Work, Ending>
    ensures asks { Asked S.events outside.old outside.new }
    ensures comes { (F : Facts) → Extends outside.new.facts.now F → ComesOfLine F line.now seed result }
    ensures apart { IfErr result (λ ending. IsApart ending) }
{
    let prefixes = prefixes_of(alloc, &line.settings, outside)?;
    let set = specs_along(alloc, &line.settings, &prefixes, outside)?;
    let given = Specified {
        line,
        set: &set,
        seed,
    };
    let work = work_along(alloc, &given, &prefixes, outside.sys, outside.facts)?;
    Ok(work)
}

/// What arguments ask for: the words of the line read, spec files loaded, and then the dump of the
/// specs, or the plan of the line with what is done with it. It asks the system only where the
/// table has no answer.
///
/// # Errors
/// The first refusal of these steps.
#[tactic(auto, using(drv_system::proofs::AskedCalls::asked_further))]
fn work_of_args<S: System>(
    alloc: Global,
    args: Listing<Word>,
    seed: u32,
    outside: &mut Outside<'_, S>,
) -> Result<Work, Ending>
    ensures asks { Asked S.events outside.old outside.new }
    ensures comes { (F : Facts) → Extends outside.new.facts.now F → Comes F args seed result }
    ensures apart { IfErr result (λ ending. IsApart ending) }
{
    let line = line_of_args(alloc, args, outside)?;
    work_of_line(alloc, &line, seed, outside)
}

/// What a call with these arguments asks for, before anything is done: `drive` does it. It asks the
/// system only where the table has no answer.
///
/// # Errors
/// The first refusal: of the words, of a spec file, or of the plan.
pub fn work_of_call<S: System>(
    alloc: Global,
    args: Listing<Word>,
    seed: u32,
    sys: &mut S,
    facts: &mut FactTable,
) -> Result<Work, Ending>
    ensures asks { Asks (S.events sys.old) (S.events sys.new) facts.old facts.new }
    ensures comes { (F : Facts) → Extends facts.new F → Comes F args seed result }
    ensures apart { IfErr result (λ ending. IsApart ending) }
{
    work_of_args(alloc, args, seed, &mut Outside { sys, facts })
}
