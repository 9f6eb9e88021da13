//! Sources among the inputs of a line.

ghost use Rattle.drv_compile.specs.Code.Working.{Judges};
ghost use Rattle.drv_compile.specs.Runs.{has_several, is_source};
ghost use Rattle.std.specs.Prelude.{◌≡◌, IfOk, count_by};

use drv_args::{ArgsFault, Input, Line, stops};
use drv_plan::{PlanFault, language};
use drv_specs::SpecSet;
use std::alloc::{AllocError, Global};

/// Whether an input is a source: it has a compiler, installed or not.
fn is_source(alloc: Global, set: &SpecSet, input: &Input) -> Result<bool, AllocError>
    ensures { IfOk result (λ found. found ≡ is_source set.now input.now) }
{
    match language(alloc, input, set) {
        Ok(chosen) => Ok(chosen.is_some()),
        Err(PlanFault::Memory) => Err(AllocError),
        Err(PlanFault::NotInstalled(_)) => Ok(true),
        Err(PlanFault::UnknownLanguage(_) | PlanFault::Machine(_)) => Ok(false),
    }
}

/// How many inputs are sources.
fn source_count(alloc: Global, set: &SpecSet, inputs: &[Input]) -> Result<usize, AllocError>
    ensures { IfOk result (λ count. count ≡ count_by (is_source set.now) inputs.now) }
{
    let mut count: usize = 0;
    for input in inputs {
        count += usize::from(is_source(alloc, set, input)?);
    }
    Ok(count)
}

/// Whether one output is named for several sources, where no link follows.
fn has_several(alloc: Global, set: &SpecSet, line: &Line) -> Result<bool, AllocError>
    ensures { IfOk result (λ found. found ≡ has_several set.now line.now) }
{
    if line.settings.output.is_none() || !stops(line) {
        return Ok(false);
    }
    Ok(source_count(alloc, set, line.inputs.as_slice())? > 1)
}

/// Refuses a line that names one output for several sources.
///
/// # Errors
/// `OutputWithMany`, or `Memory`.
pub(crate) fn refuse_several(alloc: Global, set: &SpecSet, line: &Line) -> Result<(), ArgsFault>
    ensures { Judges set.now line.now result }
{
    if has_several(alloc, set, line)? {
        return Err(ArgsFault::OutputWithMany);
    }
    Ok(())
}
