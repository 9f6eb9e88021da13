//! The inputs of a line, one after another. For a source the text of its language is run.

// In clauses: `GivesKnown` says that a result is the one defined over the facts, or lack of memory.
// `Extends F G` says that G has every answer of F. `Asked` says that a call only asked, and that
// the table has the answers.
ghost use Rattle.drv_plan.specs.Denoted.{with_file, with_input, with_inputs};
ghost use Rattle.drv_system.specs.Asking.{Extends};
ghost use Rattle.drv_system.specs.Code.Asked.{Asked};
ghost use Rattle.drv_system.specs.Facts.{Facts};
ghost use Rattle.drv_system.specs.Gives.{GivesKnown};
ghost use Rattle.std.specs.Prelude.{◌≡◌, Ok};

use crate::PlanFault;
use crate::languages::{Chosen, language};
use crate::progress::{Placed, Progress};
use crate::working::Work;
use drv_args::Input;
use drv_machine::Source;
use drv_specs::SpecSet;
use drv_system::{Outside, System};
use drv_words::Word;
use std::alloc::Global;

/// The source of this name, with the language that was chosen for it.
fn source_of<'a>(name: &'a Word, chosen: &Chosen<'a>) -> Source<'a>
    ensures { result ≡ record { name = name.now; language = chosen.now.name } }
{
    Source {
        name: name.as_bytes(),
        language: chosen.name,
    }
}

/// Adds a file: runs its text, or leaves it to the linker.
fn add_file<'a, S: System, W: Work>(
    alloc: Global,
    name: Placed<&'a Word>,
    chosen: Option<Chosen<'a>>,
    progress: &mut Progress<'a>,
    outside: &mut Outside<'_, S>,
    worker: &mut W,
) -> Result<(), PlanFault>
    ensures asks { Asked S.events outside.old outside.new }
    ensures works { (F : Facts) → Extends outside.new.facts.now F
        → GivesKnown PlanFault.Memory (λ _. progress.new) result
        (with_file F name.entry.place name.entry.of.now (Ok chosen.entry) progress.old) }
{
    let Some(chosen) = chosen else {
        progress.add_object(name.of)?;
        return Ok(());
    };
    let source = source_of(name.of, &chosen);
    let placed = Placed {
        place: name.place,
        of: source,
    };
    progress.add_source(alloc, placed, chosen.tree, outside, worker)
}

/// Adds an input: a file in its language, or a word for the link, which has none.
fn add_input<'a, S: System, W: Work>(
    alloc: Global,
    set: &'a SpecSet,
    input: Placed<&'a Input>,
    progress: &mut Progress<'a>,
    outside: &mut Outside<'_, S>,
    worker: &mut W,
) -> Result<(), PlanFault>
    ensures asks { Asked S.events outside.old outside.new }
    ensures works { (F : Facts) → Extends outside.new.facts.now F
        → GivesKnown PlanFault.Memory (λ _. progress.new) result
        (with_input F set.now input.entry.place input.entry.of.now progress.old) }
{
    match input.of {
        Input::File { name, .. } => {
            let chosen = language(alloc, input.of, set)?;
            let named = Placed {
                place: input.place,
                of: name,
            };
            add_file(alloc, named, chosen, progress, outside, worker)
        }
        Input::Library(word) => {
            progress.add_word(word)?;
            Ok(())
        }
        Input::LinkWord(word) => {
            progress.add_word(word)?;
            Ok(())
        }
    }
}

/// Adds the inputs of a line in order. The system is asked only if the table has no answer.
///
/// # Errors
/// The first refusal in the order of the inputs: that of a file's language, or the machine's
/// refusal of its text.
#[tactic(auto, using(drv_system::proofs::AskedCalls::asked_further))]
pub(crate) fn add_inputs<'a, S: System, W: Work>(
    alloc: Global,
    set: &'a SpecSet,
    inputs: &'a [Input],
    progress: &mut Progress<'a>,
    outside: &mut Outside<'_, S>,
    worker: &mut W,
) -> Result<(), PlanFault>
    ensures asks { Asked S.events outside.old outside.new }
    ensures works { (F : Facts) → Extends outside.new.facts.now F
        → GivesKnown PlanFault.Memory (λ _. progress.new) result
        (with_inputs F set.now 0 inputs.now progress.old) }
{
    for (place, input) in inputs.iter().enumerate() {
        add_input(
            alloc,
            set,
            Placed { place, of: input },
            progress,
            outside,
            worker,
        )?;
    }
    Ok(())
}
