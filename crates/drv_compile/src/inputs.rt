//! What is asked of a line that is carried out, before anything is started.

// In clauses: `Asked` says that a call only asked, and that the table has the answers. `Tells` says
// that a result is that of a definition, by any facts that extend what is known.
ghost use Rattle.drv_compile.specs.Inputs.{absent_by, absent_of, objection};
ghost use Rattle.drv_search.specs.Code.Telling.{Tells};
ghost use Rattle.drv_system.specs.Code.Asked.{Asked};
ghost use Rattle.std.specs.Prelude.{◌≡◌, ◌++◌, OnOk};

use crate::deciding::variable;
use crate::wording::{add_absent, variable_text};
use drv_system::{Outside, PathKind, System};
use drv_words::Word;
use std::alloc::{AllocError, Global};

/// Adds the text about an input, if it isn't there.
fn add_if_absent(
    text: &mut Word,
    name: &[u8],
    path: &[u8],
    kind: PathKind,
) -> Result<(), AllocError>
    ensures { OnOk result (text.new ≡ text.old ++ absent_by name.now path.now kind) }
{
    match kind {
        PathKind::Missing => add_absent(text, name, path),
        PathKind::Plain | PathKind::Dir | PathKind::Other => Ok(()),
    }
}

/// The text about the inputs that are not there.
#[tactic(auto, using(drv_system::proofs::AskedCalls::asked_none))]
fn absent_inputs_text<S: System>(
    alloc: Global,
    name: &[u8],
    inputs: &[Word],
    outside: &mut Outside<'_, S>,
) -> Result<Word, AllocError>
    ensures asks { Asked S.events outside.old outside.new }
    ensures text { Tells outside.new result (λ F. absent_of F name.now inputs.now) }
{
    let mut text = Word::empty(alloc);
    for input in inputs {
        let kind = outside.facts.kind(outside.sys, input)?;
        add_if_absent(&mut text, name, input.as_bytes(), kind)?;
    }
    Ok(text)
}

/// The text that refuses a line: about a variable that gcc's driver takes, or else about missing
/// inputs. It is empty if nothing refuses the line.
#[tactic(auto, using(drv_system::proofs::AskedCalls::asked_further))]
pub(crate) fn objection<S: System>(
    alloc: Global,
    name: &[u8],
    inputs: &[Word],
    outside: &mut Outside<'_, S>,
) -> Result<Word, AllocError>
    ensures asks { Asked S.events outside.old outside.new }
    ensures text { Tells outside.new result (λ F. objection F name.now inputs.now) }
{
    let value = variable(alloc, b"GCC_EXEC_PREFIX", outside)?;
    if value.is_some() {
        return variable_text(alloc, name);
    }
    absent_inputs_text(alloc, name, inputs, outside)
}
