//! Calls a function of a spec text.

ghost use Rattle.drv_funcs.specs.Outcome.{called};
ghost use Rattle.drv_system.specs.Asking.{Asks, Extends};
ghost use Rattle.drv_system.specs.Code.Asked.{Asked};
ghost use Rattle.drv_system.specs.Facts.{Facts};
ghost use Rattle.drv_system.specs.Gives.{GivesKnown};
ghost use Rattle.std.specs.Prelude.{◌≡◌, OnErr, length};

use crate::comparing::version_compare;
use crate::existing::{getenv, if_exists, if_exists_else, if_exists_then_else};
use crate::outputs::{remove_outfile, replace_outfile};
use crate::{FuncsFault, Function, Outputs, Site};
use drv_match::{Hidden, Switches};
use drv_system::{FactTable, Outside, System};
use drv_words::Word;
use std::alloc::Global;

/// A call of a function.
#[derive(Clone, Copy)]
pub struct FunctionCall<'a> {
    pub function: Function,
    pub args: &'a [Word],
    /// The switches of the line.
    pub switches: &'a Switches<'a>,
    /// Which of them are hidden.
    pub hidden: &'a Hidden,
    /// The text that calls.
    pub site: Site,
}

/// The result of a call: a word, or nothing (GCC manual, "Spec Files"). In the link two functions
/// change the outputs. Otherwise, and after an error, the outputs stay the same.
///
/// # Errors
/// The first of these. `NotInLink`: the function is allowed only in the link. `WrongCount`: it takes
/// another number of arguments; but `BadOperator` comes first if there is a first argument that is
/// not a comparison. `BadVersion`: for the versions in order, and then for the value of the switch.
/// `VariableMissing`.
pub fn call<S: System>(
    alloc: Global,
    call: &FunctionCall<'_>,
    outputs: &mut Outputs,
    sys: &mut S,
    facts: &mut FactTable,
) -> Result<Option<Word>, FuncsFault>
    ensures asks { Asks (S.events sys.old) (S.events sys.new) facts.old facts.new }
    ensures gives { (F : Facts) → Extends facts.new F → GivesKnown FuncsFault.Memory
        (λ word. record { given = word; outputs = outputs.new }) result
        (called F call.now.switches.now call.now.hidden.now call.now.site call.now.function
        call.now.args.now outputs.old) }
    ensures err { OnErr result (outputs.new ≡ outputs.old) }
{
    let args = call.args;
    let outside = &mut Outside { sys, facts };
    match call.function {
        Function::Getenv => getenv(args, outside),
        Function::IfExists => if_exists(args, outside),
        Function::IfExistsElse => if_exists_else(args, outside),
        Function::IfExistsThenElse => if_exists_then_else(args, outside),
        Function::ReplaceOutfile => {
            replace_outfile(args, call.site, outputs)?;
            Ok(None)
        }
        Function::RemoveOutfile => {
            remove_outfile(args, call.site, outputs)?;
            Ok(None)
        }
        Function::VersionCompare => version_compare(alloc, args, call.switches, call.hidden),
    }
}
