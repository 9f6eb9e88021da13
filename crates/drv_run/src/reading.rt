//! The line of a call.

// In clauses: `Extends F G` says that G has every answer of F. `IsApart` says that lack of memory
// is no refusal. `IsUnread` says that a call ended before it had a line. `Asked` says that a call
// only asked, and that the table has the answers.
ghost use Rattle.drv_run.specs.Drives.{IsApart};
ghost use Rattle.drv_run.specs.LineReads.{ComesLine, IsUnread};
ghost use Rattle.drv_system.specs.Asking.{Asks, Extends};
ghost use Rattle.drv_system.specs.Code.Asked.{Asked};
ghost use Rattle.drv_system.specs.Facts.{Facts};
ghost use Rattle.std.specs.Prelude.{IfErr};

use crate::ending::Ending;
use crate::fronting::words_of;
use drv_args::{Line, read};
use drv_system::{FactTable, Outside, System};
use drv_words::{Listing, Word};
use std::alloc::Global;

/// The line of arguments. It asks the system only where the table has no answer.
///
/// # Errors
/// The refusal of the words, or of the line.
#[tactic(auto, using(drv_system::proofs::AskedCalls::asked_further))]
pub(crate) fn line_of_args<S: System>(
    alloc: Global,
    args: Listing<Word>,
    outside: &mut Outside<'_, S>,
) -> Result<Line, Ending>
    ensures asks { Asked S.events outside.old outside.new }
    ensures comes { (F : Facts) → Extends outside.new.facts.now F → ComesLine F args result }
    ensures apart { IfErr result (λ ending. IsApart ending) }
    ensures unread { IfErr result (λ ending. IsUnread ending) }
{
    let words = words_of(alloc, args, outside)?;
    let line = read(alloc, &words)?;
    Ok(line)
}

/// The line of a call with these arguments: their response files expanded, those of `c99` turned
/// into the driver's, and the words read. It asks the system only where the table has no answer.
///
/// # Errors
/// The first refusal of these steps.
pub fn line_of_call<S: System>(
    alloc: Global,
    args: Listing<Word>,
    sys: &mut S,
    facts: &mut FactTable,
) -> Result<Line, Ending>
    ensures asks { Asks (S.events sys.old) (S.events sys.new) facts.old facts.new }
    ensures comes { (F : Facts) → Extends facts.new F → ComesLine F args result }
    ensures apart { IfErr result (λ ending. IsApart ending) }
    ensures unread { IfErr result (λ ending. IsUnread ending) }
{
    line_of_args(alloc, args, &mut Outside { sys, facts })
}
