//! The words of a line: response files expanded, and those of `c99` turned into the driver's.

// In clauses: `Extends F G` says that G has every answer of F. `Asked` says that a call only asked,
// and that the table has the answers. `Gives` says that a result is the defined one, or lack of
// memory.
ghost use Rattle.drv_c99.specs.declared.fault.C99Fault.TheVariants as c99_fault;
ghost use Rattle.drv_run.specs.Drives.{IsApart, after_c99, fronted, is_c99};
ghost use Rattle.drv_run.specs.Code.Fronting.{is_of_c99};
ghost use Rattle.drv_run.specs.Code.Wording.{GivesWords};
ghost use Rattle.drv_system.specs.Asking.{Extends};
ghost use Rattle.drv_system.specs.Code.Asked.{Asked};
ghost use Rattle.drv_system.specs.Facts.{Facts};
ghost use Rattle.drv_words.specs.Gives.{Gives};
ghost use Rattle.std.specs.Prelude.{◌≡◌, IfErr};

use crate::ending::Ending;
use drv_args::{Expanded, expand};
use drv_c99::C99Fault;
use drv_system::{Outside, System};
use drv_words::{Listing, Word};
use std::alloc::Global;

/// The front that makes words of the driver of the words of a line.
#[derive(Clone, Copy)]
enum Front {
    /// They are the driver's own.
    Driver,
    /// They are those of `c99`.
    C99,
}

/// Whether the first argument selects the front of `c99`.
fn is_c99(args: &[Word]) -> bool
    ensures { result ≡ is_c99 args.now }
{
    match args {
        [word, ..] => word.as_bytes() == b"--c99".as_slice(),
        _ => false,
    }
}

/// The front that is selected, and the arguments after what selects it. The call allocates nothing.
fn cut_front(args: Listing<Word>) -> (Front, Listing<Word>)
    ensures front { is_of_c99 result.0 ≡ is_c99 args }
    ensures following { result.1 ≡ after_c99 args }
{
    // The word itself is none of the line's.
    if is_c99(args.as_slice()) {
        let mut words = args.into_vec();
        let _ = words.remove(0);
        return (Front::C99, Listing::from_vec(words));
    }
    (Front::Driver, args)
}

/// The words of a front as words of the driver.
fn front_words(alloc: Global, selected: Front, expanded: Expanded) -> Result<Expanded, C99Fault>
    ensures { Gives c99_fault.Memory (λ words. words) result
        (fronted (is_of_c99 selected) expanded) }
{
    match selected {
        Front::Driver => Ok(expanded),
        Front::C99 => {
            let words = drv_c99::front(alloc, expanded.words.as_slice())?;
            Ok(Expanded { words, ..expanded })
        }
    }
}

/// The words that arguments give. It asks the system only where the table has no answer.
///
/// # Errors
/// The refusal of the response files, or of `c99`.
#[tactic(auto, using(drv_system::proofs::AskedCalls::asked_further))]
pub(crate) fn words_of<S: System>(
    alloc: Global,
    args: Listing<Word>,
    outside: &mut Outside<'_, S>,
) -> Result<Expanded, Ending>
    ensures asks { Asked S.events outside.old outside.new }
    ensures gives { (F : Facts) → Extends outside.new.facts.now F → GivesWords F args result }
    ensures apart { IfErr result (λ ending. IsApart ending) }
{
    let (selected, following) = cut_front(args);
    let expanded = expand(alloc, following, outside.sys, outside.facts)?;
    let words = front_words(alloc, selected, expanded)?;
    Ok(words)
}
