//! Where spec files are refused, as a note.

// In clauses: `Asked` says that a call only asked, and that the table has the answers.
ghost use Rattle.drv_system.specs.Asking.{Asks};
ghost use Rattle.drv_system.specs.Code.Asked.{Asked};

use crate::checking::check_all;
use crate::findings::{Source, Spot, unchecked_over};
use crate::known_names::Names;
use crate::opening::{Search, Telling};
use crate::spots::place_in;
use crate::told::push_place;
use drv_search::Prefixes;
use drv_specs::SpecSet;
use drv_system::{FactTable, Outside, System};
use drv_words::{Listing, Word};
use std::alloc::{AllocError, Global};

/// The note of a place, if it is in a file.
fn note_at(alloc: Global, sources: &[Source], spot: Option<Spot>) -> Result<Word, AllocError> {
    let mut note = Word::empty(alloc);
    let Some(spot) = spot else {
        return Ok(note);
    };
    if let Some(source) = sources.get(spot.source) {
        push_place(&mut note, &place_in(source, spot.at)?)?;
        note.extend_from_slice(b": note: refused here\n")?;
    }
    Ok(note)
}

/// The note of files, each found along these prefixes.
fn note_along<S: System>(
    search: &Search<'_>,
    set: SpecSet,
    names: &[Word],
    outside: &mut Outside<'_, S>,
) -> Result<Word, AllocError>
    ensures { Asked S.events outside.old outside.new }
{
    let mut checking = unchecked_over(search.alloc, Names::Driver, set);
    check_all(search, &mut checking, names, outside)?;
    // The first fault is the driver's refusal.
    let spot = match checking.findings.faults() {
        [first, ..] => first.spot,
        [] => None,
    };
    note_at(search.alloc, checking.sources.as_slice(), spot)
}

/// Spec files that a line names.
#[derive(Clone, Copy)]
pub struct SpecFiles<'a> {
    /// The folders of `-B`, along which each is found.
    pub folders: &'a [Word],
    pub names: &'a [Word],
}

/// Where the driver refuses files that are loaded over a set, in their order, as a note: the place
/// of the first fault in its file. There is no note where none of them is refused, or where the
/// fault is in no file. It asks the system only where the table has no answer.
///
/// # Errors
/// Lack of memory; nothing else is refused.
pub fn fault_note<S: System>(
    alloc: Global,
    set: SpecSet,
    files: &SpecFiles<'_>,
    sys: &mut S,
    facts: &mut FactTable,
) -> Result<Word, AllocError>
    ensures { Asks (S.events sys.old) (S.events sys.new) facts.old facts.new }
{
    let prefixes = Prefixes::new(alloc, files.folders, sys, facts)?;
    let search = Search {
        alloc,
        prefixes: &prefixes,
        telling: Telling::Faults,
    };
    note_along(&search, set, files.names, &mut Outside { sys, facts })
}
