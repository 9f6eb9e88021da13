//! The walk over spec files: their faults, up to a number of them, and the files that they include.

// In clauses: `Extends F G` says that G has every answer of F. `Asked` says that a call only asked,
// and that the table has the answers.
ghost use Rattle.drv_check.specs.Checked.{checked, checked_over};
ghost use Rattle.drv_check.specs.Checks.{all_called, called, file_checked, is_full, most_faults};
ghost use Rattle.drv_check.specs.Origins.{sources_found, sources_of};
ghost use Rattle.drv_system.specs.Asking.{Asks, Extends};
ghost use Rattle.drv_system.specs.Code.Asked.{Asked};
ghost use Rattle.drv_system.specs.Facts.{Facts};
ghost use Rattle.drv_system.specs.Known.{Is};
ghost use Rattle.std.specs.Prelude.{◌≡◌, IfOk};

use crate::findings::{Checking, MOST_FAULTS, MOST_FILES, Source, is_full, unchecked_over};
use crate::judging::judge;
use crate::known_names::Names;
use crate::opening::{FilePiece, Inclusion, Nesting, OpenFile, Search, Telling, open};
use crate::stepping::step;
use drv_search::Prefixes;
use drv_specs::{IfMissing, builtin};
use drv_system::{FactTable, Outside, System};
use drv_words::{Listing, Word};
use std::alloc::{AllocError, Global};

/// The most files that include one another.
const MOST_LEVELS: usize = 16;

/// Checks an open file, within which `levels` more files may be nested.
fn check_file<S: System>(
    search: &Search<'_>,
    checking: &mut Checking,
    levels: usize,
    file: &OpenFile,
    outside: &mut Outside<'_, S>,
) -> Result<(), AllocError>
    ensures asks { Asked S.events outside.old outside.new }
    ensures checks { (F : Facts) → Extends outside.new.facts.now F
        → IfOk result (λ _. file_checked F search.now.prefixes.now (is_full most_faults)
        levels checking.old file.now ≡ Is checking.new) }
{
    for piece in file.pieces.as_slice() {
        if is_full(checking, MOST_FAULTS) {
            return Ok(());
        }
        let here = FilePiece { file, piece };
        let next = step(search, checking, levels, &here, outside)?;
        let Some(inner) = next else {
            continue;
        };
        check_file(search, checking, levels - 1, &inner, outside)?;
    }
    Ok(())
}

/// Checks a file of the call.
#[tactic(auto, using(drv_system::proofs::AskedCalls::asked_further))]
fn check_called<S: System>(
    search: &Search<'_>,
    checking: &mut Checking,
    name: &Word,
    outside: &mut Outside<'_, S>,
) -> Result<(), AllocError>
    ensures asks { Asked S.events outside.old outside.new }
    ensures checks { (F : Facts) → Extends outside.new.facts.now F
        → IfOk result (λ _. called F search.now.prefixes.now (is_full most_faults) checking.old
        name.now ≡ Is checking.new) }
{
    checking.files = MOST_FILES;
    let inclusion = Inclusion {
        if_missing: IfMissing::Refuse,
        file: name.clone()?,
    };
    let nesting = Nesting {
        from: None,
        levels: MOST_LEVELS,
    };
    match open(search, checking, nesting, &inclusion, outside)? {
        Some(file) => check_file(search, checking, MOST_LEVELS - 1, &file, outside),
        None => Ok(()),
    }
}

/// Checks the files of the call. After the last fault nothing more is asked.
#[tactic(auto, using(drv_system::proofs::AskedCalls::asked_further))]
pub(crate) fn check_all<S: System>(
    search: &Search<'_>,
    checking: &mut Checking,
    names: &[Word],
    outside: &mut Outside<'_, S>,
) -> Result<(), AllocError>
    ensures asks { Asked S.events outside.old outside.new }
    ensures checks { (F : Facts) → Extends outside.new.facts.now F
        → IfOk result (λ _. all_called F search.now.prefixes.now (is_full most_faults) checking.old
        names.now ≡ Is checking.new) }
{
    for name in names {
        if is_full(checking, MOST_FAULTS) {
            return Ok(());
        }
        check_called(search, checking, name, outside)?;
    }
    Ok(())
}

/// Files to be checked, and for whom.
#[derive(Clone, Copy)]
pub struct FileCheck<'a> {
    /// For whom the files are.
    pub whose: Names,
    /// The paths of the files that are loaded first.
    pub over: &'a [Word],
    /// The paths of the files.
    pub names: &'a [Word],
}

/// Checks files over the built-in set and over those that are loaded first.
#[tactic(auto, using(drv_system::proofs::AskedCalls::asked_further))]
fn check_over<S: System>(
    alloc: Global,
    prefixes: &Prefixes,
    files: &FileCheck<'_>,
    outside: &mut Outside<'_, S>,
) -> Result<Checking, AllocError>
    ensures asks { Asked S.events outside.old outside.new }
    ensures checks { (F : Facts) → Extends outside.new.facts.now F
        → IfOk result (λ checking. checked_over F prefixes.now
        files.now.whose files.now.over.now files.now.names.now ≡ Is checking) }
{
    let set = builtin(alloc)?;
    let mut checking = unchecked_over(alloc, files.whose, set);
    let first = Search {
        alloc,
        prefixes,
        telling: Telling::Faults,
    };
    check_all(&first, &mut checking, files.over, outside)?;
    let search = Search {
        alloc,
        prefixes,
        telling: Telling::Warnings,
    };
    check_all(&search, &mut checking, files.names, outside)?;
    judge(alloc, &mut checking)?;
    Ok(checking)
}

/// All faults of spec files and what is surely not meant, in the order of their lines, those of an
/// included file in its place (GCC manual, "Spec Files"); then what shows only in the whole of them.
/// Each file is loaded over the built-in set and what the earlier ones made of it, and found as
/// `-specs=` finds it; `over` are loaded first, and of them only the faults are given. A directive
/// that is refused changes nothing, and the check goes on up to `MOST_FAULTS` faults. A text that
/// counts as run needs no text that names it. It asks the system only where the table has no answer.
///
/// # Errors
/// Lack of memory; nothing else is refused.
pub fn check_files<S: System>(
    alloc: Global,
    check: &FileCheck<'_>,
    sys: &mut S,
    facts: &mut FactTable,
) -> Result<Checking, AllocError>
    ensures asks { Asks (S.events sys.old) (S.events sys.new) facts.old facts.new }
    ensures checks { (F : Facts) → Extends facts.new F
        → IfOk result (λ checking. checked F check.now.whose check.now.over.now check.now.names.now
        ≡ Is checking) }
{
    let prefixes = Prefixes::new(alloc, &[], sys, facts)?;
    check_over(alloc, &prefixes, check, &mut Outside { sys, facts })
}

/// The files that a line loads into the built-in set, along prefixes that were found.
fn sources_found<S: System>(
    search: &Search<'_>,
    names: &[Word],
    outside: &mut Outside<'_, S>,
) -> Result<Listing<Source>, AllocError>
    ensures asks { Asked S.events outside.old outside.new }
    ensures opens { (F : Facts) → Extends outside.new.facts.now F
        → IfOk result (λ sources. sources_found F search.now.prefixes.now names.now ≡ Is sources) }
{
    let set = builtin(search.alloc)?;
    let mut checking = unchecked_over(search.alloc, Names::Driver, set);
    check_all(search, &mut checking, names, outside)?;
    Ok(checking.sources)
}

/// The files that a line loads into the built-in set, in the order in which they are opened: each of
/// these names, found along these prefixes, and those that it includes. Behind `MOST_FAULTS` faults
/// no more are opened. It asks the system only where the table has no answer.
///
/// # Errors
/// Lack of memory; nothing is refused.
pub fn sources_of<S: System>(
    alloc: Global,
    prefixes: &[Word],
    names: &[Word],
    sys: &mut S,
    facts: &mut FactTable,
) -> Result<Listing<Source>, AllocError>
    ensures asks { Asks (S.events sys.old) (S.events sys.new) facts.old facts.new }
    ensures opens { (F : Facts) → Extends facts.new F
        → IfOk result (λ sources. sources_of F prefixes.now names.now ≡ Is sources) }
{
    let found = Prefixes::new(alloc, prefixes, sys, facts)?;
    let search = Search {
        alloc,
        prefixes: &found,
        telling: Telling::Faults,
    };
    sources_found(&search, names, &mut Outside { sys, facts })
}
