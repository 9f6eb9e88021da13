//! The folder of temporaries.

// In clauses: `Extends F G` says that G has every answer of F. `Asked` says that a call only asked,
// and that the table has the answers. `Tells` says that a result is that of a definition, by any
// facts that extend what is known. `TellsMore` says that a list got what a definition gives, by any
// facts that extend what is known. `Noted before after P` says that the host was asked, and that P
// holds of these events.
ghost use Rattle.drv_compile.specs.Settling.{BeginsToGo, Going, IsFolder, IsTried};
ghost use Rattle.drv_compile.specs.Inputs.{Noted};
ghost use Rattle.drv_compile.specs.TempFolder.{Chooses, Tries, folder_names, folders_of_all, if_set};
ghost use Rattle.drv_compile.specs.TempFolder.{named_by};
ghost use Rattle.drv_search.specs.Code.Telling.{Tells, TellsMore};
ghost use Rattle.drv_system.specs.Asking.{Asks, Extends};
ghost use Rattle.drv_system.specs.Code.Asked.{Asked};
ghost use Rattle.drv_system.specs.Facts.{Facts, no_facts};
ghost use Rattle.std.specs.Prelude.{◌≡◌, ◌++◌, IfOk, OnErr, OnOk};

use crate::deciding::variable;
use crate::host::Host;
use drv_system::{FactTable, Outside, System};
use drv_words::{Listing, Word};
use std::alloc::{AllocError, Global};

/// Adds a name, if there is one.
fn push_if_set(names: &mut Listing<Word>, value: Option<Word>) -> Result<(), AllocError>
    ensures { OnOk result (names.new ≡ names.old ++ if_set value) }
{
    if let Some(name) = value {
        names.push(name)?;
    }
    Ok(())
}

/// Adds the value of a variable, if it is set.
fn push_variable<S: System>(
    alloc: Global,
    names: &mut Listing<Word>,
    variable_name: &[u8],
    outside: &mut Outside<'_, S>,
) -> Result<(), AllocError>
    ensures asks { Asked S.events outside.old outside.new }
    ensures names { TellsMore outside.new result (λ F. named_by F variable_name.now)
        names.old names.new }
{
    let value = variable(alloc, variable_name, outside)?;
    push_if_set(names, value)
}

/// Adds the names that no variable has to say.
fn push_folders_of_all(alloc: Global, names: &mut Listing<Word>) -> Result<(), AllocError>
    ensures { OnOk result (names.new ≡ names.old ++ folders_of_all) }
{
    names.push(Word::from_bytes(alloc, b"/tmp")?)?;
    names.push(Word::from_bytes(alloc, b"/var/tmp")?)?;
    Ok(())
}

/// Adds the names that may be that of the folder.
#[tactic(auto, using(drv_system::proofs::AskedCalls::asked_further))]
fn push_names<S: System>(
    alloc: Global,
    names: &mut Listing<Word>,
    outside: &mut Outside<'_, S>,
) -> Result<(), AllocError>
    ensures asks { Asked S.events outside.old outside.new }
    ensures names { TellsMore outside.new result folder_names names.old names.new }
{
    push_variable(alloc, names, b"TMPDIR", outside)?;
    push_variable(alloc, names, b"TMP", outside)?;
    push_variable(alloc, names, b"TEMP", outside)?;
    push_folders_of_all(alloc, names)
}

/// The names that may be that of the folder.
fn folder_names<S: System>(
    alloc: Global,
    outside: &mut Outside<'_, S>,
) -> Result<Listing<Word>, AllocError>
    ensures asks { Asked S.events outside.old outside.new }
    ensures names { Tells outside.new result folder_names }
{
    let mut names = Listing::new(alloc);
    push_names(alloc, &mut names, outside)?;
    Ok(names)
}

/// The first of names that is that of a folder in which files can be made, or else the folder of
/// the call. The host is asked for each name up to the first.
fn first_usable<S: System, H: Host<S>>(
    alloc: Global,
    names: &[Word],
    host: &mut H,
) -> Result<Word, AllocError>
    ensures chooses { Noted (H.notes host.old) (H.notes host.new)
        (λ events. IfOk result (λ folder. Chooses names.now events folder)) }
    ensures tries { Noted (H.notes host.old) (H.notes host.new) (Tries names.now) }
{
    for name in names {
        if host.is_usable(name)? {
            return name.clone();
        }
    }
    Word::from_bytes(alloc, b".")
}

/// The folder of temporaries (GCC, "libiberty/make-temp-file.c", choose_tmpdir).
fn folder_asked<S: System, H: Host<S>>(
    alloc: Global,
    outside: &mut Outside<'_, S>,
    host: &mut H,
) -> Result<Word, AllocError>
    ensures asks { Asked S.events outside.old outside.new }
    ensures folder { Noted (H.notes host.old) (H.notes host.new)
        (λ events. (F : Facts) → Extends outside.new.facts.now F
        → IfOk result (λ folder. IsFolder F events folder)) }
    ensures tries { Noted (H.notes host.old) (H.notes host.new)
        (λ events. (F : Facts) → Extends outside.new.facts.now F → IsTried F events) }
{
    let names = folder_names(alloc, outside)?;
    first_usable(alloc, names.as_slice(), host)
}

/// Asks for the folder of temporaries, and puts it into a table that has no answer yet, as the
/// value of TMPDIR.
pub fn settle<S: System, H: Host<S>>(
    alloc: Global,
    sys: &mut S,
    facts: &mut FactTable,
    host: &mut H,
) -> Result<(), AllocError>
    requires { facts.old ≡ no_facts }
    ensures asks { BeginsToGo (S.events sys.old) (S.events sys.new)
        (H.notes host.old) (H.notes host.new) }
    ensures settles { OnOk result (Going (S.events sys.old) (S.events sys.new)
        (H.notes host.old) (H.notes host.new) facts.new) }
{
    let name = Word::from_bytes(alloc, b"TMPDIR")?;
    let folder = folder_asked(alloc, &mut Outside { sys, facts }, host)?;
    facts.put_variable(&name, Some(folder))
}
