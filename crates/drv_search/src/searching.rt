//! Searches for programs, files and linker scripts.

// In clauses: `Tells` says that a result is that of a definition, by any facts that extend what is
// known. `Asked` says that a call only asked, and that the table has the answers. `Extends F G`
// says that G has every answer of F. `Asks` says that a call only asked: it added new questions to
// the journal, and their answers to the table. `Is` is a value that the facts give.
ghost use Rattle.drv_search.specs.Search.{candidates, candidates_under, file_found, found};
ghost use Rattle.drv_search.specs.Search.{found_or_name, is_plain, is_searched, machine_folder};
ghost use Rattle.drv_search.specs.Search.{program_found, script_found};
ghost use Rattle.drv_search.specs.Code.Telling.{Tells};
ghost use Rattle.drv_search.specs.declared.fault.SearchFault.TheVariants as fault;
ghost use Rattle.drv_system.specs.Asking.{Asks, Extends};
ghost use Rattle.drv_system.specs.Code.Asked.{Asked};
ghost use Rattle.drv_system.specs.Facts.{Facts};
ghost use Rattle.drv_system.specs.Gives.{GivesKnown};
ghost use Rattle.drv_system.specs.Known.{Is};
ghost use Rattle.drv_words.specs.Bytes.{slash};
ghost use Rattle.std.specs.List.{list_any};
ghost use Rattle.std.specs.Prelude.{◌≡◌, ◌==◌, ◌∷◌, ◌++◌, [], IfOk};

use crate::prefixes::machine_folder_under;
use crate::{Prefixes, SearchFault};
use drv_system::{FactTable, Outside, PathKind, System};
use drv_words::Word;
use std::alloc::{AllocError, Global};

/// The path of a name in the machine's folder under a prefix.
fn machine_path(alloc: Global, prefix: &[u8], name: &[u8]) -> Result<Word, AllocError>
    ensures { IfOk result (λ path. path ≡ prefix.now ++ machine_folder ++ name.now) }
{
    let mut path = machine_folder_under(alloc, prefix)?;
    path.extend_from_slice(name)?;
    Ok(path)
}

/// The path of a name in a prefix itself.
fn bare_path(alloc: Global, prefix: &[u8], name: &[u8]) -> Result<Word, AllocError>
    ensures { IfOk result (λ path. path ≡ prefix.now ++ name.now) }
{
    let mut path = Word::from_bytes(alloc, prefix)?;
    path.extend_from_slice(name)?;
    Ok(path)
}

/// Whether a path of this kind is a plain file.
fn is_plain(kind: PathKind) -> bool
    ensures { result ≡ is_plain kind }
{
    matches!(kind, PathKind::Plain)
}

/// The path, if it is that of a plain file.
fn plain_at<S: System>(path: Word, outside: &mut Outside<'_, S>) -> Result<Option<Word>, AllocError>
    ensures asks { Asked S.events outside.old outside.new }
    ensures hit { Tells outside.new result (λ F. found F (path ∷ [])) }
{
    let kind = outside.facts.kind(outside.sys, &path)?;
    Ok(if is_plain(kind) { Some(path) } else { None })
}

/// The file under one prefix: in the folder of the machine, or else in the prefix itself.
#[tactic(auto, using(drv_system::proofs::AskedCalls::asked_further))]
fn found_under<S: System>(
    alloc: Global,
    prefix: &[u8],
    name: &[u8],
    outside: &mut Outside<'_, S>,
) -> Result<Option<Word>, AllocError>
    ensures asks { Asked S.events outside.old outside.new }
    ensures hit { Tells outside.new result (λ F. found F (candidates_under name.now prefix.now)) }
{
    let path = machine_path(alloc, prefix, name)?;
    if let Some(hit) = plain_at(path, outside)? {
        return Ok(Some(hit));
    }
    let path = bare_path(alloc, prefix, name)?;
    plain_at(path, outside)
}

/// The first file under these prefixes. After a hit no question is asked.
#[tactic(auto, using(drv_system::proofs::AskedCalls::asked_further))]
fn search<S: System>(
    alloc: Global,
    prefixes: &[Word],
    name: &[u8],
    outside: &mut Outside<'_, S>,
) -> Result<Option<Word>, AllocError>
    ensures asks { Asked S.events outside.old outside.new }
    ensures hit { Tells outside.new result (λ F. found F (candidates prefixes.now name.now)) }
{
    for prefix in prefixes {
        if let Some(hit) = found_under(alloc, prefix.as_bytes(), name, outside)? {
            return Ok(Some(hit));
        }
    }
    Ok(None)
}

/// Whether a name has a slash.
fn has_slash(name: &[u8]) -> bool
    ensures { result ≡ list_any (λ b. b == slash) name.now }
{
    name.contains(&b'/')
}

/// Whether a name is searched for.
fn is_searched(name: &[u8]) -> bool
    ensures { result ≡ is_searched name.now }
{
    !name.is_empty() && !has_slash(name)
}

/// The file that is found, or else the name.
fn found_or_name<S: System>(
    alloc: Global,
    prefixes: &[Word],
    name: &Word,
    outside: &mut Outside<'_, S>,
) -> Result<Word, AllocError>
    ensures asks { Asked S.events outside.old outside.new }
    ensures path { Tells outside.new result (λ F. found_or_name F prefixes.now name.now) }
{
    if !is_searched(name.as_bytes()) {
        return name.clone();
    }
    match search(alloc, prefixes, name.as_bytes(), outside)? {
        Some(path) => Ok(path),
        None => name.clone(),
    }
}

/// The program of that name: the first plain file among its candidates. A name that is empty, has a
/// slash or isn't found is returned as it is (GCC manual, "Directory Options", -B).
pub fn find_program<S: System>(
    alloc: Global,
    prefixes: &Prefixes,
    name: &Word,
    sys: &mut S,
    facts: &mut FactTable,
) -> Result<Word, AllocError>
    ensures asks { Asks (S.events sys.old) (S.events sys.new) facts.old facts.new }
    ensures path { (F : Facts) → Extends facts.new F
        → IfOk result (λ path. program_found F prefixes.now name.now ≡ Is path) }
{
    let outside = &mut Outside { sys, facts };
    found_or_name(alloc, prefixes.programs.as_slice(), name, outside)
}

/// The file of that name for the linker or the specs: the first plain file among its candidates. A
/// name that is empty, has a slash or isn't found is returned as it is.
pub fn find_file<S: System>(
    alloc: Global,
    prefixes: &Prefixes,
    name: &Word,
    sys: &mut S,
    facts: &mut FactTable,
) -> Result<Word, AllocError>
    ensures asks { Asks (S.events sys.old) (S.events sys.new) facts.old facts.new }
    ensures path { (F : Facts) → Extends facts.new F
        → IfOk result (λ path. file_found F prefixes.now name.now ≡ Is path) }
{
    let outside = &mut Outside { sys, facts };
    found_or_name(alloc, prefixes.libraries.as_slice(), name, outside)
}

/// The linker script of that name. A name with a slash must be the path of a plain file; any other
/// name is searched for.
///
/// # Errors
/// `ScriptMissing` with the name, if there is none.
pub fn find_script<S: System>(
    alloc: Global,
    prefixes: &Prefixes,
    name: &Word,
    sys: &mut S,
    facts: &mut FactTable,
) -> Result<Word, SearchFault>
    ensures asks { Asks (S.events sys.old) (S.events sys.new) facts.old facts.new }
    ensures path { (F : Facts) → Extends facts.new F
        → GivesKnown fault.Memory (λ path. path) result (script_found F prefixes.now name.now) }
{
    let outside = &mut Outside { sys, facts };
    // A name with a folder is not searched for.
    let hit = if has_slash(name.as_bytes()) {
        plain_at(name.clone()?, outside)?
    } else {
        let libraries = prefixes.libraries.as_slice();
        search(alloc, libraries, name.as_bytes(), outside)?
    };
    match hit {
        Some(path) => Ok(path),
        None => Err(SearchFault::ScriptMissing(name.clone()?)),
    }
}
