//! The folders of libraries.

// In clauses: `TellsMore` says that a list got what a definition gives, by any facts that extend
// what is known. `Asked` says that a call only asked, and that the table has the answers.
ghost use Rattle.drv_search.specs.Search.{folder_options, folders_under, is_dir};
ghost use Rattle.drv_search.specs.Search.{options_for, without_slash};
ghost use Rattle.drv_search.specs.Code.Telling.{TellsMore};
ghost use Rattle.drv_system.specs.Asking.{Asks, Extends};
ghost use Rattle.drv_system.specs.Code.Asked.{Asked};
ghost use Rattle.drv_system.specs.Facts.{Facts};
ghost use Rattle.drv_system.specs.Known.{Is};
ghost use Rattle.std.specs.List.{flat_map};
ghost use Rattle.std.specs.Prelude.{◌≡◌, ◌∷◌, ◌++◌, [], IfOk, codes};

use crate::Prefixes;
use crate::prefixes::{ends_with_slash, machine_folder_under};
use drv_system::{FactTable, Outside, PathKind, System};
use drv_words::{Listing, Word};
use std::alloc::{AllocError, Global};

/// A path without its last byte, except for the root.
fn without_slash(path: &[u8]) -> &[u8]
    ensures { result.now ≡ without_slash path.now }
{
    match path {
        [] | [_] => path,
        [front @ .., _] => front,
    }
}

/// Whether a path of this kind is a folder.
fn is_dir(kind: PathKind) -> bool
    ensures { result ≡ is_dir kind }
{
    matches!(kind, PathKind::Dir)
}

/// The option for a folder.
fn folder_option(alloc: Global, folder: &Word) -> Result<Word, AllocError>
    ensures { IfOk result (λ option. option ≡ codes "-L" ++ folder.now) }
{
    let mut option = Word::from_bytes(alloc, b"-L")?;
    option.extend_from_slice(folder.as_bytes())?;
    Ok(option)
}

/// Adds the option for a path without the slash at its end, if it is a folder.
fn push_option<S: System>(
    alloc: Global,
    options: &mut Listing<Word>,
    path: &[u8],
    outside: &mut Outside<'_, S>,
) -> Result<(), AllocError>
    ensures asks { Asked S.events outside.old outside.new }
    ensures option { TellsMore outside.new result (λ F. options_for F (without_slash path.now ∷ []))
        options.old options.new }
{
    let folder = Word::from_bytes(alloc, without_slash(path))?;
    let kind = outside.facts.kind(outside.sys, &folder)?;
    if !is_dir(kind) {
        return Ok(());
    }
    options.push(folder_option(alloc, &folder)?)?;
    Ok(())
}

/// Adds the options for the folders under a prefix.
#[tactic(auto, using(drv_system::proofs::AskedCalls::asked_further))]
fn push_options<S: System>(
    alloc: Global,
    options: &mut Listing<Word>,
    prefix: &[u8],
    outside: &mut Outside<'_, S>,
) -> Result<(), AllocError>
    ensures asks { Asked S.events outside.old outside.new }
    ensures options { TellsMore outside.new result (λ F. options_for F (folders_under prefix.now))
        options.old options.new }
{
    let machine = machine_folder_under(alloc, prefix)?;
    push_option(alloc, options, machine.as_bytes(), outside)?;
    // A prefix without a slash is no folder, only the beginning of names.
    if !ends_with_slash(prefix) {
        return Ok(());
    }
    push_option(alloc, options, prefix, outside)
}

/// Adds the options for the folders under prefixes.
#[tactic(auto, using(drv_system::proofs::AskedCalls::asked_further, crate::proofs::Options::all_added))]
fn push_all<S: System>(
    alloc: Global,
    options: &mut Listing<Word>,
    prefixes: &[Word],
    outside: &mut Outside<'_, S>,
) -> Result<(), AllocError>
    ensures asks { Asked S.events outside.old outside.new }
    ensures options { TellsMore outside.new result
        (λ F. options_for F (flat_map folders_under prefixes.now)) options.old options.new }
{
    for prefix in prefixes {
        push_options(alloc, options, prefix.as_bytes(), outside)?;
    }
    Ok(())
}

/// The options `-L` for the folders of libraries. For each prefix these are the folder of the
/// machine, and the prefix itself if it ends with a slash.
#[tactic(auto, using(crate::proofs::Options::all_options))]
pub fn dir_options<S: System>(
    alloc: Global,
    prefixes: &Prefixes,
    sys: &mut S,
    facts: &mut FactTable,
) -> Result<Listing<Word>, AllocError>
    ensures asks { Asks (S.events sys.old) (S.events sys.new) facts.old facts.new }
    ensures options { (F : Facts) → Extends facts.new F
        → IfOk result (λ options. folder_options F prefixes.now ≡ Is options) }
{
    let mut options = Listing::new(alloc);
    let libraries = prefixes.libraries.as_slice();
    push_all(alloc, &mut options, libraries, &mut Outside { sys, facts })?;
    Ok(options)
}
