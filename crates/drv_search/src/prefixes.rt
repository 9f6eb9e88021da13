//! The prefixes of a search: those of `-B`, and the folders after them.

// In clauses: `Tells` says that a result is that of a definition, by any facts that extend what is
// known. `Asked` says that a call only asked, and that the table has the answers.
ghost use Rattle.drv_search.specs.Search.{ends_with_slash, given_of, is_prefix, prefix_for};
ghost use Rattle.drv_search.specs.Search.{library_folders, machine_folder, prefix_of, prefixes_of};
ghost use Rattle.drv_search.specs.Search.{program_folders};
ghost use Rattle.drv_search.specs.Code.Telling.{Tells};
ghost use Rattle.drv_system.specs.Asking.{Asks, Extends};
ghost use Rattle.drv_system.specs.Code.Asked.{Asked};
ghost use Rattle.drv_system.specs.Facts.{Facts};
ghost use Rattle.drv_system.specs.Known.{Is};
ghost use Rattle.std.specs.Prelude.{◌≡◌, ◌++◌, IfOk, OnOk, map};

use drv_system::{FactTable, Outside, PathKind, System};
use drv_words::{Listing, Word};
use std::alloc::{AllocError, Global};

/// The folder of the machine under a prefix.
const MACHINE_FOLDER: &[u8] = b"generic-elf/13/";

/// The folders that are searched for programs after the prefixes of `-B`.
const PROGRAM_FOLDERS: [&[u8]; 2] = [b"/usr/lib/gcc/", b"/usr/local/lib/gcc/"];

/// The folders that are searched for other files after the prefixes of `-B`.
const LIBRARY_FOLDERS: [&[u8]; 4] = [
    b"/usr/lib/gcc/",
    b"/usr/local/lib/gcc/",
    b"/lib/",
    b"/usr/lib/",
];

/// The prefixes of a search, in order.
#[derive(Drop)]
pub struct Prefixes {
    /// The prefixes of programs.
    pub programs: Listing<Word>,
    /// The prefixes of libraries, spec files and linker scripts.
    pub libraries: Listing<Word>,
}

/// Whether a path ends with a slash.
pub(crate) fn ends_with_slash(path: &[u8]) -> bool
    ensures { result ≡ ends_with_slash path.now }
{
    path.ends_with(b"/")
}

/// Whether an argument of `-B` is a prefix already.
fn is_prefix(dir: &[u8]) -> bool
    ensures { result ≡ is_prefix dir.now }
{
    dir.is_empty() || ends_with_slash(dir)
}

/// The prefix for a path of this kind: a folder gets a slash at its end if it lacks one.
fn prefix_for(dir: &Word, kind: PathKind) -> Result<Word, AllocError>
    ensures { IfOk result (λ prefix. prefix ≡ prefix_for dir.now kind) }
{
    let mut prefix = dir.clone()?;
    match kind {
        PathKind::Dir => prefix.push(b'/')?,
        PathKind::Plain | PathKind::Other | PathKind::Missing => {}
    }
    Ok(prefix)
}

/// The prefix for an argument of `-B`.
fn prefix_of<S: System>(dir: &Word, outside: &mut Outside<'_, S>) -> Result<Word, AllocError>
    ensures asks { Asked S.events outside.old outside.new }
    ensures prefix { Tells outside.new result (λ F. prefix_of F dir.now) }
{
    // Its form tells enough, and nothing is asked.
    if is_prefix(dir.as_bytes()) {
        return dir.clone();
    }
    let kind = outside.facts.kind(outside.sys, dir)?;
    prefix_for(dir, kind)
}

/// The prefixes for the arguments of `-B`.
#[tactic(auto, using(drv_system::proofs::AskedCalls::asked_further))]
fn given_prefixes<S: System>(
    alloc: Global,
    dirs: &[Word],
    outside: &mut Outside<'_, S>,
) -> Result<Listing<Word>, AllocError>
    ensures asks { Asked S.events outside.old outside.new }
    ensures given { Tells outside.new result (λ F. given_of F dirs.now) }
{
    let mut given = Listing::new(alloc);
    for dir in dirs {
        given.push(prefix_of(dir, outside)?)?;
    }
    Ok(given)
}

/// Adds folders at the end.
fn push_folders(
    alloc: Global,
    prefixes: &mut Listing<Word>,
    folders: &[&[u8]],
) -> Result<(), AllocError>
    ensures { OnOk result (prefixes.new ≡ prefixes.old ++ map (λ folder. folder.now) folders.now) }
{
    for folder in folders {
        prefixes.push(Word::from_bytes(alloc, folder)?)?;
    }
    Ok(())
}

/// These prefixes, followed by the folders.
fn with_folders(
    alloc: Global,
    given: &[Word],
    folders: &[&[u8]],
) -> Result<Listing<Word>, AllocError>
    ensures { IfOk result
        (λ prefixes. prefixes ≡ given.now ++ map (λ folder. folder.now) folders.now) }
{
    let mut prefixes = Listing::new(alloc);
    for prefix in given {
        prefixes.push(prefix.clone()?)?;
    }
    push_folders(alloc, &mut prefixes, folders)?;
    Ok(prefixes)
}

impl Prefixes {
    /// The prefixes for these arguments of `-B`. A folder gets a slash at its end if it lacks one.
    #[tactic(auto, using(crate::proofs::Candidates::prefixes_made))]
    pub fn new<S: System>(
        alloc: Global,
        dirs: &[Word],
        sys: &mut S,
        facts: &mut FactTable,
    ) -> Result<Prefixes, AllocError>
        ensures asks { Asks (S.events sys.old) (S.events sys.new) facts.old facts.new }
        ensures prefixes { (F : Facts) → Extends facts.new F
            → IfOk result (λ made. prefixes_of F dirs.now ≡ Is made) }
    {
        let given = given_prefixes(alloc, dirs, &mut Outside { sys, facts })?;
        let programs = with_folders(alloc, given.as_slice(), program_folders())?;
        let libraries = with_folders(alloc, given.as_slice(), library_folders())?;
        Ok(Prefixes {
            programs,
            libraries,
        })
    }
}

/// The folders that are searched for programs.
fn program_folders() -> &'static [&'static [u8]]
    ensures { map (λ folder. folder.now) result.now ≡ program_folders }
{
    &PROGRAM_FOLDERS
}

/// The folders that are searched for other files.
fn library_folders() -> &'static [&'static [u8]]
    ensures { map (λ folder. folder.now) result.now ≡ library_folders }
{
    &LIBRARY_FOLDERS
}

/// The folder of the machine.
fn machine_folder() -> &'static [u8]
    ensures { result.now ≡ machine_folder }
{
    MACHINE_FOLDER
}

/// The folder of the machine under a prefix.
pub(crate) fn machine_folder_under(alloc: Global, prefix: &[u8]) -> Result<Word, AllocError>
    ensures { IfOk result (λ folder. folder ≡ prefix.now ++ machine_folder) }
{
    let mut folder = Word::from_bytes(alloc, prefix)?;
    folder.extend_from_slice(machine_folder())?;
    Ok(folder)
}
