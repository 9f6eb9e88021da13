//! The command of a call, as a log of a build has it: a program, and the words of its line.

use crate::calling::CallFault;
use drv_compile::{Calling, calling_of, own_specs};
use drv_system::clock_seed;
use drv_words::{Listing, Word, base, copy_words, split_at_last};
use std::alloc::{AllocError, Global};

/// A compiler's program.
#[derive(Drop)]
pub struct Compiler {
    /// How `gdrv-cc` is called in its place.
    pub calling: Calling,
    /// Where the spec file that is installed for it lies, if that is known.
    pub own: Option<Word>,
}

/// Whose line is read.
#[derive(Drop)]
pub enum Program {
    /// That of `gdrv`.
    Driver,
    /// That of `gdrv-cc`, which the names of other compilers mean too.
    Compiler(Compiler),
}

/// A program and the words of its line.
#[derive(Drop)]
pub struct CommandLine {
    pub program: Program,
    pub words: Listing<Word>,
    /// For the names of temporaries.
    pub seed: u32,
}

/// Whether `gdrv-cc` knows by a name for what it is called. It refuses a compiler of C++ by that.
fn says_front(name: &[u8]) -> bool {
    matches!(name, b"c99" | b"c99-gdrv")
        || name.ends_with(b"++")
        || name.ends_with(b"-gdrv-cc")
        || name.ends_with(b"-gdrv-gcc")
}

/// Whether a name is that of a gcc with its release, as `gcc-13` and `TARGET-gcc-13`.
fn is_release(name: &[u8]) -> bool {
    match split_at_last(b'-', name) {
        Some((gcc, release)) => {
            (gcc == b"gcc".as_slice() || gcc.ends_with(b"-gcc"))
                && !release.is_empty()
                && release.iter().all(|byte| byte.is_ascii_digit())
        }
        None => false,
    }
}

/// A name with the ending of `gdrv-cc`.
fn with_ending(alloc: Global, machine: &[u8]) -> Result<Word, AllocError> {
    let mut name = Word::from_bytes(alloc, machine)?;
    name.extend_from_slice(b"-gdrv-cc")?;
    Ok(name)
}

/// The name of `gdrv-cc` for a compiler of this name, as ./install gives it.
fn name_for(alloc: Global, name: &[u8]) -> Result<Option<Word>, AllocError> {
    if matches!(name, b"gcc" | b"cc" | b"gdrv-cc" | b"gdrv-gcc") {
        return Ok(Some(Word::from_bytes(alloc, b"gdrv-cc")?));
    }
    if says_front(name) {
        return Ok(Some(Word::from_bytes(alloc, name)?));
    }
    if is_release(name) {
        return Ok(Some(with_ending(alloc, name)?));
    }
    match name.strip_suffix(b"-gcc".as_slice()) {
        Some(machine) => Ok(Some(with_ending(alloc, machine)?)),
        None => Ok(None),
    }
}

/// The program of this path or name, if it is one whose line is read.
fn program_of(rt: &HostRuntime, path: &Word) -> Result<Option<Program>, AllocError> {
    let name = base(path.as_bytes());
    if name == b"gdrv".as_slice() {
        return Ok(Some(Program::Driver));
    }
    let Some(name) = name_for(rt.alloc(), name)? else {
        return Ok(None);
    };
    let calling = calling_of(rt.alloc(), name.as_bytes())?;
    let own = own_specs(rt, calling.machine.as_bytes())?;
    Ok(Some(Program::Compiler(Compiler { calling, own })))
}

/// The command of these words: a program by its name or path, and its line. A gcc's name means the
/// spec file that is installed for it.
///
/// # Errors
/// Lack of memory; there is no word; the program is none whose line is read.
pub fn command_of(rt: &HostRuntime, words: &[Word]) -> Result<CommandLine, CallFault> {
    let [path, line @ ..] = words else {
        return Err(CallFault::NoProgram);
    };
    let Some(program) = program_of(rt, path)? else {
        return Err(CallFault::UnknownProgram(path.clone()?));
    };
    Ok(CommandLine {
        program,
        words: copy_words(rt.alloc(), line)?,
        seed: clock_seed(rt)?,
    })
}
