//! By which name the program was called.

ghost use Rattle.drv_compile.specs.Calling.{before_ending, calling_of, folder, for_machine, is_c99, is_cxx};
ghost use Rattle.drv_compile.specs.Calling.{calling_by_name, last_from, last_part, machine_of};
ghost use Rattle.drv_compile.specs.Calling.{or_before};
ghost use Rattle.std.specs.Option.{option_copied, option_map};
ghost use Rattle.std.specs.Prelude.{◌≡◌, IfOk, codes};

use drv_words::Word;
use std::alloc::{AllocError, Global};

/// Whose line is read.
#[derive(Clone, Copy, Debug)]
pub enum Front {
    /// A line of gcc.
    Gcc,
    /// A line of POSIX's c99.
    C99,
    /// A line of g++, which is not served.
    Cxx,
}

/// How the program was called.
#[derive(Drop)]
pub struct Calling {
    /// The name in front of what it says.
    pub name: Word,
    /// The machine that it compiles for, which names the spec file.
    pub machine: Word,
    /// Whose line it reads.
    pub front: Front,
}

/// What follows the last slash of a path.
pub fn last_part(path: &[u8]) -> &[u8]
    ensures { result.now ≡ last_part path.now }
{
    let mut part = path;
    let mut left = path;
    while let [byte, following @ ..] = left {
        if *byte == b'/' {
            part = following;
        }
        left = following;
    }
    part
}

/// A path before its last part, with its slash.
pub fn folder(path: &[u8]) -> &[u8]
    ensures { result.now ≡ folder path.now }
{
    &path[..path.len().saturating_sub(last_part(path).len())]
}

/// What precedes an ending, if a name ends so.
pub fn before_ending<'a>(ending: &[u8], name: &'a [u8]) -> Option<&'a [u8]>
    ensures { option_copied result ≡ before_ending ending.now name.now }
{
    name.strip_suffix(ending)
}

/// What precedes the endings of this program's names, if a name ends so.
fn before_program(name: &[u8]) -> Option<&[u8]>
    ensures { option_copied result ≡ or_before (codes "-gdrv-gcc") name.now
        (before_ending (codes "-gdrv-cc") name.now) }
{
    match before_ending(b"-gdrv-cc", name) {
        Some(machine) => Some(machine),
        None => before_ending(b"-gdrv-gcc", name),
    }
}

/// The machine that the program's name begins with, if it names one.
fn machine_of(name: &[u8]) -> Option<&[u8]>
    ensures { option_copied result ≡ machine_of name.now }
{
    match before_program(name) {
        Some(machine) if !machine.is_empty() => Some(machine),
        _ => None,
    }
}

/// Whether a name is that of c99.
fn is_c99(name: &[u8]) -> bool
    ensures { result ≡ is_c99 name.now }
{
    name == b"c99".as_slice() || name == b"c99-gdrv".as_slice()
}

/// Whether a name is that of a compiler of C++.
fn is_cxx(name: &[u8]) -> bool
    ensures { result ≡ is_cxx name.now }
{
    name.ends_with(b"++".as_slice())
}

/// A call by these names.
fn calling_by_names(
    alloc: Global,
    name: &[u8],
    machine: &[u8],
    front: Front,
) -> Result<Calling, AllocError>
    ensures { IfOk result (λ calling. calling
        ≡ record { name = name.now; machine = machine.now; front = front }) }
{
    let name = Word::from_bytes(alloc, name)?;
    let machine = Word::from_bytes(alloc, machine)?;
    Ok(Calling {
        name,
        machine,
        front,
    })
}

/// What a name says of the call.
fn calling_by_name(alloc: Global, name: &[u8]) -> Result<Calling, AllocError>
    ensures { IfOk result (λ calling. calling ≡ calling_by_name name.now) }
{
    if is_c99(name) {
        return calling_by_names(alloc, name, b"host", Front::C99);
    }
    if is_cxx(name) {
        return calling_by_names(alloc, name, b"host", Front::Cxx);
    }
    match machine_of(name) {
        Some(machine) => calling_by_names(alloc, name, machine, Front::Gcc),
        None => calling_by_names(alloc, b"gdrv-cc", b"host", Front::Gcc),
    }
}

/// What the path by which the program was called says of the call: `c99` and `c99-gdrv` read a line
/// of c99, a name that ends with `++` one of C++, and `MACHINE-gdrv-cc` compiles for that machine. By
/// any other name it is `gdrv-cc`.
pub fn calling_of(alloc: Global, path: &[u8]) -> Result<Calling, AllocError>
    ensures { IfOk result (λ calling. calling ≡ calling_of path.now) }
{
    calling_by_name(alloc, last_part(path))
}
