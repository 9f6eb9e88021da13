//! The arguments of a process, and its messages before a system exists.

ghost use Rattle.std.specs.Prelude.{◌≡◌, ◌≤◌, IfOk, IfSome, length};

use drv_words::{Listing, Word};
use std::alloc::Global;
use std::env::FillError;
use std::io::{self, ErrorKind, Write};
use std::rt::Env;
use std::str::from_utf8;

/// The room for an argument at first, in bytes.
const ROOM: usize = 1024;

/// The number of arguments for which there is room at first. A long line isn't copied as it grows,
/// and unused room is never touched.
const ARGUMENTS: usize = 4096;

/// The length of the argument at `place`, whose bytes are then at the front of `room`. `None` if
/// there is no such argument. The room is doubled until the argument fits.
fn argument_length(rt: &HostRuntime, place: usize, room: &mut Vec<u8>) -> io::Result<Option<usize>>
    ensures { IfOk result (λ found. IfSome found (λ n. n ≤ length room.new.items)) }
{
    // Each turn doubles the room, so no length needs more turns.
    for _ in 0..usize::BITS {
        match rt.arg(place, room.as_mut_slice()) {
            Ok(length) => return Ok(Some(length)),
            Err(FillError::NotPresent) => return Ok(None),
            Err(FillError::TooLong) => room.resize(room.len().saturating_mul(2), 0)?,
        }
    }
    Err(io::Error::from(ErrorKind::OutOfMemory))
}

/// The argument at a place as a word, with all its bytes.
fn word_of(alloc: Global, place: usize, bytes: &[u8]) -> io::Result<Word>
    ensures { IfOk result (λ word. word ≡ bytes.now) }
{
    let is_plain = bytes.iter().all(|byte| byte.is_ascii());
    // ASCII is UTF-8, and is tested faster.
    if !is_plain && from_utf8(bytes).is_err() {
        let text = format!(in alloc; "argument {place} is not UTF-8")?;
        return Err(io::Error::new(ErrorKind::InvalidData, text.as_str()));
    }
    Ok(Word::from_bytes(alloc, bytes)?)
}

/// Adds the arguments to the words. There is room for one.
fn add_arguments(
    rt: &HostRuntime,
    room: &mut Vec<u8>,
    words: &mut Listing<Word>,
) -> io::Result<()> {
    // Argument 0 is the program's name.
    for place in 1..usize::MAX {
        let Some(length) = argument_length(rt, place, room)? else {
            break;
        };
        words.push(word_of(rt.alloc(), place, &room[..length])?)?;
    }
    Ok(())
}

/// The arguments of this process without the program's name, in order and with all their bytes. The
/// kit doesn't specify what its runtime returns for an argument, so no clause says which these are.
///
/// # Errors
/// `OutOfMemory`, or one that says which argument is not UTF-8.
pub fn arguments(rt: &HostRuntime) -> io::Result<Listing<Word>> {
    let alloc = rt.alloc();
    let mut words = Listing::from_vec(Vec::with_capacity(alloc, ARGUMENTS)?);
    let mut room = vec![in alloc; 0u8; ROOM]?;
    add_arguments(rt, &mut room, &mut words)?;
    Ok(words)
}

/// The name by which this process was called, with its folder if the caller gave one. Empty if
/// there is no name.
///
/// # Errors
/// `OutOfMemory`, or one that says that argument 0 is not UTF-8.
pub fn called_as(rt: &HostRuntime) -> io::Result<Word> {
    let alloc = rt.alloc();
    let mut room = vec![in alloc; 0u8; ROOM]?;
    match argument_length(rt, 0, &mut room)? {
        Some(length) => word_of(alloc, 0, &room[..length]),
        None => Ok(Word::empty(alloc)),
    }
}

/// Writes a text to standard error, as much of it as can be written.
pub fn complain(rt: &HostRuntime, text: &[u8]) {
    let stream = rt.stderr();
    let _ = io::writer(&stream).write_all(text);
}
