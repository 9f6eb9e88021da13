//! Reads a whole file within bounds.

// In clauses: `IsWithinLimit` says that no answer is longer than a file may be.
ghost use Rattle.drv_system.specs.Limit.{IsWithinLimit, most_reads};
ghost use Rattle.drv_system.specs.Reading.{GivesUp, ReadsAs, is_failure};
ghost use Rattle.std.specs.Io.{ReadsAtMost};
ghost use Rattle.std.specs.Io.KnownBytes.{IsAtEnd, ReadConsumes};
ghost use Rattle.std.specs.Prelude.{◌≡◌, ◌+◌, ◌++◌, ◌<◌, ◌≤◌, IfOk, IfSome, OnOk, false, length, take};

use crate::{MOST_BYTES, ReadAnswer};
use drv_words::Word;
use std::alloc::{AllocError, Global};
use std::fs::File;
use std::io::{Error, ErrorKind, Read, Seek, SeekFrom};
use std::mem::swap;
use std::rt::Files;

/// The most reads for one file.
const MOST_READS: u32 = 33_554_432;

/// The room for the first read of what doesn't tell its size, in bytes.
const FIRST_ROOM: usize = 2048;

/// The room for a read after the first one, in bytes: it should find the end.
const END_ROOM: usize = 256;

/// The most room for a read, in bytes.
const MOST_ROOM: usize = 65536;

/// The room for a file of this size.
fn room_of(size: u64) -> usize
    ensures { 0 < result }
{
    match usize::try_from(size) {
        // Size 0 may be that of a file which doesn't tell its size, as those of /proc.
        Ok(size) if 0 < size && size <= MOST_BYTES => size,
        _ => FIRST_ROOM,
    }
}

/// The room for the first read of a file: all that it has, if it tells where its end is. None if it
/// can't be read from its start again.
fn room_for<F: Seek>(file: &mut F) -> Option<usize>
    ensures { IfSome result (λ room. 0 < room) }
{
    let Ok(size) = file.seek(SeekFrom::End(0)) else {
        return Some(FIRST_ROOM);
    };
    match file.seek(SeekFrom::Start(0)) {
        Ok(_start) => Some(room_of(size)),
        Err(_) => None,
    }
}

/// Reads the file at a path to its end.
pub fn read_path<R: Files>(rt: &R, alloc: Global, path: &str) -> Result<ReadAnswer, AllocError>
    ensures { IfOk result IsWithinLimit }
{
    match File::open(rt, path) {
        Ok(mut file) => match room_for(&mut file) {
            Some(room) => OpenFile::new(file).read_whole(alloc, room),
            None => Ok(ReadAnswer::Failed),
        },
        Err(e) if e.kind() == ErrorKind::OutOfMemory => Err(AllocError),
        Err(e) if is_absent(&e) => Ok(ReadAnswer::Missing),
        Err(_) => Ok(ReadAnswer::Failed),
    }
}

/// Reads an open file to its end. Returns all bytes that are left, if these are known, or says that
/// there are more than a file may have, or that a read failed.
pub fn read_to_end<F: Read + Drop>(alloc: Global, file: F) -> Result<ReadAnswer, AllocError>
    ensures read { IfOk result (ReadsAs (F.remaining file)) }
    ensures within { IfOk result IsWithinLimit }
{
    OpenFile::new(file).read_whole(alloc, FIRST_ROOM)
}

/// Whether an error says that no file has the path. That includes a path through a plain file.
pub(crate) fn is_absent(error: &Error) -> bool {
    matches!(error.kind(), ErrorKind::NotFound | ErrorKind::NotADirectory)
}

/// Why a read returned nothing.
#[derive(Clone, Copy)]
enum ReadFault {
    /// It was interrupted and can be repeated.
    Interrupted,
    /// It failed.
    Failed,
}

/// Doubles the room for the next read, up to the limit.
fn widen(room: &mut Vec<u8>) -> Result<(), AllocError>
    requires { 0 < length room.old.items }
    ensures { OnOk result (0 < length room.new.items) }
{
    if room.len() < MOST_ROOM {
        room.resize(room.len() * 2, 0)?;
    }
    Ok(())
}

/// Adds what was read into a room, and makes room for the next read. The first room is not copied.
fn add_read(bytes: &mut Vec<u8>, room: &mut Vec<u8>, count: usize) -> Result<(), AllocError>
    requires count { count ≤ length room.old.items }
    requires room { 0 < length room.old.items }
    ensures bytes { OnOk result (bytes.new.items ≡ bytes.old.items ++ take count room.old.items) }
    ensures room { OnOk result (0 < length room.new.items) }
{
    if bytes.is_empty() {
        swap(bytes, room);
        bytes.truncate(count);
        room.resize(END_ROOM, 0)?;
        return Ok(());
    }
    bytes.extend_from_slice(&room.as_slice()[..count])?;
    // A read that fills the room is probably not the last.
    if count == room.len() {
        widen(room)?;
    }
    Ok(())
}

/// A file that is being read: the number of reads so far, and whether the last one failed.
#[derive(Drop)]
struct OpenFile<F> {
    file: F,
    reads: u32,
    failed: bool,
}

impl<F: Read> OpenFile<F> {
    /// A file before the first read.
    fn new(file: F) -> OpenFile<F>
        ensures { result ≡ record { file = file; reads = 0; failed = false } }
    {
        OpenFile {
            file,
            reads: 0,
            failed: false,
        }
    }

    /// Reads once.
    fn read(&mut self, buffer: &mut [u8]) -> Result<usize, ReadFault>
        requires count { self.old.reads < 4294967295 }
        requires room { 0 < length buffer.old }
        ensures reads { self.new.reads ≡ self.old.reads + 1 }
        ensures failed { self.new.failed ≡ is_failure result }
        ensures bound { ReadsAtMost result buffer.new }
        ensures bytes { ReadConsumes
            (F.remaining self.old.file) (F.remaining self.new.file) result buffer.new }
        ensures end { IfOk result (λ n. n ≡ 0 → IsAtEnd (F.remaining self.new.file)) }
    {
        self.reads += 1;
        self.failed = false;
        match self.file.read(buffer) {
            Ok(count) => Ok(count),
            Err(e) if e.kind() == ErrorKind::Interrupted => Err(ReadFault::Interrupted),
            Err(_) => {
                self.failed = true;
                Err(ReadFault::Failed)
            }
        }
    }

    /// Reads to the end, by at most `most` reads, the first one into a room of this size. A file
    /// that doesn't end within the bounds is not read.
    fn read_within(
        &mut self,
        alloc: Global,
        most: u32,
        size: usize,
    ) -> Result<ReadAnswer, AllocError>
        requires count { self.old.reads ≡ 0 }
        requires room { 0 < size }
        ensures read { IfOk result (ReadsAs (F.remaining self.old.file)) }
        ensures given_up { IfOk result (GivesUp most self.new.reads self.new.failed) }
        ensures within { IfOk result IsWithinLimit }
    {
        let mut bytes = Vec::new(alloc);
        let mut room = Vec::new(alloc);
        room.resize(size, 0u8)?;
        // A bound, since each read may be interrupted.
        for _ in 0..most {
            let count = match self.read(room.as_mut_slice()) {
                Ok(0) => return Ok(ReadAnswer::Read(Word::from_vec(bytes))),
                Ok(count) => count,
                Err(ReadFault::Interrupted) => continue,
                Err(ReadFault::Failed) => return Ok(ReadAnswer::Failed),
            };
            // So no sum can overflow: there are never more bytes than the limit.
            if count > MOST_BYTES - bytes.len() {
                return Ok(ReadAnswer::TooLarge);
            }
            add_read(&mut bytes, &mut room, count)?;
        }
        Ok(ReadAnswer::Failed)
    }

    /// Reads to the end, by at most 33,554,432 reads, the first one into a room of this size.
    fn read_whole(&mut self, alloc: Global, size: usize) -> Result<ReadAnswer, AllocError>
        requires count { self.old.reads ≡ 0 }
        requires room { 0 < size }
        ensures read { IfOk result (ReadsAs (F.remaining self.old.file)) }
        ensures given_up { IfOk result (GivesUp most_reads self.new.reads self.new.failed) }
        ensures within { IfOk result IsWithinLimit }
    {
        self.read_within(alloc, MOST_READS, size)
    }
}
