//! The record of a call: its line, and the contents of its inputs.

ghost use Rattle.drv_words.specs.Bytes.{newline};
ghost use Rattle.std.specs.Fmt.{decimal};
ghost use Rattle.std.specs.Prelude.{◌≡◌, ◌∷◌, ◌++◌, [], OnOk, codes, length};

use crate::call::inputs;
use drv_system::{HostSystem, ReadAnswer, System, read_to_end};
use drv_words::{Command, Listing, PlanLine, Word, render};
use std::alloc::{AllocError, Global};

/// Copies of words.
fn copies_of(alloc: Global, words: &[Word]) -> Result<Listing<Word>, AllocError> {
    let mut copies = Listing::new(alloc);
    for word in words {
        copies.push(word.clone()?)?;
    }
    Ok(copies)
}

/// The line of the call, as `-###` prints it.
fn line(alloc: Global, words: &[Word]) -> Result<Word, AllocError> {
    let line = PlanLine {
        command: Command {
            program: Word::from_bytes(alloc, b"rectool")?,
            words: copies_of(alloc, words)?,
        },
        piped: false,
    };
    render(alloc, &[line])
}

/// Adds the contents of an input: its length, its bytes, and a newline.
fn push_input(alloc: Global, record: &mut Word, bytes: &[u8]) -> Result<(), AllocError> {
    let length = format!(in alloc; "= {}\n", bytes.len())?;
    record.extend_from_slice(length.as_bytes())?;
    record.extend_from_slice(bytes)?;
    record.push(b'\n')
}

/// Adds the contents of files. A file that can't be read is left out.
fn push_files(rt: &HostRuntime, record: &mut Word, paths: &[Word]) -> Result<(), AllocError> {
    let mut sys = HostSystem::new(rt.clone()?);
    for path in paths {
        if let ReadAnswer::Read(bytes) = sys.read_file(path)? {
            push_input(rt.alloc(), record, bytes.as_bytes())?;
        }
    }
    Ok(())
}

/// Adds the contents of standard input. Returns whether it could be read.
fn push_standard_input(rt: &HostRuntime, record: &mut Word) -> Result<bool, AllocError> {
    match read_to_end(rt.alloc(), rt.stdin())? {
        ReadAnswer::Read(bytes) => {
            push_input(rt.alloc(), record, bytes.as_bytes())?;
            Ok(true)
        }
        _ => Ok(false),
    }
}

/// Adds the contents of these inputs, or of standard input if there are none. Returns whether there
/// is a record.
fn push_inputs(rt: &HostRuntime, record: &mut Word, inputs: &[Word]) -> Result<bool, AllocError> {
    if inputs.is_empty() {
        return push_standard_input(rt, record);
    }
    push_files(rt, record, inputs)?;
    Ok(true)
}

/// The record of a call. A file that can't be read is left out. Standard input is read if there are
/// no inputs, and there is no record if that fails.
pub fn record_of(rt: &HostRuntime, words: &[Word]) -> Result<Option<Word>, AllocError> {
    let inputs = inputs(rt.alloc(), words)?;
    let mut record = line(rt.alloc(), words)?;
    let is_read = push_inputs(rt, &mut record, inputs.as_slice())?;
    Ok(if is_read { Some(record) } else { None })
}
