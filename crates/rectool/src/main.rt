//! A program that replaces the tools of a compiler: it records its call and its inputs.
#![tactic(auto)]

mod call;
mod record;

use crate::call::{exit_status, output_file};
use crate::record::record_of;
use drv_system::arguments;
use drv_words::Word;
use std::alloc::AllocError;
use std::io::{self, Write};
use std::process::ExitCode;
use std::{fs, str};

/// Writes the record to the file of the call, or to standard output. Returns whether all of it was
/// written.
fn write_record(rt: &HostRuntime, words: &[Word], record: &Word) -> bool {
    match output_file(words) {
        Some(path) => match str::from_utf8(path.as_bytes()) {
            Ok(path) => fs::write(rt, path, record.as_bytes()).is_ok(),
            Err(_) => false,
        },
        None => {
            let stream = rt.stdout();
            io::writer(&stream).write_all(record.as_bytes()).is_ok()
        }
    }
}

/// Records the call, and returns the status that it requests; `None` if the record failed.
fn run(rt: &HostRuntime) -> Result<Option<u8>, AllocError> {
    let Ok(words) = arguments(rt) else {
        return Ok(None);
    };
    let Some(record) = record_of(rt, words.as_slice())? else {
        return Ok(None);
    };
    if write_record(rt, words.as_slice(), &record) {
        Ok(Some(exit_status(words.as_slice())))
    } else {
        Ok(None)
    }
}

/// Writes the record of this call, and exits with the status that the call requests.
fn main(rt: HostRuntime) -> ExitCode {
    match run(&rt) {
        Ok(Some(status)) => ExitCode::from(status),
        _ => ExitCode::from(1u8),
    }
}
