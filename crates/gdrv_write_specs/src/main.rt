//! Writes the spec file of a gcc, and what gdrv-cc reads beside it.
//!
//! What a call asks for has a contract. The texts that it writes have none: `checking` compares the
//! plans that they give with those of the gcc, and tests/real compares more lines.
#![tactic(auto)]

mod adding;
mod asking;
mod bounded;
mod cache;
mod calling;
mod checking;
mod children;
mod choosing;
mod devices;
mod dumping;
mod fault;
mod finding;
mod gathering;
mod gluing;
mod help;
mod including;
mod libraries;
mod listing;
mod names;
mod natives;
mod newer;
mod parts;
mod placing;
mod programs;
mod refusing;
mod rows;
mod shortening;
mod temporary;
mod texts;
mod vendors;
mod version;
mod wording;
mod work_folder;

use adding::{add_words, row_text};
use calling::{Call, Fate, call_of};
use drv_system::{arguments, complain};
use drv_words::Word;
use fault::Fault;
use help::HELP;
use placing::write_file;
use std::alloc::AllocError;
use std::io::{self, Write};
use std::process::ExitCode;
use texts::joined;
use version::VERSION;

const OUT_OF_MEMORY: &[u8] = b"gdrv-write-specs: out of memory\n";

/// Ends with status 1, and says why.
fn refuse(rt: &HostRuntime, text: Result<Word, AllocError>) -> ExitCode {
    match text {
        Ok(text) => complain(rt, text.as_bytes()),
        Err(_) => complain(rt, OUT_OF_MEMORY),
    }
    ExitCode::from(1)
}

/// Prints a text. The exit status is 1 where it couldn't be written.
fn print(rt: &HostRuntime, text: &[u8]) -> ExitCode {
    let stream = rt.stdout();
    match io::writer(&stream).write_all(text) {
        Ok(()) => ExitCode::from(0),
        Err(_) => ExitCode::from(1),
    }
}

/// Does what a call with these words asks for. Gives what is printed.
fn act(rt: &HostRuntime, words: &[Word]) -> Result<Word, Fault> {
    let alloc = rt.alloc();
    match call_of(alloc, words)? {
        Call::Help => Ok(Word::from_bytes(alloc, HELP)?),
        Call::Version => joined(alloc, &[b"gdrv-write-specs ", VERSION.as_bytes(), b"\n"]),
        Call::Write(order) => {
            write_file(rt, &order)?;
            Ok(Word::empty(alloc))
        }
        Call::Row(Fate::Added, path, options) => {
            add_words(rt, &path, options.as_slice())?;
            Ok(Word::empty(alloc))
        }
        Call::Row(Fate::Printed, path, options) => row_text(rt, &path, options.as_slice()),
    }
}

fn main(rt: HostRuntime) -> ExitCode {
    match arguments(&rt) {
        Ok(words) => match act(&rt, words.as_slice()) {
            Ok(text) => print(&rt, text.as_bytes()),
            Err(fault) => refuse(&rt, fault.text(rt.alloc())),
        },
        Err(error) => {
            match format!(in rt.alloc(); "gdrv-write-specs: {error}\n") {
                Ok(text) => complain(&rt, text.as_bytes()),
                Err(_) => complain(&rt, OUT_OF_MEMORY),
            }
            ExitCode::from(1)
        }
    }
}
