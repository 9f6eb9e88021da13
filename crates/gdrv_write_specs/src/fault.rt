//! Why no spec file is written.

use crate::calling::CallFault;
use drv_words::{Listing, Word};
use std::alloc::{AllocError, AllocFailed, Global};
use std::io;
use std::io::ErrorKind;

/// Why no spec file is written.
#[derive(Debug, Drop)]
pub enum Fault {
    /// Memory was wanted.
    Memory,
    /// The words of the call ask for nothing.
    Misused,
    /// This is no name of a spec file.
    NotSpecs(Word),
    /// There is no such program.
    NoGcc(Word),
    /// This program prints no spec texts.
    NoDump(Word),
    /// The texts that this program prints can't be read.
    BadDump(Word),
    /// This program lists no options.
    NoOptions(Word),
    /// This program plans no compilation of C, or no link.
    NoPlan(Word),
    /// There is no `gdrv-cc` to compare plans with.
    NoDriver,
    /// Nothing can be written at this path.
    NoPlace(Word),
    /// There is no such file.
    NoSpecs(Word),
    /// This file has no rows for machines.
    NoRows(Word),
    /// The gcc refuses these options, or the spec file would make something else of them.
    NoRow(Word),
    /// This is no option by which the gcc of a spec file chooses a machine.
    NotMachine(Word),
    /// This gcc refuses these options.
    Refuses(Word, Word),
    /// This gcc has other plans for these lines.
    Differs(Word, Listing<Word>),
    /// The answer to this question is too long.
    TooMuch(Word),
    /// The answer to this question takes too long.
    TooSlow(Word),
    /// The system refused something else.
    Other,
}

impl From<AllocError> for Fault {
    fn from(_error: AllocError) -> Fault {
        Fault::Memory
    }
}

impl From<CallFault> for Fault {
    fn from(fault: CallFault) -> Fault {
        match fault {
            CallFault::Memory => Fault::Memory,
            CallFault::Misused => Fault::Misused,
            CallFault::NotSpecs(path) => Fault::NotSpecs(path),
        }
    }
}

impl<T: Drop> From<AllocFailed<T>> for Fault {
    fn from(_error: AllocFailed<T>) -> Fault {
        Fault::Memory
    }
}

impl From<io::Error> for Fault {
    fn from(error: io::Error) -> Fault {
        if error.kind() == ErrorKind::OutOfMemory {
            Fault::Memory
        } else {
            Fault::Other
        }
    }
}

/// The last hexadecimal digit of a number.
fn hexadecimal(number: u8) -> u8 {
    b"0123456789abcdef"[usize::from(number % 16)]
}

/// Adds a text as people are shown it: each control byte by its number, as `\x1b`.
pub fn push_shown(shown: &mut Word, text: &[u8]) -> Result<(), AllocError> {
    for byte in text {
        if byte.is_ascii_control() {
            shown.extend_from_slice(b"\\x")?;
            shown.push(hexadecimal(byte / 16))?;
            shown.push(hexadecimal(*byte))?;
        } else {
            shown.push(*byte)?;
        }
    }
    Ok(())
}

/// What precedes the word of a fault in its line, that word, and what follows it.
fn parts_of(fault: &Fault) -> (&[u8], &[u8], &[u8]) {
    match fault {
        Fault::Memory => (b"out of memory", b"", b""),
        Fault::Misused => (
            b"expected [--force] [-o X.specs] GCC [OPTION..], --add X.specs OPTION.., \
--row X.specs OPTION.., --help or --version",
            b"",
            b"",
        ),
        Fault::NotSpecs(path) => (
            b"the name of a spec file ends in .specs: '",
            path.as_bytes(),
            b"'",
        ),
        Fault::NoGcc(gcc) => (b"cannot start '", gcc.as_bytes(), b"'"),
        Fault::NoDump(gcc) => (
            b"'",
            gcc.as_bytes(),
            b"' prints no spec texts (-dumpspecs): it is no gcc",
        ),
        Fault::BadDump(gcc) => (
            b"'",
            gcc.as_bytes(),
            b"' prints spec texts that can't be read",
        ),
        Fault::NoOptions(gcc) => (b"'", gcc.as_bytes(), b"' lists no options"),
        Fault::NoPlan(gcc) => (
            b"'",
            gcc.as_bytes(),
            b"' plans no compilation and link of C",
        ),
        Fault::NoDriver => (b"cannot find gdrv-cc, by which it compares plans", b"", b""),
        Fault::NoPlace(path) => (b"cannot write '", path.as_bytes(), b"'"),
        Fault::NoSpecs(path) => (b"cannot read '", path.as_bytes(), b"'"),
        Fault::NoRows(path) => (
            b"'",
            path.as_bytes(),
            b"' has no rows, so no words can be added: \
'gdrv-write-specs -o X.specs GCC OPTION..' writes a file that serves these options, if it can",
        ),
        Fault::NotMachine(option) => (
            b"no words for '",
            option.as_bytes(),
            b"': it is no option for a machine of this gcc",
        ),
        Fault::NoRow(key) => (
            b"no words for '",
            key.as_bytes(),
            b"': the gcc refuses them, or its plan would be another one",
        ),
        Fault::Refuses(gcc, _) => (b"'", gcc.as_bytes(), b"' refuses '"),
        Fault::Differs(gcc, _) => (
            b"no spec file for '",
            gcc.as_bytes(),
            b"': with it these lines would not have gcc's plan",
        ),
        Fault::TooMuch(question) => (b"'", question.as_bytes(), b"' prints more than 1 MiB"),
        Fault::TooSlow(question) => (
            b"'",
            question.as_bytes(),
            b"' doesn't answer within 60 seconds",
        ),
        Fault::Other => (b"the system refused a call", b"", b""),
    }
}

impl Fault {
    /// What the user reads.
    pub fn text(&self, alloc: Global) -> Result<Word, AllocError> {
        let (before, word, after) = parts_of(self);
        let mut text = Word::from_bytes(alloc, b"gdrv-write-specs: ")?;
        for part in [before, word, after] {
            push_shown(&mut text, part)?;
        }
        if let Fault::Refuses(_, options) = self {
            push_shown(&mut text, options.as_bytes())?;
            text.push(b'\'')?;
        }
        text.push(b'\n')?;
        if let Fault::Differs(_, lines) = self {
            for line in lines.as_slice() {
                text.extend_from_slice(b"    ")?;
                push_shown(&mut text, line.as_bytes())?;
                text.push(b'\n')?;
            }
        }
        Ok(text)
    }
}
