//! The options that a gcc lists.

use crate::asking::Gcc;
use crate::fault::Fault;
use crate::texts::{add_all, joined, lines_of, sorted_lines};
use drv_words::Word;

/// The classes of options in the help of a gcc.
const CLASSES: [&[u8]; 8] = [
    b"target",
    b"common",
    b"optimizers",
    b"warnings",
    b"c",
    b"joined",
    b"separate",
    b"undocumented",
];

/// Whether a byte ends the name of an option in a line of help.
fn is_end(byte: u8) -> bool {
    matches!(byte, b' ' | b'\t' | b'<' | b'[')
}

/// The part of a name up to what help has in the place of a value.
fn without_value(name: &[u8]) -> &[u8] {
    for value in [b"MCU".as_slice(), b"filename"] {
        if let Some(rest) = name.strip_suffix(value) {
            if rest.ends_with(b"=") {
                return rest;
            }
        }
    }
    name
}

/// The option that a line of help names, without its value; none if it names none.
fn option_in(line: &[u8]) -> Option<&[u8]> {
    let rest = line.strip_prefix(b"  -".as_slice())?;
    let end = rest
        .iter()
        .position(|byte| is_end(*byte))
        .unwrap_or(rest.len());
    let name = line.get(2..end.saturating_add(3))?;
    Some(without_value(name))
}

/// Adds the option that turns another off, if that has one.
fn push_negative(list: &mut Word, option: &[u8]) -> Result<(), Fault> {
    match option {
        [b'-', b'f' | b'm' | b'W', _, ..] if !option.contains(&b'=') => {
            let (letter, name) = option.split_at(2.min(option.len()));
            add_all(list, &[letter, b"no-", name, b"\n"])
        }
        _ => Ok(()),
    }
}

/// Adds the options in lines of help, and those that turn them off.
fn push_helped(list: &mut Word, help: &[u8]) -> Result<(), Fault> {
    for line in help.split(|byte| *byte == b'\n') {
        if let Some(option) = option_in(line) {
            add_all(list, &[option, b"\n"])?;
            push_negative(list, option)?;
        }
    }
    Ok(())
}

/// The options that a gcc lists, with what it says of them. An older one has no `--completion=`, but
/// help.
pub fn option_list(gcc: Gcc<'_>) -> Result<Word, Fault> {
    let said = gcc.ask(b"--completion=-")?;
    if said.is_done {
        return Ok(said.out);
    }
    let mut list = Word::empty(gcc.alloc());
    for class in CLASSES {
        let question = joined(gcc.alloc(), &[b"--help=".as_slice(), class])?;
        push_helped(&mut list, gcc.ask(question.as_bytes())?.out.as_bytes())?;
    }
    lines_of(
        gcc.alloc(),
        sorted_lines(gcc.alloc(), list.as_bytes())?.as_slice(),
    )
}
