//! The variables of this process.

use crate::host::as_text;
use drv_words::Word;
use std::alloc::AllocError;
use std::env::{self, FillError, VarError};
use std::rt::Env;
use std::str;

/// The most variables that are read at once. Reading some takes less than one look by a name, for
/// which the kit clears the room of a path.
const FEW: usize = 32;

/// The room for a variable with its name, in bytes.
const ROOM: usize = 1024;

/// What is known of the variables of this process.
#[derive(Drop)]
pub(crate) enum Environment {
    /// Nothing yet.
    Unread,
    /// All of them, each as its name, `=` and its value.
    Whole(Vec<Word>),
    /// Nothing: there are many, or one is long.
    Many,
}

impl Environment {
    /// The value of a variable, if it is set and is text.
    pub(crate) fn value(
        &mut self,
        rt: &HostRuntime,
        name: &Word,
    ) -> Result<Option<Word>, AllocError> {
        let Some(name) = as_text(name.as_bytes()) else {
            return Ok(None);
        };
        // This program changes no variable, so they are read once.
        if matches!(self, Environment::Unread) {
            *self = read(rt)?;
        }
        match self {
            Environment::Whole(entries) => value_among(rt, entries.as_slice(), name),
            Environment::Unread | Environment::Many => value_of(rt, name),
        }
    }
}

/// The value of a variable, if it is set and is text. The system is asked by its name.
pub(crate) fn value_of(rt: &HostRuntime, name: &str) -> Result<Option<Word>, AllocError> {
    match env::var(rt, name) {
        Ok(value) => Ok(Some(Word::from_vec(value.into_bytes()))),
        Err(VarError::OutOfMemory) => Err(AllocError),
        Err(_) => Ok(None),
    }
}

/// Whether there are more variables than are read at once.
fn are_many(rt: &HostRuntime) -> bool {
    !matches!(rt.var_at(FEW, &mut [0u8]), Err(FillError::NotPresent))
}

/// Reads all variables, if they are few.
fn read(rt: &HostRuntime) -> Result<Environment, AllocError> {
    // Of many variables a call asks for few, by name.
    if are_many(rt) {
        return Ok(Environment::Many);
    }
    let mut entries = Vec::new(rt.alloc());
    let mut room = [0u8; ROOM];
    for place in 0..FEW {
        match rt.var_at(place, &mut room) {
            Ok(length) => entries.push(Word::from_bytes(rt.alloc(), &room[..length])?)?,
            Err(FillError::NotPresent) => break,
            Err(FillError::TooLong) => return Ok(Environment::Many),
        }
    }
    Ok(Environment::Whole(entries))
}

/// The value after a name in an entry, if that is an entry of this name.
fn value_in<'e>(entry: &'e [u8], name: &[u8]) -> Option<&'e [u8]> {
    match entry.strip_prefix(name)? {
        [b'=', value @ ..] => Some(value),
        _ => None,
    }
}

/// Whether a text can be the name of a variable.
fn is_name(name: &str) -> bool {
    !(name.is_empty() || name.as_bytes().contains(&b'='))
}

/// The value of the first of these entries that is of a name, if that is text.
fn value_among(rt: &HostRuntime, entries: &[Word], name: &str) -> Result<Option<Word>, AllocError> {
    if !is_name(name) {
        return Ok(None);
    }
    for entry in entries {
        if let Some(value) = value_in(entry.as_bytes(), name.as_bytes()) {
            return text_of(rt, value);
        }
    }
    Ok(None)
}

/// Bytes as a word, if they are text.
fn text_of(rt: &HostRuntime, bytes: &[u8]) -> Result<Option<Word>, AllocError> {
    match str::from_utf8(bytes) {
        Ok(_) => Ok(Some(Word::from_bytes(rt.alloc(), bytes)?)),
        Err(_) => Ok(None),
    }
}
