//! What is left of a text, and its place in it.

ghost use Rattle.drv_syntax.specs.Rest.{after, begins_with, first_of, past_byte, second_of};
ghost use Rattle.drv_syntax.specs.Bytes.{is_white};
ghost use Rattle.std.specs.List.{prefix_len};
ghost use Rattle.std.specs.Prelude.{◌≡◌, ◌≤◌, ◌+◌, drop, length, take};

use crate::descent::runs::{RunKind, run_length};
use crate::descent::words::begins;
use std::marker::Model;

/// How much white space a text begins with.
#[inline(always)]
fn white_length(text: &[u8]) -> usize
    ensures run { result ≡ prefix_len is_white text.now }
    ensures within { result ≤ length text.now }
{
    run_length(RunKind::White, text)
}

/// What is left of a text.
#[derive(Drop)]
pub struct Rest<'a> {
    at: u32,
    bytes: &'a [u8],
}

impl<'a> Model for Rest<'a> {
    ghost use Rattle.drv_syntax.specs.Rest.{Left};
    ghost use Rattle.std.specs.Prelude.{◌≤◌, ◌+◌, length};

    ghost Value = { Left };

    ghost view = { λ r. record { at = r.at; bytes = r.bytes.now } };

    ghost invariant = { λ r. r.at + length r.bytes.now ≤ 1048576 };
}

impl<'a> Rest<'a> {
    /// These bytes are left, the first of which has this place.
    pub fn new(at: u32, bytes: &'a [u8]) -> Rest<'a>
        requires { at + length bytes.now ≤ 1048576 }
        ensures { result ≡ record { at = at; bytes = bytes.now } }
    {
        Rest { at, bytes }
    }

    /// The place of its first byte.
    #[inline(always)]
    pub fn at(&self) -> u32
        ensures place { result ≡ self.now.at }
        ensures room { self.now.at + length self.now.bytes ≤ 1048576 }
    {
        self.at
    }

    /// The bytes that are left.
    #[inline(always)]
    pub fn bytes(&self) -> &'a [u8]
        ensures { result.now ≡ self.now.bytes }
    {
        self.bytes
    }

    /// Takes so many bytes of what is left, and returns them.
    #[inline(always)]
    pub fn take(&mut self, size: usize) -> &'a [u8]
        requires { size ≤ length self.old.bytes }
        ensures left { self.new ≡ after size self.old }
        ensures taken { result.now ≡ take size self.old.bytes }
    {
        let bytes = self.bytes;
        self.at += size as u32;
        self.bytes = &bytes[size..];
        &bytes[..size]
    }

    /// Takes the white space that comes next.
    #[inline(always)]
    pub fn skip_white(&mut self)
        ensures { self.new ≡ after (prefix_len is_white self.old.bytes) self.old }
    {
        self.take(white_length(self.bytes));
    }

    /// This byte comes next, or white space and then this byte.
    #[inline(always)]
    pub fn begins_after_white(&self, b: u8) -> bool
        ensures { result ≡ begins_with b
            (drop (prefix_len is_white self.now.bytes) self.now.bytes) }
    {
        begins(b, &self.bytes[white_length(self.bytes)..])
    }

    /// The byte that comes next, if there is one.
    #[inline(always)]
    pub fn first(&self) -> Option<u8>
        ensures { result ≡ first_of self.now.bytes }
    {
        match self.bytes {
            [] => None,
            [b, ..] => Some(*b),
        }
    }

    /// The byte after the one that comes next, if there is one.
    #[inline(always)]
    pub fn second(&self) -> Option<u8>
        ensures { result ≡ second_of self.now.bytes }
    {
        match self.bytes {
            [_, b, ..] => Some(*b),
            _ => None,
        }
    }

    /// Takes this byte, if it comes next.
    #[inline(always)]
    pub fn take_if(&mut self, b: u8)
        ensures { self.new ≡ past_byte b self.old }
    {
        if let [first, ..] = self.bytes {
            if *first == b {
                self.take(1);
            }
        }
    }
}
