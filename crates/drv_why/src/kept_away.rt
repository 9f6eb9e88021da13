//! What kept a word away.

use crate::answering::View;
use crate::parts::{around, earlier, is_break, list_end, part_extent};
use crate::texts::{Known, Naming};
use drv_machine::{Taken, Trace};
use drv_syntax::{SpecTree, TokenKind};
use drv_words::Word;
use std::alloc::AllocError;

/// Whether the item at a place ends a word, in a list that ends at a place.
fn is_end(text: &SpecTree, at: usize, end: usize) -> bool {
    match text.tokens().get(at) {
        Some(token) => at >= end || is_break(token.kind),
        None => true,
    }
}

/// Whether the item before a place is a byte of the same word.
fn is_inside(text: &SpecTree, at: usize) -> bool {
    let tokens = text.tokens();
    let Some(before) = at.checked_sub(1) else {
        return false;
    };
    let is_plain = match tokens.get(before) {
        Some(token) => matches!(token.kind, TokenKind::Plain | TokenKind::Escape),
        None => false,
    };
    is_plain && around(tokens, before) == around(tokens, at)
}

/// Whether a word begins with the plain bytes at a place, as far as a text has them.
fn has_word(text: &SpecTree, at: usize, word: &[u8]) -> bool {
    if is_inside(text, at) {
        return false;
    }
    let end = list_end(text.tokens(), at);
    let bytes = text.plain_bytes(at, end);
    if is_end(text, at.saturating_add(bytes.len()), end) {
        return bytes == word;
    }
    bytes.len() > 1 && word.starts_with(bytes)
}

/// What was taken of an alternative of a text, if it was.
fn taken_at(trace: &Trace, text: usize, alternative: usize) -> Option<Taken> {
    let taken = trace.taken.as_slice().iter().find(|taken| taken.text == text
        && taken.alternative == alternative)?;
    Some(*taken)
}

/// The outermost alternative around a place that was not taken.
fn untaken(trace: &Trace, number: usize, text: &SpecTree, at: usize) -> Option<usize> {
    for (place, token) in text.tokens().iter().enumerate() {
        if place >= at {
            return None;
        }
        let is_around = at < token.next && matches!(token.kind, TokenKind::Alternative);
        if is_around && taken_at(trace, number, place).is_none() {
            return Some(place);
        }
    }
    None
}

impl<'a> View<'a> {
    /// Adds why an alternative was not taken: a true test of an earlier one, or its own tests.
    fn push_untaken(
        &self,
        text: &mut Vec<u8>,
        trace: &Trace,
        number: usize,
        known: &Known<'a>,
        alternative: usize,
    ) -> Result<(), AllocError> {
        for at in earlier(self.alloc, known.tree.tokens(), alternative)? {
            if let Some(taken) = taken_at(trace, number, at) {
                return self.push_tests(text, b"  since ", known, at, Some(taken.test));
            }
        }
        self.push_tests(text, b"  since ", known, alternative, None)
    }

    /// Why an item of a text was not reached where that was first run.
    fn unreached(&self, item: Naming) -> Result<Vec<u8>, AllocError> {
        let mut why = Vec::new(self.alloc);
        for (place, numbers) in self.numbers.iter().enumerate() {
            for (number, text) in numbers.iter().enumerate() {
                if *text == item.text
                    && why.is_empty()
                    && let Some(trace) = self.trace(place)
                    && let Some(known) = self.known.get(*text)
                    && let Some(untaken) = untaken(trace, number, known.tree, item.token)
                {
                    self.push_untaken(&mut why, trace, number, known, untaken)?;
                }
            }
        }
        Ok(why)
    }

    /// An item, or for one of a text that was not run the item of one that was which leads to it.
    fn leading(&self, item: Naming) -> Naming {
        let mut item = item;
        for _ in 0..self.known.len() {
            if let Some(known) = self.known.get(item.text)
                && let Some(from) = known.from
            {
                item = from;
            }
        }
        item
    }

    /// Whether a text was run.
    fn is_run(&self, text: usize) -> bool {
        self.numbers
            .iter()
            .any(|numbers| numbers.iter().any(|number| *number == text))
    }

    /// Adds an item that was not reached, with the tests that kept it away.
    fn push_away(
        &self,
        text: &mut Vec<u8>,
        known: &Known<'a>,
        item: Naming,
    ) -> Result<(), AllocError> {
        let leading = self.leading(item);
        let mut why = self.unreached(leading)?;
        if why.is_empty() && !self.is_run(leading.text) {
            why.extend_from_slice(b"  since nothing is linked\n")?;
        }
        if why.is_empty() {
            return Ok(());
        }
        self.push_part(
            text,
            known,
            part_extent(self.alloc, known.tree, item.token)?,
        )?;
        text.push(b'\n')?;
        text.extend_from_slice(why.as_slice())
    }

    /// The places where a word is written and which were not reached, each with the tests that kept it
    /// away; and what kept the switch away that it is.
    pub(crate) fn away_text(&self, word: &Word) -> Result<Vec<u8>, AllocError> {
        let mut text = Vec::new(self.alloc);
        for (place, known) in self.known.iter().enumerate() {
            for (token, item) in known.tree.tokens().iter().enumerate() {
                if matches!(item.kind, TokenKind::Plain)
                    && has_word(known.tree, token, word.as_bytes())
                {
                    self.push_away(&mut text, known, Naming { text: place, token })?;
                }
            }
        }
        self.push_fates(&mut text, word)?;
        if text.is_empty() {
            text.extend_from_slice(b"no test kept it away\n")?;
        }
        Ok(text)
    }
}
