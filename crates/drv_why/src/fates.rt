//! What kept a switch of a line away.

ghost use Rattle.drv_match.specs.Matching.{cancels, is_negative_of, negative};
ghost use Rattle.std.specs.Prelude.{◌≡◌};

use crate::answering::View;
use crate::causes::option_of;
use crate::parts::own_extent;
use drv_args::Switch;
use drv_machine::Deed;
use drv_match::{has_negative, is_level};
use drv_words::{Word, push_quoted};
use std::alloc::AllocError;

/// Whether a name is the negative form of another one.
fn is_negative_of(other: &[u8], name: &[u8]) -> bool
    ensures { result ≡ is_negative_of other.now name.now }
{
    if !has_negative(name) {
        return false;
    }
    match (name, other) {
        ([letter, rest @ ..], [first, b'n', b'o', b'-', after @ ..]) => {
            letter == first && rest == after
        }
        _ => false,
    }
}

/// Whether a switch of a name cancels an earlier one.
fn cancels(later: &[u8], name: &[u8]) -> bool
    ensures { result ≡ cancels later.now name.now }
{
    is_level(later) && is_level(name) || is_negative_of(later, name) || is_negative_of(name, later)
}

/// The first later switch that cancels the one at a place.
fn canceller(switches: &[Switch], place: usize) -> Option<&Switch> {
    let switch = switches.get(place)?;
    let later = switches.get(place.saturating_add(1)..)?;
    later.iter().find(|other| cancels(other.name.as_bytes(), switch.name.as_bytes()))
}

impl<'a> View<'a> {
    /// Adds the items that hid the switch at a place, each once.
    fn push_hidings(&self, text: &mut Vec<u8>, switch: usize) -> Result<(), AllocError> {
        let mut told = Vec::new(self.alloc);
        for trace in 0..self.explained.traces.len() {
            let Some(noted) = self.trace(trace) else {
                continue;
            };
            for met in noted.met.as_slice() {
                let item = (self.place(trace, met.text), met.token);
                if met.switch == switch
                    && matches!(met.deed, Deed::Hides)
                    && !told.iter().any(|other| *other == item)
                    && let Some(known) = self.text(trace, met.text)
                {
                    text.extend_from_slice(b"  hidden by ")?;
                    self.push_part(text, known, own_extent(known.tree, met.token))?;
                    text.push(b'\n')?;
                    told.push(item)?;
                }
            }
        }
        Ok(())
    }

    /// What kept away the switch at a place: a later one that cancels it, and items that hid it.
    fn fate(&self, switches: &[Switch], place: usize) -> Result<Vec<u8>, AllocError> {
        let mut text = Vec::new(self.alloc);
        if let Some(other) = canceller(switches, place) {
            text.extend_from_slice(b"  cancelled by ")?;
            push_quoted(&mut text, &option_of(self.alloc, &other.name)?)?;
            text.push(b'\n')?;
        }
        self.push_hidings(&mut text, place)?;
        Ok(text)
    }

    /// Adds what kept a word away that is a switch.
    pub(crate) fn push_fates(&self, text: &mut Vec<u8>, word: &Word) -> Result<(), AllocError> {
        let switches = self.explained.line.switches.as_slice();
        for (place, switch) in switches.iter().enumerate() {
            let fate = self.fate(switches, place)?;
            if option_of(self.alloc, &switch.name)? == *word && !fate.is_empty() {
                push_quoted(text, word)?;
                text.push(b'\n')?;
                text.extend_from_slice(fate.as_slice())?;
            }
        }
        Ok(())
    }
}
