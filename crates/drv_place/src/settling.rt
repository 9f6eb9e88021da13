//! What is left of a spec file's text, and where its bytes are in the file.

ghost use Rattle.drv_place.specs.Settling.{marked_from, marked_onto, nothing, places_of};
ghost use Rattle.drv_specs.specs.Lines.{settle};
ghost use Rattle.std.specs.Prelude.{◌≡◌, IfOk, OnOk, Some, map, slice_get};

use drv_words::{Listing, Word};
use std::alloc::{AllocError, Global};

/// What is left of a spec file's text: its bytes, and the place of each of them in the file.
#[derive(Drop)]
pub struct Settled {
    /// The bytes.
    pub text: Word,
    /// The place of each in the file, counted from 0.
    pub places: Listing<usize>,
}

/// Takes one more byte, which is at this place of the file.
fn settle_onto(
    bytes: &mut Vec<u8>,
    places: &mut Vec<usize>,
    place: usize,
    byte: u8,
) -> Result<(), AllocError>
    ensures { OnOk result (record { bytes = bytes.new.items; places = places.new.items }
        ≡ marked_onto (record { bytes = bytes.old.items; places = places.old.items })
        place byte) }
{
    if byte == b'\r' {
        return Ok(());
    }
    // A line that a backslash continues.
    if byte == b'\n' && bytes.as_slice().ends_with(b"\\") {
        bytes.pop();
        places.pop();
        return Ok(());
    }
    bytes.push(byte)?;
    places.push(place)?;
    Ok(())
}

/// The bytes that are left of a text, and the place of each.
fn settle_all(alloc: Global, text: &[u8]) -> Result<(Vec<u8>, Vec<usize>), AllocError>
    ensures bytes { IfOk result (λ left. left.0.items ≡ (marked_from nothing 0 text.now).bytes) }
    ensures places { IfOk result (λ left. left.1.items ≡ (marked_from nothing 0 text.now).places) }
{
    let mut bytes = Vec::with_capacity(alloc, text.len())?;
    let mut places = Vec::with_capacity(alloc, text.len())?;
    let mut place = 0;
    for &byte in text {
        settle_onto(&mut bytes, &mut places, place, byte)?;
        place += 1;
    }
    Ok((bytes, places))
}

/// What is left of a spec file's text, without carriage returns and without each pair of a
/// backslash and a newline (GCC manual, "Spec Files"), and where each of its bytes is in the file.
#[tactic(auto, using(crate::proofs::Marking::text_left))]
pub fn settle(alloc: Global, text: &[u8]) -> Result<Settled, AllocError>
    ensures text { IfOk result (λ left. left.text ≡ settle text.now) }
    ensures places { IfOk result (λ left. left.places ≡ places_of text.now) }
    ensures bytes { IfOk result (λ left. map (slice_get text.now) left.places
        ≡ map Some left.text) }
{
    let (bytes, places) = settle_all(alloc, text)?;
    Ok(Settled {
        text: Word::from_vec(bytes),
        places: Listing::from_vec(places),
    })
}
