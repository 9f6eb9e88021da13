//! A text of a vendor's spec file in this driver's spec language.

ghost use Rattle.drv_dump.specs.Ours.{put_words};
ghost use Rattle.drv_dump.specs.Vendors.{is_decided, is_macro, macro_test, vendor_text, vendor_words};
ghost use Rattle.drv_dump.specs.declared.fault.OursFault.TheVariants.{Memory};
ghost use Rattle.drv_words.specs.Gives.{Gives};
ghost use Rattle.std.specs.Prelude.{◌≡◌, ◌++◌, OnOk, drop};

use crate::ours::push_piece;
use crate::{Kind, OursFault, Piece, TextFault, read_text};
use drv_words::Word;
use std::alloc::{AllocError, Global};

/// Whether a test is of one macro.
fn is_macro(test: &[u8]) -> bool
    ensures { result ≡ is_macro test.now }
{
    test.starts_with(b"D") && 1 < test.len() && !test.ends_with(b"*")
}

/// Whether the piece before these is a test that decides something.
fn is_decided(rest: &[Piece]) -> bool
    ensures { result ≡ is_decided rest.now }
{
    match rest {
        [next, ..] => matches!(next.kind, Kind::Then | Kind::Either),
        [] => false,
    }
}

/// The name of a macro in its test.
fn macro_name<'a>(test: &'a [u8]) -> &'a [u8]
    ensures { result.now ≡ drop 1 test.now }
{
    test.get(1..).unwrap_or(&[])
}

/// Adds the switch of the front that is in place of a macro.
fn push_macro(test: &[u8], word: &mut Word) -> Result<(), AllocError>
    ensures { OnOk result (word.new ≡ word.old ++ macro_test test.now) }
{
    let name = macro_name(test);
    word.extend_from_slice(b"-gdrv-define=")?;
    word.extend_from_slice(name)
}

/// Adds to a word what a piece becomes before these.
fn push_vendor_piece(
    alloc: Global,
    piece: &Piece,
    rest: &[Piece],
    word: &mut Word,
) -> Result<(), OursFault>
    ensures { Gives Memory (λ u. word.new) result
        (put_words word.old (vendor_words piece.now.kind piece.now.bytes rest.now) piece.now.bytes) }
{
    let bytes = piece.bytes.as_bytes();
    if !matches!(piece.kind, Kind::Test) || !is_macro(bytes) {
        return push_piece(alloc, piece, word);
    }
    if !is_decided(rest) {
        return Err(OursFault::Lacking(Word::from_bytes(alloc, bytes)?));
    }
    Ok(push_macro(bytes, word)?)
}

/// A text of a vendor's spec file in this driver's spec language: its words are those of a text of
/// gcc, but for the test of a macro, which becomes one of a switch of the front.
///
/// # Errors
/// As for `translate_text`; `Lacking` also with a macro that is no test.
#[tactic(auto, using(crate::proofs::VendorTexts::piece_next, crate::proofs::VendorTexts::piece_refused))]
pub fn translate_vendors(alloc: Global, text: &[u8]) -> Result<Word, OursFault>
    ensures { Gives Memory (λ word. word) result (vendor_text text.now) }
{
    let pieces = match read_text(alloc, text) {
        Ok(pieces) => pieces,
        Err(TextFault::Memory) => return Err(OursFault::Memory),
        Err(TextFault::Unreadable(misfit, at)) => return Err(OursFault::Unreadable(misfit, at)),
    };
    let mut word = Word::empty(alloc);
    let mut left = pieces.as_slice();
    while let [piece, rest @ ..] = left {
        push_vendor_piece(alloc, piece, rest, &mut word)?;
        left = rest;
    }
    Ok(word)
}
