//! A spec text read in pieces.

ghost use Rattle.drv_dump.specs.Grammar.{is_whole};
ghost use Rattle.drv_dump.specs.Texts.{at_end, begun, closed, pieces_of, read_at, with_byte};
ghost use Rattle.drv_dump.specs.declared.fault.TextFault.TheVariants.{Memory};
ghost use Rattle.drv_words.specs.Gives.{Gives};
ghost use Rattle.std.specs.Prelude.{◌≡◌, ◌∷◌, ◌++◌, [], OnOk};

use crate::turn::{InPiece, Place, Turn, turn_at};
use crate::{Kind, Misfit, Piece, TextFault};
use drv_words::{Listing, Word};
use std::alloc::{AllocError, Global};
use std::mem;

/// A text that is read byte by byte: the pieces before the last one, the last one, and the place of
/// the next byte, inside how many braces.
#[derive(Drop)]
pub(crate) struct Reader {
    pub(crate) done: Listing<Piece>,
    pub(crate) last: Piece,
    pub(crate) place: Place,
    pub(crate) depth: usize,
}

/// A text can end at this place.
fn is_whole(place: Place, depth: usize) -> bool
    ensures { result ≡ is_whole place depth }
{
    depth == 0 && matches!(place, Place::Ready | Place::Text | Place::Message)
}

impl Reader {
    /// A text before its first byte is read.
    fn new(alloc: Global) -> Reader
        ensures { result ≡ begun }
    {
        Reader {
            done: Listing::new(alloc),
            last: Piece {
                kind: Kind::Text,
                bytes: Word::empty(alloc),
            },
            place: Place::Ready,
            depth: 0,
        }
    }

    /// Moves the last piece to those before it, if it has a byte.
    fn close(&mut self, alloc: Global) -> Result<(), AllocError>
        ensures done { OnOk result (self.new.done ≡ closed self.old) }
        ensures last { OnOk result (self.new.last.bytes ≡ []) }
    {
        if self.last.bytes.is_empty() {
            return Ok(());
        }
        let bytes = mem::replace(&mut self.last.bytes, Word::empty(alloc));
        self.done.push(Piece {
            kind: self.last.kind,
            bytes,
        })?;
        Ok(())
    }

    /// Adds a byte to a new piece, or to the last one.
    fn push(
        &mut self,
        alloc: Global,
        in_piece: InPiece,
        kind: Kind,
        byte: u8,
    ) -> Result<(), AllocError>
        ensures { OnOk result (self.new ≡ with_byte self.old in_piece kind self.new.place self.new.depth byte) }
    {
        if let InPiece::First = in_piece {
            self.close(alloc)?;
        }
        self.last.kind = kind;
        self.last.bytes.push(byte)
    }

    /// Reads the byte at a place of the text.
    fn take(&mut self, alloc: Global, at: usize, byte: u8) -> Result<(), TextFault>
        ensures { Gives Memory (λ u. self.new) result (read_at self.old at byte) }
    {
        match turn_at(self.place, self.depth, byte) {
            Turn::Reads {
                in_piece,
                kind,
                place,
                depth,
            } => {
                self.push(alloc, in_piece, kind, byte)?;
                self.place = place;
                self.depth = depth;
                Ok(())
            }
            Turn::Refused(misfit) => Err(TextFault::Unreadable(misfit, at)),
        }
    }

    /// The pieces of a text that ends at this place.
    fn finish(mut self, alloc: Global, at: usize) -> Result<Listing<Piece>, TextFault>
        ensures { Gives Memory (λ pieces. pieces) result (at_end (is_whole self.place self.depth) self at) }
    {
        if !is_whole(self.place, self.depth) {
            return Err(TextFault::Unreadable(Misfit::Unclosed, at));
        }
        self.close(alloc)?;
        Ok(self.done)
    }
}

/// The pieces of a spec text: their bytes, one after another, are the text.
///
/// # Errors
/// `Unreadable` with the first byte that fits nothing, and what is wrong with it; with the length of
/// a text that isn't whole.
pub fn read_text(alloc: Global, text: &[u8]) -> Result<Listing<Piece>, TextFault>
    ensures { Gives Memory (λ pieces. pieces) result (pieces_of text.now) }
{
    let mut reader = Reader::new(alloc);
    for (at, byte) in text.iter().enumerate() {
        reader.take(alloc, at, *byte)?;
    }
    reader.finish(alloc, text.len())
}
