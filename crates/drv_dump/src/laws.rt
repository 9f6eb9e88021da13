//! Laws of the definitions that the contracts cite.

ghost use Rattle.drv_dump.specs.Texts.{pieces_of, written};
ghost use Rattle.drv_dump.specs.declared.piece.Piece.{Piece};
ghost use Rattle.std.specs.Prelude.{◌≡◌, List, Ok, ℕ};

/// A law: the pieces of a text are written as that text, byte for byte.
pub fn text_is_kept()
    ensures { (text : List ℕ) (pieces : List Piece) → pieces_of text ≡ Ok pieces → written pieces ≡ text }
{}
