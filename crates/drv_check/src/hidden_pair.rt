//! Which pairs of spec files later ones hide.

ghost use Rattle.drv_check.specs.HiddenPairs.{covers_key, ends_key, hides_key, is_hidden, key_in};
ghost use Rattle.std.specs.List.{list_any};
ghost use Rattle.std.specs.Option.{option_map};
ghost use Rattle.std.specs.Prelude.{◌≡◌};

use crate::pieces::Piece;
use drv_specs::{Directive, begins_with_at, first_directive};

/// The key of a pair that a piece puts.
pub(crate) fn key_in(text: &[u8]) -> Option<&[u8]>
    ensures { option_map (λ key. key.now) result ≡ key_in text.now }
{
    match first_directive(text) {
        Some(Directive::Pair { key, .. }) => Some(key),
        _ => None,
    }
}

/// Whether a suffix fits each name that another one fits.
fn ends_key(key: &[u8], other: &[u8]) -> bool
    ensures { result ≡ ends_key key.now other.now }
{
    !begins_with_at(key) && !begins_with_at(other) && key.ends_with(other)
}

/// Whether a key fits all that the first one fits, if it is there.
fn covers_key(key: &[u8], other: Option<&[u8]>) -> bool
    ensures { result ≡ covers_key key.now (option_map (λ other. other.now) other.entry) }
{
    match other {
        Some(other) => key == other || ends_key(key, other),
        None => false,
    }
}

/// Whether a piece puts a pair that counts wherever one of this key would.
fn hides_key(key: &[u8], piece: &Piece) -> bool
    ensures { result ≡ hides_key key.now piece.now }
{
    covers_key(key, key_in(piece.text.as_bytes()))
}

/// Whether a piece among these hides a pair of this key.
fn is_covered(key: &[u8], later: &[Piece]) -> bool
    ensures { result ≡ list_any (hides_key key.now) later.now }
{
    for piece in later {
        if hides_key(key, piece) {
            return true;
        }
    }
    false
}

/// Whether a later piece hides the pair of this key.
pub(crate) fn is_hidden(key: Option<&[u8]>, later: &[Piece]) -> bool
    ensures { result ≡ is_hidden (option_map (λ key. key.now) key.entry) later.now }
{
    match key {
        Some(key) => is_covered(key, later),
        None => false,
    }
}
