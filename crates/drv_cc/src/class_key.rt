//! The class of an item as a key of a set.

ghost use Rattle.std.proofs.Common.{ap};
ghost use Rattle.std.proofs.lemmas.Slice.Eq.{slice_eq-Decides};
ghost use Rattle.std.specs.Cmp.{partial_equiv_from_equiv, unsigned_Decides};
ghost use Rattle.std.specs.Cmp.Lexicographic.{nat_list_eq_equiv, pointwise};
ghost use Rattle.std.specs.Prelude.{◌≡◌, ◌∷◌, [], List, nat_eq, refl, ℕ};

use std::hash::{Hash, Hasher};
use std::marker::Model;

/// The class of an item. All its bytes are hashed at once, where a word's are hashed one by one.
#[derive(Drop)]
pub(crate) struct ClassKey<'i> {
    bytes: &'i [u8],
}

impl<'i> Model for ClassKey<'i> {
    ghost Value = { List ℕ };

    ghost view = { λ class. class.bytes.now };
}

impl<'i> ClassKey<'i> {
    /// The key of a class.
    pub(crate) fn of(bytes: &'i [u8]) -> ClassKey<'i>
        ensures { result ≡ bytes.now }
    {
        ClassKey { bytes }
    }
}

impl<'i> PartialEq for ClassKey<'i> {
    ghost eq = { pointwise nat_eq };

    ghost laws = { partial_equiv_from_equiv nat_list_eq_equiv };

    fn eq(&self, other: &ClassKey<'i>) -> bool {
        self.bytes == other.bytes
    }
}

impl<'i> Eq for ClassKey<'i> {
    ghost laws = { nat_list_eq_equiv };
}

impl<'i> Hash for ClassKey<'i> {
    ghost hash_input = { λ class. class ∷ [] };

    ghost respects_eq = { λ x y equal. ap (λ class. class ∷ [])
        ((slice_eq-Decides unsigned_Decides x y (pointwise nat_eq x y) refl).0 equal) };

    fn hash<H: Hasher>(&self, state: &mut H) {
        state.write(self.bytes);
    }
}
