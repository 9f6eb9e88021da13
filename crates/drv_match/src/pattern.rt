//! Patterns of a spec that name switches: `S` and `S*`.

ghost use Rattle.drv_match.specs.Matching.{is_broad, is_named};
ghost use Rattle.std.specs.Prelude.{◌≡◌};

use std::marker::Model;

/// A pattern of switches. It names the switches of this name or, with a star, those whose names
/// begin with it. It borrows its name.
#[derive(Drop)]
pub struct Pattern<'a> {
    pub name: &'a [u8],
    pub star: bool,
}

impl<'a> Model for Pattern<'a> {
    ghost use Rattle.drv_match.specs.Pattern as specs;

    ghost Value = { specs.Pattern };

    ghost view = { λ p. record { name = p.name.now; star = p.star } };
}

impl<'a> Pattern<'a> {
    /// Whether the pattern names a switch of this name (GCC manual, "Spec Files", `%{S}`, `%{S*}`).
    pub fn is_named(&self, name: &[u8]) -> bool
        ensures { result ≡ is_named self.now name.now }
    {
        if self.star {
            name.starts_with(self.name)
        } else {
            name == self.name
        }
    }

    /// Whether the pattern also hits cancelled switches: it has a star and a name of at most one
    /// byte.
    pub fn is_broad(&self) -> bool
        ensures { result ≡ is_broad self.now }
    {
        self.star && self.name.len() <= 1
    }
}
