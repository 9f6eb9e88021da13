//! The names of a line's switches.

ghost use Rattle.drv_match.specs.Matching.{name_at};
ghost use Rattle.std.specs.Prelude.{◌≡◌, length, map};

use drv_args::Switch;
use std::marker::Model;

/// The names of a line's switches, which are borrowed. Contracts see the list of these names in
/// order.
#[derive(Drop)]
pub struct Names<'a> {
    switches: &'a [Switch],
}

impl<'a> Model for Names<'a> {
    ghost use Rattle.std.specs.Prelude.{List, map, ℕ};

    ghost Value = { List (List ℕ) };

    ghost view = { λ n. map (λ switch. switch.name) n.switches.now };
}

impl<'a> Names<'a> {
    /// The names of these switches.
    pub fn of(switches: &'a [Switch]) -> Names<'a>
        ensures { result ≡ map (λ switch. switch.name) switches.now }
    {
        Names { switches }
    }

    /// The number of names.
    pub fn len(&self) -> usize
        ensures { result ≡ length self.now }
    {
        self.switches.len()
    }

    /// The name at this place, or the empty name after the last one.
    pub fn get(&self, place: usize) -> &'a [u8]
        ensures { result.now ≡ name_at self.now place }
    {
        if place < self.switches.len() {
            self.switches[place].name.as_bytes()
        } else {
            &[]
        }
    }
}
