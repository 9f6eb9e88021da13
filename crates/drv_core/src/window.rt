//! How many sources of a run may be under way at once.

use std::marker::Model;

/// How many sources may be under way at once, from 1 to 64.
#[derive(Clone, Copy, Debug)]
pub struct Window {
    sources: usize,
}

impl Model for Window {
    ghost use Rattle.std.specs.Prelude.{◌≤◌, ℕ};

    ghost Value = { ℕ };

    ghost view = { λ w. w.sources };

    ghost invariant = { λ w. (1 ≤ w.sources) × (w.sources ≤ 64) };

    ghost inverse = { λ n. record { sources = n } };
}

impl Window {
    ghost use Rattle.std.specs.Prelude.{◌≡◌, ◌≤◌};

    /// A window of this many sources.
    pub fn new(sources: usize) -> Window
        requires some { 1 ≤ sources }
        requires most { sources ≤ 64 }
        ensures { result ≡ sources }
    {
        Window { sources }
    }

    /// How many sources may be under way at once.
    pub fn sources(self) -> usize
        ensures sources { result ≡ self }
        ensures some { 1 ≤ result }
        ensures most { result ≤ 64 }
    {
        self.sources
    }
}
