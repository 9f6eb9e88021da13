//! The hidden switches of a line.

ghost use Rattle.std.specs.Prelude.{◌≡◌, Bool, IfOk, List, false, get_or, length, replicate, set, true};

use crate::switches::Switches;
use std::alloc::{AllocError, Global};
use std::marker::Model;

/// For each switch of a line, whether it is hidden. No pattern hits a hidden switch.
#[derive(Drop)]
pub struct Hidden {
    flags: Vec<bool>,
}

impl Model for Hidden {
    ghost Value = { List Bool };

    ghost view = { λ h. h.flags.items };
}

impl Hidden {
    /// No switch is hidden.
    pub fn new(alloc: Global, switches: &Switches<'_>) -> Result<Hidden, AllocError>
        ensures { IfOk result (λ hidden. hidden ≡ replicate (length switches.now) false) }
    {
        Ok(Hidden {
            flags: vec![in alloc; false; switches.len()]?,
        })
    }

    /// Whether the switch at this place is hidden. None is after the last one.
    pub(crate) fn contains(&self, i: usize) -> bool
        ensures { result ≡ get_or self.now i false }
    {
        i < self.flags.len() && self.flags[i]
    }

    /// Hides the switch at this place, if there is one.
    pub(crate) fn add(&mut self, i: usize)
        ensures { self.new ≡ set self.old i true }
    {
        if i < self.flags.len() {
            self.flags[i] = true;
        }
    }
}
