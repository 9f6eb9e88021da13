//! Who is told of each step of a walk.

use crate::Context;
use crate::machine::Machine;
use crate::walk::{Frame, Walk};

/// Gets each step of a walk over a text, of which it changes nothing.
pub(crate) trait Watch {
    /// The walk has reached an item, which is run next.
    fn reach(&mut self, context: &Context<'_>, walk: &Walk<'_>, machine: &Machine);

    /// An open part has ended. What follows it is done next.
    fn end_part(
        &mut self,
        context: &Context<'_>,
        frame: &Frame<'_>,
        walk: &Walk<'_>,
        machine: &Machine,
    );

    /// The text has ended. The open word and its command end next.
    fn end_text(&mut self, machine: &Machine);
}

/// Keeps nothing.
#[derive(Drop)]
pub(crate) struct Unwatched;

impl Watch for Unwatched {
    fn reach(&mut self, _context: &Context<'_>, _walk: &Walk<'_>, _machine: &Machine) {}

    fn end_part(
        &mut self,
        _context: &Context<'_>,
        _frame: &Frame<'_>,
        _walk: &Walk<'_>,
        _machine: &Machine,
    ) {}

    fn end_text(&mut self, _machine: &Machine) {}
}
