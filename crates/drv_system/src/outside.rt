//! A system with what is known of it.

use crate::FactTable;

/// The system with the table of its answers. A call asks the system only if the table has no
/// answer.
#[derive(Drop)]
pub struct Outside<'a, S> {
    /// The system.
    pub sys: &'a mut S,
    /// The first answer to each question.
    pub facts: &'a mut FactTable,
}
