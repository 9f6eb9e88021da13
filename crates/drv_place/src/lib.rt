//! Where in a spec file's text the bytes are that are left of it.
#![tactic(auto)]

mod lines;
mod settling;
mod slices;

pub use lines::{line_after, line_before, line_number};
pub use settling::{Settled, settle};
pub use slices::{after_first, first_of, item_or};
