//! Matches switches: which switches of a command line are live, and which of these a pattern hits.
#![tactic(auto)]

mod hidden;
mod liveness;
mod names;
mod pattern;
mod sorting;
mod switches;

pub use hidden::Hidden;
pub use liveness::{has_negative, is_level};
pub use pattern::Pattern;
pub use switches::Switches;
