//! The option table of gcc's command line.
#![tactic(auto)]

mod lists;
mod option;
mod rows;

pub use lists::{CLASSES, IGNORED};
pub use option::{OptionRow, Role, Spelling, Takes};
pub use rows::{
    CAPITALS, FEATURES, LATER_LETTERS, LATER_LONG_NAMES, LETTERS, LONG_NAMES, MACHINES, WARNINGS,
};
