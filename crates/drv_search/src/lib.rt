//! Searches for programs, files and linker scripts.
#![tactic(auto)]

mod fault;
mod folders;
mod prefixes;
mod searching;

pub use fault::SearchFault;
pub use folders::dir_options;
pub use prefixes::Prefixes;
pub use searching::{find_file, find_program, find_script};
