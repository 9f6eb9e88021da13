//! The spec file of a gcc, made of what it answers: its dump, where it has files and programs, and
//! what it adds for its machine. And whether two drivers plan the same.
#![tactic(auto)]

mod answers;
mod choices;
mod composing;
mod fixed;
mod halving;
mod hiding;
mod listed;
mod plans;
mod programs;
mod replacing;
mod toolchain;
mod words;

pub use answers::{gcc_file, named_texts, values, with_mark};
pub use composing::{
    file_text, folder_text, libraries, placed_text, rooted_text, spec_file, words_text,
};
pub use halving::{halve, halves_find_all};
pub use listed::{option_lines, options};
pub use plans::same_commands;
pub use replacing::replace;
pub use toolchain::{
    Alone, Choice, Finding, ForMachine, Included, Linker, NamedText, Program, Programs, SideFiles,
    Toolchain,
};
