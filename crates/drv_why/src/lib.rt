//! Where the words of a plan are from, and what kept a word away.
#![tactic(auto)]

mod answering;
mod causes;
mod fates;
mod kept_away;
mod parts;
mod texts;
mod words;

pub use answering::{Asked, Explained, answer};
