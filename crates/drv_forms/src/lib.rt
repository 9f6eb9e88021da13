//! Plans in forms that other programs read, JSON and a script for the shell; and what differs between
//! two plans.
#![tactic(auto)]

mod comparing;
mod editing;
mod gathering;
mod json_form;
mod laws;
mod pieces;
mod scripting;
mod shell;
mod stems;

pub use comparing::{Detail, difference_text};
pub use editing::{Edit, edits};
pub use json_form::{plan_json, put_number, put_word, put_words};
pub use laws::words_are_read_back;
pub use scripting::script;
