//! Words, commands and plans of a compiler driver, and the text that shows them.
#![tactic(auto)]

mod answers;
mod copies;
mod file_names;
mod line_end;
mod listing;
mod ordering;
mod plan;
mod printing;
mod quoting;
mod reading_back;
mod response;
mod steps;
mod sums;
mod word;

pub use answers::{Answer, ClaimAnswer, NotStarted, RemoveAnswer, StartAnswer, WaitAnswer};
pub use copies::{copy_word, copy_words};
pub use file_names::{base, split_at_last, split_suffix, stem};
pub use listing::Listing;
pub use ordering::order;
pub use plan::{Command, Group, Job, Plan, PlanLine, Temp};
pub use printing::{plan_lines, render, render_plan};
pub use quoting::{push_quoted, quote};
pub use reading_back::{one_list_of_lines, read_back};
pub use response::{one_list_of_words, push_marked, respond_text, split, split_onto, split_within};
pub use steps::{Note, Place, RunEvent, Step};
pub use sums::checksum;
pub use word::Word;
