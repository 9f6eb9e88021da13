//! The parts of `trials` below whole calls, its script, and the text that it prints.
#![tactic(auto)]

mod answers;
mod calls;
mod choosing;
mod names;
mod planning;
mod running;
mod script;
mod showing;
mod texts;
mod transcript;

pub use calls::try_call;
pub use choosing::choose_blocks;
pub use names::look_up;
pub use planning::plan;
pub use running::{Running, running_of};
pub use script::{read_lines, system};
pub use showing::add_events;
pub use transcript::Transcript;
