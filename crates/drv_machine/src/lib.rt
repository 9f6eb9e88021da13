//! A spec text worked: its job and its cost, or its first refusal.
#![tactic(auto)]

mod asking;
mod braces;
mod calling;
mod context;
mod cut_laws;
mod emitting;
mod failing;
mod fault;
mod filing;
mod grammar;
mod hits;
mod items;
mod machine;
mod meeting;
mod named;
mod names;
mod outcome;
mod placing;
mod stack;
mod tokens_at;
mod trace;
mod tracing;
mod turns;
mod walk;
mod watch;
mod whole;

pub use context::{Context, Given, Source};
pub use cut_laws::{command_law, cut_law, file_law, text_law};
pub use fault::MachineFault;
pub use grammar::function_names;
pub use outcome::Outcome;
pub use trace::{Deed, Met, Origin, Taken, Trace};
pub use whole::{Traced, run, run_traced};
