//! The outside of a compiler driver: files, variables, streams and children, the journal of what
//! was asked and done, and the facts from it.
#![tactic(auto)]

mod answer_map;
mod command_line;
mod environment;
mod event;
mod facts;
mod files;
mod host;
mod noting;
mod outside;
mod places;
mod processes;
mod reading;
mod reporting;
mod reports;
mod script;
mod seed;
mod signals;
mod system;

pub use command_line::{arguments, called_as, complain};
pub use event::{Event, MOST_BYTES, PathKind, ReadAnswer, TellAnswer};
pub use facts::{FactTable, first_answers_law};
pub use host::HostSystem;
pub use outside::Outside;
pub use processes::call;
pub use reading::read_to_end;
pub use reports::Reporter;
pub use script::ScriptSystem;
pub use seed::clock_seed;
pub use system::System;
