//! Spec files: named texts and suffix pairs, loaded and dumped.
#![tactic(auto)]

mod builtin_specs;
pub mod bytes;
mod changing;
mod directive;
mod dumping;
mod entries;
mod fault;
mod laws;
pub mod lines;
mod loading;
mod named_texts;
mod places;
mod reading;
mod set;
mod settling;
mod text;

pub use builtin_specs::{builtin, suffixes};
pub use changing::{appends, begins_with_at, is_name};
pub use directive::{Directive, IfMissing};
pub use fault::SpecsFault;
pub use laws::{directives_are_read, dump_reloads, loading_keeps};
pub use reading::first_directive;
pub use set::SpecSet;
pub use settling::settle;
