//! The plan of a line: the language of each input, a job for each source, and the link.
#![tactic(auto)]

mod fault;
mod languages;
mod laws;
mod notices;
mod planning;
mod progress;
mod sources;
mod working;

pub use fault::PlanFault;
pub use languages::{Chosen, language};
pub use laws::{plan_law, reload_law};
pub use planning::{Specified, TracedPlan, plan, plan_along, plan_traced};
