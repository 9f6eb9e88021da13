//! The run of a plan as pure steps: the next step, and the effect of each answer.
#![tactic(auto)]

mod action;
mod fleet;
mod law;
mod leftovers;
mod needed;
mod numbering;
mod run;
mod source;
mod window;
mod work;

pub use action::Action;
pub use law::{
    bound_law, interleaving_law, linking_law, possible_law, removal_law, report_law, started_first,
    waiting_law,
};
pub use needed::events_needed;
pub use run::Run;
pub use window::Window;
