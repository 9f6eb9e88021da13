//! A call of the driver: from its arguments to the end of its run.
#![tactic(auto)]

mod choosing;
mod deciding;
mod doing;
mod driving;
mod ending;
mod executing;
mod fronting;
mod laws;
mod making;
mod reading;
mod telling;
mod version;
mod wording;
mod work;

pub use deciding::{load_along, load_specs, work_along, work_of, work_of_call};
pub use doing::do_work;
pub use driving::drive;
pub use ending::{Ending, Refusal};
pub use executing::execute;
pub use laws::{one_ending, refused_does_nothing, same_plan, shown_starts_nothing};
pub use reading::line_of_call;
pub use telling::status_of;
pub use version::VERSION;
pub use wording::{ending_text, fault_line, refusal_text};
pub use work::{Manner, Telling, Work};
