//! The arguments of a driver: expands response files, and reads words by the option table.
#![tactic(auto)]

mod building;
mod expansion;
mod fault;
mod items;
mod jobs;
mod judging;
mod laws;
mod line;
mod option_table;
mod reading;
mod rows;

pub use expansion::{expand, expand_within};
pub use fault::ArgsFault;
pub use items::{Item, line_of};
pub use jobs::Jobs;
pub use judging::stops;
pub use laws::{items_are_fronts, one_expansion};
pub use line::{Expanded, Input, Line, Settings, Switch};
pub use option_table::{Effect, Setting, Tool};
pub use reading::read;
