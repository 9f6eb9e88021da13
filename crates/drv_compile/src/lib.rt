//! A call of `gdrv-cc`: its name, its spec file and the files beside it, what the words of its line
//! ask for, and the work of that.
#![tactic(auto)]

mod calling;
mod children;
mod compilers;
mod compiling;
mod deciding;
mod driving;
mod expanding;
mod finding;
mod host;
mod inputs;
mod languages;
mod machines;
mod naming;
mod nearest;
mod overwriting;
mod parts;
mod passing;
mod places;
mod preparing;
mod process;
mod reading;
mod refusing;
mod releases;
mod request;
mod row_asking;
mod running;
mod self_specs;
mod sources;
mod speaking;
mod stamps;
mod stop;
mod suffixing;
mod tasks;
mod telling;
mod temp_folder;
mod wording;
mod wrapping;
mod written;

pub use calling::{Calling, Front, calling_of};
pub use compiling::{Outcome, compile};
pub use host::{Host, HostEvent};
pub use nearest::option_meant;
pub use places::beside;
pub use preparing::{Prepared, prepare};
pub use process::{Process, own_specs};
pub use request::Request;
pub use running::DriverLine;
pub use stop::Stop;
pub use temp_folder::settle;
