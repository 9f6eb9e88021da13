//! Turns a line of POSIX's `c99` into words of the driver.
#![tactic(auto)]

mod building;
mod fault;
mod laws;
mod option;
mod translating;

pub use fault::C99Fault;
pub use laws::items_are_read;
pub use translating::front;
