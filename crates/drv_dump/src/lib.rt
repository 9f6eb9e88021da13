//! What a gcc prints of its own spec texts: a dump, each text in pieces, and the same in this
//! driver's spec language.
#![tactic(auto)]

mod dump;
mod fault;
mod files;
mod forms;
mod laws;
mod our_dump;
mod ours;
mod passed;
mod piece;
mod reading;
mod turn;
mod turns_of_tests;
mod vendors;

pub use fault::{DumpFault, Misfit, OursFault, TextFault};
pub use laws::text_is_kept;
pub use our_dump::{OurDump, translate_dump};
pub use ours::translate_text;
pub use passed::pass_libraries;
pub use piece::{Kind, Piece};
pub use reading::read_text;
pub use vendors::translate_vendors;
