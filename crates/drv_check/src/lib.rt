//! Every fault of spec files and what is surely not meant, each with its place in its file.
#![tactic(auto)]

// Spec files: their directives, what they include, and where in them each byte of a text is.
mod findings;
mod known_names;
mod loading_order;
mod opening;
mod origins;
mod pieces;
mod pointing;
mod spots;

pub use findings::{
    Checking, Fault, Finding, Findings, MOST_FAULTS, Note, Source, Spot, Warning, is_fault, is_full,
};
pub use known_names::Names;
pub use loading_order::LoadedFiles;
pub use origins::{spot_at, spots_of};
pub use pieces::{Piece, pieces_of};
pub use spots::place_in;

// What the driver refuses in them, and what is surely not meant.
mod branches;
mod checking;
mod fault_notes;
mod hidden_pair;
mod judging;
mod lost_marks;
mod never_true;
mod stepping;
mod token_warning;
mod warning;

pub use checking::{FileCheck, check_files, sources_of};
pub use fault_notes::{SpecFiles, fault_note};

// What is printed of that.
mod escaping;
mod told;
mod told_json;

pub use escaping::visible;
pub use told::{Place, Report, Told, push_back, push_front, report_text};
pub use told_json::report_json;

// Which texts of two sets differ.
mod differing;

pub use differing::texts_difference;

// What holds of all this.
mod laws;

pub use laws::{
    covered_tests_are_true, first_fault_is_refusal, pieces_are_directives, spots_have_bytes,
};
