//! What a call is given, and the line that it carries out.

use crate::calling::Calling;
use crate::tasks::Toolchain;
use drv_args::Expanded;
use drv_words::{Listing, Word};

/// What a call is given.
#[derive(Drop)]
pub struct Request<'a> {
    /// By which name the program was called.
    pub calling: &'a Calling,
    /// Where the spec file of this program lies, if that is known.
    pub own: &'a Option<Word>,
    /// The arguments.
    pub args: &'a Listing<Word>,
    /// The seed for the names of temporaries.
    pub seed: u32,
}

/// A line of gcc that a call carries out.
#[derive(Drop)]
pub(crate) struct GccLine<'a> {
    /// What the call is given.
    pub(crate) request: &'a Request<'a>,
    /// Its arguments as words of gcc: response files expanded, and those of c99 turned into gcc's.
    pub(crate) given: Expanded,
    /// What they are read by.
    pub(crate) chain: Toolchain,
}
