//! Where the words of a text's commands come from, as a run noted it.

use drv_words::{Listing, Word};

/// Where bytes of a word come from.
#[derive(Clone, Copy, Debug, Default, Drop)]
pub struct Origin {
    /// The text: 0 is the one that was run, and 1 the first of the trace's texts.
    pub text: usize,
    /// The item of the text that put them.
    pub token: usize,
    /// The switch that they are of, if they are of one.
    pub switch: Option<usize>,
    /// The innermost alternative that was open, counted from 1 in the trace's list; 0: none.
    pub inside: usize,
}

/// An alternative that was taken.
#[derive(Clone, Copy, Debug, Default, Drop)]
pub struct Taken {
    /// The text.
    pub text: usize,
    /// Its place in the text.
    pub alternative: usize,
    /// The test that was true, or the alternative where it has none.
    pub test: usize,
    /// The switch that it was run for, where it is run for each.
    pub switch: Option<usize>,
    /// The alternative around it, counted from 1; 0: none.
    pub around: usize,
}

/// What an item of a text does with a switch.
#[derive(Clone, Copy, Debug, Default)]
pub enum Deed {
    /// `%{S}` passes it on.
    #[default]
    Passes,
    /// `%{S:X}` or `%:version-compare` asks for it.
    Tests,
    /// `%<S` hides it.
    Hides,
}

/// An item of a text that did something with a switch.
#[derive(Clone, Copy, Debug, Default, Drop)]
pub struct Met {
    /// The text.
    pub text: usize,
    /// The test, the pattern or the directive.
    pub token: usize,
    /// What it did.
    pub deed: Deed,
    /// The switch.
    pub switch: usize,
}

/// Where the words of a text's commands come from.
#[derive(Drop)]
pub struct Trace {
    /// The names of the named texts that were opened, each once.
    pub texts: Listing<Word>,
    /// The alternatives that were taken, in their order.
    pub taken: Listing<Taken>,
    /// What items did with switches, each item once, as it was first reached.
    pub met: Listing<Met>,
    /// For each command, and each word of it, what put its bytes, in their order.
    pub commands: Listing<Listing<Listing<Origin>>>,
}
