//! What the lines of a spec file say.

/// What becomes of an include whose file is missing.
#[derive(Clone, Copy, Debug)]
pub enum IfMissing {
    /// It is refused.
    Refuse,
    /// It is passed over.
    PassOver,
}

/// A directive of a spec file: slices of its settled text.
#[derive(Clone, Copy, Debug)]
pub enum Directive<'a> {
    /// A name and its body.
    Text {
        name: &'a [u8],
        body: &'a [u8],
    },
    /// A suffix or a language, and its body.
    Pair {
        key: &'a [u8],
        body: &'a [u8],
    },
    /// A text gets a new name.
    Rename {
        old: &'a [u8],
        new: &'a [u8],
    },
    /// A file is read here.
    Include {
        if_missing: IfMissing,
        file: &'a [u8],
    },
    /// The line of this number is none.
    Bad(usize),
}
