//! The columns of a row of the option table.

/// How an option takes its argument.
#[derive(Clone, Copy)]
pub enum Takes {
    /// It takes none: the word is the option.
    Nothing,
    /// It takes none, and newer compilers alone call it by the name: names of options say whether
    /// this one does.
    Newer,
    /// The word's rest, which is not empty.
    Attached,
    /// The word's rest, which may be empty.
    Rest,
    /// The next word.
    Next,
    /// The word's rest, or the next word where nothing is left.
    Either,
}

/// How an item is spelled.
#[derive(Clone, Copy)]
pub enum Spelling {
    /// Its name.
    Alone,
    /// Its name and its argument in one word.
    Joined,
    /// Its name, and its argument as the next word.
    Separate,
    /// Not at all.
    Nowhere,
}

/// What an item is on the line.
#[derive(Clone, Copy)]
pub enum Role {
    /// A file.
    Input,
    /// A library, or a word for the linker.
    Library,
    /// A word for another tool, a language, or what is said of the whole call.
    Piece,
    /// A switch.
    Switch,
    /// A question for the compiler.
    Question,
    /// A question where there is no input.
    Tells,
    /// An option that is refused.
    Refused,
    /// No option.
    Unknown,
    /// An option without its argument.
    Lacking,
}

/// A row of the option table.
pub type OptionRow = (&'static [u8], Takes, &'static [u8], Spelling, Role);
