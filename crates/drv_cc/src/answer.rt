//! The answer to a line of `gcc`.

use crate::Refusal;
use drv_args::Item;
use drv_words::{Listing, Word};

/// What a front takes from its surroundings.
#[derive(Drop)]
pub struct Surroundings {
    /// The compiler's name with its path.
    pub compiler: Word,
    /// The folders of the compiler's own programs and start files.
    pub folders: Listing<Word>,
    /// The folder with copies of vendors' spec files, if there is one.
    pub copies: Listing<Word>,
    /// The value of `COMPILER_PATH`, if it is set.
    pub compiler_path: Option<Word>,
    /// The value of `LIBRARY_PATH`, if it is set.
    pub library_path: Option<Word>,
    /// What the compiler gives its children: variables as `NAME=VALUE`, and options for its machine,
    /// each after the option that it needs and those that leave it out, with tabs between the three.
    pub children: Listing<Word>,
}

/// A variable of the environment.
#[derive(Drop)]
pub struct Variable {
    /// Its name.
    pub name: Word,
    /// Its value.
    pub value: Word,
}

/// Which stages a line has (GCC manual, "Overall Options"), and whether all its sources are files
/// of C by their suffix.
#[derive(Clone, Copy)]
pub enum Stages {
    /// Sources of C are compiled, and nothing is linked.
    SourcesOfC,
    /// Sources are preprocessed, compiled or assembled, and nothing is linked.
    Sources,
    /// Files are linked, of which none is a source, without the library of a check.
    Link,
    /// There may be both, each source is of C, and no library of a check is linked.
    AllOfC,
    /// There may be both.
    All,
}

/// A line of `gcc` that is carried out, as items of the driver's line.
#[derive(Drop)]
pub struct Call {
    /// The items, in the order of the line; after them what gcc's driver adds.
    pub items: Listing<Item>,
    /// The files that the line names, in its order; `-` is none.
    pub inputs: Listing<Word>,
    /// The files that the line writes: the one that its last `-o` names, or else one for each source,
    /// or the program.
    pub outputs: Listing<Word>,
    /// The variables that are set for the driver's children, as gcc's driver sets them.
    pub children: Listing<Variable>,
    /// The stages of the line.
    pub stages: Stages,
}

/// The answer to a line of `gcc`.
#[derive(Drop)]
pub enum Answer {
    /// The line is a question: the compiler is asked with the same words.
    Ask,
    /// The line is refused, for each of these reasons in the order of the line.
    Refuse(Listing<Refusal>),
    /// The line is carried out.
    Run(Call),
}
