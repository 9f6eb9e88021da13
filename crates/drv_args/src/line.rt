//! A command line that was read: switches, inputs and settings.

use crate::Jobs;
use drv_words::{Listing, Word};

/// A switch: the word without its first `-`, and its argument, if it takes the next word as one.
#[derive(Drop)]
pub struct Switch {
    pub name: Word,
    pub arg: Option<Word>,
}

/// An input of the line or a word for the linker, in the order of the line.
#[derive(Drop)]
pub enum Input {
    /// A file, with the language that `-x` gave it. Without one its suffix decides.
    File { name: Word, lang: Option<Word> },
    /// A library, as `-lX`.
    Library(Word),
    /// A word for the linker, as `-Wl` and `-Xlinker` give it.
    LinkWord(Word),
}

/// What the line says about the call itself.
#[derive(Drop)]
pub struct Settings {
    /// `-###`: the plan is printed and nothing is started.
    pub dry: bool,
    /// `-v`: the plan is printed before it is run.
    pub verbose: bool,
    /// `-dumpspecs`.
    pub dump: bool,
    /// `-pass-exit-codes`.
    pub pass_codes: bool,
    /// `-pipe`.
    pub pipe: bool,
    /// Whether a word of the line was replaced by the words of a response file, even if there were
    /// none.
    pub from_file: bool,
    /// The argument of the last `-o`.
    pub output: Option<Word>,
    /// The spec files of `-specs=`, in order.
    pub specs: Listing<Word>,
    /// The prefixes of `-B`, in order.
    pub prefixes: Listing<Word>,
    /// The number of the last `--jobs=N`, or 1.
    pub jobs: Jobs,
}

/// A command line that was read.
#[derive(Drop)]
pub struct Line {
    pub switches: Listing<Switch>,
    pub inputs: Listing<Input>,
    /// The pieces of `-Wa` and `-Xassembler`.
    pub asm_opts: Listing<Word>,
    /// The pieces of `-Wp` and `-Xpreprocessor`.
    pub cpp_opts: Listing<Word>,
    pub settings: Settings,
}

/// Arguments after the expansion of response files.
#[derive(Drop)]
pub struct Expanded {
    pub words: Listing<Word>,
    /// Whether a word was replaced by the words of a response file, even if there were none.
    pub from_file: bool,
    /// The names of the response files whose words replaced others, in the order of these.
    pub files: Listing<Word>,
}
