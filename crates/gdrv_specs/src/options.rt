//! The tools, and the options of each, as one table. What changes here changes in docs/gdrv-specs.1
//! and in crates/gdrv_cc/src/completion.rt too.

use drv_compile::option_meant;
use drv_words::{Listing, Word};
use std::alloc::{AllocError, Global};

/// A tool of the program.
#[derive(Clone, Copy)]
pub enum Tool {
    /// What is found in spec files.
    Check,
    /// The plan of a command.
    Plan,
    /// Its run, in which some commands fail.
    After,
    /// What two spec files make of it.
    Diff,
    /// Where the words of its plan are from.
    Why,
}

/// What an option asks of its tool.
#[derive(Clone, Copy)]
pub enum Choice {
    /// How the tool is used.
    Help,
    /// JSON.
    Json,
    /// A script of the shell.
    Script,
    /// The commands too.
    Full,
    /// Where a word is from.
    Of,
    /// What keeps a word away.
    Not,
    /// A command fails.
    Fail,
    /// A file that is loaded first.
    Over,
    /// The files are for gcc.
    Gcc,
    /// Warnings count for the status.
    Strict,
    /// A warning is not printed.
    Silent,
}

/// An option of a tool.
#[derive(Clone, Copy)]
pub struct OptionRow {
    /// Its name.
    pub name: &'static [u8],
    /// What the help calls its argument; empty where it takes none.
    pub argument: &'static [u8],
    /// What it asks.
    pub choice: Choice,
    /// What the help says of it.
    pub help: &'static [u8],
}

/// The row of an option.
macro_rules! row {
    ($name:literal, $argument:literal, $choice:ident, $help:literal) => {
        OptionRow {
            name: $name,
            argument: $argument,
            choice: Choice::$choice,
            help: $help,
        }
    };
}

/// The tools.
const TOOLS: [Tool; 5] = [Tool::Check, Tool::Plan, Tool::After, Tool::Diff, Tool::Why];

/// The options of `check`.
#[rattlefmt::skip]
const OF_CHECK: [OptionRow; 15] = [
    row!(b"--gcc", b"", Gcc, b"the files are for gcc, whose own texts are there"),
    row!(b"--json", b"", Json, b"print JSON"),
    row!(b"--over", b"FILE", Over, b"load FILE first, and print its faults alone"),
    row!(b"-Werror", b"", Strict, b"end with the status 1 for a warning"),
    row!(b"-Wno-append-to-nothing", b"", Silent, b"'+' for a text that isn't there"),
    row!(b"-Wno-directive-in-body", b"", Silent, b"a directive that belongs to the text above"),
    row!(b"-Wno-hidden-pair", b"", Silent, b"a pair that a later one hides"),
    row!(b"-Wno-lost-mark", b"", Silent, b"a mark of no word"),
    row!(b"-Wno-never-true", b"", Silent, b"a test that is never true"),
    row!(b"-Wno-quoted-word", b"", Silent, b"a quote that is a byte of a word"),
    row!(b"-Wno-unknown-text", b"", Silent, b"a text that isn't there"),
    row!(b"-Wno-unreachable", b"", Silent, b"a branch that no line reaches"),
    row!(b"-Wno-unused-text", b"", Silent, b"a text that nothing runs"),
    row!(b"--help", b"", Help, b"print this"),
    row!(b"-h", b"", Help, b"the same"),
];

/// The options of `plan`.
#[rattlefmt::skip]
const OF_PLAN: [OptionRow; 4] = [
    row!(b"--json", b"", Json, b"print JSON"),
    row!(b"--sh", b"", Script, b"print a shell script that does what the command does"),
    row!(b"--help", b"", Help, b"print this"),
    row!(b"-h", b"", Help, b"the same"),
];

/// The options of `after`.
#[rattlefmt::skip]
const OF_AFTER: [OptionRow; 3] = [
    row!(b"--fail", b"PLACE=ANSWER", Fail, b"the command at PLACE ends so"),
    row!(b"--help", b"", Help, b"print this"),
    row!(b"-h", b"", Help, b"the same"),
];

/// The options of `diff`.
#[rattlefmt::skip]
const OF_DIFF: [OptionRow; 3] = [
    row!(b"--full", b"", Full, b"print the commands too, after the words"),
    row!(b"--help", b"", Help, b"print this"),
    row!(b"-h", b"", Help, b"the same"),
];

/// The options of `why`.
#[rattlefmt::skip]
const OF_WHY: [OptionRow; 4] = [
    row!(b"--not", b"WORD", Not, b"print the tests that kept WORD away"),
    row!(b"--of", b"WORD", Of, b"print where WORD is from, and the tests that chose it"),
    row!(b"--help", b"", Help, b"print this"),
    row!(b"-h", b"", Help, b"the same"),
];

impl OptionRow {
    /// Whether it takes an argument.
    pub fn takes_argument(&self) -> bool {
        !self.argument.is_empty()
    }
}

impl Tool {
    /// Its options.
    pub fn options(self) -> &'static [OptionRow] {
        match self {
            Tool::Check => &OF_CHECK,
            Tool::Plan => &OF_PLAN,
            Tool::After => &OF_AFTER,
            Tool::Diff => &OF_DIFF,
            Tool::Why => &OF_WHY,
        }
    }

    /// Its name.
    pub fn name(&self) -> &[u8] {
        match self {
            Tool::Check => b"check",
            Tool::Plan => b"plan",
            Tool::After => b"after",
            Tool::Diff => b"diff",
            Tool::Why => b"why",
        }
    }
}

/// The tool of this name.
pub fn tool_named(name: &[u8]) -> Option<Tool> {
    TOOLS.iter().find(|tool| tool.name() == name).copied()
}

/// The names of a tool's options, each with a `=` that takes an argument.
fn option_names(alloc: Global, tool: Tool) -> Result<Listing<Word>, AllocError> {
    let mut names = Listing::new(alloc);
    for row in tool.options() {
        let mut name = Word::from_bytes(alloc, row.name)?;
        if row.takes_argument() {
            name.push(b'=')?;
        }
        names.push(name)?;
    }
    Ok(names)
}

/// The names of the tools.
fn tool_names(alloc: Global) -> Result<Listing<Word>, AllocError> {
    let mut names = Listing::new(alloc);
    for tool in TOOLS {
        names.push(Word::from_bytes(alloc, tool.name())?)?;
    }
    Ok(names)
}

/// The option of a tool that a word was meant to be, if one is near.
pub fn near_option(alloc: Global, tool: Tool, word: &[u8]) -> Result<Option<Word>, AllocError> {
    let names = option_names(alloc, tool)?;
    option_meant(alloc, names.as_slice(), word)
}

/// The tool that a word was meant to be, if one is near.
pub fn near_tool(alloc: Global, word: &[u8]) -> Result<Option<Word>, AllocError> {
    let names = tool_names(alloc)?;
    option_meant(alloc, names.as_slice(), word)
}
