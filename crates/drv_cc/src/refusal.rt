//! Why a line of `gcc` is refused.

use drv_words::Word;
use thiserror::Error;

/// Why a line is refused, with the word as the line has it.
#[derive(Debug, Drop, Error)]
pub enum Refusal {
    /// This word is no option.
    #[error("unknown option")]
    UnknownOption(Word),
    /// This option has no argument.
    #[error("option without its argument")]
    NoArgument(Word),
    /// This option of gcc's is not supported.
    #[error("option that is not supported")]
    NotTaken(Word),
    /// A spec file of the line gives this word as an option, and it is a file's name.
    #[error("file among the options of a spec file")]
    GivenFile(Word),
    /// A spec file of the line gives more than options: another command, a pipe or a temporary.
    #[error("more than options in a spec file")]
    GivenMore,
    /// The last `-o` has an empty argument.
    #[error("output without a name")]
    EmptyOutput,
    /// There is neither a file nor a library.
    #[error("no input files")]
    NoInput,
}
