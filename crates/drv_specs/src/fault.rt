//! Why a spec file is refused.

ghost use Rattle.std.specs.Prelude.{◌≡◌};

use drv_syntax::SyntaxFault;
use drv_words::Word;
use std::alloc::{AllocError, AllocFailed};
use thiserror::Error;

/// Why a spec file is refused.
#[derive(Debug, Drop, Error)]
pub enum SpecsFault {
    /// An allocation was refused.
    #[error("out of memory")]
    Memory,
    /// The file of this path is missing.
    #[error("a spec file is missing")]
    NoSuchFile(Word),
    /// The file of this path can't be read, or has more than 16,777,216 bytes.
    #[error("a spec file can't be read")]
    Unreadable(Word),
    /// No text has this name, which is to be another.
    #[error("no spec to rename")]
    RenameMissing(Word),
    /// A text has this name already.
    #[error("a spec of the new name is there")]
    RenameTaken(Word),
    /// The line of this number is no directive.
    #[error("bad spec line {0}")]
    BadLine(usize),
    /// More than 16 files include one another.
    #[error("includes nested too deep")]
    IncludeTooDeep,
    /// The pair of this key, which begins with `@`, has a body that begins with `@` too.
    #[error("a language is an alias")]
    AliasOfAlias(Word),
    /// The body of this name or key ends with a backslash.
    #[error("a spec ends with a backslash")]
    TrailingBackslash(Word),
    /// This is no name or key.
    #[error("a bad spec name")]
    BadName(Word),
    /// More than 2,000 files are read.
    #[error("too many spec files")]
    TooManyIncludes,
    /// The text of this name or key has no tree. The fault isn't `Memory`.
    #[error("a spec has no tree: {fault}")]
    Syntax { name: Word, fault: SyntaxFault },
}

impl From<AllocError> for SpecsFault {
    ghost use Rattle.drv_specs.specs.declared.fault.SpecsFault.TheVariants.{Memory};

    ghost from_gives = { λ _ fault. fault ≡ Memory };

    /// `?` turns a refused allocation into `Memory`.
    fn from(_refused: AllocError) -> SpecsFault {
        SpecsFault::Memory
    }
}

impl<T: Drop> From<AllocFailed<T>> for SpecsFault {
    ghost use Rattle.drv_specs.specs.declared.fault.SpecsFault.TheVariants.{Memory};

    ghost from_gives = { λ _ fault. fault ≡ Memory };

    /// `?` turns a refused allocation into `Memory`, and drops what had no room.
    fn from(_refused: AllocFailed<T>) -> SpecsFault {
        SpecsFault::Memory
    }
}
