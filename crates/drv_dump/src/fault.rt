//! Why a dump, or a text of it, can't be read.

use drv_words::Word;
use std::alloc::{AllocError, AllocFailed};
use thiserror::Error;

/// What is wrong with a byte of a spec text, or with its end.
#[derive(Clone, Copy, Debug)]
pub enum Misfit {
    /// A brace that no directive opens, or that closes none.
    BareBrace,
    /// A backslash before a brace or a semicolon, inside braces: gcc ends a part there all the same.
    EscapedMark,
    /// There is no such directive.
    UnknownDirective,
    /// The tests of braces have no such byte.
    BadTest,
    /// The name of a function has no such byte.
    BadFunction,
    /// More than 64 braces, or parentheses of a function, are nested.
    TooNested,
    /// The text ends in a directive, in braces or after a backslash.
    Unclosed,
}

/// Why a spec text can't be read.
#[derive(Debug, Drop, Error)]
pub enum TextFault {
    /// An allocation was refused.
    #[error("out of memory")]
    Memory,
    /// This is wrong at this byte, counted from the start of the text.
    #[error("spec text that can't be read")]
    Unreadable(Misfit, usize),
}

/// Why a dump can't be read.
#[derive(Debug, Drop, Error)]
pub enum DumpFault {
    /// An allocation was refused.
    #[error("out of memory")]
    Memory,
    /// This byte, counted from the start of the dump, is in no text: each is a line `*NAME:`, lines,
    /// and an empty line.
    #[error("dump that is no list of texts")]
    Misplaced(usize),
}

/// Why a text of gcc can't be put into this driver's spec language.
#[derive(Debug, Drop, Error)]
pub enum OursFault {
    /// An allocation was refused.
    #[error("out of memory")]
    Memory,
    /// This is wrong at this byte, counted from the start of the text whose forms are replaced.
    #[error("spec text that can't be read")]
    Unreadable(Misfit, usize),
    /// This directive, or this function that is a test, has no form in this driver's language.
    #[error("a directive or a condition has no form here")]
    Lacking(Word),
}

impl From<AllocError> for TextFault {
    ghost use Rattle.drv_dump.specs.declared.fault.TextFault.TheVariants.{Memory};
    ghost use Rattle.std.specs.Prelude.{◌≡◌};

    ghost from_gives = { λ _ fault. fault ≡ Memory };

    fn from(_refused: AllocError) -> TextFault {
        TextFault::Memory
    }
}

impl<T: Drop> From<AllocFailed<T>> for TextFault {
    ghost use Rattle.drv_dump.specs.declared.fault.TextFault.TheVariants.{Memory};
    ghost use Rattle.std.specs.Prelude.{◌≡◌};

    ghost from_gives = { λ _ fault. fault ≡ Memory };

    fn from(_refused: AllocFailed<T>) -> TextFault {
        TextFault::Memory
    }
}

impl From<AllocError> for DumpFault {
    ghost use Rattle.drv_dump.specs.declared.fault.DumpFault.TheVariants.{Memory};
    ghost use Rattle.std.specs.Prelude.{◌≡◌};

    ghost from_gives = { λ _ fault. fault ≡ Memory };

    fn from(_refused: AllocError) -> DumpFault {
        DumpFault::Memory
    }
}

impl<T: Drop> From<AllocFailed<T>> for DumpFault {
    ghost use Rattle.drv_dump.specs.declared.fault.DumpFault.TheVariants.{Memory};
    ghost use Rattle.std.specs.Prelude.{◌≡◌};

    ghost from_gives = { λ _ fault. fault ≡ Memory };

    fn from(_refused: AllocFailed<T>) -> DumpFault {
        DumpFault::Memory
    }
}

impl From<AllocError> for OursFault {
    ghost use Rattle.drv_dump.specs.declared.fault.OursFault.TheVariants.{Memory};
    ghost use Rattle.std.specs.Prelude.{◌≡◌};

    ghost from_gives = { λ _ fault. fault ≡ Memory };

    fn from(_refused: AllocError) -> OursFault {
        OursFault::Memory
    }
}
