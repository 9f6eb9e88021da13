//! Why a text has no tree.

ghost use Rattle.std.specs.Prelude.{◌≡◌};

use std::alloc::{AllocError, AllocFailed};
use thiserror::Error;

/// Why a spec text has no tree. A number is the place of the `%` concerned, in bytes from the start
/// of the text.
#[derive(Debug, Drop, Error)]
pub enum SyntaxFault {
    /// An allocation was refused.
    #[error("out of memory")]
    Memory,
    /// No such directive or form, or not allowed at its place.
    #[error("no such directive here")]
    BadDirective(usize),
    /// The text ends in this directive, or in the escape of this backslash.
    #[error("directive that does not end")]
    Unclosed(usize),
    /// A `%*` in no braces, or in braces that are in no X, as in the arguments of a function that
    /// is a test.
    #[error("%* outside of braces")]
    StarOutside(usize),
    /// A `%*` whose alternative has a test that is no starred pattern, or no test.
    #[error("%* after a condition that is no starred pattern")]
    MixedStar(usize),
    /// More than 64 braces and arguments are within one another.
    #[error("more than 64 braces and arguments in one another")]
    TooNested(usize),
    /// A `%:` without the name of a function and a `(`.
    #[error("no such function")]
    UnknownFunction(usize),
    /// A test or pattern without a word and a star, or an alternative without tests that is the
    /// only one or not the last.
    #[error("condition without a word")]
    EmptyTest(usize),
    /// The text has more than 1,048,576 bytes.
    #[error("spec text too long")]
    TextTooLong,
}

impl From<AllocError> for SyntaxFault {
    ghost use Rattle.drv_syntax.specs.declared.fault.SyntaxFault.TheVariants.{Memory};

    ghost from_gives = { λ _ e. e ≡ Memory };

    fn from(_e: AllocError) -> SyntaxFault {
        SyntaxFault::Memory
    }
}

impl<T: Drop> From<AllocFailed<T>> for SyntaxFault {
    ghost use Rattle.drv_syntax.specs.declared.fault.SyntaxFault.TheVariants.{Memory};

    ghost from_gives = { λ _ e. e ≡ Memory };

    fn from(_e: AllocFailed<T>) -> SyntaxFault {
        SyntaxFault::Memory
    }
}
