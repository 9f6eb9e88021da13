//! Why a call ends before its work.

ghost use Rattle.drv_compile.specs.Tasks.{undone};
ghost use Rattle.std.specs.Prelude.{◌≡◌};

use crate::running::DriverLine;
use drv_words::Word;
use std::alloc::{AllocError, AllocFailed};

/// Why a call ends before its work.
#[derive(Drop)]
pub enum Stop {
    /// It is refused with this text.
    Told(Word),
    /// The driver refuses this line, for which this text is said.
    Undone(Word, DriverLine),
    /// An allocation was refused.
    Memory,
}

impl From<AllocError> for Stop {
    ghost use Rattle.drv_compile.specs.declared.stop.Stop.TheVariants.{Memory};
    ghost use Rattle.std.specs.Prelude.{◌≡◌};

    ghost from_gives = { λ _ stop. stop ≡ Memory };

    fn from(_refused: AllocError) -> Stop {
        Stop::Memory
    }
}

/// Why a call ends by what the driver said of a line.
pub(crate) fn undone(stop: Stop, line: DriverLine) -> Stop
    ensures { result ≡ undone stop line }
{
    match stop {
        Stop::Told(text) => Stop::Undone(text, line),
        stop => stop,
    }
}
