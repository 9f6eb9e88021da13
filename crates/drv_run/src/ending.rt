//! How a call of the driver ends.

ghost use Rattle.drv_run.specs.Exits.{exit_status_of};
ghost use Rattle.std.specs.Prelude.{◌≡◌};

use drv_args::ArgsFault;
use drv_c99::C99Fault;
use drv_funcs::FuncsFault;
use drv_machine::MachineFault;
use drv_plan::PlanFault;
use drv_search::SearchFault;
use drv_specs::SpecsFault;
use drv_syntax::SyntaxFault;
use std::alloc::AllocError;
use thiserror::Error;

/// Why a call is refused. It is never for lack of memory.
#[derive(Debug, Drop, Error)]
pub enum Refusal {
    /// The arguments are refused.
    #[error("{0}")]
    Args(ArgsFault),
    /// The words of `c99` are refused.
    #[error("{0}")]
    C99(C99Fault),
    /// A spec file is refused.
    #[error("{0}")]
    Specs(SpecsFault),
    /// The line has no plan.
    #[error("{0}")]
    Plan(PlanFault),
}

/// How a call of the driver ends.
#[derive(Debug, Drop)]
pub enum Ending {
    /// The work was done, with this exit status.
    Done(u8),
    /// The call is refused.
    Refused(Refusal),
    /// An allocation was refused.
    OutOfMemory,
}

impl Ending {
    /// The exit status of the process.
    pub fn exit_status(&self) -> u8
        ensures { result ≡ exit_status_of self.now }
    {
        match self {
            Ending::Done(status) => *status,
            Ending::Refused(_) | Ending::OutOfMemory => 1,
        }
    }
}

impl From<ArgsFault> for Ending {
    ghost use Rattle.drv_run.specs.Drives.{stopped_by_args};
    ghost use Rattle.std.specs.Prelude.{◌≡◌};

    ghost from_gives = { λ fault ending. ending ≡ stopped_by_args fault };

    /// `?` ends the call with this refusal; lack of memory is none.
    fn from(fault: ArgsFault) -> Ending {
        match fault {
            ArgsFault::Memory => Ending::OutOfMemory,
            fault => Ending::Refused(Refusal::Args(fault)),
        }
    }
}

impl From<C99Fault> for Ending {
    ghost use Rattle.drv_run.specs.Drives.{stopped_by_c99};
    ghost use Rattle.std.specs.Prelude.{◌≡◌};

    ghost from_gives = { λ fault ending. ending ≡ stopped_by_c99 fault };

    /// `?` ends the call with this refusal; lack of memory is none.
    fn from(fault: C99Fault) -> Ending {
        match fault {
            C99Fault::Memory => Ending::OutOfMemory,
            fault => Ending::Refused(Refusal::C99(fault)),
        }
    }
}

impl From<SpecsFault> for Ending {
    ghost use Rattle.drv_run.specs.Drives.{stopped_by_specs};
    ghost use Rattle.std.specs.Prelude.{◌≡◌};

    ghost from_gives = { λ fault ending. ending ≡ stopped_by_specs fault };

    /// `?` ends the call with this refusal; lack of memory is none, nor is it within a text.
    fn from(fault: SpecsFault) -> Ending {
        match fault {
            SpecsFault::Memory
            | SpecsFault::Syntax {
                fault: SyntaxFault::Memory,
                ..
            } => Ending::OutOfMemory,
            fault => Ending::Refused(Refusal::Specs(fault)),
        }
    }
}

impl From<AllocError> for Ending {
    ghost use Rattle.drv_run.specs.declared.ending.Ending.TheVariants.{OutOfMemory};
    ghost use Rattle.std.specs.Prelude.{◌≡◌};

    ghost from_gives = { λ _ ending. ending ≡ OutOfMemory };

    /// `?` ends the call out of memory.
    fn from(_refused: AllocError) -> Ending {
        Ending::OutOfMemory
    }
}

impl From<PlanFault> for Ending {
    ghost use Rattle.drv_run.specs.Drives.{stopped_by_plan};
    ghost use Rattle.std.specs.Prelude.{◌≡◌};

    ghost from_gives = { λ fault ending. ending ≡ stopped_by_plan fault };

    /// `?` ends the call with this refusal; lack of memory is none, wherever it was noticed.
    fn from(fault: PlanFault) -> Ending {
        match fault {
            PlanFault::Memory
            | PlanFault::Machine(
                MachineFault::Search(SearchFault::Memory) | MachineFault::Funcs(FuncsFault::Memory),
            ) => Ending::OutOfMemory,
            fault => Ending::Refused(Refusal::Plan(fault)),
        }
    }
}
