//! Why a call ends that the driver would end.

// In clauses: `IfTold stop P` says that P holds of the text of a stop, if it has one.
ghost use Rattle.drv_compile.specs.Code.Refusing.{IsEndSaid};
ghost use Rattle.drv_compile.specs.Tasks.{IfTold};

use crate::stop::Stop;
use crate::wording::told_refusal;
use drv_run::Ending;
use std::alloc::Global;

/// Why a call ends that the driver would end so.
pub(crate) fn stop_after(alloc: Global, name: &[u8], ending: &Ending) -> Stop
    ensures { IfTold result (IsEndSaid name.now ending.now) }
{
    match ending {
        Ending::Refused(refusal) => match told_refusal(alloc, name, refusal) {
            Ok(text) => Stop::Told(text),
            Err(_) => Stop::Memory,
        },
        Ending::Done(_) | Ending::OutOfMemory => Stop::Memory,
    }
}
