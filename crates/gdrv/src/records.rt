//! The message at a terminal after a run that only recorded its calls.

use drv_system::{Event, complain};
use drv_words::{Answer, RunEvent, StartAnswer};
use std::io::IsTerminal;

/// The message.
const RECORDS: &[u8] =
    b"gdrv: rectool recorded these calls and compiled nothing; to compile, use gdrv-cc\n";

/// Whether an event started a program.
fn is_start(event: &Event) -> bool {
    matches!(
        event,
        Event::Run(RunEvent {
            answer: Answer::Start(StartAnswer::Started(_)),
            ..
        })
    )
}

/// Whether an event read a file.
fn is_read(event: &Event) -> bool {
    matches!(event, Event::Read(..))
}

/// On a terminal, says that a call with the built-in specs alone, which start only rectool, compiled
/// nothing, if it started a program. A call that read a file may have specs of its own, so nothing
/// is said of it. Scripts, whose standard error is not a terminal, don't see the message.
pub fn tell_of_records(rt: &HostRuntime, events: &[Event]) {
    let has_started = events.iter().any(is_start) && !events.iter().any(is_read);
    if has_started && rt.stderr().is_terminal() {
        complain(rt, RECORDS);
    }
}
