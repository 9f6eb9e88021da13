//! Tries parts of the driver, for the tables of tests. The first word says which part; the result is
//! printed:
//!
//! ```text
//! call CALL WORD..       a single call of the library, as `calls` of `trial_parts` says
//! plan WINDOW [pass]     the plan of standard input, over a script; with `pass` exit codes are passed on
//! run WINDOW [pass]      the same on this machine
//! choose WINDOW [pass]   the run of such a plan with chosen sources
//! drive WORD..           a whole call of the driver with these arguments and the seed 42, over a script
//! ```
//!
//! Standard input holds the plan, as `planning` of `trial_parts` says, and the script, as `script`
//! there says.
#![tactic(auto)]

mod runs;

use drv_system::arguments;
use drv_words::Word;
use runs::{Way, try_drive, try_plan};
use std::io::{self, Write};
use trial_parts::{Transcript, look_up, try_call};

/// What is printed where the words name nothing to be tried.
const USAGE: &[u8] =
    b"usage: trials call CALL WORD.. | plan|run|choose WINDOW [pass] | drive WORD..\n";

/// The names of ways to carry out a plan.
const WAYS: [(&[u8], Way); 3] = [
    (b"plan", Way::Scripted),
    (b"run", Way::OnHost),
    (b"choose", Way::Chosen),
];

/// Tries what these words name, or prints what there is.
fn try_words(rt: &HostRuntime, words: &[Word], out: &mut Transcript) -> io::Result<()> {
    let [part, rest @ ..] = words else {
        return Ok(out.add(USAGE)?);
    };
    let part = part.as_bytes();
    if let Some(way) = look_up(&WAYS, part) {
        try_plan(rt, way, rest, out)
    } else if part == b"call".as_slice() {
        Ok(try_call(rt.alloc(), rest, out)?)
    } else if part == b"drive".as_slice() {
        try_drive(rt, rest, out)
    } else {
        Ok(out.add(USAGE)?)
    }
}

/// Tries what the words name, and prints the transcript at the end.
fn main(rt: HostRuntime) -> io::Result<()> {
    let words = arguments(&rt)?;
    let mut out = Transcript::new(rt.alloc());
    try_words(&rt, words.as_slice(), &mut out)?;
    io::writer(&rt).write_all(out.as_bytes())
}
