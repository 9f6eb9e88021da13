//! The messages about failed steps.

ghost use Rattle.drv_system.specs.Named.{line_of, note_line, reporter_prefix};
ghost use Rattle.std.specs.Option.{option_copied, unwrap_or};
ghost use Rattle.std.specs.Prelude.{◌≡◌, [], IfOk};

use crate::places::name_at;
use drv_words::{Note, Place, Plan, Word};
use std::alloc::{AllocError, Global};

/// The program in whose name a system reports.
#[derive(Clone, Copy, PartialEq, Eq)]
pub enum Reporter {
    /// `gdrv`, which reports each failed step.
    Gdrv,
    /// `gdrv-cc`, which leaves out what follows from a failure of its assembler: that a command
    /// before it in the pipe lost its reader. So does gcc (`execute` of its driver, SIGPIPE).
    GdrvCc,
}

/// The first bytes of each report of a program.
fn prefix_of(reporter: Reporter) -> &'static [u8]
    ensures { result.now ≡ reporter_prefix reporter }
{
    match reporter {
        Reporter::Gdrv => b"gdrv: ",
        Reporter::GdrvCc => b"gdrv-cc: ",
    }
}

/// The bytes of a name, if there is one.
fn bytes_of(name: Option<&Word>) -> &[u8]
    ensures { result.now ≡ unwrap_or (option_copied name.entry) [] }
{
    match name {
        Some(name) => name.as_bytes(),
        None => b"",
    }
}

/// The line with a name between two texts.
fn line_of(
    alloc: Global,
    reporter: Reporter,
    before: &[u8],
    name: Option<&Word>,
    after: &[u8],
) -> Result<Word, AllocError>
    ensures { IfOk result (λ line. line
        ≡ line_of reporter before.now (option_copied name.entry) after.now) }
{
    let mut line = Word::from_bytes(alloc, prefix_of(reporter))?;
    line.extend_from_slice(before)?;
    line.extend_from_slice(bytes_of(name))?;
    line.extend_from_slice(after)?;
    line.push(b'\n')?;
    Ok(line)
}

/// The line that reports a failed step: the program that reports, the text with the path or the
/// command's program, and a newline.
pub fn report_line(
    alloc: Global,
    reporter: Reporter,
    plan: &Plan,
    note: Note,
) -> Result<Word, AllocError>
    ensures { IfOk result (λ line. line ≡ note_line reporter plan.now note) }
{
    let (before, place, after): (&[u8], Place, &[u8]) = match note {
        Note::NotClaimed(place) => (b"cannot claim ", place, b""),
        Note::NotStarted(place) => (b"cannot start ", place, b""),
        Note::Signalled(place) => (b"", place, b" was ended by a signal"),
        Note::Lost(place) => (b"", place, b" was lost"),
        Note::NotRemoved(place) => (b"cannot remove ", place, b""),
    };
    line_of(alloc, reporter, before, name_at(plan, place), after)
}
