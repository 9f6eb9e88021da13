//! Reports to the user, in the name of a program.
//!
//! `gdrv-cc` says what gcc says (`execute` of gcc's driver): which signal ended a command, why one
//! was not started, and nothing of a command that SIGPIPE ended if another failed.

use crate::TellAnswer;
use crate::host::tell_error;
use crate::places::command_at;
use crate::processes::{answer_of, signal_of};
use crate::reports::{Reporter, report_line};
use crate::signals::{PIPE, is_crash, signal_name};
use drv_words::{Note, Place, Plan, WaitAnswer, Word, base};
use std::alloc::{AllocError, Global};
use std::io::Error;
use std::process::ExitStatus;

/// The report of a command that lost the reader of its pipe, until that reader has ended.
#[derive(Drop)]
struct Held {
    reader: Place,
    line: Word,
}

/// The reports of a run.
#[derive(Drop)]
pub struct Reports {
    reporter: Reporter,
    /// The last command that SIGPIPE ended.
    writer: Option<Place>,
    /// The last command that was not started.
    unstarted: Option<Place>,
    held: Option<Held>,
    /// The signal that ended the last command that one ended.
    signal: i32,
    /// Why the last command that was not started could not be.
    refusal: Option<Error>,
    has_crashed: bool,
}

impl Reports {
    /// Reports in the name of a program.
    pub fn new(reporter: Reporter) -> Reports {
        Reports {
            reporter,
            writer: None,
            unstarted: None,
            held: None,
            signal: 0,
            refusal: None,
            has_crashed: false,
        }
    }

    /// Reports a failed step to standard error, now or once a reader has ended.
    pub fn tell(&mut self, rt: &HostRuntime, plan: &Plan, note: Note) -> TellAnswer {
        let Ok(line) = self.line(rt.alloc(), plan, note) else {
            return TellAnswer::Failed;
        };
        match self.due(plan, note, line) {
            Some(line) => tell_error(rt, &line),
            None => TellAnswer::Told,
        }
    }

    /// The line of a failed step, if it is due now.
    fn due(&mut self, plan: &Plan, note: Note, line: Word) -> Option<Word> {
        match note {
            Note::NotStarted(place) => {
                self.unstarted = Some(place);
                Some(line)
            }
            // The reader's own report, if it failed, says more than this one.
            Note::Signalled(place) if self.writer == Some(place) => {
                match reader_of(plan, place) {
                    Some(reader) => self.hold(reader, line),
                    None => Some(line),
                }
            }
            _ => Some(line),
        }
    }

    /// Holds a line until a reader has ended, and returns one that was held before. A reader that
    /// was not started has its report already.
    fn hold(&mut self, reader: Place, line: Word) -> Option<Word> {
        if self.unstarted == Some(reader) {
            return None;
        }
        let earlier = self.held.replace(Held { reader, line })?;
        Some(earlier.line)
    }

    /// The line of a failed step.
    fn line(&self, alloc: Global, plan: &Plan, note: Note) -> Result<Word, AllocError> {
        match (self.reporter, note) {
            (Reporter::GdrvCc, Note::Signalled(place)) => self.signal_line(alloc, plan, place),
            (Reporter::GdrvCc, Note::NotStarted(place)) => self.refusal_line(alloc, plan, place),
            _ => report_line(alloc, self.reporter, plan, note),
        }
    }

    /// The line of a command that a signal ended, as gcc prints it.
    fn signal_line(&self, alloc: Global, plan: &Plan, place: Place) -> Result<Word, AllocError> {
        let kind = if is_crash(self.signal) {
            "internal compiler error"
        } else {
            "fatal error"
        };
        let name = signal_name(self.signal);
        let text = format!(in alloc; "gdrv-cc: {kind}: {name} signal terminated program ")?;
        let mut line = Word::from_bytes(alloc, text.as_bytes())?;
        line.extend_from_slice(base(program_at(plan, place)))?;
        line.push(b'\n')?;
        Ok(line)
    }

    /// The line of a command that was not started, and why it was not.
    fn refusal_line(&self, alloc: Global, plan: &Plan, place: Place) -> Result<Word, AllocError> {
        let mut line = Word::from_bytes(alloc, b"gdrv-cc: cannot start ")?;
        line.extend_from_slice(program_at(plan, place))?;
        if let Some(refusal) = self.refusal {
            let said = format!(in alloc; ": {refusal}")?;
            line.extend_from_slice(without_number(&said).as_bytes())?;
        }
        line.push(b'\n')?;
        Ok(line)
    }

    /// Notes why a command could not be started.
    pub fn note_refusal(&mut self, refusal: Error) {
        self.refusal = Some(refusal);
    }

    /// Whether a command crashed.
    pub fn has_crashed(&self) -> bool {
        self.has_crashed
    }

    /// Notes the signal that ended a command.
    fn note_signal(&mut self, place: Place, signal: i32) {
        self.signal = signal;
        self.has_crashed |= is_crash(signal);
        if self.reporter == Reporter::GdrvCc && signal == PIPE {
            self.writer = Some(place);
        }
    }

    /// Notes how a command ended. If it did not fail, writes a line that was held for it.
    pub fn note_end(&mut self, rt: &HostRuntime, place: Place, status: Option<ExitStatus>) {
        if let Some(signal) = signal_of(status) {
            self.note_signal(place, signal);
        }
        if let Some(line) = self.release(place, answer_of(status)) {
            tell_error(rt, &line);
        }
    }

    /// The line that was held for this command, if the command did not fail.
    fn release(&mut self, place: Place, answer: WaitAnswer) -> Option<Word> {
        let held = self.held.take()?;
        if held.reader != place {
            self.held = Some(held);
            return None;
        }
        match answer {
            WaitAnswer::Exit(0) => Some(held.line),
            _ => None,
        }
    }
}

/// The program of a command; empty where the plan has no such command.
fn program_at(plan: &Plan, place: Place) -> &[u8] {
    match command_at(plan, place) {
        Some(command) => command.program.as_bytes(),
        None => b"",
    }
}

/// What an error says, without its number, which gcc doesn't print.
fn without_number(said: &str) -> &str {
    match said.split_once(" (os error ") {
        Some((reason, _)) => reason,
        None => said,
    }
}

/// The command that reads the pipe of another: the next one of its group.
fn reader_of(plan: &Plan, place: Place) -> Option<Place> {
    let Place::Command { job, group, index } = place else {
        return None;
    };
    let reader = Place::Command {
        job,
        group,
        index: index.checked_add(1)?,
    };
    command_at(plan, reader)?;
    Some(reader)
}
