//! An answer about the plan of a line, by what its run noted.

use crate::texts::Known;
use drv_args::Line;
use drv_check::{LoadedFiles, Source};
use drv_machine::Trace;
use drv_specs::SpecSet;
use drv_words::{Job, Plan, Word};
use std::alloc::{AllocError, Global};

/// What is asked.
#[derive(Drop)]
pub enum Asked {
    /// Where each word of the commands is from.
    Words,
    /// Where a word is from, and which tests chose it.
    Of(Word),
    /// Which tests kept a word away.
    Not(Word),
}

/// A line and its plan, with what its run noted.
#[derive(Clone, Copy)]
pub struct Explained<'a> {
    pub line: &'a Line,
    pub set: &'a SpecSet,
    pub plan: &'a Plan,
    /// One for each job, in their order, then that of the link.
    pub traces: &'a [Option<Trace>],
    /// The files that the line loads, in their order.
    pub sources: &'a [Source],
}

/// What is explained, and the texts that it was made of.
#[derive(Drop)]
pub(crate) struct View<'a> {
    pub(crate) alloc: Global,
    pub(crate) explained: Explained<'a>,
    pub(crate) files: LoadedFiles<'a>,
    pub(crate) known: Vec<Known<'a>>,
    /// For each trace the places of its texts among those that are known, that which was run first.
    pub(crate) numbers: Vec<Vec<usize>>,
}

impl<'a> View<'a> {
    /// The job at a place: the link is behind those of the sources.
    pub(crate) fn job(&self, place: usize) -> Option<&'a Job> {
        match self.explained.plan.jobs.as_slice().get(place) {
            Some(job) => Some(job),
            None => self.explained.plan.link.as_ref(),
        }
    }

    /// What the run of the text of a job, or of the link behind them, noted.
    pub(crate) fn trace(&self, place: usize) -> Option<&'a Trace> {
        match self.explained.traces.get(place) {
            Some(Some(trace)) => Some(trace),
            Some(None) | None => None,
        }
    }

    /// The place among the known texts of a number of a trace.
    pub(crate) fn place(&self, trace: usize, number: usize) -> Option<usize> {
        self.numbers.get(trace)?.get(number).copied()
    }

    /// The text of a number of a trace.
    pub(crate) fn text(&self, trace: usize, number: usize) -> Option<&Known<'a>> {
        self.known.get(self.place(trace, number)?)
    }
}

/// The answer about a line and its plan. Words of a file that `%@` makes have no origin.
pub fn answer(alloc: Global, asked: &Asked, explained: &Explained<'_>) -> Result<Word, AllocError> {
    let mut view = View::new(alloc, *explained)?;
    let text = match asked {
        Asked::Words => view.words_text(None)?,
        Asked::Of(word) => view.words_text(Some(word))?,
        Asked::Not(word) => {
            view.add_unrun()?;
            view.away_text(word)?
        }
    };
    Ok(Word::from_vec(text))
}
