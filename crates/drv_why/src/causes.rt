//! What of a line a word is for.

use crate::answering::View;
use drv_args::Input;
use drv_machine::{Deed, Origin, Taken, Trace};
use drv_syntax::{Leaf, TokenKind};
use drv_words::{Word, push_quoted};
use std::alloc::{AllocError, Global};

/// A name as an option.
pub(crate) fn option_of(alloc: Global, name: &Word) -> Result<Word, AllocError> {
    let mut option = Word::from_bytes(alloc, b"-")?;
    option.extend_from_slice(name.as_bytes())?;
    Ok(option)
}

/// Adds a name, unless it is there.
fn add_name(names: &mut Vec<Word>, name: Word) -> Result<(), AllocError> {
    if !names.iter().any(|other| *other == name) {
        names.push(name)?;
    }
    Ok(())
}

/// The alternatives that are open where something comes from, the outermost first.
pub(crate) fn open_around(
    alloc: Global,
    trace: &Trace,
    inside: usize,
) -> Result<Vec<Taken>, AllocError> {
    let all = trace.taken.as_slice();
    let mut open = Vec::new(alloc);
    let mut number = inside;
    for _ in 0..all.len() {
        if let Some(taken) = all.get(number.wrapping_sub(1)) {
            open.push(*taken)?;
            number = taken.around;
        }
    }
    open.reverse();
    Ok(open)
}

impl<'a> View<'a> {
    /// Adds the option of the switch at a place of the line.
    fn add_switch(&self, names: &mut Vec<Word>, switch: usize) -> Result<(), AllocError> {
        match self.explained.line.switches.as_slice().get(switch) {
            Some(switch) => add_name(names, option_of(self.alloc, &switch.name)?),
            None => Ok(()),
        }
    }

    /// Adds the switches for which an alternative was taken: of a test those that it met, unless it is
    /// negated.
    fn add_taken(
        &self,
        names: &mut Vec<Word>,
        place: usize,
        trace: &Trace,
        taken: Taken,
    ) -> Result<(), AllocError> {
        if let Some(switch) = taken.switch {
            return self.add_switch(names, switch);
        }
        let Some(text) = self.text(place, taken.text) else {
            return Ok(());
        };
        if taken.test >= text.tree.tokens().len() || text.tree.is_negated(taken.test) {
            return Ok(());
        }
        for met in trace.met.as_slice() {
            let is_of_test = met.text == taken.text && met.token == taken.test;
            if is_of_test && matches!(met.deed, Deed::Tests) {
                self.add_switch(names, met.switch)?;
            }
        }
        Ok(())
    }

    /// The name of the input of a job.
    fn input_of(&self, job: usize) -> Option<&'a Word> {
        let source = self.explained.plan.jobs.as_slice().get(job)?.source?;
        match self.explained.line.inputs.as_slice().get(source)? {
            Input::File { name, .. } => Some(name),
            Input::Library(_) | Input::LinkWord(_) => None,
        }
    }

    /// The input whose job has a word as its output.
    fn maker_of(&self, word: &Word) -> Option<&'a Word> {
        let jobs = self.explained.plan.jobs.as_slice();
        let job = jobs.iter().position(|job| match &job.output {
            Some(output) => output == word,
            None => false,
        })?;
        self.input_of(job)
    }

    /// The input that an item stands for.
    fn input_by<'v>(&'v self, place: usize, origin: &Origin, word: &'v Word) -> Option<&'v Word> {
        let text = self.text(place, origin.text)?;
        match text.tree.tokens().get(origin.token)?.kind {
            TokenKind::Leaf(Leaf::InputName | Leaf::BaseStem | Leaf::BaseName) => {
                self.input_of(place)
            }
            TokenKind::Leaf(Leaf::Outputs) => Some(self.maker_of(word).unwrap_or(word)),
            _ => None,
        }
    }

    /// What a word is for, of which these put the bytes.
    fn causes(
        &self,
        place: usize,
        origins: &[Origin],
        word: &Word,
    ) -> Result<Vec<Word>, AllocError> {
        let mut names = Vec::new(self.alloc);
        let Some(trace) = self.trace(place) else {
            return Ok(names);
        };
        for origin in origins {
            for taken in open_around(self.alloc, trace, origin.inside)? {
                self.add_taken(&mut names, place, trace, taken)?;
            }
            if let Some(switch) = origin.switch {
                self.add_switch(&mut names, switch)?;
            }
            if let Some(name) = self.input_by(place, origin, word) {
                add_name(&mut names, name.clone()?)?;
            }
        }
        Ok(names)
    }

    /// Adds what a word is for.
    pub(crate) fn push_causes(
        &self,
        text: &mut Vec<u8>,
        place: usize,
        origins: &[Origin],
        word: &Word,
    ) -> Result<(), AllocError> {
        let mut before = b" for ".as_slice();
        for name in self.causes(place, origins, word)? {
            text.extend_from_slice(before)?;
            push_quoted(text, &name)?;
            before = b" and ".as_slice();
        }
        Ok(())
    }
}
