//! Where the words of a plan are from.

use crate::answering::View;
use crate::causes::open_around;
use crate::parts::{earlier, is_test, items, own_extent, part_extent, part_of};
use crate::texts::Known;
use drv_machine::{Origin, Taken};
use drv_words::{Command, Job, PlanLine, Word, plan_lines, push_quoted, render};
use std::alloc::{AllocError, Global};
use std::slice::from_ref;

/// How many commands a job has.
fn command_count(job: &Job) -> usize {
    let mut count = 0_usize;
    for group in job.groups.as_slice() {
        count = count.saturating_add(group.as_slice().len());
    }
    count
}

/// The words of a command, the program first.
fn words_of(alloc: Global, command: &Command) -> Result<Vec<&Word>, AllocError> {
    let mut words = Vec::new(alloc);
    words.push(&command.program)?;
    for word in command.words.as_slice() {
        words.push(word)?;
    }
    Ok(words)
}

impl<'a> View<'a> {
    /// What put the bytes of the word at a place of a command; nothing where that is not known.
    fn origins(&self, trace: usize, command: usize, place: usize) -> Option<&'a [Origin]> {
        let words = self.trace(trace)?.commands.as_slice().get(command)?;
        Some(words.as_slice().get(place)?.as_slice())
    }

    /// Adds the lines of the tests of an alternative, up to a true one.
    pub(crate) fn push_tests(
        &self,
        text: &mut Vec<u8>,
        before: &[u8],
        known: &Known<'a>,
        alternative: usize,
        true_test: Option<usize>,
    ) -> Result<(), AllocError> {
        let tokens = known.tree.tokens();
        let first = alternative.saturating_add(1);
        for test in items(self.alloc, tokens, first, tokens.len())? {
            if !is_test(tokens, test) {
                break;
            }
            let holds = true_test == Some(test);
            text.extend_from_slice(before)?;
            self.push_part(text, known, own_extent(known.tree, test))?;
            if holds {
                return text.extend_from_slice(b" is true\n");
            }
            text.extend_from_slice(b" is false\n")?;
        }
        Ok(())
    }

    /// Adds the tests that chose an alternative: all before it were false.
    fn push_reasons(
        &self,
        text: &mut Vec<u8>,
        trace: usize,
        taken: Taken,
    ) -> Result<(), AllocError> {
        let Some(known) = self.text(trace, taken.text) else {
            return Ok(());
        };
        for at in earlier(self.alloc, known.tree.tokens(), taken.alternative)? {
            self.push_tests(text, b"   since ", known, at, None)?;
        }
        self.push_tests(
            text,
            b"   since ",
            known,
            taken.alternative,
            Some(taken.test),
        )
    }

    /// Adds the tests that chose a word, those of the outermost alternative first.
    fn push_all_reasons(
        &self,
        text: &mut Vec<u8>,
        trace: usize,
        origins: &[Origin],
    ) -> Result<(), AllocError> {
        if let Some(origin) = origins.last()
            && let Some(noted) = self.trace(trace)
        {
            for taken in open_around(self.alloc, noted, origin.inside)? {
                self.push_reasons(text, trace, taken)?;
            }
        }
        Ok(())
    }

    /// Adds the parts that a word is from.
    fn push_parts(
        &self,
        text: &mut Vec<u8>,
        trace: usize,
        origins: &[Origin],
    ) -> Result<(), AllocError> {
        let mut before = b" by ".as_slice();
        let mut last = None;
        for origin in origins {
            let Some(known) = self.text(trace, origin.text) else {
                continue;
            };
            let start = part_of(self.alloc, known.tree, origin.token)?;
            if last != Some((origin.text, start)) {
                text.extend_from_slice(before)?;
                self.push_part(text, known, part_extent(self.alloc, known.tree, start)?)?;
                before = b" and ".as_slice();
            }
            last = Some((origin.text, start));
        }
        Ok(())
    }

    /// Adds the line of a word, by what put its bytes.
    fn push_word(
        &self,
        text: &mut Vec<u8>,
        trace: usize,
        word: &Word,
        origins: Option<&[Origin]>,
    ) -> Result<(), AllocError> {
        text.extend_from_slice(b"  ")?;
        push_quoted(text, word)?;
        let Some(origins) = origins else {
            return text.extend_from_slice(b" by no known part\n");
        };
        self.push_parts(text, trace, origins)?;
        self.push_causes(text, trace, origins, word)?;
        text.push(b'\n')?;
        Ok(())
    }

    /// Adds a command, and under it its words; where one word is asked for, that one if it has it, and
    /// the tests that chose it.
    fn push_command(
        &self,
        text: &mut Vec<u8>,
        line: &PlanLine,
        at: (usize, usize),
        only: Option<&Word>,
    ) -> Result<(), AllocError> {
        let (trace, command) = at;
        let words = words_of(self.alloc, &line.command)?;
        if let Some(word) = only
            && !words.iter().any(|other| *other == word)
        {
            return Ok(());
        }
        text.extend_from_slice(render(self.alloc, from_ref(line))?.as_bytes())?;
        for (place, word) in words.iter().enumerate() {
            if *word != only.unwrap_or(word) {
                continue;
            }
            let origins = self.origins(trace, command, place);
            self.push_word(text, trace, word, origins)?;
            if only.is_some() {
                self.push_all_reasons(text, trace, origins.unwrap_or(&[]))?;
            }
        }
        Ok(())
    }

    /// The commands, and under each its words; where one word is asked for, the commands that have it.
    pub(crate) fn words_text(&self, only: Option<&Word>) -> Result<Vec<u8>, AllocError> {
        let mut text = Vec::new(self.alloc);
        let lines = plan_lines(self.alloc, self.explained.plan)?;
        let mut lines = lines.as_slice().iter();
        for trace in 0..self.explained.traces.len() {
            let Some(job) = self.job(trace) else {
                continue;
            };
            for command in 0..command_count(job) {
                if let Some(line) = lines.next() {
                    self.push_command(&mut text, line, (trace, command), only)?;
                }
            }
        }
        Ok(text)
    }
}
