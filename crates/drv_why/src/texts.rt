//! The texts that a plan was made of.

use crate::answering::{Explained, View};
use crate::parts::Extent;
use drv_args::Input;
use drv_check::{LoadedFiles, Source, Spot, place_in, spot_at, spots_of};
use drv_place::line_after;
use drv_plan::{Chosen, PlanFault, language};
use drv_specs::SpecSet;
use drv_syntax::{SpecTree, TokenKind};
use drv_words::Word;
use itoa::Buffer;
use std::alloc::{AllocError, Global};

/// The name of the link's text.
const LINK_COMMAND: &[u8] = b"link_command";

/// The most bytes of a part that are shown.
const MOST_SHOWN: usize = 40;

/// A text.
#[derive(Drop)]
pub(crate) struct Known<'a> {
    /// What precedes the colon where a file puts it, as `*cc1` or `.c`.
    head: Word,
    pub(crate) tree: &'a SpecTree,
    spots: Vec<Spot>,
    /// Where another one names it, if it was not run.
    pub(crate) from: Option<Naming>,
}

/// An item of a text.
#[derive(Clone, Copy)]
pub(crate) struct Naming {
    /// The place of its text among those that are known.
    pub(crate) text: usize,
    pub(crate) token: usize,
}

/// A name after a mark.
fn head_of(alloc: Global, mark: u8, name: &[u8]) -> Result<Word, AllocError> {
    let mut head = Word::empty(alloc);
    head.push(mark)?;
    head.extend_from_slice(name)?;
    Ok(head)
}

/// The key of the pair that a file's suffix chooses: the last one that fits.
fn suffix_key<'a>(set: &'a SpecSet, name: &[u8]) -> Option<&'a Word> {
    let mut found = None;
    for (key, _) in set.pairs() {
        let bytes = key.as_bytes();
        if !bytes.starts_with(b"@") && bytes.len() < name.len() && name.ends_with(bytes) {
            found = Some(key);
        }
    }
    found
}

/// The head of the text that was chosen for an input.
fn chosen_head(
    alloc: Global,
    set: &SpecSet,
    input: &Input,
    chosen: &Chosen<'_>,
) -> Result<Word, AllocError> {
    if let Some(language) = chosen.name {
        return head_of(alloc, b'@', language);
    }
    if let Input::File { name, .. } = input
        && let Some(key) = suffix_key(set, name.as_bytes())
    {
        return key.clone();
    }
    Ok(Word::empty(alloc))
}

impl<'a> View<'a> {
    /// The place of a text among those that are known.
    fn number_of(&mut self, head: Word, tree: &'a SpecTree) -> Result<usize, AllocError> {
        if let Some(place) = self.known.iter().position(|known| known.head == head) {
            return Ok(place);
        }
        let place = self.known.len();
        self.known.push(Known {
            spots: spots_of(self.alloc, &self.files, head.as_bytes(), tree.text())?,
            head,
            tree,
            from: None,
        })?;
        Ok(place)
    }

    /// The place of a named text, if there is one of this name.
    fn named(&mut self, name: &[u8]) -> Result<Option<usize>, AllocError> {
        match self.explained.set.tree(name) {
            Some(tree) => {
                let head = head_of(self.alloc, b'*', name)?;
                Ok(Some(self.number_of(head, tree)?))
            }
            None => Ok(None),
        }
    }

    /// The place of the text that was run for an input of the line.
    fn chosen(&mut self, source: usize) -> Result<Option<usize>, AllocError> {
        let Some(input) = self.explained.line.inputs.as_slice().get(source) else {
            return Ok(None);
        };
        match language(self.alloc, input, self.explained.set) {
            Ok(Some(chosen)) => {
                let head = chosen_head(self.alloc, self.explained.set, input, &chosen)?;
                Ok(Some(self.number_of(head, chosen.tree)?))
            }
            Err(PlanFault::Memory) => Err(AllocError),
            Ok(None) | Err(_) => Ok(None),
        }
    }

    /// The place of the text that was run for a job, or for the link behind them.
    fn run_first(&mut self, job: usize) -> Result<Option<usize>, AllocError> {
        match self.explained.plan.jobs.as_slice().get(job) {
            Some(job) => match job.source {
                Some(source) => self.chosen(source),
                None => Ok(None),
            },
            None => self.named(LINK_COMMAND),
        }
    }

    /// The places of the texts of a trace.
    fn run_texts(&mut self, place: usize) -> Result<Vec<usize>, AllocError> {
        let mut numbers = Vec::new(self.alloc);
        if let Some(trace) = self.trace(place)
            && let Some(number) = self.run_first(place)?
        {
            numbers.push(number)?;
            for name in trace.texts.as_slice() {
                if let Some(number) = self.named(name.as_bytes())? {
                    numbers.push(number)?;
                }
            }
        }
        Ok(numbers)
    }

    /// Adds the texts that one names.
    fn add_named_by(&mut self, text: usize) -> Result<(), AllocError> {
        let Some(known) = self.known.get(text) else {
            return Ok(());
        };
        let tree = known.tree;
        for (token, item) in tree.tokens().iter().enumerate() {
            if !matches!(item.kind, TokenKind::NamedText | TokenKind::BuiltinText) {
                continue;
            }
            let count = self.known.len();
            if let Some(place) = self.named(tree.word(token))?
                && place == count
                && let Some(named) = self.known.get_mut(place)
            {
                named.from = Some(Naming { text, token });
            }
        }
        Ok(())
    }

    /// Adds the link's text, and those that the known ones name.
    pub(crate) fn add_unrun(&mut self) -> Result<(), AllocError> {
        self.named(LINK_COMMAND)?;
        for place in 0..usize::MAX {
            if place >= self.known.len() {
                break;
            }
            self.add_named_by(place)?;
        }
        Ok(())
    }

    /// What is explained, with its texts.
    pub(crate) fn new(alloc: Global, explained: Explained<'a>) -> Result<View<'a>, AllocError> {
        let mut view = View {
            alloc,
            explained,
            files: LoadedFiles::new(alloc, explained.sources)?,
            known: Vec::new(alloc),
            numbers: Vec::new(alloc),
        };
        for place in 0..explained.traces.len() {
            let numbers = view.run_texts(place)?;
            view.numbers.push(numbers)?;
        }
        Ok(view)
    }

    /// Adds the place of a byte, by its line and its column (GNU coding standards, "Formatting Error
    /// Messages").
    fn push_place(&self, text: &mut Vec<u8>, source: &Source, at: usize) -> Result<(), AllocError> {
        let place = place_in(source, at)?;
        text.extend_from_slice(b" at ")?;
        text.extend_from_slice(place.file.as_bytes())?;
        for number in [place.line, place.column] {
            text.push(b':')?;
            text.extend_from_slice(Buffer::new().format(number).as_bytes())?;
        }
        Ok(())
    }

    /// Adds bytes of a text as they are written, as far as they are shown, its head, and where they
    /// are, if a file put them.
    pub(crate) fn push_part(
        &self,
        text: &mut Vec<u8>,
        known: &Known<'a>,
        extent: Extent,
    ) -> Result<(), AllocError> {
        let bytes = known.tree.text();
        let written = bytes.get(extent.start..extent.end).unwrap_or(&[]);
        let front = line_after(written.get(..MOST_SHOWN).unwrap_or(written), 0);
        text.extend_from_slice(front)?;
        if front.len() < written.len() {
            text.extend_from_slice(b"..")?;
        }
        text.extend_from_slice(b" of ")?;
        text.extend_from_slice(known.head.as_bytes())?;
        if let Some(spot) = spot_at(known.spots.as_slice(), bytes.len(), extent.start)
            && let Some(source) = self.explained.sources.get(spot.source)
        {
            self.push_place(text, source, spot.at)?;
        }
        Ok(())
    }
}
