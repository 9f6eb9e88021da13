//! Notes beside a run where the words of commands come from.

use crate::Context;
use crate::machine::Machine;
use crate::meeting::{Meeting, Sight};
use crate::trace::{Origin, Taken, Trace};
use crate::walk::{Frame, Opened, Walk};
use crate::watch::Watch;
use drv_syntax::{Leaf, SpecTree, TokenKind};
use drv_words::{Listing, Word};
use std::alloc::{AllocError, Global};
use std::mem;

/// A part of the walk that is open.
#[derive(Clone, Copy, Debug, Default, Drop)]
struct Part {
    /// The item that opened it.
    opener: Origin,
    /// Whether what is cut in it are no words of a command.
    is_apart: bool,
    /// The text around it.
    around: usize,
    /// How many alternatives were open before it.
    floor: usize,
    /// Those of them that are in other texts.
    base: usize,
}

/// An alternative that is open.
#[derive(Clone, Copy, Debug, Default, Drop)]
struct Branch {
    /// Its place in its text.
    at: usize,
    /// Its place in the trace's list, from 1.
    number: usize,
}

/// Notes where words come from.
#[derive(Drop)]
pub(crate) struct Tracing {
    alloc: Global,
    trace: Trace,
    /// Memory was refused.
    is_lacking: bool,
    /// The words of the open command.
    line: Listing<Listing<Origin>>,
    /// What put the bytes of the open word.
    word: Listing<Origin>,
    /// How many bytes the open word has.
    size: usize,
    parts: Vec<Part>,
    branches: Vec<Branch>,
    /// How many of the branches are in other texts.
    base: usize,
    /// How many of the parts are apart.
    apart: usize,
    /// The item that is worked.
    here: Origin,
    /// The place in the text up to which alternatives were looked for.
    seen: usize,
    /// Whether it may end the open word with bytes of its own.
    is_putting: bool,
    /// The name of a text that it opens.
    named: Option<Word>,
    /// The switches of the words that it puts.
    emitted: Listing<usize>,
    meeting: Meeting,
}

/// Whether an item may put bytes and end their word.
fn puts_words(kind: TokenKind) -> bool {
    match kind {
        TokenKind::Emit => true,
        TokenKind::Leaf(leaf) => matches!(
            leaf,
            Leaf::Accumulated | Leaf::AssemblerOptions | Leaf::PreprocessorOptions
        ),
        _ => false,
    }
}

/// The name of the text that the item at a place opens, if it opens one.
fn name_at(alloc: Global, sight: &Sight<'_>, at: usize) -> Result<Option<Word>, AllocError> {
    let Some(TokenKind::NamedText | TokenKind::BuiltinText) = sight.kind(at) else {
        return Ok(None);
    };
    match sight.pattern(at) {
        Some(named) if sight.context.text_named(named.name).is_some() => {
            Ok(Some(Word::from_bytes(alloc, named.name)?))
        }
        _ => Ok(None),
    }
}

impl Tracing {
    pub(crate) fn new(alloc: Global) -> Tracing {
        Tracing {
            alloc,
            trace: Trace {
                texts: Listing::new(alloc),
                taken: Listing::new(alloc),
                met: Listing::new(alloc),
                commands: Listing::new(alloc),
            },
            is_lacking: false,
            line: Listing::new(alloc),
            word: Listing::new(alloc),
            size: 0,
            parts: Vec::new(alloc),
            branches: Vec::new(alloc),
            base: 0,
            apart: 0,
            here: Origin::default(),
            seen: 0,
            is_putting: false,
            named: None,
            emitted: Listing::new(alloc),
            meeting: Meeting::new(alloc),
        }
    }

    /// The trace of the whole run, in which the last word and its command have ended.
    pub(crate) fn finish(&mut self) -> Result<(), AllocError> {
        if self.is_lacking {
            return Err(AllocError);
        }
        self.is_putting = false;
        if !self.word.is_empty() {
            self.note_words(1)?;
        }
        self.trace.met = self.meeting.take(self.alloc);
        self.end_line()
    }

    pub(crate) fn into_trace(self) -> Trace {
        self.trace
    }

    /// What the item that is worked puts in its word at a place of those that it puts.
    fn origin_of(&self, place: usize) -> Origin {
        match self.emitted.as_slice().get(place) {
            Some(switch) => Origin {
                switch: Some(*switch),
                ..self.here
            },
            None => self.here,
        }
    }

    /// So many words were added to the open command: the first of them is the open word, if one was.
    fn note_words(&mut self, count: usize) -> Result<(), AllocError> {
        for place in 0..count {
            let mut word = mem::replace(&mut self.word, Listing::new(self.alloc));
            self.size = 0;
            if word.is_empty() || self.is_putting {
                let origin = self.origin_of(place);
                word.push(origin)?;
            }
            self.line.push(word)?;
        }
        Ok(())
    }

    /// The open command ends.
    fn end_line(&mut self) -> Result<(), AllocError> {
        if self.line.is_empty() {
            return Ok(());
        }
        let line = mem::replace(&mut self.line, Listing::new(self.alloc));
        self.trace.commands.push(line)?;
        Ok(())
    }

    /// Notes what was put since the last look.
    fn note(&mut self, machine: &Machine) -> Result<(), AllocError> {
        if self.apart > 0 {
            return Ok(());
        }
        let sizes = machine.sizes();
        let known = self.trace.commands.len();
        for place in known..sizes.ended {
            let count = machine.words_of(place).saturating_sub(self.line.len());
            self.note_words(count)?;
            self.end_line()?;
        }
        let count = sizes.words.saturating_sub(self.line.len());
        self.note_words(count)?;
        if sizes.is_open && (self.word.is_empty() || sizes.bytes > self.size) {
            self.word.push(self.here)?;
        }
        self.size = sizes.bytes;
        Ok(())
    }

    /// The number of a text of this name.
    fn number_of(&mut self, name: Word) -> Result<usize, AllocError> {
        for (place, known) in self.trace.texts.as_slice().iter().enumerate() {
            if known.as_bytes() == name.as_bytes() {
                return Ok(place.saturating_add(1));
            }
        }
        self.trace.texts.push(name)?;
        Ok(self.trace.texts.len())
    }

    /// A part that was opened since the last look is noted.
    fn note_part(&mut self, frame: &Frame<'_>) -> Result<(), AllocError> {
        let is_apart = matches!(
            &frame.opened,
            Opened::Call { .. } | Opened::Asks { .. } | Opened::File { .. }
        );
        self.parts.push(Part {
            opener: self.here,
            is_apart,
            around: self.here.text,
            floor: self.branches.len(),
            base: self.base,
        })?;
        if is_apart {
            self.apart = self.apart.saturating_add(1);
        }
        if matches!(&frame.opened, Opened::Text { .. }) {
            self.base = self.branches.len();
            self.seen = 0;
            if let Some(name) = self.named.take() {
                let number = self.number_of(name)?;
                self.here.text = number;
            }
        }
        Ok(())
    }

    /// Notes the parts that were opened since the last look.
    fn note_parts(&mut self, walk: &Walk<'_>) -> Result<(), AllocError> {
        let known = self.parts.len();
        for place in known..walk.frames.len() {
            if let Some(frame) = walk.frames.get(place) {
                self.note_part(frame)?;
            }
        }
        Ok(())
    }

    /// A text that the last item names, and that opened no part, was put at once: its first byte
    /// begins what it put.
    fn note_plain(&mut self) -> Result<(), AllocError> {
        if let Some(name) = self.named.take() {
            let number = self.number_of(name)?;
            self.here.text = number;
            self.here.token = 0;
        }
        Ok(())
    }

    /// The innermost alternative that is open, from 1.
    fn inside(&self) -> usize {
        match self.branches.last() {
            Some(branch) => branch.number,
            None => 0,
        }
    }

    /// Forgets the alternatives of this text that a place is not in, and says where to look for others.
    fn leave_branches(&mut self, text: &SpecTree, at: usize) -> usize {
        let tokens = text.tokens();
        let count = self.branches.len();
        for _ in self.base..count {
            let Some(branch) = self.branches.last() else {
                break;
            };
            let start = branch.at;
            if let Some(token) = tokens.get(start) {
                if start < at && at < token.next {
                    break;
                }
            }
            self.branches.pop();
        }
        if self.seen <= at {
            return self.seen;
        }
        if self.branches.len() <= self.base {
            return 0;
        }
        match self.branches.last() {
            Some(branch) => branch.at.saturating_add(1),
            None => 0,
        }
    }

    /// Notes the alternatives of this text that are open, and no others.
    fn note_branches(&mut self, sight: &Sight<'_>, walk: &Walk<'_>) -> Result<(), AllocError> {
        let mut next = self.leave_branches(walk.text, walk.at);
        let tokens = walk.text.tokens();
        for place in next..tokens.len() {
            if place >= walk.at {
                break;
            }
            if place < next {
                continue;
            }
            let token = tokens[place];
            if token.next <= walk.at {
                next = token.next;
                continue;
            }
            if matches!(token.kind, TokenKind::Alternative) {
                self.note_branch(walk, place, sight.true_test(place))?;
            }
        }
        self.seen = walk.at;
        Ok(())
    }

    /// An alternative was taken, by this test or for a hit of another one.
    fn note_branch(&mut self, walk: &Walk<'_>, at: usize, test: usize) -> Result<(), AllocError> {
        let mut test = test;
        let mut switch = None;
        if let Some(frame) = walk.frames.last() {
            if let Opened::Hit { each, switch: hit } = &frame.opened {
                if at < each.test && each.test < walk.at && walk.at < each.end {
                    test = each.test;
                    switch = Some(*hit);
                }
            }
        }
        let around = self.inside();
        self.trace.taken.push(Taken {
            text: self.here.text,
            alternative: at,
            test,
            switch,
            around,
        })?;
        let number = self.trace.taken.len();
        self.branches.push(Branch { at, number })?;
        Ok(())
    }

    /// Plain bytes are put at once, also those after the end of an alternative: these come from there.
    fn note_run(&mut self, text: &SpecTree, at: usize) -> Result<(), AllocError> {
        if self.apart > 0 || self.word.is_empty() {
            return Ok(());
        }
        let start = self.here.token;
        let end = start.saturating_add(text.plain_bytes(start, at).len());
        let tokens = text.tokens();
        for place in start..end {
            let Some(branch) = self.branches.last() else {
                break;
            };
            let is_end = match tokens.get(branch.at) {
                Some(token) => token.next == place,
                None => false,
            };
            if is_end && self.branches.len() > self.base {
                self.branches.pop();
                let inside = self.inside();
                self.word.push(Origin {
                    text: self.here.text,
                    token: place,
                    switch: None,
                    inside,
                })?;
            }
        }
        Ok(())
    }

    /// The walk has reached an item.
    fn look(
        &mut self,
        context: &Context<'_>,
        walk: &Walk<'_>,
        machine: &Machine,
    ) -> Result<(), AllocError> {
        self.note_parts(walk)?;
        let text = self.here.text;
        let is_own = self.named.is_none();
        self.note_plain()?;
        self.note(machine)?;
        if is_own {
            self.note_run(walk.text, walk.at)?;
        }
        self.here.text = text;
        let sight = Sight {
            context,
            text: walk.text,
            number: text,
            machine,
        };
        self.note_branches(&sight, walk)?;
        self.here.token = walk.at;
        self.here.switch = walk.star.map(|rest| rest.switch);
        let inside = self.inside();
        self.here.inside = inside;
        self.named = name_at(self.alloc, &sight, walk.at)?;
        self.emitted = sight.emitted(self.alloc, walk.at)?;
        self.is_putting = match sight.kind(walk.at) {
            Some(kind) => puts_words(kind),
            None => false,
        };
        self.meeting.note(&sight, walk.at)
    }

    /// What the part whose end was reached is followed by comes from its opener, or from its test.
    fn leave(&mut self, frame: &Frame<'_>, part: Part) {
        let inside = self.inside();
        if let Some(branch) = self.branches.get(part.floor) {
            self.seen = branch.at;
        }
        self.branches.truncate(part.floor);
        if matches!(&frame.opened, Opened::Text { .. }) {
            self.base = part.base;
            self.seen = part.opener.token;
        }
        if part.is_apart {
            self.apart = self.apart.saturating_sub(1);
        }
        self.is_putting = false;
        self.emitted = Listing::new(self.alloc);
        self.here = match &frame.opened {
            Opened::Hit { each, switch } => Origin {
                text: part.around,
                token: each.test,
                switch: Some(*switch),
                inside,
            },
            _ => part.opener,
        };
    }

    /// The walk has ended.
    fn end_walk(&mut self, machine: &Machine) -> Result<(), AllocError> {
        self.note_plain()?;
        self.note(machine)
    }

    /// A part has ended.
    fn end(
        &mut self,
        context: &Context<'_>,
        frame: &Frame<'_>,
        walk: &Walk<'_>,
        machine: &Machine,
    ) -> Result<(), AllocError> {
        self.note_parts(walk)?;
        let is_own = self.named.is_none() && self.parts.len() > walk.frames.len();
        if self.parts.len() <= walk.frames.len() {
            self.note_part(frame)?;
        }
        self.note_plain()?;
        self.note(machine)?;
        if is_own {
            self.note_run(walk.text, walk.at)?;
        }
        let Some(part) = self.parts.pop() else {
            return Ok(());
        };
        self.leave(frame, part);
        let called = match &frame.opened {
            Opened::Call { at, .. } => *at,
            Opened::Asks { places, .. } => places.test,
            _ => return Ok(()),
        };
        let sight = Sight {
            context,
            text: walk.text,
            number: self.here.text,
            machine,
        };
        self.meeting.note_call(&sight, called)
    }
}

impl Watch for Tracing {
    fn reach(&mut self, context: &Context<'_>, walk: &Walk<'_>, machine: &Machine) {
        if self.look(context, walk, machine).is_err() {
            self.is_lacking = true;
        }
    }

    fn end_part(
        &mut self,
        context: &Context<'_>,
        frame: &Frame<'_>,
        walk: &Walk<'_>,
        machine: &Machine,
    ) {
        if self.end(context, frame, walk, machine).is_err() {
            self.is_lacking = true;
        }
    }

    fn end_text(&mut self, machine: &Machine) {
        if self.end_walk(machine).is_err() {
            self.is_lacking = true;
        }
    }
}
