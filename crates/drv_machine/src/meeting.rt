//! Notes what the items of texts do with switches.

use crate::Context;
use crate::machine::Machine;
use crate::names::{has_language, has_suffix};
use crate::trace::{Deed, Met};
use drv_match::Pattern;
use drv_syntax::{SpecTree, TestKind, TokenKind};
use drv_words::Listing;
use std::alloc::{AllocError, Global};
use std::mem;

/// What a walk is at: its text, by its number in the trace too.
#[derive(Drop)]
pub(crate) struct Sight<'a> {
    pub(crate) context: &'a Context<'a>,
    pub(crate) text: &'a SpecTree,
    pub(crate) number: usize,
    pub(crate) machine: &'a Machine,
}

/// What items did with switches, each item once.
#[derive(Drop)]
pub(crate) struct Meeting {
    alloc: Global,
    met: Listing<Met>,
    /// For each text whether its items were reached.
    seen: Vec<Vec<bool>>,
}

impl<'a> Sight<'a> {
    /// The kind of the item at a place.
    pub(crate) fn kind(&self, place: usize) -> Option<TokenKind> {
        match self.text.tokens().get(place) {
            Some(token) => Some(token.kind),
            None => None,
        }
    }

    /// Whether a test is at a place.
    fn has_test(&self, place: usize) -> bool {
        matches!(self.kind(place), Some(TokenKind::Test))
    }

    /// The pattern at a place.
    pub(crate) fn pattern(&self, place: usize) -> Option<Pattern<'a>> {
        if place >= self.text.tokens().len() {
            return None;
        }
        Some(Pattern {
            name: self.text.word(place),
            star: self.text.is_starred(place),
        })
    }

    /// The patterns from a place on.
    fn patterns(&self, alloc: Global, from: usize) -> Result<Listing<Pattern<'a>>, AllocError> {
        let mut patterns = Listing::new(alloc);
        for place in from..self.text.tokens().len() {
            if !matches!(self.kind(place), Some(TokenKind::Pattern)) {
                break;
            }
            if let Some(pattern) = self.pattern(place) {
                patterns.push(pattern)?;
            }
        }
        Ok(patterns)
    }

    /// The switches that the patterns after an item hit, each once for each of its words.
    pub(crate) fn emitted(&self, alloc: Global, at: usize) -> Result<Listing<usize>, AllocError> {
        let patterns = self.patterns(alloc, at.saturating_add(1))?;
        let mut emitted = Listing::new(alloc);
        if patterns.is_empty() {
            return Ok(emitted);
        }
        let hits = self
            .context
            .switches()
            .any_hits(alloc, patterns.as_slice(), self.machine.hidden())?;
        for hit in hits.as_slice() {
            emitted.push(*hit)?;
            if self.context.takes_word(*hit) {
                emitted.push(*hit)?;
            }
        }
        Ok(emitted)
    }

    /// Whether the test at a place is true; nothing where a function answers it.
    fn holds(&self, test: usize) -> Option<bool> {
        if test >= self.text.tokens().len() {
            return None;
        }
        let pattern = self.pattern(test)?;
        let input = self.context.input();
        let holds = match self.text.asks(test) {
            TestKind::Result => return None,
            TestKind::Suffix => has_suffix(input, pattern.name),
            TestKind::Language => has_language(input, pattern.name),
            TestKind::Switch => {
                self.context
                    .switches()
                    .has_hit(&pattern, self.machine.hidden())
            }
        };
        Some(holds != self.text.is_negated(test))
    }

    /// The first test of the alternative at a place that is true, or that a function answers; of the
    /// default the alternative itself.
    pub(crate) fn true_test(&self, at: usize) -> usize {
        let tokens = self.text.tokens();
        let mut next = at.saturating_add(1);
        for place in next..tokens.len() {
            if place < next {
                continue;
            }
            if !self.has_test(place) {
                break;
            }
            if self.holds(place).unwrap_or(true) {
                return place;
            }
            next = tokens[place].next;
        }
        at
    }
}

impl Meeting {
    pub(crate) fn new(alloc: Global) -> Meeting {
        Meeting {
            alloc,
            met: Listing::new(alloc),
            seen: Vec::new(alloc),
        }
    }

    /// What was noted.
    pub(crate) fn take(&mut self, alloc: Global) -> Listing<Met> {
        mem::replace(&mut self.met, Listing::new(alloc))
    }

    /// Whether an item is reached for the first time.
    fn is_first(&mut self, sight: &Sight<'_>, token: usize) -> Result<bool, AllocError> {
        let count = self.seen.len();
        for _ in count..=sight.number {
            self.seen.push(Vec::new(self.alloc))?;
        }
        let Some(seen) = self.seen.get_mut(sight.number) else {
            return Ok(false);
        };
        if seen.is_empty() {
            *seen = vec![in self.alloc; false; sight.text.tokens().len()]?;
        }
        match seen.get_mut(token) {
            Some(known) => Ok(!mem::replace(known, true)),
            None => Ok(false),
        }
    }

    /// Notes that an item does this with the switches that a pattern hits.
    fn note_hits(
        &mut self,
        sight: &Sight<'_>,
        token: usize,
        deed: Deed,
        pattern: &Pattern<'_>,
    ) -> Result<(), AllocError> {
        let switches = sight.context.switches();
        let hits = switches.hits(self.alloc, pattern, sight.machine.hidden())?;
        for switch in hits.as_slice() {
            self.met.push(Met {
                text: sight.number,
                token,
                deed,
                switch: *switch,
            })?;
        }
        Ok(())
    }

    /// Notes the switches that the pattern of a test or of `%{S}` hits.
    fn note_pattern(
        &mut self,
        sight: &Sight<'_>,
        token: usize,
        deed: Deed,
    ) -> Result<(), AllocError> {
        let Some(pattern) = sight.pattern(token) else {
            return Ok(());
        };
        if self.is_first(sight, token)? {
            self.note_hits(sight, token, deed, &pattern)?;
        }
        Ok(())
    }

    /// Notes the switches that the pattern of a `%<` names.
    fn note_hidden(&mut self, sight: &Sight<'_>, token: usize) -> Result<(), AllocError> {
        let Some(pattern) = sight.pattern(token) else {
            return Ok(());
        };
        if !self.is_first(sight, token)? {
            return Ok(());
        }
        let switches = sight.context.switches();
        for switch in 0..switches.len() {
            if pattern.is_named(switches.name(switch)) {
                self.met.push(Met {
                    text: sight.number,
                    token,
                    deed: Deed::Hides,
                    switch,
                })?;
            }
        }
        Ok(())
    }

    /// Notes what patterns from a place on pass on.
    fn note_patterns(&mut self, sight: &Sight<'_>, from: usize) -> Result<(), AllocError> {
        for place in from..sight.text.tokens().len() {
            if !matches!(sight.kind(place), Some(TokenKind::Pattern)) {
                break;
            }
            self.note_pattern(sight, place, Deed::Passes)?;
        }
        Ok(())
    }

    /// Notes what the tests of alternatives ask, up to the first one that is true, or that a function
    /// answers.
    fn note_tests(&mut self, sight: &Sight<'_>, from: usize, end: usize) -> Result<(), AllocError> {
        let tokens = sight.text.tokens();
        let mut next = from;
        let mut after = from;
        for place in from..tokens.len() {
            if place >= end {
                break;
            }
            if place < next {
                continue;
            }
            let token = tokens[place];
            match token.kind {
                TokenKind::Alternative => {
                    next = place.saturating_add(1);
                    after = token.next;
                }
                TokenKind::Test => {
                    if matches!(sight.text.asks(place), TestKind::Switch) {
                        self.note_pattern(sight, place, Deed::Tests)?;
                    }
                    if sight.holds(place).unwrap_or(true) {
                        break;
                    }
                    next = token.next;
                    if !sight.has_test(next) {
                        next = after;
                    }
                }
                _ => break,
            }
        }
        Ok(())
    }

    /// Notes what the item at a place does with switches.
    pub(crate) fn note(&mut self, sight: &Sight<'_>, place: usize) -> Result<(), AllocError> {
        let tokens = sight.text.tokens();
        let Some(token) = tokens.get(place) else {
            return Ok(());
        };
        match token.kind {
            TokenKind::Hide => self.note_hidden(sight, place),
            TokenKind::Emit
            | TokenKind::Choose
            | TokenKind::FailureFile
            | TokenKind::ArgumentsFile => {
                let inner = place.saturating_add(1);
                self.note_patterns(sight, inner)?;
                self.note_tests(sight, inner, token.next)
            }
            _ => Ok(()),
        }
    }

    /// The arguments of the function at a place have been cut: notes the switches that
    /// `version-compare` asks for, which begin with its last argument but one.
    pub(crate) fn note_call(&mut self, sight: &Sight<'_>, place: usize) -> Result<(), AllocError> {
        let Some(function) = sight.pattern(place) else {
            return Ok(());
        };
        if function.name != b"version-compare".as_slice() {
            return Ok(());
        }
        let Some(word) = sight.machine.last_but_one() else {
            return Ok(());
        };
        let pattern = Pattern {
            name: word.as_bytes(),
            star: true,
        };
        if self.is_first(sight, place)? {
            self.note_hits(sight, place, Deed::Tests, &pattern)?;
        }
        Ok(())
    }
}
