//! What is cut, put aside while the arguments of a function are cut.

ghost use Rattle.drv_machine.specs.Cutting.{nothing_cut};
ghost use Rattle.std.specs.Prelude.{◌≡◌};

use super::{CutLine, Inside, Machine, Marking, NamedLine};
use drv_words::{Listing, Word};
use smallvec::SmallVec;
use std::marker::Model;
use std::mem;

/// What was cut before arguments; the fields are those of [`Machine`].
#[derive(Drop)]
pub(crate) struct Cutter {
    is_open: bool,
    word: SmallVec<u8, 256>,
    line: Listing<Word>,
    is_piped: bool,
    lines: Listing<NamedLine>,
    is_stray: bool,
    outer: Option<CutLine>,
    marks: Marking,
    is_barred: bool,
    removed: Listing<Word>,
    on_failure: Listing<Word>,
    output: Option<Word>,
    inside: Inside,
}

impl Model for Cutter {
    ghost use Rattle.drv_machine.specs.Cutting as cutting;
    ghost use Rattle.drv_machine.specs.Code.Held.{open_word};
    ghost use Rattle.std.specs.Option.{unwrap_or};
    ghost use Rattle.std.specs.Prelude.{◌≡◌, []};

    ghost Value = { cutting.Cut };

    ghost invariant = { λ c. unwrap_or (open_word c.is_open c.word.items) [] ≡ c.word.items };

    ghost view = { λ c. record {
      word = open_word c.is_open c.word.items;
      marks = c.marks;
      barred = c.is_barred;
      line = record { words = c.line; piped = c.is_piped };
      lines = c.lines;
      stray = c.is_stray;
      removed = c.removed;
      on_failure = c.on_failure;
      output = c.output;
      outer = c.outer;
      inside = c.inside;
    } };
}

impl Machine {
    /// What is cut so far is put aside, and nothing is cut.
    pub(crate) fn put_aside(&mut self) -> Cutter
        ensures aside { result ≡ self.old.cut }
        ensures begun { self.new ≡ record self.old { cut = nothing_cut } }
    {
        Cutter {
            is_open: mem::replace(&mut self.is_open, false),
            word: mem::replace(&mut self.word, SmallVec::new(self.alloc)),
            line: mem::replace(&mut self.line, Listing::new(self.alloc)),
            is_piped: mem::replace(&mut self.is_piped, false),
            lines: mem::replace(&mut self.lines, Listing::new(self.alloc)),
            is_stray: mem::replace(&mut self.is_stray, false),
            outer: mem::replace(&mut self.outer, None),
            marks: mem::replace(&mut self.marks, Marking::none()),
            is_barred: mem::replace(&mut self.is_barred, false),
            removed: mem::replace(&mut self.removed, Listing::new(self.alloc)),
            on_failure: mem::replace(&mut self.on_failure, Listing::new(self.alloc)),
            output: mem::replace(&mut self.output, None),
            inside: mem::replace(&mut self.inside, Inside::new(self.alloc)),
        }
    }

    /// The words that were cut last, and what was cut before goes on.
    pub(crate) fn take_back(&mut self, outer: Cutter) -> Listing<Word>
        ensures words { result ≡ self.old.cut.line.words }
        ensures back { self.new ≡ record self.old { cut = outer } }
    {
        let words = mem::replace(&mut self.line, outer.line);
        self.is_open = outer.is_open;
        self.word = outer.word;
        self.is_piped = outer.is_piped;
        self.lines = outer.lines;
        self.is_stray = outer.is_stray;
        self.outer = outer.outer;
        self.marks = outer.marks;
        self.is_barred = outer.is_barred;
        self.removed = outer.removed;
        self.on_failure = outer.on_failure;
        self.output = outer.output;
        self.inside = outer.inside;
        words
    }
}
