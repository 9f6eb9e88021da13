//! A walk over a text: the place that is reached, and the parts that are open around it.

ghost use Rattle.drv_machine.specs.Context as specs;
ghost use Rattle.drv_machine.specs.Code.Running as running;
ghost use Rattle.drv_machine.specs.Code.Walking.{AtItem, Lain, Left, star_of};
ghost use Rattle.drv_machine.specs.Working.{Answer};
ghost use Rattle.drv_syntax.specs.Parsed.{tree_of};
ghost use Rattle.drv_syntax.specs.Tokens.{tokens_of};
ghost use Rattle.drv_system.specs.Facts.{Facts};
ghost use Rattle.std.specs.Prelude.{◌≡◌, ◌<◌, [], None, length};

use crate::Context;
use crate::machine::Cutter;
use crate::stack::Stack;
use crate::tokens_at::token_at;
use drv_syntax::{SpecTree, TokenKind};
use std::alloc::Global;

/// The value of `%*`: the name of a switch, but for its first bytes.
#[derive(Clone, Copy)]
pub(crate) struct Rest {
    pub(crate) switch: usize,
    pub(crate) size: usize,
}

/// The parts of a text from one place up to another.
#[derive(Clone, Copy)]
pub(crate) struct Parts {
    pub(crate) start: usize,
    pub(crate) end: usize,
}

/// An X that is run for each hit: the place of the test that asks for the switch, and where X
/// begins and ends.
#[derive(Clone, Copy)]
pub(crate) struct Each {
    pub(crate) test: usize,
    pub(crate) start: usize,
    pub(crate) end: usize,
}

/// A working of an X for the hit of a switch.
#[derive(Clone, Copy)]
pub(crate) struct Hit {
    pub(crate) each: Each,
    pub(crate) switch: usize,
}

/// A test by a function, kept while the function's arguments are processed: its answer is known at
/// their end, and says whether its X is processed, or the tests and alternatives after it are judged.
/// It holds the places for that: of the test, and where the tests after it begin; where its X
/// begins and ends, and whether X has a `%*` of its own; and where the braces end.
#[derive(Clone, Copy)]
pub(crate) struct Asking {
    pub(crate) test: usize,
    pub(crate) from: usize,
    pub(crate) start: usize,
    pub(crate) next: usize,
    pub(crate) own: bool,
    pub(crate) end: usize,
}

/// What a part was opened for. A row that opens a part of another kind adds a variant.
#[derive(Drop)]
pub(crate) enum Opened<'a> {
    /// A working of an X for the hit of a switch. The part around it goes on after X.
    Hit {
        each: Each,
        switch: usize,
    },
    /// A named text. The part around it lies in this text, and goes on at a place of it.
    Text {
        around: &'a SpecTree,
        back: usize,
    },
    /// A `%W`. The part around it goes on at a place.
    Failure {
        back: usize,
    },
    /// A `%@` that makes a file of its words. The part around it goes on at a place.
    File {
        back: usize,
    },
    /// A `%@` that means what its braces mean. The part around it goes on at a place.
    Inside {
        back: usize,
    },
    /// The arguments of the function at a place, and what was cut before them. The part around it
    /// goes on at a place.
    Call {
        at: usize,
        back: usize,
        outer: Box<Cutter>,
    },
    /// The arguments of a function that a test asks, and what was cut before them. The places of
    /// the test have a room of their own, since open parts are moved, and most are smaller.
    Asks {
        places: Box<Asking>,
        outer: Box<Cutter>,
    },
}

impl<'a> Default for Opened<'a> {
    fn default() -> Opened<'a> {
        Opened::Failure { back: 0 }
    }
}

/// An open part: what it was opened for, and of the part around it where it ends, and what `%*` is
/// there.
#[derive(Default, Drop)]
pub(crate) struct Frame<'a> {
    pub(crate) opened: Opened<'a>,
    pub(crate) end: usize,
    pub(crate) star: Option<Rest>,
}

/// A walk: the text that is run, the place that it reached, where the innermost open part ends, the
/// value of `%*` in it, and the open parts.
#[derive(Drop)]
pub(crate) struct Walk<'a> {
    pub(crate) text: &'a SpecTree,
    pub(crate) at: usize,
    pub(crate) end: usize,
    pub(crate) star: Option<Rest>,
    pub(crate) frames: Stack<'a>,
}

impl<'a> Walk<'a> {
    /// A walk over a whole text of this many parts.
    pub(crate) fn new(alloc: Global, text: &'a SpecTree, end: usize) -> Walk<'a>
        ensures text { result.text.now ≡ text.now }
        ensures at { result.at ≡ 0 }
        ensures end { result.end ≡ end }
        ensures star { result.star ≡ None }
        ensures frames { result.frames ≡ [] }
    {
        Walk {
            text,
            at: 0,
            end,
            star: None,
            frames: Stack::new(alloc),
        }
    }

    /// Passes over other alternatives than the one that was run.
    pub(crate) fn skip(&mut self, text: &SpecTree)
        requires { Lain text.now self.old }
        ensures does { (F : Facts) (C : specs.Context) (s : running.Machine)
            (given : Answer (Unit {0} × running.Machine)) → Left F C text.now self.old s given
            → Left F C text.now self.new s given }
        ensures reached { self.new.at < self.new.end → AtItem text.now self.new }
        ensures same { self.new ≡ record self.old { at = self.new.at } }
    {
        while self.at < self.end {
            let token = token_at(text, self.at);
            match token.kind {
                TokenKind::Alternative => self.at = token.next,
                _ => return,
            }
        }
    }
}

/// The value of `%*`.
pub(crate) fn star_of<'a>(context: &'a Context<'_>, star: Option<Rest>) -> &'a [u8]
    ensures { result.now ≡ star_of context.now star }
{
    match star {
        Some(rest) if rest.switch < context.switches().len() => {
            context.switches().rest(rest.switch, rest.size)
        }
        _ => &[],
    }
}
