//! The state of running a text: what is cut so far, and what the text changes as it goes.

ghost use Rattle.drv_system.specs.Code.Asked.{Asked};
ghost use Rattle.drv_machine.specs.Atoms.{switch_atoms};
ghost use Rattle.drv_machine.specs.Context as specs;
ghost use Rattle.drv_machine.specs.Context.{argument, names};
ghost use Rattle.drv_machine.specs.Cutting.{in_word, named_line, pipe_ended};
ghost use Rattle.drv_machine.specs.Code.Running.{Does, begun, reached, run};
ghost use Rattle.drv_machine.specs.Working as step;
ghost use Rattle.drv_machine.specs.Working.{Break, End, Open, Piped, Put, puts, word_of};
ghost use Rattle.drv_match.specs.Matching.{hidden_by};
ghost use Rattle.drv_system.specs.Asking.{Extends};
ghost use Rattle.drv_system.specs.Facts.{Facts};
ghost use Rattle.drv_system.specs.Known.{Is};
ghost use Rattle.std.specs.Prelude.{◌≡◌, ◌∷◌, ◌++◌, ◌+◌, ◌-◌, ◌<◌, [], IfOk, Ok, OnErr, OnOk};
ghost use Rattle.std.specs.Prelude.{length, map, ℕ};

mod cutter;
mod filing;
mod finishing;
mod functions;
mod inside;
mod lists;
mod marking;
mod naming;
mod sizes;
mod tally;
mod whole_words;

use crate::{Context, MachineFault};
pub(crate) use cutter::Cutter;
use drv_funcs::Outputs;
use drv_match::{Hidden, Pattern, Switches};
use drv_system::{Outside, System};
use drv_words::{Listing, Word, copy_words};
pub(crate) use finishing::outcome_of;
use inside::Inside;
pub(crate) use marking::{Mark, Marking};
pub(crate) use naming::{Drawing, Drawn, Temporary};
use smallvec::SmallVec;
use std::alloc::{AllocError, Global};
use std::marker::Model;
use std::mem;
pub(crate) use tally::Tally;

/// A command as it was cut so far: its words, and whether it ends with a pipe.
#[derive(Drop)]
pub(crate) struct CutLine {
    pub(crate) words: Listing<Word>,
    pub(crate) piped: bool,
}

impl Model for CutLine {
    ghost use Rattle.drv_machine.specs.Cutting as cutting;

    ghost Value = { cutting.CutLine };

    ghost view = { λ l. record { words = l.words; piped = l.piped } };
}

/// A command that has ended: its words, of which there is a first, and whether it ends with a pipe.
#[derive(Drop)]
pub(crate) struct NamedLine {
    /// The name of its program.
    pub(crate) name: Word,
    /// The words after it.
    pub(crate) words: Listing<Word>,
    pub(crate) piped: bool,
}

impl Model for NamedLine {
    ghost use Rattle.drv_machine.specs.Cutting as cutting;

    ghost Value = { cutting.NamedLine };

    ghost view = { λ l. record { name = l.name; words = l.words; piped = l.piped } };
}

impl NamedLine {
    /// The command of these words, if there is one.
    fn from_words(words: Listing<Word>, piped: bool) -> Option<NamedLine>
        ensures { result ≡ named_line (record { words = words; piped = piped }) }
    {
        let mut words = words.into_vec();
        if words.is_empty() {
            return None;
        }
        let name = words.remove(0);
        Some(NamedLine {
            name,
            words: Listing::from_vec(words),
            piped,
        })
    }
}

/// Adds bytes to a word: mostly one byte, which has a shorter path.
fn add_bytes(word: &mut SmallVec<u8, 256>, bytes: &[u8]) -> Result<(), AllocError>
    ensures ok { OnOk result (word.new.items ≡ word.old.items ++ bytes.now) }
    ensures err { OnErr result (word.new.items ≡ word.old.items) }
{
    match bytes {
        [byte] => {
            word.push(*byte)?;
            Ok(())
        }
        _ => word.extend_from_slice(bytes),
    }
}

/// The state of running a text: what is cut so far, and what the run changes as it goes. The number
/// of items that were reached is apart (`Tally`), and 0 in the view.
#[derive(Drop)]
pub(crate) struct Machine {
    alloc: Global,
    /// Whether a word is open.
    is_open: bool,
    /// The bytes of the open word; none where no word is open.
    word: SmallVec<u8, 256>,
    /// The words of the open command.
    line: Listing<Word>,
    /// Whether a pipe follows them.
    is_piped: bool,
    /// The commands that have ended.
    lines: Listing<NamedLine>,
    /// Whether a pipe was where none may be.
    is_stray: bool,
    /// The command, where words go to the file of a `%@`.
    outer: Option<CutLine>,
    /// The marks of the open word, or those that wait for the next one.
    marks: Marking,
    /// Whether the open word began before a `%V`.
    is_barred: bool,
    /// The words that are removed at the end of the run.
    removed: Listing<Word>,
    /// The words that are removed where the job fails.
    on_failure: Listing<Word>,
    output: Option<Word>,
    /// What ends in the `%W` that are open.
    inside: Inside,
    hidden: Hidden,
    /// What `%x` has added so far.
    accumulated: Listing<Word>,
    /// The names of the job's temporaries.
    drawn: Listing<Drawn>,
    /// The number of the next name that is drawn.
    number: usize,
    /// The outputs of the jobs so far.
    outputs: Outputs,
    notices: Listing<Word>,
    /// Whether words go to the file of a `%@`.
    is_in_file: bool,
}

impl Model for Machine {
    ghost use Rattle.drv_machine.specs.Code.Held.{open_word};
    ghost use Rattle.drv_machine.specs.Code.Running as running;
    ghost use Rattle.std.specs.Option.{unwrap_or};
    ghost use Rattle.std.specs.Prelude.{◌≡◌, []};

    ghost Value = { running.Machine };

    ghost invariant = { λ m. unwrap_or (open_word m.is_open m.word.items) [] ≡ m.word.items };

    ghost view = { λ m. record {
      cut = record {
        word = open_word m.is_open m.word.items;
        marks = m.marks;
        barred = m.is_barred;
        line = record { words = m.line; piped = m.is_piped };
        lines = m.lines;
        stray = m.is_stray;
        removed = m.removed;
        on_failure = m.on_failure;
        output = m.output;
        outer = m.outer;
        inside = m.inside;
      };
      world = record {
        hidden = m.hidden;
        accumulated = m.accumulated;
        drawn = m.drawn;
        number = m.number;
        outputs = m.outputs;
        notices = m.notices;
        is_in_file = m.is_in_file;
        items = 0;
      };
    } };
}

impl Machine {
    /// Nothing is cut, hidden or counted; options, numbers and outputs go on from the texts before.
    /// Lack of memory is the only error.
    pub(crate) fn new(alloc: Global, context: &Context<'_>) -> Result<Machine, AllocError>
        ensures { IfOk result (λ made. (F : Facts) → made ≡ begun F context.now) }
    {
        Ok(Machine {
            alloc,
            is_open: false,
            word: SmallVec::new(alloc),
            line: Listing::new(alloc),
            is_piped: false,
            lines: Listing::new(alloc),
            is_stray: false,
            outer: None,
            marks: Marking::none(),
            is_barred: false,
            removed: Listing::new(alloc),
            on_failure: Listing::new(alloc),
            output: None,
            inside: Inside::new(alloc),
            hidden: Hidden::new(alloc, context.switches())?,
            accumulated: copy_words(alloc, context.accumulated())?,
            drawn: Listing::new(alloc),
            number: context.number(),
            outputs: Outputs::new(alloc, copy_words(alloc, context.outputs())?),
            notices: Listing::new(alloc),
            is_in_file: false,
        })
    }

    /// Bytes go into the open word, or open one; no bytes change nothing. Lack of memory is the
    /// only error.
    pub(crate) fn put_bytes(&mut self, bytes: &[u8]) -> Result<(), AllocError>
        ensures { (n : ℕ) (F : Facts) (C : specs.Context) → OnOk result
            (run F C (reached n self.old) (step.bytes bytes.now) ≡ Is (Ok (tt, reached n self.new))) }
    {
        if bytes.is_empty() {
            return Ok(());
        }
        add_bytes(&mut self.word, bytes)?;
        self.is_open = true;
        self.is_stray |= self.is_piped;
        Ok(())
    }

    /// Bytes go into the open word, or open one; no bytes change nothing.
    pub(crate) fn put(&mut self, bytes: &[u8]) -> Result<(), MachineFault>
        ensures { (n : ℕ) (F : Facts) (C : specs.Context)
            → Does F C n self.old self.new result (step.bytes bytes.now) }
    {
        self.put_bytes(bytes)?;
        Ok(())
    }

    /// The bytes of plain items go into the open word, or open one. Lack of memory is the only error.
    fn put_plain(&mut self, run: &[u8]) -> Result<(), AllocError>
        requires { 0 < length run.now }
        ensures { OnOk result (self.new ≡ record self.old { cut = in_word self.old.cut run.now }) }
    {
        add_bytes(&mut self.word, run)?;
        self.is_open = true;
        self.is_stray |= self.is_piped;
        Ok(())
    }

    /// A word is open, which may stay empty.
    fn open(&mut self)
        ensures does { (n : ℕ) (F : Facts) (C : specs.Context)
            → run F C (reached n self.old) (puts (Open ∷ [])) ≡ Is (Ok (tt, reached n self.new)) }
        ensures same { self.new.world ≡ self.old.world }
    {
        self.is_open = true;
        self.is_stray |= self.is_piped;
    }

    /// The open command ends; one without a word is dropped. In a file none ends.
    fn close_line(&mut self) -> Result<(), MachineFault>
        ensures does { (n : ℕ) (F : Facts) (C : specs.Context)
            → Does F C n self.old self.new result (puts (End ∷ [])) }
        ensures same { self.new.world ≡ self.old.world }
    {
        if self.outer.is_some() {
            return Ok(());
        }
        let words = mem::replace(&mut self.line, Listing::new(self.alloc));
        let piped = mem::replace(&mut self.is_piped, false);
        if let Some(line) = NamedLine::from_words(words, piped) {
            self.lines.push(line)?;
        }
        Ok(())
    }

    /// A pipe follows the words of the open command: there has to be one, and no pipe yet. In a
    /// file it is none.
    fn close_with_pipe(&mut self)
        ensures { self.new ≡ record self.old { cut = pipe_ended self.old.cut } }
    {
        if self.outer.is_some() {
            return;
        }
        self.is_stray |= self.is_piped || self.line.is_empty();
        self.is_piped = true;
    }

    /// The open word and its command end; a command without a word is dropped.
    #[tactic(auto, using(drv_system::proofs::AskedCalls::asked_further))]
    pub(crate) fn end_line<S: System>(
        &mut self,
        context: &Context<'_>,
        outside: &mut Outside<'_, S>,
    ) -> Result<(), MachineFault>
        ensures asks { Asked S.events outside.old outside.new }
        ensures does { (n : ℕ) (F : Facts) → Extends outside.new.facts.now F
            → Does F context.now n self.old self.new result (puts (Break ∷ End ∷ [])) }
    {
        self.end_word(context, outside)?;
        self.close_line()
    }

    /// The open word ends, and its command with a pipe. Whether pipes are right is judged after the
    /// whole text.
    #[tactic(auto, using(drv_system::proofs::AskedCalls::asked_further))]
    pub(crate) fn pipe<S: System>(
        &mut self,
        context: &Context<'_>,
        outside: &mut Outside<'_, S>,
    ) -> Result<(), MachineFault>
        ensures asks { Asked S.events outside.old outside.new }
        ensures does { (n : ℕ) (F : Facts) → Extends outside.new.facts.now F
            → Does F context.now n self.old self.new result (puts (Piped ∷ [])) }
    {
        self.end_word(context, outside)?;
        self.close_with_pipe();
        Ok(())
    }

    /// The open word ends, and the argument of the switch at a place, if it has one, is a word
    /// after it.
    pub(crate) fn put_argument<S: System>(
        &mut self,
        context: &Context<'_>,
        i: usize,
        outside: &mut Outside<'_, S>,
    ) -> Result<(), MachineFault>
        requires { i < length context.now.switches }
        ensures asks { Asked S.events outside.old outside.new }
        ensures does { (n : ℕ) (F : Facts) → Extends outside.new.facts.now F
            → Does F context.now n self.old self.new result (puts (Break ∷ word_of (argument context.now i))) }
    {
        self.end_word(context, outside)?;
        let Some(word) = context.argument(i) else {
            return Ok(());
        };
        self.open();
        self.put(word.as_bytes())?;
        self.end_word(context, outside)
    }

    /// The switch at a place as the line has it, its first `-` and its argument included; it ends
    /// the word that it is in.
    #[tactic(auto, using(drv_system::proofs::AskedCalls::asked_further))]
    pub(crate) fn put_switch<S: System>(
        &mut self,
        context: &Context<'_>,
        i: usize,
        outside: &mut Outside<'_, S>,
    ) -> Result<(), MachineFault>
        requires { i < length context.now.switches }
        ensures asks { Asked S.events outside.old outside.new }
        ensures does { (n : ℕ) (F : Facts) → Extends outside.new.facts.now F
            → Does F context.now n self.old self.new result (puts (switch_atoms F context.now i)) }
    {
        if !self.is_open && !self.marks.script && !self.marks.file {
            self.add_switch(context, i)?;
            return Ok(());
        }
        self.put(b"-")?;
        self.put(context.switches().name(i))?;
        self.put_argument(context, i, outside)
    }

    /// Hides every switch that a pattern names. The call allocates nothing.
    pub(crate) fn hide(&mut self, switches: &Switches<'_>, pattern: &Pattern<'_>)
        ensures { self.new ≡ record self.old {
          world = record self.old.world
              { hidden = hidden_by pattern.now switches.now self.old.world.hidden };
        } }
    {
        switches.hide(pattern, &mut self.hidden);
    }

    /// For each switch whether it is hidden.
    pub(crate) fn hidden(&self) -> &Hidden
        ensures { result.now ≡ self.now.world.hidden }
    {
        &self.hidden
    }

    /// Where what it holds is allocated.
    pub(crate) fn alloc(&self) -> Global {
        self.alloc
    }
}
