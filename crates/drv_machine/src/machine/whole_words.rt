//! Switches put as whole words, where no word is open.

ghost use Rattle.drv_machine.specs.Atoms.{switch_atoms};
ghost use Rattle.drv_machine.specs.Code.Held.{IsBetweenWords, word_added};
ghost use Rattle.drv_machine.specs.Code.Running.{reached, run};
ghost use Rattle.drv_machine.specs.Working.{puts};
ghost use Rattle.drv_system.specs.Facts.{Facts};
ghost use Rattle.drv_system.specs.Known.{Is};
ghost use Rattle.std.specs.Prelude.{◌≡◌, ◌<◌, Ok, OnOk, length, ℕ};

use super::Machine;
use crate::Context;
use drv_words::{Listing, Word};
use std::alloc::AllocError;
use std::mem;

/// How many words of a command there is room for after its switches: its input, its output and what
/// the text names.
const OTHER_WORDS: usize = 32;

/// Makes room for this many more words; if there is none yet, also for some after them.
fn with_room(words: &mut Vec<Word>, count: usize) -> Result<(), AllocError>
    ensures { words.new.items ≡ words.old.items }
{
    if words.capacity() - words.len() >= count {
        return Ok(());
    }
    words.reserve(count.saturating_add(OTHER_WORDS))
}

impl Machine {
    /// Makes room for so many words more of the open command, and for some others after them, so
    /// that it isn't copied as it grows.
    pub(crate) fn make_room(&mut self, count: usize) -> Result<(), AllocError>
        ensures { self.new ≡ self.old }
    {
        let mut words = mem::replace(&mut self.line, Listing::new(self.alloc)).into_vec();
        let made = with_room(&mut words, count);
        self.line = Listing::from_vec(words);
        made
    }

    /// A word is put whole.
    fn add_word(&mut self, word: Word) -> Result<(), AllocError>
        requires { IsBetweenWords self.old.cut }
        ensures ok { OnOk result (self.new ≡ word_added self.old word) }
        ensures same { self.new.world ≡ self.old.world }
    {
        self.is_stray |= self.is_piped;
        self.finish_word(word)
    }

    /// The switch at a place and its argument are put, each as a whole word.
    pub(crate) fn add_switch(&mut self, context: &Context<'_>, i: usize) -> Result<(), AllocError>
        requires at { i < length context.now.switches }
        requires between { IsBetweenWords self.old.cut }
        ensures { (n : ℕ) (F : Facts) → OnOk result
            (run F context.now (reached n self.old) (puts (switch_atoms F context.now i))
            ≡ Is (Ok (tt, reached n self.new))) }
    {
        let mut word = Word::empty(self.alloc);
        word.push(b'-')?;
        word.extend_from_slice(context.switches().name(i))?;
        self.add_word(word)?;
        let Some(argument) = context.argument(i) else {
            return Ok(());
        };
        self.add_word(argument.clone()?)
    }
}
