//! `%@{..}`: its words are those of a file, whose name takes their place.

ghost use Rattle.drv_system.specs.Code.Asked.{Asked};
ghost use Rattle.drv_machine.specs.Atoms.{named_file};
ghost use Rattle.drv_machine.specs.Cutting.{words_in_file};
ghost use Rattle.drv_machine.specs.Code.Running.{Does, reached};
ghost use Rattle.drv_machine.specs.Code.Walking.{file_end, file_from, into_file, out_of_file};
ghost use Rattle.drv_system.specs.Asking.{Extends};
ghost use Rattle.drv_system.specs.Facts.{Facts};
ghost use Rattle.drv_system.specs.Gives.{GivesKnown};
ghost use Rattle.std.specs.Prelude.{◌≡◌, length, ℕ};

use super::{CutLine, Drawing, Machine, Temporary};
use crate::{Context, MachineFault};
use drv_system::{Outside, System};
use drv_words::{Listing, Word, respond_text};
use std::mem;

impl Machine {
    /// Whether words go to the file of a `%@`.
    pub(crate) fn is_in_file(&self) -> bool
        ensures { result ≡ self.now.world.is_in_file }
    {
        self.is_in_file
    }

    /// The words after this are those of a file: the command is put aside.
    fn enter_file(&mut self)
        ensures { self.new ≡ into_file self.old }
    {
        let words = mem::replace(&mut self.line, Listing::new(self.alloc));
        let piped = mem::replace(&mut self.is_piped, false);
        self.outer = Some(CutLine { words, piped });
        self.is_in_file = true;
    }

    /// The open word ends, and the words after it are those of a file.
    #[tactic(auto, using(drv_system::proofs::AskedCalls::asked_further))]
    pub(crate) fn begin_file<S: System>(
        &mut self,
        context: &Context<'_>,
        outside: &mut Outside<'_, S>,
    ) -> Result<(), MachineFault>
        ensures asks { Asked S.events outside.old outside.new }
        ensures does { (n : ℕ) (F : Facts) → Extends outside.new.facts.now F
            → GivesKnown MachineFault.Memory (λ u. (tt, reached n self.new)) result
            (file_from F context.now (reached n self.old)) }
    {
        self.end_word(context, outside)?;
        self.enter_file();
        Ok(())
    }

    /// The words of the file, and the command goes on.
    fn leave_file(&mut self) -> Listing<Word>
        ensures words { result ≡ words_in_file self.old.cut }
        ensures left { self.new ≡ out_of_file self.old }
    {
        self.is_in_file = false;
        match self.outer.take() {
            Some(line) => {
                self.is_piped = line.piped;
                mem::replace(&mut self.line, line.words)
            }
            None => Listing::new(self.alloc),
        }
    }

    /// The name of a file with these words is put, if there are any.
    fn put_file<S: System>(
        &mut self,
        words: &[Word],
        context: &Context<'_>,
        outside: &mut Outside<'_, S>,
    ) -> Result<(), MachineFault>
        ensures asks { Asked S.events outside.old outside.new }
        ensures does { (n : ℕ) (F : Facts) → Extends outside.new.facts.now F
            → Does F context.now n self.old self.new result (named_file F context.now words.now) }
    {
        if words.is_empty() {
            return Ok(());
        }
        let contents = respond_text(self.alloc, words)?;
        let temporary = Temporary {
            drawing: Drawing::Anew,
            suffix: b".args",
            contents,
        };
        let path = self.draw_with(temporary, context, outside)?;
        self.put(b"@")?;
        self.put_broken(path.as_bytes(), context, outside)
    }

    /// The open word ends, and with it the file: its name is put, if it has words.
    #[inline(never)]
    pub(crate) fn end_file<S: System>(
        &mut self,
        context: &Context<'_>,
        outside: &mut Outside<'_, S>,
    ) -> Result<(), MachineFault>
        ensures asks { Asked S.events outside.old outside.new }
        ensures does { (n : ℕ) (F : Facts) → Extends outside.new.facts.now F
            → GivesKnown MachineFault.Memory (λ u. (tt, reached n self.new)) result
            (file_end F context.now (reached n self.old)) }
    {
        self.end_word(context, outside)?;
        let words = self.leave_file();
        self.put_file(words.as_slice(), context, outside)
    }
}
