//! Marks of words, and what the end of a word does.

ghost use Rattle.drv_system.specs.Code.Asked.{Asked};
ghost use Rattle.drv_machine.specs.Context as specs;
ghost use Rattle.drv_machine.specs.Cutting.{found_file, found_script, marked, no_marks};
ghost use Rattle.drv_machine.specs.Cutting.{script_option, word_done};
ghost use Rattle.drv_machine.specs.Code.Held.{word_found};
ghost use Rattle.drv_machine.specs.Code.Running.{Does, reached, run};
ghost use Rattle.drv_machine.specs.Working.{Break, From, Marked, To, Without, puts};
ghost use Rattle.drv_system.specs.Asking.{Extends};
ghost use Rattle.drv_system.specs.Facts.{Facts};
ghost use Rattle.drv_system.specs.Gives.{GivesKnown};
ghost use Rattle.drv_system.specs.Known.{Is};
ghost use Rattle.std.specs.Prelude.{◌≡◌, ◌∷◌, ◌++◌, ◌&&◌, [], IfErr, None, Ok, OnOk, Some, false};
ghost use Rattle.std.specs.Prelude.{if◌then◌else◌, length, map, not, ℕ};

use super::Machine;
use crate::{Context, MachineFault};
use drv_search::{find_file, find_script};
use drv_system::{Outside, System};
use drv_words::Word;
use std::alloc::AllocError;

/// How a word is marked.
#[derive(Clone, Copy)]
pub(crate) enum Mark {
    /// `%d`: the word's file is removed at the end of the run.
    AsRemoved,
    /// `%w`: the word is the job's output.
    AsOutput,
    /// `%s`: the word is the name of a library file, which is looked for.
    AsFile,
    /// `%T`: the word is the name of a linker script, which is looked for.
    AsScript,
}

/// The marks of the word that is open, or that wait for the next one.
#[derive(Clone, Copy)]
pub(crate) struct Marking {
    pub(crate) removed: bool,
    pub(crate) output: bool,
    pub(crate) file: bool,
    pub(crate) script: bool,
}

impl Marking {
    /// No mark.
    pub(crate) fn none() -> Marking
        ensures { result ≡ no_marks }
    {
        Marking {
            removed: false,
            output: false,
            file: false,
            script: false,
        }
    }

    /// One mark more.
    fn with(self, mark: Mark) -> Marking
        ensures { result ≡ marked mark self }
    {
        match mark {
            Mark::AsRemoved => Marking {
                removed: true,
                ..self
            },
            Mark::AsOutput => Marking {
                output: true,
                ..self
            },
            Mark::AsFile => Marking { file: true, ..self },
            Mark::AsScript => Marking {
                script: true,
                ..self
            },
        }
    }
}

impl Machine {
    /// The word that is open is marked, or else the next one.
    pub(crate) fn mark(&mut self, mark: Mark)
        ensures does { (n : ℕ) (F : Facts) (C : specs.Context)
            → run F C (reached n self.old) (puts (Marked mark ∷ [])) ≡ Is (Ok (tt, reached n self.new)) }
        ensures same { self.new.world ≡ self.old.world }
    {
        self.marks = self.marks.with(mark);
        self.is_stray |= self.is_piped;
    }

    /// From here on the job has no output, unless a later word is marked as one.
    pub(crate) fn bar_output(&mut self)
        ensures does { (n : ℕ) (F : Facts) (C : specs.Context)
            → run F C (reached n self.old) (puts (Without ∷ [])) ≡ Is (Ok (tt, reached n self.new)) }
        ensures same { self.new.world ≡ self.old.world }
    {
        self.output = None;
        self.is_barred = self.is_open;
    }

    /// No word is open, and no mark waits.
    fn close_word(&mut self)
        ensures { self.new ≡ record self.old
            { cut = record self.old.cut { word = None; marks = no_marks; barred = false } } }
    {
        self.word.clear();
        self.is_open = false;
        self.marks = Marking::none();
        self.is_barred = false;
    }

    /// The open command has one word more.
    fn push_word(&mut self, word: Word) -> Result<(), AllocError>
        ensures does { OnOk result (self.new
            ≡ record self.old {
              cut = record self.old.cut {
                line = record {
                  words = self.old.cut.line.words
                      ++ word ∷ [];
                  piped = self.old.cut.line.piped;
                };
              };
            }) }
        ensures same { self.new.world ≡ self.old.world }
    {
        self.line.push(word)?;
        Ok(())
    }

    /// A word that is marked so is removed at the end of the run.
    fn keep_removed(&mut self, word: &Word) -> Result<(), AllocError>
        ensures does { OnOk result (self.new
            ≡ record self.old {
              cut = record self.old.cut {
                removed = self.old.cut.removed
                    ++ (if self.old.cut.marks.removed then word.now ∷ [] else []);
              };
            }) }
        ensures same { self.new.world ≡ self.old.world }
    {
        if !self.marks.removed {
            return Ok(());
        }
        self.removed.push(word.clone()?)?;
        Ok(())
    }

    /// A word that is marked so is a failure file.
    fn keep_failure(&mut self, word: &Word) -> Result<(), AllocError>
        ensures does { OnOk result (self.new
            ≡ record self.old {
              cut = record self.old.cut {
                on_failure = self.old.cut.on_failure
                    ++ (if self.old.cut.marks.output then word.now ∷ [] else []);
              };
            }) }
        ensures same { self.new.world ≡ self.old.world }
    {
        if !self.marks.output {
            return Ok(());
        }
        self.on_failure.push(word.clone()?)?;
        Ok(())
    }

    /// A word that is marked so is the job's output, unless it began before a `%V`.
    fn keep_output(&mut self, word: &Word) -> Result<(), AllocError>
        ensures does { OnOk result (self.new
            ≡ record self.old {
              cut = record self.old.cut {
                output = if self.old.cut.marks.output && not self.old.cut.barred then Some
                    word.now else self.old.cut.output;
              };
            }) }
        ensures same { self.new.world ≡ self.old.world }
    {
        if !self.marks.output || self.is_barred {
            return Ok(());
        }
        self.output = Some(word.clone()?);
        Ok(())
    }

    /// A word has ended in each `%W` that is open.
    fn keep_inside(&mut self, word: &Word) -> Result<(), AllocError>
        ensures does { OnOk result (self.new
            ≡ record self.old {
              cut = record self.old.cut
                  { inside = map (λ before. Some word.now) self.old.cut.inside };
            }) }
        ensures same { self.new.world ≡ self.old.world }
    {
        self.inside.end_word(word)
    }

    /// The open word has ended as this one.
    #[tactic(auto, using(crate::proofs::Ends::word_finished))]
    pub(crate) fn finish_word(&mut self, word: Word) -> Result<(), AllocError>
        ensures ok { OnOk result (self.new
            ≡ record self.old { cut = word_done self.old.cut (word ∷ []) word }) }
        ensures same { self.new.world ≡ self.old.world }
    {
        self.keep_removed(&word)?;
        self.keep_failure(&word)?;
        self.keep_output(&word)?;
        self.keep_inside(&word)?;
        self.push_word(word)?;
        self.close_word();
        Ok(())
    }

    /// The open word, which is this one, has ended as the path of a library file.
    fn finish_file<S: System>(
        &mut self,
        word: &Word,
        context: &Context<'_>,
        outside: &mut Outside<'_, S>,
    ) -> Result<(), MachineFault>
        ensures asks { Asked S.events outside.old outside.new }
        ensures does { (n : ℕ) (F : Facts) → Extends outside.new.facts.now F
            → GivesKnown MachineFault.Memory (λ u. (tt, reached n self.new)) result
            (word_found (reached n self.old) (λ path. path ∷ []) (found_file F context.now word.now)) }
        ensures same { self.new.world ≡ self.old.world }
    {
        let path = find_file(
            self.alloc,
            context.prefixes(),
            word,
            outside.sys,
            outside.facts,
        )?;
        self.finish_word(path)?;
        Ok(())
    }

    /// The open word, which is this one, has ended as the option and the path of a linker script.
    fn finish_script<S: System>(
        &mut self,
        word: &Word,
        context: &Context<'_>,
        outside: &mut Outside<'_, S>,
    ) -> Result<(), MachineFault>
        ensures asks { Asked S.events outside.old outside.new }
        ensures does { (n : ℕ) (F : Facts) → Extends outside.new.facts.now F
            → GivesKnown MachineFault.Memory (λ u. (tt, reached n self.new)) result
            (word_found (reached n self.old) (λ path. script_option ∷ path ∷ [])
            (found_script F context.now word.now)) }
        ensures same { self.new.world ≡ self.old.world }
    {
        let path = find_script(
            self.alloc,
            context.prefixes(),
            word,
            outside.sys,
            outside.facts,
        )?;
        self.push_word(Word::from_bytes(self.alloc, b"--script")?)?;
        self.finish_word(path)?;
        Ok(())
    }

    /// The open word, if there is one, ends: as it is, or as the path of a library file or a linker
    /// script.
    ///
    /// # Errors
    /// `Search` where a linker script isn't found.
    #[tactic(auto, using(drv_system::proofs::AskedCalls::asked_none))]
    pub(crate) fn end_word<S: System>(
        &mut self,
        context: &Context<'_>,
        outside: &mut Outside<'_, S>,
    ) -> Result<(), MachineFault>
        ensures asks { Asked S.events outside.old outside.new }
        ensures does { (n : ℕ) (F : Facts) → Extends outside.new.facts.now F
            → Does F context.now n self.old self.new result (puts (Break ∷ [])) }
    {
        if !self.is_open {
            self.close_word();
            return Ok(());
        }
        let word = Word::from_bytes(self.alloc, self.word.as_slice())?;
        if self.marks.script {
            return self.finish_script(&word, context, outside);
        }
        if self.marks.file {
            return self.finish_file(&word, context, outside);
        }
        self.finish_word(word)?;
        Ok(())
    }

    /// A `%W` begins.
    pub(crate) fn begin_failure(&mut self) -> Result<(), MachineFault>
        ensures does { (n : ℕ) (F : Facts) (C : specs.Context)
            → Does F C n self.old self.new result (puts (From ∷ [])) }
        ensures same { self.new.world ≡ self.old.world }
    {
        self.inside.open()?;
        Ok(())
    }

    /// The innermost `%W` ends, and the last word that ended in it is a failure file.
    fn close_inside(&mut self) -> Result<(), MachineFault>
        ensures does { (n : ℕ) (F : Facts) (C : specs.Context)
            → Does F C n self.old self.new result (puts (To ∷ [])) }
        ensures same { self.new.world ≡ self.old.world }
    {
        let Some(word) = self.inside.close()? else {
            return Ok(());
        };
        self.on_failure.push(word)?;
        Ok(())
    }

    /// The open word ends, and with it the innermost `%W`.
    #[inline(never)]
    #[tactic(auto, using(drv_system::proofs::AskedCalls::asked_further))]
    pub(crate) fn end_failure<S: System>(
        &mut self,
        context: &Context<'_>,
        outside: &mut Outside<'_, S>,
    ) -> Result<(), MachineFault>
        ensures asks { Asked S.events outside.old outside.new }
        ensures does { (n : ℕ) (F : Facts) → Extends outside.new.facts.now F
            → Does F context.now n self.old self.new result (puts (Break ∷ To ∷ [])) }
    {
        self.end_word(context, outside)?;
        self.close_inside()
    }
}
