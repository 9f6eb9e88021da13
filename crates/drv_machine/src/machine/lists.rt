//! Lists that are put word by word, or that grow.

ghost use Rattle.drv_system.specs.Code.Asked.{Asked};
ghost use Rattle.drv_machine.specs.Atoms.{accumulated_step, added, broken_word, folders_step};
ghost use Rattle.drv_machine.specs.Atoms.{noted};
ghost use Rattle.drv_machine.specs.Atoms.{outputs_step};
ghost use Rattle.drv_machine.specs.Context as specs;
ghost use Rattle.drv_machine.specs.Code.Running.{Does};
ghost use Rattle.drv_machine.specs.Working.{Break, change, is_among, puts, whole_word, words};
ghost use Rattle.drv_search.specs.Search.{folder_options};
ghost use Rattle.drv_system.specs.Asking.{Extends};
ghost use Rattle.drv_system.specs.Facts.{Facts};
ghost use Rattle.drv_system.specs.Known.{Is};
ghost use Rattle.std.specs.Prelude.{◌≡◌, ◌∷◌, ◌++◌, [], IfOk, OnErr, OnOk, flat_map, length, ℕ};

use super::Machine;
use crate::{Context, MachineFault};
use drv_funcs::Outputs;
use drv_search::dir_options;
use drv_system::{Outside, System};
use drv_words::{Listing, Word, copy_words};
use std::alloc::{AllocError, Global};

/// Whether a word is among these.
pub(crate) fn is_among(list: &[Word], word: &[u8]) -> bool
    ensures { result ≡ is_among list.now word.now }
{
    for other in list {
        if word == other.as_bytes() {
            return true;
        }
    }
    false
}

/// A word goes to the end, unless it is in the list.
pub(crate) fn add_once(words: &mut Listing<Word>, word: Word) -> Result<(), AllocError>
    ensures { OnOk result (words.new ≡ added word words.old) }
{
    if is_among(words.as_slice(), word.as_bytes()) {
        return Ok(());
    }
    words.push(word)?;
    Ok(())
}

impl Machine {
    /// A whole word is put, with an opening before it and a break after it.
    #[tactic(auto, using(drv_system::proofs::AskedCalls::asked_further))]
    fn put_word<S: System>(
        &mut self,
        word: &[u8],
        context: &Context<'_>,
        outside: &mut Outside<'_, S>,
    ) -> Result<(), MachineFault>
        ensures asks { Asked S.events outside.old outside.new }
        ensures does { (n : ℕ) (F : Facts) → Extends outside.new.facts.now F
            → Does F context.now n self.old self.new result (puts (whole_word word.now)) }
    {
        self.open();
        self.put_broken(word, context, outside)
    }

    /// Bytes are put, with a break after them.
    #[tactic(auto, using(drv_system::proofs::AskedCalls::asked_further))]
    pub(crate) fn put_broken<S: System>(
        &mut self,
        word: &[u8],
        context: &Context<'_>,
        outside: &mut Outside<'_, S>,
    ) -> Result<(), MachineFault>
        ensures asks { Asked S.events outside.old outside.new }
        ensures does { (n : ℕ) (F : Facts) → Extends outside.new.facts.now F
            → Does F context.now n self.old self.new result (puts (broken_word word.now)) }
    {
        self.put(word)?;
        self.end_word(context, outside)
    }

    /// Whole words are put.
    #[tactic(auto, using(drv_system::proofs::AskedCalls::asked_none))]
    pub(crate) fn put_words<S: System>(
        &mut self,
        list: &[Word],
        context: &Context<'_>,
        outside: &mut Outside<'_, S>,
    ) -> Result<(), MachineFault>
        ensures asks { Asked S.events outside.old outside.new }
        ensures does { (n : ℕ) (F : Facts) → Extends outside.new.facts.now F
            → Does F context.now n self.old self.new result (puts (words list.now)) }
    {
        for word in list {
            self.put_word(word.as_bytes(), context, outside)?;
        }
        Ok(())
    }

    /// The options that `%x` accumulated so far are put.
    pub(crate) fn put_accumulated<S: System>(
        &mut self,
        context: &Context<'_>,
        outside: &mut Outside<'_, S>,
    ) -> Result<(), MachineFault>
        ensures asks { Asked S.events outside.old outside.new }
        ensures does { (n : ℕ) (F : Facts) → Extends outside.new.facts.now F
            → Does F context.now n self.old self.new result accumulated_step }
    {
        let accumulated = copy_words(self.alloc, self.accumulated.as_slice())?;
        self.put_words(accumulated.as_slice(), context, outside)
    }

    /// Whole words are put after a break.
    #[tactic(auto, using(drv_system::proofs::AskedCalls::asked_none))]
    fn put_apart<S: System>(
        &mut self,
        list: &[Word],
        context: &Context<'_>,
        outside: &mut Outside<'_, S>,
    ) -> Result<(), MachineFault>
        ensures asks { Asked S.events outside.old outside.new }
        ensures does { (n : ℕ) (F : Facts) → Extends outside.new.facts.now F
            → Does F context.now n self.old self.new result (puts (Break ∷ words list.now)) }
    {
        self.end_word(context, outside)?;
        self.put_words(list, context, outside)
    }

    /// Takes the outputs of the jobs so far out. On an error nothing changes.
    fn take_outputs(&mut self) -> Result<Listing<Word>, AllocError>
        ensures taken { IfOk result (λ outputs. outputs ≡ self.old.world.outputs) }
        ensures left { OnOk result (self.new ≡ record self.old
            { world = record self.old.world { outputs = [] } }) }
        ensures err { OnErr result (self.new ≡ self.old) }
    {
        self.outputs.take()
    }

    /// Puts the outputs of the jobs so far back.
    fn give_back(&mut self, outputs: Listing<Word>)
        ensures { self.new ≡ record self.old
            { world = record self.old.world { outputs = outputs } } }
    {
        self.outputs = Outputs::new(self.alloc, outputs);
    }

    /// The outputs of the jobs so far are put, each as a word of its own. They are taken out while
    /// they are put, so that none is copied twice.
    ///
    /// # Errors
    /// `NotInLink` in a text other than the link's.
    #[tactic(auto, using(drv_system::proofs::AskedCalls::asked_none))]
    pub(crate) fn put_outputs<S: System>(
        &mut self,
        context: &Context<'_>,
        outside: &mut Outside<'_, S>,
    ) -> Result<(), MachineFault>
        ensures asks { Asked S.events outside.old outside.new }
        ensures does { (n : ℕ) (F : Facts) → Extends outside.new.facts.now F
            → Does F context.now n self.old self.new result (outputs_step F context.now) }
    {
        if context.input().is_some() {
            return Err(MachineFault::NotInLink);
        }
        let outputs = self.take_outputs()?;
        let put = self.put_apart(outputs.as_slice(), context, outside);
        self.give_back(outputs);
        put
    }

    /// Lists of bytes are put, with a break after each.
    #[tactic(auto, using(drv_system::proofs::AskedCalls::asked_none))]
    fn put_all_broken<S: System>(
        &mut self,
        list: &[Word],
        context: &Context<'_>,
        outside: &mut Outside<'_, S>,
    ) -> Result<(), MachineFault>
        ensures asks { Asked S.events outside.old outside.new }
        ensures does { (n : ℕ) (F : Facts) → Extends outside.new.facts.now F
            → Does F context.now n self.old self.new result (puts (flat_map broken_word list.now)) }
    {
        for word in list {
            self.put_broken(word.as_bytes(), context, outside)?;
        }
        Ok(())
    }

    /// The options for the folders of libraries are put.
    #[tactic(auto, using(drv_system::proofs::AskedCalls::asked_further))]
    pub(crate) fn put_folders<S: System>(
        &mut self,
        context: &Context<'_>,
        outside: &mut Outside<'_, S>,
    ) -> Result<(), MachineFault>
        ensures asks { Asked S.events outside.old outside.new }
        ensures does { (n : ℕ) (F : Facts) → Extends outside.new.facts.now F
            → Does F context.now n self.old self.new result (folders_step F context.now) }
    {
        let options = folders(self.alloc, context, outside)?;
        self.put_all_broken(options.as_slice(), context, outside)
    }

    /// An option goes to the end of the list, unless it is in it.
    pub(crate) fn accumulate(&mut self, option: &[u8]) -> Result<(), MachineFault>
        ensures { (n : ℕ) (F : Facts) (C : specs.Context)
            → Does F C n self.old self.new result (change (λ w. record w { accumulated = added option.now w.accumulated })) }
    {
        add_once(&mut self.accumulated, Word::from_bytes(self.alloc, option)?)?;
        Ok(())
    }

    /// The user reads a text, as a note.
    pub(crate) fn add_notice(&mut self, text: &[u8]) -> Result<(), MachineFault>
        ensures { (n : ℕ) (F : Facts) (C : specs.Context)
            → Does F C n self.old self.new result
            (change (λ w. record w { notices = w.notices ++ noted text.now ∷ [] })) }
    {
        let mut note = Word::from_bytes(self.alloc, b"note: ")?;
        note.extend_from_slice(text)?;
        self.notices.push(note)?;
        Ok(())
    }
}

/// The options for the folders of libraries.
fn folders<S: System>(
    alloc: Global,
    context: &Context<'_>,
    outside: &mut Outside<'_, S>,
) -> Result<Listing<Word>, AllocError>
    ensures asks { Asked S.events outside.old outside.new }
    ensures options { (F : Facts) → Extends outside.new.facts.now F
        → IfOk result (λ options. folder_options F context.now.prefixes ≡ Is options) }
{
    dir_options(alloc, context.prefixes(), outside.sys, outside.facts)
}
