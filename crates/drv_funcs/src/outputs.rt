//! The outputs of the jobs so far, and the functions that change them in a link.

// In clauses: `Gives` says that a result is the defined one, or lack of memory.
ghost use Rattle.drv_funcs.specs.Code.Changes.{changed};
ghost use Rattle.drv_funcs.specs.Outcome.{in_link_alone, removed, replaced};
ghost use Rattle.drv_funcs.specs.declared.function.Function.TheVariants.{RemoveOutfile};
ghost use Rattle.drv_funcs.specs.declared.function.Function.TheVariants.{ReplaceOutfile};
ghost use Rattle.drv_words.specs.Gives.{Gives};
ghost use Rattle.std.specs.Prelude.{◌≡◌, [], IfOk, OnErr, OnOk};

use crate::changes::{Change, apply_changes};
use crate::{FuncsFault, Function, Site};
use drv_words::{Listing, Word};
use std::alloc::{AllocError, Global};
use std::marker::Model;
use std::mem;

/// The outputs of the jobs so far. A change of them is kept, and made when they are taken: a call
/// of a function isn't to go over all outputs.
#[derive(Drop)]
pub struct Outputs {
    alloc: Global,
    words: Listing<Word>,
    /// The changes that are still to be made, in order.
    changes: Listing<Change>,
}

impl Model for Outputs {
    ghost use Rattle.drv_funcs.specs.Code.Changes.{after_changes};
    ghost use Rattle.std.specs.Prelude.{List, ℕ};

    ghost Value = { List (List ℕ) };

    ghost view = { λ o. after_changes o.changes o.words };
}

impl Outputs {
    /// The outputs that are these words, without an allocation.
    pub fn new(alloc: Global, words: Listing<Word>) -> Outputs
        ensures { result ≡ words }
    {
        Outputs {
            alloc,
            words,
            changes: Listing::new(alloc),
        }
    }

    /// Takes the outputs out; none is left. On an error they stay the same.
    pub fn take(&mut self) -> Result<Listing<Word>, AllocError>
        ensures taken { IfOk result (λ words. words ≡ self.old) }
        ensures left { OnOk result (self.new ≡ []) }
        ensures err { OnErr result (self.new ≡ self.old) }
    {
        let none = Listing::new(self.alloc);
        // Without changes the words are moved, not copied.
        if self.changes.is_empty() {
            return Ok(mem::replace(&mut self.words, none));
        }
        let words = apply_changes(self.alloc, self.words.as_slice(), self.changes.as_slice())?;
        *self = Outputs::new(self.alloc, none);
        Ok(words)
    }

    /// Each output that is the old word becomes the new one, or goes. On an error the outputs stay
    /// the same.
    #[tactic(auto, using(crate::proofs::Ends::one_more))]
    fn change(&mut self, old: Word, new: Option<Word>) -> Result<(), AllocError>
        ensures ok { OnOk result (self.new ≡ changed old new self.old) }
        ensures err { OnErr result (self.new ≡ self.old) }
    {
        self.changes.push(Change { old, new })?;
        Ok(())
    }
}

/// Replaces each output that is the old word by the new one, only in the link. On an error the
/// outputs stay the same.
pub fn replace_outfile(args: &[Word], site: Site, outputs: &mut Outputs) -> Result<(), FuncsFault>
    ensures gives { Gives FuncsFault.Memory (λ _. outputs.new) result
        (in_link_alone site ReplaceOutfile (replaced args.now outputs.old)) }
    ensures err { OnErr result (outputs.new ≡ outputs.old) }
{
    let Site::Link = site else {
        return Err(FuncsFault::NotInLink(Function::ReplaceOutfile));
    };
    let [old, new] = args else {
        return Err(FuncsFault::WrongCount(Function::ReplaceOutfile));
    };
    outputs.change(old.clone()?, Some(new.clone()?))?;
    Ok(())
}

/// Removes each output that is the word, only in the link. On an error the outputs stay the same.
pub fn remove_outfile(args: &[Word], site: Site, outputs: &mut Outputs) -> Result<(), FuncsFault>
    ensures gives { Gives FuncsFault.Memory (λ _. outputs.new) result
        (in_link_alone site RemoveOutfile (removed args.now outputs.old)) }
    ensures err { OnErr result (outputs.new ≡ outputs.old) }
{
    let Site::Link = site else {
        return Err(FuncsFault::NotInLink(Function::RemoveOutfile));
    };
    let [old] = args else {
        return Err(FuncsFault::WrongCount(Function::RemoveOutfile));
    };
    outputs.change(old.clone()?, None)?;
    Ok(())
}
