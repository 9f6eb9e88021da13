//! Spec sets: named texts and suffix pairs.

// In clauses: `Kept` is the invariant of every set.
ghost use Rattle.drv_specs.specs.Kept.{Kept};
ghost use Rattle.drv_specs.specs.Sets.{no_specs, text_of, worked_text};
ghost use Rattle.std.specs.Option.{option_map};
ghost use Rattle.std.specs.Prelude.{◌≡◌, option_and_then, slice_get};

use crate::entries::Entries;
use drv_syntax::SpecTree;
use drv_words::Word;
use std::alloc::Global;
use std::marker::Model;
use std::mem;

/// Named texts in order and suffix pairs in order, each text that is run with its tree. Contracts
/// see the two lists.
pub struct SpecSet {
    pub(crate) entries: Entries,
}

impl Drop for SpecSet {
    fn drop(self) {
        let SpecSet { entries: _entries } = self;
    }
}

impl Model for SpecSet {
    ghost use Rattle.drv_specs.specs.Kept.{Kept};
    ghost use Rattle.drv_specs.specs.Sets.{Set};

    ghost Value = { Set };

    ghost view = { λ s. s.entries };

    ghost invariant = { λ s. Kept s.entries };
}

impl SpecSet {
    /// The set without texts and pairs, without an allocation.
    #[tactic(auto, using(crate::proofs::BuiltinKept::kept_empty))]
    pub fn empty(alloc: Global) -> SpecSet
        ensures { result ≡ no_specs }
    {
        SpecSet {
            entries: Entries::empty(alloc),
        }
    }

    /// The entries, without an allocation.
    #[tactic(auto, using(crate::proofs::BuiltinKept::kept_empty))]
    pub(crate) fn into_entries(self) -> Entries
        ensures same { result ≡ self }
        ensures kept { Kept result }
    {
        let mut set = self;
        let none = Entries::empty(set.entries.alloc());
        mem::replace(&mut set.entries, none)
    }

    /// The text of a name. The call allocates nothing.
    pub fn text(&self, name: &[u8]) -> Option<&[u8]>
        ensures { option_map (λ text. text.now) result ≡ text_of self.now name.now }
    {
        match self.entries.text(name) {
            Some(text) => Some(text.tree().text()),
            None => None,
        }
    }

    /// The text of a name, with its tree. The call allocates nothing.
    #[inline(always)]
    pub fn tree(&self, name: &[u8]) -> Option<&SpecTree>
        ensures { option_map (λ tree. tree.now) result ≡ text_of self.now name.now }
    {
        match self.entries.text(name) {
            Some(text) => Some(text.tree()),
            None => None,
        }
    }

    /// The suffix pairs: a suffix, or `@` and a language, and a text. The call allocates nothing.
    pub fn pairs(&self) -> &[(Word, Word)]
        ensures { result.now ≡ self.now.pairs }
    {
        self.entries.pairs()
    }

    /// The text of the pair at a place, with its tree, unless it is an alias or says that a
    /// language isn't installed. The call allocates nothing.
    pub fn pair_tree(&self, place: usize) -> Option<&SpecTree>
        ensures { option_map (λ tree. tree.now) result
            ≡ option_and_then worked_text (slice_get self.now.pairs place) }
    {
        match self.entries.worked_text(place) {
            Some(text) => Some(text.tree()),
            None => None,
        }
    }
}
