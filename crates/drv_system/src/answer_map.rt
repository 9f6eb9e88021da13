//! A map of answers. A place is made before its answer is known, so that keeping the answer can't
//! fail.

ghost use Rattle.drv_system.specs.Facts.{answer_to, with_pair};
ghost use Rattle.std.specs.BTreeMap.{is_at};
ghost use Rattle.std.specs.Cmp.Lexicographic.{slice_cmp};
ghost use Rattle.std.specs.Map.{remove_entry, set_value};
ghost use Rattle.std.specs.Option.{option_copied};
ghost use Rattle.std.specs.Ordering.{nat_cmp};
ghost use Rattle.std.specs.Prelude.{◌≡◌, [], IsSome, is_some, OnErr, OnOk};

use drv_words::Word;
use std::alloc::{AllocError, Global};
use std::collections::BTreeMap;
use std::marker::Model;

/// Answers by path or name, in an ordered tree: no choice of names makes a look-up slow.
#[derive(Drop)]
pub struct AnswerMap<V> {
    given: BTreeMap<Word, V>,
}

impl<V> Model for AnswerMap<V> {
    ghost use Rattle.std.specs.Prelude.{List, ℕ};

    ghost Value = { List (List ℕ × V) };

    ghost view = { λ a. a.given.entries };
}

impl<V: Drop> AnswerMap<V> {
    /// The map without answers.
    pub fn new(alloc: Global) -> AnswerMap<V>
        ensures { result ≡ [] }
    {
        AnswerMap {
            given: BTreeMap::new(alloc),
        }
    }

    /// The answer for a key.
    pub fn get(&self, key: &Word) -> Option<&V>
        ensures { option_copied result ≡ answer_to self.now key.now }
    {
        self.given.get(key)
    }

    /// Whether there is an answer for a key.
    pub fn has(&self, key: &Word) -> bool
        ensures { result ≡ is_some (answer_to self.now key.now) }
    {
        self.given.contains_key(key)
    }

    /// Makes the place of a key, with a blank answer for now.
    pub fn make_place(&mut self, key: &Word, blank: V) -> Result<(), AllocError>
        ensures ok { OnOk result (self.new ≡ with_pair self.old key.now blank) }
        ensures err { OnErr result (self.new ≡ self.old) }
    {
        self.given.insert(key.clone()?, blank)?;
        Ok(())
    }

    /// Puts the answer into the place that was made for it.
    pub fn fill_place(&mut self, key: &Word, answer: V)
        requires { IsSome (answer_to self.old key.now) }
        ensures { self.new ≡ set_value (is_at (slice_cmp nat_cmp key.now)) self.old answer }
    {
        // The contract says that the place is there.
        if let Some(place) = self.given.get_mut(key) {
            *place = answer;
        }
    }

    /// Removes a key's place.
    pub fn clear_place(&mut self, key: &Word)
        ensures { self.new ≡ remove_entry (is_at (slice_cmp nat_cmp key.now)) self.old }
    {
        self.given.remove(key);
    }
}
