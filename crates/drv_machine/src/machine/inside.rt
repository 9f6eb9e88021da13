//! What ends in the `%W` that are open.

ghost use Rattle.drv_machine.specs.Code.Held.{Ends};
ghost use Rattle.std.specs.Prelude.{◌≡◌, ◌∷◌, [], IfOk, None, OnOk, Some, map};

use drv_words::Word;
use std::alloc::{AllocError, Global};
use std::marker::Model;

/// For each `%W` that is open the last word that ended in it. A word ends in all of them, so that
/// they have one last word, but for the innermost ones in which none has ended.
#[derive(Drop)]
pub(crate) struct Inside {
    last: Word,
    count: usize,
    /// The number of the innermost ones in which no word has ended.
    fresh: usize,
}

impl Model for Inside {
    ghost use Rattle.drv_machine.specs.Code.Held.{ended_in};
    ghost use Rattle.std.specs.Prelude.{◌≤◌, List, Option, ℕ};

    ghost Value = { List (Option (List ℕ)) };

    ghost view = { λ i. ended_in i.last i.count i.fresh };

    ghost invariant = { λ i. i.fresh ≤ i.count };
}

impl Inside {
    /// No `%W` is open.
    pub(crate) fn new(alloc: Global) -> Inside
        ensures { result ≡ [] }
    {
        Inside {
            last: Word::empty(alloc),
            count: 0,
            fresh: 0,
        }
    }

    /// A word has ended in all of them.
    pub(crate) fn end_word(&mut self, word: &Word) -> Result<(), AllocError>
        ensures { OnOk result (self.new ≡ map (λ before. Some word.now) self.old) }
    {
        if self.count == 0 {
            return Ok(());
        }
        self.last = word.clone()?;
        self.fresh = 0;
        Ok(())
    }

    /// One more is open.
    pub(crate) fn open(&mut self) -> Result<(), AllocError>
        ensures { OnOk result (self.new ≡ None ∷ self.old) }
    {
        if self.count == usize::MAX {
            return Err(AllocError);
        }
        self.count += 1;
        self.fresh += 1;
        Ok(())
    }

    /// The innermost one ends, if one is open: the last word that ended in it, if one did.
    pub(crate) fn close(&mut self) -> Result<Option<Word>, AllocError>
        ensures { IfOk result (λ last. Ends self.old self.new last) }
    {
        let count = self.count;
        let fresh = self.fresh;
        if count == 0 {
            return Ok(None);
        }
        if fresh == 0 {
            let last = self.last.clone()?;
            self.count -= 1;
            return Ok(Some(last));
        }
        self.fresh -= 1;
        self.count -= 1;
        Ok(None)
    }
}
