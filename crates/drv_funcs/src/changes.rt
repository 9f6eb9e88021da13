//! Changes of a list of words, which are kept and then made together: what each word becomes is
//! known before the list is gone over once.

ghost use Rattle.drv_funcs.specs.Code.Changes.{EndsBy, after_changes, end_in, end_of_some};
ghost use Rattle.drv_funcs.specs.declared.changes.Change.{Change};
ghost use Rattle.std.specs.List.{filter_map};
ghost use Rattle.std.specs.Prelude.{◌≡◌, ◌∷◌, IfOk, List, OnOk};

use drv_words::{Listing, Word, copy_word};
use std::alloc::{AllocError, Global};
use std::collections::BTreeMap;

/// A word becomes another one, or goes.
#[derive(Drop)]
pub(crate) struct Change {
    pub(crate) old: Word,
    /// None where the word goes.
    pub(crate) new: Option<Word>,
}

/// What becomes of a word.
fn end_of(ends: &BTreeMap<Word, Option<Word>>, word: &Word) -> Result<Option<Word>, AllocError>
    ensures { IfOk result (λ end. end ≡ end_in ends.now word.now) }
{
    match ends.get(word) {
        Some(end) => copy_word(end),
        None => Ok(Some(word.clone()?)),
    }
}

/// What becomes of a word, if there is one.
fn end_of_some(
    ends: &BTreeMap<Word, Option<Word>>,
    word: &Option<Word>,
) -> Result<Option<Word>, AllocError>
    ensures { IfOk result (λ end. end ≡ end_of_some (end_in ends.now) word.now) }
{
    match word {
        Some(word) => end_of(ends, word),
        None => Ok(None),
    }
}

/// A change comes before those that the ends are known of.
fn add_before(ends: &mut BTreeMap<Word, Option<Word>>, change: &Change) -> Result<(), AllocError>
    ensures { (changes : List Change) → EndsBy ends.old changes
        → OnOk result (EndsBy ends.new (change.now ∷ changes)) }
{
    let end = end_of_some(ends, &change.new)?;
    ends.insert(change.old.clone()?, end)?;
    Ok(())
}

/// What becomes of each word by these changes. The last one is gone over first, since the end of a
/// word that becomes another one is the end of that.
#[tactic(auto, using(crate::proofs::Ends::ends_begin, crate::proofs::Ends::ends_further, crate::proofs::Ends::ends_whole))]
fn ends_of(alloc: Global, changes: &[Change]) -> Result<BTreeMap<Word, Option<Word>>, AllocError>
    ensures { IfOk result (λ ends. EndsBy ends changes.now) }
{
    let mut ends = BTreeMap::new(alloc);
    let mut left = changes;
    while let [before @ .., change] = left {
        add_before(&mut ends, change)?;
        left = before;
    }
    Ok(ends)
}

/// The words with their ends in place of them.
fn with_ends(
    alloc: Global,
    words: &[Word],
    ends: &BTreeMap<Word, Option<Word>>,
) -> Result<Listing<Word>, AllocError>
    ensures { IfOk result (λ ended. ended ≡ filter_map (end_in ends.now) words.now) }
{
    let mut ended = Listing::from_vec(Vec::with_capacity(alloc, words.len())?);
    for word in words {
        if let Some(end) = end_of(ends, word)? {
            ended.push(end)?;
        }
    }
    Ok(ended)
}

/// The words after these changes, one after another.
pub(crate) fn apply_changes(
    alloc: Global,
    words: &[Word],
    changes: &[Change],
) -> Result<Listing<Word>, AllocError>
    ensures { IfOk result (λ left. left ≡ after_changes changes.now words.now) }
{
    let ends = ends_of(alloc, changes)?;
    with_ends(alloc, words, &ends)
}
