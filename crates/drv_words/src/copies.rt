//! Copies of words.

ghost use Rattle.std.specs.Prelude.{◌≡◌, IfOk};

use crate::{Listing, Word};
use std::alloc::{AllocError, Global};

/// A copy of a word, if there is one.
pub fn copy_word(word: &Option<Word>) -> Result<Option<Word>, AllocError>
    ensures { IfOk result (λ copy. copy ≡ word.now) }
{
    match word {
        Some(word) => Ok(Some(word.clone()?)),
        None => Ok(None),
    }
}

/// A list of copies of words.
pub fn copy_words(alloc: Global, words: &[Word]) -> Result<Listing<Word>, AllocError>
    ensures { IfOk result (λ copies. copies ≡ words.now) }
{
    let mut copies = Listing::from_vec(Vec::with_capacity(alloc, words.len())?);
    for word in words {
        copies.push(word.clone()?)?;
    }
    Ok(copies)
}
