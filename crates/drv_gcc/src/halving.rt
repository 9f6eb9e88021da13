//! Words that a program refuses are found by halves.

ghost use Rattle.drv_gcc.specs.Halving.{alone, halves};
ghost use Rattle.std.specs.List.{filter, flat_map, list_any};
ghost use Rattle.std.specs.Prelude.{◌≡◌, ◌++◌, Bool, List, OnOk, true, ℕ};

use drv_words::{Listing, Word, copy_words};
use std::alloc::{AllocError, Global};

/// Adds a word that is alone.
fn add_alone(words: &[Word], found: &mut Listing<Word>) -> Result<(), AllocError>
    ensures { OnOk result (found.new ≡ found.old ++ alone words.now) }
{
    if let [word] = words {
        found.push(word.clone()?)?;
    }
    Ok(())
}

/// Adds the halves of several words.
fn add_halves(
    alloc: Global,
    words: &[Word],
    waiting: &mut Listing<Listing<Word>>,
) -> Result<(), AllocError>
    ensures { OnOk result (waiting.new ≡ waiting.old ++ halves words.now) }
{
    if let [_, _, ..] = words {
        let (one, other) = words.split_at(words.len() / 2);
        waiting.push(copy_words(alloc, one)?)?;
        waiting.push(copy_words(alloc, other)?)?;
    }
    Ok(())
}

/// Of words that a program refuses together one that is alone is found, and each half of several
/// is to be asked.
pub fn halve(
    alloc: Global,
    refused: &[Word],
    waiting: &mut Listing<Listing<Word>>,
    found: &mut Listing<Word>,
) -> Result<(), AllocError>
    ensures found { OnOk result (found.new ≡ found.old ++ alone refused.now) }
    ensures waiting { OnOk result (waiting.new ≡ waiting.old ++ halves refused.now) }
{
    add_alone(refused, found)?;
    add_halves(alloc, refused, waiting)
}

/// A law: where a program refuses words together if it refuses one of them, halves find those that
/// it refuses, in their order.
pub fn halves_find_all()
    ensures { (refuses : List ℕ → Bool) (words : List (List ℕ)) → list_any refuses words ≡ true
        → alone words ++ flat_map (filter refuses) (halves words) ≡ filter refuses words }
{}
