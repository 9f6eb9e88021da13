//! The notices of a plan.

ghost use Rattle.drv_plan.specs.Denoted.{between, notices, unused};
ghost use Rattle.std.specs.Prelude.{◌≡◌, ◌++◌, IfOk, OnOk, map};

use crate::progress::Progress;
use drv_words::{Job, Listing, Word};
use std::alloc::{AllocError, Global};
use std::mem;

/// The text before the name of a file that no link takes.
const UNUSED_FRONT: &[u8] = b"warning: ";

/// The text after it.
const UNUSED_END: &[u8] = b": linker input file unused because linking not done";

/// A word between two texts, in one allocation.
fn between(alloc: Global, before: &[u8], after: &[u8], word: &[u8]) -> Result<Word, AllocError>
    ensures { IfOk result (λ text. text ≡ between before.now after.now word.now) }
{
    let room = (before.len() + after.len()).saturating_add(word.len());
    let mut text = Vec::with_capacity(alloc, room)?;
    text.extend_from_slice(before)?;
    text.extend_from_slice(word)?;
    text.extend_from_slice(after)?;
    Ok(Word::from_vec(text))
}

/// Adds each of these words, put between two texts.
fn push_all(
    alloc: Global,
    list: &mut Listing<Word>,
    before: &[u8],
    after: &[u8],
    words: &[Word],
) -> Result<(), AllocError>
    ensures { OnOk result (list.new ≡ list.old ++ map (between before.now after.now) words.now) }
{
    for word in words {
        list.push(between(alloc, before, after, word.as_bytes())?)?;
    }
    Ok(())
}

/// Adds the notices for the files of the linker, one for each, if there is no link.
fn push_unused(
    alloc: Global,
    list: &mut Listing<Word>,
    link: &Option<Job>,
    names: &[Word],
) -> Result<(), AllocError>
    ensures { OnOk result (list.new ≡ list.old ++ unused link.now names.now) }
{
    match link {
        Some(_) => Ok(()),
        None => push_all(alloc, list, UNUSED_FRONT, UNUSED_END, names),
    }
}

/// The notices of a plan with this link: those of texts, which are moved, and then those for files
/// that no link takes.
pub(crate) fn notices_of(
    alloc: Global,
    link: &Option<Job>,
    progress: &mut Progress<'_>,
) -> Result<Listing<Word>, AllocError>
    ensures told { IfOk result (λ told. told ≡ notices link.now progress.old) }
    ensures jobs { progress.new.jobs ≡ progress.old.jobs }
{
    let mut told = mem::replace(&mut progress.notices, Listing::new(alloc));
    push_unused(alloc, &mut told, link, progress.passed_on.as_slice())?;
    Ok(told)
}
