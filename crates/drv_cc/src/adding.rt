//! What is added to a line.

ghost use Rattle.drv_cc.specs.Code.Looking.{words_for};
ghost use Rattle.drv_cc.specs.Front.{folders, is_several, named_folder, needs_threads};
ghost use Rattle.drv_cc.specs.Front.{thread_words};
ghost use Rattle.std.specs.List.{flat_map};
ghost use Rattle.std.specs.Option.{option_map};
ghost use Rattle.std.specs.Prelude.{◌≡◌, ◌++◌, OnOk};

use crate::item::Item;
use crate::keeping::{has, last_argument};
use crate::words::{add_joined, add_word};
use drv_words::{Listing, Word};
use std::alloc::{AllocError, Global};

/// Whether an option needs threads (GCC manual, "C Dialect Options", "Optimize Options").
fn needs_threads(items: &[Item]) -> bool
    ensures { result ≡ needs_threads items.now }
{
    has(items, b"-fopenmp")
        || has(items, b"-fopenacc")
        || has(items, b"-fgnu-tm")
        || is_several(last_argument(items, b"-ftree-parallelize-loops="))
}

/// Whether a number of threads is given, and is more than one.
fn is_several(number: Option<&[u8]>) -> bool
    ensures { result ≡ is_several (option_map (λ bytes. bytes.now) number.entry) }
{
    !matches!(number, None | Some(b"" | b"0" | b"1"))
}

/// Adds the option for threads, where one needs them.
pub(crate) fn add_thread_words(
    alloc: Global,
    items: &[Item],
    words: &mut Listing<Word>,
) -> Result<(), AllocError>
    ensures { OnOk result (words.new ≡ words.old ++ thread_words items.now) }
{
    if needs_threads(items) {
        add_word(alloc, words, b"-pthread")?;
    }
    Ok(())
}

/// A folder of a path; an empty one is the folder of the call.
fn named_folder(folder: &[u8]) -> &[u8]
    ensures { result.now ≡ named_folder folder.now }
{
    if folder.is_empty() { b"./" } else { folder }
}

/// What is looked for in the folders of a path.
#[derive(Clone, Copy)]
pub(crate) enum LookedFor {
    /// Libraries: each folder is a switch.
    Libraries,
    /// What the caller looks for: each folder is a word.
    Any,
}

/// Adds the words for a folder of a path.
fn add_folder(
    alloc: Global,
    looked_for: LookedFor,
    folder: &[u8],
    words: &mut Listing<Word>,
) -> Result<(), AllocError>
    ensures { OnOk result
        (words.new ≡ words.old ++ words_for looked_for (named_folder folder.now)) }
{
    match looked_for {
        LookedFor::Libraries => {
            add_joined(alloc, words, b"--gdrv-lib=", named_folder(folder))?;
            Ok(())
        }
        LookedFor::Any => add_word(alloc, words, named_folder(folder)),
    }
}

/// Adds the words for each folder of a path, if that is set.
pub(crate) fn add_path(
    alloc: Global,
    looked_for: LookedFor,
    path: &Option<Word>,
    words: &mut Listing<Word>,
) -> Result<(), AllocError>
    ensures { OnOk result
        (words.new ≡ words.old ++ flat_map (words_for looked_for) (folders path.now)) }
{
    let Some(path) = path else {
        return Ok(());
    };
    for folder in path.as_bytes().split(|byte| *byte == b':') {
        add_folder(alloc, looked_for, folder, words)?;
    }
    Ok(())
}
