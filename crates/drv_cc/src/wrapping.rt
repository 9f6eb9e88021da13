//! The words that are put before each command.

ghost use Rattle.drv_cc.specs.Front.{has_empty_end, pieces, wrapper_words, wrapper_words_of};
ghost use Rattle.drv_cc.specs.SideFiles.{with_value};
ghost use Rattle.std.specs.List.{flat_map};
ghost use Rattle.std.specs.Prelude.{◌≡◌, ◌++◌, OnOk, Some, codes};

use crate::item::Item;
use crate::keeping::last_argument;
use crate::words::{add_value, add_word};
use drv_words::{Listing, Word};
use std::alloc::{AllocError, Global};

/// Adds the words between commas that are not empty, each behind an option.
pub(crate) fn add_pieces(
    alloc: Global,
    option: &[u8],
    argument: &[u8],
    words: &mut Listing<Word>,
) -> Result<(), AllocError>
    ensures { OnOk result (words.new ≡ words.old
        ++ flat_map (with_value option.now) (pieces argument.now)) }
{
    for piece in argument.split(|byte| *byte == b',') {
        add_value(alloc, words, option, piece)?;
    }
    Ok(())
}

/// Whether the last word is empty.
fn has_empty_end(argument: &[u8]) -> bool
    ensures { result ≡ has_empty_end argument.now }
{
    argument.is_empty() || argument.ends_with(b",")
}

/// Adds the words of an argument of -wrapper.
fn add_wrapper(alloc: Global, argument: &[u8], words: &mut Listing<Word>) -> Result<(), AllocError>
    ensures { OnOk result (words.new ≡ words.old ++ wrapper_words_of (Some argument.now)) }
{
    add_pieces(alloc, b"--gdrv-wrapper=", argument, words)?;
    if has_empty_end(argument) {
        add_word(alloc, words, b"--gdrv-wrapper=")?;
    }
    Ok(())
}

/// Adds the words that are put before each command.
pub(crate) fn add_wrapper_words(
    alloc: Global,
    items: &[Item],
    words: &mut Listing<Word>,
) -> Result<(), AllocError>
    ensures { OnOk result (words.new ≡ words.old ++ wrapper_words items.now) }
{
    match last_argument(items, b"-wrapper") {
        Some(argument) => add_wrapper(alloc, argument, words),
        None => Ok(()),
    }
}
