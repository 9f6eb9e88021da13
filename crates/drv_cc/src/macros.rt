//! The macros of a line, for the texts of a vendor's spec file.

ghost use Rattle.drv_cc.specs.Front.{macro_word, macro_words};
ghost use Rattle.std.specs.List.{flat_map};
ghost use Rattle.std.specs.Prelude.{◌≡◌, ◌++◌, OnOk};

use crate::classes::is;
use crate::item::Item;
use crate::judging::is_vendors;
use crate::words::add_joined;
use drv_words::{Listing, Word};
use std::alloc::{AllocError, Global};

/// Adds the word for a macro, if an item is one.
fn add_macro(alloc: Global, item: &Item, words: &mut Listing<Word>) -> Result<(), AllocError>
    ensures { OnOk result (words.new ≡ words.old ++ macro_word item.now) }
{
    if is(item.name.as_bytes(), b"-D") {
        add_joined(alloc, words, b"--gdrv-define=", item.argument.as_bytes())?;
    }
    Ok(())
}

/// Adds the words for the macros among items.
fn add_macros(alloc: Global, items: &[Item], words: &mut Listing<Word>) -> Result<(), AllocError>
    ensures { OnOk result (words.new ≡ words.old ++ flat_map macro_word items.now) }
{
    for item in items {
        add_macro(alloc, item, words)?;
    }
    Ok(())
}

/// Adds the words for the macros of a line that names a vendor's spec file.
pub(crate) fn add_macro_words(
    alloc: Global,
    items: &[Item],
    words: &mut Listing<Word>,
) -> Result<(), AllocError>
    ensures { OnOk result (words.new ≡ words.old ++ macro_words items.now) }
{
    if is_vendors(items) {
        return add_macros(alloc, items, words);
    }
    Ok(())
}
