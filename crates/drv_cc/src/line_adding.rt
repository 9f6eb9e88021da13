//! What is added to a line, as items of the driver's line.

ghost use Rattle.drv_args.specs.declared.option_table.Effect.TheVariants as added;
ghost use Rattle.drv_cc.specs.Front.{added_items, added_switches, first_words};
ghost use Rattle.drv_cc.specs.Front.{folder_words, folders, has_folders, prefixes, program_items};
ghost use Rattle.drv_cc.specs.Front.{thread_words};
ghost use Rattle.drv_cc.specs.LineItems.{alone, item_of};
ghost use Rattle.std.specs.Prelude.{◌≡◌, ◌∷◌, ◌++◌, [], IfOk, OnOk, map};

use crate::Surroundings;
use crate::adding::{LookedFor, add_path, add_thread_words};
use crate::checks::add_check_words;
use crate::item::Item;
use crate::judging::is_vendors;
use crate::keeping::has;
use crate::levels::add_debug_words;
use crate::macros::add_macro_words;
use crate::sides::add_side_words;
use crate::words::add_word;
use crate::wrapping::add_wrapper_words;
use drv_args::Effect;
use drv_words::{Listing, Word};
use std::alloc::{AllocError, Global};

/// Adds an item.
fn add_one(
    alloc: Global,
    effect: Effect,
    option: &[u8],
    argument: &[u8],
    given: &mut Listing<drv_args::Item>,
) -> Result<(), AllocError>
    ensures { OnOk result (given.new ≡ given.old
        ++ item_of effect option.now argument.now ∷ []) }
{
    let option = Word::from_bytes(alloc, option)?;
    let argument = Word::from_bytes(alloc, argument)?;
    given.push(drv_args::Item {
        effect,
        option,
        argument,
    })?;
    Ok(())
}

/// Adds each word as a switch.
pub(crate) fn add_switches(
    alloc: Global,
    words: &[Word],
    given: &mut Listing<drv_args::Item>,
) -> Result<(), AllocError>
    ensures { OnOk result (given.new ≡ given.old ++ map (alone added.Switch) words.now) }
{
    for word in words {
        add_one(alloc, Effect::Switch, word.as_bytes(), b"", given)?;
    }
    Ok(())
}

/// Adds each folder as a prefix of this option.
fn add_prefixes(
    alloc: Global,
    option: &[u8],
    folders: &[Word],
    given: &mut Listing<drv_args::Item>,
) -> Result<(), AllocError>
    ensures { OnOk result (given.new
        ≡ given.old ++ map (item_of added.Prefix option.now) folders.now) }
{
    for folder in folders {
        add_one(alloc, Effect::Prefix, option, folder.as_bytes(), given)?;
    }
    Ok(())
}

/// The folders of a path, if that is set.
#[tactic(auto, using(crate::proofs::Folders::words_alone))]
pub(crate) fn folders(alloc: Global, path: &Option<Word>) -> Result<Listing<Word>, AllocError>
    ensures { IfOk result (λ list. list ≡ folders path.now) }
{
    let mut list = Listing::new(alloc);
    add_path(alloc, LookedFor::Any, path, &mut list)?;
    Ok(list)
}

/// Adds all folders of programs, and of copied spec files, after those of the line.
fn add_all_prefixes(
    alloc: Global,
    around: &Surroundings,
    given: &mut Listing<drv_args::Item>,
) -> Result<(), AllocError>
    ensures { OnOk result (given.new ≡ given.old ++ prefixes around.now) }
{
    let named = folders(alloc, &around.compiler_path)?;
    add_prefixes(alloc, b"--gdrv-path=", named.as_slice(), given)?;
    add_prefixes(alloc, b"--gdrv-copies=", around.copies.as_slice(), given)?;
    add_prefixes(alloc, b"-B", around.folders.as_slice(), given)
}

/// Whether start files are looked for in folders.
fn has_folders(items: &[Item]) -> bool
    ensures { result ≡ has_folders items.now }
{
    has(items, b"-B") || is_vendors(items)
}

/// Adds the option that start files are looked for in folders, where they are.
fn add_folder_words(
    alloc: Global,
    items: &[Item],
    words: &mut Listing<Word>,
) -> Result<(), AllocError>
    ensures { OnOk result (words.new ≡ words.old ++ folder_words items.now) }
{
    if has_folders(items) {
        add_word(alloc, words, b"--gdrv-dirs")?;
    }
    Ok(())
}

/// Adds the folders of programs, where a folder or a spec file is given.
pub(crate) fn add_program_items(
    alloc: Global,
    around: &Surroundings,
    items: &[Item],
    given: &mut Listing<drv_args::Item>,
) -> Result<(), AllocError>
    ensures { OnOk result (given.new ≡ given.old ++ program_items around.now items.now) }
{
    if has_folders(items) || around.compiler_path.is_some() {
        add_all_prefixes(alloc, around, given)
    } else {
        Ok(())
    }
}

/// Adds the words of the folders, the wrapper and the macros: `all` are the items with those that are given.
pub(crate) fn add_first_words(
    alloc: Global,
    around: &Surroundings,
    all: &[Item],
    words: &mut Listing<Word>,
) -> Result<(), AllocError>
    ensures { OnOk result (words.new ≡ words.old ++ first_words around.now all.now) }
{
    add_folder_words(alloc, all, words)?;
    add_path(alloc, LookedFor::Libraries, &around.library_path, words)?;
    add_wrapper_words(alloc, all, words)?;
    add_macro_words(alloc, all, words)
}

/// Adds the words that are switches and follow the folders of programs.
fn add_switch_words(
    alloc: Global,
    around: &Surroundings,
    items: &[Item],
    words: &mut Listing<Word>,
) -> Result<(), AllocError>
    ensures { OnOk result (words.new ≡ words.old ++ added_switches around.now items.now) }
{
    add_first_words(alloc, around, items, words)?;
    add_side_words(alloc, items, words)?;
    add_debug_words(alloc, items, words)?;
    add_check_words(alloc, items, words)
}

/// Adds the switches that follow the folders of programs.
fn add_added_switches(
    alloc: Global,
    around: &Surroundings,
    items: &[Item],
    given: &mut Listing<drv_args::Item>,
) -> Result<(), AllocError>
    ensures { OnOk result (given.new
        ≡ given.old ++ map (alone added.Switch) (added_switches around.now items.now)) }
{
    let mut words = Listing::new(alloc);
    add_switch_words(alloc, around, items, &mut words)?;
    add_switches(alloc, words.as_slice(), given)
}

/// Adds the switches for threads.
fn add_thread_switches(
    alloc: Global,
    items: &[Item],
    given: &mut Listing<drv_args::Item>,
) -> Result<(), AllocError>
    ensures { OnOk result (given.new
        ≡ given.old ++ map (alone added.Switch) (thread_words items.now)) }
{
    let mut words = Listing::new(alloc);
    add_thread_words(alloc, items, &mut words)?;
    add_switches(alloc, words.as_slice(), given)
}

/// Adds all that gcc's driver adds.
pub(crate) fn add_items(
    alloc: Global,
    around: &Surroundings,
    items: &[Item],
    given: &mut Listing<drv_args::Item>,
) -> Result<(), AllocError>
    ensures { OnOk result (given.new ≡ given.old ++ added_items around.now items.now) }
{
    add_thread_switches(alloc, items, given)?;
    add_program_items(alloc, around, items, given)?;
    add_added_switches(alloc, around, items, given)
}
