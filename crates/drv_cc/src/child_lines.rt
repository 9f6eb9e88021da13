//! What a compiler gives the children of a line: variables, and options for its machine.

ghost use Rattle.drv_cc.specs.Children.{is_told, machine_words, told, told_by};
ghost use Rattle.drv_cc.specs.Items.{begins, is_among};
ghost use Rattle.drv_cc.specs.Kept.{has};
ghost use Rattle.drv_cc.specs.Table.{texts};
ghost use Rattle.drv_words.specs.Bytes.{tab};
ghost use Rattle.drv_words.specs.FileNames.{split_at_last};
ghost use Rattle.std.specs.List.{list_any};
ghost use Rattle.std.specs.Prelude.{◌≡◌, ◌==◌, ◌||◌, ◌++◌, IfOk, OnOk, length};

use crate::classes::stands_in;
use crate::item::Item;
use crate::keeping::has;
use crate::words::add_word;
use drv_words::{Listing, Word, split_at_last};
use std::alloc::{AllocError, Global};

/// Whether a line has one of these options, which have blanks between.
fn has_one_of(items: &[Item], names: &[u8]) -> bool
    ensures { result ≡ list_any (λ i. is_among (texts names.now) i.name) items.now }
{
    items
        .iter()
        .any(|item| stands_in(names, item.name.as_bytes()))
}

/// Whether a line has this option, or none is needed.
fn has_needed(items: &[Item], needed: &[u8]) -> bool
    ensures { result ≡ (length needed.now == 0 || has needed.now items.now) }
{
    needed.is_empty() || has(items, needed)
}

/// Whether a line has the option that these tests need, and none of the others.
fn is_told(items: &[Item], tests: &[u8]) -> bool
    ensures { result ≡ is_told items.now (split_at_last tab tests.now) }
{
    match split_at_last(b'\t', tests) {
        Some((needed, others)) => has_needed(items, needed) && !has_one_of(items, others),
        None => false,
    }
}

/// Adds what a line of the compiler's file gives to the children of this line.
fn add_told(
    alloc: Global,
    line: &[u8],
    items: &[Item],
    told: &mut Listing<Word>,
) -> Result<(), AllocError>
    ensures { OnOk result (told.new ≡ told.old ++ told_by items.now (split_at_last tab line.now)) }
{
    match split_at_last(b'\t', line) {
        Some((tests, text)) if is_told(items, tests) => add_word(alloc, told, text),
        _ => Ok(()),
    }
}

/// What the lines of the compiler's file give to the children of this line.
pub(crate) fn told(
    alloc: Global,
    lines: &[Word],
    items: &[Item],
) -> Result<Listing<Word>, AllocError>
    ensures { IfOk result (λ texts. texts ≡ told lines.now items.now) }
{
    let mut told = Listing::new(alloc);
    for line in lines {
        add_told(alloc, line.as_bytes(), items, &mut told)?;
    }
    Ok(told)
}

/// Adds the options for the machine among what is told.
pub(crate) fn add_machine_words(told: &[Word], words: &mut Listing<Word>) -> Result<(), AllocError>
    ensures { OnOk result (words.new ≡ words.old ++ machine_words told.now) }
{
    for text in told {
        if text.as_bytes().starts_with(b"-") {
            words.push(text.clone()?)?;
        }
    }
    Ok(())
}
