//! Which switches of a line a spec text left, by the words that it writes for them.

ghost use Rattle.drv_cc.specs.Code.Hiding.{left_after, live_item};
ghost use Rattle.drv_cc.specs.SelfSpecs.{is_left, item_words, live, written_by, written_if};
ghost use Rattle.std.specs.Prelude.{◌≡◌, ◌++◌, IfOk, OnOk, drop};

use crate::item::Item;
use crate::line_items::effect_of;
use crate::words::{add_joined, add_word};
use drv_args::{Effect, Setting};
use drv_words::{Listing, Word};
use std::alloc::{AllocError, Global};

/// The words that a text writes for a switch with this effect.
fn written_by(
    alloc: Global,
    effect: Effect,
    option: &[u8],
    argument: &[u8],
) -> Result<Listing<Word>, AllocError>
    ensures { IfOk result (λ words. words ≡ written_by effect option.now argument.now) }
{
    let mut words = Listing::new(alloc);
    match effect {
        Effect::TurnsOn(Setting::Verbose | Setting::Pipe) | Effect::Switch => {
            add_word(alloc, &mut words, option)?;
        }
        Effect::SwitchWithArgument | Effect::Output => {
            add_word(alloc, &mut words, option)?;
            add_word(alloc, &mut words, argument)?;
        }
        Effect::JoinedSwitch | Effect::Specs | Effect::Prefix => {
            add_joined(alloc, &mut words, option, argument)?;
        }
        _ => {}
    }
    Ok(words)
}

/// The words that a text writes for an item: none where it is no switch.
fn item_words(alloc: Global, item: &Item) -> Result<Listing<Word>, AllocError>
    ensures { IfOk result (λ words. words ≡ item_words item.now) }
{
    let name = item.name.as_bytes();
    match effect_of(item.role, item.spelling, name) {
        Some(effect) => written_by(alloc, effect, name, item.argument.as_bytes()),
        None => Ok(Listing::new(alloc)),
    }
}

/// Whether the next words that are left are those of an item.
fn is_left(words: &[Word], left: &[Word]) -> bool
    ensures { result ≡ is_left words.now left.now }
{
    match (words, left) {
        ([], _) => true,
        ([word, ..], [first, ..]) => word.as_bytes() == first.as_bytes(),
        _ => false,
    }
}

/// The words after the first `count`.
fn after(left: &[Word], count: usize) -> &[Word]
    ensures { result.now ≡ drop count left.now }
{
    left.get(count..).unwrap_or(&[])
}

/// Adds an item if the words of a text left it, and gives the words that are left after it.
fn keep_live<'l>(
    alloc: Global,
    item: &Item,
    left: &'l [Word],
    stay: &mut Listing<Item>,
) -> Result<&'l [Word], AllocError>
    ensures stays { OnOk result (stay.new ≡ stay.old ++ live_item item.now left.now) }
    ensures left { IfOk result (λ rest. rest.now ≡ left_after item.now left.now) }
{
    let words = item_words(alloc, item)?;
    if is_left(words.as_slice(), left) {
        stay.push(item.clone()?)?;
        return Ok(after(left, words.len()));
    }
    Ok(left)
}

/// The items that are no switches, and of the others those whose words are left.
#[tactic(auto, using(crate::proofs::Left::one_more))]
pub(crate) fn live(
    alloc: Global,
    items: &[Item],
    left: &[Word],
) -> Result<Listing<Item>, AllocError>
    ensures { IfOk result (λ stay. stay ≡ live items.now left.now) }
{
    let mut stay = Listing::new(alloc);
    let mut left = left;
    for item in items {
        left = keep_live(alloc, item, left, &mut stay)?;
    }
    Ok(stay)
}
