//! What a line has, and which of its items stay.

ghost use Rattle.drv_cc.specs.Code.Staying.{Notes, is_seen, kept_before, stays_before};
ghost use Rattle.drv_cc.specs.Kept.{all_stay, effective_items, has, has_input, is_input};
ghost use Rattle.drv_cc.specs.Kept.{last_argument};
ghost use Rattle.std.specs.Option.{option_map};
ghost use Rattle.std.specs.Prelude.{◌≡◌, IfOk, OnOk, reverse};

use crate::class_key::ClassKey;
use crate::classes::is;
use crate::item::Item;
use drv_options::Role;
use drv_words::{Listing, Word};
use std::alloc::{AllocError, Global};
use std::collections::HashSet;

/// Whether an option of this name is among items.
pub(crate) fn has(items: &[Item], name: &[u8]) -> bool
    ensures { result ≡ has name.now items.now }
{
    items.iter().any(|item| is(name, item.name.as_bytes()))
}

/// The argument of the last option of a name.
pub(crate) fn last_argument<'a>(items: &'a [Item], name: &[u8]) -> Option<&'a [u8]>
    ensures { option_map (λ argument. argument.now) result ≡ last_argument name.now items.now }
{
    let mut found = None;
    for item in items {
        if is(name, item.name.as_bytes()) {
            found = Some(item.argument.as_bytes());
        }
    }
    found
}

/// Whether an item is an input.
fn is_input(item: &Item) -> bool
    ensures { result ≡ is_input item.now.role }
{
    matches!(item.role, Role::Input | Role::Library)
}

/// Whether there is a file or a library.
pub(crate) fn has_input(items: &[Item]) -> bool
    ensures { result ≡ has_input items.now }
{
    items.iter().any(is_input)
}

/// Notes the class of an item, and tells whether the item stays: whether none after it, whose
/// classes were noted before, is of its class.
#[tactic(auto, using(crate::proofs::Staying::not_noted))]
fn note_class<'i>(seen: &mut HashSet<ClassKey<'i>>, class: &'i Word) -> Result<bool, AllocError>
    ensures stays { IfOk result (λ stays. stays ≡ stays_before class.now
        (is_seen seen.old.keys (λ k. k))) }
    ensures noted { OnOk result (Notes class.now (is_seen seen.old.keys (λ k. k))
        (is_seen seen.new.keys (λ k. k))) }
{
    if class.is_empty() {
        return Ok(true);
    }
    Ok(seen.insert(ClassKey::of(class.as_bytes()))?)
}

/// Adds an item if none after it, whose classes were noted before, is of its class, and notes its
/// class.
fn keep_item<'i>(
    seen: &mut HashSet<ClassKey<'i>>,
    item: &'i Item,
    stay: &mut Vec<Item>,
) -> Result<(), AllocError>
    ensures kept { OnOk result (stay.new.items ≡ kept_before item.now
        (is_seen seen.old.keys (λ k. k)) stay.old.items) }
    ensures noted { OnOk result (Notes item.now.class (is_seen seen.old.keys (λ k. k))
        (is_seen seen.new.keys (λ k. k))) }
{
    if note_class(seen, &item.class)? {
        stay.push(item.clone()?)?;
    }
    Ok(())
}

/// Whether all items stay: no two are of one class. The search ends at the first that goes, from the
/// end of the line on.
#[tactic(auto, using(crate::proofs::Staying::all_start, crate::proofs::Staying::all_end))]
pub(crate) fn do_all_stay(alloc: Global, items: &[Item]) -> Result<bool, AllocError>
    ensures { IfOk result (λ all. all ≡ all_stay items.now) }
{
    let mut seen = HashSet::new(alloc);
    let mut left = items;
    while let [before @ .., item] = left {
        let stays = note_class(&mut seen, &item.class)?;
        if !stays {
            return Ok(false);
        }
        left = before;
    }
    Ok(true)
}

/// The items that stay, the last one first.
#[tactic(auto, using(crate::proofs::Staying::keeping_starts, crate::proofs::Staying::keeping_ends))]
fn kept_backwards(alloc: Global, items: &[Item]) -> Result<Vec<Item>, AllocError>
    ensures { IfOk result (λ stay. reverse stay.items ≡ effective_items items.now) }
{
    let mut seen = HashSet::new(alloc);
    let mut stay = Vec::new(alloc);
    let mut left = items;
    while let [before @ .., item] = left {
        keep_item(&mut seen, item, &mut stay)?;
        left = before;
    }
    Ok(stay)
}

/// The items that stay: of each class the last, and those of no class.
pub(crate) fn effective_items(alloc: Global, items: &[Item]) -> Result<Listing<Item>, AllocError>
    ensures { IfOk result (λ stay. stay ≡ effective_items items.now) }
{
    let mut stay = kept_backwards(alloc, items)?;
    stay.as_mut_slice().reverse();
    Ok(Listing::from_vec(stay))
}
