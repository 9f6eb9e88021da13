//! The items of a line, which is read once. What is unknown is asked again by names of options.

ghost use Rattle.drv_cc.specs.Code.Known.{again};
ghost use Rattle.drv_cc.specs.Front.{answer_of};
ghost use Rattle.drv_cc.specs.Items.{items_of};
ghost use Rattle.drv_cc.specs.UnknownWords.{has_unknown, is_unknown};
ghost use Rattle.std.specs.List.{list_any};
ghost use Rattle.std.specs.Prelude.{◌≡◌, [], IfOk, List, None, OnOk, map, ℕ};

use crate::asking::is_asked;
use crate::fences::{Fence, fences_of};
use crate::fronting::answer_of;
use crate::item::Item;
use crate::reading::{by_own_name, is_own_switch, items_of, newer_item};
use crate::{Answer, Surroundings};
use drv_options::Role;
use drv_words::{Listing, Word};
use std::alloc::{AllocError, Global};
use std::marker::Model;

/// Whether an item of this role is an unknown word.
fn is_unknown(role: Role) -> bool
    ensures { result ≡ is_unknown role }
{
    matches!(role, Role::Unknown)
}

/// Whether some item is an unknown word.
fn are_unknown(items: &[Item]) -> bool
    ensures { result ≡ list_any (λ i. is_unknown i.role) items.now }
{
    items.iter().any(|item| is_unknown(item.role))
}

/// Lines of the names that help to look up the unknown among items, as many as these are.
fn fences_for(alloc: Global, known: &[u8], items: &[Item]) -> Result<Vec<Fence>, AllocError> {
    let unknown = items.iter().filter(|item| is_unknown(item.role)).count();
    fences_of(alloc, known, unknown)
}

/// Asks an item again by names of options, in its place. An unknown one with an argument is that of
/// a row, which newer compilers call by this other name.
#[tactic(auto, using(crate::proofs::Again::switched_again))]
fn ask_again(
    alloc: Global,
    known: &[u8],
    fences: &[Fence],
    item: &mut Item,
) -> Result<(), AllocError>
    ensures { OnOk result (item.new ≡ again known.now item.old) }
{
    if !is_unknown(item.role) {
        return Ok(());
    }
    if !item.argument.as_bytes().is_empty() {
        *item = newer_item(alloc, known, item.name.as_bytes(), item.argument.as_bytes())?;
        return Ok(());
    }
    if is_own_switch(alloc, known, fences, item.name.as_bytes())? {
        return item.turn_to_switch(alloc);
    }
    *item = by_own_name(alloc, known, item.name.as_bytes())?;
    Ok(())
}

/// Asks items again by names of options.
fn ask_all(
    alloc: Global,
    known: &[u8],
    fences: &[Fence],
    items: &mut [Item],
) -> Result<(), AllocError>
    ensures { OnOk result (items.new ≡ map (again known.now) items.old) }
{
    for item in items.iter_mut() {
        ask_again(alloc, known, fences, item)?;
    }
    Ok(())
}

/// Items that were asked again by names of options.
fn all_asked(alloc: Global, known: &[u8], items: Vec<Item>) -> Result<Listing<Item>, AllocError>
    ensures { IfOk result (λ found. found ≡ map (again known.now) items.items) }
{
    let fences = fences_for(alloc, known, items.as_slice())?;
    let mut found = items;
    ask_all(alloc, known, &fences, found.as_mut_slice())?;
    Ok(Listing::from_vec(found))
}

/// The items of a line of `gcc`: options with their arguments, files, and words that are neither.
#[derive(Drop)]
pub struct Items {
    items: Listing<Item>,
}

impl Model for Items {
    ghost use Rattle.drv_cc.specs.declared.item.Item.{Item};
    ghost use Rattle.std.specs.Prelude.{List};

    ghost Value = { List Item };

    ghost view = { λ line. line.items };
}

impl Items {
    /// The items of a line (GCC manual, "Invoking GCC"). `args` are its words without the program's
    /// name, response files expanded. The lines of `known` are the names of options beyond this
    /// crate's table.
    pub fn of(alloc: Global, known: &[u8], args: &[Word]) -> Result<Items, AllocError>
        ensures { IfOk result (λ items. items ≡ items_of known.now None args.now) }
    {
        Ok(Items {
            items: items_of(alloc, known, args)?,
        })
    }

    /// The items of the same line by these names of options, if none was known so far. Only words
    /// that were unknown without them are looked up.
    #[tactic(auto, using(crate::proofs::Again::all_again))]
    pub fn with_names(self, alloc: Global, known: &[u8]) -> Result<Items, AllocError>
        ensures { (args : List (List ℕ)) → self ≡ items_of [] None args
            → IfOk result (λ items. items ≡ items_of known.now None args) }
    {
        let items = all_asked(alloc, known, self.items.into_vec())?;
        Ok(Items { items })
    }

    /// Whether the line is refused for a word that is no option, if its spec files name no switches.
    pub fn has_unknown(&self) -> bool
        ensures { result ≡ has_unknown self.now }
    {
        are_unknown(self.items.as_slice()) && !is_asked(self.items.as_slice())
    }

    /// The answer to the line, as that of `front`: `named` are names of switches that spec files of
    /// the line have.
    ///
    /// # Errors
    /// An allocation was refused.
    pub fn answer(
        &self,
        alloc: Global,
        named: &[Word],
        around: &Surroundings,
    ) -> Result<Answer, AllocError>
        ensures { IfOk result (λ answer. answer ≡ answer_of named.now around.now self.now) }
    {
        answer_of(alloc, named, around, self.items.as_slice())
    }
}
