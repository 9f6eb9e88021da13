//! A line whose spec files give it options.

ghost use Rattle.drv_cc.specs.Items.{items_of};
ghost use Rattle.drv_cc.specs.Kept.{effective_items};
ghost use Rattle.drv_cc.specs.SelfSpecs.{added_with, front_with, given_items, given_refusals};
ghost use Rattle.drv_cc.specs.SelfSpecs.{given_refused, is_late, items_with, live, run_with};
ghost use Rattle.drv_cc.specs.SelfSpecs.{seen_items, switches_with, thread_item, visible_items};
ghost use Rattle.std.specs.List.{filter};
ghost use Rattle.std.specs.Prelude.{◌≡◌, ◌++◌, IfOk, None, OnOk, map, not};

use crate::adding::add_thread_words;
use crate::checks::add_check_words;
use crate::classes::is;
use crate::collecting::children_with;
use crate::hiding::live;
use crate::item::Item;
use crate::judging::refuse;
use crate::keeping::effective_items;
use crate::levels::add_levels_with;
use crate::line_adding::{add_first_words, add_program_items, add_switches};
use crate::line_items::add_kept;
use crate::outputs::outputs;
use crate::reading::items_of;
use crate::sides::add_side_words;
use crate::sources::inputs;
use crate::{Answer, Call, Refusal, Stages, Surroundings};
use drv_options::{Role, Spelling};
use drv_words::{Listing, Word};
use std::alloc::{AllocError, Global};

/// What the text `self_spec` of a line's spec files gave.
#[derive(Drop)]
pub struct Given {
    /// The words of the line's switches that it did not hide, as it writes them.
    pub left: Listing<Word>,
    /// The words that it gives.
    pub words: Listing<Word>,
}

/// The items of a line that stay.
fn line_kept(alloc: Global, known: &[u8], words: &[Word]) -> Result<Listing<Item>, AllocError>
    ensures { IfOk result (λ stay. stay ≡ effective_items (items_of known.now None words.now)) }
{
    let items = items_of(alloc, known, words)?;
    effective_items(alloc, items.as_slice())
}

/// Adds the switches of words.
fn add_thread_items(
    alloc: Global,
    words: &[Word],
    items: &mut Listing<Item>,
) -> Result<(), AllocError>
    ensures { OnOk result (items.new ≡ items.old ++ map thread_item words.now) }
{
    for word in words {
        items.push(Item::new(alloc, word.as_bytes(), b"", Spelling::Alone, Role::Switch)?)?;
    }
    Ok(())
}

/// The items that the text sees, where these stay of the line.
fn visible_items(alloc: Global, items: &[Item]) -> Result<Listing<Item>, AllocError>
    ensures { IfOk result (λ all. all ≡ visible_items items.now) }
{
    let mut threads = Listing::new(alloc);
    add_thread_words(alloc, items, &mut threads)?;
    let mut all = Listing::new(alloc);
    add_items(items, &mut all)?;
    add_thread_items(alloc, threads.as_slice(), &mut all)?;
    Ok(all)
}

/// Adds items.
fn add_items(items: &[Item], all: &mut Listing<Item>) -> Result<(), AllocError>
    ensures { OnOk result (all.new ≡ all.old ++ items.now) }
{
    for item in items {
        all.push(item.clone()?)?;
    }
    Ok(())
}

/// Items and others after them.
pub(crate) fn both(
    alloc: Global,
    items: &[Item],
    others: &[Item],
) -> Result<Listing<Item>, AllocError>
    ensures { IfOk result (λ all. all ≡ items.now ++ others.now) }
{
    let mut all = Listing::new(alloc);
    add_items(items, &mut all)?;
    add_items(others, &mut all)?;
    Ok(all)
}

/// The items of a line that the text `self_spec` of its spec files sees, as items of the driver's
/// line: what stays of the line, and the option for threads, where one needs them (GCC, "gcc.cc",
/// set_up_specs).
///
/// # Errors
/// An allocation was refused.
pub fn seen_items(
    alloc: Global,
    known: &[u8],
    args: &[Word],
) -> Result<Listing<drv_args::Item>, AllocError>
    ensures { IfOk result (λ items. items ≡ seen_items known.now args.now) }
{
    let items = line_kept(alloc, known, args)?;
    let all = visible_items(alloc, items.as_slice())?;
    let mut given = Listing::new(alloc);
    add_kept(all.as_slice(), &mut given)?;
    Ok(given)
}

/// Whether an option comes too late to count.
fn is_late(item: &Item) -> bool
    ensures { result ≡ is_late item.now }
{
    let name = item.name.as_bytes();
    is(name, b"-specs=") || is(name, b"-x")
}

/// The items that count: those that don't come too late.
fn early_items(alloc: Global, items: &[Item]) -> Result<Listing<Item>, AllocError>
    ensures { IfOk result (λ some. some ≡ filter (λ i. not (is_late i)) items.now) }
{
    let mut some = Listing::new(alloc);
    for item in items {
        if !is_late(item) {
            some.push(item.clone()?)?;
        }
    }
    Ok(some)
}

/// The options that words give.
fn given_items(alloc: Global, known: &[u8], words: &[Word]) -> Result<Listing<Item>, AllocError>
    ensures { IfOk result (λ given. given ≡ given_items known.now words.now) }
{
    let items = line_kept(alloc, known, words)?;
    early_items(alloc, items.as_slice())
}

/// Adds the refusal of an option that is given, if it is refused.
fn refuse_given(
    named: &[Word],
    item: &Item,
    refusals: &mut Listing<Refusal>,
) -> Result<(), AllocError>
    ensures { OnOk result (refusals.new
        ≡ refusals.old ++ given_refused named.now item.now.role item.now.name) }
{
    match item.role {
        Role::Input => refusals.push(Refusal::GivenFile(item.name.clone()?))?,
        Role::Question => refusals.push(Refusal::NotTaken(item.name.clone()?))?,
        Role::Switch if item.name.as_bytes().starts_with(b"-m") => {
            refusals.push(Refusal::NotTaken(item.name.clone()?))?;
        }
        _ => refuse(named, item, refusals)?,
    }
    Ok(())
}

/// The refusals of options that are given.
fn given_refusals(
    alloc: Global,
    named: &[Word],
    given: &[Item],
) -> Result<Listing<Refusal>, AllocError>
    ensures { IfOk result (λ refused. refused ≡ given_refusals named.now given.now) }
{
    let mut refused = Listing::new(alloc);
    for item in given {
        refuse_given(named, item, &mut refused)?;
    }
    Ok(refused)
}

/// The words that gcc's driver adds as switches: `all` are the items with those that are given.
fn switches_with(
    alloc: Global,
    around: &Surroundings,
    items: &[Item],
    given: &[Item],
    all: &[Item],
) -> Result<Listing<Word>, AllocError>
    ensures { IfOk result (λ words. words ≡ switches_with around.now items.now given.now all.now) }
{
    let mut words = Listing::new(alloc);
    add_first_words(alloc, around, all, &mut words)?;
    add_side_words(alloc, items, &mut words)?;
    add_levels_with(alloc, items, given, &mut words)?;
    add_check_words(alloc, all, &mut words)?;
    Ok(words)
}

/// All that gcc's driver adds: `all` are the items with those that are given.
fn added_with(
    alloc: Global,
    around: &Surroundings,
    items: &[Item],
    given: &[Item],
    all: &[Item],
) -> Result<Listing<drv_args::Item>, AllocError>
    ensures { IfOk result (λ added. added ≡ added_with around.now items.now given.now all.now) }
{
    let mut added = Listing::new(alloc);
    add_program_items(alloc, around, all, &mut added)?;
    let words = switches_with(alloc, around, items, given, all)?;
    add_switches(alloc, words.as_slice(), &mut added)?;
    Ok(added)
}

/// The items of the driver's line for a line with these items, of whose switches these are left,
/// and to which these are given.
fn items_with(
    alloc: Global,
    around: &Surroundings,
    items: &[Item],
    left: &[Item],
    given: &[Item],
) -> Result<Listing<drv_args::Item>, AllocError>
    ensures { IfOk result (λ made. made ≡ items_with around.now items.now left.now given.now) }
{
    let mut kept = Listing::new(alloc);
    add_kept(left, &mut kept)?;
    add_kept(given, &mut kept)?;
    let all = both(alloc, items, given)?;
    let added = added_with(alloc, around, items, given, all.as_slice())?;
    let mut made = kept.into_vec();
    made.append(&mut added.into_vec())?;
    Ok(Listing::from_vec(made))
}

/// The call of a line with such items.
fn run_with(
    alloc: Global,
    around: &Surroundings,
    items: &[Item],
    left: &[Item],
    given: &[Item],
) -> Result<Answer, AllocError>
    ensures { IfOk result (λ answer. answer ≡ run_with around.now items.now left.now given.now) }
{
    let made = items_with(alloc, around, items, left, given)?;
    let inputs = inputs(alloc, items)?;
    let outputs = outputs(alloc, items)?;
    let children = children_with(alloc, around, items, left, given)?;
    Ok(Answer::Run(Call {
        items: made,
        inputs,
        outputs,
        children,
        stages: Stages::All,
    }))
}

/// The call of a line with these items, where its self specs leave these words of its switches and
/// add these items.
fn run_left(
    alloc: Global,
    around: &Surroundings,
    items: &[Item],
    left: &[Word],
    given: &[Item],
) -> Result<Answer, AllocError>
    ensures { IfOk result (λ answer. answer
        ≡ run_with around.now items.now (live (visible_items items.now) left.now) given.now) }
{
    let all = visible_items(alloc, items)?;
    let live = live(alloc, all.as_slice(), left)?;
    run_with(alloc, around, items, live.as_slice(), given)
}

/// The names of options beyond the table.
#[derive(Clone, Copy)]
pub struct OptionNames<'a> {
    /// Those that are known of the compiler, as text of lines.
    pub known: &'a [u8],
    /// Those that spec files of the line name.
    pub named: &'a [Word],
}

/// The answer to a line of `gcc` whose spec files give it options (GCC, "gcc.cc", do_self_spec):
/// refusals, or items of the driver's line. The line itself is one that `front` has items for.
///
/// The names, and the other arguments, are those of `front`. Those switches of the line stay that
/// the text did not hide. What the text gives follows them, each word as on the line; a class is
/// pruned among these alone. Side files have the names that the line gives them, and the levels of
/// debugging and the checks go on from those of the line.
///
/// # Errors
/// An allocation was refused.
pub fn front_with(
    alloc: Global,
    names: &OptionNames<'_>,
    around: &Surroundings,
    args: &[Word],
    given: &Given,
) -> Result<Answer, AllocError>
    ensures { IfOk result (λ answer. answer
        ≡ front_with names.now.known.now names.now.named.now around.now args.now given.now) }
{
    let items = line_kept(alloc, names.known, args)?;
    let more = given_items(alloc, names.known, given.words.as_slice())?;
    let refused = given_refusals(alloc, names.named, more.as_slice())?;
    if !refused.is_empty() {
        return Ok(Answer::Refuse(refused));
    }
    let left = given.left.as_slice();
    run_left(alloc, around, items.as_slice(), left, more.as_slice())
}
