//! The targets of offloading that a line names (GCC manual, "C Dialect Options", `-foffload=`).

ghost use Rattle.drv_cc.specs.Children.{before_equals, child_words, given_targets, item_targets};
ghost use Rattle.drv_cc.specs.Children.{line_targets, named_targets, offload_argument, offload_words};
ghost use Rattle.drv_cc.specs.Children.{offloading, target_after, target_list, targets_after};
ghost use Rattle.drv_cc.specs.Children.{with_target};
ghost use Rattle.drv_cc.specs.Items.{begins, is_among};
ghost use Rattle.drv_words.specs.Bytes.{colon, equals};
ghost use Rattle.std.specs.List.{list_any, slice_split};
ghost use Rattle.std.specs.Prelude.{◌≡◌, ◌==◌, ◌||◌, ◌++◌, IfOk, None, OnOk, codes};

use crate::classes::is;
use crate::item::Item;
use crate::places::first_place;
use crate::reading::rest_after;
use crate::words::add_joined;
use crate::wrapping::add_pieces;
use drv_words::{Listing, Word};
use std::alloc::{AllocError, Global};

/// How an item begins that says something of offloading.
const OFFLOADING: &[u8] = b"-foffload=";

/// Whether an item says something of offloading.
fn is_offloading(item: &Item) -> bool
    ensures { result ≡ begins offloading item.now.name }
{
    item.name.as_bytes().starts_with(OFFLOADING)
}

/// The argument of an item that does.
fn offload_argument(item: &Item) -> &[u8]
    ensures { result.now ≡ offload_argument item.now }
{
    rest_after(item.name.as_bytes(), OFFLOADING)
}

/// What precedes the first `=`.
#[tactic(auto, using(crate::proofs::OffloadNames::names_at, crate::proofs::OffloadNames::names_whole))]
fn before_equals(argument: &[u8]) -> &[u8]
    ensures { result.now ≡ before_equals argument.now }
{
    match first_place(b'=', argument) {
        Some(at) => &argument[..at],
        None => argument,
    }
}

/// The part of an argument that has names.
fn target_list(argument: &[u8]) -> &[u8]
    ensures { result.now ≡ target_list argument.now }
{
    if argument.starts_with(b"-") {
        return &[];
    }
    before_equals(argument)
}

/// The names in an argument.
fn named_targets(alloc: Global, argument: &[u8]) -> Result<Listing<Word>, AllocError>
    ensures { IfOk result (λ names. names ≡ named_targets argument.now) }
{
    let mut names = Listing::new(alloc);
    add_pieces(alloc, b"", target_list(argument), &mut names)?;
    Ok(names)
}

/// Whether a name is among those of a text, which has colons between them.
fn has_target(targets: &[u8], name: &[u8]) -> bool
    ensures { result ≡ is_among (slice_split (λ b. b == colon) targets.now) name.now }
{
    targets
        .split(|byte| *byte == b':')
        .any(|other| name == other)
}

/// The targets with one more name.
fn with_target(alloc: Global, targets: Option<Word>, name: &[u8]) -> Result<Word, AllocError>
    ensures { IfOk result (λ all. all ≡ with_target targets name.now) }
{
    let Some(mut all) = targets else {
        return Word::from_bytes(alloc, name);
    };
    if !has_target(all.as_bytes(), name) {
        all.push(b':')?;
        all.extend_from_slice(name)?;
    }
    Ok(all)
}

/// The targets after one more name.
fn target_after(
    alloc: Global,
    targets: Option<Word>,
    name: &[u8],
) -> Result<Option<Word>, AllocError>
    ensures { IfOk result (λ after. after ≡ target_after targets name.now) }
{
    if is(name, b"default") {
        return Ok(None);
    }
    let all = with_target(alloc, targets, name)?;
    Ok(Some(all))
}

/// The targets after the names of an item.
fn targets_after(
    alloc: Global,
    targets: Option<Word>,
    names: &[Word],
) -> Result<Option<Word>, AllocError>
    ensures { IfOk result (λ after. after ≡ targets_after targets names.now) }
{
    let mut after = targets;
    for name in names {
        if is(name.as_bytes(), b"disable") {
            return Ok(Some(Word::empty(alloc)));
        }
        after = target_after(alloc, after, name.as_bytes())?;
    }
    Ok(after)
}

/// The targets after an item.
fn item_targets(
    alloc: Global,
    targets: Option<Word>,
    item: &Item,
) -> Result<Option<Word>, AllocError>
    ensures { IfOk result (λ after. after ≡ item_targets targets item.now) }
{
    if !is_offloading(item) {
        return Ok(targets);
    }
    let names = named_targets(alloc, offload_argument(item))?;
    targets_after(alloc, targets, names.as_slice())
}

/// The targets that a line names, with colons between them; none where it leaves them to the
/// compiler.
pub(crate) fn given_targets(alloc: Global, items: &[Item]) -> Result<Option<Word>, AllocError>
    ensures { IfOk result (λ targets. targets ≡ given_targets items.now) }
{
    let mut targets = None;
    for item in items {
        targets = item_targets(alloc, targets, item)?;
    }
    Ok(targets)
}

/// Whether an argument has options.
fn has_options(argument: &[u8]) -> bool
    ensures { result
        ≡ (begins (codes "-") argument.now || list_any (λ b. b == equals) argument.now) }
{
    argument.starts_with(b"-") || argument.contains(&b'=')
}

/// Adds the word for the options of an argument, if there are some.
fn add_offload_words(
    alloc: Global,
    argument: &[u8],
    words: &mut Listing<Word>,
) -> Result<(), AllocError>
    ensures { OnOk result (words.new ≡ words.old ++ offload_words argument.now) }
{
    if has_options(argument) {
        add_joined(alloc, words, b"-foffload-options=", argument)?;
    }
    Ok(())
}

/// Adds the words of a switch for the children.
#[tactic(auto, unfolding(crate::specs::Children::child_words))]
pub(crate) fn add_child_words(
    alloc: Global,
    item: &Item,
    words: &mut Listing<Word>,
) -> Result<(), AllocError>
    ensures { OnOk result (words.new ≡ words.old ++ child_words item.now) }
{
    if is_offloading(item) {
        add_offload_words(alloc, offload_argument(item), words)
    } else {
        item.add_words(words)
    }
}
