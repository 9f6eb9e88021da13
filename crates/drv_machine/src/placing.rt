//! Whether the origins of words are at items of texts.

ghost use Rattle.drv_machine.specs.Traces.{has_item, is_astray, is_placed, numbered};
ghost use Rattle.drv_machine.specs.Traces.{word_count, word_counts};
ghost use Rattle.std.specs.List.{list_any};
ghost use Rattle.std.specs.Option.{option_map};
ghost use Rattle.std.specs.Prelude.{◌≡◌, ◌++◌, IfOk, IsTrue, OnOk, length, map};

use crate::Context;
use crate::trace::Origin;
use drv_syntax::SpecTree;
use drv_words::{Command, Group, Listing, Word};
use std::alloc::{AllocError, Global};

/// The text of a number: 0 is the one that was run.
fn numbered<'a>(
    context: &'a Context<'_>,
    run: &'a SpecTree,
    names: &[Word],
    number: usize,
) -> Option<&'a SpecTree>
    ensures { option_map (λ tree. tree.now) result ≡ numbered context.now run.now names.now number }
{
    if number == 0 {
        return Some(run);
    }
    match names.get(number - 1) {
        Some(name) => context.text_named(name.as_bytes()),
        None => None,
    }
}

/// Whether a text has an item at a place.
fn has_item(text: Option<&SpecTree>, at: usize) -> bool
    ensures { result ≡ has_item (option_map (λ tree. tree.now) text.entry) at }
{
    match text {
        Some(tree) => at < tree.tokens().len(),
        None => false,
    }
}

/// Whether the text of an origin has an item at its place.
fn is_placed(context: &Context<'_>, run: &SpecTree, names: &[Word], origin: &Origin) -> bool
    ensures { result ≡ is_placed context.now run.now names.now origin.now }
{
    has_item(numbered(context, run, names, origin.text), origin.token)
}

/// Whether an origin of a word is at no item.
fn is_astray(context: &Context<'_>, run: &SpecTree, names: &[Word], origins: &[Origin]) -> bool
    ensures { result ≡ is_astray context.now run.now names.now origins.now }
{
    for origin in origins {
        if !is_placed(context, run, names, origin) {
            return true;
        }
    }
    false
}

/// Whether an origin of the words of a command is at no item.
fn has_astray(
    context: &Context<'_>,
    run: &SpecTree,
    names: &[Word],
    words: &[Listing<Origin>],
) -> bool
    ensures { result ≡ list_any (is_astray context.now run.now names.now) words.now }
{
    for origins in words {
        if is_astray(context, run, names, origins.as_slice()) {
            return true;
        }
    }
    false
}

/// Whether an origin of a trace is at no item.
pub(crate) fn strays(
    context: &Context<'_>,
    run: &SpecTree,
    names: &[Word],
    commands: &[Listing<Listing<Origin>>],
) -> bool
    ensures { result ≡ list_any (list_any (is_astray context.now run.now names.now)) commands.now }
{
    for words in commands {
        if has_astray(context, run, names, words.as_slice()) {
            return true;
        }
    }
    false
}

/// How many words each command has origins for.
fn origin_counts(
    alloc: Global,
    commands: &[Listing<Listing<Origin>>],
) -> Result<Listing<usize>, AllocError>
    ensures { IfOk result (λ counts. counts ≡ map length commands.now) }
{
    let mut counts = Listing::new(alloc);
    for words in commands {
        counts.push(words.len())?;
    }
    Ok(counts)
}

/// Adds how many words each of these commands is.
fn push_counts(counts: &mut Listing<usize>, commands: &[Command]) -> Result<(), AllocError>
    ensures { OnOk result (counts.new ≡ counts.old ++ map word_count commands.now) }
{
    for command in commands {
        counts.push(command.words.as_slice().len() + 1)?;
    }
    Ok(())
}

/// How many words each command of these groups is.
fn word_counts(alloc: Global, groups: &[Group]) -> Result<Listing<usize>, AllocError>
    ensures { IfOk result (λ counts. counts ≡ word_counts groups.now) }
{
    let mut counts = Listing::new(alloc);
    for group in groups {
        push_counts(&mut counts, group.as_slice())?;
    }
    Ok(counts)
}

/// Whether these are the same numbers.
fn are_same(one: &[usize], other: &[usize]) -> bool
    ensures { IsTrue result → one.now ≡ other.now }
{
    one == other
}

/// Whether there are origins for as many words of each command of these groups as it has.
pub(crate) fn fits(
    alloc: Global,
    groups: &[Group],
    commands: &[Listing<Listing<Origin>>],
) -> Result<bool, AllocError>
    ensures { IfOk result (λ fits. IsTrue fits → map length commands.now ≡ word_counts groups.now) }
{
    let words = word_counts(alloc, groups)?;
    let origins = origin_counts(alloc, commands)?;
    Ok(are_same(origins.as_slice(), words.as_slice()))
}
