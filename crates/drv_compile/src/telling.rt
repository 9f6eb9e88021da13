//! The text of a refused line.

ghost use Rattle.drv_compile.specs.Compilers.{values};
ghost use Rattle.drv_compile.specs.Near.{AreTold, IsMeant, IsTold};
ghost use Rattle.std.specs.Option.{option_copied};
ghost use Rattle.std.specs.Prelude.{◌≡◌, ◌++◌, [], IfOk, List, OnOk, ℕ};

use crate::compilers::values;
use crate::nearest::option_meant;
use crate::wording::add_refusal;
use drv_cc::Refusal;
use drv_words::Word;
use std::alloc::{AllocError, Global};

/// The option that the word of a refusal was meant to be, if one is near.
fn near_to(alloc: Global, known: &[Word], refusal: &Refusal) -> Result<Option<Word>, AllocError>
    ensures { IfOk result (λ near. IsMeant known.now refusal.now near) }
{
    match refusal {
        Refusal::UnknownOption(word) => option_meant(alloc, known, word.as_bytes()),
        Refusal::NoArgument(_)
        | Refusal::NotTaken(_)
        | Refusal::GivenFile(_)
        | Refusal::GivenMore
        | Refusal::EmptyOutput
        | Refusal::NoInput => Ok(None),
    }
}

/// Adds the line of a refusal, with the option that was meant, if one is near.
fn add_told(
    alloc: Global,
    name: &[u8],
    known: &[Word],
    refusal: &Refusal,
    text: &mut Word,
) -> Result<(), AllocError>
    ensures { OnOk result ((line : List ℕ) × IsTold name.now known.now refusal.now line
        × (text.new ≡ text.old ++ line)) }
{
    let near = near_to(alloc, known, refusal)?;
    match &near {
        Some(option) => add_refusal(text, name, refusal, Some(option.as_bytes())),
        None => add_refusal(text, name, refusal, None),
    }
}

/// The text of refusals by these names of options: a line for each of them.
fn lines_told(
    alloc: Global,
    name: &[u8],
    known: &[Word],
    refusals: &[Refusal],
) -> Result<Word, AllocError>
    ensures { IfOk result (λ text. AreTold name.now known.now refusals.now text) }
{
    let mut text = Word::empty(alloc);
    for refusal in refusals {
        add_told(alloc, name, known, refusal, &mut text)?;
    }
    Ok(text)
}

/// The text of refusals of a line by the names of options in a text, a line each: a line for each
/// of them.
pub(crate) fn refusals_text(
    alloc: Global,
    name: &[u8],
    known: &[u8],
    refusals: &[Refusal],
) -> Result<Word, AllocError>
    ensures { IfOk result (λ text. AreTold name.now (values [] known.now) refusals.now text) }
{
    let names = values(alloc, b"", known)?;
    lines_told(alloc, name, names.as_slice(), refusals)
}
