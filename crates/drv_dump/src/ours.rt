//! A text of gcc in this driver's spec language.

ghost use Rattle.drv_dump.specs.Ours.{arguments_from, call_words, directive_words, name_from};
ghost use Rattle.drv_dump.specs.Ours.{negated_words, other_call_words, ours_of, put, refusing};
ghost use Rattle.drv_dump.specs.Ours.{replaced, test_words};
ghost use Rattle.drv_dump.specs.Forms.{calls, directives, either_tests, tests};
ghost use Rattle.drv_dump.specs.declared.fault.OursFault.TheVariants.{Memory};
ghost use Rattle.drv_words.specs.Gives.{Gives};
ghost use Rattle.std.specs.Cmp.Lexicographic.{pointwise};
ghost use Rattle.std.specs.Map.{lookup};
ghost use Rattle.std.specs.Option.{option_map};
ghost use Rattle.std.specs.Prelude.{◌≡◌, ◌≤◌, ◌++◌, OnOk, length, nat_eq};

use crate::files::with_named_texts;
use crate::forms::{call_of, directive_of, either_test_of, form_at, is_lacking, is_ours, test_of};
use crate::{Kind, OursFault, Piece, TextFault, read_text};
use drv_words::Word;
use std::alloc::{AllocError, Global};

/// Adds a text to a word, with its forms of several pieces replaced.
#[tactic(auto, using(crate::proofs::Replacing::skipped_next, crate::proofs::Replacing::form_next, crate::proofs::Replacing::byte_next))]
fn replace_forms(text: &[u8], word: &mut Word) -> Result<(), AllocError>
    ensures { OnOk result (word.new ≡ word.old ++ replaced 0 text.now) }
{
    let mut skip = 0;
    let mut left = text;
    while let [byte, rest @ ..] = left {
        let form = form_at(left);
        left = rest;
        if skip > 0 {
            skip -= 1;
            continue;
        }
        match form {
            Some(form) => {
                word.extend_from_slice(form.ours())?;
                skip = form.others();
            }
            None => word.push(*byte)?,
        }
    }
    Ok(())
}

/// Adds the name of a function that is called, from its first byte, to a word.
#[tactic(auto, using(crate::proofs::Replacing::name_next))]
fn push_name(call: &[u8], word: &mut Word) -> Result<(), AllocError>
    ensures { OnOk result (word.new ≡ word.old ++ name_from call.now) }
{
    let mut left = call;
    while let [byte, rest @ ..] = left {
        if *byte == b'(' {
            return Ok(());
        }
        word.push(*byte)?;
        left = rest;
    }
    Ok(())
}

/// Adds to a word what follows the parenthesis that opens.
#[tactic(auto, using(crate::proofs::Replacing::arguments_next, crate::proofs::Replacing::arguments_here))]
fn push_arguments(call: &[u8], word: &mut Word) -> Result<(), AllocError>
    ensures { OnOk result (word.new ≡ word.old ++ arguments_from call.now) }
{
    let mut left = call;
    while let [byte, rest @ ..] = left {
        if *byte == b'(' {
            return word.extend_from_slice(rest);
        }
        left = rest;
    }
    Ok(())
}

/// Adds the refusal of a function to a word.
fn push_refusal(call: &[u8], word: &mut Word) -> Result<(), AllocError>
    ensures { OnOk result (word.new ≡ word.old ++ refusing call.now) }
{
    word.extend_from_slice(b"%{-gdrv-none:;:%efunction ")?;
    push_name(call, word)?;
    word.extend_from_slice(b" is not in this spec file}")
}

/// Adds to a word what a function becomes in a text that has no other words.
fn push_other_call(call: &[u8], word: &mut Word) -> Result<(), AllocError>
    ensures { OnOk result (word.new ≡ word.old ++ other_call_words call.now) }
{
    if call.starts_with(b"%:include(") {
        word.extend_from_slice(b"%(include_")?;
        return push_arguments(call, word);
    }
    if is_ours(call) {
        word.extend_from_slice(call)
    } else {
        push_refusal(call, word)
    }
}

/// Adds to a word what a function in a text becomes.
fn push_call(call: &[u8], word: &mut Word) -> Result<(), AllocError>
    ensures { OnOk result (word.new
        ≡ word.old ++ call_words (lookup (pointwise nat_eq call.now) calls) call.now) }
{
    match call_of(call) {
        Some(words) => word.extend_from_slice(words),
        None => push_other_call(call, word),
    }
}

/// What a directive becomes, if it becomes anything.
fn directive_words<'a>(directive: &'a [u8]) -> Option<&'a [u8]>
    ensures { option_map (λ words. words.now) result
        ≡ directive_words (lookup (pointwise nat_eq directive.now) directives) directive.now }
{
    match directive_of(directive) {
        Some(words) => Some(words),
        None if is_lacking(directive) => None,
        None => Some(directive),
    }
}

/// What a function that is a test after `!` becomes, if it becomes anything: one test.
fn negated_words<'a>(call: &'a [u8]) -> Option<&'a [u8]>
    ensures { option_map (λ words. words.now) result
        ≡ negated_words (lookup (pointwise nat_eq call.now) tests) call.now }
{
    match test_of(call) {
        Some(words) => Some(words),
        None if is_ours(call) => Some(call),
        None => None,
    }
}

/// What a function that is a test becomes, if it becomes anything.
fn test_words<'a>(call: &'a [u8]) -> Option<&'a [u8]>
    ensures { option_map (λ words. words.now) result
        ≡ test_words (lookup (pointwise nat_eq call.now) either_tests) call.now }
{
    match either_test_of(call) {
        Some(words) => Some(words),
        None => negated_words(call),
    }
}

/// Adds to a word what a piece becomes.
pub(crate) fn push_piece(alloc: Global, piece: &Piece, word: &mut Word) -> Result<(), OursFault>
    ensures { Gives Memory (λ u. word.new) result (put word.old piece.now) }
{
    let bytes = piece.bytes.as_bytes();
    let words = match piece.kind {
        Kind::Call => return Ok(push_call(bytes, word)?),
        Kind::Directive => directive_words(bytes),
        Kind::TestCall => test_words(bytes),
        Kind::NegatedCall => negated_words(bytes),
        _ => Some(bytes),
    };
    match words {
        Some(words) => Ok(word.extend_from_slice(words)?),
        None => Err(OursFault::Lacking(Word::from_bytes(alloc, bytes)?)),
    }
}

/// A text of gcc in this driver's spec language, which has other words for the forms that the
/// language lacks. A function in the text that has no other words is refused where it would be
/// called.
///
/// # Errors
/// `Unreadable` as for reading; `Lacking` with the first directive, or function that is a test,
/// without such words.
pub fn translate_text(alloc: Global, text: &[u8]) -> Result<Word, OursFault>
    ensures { Gives Memory (λ word. word) result (ours_of text.now) }
{
    let mut replaced = Word::empty(alloc);
    replace_forms(text, &mut replaced)?;
    let pieces = match read_text(alloc, replaced.as_bytes()) {
        Ok(pieces) => pieces,
        Err(TextFault::Memory) => return Err(OursFault::Memory),
        Err(TextFault::Unreadable(misfit, at)) => return Err(OursFault::Unreadable(misfit, at)),
    };
    let named = with_named_texts(alloc, pieces.as_slice())?;
    let mut word = Word::empty(alloc);
    for piece in named.as_slice() {
        push_piece(alloc, piece, &mut word)?;
    }
    Ok(word)
}
