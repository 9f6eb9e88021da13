//! A form in a text is replaced.

ghost use Rattle.drv_gcc.specs.Replacing.{replaced};
ghost use Rattle.std.specs.Prelude.{◌≡◌, IfOk};

use drv_words::Word;
use std::alloc::{AllocError, Global};

/// A text with a form in other words, at each of its places.
#[tactic(auto, using(crate::proofs::Forms::skipped_next, crate::proofs::Forms::form_next, crate::proofs::Forms::byte_next))]
pub fn replace(alloc: Global, text: &[u8], form: &[u8], other: &[u8]) -> Result<Word, AllocError>
    ensures { IfOk result (λ whole. whole ≡ replaced form.now other.now 0 text.now) }
{
    let mut word = Word::empty(alloc);
    let mut skip = 0;
    let mut left = text;
    while let [byte, rest @ ..] = left {
        let is_here = left.starts_with(form);
        left = rest;
        if skip > 0 {
            skip -= 1;
            continue;
        }
        if is_here {
            word.extend_from_slice(other)?;
            skip = form.len().saturating_sub(1);
            continue;
        }
        word.push(*byte)?;
    }
    Ok(word)
}
