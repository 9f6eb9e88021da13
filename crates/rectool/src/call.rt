//! What the words of a call request. The first word is the role, and neither an option nor an
//! input.

ghost use Rattle.rectool.specs.Call.{code_asked, code_of, exit_status, inputs_of, is_output_option};
ghost use Rattle.rectool.specs.Call.{operands, output_file, with_digit};
ghost use Rattle.std.specs.Option.{option_copied};
ghost use Rattle.std.specs.Prelude.{◌≡◌, IfOk};

use drv_words::{Listing, Word};
use std::alloc::{AllocError, Global};

/// The option with the exit status, in decimal.
const CODE_OPTION: &[u8] = b"-frec-exit=";

/// The words after the role.
fn operands(words: &[Word]) -> &[Word]
    ensures { result.now ≡ operands words.now }
{
    match words {
        [] => words,
        [_, operands @ ..] => operands,
    }
}

/// Whether a word is `-o`.
fn is_output_option(word: &Word) -> bool
    ensures { result ≡ is_output_option word.now }
{
    word.as_bytes() == b"-o".as_slice()
}

/// The file after the last `-o`. `None` is standard output, which `-` and a missing word mean too.
#[tactic(auto, using(crate::proofs::Calls::none_named, crate::proofs::Calls::later_counts, crate::proofs::Calls::nothing_here))]
pub fn output_file(words: &[Word]) -> Option<&Word>
    ensures { option_copied result ≡ output_file words.now }
{
    let operands = operands(words);
    let mut following = None;
    for (index, word) in operands.iter().enumerate() {
        // The last -o counts, so a later one replaces this.
        if is_output_option(word) {
            following = operands.get(index + 1);
        }
    }
    match following {
        Some(path) if path.as_bytes() != b"-".as_slice() => Some(path),
        _ => None,
    }
}

/// The inputs of a call: each word that doesn't begin with `-` and doesn't directly follow an `-o`.
pub fn inputs(alloc: Global, words: &[Word]) -> Result<Listing<Word>, AllocError>
    ensures { IfOk result (λ inputs. inputs ≡ inputs_of words.now) }
{
    let mut inputs = Listing::new(alloc);
    let mut is_after = false;
    for word in operands(words) {
        if !is_after && !word.as_bytes().starts_with(b"-") {
            inputs.push(word.clone()?)?;
        }
        is_after = is_output_option(word);
    }
    Ok(inputs)
}

/// A number with one more digit, if the byte is a digit and the number is at most 255.
fn with_digit(number: u8, digit: u8) -> Option<u8>
    ensures { result ≡ with_digit number digit }
{
    if !digit.is_ascii_digit() {
        return None;
    }
    let more = number as u16 * 10 + (digit - b'0') as u16;
    u8::try_from(more).ok()
}

/// The status of these digits, if all bytes are digits and the number is at most 255.
#[tactic(auto, using(crate::proofs::Calls::one_more))]
fn code_of(digits: &[u8]) -> Option<u8>
    ensures { result ≡ code_of digits.now }
{
    // No digits are no number.
    if digits.is_empty() {
        return None;
    }
    let mut code = 0;
    for digit in digits {
        code = with_digit(code, *digit)?;
    }
    Some(code)
}

/// The status that a word requests: `-frec-exit=N` requests N.
fn code_asked(word: &Word) -> Option<u8>
    ensures { result ≡ code_asked word.now }
{
    let digits = word.as_bytes().strip_prefix(CODE_OPTION)?;
    code_of(digits)
}

/// The status that the last such word requests, or else 0.
#[tactic(auto, using(crate::proofs::Calls::last_after))]
pub fn exit_status(words: &[Word]) -> u8
    ensures { result ≡ exit_status words.now }
{
    let mut status = 0;
    for word in operands(words) {
        if let Some(code) = code_asked(word) {
            status = code;
        }
    }
    status
}
