//! Turns a line of `c99` into a line of the driver.

ghost use Rattle.drv_c99.specs.Code.Building.{Goes, finished, front_with};
ghost use Rattle.drv_c99.specs.Front.{front_of, items_of};
ghost use Rattle.drv_c99.specs.declared.option.Side.TheVariants.{BeforeEnd};
ghost use Rattle.drv_c99.specs.declared.fault.C99Fault.TheVariants as fault;
ghost use Rattle.drv_words.specs.Gives.{Gives};
ghost use Rattle.std.specs.Prelude.{false};

use crate::C99Fault;
use crate::building::{Front, missing_argument};
use crate::option::{Side, Start, start_of};
use drv_words::{Listing, Word};
use std::alloc::Global;

/// Adds words to a front.
fn add_words(alloc: Global, front: &mut Front, words: &[Word]) -> Result<(), C99Fault>
    ensures { Goes (finished front.new) result
        (front_with front.old (items_of BeforeEnd words.now)) }
{
    let mut side = Side::BeforeEnd;
    let mut left = words;
    while let [word, following @ ..] = left {
        left = following;
        let bytes = word.as_bytes();
        match start_of(side, bytes) {
            Start::Flag => front.add_flag(alloc, bytes)?,
            Start::Operand { prefix } => front.add_operand(alloc, prefix, bytes)?,
            Start::Joined { option, argument } => front.add_option(alloc, option, argument)?,
            Start::Wants { option } => {
                let [argument, others @ ..] = following else {
                    return Err(missing_argument(alloc, option));
                };
                front.add_option(alloc, option, argument.as_bytes())?;
                left = others;
            }
            Start::Ends => side = Side::AfterEnd,
            Start::Unknown => return Err(C99Fault::UnknownOption(word.clone()?)),
        }
    }
    Ok(())
}

/// The words of the driver for a line of `c99`: `-std=c99`, the macros of `-D`, those of `-U`, and
/// the rest in order (POSIX, c99). An argument is a word of its own, except those of `-O` and `-l`.
/// After `--` an operand that begins with a hyphen gets the prefix `./`.
///
/// # Errors
/// At the first offending word: `UnknownOption` with the word, `MissingArgument` with the option,
/// or `BadLevel` with the argument of `-O`. Then `NoOperand`.
pub fn front(alloc: Global, args: &[Word]) -> Result<Listing<Word>, C99Fault>
    ensures { Gives fault.Memory (λ words. words) result (front_of args.now) }
{
    let mut front = Front::new(alloc);
    add_words(alloc, &mut front, args)?;
    front.finish(alloc)
}
