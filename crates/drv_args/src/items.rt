//! Lines that are made from items.

// In clauses: `Gives` says that a result is the defined one, or lack of memory.
ghost use Rattle.drv_args.specs.Code.Building.{with_items};
ghost use Rattle.drv_args.specs.Lines.{line_judged, line_of};
ghost use Rattle.drv_args.specs.declared.fault.ArgsFault.TheVariants as fault;
ghost use Rattle.drv_words.specs.Gives.{Gives};
ghost use Rattle.std.specs.Prelude.{◌≡◌, IfOk, OnOk};

use crate::building::LineBuilder;
use crate::judging::items_fault;
use crate::{ArgsFault, Effect, Line};
use drv_words::Word;
use std::alloc::{AllocError, Global};

/// An option with its argument, or a file.
#[derive(Drop)]
pub struct Item {
    /// The effect of the option.
    pub effect: Effect,
    /// The option with its first `-`, or the file.
    pub option: Word,
    /// The option's argument, or the empty word.
    pub argument: Word,
}

/// Adds items to a line.
fn note_items(alloc: Global, builder: &mut LineBuilder, items: &[Item]) -> Result<(), AllocError>
    ensures { OnOk result (builder.new.line ≡ with_items builder.old items.now) }
{
    for item in items {
        let option = item.option.as_bytes();
        builder.note(alloc, item.effect, option, item.argument.as_bytes())?;
    }
    Ok(())
}

/// Makes a line from items.
fn made_line(alloc: Global, from_file: bool, items: &[Item]) -> Result<Line, AllocError>
    ensures { IfOk result (λ line. line ≡ line_of from_file items.now) }
{
    let mut builder = LineBuilder::new(alloc, items.len(), from_file)?;
    note_items(alloc, &mut builder, items)?;
    Ok(builder.line)
}

/// The line of these items: the one that `read` makes of words with these items. `from_file` says
/// whether words of a response file are in it. Which files are sources is for the caller to know, so
/// one output for several of them isn't refused here.
///
/// # Errors
/// `Memory`; then, unless the specs are dumped, the first of `NoInputs`, `StdinNeedsLanguage` and
/// `OutputIsInput`.
#[tactic(auto, using(crate::proofs::Verdicts::refused_line, crate::proofs::Verdicts::none_is_judged))]
pub fn line_of(alloc: Global, from_file: bool, items: &[Item]) -> Result<Line, ArgsFault>
    ensures line { Gives fault.Memory (λ line. line) result (line_judged from_file items.now) }
{
    let line = made_line(alloc, from_file, items)?;
    items_fault(&line)?;
    Ok(line)
}
