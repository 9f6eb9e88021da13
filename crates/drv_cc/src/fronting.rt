//! A line of `gcc` read into a question, refusals, or items of the driver's line.

ghost use Rattle.drv_cc.specs.Front.{answer_of, front_of, line_items, refused_or_run, run_of};
ghost use Rattle.drv_cc.specs.Kept.{effective_items, refusals};
ghost use Rattle.std.specs.Prelude.{◌≡◌, IfOk};

use crate::asking::is_asked;
use crate::item::Item;
use crate::judging::refusals;
use crate::keeping::{do_all_stay, effective_items};
use crate::line_adding::add_items;
use crate::line_items::add_kept;
use crate::outputs::outputs;
use crate::quoting::children;
use crate::reading::items_of;
use crate::sources::inputs;
use crate::stages::stages;
use crate::{Answer, Call, Surroundings};
use drv_words::{Listing, Word};
use std::alloc::{AllocError, Global};

/// The items of the driver's line for these items.
fn line_items(
    alloc: Global,
    around: &Surroundings,
    items: &[Item],
) -> Result<Listing<drv_args::Item>, AllocError>
    ensures { IfOk result (λ given. given ≡ line_items around.now items.now) }
{
    let mut given = Listing::new(alloc);
    add_kept(items, &mut given)?;
    add_items(alloc, around, items, &mut given)?;
    Ok(given)
}

/// The call of a line whose items these are.
fn call_of(alloc: Global, around: &Surroundings, items: &[Item]) -> Result<Answer, AllocError>
    ensures { IfOk result (λ answer. answer ≡ run_of around.now items.now) }
{
    let given = line_items(alloc, around, items)?;
    let inputs = inputs(alloc, items)?;
    let outputs = outputs(alloc, items)?;
    let children = children(alloc, around, items)?;
    Ok(Answer::Run(Call {
        items: given,
        inputs,
        outputs,
        children,
        stages: stages(items),
    }))
}

/// The call of a line with those of these items that stay. Where all stay, none is copied for it.
fn call_of_kept(alloc: Global, around: &Surroundings, items: &[Item]) -> Result<Answer, AllocError>
    ensures { IfOk result (λ answer. answer ≡ run_of around.now (effective_items items.now)) }
{
    if do_all_stay(alloc, items)? {
        return call_of(alloc, around, items);
    }
    let kept = effective_items(alloc, items)?;
    call_of(alloc, around, kept.as_slice())
}

/// The answer to a line that is no question.
fn refused_or_run(
    alloc: Global,
    named: &[Word],
    around: &Surroundings,
    items: &[Item],
) -> Result<Answer, AllocError>
    ensures { IfOk result (λ answer. answer
        ≡ refused_or_run around.now items.now (refusals named.now items.now)) }
{
    let refused = refusals(alloc, named, items)?;
    if refused.is_empty() {
        call_of_kept(alloc, around, items)
    } else {
        Ok(Answer::Refuse(refused))
    }
}

/// The answer to a line with these items.
pub(crate) fn answer_of(
    alloc: Global,
    named: &[Word],
    around: &Surroundings,
    items: &[Item],
) -> Result<Answer, AllocError>
    ensures { IfOk result (λ answer. answer ≡ answer_of named.now around.now items.now) }
{
    if is_asked(items) {
        Ok(Answer::Ask)
    } else {
        refused_or_run(alloc, named, around, items)
    }
}

/// The answer to a line of `gcc` (GCC manual, "Invoking GCC"): a question for the compiler,
/// refusals, or items of the driver's line, which `drv_args::line_of` makes a line of.
///
/// `args` are the words of the line without the program's name, response files expanded. The lines
/// of `known` are the names of options beyond this crate's table, as `gcc --completion=-` says
/// them, those that end with `=` with any argument; the search is quick where they are sorted by
/// their bytes. `named` are names of switches that spec files of the line have, which no option has
/// to be, those that end with `*` with any rest. Of options of one class the last stays. After what
/// stays follows what gcc's driver adds: switches that begin with `--gdrv-` are for the spec file.
/// No words are made of the items: an empty argument is one.
///
/// # Errors
/// An allocation was refused.
pub fn front(
    alloc: Global,
    known: &[u8],
    named: &[Word],
    around: &Surroundings,
    args: &[Word],
) -> Result<Answer, AllocError>
    ensures { IfOk result (λ answer. answer ≡ front_of known.now named.now around.now args.now) }
{
    let items = items_of(alloc, known, args)?;
    answer_of(alloc, named, around, items.as_slice())
}
