//! The variables of a line's children, where spec files give the line options.

ghost use Rattle.drv_cc.specs.SelfSpecs.{children_with, collected_with};
ghost use Rattle.std.specs.Prelude.{◌≡◌, IfOk};

use crate::child_lines::{add_machine_words, told};
use crate::giving::both;
use crate::item::Item;
use crate::quoting::{add_dump_words, add_switches, variables};
use crate::{Surroundings, Variable};
use drv_words::{Listing, Word};
use std::alloc::{AllocError, Global};

/// The words that the compiler is called again with, where these switches are left.
fn collected_with(
    alloc: Global,
    told: &[Word],
    items: &[Item],
    switches: &[Item],
) -> Result<Listing<Word>, AllocError>
    ensures { IfOk result (λ words. words ≡ collected_with told.now items.now switches.now) }
{
    let mut words = Listing::new(alloc);
    add_switches(alloc, switches, &mut words)?;
    add_machine_words(told, &mut words)?;
    add_dump_words(alloc, items, &mut words)?;
    Ok(words)
}

/// The variables of a line's children, where these switches are left and these are given.
pub(crate) fn children_with(
    alloc: Global,
    around: &Surroundings,
    items: &[Item],
    left: &[Item],
    given: &[Item],
) -> Result<Listing<Variable>, AllocError>
    ensures { IfOk result (λ made. made ≡ children_with around.now items.now left.now given.now) }
{
    let told = told(alloc, around.children.as_slice(), items)?;
    let switches = both(alloc, left, given)?;
    let words = collected_with(alloc, told.as_slice(), items, switches.as_slice())?;
    let all = both(alloc, items, given)?;
    variables(
        alloc,
        around,
        told.as_slice(),
        all.as_slice(),
        words.as_slice(),
    )
}
