//! Which lines gcc itself answers.

ghost use Rattle.drv_cc.specs.Asked.{asks, has_no_number, has_vms_or_newer, is_asked, is_newer};
ghost use Rattle.drv_cc.specs.Asked.{is_stabs, is_xcoff, mixes_formats, mixes_newer, mixes_stabs};
ghost use Rattle.drv_cc.specs.Asked.{mixes_vms, mixes_xcoff, numeric, only_preprocesses};
ghost use Rattle.drv_cc.specs.Asked.{sets_unjudged, tells, tells_alone};
ghost use Rattle.drv_cc.specs.Code.Asking.{is_judged, is_speaking, may_ask};
ghost use Rattle.drv_cc.specs.Items.{begins, is_among};
ghost use Rattle.std.specs.List.{list_any};
ghost use Rattle.std.specs.Prelude.{◌≡◌, codes};

use crate::checks::names_no_check;
use crate::classes::{is, is_one_of};
use crate::item::Item;
use crate::keeping::{has, has_input};
use crate::sources::has_compiled;
use crate::table::last_byte;
use crate::values::is_number;
use drv_options::Role;

/// Options that ask for records in a format that is still in use (GCC manual, "Debugging Options").
const NEWER: [&[u8]; 7] = [
    b"-gdwarf",
    b"-gdwarf-2",
    b"-gdwarf-3",
    b"-gdwarf-4",
    b"-gdwarf-5",
    b"-gctf",
    b"-gbtf",
];

/// Whether an option of the table takes a number.
fn is_numeric(name: &[u8]) -> bool
    ensures { result ≡ is_among numeric name.now }
{
    is(name, b"-ftree-parallelize-loops=")
        || is(name, b"-finline-limit=")
        || is(name, b"-Wlarger-than=")
}

/// Whether an item of an option that takes a number has none.
fn has_no_number(item: &Item) -> bool
    ensures { result ≡ has_no_number item.now }
{
    is_numeric(item.name.as_bytes()) && !is_number(item.argument.as_bytes())
}

/// Whether an item is a question, or has an argument that gcc refuses.
fn asks(item: &Item) -> bool
    ensures { result ≡ asks item.now }
{
    matches!(item.role, Role::Question) || names_no_check(item) || has_no_number(item)
}

/// Whether an item is a question where there is no input.
fn tells(item: &Item) -> bool
    ensures { result ≡ tells item.now.role }
{
    matches!(item.role, Role::Tells)
}

/// Whether one is among them that asks.
fn has_question(items: &[Item]) -> bool
    ensures { result ≡ list_any asks items.now }
{
    items.iter().any(asks)
}

/// Whether a question is among them that is one where there is no input.
fn has_telling(items: &[Item]) -> bool
    ensures { result ≡ list_any (λ i. tells i.role) items.now }
{
    items.iter().any(tells)
}

/// Whether sources are only preprocessed.
fn only_preprocesses(items: &[Item]) -> bool
    ensures { result ≡ only_preprocesses items.now }
{
    has(items, b"-E") || has(items, b"-M") || has(items, b"-MM")
}

/// Whether a line sets parameters, and starts no compiler, which would judge them.
fn sets_unjudged(items: &[Item]) -> bool
    ensures { result ≡ sets_unjudged items.now }
{
    has(items, b"--param=") && (only_preprocesses(items) || !has_compiled(items))
}

/// Whether an item asks for records in stabs.
fn is_stabs(item: &Item) -> bool
    ensures { result ≡ is_stabs item.now }
{
    let name = item.name.as_bytes();
    is(name, b"-gstabs") || is(name, b"-gstabs+")
}

/// Whether an item asks for records in xcoff.
fn is_xcoff(item: &Item) -> bool
    ensures { result ≡ is_xcoff item.now }
{
    let name = item.name.as_bytes();
    is(name, b"-gxcoff") || is(name, b"-gxcoff+")
}

/// Whether an item asks for records in a format that is still in use.
fn is_newer(item: &Item) -> bool
    ensures { result ≡ is_newer item.now }
{
    is_one_of(&NEWER, item.name.as_bytes())
}

/// Whether one is among them that asks for stabs.
fn has_stabs(items: &[Item]) -> bool
    ensures { result ≡ list_any is_stabs items.now }
{
    items.iter().any(is_stabs)
}

/// Whether one is among them that asks for xcoff.
fn has_xcoff(items: &[Item]) -> bool
    ensures { result ≡ list_any is_xcoff items.now }
{
    items.iter().any(is_xcoff)
}

/// Whether one is among them that asks for a format that is still in use.
fn has_newer(items: &[Item]) -> bool
    ensures { result ≡ list_any is_newer items.now }
{
    items.iter().any(is_newer)
}

/// The same, or the format of vms.
fn has_vms_or_newer(items: &[Item]) -> bool
    ensures { result ≡ has_vms_or_newer items.now }
{
    has(items, b"-gvms") || has_newer(items)
}

/// Whether stabs are asked for, and another format.
fn mixes_stabs(items: &[Item]) -> bool
    ensures { result ≡ mixes_stabs items.now }
{
    has_stabs(items) && (has_xcoff(items) || has_vms_or_newer(items))
}

/// Whether xcoff is asked for, and another format.
fn mixes_xcoff(items: &[Item]) -> bool
    ensures { result ≡ mixes_xcoff items.now }
{
    has_xcoff(items) && has_vms_or_newer(items)
}

/// Whether the format of vms is asked for, and one that is still in use.
fn mixes_vms(items: &[Item]) -> bool
    ensures { result ≡ mixes_vms items.now }
{
    has(items, b"-gvms") && has_newer(items)
}

/// Whether two formats are asked for that are still in use, and exclude each other.
fn mixes_newer(items: &[Item]) -> bool
    ensures { result ≡ mixes_newer items.now }
{
    has(items, b"-gctf") && has(items, b"-gbtf")
}

/// Whether formats of records are asked for that exclude each other.
fn mixes_formats(items: &[Item]) -> bool
    ensures { result ≡ mixes_formats items.now }
{
    mixes_stabs(items) || mixes_xcoff(items) || mixes_vms(items) || mixes_newer(items)
}

/// Whether there is a question that is one where there is no input, and no input.
fn tells_alone(items: &[Item]) -> bool
    ensures { result ≡ tells_alone items.now }
{
    has_telling(items) && !has_input(items)
}

/// Whether a line is a question for the compiler, question by question.
fn has_asked(items: &[Item]) -> bool
    ensures { result ≡ is_asked items.now }
{
    has_question(items) || tells_alone(items) || sets_unjudged(items) || mixes_formats(items)
}

/// Whether a name begins as the options of debugging do.
fn is_of_debugging(name: &[u8]) -> bool
    ensures { result ≡ begins (codes "-g") name.now }
{
    matches!(name, [b'-', b'g', ..])
}

/// Whether the compiler's driver may judge an option of this name.
fn is_judged(name: &[u8]) -> bool
    ensures { result ≡ is_judged name.now }
{
    is_of_debugging(name) || last_byte(name) == b'='
}

/// Whether an item of this role is a question, or one where there is no input.
fn is_speaking(role: Role) -> bool
    ensures { result ≡ is_speaking role }
{
    matches!(role, Role::Question | Role::Tells)
}

/// Whether an item may make its line a question for the compiler.
fn may_ask(item: &Item) -> bool
    ensures { result ≡ may_ask item.now }
{
    is_speaking(item.role) || is_judged(item.name.as_bytes())
}

/// Whether one of the items may make the line a question for the compiler.
fn has_asking(items: &[Item]) -> bool
    ensures { result ≡ list_any may_ask items.now }
{
    items.iter().any(may_ask)
}

/// Whether a line is a question for the compiler. Few lines have an item that may make them one.
#[tactic(auto, using(crate::proofs::Unasked::none_asks))]
pub(crate) fn is_asked(items: &[Item]) -> bool
    ensures { result ≡ is_asked items.now }
{
    if !has_asking(items) {
        return false;
    }
    has_asked(items)
}
