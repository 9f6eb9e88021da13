//! What is refused of a line.

ghost use Rattle.drv_cc.specs.Items.{begins};
ghost use Rattle.drv_cc.specs.Kept.{before_star, is_named, is_vendors, names, refusals};
ghost use Rattle.drv_cc.specs.Kept.{is_lacking, refused_item, refused_line, unnamed_from};
ghost use Rattle.std.specs.List.{list_any};
ghost use Rattle.std.specs.Option.{option_copied};
ghost use Rattle.std.specs.Prelude.{◌≡◌, ◌++◌, IfOk, OnOk, codes, false};

use crate::Refusal;
use crate::classes::is;
use crate::item::Item;
use crate::keeping::{has, has_input};
use crate::reading::rest_after;
use drv_options::Role;
use drv_words::{Listing, Word};
use std::alloc::{AllocError, Global};

/// Whether a line names a spec file.
pub(crate) fn is_vendors(items: &[Item]) -> bool
    ensures { result ≡ is_vendors items.now }
{
    has(items, b"-specs=")
}

/// A name without the star at its end, if it has one.
fn before_star(name: &[u8]) -> Option<&[u8]>
    ensures { option_copied result ≡ before_star name.now }
{
    name.strip_suffix(b"*".as_slice())
}

/// Whether a name that a spec file has covers a switch.
fn names(switch: &[u8], name: &[u8]) -> bool
    ensures { result ≡ names switch.now name.now }
{
    match before_star(name) {
        None => is(name, switch),
        Some(beginning) => !beginning.is_empty() && switch.starts_with(beginning),
    }
}

/// Whether one of the names that spec files of the line have covers a switch.
fn has_name(named: &[Word], switch: &[u8]) -> bool
    ensures { result ≡ list_any (names switch.now) named.now }
{
    named.iter().any(|name| names(switch, name.as_bytes()))
}

/// Whether a word is one that the front adds for the spec file.
fn is_added(word: &[u8]) -> bool
    ensures { result ≡ begins (codes "--gdrv-") word.now }
{
    matches!(word, [b'-', b'-', b'g', b'd', b'r', b'v', b'-', ..])
}

/// Whether a word is a switch that spec files of the line name.
fn is_named(named: &[Word], word: &[u8]) -> bool
    ensures { result ≡ is_named named.now word.now }
{
    !is_added(word) && has_name(named, rest_after(word, b"-"))
}

/// Adds the refusal of an item, if it is refused.
pub(crate) fn refuse(
    named: &[Word],
    item: &Item,
    refusals: &mut Listing<Refusal>,
) -> Result<(), AllocError>
    ensures { OnOk result (refusals.new ≡ refusals.old ++ refused_item named.now item.now) }
{
    match item.role {
        Role::Unknown if is_named(named, item.name.as_bytes()) => {}
        Role::Unknown => refusals.push(Refusal::UnknownOption(item.name.clone()?))?,
        Role::Lacking => refusals.push(Refusal::NoArgument(item.name.clone()?))?,
        Role::Refused => refusals.push(Refusal::NotTaken(item.name.clone()?))?,
        _ => {}
    }
    Ok(())
}

/// Whether an option lacks its argument.
fn is_lacking(role: Role) -> bool
    ensures { result ≡ is_lacking role }
{
    matches!(role, Role::Lacking)
}

/// Whether the last `-o` has an empty argument.
fn is_unnamed(items: &[Item]) -> bool
    ensures { result ≡ unnamed_from false items.now }
{
    let mut unnamed = false;
    for item in items {
        if is(item.name.as_bytes(), b"-o") && !is_lacking(item.role) {
            unnamed = is(item.argument.as_bytes(), b"");
        }
    }
    unnamed
}

/// Adds the refusal of a whole line, if it is refused.
fn refuse_line(items: &[Item], refusals: &mut Listing<Refusal>) -> Result<(), AllocError>
    ensures { OnOk result (refusals.new ≡ refusals.old ++ refused_line items.now) }
{
    if is_unnamed(items) {
        refusals.push(Refusal::EmptyOutput)?;
    } else if !has_input(items) {
        refusals.push(Refusal::NoInput)?;
    }
    Ok(())
}

/// The refusals of a line, in its order.
pub(crate) fn refusals(
    alloc: Global,
    named: &[Word],
    items: &[Item],
) -> Result<Listing<Refusal>, AllocError>
    ensures { IfOk result (λ refused. refused ≡ refusals named.now items.now) }
{
    let mut refused = Listing::new(alloc);
    for item in items {
        refuse(named, item, &mut refused)?;
    }
    refuse_line(items, &mut refused)?;
    Ok(refused)
}
