//! Which switches of a line are live, computed once by look-ups in the places by name.

// In clauses: `IsLast test names place` says that the last name that passes is at this place.
// `IsOrder names order` says that the order is by name, then by place.
ghost use Rattle.drv_match.specs.Code.Indexed.{IsLast, IsLiveness, positive};
ghost use Rattle.drv_match.specs.Matching.{cancels, has_negative, is_level, negative};
ghost use Rattle.drv_match.specs.Order.{IsOrder};
ghost use Rattle.std.specs.Cmp.Lexicographic.{pointwise};
ghost use Rattle.std.specs.Prelude.{◌≡◌, IfOk, None, OnOk, Some, if◌then◌else◌, length, nat_eq};

use crate::names::Names;
use std::alloc::{AllocError, Global};

/// For each switch, whether no later switch cancels it. `order` has the places by name. So switches
/// of the same name are next to each other, and the last switch that cancels them is looked up
/// once.
pub fn live_flags(
    alloc: Global,
    names: &Names<'_>,
    order: &[usize],
) -> Result<Vec<bool>, AllocError>
    requires { IsOrder names.now order.now }
    ensures { IfOk result (λ flags. IsLiveness names.now flags.items) }
{
    let mut flags = vec![in alloc; true; names.len()]?;
    mark_live(alloc, names, order, &mut flags)?;
    Ok(flags)
}

/// Sets the flags of the live switches. There are as many flags as switches.
fn mark_live(
    alloc: Global,
    names: &Names<'_>,
    order: &[usize],
    flags: &mut Vec<bool>,
) -> Result<(), AllocError>
    requires in_order { IsOrder names.now order.now }
    requires as_many { length flags.old.items ≡ length names.now }
    ensures { OnOk result (IsLiveness names.now flags.new.items) }
{
    let level = last_level(names);
    let mut form = Vec::new(alloc);
    let mut first_live = 0;
    for k in 0..order.len() {
        let place = order[k];
        let name = names.get(place);
        // Equal names are next to each other, and one look-up serves them all.
        if k == 0 || name != names.get(order[k - 1]) {
            first_live = last_cancelling(names, order, level, name, &mut form)?;
        }
        flags[place] = place >= first_live;
    }
    Ok(())
}

/// The place of the last optimization level, or 0 if there is none.
fn last_level(names: &Names<'_>) -> usize
    ensures { IsLast is_level names.now result }
{
    let mut place = names.len();
    while place > 0 {
        place -= 1;
        if is_level(names.get(place)) {
            return place;
        }
    }
    0
}

/// The place of the last switch that cancels this name, or 0 if there is none. It cancels the
/// switches of this name before that place. `form` is room for a name to look up.
fn last_cancelling(
    names: &Names<'_>,
    order: &[usize],
    level: usize,
    name: &[u8],
    form: &mut Vec<u8>,
) -> Result<usize, AllocError>
    requires in_order { IsOrder names.now order.now }
    requires levels { IsLast is_level names.now level }
    ensures { IfOk result (λ place. IsLast (λ later. cancels later name.now) names.now place) }
{
    if is_level(name) {
        return Ok(level);
    }
    // Only levels, and names with a negative form, are ever cancelled.
    if !has_negative(name) {
        return Ok(0);
    }
    write_negative(name, form)?;
    let negative = last_named(names, order, form);
    if !write_positive(name, form)? {
        return Ok(negative);
    }
    Ok(negative.max(last_named(names, order, form)))
}

/// The place of the last switch of this name, or 0 if there is none.
fn last_named(names: &Names<'_>, order: &[usize], name: &[u8]) -> usize
    requires { IsOrder names.now order.now }
    ensures { IsLast (pointwise nat_eq name.now) names.now result }
{
    let end = order.partition_point(|i| names.get(*i).cmp(name).is_le());
    // Every name comes after this one.
    if end == 0 {
        return 0;
    }
    let place = order[end - 1];
    if names.get(place) == name { place } else { 0 }
}

/// Whether the switch of this name is an optimization level, such as `O2`: only the last one of a
/// line counts (GCC manual, "Optimize Options").
pub fn is_level(name: &[u8]) -> bool
    ensures { result ≡ is_level name.now }
{
    matches!(name, [b'O', ..])
}

/// Whether the switch of this name has a negative form, as `-Wall` has `-Wno-all` (GCC manual,
/// "Invoking GCC").
pub fn has_negative(name: &[u8]) -> bool
    ensures { result ≡ has_negative name.now }
{
    matches!(name, [b'f' | b'm' | b'W', ..])
}

/// Writes the negative form of a name.
fn write_negative(name: &[u8], form: &mut Vec<u8>) -> Result<(), AllocError>
    ensures { OnOk result (form.new.items ≡ negative name.now) }
{
    form.clear();
    if let [letter, rest @ ..] = name {
        form.push(*letter)?;
        form.extend_from_slice(b"no-")?;
        form.extend_from_slice(rest)?;
    }
    Ok(())
}

/// If this is a negative form, writes the name without `no-` and returns true.
fn write_positive(name: &[u8], form: &mut Vec<u8>) -> Result<bool, AllocError>
    ensures { IfOk result (λ is. positive name.now ≡ (if is then Some form.new.items else None)) }
{
    let [letter, b'n', b'o', b'-', rest @ ..] = name else {
        return Ok(false);
    };
    form.clear();
    form.push(*letter)?;
    form.extend_from_slice(rest)?;
    Ok(true)
}
