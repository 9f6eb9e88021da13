//! The places of a line by name, and the block that a pattern names.

// In clauses: `IsOrder names order` says that the order is by name, then by place.
ghost use Rattle.drv_match.specs.Matching.{is_named, name_at};
ghost use Rattle.drv_match.specs.Order.{IsBlock, IsOrder};
ghost use Rattle.std.specs.Prelude.{◌≡◌, ◌<◌, IfOk, IsFalse, false, get_or, length, ℕ};

use crate::names::Names;
use crate::pattern::Pattern;
use std::alloc::{AllocError, Global};

/// All places of these names, by name, then by place.
pub fn places_by_name(alloc: Global, names: &Names<'_>) -> Result<Vec<usize>, AllocError>
    ensures { IfOk result (λ order. IsOrder names.now order.items) }
{
    let mut order: Vec<usize> = (0..names.len()).collect(alloc)?;
    order.sort_by(|i, j| names.get(*i).cmp(names.get(*j)))?;
    Ok(order)
}

/// Whether the pattern names the switch at an index of the places by name.
fn is_named_at(names: &Names<'_>, order: &[usize], pattern: &Pattern<'_>, at: usize) -> bool
    ensures { IsFalse result → at < length order.now → (d : ℕ)
        → is_named pattern.now (name_at names.now (get_or order.now at d)) ≡ false }
{
    match order.get(at) {
        Some(place) => pattern.is_named(names.get(*place)),
        None => false,
    }
}

/// The block that the pattern names in the places by name: its start, and the end after it. Most
/// patterns name no switch of a line, which the place where their block would be tells.
pub fn block_of(names: &Names<'_>, order: &[usize], pattern: &Pattern<'_>) -> (usize, usize)
    requires { IsOrder names.now order.now }
    ensures { IsBlock names.now order.now pattern.now result.0 result.1 }
{
    let least = pattern.name;
    let start = order.partition_point(|i| names.get(*i).cmp(least).is_lt());
    if !is_named_at(names, order, pattern, start) {
        return (start, start);
    }
    let end = order.partition_point(|i| {
        let name = names.get(*i);
        name.cmp(least).is_lt() || pattern.is_named(name)
    });
    (start, end)
}
