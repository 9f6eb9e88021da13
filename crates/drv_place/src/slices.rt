//! The first items of a list, what follows them, and one of them.

ghost use Rattle.std.specs.Prelude.{◌≡◌, ◌≤◌, drop, get_or, length, take};

/// The first items of a list: so many, or all that there are.
pub fn first_of<T>(items: &[T], count: usize) -> &[T]
    ensures is { result.now ≡ take count items.now }
    ensures within { length result.now ≤ length items.now }
{
    if count <= items.len() {
        &items[..count]
    } else {
        items
    }
}

/// What follows so many items of a list.
pub fn after_first<T>(items: &[T], count: usize) -> &[T]
    ensures { result.now ≡ drop count items.now }
{
    if count <= items.len() {
        &items[count..]
    } else {
        &[]
    }
}

/// The number with this index in a list, or another one where there is none.
pub fn item_or(numbers: &[usize], index: usize, other: usize) -> usize
    ensures { result ≡ get_or numbers.now index other }
{
    numbers.get(index).copied().unwrap_or(other)
}
