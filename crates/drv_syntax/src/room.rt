//! Room in a list.

ghost use Rattle.std.specs.Prelude.{◌≡◌, ◌<◌, OnOk, vec_capacity, vec_len};

use std::alloc::AllocError;

/// Makes room for one more. Most lists have it, which costs less to ask than the call.
#[inline(always)]
pub fn reserve_one<T>(list: &mut Vec<T>) -> Result<(), AllocError>
    ensures items { list.new.items ≡ list.old.items }
    ensures room { OnOk result (vec_len list.new < vec_capacity list.new) }
{
    if list.len() < list.capacity() {
        return Ok(());
    }
    list.reserve(1)
}
