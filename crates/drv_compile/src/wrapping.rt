//! The wrapper of a line.

ghost use Rattle.drv_compile.specs.Wrapper.{wrapper_mark, wrapper_of};
ghost use Rattle.std.specs.List.{starts_with};
ghost use Rattle.std.specs.Prelude.{◌≡◌, drop, length, nat_eq};

use crate::compilers::rest_of;
use drv_args::Item;

/// How the items begin that the front has for the words of a wrapper.
const MARK: &[u8] = b"--gdrv-wrapper=";

/// Whether an item is a word of a wrapper.
fn is_wrapper(item: &Item) -> bool
    ensures { result ≡ starts_with nat_eq item.now.option wrapper_mark }
{
    item.option.as_bytes().starts_with(MARK)
}

/// The word of a wrapper that an item is.
fn word_of(item: &Item) -> &[u8]
    ensures { result.now ≡ drop (length wrapper_mark) item.now.option }
{
    rest_of(MARK, item.option.as_bytes())
}

/// The program under which each command of a line is started (GCC manual, "Overall Options",
/// `-wrapper`), by the items of the driver's line. It is empty if the line has none.
pub(crate) fn wrapper_of(items: &[Item]) -> &[u8]
    ensures { result.now ≡ wrapper_of items.now }
{
    for item in items {
        if is_wrapper(item) {
            return word_of(item);
        }
    }
    &[]
}
