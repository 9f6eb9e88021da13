//! The folder of side files that options name.

ghost use Rattle.drv_cc.specs.Kept.{last_argument};
ghost use Rattle.drv_cc.specs.SideFiles.{given_after, given_from, here_from, is_no_file};
ghost use Rattle.drv_cc.specs.SideFiles.{is_place};
ghost use Rattle.std.specs.Option.{option_map};
ghost use Rattle.std.specs.Prelude.{◌≡◌, None, codes, false, if◌then◌else◌};

use crate::classes::is;
use crate::item::Item;
use crate::keeping::last_argument;

/// Whether an option says where -save-temps keeps files.
fn is_place(name: &[u8]) -> bool
    ensures { result ≡ is_place name.now }
{
    is(name, b"-save-temps=cwd") || is(name, b"-save-temps=obj")
}

/// Whether the last such option says that they stay in the folder of the call.
pub(crate) fn stay_here(items: &[Item]) -> bool
    ensures { result ≡ here_from false items.now }
{
    let mut here = false;
    for item in items {
        let name = item.name.as_bytes();
        if is_place(name) {
            here = is(name, b"-save-temps=cwd");
        }
    }
    here
}

/// The folder that is given after an item.
fn given_after<'a>(own: &'a [u8], given: Option<&'a [u8]>, item: &'a Item) -> Option<&'a [u8]>
    ensures { option_map (λ folder. folder.now) result
        ≡ given_after own.now (option_map (λ folder. folder.now) given.entry) item.now }
{
    let name = item.name.as_bytes();
    if is(name, b"-dumpdir") {
        Some(item.argument.as_bytes())
    } else if is_place(name) && given.is_some() {
        Some(own)
    } else {
        given
    }
}

/// The folder that items give for an output that is a file: that of -dumpdir, or one's own where an
/// option after it says where -save-temps keeps files.
fn last_folder<'a>(own: &'a [u8], items: &'a [Item]) -> Option<&'a [u8]>
    ensures { option_map (λ folder. folder.now) result ≡ given_from own.now None items.now }
{
    let mut given = None;
    for item in items {
        given = given_after(own, given, item);
    }
    given
}

/// Whether an output is no file.
fn is_no_file(output: Option<&[u8]>) -> bool
    ensures { result ≡ is_no_file (option_map (λ name. name.now) output.entry) }
{
    match output {
        Some(output) => is(output, b"-") || is(output, b"/dev/null"),
        None => false,
    }
}

/// The folder that options of a line give, whose own one is this.
pub(crate) fn placed_folder<'a>(own: &'a [u8], items: &'a [Item]) -> Option<&'a [u8]>
    ensures { option_map (λ folder. folder.now) result
        ≡ (if is_no_file (last_argument (codes "-o") items.now)
        then last_argument (codes "-dumpdir") items.now
        else given_from own.now None items.now) }
{
    if is_no_file(last_argument(items, b"-o")) {
        last_argument(items, b"-dumpdir")
    } else {
        last_folder(own, items)
    }
}
