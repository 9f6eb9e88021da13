//! The row of a line for its machine, for which the host is asked where the file lacks it.

// In clauses: `Noted before after P` says that the host was asked, and that P holds of these
// events.
ghost use Rattle.drv_compile.specs.Inputs.{Noted};
ghost use Rattle.drv_compile.specs.Machines.{RowAsked};
ghost use Rattle.std.specs.Option.{option_copied};
ghost use Rattle.std.specs.Prelude.{IfOk};

use crate::host::Host;
use crate::machines::{LineRow, options_of, row_among, row_of};
use drv_args::Item;
use drv_system::System;
use drv_words::Word;
use std::alloc::{AllocError, Global};

/// The row of a line by the text of the file beside the spec file, if that is whole. Where it has
/// rows and lacks the line's, the host asks the compiler of the spec file.
pub(crate) fn row_asked<S: System, H: Host<S>>(
    alloc: Global,
    specs: &Word,
    text: Option<&[u8]>,
    items: &[Item],
    host: &mut H,
) -> Result<LineRow, AllocError>
    ensures { Noted (H.notes host.old) (H.notes host.new)
        (λ events. IfOk result (λ row. RowAsked specs.now (option_copied text.entry) items.now
        events row)) }
{
    match row_of(alloc, text, items)? {
        LineRow::Unneeded => Ok(LineRow::Unneeded),
        LineRow::Found(row) => Ok(LineRow::Found(row)),
        LineRow::Missing(key) => {
            let key = key.as_bytes();
            let options = options_of(alloc, key)?;
            let answer = host.row_of(specs, &options)?;
            row_among(alloc, answer.as_bytes(), key)
        }
    }
}
