//! Whether the compiler of a spec file is as it was when that file was written.

// In clauses: `Noted before after P` says that the host was asked, and that P holds of these
// events.
ghost use Rattle.drv_compile.specs.Inputs.{Noted};
ghost use Rattle.drv_compile.specs.Stamps.{AnyOther, IsOther, IsStale};
ghost use Rattle.std.specs.Prelude.{IfOk};

use crate::compilers::values;
use crate::host::Host;
use drv_system::System;
use drv_words::{Word, split_at_last};
use std::alloc::{AllocError, Global};

/// Whether the file of a stamp has another stamp by now.
fn is_other<S: System, H: Host<S>>(
    alloc: Global,
    line: &[u8],
    host: &mut H,
) -> Result<bool, AllocError>
    ensures { Noted (H.notes host.old) (H.notes host.new)
        (λ events. IfOk result (λ other. IsOther line.now events other)) }
{
    let Some((path, stamp)) = split_at_last(b' ', line) else {
        return Ok(false);
    };
    let path = Word::from_bytes(alloc, path)?;
    let found = host.stamp_of(&path)?;
    Ok(found.as_bytes() != stamp)
}

/// Whether the file of one of these stamps has another one by now. The host is asked up to the
/// first that has.
fn any_other<S: System, H: Host<S>>(
    alloc: Global,
    stamps: &[Word],
    host: &mut H,
) -> Result<bool, AllocError>
    ensures { Noted (H.notes host.old) (H.notes host.new)
        (λ events. IfOk result (λ other. AnyOther stamps.now events other)) }
{
    for stamp in stamps {
        if is_other(alloc, stamp.as_bytes(), host)? {
            return Ok(true);
        }
    }
    Ok(false)
}

/// Whether a file of the compiler that a text is about is another than when the text was written.
pub(crate) fn is_stale<S: System, H: Host<S>>(
    alloc: Global,
    about: &[u8],
    host: &mut H,
) -> Result<bool, AllocError>
    ensures { Noted (H.notes host.old) (H.notes host.new)
        (λ events. IfOk result (λ stale. IsStale about.now events stale)) }
{
    let stamps = values(alloc, b"stamp ", about)?;
    any_other(alloc, stamps.as_slice(), host)
}
