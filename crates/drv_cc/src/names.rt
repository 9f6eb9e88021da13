//! The folder and the suffix of a file's name. Neither takes memory.

ghost use Rattle.drv_cc.specs.SideFiles.{folder, suffix};
ghost use Rattle.std.specs.Prelude.{◌≡◌};

use crate::reading::rest_after;
use drv_words::{base, stem};

/// A name's folder with its slash; empty where it has none.
pub(crate) fn folder(name: &[u8]) -> &[u8]
    ensures { result.now ≡ folder name.now }
{
    &name[..name.len().saturating_sub(base(name).len())]
}

/// A name's last suffix with its period, which doesn't count in first place; empty where it has
/// none.
pub(crate) fn suffix(name: &[u8]) -> &[u8]
    ensures { result.now ≡ suffix name.now }
{
    rest_after(base(name), stem(name))
}
