//! Where a byte of a source is for a reader.

ghost use Rattle.drv_check.specs.Spots.{place_in};
ghost use Rattle.std.specs.Prelude.{◌≡◌, IfOk};

use crate::findings::Source;
use crate::told::Place;
use drv_place::{line_before, line_number};
use std::alloc::AllocError;

/// A byte of a source, by its line and its column (GNU coding standards, "Formatting Error
/// Messages").
pub fn place_in(source: &Source, at: usize) -> Result<Place, AllocError>
    ensures { IfOk result (λ place. place ≡ place_in source.now at) }
{
    let text = source.text.as_bytes();
    Ok(Place {
        file: source.name.clone()?,
        line: line_number(text, at),
        column: line_before(text, at).len() + 1,
    })
}
