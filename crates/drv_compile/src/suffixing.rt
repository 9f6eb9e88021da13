//! The names of programs that lines link.

ghost use Rattle.drv_compile.specs.Suffixes.{argument_of, has_dot, is_no_file, is_unlinked};
ghost use Rattle.drv_compile.specs.Suffixes.{name_with_suffix};
ghost use Rattle.drv_compile.specs.Suffixes.{suffixed_by, suffixed_items, with_suffix};
ghost use Rattle.std.specs.List.{list_any};
ghost use Rattle.std.specs.Option.{option_copied};
ghost use Rattle.std.specs.Prelude.{◌≡◌, IfOk};

use crate::compilers::first_value;
use drv_args::{Effect, Item};
use drv_words::{Listing, Word, base};
use std::alloc::{AllocError, Global};

/// Whether a path names no file.
pub(crate) fn is_no_file(path: &[u8]) -> bool
    ensures { result ≡ is_no_file path.now }
{
    path == b"-".as_slice() || path == b"/dev/null".as_slice()
}

/// Whether a name has a dot after its folder.
fn has_dot(path: &[u8]) -> bool
    ensures { result ≡ has_dot path.now }
{
    base(path).iter().any(|byte| *byte == b'.')
}

/// The name of a program with a suffix, if it has none.
fn name_with_suffix(path: &Word, suffix: &[u8]) -> Result<Word, AllocError>
    ensures { IfOk result (λ name. name ≡ name_with_suffix suffix.now path.now) }
{
    let mut name = path.clone()?;
    if !is_no_file(path.as_bytes()) && !has_dot(path.as_bytes()) {
        name.extend_from_slice(suffix)?;
    }
    Ok(name)
}

/// The argument of an item: if it names the output, with a suffix.
fn argument_of(item: &Item, suffix: &[u8]) -> Result<Word, AllocError>
    ensures { IfOk result (λ argument. argument ≡ argument_of suffix.now item.now) }
{
    match item.effect {
        Effect::Output => name_with_suffix(&item.argument, suffix),
        _ => item.argument.clone(),
    }
}

/// Whether an option leaves out the link.
fn is_unlinked(item: &Item) -> bool
    ensures { result ≡ is_unlinked item.now }
{
    let option = item.option.as_bytes();
    option == b"-c".as_slice() || option == b"-S".as_slice() || option == b"-E".as_slice()
}

/// Whether an option of a line leaves out the link.
fn are_unlinked(items: &[Item]) -> bool
    ensures { result ≡ list_any is_unlinked items.now }
{
    items.iter().any(is_unlinked)
}

/// An item, if it names the output with a suffix there.
fn with_suffix(item: &Item, suffix: &[u8]) -> Result<Item, AllocError>
    ensures { IfOk result (λ made. made ≡ with_suffix suffix.now item.now) }
{
    Ok(Item {
        effect: item.effect,
        option: item.option.clone()?,
        argument: argument_of(item, suffix)?,
    })
}

/// The items of a line, the name of the program that it links with this suffix.
fn suffixed_items(
    alloc: Global,
    suffix: &[u8],
    items: Listing<Item>,
) -> Result<Listing<Item>, AllocError>
    ensures { IfOk result (λ made. made ≡ suffixed_items suffix.now items) }
{
    if are_unlinked(items.as_slice()) {
        return Ok(items);
    }
    let mut made = Listing::new(alloc);
    for item in items.as_slice() {
        made.push(with_suffix(item, suffix)?)?;
    }
    Ok(made)
}

/// The items of a line, the name of the program that it links with the suffix that a text names, if
/// it names one.
pub(crate) fn suffixed_by(
    alloc: Global,
    text: Option<&[u8]>,
    items: Listing<Item>,
) -> Result<Listing<Item>, AllocError>
    ensures { IfOk result (λ made. made ≡ suffixed_by (option_copied text.entry) items) }
{
    let Some(text) = text else {
        return Ok(items);
    };
    match first_value(alloc, b"suffix ", text)? {
        Some(suffix) => suffixed_items(alloc, suffix.as_bytes(), items),
        None => Ok(items),
    }
}
