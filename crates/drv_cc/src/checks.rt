//! The checks of -fsanitize= (sanitizers), and the libraries that they need.

ghost use Rattle.drv_cc.specs.Checks.{is_check, names_no_check};
ghost use Rattle.drv_cc.specs.Levels.{check_words, checked_by, is_checked, library_word};
ghost use Rattle.drv_cc.specs.Levels.{needs_leak_library, needs_undefined_library, speaks_of};
ghost use Rattle.drv_cc.specs.Levels.{stands_for, ubsan_checks};
ghost use Rattle.drv_cc.specs.Table.{texts};
ghost use Rattle.drv_words.specs.Bytes.{comma};
ghost use Rattle.std.specs.List.{list_any, slice_split};
ghost use Rattle.std.specs.Prelude.{◌≡◌, ◌==◌, ◌++◌, Bool, OnOk, not, unwrap_or};

use crate::classes::{is, stands_in};
use crate::item::Item;
use crate::keeping::has;
use crate::words::add_joined;
use drv_words::{Listing, Word};
use std::alloc::{AllocError, Global};

/// The checks of `undefined` (GCC manual, "Instrumentation Options", -fsanitize=undefined).
const UNDEFINED: &[u8] =
    b"shift-base shift-exponent integer-divide-by-zero unreachable vla-bound return null \
      signed-integer-overflow bool enum bounds alignment nonnull-attribute \
      returns-nonnull-attribute object-size vptr pointer-overflow builtin";

/// The checks that need the library of undefined behaviour.
const UBSAN: &[u8] =
    b"float-divide-by-zero float-cast-overflow bounds-strict shift-base shift-exponent \
      integer-divide-by-zero unreachable vla-bound return null signed-integer-overflow bool enum \
      bounds alignment nonnull-attribute returns-nonnull-attribute object-size vptr \
      pointer-overflow builtin";

/// All checks.
const CHECKS: &[u8] =
    b"address kernel-address hwaddress kernel-hwaddress pointer-compare pointer-subtract thread leak \
      shadow-call-stack undefined shift float-divide-by-zero float-cast-overflow bounds-strict \
      shift-base shift-exponent integer-divide-by-zero unreachable vla-bound return null \
      signed-integer-overflow bool enum bounds alignment nonnull-attribute \
      returns-nonnull-attribute object-size vptr pointer-overflow builtin";

/// Whether an option may have this name between its commas: a check's name, or nothing. The tests
/// are joined without branches, for speed.
fn is_check(option: &[u8], name: &[u8]) -> bool
    ensures { result ≡ is_check option.now name.now }
{
    name.is_empty() | stands_in(CHECKS, name) | (is(option, b"-fno-sanitize=") & is(name, b"all"))
}

/// Whether an option may not have one of the names between its commas.
fn has_no_check(option: &[u8], names: &[u8]) -> bool
    ensures { result ≡ list_any (λ name. not (is_check option.now name))
        (slice_split (λ b. b == comma) names.now) }
{
    names
        .split(|byte| *byte == b',')
        .any(|name| !is_check(option, name))
}

/// Whether an item of -fsanitize= or -fno-sanitize= has a name of no check.
pub(crate) fn names_no_check(item: &Item) -> bool
    ensures { result ≡ names_no_check item.now }
{
    let name = item.name.as_bytes();
    (is(name, b"-fsanitize=") || is(name, b"-fno-sanitize="))
        && has_no_check(name, item.argument.as_bytes())
}

/// Whether a name includes a check. The tests are joined without branches, for speed.
fn stands_for(check: &[u8], name: &[u8]) -> bool
    ensures { result ≡ stands_for check.now name.now }
{
    is(name, check)
        | is(name, b"all")
        | (is(name, b"undefined") & stands_in(UNDEFINED, check))
        | (is(name, b"shift") & stands_in(b"shift-base shift-exponent", check))
        | (is(name, b"bounds-strict") & is(check, b"bounds"))
}

/// Whether one of the names between commas includes a check.
fn speaks_of(check: &[u8], names: &[u8]) -> bool
    ensures { result ≡ speaks_of check.now names.now }
{
    names
        .split(|byte| *byte == b',')
        .any(|name| stands_for(check, name))
}

/// How an item switches a check: on, off, or not at all.
fn turned_by(check: &[u8], item: &Item) -> Option<bool>
    ensures { (before : Bool) → unwrap_or result before ≡ checked_by check.now item.now before }
{
    let name = item.name.as_bytes();
    let argument = item.argument.as_bytes();
    if is(name, b"-fsanitize=") && speaks_of(check, argument) {
        Some(true)
    } else if is(name, b"-fno-sanitize=") && speaks_of(check, argument) {
        Some(false)
    } else {
        None
    }
}

/// Whether a check is on.
fn is_checked(items: &[Item], check: &[u8]) -> bool
    ensures { result ≡ is_checked items.now check.now }
{
    let mut checked = false;
    for item in items {
        checked = turned_by(check, item).unwrap_or(checked);
    }
    checked
}

/// Whether the link needs the library that finds leaks.
fn needs_leak_library(items: &[Item]) -> bool
    ensures { result ≡ needs_leak_library items.now }
{
    is_checked(items, b"leak")
        && !(is_checked(items, b"address")
            || is_checked(items, b"kernel-address")
            || is_checked(items, b"thread"))
}

/// Whether one of the checks of undefined behaviour is on.
fn is_undefined_checked(items: &[Item]) -> bool
    ensures { result ≡ list_any (is_checked items.now) (texts ubsan_checks) }
{
    UBSAN
        .split(|byte| *byte == b' ')
        .any(|check| is_checked(items, check))
}

/// Whether the link needs the library of undefined behaviour.
fn needs_undefined_library(items: &[Item]) -> bool
    ensures { result ≡ needs_undefined_library items.now }
{
    is_undefined_checked(items) && !has(items, b"-fsanitize-undefined-trap-on-error")
}

/// Adds the word of a library if the link needs it.
fn add_library(
    alloc: Global,
    words: &mut Listing<Word>,
    is_needed: bool,
    library: &[u8],
) -> Result<(), AllocError>
    ensures { OnOk result (words.new ≡ words.old ++ library_word is_needed library.now) }
{
    if is_needed {
        add_joined(alloc, words, b"--gdrv-san=", library)?;
    }
    Ok(())
}

/// Adds the words of the libraries that these checks need.
fn add_libraries(alloc: Global, items: &[Item], words: &mut Listing<Word>) -> Result<(), AllocError>
    ensures { OnOk result (words.new ≡ words.old ++ check_words items.now) }
{
    add_library(alloc, words, is_checked(items, b"address"), b"asan")?;
    add_library(alloc, words, is_checked(items, b"hwaddress"), b"hwasan")?;
    add_library(alloc, words, is_checked(items, b"thread"), b"tsan")?;
    add_library(alloc, words, needs_leak_library(items), b"lsan")?;
    add_library(alloc, words, needs_undefined_library(items), b"ubsan")?;
    Ok(())
}

/// Adds the words of the libraries that checks need.
#[tactic(auto, using(crate::proofs::NoChecks::none_needed))]
pub(crate) fn add_check_words(
    alloc: Global,
    items: &[Item],
    words: &mut Listing<Word>,
) -> Result<(), AllocError>
    ensures { OnOk result (words.new ≡ words.old ++ check_words items.now) }
{
    if has(items, b"-fsanitize=") {
        add_libraries(alloc, items, words)
    } else {
        Ok(())
    }
}
