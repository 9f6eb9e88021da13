//! Which stages a line has.

ghost use Rattle.drv_cc.specs.Front.{ends_as_source, is_c_alone, is_checking, is_other_file};
ghost use Rattle.drv_cc.specs.Front.{is_source_file, is_unlinked, preprocesses, stages};
ghost use Rattle.std.specs.List.{list_any};
ghost use Rattle.std.specs.Prelude.{◌≡◌};

use crate::Stages;
use crate::classes::is;
use crate::item::Item;
use crate::keeping::has;
use crate::sources::is_file;

/// Whether an option leaves the link out.
fn is_unlinked(item: &Item) -> bool
    ensures { result ≡ is_unlinked item.now }
{
    let name = item.name.as_bytes();
    is(name, b"-c")
        || is(name, b"-S")
        || is(name, b"-E")
        || is(name, b"-M")
        || is(name, b"-MM")
        || is(name, b"-fsyntax-only")
}

/// Whether one of the options leaves the link out.
fn has_unlinked(items: &[Item]) -> bool
    ensures { result ≡ list_any is_unlinked items.now }
{
    items.iter().any(is_unlinked)
}

/// Whether a name has the suffix of a source.
fn ends_as_source(name: &[u8]) -> bool
    ensures { result ≡ ends_as_source name.now }
{
    name.ends_with(b".c")
        || name.ends_with(b".i")
        || name.ends_with(b".h")
        || name.ends_with(b".s")
        || name.ends_with(b".S")
        || name.ends_with(b".sx")
}

/// Whether an item is a file with the suffix of a source.
fn is_source_file(item: &Item) -> bool
    ensures { result ≡ is_source_file item.now }
{
    is_file(item) && ends_as_source(item.name.as_bytes())
}

/// Whether a file has the suffix of a source.
fn has_source_file(items: &[Item]) -> bool
    ensures { result ≡ list_any is_source_file items.now }
{
    items.iter().any(is_source_file)
}

/// Whether an item is a source of another language than C, or standard input.
fn is_other_file(item: &Item) -> bool
    ensures { result ≡ is_other_file item.now }
{
    let name = item.name.as_bytes();
    is_file(item) && ((ends_as_source(name) && !name.ends_with(b".c")) || is(name, b"-"))
}

/// Whether some item is a source of another language than C, or standard input.
fn has_other_file(items: &[Item]) -> bool
    ensures { result ≡ list_any is_other_file items.now }
{
    items.iter().any(is_other_file)
}

/// Whether an option asks for the preprocessor alone.
fn preprocesses(item: &Item) -> bool
    ensures { result ≡ preprocesses item.now }
{
    let name = item.name.as_bytes();
    is(name, b"-E") || is(name, b"-M") || is(name, b"-MM")
}

/// Whether some option asks for the preprocessor alone.
pub(crate) fn has_preprocessing(items: &[Item]) -> bool
    ensures { result ≡ list_any preprocesses items.now }
{
    items.iter().any(preprocesses)
}

/// Whether each source is of C, and is compiled.
fn is_c_alone(items: &[Item]) -> bool
    ensures { result ≡ is_c_alone items.now }
{
    !has(items, b"-x") && !(has_other_file(items) || has_preprocessing(items))
}

/// Whether a link may have the library of a check.
fn is_checking(items: &[Item]) -> bool
    ensures { result ≡ is_checking items.now }
{
    has(items, b"-fsanitize=")
}

/// The stages of a line.
pub(crate) fn stages(items: &[Item]) -> Stages
    ensures { result ≡ stages items.now }
{
    if has_unlinked(items) {
        if is_c_alone(items) {
            Stages::SourcesOfC
        } else {
            Stages::Sources
        }
    } else if is_checking(items) {
        Stages::All
    } else if has(items, b"-x") || has_source_file(items) {
        if is_c_alone(items) {
            Stages::AllOfC
        } else {
            Stages::All
        }
    } else {
        Stages::Link
    }
}
