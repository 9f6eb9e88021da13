//! The place of the spec file, and of the files beside it.

ghost use Rattle.drv_compile.specs.Places.{above, beside, companion, is_begun, is_native};
ghost use Rattle.drv_compile.specs.Places.{path_of_caller};
ghost use Rattle.drv_compile.specs.Places.{is_rooted, may_link, part_or_whole, texts_by, texts_for};
ghost use Rattle.drv_compile.specs.Places.{wants_whole, whole_options};
ghost use Rattle.drv_cc.specs.Items.{is_among};
ghost use Rattle.std.specs.List.{list_any};
ghost use Rattle.std.specs.Prelude.{◌≡◌, ◌++◌, IfOk, OnOk};

use crate::calling::{before_ending, folder};
use drv_args::Item;
use drv_cc::Stages;
use drv_system::PathKind;
use drv_words::Word;
use std::alloc::{AllocError, Global};

/// Two texts as one word.
fn join(alloc: Global, first: &[u8], second: &[u8]) -> Result<Word, AllocError>
    ensures { IfOk result (λ word. word ≡ first.now ++ second.now) }
{
    let mut word = Word::from_bytes(alloc, first)?;
    word.extend_from_slice(second)?;
    Ok(word)
}

/// The folder that a folder is in, each with a slash at its end. The root is in itself.
fn above(path: &[u8]) -> &[u8]
    ensures { result.now ≡ above path.now }
{
    match &path[..path.len().saturating_sub(1)] {
        [] => path,
        unslashed => folder(unslashed),
    }
}

/// The spec file of a machine, in `share/gdrv` beside the folder of the program at this path, which
/// is absolute.
pub fn beside(alloc: Global, program: &[u8], machine: &[u8]) -> Result<Word, AllocError>
    ensures { IfOk result (λ path. path ≡ beside program.now machine.now) }
{
    let mut path = join(alloc, above(folder(program)), b"share/gdrv/")?;
    path.extend_from_slice(machine)?;
    path.extend_from_slice(b".specs")?;
    Ok(path)
}

/// A path that the caller gives: without a folder it lies in the folder of the call.
pub(crate) fn path_of_caller(alloc: Global, path: &[u8]) -> Result<Word, AllocError>
    ensures { IfOk result (λ word. word ≡ path_of_caller path.now) }
{
    if path.contains(&b'/') {
        return Word::from_bytes(alloc, path);
    }
    join(alloc, b"./", path)
}

/// The file of another ending beside a spec file.
pub fn companion(alloc: Global, path: &[u8], ending: &[u8]) -> Result<Word, AllocError>
    ensures { IfOk result (λ word. word ≡ companion path.now ending.now) }
{
    match before_ending(b".specs", path) {
        Some(stem) => join(alloc, stem, ending),
        None => join(alloc, path, ending),
    }
}

/// Whether an option asks for what the whole spec file alone has.
fn is_whole_option(option: &[u8]) -> bool
    ensures { result ≡ is_among whole_options option.now }
{
    option == b"-specs=".as_slice()
        || option == b"-save-temps".as_slice()
        || option == b"-save-temps=cwd".as_slice()
        || option == b"-save-temps=obj".as_slice()
        || option == b"-gsplit-dwarf".as_slice()
        || option == b"-traditional".as_slice()
        || option == b"-traditional-cpp".as_slice()
        || option == b"-no-integrated-cpp".as_slice()
        || option == b"-m32".as_slice()
        || option == b"-mx32".as_slice()
        || option == b"-m16".as_slice()
}

/// Whether an item asks for what the machine of the call has.
fn is_native(item: &Item) -> bool
    ensures { result ≡ is_native item.now }
{
    let option = item.option.as_bytes();
    (option == b"-march=".as_slice() || option == b"-mtune=".as_slice())
        && item.argument.as_bytes() == b"native".as_slice()
}

/// Whether an option begins as one that asks for what the whole spec file alone has.
fn is_begun(option: &[u8]) -> bool
    ensures { result ≡ is_begun option.now }
{
    option.starts_with(b"-gz=")
        || option.starts_with(b"--gdrv-wrapper=")
        || option.starts_with(b"--gdrv-path=")
}

/// Whether an item asks for the whole spec file.
fn wants_whole(item: &Item) -> bool
    ensures { result ≡ wants_whole item.now }
{
    is_whole_option(item.option.as_bytes()) || is_native(item) || is_begun(item.option.as_bytes())
}

/// Whether some item asks for the whole spec file.
fn any_wants_whole(items: &[Item]) -> bool
    ensures { result ≡ list_any wants_whole items.now }
{
    items.iter().any(wants_whole)
}

/// Whether an item names a folder in place of the root.
fn is_rooted(item: &Item) -> bool
    ensures { result ≡ is_rooted item.now }
{
    item.option.as_bytes() == b"--sysroot=".as_slice()
}

/// Whether some item names a folder in place of the root.
fn are_rooted(items: &[Item]) -> bool
    ensures { result ≡ list_any is_rooted items.now }
{
    items.iter().any(is_rooted)
}

/// Whether a line may have a link.
pub(crate) fn may_link(stages: Stages) -> bool
    ensures { result ≡ may_link stages }
{
    matches!(stages, Stages::Link | Stages::AllOfC | Stages::All)
}

/// The file that has the texts for these stages.
fn texts_by(alloc: Global, specs: &[u8], stages: Stages) -> Result<Word, AllocError>
    ensures { IfOk result (λ path. path ≡ texts_by specs.now stages) }
{
    match stages {
        Stages::SourcesOfC => companion(alloc, specs, b".c.compile"),
        Stages::Sources => companion(alloc, specs, b".compile"),
        Stages::Link => companion(alloc, specs, b".link"),
        Stages::AllOfC => companion(alloc, specs, b".c.all"),
        Stages::All => companion(alloc, specs, b".all"),
    }
}

/// The file that has the texts for a line with these items and stages: the spec file, or a part of
/// it beside it.
pub(crate) fn texts_for(
    alloc: Global,
    specs: &[u8],
    items: &[Item],
    stages: Stages,
) -> Result<Word, AllocError>
    ensures { IfOk result (λ path. path ≡ texts_for specs.now items.now stages) }
{
    if any_wants_whole(items) || (may_link(stages) && are_rooted(items)) {
        return Word::from_bytes(alloc, specs);
    }
    texts_by(alloc, specs, stages)
}

/// The spec file, or the part of it at a path where there is one.
pub(crate) fn part_or_whole<'a>(specs: &'a [u8], path: &'a [u8], kind: PathKind) -> &'a [u8]
    ensures { result.now ≡ part_or_whole specs.now path.now kind }
{
    match kind {
        PathKind::Plain => path,
        PathKind::Dir | PathKind::Other | PathKind::Missing => specs,
    }
}
