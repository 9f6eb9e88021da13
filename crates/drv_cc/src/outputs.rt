//! The files that a line writes.

ghost use Rattle.drv_cc.specs.Code.Building.{kinds_shown};
ghost use Rattle.drv_cc.specs.Front.{default_outputs, outputs, with_end};
ghost use Rattle.drv_cc.specs.SideFiles.{sources};
ghost use Rattle.std.specs.Prelude.{◌≡◌, ◌∷◌, [], IfOk, map};

use crate::item::Item;
use crate::keeping::{has, last_argument};
use crate::sources::{Kinds, is_file, language_by};
use crate::stages::has_preprocessing;
use drv_words::{Listing, Word, stem};
use std::alloc::{AllocError, Global};

/// The name of a source's output, which ends so, in the folder of the call.
fn with_end(alloc: Global, end: &[u8], name: &[u8]) -> Result<Word, AllocError>
    ensures { IfOk result (λ output. output ≡ with_end end.now name.now) }
{
    let mut output = Word::from_bytes(alloc, stem(name))?;
    output.extend_from_slice(end)?;
    Ok(output)
}

/// The outputs of the sources of these kinds, whose names end so.
fn source_outputs(
    alloc: Global,
    kinds: Kinds,
    end: &[u8],
    items: &[Item],
) -> Result<Listing<Word>, AllocError>
    ensures { IfOk result (λ names. names
        ≡ map (with_end end.now) (sources (kinds_shown kinds) items.now)) }
{
    let mut names = Listing::new(alloc);
    let mut language: &[u8] = &[];
    for item in items {
        let name = item.name.as_bytes();
        if is_file(item) && kinds.is_source(language, name) {
            names.push(with_end(alloc, end, name)?)?;
        }
        language = language_by(language, item);
    }
    Ok(names)
}

/// The list of one output.
fn one_output(alloc: Global, name: &[u8]) -> Result<Listing<Word>, AllocError>
    ensures { IfOk result (λ names. names ≡ name.now ∷ []) }
{
    let mut names = Listing::new(alloc);
    names.push(Word::from_bytes(alloc, name)?)?;
    Ok(names)
}

/// The files that a line writes where no `-o` names one.
fn default_outputs(alloc: Global, items: &[Item]) -> Result<Listing<Word>, AllocError>
    ensures { IfOk result (λ names. names ≡ default_outputs items.now) }
{
    if has_preprocessing(items) || has(items, b"-fsyntax-only") {
        Ok(Listing::new(alloc))
    } else if has(items, b"-S") {
        source_outputs(alloc, Kinds::Compiled, b".s", items)
    } else if has(items, b"-c") {
        source_outputs(alloc, Kinds::Assembled, b".o", items)
    } else {
        one_output(alloc, b"a.out")
    }
}

/// The files that a line writes (GCC manual, "Overall Options", -o): the one that the last `-o`
/// names, or else one for each source, or the program.
pub(crate) fn outputs(alloc: Global, items: &[Item]) -> Result<Listing<Word>, AllocError>
    ensures { IfOk result (λ names. names ≡ outputs items.now) }
{
    match last_argument(items, b"-o") {
        Some(path) => one_output(alloc, path),
        None => default_outputs(alloc, items),
    }
}
