//! The items of a line by the names of the compiler's options, and which of these names are kept.

// In clauses: `Extends F G` says that G has every answer of F. `Asked` says that a call only asked,
// and that the table has the answers. `Tells` says that a result is that of a definition, by any
// facts that extend what is known.
ghost use Rattle.drv_cc.specs.Items.{items_of};
ghost use Rattle.drv_compile.specs.Beside.{bytes_read, known_names};
ghost use Rattle.drv_compile.specs.Code.Naming.{items_at, items_beside, items_named};
ghost use Rattle.drv_compile.specs.Reading.{kept, names_specs, reads_again};
ghost use Rattle.drv_compile.specs.Written.{whole_lines};
ghost use Rattle.drv_search.specs.Code.Telling.{Tells};
ghost use Rattle.drv_system.specs.Asking.{Extends};
ghost use Rattle.drv_system.specs.Code.Asked.{Asked};
ghost use Rattle.drv_system.specs.Facts.{Facts};
ghost use Rattle.drv_system.specs.Known.{Is};
ghost use Rattle.std.specs.List.{list_any};
ghost use Rattle.std.specs.Option.{option_and_then, unwrap_or};
ghost use Rattle.std.specs.Prelude.{◌≡◌, [], IfOk, List, None, Some, ℕ};

use crate::finding::{is_plain, known_names};
use crate::places::companion;
use crate::reading::spec_of;
use crate::written::whole_lines;
use drv_args::Item;
use drv_cc::{Answer, Items};
use drv_system::{Outside, ReadAnswer, System};
use drv_words::Word;
use std::alloc::{AllocError, Global};

/// The items of a line by the names of options in a file that was read, if that is whole. The names
/// aren't copied.
fn items_in(alloc: Global, items: Items, answer: &ReadAnswer) -> Result<Option<Items>, AllocError>
    ensures { (words : List (List ℕ)) → items ≡ items_of [] None words → IfOk result (λ named.
        named ≡ items_named words (option_and_then whole_lines (bytes_read answer.now))) }
{
    let ReadAnswer::Read(text) = answer else {
        return Ok(None);
    };
    match whole_lines(text.as_bytes()) {
        Some(names) => Ok(Some(items.with_names(alloc, names)?)),
        None => Ok(None),
    }
}

/// The items of a line by the names of options in the file at a path, if that is a plain file and
/// whole.
fn items_at<S: System>(
    alloc: Global,
    path: &Word,
    items: Items,
    outside: &mut Outside<'_, S>,
) -> Result<Option<Items>, AllocError>
    ensures asks { Asked S.events outside.old outside.new }
    ensures items { (words : List (List ℕ)) → items ≡ items_of [] None words
        → Tells outside.new result (λ F. items_at F path.now words) }
{
    let kind = outside.facts.kind(outside.sys, path)?;
    if is_plain(kind) {
        outside.facts.read(outside.sys, path)?;
        return items_in(alloc, items, outside.facts.read_answer(path));
    }
    Ok(None)
}

/// The items of a line, which were read without names of options, by those of the compiler. There
/// are none if the file beside the spec file that has the names isn't whole.
pub(crate) fn items_beside<S: System>(
    alloc: Global,
    specs: &[u8],
    items: Items,
    outside: &mut Outside<'_, S>,
) -> Result<Option<Items>, AllocError>
    ensures asks { Asked S.events outside.old outside.new }
    ensures items { (words : List (List ℕ)) → items ≡ items_of [] None words
        → Tells outside.new result (λ F. items_beside F specs.now words) }
{
    let path = companion(alloc, specs, b".options")?;
    items_at(alloc, &path, items, outside)
}

/// Whether an item names a spec file.
fn names_specs(item: &Item) -> bool
    ensures { result ≡ names_specs item.now }
{
    spec_of(item).is_some()
}

/// Whether some item names a spec file.
fn any_names_specs(items: &[Item]) -> bool
    ensures { result ≡ list_any names_specs items.now }
{
    items.iter().any(names_specs)
}

/// Whether the names of options are read again after this answer.
fn reads_again(answer: &Answer) -> bool
    ensures { result ≡ reads_again answer.now }
{
    match answer {
        Answer::Ask => false,
        Answer::Refuse(_) => true,
        Answer::Run(call) => any_names_specs(call.items.as_slice()),
    }
}

/// These names, or none.
fn or_none(alloc: Global, names: Option<Word>) -> Word
    ensures { result ≡ unwrap_or names [] }
{
    match names {
        Some(names) => names,
        None => Word::empty(alloc),
    }
}

/// The names of the compiler's options, which are known, if they are read again after this answer.
#[tactic(auto, using(drv_system::proofs::AskedCalls::asked_none))]
pub(crate) fn names_kept<S: System>(
    alloc: Global,
    specs: &[u8],
    answer: &Answer,
    outside: &mut Outside<'_, S>,
) -> Result<Word, AllocError>
    ensures asks { Asked S.events outside.old outside.new }
    ensures names { (F : Facts) → Extends outside.new.facts.now F → (known : List ℕ)
        → known_names F specs.now ≡ Is (Some known)
        → IfOk result (λ names. names ≡ kept answer.now known) }
{
    if !reads_again(answer) {
        return Ok(Word::empty(alloc));
    }
    let names = known_names(alloc, specs, outside)?;
    Ok(or_none(alloc, names))
}
