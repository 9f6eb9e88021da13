//! The file that has the texts for a line.

// In clauses: `Asked` says that a call only asked, and that the table has the answers. `Tells` says
// that a result is that of a definition, by any facts that extend what is known.
ghost use Rattle.drv_compile.specs.Parts.{texts_at, texts_if, texts_of};
ghost use Rattle.drv_search.specs.Code.Telling.{Tells};
ghost use Rattle.drv_system.specs.Code.Asked.{Asked};
ghost use Rattle.std.specs.Prelude.{◌≡◌, IfOk};

use crate::finding::is_written;
use crate::places::{part_or_whole, texts_for};
use drv_args::Item;
use drv_cc::Stages;
use drv_system::{Outside, System};
use drv_words::Word;
use std::alloc::{AllocError, Global};

/// The file that has the texts for a line.
#[derive(Drop)]
pub(crate) enum Texts {
    /// It is whole.
    Whole(Word),
    /// It is missing or not whole.
    Damaged(Word),
}

/// The file at a path, if it is whole.
fn texts_if(path: Word, is_whole: bool) -> Texts
    ensures { result ≡ texts_if path is_whole }
{
    if is_whole {
        Texts::Whole(path)
    } else {
        Texts::Damaged(path)
    }
}

/// The file at a path, and whether it is whole.
fn texts_at<S: System>(path: Word, outside: &mut Outside<'_, S>) -> Result<Texts, AllocError>
    ensures asks { Asked S.events outside.old outside.new }
    ensures texts { Tells outside.new result (λ F. texts_at F path) }
{
    let is_whole = is_written(&path, outside)?;
    Ok(texts_if(path, is_whole))
}

/// The file that has the texts for a line with these items and stages: the spec file, or a part of
/// it beside it. It asks the system only where the table has no answer.
#[tactic(auto, using(drv_system::proofs::AskedCalls::asked_further))]
pub(crate) fn texts_asked<S: System>(
    alloc: Global,
    specs: &[u8],
    items: &[Item],
    stages: Stages,
    outside: &mut Outside<'_, S>,
) -> Result<Texts, AllocError>
    ensures asks { Asked S.events outside.old outside.new }
    ensures texts { Tells outside.new result (λ F. texts_of F specs.now items.now stages) }
{
    let part = texts_for(alloc, specs, items, stages)?;
    let kind = outside.facts.kind(outside.sys, &part)?;
    let path = Word::from_bytes(alloc, part_or_whole(specs, part.as_bytes(), kind))?;
    texts_at(path, outside)
}
