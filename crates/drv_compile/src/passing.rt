//! The libraries of a link, which the linker's plugin gets in other words.

// In clauses: `Extends F G` says that G has every answer of F. `Asked` says that a call only asked,
// and that the table has the answers. `GivesKnown` says that a result is the one defined over the
// facts, or lack of memory.
ghost use Rattle.drv_args.specs.declared.option_table.Effect.TheVariants as effect;
ghost use Rattle.drv_cc.specs.LineItems.{alone};
ghost use Rattle.drv_compile.specs.Passed.{is_library, is_lone, libraries, library_words, line_by, line_passed};
ghost use Rattle.drv_compile.specs.Passed.{passed_items, passed_switch};
ghost use Rattle.drv_compile.specs.SelfSpecs.{Ended};
ghost use Rattle.drv_compile.specs.declared.self_specs.Worked.{Worked};
ghost use Rattle.drv_run.specs.declared.ending.Ending.TheVariants as ending;
ghost use Rattle.drv_system.specs.Asking.{Extends};
ghost use Rattle.drv_system.specs.Code.Asked.{Asked};
ghost use Rattle.drv_system.specs.Facts.{Facts};
ghost use Rattle.drv_system.specs.Gives.{GivesKnown};
ghost use Rattle.drv_system.specs.Known.{Is};
ghost use Rattle.std.specs.Prelude.{◌≡◌, ◌∷◌, ◌++◌, ◌≤◌, [], IfOk, Ok, OnOk, length, map};

use crate::running::DriverLine;
use crate::self_specs::{Worked, count_specs, text_worked};
use drv_args::{Effect, Item};
use drv_run::Ending;
use drv_system::{Outside, System};
use drv_words::{Listing, Word};
use std::alloc::{AllocError, Global};

/// Whether a word is `-l` alone, whose library is the next word.
fn is_lone(word: &[u8]) -> bool
    ensures { result ≡ is_lone word.now }
{
    word == b"-l".as_slice()
}

/// Whether a word by itself is a library, or an archive.
fn is_library(word: &[u8]) -> bool
    ensures { result ≡ is_library word.now }
{
    word.starts_with(b"-l") && !is_lone(word) || word.ends_with(b".a")
}

/// Adds a word, if it is a library by itself.
fn push_library(found: &mut Listing<Word>, word: &Word) -> Result<(), AllocError>
    ensures { OnOk result (found.new ≡ found.old ++ library_words word.now) }
{
    if is_library(word.as_bytes()) {
        found.push(word.clone()?)?;
    }
    Ok(())
}

/// Adds the library of an `-l` and the word after it.
fn push_joined(found: &mut Listing<Word>, lone: &Word, word: &Word) -> Result<(), AllocError>
    ensures { OnOk result (found.new ≡ found.old ++ (lone.now ++ word.now) ∷ []) }
{
    let mut library = lone.clone()?;
    library.extend_from_slice(word.as_bytes())?;
    found.push(library)?;
    Ok(())
}

/// Adds the library that begins with this word, if one does, and gives the words behind it.
fn push_first<'w>(
    found: &mut Listing<Word>,
    word: &Word,
    after: &'w [Word],
) -> Result<&'w [Word], AllocError>
    ensures goes { IfOk result (λ left. found.new ++ libraries left.now
        ≡ found.old ++ libraries (word.now ∷ after.now)) }
    ensures shorter { IfOk result (λ left. length left.now ≤ length after.now) }
{
    let [next, left @ ..] = after else {
        push_library(found, word)?;
        return Ok(after);
    };
    if is_lone(word.as_bytes()) {
        push_joined(found, word, next)?;
        return Ok(left);
    }
    push_library(found, word)?;
    Ok(after)
}

/// The libraries among the words of a link.
fn libraries(alloc: Global, words: &[Word]) -> Result<Listing<Word>, AllocError>
    ensures { IfOk result (λ found. found ≡ libraries words.now) }
{
    let mut found = Listing::new(alloc);
    let mut left = words;
    while let [word, after @ ..] = left {
        left = push_first(&mut found, word, after)?;
    }
    Ok(found)
}

/// A switch of this name.
fn switch(alloc: Global, option: Word) -> Item
    ensures { result ≡ alone effect.Switch option }
{
    Item {
        effect: Effect::Switch,
        option,
        argument: Word::empty(alloc),
    }
}

/// The switch by which the texts know a library.
#[tactic(auto, unfolding(crate::specs::Passed::passed_switch))]
fn passed_switch(alloc: Global, library: &[u8]) -> Result<Item, AllocError>
    ensures { IfOk result (λ item. item ≡ passed_switch library.now) }
{
    let mut option = Word::from_bytes(alloc, b"--gdrv-pass=")?;
    option.extend_from_slice(library)?;
    Ok(switch(alloc, option))
}

/// Adds a switch for each library.
fn push_passed(
    alloc: Global,
    libraries: &[Word],
    items: &mut Listing<Item>,
) -> Result<(), AllocError>
    ensures { OnOk result (items.new ≡ items.old ++ map passed_switch libraries.now) }
{
    for library in libraries {
        items.push(passed_switch(alloc, library.as_bytes())?)?;
    }
    Ok(())
}

/// The items that tell the texts the libraries among these words.
fn passed_items(alloc: Global, words: &[Word]) -> Result<Listing<Item>, AllocError>
    ensures { IfOk result (λ items. items ≡ passed_items words.now) }
{
    let found = libraries(alloc, words)?;
    let told = Word::from_bytes(alloc, b"--gdrv-passed")?;
    let mut items = Listing::new(alloc);
    items.push(switch(alloc, told))?;
    push_passed(alloc, found.as_slice(), &mut items)?;
    Ok(items)
}

/// A line with the libraries among these words.
fn with_told(alloc: Global, line: DriverLine, words: &[Word]) -> Result<DriverLine, AllocError>
    ensures { IfOk result (λ made. made
        ≡ record line { items = line.items ++ passed_items words.now }) }
{
    let mut told = passed_items(alloc, words)?.into_vec();
    let DriverLine { items, from_file } = line;
    let mut all = items.into_vec();
    all.append(&mut told)?;
    let items = Listing::from_vec(all);
    Ok(DriverLine { items, from_file })
}

/// A line by what the text of its libraries gave.
fn line_by(alloc: Global, line: DriverLine, worked: Worked) -> Result<DriverLine, AllocError>
    ensures { IfOk result (λ made. line_by line (Is (Ok worked)) ≡ Is made) }
{
    match worked {
        Worked::Gives(given) => with_told(alloc, line, given.words.as_slice()),
        Worked::Nothing => Ok(line),
        Worked::More => Ok(line),
    }
}

/// A line by what the text of its libraries gave, or how that would end the call.
fn line_after(
    alloc: Global,
    line: DriverLine,
    worked: Result<Worked, Ending>,
) -> Result<DriverLine, AllocError>
    ensures { (defined : Ended Worked) → GivesKnown ending.OutOfMemory (λ made. made) worked defined
        → IfOk result (λ made. line_by line defined ≡ Is made) }
{
    match worked {
        Ok(worked) => line_by(alloc, line, worked),
        Err(Ending::OutOfMemory) => Err(AllocError),
        Err(Ending::Done(_status)) => Ok(line),
        Err(Ending::Refused(_refusal)) => Ok(line),
    }
}

/// A line of the driver with the libraries of its link as switches, if it names a spec file beside
/// that of the call (GCC, "gcc.cc", pass_through_libs_spec_func). The text `gdrv_pass` is run once,
/// after the last spec file is loaded, with all switches of the line and no input. A line whose
/// specs or texts are refused stays as it is, and the driver refuses it. It asks the system only
/// where the table has no answer.
#[tactic(auto, using(drv_system::proofs::AskedCalls::asked_none))]
pub(crate) fn line_passed<S: System>(
    alloc: Global,
    line: DriverLine,
    outside: &mut Outside<'_, S>,
) -> Result<DriverLine, AllocError>
    ensures asks { Asked S.events outside.old outside.new }
    ensures line { (F : Facts) → Extends outside.new.facts.now F
        → IfOk result (λ made. line_passed F line ≡ Is made) }
{
    if count_specs(alloc, line.items.as_slice())? <= 1 {
        return Ok(line);
    }
    let worked = text_worked(alloc, b"gdrv_pass", &line, &line, outside);
    line_after(alloc, line, worked)
}
