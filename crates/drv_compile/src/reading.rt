//! The answer to a line.

// In clauses: `Asked` says that a call only asked, and that the table has the answers. `Tells` says
// that a result is that of a definition, by any facts that extend what is known. `TellsMore` says
// that a list got what a definition gives, by any facts that extend what is known.
ghost use Rattle.drv_args.specs.Lines.{prefix_of, spec_of};
ghost use Rattle.drv_cc.specs.Items.{items_of};
ghost use Rattle.drv_compile.specs.Reading.{answer_names, file_names, files_names, folders_given};
ghost use Rattle.drv_compile.specs.Reading.{known_answer, line_read};
ghost use Rattle.drv_compile.specs.Reading.{names_read, read_beside, refused_answer, specs_given};
ghost use Rattle.drv_compile.specs.Reading.{unknown_switch, unknown_switches, items_names};
ghost use Rattle.drv_search.specs.Code.Telling.{Tells, TellsMore};
ghost use Rattle.drv_system.specs.Code.Asked.{Asked};
ghost use Rattle.std.specs.Option.{option_copied};
ghost use Rattle.std.specs.Prelude.{◌≡◌, ◌++◌, [], IfOk, List, None, OnOk, ℕ};

use crate::compilers::names_in;
use crate::naming::{items_beside, names_kept};
use drv_args::{Effect, Item};
use drv_cc::{Answer, Items, Refusal, Surroundings};
use drv_search::{Prefixes, find_file};
use drv_system::{Outside, ReadAnswer, System};
use drv_words::{Listing, Word};
use std::alloc::{AllocError, Global};

/// The answer to a line, with the names of options that it took and that are read again.
#[derive(Drop)]
pub(crate) struct Reading {
    /// The names of the compiler's options, a line each, where some word of the line is none that is
    /// known without them, and the names are read again; else none.
    pub(crate) known: Word,
    /// The answer to the line.
    pub(crate) answer: Answer,
}

/// Adds the word of a refusal that is no option, as a switch: without its hyphen.
fn add_unknown(
    alloc: Global,
    refusal: &Refusal,
    switches: &mut Listing<Word>,
) -> Result<(), AllocError>
    ensures { OnOk result (switches.new ≡ switches.old ++ unknown_switch refusal.now) }
{
    if let Refusal::UnknownOption(word) = refusal
        && let [_, switch @ ..] = word.as_bytes()
    {
        switches.push(Word::from_bytes(alloc, switch)?)?;
    }
    Ok(())
}

/// The words of refusals that are no options, as switches.
fn unknown_switches(alloc: Global, refusals: &[Refusal]) -> Result<Listing<Word>, AllocError>
    ensures { IfOk result (λ switches. switches ≡ unknown_switches refusals.now) }
{
    let mut switches = Listing::new(alloc);
    for refusal in refusals {
        add_unknown(alloc, refusal, &mut switches)?;
    }
    Ok(switches)
}

/// The spec file that an item names, if it names one.
pub(crate) fn spec_of(item: &Item) -> Option<&[u8]>
    ensures { option_copied result ≡ spec_of item.now.effect item.now.argument }
{
    match item.effect {
        Effect::Specs => Some(item.argument.as_bytes()),
        _ => None,
    }
}

/// The folder that an item names for programs, if it names one.
fn prefix_of(item: &Item) -> Option<&[u8]>
    ensures { option_copied result ≡ prefix_of item.now.effect item.now.argument }
{
    match item.effect {
        Effect::Prefix => Some(item.argument.as_bytes()),
        _ => None,
    }
}

/// The files of `-specs=` among items of the driver's line.
pub(crate) fn specs_given(alloc: Global, items: &[Item]) -> Result<Listing<Word>, AllocError>
    ensures { IfOk result (λ files. files ≡ specs_given items.now) }
{
    let mut files = Listing::new(alloc);
    for item in items {
        if let Some(file) = spec_of(item) {
            files.push(Word::from_bytes(alloc, file)?)?;
        }
    }
    Ok(files)
}

/// The folders of `-B` among items of the driver's line.
pub(crate) fn folders_given(alloc: Global, items: &[Item]) -> Result<Listing<Word>, AllocError>
    ensures { IfOk result (λ folders. folders ≡ folders_given items.now) }
{
    let mut folders = Listing::new(alloc);
    for item in items {
        if let Some(folder) = prefix_of(item) {
            folders.push(Word::from_bytes(alloc, folder)?)?;
        }
    }
    Ok(folders)
}

/// Adds names.
fn add_all(named: &mut Listing<Word>, names: &[Word]) -> Result<(), AllocError>
    ensures { OnOk result (named.new ≡ named.old ++ names.now) }
{
    for name in names {
        named.push(name.clone()?)?;
    }
    Ok(())
}

/// Adds the names in a file that was read.
fn add_names(
    alloc: Global,
    answer: &ReadAnswer,
    named: &mut Listing<Word>,
) -> Result<(), AllocError>
    ensures { OnOk result (named.new ≡ named.old ++ names_read answer.now) }
{
    match answer {
        ReadAnswer::Read(text) => add_all(named, names_in(alloc, text.as_bytes())?.as_slice()),
        ReadAnswer::Missing | ReadAnswer::Failed | ReadAnswer::TooLarge => Ok(()),
    }
}

/// Adds the names in the spec file of this name, where it can be read.
fn add_file_names<S: System>(
    alloc: Global,
    file: &Word,
    prefixes: &Prefixes,
    named: &mut Listing<Word>,
    outside: &mut Outside<'_, S>,
) -> Result<(), AllocError>
    ensures asks { Asked S.events outside.old outside.new }
    ensures names { TellsMore outside.new result (λ F. file_names F prefixes.now file.now)
        named.old named.new }
{
    let path = find_file(alloc, prefixes, file, outside.sys, outside.facts)?;
    outside.facts.read(outside.sys, &path)?;
    add_names(alloc, outside.facts.read_answer(&path), named)
}

/// The names in spec files.
#[tactic(auto, using(drv_system::proofs::AskedCalls::asked_further))]
fn files_names<S: System>(
    alloc: Global,
    files: &[Word],
    prefixes: &Prefixes,
    outside: &mut Outside<'_, S>,
) -> Result<Listing<Word>, AllocError>
    ensures asks { Asked S.events outside.old outside.new }
    ensures names { Tells outside.new result (λ F. files_names F prefixes.now files.now) }
{
    let mut named = Listing::new(alloc);
    for file in files {
        add_file_names(alloc, file, prefixes, &mut named, outside)?;
    }
    Ok(named)
}

/// The names in the spec files of items of the driver's line.
pub(crate) fn items_names<S: System>(
    alloc: Global,
    items: &[Item],
    outside: &mut Outside<'_, S>,
) -> Result<Listing<Word>, AllocError>
    ensures asks { Asked S.events outside.old outside.new }
    ensures names { Tells outside.new result (λ F. items_names F items.now) }
{
    let folders = folders_given(alloc, items)?;
    let files = specs_given(alloc, items)?;
    let prefixes = Prefixes::new(alloc, folders.as_slice(), outside.sys, outside.facts)?;
    files_names(alloc, files.as_slice(), &prefixes, outside)
}

/// The names that the spec files of a line have, which has this answer.
fn answer_names<S: System>(
    alloc: Global,
    answer: &Answer,
    outside: &mut Outside<'_, S>,
) -> Result<Listing<Word>, AllocError>
    ensures asks { Asked S.events outside.old outside.new }
    ensures names { Tells outside.new result (λ F. answer_names F answer.now) }
{
    match answer {
        Answer::Run(call) => items_names(alloc, call.items.as_slice(), outside),
        Answer::Ask | Answer::Refuse(_) => Ok(Listing::new(alloc)),
    }
}

/// The answer to a line that is refused where its spec files name nothing.
fn refused_answer<S: System>(
    alloc: Global,
    items: &Items,
    around: &Surroundings,
    refusals: &[Refusal],
    outside: &mut Outside<'_, S>,
) -> Result<Answer, AllocError>
    ensures asks { Asked S.events outside.old outside.new }
    ensures answer { (known : List ℕ) (words : List (List ℕ)) → items.now ≡ items_of known None words
        → Tells outside.new result (λ F. refused_answer F known around.now words refusals.now) }
{
    let switches = unknown_switches(alloc, refusals)?;
    let taken = items.answer(alloc, switches.as_slice(), around)?;
    let named = answer_names(alloc, &taken, outside)?;
    items.answer(alloc, named.as_slice(), around)
}

/// The answer to a line whose words were read by the names of the compiler's options. The spec
/// files of the line are read only where it is refused without them.
fn known_answer<S: System>(
    alloc: Global,
    items: &Items,
    around: &Surroundings,
    outside: &mut Outside<'_, S>,
) -> Result<Answer, AllocError>
    ensures asks { Asked S.events outside.old outside.new }
    ensures answer { (known : List ℕ) (words : List (List ℕ)) → items.now ≡ items_of known None words
        → Tells outside.new result (λ F. known_answer F known around.now words) }
{
    let answer = items.answer(alloc, &[], around)?;
    let Answer::Refuse(refusals) = &answer else {
        return Ok(answer);
    };
    refused_answer(alloc, items, around, refusals.as_slice(), outside)
}

/// The answer to a line of these items, which were read without names of options, by those of the
/// compiler, if the file that has them is whole.
#[tactic(auto, using(drv_system::proofs::AskedCalls::asked_further))]
fn read_by<S: System>(
    alloc: Global,
    specs: &[u8],
    around: &Surroundings,
    items: Items,
    outside: &mut Outside<'_, S>,
) -> Result<Option<Reading>, AllocError>
    ensures asks { Asked S.events outside.old outside.new }
    ensures reading { (words : List (List ℕ)) → items ≡ items_of [] None words
        → Tells outside.new result (λ F. read_beside F specs.now around.now words) }
{
    let named = items_beside(alloc, specs, items, outside)?;
    let Some(items) = named else {
        return Ok(None);
    };
    let answer = known_answer(alloc, &items, around, outside)?;
    let known = names_kept(alloc, specs, &answer, outside)?;
    Ok(Some(Reading { known, answer }))
}

/// The answer to a line, over the files beside a spec file; none where that of the compiler's
/// options is not whole. It is read only where a word of the line needs it.
#[tactic(auto, using(drv_system::proofs::AskedCalls::asked_none))]
pub(crate) fn read_line<S: System>(
    alloc: Global,
    specs: &[u8],
    around: &Surroundings,
    words: &[Word],
    outside: &mut Outside<'_, S>,
) -> Result<Option<Reading>, AllocError>
    ensures asks { Asked S.events outside.old outside.new }
    ensures reading { Tells outside.new result (λ F. line_read F specs.now around.now words.now) }
{
    let items = Items::of(alloc, b"", words)?;
    if items.has_unknown() {
        return read_by(alloc, specs, around, items, outside);
    }
    let answer = items.answer(alloc, &[], around)?;
    let known = Word::empty(alloc);
    Ok(Some(Reading { known, answer }))
}
