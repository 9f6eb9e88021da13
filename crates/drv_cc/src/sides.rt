//! The words that name side files.

ghost use Rattle.drv_cc.specs.SideFiles as sides;
ghost use Rattle.drv_cc.specs.SideFiles.{aux_asked, aux_words, base_words, base_words_of};
ghost use Rattle.drv_cc.specs.SideFiles.{beginning, dependencies, dependencies_asked};
ghost use Rattle.drv_cc.specs.SideFiles.{dependency_words, end_words, given_dependencies};
ghost use Rattle.drv_cc.specs.SideFiles.{given_end, named_kinds, named_words, only, saves};
ghost use Rattle.drv_cc.specs.SideFiles.{side_folder, side_words, source_base, suffix_words};
ghost use Rattle.drv_cc.specs.SideFiles.{with_value, without_end, worked};
ghost use Rattle.drv_cc.specs.Code.Building.{count_shown, kinds_shown, suffixes_words};
ghost use Rattle.drv_cc.specs.Kept.{last_argument};
ghost use Rattle.std.specs.Option.{option_map};
ghost use Rattle.std.specs.Prelude.{◌≡◌, ◌∷◌, ◌++◌, [], IfOk, None, OnOk, Some, codes};

use crate::item::Item;
use crate::keeping::{has, last_argument};
use crate::leading::{
    beginning, given_end, is_end, side_folder, source_base, stem_of, unnamed_stem, without_end,
};
use crate::names::{folder, suffix};
use crate::sources::{Count, Kinds, has_source, only_source, other_suffixes};
use crate::words::{add_joined, add_parts, add_value, add_word};
use drv_words::{Listing, Word, base, split_at_last};
use std::alloc::{AllocError, Global};

/// Adds the name of a source's side files and its suffix.
fn add_own_base(
    alloc: Global,
    items: &[Item],
    name: &[u8],
    words: &mut Listing<Word>,
) -> Result<(), AllocError>
    ensures { OnOk result (words.new ≡ words.old ++ base_words_of items.now name.now None) }
{
    add_parts(
        alloc,
        words,
        b"--gdrv-base=",
        unnamed_stem(items, name),
        suffix(name),
    )?;
    add_value(alloc, words, b"--gdrv-ext=", suffix(name))
}

/// Adds the end of a name that is given, where it is one.
fn add_end(
    alloc: Global,
    given: &[u8],
    end: Option<&[u8]>,
    words: &mut Listing<Word>,
) -> Result<(), AllocError>
    ensures { OnOk result (words.new ≡ words.old
        ++ end_words given.now (option_map (λ bytes. bytes.now) end.entry)) }
{
    match end {
        Some(end) if is_end(given, end) => add_value(alloc, words, b"--gdrv-ext=", end),
        _ => Ok(()),
    }
}

/// Adds the name that is given and its end.
fn add_given_base(
    alloc: Global,
    items: &[Item],
    given: &[u8],
    words: &mut Listing<Word>,
) -> Result<(), AllocError>
    ensures { OnOk result (words.new ≡ words.old
        ++ (codes "--gdrv-base=" ++ given.now) ∷ end_words given.now (given_end items.now)) }
{
    add_joined(alloc, words, b"--gdrv-base=", given)?;
    add_end(alloc, given, given_end(items), words)
}

/// Adds the name of the only source's side files, and its end.
fn add_base_of(
    alloc: Global,
    items: &[Item],
    name: &[u8],
    words: &mut Listing<Word>,
) -> Result<(), AllocError>
    ensures { OnOk result (words.new ≡ words.old
        ++ base_words_of items.now name.now (source_base items.now)) }
{
    match source_base(items) {
        Some(given) => add_given_base(alloc, items, given, words),
        None => add_own_base(alloc, items, name, words),
    }
}

/// The kinds of sources whose name the compiler gets.
fn named_kinds(items: &[Item]) -> Kinds
    ensures { kinds_shown result ≡ named_kinds items.now }
{
    if has(items, b"-E") || has(items, b"-M") || has(items, b"-MM") {
        Kinds::Preprocessed
    } else {
        Kinds::Compiled
    }
}

/// Adds the suffix of several sources that only their language makes sources, or that they have
/// more than one.
fn add_count(alloc: Global, count: Count<'_>, words: &mut Listing<Word>) -> Result<(), AllocError>
    ensures { OnOk result (words.new ≡ words.old ++ suffixes_words (count_shown count.entry)) }
{
    match count {
        Count::Nothing => Ok(()),
        Count::One(end) => add_joined(alloc, words, b"--gdrv-suffix=", end),
        Count::Several => add_word(alloc, words, b"--gdrv-suffixes"),
    }
}

/// Adds the suffix of those sources of these kinds that only their language makes sources, or that
/// they have more than one.
#[tactic(auto, using(crate::proofs::Counts::suffixes_of))]
fn add_suffix(
    alloc: Global,
    kinds: Kinds,
    items: &[Item],
    words: &mut Listing<Word>,
) -> Result<(), AllocError>
    ensures { OnOk result (words.new ≡ words.old
        ++ suffix_words (sides.other_suffixes (sides.sources (kinds_shown kinds) items.now))) }
{
    add_count(alloc, other_suffixes(kinds, items), words)
}

/// Adds the name and the suffix of the only source whose name the compiler gets, or the suffix of
/// several.
fn add_base(alloc: Global, items: &[Item], words: &mut Listing<Word>) -> Result<(), AllocError>
    ensures { OnOk result (words.new ≡ words.old
        ++ base_words items.now (sides.sources (named_kinds items.now) items.now)
        (only (sides.sources (named_kinds items.now) items.now))) }
{
    match only_source(named_kinds(items), items) {
        Some(name) => add_base_of(alloc, items, name, words),
        None => add_suffix(alloc, named_kinds(items), items, words),
    }
}

/// The file of dependencies of an output.
fn dependencies(alloc: Global, output: &[u8]) -> Result<Word, AllocError>
    ensures { IfOk result (λ word. word ≡ dependencies output.now) }
{
    let mut word = match split_at_last(b'.', base(output)) {
        None => Word::from_bytes(alloc, output)?,
        Some((before, _)) => {
            let mut word = Word::from_bytes(alloc, folder(output))?;
            word.extend_from_slice(before)?;
            word
        }
    };
    word.extend_from_slice(b".d")?;
    Ok(word)
}

/// Adds the file of dependencies of an output.
fn add_dependencies_of(
    alloc: Global,
    output: &[u8],
    words: &mut Listing<Word>,
) -> Result<(), AllocError>
    ensures { OnOk result (words.new
        ≡ words.old ++ (codes "--gdrv-dep=" ++ dependencies output.now) ∷ []) }
{
    let file = dependencies(alloc, output)?;
    add_joined(alloc, words, b"--gdrv-dep=", file.as_bytes())
}

/// The file of dependencies of a source with a name that is given.
fn named_dependencies(alloc: Global, items: &[Item], given: &[u8]) -> Result<Word, AllocError>
    ensures { IfOk result (λ word. word ≡ side_folder items.now
        ++ without_end given.now (given_end items.now) ++ codes ".d") }
{
    let mut file = Word::from_bytes(alloc, side_folder(items))?;
    file.extend_from_slice(without_end(given, given_end(items)))?;
    file.extend_from_slice(b".d")?;
    Ok(file)
}

/// Adds the file of dependencies of a source with a name that is given.
fn add_named_dependencies(
    alloc: Global,
    items: &[Item],
    given: &[u8],
    words: &mut Listing<Word>,
) -> Result<(), AllocError>
    ensures { OnOk result (words.new
        ≡ words.old ++ given_dependencies items.now (Some given.now)) }
{
    let file = named_dependencies(alloc, items, given)?;
    add_joined(alloc, words, b"--gdrv-dep=", file.as_bytes())
}

/// Adds the file of dependencies of the only source, where its name is given.
fn add_given_dependencies(
    alloc: Global,
    items: &[Item],
    words: &mut Listing<Word>,
) -> Result<(), AllocError>
    ensures { OnOk result (words.new
        ≡ words.old ++ given_dependencies items.now (source_base items.now)) }
{
    match source_base(items) {
        Some(given) => add_named_dependencies(alloc, items, given, words),
        None => Ok(()),
    }
}

/// Adds the file of dependencies of the line's output, or of the name that is given.
fn add_output_dependencies(
    alloc: Global,
    items: &[Item],
    words: &mut Listing<Word>,
) -> Result<(), AllocError>
    ensures { OnOk result (words.new
        ≡ words.old ++ dependency_words items.now (last_argument (codes "-o") items.now)) }
{
    match last_argument(items, b"-o") {
        Some(output) => add_dependencies_of(alloc, output, words),
        None => add_given_dependencies(alloc, items, words),
    }
}

/// Adds the file of dependencies of the output, where one is asked for.
fn add_dependencies(
    alloc: Global,
    items: &[Item],
    words: &mut Listing<Word>,
) -> Result<(), AllocError>
    ensures { OnOk result (words.new ≡ words.old ++ dependencies_asked items.now) }
{
    if has(items, b"-MD") || has(items, b"-MMD") {
        add_output_dependencies(alloc, items, words)?;
    }
    Ok(())
}

/// Whether temporaries stay.
fn saves(items: &[Item]) -> bool
    ensures { result ≡ saves items.now }
{
    has(items, b"-save-temps") || has(items, b"-save-temps=cwd") || has(items, b"-save-temps=obj")
}

/// Adds the name of files that stay beside a source's output.
fn add_aux_of(
    alloc: Global,
    items: &[Item],
    name: &[u8],
    words: &mut Listing<Word>,
) -> Result<(), AllocError>
    ensures { OnOk result (words.new ≡ words.old ++ aux_words items.now (Some name.now)) }
{
    let beginning = beginning(alloc, items)?;
    add_parts(
        alloc,
        words,
        b"--gdrv-aux=",
        beginning.as_bytes(),
        stem_of(items, name),
    )
}

/// Adds the name of files that stay beside the only source's output, if there is one alone.
fn add_only_aux(alloc: Global, items: &[Item], words: &mut Listing<Word>) -> Result<(), AllocError>
    ensures { OnOk result (words.new
        ≡ words.old ++ aux_words items.now (only (sides.sources worked items.now))) }
{
    if let Some(name) = only_source(Kinds::Worked, items) {
        add_aux_of(alloc, items, name, words)?;
    }
    Ok(())
}

/// Adds the name of files that stay, where there are such.
fn add_aux(alloc: Global, items: &[Item], words: &mut Listing<Word>) -> Result<(), AllocError>
    ensures { OnOk result (words.new ≡ words.old ++ aux_asked items.now) }
{
    if saves(items) || has(items, b"-gsplit-dwarf") {
        add_only_aux(alloc, items, words)?;
    }
    Ok(())
}

/// Adds what the names of side files begin with.
fn add_beginning(alloc: Global, items: &[Item], words: &mut Listing<Word>) -> Result<(), AllocError>
    ensures { OnOk result (words.new
        ≡ words.old ++ with_value (codes "--gdrv-dir=") (beginning items.now)) }
{
    let beginning = beginning(alloc, items)?;
    add_value(alloc, words, b"--gdrv-dir=", beginning.as_bytes())
}

/// Adds the words that name a source's side files.
fn add_named(alloc: Global, items: &[Item], words: &mut Listing<Word>) -> Result<(), AllocError>
    ensures { OnOk result (words.new ≡ words.old ++ named_words items.now) }
{
    add_beginning(alloc, items, words)?;
    add_base(alloc, items, words)?;
    add_dependencies(alloc, items, words)?;
    add_aux(alloc, items, words)
}

/// Adds the words that name side files.
pub(crate) fn add_side_words(
    alloc: Global,
    items: &[Item],
    words: &mut Listing<Word>,
) -> Result<(), AllocError>
    ensures { OnOk result (words.new ≡ words.old ++ side_words items.now) }
{
    if has_source(items) {
        add_named(alloc, items, words)
    } else {
        Ok(())
    }
}
