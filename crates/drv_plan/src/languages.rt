//! The language of an input, and its text.

// In clauses: `Gives` says that a result is the defined one, or lack of memory.
ghost use Rattle.drv_plan.specs.Languages.{by_language, by_suffix, is_of_language};
ghost use Rattle.drv_plan.specs.Languages.{is_standard_input, is_suffix_of, chosen_for, last_pair};
ghost use Rattle.drv_plan.specs.Languages.{last_text, pair_meaning};
ghost use Rattle.drv_plan.specs.Code.Looking.{fits, shown};
ghost use Rattle.drv_plan.specs.declared.fault.PlanFault.TheVariants as fault;
ghost use Rattle.drv_specs.specs.Sets.{is_no_text};
ghost use Rattle.drv_words.specs.Gives.{Gives};
ghost use Rattle.std.specs.List.{ends_with};
ghost use Rattle.std.specs.Option.{option_map};
ghost use Rattle.std.specs.Prelude.{◌≡◌, None, Some, false, if◌then◌else◌, nat_eq};
ghost use Rattle.std.specs.Prelude.{option_and_then, slice_get};

use crate::PlanFault;
use drv_args::Input;
use drv_specs::{SpecSet, begins_with_at};
use drv_syntax::SpecTree;
use drv_words::Word;
use std::alloc::Global;
use std::marker::Model;

/// The language of standard input.
const LANGUAGE_OF_STANDARD_INPUT: &[u8] = b"c";

/// The text of an input, which is borrowed.
#[derive(Drop)]
pub struct Chosen<'a> {
    /// The name of its language. A file whose suffix has its own text has none.
    pub name: Option<&'a [u8]>,
    /// The text.
    pub tree: &'a SpecTree,
}

impl<'a> Model for Chosen<'a> {
    ghost use Rattle.drv_plan.specs.Languages as specs;
    ghost use Rattle.std.specs.Option.{option_map};

    ghost Value = { specs.Chosen };

    ghost view = { λ c. record { name = option_map (λ name. name.now) c.name; text = c.tree.now } };
}

/// What is searched for among the keys of pairs.
#[derive(Clone, Copy)]
enum Wanted<'a> {
    /// The language of this name.
    Language(&'a [u8]),
    /// The suffix of this file.
    Suffix(&'a [u8]),
}

/// Whether a key is that of a language.
fn is_of_language(language: &[u8], key: &[u8]) -> bool
    ensures { result ≡ is_of_language language.now key.now }
{
    match key {
        [b'@', name @ ..] => name == language,
        _ => false,
    }
}

/// Whether two texts have the same last byte, or one is empty. This test alone excludes most keys.
fn end_alike(text: &[u8], end: &[u8]) -> bool
    ensures { result ≡ false → ends_with nat_eq text.now end.now ≡ false }
{
    if text.is_empty() || end.is_empty() {
        return true;
    }
    text[text.len() - 1] == end[end.len() - 1]
}

/// Whether a key is a suffix of a file's name.
#[tactic(auto, using(crate::proofs::Ends::is_no_suffix))]
fn is_suffix_of(name: &[u8], key: &[u8]) -> bool
    ensures { result ≡ is_suffix_of name.now key.now }
{
    if !end_alike(name, key) {
        return false;
    }
    // A name that is all suffix, such as `.c`, has none; a key with @ is a language.
    !begins_with_at(key) && key.len() < name.len() && name.ends_with(key)
}

/// Whether a key is the one that is searched for.
fn fits(wanted: Wanted<'_>, key: &[u8]) -> bool
    ensures { result ≡ fits wanted.entry key.now }
{
    match wanted {
        Wanted::Language(language) => is_of_language(language, key),
        Wanted::Suffix(name) => is_suffix_of(name, key),
    }
}

/// The index of the last pair whose key fits.
fn last_place(wanted: Wanted<'_>, pairs: &[(Word, Word)]) -> Option<usize>
    ensures { option_map (λ pair. pair.1) (option_and_then (slice_get pairs.now) result)
        ≡ last_text (fits wanted.entry) pairs.now }
{
    let mut left = pairs.len();
    // From the end: the last pair that fits counts.
    while left > 0 {
        left -= 1;
        if fits(wanted, pairs[left].0.as_bytes()) {
            return Some(left);
        }
    }
    None
}

/// The meaning of a pair's text.
#[derive(Clone, Copy)]
enum PairText<'a> {
    /// The compiler of this name isn't installed.
    Missing(&'a [u8]),
    /// Another name of this language.
    Alias(&'a [u8]),
    /// A text to run.
    Worked(&'a SpecTree),
}

/// The meaning of a pair's text. It has a tree if it is a text to run.
fn pair_meaning<'a>(tree: Option<&'a SpecTree>, text: &'a [u8]) -> PairText<'a>
    requires { option_map (λ tree. tree.now) tree
        ≡ (if is_no_text text.now then None else Some text.now) }
    ensures { shown result ≡ pair_meaning text.now }
{
    match (tree, text) {
        (Some(tree), _) => PairText::Worked(tree),
        (None, [b'#', compiler @ ..]) => PairText::Missing(compiler),
        (None, [_, language @ ..]) => PairText::Alias(language),
        // An empty text is one to run, which has a tree.
        (None, []) => unreachable!(),
    }
}

/// The meaning of the last pair whose key fits.
fn last_pair<'a>(set: &'a SpecSet, wanted: Wanted<'_>) -> Option<PairText<'a>>
    ensures { option_map shown result ≡ last_pair set.now (fits wanted.entry) }
{
    let place = last_place(wanted, set.pairs())?;
    let (_, text) = set.pairs().get(place)?;
    Some(pair_meaning(set.pair_tree(place), text.as_bytes()))
}

/// The text of a file in this language.
fn by_language<'a>(
    alloc: Global,
    set: &'a SpecSet,
    language: &'a [u8],
) -> Result<Chosen<'a>, PlanFault>
    ensures { Gives fault.Memory (λ chosen. chosen) result
        (by_language set.now language.now) }
{
    match last_pair(set, Wanted::Language(language)) {
        Some(PairText::Worked(tree)) => Ok(Chosen {
            name: Some(language),
            tree,
        }),
        Some(PairText::Missing(compiler)) => {
            Err(PlanFault::NotInstalled(Word::from_bytes(alloc, compiler)?))
        }
        Some(PairText::Alias(_)) | None => Err(PlanFault::UnknownLanguage(Word::from_bytes(
            alloc, language,
        )?)),
    }
}

/// The text of a file whose suffix decides.
fn by_suffix<'a>(
    alloc: Global,
    set: &'a SpecSet,
    name: &[u8],
) -> Result<Option<Chosen<'a>>, PlanFault>
    ensures { Gives fault.Memory (λ chosen. chosen) result (by_suffix set.now name.now) }
{
    match last_pair(set, Wanted::Suffix(name)) {
        Some(PairText::Worked(tree)) => Ok(Some(Chosen { name: None, tree })),
        Some(PairText::Missing(compiler)) => {
            Err(PlanFault::NotInstalled(Word::from_bytes(alloc, compiler)?))
        }
        Some(PairText::Alias(language)) => Ok(Some(by_language(alloc, set, language)?)),
        None => Ok(None),
    }
}

/// Whether a file is standard input.
fn is_standard_input(name: &[u8]) -> bool
    ensures { result ≡ is_standard_input name.now }
{
    matches!(name, [b'-'])
}

/// The text of an input, or `None` if the input belongs to the linker (GCC manual, "Overall
/// Options", -x). A file has the language that `-x` gave it. Otherwise standard input is C, and any
/// other file is what its suffix says.
///
/// # Errors
/// `UnknownLanguage` with the language, if no pair has it; `NotInstalled` with the compiler, if a
/// pair says that it isn't installed.
pub fn language<'a>(
    alloc: Global,
    input: &'a Input,
    set: &'a SpecSet,
) -> Result<Option<Chosen<'a>>, PlanFault>
    ensures { Gives fault.Memory (λ chosen. chosen) result (chosen_for set.now input.now) }
{
    match input {
        Input::File {
            lang: Some(language),
            ..
        } => Ok(Some(by_language(alloc, set, language.as_bytes())?)),
        Input::File { name, lang: None } if is_standard_input(name.as_bytes()) => {
            Ok(Some(by_language(alloc, set, LANGUAGE_OF_STANDARD_INPUT)?))
        }
        Input::File { name, lang: None } => by_suffix(alloc, set, name.as_bytes()),
        Input::Library(_) | Input::LinkWord(_) => Ok(None),
    }
}
