//! The files and the sources of a line.

ghost use Rattle.drv_cc.specs.Code.Building.{Zero, all_noted, count_of, count_shown};
ghost use Rattle.drv_cc.specs.Code.Building.{counted, counted_only, is_counted, is_many};
ghost use Rattle.drv_cc.specs.Code.Building.{kinds_shown, noted};
ghost use Rattle.drv_cc.specs.Kept.{is_file_role};
ghost use Rattle.drv_cc.specs.SideFiles.{are_several, files, inputs, is_looked_for, is_some, is_source};
ghost use Rattle.drv_cc.specs.SideFiles.{is_other, language_by, only, other_suffixes, sources};
ghost use Rattle.drv_cc.specs.SideFiles.{compiled, preprocessed, worked};
ghost use Rattle.std.specs.Option.{option_map};
ghost use Rattle.std.specs.Prelude.{◌≡◌, IfOk};

use crate::classes::{is, stands_in};
use crate::item::Item;
use crate::names::suffix;
use drv_options::Role;
use drv_words::{Listing, Word};
use std::alloc::{AllocError, Global};

/// Kinds of sources: their suffixes and their languages (GCC manual, "Overall Options").
#[derive(Clone, Copy)]
pub(crate) enum Kinds {
    /// C.
    Compiled,
    /// C but for headers, and all assembler.
    Assembled,
    /// C and the assembler that is preprocessed.
    Preprocessed,
    /// C and all assembler.
    Worked,
}

impl Kinds {
    /// Their suffixes, with blanks between.
    fn suffixes(self) -> &'static [u8]
        ensures { result.now ≡ (kinds_shown self).0 }
    {
        match self {
            Kinds::Compiled => b".c .i .h",
            Kinds::Assembled => b".c .i .s .S .sx",
            Kinds::Preprocessed => b".c .i .h .S .sx",
            Kinds::Worked => b".c .i .h .s .S .sx",
        }
    }

    /// Their languages, with blanks between.
    fn languages(self) -> &'static [u8]
        ensures { result.now ≡ (kinds_shown self).1 }
    {
        match self {
            Kinds::Compiled => b"c c-header cpp-output",
            Kinds::Assembled => b"c cpp-output assembler assembler-with-cpp",
            Kinds::Preprocessed => b"c c-header cpp-output assembler-with-cpp",
            Kinds::Worked => b"c c-header cpp-output assembler assembler-with-cpp",
        }
    }

    /// Whether a file of a language, or of none, is one.
    pub(crate) fn is_source(self, language: &[u8], name: &[u8]) -> bool
        ensures { result ≡ is_source (kinds_shown self) language.now name.now }
    {
        if language.is_empty() {
            stands_in(self.suffixes(), suffix(name))
        } else {
            stands_in(self.languages(), language)
        }
    }
}

/// None, one or several of something.
#[derive(Clone, Copy)]
pub(crate) enum Count<'a> {
    /// There is none.
    Nothing,
    /// There is this one alone.
    One(&'a [u8]),
    /// There are more.
    Several,
}

impl<'a> Count<'a> {
    /// With one more.
    fn with(self, name: &'a [u8]) -> Count<'a>
        ensures { count_shown result ≡ counted (count_shown self.entry) name.now }
    {
        match self {
            Count::Nothing => Count::One(name),
            Count::One(_) | Count::Several => Count::Several,
        }
    }

    /// With one more, which may be there already.
    fn with_same(self, name: &'a [u8]) -> Count<'a>
        ensures { count_shown result ≡ noted (count_shown self.entry) name.now }
    {
        match self {
            Count::Nothing => Count::One(name),
            Count::One(other) if is(other, name) => self,
            Count::One(_) | Count::Several => Count::Several,
        }
    }

    /// Whether there is one.
    fn is_some(self) -> bool
        ensures { result ≡ is_counted (count_shown self.entry) }
    {
        !matches!(self, Count::Nothing)
    }

    /// Whether there are more than one.
    fn is_several(self) -> bool
        ensures { result ≡ is_many (count_shown self.entry) }
    {
        matches!(self, Count::Several)
    }

    /// The only one, if there is one alone.
    fn only(self) -> Option<&'a [u8]>
        ensures { option_map (λ name. name.now) result ≡ counted_only (count_shown self.entry) }
    {
        match self {
            Count::One(name) => Some(name),
            Count::Nothing | Count::Several => None,
        }
    }
}

/// Whether an item is a file.
pub(crate) fn is_file(item: &Item) -> bool
    ensures { result ≡ is_file_role item.now.role }
{
    matches!(item.role, Role::Input)
}

/// Whether an item is a file that is looked for; `-` is the standard input.
fn is_looked_for(item: &Item) -> bool
    ensures { result ≡ is_looked_for item.now }
{
    is_file(item) && !is(item.name.as_bytes(), b"-")
}

/// The files that are looked for.
pub(crate) fn inputs(alloc: Global, items: &[Item]) -> Result<Listing<Word>, AllocError>
    ensures { IfOk result (λ names. names ≡ inputs items.now) }
{
    let mut names = Listing::new(alloc);
    for item in items {
        if is_looked_for(item) {
            names.push(item.name.clone()?)?;
        }
    }
    Ok(names)
}

/// The files.
fn files(items: &[Item]) -> Count<'_>
    ensures { count_shown result ≡ count_of (files items.now) }
{
    let mut count = Count::Nothing;
    for item in items {
        if is_file(item) {
            count = count.with(item.name.as_bytes());
        }
    }
    count
}

/// The language of the files after an item.
pub(crate) fn language_by<'a>(language: &'a [u8], item: &'a Item) -> &'a [u8]
    ensures { result.now ≡ language_by language.now item.now }
{
    if !is(item.name.as_bytes(), b"-x") {
        return language;
    }
    let argument = item.argument.as_bytes();
    if is(argument, b"none") { &[] } else { argument }
}

/// The sources of these kinds.
fn sources(kinds: Kinds, items: &[Item]) -> Count<'_>
    ensures { count_shown result ≡ count_of (sources (kinds_shown kinds) items.now) }
{
    let mut count = Count::Nothing;
    let mut language: &[u8] = &[];
    for item in items {
        let name = item.name.as_bytes();
        if is_file(item) && kinds.is_source(language, name) {
            count = count.with(name);
        }
        language = language_by(language, item);
    }
    count
}

/// Whether a suffix is one that only a language makes that of a source.
fn is_other(end: &[u8]) -> bool
    ensures { result ≡ is_other end.now }
{
    !end.is_empty() && !stands_in(Kinds::Preprocessed.suffixes(), end)
}

/// The suffixes of sources of these kinds that only their language makes sources.
pub(crate) fn other_suffixes(kinds: Kinds, items: &[Item]) -> Count<'_>
    ensures { count_shown result
        ≡ all_noted Zero (other_suffixes (sources (kinds_shown kinds) items.now)) }
{
    let mut count = Count::Nothing;
    let mut language: &[u8] = &[];
    for item in items {
        let name = item.name.as_bytes();
        if is_file(item) && kinds.is_source(language, name) && is_other(suffix(name)) {
            count = count.with_same(suffix(name));
        }
        language = language_by(language, item);
    }
    count
}

/// The only file, if there is one alone.
#[tactic(auto, using(crate::proofs::Counts::only_of))]
pub(crate) fn only_file(items: &[Item]) -> Option<&[u8]>
    ensures { option_map (λ name. name.now) result ≡ only (files items.now) }
{
    files(items).only()
}

/// Whether there are several files.
pub(crate) fn has_several_files(items: &[Item]) -> bool
    ensures { result ≡ are_several (files items.now) }
{
    files(items).is_several()
}

/// The only source of these kinds, if there is one alone.
#[tactic(auto, using(crate::proofs::Counts::only_of))]
pub(crate) fn only_source(kinds: Kinds, items: &[Item]) -> Option<&[u8]>
    ensures { option_map (λ name. name.now) result ≡ only (sources (kinds_shown kinds) items.now) }
{
    sources(kinds, items).only()
}

/// Whether there is a source of C.
#[tactic(auto, using(crate::proofs::Counts::some_of))]
pub(crate) fn has_compiled(items: &[Item]) -> bool
    ensures { result ≡ is_some (sources compiled items.now) }
{
    sources(Kinds::Compiled, items).is_some()
}

/// Whether there is a source.
#[tactic(auto, using(crate::proofs::Counts::some_of))]
pub(crate) fn has_source(items: &[Item]) -> bool
    ensures { result ≡ is_some (sources worked items.now) }
{
    sources(Kinds::Worked, items).is_some()
}
