//! Spec files loaded.

// In clauses: `GivesKnown` says that a result is the one defined over the facts, or lack of memory.
// `Extends F G` says that G has every answer of F. `Asked` says that a call only asked, and that
// the table has the answers. `Asks` says that a call only asked: it added new questions to the
// journal, and their answers to the table. `Gives` says that a result is the defined one, or lack
// of memory.
ghost use Rattle.drv_search.specs.declared.prefixes.Prefixes as places;
ghost use Rattle.drv_specs.specs.Directives.{read_settled, shown};
ghost use Rattle.drv_specs.specs.Loading.{all_carried, file_loaded, including, loaded, text_read};
ghost use Rattle.drv_specs.specs.Loading.{worked};
ghost use Rattle.drv_specs.specs.Code.Slices.{IsSettled, read_left, settled_file};
ghost use Rattle.drv_specs.specs.declared.fault.SpecsFault.TheVariants as fault;
ghost use Rattle.drv_system.specs.Asking.{Asks, Extends};
ghost use Rattle.drv_system.specs.Code.Asked.{Asked};
ghost use Rattle.drv_system.specs.Facts.{Facts};
ghost use Rattle.drv_system.specs.Gives.{GivesKnown};
ghost use Rattle.drv_words.specs.Gives.{Gives};
ghost use Rattle.std.specs.Prelude.{◌≡◌, ◌∷◌, [], IfNone, IfSome, OnErr, ℕ};

use crate::directive::{Directive, IfMissing};
use crate::entries::Entries;
use crate::reading::Reader;
use crate::settling::settle;
use crate::{SpecSet, SpecsFault};
use drv_search::{Prefixes, find_file};
use drv_system::{FactTable, Outside, ReadAnswer, System};
use drv_words::Word;
use std::alloc::Global;

/// How many files may be read in one call.
const MOST_FILES: usize = 2000;

/// The most files that include one another.
const MOST_LEVELS: usize = 16;

/// What is left of the text that an answer gives.
fn text_read(
    alloc: Global,
    if_missing: IfMissing,
    path: Word,
    answer: &ReadAnswer,
) -> Result<Vec<u8>, SpecsFault>
    ensures { Gives fault.Memory (λ left. left.items) result
        (read_left (text_read if_missing path answer.now)) }
{
    match answer {
        ReadAnswer::Read(text) => Ok(settle(alloc, text.as_bytes())?),
        ReadAnswer::Missing => match if_missing {
            IfMissing::PassOver => Ok(Vec::new(alloc)),
            IfMissing::Refuse => Err(SpecsFault::NoSuchFile(path)),
        },
        ReadAnswer::Failed | ReadAnswer::TooLarge => Err(SpecsFault::Unreadable(path)),
    }
}

/// What is left of the text that a spec file gives.
fn file_text<S: System>(
    alloc: Global,
    if_missing: IfMissing,
    name: &[u8],
    prefixes: &Prefixes,
    outside: &mut Outside<'_, S>,
) -> Result<Vec<u8>, SpecsFault>
    ensures asks { Asked S.events outside.old outside.new }
    ensures text { (F : Facts) → Extends outside.new.facts.now F
        → GivesKnown fault.Memory (λ left. left.items) result
        (settled_file F prefixes.now if_missing name.now) }
{
    let name = Word::from_bytes(alloc, name)?;
    let path = find_file(alloc, prefixes, &name, outside.sys, outside.facts)?;
    outside.facts.read(outside.sys, &path)?;
    let answer = outside.facts.read_answer(&path);
    text_read(alloc, if_missing, path, answer)
}

/// Entries that a load changes.
#[derive(Drop)]
struct Loading {
    set: Entries,
    /// How many more files may be read.
    files: usize,
}

/// Carries out the directives of a settled text, within which `levels` more files may be nested.
#[tactic(auto, using(drv_system::proofs::AskedCalls::asked_further))]
fn carry_out<S: System>(
    loading: &mut Loading,
    levels: usize,
    text: &[u8],
    prefixes: &Prefixes,
    outside: &mut Outside<'_, S>,
) -> Result<(), SpecsFault>
    ensures asks { Asked S.events outside.old outside.new }
    ensures carried { (F : Facts) → Extends outside.new.facts.now F
        → GivesKnown fault.Memory (λ _. record { set = loading.new.set; files = loading.new.files })
        result (all_carried (including F prefixes.now levels)
        (record { set = loading.old.set; files = loading.old.files }) (read_settled text.now)) }
{
    let mut reader = Reader::new(text);
    while let Some(directive) = reader.next() {
        match directive {
            Directive::Include { if_missing, file } => {
                // A file may include itself, so there is a limit.
                if levels == 0 {
                    return Err(SpecsFault::IncludeTooDeep);
                }
                if loading.files == 0 {
                    return Err(SpecsFault::TooManyIncludes);
                }
                loading.files -= 1;
                let alloc = loading.set.alloc();
                let text = file_text(alloc, if_missing, file, prefixes, outside)?;
                carry_out(loading, levels - 1, text.as_slice(), prefixes, outside)?;
            }
            other => loading.set.change(other)?,
        }
    }
    Ok(())
}

/// Entries after the directives of a settled text, which may read `files` more files.
#[tactic(auto, using(drv_system::proofs::AskedCalls::asked_further))]
fn worked_entries<S: System>(
    entries: Entries,
    files: usize,
    text: &[u8],
    prefixes: &Prefixes,
    outside: &mut Outside<'_, S>,
) -> Result<Entries, SpecsFault>
    ensures asks { Asked S.events outside.old outside.new }
    ensures works { (F : Facts) → Extends outside.new.facts.now F
        → GivesKnown fault.Memory (λ worked. worked) result
        (worked F prefixes.now entries files (read_settled text.now)) }
{
    let mut loading = Loading {
        set: entries,
        files,
    };
    // The text at hand is the first level.
    let levels = MOST_LEVELS - 1;
    carry_out(&mut loading, levels, text, prefixes, outside)?;
    Ok(loading.set)
}

/// A copy of entries after the directives of a settled text, which may read `files` more files.
#[tactic(auto, using(drv_system::proofs::AskedCalls::asked_further))]
fn draft_of<S: System>(
    entries: &Entries,
    files: usize,
    text: &[u8],
    prefixes: &Prefixes,
    outside: &mut Outside<'_, S>,
) -> Result<Entries, SpecsFault>
    ensures asks { Asked S.events outside.old outside.new }
    ensures works { (F : Facts) → Extends outside.new.facts.now F
        → GivesKnown fault.Memory (λ draft. draft) result
        (worked F prefixes.now entries.now files (read_settled text.now)) }
{
    let draft = entries.try_clone()?;
    worked_entries(draft, files, text, prefixes, outside)
}

/// The directive of a settled text that has no other.
fn lone_directive(text: &[u8]) -> Option<Directive<'_>>
    ensures { IfSome result (λ directive. read_settled text.now ≡ shown directive ∷ []) }
{
    let mut reader = Reader::new(text);
    let directive = reader.next()?;
    match reader.next() {
        Some(_) => None,
        None => Some(directive),
    }
}

impl Entries {
    /// Carries out the directive of a settled text that has no other, if no copy is called for: it
    /// adds a pair, or changes a name that has a text. After an error the entries are as they were.
    fn change_alone(&mut self, text: &[u8]) -> Option<Result<(), SpecsFault>>
        ensures changes { IfSome result (λ done. (F : Facts) (prefixes : places.Prefixes) (files : ℕ)
            → GivesKnown fault.Memory (λ _. self.new) done
            (worked F prefixes self.old files (read_settled text.now))) }
        ensures kept { IfSome result (λ done. OnErr done (self.new ≡ self.old)) }
        ensures none { IfNone result (self.new ≡ self.old) }
    {
        match lone_directive(text) {
            Some(Directive::Text { name, body }) if self.has(name) => {
                Some(self.put_text(name, body))
            }
            Some(Directive::Pair { key, body }) => Some(self.add_pair(key, body)),
            _ => None,
        }
    }
}

impl SpecSet {
    /// Carries out the directives of a settled text, which may read `files` more files, on a copy
    /// that then takes the place of the set. One directive alone may need no copy.
    #[tactic(auto, using(drv_system::proofs::AskedCalls::asked_further))]
    fn work<S: System>(
        &mut self,
        files: usize,
        text: &[u8],
        prefixes: &Prefixes,
        outside: &mut Outside<'_, S>,
    ) -> Result<(), SpecsFault>
        requires { IsSettled text.now }
        ensures asks { Asked S.events outside.old outside.new }
        ensures works { (F : Facts) → Extends outside.new.facts.now F
            → GivesKnown fault.Memory (λ _. self.new) result
            (worked F prefixes.now self.old files (read_settled text.now)) }
        ensures kept { OnErr result (self.new ≡ self.old) }
    {
        if let Some(done) = self.entries.change_alone(text) {
            return done;
        }
        let draft = draft_of(&self.entries, files, text, prefixes, outside)?;
        self.entries = draft;
        Ok(())
    }

    /// The set after the directives of a settled text, which may read `files` more files.
    fn with_text<S: System>(
        self,
        files: usize,
        text: &[u8],
        prefixes: &Prefixes,
        outside: &mut Outside<'_, S>,
    ) -> Result<SpecSet, SpecsFault>
        requires { IsSettled text.now }
        ensures asks { Asked S.events outside.old outside.new }
        ensures works { (F : Facts) → Extends outside.new.facts.now F
            → GivesKnown fault.Memory (λ set. set) result
            (worked F prefixes.now self files (read_settled text.now)) }
    {
        let entries = self.into_entries();
        let entries = worked_entries(entries, files, text, prefixes, outside)?;
        Ok(SpecSet { entries })
    }

    /// Carries out the directives of a text (GCC manual, "Spec Files"). After an error the set is
    /// as it was.
    ///
    /// # Errors
    /// The first refusal in the order of the lines, those of included files in their places:
    /// `BadLine`, `BadName`, `TrailingBackslash`, `AliasOfAlias`, `RenameMissing`, `RenameTaken`,
    /// `Syntax`, `IncludeTooDeep`, `TooManyIncludes`, `NoSuchFile` and `Unreadable`.
    #[tactic(auto, unfolding(crate::specs::Loading::loaded))]
    pub fn load<S: System>(
        &mut self,
        text: &[u8],
        prefixes: &Prefixes,
        sys: &mut S,
        facts: &mut FactTable,
    ) -> Result<(), SpecsFault>
        ensures asks { Asks (S.events sys.old) (S.events sys.new) facts.old facts.new }
        ensures loads { (F : Facts) → Extends facts.new F
            → GivesKnown fault.Memory (λ _. self.new) result
            (loaded F prefixes.now self.old text.now) }
        ensures kept { OnErr result (self.new ≡ self.old) }
    {
        let text = settle(self.entries.alloc(), text)?;
        let outside = &mut Outside { sys, facts };
        self.work(MOST_FILES, text.as_slice(), prefixes, outside)
    }

    /// Carries out the directives of the file of this name, found as libraries are. After an error
    /// the set is as it was.
    ///
    /// # Errors
    /// Those of `load`. The file counts as one that is read, and is the outermost of those within one
    /// another.
    pub fn load_file<S: System>(
        &mut self,
        name: &Word,
        prefixes: &Prefixes,
        sys: &mut S,
        facts: &mut FactTable,
    ) -> Result<(), SpecsFault>
        ensures asks { Asks (S.events sys.old) (S.events sys.new) facts.old facts.new }
        ensures loads { (F : Facts) → Extends facts.new F
            → GivesKnown fault.Memory (λ _. self.new) result
            (file_loaded F prefixes.now self.old name.now) }
        ensures kept { OnErr result (self.new ≡ self.old) }
    {
        let outside = &mut Outside { sys, facts };
        let alloc = self.entries.alloc();
        let text = file_text(alloc, IfMissing::Refuse, name.as_bytes(), prefixes, outside)?;
        // The file at hand is one of those that may be read.
        self.work(MOST_FILES - 1, text.as_slice(), prefixes, outside)
    }

    /// The set with the directives of the file of this name carried out, as `load_file` does; no
    /// copy of the set is made. After an error it doesn't come back.
    ///
    /// # Errors
    /// Those of `load_file`.
    pub fn with_file<S: System>(
        self,
        name: &Word,
        prefixes: &Prefixes,
        sys: &mut S,
        facts: &mut FactTable,
    ) -> Result<SpecSet, SpecsFault>
        ensures asks { Asks (S.events sys.old) (S.events sys.new) facts.old facts.new }
        ensures loads { (F : Facts) → Extends facts.new F
            → GivesKnown fault.Memory (λ set. set) result
            (file_loaded F prefixes.now self name.now) }
    {
        let outside = &mut Outside { sys, facts };
        let alloc = self.entries.alloc();
        let text = file_text(alloc, IfMissing::Refuse, name.as_bytes(), prefixes, outside)?;
        // The file at hand is one of those that may be read.
        self.with_text(MOST_FILES - 1, text.as_slice(), prefixes, outside)
    }
}
