//! What a check finds, and in which files.

ghost use Rattle.drv_check.specs.Checks.{is_full, unchecked_over};
ghost use Rattle.std.specs.Prelude.{◌≡◌, ◌∷◌, ◌++◌, [], OnOk};

use crate::known_names::Names;
use drv_specs::{SpecSet, SpecsFault};
use drv_words::{Listing, Word};
use std::alloc::{AllocError, Global};
use std::marker::Model;
use std::mem;
use std::vec::IntoIter;

/// A byte of a source.
#[derive(Clone, Copy, Debug)]
pub struct Spot {
    /// The source's place among the sources.
    pub source: usize,
    /// The byte's place in its text, from 0.
    pub at: usize,
}

/// A file that was read.
#[derive(Debug, Drop)]
pub struct Source {
    /// Its path.
    pub name: Word,
    /// Its text.
    pub text: Word,
    /// What includes it; nothing where the call names it.
    pub from: Option<Spot>,
}

/// What is legal and surely not meant.
#[derive(Clone, Copy, Debug)]
pub enum Warning {
    /// An addition to a text that isn't there.
    AppendToNothing,
    /// A line of a body that would begin a directive, were the line before it empty.
    DirectiveInBody,
    /// A quote that begins a word, and is a byte of it.
    QuotedWord,
    /// A pattern that no switch has, since `-DX` is the switch D with an argument, as `-U` and `-I`.
    NeverTrue,
    /// The same of `-oX`, the switch o with an argument.
    NeverOutput,
    /// The same of `-lX`, a library and no switch.
    NeverLibrary,
    /// The same of `-xX`, a language and no switch.
    NeverLanguage,
    /// The same of `-Wl,X` and `-Xlinker X`, words for a tool and no switch.
    NeverPiece,
    /// The same of `--jobs=X`, a setting of the call and no switch.
    NeverSetting,
    /// The same of `--specs=X`, the switch `specs=X`.
    NeverSpecs,
    /// The name of a text that isn't there.
    UnknownText,
    /// A pair whose key a later one of its file has.
    HiddenPair,
    /// A branch of a choice that can't be reached, as a test of an earlier one covers each of its
    /// own, or an earlier one has no test.
    Unreachable,
    /// A directive that marks a word, with white space on both sides, so that no word has the mark.
    LostMark,
    /// The same in the text of a pair, which begins or ends on a side of it.
    LostInPair,
    /// A text that no text works, and that neither the driver works itself nor gcc, where its names
    /// count.
    UnusedText,
}

/// What a finding says.
#[derive(Debug, Drop)]
pub enum Note {
    /// A fault, for which the driver would refuse the file.
    Fault(SpecsFault),
    /// What is surely not meant.
    Warned(Warning),
}

/// One thing that was found.
#[derive(Debug, Drop)]
pub struct Finding {
    /// Where; a fault with a file of the call itself is nowhere.
    pub spot: Option<Spot>,
    /// What.
    pub note: Note,
}

/// Whether it is a fault.
pub fn is_fault(note: &Note) -> bool {
    matches!(note, Note::Fault(_))
}

/// A fault that was found.
#[derive(Debug, Drop)]
pub struct Fault {
    /// Where; a fault with a file of the call itself is nowhere.
    pub spot: Option<Spot>,
    /// What.
    pub fault: SpecsFault,
}

/// A warning that was found, or one that the end of the check decides on.
#[derive(Debug, Drop)]
pub(crate) struct Warned {
    /// How many faults were found before it.
    pub(crate) faults: usize,
    /// Where.
    pub(crate) spot: Spot,
    /// What.
    pub(crate) warning: Warning,
    /// The name on which it depends: of a text that isn't there, or that no text names.
    pub(crate) name: Option<Word>,
}

/// What was found. Contracts see the faults, in their order.
#[derive(Drop)]
pub struct Findings {
    faults: Listing<Fault>,
    warnings: Vec<Warned>,
    /// The warnings that the end decides on.
    later: Vec<Warned>,
    /// The names that texts name.
    named: Vec<Word>,
}

impl Model for Findings {
    ghost use Rattle.drv_check.specs.declared.findings.Fault.{Fault};
    ghost use Rattle.std.specs.Prelude.{List};

    ghost Value = { List Fault };

    ghost view = { λ f. f.faults };
}

/// Adds the next faults, so many.
fn push_faults(
    all: &mut Vec<Finding>,
    faults: &mut IntoIter<Fault>,
    count: usize,
) -> Result<(), AllocError> {
    for _ in 0..count {
        let Some(found) = faults.next() else {
            return Ok(());
        };
        all.push(Finding {
            spot: found.spot,
            note: Note::Fault(found.fault),
        })?;
    }
    Ok(())
}

impl Findings {
    /// Nothing yet.
    pub(crate) fn new(alloc: Global) -> Findings
        ensures { result ≡ [] }
    {
        Findings {
            faults: Listing::new(alloc),
            warnings: Vec::new(alloc),
            later: Vec::new(alloc),
            named: Vec::new(alloc),
        }
    }

    /// The faults.
    pub(crate) fn faults(&self) -> &[Fault]
        ensures { result.now ≡ self.now }
    {
        self.faults.as_slice()
    }

    /// Adds a fault.
    pub(crate) fn push_fault(
        &mut self,
        spot: Option<Spot>,
        fault: SpecsFault,
    ) -> Result<(), AllocError>
        ensures { OnOk result (self.new ≡ self.old ++ record { spot = spot; fault = fault } ∷ []) }
    {
        self.faults.push(Fault { spot, fault })?;
        Ok(())
    }

    /// Adds what is surely not meant.
    pub(crate) fn push_warning(&mut self, spot: Spot, warning: Warning) -> Result<(), AllocError>
        ensures { OnOk result (self.new ≡ self.old) }
    {
        self.warnings.push(Warned {
            faults: self.faults.len(),
            spot,
            warning,
            name: None,
        })?;
        Ok(())
    }

    /// Keeps a warning that the end decides on.
    pub(crate) fn push_later(
        &mut self,
        spot: Spot,
        warning: Warning,
        name: Option<Word>,
    ) -> Result<(), AllocError>
        ensures { OnOk result (self.new ≡ self.old) }
    {
        self.later.push(Warned {
            faults: self.faults.len(),
            spot,
            warning,
            name,
        })?;
        Ok(())
    }

    /// Takes out the warnings that the end decides on.
    pub(crate) fn take_later(&mut self, alloc: Global) -> Vec<Warned>
        ensures { self.new ≡ self.old }
    {
        mem::replace(&mut self.later, Vec::new(alloc))
    }

    /// Adds names that texts name.
    pub(crate) fn add_named(&mut self, mut names: Vec<Word>) -> Result<(), AllocError>
        ensures { OnOk result (self.new ≡ self.old) }
    {
        self.named.append(&mut names)?;
        Ok(())
    }

    /// Whether a text names this one.
    pub(crate) fn is_named(&self, name: &[u8]) -> bool {
        self.named.iter().any(|other| name == other.as_bytes())
    }

    /// What was found, in its order.
    pub fn into_vec(self, alloc: Global) -> Result<Vec<Finding>, AllocError> {
        let mut all = Vec::new(alloc);
        let mut passed = 0;
        let mut faults = self.faults.into_vec().into_iter();
        for warned in self.warnings {
            push_faults(&mut all, &mut faults, warned.faults.saturating_sub(passed))?;
            passed = warned.faults;
            all.push(Finding {
                spot: Some(warned.spot),
                note: Note::Warned(warned.warning),
            })?;
        }
        push_faults(&mut all, &mut faults, usize::MAX)?;
        Ok(all)
    }
}

/// A check as far as it has come.
#[derive(Drop)]
pub struct Checking {
    /// For whom the files are.
    pub whose: Names,
    /// The set so far.
    pub set: SpecSet,
    /// How many files may still be read.
    pub files: usize,
    /// The files that were read.
    pub sources: Listing<Source>,
    /// What was found.
    pub findings: Findings,
}

/// How many files may be read for each file of the call.
pub(crate) const MOST_FILES: usize = 2000;

/// The faults at which the check of a call ends (the options -fmax-errors of gcc, -ferror-limit of
/// clang).
pub const MOST_FAULTS: usize = 100;

/// Whether a check ends at so many faults.
pub fn is_full(checking: &Checking, most: usize) -> bool
    ensures { result ≡ is_full most checking.now }
{
    most <= checking.findings.faults().len()
}

/// A check of nothing yet, over a set. The call allocates nothing.
pub(crate) fn unchecked_over(alloc: Global, whose: Names, set: SpecSet) -> Checking
    ensures { result ≡ unchecked_over whose set }
{
    Checking {
        whose,
        set,
        files: MOST_FILES,
        sources: Listing::new(alloc),
        findings: Findings::new(alloc),
    }
}
