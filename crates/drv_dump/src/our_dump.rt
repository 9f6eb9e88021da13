//! The texts of a dump in this driver's spec language.

ghost use Rattle.drv_dump.specs.OurDump.{is_left_out, or_nothing, our_dump_of, our_words, with_entry};
ghost use Rattle.drv_dump.specs.OurDump.{with_refused, with_text};
ghost use Rattle.drv_dump.specs.Ours.{ours_of};
ghost use Rattle.drv_dump.specs.declared.fault.DumpFault.TheVariants.{Memory};
ghost use Rattle.drv_words.specs.Gives.{Gives};
ghost use Rattle.std.specs.Prelude.{◌≡◌, IfOk, OnOk, Ok};

use crate::dump::{Entry, entries};
use crate::{DumpFault, OursFault, translate_text};
use drv_words::{Listing, Word};
use std::alloc::{AllocError, Global};

/// The texts of a dump in this driver's language.
#[derive(Debug, Drop)]
pub struct OurDump {
    /// The texts, as a spec file has them.
    pub texts: Word,
    /// The names of those that are refused by name in it.
    pub refused: Listing<Word>,
}

/// A text that says how gcc was built, or that this driver has in words of its own.
fn is_left_out(name: &[u8]) -> bool
    ensures { result ≡ is_left_out name.now }
{
    name.starts_with(b"multilib")
        || name == b"cross_compile".as_slice()
        || name == b"version".as_slice()
        || name == b"linker".as_slice()
        || name == b"linker_plugin_file".as_slice()
        || name == b"lto_wrapper".as_slice()
        || name == b"lto_gcc".as_slice()
        || name == b"invoke_as".as_slice()
        || name == b"sysroot_spec".as_slice()
        || name == b"self_spec".as_slice()
}

/// The words of a text: one without words is there and says nothing.
fn or_nothing(alloc: Global, words: Word) -> Result<Word, AllocError>
    ensures { IfOk result (λ text. text ≡ or_nothing words) }
{
    if words.is_empty() {
        return Word::from_bytes(alloc, b"%{-gdrv-none:}");
    }
    Ok(words)
}

/// The words of a text, if it isn't refused.
fn our_words(alloc: Global, entry: &Entry) -> Result<Option<Word>, DumpFault>
    ensures { Gives Memory (λ words. words) result (Ok (our_words (ours_of entry.now.text))) }
{
    match translate_text(alloc, entry.text.as_bytes()) {
        Ok(words) => Ok(Some(or_nothing(alloc, words)?)),
        Err(OursFault::Memory) => Err(DumpFault::Memory),
        Err(OursFault::Unreadable(_misfit, _at)) => Ok(None),
        Err(OursFault::Lacking(_piece)) => Ok(None),
    }
}

impl OurDump {
    /// Adds a text.
    fn push_text(&mut self, name: &[u8], words: &[u8]) -> Result<(), AllocError>
        ensures { OnOk result (self.new ≡ with_text self.old name.now words.now) }
    {
        self.texts.extend_from_slice(b"*")?;
        self.texts.extend_from_slice(name)?;
        self.texts.extend_from_slice(b":\n")?;
        self.texts.extend_from_slice(words)?;
        self.texts.extend_from_slice(b"\n\n")
    }

    /// Adds a text that is refused by its name.
    fn push_refused(&mut self, alloc: Global, name: &[u8]) -> Result<(), AllocError>
        ensures { OnOk result (self.new ≡ with_refused self.old name.now) }
    {
        let mut words = Word::from_bytes(alloc, b"%etext ")?;
        words.extend_from_slice(name)?;
        words.extend_from_slice(b" is not in this spec file")?;
        self.push_text(name, words.as_bytes())?;
        self.refused.push(Word::from_bytes(alloc, name)?)?;
        Ok(())
    }

    /// Adds a text of a dump.
    fn push_entry(&mut self, alloc: Global, entry: &Entry) -> Result<(), DumpFault>
        ensures { Gives Memory (λ u. self.new) result (Ok (with_entry self.old entry.now)) }
    {
        let name = entry.name.as_bytes();
        if is_left_out(name) {
            return Ok(());
        }
        match our_words(alloc, entry)? {
            Some(words) => Ok(self.push_text(name, words.as_bytes())?),
            None => Ok(self.push_refused(alloc, name)?),
        }
    }
}

/// The texts of a dump, as `-dumpspecs` prints it, in this driver's language: the same names with
/// the words that `translate_text` gives. A text that it refuses becomes one that refuses, by the
/// text's name, each line that reaches it.
///
/// # Errors
/// `Misplaced` with the first byte that is in no text: each is a line `*NAME:`, lines, and an empty
/// line.
pub fn translate_dump(alloc: Global, dump: &[u8]) -> Result<OurDump, DumpFault>
    ensures { Gives Memory (λ ours. ours) result (our_dump_of dump.now) }
{
    let entries = entries(alloc, dump)?;
    let mut ours = OurDump {
        texts: Word::empty(alloc),
        refused: Listing::new(alloc),
    };
    for entry in entries.as_slice() {
        ours.push_entry(alloc, entry)?;
    }
    Ok(ours)
}
