//! The text of a set.

ghost use Rattle.drv_search.specs.declared.prefixes.Prefixes.{Prefixes};
ghost use Rattle.drv_specs.specs.Dumping.{Plain, dumped, entry_text, named_text};
ghost use Rattle.drv_specs.specs.Code.Keyed.{texts_left};
ghost use Rattle.drv_specs.specs.Loading.{loaded};
ghost use Rattle.drv_specs.specs.Sets.{no_specs};
ghost use Rattle.drv_system.specs.Facts.{Facts};
ghost use Rattle.drv_system.specs.Known.{Is};
ghost use Rattle.std.specs.Prelude.{◌≡◌, ◌++◌, IfOk, Ok, OnOk, flat_map};

use crate::SpecSet;
use crate::entries::Entries;
use crate::text::Text;
use drv_words::Word;
use indexmap::IndexMap;
use std::alloc::AllocError;

/// Adds an entry: its key, a colon, and its text on lines of its own.
fn push_entry(dump: &mut Word, key: &[u8], text: &[u8]) -> Result<(), AllocError>
    ensures { OnOk result (dump.new ≡ dump.old ++ entry_text (key.now, text.now)) }
{
    dump.extend_from_slice(key)?;
    dump.extend_from_slice(b":\n")?;
    dump.extend_from_slice(text)?;
    dump.extend_from_slice(b"\n\n")?;
    Ok(())
}

/// Adds a named text.
fn push_named(dump: &mut Word, name: &[u8], text: &[u8]) -> Result<(), AllocError>
    ensures { OnOk result (dump.new ≡ dump.old ++ named_text (name.now, text.now)) }
{
    dump.push(b'*')?;
    push_entry(dump, name, text)
}

/// Adds the named texts.
fn push_texts(dump: &mut Word, named: &IndexMap<Vec<u8>, Option<Text>>) -> Result<(), AllocError>
    ensures { OnOk result
        (dump.new ≡ dump.old ++ flat_map named_text (texts_left named.now.entries)) }
{
    for (name, text) in named.iter() {
        if let Some(text) = text {
            push_named(dump, name.as_slice(), text.tree().text())?;
        }
    }
    Ok(())
}

/// Adds pairs.
fn push_pairs(dump: &mut Word, pairs: &[(Word, Word)]) -> Result<(), AllocError>
    ensures { OnOk result (dump.new ≡ dump.old ++ flat_map entry_text pairs.now) }
{
    for (key, text) in pairs {
        push_entry(dump, key.as_bytes(), text.as_bytes())?;
    }
    Ok(())
}

/// The text of entries.
fn dump_of(entries: &Entries) -> Result<Word, AllocError>
    ensures { IfOk result (λ text. text ≡ dumped entries.now) }
{
    let mut dump = Word::empty(entries.alloc());
    push_texts(&mut dump, entries.named_texts())?;
    push_pairs(&mut dump, entries.pairs())?;
    Ok(dump)
}

impl SpecSet {
    /// The text of the set: its named texts and then its pairs, each with its name and a colon on a
    /// line before it and an empty line after it (GCC manual, "-dumpspecs"). Loaded into the empty
    /// set it gives this set again, unless a named text begins with `+` and a blank. Lack of memory
    /// is the only error.
    pub fn dump(&self) -> Result<Word, AllocError>
        ensures text { IfOk result (λ text. text ≡ dumped self.now) }
        ensures reloads { Plain self.now → (F : Facts) (prefixes : Prefixes)
            → IfOk result (λ text. loaded F prefixes no_specs text ≡ Is (Ok self.now)) }
    {
        dump_of(&self.entries)
    }
}
