//! The texts of a dump.

ghost use Rattle.drv_dump.specs.Dumps.{after_newline, ended, entry_at, nothing_read};
ghost use Rattle.drv_dump.specs.Dumps.{entries_of};
ghost use Rattle.drv_dump.specs.declared.fault.DumpFault.TheVariants.{Memory};
ghost use Rattle.drv_words.specs.Gives.{Gives};
ghost use Rattle.std.specs.Prelude.{◌≡◌, OnOk};

use crate::DumpFault;
use drv_words::{Listing, Word};
use std::alloc::{AllocError, Global};
use std::mem;

/// A text of a dump.
#[derive(Drop)]
pub(crate) struct Entry {
    pub(crate) name: Word,
    pub(crate) text: Word,
}

/// The state before a byte of a dump.
#[derive(Clone, Copy)]
pub(crate) enum Line {
    /// Before the asterisk of a text.
    Between,
    /// In the name.
    Name,
    /// After the colon.
    Named,
    /// In the text.
    Text,
    /// After a newline in the text, which an empty line may end.
    NewLine,
}

/// A dump that is read byte by byte: the texts that ended, the name and the text of the last one.
#[derive(Drop)]
pub(crate) struct DumpReader {
    pub(crate) done: Listing<Entry>,
    pub(crate) name: Word,
    pub(crate) text: Word,
    pub(crate) line: Line,
}

impl DumpReader {
    /// A dump before its first byte is read.
    fn new(alloc: Global) -> DumpReader
        ensures { result ≡ nothing_read }
    {
        DumpReader {
            done: Listing::new(alloc),
            name: Word::empty(alloc),
            text: Word::empty(alloc),
            line: Line::Between,
        }
    }

    /// Ends a text.
    fn end_text(&mut self, alloc: Global) -> Result<(), AllocError>
        ensures { OnOk result (self.new ≡ ended self.old) }
    {
        let name = mem::replace(&mut self.name, Word::empty(alloc));
        let text = mem::replace(&mut self.text, Word::empty(alloc));
        self.done.push(Entry { name, text })?;
        self.line = Line::Between;
        Ok(())
    }

    /// Reads a byte of a text after a newline.
    fn take_after_newline(&mut self, alloc: Global, byte: u8) -> Result<(), AllocError>
        ensures { OnOk result (self.new ≡ after_newline self.old byte) }
    {
        if byte == b'\n' {
            return self.end_text(alloc);
        }
        self.text.push(b'\n')?;
        self.text.push(byte)?;
        self.line = Line::Text;
        Ok(())
    }

    /// Reads the byte at a place of the dump.
    fn take(&mut self, alloc: Global, at: usize, byte: u8) -> Result<(), DumpFault>
        ensures { Gives Memory (λ u. self.new) result (entry_at self.old at byte) }
    {
        match (self.line, byte) {
            (Line::Between, b'*') => self.line = Line::Name,
            (Line::Name, b':') => self.line = Line::Named,
            (Line::Named, b'\n') => self.line = Line::Text,
            (Line::Between | Line::Named, _) | (Line::Name, b'\n') => {
                return Err(DumpFault::Misplaced(at));
            }
            (Line::Name, _) => self.name.push(byte)?,
            (Line::Text, b'\n') => self.line = Line::NewLine,
            (Line::Text, _) => self.text.push(byte)?,
            (Line::NewLine, _) => self.take_after_newline(alloc, byte)?,
        }
        Ok(())
    }
}

/// The texts of a dump, as `-dumpspecs` prints it: of each a line `*NAME:`, its lines, and an empty
/// line.
///
/// # Errors
/// `Misplaced` with the first byte that is in no text.
pub(crate) fn entries(alloc: Global, dump: &[u8]) -> Result<Listing<Entry>, DumpFault>
    ensures { Gives Memory (λ entries. entries) result (entries_of dump.now) }
{
    let mut reader = DumpReader::new(alloc);
    for (at, byte) in dump.iter().enumerate() {
        reader.take(alloc, at, *byte)?;
    }
    match reader.line {
        Line::Between => Ok(reader.done),
        _ => Err(DumpFault::Misplaced(dump.len())),
    }
}
