//! The text that a trial prints at its end.

ghost use Rattle.drv_words.specs.Printed.{quoted};
ghost use Rattle.std.specs.Prelude.{◌≡◌, ◌∷◌, ◌++◌, [], OnOk, decimal};

use drv_words::{Word, quote};
use std::alloc::{AllocError, Global};
use std::marker::Model;

/// The text that a trial prints. Contracts see it as the list of its bytes.
#[derive(Drop)]
pub struct Transcript {
    alloc: Global,
    text: Word,
}

impl Model for Transcript {
    ghost use Rattle.std.specs.Prelude.{List, ℕ};

    ghost Value = { List ℕ };

    ghost view = { λ transcript. transcript.text };
}

impl Transcript {
    /// An empty text.
    pub fn new(alloc: Global) -> Transcript
        ensures { result ≡ [] }
    {
        Transcript {
            alloc,
            text: Word::empty(alloc),
        }
    }

    /// The text so far.
    pub fn as_bytes(&self) -> &[u8]
        ensures { result.now ≡ self.now }
    {
        self.text.as_bytes()
    }

    /// Adds a text.
    pub fn add(&mut self, text: &[u8]) -> Result<(), AllocError>
        ensures { OnOk result (self.new ≡ self.old ++ text.now) }
    {
        self.text.extend_from_slice(text)
    }

    /// Adds a count in decimal.
    pub fn add_count(&mut self, count: usize) -> Result<(), AllocError>
        ensures { OnOk result (self.new ≡ self.old ++ decimal count) }
    {
        self.add(itoa::Buffer::new().format(count).as_bytes())
    }

    /// Adds a text, a count in decimal and a newline.
    pub fn add_line(&mut self, before: &[u8], count: usize) -> Result<(), AllocError>
        ensures { OnOk result (self.new ≡ self.old ++ (before.now ++ (decimal count ++ (10 ∷ [])))) }
    {
        self.add(before)?;
        self.add_count(count)?;
        self.add(b"\n")
    }

    /// Adds a word, quoted as in `-###`.
    pub fn add_quoted(&mut self, word: &Word) -> Result<(), AllocError>
        ensures { OnOk result (self.new ≡ self.old ++ quoted word.now) }
    {
        let quoted = quote(self.alloc, word)?;
        self.add(quoted.as_bytes())
    }

    /// Adds a number in decimal.
    pub(crate) fn add_number(&mut self, number: u64) -> Result<(), AllocError> {
        self.add(itoa::Buffer::new().format(number).as_bytes())
    }

    /// Adds words, quoted as in `-###` and each followed by a bar.
    pub(crate) fn add_list(&mut self, words: &[Word]) -> Result<(), AllocError> {
        for word in words {
            self.add_quoted(word)?;
            self.add(b" |")?;
        }
        Ok(())
    }
}
