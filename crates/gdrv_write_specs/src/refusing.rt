//! Which words of its line a gcc refuses.

use crate::asking::{Gcc, Said};
use crate::fault::Fault;
use crate::finding::has_word;
use crate::texts::{cut_at, has_bytes, joined};
use drv_gcc::halve;
use drv_words::{Listing, Word, copy_words, split};
use std::alloc::Global;
use std::slice;

/// What a gcc says of an option that it does not know.
const UNKNOWN: &[u8] = b"unrecognized command";

/// How many words a gcc is asked of at once. Its time grows by their square.
const AT_ONCE: usize = 256;

/// How often a gcc is asked of words at once: it doesn't quote all that it refuses.
const ROUNDS: usize = 3;

/// How often as many words are halved, until each is alone.
const HALVINGS: usize = 10;

/// What a gcc says of these words. The input after each of them is the argument of an option that
/// takes the next word.
fn try_words(gcc: Gcc<'_>, words: &[Word]) -> Result<Said, Fault> {
    let alloc = gcc.alloc();
    let mut line = split(alloc, b"-###")?;
    for word in words {
        line.push(word.clone()?)?;
        line.push(Word::from_bytes(alloc, b"-Wl,x")?)?;
    }
    gcc.ask_words(line.as_slice())
}

/// What a line quotes first, with what is before and behind the quotes.
pub fn quote_in(line: &[u8]) -> (&[u8], &[u8], &[u8]) {
    let (before, rest) = cut_at(b'\'', line);
    let (quoted, after) = cut_at(b'\'', rest);
    (before, quoted, after)
}

/// The name of the option in a word that is tried: what precedes a value that no option has.
pub fn name_of(word: &[u8]) -> &[u8] {
    word.strip_suffix(b"?".as_slice()).unwrap_or(word)
}

/// Whether one of these quotes is of a word: of all of it, or of the option without the value or the
/// equals sign.
fn quotes(quoted: &Listing<Word>, word: &[u8]) -> bool {
    let name = name_of(word);
    let bare = name.strip_suffix(b"=".as_slice()).unwrap_or(name);
    [word, name, bare]
        .iter()
        .any(|it| has_word(quoted.as_slice(), it))
}

/// Words that a gcc refuses.
#[derive(Drop)]
pub struct Refusals {
    /// Those of which it knows no option.
    pub lacking: Listing<Word>,
    /// Those of which it knows the option.
    pub known: Listing<Word>,
}

impl Refusals {
    /// No refusals.
    fn none(alloc: Global) -> Refusals {
        Refusals {
            lacking: Listing::new(alloc),
            known: Listing::new(alloc),
        }
    }

    /// The words that a gcc quotes first in the lines of what it says. Of a level of debugging it
    /// quotes what follows `-g`.
    fn quoted(alloc: Global, said: &[u8]) -> Result<Refusals, Fault> {
        let mut quoted = Refusals::none(alloc);
        for line in said.split(|byte| *byte == b'\n') {
            let (before, word, _) = quote_in(line);
            if has_bytes(before, UNKNOWN) {
                quoted.lacking.push(Word::from_bytes(alloc, word)?)?;
            } else if has_bytes(before, b"debug output level") {
                quoted.known.push(joined(alloc, &[b"-g", word])?)?;
            } else if !has_bytes(before, b"warning: ") {
                quoted.known.push(Word::from_bytes(alloc, word)?)?;
            }
        }
        Ok(quoted)
    }

    /// Adds those of some words that are quoted. Gives the others.
    fn add_quoted(
        &mut self,
        alloc: Global,
        quoted: &Refusals,
        words: &[Word],
    ) -> Result<Listing<Word>, Fault> {
        let mut others = Listing::new(alloc);
        for word in words {
            if quotes(&quoted.lacking, word.as_bytes()) {
                self.lacking.push(word.clone()?)?;
            } else if quotes(&quoted.known, word.as_bytes()) {
                self.known.push(word.clone()?)?;
            } else {
                others.push(word.clone()?)?;
            }
        }
        Ok(others)
    }

    /// Adds a word that a gcc refuses by itself.
    fn add_alone(&mut self, gcc: Gcc<'_>, word: &Word) -> Result<(), Fault> {
        let said = try_words(gcc, slice::from_ref(word))?;
        if has_bytes(said.err.as_bytes(), UNKNOWN) {
            self.lacking.push(word.clone()?)?;
        } else {
            self.known.push(word.clone()?)?;
        }
        Ok(())
    }

    /// Adds those of some words that a gcc refuses: it is asked of all at once, then of those that it
    /// doesn't quote, and at last by halves.
    fn add_refused(&mut self, gcc: Gcc<'_>, words: &[Word]) -> Result<(), Fault> {
        let mut left = copy_words(gcc.alloc(), words)?;
        for _ in 0..ROUNDS {
            let said = try_words(gcc, left.as_slice())?;
            if said.is_done {
                return Ok(());
            }
            let quoted = Refusals::quoted(gcc.alloc(), said.err.as_bytes())?;
            left = self.add_quoted(gcc.alloc(), &quoted, left.as_slice())?;
        }
        for word in refused_alone(gcc, left)?.as_slice() {
            self.add_alone(gcc, word)?;
        }
        Ok(())
    }

    /// Those of these words that a gcc refuses.
    pub fn of(gcc: Gcc<'_>, words: &[Word]) -> Result<Refusals, Fault> {
        let mut refusals = Refusals::none(gcc.alloc());
        for some in words.chunks(AT_ONCE) {
            refusals.add_refused(gcc, some)?;
        }
        Ok(refusals)
    }

    /// Whether a word is one of them.
    pub fn have(&self, word: &[u8]) -> bool {
        has_word(self.lacking.as_slice(), word) || has_word(self.known.as_slice(), word)
    }
}

/// Those of these words that a gcc refuses, each by itself: words that it refuses together are halved.
fn refused_alone(gcc: Gcc<'_>, words: Listing<Word>) -> Result<Listing<Word>, Fault> {
    let alloc = gcc.alloc();
    let mut refused = Listing::new(alloc);
    let mut waiting = Listing::new(alloc);
    waiting.push(words)?;
    for _ in 0..HALVINGS {
        let mut halves = Listing::new(alloc);
        for words in waiting.as_slice() {
            if !try_words(gcc, words.as_slice())?.is_done {
                halve(alloc, words.as_slice(), &mut halves, &mut refused)?;
            }
        }
        waiting = halves;
    }
    Ok(refused)
}
