//! The text of response files, both ways.

// In clauses: `words_of` is the words of a text from here on. `SplitsOnto` says that the words of a
// text were put after others.
ghost use Rattle.drv_words.specs.Counts.{words_in};
ghost use Rattle.drv_words.specs.Response.{Splits, SplitsOnto, is_marked, is_quote, is_space};
ghost use Rattle.drv_words.specs.Response.{marked, response, response_text};
ghost use Rattle.drv_words.specs.Code.Splitter.{following, ended, is_outside, opened, plain_length};
ghost use Rattle.drv_words.specs.Code.Splitter.{plain_step, quoted_step, step, with_byte};
ghost use Rattle.drv_words.specs.Code.Splitter.{with_bytes, words_of};
ghost use Rattle.std.specs.List.{position};
ghost use Rattle.std.specs.Prelude.{◌≡◌, ◌<◌, ◌≤◌, ◌-◌, ◌∷◌, ◌++◌, [], IfOk, IsTrue, List, OnOk};
ghost use Rattle.std.specs.Prelude.{length, nat_lt, not, true, ℕ};

use crate::{Listing, Word};
use std::alloc::{AllocError, Global};
use std::mem;

/// The number of words for which the list gets room at the start, at most.
const MOST_ROOM: usize = 4096;

/// Most words of a response file have at least this many bytes, with the white space after them.
const BYTES_A_WORD: usize = 4;

/// Whether a byte is white space in response text: tab to carriage return, and space.
fn is_space_byte(byte: u8) -> bool
    ensures { result ≡ is_space byte }
{
    matches!(byte, 9..=13 | b' ')
}

/// Whether a byte opens a quoted run.
fn is_quote_byte(byte: u8) -> bool
    ensures { result ≡ is_quote byte }
{
    matches!(byte, b'\'' | b'"')
}

/// Whether a byte needs a backslash in the text of a word. The backslash is tested last, since most
/// bytes are greater than the quotes.
fn is_marked_byte(byte: u8) -> bool
    ensures { result ≡ is_marked byte }
{
    if byte > b'\'' {
        return byte == b'\\';
    }
    is_space_byte(byte) || is_quote_byte(byte)
}

/// The index of the first white space, quote or backslash.
fn first_marked(text: &[u8]) -> Option<usize>
    ensures { result ≡ position is_marked text.now }
{
    text.iter().position(|byte| is_marked_byte(*byte))
}

/// The number of plain bytes at the front: those before the first white space, quote or backslash.
#[tactic(auto, using(crate::proofs::Runs::plain_place, crate::proofs::Runs::plain_within))]
fn plain_length(text: &[u8]) -> usize
    ensures value { result ≡ plain_length text.now }
    ensures within { result ≤ length text.now }
{
    first_marked(text).unwrap_or(text.len())
}

/// A splitter of response text: the words so far, the open word, the quote of its run, and whether
/// the last byte was a backslash that makes the next one plain.
#[derive(Drop)]
struct Splitter {
    words: Listing<Word>,
    word: Option<Word>,
    quote: Option<u8>,
    escaped: bool,
}

impl Splitter {
    /// A splitter that appends to these words.
    fn new(words: Listing<Word>) -> Splitter
        ensures { result ≡ following words }
    {
        Splitter {
            words,
            word: None,
            quote: None,
            escaped: false,
        }
    }

    /// Opens a word, unless one is open.
    fn open(&mut self, alloc: Global)
        ensures { self.new ≡ opened self.old }
    {
        if self.word.is_none() {
            self.word = Some(Word::empty(alloc));
        }
    }

    /// Adds a byte to the word, and opens one if necessary.
    fn push(&mut self, alloc: Global, byte: u8) -> Result<(), AllocError>
        ensures { OnOk result (self.new ≡ with_byte self.old byte) }
    {
        match &mut self.word {
            Some(word) => word.push(byte),
            None => {
                self.word = Some(Word::from_bytes(alloc, &[byte])?);
                Ok(())
            }
        }
    }

    /// Adds bytes to the word, and opens one if necessary.
    fn push_run(&mut self, alloc: Global, run: &[u8]) -> Result<(), AllocError>
        ensures { OnOk result (self.new ≡ with_bytes self.old run.now) }
    {
        match &mut self.word {
            Some(word) => word.extend_from_slice(run),
            None => {
                self.word = Some(Word::from_bytes(alloc, run)?);
                Ok(())
            }
        }
    }

    /// Ends the word, if one is open.
    fn end_word(&mut self) -> Result<(), AllocError>
        ensures { OnOk result (self.new ≡ ended self.old) }
    {
        if let Some(word) = self.word.take() {
            self.words.push(word)?;
        }
        Ok(())
    }

    /// Takes a byte in a run that this mark has opened, and that the same mark closes.
    fn take_quoted(&mut self, alloc: Global, mark: u8, byte: u8) -> Result<(), AllocError>
        ensures { OnOk result (self.new ≡ quoted_step mark self.old byte) }
    {
        if byte == b'\\' {
            self.escaped = true;
        } else if byte == mark {
            self.quote = None;
        } else {
            self.push(alloc, byte)?;
        }
        Ok(())
    }

    /// Takes a byte outside quotes, with no backslash before it.
    fn take_plain(&mut self, alloc: Global, byte: u8) -> Result<(), AllocError>
        ensures { OnOk result (self.new ≡ plain_step self.old byte) }
    {
        if is_space_byte(byte) {
            self.end_word()?;
        } else if byte == b'\\' {
            self.open(alloc);
            self.escaped = true;
        } else if is_quote_byte(byte) {
            self.open(alloc);
            self.quote = Some(byte);
        } else {
            self.push(alloc, byte)?;
        }
        Ok(())
    }

    /// Takes the next byte.
    fn take(&mut self, alloc: Global, byte: u8) -> Result<(), AllocError>
        ensures { OnOk result (self.new ≡ step self.old byte) }
    {
        // After a backslash each byte is one of the word.
        if self.escaped {
            self.escaped = false;
            return self.push(alloc, byte);
        }
        match self.quote {
            Some(mark) => self.take_quoted(alloc, mark, byte),
            None => self.take_plain(alloc, byte),
        }
    }

    /// Whether the next byte is neither in quotes nor after a backslash.
    fn is_outside(&self) -> bool
        ensures { result ≡ is_outside self.now }
    {
        !self.escaped && self.quote.is_none()
    }

    /// Takes a run of plain bytes at the front of a text outside quotes, with the white space after
    /// it if that ends a word. Returns the rest.
    fn take_run<'a>(
        &mut self,
        alloc: Global,
        text: &'a [u8],
        count: usize,
    ) -> Result<&'a [u8], AllocError>
        requires outside { is_outside self.old ≡ true }
        requires run { count ≡ plain_length text.now }
        requires within { count ≤ length text.now }
        requires some { 0 < count }
        ensures goes { IfOk result (λ rest. words_of self.new rest.now
            ≡ words_of self.old text.now) }
        ensures shorter { IfOk result (λ rest. length rest.now < length text.now) }
    {
        let (run, rest) = text.split_at(count);
        match rest {
            // The run is a whole word, which is put at once and at its final size.
            [byte, following @ ..] if is_space_byte(*byte) && self.word.is_none() => {
                self.words.push(Word::from_bytes(alloc, run)?)?;
                Ok(following)
            }
            _ => {
                self.push_run(alloc, run)?;
                Ok(rest)
            }
        }
    }

    /// Takes the front of a text: a run of plain bytes, or one byte. Returns the rest.
    fn take_front<'a>(&mut self, alloc: Global, text: &'a [u8]) -> Result<&'a [u8], AllocError>
        requires { 0 < length text.now }
        ensures goes { IfOk result (λ rest. words_of self.new rest.now
            ≡ words_of self.old text.now) }
        ensures shorter { IfOk result (λ rest. length rest.now < length text.now) }
    {
        if self.is_outside() {
            let count = plain_length(text);
            // The run is empty where the next byte has a meaning of its own.
            if count > 0 {
                return self.take_run(alloc, text, count);
            }
        }
        self.take(alloc, text[0])?;
        Ok(&text[1..])
    }
}

/// The number of words for which a text gets room.
fn room_for(text: &[u8]) -> usize
    ensures { result ≤ 4096 }
{
    (text.len() / BYTES_A_WORD + 1).min(MOST_ROOM)
}

/// Splits a whole text, and appends its words to others.
fn split_text(alloc: Global, words: Listing<Word>, text: &[u8]) -> Result<Listing<Word>, AllocError>
    ensures { IfOk result (λ all. all ≡ words_of (following words) text.now) }
{
    let mut splitter = Splitter::new(words);
    splitter.words.reserve(room_for(text))?;
    let mut left = text;
    while !left.is_empty() {
        left = splitter.take_front(alloc, left)?;
    }
    splitter.end_word()?;
    Ok(splitter.words)
}

/// Appends the words of a response file's text, as [`split`] returns them, to others.
pub fn split_onto(alloc: Global, words: &mut Listing<Word>, text: &[u8]) -> Result<(), AllocError>
    ensures { OnOk result (SplitsOnto text.now words.old words.new) }
{
    let others = mem::replace(words, Listing::new(alloc));
    *words = split_text(alloc, others, text)?;
    Ok(())
}

/// Splits a text and appends its words to others, but goes no further than to one word more than
/// `most`.
fn split_front(
    alloc: Global,
    words: Listing<Word>,
    text: &[u8],
    most: usize,
) -> Result<Listing<Word>, AllocError>
    ensures all { IfOk result (λ made. length made - length words ≤ most
        → made ≡ words_of (following words) text.now) }
    ensures more { IfOk result (λ made. most < length made - length words
        → most < length (words_of (following words) text.now) - length words) }
{
    let others = words.len();
    let mut splitter = Splitter::new(words);
    splitter.words.reserve(room_for(text))?;
    let mut left = text;
    // One word more than `most` shows that there are too many.
    while !left.is_empty() && splitter.words.len().saturating_sub(others) <= most {
        left = splitter.take_front(alloc, left)?;
    }
    splitter.end_word()?;
    Ok(splitter.words)
}

/// Appends the words of a response file's text, as [`split`] returns them, to others, if the text
/// has at most `most` words. Returns whether it has. If it has more, only one more is made.
pub fn split_within(
    alloc: Global,
    words: &mut Listing<Word>,
    text: &[u8],
    most: usize,
) -> Result<bool, AllocError>
    ensures counts { IfOk result (λ fits. fits ≡ not (nat_lt most (words_in text.now))) }
    ensures splits { IfOk result (λ fits. IsTrue fits → SplitsOnto text.now words.old words.new) }
{
    let others = mem::replace(words, Listing::new(alloc));
    let before = others.len();
    *words = split_front(alloc, others, text, most)?;
    Ok(words.len().saturating_sub(before) <= most)
}

/// The words of a response file's text: separated by white space, with quoted runs and backslashes
/// (GCC manual, "Overall Options", `@file`). Every text has exactly one list of words.
pub fn split(alloc: Global, text: &[u8]) -> Result<Listing<Word>, AllocError>
    ensures words { IfOk result (λ words. Splits text.now words) }
    ensures only { IfOk result (λ words. (others : List (List ℕ)) → Splits text.now others
        → words ≡ others) }
{
    split_text(alloc, Listing::new(alloc), text)
}

/// A law: a text has exactly one list of words, and their number is that which `words_in` says.
pub fn one_list_of_words()
    ensures some { (text : List ℕ) → (words : List (List ℕ)) × Splits text words }
    ensures one { (text : List ℕ) (a b : List (List ℕ)) → Splits text a → Splits text b → a ≡ b }
    ensures number { (text : List ℕ) (words : List (List ℕ)) → Splits text words
        → length words ≡ words_in text }
{}

/// Adds the bytes of a word as the text of a response file has them: with a backslash before each
/// white space, quote and backslash.
///
/// # Errors
/// Out of memory.
pub fn push_marked(text: &mut Word, word: &[u8]) -> Result<(), AllocError>
    ensures { OnOk result (text.new ≡ text.old ++ marked word.now) }
{
    for &byte in word {
        if is_marked_byte(byte) {
            text.push(b'\\')?;
        }
        text.push(byte)?;
    }
    Ok(())
}

/// Adds the response text of a word.
fn push_response(text: &mut Word, word: &Word) -> Result<(), AllocError>
    ensures { OnOk result (text.new ≡ text.old ++ response word.now) }
{
    match word.as_bytes() {
        [] => text.extend_from_slice(b"\"\""),
        bytes => push_marked(text, bytes),
    }
}

/// The response text of these words: a line for each, with a backslash before white space, quotes
/// and backslashes. The empty word is `""`. [`split`] returns the words again.
pub fn respond_text(alloc: Global, words: &[Word]) -> Result<Word, AllocError>
    ensures text { IfOk result (λ text. text ≡ response_text words.now) }
    ensures again { IfOk result (λ text. Splits text words.now) }
{
    let mut text = Word::empty(alloc);
    for word in words {
        push_response(&mut text, word)?;
        text.push(b'\n')?;
    }
    Ok(text)
}
