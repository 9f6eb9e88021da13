//! Reading printed lines back.

ghost use Rattle.drv_words.specs.Printed.{Shows};
ghost use Rattle.drv_words.specs.Code.LineEnd.{is_piped};
ghost use Rattle.drv_words.specs.Code.LineReader.{at_word, bare, after_bar, between, escape};
ghost use Rattle.drv_words.specs.Code.LineReader.{finished, inside, lines_read, start, step};
ghost use Rattle.drv_words.specs.Code.LineReader.{with_line, with_word};
ghost use Rattle.drv_words.specs.declared.plan.PlanLine.{PlanLine};
ghost use Rattle.std.specs.Prelude.{◌≡◌, IfOk, IfSome, List, OnOk, Some, ℕ};

use crate::line_end::LineEnd;
use crate::quoting::{is_bare_word, is_plain_byte, is_special_byte};
use crate::{Command, Listing, PlanLine, Word};
use std::alloc::{AllocError, Global};
use std::mem;

/// The place of a text that a reader has reached.
#[derive(Clone, Copy)]
enum Standing {
    /// At the start of a line, or after a word.
    Between,
    /// After the space before a word.
    AtWord,
    /// In a word without quotes.
    Bare,
    /// Between the quotes of a word.
    Quoted,
    /// Between the quotes, after a backslash.
    Escaped,
    /// After the bar that ends a piped line.
    Bar,
    /// After a byte that no printed text has there.
    Wrong,
}

/// A reader of printed lines: the lines that have ended, and the parts of the next one.
#[derive(Drop)]
struct LineReader {
    lines: Listing<PlanLine>,
    program: Option<Word>,
    words: Listing<Word>,
    word: Word,
    standing: Standing,
}

impl LineReader {
    /// A reader before the first byte.
    fn new(alloc: Global) -> LineReader
        ensures { result ≡ start }
    {
        LineReader {
            lines: Listing::new(alloc),
            program: None,
            words: Listing::new(alloc),
            word: Word::empty(alloc),
            standing: Standing::Between,
        }
    }

    /// Ends the word: it becomes the line's program, or one more of its words.
    fn end_word(&mut self, alloc: Global) -> Result<(), AllocError>
        ensures { OnOk result (self.new ≡ with_word self.old) }
    {
        let word = mem::replace(&mut self.word, Word::empty(alloc));
        if self.program.is_none() {
            self.program = Some(word);
        } else {
            self.words.push(word)?;
        }
        Ok(())
    }

    /// Ends the line, which must have a program.
    fn end_line(&mut self, alloc: Global, end: LineEnd) -> Result<(), AllocError>
        ensures { OnOk result (self.new ≡ with_line self.old (is_piped end)) }
    {
        let Some(program) = self.program.take() else {
            self.standing = Standing::Wrong;
            return Ok(());
        };
        let words = mem::replace(&mut self.words, Listing::new(alloc));
        self.lines.push(PlanLine {
            command: Command { program, words },
            piped: end.is_piped(),
        })?;
        self.standing = Standing::Between;
        Ok(())
    }

    /// Takes the byte after a word: a blank begins the next word, a newline ends the line.
    fn take_between(&mut self, alloc: Global, byte: u8) -> Result<(), AllocError>
        ensures { OnOk result (self.new ≡ between self.old byte) }
    {
        match byte {
            b' ' => self.standing = Standing::AtWord,
            b'\n' => return self.end_line(alloc, LineEnd::Last),
            _ => self.standing = Standing::Wrong,
        }
        Ok(())
    }

    /// Takes the byte after a blank: it begins a word, bare or in quotes, or is the bar of a pipe.
    fn take_at_word(&mut self, byte: u8) -> Result<(), AllocError>
        ensures { OnOk result (self.new ≡ at_word self.old byte) }
    {
        if is_plain_byte(byte) {
            self.word.push(byte)?;
            self.standing = Standing::Bare;
        } else if byte == b'"' {
            self.standing = Standing::Quoted;
        } else if byte == b'|' && self.program.is_some() {
            self.standing = Standing::Bar;
        } else {
            self.standing = Standing::Wrong;
        }
        Ok(())
    }

    /// Takes a byte in a word without quotes, or the byte that ends the word.
    fn take_bare(&mut self, alloc: Global, byte: u8) -> Result<(), AllocError>
        ensures { OnOk result (self.new ≡ bare self.old byte) }
    {
        if is_plain_byte(byte) {
            return self.word.push(byte);
        }
        self.end_word(alloc)?;
        self.take_between(alloc, byte)
    }

    /// Takes a byte in quotes. Quotes around a word that needs none are no printed text.
    fn take_quoted(&mut self, alloc: Global, byte: u8) -> Result<(), AllocError>
        ensures { OnOk result (self.new ≡ inside self.old byte) }
    {
        match byte {
            b'\\' => self.standing = Standing::Escaped,
            b'"' if is_bare_word(self.word.as_bytes()) => self.standing = Standing::Wrong,
            b'"' => {
                self.end_word(alloc)?;
                self.standing = Standing::Between;
            }
            b'$' => self.standing = Standing::Wrong,
            _ => self.word.push(byte)?,
        }
        Ok(())
    }

    /// Takes the byte after a backslash: only a special byte is printed so.
    fn take_escaped(&mut self, byte: u8) -> Result<(), AllocError>
        ensures { OnOk result (self.new ≡ escape self.old byte) }
    {
        if is_special_byte(byte) {
            self.word.push(byte)?;
            self.standing = Standing::Quoted;
        } else {
            self.standing = Standing::Wrong;
        }
        Ok(())
    }

    /// Takes the byte after the bar of a pipe: the line has to end there.
    fn take_after_bar(&mut self, alloc: Global, byte: u8) -> Result<(), AllocError>
        ensures { OnOk result (self.new ≡ after_bar self.old byte) }
    {
        if byte == b'\n' {
            return self.end_line(alloc, LineEnd::Piped);
        }
        self.standing = Standing::Wrong;
        Ok(())
    }

    /// Takes the next byte.
    fn take(&mut self, alloc: Global, byte: u8) -> Result<(), AllocError>
        ensures { OnOk result (self.new ≡ step self.old byte) }
    {
        match self.standing {
            Standing::Between => self.take_between(alloc, byte),
            Standing::AtWord => self.take_at_word(byte),
            Standing::Bare => self.take_bare(alloc, byte),
            Standing::Quoted => self.take_quoted(alloc, byte),
            Standing::Escaped => self.take_escaped(byte),
            Standing::Bar => self.take_after_bar(alloc, byte),
            Standing::Wrong => Ok(()),
        }
    }

    /// The lines, if the last one has ended.
    fn finish(self) -> Option<Listing<PlanLine>>
        ensures { result ≡ finished self }
    {
        // A line that has begun has a program, and must end with a newline.
        if matches!(self.standing, Standing::Between) && self.program.is_none() {
            Some(self.lines)
        } else {
            None
        }
    }
}

/// Reads a whole text.
fn read_lines(alloc: Global, text: &[u8]) -> Result<Option<Listing<PlanLine>>, AllocError>
    ensures { IfOk result (λ lines. lines ≡ lines_read text.now) }
{
    let mut reader = LineReader::new(alloc);
    for &byte in text {
        reader.take(alloc, byte)?;
    }
    Ok(reader.finish())
}

/// The lines that a text shows, or `None` unless [`render`](crate::render) gives exactly this text.
pub fn read_back(alloc: Global, text: &[u8]) -> Result<Option<Listing<PlanLine>>, AllocError>
    ensures shown { IfOk result (λ found. IfSome found (λ lines. Shows text.now lines)) }
    ensures always { IfOk result (λ found. (lines : List PlanLine) → Shows text.now lines
        → found ≡ Some lines) }
{
    read_lines(alloc, text)
}

/// A law: a text shows at most one list of lines.
pub fn one_list_of_lines()
    ensures { (text : List ℕ) (a b : List PlanLine) → Shows text a → Shows text b → a ≡ b }
{}
