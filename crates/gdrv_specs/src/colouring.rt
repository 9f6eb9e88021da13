//! The colours of a text at a terminal, which are gcc's.

use drv_words::Word;
use std::alloc::{AllocError, Global};

/// The colours of what a text has (GCC manual, "Diagnostic Message Formatting Options", GCC_COLORS).
#[derive(Drop)]
pub struct Colours {
    /// The value of GCC_COLORS, parts `NAME=NUMBERS` between colons.
    pub parts: Word,
}

/// What a text is.
#[derive(Clone, Copy)]
pub enum Style {
    /// It has no colours.
    Plain,
    /// Findings, each with its place, its line and a caret.
    Findings,
    /// What comes and goes, a line each.
    Difference,
    /// Commands, each with a blank before it and what is said of it below.
    Commands,
}

/// A name of GCC_COLORS, and its usual colour.
type Named = (&'static [u8], &'static [u8]);

/// The colour of a place, and of a command.
const LOCUS: Named = (b"locus", b"01");

/// The colours of what goes and what comes.
const DELETED: Named = (b"diff-delete", b"31");

const INSERTED: Named = (b"diff-insert", b"32");

/// The marks in the first line of a finding.
const MARKS: [(&[u8], Named); 3] = [
    (b": error: ", (b"error", b"01;31")),
    (b": warning: ", (b"warning", b"01;35")),
    (b": note: ", (b"note", b"01;36")),
];

/// The colour that a part gives to a name, as the numbers of a terminal's sequence.
fn value_of<'a>(name: &[u8], part: &'a [u8]) -> Option<&'a [u8]> {
    let value = part.strip_prefix(name)?.strip_prefix(b"=".as_slice())?;
    let is_colour = value
        .iter()
        .all(|byte| byte.is_ascii_digit() || *byte == b';');
    if is_colour { Some(value) } else { None }
}

/// A line before the first place of a mark in it, and behind that.
fn split_at_mark<'a>(line: &'a [u8], mark: &[u8]) -> Option<(&'a [u8], &'a [u8])> {
    for at in 0..line.len() {
        if let Some(rest) = line[at..].strip_prefix(mark) {
            return Some((&line[..at], rest));
        }
    }
    None
}

impl Colours {
    /// Adds bytes in the colour of a name: the last one that the parts give it, or its usual one.
    fn push(&self, text: &mut Word, named: Named, bytes: &[u8]) -> Result<(), AllocError> {
        let (name, usual) = named;
        let mut colour = usual;
        for part in self.parts.as_bytes().split(|byte| *byte == b':') {
            colour = value_of(name, part).unwrap_or(colour);
        }
        text.extend_from_slice(b"\x1b[")?;
        text.extend_from_slice(colour)?;
        text.extend_from_slice(b"m")?;
        text.extend_from_slice(bytes)?;
        text.extend_from_slice(b"\x1b[m")
    }

    /// Adds a line of findings. A line of a file, which begins with a blank, stays as it is.
    fn push_finding(&self, text: &mut Word, line: &[u8]) -> Result<(), AllocError> {
        for (mark, named) in MARKS {
            if !line.starts_with(b" ")
                && let Some((place, rest)) = split_at_mark(line, mark)
            {
                self.push(text, LOCUS, place)?;
                self.push(text, named, mark)?;
                return text.extend_from_slice(rest);
            }
        }
        text.extend_from_slice(line)
    }

    /// Adds a line of a text.
    fn push_line(&self, text: &mut Word, style: Style, line: &[u8]) -> Result<(), AllocError> {
        match (style, line) {
            (Style::Findings, _) => self.push_finding(text, line),
            (Style::Difference, [b'<' | b'-', b' ', ..]) => self.push(text, DELETED, line),
            (Style::Difference, [b'>' | b'+', b' ', ..]) => self.push(text, INSERTED, line),
            (Style::Commands, [b' ', b' ', ..]) => text.extend_from_slice(line),
            (Style::Commands, [b' ', ..]) => self.push(text, LOCUS, line),
            _ => text.extend_from_slice(line),
        }
    }
}

/// A text in its colours.
pub fn painted(
    alloc: Global,
    colours: &Colours,
    style: Style,
    text: &Word,
) -> Result<Word, AllocError> {
    let mut whole = Word::empty(alloc);
    for (number, line) in text.as_bytes().split(|byte| *byte == b'\n').enumerate() {
        if number > 0 {
            whole.push(b'\n')?;
        }
        colours.push_line(&mut whole, style, line)?;
    }
    Ok(whole)
}
