//! Texts for a reader, in colours at a terminal that takes them, unless a variable forbids that.

ghost use Rattle.gdrv_specs.specs.Told.{status_told};
ghost use Rattle.std.specs.Prelude.{◌≡◌};

use crate::colouring::{Colours, Style, painted};
use drv_check::visible;
use drv_system::{System, TellAnswer};
use drv_words::Word;
use std::alloc::{AllocError, Global};
use std::io::IsTerminal;

/// The exit status of a call whose text was written, or couldn't be.
pub(crate) fn status_told(answer: TellAnswer) -> u8
    ensures { result ≡ status_told answer }
{
    match answer {
        TellAnswer::Told => 0,
        TellAnswer::Failed => 2,
    }
}

/// What is written to a stream: plain, or in colours.
#[derive(Drop)]
pub struct Printer {
    pub colours: Option<Colours>,
}

/// The value of a variable; nothing where it isn't set.
fn value_of<S: System>(alloc: Global, sys: &mut S, name: &[u8]) -> Result<Word, AllocError> {
    match sys.variable(&Word::from_bytes(alloc, name)?)? {
        Some(value) => Ok(value),
        None => Ok(Word::empty(alloc)),
    }
}

/// The colours of a terminal: those of GCC_COLORS, which may be set to none.
fn colours_of<S: System>(alloc: Global, sys: &mut S) -> Result<Option<Colours>, AllocError> {
    let terminal = value_of(alloc, sys, b"TERM")?;
    if matches!(terminal.as_bytes(), b"" | b"dumb")
        || !value_of(alloc, sys, b"NO_COLOR")?.is_empty()
    {
        return Ok(None);
    }
    match sys.variable(&Word::from_bytes(alloc, b"GCC_COLORS")?)? {
        Some(parts) if parts.is_empty() => Ok(None),
        Some(parts) => Ok(Some(Colours { parts })),
        None => Ok(Some(Colours {
            parts: Word::empty(alloc),
        })),
    }
}

impl Printer {
    /// What is written to standard output.
    pub fn to_output<S: System>(rt: &HostRuntime, sys: &mut S) -> Result<Printer, AllocError> {
        let colours = if rt.stdout().is_terminal() {
            colours_of(rt.alloc(), sys)?
        } else {
            None
        };
        Ok(Printer { colours })
    }

    /// What is written to standard error.
    pub fn to_error<S: System>(rt: &HostRuntime, sys: &mut S) -> Result<Printer, AllocError> {
        let colours = if rt.stderr().is_terminal() {
            colours_of(rt.alloc(), sys)?
        } else {
            None
        };
        Ok(Printer { colours })
    }

    /// A text, of whose bytes none steers a terminal but those of its colours.
    pub fn shown(&self, alloc: Global, style: Style, text: &Word) -> Result<Word, AllocError> {
        let shown = visible(alloc, text)?;
        match &self.colours {
            Some(colours) => painted(alloc, colours, style, &shown),
            None => Ok(shown),
        }
    }

    /// Writes a text to standard output, and answers the exit status.
    pub fn put<S: System>(
        &self,
        alloc: Global,
        sys: &mut S,
        style: Style,
        text: &Word,
    ) -> Result<u8, AllocError> {
        let shown = self.shown(alloc, style, text)?;
        Ok(status_told(sys.put(&shown)?))
    }
}
