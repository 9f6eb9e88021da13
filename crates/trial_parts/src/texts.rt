//! What texts are read as: the text of a plan, the spec texts of a gcc, its dump, and the tokens of a
//! spec text of this driver.

use crate::transcript::Transcript;
use drv_dump::{
    DumpFault, Misfit, OursFault, TextFault, read_text, translate_dump, translate_text,
};
use drv_syntax::{SyntaxFault, Token, parse};
use drv_words::read_back;
use std::alloc::{AllocError, Global};

/// The name of what doesn't fit.
fn misfit_name(misfit: Misfit) -> &'static [u8] {
    match misfit {
        Misfit::BareBrace => b"BareBrace ",
        Misfit::EscapedMark => b"EscapedMark ",
        Misfit::UnknownDirective => b"UnknownDirective ",
        Misfit::BadTest => b"BadTest ",
        Misfit::BadFunction => b"BadFunction ",
        Misfit::TooNested => b"TooNested ",
        Misfit::Unclosed => b"Unclosed ",
    }
}

/// Adds what doesn't fit, and at which byte.
fn add_misfit(misfit: Misfit, at: usize, out: &mut Transcript) -> Result<(), AllocError> {
    out.add(misfit_name(misfit))?;
    out.add_count(at)
}

/// Adds the number of lines of a plan that a text shows, or a dash if it shows none.
pub fn add_lines(alloc: Global, text: &[u8], out: &mut Transcript) -> Result<(), AllocError> {
    match read_back(alloc, text)? {
        Some(lines) => {
            out.add_count(lines.len())?;
            out.add(b" lines")
        }
        None => out.add(b"-"),
    }
}

/// Adds the pieces of a text, each with a slash after it, or the refusal.
pub fn add_pieces(alloc: Global, text: &[u8], out: &mut Transcript) -> Result<(), AllocError> {
    match read_text(alloc, text) {
        Ok(pieces) => {
            for piece in pieces.as_slice() {
                out.add(piece.bytes.as_bytes())?;
                out.add(b"/")?;
            }
            Ok(())
        }
        Err(TextFault::Memory) => Err(AllocError),
        Err(TextFault::Unreadable(misfit, at)) => add_misfit(misfit, at, out),
    }
}

/// Adds a text in this driver's language, or the refusal.
pub fn add_ours(alloc: Global, text: &[u8], out: &mut Transcript) -> Result<(), AllocError> {
    match translate_text(alloc, text) {
        Ok(words) => out.add(words.as_bytes()),
        Err(OursFault::Memory) => Err(AllocError),
        Err(OursFault::Unreadable(misfit, at)) => add_misfit(misfit, at, out),
        Err(OursFault::Lacking(piece)) => {
            out.add(b"Lacking ")?;
            out.add_quoted(&piece)
        }
    }
}

/// Adds why a dump is refused.
fn add_dump_refusal(fault: &DumpFault, out: &mut Transcript) -> Result<(), AllocError> {
    match fault {
        DumpFault::Memory => Err(AllocError),
        DumpFault::Misplaced(at) => {
            out.add(b"Misplaced ")?;
            out.add_count(*at)
        }
    }
}

/// Adds the texts of a dump in this driver's language and the names of those that are refused, or the
/// refusal.
pub fn add_dump(alloc: Global, dump: &[u8], out: &mut Transcript) -> Result<(), AllocError> {
    match translate_dump(alloc, dump) {
        Ok(ours) => {
            out.add(ours.texts.as_bytes())?;
            out.add(b"refused: ")?;
            out.add_list(ours.refused.as_slice())
        }
        Err(fault) => add_dump_refusal(&fault, out),
    }
}

/// Adds a token, with a slash after it: where it begins and ends, and the place in the list after those
/// inside it.
fn add_token(token: &Token, out: &mut Transcript) -> Result<(), AllocError> {
    out.add_number(u64::from(token.start))?;
    out.add(b"-")?;
    out.add_number(u64::from(token.end))?;
    out.add(b":")?;
    out.add_count(token.next)?;
    out.add(b"/")
}

/// Adds the tokens of a spec text, or a dash if it has no tree.
pub fn add_tokens(alloc: Global, text: &[u8], out: &mut Transcript) -> Result<(), AllocError> {
    match parse(alloc, text) {
        Ok(tree) => {
            for token in tree.tokens() {
                add_token(token, out)?;
            }
            Ok(())
        }
        Err(SyntaxFault::Memory) => Err(AllocError),
        Err(_) => out.add(b"-"),
    }
}
