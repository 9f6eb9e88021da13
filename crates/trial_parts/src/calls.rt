//! Single calls of the library, and their results.
//!
//! ```text
//! lines TEXT              how many lines the text of a plan shows
//! pieces TEXT             the pieces of a spec text of gcc
//! ours TEXT               such a text in this driver's spec language
//! dump TEXT               the texts of a gcc's dump, and which of them are refused
//! tokens TEXT             where each token of a spec text begins and ends, and which is the next one
//! order PATTERN NAME..    the order of these switches, and where what a pattern names begins and ends in it
//! ```

use crate::names::look_up;
use crate::texts::{add_dump, add_lines, add_ours, add_pieces, add_tokens};
use crate::transcript::Transcript;
use drv_args::Switch;
use drv_match::{Pattern, Switches};
use drv_words::Word;
use std::alloc::{AllocError, Global};

/// A call that can be made.
#[derive(Clone, Copy)]
enum Call {
    Lines,
    Pieces,
    Ours,
    Dump,
    Tokens,
    Order,
}

/// The names of calls.
const CALLS: [(&[u8], Call); 6] = [
    (b"lines", Call::Lines),
    (b"pieces", Call::Pieces),
    (b"ours", Call::Ours),
    (b"dump", Call::Dump),
    (b"tokens", Call::Tokens),
    (b"order", Call::Order),
];

/// The pattern of a word: with a star at its end it names all that begins so.
fn pattern_of(word: &[u8]) -> Pattern<'_> {
    match word {
        [name @ .., b'*'] => Pattern { name, star: true },
        name => Pattern { name, star: false },
    }
}

/// Adds the places of switches by their names, and where the block of a pattern begins and ends there.
fn add_order(
    alloc: Global,
    pattern: &[u8],
    names: &[Word],
    out: &mut Transcript,
) -> Result<(), AllocError> {
    let mut line = Vec::new(alloc);
    for name in names {
        let name = name.clone()?;
        line.push(Switch { name, arg: None })?;
    }
    let switches = Switches::new(alloc, line.as_slice())?;
    for place in switches.order() {
        out.add_count(*place)?;
        out.add(b" ")?;
    }
    let (start, end) = switches.block(&pattern_of(pattern));
    out.add_line(b"block ", start)?;
    out.add_line(b"to ", end)
}

/// Makes the call that the first of the words names.
///
/// # Errors
/// A lack of memory.
pub fn try_call(alloc: Global, words: &[Word], out: &mut Transcript) -> Result<(), AllocError> {
    let [name, rest @ ..] = words else {
        return out.add(b"no such call\n");
    };
    match (look_up(&CALLS, name.as_bytes()), rest) {
        (Some(Call::Lines), [text]) => add_lines(alloc, text.as_bytes(), out)?,
        (Some(Call::Pieces), [text]) => add_pieces(alloc, text.as_bytes(), out)?,
        (Some(Call::Ours), [text]) => add_ours(alloc, text.as_bytes(), out)?,
        (Some(Call::Dump), [text]) => add_dump(alloc, text.as_bytes(), out)?,
        (Some(Call::Tokens), [text]) => add_tokens(alloc, text.as_bytes(), out)?,
        (Some(Call::Order), [pattern, names @ ..]) => {
            return add_order(alloc, pattern.as_bytes(), names, out);
        }
        _ => out.add(b"no such call")?,
    }
    out.add(b"\n")
}
