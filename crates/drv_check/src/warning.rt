//! What is legal in a piece and surely not meant.

use crate::branches::push_choices;
use crate::findings::Warning;
use crate::hidden_pair::{is_hidden, key_in};
use crate::known_names::{Names, gcc_has, is_run};
use crate::lost_marks::push_lost;
use crate::pieces::{Piece, begins_directive};
use crate::pointing::{blanks_before, is_addition, name_in, own_start};
use crate::token_warning::push_tokens;
use drv_specs::SpecSet;
use drv_syntax::{SpecTree, Token};
use drv_words::Word;
use std::alloc::{AllocError, Global};

/// A warning at a byte of a piece.
#[derive(Debug, Drop)]
pub(crate) struct Mark {
    /// The byte's place in the piece.
    pub(crate) at: usize,
    /// The warning.
    pub(crate) warning: Warning,
    /// The name on which it depends: of a text that isn't there, or that no text names.
    pub(crate) name: Option<Word>,
}

impl Mark {
    /// A warning at a byte.
    fn new(at: usize, warning: Warning) -> Mark {
        Mark {
            at,
            warning,
            name: None,
        }
    }

    /// A warning at a token of a text that begins at this byte of the piece.
    pub(crate) fn of_token(start: usize, token: Token, warning: Warning) -> Mark {
        Mark::new(start.saturating_add(token.start as usize), warning)
    }
}

/// Whether a name is that of the text which gcc has without bytes: adding to it is meant, and gcc's
/// driver runs it (GCC, "gcc.cc", static_specs, do_self_spec).
fn is_self_spec(name: &[u8]) -> bool {
    name == b"self_spec".as_slice()
}

/// Adds the warning of an addition to a text that isn't there.
fn push_append(
    marks: &mut Vec<Mark>,
    whose: Names,
    set: &SpecSet,
    text: &[u8],
) -> Result<(), AllocError> {
    let Some(name) = name_in(text) else {
        return Ok(());
    };
    if is_addition(text)
        && set.text(name).is_none()
        && !is_self_spec(name)
        && !gcc_has(whose, name)
    {
        marks.push(Mark::new(blanks_before(text), Warning::AppendToNothing))?;
    }
    Ok(())
}

/// Adds the warnings of lines of a body that would begin a directive.
fn push_lines(marks: &mut Vec<Mark>, text: &[u8]) -> Result<(), AllocError> {
    let mut at = 0usize;
    for line in text.split(|byte| *byte == b'\n') {
        if at > 0 && begins_directive(line) {
            let place = at.saturating_add(blanks_before(line));
            marks.push(Mark::new(place, Warning::DirectiveInBody))?;
        }
        at = at.saturating_add(line.len()).saturating_add(1);
    }
    Ok(())
}

/// What is surely not meant in a piece, over the set before it.
pub(crate) fn marks_of(
    alloc: Global,
    whose: Names,
    set: &SpecSet,
    text: &[u8],
) -> Result<Vec<Mark>, AllocError> {
    let mut marks = Vec::new(alloc);
    push_append(&mut marks, whose, set, text)?;
    push_lines(&mut marks, text)?;
    Ok(marks)
}

/// Adds the warning of a pair that a later one of its file hides.
fn push_hidden(marks: &mut Vec<Mark>, text: &[u8], later: &[Piece]) -> Result<(), AllocError> {
    if is_hidden(key_in(text), later) {
        marks.push(Mark::new(blanks_before(text), Warning::HiddenPair))?;
    }
    Ok(())
}

/// Adds the warning of a piece that puts a text, if nothing else than a text may run it. One that
/// adds to a text is none, but to the text that gcc has without bytes.
fn push_unused(
    alloc: Global,
    marks: &mut Vec<Mark>,
    whose: Names,
    text: &[u8],
) -> Result<(), AllocError> {
    let Some(name) = name_in(text) else {
        return Ok(());
    };
    if is_run(whose, name) || is_addition(text) && !is_self_spec(name) {
        return Ok(());
    }
    marks.push(Mark {
        at: blanks_before(text),
        warning: Warning::UnusedText,
        name: Some(Word::from_bytes(alloc, name)?),
    })?;
    Ok(())
}

/// The size of a text that is run by itself: one without a name.
fn lone_size(text: &[u8], tree: &SpecTree) -> Option<usize> {
    match name_in(text) {
        Some(_) => None,
        None => Some(tree.text().len()),
    }
}

/// What the end of the check decides on of a piece with this tree, if it has one: later pieces of
/// its file may hide it.
pub(crate) fn later_marks(
    alloc: Global,
    whose: Names,
    text: &[u8],
    tree: &Option<SpecTree>,
    later: &[Piece],
) -> Result<Vec<Mark>, AllocError> {
    let mut marks = Vec::new(alloc);
    push_hidden(&mut marks, text, later)?;
    push_unused(alloc, &mut marks, whose, text)?;
    if let Some(tree) = tree {
        let start = own_start(text);
        push_tokens(alloc, &mut marks, whose, tree, start)?;
        push_lost(&mut marks, tree, lone_size(text, tree), start)?;
        push_choices(alloc, &mut marks, tree, start)?;
    }
    Ok(marks)
}
