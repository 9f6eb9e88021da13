//! What differs between two plans, as text.

use crate::editing::{command_edits, edits, push_edits};
use crate::gathering::entries_of;
use drv_words::{Plan, PlanLine, Word, plan_lines, render};
use std::alloc::{AllocError, Global};
use std::slice::from_ref;

/// How much is printed of two lines that differ.
#[derive(Clone, Copy, Debug)]
pub enum Detail {
    /// The words that go and those that come.
    Words,
    /// These words, and then both lines.
    Lines,
}

/// Adds a line after a mark, as `diff` marks it.
fn push_marked(
    alloc: Global,
    text: &mut Vec<u8>,
    mark: u8,
    line: &PlanLine,
) -> Result<(), AllocError> {
    text.push(mark)?;
    text.extend_from_slice(render(alloc, from_ref(line))?.as_bytes())
}

/// Adds what makes one line the other, if they differ: its words, and the lines where no word does.
fn push_pair(
    alloc: Global,
    text: &mut Vec<u8>,
    line: &PlanLine,
    other: &PlanLine,
    detail: Detail,
) -> Result<(), AllocError> {
    let words = command_edits(alloc, &line.command, &other.command)?;
    if words.is_empty() && line.piped == other.piped {
        return Ok(());
    }
    push_edits(alloc, text, words.as_slice())?;
    if words.is_empty() || matches!(detail, Detail::Lines) {
        push_marked(alloc, text, b'-', line)?;
        push_marked(alloc, text, b'+', other)?;
    }
    Ok(())
}

/// Adds lines that only the other plan has.
fn push_added(alloc: Global, text: &mut Vec<u8>, lines: &[PlanLine]) -> Result<(), AllocError> {
    for line in lines {
        push_marked(alloc, text, b'+', line)?;
    }
    Ok(())
}

/// Adds what differs between lines, which are compared one by one.
fn push_lines(
    alloc: Global,
    text: &mut Vec<u8>,
    lines: &[PlanLine],
    others: &[PlanLine],
    detail: Detail,
) -> Result<(), AllocError> {
    let mut left = others;
    for line in lines {
        match left {
            [] => push_marked(alloc, text, b'-', line)?,
            [other, rest @ ..] => {
                push_pair(alloc, text, line, other, detail)?;
                left = rest;
            }
        }
    }
    push_added(alloc, text, left)
}

/// What differs between two plans as text: their lines one by one, of each the words that go after
/// `<` and those that come after `>`, and then what the plans have beside their commands, in the same
/// way. A line that only one plan has is printed whole, after `-` or `+`.
pub fn difference_text(
    alloc: Global,
    plan: &Plan,
    other: &Plan,
    detail: Detail,
) -> Result<Word, AllocError> {
    let mut text = Vec::new(alloc);
    let lines = plan_lines(alloc, plan)?;
    let others = plan_lines(alloc, other)?;
    push_lines(
        alloc,
        &mut text,
        lines.as_slice(),
        others.as_slice(),
        detail,
    )?;
    let entries = entries_of(alloc, plan)?;
    let others = entries_of(alloc, other)?;
    let found = edits(alloc, entries.as_slice(), others.as_slice())?;
    push_edits(alloc, &mut text, found.as_slice())?;
    Ok(Word::from_vec(text))
}
