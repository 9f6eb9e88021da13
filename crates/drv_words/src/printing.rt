//! The lines of a plan, and their text.

ghost use Rattle.drv_words.specs.Code.LineEnd.{is_piped};
ghost use Rattle.drv_words.specs.Lines.{group_lines, job_lines, lines_of};
ghost use Rattle.drv_words.specs.Printed.{Shows, end_text, line_text, lines_text, quoted};
ghost use Rattle.drv_words.specs.Printed.{words_text};
ghost use Rattle.std.specs.List.{flat_map};
ghost use Rattle.std.specs.Prelude.{◌≡◌, ◌∷◌, ◌++◌, IfOk, OnOk};

use crate::line_end::LineEnd;
use crate::plan::{Command, Job, Plan, PlanLine};
use crate::quoting::push_quoted;
use crate::{Listing, Word};
use std::alloc::{AllocError, Global};

/// Adds the lines of a group: each command but the last is piped.
fn push_group(lines: &mut Listing<PlanLine>, commands: &[Command]) -> Result<(), AllocError>
    ensures { OnOk result (lines.new ≡ lines.old ++ group_lines commands.now) }
{
    for (index, command) in commands.iter().enumerate() {
        lines.push(PlanLine {
            command: command.clone()?,
            piped: index + 1 < commands.len(),
        })?;
    }
    Ok(())
}

/// Adds the lines of a job, group after group.
fn push_job(lines: &mut Listing<PlanLine>, job: &Job) -> Result<(), AllocError>
    ensures { OnOk result (lines.new ≡ lines.old ++ job_lines job.now) }
{
    for group in job.groups.as_slice() {
        push_group(lines, group.as_slice())?;
    }
    Ok(())
}

/// The lines of a plan: the commands of its jobs in order, then those of the link. Each but the
/// last of its group is piped.
pub fn plan_lines(alloc: Global, plan: &Plan) -> Result<Listing<PlanLine>, AllocError>
    ensures { IfOk result (λ lines. lines ≡ lines_of plan.now) }
{
    let mut lines = Listing::new(alloc);
    for job in plan.jobs.as_slice() {
        push_job(&mut lines, job)?;
    }
    if let Some(link) = &plan.link {
        push_job(&mut lines, link)?;
    }
    Ok(lines)
}

/// Adds a word after a space.
fn push_word(text: &mut Vec<u8>, word: &Word) -> Result<(), AllocError>
    ensures { OnOk result (text.new.items ≡ text.old.items ++ 32 ∷ quoted word.now) }
{
    text.push(b' ')?;
    push_quoted(text, word)
}

/// Adds words, each after a space.
fn push_words(text: &mut Vec<u8>, words: &[Word]) -> Result<(), AllocError>
    ensures { OnOk result (text.new.items ≡ text.old.items ++ words_text words.now) }
{
    for word in words {
        push_word(text, word)?;
    }
    Ok(())
}

/// Adds the words of a command.
fn push_command(text: &mut Vec<u8>, command: &Command) -> Result<(), AllocError>
    ensures { OnOk result (text.new.items ≡ text.old.items
        ++ words_text (command.now.program ∷ command.now.words)) }
{
    push_word(text, &command.program)?;
    push_words(text, command.words.as_slice())
}

/// Adds the end of a line.
fn push_end(text: &mut Vec<u8>, end: LineEnd) -> Result<(), AllocError>
    ensures { OnOk result (text.new.items ≡ text.old.items ++ end_text (is_piped end)) }
{
    match end {
        LineEnd::Piped => text.extend_from_slice(b" |\n"),
        LineEnd::Last => text.extend_from_slice(b"\n"),
    }
}

/// Adds the text of a line.
fn push_line(text: &mut Vec<u8>, line: &PlanLine) -> Result<(), AllocError>
    ensures { OnOk result (text.new.items ≡ text.old.items ++ line_text line.now) }
{
    push_command(text, &line.command)?;
    push_end(text, LineEnd::of(line))
}

/// The text of lines. Each line has a space before each printed word, ` |` if it is piped, and a
/// newline. No word is copied.
pub fn render(alloc: Global, lines: &[PlanLine]) -> Result<Word, AllocError>
    ensures text { IfOk result (λ text. text ≡ lines_text lines.now) }
    ensures shows { IfOk result (λ text. Shows text lines.now) }
{
    let mut text = Vec::new(alloc);
    for line in lines {
        push_line(&mut text, line)?;
    }
    Ok(Word::from_vec(text))
}

/// Adds the text of a group's lines.
fn push_group_text(text: &mut Vec<u8>, commands: &[Command]) -> Result<(), AllocError>
    ensures { OnOk result (text.new.items ≡ text.old.items
        ++ lines_text (group_lines commands.now)) }
{
    for (index, command) in commands.iter().enumerate() {
        push_command(text, command)?;
        push_end(text, LineEnd::within(index, commands.len()))?;
    }
    Ok(())
}

/// Adds the text of a job's lines.
fn push_job_text(text: &mut Vec<u8>, job: &Job) -> Result<(), AllocError>
    ensures { OnOk result (text.new.items ≡ text.old.items ++ lines_text (job_lines job.now)) }
{
    for group in job.groups.as_slice() {
        push_group_text(text, group.as_slice())?;
    }
    Ok(())
}

/// Adds the text of the lines of a plan's jobs.
fn push_jobs_text(text: &mut Vec<u8>, jobs: &[Job]) -> Result<(), AllocError>
    ensures { OnOk result (text.new.items ≡ text.old.items
        ++ lines_text (flat_map job_lines jobs.now)) }
{
    for job in jobs {
        push_job_text(text, job)?;
    }
    Ok(())
}

/// The text of a plan's lines.
fn plan_text(alloc: Global, plan: &Plan) -> Result<Word, AllocError>
    ensures { IfOk result (λ text. text ≡ lines_text (lines_of plan.now)) }
{
    let mut text = Vec::new(alloc);
    push_jobs_text(&mut text, plan.jobs.as_slice())?;
    if let Some(link) = &plan.link {
        push_job_text(&mut text, link)?;
    }
    Ok(Word::from_vec(text))
}

/// The text of a plan's lines: what [`render`] returns for [`plan_lines`]. No word is copied.
pub fn render_plan(alloc: Global, plan: &Plan) -> Result<Word, AllocError>
    ensures text { IfOk result (λ text. text ≡ lines_text (lines_of plan.now)) }
    ensures shows { IfOk result (λ text. Shows text (lines_of plan.now)) }
{
    plan_text(alloc, plan)
}
