//! A plan in lines, whose words are written as in a response file:
//!
//! ```text
//! job                 the job of the next source begins
//! link                the link's job begins
//! temp PATH TEXT      a temporary file of this job, empty without a text
//! marked PATH         a file that is removed at the end
//! on_failure PATH     a file that is removed if the job fails
//! run PROGRAM WORD..  a command
//! pipe PROGRAM WORD.. a command that reads what the one before it writes
//! ```

use drv_words::{Command, Group, Job, Listing, Plan, Temp, Word, copy_words};
use std::alloc::{AllocError, Global};

/// Whether a line begins with this word.
fn is_of(line: &Listing<Word>, what: &[u8]) -> bool {
    match line.as_slice().first() {
        Some(word) => word.as_bytes() == what,
        None => false,
    }
}

/// The lines up to the next job.
fn of_job(lines: &[Listing<Word>]) -> &[Listing<Word>] {
    let ends = |line: &Listing<Word>| is_of(line, b"job") || is_of(line, b"link");
    match lines.iter().position(ends) {
        Some(end) => &lines[..end],
        None => lines,
    }
}

/// The names in the lines that begin with this word.
fn names(alloc: Global, lines: &[Listing<Word>], what: &[u8]) -> Result<Listing<Word>, AllocError> {
    let mut names = Listing::new(alloc);
    for line in lines {
        if is_of(line, what)
            && let [_, name] = line.as_slice()
        {
            names.push(name.clone()?)?;
        }
    }
    Ok(names)
}

/// The temporary file of a line, if it says one.
fn temp(alloc: Global, line: &[Word]) -> Result<Option<Temp>, AllocError> {
    let (path, contents) = match line {
        [what, path] if what.as_bytes() == b"temp".as_slice() => (path, Word::empty(alloc)),
        [what, path, text] if what.as_bytes() == b"temp".as_slice() => (path, text.clone()?),
        _ => return Ok(None),
    };
    let path = path.clone()?;
    Ok(Some(Temp { path, contents }))
}

/// The temporary files.
fn temps(alloc: Global, lines: &[Listing<Word>]) -> Result<Listing<Temp>, AllocError> {
    let mut temps = Listing::new(alloc);
    for line in lines {
        if let Some(temp) = temp(alloc, line.as_slice())? {
            temps.push(temp)?;
        }
    }
    Ok(temps)
}

/// The commands of a group: that of the first line, and those piped after it, up to the next group.
fn commands(alloc: Global, lines: &[Listing<Word>]) -> Result<Vec<Command>, AllocError> {
    let mut commands = Vec::new(alloc);
    for (number, line) in lines.iter().enumerate() {
        if number > 0 && is_of(line, b"run") {
            break;
        }
        if (number == 0 || is_of(line, b"pipe"))
            && let [_, program, words @ ..] = line.as_slice()
        {
            let program = program.clone()?;
            let words = copy_words(alloc, words)?;
            commands.push(Command { program, words })?;
        }
    }
    Ok(commands)
}

/// The groups of a job: each begins with a line `run`.
fn groups(alloc: Global, lines: &[Listing<Word>]) -> Result<Listing<Group>, AllocError> {
    let mut groups = Listing::new(alloc);
    for (number, line) in lines.iter().enumerate() {
        if is_of(line, b"run")
            && let Some(group) = Group::from_vec(commands(alloc, &lines[number..])?)
        {
            groups.push(group)?;
        }
    }
    Ok(groups)
}

/// The job of the lines up to the next job.
fn job(alloc: Global, lines: &[Listing<Word>]) -> Result<Job, AllocError> {
    let lines = of_job(lines);
    Ok(Job {
        source: None,
        groups: groups(alloc, lines)?,
        temps: temps(alloc, lines)?,
        marked: names(alloc, lines, b"marked")?,
        on_failure: names(alloc, lines, b"on_failure")?,
        output: None,
    })
}

/// The jobs after the lines that begin with this word.
fn jobs(alloc: Global, lines: &[Listing<Word>], what: &[u8]) -> Result<Listing<Job>, AllocError> {
    let mut jobs = Listing::new(alloc);
    for (number, line) in lines.iter().enumerate() {
        if is_of(line, what) {
            jobs.push(job(alloc, &lines[number + 1..])?)?;
        }
    }
    Ok(jobs)
}

/// The plan of these lines.
///
/// # Errors
/// A lack of memory.
pub fn plan(alloc: Global, lines: &[Listing<Word>]) -> Result<Plan, AllocError> {
    Ok(Plan {
        notices: Listing::new(alloc),
        jobs: jobs(alloc, lines, b"job")?,
        link: jobs(alloc, lines, b"link")?.into_vec().pop(),
    })
}
