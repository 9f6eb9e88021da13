//! The words for options of a machine are added beside a spec file, or printed.

use crate::asking::{Gcc, text};
use crate::cache::{keep_row, kept_row};
use crate::choosing::{key_by, misfit_in};
use crate::fault::Fault;
use crate::natives::with_natives;
use crate::placing::{driver_at, stem_of};
use crate::rows::{Row, push_names, push_row, row_of};
use crate::texts::{joined, lines_of, sorted_lines};
use crate::work_folder::{WorkFolder, join, try_place};
use drv_gcc::values;
use drv_words::{Listing, Word};
use std::alloc::Global;
use std::fs;

/// The lines of a file before its mark, as a text.
fn lines_in(rt: &HostRuntime, path: &Word) -> Result<Word, Fault> {
    let Ok(content) = fs::read(rt, text(path.as_bytes())?) else {
        return Err(Fault::NoSpecs(path.clone()?));
    };
    let mut lines = Listing::new(rt.alloc());
    for line in values(rt.alloc(), b"", content.as_slice())?.into_vec() {
        if !line.is_empty() && !line.as_bytes().starts_with(b"# whole ") {
            lines.push(line)?;
        }
    }
    lines_of(rt.alloc(), lines.as_slice())
}

/// How the row of these options begins.
pub fn row_head(alloc: Global, key: &Word) -> Result<Word, Fault> {
    joined(alloc, &[b"machine ".as_slice(), key.as_bytes(), b"\t"])
}

/// A text without the row of these options.
fn without_row(alloc: Global, lines: &Word, key: &Word) -> Result<Word, Fault> {
    let beginning = row_head(alloc, key)?;
    let mut others = Listing::new(alloc);
    for line in values(alloc, b"", lines.as_bytes())?.into_vec() {
        if !line.is_empty() && !line.as_bytes().starts_with(beginning.as_bytes()) {
            others.push(line)?;
        }
    }
    lines_of(alloc, others.as_slice())
}

/// What is asked for a row.
#[derive(Drop)]
struct Question {
    /// The spec file without its ending.
    stem: Word,
    /// The lines of the file beside it that names the gcc.
    lines: Word,
    /// That gcc.
    gcc: Word,
    /// The options.
    key: Word,
}

/// The gcc of a file that names one and has rows.
fn gcc_with_rows(alloc: Global, path: &Word, lines: &Word) -> Result<Word, Fault> {
    let gccs = values(alloc, b"compiler ", lines.as_bytes())?;
    let rows = values(alloc, b"machine", lines.as_bytes())?;
    match (gccs.as_slice(), rows.as_slice()) {
        ([gcc, ..], [_, ..]) => Ok(gcc.clone()?),
        _ => Err(Fault::NoRows(path.clone()?)),
    }
}

/// The question for the row of these options by the gcc of a spec file.
fn question_of(rt: &HostRuntime, specs: &Word, options: &[Word]) -> Result<Question, Fault> {
    let stem = stem_of(rt, specs)?;
    let path = join(rt.alloc(), &stem, b".gcc")?;
    let lines = lines_in(rt, &path)?;
    let gcc = gcc_with_rows(rt.alloc(), &path, &lines)?;
    if let Some(misfit) = misfit_in(rt.alloc(), lines.as_bytes(), options)? {
        return Err(Fault::NotMachine(misfit));
    }
    let key = key_by(rt.alloc(), lines.as_bytes(), options)?;
    Ok(Question {
        stem,
        lines,
        gcc,
        key,
    })
}

impl Question {
    /// The gcc, to be asked with the options.
    fn gcc_in<'a>(&'a self, rt: &'a HostRuntime, work: &'a WorkFolder) -> Gcc<'a> {
        Gcc {
            rt,
            work,
            path: &self.gcc,
            options: self.key.as_bytes(),
        }
    }

    /// The row that the gcc makes of its options.
    fn row(&self, gcc: Gcc<'_>) -> Result<Row, Fault> {
        let folders = values(gcc.alloc(), b"folder ", self.lines.as_bytes())?;
        let (_, probes) = with_natives(gcc, gcc.own_texts()?)?;
        match row_of(gcc, probes.as_slice(), folders.as_slice())? {
            Some(row) => Ok(row),
            None => Err(Fault::NoRow(self.key.clone()?)),
        }
    }

    /// Adds a row to the lines of the file that names the gcc, and its options to the names.
    fn put_row(&self, gcc: Gcc<'_>, row: &Row) -> Result<(), Fault> {
        let (rt, alloc) = (gcc.rt, gcc.alloc());
        let mut lines = without_row(alloc, &self.lines, &self.key)?;
        push_row(&mut lines, row)?;
        gcc.work.put(rt, b".gcc", &lines)?;
        let mut names = lines_in(rt, &join(alloc, &self.stem, b".options")?)?;
        push_names(&mut names, row)?;
        let sorted = sorted_lines(alloc, names.as_bytes())?;
        gcc.work
            .put(rt, b".options", &lines_of(alloc, sorted.as_slice())?)
    }

    /// The row, which a folder of work has then. Its plans are compared with gcc's.
    fn tried_row(&self, gcc: Gcc<'_>) -> Result<Row, Fault> {
        gcc.work.copy_files(gcc.rt, &self.stem)?;
        let row = self.row(gcc)?;
        self.put_row(gcc, &row)?;
        if gcc.is_other()? {
            return Err(Fault::NoRow(self.key.clone()?));
        }
        Ok(row)
    }

    /// Puts the row in place.
    fn add_row(&self, gcc: Gcc<'_>) -> Result<(), Fault> {
        let _row = self.tried_row(gcc)?;
        gcc.work.place_file(gcc.rt, &self.stem, b".options")?;
        gcc.work.place_file(gcc.rt, &self.stem, b".gcc")
    }
}

/// Asks the gcc of a spec file for the words that it makes of these options, and adds them beside
/// that file. If its plans by them differ from gcc's, nothing is written.
pub fn add_words(rt: &HostRuntime, specs: &Word, options: &[Word]) -> Result<(), Fault> {
    let question = question_of(rt, specs, options)?;
    try_place(rt, &question.stem)?;
    let work = WorkFolder::new(rt, &driver_at(rt)?)?;
    let done = question.add_row(question.gcc_in(rt, &work));
    work.remove(rt);
    done
}

/// The words that the gcc of a spec file makes of these options, as a row: one that is kept, or else
/// that for which it is asked and which is kept then. No row has plans that differ from gcc's, and
/// nothing is written beside the spec file.
pub fn row_text(rt: &HostRuntime, specs: &Word, options: &[Word]) -> Result<Word, Fault> {
    let question = question_of(rt, specs, options)?;
    let Question { stem, gcc, key, .. } = &question;
    if let Some(row) = kept_row(rt, stem, gcc, key)? {
        return Ok(row);
    }
    let work = WorkFolder::new(rt, &driver_at(rt)?)?;
    let tried = question.tried_row(question.gcc_in(rt, &work));
    work.remove(rt);
    let mut row = Word::empty(rt.alloc());
    push_row(&mut row, &tried?)?;
    keep_row(rt, stem, gcc, &row)?;
    Ok(row)
}
