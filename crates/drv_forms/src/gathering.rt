//! What a plan has beside its commands, as words `PLACE=VALUE`.

use drv_words::{Job, Listing, Plan, Word};
use itoa::Buffer;
use std::alloc::{AllocError, Global};

/// The words so far.
#[derive(Drop)]
struct Entries {
    alloc: Global,
    words: Listing<Word>,
}

impl Entries {
    /// Adds what is at a place of a job.
    fn push(&mut self, job: &[u8], name: &[u8], value: &[u8]) -> Result<(), AllocError> {
        let mut word = Word::from_bytes(self.alloc, job)?;
        word.push(b'.')?;
        word.extend_from_slice(name)?;
        word.push(b'=')?;
        word.extend_from_slice(value)?;
        self.words.push(word)?;
        Ok(())
    }

    /// Adds a number at a place of a job.
    fn push_number(&mut self, job: &[u8], name: &[u8], number: usize) -> Result<(), AllocError> {
        self.push(job, name, Buffer::new().format(number).as_bytes())
    }

    /// Adds files at a place of a job.
    fn push_files(&mut self, job: &[u8], name: &[u8], files: &[Word]) -> Result<(), AllocError> {
        for file in files {
            self.push(job, name, file.as_bytes())?;
        }
        Ok(())
    }

    /// Adds what a job of this name has.
    fn push_job(&mut self, name: &[u8], job: &Job) -> Result<(), AllocError> {
        if let Some(number) = job.source {
            self.push_number(name, b"source", number)?;
        }
        self.push_number(name, b"groups", job.groups.len())?;
        for temp in job.temps.as_slice() {
            self.push(name, b"temps", temp.path.as_bytes())?;
            self.push(name, b"contents", temp.contents.as_bytes())?;
        }
        self.push_files(name, b"marked", job.marked.as_slice())?;
        self.push_files(name, b"on_failure", job.on_failure.as_slice())?;
        if let Some(file) = &job.output {
            self.push(name, b"output", file.as_bytes())?;
        }
        Ok(())
    }
}

/// What a plan has beside its commands.
pub(crate) fn entries_of(alloc: Global, plan: &Plan) -> Result<Listing<Word>, AllocError> {
    let mut words = Listing::new(alloc);
    for notice in plan.notices.as_slice() {
        let mut word = Word::from_bytes(alloc, b"notices=")?;
        word.extend_from_slice(notice.as_bytes())?;
        words.push(word)?;
    }
    let mut entries = Entries { alloc, words };
    let jobs = plan.jobs.as_slice();
    for number in 0..jobs.len() {
        let mut buffer = Buffer::new();
        entries.push_job(buffer.format(number).as_bytes(), &jobs[number])?;
    }
    if let Some(link) = &plan.link {
        entries.push_job(b"link", link)?;
    }
    Ok(entries.words)
}
