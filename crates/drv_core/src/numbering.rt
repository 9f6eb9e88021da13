//! The files of jobs, each with the number of the first file of its path.

// In clauses: `Adds` says that files were numbered after those before.
ghost use Rattle.drv_core.specs.Code.LeftoverView.{leftover_list};
ghost use Rattle.drv_core.specs.Windowed.{all_files, files_from, job_files, marked_files, temp_files};
ghost use Rattle.drv_core.specs.Code.Numbering.{numbered_files, number_in, numbered_too};
ghost use Rattle.drv_core.specs.Code.NumberingView.{Adds, IsNoted};
ghost use Rattle.std.specs.Prelude.{◌≡◌, ◌∷◌, [], IfOk, List, OnOk, unwrap_or, ℕ};

use crate::leftovers::Leftover;
use drv_words::{Job, Place, Plan, Word};
use std::alloc::{AllocError, Global};
use std::collections::HashMap;

/// The number of a path, or a new one.
fn number_of(known: &HashMap<&Word, usize>, path: &Word, new: usize) -> usize
    ensures { result ≡ unwrap_or (number_in known.now.entries (λ k. k.now) path.now) new }
{
    match known.get(&path) {
        Some(first) => *first,
        None => new,
    }
}

/// Gives a path the next number, unless it has one.
fn note_path<'p>(
    known: &mut HashMap<&'p Word, usize>,
    path: &'p Word,
    first: usize,
    number: usize,
) -> Result<(), AllocError>
    ensures { OnOk result ((p : List ℕ) → number_in known.new.entries (λ k. k.now) p
        ≡ numbered_too path.now first number (number_in known.old.entries (λ k. k.now)) p) }
{
    // No earlier file has this path.
    if first == number {
        known.insert(path, number)?;
        return Ok(());
    }
    Ok(())
}

/// Files, and the number of the first file of each path.
#[derive(Drop)]
struct Numbering<'p> {
    files: Vec<Leftover>,
    known: HashMap<&'p Word, usize>,
}

impl<'p> Numbering<'p> {
    /// No file.
    fn new(alloc: Global) -> Numbering<'p>
        ensures { IsNoted [] result }
    {
        Numbering {
            files: Vec::new(alloc),
            known: HashMap::new(alloc),
        }
    }

    /// Adds a file with the number of the first file of its path.
    fn add_file(&mut self, place: Place, path: &'p Word) -> Result<(), AllocError>
        ensures { Adds result (record { place = place; path = path.now } ∷ []) self.old self.new }
    {
        let number = self.files.len();
        let first = number_of(&self.known, path, number);
        note_path(&mut self.known, path, first, number)?;
        self.files.push(Leftover { place, first })?;
        Ok(())
    }

    /// Adds the temporaries of a job.
    fn add_temps(&mut self, number: usize, job: &'p Job) -> Result<(), AllocError>
        ensures { Adds result (temp_files number 0 job.now.temps) self.old self.new }
    {
        for (index, temp) in job.temps.as_slice().iter().enumerate() {
            self.add_file(Place::Temp { job: number, index }, &temp.path)?;
        }
        Ok(())
    }

    /// Adds the marked files of a job.
    fn add_marked(&mut self, number: usize, job: &'p Job) -> Result<(), AllocError>
        ensures { Adds result (marked_files number 0 job.now.marked) self.old self.new }
    {
        for (index, path) in job.marked.as_slice().iter().enumerate() {
            self.add_file(Place::Marked { job: number, index }, path)?;
        }
        Ok(())
    }

    /// Adds the files of a job.
    fn add_job(&mut self, number: usize, job: &'p Job) -> Result<(), AllocError>
        ensures { Adds result (job_files number job.now) self.old self.new }
    {
        self.add_temps(number, job)?;
        self.add_marked(number, job)
    }

    /// Adds the files of the sources.
    fn add_sources(&mut self, jobs: &'p [Job]) -> Result<(), AllocError>
        ensures { Adds result (files_from 0 jobs.now) self.old self.new }
    {
        for (number, job) in jobs.iter().enumerate() {
            self.add_job(number, job)?;
        }
        Ok(())
    }

    /// Adds the files of all jobs.
    fn add_all(&mut self, plan: &'p Plan) -> Result<(), AllocError>
        ensures { Adds result (all_files plan.now) self.old self.new }
    {
        self.add_sources(plan.jobs.as_slice())?;
        match &plan.link {
            Some(link) => self.add_job(plan.jobs.len(), link),
            None => Ok(()),
        }
    }
}

/// The files of all jobs of a plan.
pub(crate) fn files_of(alloc: Global, plan: &Plan) -> Result<Vec<Leftover>, AllocError>
    ensures { IfOk result (λ files. leftover_list files.items ≡ numbered_files [] (all_files plan.now)) }
{
    let mut numbering = Numbering::new(alloc);
    numbering.add_all(plan)?;
    Ok(numbering.files)
}
