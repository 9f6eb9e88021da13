//! The progress of a plan: what goes on from one input of the line to the next.

// In clauses: `GivesKnown` says that a result is the one defined over the facts, or lack of memory.
// `Extends F G` says that G has every answer of F. `Asked` says that a call only asked, and that
// the table has the answers.
ghost use Rattle.drv_plan.specs.Denoted.{begun, after_job, after_object, after_text, after_word};
ghost use Rattle.drv_plan.specs.Denoted.{for_link, of_source, output_list, with_source, worked};
ghost use Rattle.drv_system.specs.Asking.{Extends};
ghost use Rattle.drv_system.specs.Code.Asked.{Asked};
ghost use Rattle.drv_system.specs.Facts.{Facts};
ghost use Rattle.drv_system.specs.Gives.{GivesKnown};
ghost use Rattle.std.specs.Prelude.{◌≡◌, ◌++◌, IfOk, OnOk};

use crate::PlanFault;
use crate::working::Work;
use drv_machine::{Context, Outcome, Source};
use drv_syntax::SpecTree;
use drv_system::{Outside, System};
use drv_words::{Job, Listing, Word};
use std::alloc::{AllocError, Global};
use std::mem;

/// An input of the line, or what is known of it, at its place.
#[derive(Drop)]
pub(crate) struct Placed<T> {
    pub(crate) place: usize,
    pub(crate) of: T,
}

/// The progress of a plan: what goes on from one input to the next, and the results so far.
#[derive(Drop)]
pub(crate) struct Progress<'a> {
    /// The context of the last text, with what that passed to the next one.
    pub(crate) context: Context<'a>,
    /// The notices of the texts.
    pub(crate) notices: Listing<Word>,
    /// The jobs of the sources.
    pub(crate) jobs: Listing<Job>,
    /// The words of the link.
    pub(crate) outputs: Listing<Word>,
    /// The names of the files of the linker.
    pub(crate) passed_on: Listing<Word>,
}

/// Moves words to the end of a list.
fn move_words(list: &mut Listing<Word>, words: Listing<Word>) -> Result<(), AllocError>
    ensures { OnOk result (list.new ≡ list.old ++ words) }
{
    for word in words.into_vec() {
        list.push(word)?;
    }
    Ok(())
}

/// Adds a copy of a job's output, if it has one.
fn push_output(list: &mut Listing<Word>, output: &Option<Word>) -> Result<(), AllocError>
    ensures { OnOk result (list.new ≡ list.old ++ output_list output.now) }
{
    if let Some(output) = output {
        list.push(output.clone()?)?;
    }
    Ok(())
}

/// The job of the source at this place of the line.
fn of_source(place: usize, job: Job) -> Job
    ensures { result ≡ of_source place job }
{
    Job {
        source: Some(place),
        ..job
    }
}

/// The job of an outcome.
fn into_job(done: Outcome) -> Job
    ensures { result ≡ done.job }
{
    done.job
}

impl<'a> Progress<'a> {
    /// The progress before the first text. It has room for the words of the link from so many
    /// inputs.
    pub(crate) fn new(
        alloc: Global,
        context: Context<'a>,
        inputs: usize,
    ) -> Result<Progress<'a>, AllocError>
        ensures { IfOk result (λ progress. progress ≡ begun context.entry) }
    {
        Ok(Progress {
            context,
            notices: Listing::new(alloc),
            jobs: Listing::new(alloc),
            outputs: Listing::from_vec(Vec::with_capacity(alloc, inputs)?),
            passed_on: Listing::new(alloc),
        })
    }

    /// Adds the name of a file of the linker.
    pub(crate) fn add_object(&mut self, name: &Word) -> Result<(), AllocError>
        ensures { OnOk result (self.new ≡ after_object name.now self.old) }
    {
        self.outputs.push(name.clone()?)?;
        self.passed_on.push(name.clone()?)?;
        Ok(())
    }

    /// Adds a word of the link.
    pub(crate) fn add_word(&mut self, word: &Word) -> Result<(), AllocError>
        ensures { OnOk result (self.new ≡ after_word word.now self.old) }
    {
        self.outputs.push(word.clone()?)?;
        Ok(())
    }

    /// Adds the job of a source.
    fn add_job(&mut self, job: Job) -> Result<(), AllocError>
        ensures { OnOk result (self.new ≡ after_job job self.old) }
    {
        push_output(&mut self.outputs, &job.output)?;
        self.jobs.push(job)?;
        Ok(())
    }

    /// Keeps what goes on from a text to the next one. Notices and options are moved
    /// out of its outcome.
    fn go_on(&mut self, alloc: Global, done: &mut Outcome) -> Result<(), AllocError>
        ensures keeps { OnOk result (self.new ≡ after_text done.old self.old) }
        ensures job { done.new.job ≡ done.old.job }
    {
        let notices = mem::replace(&mut done.notices, Listing::new(alloc));
        move_words(&mut self.notices, notices)?;
        let accumulated = mem::replace(&mut done.accumulated, Listing::new(alloc));
        self.context.go_on(accumulated, done.next_number);
        Ok(())
    }

    /// Runs a text in the context, and keeps what goes on to the next one. The system is asked only
    /// if the table has no answer.
    ///
    /// # Errors
    /// The machine's refusal of the text.
    pub(crate) fn work<S: System, W: Work>(
        &mut self,
        alloc: Global,
        text: &SpecTree,
        outside: &mut Outside<'_, S>,
        worker: &mut W,
    ) -> Result<Job, PlanFault>
        ensures asks { Asked S.events outside.old outside.new }
        ensures works { (F : Facts) → Extends outside.new.facts.now F
            → GivesKnown PlanFault.Memory (λ job. (job, self.new)) result
            (worked F text.now self.old) }
    {
        let mut done = worker.run(alloc, text, &self.context, outside.sys, outside.facts)?;
        self.go_on(alloc, &mut done)?;
        Ok(into_job(done))
    }

    /// Runs the text of a source, and adds its job.
    ///
    /// # Errors
    /// The machine's refusal of the text.
    pub(crate) fn add_source<S: System, W: Work>(
        &mut self,
        alloc: Global,
        source: Placed<Source<'a>>,
        text: &SpecTree,
        outside: &mut Outside<'_, S>,
        worker: &mut W,
    ) -> Result<(), PlanFault>
        ensures asks { Asked S.events outside.old outside.new }
        ensures works { (F : Facts) → Extends outside.new.facts.now F
            → GivesKnown PlanFault.Memory (λ _. self.new) result
            (with_source F source.entry.place source.entry.of text.now self.old) }
    {
        self.context.set_input(Some(source.of));
        let job = self.work(alloc, text, outside, worker)?;
        self.add_job(of_source(source.place, job))?;
        Ok(())
    }

    /// Runs the text of the link, which takes all outputs.
    ///
    /// # Errors
    /// The machine's refusal of the text.
    pub(crate) fn work_link<S: System, W: Work>(
        &mut self,
        alloc: Global,
        text: &SpecTree,
        outside: &mut Outside<'_, S>,
        worker: &mut W,
    ) -> Result<Job, PlanFault>
        ensures asks { Asked S.events outside.old outside.new }
        ensures works { (F : Facts) → Extends outside.new.facts.now F
            → GivesKnown PlanFault.Memory (λ job. (job, self.new)) result
            (worked F text.now (for_link self.old)) }
    {
        let outputs = mem::replace(&mut self.outputs, Listing::new(alloc));
        self.context.set_input(None);
        self.context.set_outputs(outputs);
        self.work(alloc, text, outside, worker)
    }
}
