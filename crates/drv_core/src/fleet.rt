//! The sources of a run, and the source in progress.

// In clauses: `fleet_of` is what definitions see of the sources. `AllFilled` says that no group of
// any job is empty. `AllInRoom` says that each source has room for its children.
ghost use Rattle.drv_core.specs.Code.Fleet.{asked_of, busy, closed, ended, first_busy, flying};
ghost use Rattle.drv_core.specs.Code.Fleet.{all_fly, fresh_fleet, going, able, may_begin, may_go, opened};
ghost use Rattle.drv_core.specs.Code.Fleet.{selected, taken, turned, worked};
ghost use Rattle.drv_core.specs.Code.FleetView.{AllInRoom, all_may, fleet_of, turn_in};
ghost use Rattle.drv_core.specs.Code.Machine.{Out};
ghost use Rattle.drv_core.specs.Code.Turns.{awaits, is_inside, is_left};
ghost use Rattle.drv_core.specs.Filled.{Filled};
ghost use Rattle.drv_core.specs.Story.{begin};
ghost use Rattle.drv_words.specs.Places.{no_job};
ghost use Rattle.drv_words.specs.declared.plan.Job.{Job};
ghost use Rattle.std.specs.List.{filter, position};
ghost use Rattle.std.specs.Prelude.{◌≡◌, ◌+◌, ◌<◌, ◌≤◌, IfOk, List, OnOk, drop, get_or, length};
ghost use Rattle.std.specs.Prelude.{slice_get, ℕ};
ghost use Rattle.std.specs.Vec.{vec_capacity};

use crate::source::SourceState;
use crate::window::Window;
use drv_words::{Answer, Job, Step};
use std::alloc::{AllocError, Global};

/// The sources of a run. Some are under way at once, and one of them is in progress.
#[derive(Drop)]
pub(crate) struct Fleet {
    pub(crate) sources: Vec<SourceState>,
    /// The sources that have begun and not ended, in order.
    pub(crate) begun: Vec<usize>,
    /// The first source that has not begun and has something to do, or the number of sources.
    pub(crate) next: usize,
    /// How many have not ended.
    pub(crate) unended: usize,
    /// The source in progress.
    pub(crate) current: usize,
    /// How many may be under way at once.
    pub(crate) window: Window,
}

/// Which of the sources that have begun may go on.
#[derive(Clone, Copy)]
pub(crate) enum Allowed {
    /// All of them.
    All,
    /// Those whose next block is not a wait.
    NotWaiting,
}

/// Whether a job has something to do.
fn is_busy(job: &Job) -> bool
    ensures { result ≡ busy job.now }
{
    !job.groups.as_slice().is_empty()
}

/// The index of the first job that has something to do.
fn busy_place(jobs: &[Job]) -> Option<usize>
    ensures { result ≡ position busy jobs.now }
{
    jobs.iter().position(is_busy)
}

/// The first job from `from` on that has something to do, or the number of jobs.
#[tactic(auto, using(crate::proofs::Searches::place_within))]
fn first_busy(jobs: &[Job], from: usize) -> usize
    requires { from ≤ length jobs.now }
    ensures { result ≡ first_busy from (drop from jobs.now) }
{
    let left = &jobs[from..];
    from + busy_place(left).unwrap_or(left.len())
}

/// How many jobs have something to do.
fn count_busy(jobs: &[Job]) -> usize
    ensures { result ≡ length (filter busy jobs.now) }
{
    jobs.iter().filter(|job| is_busy(job)).count()
}

/// A source for each job. No job has an empty group.
fn sources_of(alloc: Global, jobs: &[Job]) -> Result<Vec<SourceState>, AllocError>
    ensures fresh { IfOk result (λ made. (k : ℕ) → turn_in (get_or jobs.now k no_job)
        (slice_get made.items k) ≡ Out (begin (get_or jobs.now k no_job))) }
    ensures many { IfOk result (λ made. length made.items ≡ length jobs.now) }
    ensures room { IfOk result (λ made. AllInRoom jobs.now made.items) }
    ensures filled { OnOk result ((k : ℕ) → Filled (get_or jobs.now k no_job)) }
{
    let mut sources = Vec::with_capacity(alloc, jobs.len())?;
    for job in jobs {
        let source = SourceState::new(alloc, job)?;
        sources.push(source)?;
    }
    Ok(sources)
}

impl Fleet {
    /// The sources before the run.
    pub(crate) fn new(alloc: Global, jobs: &[Job], window: Window) -> Result<Fleet, AllocError>
        ensures fresh { IfOk result (λ made. fleet_of jobs.now made ≡ fresh_fleet jobs.now window) }
        ensures many { IfOk result (λ made. length made.sources.items ≡ length jobs.now) }
        ensures room { IfOk result (λ made. AllInRoom jobs.now made.sources.items) }
        ensures filled { OnOk result ((k : ℕ) → Filled (get_or jobs.now k no_job)) }
    {
        let sources = sources_of(alloc, jobs)?;
        // One more than the window, so that there is always room for one more.
        let begun = Vec::with_capacity(alloc, window.sources() + 1)?;
        let next = first_busy(jobs, 0);
        Ok(Fleet {
            sources,
            begun,
            next,
            unended: count_busy(jobs),
            current: next,
            window,
        })
    }

    /// The next step of the source in progress; `None` once all sources have ended.
    pub(crate) fn asks(&self, jobs: &[Job]) -> Option<Step>
        requires jobs { self.now.current < length jobs.now }
        requires sources { self.now.current < length self.now.sources.items }
        ensures { result ≡ asked_of jobs.now (fleet_of jobs.now self.now) }
    {
        self.sources[self.current].asks(self.current, &jobs[self.current])
    }

    /// Takes the answer to the next step.
    pub(crate) fn take(&mut self, jobs: &[Job], answer: Answer)
        requires jobs { self.old.current < length jobs.now }
        requires sources { self.old.current < length self.old.sources.items }
        requires children { AllInRoom jobs.now self.old.sources.items }
        requires room { length self.old.begun.items < vec_capacity self.old.begun }
        ensures taken { fleet_of jobs.now self.new ≡ taken jobs.now (fleet_of jobs.now self.old) answer }
        ensures many { length self.new.sources.items ≡ length self.old.sources.items }
        ensures children { AllInRoom jobs.now self.new.sources.items }
    {
        self.work(jobs, answer);
        // Within a block no other source may go on.
        if self.is_inside() {
            return;
        }
        self.turn(jobs);
    }

    /// The source in progress takes the answer.
    fn work(&mut self, jobs: &[Job], answer: Answer)
        requires jobs { self.old.current < length jobs.now }
        requires sources { self.old.current < length self.old.sources.items }
        requires children { AllInRoom jobs.now self.old.sources.items }
        ensures fleet { fleet_of jobs.now self.new ≡ worked jobs.now (fleet_of jobs.now self.old) answer }
        ensures many { length self.new.sources.items ≡ length self.old.sources.items }
        ensures children { AllInRoom jobs.now self.new.sources.items }
        ensures current { self.new.current ≡ self.old.current }
        ensures begun { self.new.begun.items ≡ self.old.begun.items }
        ensures capacity { vec_capacity self.new.begun ≡ vec_capacity self.old.begun }
    {
        self.sources[self.current].take(&jobs[self.current], answer);
    }

    /// Whether the source in progress has an open block.
    pub(crate) fn is_inside(&self) -> bool
        ensures { (jobs : List Job)
            → result ≡ is_inside ((fleet_of jobs self.now).turns self.now.current) }
    {
        match self.sources.as_slice().get(self.current) {
            Some(source) => source.is_inside(),
            None => false,
        }
    }

    /// Whether the source in progress has more to do.
    fn is_left(&self) -> bool
        ensures { (jobs : List Job)
            → result ≡ is_left ((fleet_of jobs self.now).turns self.now.current) }
    {
        match self.sources.as_slice().get(self.current) {
            Some(source) => source.is_left(),
            None => false,
        }
    }

    /// Ends a block of the source in progress, and lets a source go on that may.
    fn turn(&mut self, jobs: &[Job])
        requires jobs { self.old.current < length jobs.now }
        requires room { length self.old.begun.items < vec_capacity self.old.begun }
        ensures turned { fleet_of jobs.now self.new ≡ turned jobs.now (fleet_of jobs.now self.old) }
        ensures sources { self.new.sources.items ≡ self.old.sources.items }
    {
        self.open(jobs);
        self.close();
        self.current = self.nth_going(0);
    }

    /// After its first block a source has begun.
    fn open(&mut self, jobs: &[Job])
        requires jobs { self.old.current < length jobs.now }
        requires room { length self.old.begun.items < vec_capacity self.old.begun }
        ensures opened { fleet_of jobs.now self.new ≡ opened jobs.now (fleet_of jobs.now self.old) }
        ensures sources { self.new.sources.items ≡ self.old.sources.items }
    {
        // Any other source has begun already, and is in the list.
        if self.current == self.next {
            self.begun.push_reserved(self.current);
            self.next = first_busy(jobs, self.current + 1);
        }
    }

    /// After its last block a source has ended.
    fn close(&mut self)
        ensures closed { (jobs : List Job) → fleet_of jobs self.new ≡ closed (fleet_of jobs self.old) }
        ensures sources { self.new.sources.items ≡ self.old.sources.items }
    {
        if !self.is_left() {
            self.end();
        }
    }

    /// The source in progress has ended.
    fn end(&mut self)
        ensures ended { (jobs : List Job) → fleet_of jobs self.new ≡ ended (fleet_of jobs self.old) }
        ensures sources { self.new.sources.items ≡ self.old.sources.items }
    {
        let number = self.current;
        self.begun.retain(|other| *other != number);
        self.unended = self.unended.saturating_sub(1);
    }

    /// Whether the next block of a source is a wait.
    fn awaits(&self, number: usize) -> bool
        ensures { (jobs : List Job) → result ≡ awaits ((fleet_of jobs self.now).turns number) }
    {
        match self.sources.as_slice().get(number) {
            Some(source) => source.awaits(),
            None => false,
        }
    }

    /// How many sources have a child in flight.
    fn count_flying(&self) -> usize
        ensures { (jobs : List Job) → result ≡ flying (fleet_of jobs self.now) }
    {
        let begun = self.begun.as_slice();
        begun.iter().filter(|number| self.awaits(**number)).count()
    }

    /// A source may wait once all sources that can have a child in flight have one.
    fn allowance(&self) -> Allowed
        ensures { (jobs : List Job) → all_may result ≡ all_fly (fleet_of jobs self.now) }
    {
        if self.count_flying() == self.window.sources().min(self.unended) {
            Allowed::All
        } else {
            Allowed::NotWaiting
        }
    }

    /// Whether a source that has begun may go on.
    fn may_go(&self, allowed: Allowed, number: usize) -> bool
        ensures { (jobs : List Job)
            → result ≡ may_go (all_may allowed) (fleet_of jobs self.now) number }
    {
        match allowed {
            Allowed::All => true,
            Allowed::NotWaiting => !self.awaits(number),
        }
    }

    /// The source of this number among those that have begun and may go on, or else the next one
    /// that begins.
    fn nth_going(&self, choice: usize) -> usize
        ensures { (jobs : List Job)
            → result ≡ get_or (going (fleet_of jobs self.now)) choice self.now.next }
    {
        let allowed = self.allowance();
        let begun = self.begun.as_slice();
        let mut going = begun.iter().filter(|number| self.may_go(allowed, **number));
        going.nth(choice).copied().unwrap_or(self.next)
    }

    /// How many of the sources that have begun may go on.
    fn count_going(&self) -> usize
        ensures going { (jobs : List Job) → result ≡ length (going (fleet_of jobs self.now)) }
        ensures few { result ≤ length self.now.begun.items }
    {
        let allowed = self.allowance();
        let begun = self.begun.as_slice();
        begun
            .iter()
            .filter(|number| self.may_go(allowed, **number))
            .count()
    }

    /// Whether the next source may begin: the window has room for it.
    fn may_begin(&self, jobs: &[Job]) -> bool
        ensures { result ≡ may_begin jobs.now (fleet_of jobs.now self.now) }
    {
        self.next < jobs.len() && self.begun.as_slice().len() < self.window.sources()
    }

    /// How many sources may go on.
    pub(crate) fn count_able(&self, jobs: &[Job]) -> usize
        ensures { result ≡ length (able jobs.now (fleet_of jobs.now self.now)) }
    {
        let going = self.count_going();
        if self.may_begin(jobs) {
            going + 1
        } else {
            going
        }
    }

    /// Goes on with the source of this number among those that may.
    pub(crate) fn select(&mut self, choice: usize)
        ensures selected { (jobs : List Job)
            → fleet_of jobs self.new ≡ selected (fleet_of jobs self.old) choice }
        ensures sources { self.new.sources.items ≡ self.old.sources.items }
    {
        self.current = self.nth_going(choice);
    }
}
