//! The files that may be left over at the end of a run: the temporaries and the marked files.

// In clauses: `IsFresh` says that nothing was counted yet. `swept` is the files that are left after
// the events, each path once.
ghost use Rattle.drv_core.specs.Code.LeftoverView.{IsFresh, leftover_list, leftover_of};
ghost use Rattle.drv_core.specs.Code.Leftovers.{called_by, calling, counted, gathered, is_counted};
ghost use Rattle.drv_core.specs.Code.Leftovers.{is_first, noted, noting, noting_claim, swept};
ghost use Rattle.drv_core.specs.Code.Numbering.{numbered_files};
ghost use Rattle.drv_core.specs.Events.{job_of};
ghost use Rattle.drv_core.specs.Windowed.{all_files};
ghost use Rattle.std.specs.Prelude.{◌≡◌, ◌-◌, ◌<◌, ◌≤◌, ◌^◌, ◌++◌, ◌∷◌, [], IfOk, false, get_or, length};
ghost use Rattle.std.specs.Prelude.{slice_get, slice_set, true, ℕ};
ghost use Rattle.std.specs.Vec.{vec_capacity};

use crate::numbering::files_of;
use drv_words::{Answer, ClaimAnswer, Place, Plan, RunEvent, Step};
use std::alloc::{AllocError, Global};

/// A temporary or a marked file.
#[derive(Clone, Copy)]
pub(crate) struct Leftover {
    pub(crate) place: Place,
    /// The number of the first file with the same path.
    pub(crate) first: usize,
}

/// The temporaries and the marked files of all jobs, in the order of their removal.
#[derive(Drop)]
pub(crate) struct Leftovers {
    pub(crate) files: Vec<Leftover>,
    /// For each number of a first file, whether its path is due already.
    pub(crate) gone: Vec<bool>,
    /// How many temporaries of each job were claimed.
    pub(crate) claimed: Vec<usize>,
    /// Whether each job claimed or started something.
    pub(crate) called: Vec<bool>,
    /// The files that are removed.
    pub(crate) due: Vec<Place>,
    /// The number of the one that is removed next, or the number of files.
    pub(crate) at: usize,
}

/// The job of a place.
fn job_of(place: Place) -> usize
    ensures { result ≡ job_of place }
{
    match place {
        Place::Command { job, .. } => job,
        Place::Temp { job, .. } => job,
        Place::Marked { job, .. } => job,
        Place::OnFailure { job, .. } => job,
    }
}

impl Leftovers {
    /// The files before the run.
    pub(crate) fn new(alloc: Global, plan: &Plan) -> Result<Leftovers, AllocError>
        ensures { IfOk result (λ made. IsFresh plan.now made) }
    {
        let files = files_of(alloc, plan)?;
        let gone = vec![in alloc; false; files.len()]?;
        let mut claimed = vec![in alloc; 0; plan.jobs.len()]?;
        claimed.push(0)?;
        let mut called = vec![in alloc; false; plan.jobs.len()]?;
        called.push(false)?;
        let due = Vec::with_capacity(alloc, files.len())?;
        Ok(Leftovers {
            files,
            gone,
            claimed,
            called,
            due,
            at: 0,
        })
    }

    /// The file that is removed next.
    pub(crate) fn place(&self) -> Option<Place>
        ensures { result ≡ slice_get self.now.due.items self.now.at }
    {
        match self.due.as_slice().get(self.at) {
            Some(place) => Some(*place),
            None => None,
        }
    }

    /// Counts one more claimed temporary of this job.
    fn count_claim(&mut self, job: usize)
        requires few { get_or self.old.claimed.items job 0 < 2 ^ 64 - 1 }
        ensures claimed { self.new.claimed.items ≡ counted self.old.claimed.items job }
        ensures called { self.new.called ≡ self.old.called }
        ensures files { self.new.files ≡ self.old.files }
        ensures gone { self.new.gone ≡ self.old.gone }
        ensures due { self.new.due ≡ self.old.due }
    {
        if job < self.claimed.len() {
            self.claimed[job] += 1;
        }
    }

    /// Notes that a job claimed or started something.
    fn note_call(&mut self, job: usize)
        ensures called { self.new.called.items ≡ slice_set self.old.called.items job true }
        ensures claimed { self.new.claimed ≡ self.old.claimed }
        ensures files { self.new.files ≡ self.old.files }
        ensures gone { self.new.gone ≡ self.old.gone }
        ensures due { self.new.due ≡ self.old.due }
    {
        if job < self.called.len() {
            self.called[job] = true;
        }
    }

    /// Counts the claim of a temporary, if it succeeded.
    fn note_claim(&mut self, place: Place, answer: Answer)
        requires few { (k : ℕ) → get_or self.old.claimed.items k 0 < 2 ^ 64 - 1 }
        ensures claimed { self.new.claimed.items ≡ noting_claim self.old.claimed.items place answer }
        ensures called { self.new.called ≡ self.old.called }
        ensures files { self.new.files ≡ self.old.files }
        ensures gone { self.new.gone ≡ self.old.gone }
        ensures due { self.new.due ≡ self.old.due }
    {
        match (place, answer) {
            (Place::Temp { job, .. }, Answer::Claim(ClaimAnswer::Claimed)) => self.count_claim(job),
            _ => {}
        }
    }

    /// Counts a claim or a start.
    fn note(&mut self, event: RunEvent)
        requires few { (k : ℕ) → get_or self.old.claimed.items k 0 < 2 ^ 64 - 1 }
        ensures claimed { self.new.claimed.items
            ≡ noting self.old.claimed.items event.step event.answer }
        ensures called { self.new.called.items ≡ calling self.old.called.items event.step }
        ensures files { self.new.files ≡ self.old.files }
        ensures gone { self.new.gone ≡ self.old.gone }
        ensures due { self.new.due ≡ self.old.due }
    {
        match event.step {
            Step::Claim(place) => {
                self.note_call(job_of(place));
                self.note_claim(place, event.answer);
            }
            Step::Start { place, .. } => self.note_call(job_of(place)),
            Step::ClosePipe => {}
            Step::Wait { .. } => {}
            Step::Remove(_) => {}
            Step::Report(_) => {}
        }
    }

    /// Counts the claims and starts of these events.
    fn count(&mut self, events: &[RunEvent])
        requires fresh { (k : ℕ) → get_or self.old.claimed.items k 0 ≡ 0 }
        requires few { length events.now < 2 ^ 64 - 1 }
        ensures claimed { self.new.claimed.items ≡ noted self.old.claimed.items events.now }
        ensures called { self.new.called.items ≡ called_by self.old.called.items events.now }
        ensures files { self.new.files ≡ self.old.files }
        ensures gone { self.new.gone ≡ self.old.gone }
        ensures due { self.new.due ≡ self.old.due }
    {
        for index in 0..events.len() {
            let event = events[index];
            self.note(event);
        }
    }

    /// Whether a file is a claimed temporary, or a marked file of a job that made a call.
    fn is_left(&self, place: Place) -> bool
        ensures { result ≡ is_counted self.now.claimed.items self.now.called.items place }
    {
        match place {
            Place::Command { .. } => false,
            Place::Temp { job, index } => match self.claimed.as_slice().get(job) {
                Some(count) => index < *count,
                None => false,
            },
            Place::Marked { job, .. } => match self.called.as_slice().get(job) {
                Some(called) => *called,
                None => false,
            },
            Place::OnFailure { .. } => false,
        }
    }

    /// Whether the path of this number is due already.
    fn is_gone(&self, number: usize) -> bool
        ensures { result ≡ get_or self.now.gone.items number false }
    {
        match self.gone.as_slice().get(number) {
            Some(gone) => *gone,
            None => false,
        }
    }

    /// Whether a file is left, and no earlier one has its path.
    fn is_due(&self, file: Leftover) -> bool
        ensures { result ≡ is_first self.now.claimed.items self.now.called.items
            self.now.gone.items (leftover_of file) }
    {
        self.is_left(file.place) && !self.is_gone(file.first)
    }

    /// Adds a file to those that are removed.
    fn add(&mut self, file: Leftover)
        requires room { length self.old.due.items < vec_capacity self.old.due }
        ensures due { self.new.due.items ≡ self.old.due.items ++ file.place ∷ [] }
        ensures gone { self.new.gone.items ≡ slice_set self.old.gone.items file.first true }
        ensures room { vec_capacity self.new.due ≡ vec_capacity self.old.due }
        ensures claimed { self.new.claimed ≡ self.old.claimed }
        ensures called { self.new.called ≡ self.old.called }
        ensures files { self.new.files ≡ self.old.files }
    {
        if file.first < self.gone.len() {
            self.gone[file.first] = true;
        }
        self.due.push_reserved(file.place);
    }

    /// Adds the files that are removed, each path once.
    fn gather(&mut self)
        requires due { self.old.due.items ≡ [] }
        requires room { length self.old.files.items ≤ vec_capacity self.old.due }
        ensures due { self.new.due.items ≡ gathered self.old.claimed.items self.old.called.items
            self.old.gone.items (leftover_list self.old.files.items) }
    {
        for index in 0..self.files.len() {
            let file = self.files[index];
            if self.is_due(file) {
                self.add(file);
            }
        }
    }

    /// Finds the files that are removed after these events.
    pub(crate) fn sweep(&mut self, plan: &Plan, events: &[RunEvent])
        requires fresh { IsFresh plan.now self.old }
        requires few { length events.now < 2 ^ 64 - 1 }
        ensures due { self.new.due.items ≡ swept plan.now events.now }
        ensures at { self.new.at ≡ 0 }
    {
        let _jobs = plan.jobs.len();
        self.count(events);
        self.gather();
        self.at = 0;
    }
}
