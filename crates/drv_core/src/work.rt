//! The progress of a run: its phases one after another, and the events so far.

// In clauses: `course_of` is what definitions see of a run. `Rooms` says that there is room for what
// it does, and `Unswept` that before the removals nothing was counted.
ghost use Rattle.drv_core.specs.Code.Course.{after_link, after_sources, asked_by, between, choices_of};
ghost use Rattle.drv_core.specs.Code.Course.{choosing, fresh_course, link_job, linking, removed};
ghost use Rattle.drv_core.specs.Code.Course.{removing, sourced, stepped};
ghost use Rattle.drv_core.specs.Code.LeftoverView.{IsFresh};
ghost use Rattle.drv_core.specs.Code.CourseView.{Ready, Rooms, Unswept, course_of};
ghost use Rattle.drv_core.specs.Code.Fleet.{taken};
ghost use Rattle.drv_core.specs.Code.Machine.{Out, asked, took};
ghost use Rattle.drv_core.specs.Code.SourceView.{InRoom, turn_of};
ghost use Rattle.drv_core.specs.Codes.{greatest_code};
ghost use Rattle.drv_core.specs.Events.{answer_code, code_of, is_claimed, is_started};
ghost use Rattle.drv_core.specs.Filled.{AllFilled, Filled};
ghost use Rattle.drv_core.specs.Needed.{needed};
ghost use Rattle.drv_core.specs.Story.{begin};
ghost use Rattle.drv_words.specs.declared.plan.Plan.{Plan};
ghost use Rattle.std.specs.Prelude.{◌≡◌, ◌<◌, ◌≤◌, [], IfOk, None, OnOk, drop, if◌then◌else◌, length};
ghost use Rattle.std.specs.Vec.{vec_capacity};

use crate::fleet::Fleet;
use crate::leftovers::Leftovers;
use crate::needed::events_needed;
use crate::source::SourceState;
use crate::window::Window;
use drv_words::{
    Answer, ClaimAnswer, Note, Plan, RemoveAnswer, RunEvent, StartAnswer, Step, WaitAnswer,
};
use std::alloc::{AllocError, Global};

/// The phase of a run.
#[derive(Clone, Copy)]
pub(crate) enum Phase {
    /// The sources.
    Sources,
    /// The link.
    Link,
    /// The next file is removed.
    Removals,
    /// The removal failed and is reported next.
    Report,
    /// Nothing is left to do.
    Done,
}

/// The progress of a run: its phases one after another, and the events so far.
#[derive(Drop)]
pub(crate) struct RunState {
    pub(crate) phase: Phase,
    pub(crate) fleet: Fleet,
    pub(crate) link: SourceState,
    pub(crate) leftovers: Leftovers,
    pub(crate) events: Vec<RunEvent>,
}

/// The code of an answer: 1 for a failed claim or start, and a child's own code.
fn answer_code(answer: Answer) -> u8
    ensures { result ≡ answer_code answer }
{
    match answer {
        Answer::Claim(claimed) => claim_code(claimed),
        Answer::Start(started) => start_code(started),
        Answer::Closed => 0,
        Answer::Wait(ended) => wait_code(ended),
        Answer::Remove(_) => 0,
        Answer::Reported(_) => 0,
    }
}

/// The code of a claim.
fn claim_code(claimed: ClaimAnswer) -> u8
    ensures { result ≡ (if is_claimed claimed then 0 else 1) }
{
    match claimed {
        ClaimAnswer::Claimed => 0,
        ClaimAnswer::Taken => 1,
        ClaimAnswer::Failed => 1,
    }
}

/// The code of a start.
fn start_code(started: StartAnswer) -> u8
    ensures { result ≡ (if is_started started then 0 else 1) }
{
    match started {
        StartAnswer::Started(_) => 0,
        StartAnswer::NotStarted(_) => 1,
    }
}

/// The code of a child.
fn wait_code(ended: WaitAnswer) -> u8
    ensures { result ≡ code_of ended }
{
    match ended {
        WaitAnswer::Exit(code) => code,
        WaitAnswer::Signal => 1,
        WaitAnswer::Lost => 1,
    }
}

/// The greatest code of these events.
pub(crate) fn greatest_code(events: &[RunEvent]) -> u8
    ensures { result ≡ greatest_code events.now }
{
    let mut code = 0;
    for event in events {
        code = answer_code(event.answer).max(code);
    }
    code
}

/// The link before its first step, or nothing to do if there is no link.
fn link_source(alloc: Global, plan: &Plan) -> Result<SourceState, AllocError>
    ensures fresh { IfOk result (λ made. turn_of (link_job plan.now) made
        ≡ Out (begin (link_job plan.now))) }
    ensures room { IfOk result (λ made. InRoom (link_job plan.now) made) }
    ensures filled { OnOk result (Filled (link_job plan.now)) }
{
    match &plan.link {
        Some(job) => SourceState::new(alloc, job),
        None => SourceState::idle(alloc),
    }
}

/// Room for all events of a run.
fn room_for(alloc: Global, plan: &Plan) -> Result<Vec<RunEvent>, AllocError>
    ensures events { IfOk result (λ made. made.items ≡ []) }
    ensures room { IfOk result (λ made. needed plan.now ≤ vec_capacity made) }
{
    match events_needed(plan) {
        Some(count) => Vec::with_capacity(alloc, count),
        None => Err(AllocError),
    }
}

impl RunState {
    /// The next step; `None` once the run is whole.
    #[tactic(auto, using(crate::proofs::Shown::removes_some, crate::proofs::Shown::removes_none, crate::proofs::Shown::reports_some, crate::proofs::Shown::reports_none))]
    pub(crate) fn asks(&self, plan: &Plan) -> Option<Step>
        requires { Ready plan.now self.now }
        ensures { result ≡ asked_by plan.now (course_of plan.now self.now) }
    {
        match self.phase {
            Phase::Sources => self.fleet.asks(plan.jobs.as_slice()),
            Phase::Link => self.asks_link(plan),
            Phase::Removals => match self.leftovers.place() {
                Some(place) => Some(Step::Remove(place)),
                None => None,
            },
            Phase::Report => match self.leftovers.place() {
                Some(place) => Some(Step::Report(Note::NotRemoved(place))),
                None => None,
            },
            Phase::Done => None,
        }
    }

    /// The next step of the link.
    fn asks_link(&self, plan: &Plan) -> Option<Step>
        requires link { plan.now.link ≡ None → ⊥ }
        ensures { result ≡ asked (length plan.now.jobs) (link_job plan.now)
            (turn_of (link_job plan.now) self.now.link) }
    {
        match &plan.link {
            Some(job) => self.link.asks(plan.jobs.len(), job),
            None => None,
        }
    }

    /// Goes on with the next file, if there is one.
    #[tactic(auto, using(crate::proofs::Shown::none_left))]
    fn show(&mut self)
        ensures shown { (plan : Plan) → course_of plan self.new ≡ removing (course_of plan self.old)
            (drop self.old.leftovers.at self.old.leftovers.due.items) }
        ensures fleet { self.new.fleet ≡ self.old.fleet }
        ensures link { self.new.link ≡ self.old.link }
        ensures events { self.new.events ≡ self.old.events }
        ensures unswept { (plan : Plan) → Unswept plan self.new }
    {
        if self.leftovers.at < self.leftovers.due.len() {
            self.phase = Phase::Removals;
        } else {
            self.phase = Phase::Done;
        }
    }

    /// Removes the leftover files, from the first on.
    fn remove_first(&mut self, plan: &Plan)
        requires fresh { IsFresh plan.now self.old.leftovers }
        ensures removes { course_of plan.now self.new ≡ after_link plan.now (course_of plan.now self.old) }
        ensures fleet { self.new.fleet ≡ self.old.fleet }
        ensures link { self.new.link ≡ self.old.link }
        ensures events { self.new.events ≡ self.old.events }
        ensures unswept { Unswept plan.now self.new }
    {
        self.leftovers.sweep(plan, self.events.as_slice());
        self.show();
    }

    /// Goes on with the link, or ends it.
    fn enter_link(&mut self, plan: &Plan)
        requires fresh { IsFresh plan.now self.old.leftovers }
        ensures enters { course_of plan.now self.new ≡ linking plan.now (course_of plan.now self.old) }
        ensures fleet { self.new.fleet ≡ self.old.fleet }
        ensures link { self.new.link ≡ self.old.link }
        ensures events { self.new.events ≡ self.old.events }
        ensures unswept { Unswept plan.now self.new }
    {
        // A plan without a link has a job without commands in its place.
        if self.link.is_left() {
            self.phase = Phase::Link;
        } else {
            self.remove_first(plan);
        }
    }

    /// Runs the link if every source succeeded.
    fn end_sources(&mut self, plan: &Plan)
        requires fresh { IsFresh plan.now self.old.leftovers }
        ensures ends { course_of plan.now self.new
            ≡ after_sources plan.now (course_of plan.now self.old) }
        ensures fleet { self.new.fleet ≡ self.old.fleet }
        ensures link { self.new.link ≡ self.old.link }
        ensures events { self.new.events ≡ self.old.events }
        ensures unswept { Unswept plan.now self.new }
    {
        if greatest_code(self.events.as_slice()) == 0 {
            self.enter_link(plan);
        } else {
            self.remove_first(plan);
        }
    }

    /// Goes on with the link after the last source.
    fn leave_sources(&mut self, plan: &Plan)
        requires fresh { IsFresh plan.now self.old.leftovers }
        ensures leaves { course_of plan.now self.new ≡ sourced plan.now (course_of plan.now self.old) }
        ensures fleet { self.new.fleet ≡ self.old.fleet }
        ensures link { self.new.link ≡ self.old.link }
        ensures events { self.new.events ≡ self.old.events }
        ensures unswept { Unswept plan.now self.old → Unswept plan.now self.new }
    {
        if self.fleet.unended == 0 {
            self.end_sources(plan);
        }
    }

    /// The source in progress takes an answer.
    fn take_source(&mut self, plan: &Plan, answer: Answer)
        requires jobs { self.old.fleet.current < length plan.now.jobs }
        requires sources { self.old.fleet.current < length self.old.fleet.sources.items }
        requires begun { length self.old.fleet.begun.items < vec_capacity self.old.fleet.begun }
        requires rooms { Rooms plan.now self.old }
        requires fresh { IsFresh plan.now self.old.leftovers }
        requires unswept { Unswept plan.now self.old }
        ensures takes { course_of plan.now self.new ≡ sourced plan.now
            (record (course_of plan.now self.old) {
              fleet = taken plan.now.jobs (course_of plan.now self.old).fleet answer;
            }) }
        ensures rooms { Rooms plan.now self.new }
        ensures unswept { Unswept plan.now self.new }
    {
        self.fleet.take(plan.jobs.as_slice(), answer);
        self.leave_sources(plan);
    }

    /// The link's source takes an answer.
    fn work_link(&mut self, plan: &Plan, answer: Answer)
        requires link { plan.now.link ≡ None → ⊥ }
        requires rooms { Rooms plan.now self.old }
        ensures works { course_of plan.now self.new ≡ record (course_of plan.now self.old) {
          link = took (link_job plan.now) (course_of plan.now self.old).link answer;
        } }
        ensures rooms { Rooms plan.now self.new }
        ensures leftovers { self.new.leftovers ≡ self.old.leftovers }
    {
        match &plan.link {
            Some(job) => self.link.take(job, answer),
            None => {}
        }
    }

    /// The link takes an answer, and goes on or ends.
    fn take_link(&mut self, plan: &Plan, answer: Answer)
        requires link { plan.now.link ≡ None → ⊥ }
        requires rooms { Rooms plan.now self.old }
        requires fresh { IsFresh plan.now self.old.leftovers }
        ensures takes { course_of plan.now self.new ≡ linking plan.now
            (record (course_of plan.now self.old) {
              link = took (link_job plan.now) (course_of plan.now self.old).link answer;
            }) }
        ensures rooms { Rooms plan.now self.new }
        ensures unswept { Unswept plan.now self.new }
    {
        self.work_link(plan, answer);
        self.enter_link(plan);
    }

    /// Goes on after a file.
    #[tactic(auto, using(crate::proofs::Shown::drop_one))]
    fn pass(&mut self)
        requires { self.old.leftovers.at < length self.old.leftovers.due.items }
        ensures passes { (plan : Plan) → course_of plan self.new ≡ removing (course_of plan self.old)
            (drop 1 (course_of plan self.old).due) }
        ensures fleet { self.new.fleet ≡ self.old.fleet }
        ensures link { self.new.link ≡ self.old.link }
        ensures events { self.new.events ≡ self.old.events }
        ensures unswept { (plan : Plan) → Unswept plan self.new }
    {
        self.leftovers.at += 1;
        self.show();
    }

    /// Takes the answer to a removal.
    fn take_removal(&mut self, answer: Answer)
        requires { self.old.leftovers.at < length self.old.leftovers.due.items }
        ensures takes { (plan : Plan)
            → course_of plan self.new ≡ removed (course_of plan self.old) answer }
        ensures fleet { self.new.fleet ≡ self.old.fleet }
        ensures link { self.new.link ≡ self.old.link }
        ensures events { self.new.events ≡ self.old.events }
        ensures unswept { (plan : Plan) → Unswept plan self.new }
    {
        match answer {
            Answer::Remove(RemoveAnswer::Removed) => self.pass(),
            Answer::Remove(RemoveAnswer::Missing) => self.pass(),
            Answer::Remove(RemoveAnswer::NotPlain) => self.pass(),
            _ => self.phase = Phase::Report,
        }
    }

    /// Takes the answer to the next step.
    pub(crate) fn take(&mut self, plan: &Plan, step: Step, answer: Answer)
        requires ready { Ready plan.now self.old }
        requires room { length self.old.events.items < vec_capacity self.old.events }
        requires rooms { Rooms plan.now self.old }
        requires unswept { Unswept plan.now self.old }
        ensures takes { course_of plan.now self.new
            ≡ stepped plan.now (course_of plan.now self.old) step answer }
        ensures rooms { Rooms plan.now self.new }
        ensures unswept { Unswept plan.now self.new }
    {
        self.events.push_reserved(RunEvent { step, answer });
        match self.phase {
            Phase::Sources => self.take_source(plan, answer),
            Phase::Link => self.take_link(plan, answer),
            Phase::Removals => self.take_removal(answer),
            Phase::Report => self.pass(),
            Phase::Done => {}
        }
    }

    /// A run before its first step. It has room for all events, and no group is empty.
    pub(crate) fn new(alloc: Global, plan: &Plan, window: Window) -> Result<RunState, AllocError>
        ensures fresh { IfOk result (λ made. course_of plan.now made ≡ fresh_course plan.now window) }
        ensures rooms { IfOk result (λ made. Rooms plan.now made) }
        ensures unswept { IfOk result (λ made. Unswept plan.now made) }
        ensures filled { OnOk result (AllFilled plan.now) }
    {
        let mut work = RunState {
            phase: Phase::Sources,
            fleet: Fleet::new(alloc, plan.jobs.as_slice(), window)?,
            link: link_source(alloc, plan)?,
            leftovers: Leftovers::new(alloc, plan)?,
            events: room_for(alloc, plan)?,
        };
        work.leave_sources(plan);
        Ok(work)
    }

    /// Whether the next block belongs to a source and is not yet open.
    fn is_between(&self) -> bool
        ensures { (plan : Plan) → result ≡ between (course_of plan self.now) }
    {
        match self.phase {
            Phase::Sources => !self.fleet.is_inside(),
            _ => false,
        }
    }

    /// How many sources may go on, if the next block belongs to a source; otherwise 1.
    pub(crate) fn choices(&self, plan: &Plan) -> usize
        ensures { result ≡ choices_of plan.now (course_of plan.now self.now) }
    {
        if self.is_between() {
            self.fleet.count_able(plan.jobs.as_slice())
        } else {
            1
        }
    }

    /// Goes on with the source of this number among those that may.
    pub(crate) fn choose(&mut self, choice: usize)
        ensures chosen { (plan : Plan)
            → course_of plan self.new ≡ choosing (course_of plan self.old) choice }
        ensures rooms { (plan : Plan) → Rooms plan self.old → Rooms plan self.new }
        ensures unswept { (plan : Plan) → Unswept plan self.old → Unswept plan self.new }
        ensures events { self.new.events ≡ self.old.events }
    {
        if self.is_between() {
            self.fleet.select(choice);
        }
    }
}
