//! One source of a run: its next step, and the effect of each answer.

// In clauses: `turn_of` is what a source stands for. `asked` is its next step, and `took` what an
// answer leaves. `InRoom` says that there is room for the children of each group.
ghost use Rattle.drv_core.specs.Code.Machine.{In, Out, after, after_claim, after_removal, after_start};
ghost use Rattle.drv_core.specs.Code.Machine.{after_wait, asked, asked_now, begun_turn, took};
ghost use Rattle.drv_core.specs.Code.Machine.{took_now};
ghost use Rattle.drv_core.specs.Code.Machine as inside;
ghost use Rattle.drv_core.specs.Code.SourceView.{InGroup, InRoom, has_failed, kid_at, kids_from};
ghost use Rattle.drv_core.specs.Code.SourceView.{turn_at, turn_of};
ghost use Rattle.drv_core.specs.Events.{positive};
ghost use Rattle.drv_core.specs.Filled.{Filled};
ghost use Rattle.drv_core.specs.Code.Turns.{awaits, is_inside, is_left};
ghost use Rattle.drv_core.specs.Story.{Over, after_starts, begin, to_claims, to_groups, to_removals};
ghost use Rattle.drv_core.specs.Story.{to_waits};
ghost use Rattle.drv_core.specs.declared.source.Stage.TheVariants as stage;
ghost use Rattle.drv_words.specs.Places.{group_at, no_job};
ghost use Rattle.drv_words.specs.declared.plan.Job.{Job};
ghost use Rattle.drv_words.specs.declared.answers.Answer.TheVariants as answer;
ghost use Rattle.drv_words.specs.declared.steps.Place.TheVariants as place;
ghost use Rattle.drv_words.specs.declared.steps.Step.TheVariants as step;
ghost use Rattle.std.specs.Prelude.{◌≡◌, ◌||◌, ◌+◌, ◌-◌, ◌<◌, ◌≤◌, [], IfOk, List, OnOk, drop, false, length};
ghost use Rattle.std.specs.Prelude.{nat_eq, nat_lt, not, true, ℕ};
ghost use Rattle.std.specs.Vec.{vec_capacity};

use drv_words::{
    Answer, ClaimAnswer, Job, Note, Place, RemoveAnswer, StartAnswer, Step, WaitAnswer,
};
use std::alloc::{AllocError, Global};

/// Whether a command of a group has failed so far.
#[derive(Clone, Copy)]
pub(crate) enum GroupState {
    Sound,
    Failed,
}

/// A wait for a child of a group.
#[derive(Clone, Copy)]
pub(crate) struct GroupWait {
    /// The number of the group.
    pub(crate) group: usize,
    /// The number of the child in it.
    pub(crate) index: usize,
    /// Whether a command of the group has failed so far.
    pub(crate) state: GroupState,
}

/// The stage of a source.
#[derive(Clone, Copy)]
pub(crate) enum Stage {
    /// Nothing was done yet.
    Fresh,
    /// The temporary of this number is claimed next.
    Claims { index: usize },
    /// The claim failed and is reported next.
    ClaimReport { index: usize },
    /// The first command of this group is started next.
    Starts { group: usize },
    /// Another command of the group is started next.
    Group { group: usize },
    /// The start failed and is reported next.
    StartReport { group: usize },
    /// The pipe that the command would have read is closed next.
    Closing { group: usize },
    /// A child of the group is waited for next.
    Waits { wait: GroupWait },
    /// A signal ended the child, which is reported next.
    SignalReport { wait: GroupWait },
    /// The child was lost, which is reported next.
    LossReport { wait: GroupWait },
    /// This file is removed next, after a failure.
    Removals { index: usize },
    /// The removal failed and is reported next.
    RemovalReport { index: usize },
    /// Nothing is left to do.
    Ended,
}

/// The progress of a source, or of the link.
#[derive(Drop)]
pub(crate) struct SourceState {
    pub(crate) stage: Stage,
    /// The children of the group, in the order of their starts.
    pub(crate) children: Vec<u64>,
}

/// Whether `index + 1` is less than `count`.
fn is_followed(index: usize, count: usize) -> bool
    ensures { result ≡ nat_lt (index + 1) count }
{
    // Not as `index + 1 < count`: the sum could overflow.
    count > 1 && index < count - 1
}

/// The number of commands of a group.
fn group_len(job: &Job, group: usize) -> usize
    ensures { result ≡ length (group_at job.now group) }
{
    match job.groups.as_slice().get(group) {
        Some(commands) => commands.as_slice().len(),
        None => 0,
    }
}

/// The most commands of a group. No group is empty.
fn widest(job: &Job) -> usize
    ensures most { (g : ℕ) → length (group_at job.now g) ≤ result }
    ensures filled { Filled job.now }
{
    let mut most = 0;
    for group in job.groups.as_slice() {
        most = group.as_slice().len().max(most);
    }
    most
}

/// The stage of a group's first start, if there is such a group.
#[tactic(auto, using(crate::proofs::Stages::groups_on))]
fn group_stage(job: &Job, group: usize) -> Stage
    ensures turn { (ids : List ℕ) → turn_at job.now result ids
        ≡ Out (to_groups group (drop group job.now.groups)) }
    ensures within { InGroup job.now result [] }
{
    if group < job.groups.len() {
        Stage::Starts { group }
    } else {
        Stage::Ended
    }
}

/// The stage after a group that has no fault.
#[tactic(auto, using(crate::proofs::Stages::groups_next))]
fn stage_after_group(job: &Job, group: usize) -> Stage
    ensures turn { (ids : List ℕ) → turn_at job.now result ids
        ≡ Out (to_groups (group + 1) (drop (group + 1) job.now.groups)) }
    ensures within { InGroup job.now result [] }
{
    if is_followed(group, job.groups.len()) {
        Stage::Starts { group: group + 1 }
    } else {
        Stage::Ended
    }
}

/// The stage of the first block.
#[tactic(auto, using(crate::proofs::Stages::claims_on))]
fn first_stage(job: &Job) -> Stage
    ensures turn { (ids : List ℕ) → turn_at job.now result ids
        ≡ Out (to_claims job.now 0 job.now.temps) }
    ensures within { InGroup job.now result [] }
{
    if job.temps.as_slice().is_empty() {
        group_stage(job, 0)
    } else {
        Stage::Claims { index: 0 }
    }
}

/// The stage after a claim that succeeded.
#[tactic(auto, using(crate::proofs::Stages::claims_next))]
fn stage_after_claim(job: &Job, index: usize) -> Stage
    ensures turn { (ids : List ℕ) → turn_at job.now result ids
        ≡ Out (to_claims job.now (index + 1) (drop (index + 1) job.now.temps)) }
    ensures within { InGroup job.now result [] }
{
    if is_followed(index, job.temps.len()) {
        Stage::Claims { index: index + 1 }
    } else {
        group_stage(job, 0)
    }
}

/// The stage of the removals of a failed job.
#[tactic(auto, using(crate::proofs::Stages::removals_on))]
fn stage_after_failure(job: &Job) -> Stage
    ensures turn { (ids : List ℕ) → turn_at job.now result ids
        ≡ Out (to_removals 0 job.now.on_failure) }
    ensures within { (ids : List ℕ) → InGroup job.now result ids }
{
    if job.on_failure.as_slice().is_empty() {
        Stage::Ended
    } else {
        Stage::Removals { index: 0 }
    }
}

/// The stage after a removal.
#[tactic(auto, using(crate::proofs::Stages::removals_next))]
fn stage_after_removal(job: &Job, index: usize) -> Stage
    ensures turn { (ids : List ℕ) → turn_at job.now result ids
        ≡ Out (to_removals (index + 1) (drop (index + 1) job.now.on_failure)) }
    ensures within { (ids : List ℕ) → InGroup job.now result ids }
{
    if is_followed(index, job.on_failure.len()) {
        Stage::Removals { index: index + 1 }
    } else {
        Stage::Ended
    }
}

impl GroupState {
    /// The state of the group after a command has ended with this code.
    fn after_exit(self, code: u8) -> GroupState
        ensures { has_failed result ≡ (has_failed self || positive code) }
    {
        if code == 0 { self } else { GroupState::Failed }
    }
}

impl SourceState {
    /// The command that is started next.
    fn place(&self, job: usize, group: usize) -> Place
        ensures { result ≡ place.Command job group (length self.now.children.items) }
    {
        Place::Command {
            job,
            group,
            index: self.children.as_slice().len(),
        }
    }

    /// The start of another command of a group.
    fn next_start(&self, number: usize, job: &Job, group: usize) -> Step
        ensures { result ≡ step.Start (place.Command number group (length self.now.children.items))
            (positive (length self.now.children.items))
            (positive (length (group_at job.now group) - 1 - length self.now.children.items)) }
    {
        let index = self.children.as_slice().len();
        Step::Start {
            place: self.place(number, group),
            from_pipe: index > 0,
            to_pipe: is_followed(index, group_len(job, group)),
        }
    }

    /// The wait for a child of the group.
    fn next_wait(&self, number: usize, wait: GroupWait) -> Step
        ensures { result ≡ step.Wait (place.Command number wait.group wait.index)
            (kid_at self.now.children.items wait.index).id }
    {
        let id = match self.children.as_slice().get(wait.index) {
            Some(id) => *id,
            None => 0,
        };
        Step::Wait {
            place: command(number, wait),
            id,
        }
    }

    /// The next step at a stage, of which something was done.
    fn step_at(&self, number: usize, job: &Job, stage: Stage) -> Option<Step>
        ensures { result ≡ asked_now number (turn_at job.now stage self.now.children.items) }
    {
        match stage {
            Stage::Fresh => None,
            Stage::Claims { index } => Some(Step::Claim(Place::Temp { job: number, index })),
            Stage::ClaimReport { index } => Some(Step::Report(Note::NotClaimed(Place::Temp {
                job: number,
                index,
            }))),
            Stage::Starts { group } => Some(first_start(number, job, group)),
            Stage::Group { group } => Some(self.next_start(number, job, group)),
            Stage::StartReport { group } => Some(Step::Report(Note::NotStarted(self.place(
                number, group,
            )))),
            Stage::Closing { .. } => Some(Step::ClosePipe),
            Stage::Waits { wait } => Some(self.next_wait(number, wait)),
            Stage::SignalReport { wait } => Some(Step::Report(Note::Signalled(command(
                number, wait,
            )))),
            Stage::LossReport { wait } => Some(Step::Report(Note::Lost(command(number, wait)))),
            Stage::Removals { index } => Some(Step::Remove(Place::OnFailure {
                job: number,
                index,
            })),
            Stage::RemovalReport { index } => Some(Step::Report(Note::NotRemoved(Place::OnFailure {
                job: number,
                index,
            }))),
            Stage::Ended => None,
        }
    }

    /// The next step of the source of this number; `None` once its story has ended.
    pub(crate) fn asks(&self, number: usize, job: &Job) -> Option<Step>
        ensures { result ≡ asked number job.now (turn_of job.now self.now) }
    {
        match self.stage {
            Stage::Fresh => self.step_at(number, job, first_stage(job)),
            stage => self.step_at(number, job, stage),
        }
    }

    /// Goes on with another group, or ends.
    fn enter(&mut self, stage: Stage)
        ensures stage { self.new.stage ≡ stage }
        ensures children { self.new.children.items ≡ [] }
        ensures capacity { vec_capacity self.new.children ≡ vec_capacity self.old.children }
    {
        self.children.clear();
        self.stage = stage;
    }

    /// Takes the answer to a claim.
    fn take_claim(&mut self, job: &Job, index: usize, answer: Answer)
        ensures turn { turn_of job.now self.new
            ≡ after_claim job.now index (drop (index + 1) job.now.temps) answer }
        ensures within { InGroup job.now self.new.stage self.new.children.items }
        ensures capacity { vec_capacity self.new.children ≡ vec_capacity self.old.children }
    {
        match answer {
            Answer::Claim(ClaimAnswer::Claimed) => self.enter(stage_after_claim(job, index)),
            _ => self.stage = Stage::ClaimReport { index },
        }
    }

    /// Takes the answer to a removal.
    fn take_removal(&mut self, job: &Job, index: usize, answer: Answer)
        ensures turn { turn_of job.now self.new
            ≡ after_removal index (drop (index + 1) job.now.on_failure) answer }
        ensures within { InGroup job.now self.new.stage self.new.children.items }
        ensures capacity { vec_capacity self.new.children ≡ vec_capacity self.old.children }
    {
        match answer {
            Answer::Remove(RemoveAnswer::Removed) => self.stage = stage_after_removal(job, index),
            Answer::Remove(RemoveAnswer::Missing) => self.stage = stage_after_removal(job, index),
            Answer::Remove(RemoveAnswer::NotPlain) => self.stage = stage_after_removal(job, index),
            _ => self.stage = Stage::RemovalReport { index },
        }
    }

    /// Ends a group in this state: the job goes on, or has failed.
    fn end_group(&mut self, job: &Job, group: usize, state: GroupState)
        ensures turn { turn_of job.now self.new
            ≡ Out (to_waits job.now group (has_failed state) [] (drop (group + 1) job.now.groups)) }
        ensures within { InGroup job.now self.new.stage self.new.children.items }
        ensures capacity { vec_capacity self.new.children ≡ vec_capacity self.old.children }
    {
        match state {
            GroupState::Failed => self.enter(stage_after_failure(job)),
            GroupState::Sound => self.enter(stage_after_group(job, group)),
        }
    }

    /// Goes on after a child that was waited for, with the group in this state.
    #[tactic(auto, using(crate::proofs::Stages::waits_next, crate::proofs::Stages::kids_gone))]
    fn pass_wait(&mut self, job: &Job, wait: GroupWait, state: GroupState)
        ensures turn { turn_of job.now self.new ≡ Out (to_waits job.now wait.group (has_failed state)
            (drop (wait.index + 1) (kids_from 0 self.old.children.items))
            (drop (wait.group + 1) job.now.groups)) }
        ensures within { InGroup job.now self.new.stage self.new.children.items }
        ensures capacity { vec_capacity self.new.children ≡ vec_capacity self.old.children }
    {
        if is_followed(wait.index, self.children.as_slice().len()) {
            let next = GroupWait {
                group: wait.group,
                index: wait.index + 1,
                state,
            };
            self.stage = Stage::Waits { wait: next };
        } else {
            self.end_group(job, wait.group, state);
        }
    }

    /// Takes the answer to a wait.
    fn take_wait(&mut self, job: &Job, wait: GroupWait, answer: Answer)
        ensures turn { turn_of job.now self.new ≡ after_wait job.now wait.group
            (has_failed wait.state) (kid_at self.old.children.items wait.index)
            (drop (wait.index + 1) (kids_from 0 self.old.children.items))
            (drop (wait.group + 1) job.now.groups) answer }
        ensures within { InGroup job.now self.new.stage self.new.children.items }
        ensures capacity { vec_capacity self.new.children ≡ vec_capacity self.old.children }
    {
        match answer {
            Answer::Wait(WaitAnswer::Exit(code)) => self.pass_wait(
                job,
                wait,
                wait.state.after_exit(code),
            ),
            Answer::Wait(WaitAnswer::Signal) => self.stage = Stage::SignalReport { wait },
            _ => self.stage = Stage::LossReport { wait },
        }
    }

    /// Waits for the children of a group, from the first on.
    #[tactic(auto, using(crate::proofs::Stages::starts_on, crate::proofs::Stages::no_starts))]
    fn enter_waits(&mut self, job: &Job, group: usize, state: GroupState)
        ensures turn { turn_of job.now self.new ≡ Out (after_starts job.now group (has_failed state)
            (kids_from 0 self.old.children.items) (drop (group + 1) job.now.groups)) }
        ensures within { InGroup job.now self.new.stage self.new.children.items }
        ensures capacity { vec_capacity self.new.children ≡ vec_capacity self.old.children }
    {
        if !self.children.as_slice().is_empty() {
            let wait = GroupWait {
                group,
                index: 0,
                state,
            };
            self.stage = Stage::Waits { wait };
        } else if group == 0 {
            // A job that started no command has written no file.
            self.enter(Stage::Ended);
        } else {
            self.end_group(job, group, state);
        }
    }

    /// Takes the answer to a start.
    #[tactic(auto, using(crate::proofs::Stages::start_more, crate::proofs::Stages::start_last))]
    fn take_start(&mut self, job: &Job, group: usize, answer: Answer)
        requires room { length self.old.children.items < vec_capacity self.old.children }
        ensures turn { turn_of job.now self.new
            ≡ after_start job.now group (length self.old.children.items)
            (length (group_at job.now group) - 1 - length self.old.children.items)
            (kids_from 0 self.old.children.items) (drop (group + 1) job.now.groups) answer }
        ensures within { InGroup job.now self.new.stage self.new.children.items }
        ensures capacity { vec_capacity self.new.children ≡ vec_capacity self.old.children }
    {
        match answer {
            Answer::Start(StartAnswer::Started(id)) => {
                let count = self.children.as_slice().len();
                self.children.push_reserved(id);
                if is_followed(count, group_len(job, group)) {
                    self.stage = Stage::Group { group };
                } else {
                    self.enter_waits(job, group, GroupState::Sound);
                }
            }
            _ => self.stage = Stage::StartReport { group },
        }
    }

    /// Goes on after the report of a refused start.
    #[tactic(auto, using(crate::proofs::Stages::refused))]
    fn take_refusal(&mut self, job: &Job, group: usize, answer: Answer)
        ensures turn { turn_of job.now self.new
            ≡ after job.now (inside.StartReport group (length self.old.children.items)
            (kids_from 0 self.old.children.items) (drop (group + 1) job.now.groups)) answer }
        ensures within { InGroup job.now self.new.stage self.new.children.items }
        ensures capacity { vec_capacity self.new.children ≡ vec_capacity self.old.children }
    {
        // The child before the refused one writes a pipe that nothing will read.
        if !self.children.as_slice().is_empty() {
            self.stage = Stage::Closing { group };
        } else {
            self.enter_waits(job, group, GroupState::Failed);
        }
    }

    /// Begins the first block, where nothing was done yet.
    fn open(&mut self, job: &Job)
        requires within { InGroup job.now self.old.stage self.old.children.items }
        ensures turn { turn_of job.now self.new ≡ begun_turn job.now (turn_of job.now self.old) }
        ensures within { InGroup job.now self.new.stage self.new.children.items }
        ensures capacity { vec_capacity self.new.children ≡ vec_capacity self.old.children }
    {
        match self.stage {
            Stage::Fresh => self.enter(first_stage(job)),
            _ => {}
        }
    }

    /// Takes the answer to the next step, where something was done.
    #[tactic(auto, using(crate::proofs::Stages::start_first))]
    fn take_now(&mut self, job: &Job, answer: Answer)
        requires room { InRoom job.now self.old }
        ensures turn { turn_of job.now self.new ≡ took_now job.now (turn_of job.now self.old) answer }
        ensures within { InGroup job.now self.new.stage self.new.children.items }
        ensures capacity { vec_capacity self.new.children ≡ vec_capacity self.old.children }
    {
        match self.stage {
            Stage::Fresh => {}
            Stage::Claims { index } => self.take_claim(job, index, answer),
            Stage::ClaimReport { .. } => self.stage = Stage::Ended,
            Stage::Starts { group } => self.take_start(job, group, answer),
            Stage::Group { group } => self.take_start(job, group, answer),
            Stage::StartReport { group } => self.take_refusal(job, group, answer),
            Stage::Closing { group } => self.enter_waits(job, group, GroupState::Failed),
            Stage::Waits { wait } => self.take_wait(job, wait, answer),
            Stage::SignalReport { wait } => self.pass_wait(job, wait, GroupState::Failed),
            Stage::LossReport { wait } => self.pass_wait(job, wait, GroupState::Failed),
            Stage::Removals { index } => self.take_removal(job, index, answer),
            Stage::RemovalReport { index } => self.stage = stage_after_removal(job, index),
            Stage::Ended => {}
        }
    }

    /// Takes the answer to the next step.
    pub(crate) fn take(&mut self, job: &Job, answer: Answer)
        requires room { InRoom job.now self.old }
        ensures turn { turn_of job.now self.new ≡ took job.now (turn_of job.now self.old) answer }
        ensures room { InRoom job.now self.new }
    {
        self.open(job);
        self.take_now(job, answer);
    }

    /// A source before its first step, with room for the children of each group. No group is empty.
    pub(crate) fn new(alloc: Global, job: &Job) -> Result<SourceState, AllocError>
        ensures fresh { IfOk result (λ made. turn_of job.now made ≡ Out (begin job.now)) }
        ensures room { IfOk result (λ made. InRoom job.now made) }
        ensures filled { OnOk result (Filled job.now) }
    {
        let children = Vec::with_capacity(alloc, widest(job).max(1))?;
        // A job without commands makes no call, so it claims nothing either.
        let stage = if job.groups.as_slice().is_empty() {
            Stage::Ended
        } else {
            Stage::Fresh
        };
        Ok(SourceState { stage, children })
    }

    /// A source with nothing to do.
    pub(crate) fn idle(alloc: Global) -> Result<SourceState, AllocError>
        ensures fresh { IfOk result (λ made. turn_of no_job made ≡ Out Over) }
        ensures room { IfOk result (λ made. InRoom no_job made) }
    {
        let children = Vec::with_capacity(alloc, 1)?;
        Ok(SourceState {
            stage: Stage::Ended,
            children,
        })
    }

    /// Whether there is more to do.
    pub(crate) fn is_left(&self) -> bool
        ensures { (job : Job) → result ≡ is_left (turn_of job self.now) }
    {
        !matches!(self.stage, Stage::Ended)
    }

    /// Whether the next block is a wait for a child.
    pub(crate) fn awaits(&self) -> bool
        ensures { (job : Job) → result ≡ awaits (turn_of job self.now) }
    {
        matches!(self.stage, Stage::Waits { .. })
    }

    /// Whether a block is open.
    pub(crate) fn is_inside(&self) -> bool
        ensures { (job : Job) → result ≡ is_inside (turn_of job self.now) }
    {
        match self.stage {
            Stage::ClaimReport { .. } => true,
            Stage::Group { .. } => true,
            Stage::StartReport { .. } => true,
            Stage::Closing { .. } => true,
            Stage::SignalReport { .. } => true,
            Stage::LossReport { .. } => true,
            Stage::RemovalReport { .. } => true,
            _ => false,
        }
    }
}

/// The command of a child.
fn command(job: usize, wait: GroupWait) -> Place
    ensures { result ≡ place.Command job wait.group wait.index }
{
    Place::Command {
        job,
        group: wait.group,
        index: wait.index,
    }
}

/// The start of the first command of a group.
fn first_start(number: usize, job: &Job, group: usize) -> Step
    ensures { result ≡ step.Start (place.Command number group 0) false
        (positive (length (group_at job.now group) - 1)) }
{
    Step::Start {
        place: Place::Command {
            job: number,
            group,
            index: 0,
        },
        from_pipe: false,
        to_pipe: group_len(job, group) > 1,
    }
}
