//! The run of a plan: the next step for every answer, and the result.

// In clauses: `IfMake` holds of the next step, if there is one. `Kept` is what is known of every run.
// `course_of` is what definitions see of a run. `needed` is the most events of a plan's run.
// `run_of` is what callers see of it. `Windowed` says that events are a whole run.
ghost use Rattle.drv_core.specs.Choices.{BetweenBlocks, ChoicesAre, IsChoice, IsNextOf, IsOfFirst};
ghost use Rattle.drv_core.specs.Code.Course.{asked_by, choosing, stepped};
ghost use Rattle.drv_core.specs.Code.CourseView.{course_of};
ghost use Rattle.drv_core.specs.Code.Machine.{is_kind};
ghost use Rattle.drv_core.specs.Code.RunView.{Kept, run_of};
ghost use Rattle.drv_core.specs.Codes.{status_from, status_of};
ghost use Rattle.drv_core.specs.Events.{event};
ghost use Rattle.drv_core.specs.Needed.{needed};
ghost use Rattle.drv_core.specs.Run.{IfDone, IfMake, step_in};
ghost use Rattle.drv_core.specs.Windowed.{IsBeginning, Windowed};
ghost use Rattle.drv_core.specs.declared.action.Action.TheVariants as action;
ghost use Rattle.drv_words.specs.declared.steps.Step.{Step};
ghost use Rattle.drv_words.specs.Stepping.{can_make, fits, pipe_pending};
ghost use Rattle.std.specs.Prelude.{◌≡◌, ◌<◌, ◌≤◌, ◌++◌, ◌∷◌, [], IfOk, Some, false, length, true};

use crate::action::Action;
use crate::window::Window;
use crate::work::{RunState, greatest_code};
use drv_words::{Answer, Plan, RunEvent};
use std::alloc::{AllocError, Global};
use std::marker::Model;

/// The run of a plan, which it borrows. It makes no call itself: `next` returns the next step, and
/// `answer` takes the answer to that step. `new` makes room for all events, and no later call
/// allocates memory.
///
/// Contracts see the plan, whether codes are passed, how many sources may be under way at once,
/// the events so far, and the result of `next`.
#[derive(Drop)]
pub struct Run<'a> {
    plan: &'a Plan,
    pass_codes: bool,
    work: RunState,
}

impl<'a> Model for Run<'a> {
    ghost use Rattle.drv_core.specs.Run as specs;

    ghost Value = { specs.Run };

    ghost use Rattle.drv_core.specs.Code.RunView.{Kept, run_of};

    ghost view = { λ r. run_of r.plan.now r.pass_codes r.work };

    ghost invariant = { λ r. Kept r.plan.now r.work };
}

/// The status if this is the greatest code.
fn status_code(pass_codes: bool, code: u8) -> u8
    ensures { result ≡ status_from pass_codes code }
{
    if pass_codes || code == 0 { code } else { 1 }
}

/// The next step, or the status if there is none.
#[tactic(auto, using(crate::proofs::Runs::is_ready))]
fn look(plan: &Plan, pass_codes: bool, work: &RunState) -> Action
    requires { Kept plan.now work.now }
    ensures { result ≡ (run_of plan.now pass_codes work.now).action }
{
    match work.asks(plan) {
        Some(step) => Action::Make(step),
        None => Action::Done(status_code(pass_codes, greatest_code(work.events.as_slice()))),
    }
}

/// Takes the answer to the next step.
fn advance(plan: &Plan, work: &mut RunState, answer: Answer)
    requires kept { Kept plan.now work.old }
    requires kind { (s : Step) → asked_by plan.now (course_of plan.now work.old) ≡ Some s
        → is_kind s answer ≡ true }
    ensures kept { Kept plan.now work.new }
    ensures moved { (s : Step) → asked_by plan.now (course_of plan.now work.old) ≡ Some s
        → course_of plan.now work.new ≡ stepped plan.now (course_of plan.now work.old) s answer }
    ensures window { work.new.fleet.window ≡ work.old.fleet.window }
{
    match work.asks(plan) {
        Some(step) => work.take(plan, step, answer),
        None => {}
    }
}

/// Goes on with the chosen source.
fn turn(plan: &Plan, work: &mut RunState, choice: usize)
    requires kept { Kept plan.now work.old }
    requires choice { IsChoice plan.now work.old.fleet.window work.old.events.items choice }
    ensures kept { Kept plan.now work.new }
    ensures chosen { course_of plan.now work.new ≡ choosing (course_of plan.now work.old) choice }
    ensures window { work.new.fleet.window ≡ work.old.fleet.window }
{
    work.choose(choice);
}

impl<'a> Run<'a> {
    /// The run before its first step. At most `window` sources (1 to 64) are under way at once. The
    /// status of a failed run is 1, or with `pass_codes` the greatest of its codes (GCC manual,
    /// "Overall Options", `-pass-exit-codes`).
    ///
    /// # Errors
    /// There is not enough memory, or the number of events doesn't fit into `usize`.
    pub fn new(
        alloc: Global,
        plan: &'a Plan,
        pass_codes: bool,
        window: usize,
    ) -> Result<Run<'a>, AllocError>
        requires some { 1 ≤ window }
        requires most { window ≤ 64 }
        ensures plan { IfOk result (λ run. run.plan ≡ plan.now) }
        ensures pass_codes { IfOk result (λ run. run.pass_codes ≡ pass_codes) }
        ensures window { IfOk result (λ run. run.window ≡ window) }
        ensures events { IfOk result (λ run. run.events ≡ []) }
        ensures first { IfOk result
            (λ run. IsOfFirst run.plan run.window run.events (step_in run.action)) }
    {
        let sources = Window::new(window);
        let work = RunState::new(alloc, plan, sources)?;
        Ok(Run {
            plan,
            pass_codes,
            work,
        })
    }

    /// The next step, or the status if the run is whole.
    pub fn next(&self) -> Action
        ensures action { result ≡ self.now.action }
        ensures beginning { IsBeginning self.now.plan self.now.window self.now.events }
        ensures possible { IfMake result
            (λ step. can_make self.now.plan self.now.events step ≡ true) }
        ensures bound { length self.now.events ≤ needed self.now.plan }
        ensures fewer { IfMake result (λ step. length self.now.events < needed self.now.plan) }
        ensures unfinished { IfMake result
            (λ step. Windowed self.now.plan self.now.window self.now.events → ⊥) }
        ensures whole { IfDone result
            (λ status. Windowed self.now.plan self.now.window self.now.events) }
        ensures pipe { IfDone result (λ status. pipe_pending self.now.events ≡ false) }
        ensures status { IfDone result
            (λ status. status ≡ status_of self.now.pass_codes self.now.events) }
    {
        look(self.plan, self.pass_codes, &self.work)
    }

    /// Takes the answer to the step of `next`. It has the step's kind, and the number of a started
    /// child is new. After a block of a source, the first source that may go on does so.
    pub fn answer(&mut self, answer: Answer)
        requires more { IfDone self.old.action (λ status. ⊥) }
        requires fits { IfMake self.old.action (λ step. fits self.old.events step answer ≡ true) }
        ensures events { IfMake self.old.action (λ step. self.new.events
            ≡ self.old.events ++ event step answer ∷ []) }
        ensures first { IsOfFirst self.new.plan self.new.window self.new.events
            (step_in self.new.action) }
        ensures plan { self.new.plan ≡ self.old.plan }
        ensures pass_codes { self.new.pass_codes ≡ self.old.pass_codes }
        ensures window { self.new.window ≡ self.old.window }
    {
        advance(self.plan, &mut self.work, answer);
    }

    /// The room for events, including those so far: enough for all events of a run.
    pub fn room(&self) -> usize
        ensures { needed self.now.plan ≤ result }
    {
        self.work.events.capacity()
    }

    /// The events so far, each step with its answer.
    pub fn events(&self) -> &[RunEvent]
        ensures { result.now ≡ self.now.events }
    {
        self.work.events.as_slice()
    }

    /// The status of the run, which is whole: 0 if all codes are 0, otherwise that of a failed run.
    pub fn status(&self) -> u8
        requires { IfMake self.now.action (λ step. ⊥) }
        ensures done { self.now.action ≡ action.Done result }
        ensures status { result ≡ status_of self.now.pass_codes self.now.events }
    {
        status_code(self.pass_codes, greatest_code(self.work.events.as_slice()))
    }

    /// How many sources may go on, if the events so far are whole blocks of the sources and a
    /// source has more to do; otherwise 1. Without `choose` the first of them goes on.
    pub fn choices(&self) -> usize
        ensures { ChoicesAre self.now.plan self.now.window self.now.events result }
    {
        self.work.choices(self.plan)
    }

    /// Takes the next block from the source of this number among those that may go on, counted from
    /// 0 in plan order.
    pub fn choose(&mut self, choice: usize)
        requires { IsChoice self.old.plan self.old.window self.old.events choice }
        ensures next { (b : BetweenBlocks self.old.plan self.old.window self.old.events)
            → IsNextOf self.old.plan self.old.window self.old.events b choice
            (step_in self.new.action) }
        ensures elsewhere { (BetweenBlocks self.old.plan self.old.window self.old.events → ⊥)
            → self.new ≡ self.old }
        ensures plan { self.new.plan ≡ self.old.plan }
        ensures pass_codes { self.new.pass_codes ≡ self.old.pass_codes }
        ensures window { self.new.window ≡ self.old.window }
        ensures events { self.new.events ≡ self.old.events }
    {
        turn(self.plan, &mut self.work, choice);
    }
}
