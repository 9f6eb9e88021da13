//! The outside as a trait.

// In clauses: `run_of` is the events of a run among those of a journal. `pipe_pending` says that a
// pipe is pending after events.
ghost use Rattle.drv_system.specs.Limit.{IsWithinLimit};
ghost use Rattle.drv_system.specs.Running.{is_child_open, is_told, made, run_of};
ghost use Rattle.drv_system.specs.declared.event.Event.TheVariants as event;
ghost use Rattle.drv_words.specs.Places.{is_command, is_file, is_note, is_temp};
ghost use Rattle.drv_words.specs.Stepping.{fits_start, pipe_pending};
ghost use Rattle.drv_words.specs.declared.answers.Answer.TheVariants as answer;
ghost use Rattle.drv_words.specs.declared.steps.Step.TheVariants as step;
ghost use Rattle.std.specs.Prelude.{◌≡◌, ◌+◌, ◌<◌, ◌≤◌, ◌∷◌, ◌++◌, [], IfOk, List, OnErr, OnOk};
ghost use Rattle.std.specs.Prelude.{true, ℕ};

use crate::{Event, PathKind, ReadAnswer, TellAnswer};
use drv_words::{ClaimAnswer, Note, Place, Plan, RemoveAnswer, StartAnswer, WaitAnswer, Word};
use std::alloc::AllocError;

/// What a driver may ask the outside, write to it, and have done by it.
///
/// Each call except `has_ended` and `pause` adds one event to the journal: the call's argument and
/// its answer. A call that returns `AllocError` adds none and has written nothing. The steps of a
/// run (`claim`, `start`, `close_pipe`, `wait`, `remove`, `report`) never run out of memory: they
/// need room that `reserve_events` made, and a system that lacks memory for more answers that the
/// step failed.
pub trait System {
    ghost use Rattle.drv_system.specs.declared.event.Event.{Event};

    ghost events: { Self → List Event };

    // the room for more events, and for more children
    ghost spare_events: { Self → ℕ };

    ghost spare_children: { Self → ℕ };

    /// The events so far, in order.
    fn journal(&self) -> &[Event]
        ensures { result.now ≡ events self.now };

    /// Reads the whole file at a path: at most 16,777,216 bytes.
    fn read_file(&mut self, path: &Word) -> Result<ReadAnswer, AllocError>
        ensures event { IfOk result (λ answer. events self.new
            ≡ events self.old ++ event.Read path.now answer ∷ []) }
        ensures within { IfOk result IsWithinLimit }
        ensures memory { OnErr result (events self.new ≡ events self.old) };

    /// Asks for the kind of file that a path leads to.
    fn kind(&mut self, path: &Word) -> Result<PathKind, AllocError>
        ensures event { IfOk result (λ kind. events self.new
            ≡ events self.old ++ event.Kind path.now kind ∷ []) }
        ensures memory { OnErr result (events self.new ≡ events self.old) };

    /// Asks for the value of a variable of the environment.
    fn variable(&mut self, name: &Word) -> Result<Option<Word>, AllocError>
        ensures event { IfOk result (λ value. events self.new
            ≡ events self.old ++ event.Variable name.now value ∷ []) }
        ensures memory { OnErr result (events self.new ≡ events self.old) };

    /// Writes a text to standard error.
    fn say(&mut self, text: &Word) -> Result<TellAnswer, AllocError>
        ensures event { IfOk result (λ answer. events self.new
            ≡ events self.old ++ event.Say text.now answer ∷ []) }
        ensures memory { OnErr result (events self.new ≡ events self.old) };

    /// Writes a text to standard output.
    fn put(&mut self, text: &Word) -> Result<TellAnswer, AllocError>
        ensures event { IfOk result (λ answer. events self.new
            ≡ events self.old ++ event.Put text.now answer ∷ []) }
        ensures memory { OnErr result (events self.new ≡ events self.old) };

    /// Makes room for `count` more events and as many more children.
    fn reserve_events(&mut self, count: usize) -> Result<(), AllocError>
        ensures room { OnOk result (count ≤ spare_events self.new) }
        ensures children { OnOk result (count ≤ spare_children self.new) }
        ensures unchanged { events self.new ≡ events self.old };

    /// Makes a new file for a temporary of the plan, and writes its contents. An existing file is
    /// left untouched, and a file that could not be written whole is removed.
    fn claim(&mut self, plan: &Plan, place: Place) -> ClaimAnswer
        requires place { is_temp plan.now place ≡ true }
        requires room { 0 < spare_events self.old }
        ensures event { events self.new
            ≡ events self.old ++ made (step.Claim place) (answer.Claim result) ∷ [] }
        ensures room { spare_events self.old ≤ spare_events self.new + 1 }
        ensures children { spare_children self.old ≤ spare_children self.new };

    /// Starts a command of the plan. It reads the pending pipe, or this process's standard input.
    /// It writes a new pipe, which is then the pending one, or this process's standard output. The
    /// number of a child is new in the journal. After a failed start a pending pipe is still
    /// pending.
    fn start(&mut self, plan: &Plan, place: Place, from_pipe: bool, to_pipe: bool) -> StartAnswer
        requires place { is_command plan.now place ≡ true }
        requires pipe { from_pipe ≡ pipe_pending (run_of (events self.old)) }
        requires room { 0 < spare_events self.old }
        requires children { 0 < spare_children self.old }
        ensures event { events self.new
            ≡ events self.old
            ++ made (step.Start place from_pipe to_pipe) (answer.Start result) ∷ [] }
        ensures fresh { fits_start (run_of (events self.old)) result ≡ true }
        ensures room { spare_events self.old ≤ spare_events self.new + 1 }
        ensures children { spare_children self.old ≤ spare_children self.new + 1 };

    /// Closes the pending pipe.
    fn close_pipe(&mut self)
        requires pipe { pipe_pending (run_of (events self.old)) ≡ true }
        requires room { 0 < spare_events self.old }
        ensures event { events self.new
            ≡ events self.old ++ made step.ClosePipe answer.Closed ∷ [] }
        ensures room { spare_events self.old ≤ spare_events self.new + 1 }
        ensures children { spare_children self.old ≤ spare_children self.new };

    /// Waits until the child of this number ends, which was started at this place.
    fn wait(&mut self, place: Place, id: u64) -> WaitAnswer
        requires open { is_child_open place id (events self.old) ≡ true }
        requires room { 0 < spare_events self.old }
        ensures event { events self.new
            ≡ events self.old ++ made (step.Wait place id) (answer.Wait result) ∷ [] }
        ensures room { spare_events self.old ≤ spare_events self.new + 1 }
        ensures children { spare_children self.old ≤ spare_children self.new };

    /// Whether the child of this number has ended, as far as that is known without waiting. It adds
    /// no event and promises nothing: `wait` says how a child ended. A system that can't tell says
    /// yes, so that children are waited for in order.
    fn has_ended(&mut self, _id: u64) -> bool
        ensures unchanged { events self.new ≡ events self.old }
        ensures room { spare_events self.old ≤ spare_events self.new }
        ensures children { spare_children self.old ≤ spare_children self.new }
    {
        true
    }

    /// Waits a moment, so that children may end. No time passes where every child has ended.
    fn pause(&self) {}

    /// Removes a file of the plan. Links are not followed, and anything but a plain file stays.
    fn remove(&mut self, plan: &Plan, place: Place) -> RemoveAnswer
        requires place { is_file plan.now place ≡ true }
        requires room { 0 < spare_events self.old }
        ensures event { events self.new
            ≡ events self.old ++ made (step.Remove place) (answer.Remove result) ∷ [] }
        ensures room { spare_events self.old ≤ spare_events self.new + 1 }
        ensures children { spare_children self.old ≤ spare_children self.new };

    /// Reports a failed step to the user, on standard error.
    fn report(&mut self, plan: &Plan, note: Note) -> TellAnswer
        requires note { is_note plan.now note ≡ true }
        requires room { 0 < spare_events self.old }
        ensures event { events self.new
            ≡ events self.old ++ made (step.Report note) (answer.Reported (is_told result)) ∷ [] }
        ensures room { spare_events self.old ≤ spare_events self.new + 1 }
        ensures children { spare_children self.old ≤ spare_children self.new };
}
