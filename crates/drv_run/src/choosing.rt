//! Which source goes on where several may: one whose child has ended, so that no other waits behind
//! it.

ghost use Rattle.drv_core.specs.Choices.{ChoicesAre};
ghost use Rattle.std.specs.Prelude.{◌≡◌, ◌≤◌};

use drv_core::{Action, Run};
use drv_system::System;
use drv_words::Step;

/// Whether a step is a wait for a child that has not ended.
fn would_wait<S: System>(sys: &mut S, action: Action) -> bool
    ensures events { S.events sys.new ≡ S.events sys.old }
    ensures room { S.spare_events sys.old ≤ S.spare_events sys.new }
    ensures children { S.spare_children sys.old ≤ S.spare_children sys.new }
{
    match action {
        Action::Make(Step::Wait { id, .. }) => !sys.has_ended(id),
        Action::Make(_) | Action::Done(_) => false,
    }
}

/// Has the first source go on, of those that may, whose next step is no wait for a child that has
/// not ended. Answers whether there is one.
#[tactic(auto, using(crate::proofs::Choices::is_choice))]
fn choose_ready<S: System>(sys: &mut S, run: &mut Run<'_>, count: usize) -> bool
    requires { ChoicesAre run.old.plan run.old.window run.old.events count }
    ensures events { S.events sys.new ≡ S.events sys.old }
    ensures room { S.spare_events sys.old ≤ S.spare_events sys.new }
    ensures children { S.spare_children sys.old ≤ S.spare_children sys.new }
    ensures plan { run.new.plan ≡ run.old.plan }
    ensures codes { run.new.pass_codes ≡ run.old.pass_codes }
    ensures window { run.new.window ≡ run.old.window }
    ensures made { run.new.events ≡ run.old.events }
{
    for choice in 0..count {
        run.choose(choice);
        if !would_wait(sys, run.next()) {
            return true;
        }
    }
    false
}

/// Has a source go on that need not wait, where several may; where each would wait, the one whose
/// child is the first to end.
#[tactic(auto, using(crate::proofs::Choices::choices_kept))]
pub(crate) fn choose_source<S: System>(sys: &mut S, run: &mut Run<'_>)
    ensures events { S.events sys.new ≡ S.events sys.old }
    ensures room { S.spare_events sys.old ≤ S.spare_events sys.new }
    ensures children { S.spare_children sys.old ≤ S.spare_children sys.new }
    ensures plan { run.new.plan ≡ run.old.plan }
    ensures codes { run.new.pass_codes ≡ run.old.pass_codes }
    ensures window { run.new.window ≡ run.old.window }
    ensures made { run.new.events ≡ run.old.events }
{
    let count = run.choices();
    // Without another source to choose, a wait delays none.
    if count < 2 {
        return;
    }
    // The bound makes the loop end by proof; with its pauses it is never reached.
    for _ in 0..u64::MAX {
        if choose_ready(sys, run, count) {
            return;
        }
        sys.pause();
    }
}
