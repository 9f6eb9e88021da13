//! One step of a run, made by the system.

ghost use Rattle.drv_run.specs.Code.Making.{CanMake};
ghost use Rattle.drv_system.specs.Running.{made, run_of};
ghost use Rattle.drv_words.specs.Stepping.{fits};
ghost use Rattle.std.specs.Prelude.{◌≡◌, ◌+◌, ◌<◌, ◌≤◌, ◌∷◌, ◌++◌, [], true};

use drv_system::{System, TellAnswer};
use drv_words::{Answer, Plan, Step};

/// Has the system make a step of a run of this plan, and gives its answer.
pub(crate) fn make<S: System>(sys: &mut S, plan: &Plan, step: Step) -> Answer
    requires can { CanMake plan.now (S.events sys.old) step }
    requires room { 0 < S.spare_events sys.old }
    requires children { 0 < S.spare_children sys.old }
    ensures event { S.events sys.new ≡ S.events sys.old ++ made step result ∷ [] }
    ensures fits { fits (run_of (S.events sys.old)) step result ≡ true }
    ensures room { S.spare_events sys.old ≤ S.spare_events sys.new + 1 }
    ensures children { S.spare_children sys.old ≤ S.spare_children sys.new + 1 }
{
    match step {
        Step::Claim(place) => Answer::Claim(sys.claim(plan, place)),
        Step::Start {
            place,
            from_pipe,
            to_pipe,
        } => Answer::Start(sys.start(plan, place, from_pipe, to_pipe)),
        Step::ClosePipe => {
            sys.close_pipe();
            Answer::Closed
        }
        Step::Wait { place, id } => Answer::Wait(sys.wait(place, id)),
        Step::Remove(place) => Answer::Remove(sys.remove(plan, place)),
        Step::Report(note) => Answer::Reported(sys.report(plan, note) == TellAnswer::Told),
    }
}
