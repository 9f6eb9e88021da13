//! Laws about whole runs.

// In clauses: `Windowed` says that events are a whole run.
ghost use Rattle.drv_core.specs.Filled.{AllFilled};
ghost use Rattle.drv_core.specs.Links.{LinksWhere};
ghost use Rattle.drv_core.specs.Needed.{needed};
ghost use Rattle.drv_core.specs.Possible.{AllPossible};
ghost use Rattle.drv_core.specs.Removals.{RemovesByRule};
ghost use Rattle.drv_core.specs.Reported.{Reported};
ghost use Rattle.drv_core.specs.Serial.{Rearranges, SameOutcomes, StartsTheSame};
ghost use Rattle.drv_core.specs.Started.{StartsInOrder};
ghost use Rattle.drv_core.specs.Waited.{WaitsForEach};
ghost use Rattle.drv_core.specs.Windowed.{Windowed};
ghost use Rattle.drv_words.specs.declared.plan.Plan.{Plan};
ghost use Rattle.drv_words.specs.declared.steps.RunEvent.{RunEvent};
ghost use Rattle.std.specs.Prelude.{◌≤◌, List, length, ℕ};

/// A law: every run with several sources in flight, taken source by source, is a run with one
/// source at a time and the same answers. So it has the same status, reports and removals, and each
/// job starts the same commands.
pub fn interleaving_law()
    ensures run { Rearranges }
    ensures answers { SameOutcomes }
    ensures commands { StartsTheSame }
{}

/// A law: in the events of a whole run, each failure is followed directly by its report, and no
/// other report is made. A failure is a failed claim, start or removal, or a child that a signal
/// ended or that was lost.
pub fn report_law()
    ensures { (plan : Plan) (N : ℕ) (events : List RunEvent) → Windowed plan N events
        → Reported events }
{}

/// A law: in the events of a whole run, each started child is waited for once, after its start and
/// at its place. No other wait is made, and no place starts a second child.
pub fn waiting_law()
    ensures { (plan : Plan) (N : ℕ) (events : List RunEvent) → Windowed plan N events
        → (k : ℕ) → WaitsForEach k events }
{}

/// A law: in the events of a whole run, a command of a job is started exactly if no failure of the
/// job comes before it. So the started commands are the first of the planned list, and all of them
/// if the job did not fail. After a failed source the link has nothing to do.
pub fn started_first()
    ensures { (plan : Plan) (N : ℕ) (events : List RunEvent) → Windowed plan N events
        → StartsInOrder plan events }
{}

/// A law: in the events of a whole run, the link claims or starts something exactly if every source
/// succeeded. A source failed exactly if one of its claims, starts and waits has a code other than
/// 0.
pub fn linking_law()
    ensures { (plan : Plan) (N : ℕ) (events : List RunEvent) → Windowed plan N events
        → LinksWhere plan events }
{}

/// A law: in the events of a whole run, exactly the jobs that failed after they had started a
/// command remove their failure files. At the very end the claimed temporaries and the marked files
/// are removed, each path once, in the order of the plan.
pub fn removal_law()
    ensures { (plan : Plan) (N : ℕ) (events : List RunEvent) → Windowed plan N events
        → RemovesByRule plan events }
{}

/// A law: in the events of a whole run, each step can be made after those before it: its place is
/// one of the plan, a start reads a pipe exactly if one is pending, and a child that is waited for
/// was started at that place and not waited for yet.
pub fn possible_law()
    ensures { (plan : Plan) (N : ℕ) (events : List RunEvent) → AllFilled plan
        → Windowed plan N events → AllPossible plan events }
{}

/// A law: a whole run has at most as many events as its plan needs.
pub fn bound_law()
    ensures { (plan : Plan) (N : ℕ) (events : List RunEvent) → AllFilled plan
        → Windowed plan N events → length events ≤ needed plan }
{}
