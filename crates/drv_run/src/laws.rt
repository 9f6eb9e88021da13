//! Laws of the definitions that the contracts cite.

// In clauses: `Refuses` says why arguments are refused. The names of temporaries contain the
// `seed`.
ghost use Rattle.drv_args.specs.declared.line.Line.{Line};
ghost use Rattle.drv_plan.specs.Denoted.{denoted};
ghost use Rattle.drv_run.specs.Calls.{Does, Drove, OnlyAsked};
ghost use Rattle.drv_run.specs.Drives.{Drives, Refuses, called_as};
ghost use Rattle.drv_run.specs.declared.ending.Ending.TheVariants.{Refused};
ghost use Rattle.drv_run.specs.declared.ending.Refusal.{Refusal};
ghost use Rattle.drv_run.specs.declared.work.Work.TheVariants.{Show};
ghost use Rattle.drv_run.specs.declared.work.Work.{Work};
ghost use Rattle.drv_specs.specs.Sets.{Set};
ghost use Rattle.drv_system.specs.Facts.{Facts};
ghost use Rattle.drv_system.specs.Running.{run_of};
ghost use Rattle.drv_system.specs.declared.event.Event.{Event};
ghost use Rattle.drv_words.specs.declared.plan.Plan.{Plan};
ghost use Rattle.std.specs.Prelude.{◌≡◌, [], Bool, List, ℕ};

/// A law: arguments ask for one work, or they are refused for one reason, and never both.
pub fn one_ending()
    ensures driven { (F : Facts) (args : List (List ℕ)) (seed : ℕ) (a b : Work)
        → Drives F args seed a → Drives F args seed b → a ≡ b }
    ensures refused { (F : Facts) (args : List (List ℕ)) (seed : ℕ) (r s : Refusal)
        → Refuses F args seed r → Refuses F args seed s → r ≡ s }
    ensures never_both { (F : Facts) (args : List (List ℕ)) (seed : ℕ)
        (work : Work) (refusal : Refusal)
        → Drives F args seed work → Refuses F args seed refusal → ⊥ }
{}

/// A law: the plan of a line is the same whether it is shown, said or carried out, whose codes
/// count, and how many sources are under way at once.
pub fn same_plan()
    ensures { (F : Facts) (line : Line) (set : Set) (seed : ℕ)
        (dry verbose pass_codes : Bool) (jobs : ℕ)
        → denoted F (called_as dry verbose pass_codes jobs line) set seed
        ≡ denoted F line set seed }
{}

/// A law: a call that is refused has asked, and nothing else: it has said and written nothing, and
/// made no step of a run.
pub fn refused_does_nothing()
    ensures { (journal later : List Event) (args : List (List ℕ)) (seed : ℕ) (refusal : Refusal)
        → Drove journal later args seed (Refused refusal) → OnlyAsked journal later }
{}

/// A law: a plan that is shown is said, and no step of a run is made.
pub fn shown_starts_nothing()
    ensures { (name : List ℕ) (plan : Plan) (status : ℕ) (said : List Event)
        → Does name (Show plan) status said → run_of said ≡ [] }
{}
