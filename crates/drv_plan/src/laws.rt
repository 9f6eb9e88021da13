//! Laws about plans.

// In clauses: `Is` is a value that the facts give. The names of temporaries contain the `seed`.
ghost use Rattle.drv_args.specs.declared.line.Line.{Line};
ghost use Rattle.drv_plan.specs.Denoted.{denoted};
ghost use Rattle.drv_plan.specs.Plans.{IsPlanOf};
ghost use Rattle.drv_search.specs.declared.prefixes.Prefixes.{Prefixes};
ghost use Rattle.drv_specs.specs.Dumping.{Plain, dumped};
ghost use Rattle.drv_specs.specs.Loading.{loaded};
ghost use Rattle.drv_specs.specs.Sets.{Set};
ghost use Rattle.drv_system.specs.Facts.{Facts};
ghost use Rattle.drv_system.specs.Known.{Is};
ghost use Rattle.drv_words.specs.declared.plan.Plan.{Plan};
ghost use Rattle.std.specs.Prelude.{◌≡◌, Ok, ℕ};

use drv_specs::SpecSet;

/// A law: loading the dump of a set over that set changes no plan, unless a named text begins with
/// `+` and a blank, since such a text would be read as an addition. The function returns nothing.
pub fn reload_law(set: &SpecSet)
    ensures { Plain set.now → (F : Facts) (prefixes : Prefixes)
        → (after : Set) × (loaded F prefixes set.now (dumped set.now) ≡ Is (Ok after))
        × ((G : Facts) (line : Line) (seed : ℕ)
        → denoted G line after seed ≡ denoted G line set.now seed) }
{
    set.reloads_over_itself();
}

/// A law: the plan of a line has, for each source in the order of the line, the job of the source's
/// text, run with the options and the numbers that the text before it leaves. The link comes last
/// and takes the outputs. The notices are those of these texts in order.
pub fn plan_law()
    ensures { (F : Facts) (line : Line) (set : Set) (seed : ℕ) (plan : Plan)
        → denoted F line set seed ≡ Is (Ok plan) → IsPlanOf F line set seed plan }
{}
