//! How the texts of a plan are run: alone, or with where their words come from.

ghost use Rattle.drv_machine.specs.Outcome.{outcome};
ghost use Rattle.drv_syntax.specs.Parsed.{tree_of};
ghost use Rattle.drv_system.specs.Asking.{Asks, Extends};
ghost use Rattle.drv_system.specs.Facts.{Facts};
ghost use Rattle.drv_system.specs.Gives.{GivesKnown};
ghost use Rattle.std.specs.Prelude.{◌≡◌};

use drv_machine::{Context, MachineFault, Outcome, Trace, run, run_traced};
use drv_syntax::SpecTree;
use drv_system::{FactTable, System};
use drv_words::Listing;
use std::alloc::Global;

/// Runs texts.
pub(crate) trait Work {
    /// Runs a text, as `drv_machine::run` does.
    ///
    /// # Errors
    /// Those of `drv_machine::run`.
    fn run<S: System>(
        &mut self,
        alloc: Global,
        text: &SpecTree,
        context: &Context<'_>,
        sys: &mut S,
        facts: &mut FactTable,
    ) -> Result<Outcome, MachineFault>
        ensures asks { Asks (S.events sys.old) (S.events sys.new) facts.old facts.new }
        ensures works { (F : Facts) → Extends facts.new F
            → GivesKnown MachineFault.Memory (λ o. o) result
            (outcome F context.now (tree_of text.now)) };
}

/// Runs texts alone.
#[derive(Drop)]
pub(crate) struct Plain;

impl Work for Plain {
    fn run<S: System>(
        &mut self,
        alloc: Global,
        text: &SpecTree,
        context: &Context<'_>,
        sys: &mut S,
        facts: &mut FactTable,
    ) -> Result<Outcome, MachineFault> {
        run(alloc, text, context, sys, facts)
    }
}

/// Runs texts, and keeps where their words come from.
#[derive(Drop)]
pub(crate) struct Noting {
    traces: Listing<Option<Trace>>,
}

impl Noting {
    pub(crate) fn new(alloc: Global) -> Noting {
        Noting {
            traces: Listing::new(alloc),
        }
    }

    /// The traces of the texts, in the order in which they were run.
    pub(crate) fn into_traces(self) -> Listing<Option<Trace>> {
        self.traces
    }
}

impl Work for Noting {
    fn run<S: System>(
        &mut self,
        alloc: Global,
        text: &SpecTree,
        context: &Context<'_>,
        sys: &mut S,
        facts: &mut FactTable,
    ) -> Result<Outcome, MachineFault> {
        let traced = run_traced(alloc, text, context, sys, facts)?;
        self.traces.push(traced.trace)?;
        Ok(traced.outcome)
    }
}
