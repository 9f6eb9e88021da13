//! The count of items, apart from what the items do.

ghost use Rattle.drv_machine.specs.Code.Counting.{state};
ghost use Rattle.drv_machine.specs.Code.Running.{run};
ghost use Rattle.drv_machine.specs.Context as specs;
ghost use Rattle.drv_machine.specs.Cutting.{in_word};
ghost use Rattle.drv_machine.specs.Working as step;
ghost use Rattle.drv_machine.specs.Working.{counted};
ghost use Rattle.drv_system.specs.Facts.{Facts};
ghost use Rattle.drv_system.specs.Gives.{GivesKnown};
ghost use Rattle.std.specs.Prelude.{◌≡◌, ◌+◌, ◌-◌, ◌<◌, ◌≤◌, OnOk, length};

use super::Machine;
use crate::MachineFault;
use std::alloc::AllocError;

/// The most items of a text.
const MOST_ITEMS: usize = 1_000_000;

/// A machine, and the number of items that were reached. An item is given the machine alone, so
/// that it can't change the count.
#[derive(Drop)]
pub(crate) struct Tally {
    pub(crate) machine: Machine,
    pub(crate) items: usize,
}

impl Tally {
    /// The bytes of plain items go into the open word, or open one. Each counts, but for the first,
    /// which was counted. Lack of memory is the only error.
    pub(crate) fn put_run(&mut self, run: &[u8]) -> Result<(), AllocError>
        requires some { 0 < length run.now }
        requires room { self.old.items + length run.now ≤ step.most_items + 1 }
        ensures { OnOk result (self.new ≡ record {
          machine = record self.old.machine { cut = in_word self.old.machine.cut run.now };
          items = self.old.items + (length run.now - 1);
        }) }
    {
        self.machine.put_plain(run)?;
        self.items += run.len() - 1;
        Ok(())
    }

    /// The bytes of plain items go into the open word, or open one. Each counts. Lack of memory is
    /// the only error.
    pub(crate) fn put_counted(&mut self, run: &[u8]) -> Result<(), AllocError>
        requires some { 0 < length run.now }
        requires room { self.old.items + length run.now ≤ step.most_items }
        ensures { OnOk result (self.new ≡ record {
          machine = record self.old.machine { cut = in_word self.old.machine.cut run.now };
          items = self.old.items + length run.now;
        }) }
    {
        self.machine.put_plain(run)?;
        self.items += run.len();
        Ok(())
    }

    /// One more item is reached.
    ///
    /// # Errors
    /// `TooManySteps` where 1,000,000 were reached before.
    pub(crate) fn count(&mut self) -> Result<(), MachineFault>
        ensures does { (F : Facts) (C : specs.Context)
            → GivesKnown MachineFault.Memory (λ u. (tt, state self.new)) result
            (run F C (state self.old) counted) }
        ensures counts { OnOk result (self.new.items ≡ self.old.items + 1) }
        ensures below { OnOk result (self.old.items < 1000000) }
    {
        if self.items >= MOST_ITEMS {
            return Err(MachineFault::TooManySteps);
        }
        self.items += 1;
        Ok(())
    }

    /// How many items more may be reached.
    pub(crate) fn left(&self) -> usize
        ensures { result ≡ step.most_items - self.now.items }
    {
        MOST_ITEMS.saturating_sub(self.items)
    }
}
