//! The open parts of a walk.

ghost use Rattle.drv_machine.specs.Working.{most_open};
ghost use Rattle.std.specs.Prelude.{◌≡◌, ◌⊎◌, ◌↔◌, ◌<◌, ◌∷◌, ◌++◌, [], IfErr, IfOk, IsFalse};
ghost use Rattle.std.specs.Prelude.{IsSome, IsTrue, OnOk, length, option_to_list};

use crate::MachineFault;
use crate::walk::Frame;
use arrayvec::ArrayVec;
use std::alloc::{AllocError, Global};
use std::marker::Model;

/// The open parts, the innermost last: at most 64. Their table is made when the first is opened, so
/// that a text without open parts pays nothing for it.
#[derive(Drop)]
pub(crate) struct Stack<'a> {
    alloc: Global,
    table: Option<Box<ArrayVec<Frame<'a>, 64>>>,
}

impl<'a> Model for Stack<'a> {
    ghost use Rattle.drv_machine.specs.declared.walk.Frame.{Frame};
    ghost use Rattle.std.specs.Option.{option_map, unwrap_or};
    ghost use Rattle.std.specs.Prelude.{List, []};

    ghost Value = { List Frame };

    ghost view = { λ s. unwrap_or (option_map (λ table. table.value.items) s.table) [] };
}

/// A table without a part. It is made out of line, so that a push has no room for one.
#[inline(never)]
fn new_table<'a>(alloc: Global) -> Result<Box<ArrayVec<Frame<'a>, 64>>, AllocError>
    ensures { IfOk result (λ table. table.value.items ≡ []) }
{
    Ok(Box::new(alloc, ArrayVec::new())?)
}

impl<'a> Stack<'a> {
    /// No part is open.
    pub(crate) fn new(alloc: Global) -> Stack<'a>
        ensures { result ≡ [] }
    {
        Stack { alloc, table: None }
    }

    /// Whether no more part can be opened.
    pub(crate) fn is_full(&self) -> bool
        ensures full { IsTrue result → length self.now ≡ most_open }
        ensures room { IsFalse result → length self.now < most_open }
    {
        match &self.table {
            Some(table) => table.is_full(),
            None => false,
        }
    }

    /// The first part is open. It is out of line, so that other pushes have no room for a table.
    #[inline(never)]
    fn push_first(&mut self, frame: Frame<'a>) -> Result<(), AllocError>
        requires { self.old ≡ [] }
        ensures { OnOk result (self.new ≡ frame.entry ∷ []) }
    {
        let mut table = new_table(self.alloc)?;
        table.push(frame);
        self.table = Some(table);
        Ok(())
    }

    /// One more part is open.
    ///
    /// # Errors
    /// `SpecTooDeep` where 64 are open.
    pub(crate) fn push(&mut self, frame: Frame<'a>) -> Result<(), MachineFault>
        ensures ok { OnOk result (self.new ≡ self.old ++ frame.entry ∷ []) }
        ensures room { OnOk result (length self.old < most_open) }
        ensures err { IfErr result (λ fault. (fault ≡ MachineFault.Memory) ⊎
            ((fault ≡ MachineFault.SpecTooDeep) × (length self.old ≡ most_open))) }
    {
        if self.is_full() {
            return Err(MachineFault::SpecTooDeep);
        }
        match &mut self.table {
            Some(table) => table.push(frame),
            None => self.push_first(frame)?,
        }
        Ok(())
    }

    /// The innermost part, which is open no more, if one was.
    pub(crate) fn pop(&mut self) -> Option<Frame<'a>>
        ensures items { self.old ≡ self.new ++ option_to_list result }
        ensures variant { IsSome result ↔ (0 < length self.old) }
    {
        match &mut self.table {
            Some(table) => table.pop(),
            None => None,
        }
    }

    /// How many parts are open.
    pub(crate) fn len(&self) -> usize {
        match &self.table {
            Some(table) => table.len(),
            None => 0,
        }
    }

    /// The part at a place, the outermost first.
    pub(crate) fn get(&self, place: usize) -> Option<&Frame<'a>> {
        match &self.table {
            Some(table) => table.as_slice().get(place),
            None => None,
        }
    }

    /// The innermost part.
    pub(crate) fn last(&self) -> Option<&Frame<'a>> {
        match &self.table {
            Some(table) => table.as_slice().last(),
            None => None,
        }
    }
}
