//! Functions, called with the words of their arguments.

ghost use Rattle.drv_system.specs.Code.Asked.{Asked};
ghost use Rattle.drv_machine.specs.Atoms.{call_step, has_value, value_step};
ghost use Rattle.drv_machine.specs.Code.Running.{reached, run};
ghost use Rattle.drv_machine.specs.Code.Walking.{after_arguments};
ghost use Rattle.drv_system.specs.Asking.{Extends};
ghost use Rattle.drv_system.specs.Facts.{Facts};
ghost use Rattle.drv_system.specs.Gives.{GivesKnown};
ghost use Rattle.std.specs.Prelude.{length, ℕ};

use super::{Cutter, Machine};
use crate::{Context, MachineFault};
use drv_funcs::{Function, FunctionCall, call};
use drv_system::{Outside, System};
use drv_words::Word;

impl Machine {
    /// What the function of a name gives for these words: a word, or nothing. In the link it may
    /// change the outputs.
    ///
    /// # Errors
    /// `Funcs` where the function is refused.
    #[tactic(auto, using(drv_system::proofs::AskedCalls::asked_none))]
    fn call<S: System>(
        &mut self,
        name: &[u8],
        args: &[Word],
        context: &Context<'_>,
        outside: &mut Outside<'_, S>,
    ) -> Result<Option<Word>, MachineFault>
        ensures asks { Asked S.events outside.old outside.new }
        ensures does { (n : ℕ) (F : Facts) → Extends outside.new.facts.now F
            → GivesKnown MachineFault.Memory (λ given. (given, reached n self.new)) result
            (run F context.now (reached n self.old) (call_step F context.now name.now args.now)) }
    {
        let Some(function) = Function::by_name(name) else {
            return Ok(None);
        };
        let called = FunctionCall {
            function,
            args,
            switches: context.switches(),
            hidden: &self.hidden,
            site: context.site(),
        };
        let given = call(
            self.alloc,
            &called,
            &mut self.outputs,
            outside.sys,
            outside.facts,
        )?;
        Ok(given)
    }

    /// Arguments have been cut, and what was cut before them goes on: what the function of a name
    /// gives for them.
    fn call_after<S: System>(
        &mut self,
        name: &[u8],
        outer: Box<Cutter>,
        context: &Context<'_>,
        outside: &mut Outside<'_, S>,
    ) -> Result<Option<Word>, MachineFault>
        ensures asks { Asked S.events outside.old outside.new }
        ensures does { (n : ℕ) (F : Facts) → Extends outside.new.facts.now F
            → GivesKnown MachineFault.Memory (λ given. (given, reached n self.new)) result
            (after_arguments F context.now outer.value
            (call_step F context.now name.now) (reached n self.old)) }
    {
        self.end_word(context, outside)?;
        let args = self.take_back(Box::into_inner(outer));
        self.call(name, args.as_slice(), context, outside)
    }

    /// Arguments have been cut, and what was cut before them goes on: the function's value is put,
    /// if it has one.
    #[inline(never)]
    #[tactic(auto, using(drv_system::proofs::AskedCalls::asked_further))]
    pub(crate) fn put_value<S: System>(
        &mut self,
        name: &[u8],
        outer: Box<Cutter>,
        context: &Context<'_>,
        outside: &mut Outside<'_, S>,
    ) -> Result<(), MachineFault>
        ensures asks { Asked S.events outside.old outside.new }
        ensures does { (n : ℕ) (F : Facts) → Extends outside.new.facts.now F
            → GivesKnown MachineFault.Memory (λ u. (tt, reached n self.new)) result
            (after_arguments F context.now outer.value
            (value_step F context.now name.now) (reached n self.old)) }
    {
        let Some(word) = self.call_after(name, outer, context, outside)? else {
            return Ok(());
        };
        self.put(word.as_bytes())
    }

    /// Arguments have been cut, and what was cut before them goes on: whether the function has a
    /// value.
    #[inline(never)]
    #[tactic(auto, using(drv_system::proofs::AskedCalls::asked_further))]
    pub(crate) fn has_value<S: System>(
        &mut self,
        name: &[u8],
        outer: Box<Cutter>,
        context: &Context<'_>,
        outside: &mut Outside<'_, S>,
    ) -> Result<bool, MachineFault>
        ensures asks { Asked S.events outside.old outside.new }
        ensures does { (n : ℕ) (F : Facts) → Extends outside.new.facts.now F
            → GivesKnown MachineFault.Memory (λ holds. (holds, reached n self.new)) result
            (after_arguments F context.now outer.value
            (has_value F context.now name.now) (reached n self.old)) }
    {
        let given = self.call_after(name, outer, context, outside)?;
        Ok(given.is_some())
    }
}
