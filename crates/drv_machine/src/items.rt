//! Items of a text that open no part.

ghost use Rattle.drv_system.specs.Code.Asked.{Asked};
ghost use Rattle.drv_machine.specs.Atoms.{input_name, leaf_step};
ghost use Rattle.drv_machine.specs.Code.ByKind.{Means, hide_step, kind_step};
ghost use Rattle.drv_machine.specs.Context as specs;
ghost use Rattle.drv_machine.specs.Code.Running as running;
ghost use Rattle.drv_machine.specs.Code.Running.{Does, reached, run};
ghost use Rattle.drv_machine.specs.Code.Standing.{Spans};
ghost use Rattle.drv_machine.specs.Code.Walking.{star_of};
ghost use Rattle.drv_machine.specs.Working.{Levels, Step, refuse};
ghost use Rattle.drv_syntax.specs.Labels.{label_at};
ghost use Rattle.drv_syntax.specs.declared.token.TokenKind.TheVariants as kinds;
ghost use Rattle.drv_syntax.specs.Parsed.{tree_of};
ghost use Rattle.drv_syntax.specs.Tokens.{tokens_of};
ghost use Rattle.drv_system.specs.Asking.{Extends};
ghost use Rattle.drv_system.specs.Facts.{Facts};
ghost use Rattle.drv_system.specs.Gives.{GivesKnown};
ghost use Rattle.drv_system.specs.Known.{Is};
ghost use Rattle.std.specs.Prelude.{◌≡◌, ◌+◌, ◌<◌, Ok, length, ℕ};

use crate::emitting::emit;
use crate::machine::{Machine, Mark};
use crate::tokens_at::pattern_at;
use crate::walk::{Parts, Walk, star_of};
use crate::{Context, MachineFault};
use drv_syntax::{Leaf, SpecTree, Token, TokenKind};
use drv_system::{Outside, System};
use drv_words::{Word, base, stem};
use std::alloc::Global;

/// The name of the input; the link has none.
fn input_name<'a>(context: &'a Context<'_>) -> Result<&'a [u8], MachineFault>
    ensures { (F : Facts) (s : running.Machine)
        → GivesKnown MachineFault.Memory (λ name. (name.now, s)) result
        (run F context.now s (input_name F context.now)) }
{
    match context.input() {
        Some(source) => Ok(source.name),
        None => Err(MachineFault::NoInput),
    }
}

/// Hides the switches that the pattern at a place names.
fn hide(text: &SpecTree, context: &Context<'_>, at: usize, machine: &mut Machine)
    requires { at < length (tokens_of (tree_of text.now)) }
    ensures { (n : ℕ) (F : Facts) → run F context.now (reached n machine.old)
        (hide_step context.now (label_at (tree_of text.now) at)) ≡ Is (Ok (tt, reached n machine.new)) }
{
    machine.hide(context.switches(), &pattern_at(text, at));
}

/// The text is refused by an error for the user.
fn user_error(alloc: Global, text: &[u8]) -> Result<(), MachineFault>
    ensures { (F : Facts) (C : specs.Context) (s : running.Machine)
        → GivesKnown MachineFault.Memory (λ u. (tt, s)) result
        (run F C {X = Unit {0}} s (refuse (MachineFault.UserError text.now))) }
{
    Err(MachineFault::UserError(Word::from_bytes(alloc, text)?))
}

/// Works a directive that is whole with its byte.
#[tactic(auto, using(drv_system::proofs::AskedCalls::asked_none))]
fn work_leaf<S: System>(
    leaf: Leaf,
    context: &Context<'_>,
    machine: &mut Machine,
    outside: &mut Outside<'_, S>,
) -> Result<(), MachineFault>
    ensures asks { Asked S.events outside.old outside.new }
    ensures does { (n : ℕ) (F : Facts) → Extends outside.new.facts.now F
        → Does F context.now n machine.old machine.new result (leaf_step F context.now leaf) }
{
    match leaf {
        Leaf::Percent => machine.put(b"%"),
        Leaf::InputName => machine.put(input_name(context)?),
        Leaf::BaseStem => machine.put(stem(input_name(context)?)),
        Leaf::BaseName => machine.put(base(input_name(context)?)),
        Leaf::Removed => {
            machine.mark(Mark::AsRemoved);
            Ok(())
        }
        Leaf::Output => {
            machine.mark(Mark::AsOutput);
            Ok(())
        }
        Leaf::NoOutput => {
            machine.bar_output();
            Ok(())
        }
        Leaf::Outputs => machine.put_outputs(context, outside),
        Leaf::ObjectSuffix => machine.put(b".o"),
        Leaf::FoundFile => {
            machine.mark(Mark::AsFile);
            Ok(())
        }
        Leaf::FoundScript => {
            machine.mark(Mark::AsScript);
            Ok(())
        }
        Leaf::Accumulated => machine.put_accumulated(context, outside),
        Leaf::AssemblerOptions => machine.put_words(context.assembler(), context, outside),
        Leaf::PreprocessorOptions => { machine.put_words(context.preprocessor(), context, outside) }
        Leaf::Directories => machine.put_folders(context, outside),
    }
}

/// An item of a text: its place, and its token.
#[derive(Clone, Copy)]
pub(crate) struct Item {
    pub(crate) at: usize,
    pub(crate) token: Token,
}

/// Runs an item of the text that is walked that opens no part and has no alternatives.
#[inline(never)]
#[tactic(auto, using(drv_system::proofs::AskedCalls::asked_none))]
pub(crate) fn work_item<S: System>(
    context: &Context<'_>,
    item: Item,
    walk: &Walk<'_>,
    machine: &mut Machine,
    outside: &mut Outside<'_, S>,
) -> Result<(), MachineFault>
    requires in_list { item.at < length (tokens_of (tree_of walk.now.text.now)) }
    requires spans { Spans walk.now.text.now (item.at + 1) item.token.next }
    requires no_choice { item.token.kind ≡ kinds.Choose → ⊥ }
    requires no_text { item.token.kind ≡ kinds.NamedText → ⊥ }
    requires no_builtin { item.token.kind ≡ kinds.BuiltinText → ⊥ }
    requires no_failure { item.token.kind ≡ kinds.FailureFile → ⊥ }
    requires no_call { item.token.kind ≡ kinds.Function → ⊥ }
    requires no_file { item.token.kind ≡ kinds.ArgumentsFile → ⊥ }
    ensures asks { Asked S.events outside.old outside.new }
    ensures does { (n : ℕ) (F : Facts) → Extends outside.new.facts.now F
        → (levels : Levels) (inner : Step (Unit {0}))
        → Means F context.now walk.now.text.now item.token.kind (item.at + 1) item.token.next levels
        (star_of context.now walk.now.star) inner
        → Does F context.now n machine.old machine.new result (kind_step F context.now item.token.kind
        (label_at (tree_of walk.now.text.now) item.at) (star_of context.now walk.now.star) inner) }
{
    let text = walk.text;
    match item.token.kind {
        TokenKind::Plain | TokenKind::Escape => machine.put(text.word(item.at)),
        TokenKind::Blank => machine.end_word(context, outside),
        TokenKind::Newline => machine.end_line(context, outside),
        TokenKind::Pipe => machine.pipe(context, outside),
        TokenKind::Leaf(leaf) => work_leaf(leaf, context, machine, outside),
        TokenKind::Hide => {
            hide(text, context, item.at, machine);
            Ok(())
        }
        TokenKind::Emit => {
            let parts = Parts {
                start: item.at + 1,
                end: item.token.next,
            };
            emit(text, context, parts, machine, outside)
        }
        TokenKind::Star => machine.put(star_of(context, walk.star)),
        TokenKind::TempName(kind) => machine.put_temp(kind, text.word(item.at), context, outside),
        TokenKind::Accumulate => machine.accumulate(text.word(item.at)),
        TokenKind::UserError => user_error(machine.alloc(), text.word(item.at)),
        TokenKind::Notice => machine.add_notice(text.word(item.at)),
        TokenKind::NamedText
        | TokenKind::BuiltinText
        | TokenKind::Function
        | TokenKind::FailureFile
        | TokenKind::ArgumentsFile
        | TokenKind::Choose
        | TokenKind::Alternative
        | TokenKind::Test
        | TokenKind::Pattern => Ok(()),
    }
}
