//! One turn works one item.

ghost use Rattle.drv_system.specs.Code.Asked.{Asked};
ghost use Rattle.drv_machine.specs.Atoms.{items_step, levels_left};
ghost use Rattle.drv_machine.specs.Context as specs;
ghost use Rattle.drv_machine.specs.Code.Counting.{state};
ghost use Rattle.drv_machine.specs.Code.Running as running;
ghost use Rattle.drv_machine.specs.Code.Running.{reached, run};
ghost use Rattle.drv_machine.specs.Code.Walking.{After, AskFits, AtItem, HasFrames, Kept, Lain};
ghost use Rattle.drv_machine.specs.Code.Walking.{Left, after_arguments, asked_on};
ghost use Rattle.drv_machine.specs.Code.Walking.{OpenedFits, Settled, Went, back_of, closing};
ghost use Rattle.drv_machine.specs.Code.Walking.{hits_left, text_around, weight};
ghost use Rattle.drv_machine.specs.Code.PlainRuns.{AtByte};
ghost use Rattle.drv_machine.specs.Working.{Answer, counted, most_items, most_open};
ghost use Rattle.drv_syntax.specs.Parsed.{tree_of};
ghost use Rattle.drv_syntax.specs.Tokens.{tokens_of};
ghost use Rattle.drv_syntax.specs.Tree as tree;
ghost use Rattle.drv_syntax.specs.declared.token.Token.{Token};
ghost use Rattle.drv_syntax.specs.declared.token.TokenKind.TheVariants as kinds;
ghost use Rattle.drv_system.specs.Asking.{Extends};
ghost use Rattle.drv_system.specs.Facts.{Facts};
ghost use Rattle.drv_system.specs.Gives.{GivesKnown};
ghost use Rattle.drv_system.specs.Known.{Is};
ghost use Rattle.std.specs.Prelude.{◌≡◌, ◌+◌, ◌-◌, ◌<◌, ◌≤◌, [], IfOk, IsTrue, Ok, OnOk, Some};
ghost use Rattle.std.specs.Prelude.{length, slice_get, ℕ};

use crate::braces::{answer, choose};
use crate::calling::open_call;
use crate::failing::work_failure;
use crate::filing::work_filed;
use crate::hits::close_hit;
use crate::items::{Item, work_item};
use crate::machine::{Cutter, Machine, Tally};
use crate::named::open_named_text;
use crate::tokens_at::token_at;
use crate::walk::{Asking, Frame, Hit, Opened, Parts, Walk};
use crate::watch::Watch;
use crate::{Context, MachineFault};
use drv_syntax::{SpecTree, TokenKind};
use drv_system::{Outside, System};

/// A test whose function's arguments end.
#[derive(Drop)]
struct EndedTest {
    asking: Asking,
    /// What was cut before the arguments.
    outer: Box<Cutter>,
}

/// The arguments of the function that a test asks end: the test is judged by what the function
/// says. It is out of line, so that the end of other parts has no room for that.
#[inline(never)]
fn close_test<S: System>(
    context: &Context<'_>,
    test: EndedTest,
    walk: &mut Walk<'_>,
    machine: &mut Machine,
    outside: &mut Outside<'_, S>,
) -> Result<(), MachineFault>
    requires { (items : tree.Items) × (kept : Kept)
        × AskFits walk.old.text.now test.asking items kept }
    ensures asks { Asked S.events outside.old outside.new }
    ensures does { (n : ℕ) (F : Facts) → Extends outside.new.facts.now F
        → (items : tree.Items) (kept : Kept) (given : Answer (Unit {0} × running.Machine))
        → AskFits walk.old.text.now test.asking items kept
        → After F context.now walk.old.text.now walk.old test.asking.end (λ levels star s.
        after_arguments F context.now test.outer.value (asked_on F context.now items kept levels star)
        s) (reached n machine.old) given
        → Went F context.now walk.new.text.now walk.new (reached n machine.new) given result }
    ensures lighter { OnOk result (weight (length context.now.switches) walk.new.frames
        < weight (length context.now.switches) walk.old.frames +
        (length context.now.switches + 1 + (test.asking.end - test.asking.test))) }
{
    let text = walk.text;
    let name = text.word(test.asking.test);
    let holds = machine.has_value(name, test.outer, context, outside)?;
    answer(context, test.asking, holds, walk, machine)
}

/// The innermost open part ends: what it was opened for is done, or done once more, in the part
/// around it.
#[tactic(auto, using(drv_system::proofs::AskedCalls::asked_none, drv_system::proofs::AskedCalls::asked_further))]
fn close<'w, S: System>(
    context: &Context<'_>,
    frame: Frame<'w>,
    walk: &mut Walk<'w>,
    machine: &mut Machine,
    outside: &mut Outside<'_, S>,
) -> Result<(), MachineFault>
    requires { (p : tree.Pattern) × (items : tree.Items) × (kept : Kept)
        × OpenedFits walk.old.text.now context.now frame.opened p items kept }
    ensures asks { Asked S.events outside.old outside.new }
    ensures does { (n : ℕ) (F : Facts) → Extends outside.new.facts.now F
        → (p : tree.Pattern) (items : tree.Items) (kept : Kept)
        (given : Answer (Unit {0} × running.Machine))
        → OpenedFits walk.old.text.now context.now frame.entry.opened p items kept
        → After F context.now (text_around walk.old.text.now frame.entry.opened)
        (record walk.old { end = frame.entry.end; star = frame.entry.star })
        (back_of frame.entry.opened) (λ levels star s. closing F context.now levels star
        frame.entry.opened p items kept s) (reached n machine.old) given
        → Went F context.now walk.new.text.now walk.new (reached n machine.new) given result }
    ensures lighter { OnOk result (weight (length context.now.switches) walk.new.frames
        < weight (length context.now.switches) walk.old.frames + hits_left
        (length context.now.switches) frame.entry.opened) }
{
    let text = walk.text;
    walk.end = frame.end;
    walk.star = frame.star;
    match frame.opened {
        Opened::Hit { each, switch } => {
            close_hit(context, Hit { each, switch }, walk, machine, outside)
        }
        Opened::Text { around, back } => {
            walk.text = around;
            walk.at = back;
            Ok(())
        }
        Opened::Failure { back } => {
            walk.at = back;
            machine.end_failure(context, outside)
        }
        Opened::File { back } => {
            walk.at = back;
            machine.end_file(context, outside)
        }
        Opened::Inside { back } => {
            walk.at = back;
            Ok(())
        }
        Opened::Call { at, back, outer } => {
            walk.at = back;
            machine.put_value(text.word(at), outer, context, outside)
        }
        Opened::Asks { places, outer } => {
            let test = EndedTest {
                asking: Box::into_inner(places),
                outer,
            };
            close_test(context, test, walk, machine, outside)
        }
    }
}

/// Closes the open parts that have ended, and says whether an item is left to be processed. The end of
/// a part may open another, as the end of an X does for the next hit. Alternatives that are not
/// worked are passed over.
fn settle<S: System, W: Watch>(
    context: &Context<'_>,
    walk: &mut Walk<'_>,
    machine: &mut Machine,
    outside: &mut Outside<'_, S>,
    watch: &mut W,
) -> Result<bool, MachineFault>
    requires lain { Lain walk.old.text.now walk.old }
    requires framed { HasFrames context.now walk.old.text.now walk.old }
    ensures asks { Asked S.events outside.old outside.new }
    ensures does { (n : ℕ) (F : Facts) → Extends outside.new.facts.now F
        → (given : Answer (Unit {0} × running.Machine))
        → Left F context.now walk.old.text.now walk.old (reached n machine.old) given
        → Settled F context.now walk.new.text.now walk.new (reached n machine.new) given result }
    ensures reached { IfOk result (λ more. IsTrue more → AtItem walk.new.text.now walk.new) }
{
    let text = walk.text;
    walk.skip(text);
    while walk.at >= walk.end {
        let Some(frame) = walk.frames.pop() else {
            return Ok(false);
        };
        watch.end_part(context, &frame, walk, machine);
        close(context, frame, walk, machine, outside)?;
        let around = walk.text;
        walk.skip(around);
    }
    Ok(true)
}

/// Whether a plain byte is at this place, before this end.
#[inline(always)]
fn has_byte(text: &SpecTree, at: usize, end: usize) -> bool
    ensures before { IsTrue result → at < end }
    ensures plain { IsTrue result → (token : Token) × (slice_get (tokens_of (tree_of text.now)) at
        ≡ Some token) × (token.kind ≡ kinds.Plain) }
{
    let tokens = text.tokens();
    at < end && at < tokens.len() && matches!(tokens[at].kind, TokenKind::Plain)
}

/// Works the plain bytes from the place that is reached, up to another item or the end of the
/// innermost part, as many as may be reached. The first was counted.
#[inline(never)]
fn work_run(text: &SpecTree, walk: &mut Walk<'_>, tally: &mut Tally) -> Result<(), MachineFault>
    requires lain { Lain text.now walk.old }
    requires at_byte { AtByte text.now walk.old }
    requires few { tally.old.items ≤ most_items }
    ensures does { (F : Facts) (C : specs.Context) (s : running.Machine)
        (given : Answer (Unit {0} × running.Machine))
        → run F C s counted ≡ Is (Ok (tt, state tally.old)) → Left F C text.now walk.old s given
        → Went F C text.now walk.new (state tally.new) given result }
    ensures same { walk.new ≡ record walk.old { at = walk.new.at } }
    ensures counts { OnOk result (tally.old.items ≤ tally.new.items) }
{
    let at = walk.at;
    let end = walk.end.min(at.saturating_add(tally.left() + 1));
    let run = text.plain_bytes(at, end);
    walk.at = at + run.len();
    tally.put_run(run)?;
    Ok(())
}

/// Works the item that is reached, and where that is a plain byte, those after it.
#[tactic(auto, using(drv_system::proofs::AskedCalls::asked_none))]
fn turn<'w, S: System>(
    context: &'w Context<'_>,
    walk: &mut Walk<'w>,
    tally: &mut Tally,
    outside: &mut Outside<'_, S>,
) -> Result<(), MachineFault>
    requires lain { Lain walk.old.text.now walk.old }
    requires at_item { AtItem walk.old.text.now walk.old }
    ensures asks { Asked S.events outside.old outside.new }
    ensures does { (F : Facts) → Extends outside.new.facts.now F
        → (given : Answer (Unit {0} × running.Machine))
        → Left F context.now walk.old.text.now walk.old (state tally.old) given
        → Went F context.now walk.new.text.now walk.new (state tally.new) given result }
    ensures counts { OnOk result (tally.old.items < tally.new.items) }
    ensures below { OnOk result (tally.old.items < 1000000) }
{
    let text = walk.text;
    let at = walk.at;
    let token = token_at(text, at);
    tally.count()?;
    let next = token.next;
    let inside = Parts {
        start: at + 1,
        end: next,
    };
    match token.kind {
        TokenKind::Choose => choose(context, inside.start, next, walk, &mut tally.machine),
        TokenKind::NamedText => {
            walk.at = next;
            open_named_text(context, text.word(at), walk, tally)
        }
        TokenKind::BuiltinText => {
            walk.at = next;
            open_named_text(context, text.word(at), walk, tally)
        }
        TokenKind::Function => open_call(at, next, walk, &mut tally.machine),
        TokenKind::FailureFile => {
            work_failure(context, inside, walk, &mut tally.machine, outside)
        }
        TokenKind::ArgumentsFile => {
            work_filed(context, inside, walk, &mut tally.machine, outside)
        }
        TokenKind::Plain => {
            if has_byte(text, next, walk.end) {
                return work_run(text, walk, tally);
            }
            walk.at = next;
            tally.machine.put_bytes(text.word(at))?;
            Ok(())
        }
        _ => {
            walk.at = next;
            work_item(
                context,
                Item { at, token },
                walk,
                &mut tally.machine,
                outside,
            )
        }
    }
}

/// Works the items of a walk that are left, up to its end.
fn work_items<'w, S: System, W: Watch>(
    context: &'w Context<'_>,
    walk: &mut Walk<'w>,
    tally: &mut Tally,
    outside: &mut Outside<'_, S>,
    watch: &mut W,
) -> Result<(), MachineFault>
    requires lain { Lain walk.old.text.now walk.old }
    requires framed { HasFrames context.now walk.old.text.now walk.old }
    ensures asks { Asked S.events outside.old outside.new }
    ensures does { (F : Facts) → Extends outside.new.facts.now F
        → (given : Answer (Unit {0} × running.Machine))
        → Left F context.now walk.old.text.now walk.old (state tally.old) given
        → GivesKnown MachineFault.Memory (λ u. (tt, state tally.new)) result given }
{
    while settle(context, walk, &mut tally.machine, outside, watch)? {
        watch.reach(context, walk, &tally.machine);
        turn(context, walk, tally, outside)?;
    }
    Ok(())
}

/// Works a whole text.
pub(crate) fn work_text<'w, S: System, W: Watch>(
    text: &'w SpecTree,
    context: &'w Context<'_>,
    tally: &mut Tally,
    outside: &mut Outside<'_, S>,
    watch: &mut W,
) -> Result<(), MachineFault>
    ensures asks { Asked S.events outside.old outside.new }
    ensures does { (F : Facts) → Extends outside.new.facts.now F
        → GivesKnown MachineFault.Memory (λ u. (tt, state tally.new)) result
        (run F context.now (state tally.old) (items_step F context.now (tree_of text.now)
        (levels_left F context.now most_open) [])) }
{
    let mut walk = Walk::new(tally.machine.alloc(), text, text.tokens().len());
    work_items(context, &mut walk, tally, outside, watch)
}
