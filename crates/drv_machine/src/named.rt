//! Named texts, each of which is run as an open part.

ghost use Rattle.drv_machine.specs.Atoms.{named, tree_named};
ghost use Rattle.drv_machine.specs.Context as specs;
ghost use Rattle.drv_machine.specs.Code.Counting.{state};
ghost use Rattle.drv_machine.specs.Code.Running as running;
ghost use Rattle.drv_machine.specs.Code.Walking.{Following, Went};
ghost use Rattle.drv_machine.specs.Working.{Answer, most_items};
ghost use Rattle.drv_syntax.specs.Parsed.{tree_of};
ghost use Rattle.drv_system.specs.Facts.{Facts};
ghost use Rattle.std.specs.Prelude.{◌≡◌, ◌≤◌, OnOk, Some, length};

use crate::machine::Tally;
use crate::walk::{Frame, Opened, Walk};
use crate::{Context, MachineFault};
use drv_syntax::{SpecTree, TokenKind};

/// A text is opened.
///
/// # Errors
/// `SpecTooDeep` where 64 parts are open.
fn enter_named_text<'w>(text: &'w SpecTree, walk: &mut Walk<'w>) -> Result<(), MachineFault>
    ensures { (F : Facts) (C : specs.Context) (s : running.Machine)
        (given : Answer (Unit {0} × running.Machine))
        → Following F C walk.old.text.now walk.old walk.old.at
        (λ levels star. named F C (Some (tree_of text.now)) levels) s given
        → Went F C walk.new.text.now walk.new s given result }
{
    let end = text.tokens().len();
    walk.frames.push(Frame {
        opened: Opened::Text {
            around: walk.text,
            back: walk.at,
        },
        end: walk.end,
        star: walk.star,
    })?;
    walk.text = text;
    walk.at = 0;
    walk.end = end;
    walk.star = None;
    Ok(())
}

/// The text of a name is opened; one that isn't there gives nothing. A text of plain bytes alone is
/// put at once, where one more part may be opened and so many items reached.
///
/// # Errors
/// `SpecTooDeep` where 64 parts are open.
pub(crate) fn open_named_text<'w>(
    context: &'w Context<'_>,
    name: &[u8],
    walk: &mut Walk<'w>,
    tally: &mut Tally,
) -> Result<(), MachineFault>
    requires few { tally.old.items ≤ most_items }
    ensures does { (F : Facts) (given : Answer (Unit {0} × running.Machine))
        → Following F context.now walk.old.text.now walk.old walk.old.at
        (λ levels star. named F context.now (tree_named F context.now name.now) levels)
        (state tally.old) given
        → Went F context.now walk.new.text.now walk.new (state tally.new) given result }
    ensures counts { OnOk result (tally.old.items ≤ tally.new.items) }
{
    let Some(text) = context.text_named(name) else {
        return Ok(());
    };
    let tokens = text.tokens();
    if let [first, ..] = tokens {
        if !matches!(first.kind, TokenKind::Plain) {
            return enter_named_text(text, walk);
        }
    }
    let bytes = text.plain_bytes(0, tally.left());
    if bytes.len() < tokens.len() || walk.frames.is_full() {
        return enter_named_text(text, walk);
    }
    if bytes.is_empty() {
        return Ok(());
    }
    tally.put_counted(bytes)?;
    Ok(())
}
