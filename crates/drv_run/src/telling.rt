//! What the user reads of a plan.

// In clauses: `OnlySays` says that only texts were said.
ghost use Rattle.drv_run.specs.Calls.{OnlySays, notice_line, notices_text, status_of};
ghost use Rattle.drv_run.specs.Code.Telling.{AnnouncesPlan, SaysText, ShowsPlan};
ghost use Rattle.drv_words.specs.Lines.{lines_of};
ghost use Rattle.drv_words.specs.Printed.{lines_text};
ghost use Rattle.std.specs.Prelude.{◌≡◌, ◌++◌, IfOk, OnErr, OnOk};

use crate::work::Telling;
use drv_system::{System, TellAnswer};
use drv_words::{Plan, Word, render_plan};
use std::alloc::{AllocError, Global};

/// The exit status after a text was written: 1 where it could not be.
pub fn status_of(answer: TellAnswer) -> u8
    ensures { result ≡ status_of answer }
{
    match answer {
        TellAnswer::Told => 0,
        TellAnswer::Failed => 1,
    }
}

/// Says a text, unless it is empty, and answers the exit status: 0, or 1 where it could not be
/// said.
fn say_text<S: System>(sys: &mut S, text: &Word) -> Result<u8, AllocError>
    ensures says { IfOk result
        (λ status. SaysText (S.events sys.old) (S.events sys.new) text.now status) }
    ensures memory { OnErr result (S.events sys.new ≡ S.events sys.old) }
{
    // An empty text is no event of the journal.
    if text.is_empty() {
        return Ok(0);
    }
    Ok(status_of(sys.say(text)?))
}

/// Adds a notice as the user reads it: after the program's name, on a line of its own.
fn push_notice(text: &mut Word, name: &[u8], notice: &Word) -> Result<(), AllocError>
    ensures { OnOk result (text.new ≡ text.old ++ notice_line name.now notice.now) }
{
    text.extend_from_slice(name)?;
    text.extend_from_slice(b": ")?;
    text.extend_from_slice(notice.as_bytes())?;
    text.push(b'\n')
}

/// The notices of a plan as the user reads them.
fn notices_text(alloc: Global, name: &[u8], notices: &[Word]) -> Result<Word, AllocError>
    ensures { IfOk result (λ text. text ≡ notices_text name.now notices.now) }
{
    let mut text = Word::empty(alloc);
    for notice in notices {
        push_notice(&mut text, name, notice)?;
    }
    Ok(text)
}

/// Says the notices of a plan, if it has any.
fn say_notices<S: System>(
    alloc: Global,
    sys: &mut S,
    name: &[u8],
    plan: &Plan,
) -> Result<u8, AllocError>
    ensures says { IfOk result
        (λ status. SaysText (S.events sys.old) (S.events sys.new)
        (notices_text name.now plan.now.notices) status) }
    ensures memory { OnErr result (S.events sys.new ≡ S.events sys.old) }
{
    let text = notices_text(alloc, name, plan.notices.as_slice())?;
    say_text(sys, &text)
}

/// Says the commands of a plan, if it has any.
fn say_commands<S: System>(alloc: Global, sys: &mut S, plan: &Plan) -> Result<u8, AllocError>
    ensures says { IfOk result
        (λ status. SaysText (S.events sys.old) (S.events sys.new)
        (lines_text (lines_of plan.now)) status) }
    ensures memory { OnErr result (S.events sys.new ≡ S.events sys.old) }
{
    let text = render_plan(alloc, plan)?;
    say_text(sys, &text)
}

/// Says a plan: its notices, and then its commands. The exit status is 1 where the commands could
/// not be said.
pub(crate) fn say_plan<S: System>(
    alloc: Global,
    sys: &mut S,
    name: &[u8],
    plan: &Plan,
) -> Result<u8, AllocError>
    ensures shows { IfOk result
        (λ status. ShowsPlan name.now (S.events sys.old) (S.events sys.new) plan.now status) }
    ensures memory { OnErr result (OnlySays (S.events sys.old) (S.events sys.new)) }
{
    let _noticed = say_notices(alloc, sys, name, plan)?;
    let status = say_commands(alloc, sys, plan)?;
    Ok(status)
}

/// Says what comes before a plan is carried out: its notices, and its commands too where that is
/// asked for.
pub(crate) fn announce<S: System>(
    alloc: Global,
    sys: &mut S,
    name: &[u8],
    plan: &Plan,
    telling: Telling,
) -> Result<(), AllocError>
    ensures announces { OnOk result
        (AnnouncesPlan name.now (S.events sys.old) (S.events sys.new) telling plan.now) }
    ensures memory { OnErr result (OnlySays (S.events sys.old) (S.events sys.new)) }
{
    let _status = match telling {
        Telling::Commands => say_plan(alloc, sys, name, plan)?,
        Telling::Notices => say_notices(alloc, sys, name, plan)?,
    };
    Ok(())
}
