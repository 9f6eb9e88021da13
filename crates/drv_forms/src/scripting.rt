//! A plan as a script of the shell.

ghost use Rattle.drv_forms.specs.Script.{command_text, fault_text, group_text, job_text, kept_text, link_text};
ghost use Rattle.drv_forms.specs.Script.{marked_text, member_text, moving_text, notice_text};
ghost use Rattle.drv_forms.specs.Script.{pipe_text, script as script_text, steps_text, temp_text};
ghost use Rattle.std.specs.List.{flat_map};
ghost use Rattle.std.specs.Prelude.{◌≡◌, ◌∷◌, ◌++◌, [], IfOk, OnOk};

use crate::pieces::{Piece, push_piece};
use crate::shell::{push_shell_word, push_spaced, push_stem_spaced, push_stem_words};
use crate::stems::{plan_front, stem_of};
use drv_words::{Command, Group, Job, Plan, Temp, Word};
use std::alloc::{AllocError, Global};

/// Adds the words of a command.
fn push_command(text: &mut Vec<u8>, stem: &[u8], command: &Command) -> Result<(), AllocError>
    ensures { OnOk result (text.new.items ≡ text.old.items ++ command_text stem.now command.now) }
{
    push_stem_spaced(text, stem, command.program.as_bytes())?;
    push_stem_words(text, stem, command.words.as_slice())
}

/// Adds a notice, which the script says.
fn push_notice(alloc: Global, text: &mut Vec<u8>, notice: &Word) -> Result<(), AllocError>
    ensures { OnOk result (text.new.items ≡ text.old.items ++ notice_text notice.now) }
{
    let mut told = Vec::new(alloc);
    push_piece(&mut told, Piece::Driver)?;
    told.extend_from_slice(notice.as_bytes())?;
    push_piece(text, Piece::Say)?;
    push_spaced(text, told.as_slice())?;
    push_piece(text, Piece::ToError)
}

/// Adds that a file is among those that are removed at the end.
fn push_kept(text: &mut Vec<u8>, stem: &[u8], path: &Word) -> Result<(), AllocError>
    ensures { OnOk result (text.new.items ≡ text.old.items ++ kept_text stem.now path.now) }
{
    push_piece(text, Piece::Keep)?;
    push_stem_spaced(text, stem, path.as_bytes())
}

/// Adds a marked file.
fn push_marked(text: &mut Vec<u8>, stem: &[u8], path: &Word) -> Result<(), AllocError>
    ensures { OnOk result (text.new.items ≡ text.old.items ++ marked_text stem.now path.now) }
{
    push_kept(text, stem, path)?;
    text.push(b'\n')?;
    Ok(())
}

/// Adds the claim of a temporary.
fn push_temp(text: &mut Vec<u8>, stem: &[u8], temp: &Temp) -> Result<(), AllocError>
    ensures { OnOk result (text.new.items ≡ text.old.items ++ temp_text stem.now temp.now) }
{
    push_piece(text, Piece::Claim)?;
    push_stem_spaced(text, stem, temp.path.as_bytes())?;
    push_stem_spaced(text, stem, temp.contents.as_bytes())?;
    push_piece(text, Piece::Then)?;
    push_kept(text, stem, &temp.path)?;
    push_piece(text, Piece::ThenNext)
}

/// Adds the commands after the first of a pipe.
fn push_members(text: &mut Vec<u8>, stem: &[u8], commands: &[Command]) -> Result<(), AllocError>
    ensures { OnOk result (text.new.items ≡ text.old.items ++ flat_map (member_text stem.now) commands.now) }
{
    for command in commands {
        push_piece(text, Piece::Into)?;
        push_command(text, stem, command)?;
    }
    Ok(())
}

/// Adds a pipe.
fn push_pipe(
    text: &mut Vec<u8>,
    stem: &[u8],
    first: &Command,
    others: &[Command],
) -> Result<(), AllocError>
    ensures { OnOk result (text.new.items ≡ text.old.items ++ pipe_text stem.now first.now others.now) }
{
    push_piece(text, Piece::Start)?;
    push_stem_spaced(text, stem, first.program.as_bytes())?;
    push_piece(text, Piece::Pipe)?;
    push_command(text, stem, first)?;
    push_members(text, stem, others)?;
    push_piece(text, Piece::EndPipe)
}

/// Adds a command that is in no pipe.
fn push_single(text: &mut Vec<u8>, stem: &[u8], command: &Command) -> Result<(), AllocError>
    ensures { OnOk result (text.new.items ≡ text.old.items ++ group_text stem.now (command.now ∷ [])) }
{
    push_piece(text, Piece::Run)?;
    push_command(text, stem, command)?;
    push_piece(text, Piece::ThenNext)
}

/// Adds a group.
fn push_group(text: &mut Vec<u8>, stem: &[u8], group: &Group) -> Result<(), AllocError>
    ensures { OnOk result (text.new.items ≡ text.old.items ++ group_text stem.now group.now) }
{
    match group.as_slice() {
        [] => Ok(()),
        [command] => push_single(text, stem, command),
        [first, others @ ..] => push_pipe(text, stem, first, others),
    }
}

/// Adds marked files.
fn push_all_marked(text: &mut Vec<u8>, stem: &[u8], paths: &[Word]) -> Result<(), AllocError>
    ensures { OnOk result (text.new.items ≡ text.old.items ++ flat_map (marked_text stem.now) paths.now) }
{
    for path in paths {
        push_marked(text, stem, path)?;
    }
    Ok(())
}

/// Adds the claims of temporaries.
fn push_temps(text: &mut Vec<u8>, stem: &[u8], temps: &[Temp]) -> Result<(), AllocError>
    ensures { OnOk result (text.new.items ≡ text.old.items ++ flat_map (temp_text stem.now) temps.now) }
{
    for temp in temps {
        push_temp(text, stem, temp)?;
    }
    Ok(())
}

/// Adds groups.
fn push_groups(text: &mut Vec<u8>, stem: &[u8], groups: &[Group]) -> Result<(), AllocError>
    ensures { OnOk result (text.new.items ≡ text.old.items ++ flat_map (group_text stem.now) groups.now) }
{
    for group in groups {
        push_group(text, stem, group)?;
    }
    Ok(())
}

/// Adds what a fault of a job does.
fn push_fault(text: &mut Vec<u8>, stem: &[u8], on_failure: &[Word]) -> Result<(), AllocError>
    ensures { OnOk result (text.new.items ≡ text.old.items ++ fault_text stem.now on_failure.now) }
{
    push_piece(text, Piece::Fault)?;
    push_stem_words(text, stem, on_failure)?;
    push_piece(text, Piece::EndFault)
}

/// Adds what a job does.
fn push_steps(text: &mut Vec<u8>, stem: &[u8], job: &Job) -> Result<(), AllocError>
    ensures { OnOk result (text.new.items ≡ text.old.items ++ steps_text stem.now job.now) }
{
    push_all_marked(text, stem, job.marked.as_slice())?;
    push_piece(text, Piece::NotStarted)?;
    push_temps(text, stem, job.temps.as_slice())?;
    push_groups(text, stem, job.groups.as_slice())?;
    push_fault(text, stem, job.on_failure.as_slice())
}

/// Adds a job, which does nothing without groups.
fn push_job(text: &mut Vec<u8>, stem: &[u8], job: &Job) -> Result<(), AllocError>
    ensures { OnOk result (text.new.items ≡ text.old.items ++ job_text stem.now job.now) }
{
    match job.groups.as_slice() {
        [] => Ok(()),
        _ => push_steps(text, stem, job),
    }
}

/// Adds jobs.
fn push_jobs(text: &mut Vec<u8>, stem: &[u8], jobs: &[Job]) -> Result<(), AllocError>
    ensures { OnOk result (text.new.items ≡ text.old.items ++ flat_map (job_text stem.now) jobs.now) }
{
    for job in jobs {
        push_job(text, stem, job)?;
    }
    Ok(())
}

/// Adds notices.
fn push_notices(alloc: Global, text: &mut Vec<u8>, notices: &[Word]) -> Result<(), AllocError>
    ensures { OnOk result (text.new.items ≡ text.old.items ++ flat_map notice_text notices.now) }
{
    for notice in notices {
        push_notice(alloc, text, notice)?;
    }
    Ok(())
}

/// Adds the link, which is run where no source failed.
fn push_link(text: &mut Vec<u8>, stem: &[u8], link: &Option<Job>) -> Result<(), AllocError>
    ensures { OnOk result (text.new.items ≡ text.old.items ++ link_text stem.now link.now) }
{
    match link {
        Some(job) => {
            push_piece(text, Piece::Unless)?;
            push_job(text, stem, job)
        }
        None => Ok(()),
    }
}

/// Adds that the stem gets its variable, and the folder that gives it another value.
fn push_moving(
    alloc: Global,
    text: &mut Vec<u8>,
    front: &Word,
    stem: &Word,
) -> Result<(), AllocError>
    ensures { OnOk result (text.new.items ≡ text.old.items ++ moving_text front.now stem.now) }
{
    if stem.is_empty() {
        return Ok(());
    }
    let mut template = front.clone()?;
    template.extend_from_slice(b"XXXXXX")?;
    push_piece(text, Piece::Stem)?;
    push_shell_word(text, stem.as_bytes())?;
    push_piece(text, Piece::Folder)?;
    push_spaced(text, template.as_bytes())?;
    push_piece(text, Piece::NewStem)
}

/// A script of the shell that does what a run of the plan does, one source after another. Each word
/// is quoted so that the shell takes it as it is, byte by byte; a byte 0, which no word of a command
/// can hold, is left to the shell. The temporaries are in a private folder beside their planned
/// names, where `mktemp` makes one.
pub fn script(alloc: Global, plan: &Plan) -> Result<Word, AllocError>
    ensures { IfOk result (λ text. text ≡ script_text plan.now) }
{
    let front = plan_front(alloc, plan)?;
    let stem = stem_of(alloc, &front)?;
    let mut text = Vec::new(alloc);
    push_piece(&mut text, Piece::Opening)?;
    push_moving(alloc, &mut text, &front, &stem)?;
    push_notices(alloc, &mut text, plan.notices.as_slice())?;
    push_jobs(&mut text, stem.as_bytes(), plan.jobs.as_slice())?;
    push_link(&mut text, stem.as_bytes(), &plan.link)?;
    push_piece(&mut text, Piece::Status)?;
    Ok(Word::from_vec(text))
}
