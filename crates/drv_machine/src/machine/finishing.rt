//! What follows the whole text: pipes judged, and the commands as a job.

ghost use Rattle.drv_system.specs.Code.Asked.{Asked};
ghost use Rattle.drv_machine.specs.Cutting as cutting;
ghost use Rattle.drv_machine.specs.Code.Grouping.{grouped};
ghost use Rattle.drv_machine.specs.Code.Held.{made};
ghost use Rattle.drv_machine.specs.Code.Running.{reached};
ghost use Rattle.drv_machine.specs.Outcome.{command, ends_piped, finished, groups, job};
ghost use Rattle.drv_machine.specs.Outcome.{lasting_files};
ghost use Rattle.drv_machine.specs.Outcome.{most_piped, once};
ghost use Rattle.drv_machine.specs.Working.{is_among};
ghost use Rattle.drv_system.specs.Asking.{Extends};
ghost use Rattle.drv_system.specs.Facts.{Facts};
ghost use Rattle.drv_system.specs.Gives.{GivesKnown};
ghost use Rattle.drv_system.specs.Known.{Is};
ghost use Rattle.std.specs.List.{list_any};
ghost use Rattle.std.specs.Prelude.{◌≡◌, ◌&&◌, ◌||◌, ◌∷◌, ◌++◌, [], IfOk, List, Ok, OnOk, length};
ghost use Rattle.std.specs.Prelude.{map, nat_lt, ℕ};

use super::lists::add_once;
use super::{Drawn, Machine, NamedLine};
use crate::{Context, MachineFault, Outcome};
use drv_search::find_program;
use drv_system::{Outside, System};
use drv_words::{Command, Group, Job, Listing, Temp, Word};
use std::alloc::{AllocError, Global};
use std::mem;

/// The most commands of a group.
const MOST_PIPED: usize = 16;

/// The job of a text that was run to its end with this many items, and what goes on to the next
/// text. Words are moved.
///
/// # Errors
/// `StrayPipe` where a pipe is not at the end of a command with a word, or no further command
/// follows it; `PipeTooLong` where more than 16 commands form one pipe.
#[tactic(auto, using(drv_system::proofs::AskedCalls::asked_none))]
pub(crate) fn outcome_of<S: System>(
    machine: &mut Machine,
    cost: usize,
    context: &Context<'_>,
    outside: &mut Outside<'_, S>,
) -> Result<Outcome, MachineFault>
    ensures asks { Asked S.events outside.old outside.new }
    ensures does { (F : Facts) → Extends outside.new.facts.now F
        → GivesKnown MachineFault.Memory (λ o. o) result
        (finished F context.now (reached cost machine.old).world machine.old.cut) }
{
    let job = job_of(machine, context, outside)?;
    let outs = machine.outputs.take()?;
    Ok(Outcome {
        job,
        notices: mem::replace(&mut machine.notices, Listing::new(machine.alloc)),
        outs,
        accumulated: mem::replace(&mut machine.accumulated, Listing::new(machine.alloc)),
        next_number: machine.number,
        cost,
    })
}

/// The job of a machine's text. Words are moved out of the machine.
#[tactic(auto, using(drv_system::proofs::AskedCalls::asked_none))]
fn job_of<S: System>(
    machine: &mut Machine,
    context: &Context<'_>,
    outside: &mut Outside<'_, S>,
) -> Result<Job, MachineFault>
    ensures asks { Asked S.events outside.old outside.new }
    ensures does { (n : ℕ) (F : Facts) → Extends outside.new.facts.now F
        → GivesKnown MachineFault.Memory
        (λ j. record {
          job = j;
          notices = machine.old.world.notices;
          outs =
              machine.old.world.outputs;
          accumulated = machine.old.world.accumulated;
          next_number =
              machine.old.world.number;
          cost = n;
        }) result
        (finished F context.now (reached n machine.old).world machine.old.cut) }
    ensures notices { machine.new.world.notices ≡ machine.old.world.notices }
    ensures outputs { machine.new.world.outputs ≡ machine.old.world.outputs }
    ensures accumulated { machine.new.world.accumulated ≡ machine.old.world.accumulated }
    ensures number { machine.new.world.number ≡ machine.old.world.number }
{
    if has_stray_pipe(machine) {
        return Err(MachineFault::StrayPipe);
    }
    let alloc = machine.alloc;
    let lines = mem::replace(&mut machine.lines, Listing::new(alloc));
    let groups = groups_of(alloc, lines, context, outside)?;
    if has_long_pipe(groups.as_slice()) {
        return Err(MachineFault::PipeTooLong);
    }
    Ok(job_around(machine, groups)?)
}

/// The job of these groups. Words are moved out of the machine.
fn job_around(machine: &mut Machine, groups: Listing<Group>) -> Result<Job, AllocError>
    ensures made { IfOk result (λ made. made ≡ job machine.old.world machine.old.cut groups) }
    ensures notices { machine.new.world.notices ≡ machine.old.world.notices }
    ensures outputs { machine.new.world.outputs ≡ machine.old.world.outputs }
    ensures accumulated { machine.new.world.accumulated ≡ machine.old.world.accumulated }
    ensures number { machine.new.world.number ≡ machine.old.world.number }
{
    let alloc = machine.alloc;
    let removed = mem::replace(&mut machine.removed, Listing::new(alloc));
    let marked = lasting_files(alloc, machine.drawn.as_slice(), removed)?;
    let failing = mem::replace(&mut machine.on_failure, Listing::new(alloc));
    let on_failure = lasting_files(alloc, machine.drawn.as_slice(), failing)?;
    let drawn = mem::replace(&mut machine.drawn, Listing::new(alloc));
    let temps = temps_of(alloc, drawn)?;
    Ok(Job {
        source: None,
        groups,
        temps,
        marked,
        on_failure,
        output: machine.output.take(),
    })
}

/// Whether a pipe is where none may be.
fn has_stray_pipe(machine: &Machine) -> bool
    ensures { result ≡ (machine.now.cut.stray || ends_piped machine.now.cut.lines) }
{
    machine.is_stray || ends_piped(machine.lines.as_slice())
}

/// Whether the last command ends with a pipe.
fn ends_piped(lines: &[NamedLine]) -> bool
    ensures { result ≡ ends_piped lines.now }
{
    match lines {
        [.., last] => last.piped,
        [] => false,
    }
}

/// Whether a group has too many commands.
fn has_long_pipe(groups: &[Group]) -> bool
    ensures { result ≡ list_any (λ group. nat_lt most_piped (length group)) groups.now }
{
    for group in groups {
        if group.as_slice().len() > MOST_PIPED {
            return true;
        }
    }
    false
}

/// The groups of the commands so far.
#[derive(Drop)]
struct Grouping {
    /// Those that have ended.
    ended: Listing<Group>,
    /// The commands of the one that is begun.
    begun: Vec<Command>,
}

/// The groups of commands: with `-pipe` piped commands form one, otherwise each command is one.
/// Lack of memory is the only error.
#[tactic(auto, using(drv_system::proofs::AskedCalls::asked_none, drv_system::proofs::AskedCalls::asked_further))]
fn groups_of<S: System>(
    alloc: Global,
    lines: Listing<NamedLine>,
    context: &Context<'_>,
    outside: &mut Outside<'_, S>,
) -> Result<Listing<Group>, AllocError>
    ensures asks { Asked S.events outside.old outside.new }
    ensures made { (F : Facts) → Extends outside.new.facts.now F
        → IfOk result (λ made. groups F context.now lines ≡ Is (Ok made)) }
{
    let mut grouping = Grouping {
        ended: Listing::new(alloc),
        begun: Vec::new(alloc),
    };
    for line in lines.into_vec() {
        add_line(alloc, &mut grouping, line, context, outside)?;
    }
    let begun = grouping.begun;
    push_group(&mut grouping.ended, begun)?;
    Ok(grouping.ended)
}

/// The command of one line more joins those of the group that is begun. That group then joins those
/// that have ended, unless the next command is joined to it. Lack of memory is the only error.
#[tactic(auto, using(drv_system::proofs::AskedCalls::asked_none))]
fn add_line<S: System>(
    alloc: Global,
    grouping: &mut Grouping,
    line: NamedLine,
    context: &Context<'_>,
    outside: &mut Outside<'_, S>,
) -> Result<(), AllocError>
    ensures asks { Asked S.events outside.old outside.new }
    ensures added { (F : Facts) → Extends outside.new.facts.now F
        → OnOk result ((lines : List cutting.NamedLine)
        → grouped grouping.old.ended grouping.old.begun.items (groups F context.now (line ∷ lines))
        ≡ grouped grouping.new.ended grouping.new.begun.items (groups F context.now lines)) }
{
    let is_joined = is_joined(context, &line);
    grouping
        .begun
        .push(command_of(alloc, line, context, outside)?)?;
    if is_joined {
        return Ok(());
    }
    push_group(
        &mut grouping.ended,
        mem::replace(&mut grouping.begun, Vec::new(alloc)),
    )?;
    Ok(())
}

/// Whether the command of a line goes into one group with the next one.
fn is_joined(context: &Context<'_>, line: &NamedLine) -> bool
    ensures { result ≡ (context.now.is_piping && line.now.piped) }
{
    context.is_piping() && line.piped
}

/// One group more, if these are commands.
fn push_group(groups: &mut Listing<Group>, commands: Vec<Command>) -> Result<(), AllocError>
    ensures { OnOk result (groups.new ≡ groups.old ++ made commands.items) }
{
    if let Some(group) = Group::from_vec(commands) {
        groups.push(group)?;
    }
    Ok(())
}

/// The command of a line, whose program is searched. Lack of memory is the only error.
#[tactic(auto, using(drv_system::proofs::AskedCalls::asked_none))]
fn command_of<S: System>(
    alloc: Global,
    line: NamedLine,
    context: &Context<'_>,
    outside: &mut Outside<'_, S>,
) -> Result<Command, AllocError>
    ensures asks { Asked S.events outside.old outside.new }
    ensures made { (F : Facts) → Extends outside.new.facts.now F
        → IfOk result (λ made. command F context.now line ≡ Is (Ok made)) }
{
    let program = find_program(
        alloc,
        context.prefixes(),
        &line.name,
        outside.sys,
        outside.facts,
    )?;
    Ok(Command {
        program,
        words: line.words,
    })
}

/// The temporaries of a job, with what their files hold. Words are moved.
fn temps_of(alloc: Global, drawn: Listing<Drawn>) -> Result<Listing<Temp>, AllocError>
    ensures { IfOk result (λ temps. temps
        ≡ map (λ name. record { path = name.path; contents = name.contents }) drawn) }
{
    let mut temps = Listing::new(alloc);
    for name in drawn.into_vec() {
        temps.push(Temp {
            path: name.path,
            contents: name.contents,
        })?;
    }
    Ok(temps)
}

/// Whether one of the names that were drawn has this path.
fn has_path(drawn: &[Drawn], path: &[u8]) -> bool
    ensures { result ≡ is_among (map (λ name. name.path) drawn.now) path.now }
{
    for name in drawn {
        if path == name.path.as_bytes() {
            return true;
        }
    }
    false
}

/// Files, each once. Words are moved.
fn once(alloc: Global, files: Listing<Word>) -> Result<Listing<Word>, AllocError>
    ensures { IfOk result (λ kept. kept ≡ once files) }
{
    let mut kept = Listing::new(alloc);
    for file in files.into_vec() {
        add_once(&mut kept, file)?;
    }
    Ok(kept)
}

/// Files, each once, and without the job's own temporaries. Words are moved.
fn lasting_files(
    alloc: Global,
    drawn: &[Drawn],
    files: Listing<Word>,
) -> Result<Listing<Word>, AllocError>
    ensures { IfOk result (λ kept. kept ≡ lasting_files (map (λ name. name.path) drawn.now) files) }
{
    let mut kept = Listing::new(alloc);
    for file in once(alloc, files)?.into_vec() {
        if has_path(drawn, file.as_bytes()) {
            continue;
        }
        kept.push(file)?;
    }
    Ok(kept)
}
