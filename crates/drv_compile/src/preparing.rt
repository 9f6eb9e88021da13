//! What a call does, before it is done.

// In clauses: `Extends F G` says that G has every answer of F. `Asked` says that a call only asked,
// and that the table has the answers. `Noted before after P` says that the host was asked, and that
// P holds of these events. `IfTold stop P` says that P holds of the text of a stop, if it has one.
ghost use Rattle.drv_compile.specs.Compiles.{Comes, IsPlanned, Plans, Refuses};
ghost use Rattle.drv_compile.specs.Compiles.{one_command, question};
ghost use Rattle.drv_compile.specs.Inputs.{Noted};
ghost use Rattle.drv_compile.specs.Overwriting.{Overwrites, files_read, files_written};
ghost use Rattle.drv_compile.specs.Code.Preparing.{IsDone, IsFailure, IsOverwriting, IsPrepared};
ghost use Rattle.drv_compile.specs.Code.Preparing.{IsQuestion, IsUndone, IsUnplanned};
ghost use Rattle.drv_compile.specs.Runs.{Works};
ghost use Rattle.drv_compile.specs.Stamps.{warned};
ghost use Rattle.drv_compile.specs.Tasks.{IfTold};
ghost use Rattle.drv_system.specs.Asking.{Extends};
ghost use Rattle.drv_system.specs.Code.Asked.{Asked};
ghost use Rattle.drv_system.specs.Facts.{Facts};
ghost use Rattle.std.specs.Prelude.{◌≡◌, IfOk, MatchResult, None};

use crate::deciding::{SpecFile, decide};
use crate::driving::{Driven, Worker, worker_of};
use crate::expanding::line_words;
use crate::host::Host;
use crate::inputs::objection;
use crate::overwriting::{files_read, files_written, overwrites};
use crate::refusing::stop_after;
use crate::request::{GccLine, Request};
use crate::running::{DriverLine, work_of_items};
use crate::speaking::opening;
use crate::stamps::is_stale;
use crate::stop::{Stop, undone};
use crate::tasks::{Task, task_of};
use crate::wording::{gone_text, help_text, overwrite_text, unworded_text, version_text};
use crate::wrapping::wrapper_of;
use drv_args::Expanded;
use drv_cc::{Call, Variable};
use drv_core::Window;
use drv_run::{Manner, Telling, Work};
use drv_system::{Outside, System};
use drv_words::{Command, Group, Job, Listing, Plan, Word};
use std::alloc::{AllocError, Global};
use std::mem::replace;

/// What a call does.
#[derive(Drop)]
pub struct Prepared {
    /// Its work.
    pub work: Work,
    /// What the driver is called with; none for a question to the compiler.
    pub line: Option<DriverLine>,
    /// The variables that are set for its children.
    pub children: Listing<Variable>,
    /// The program that the line has as wrapper of its commands, or empty.
    pub wrapper: Word,
    /// What is said before it.
    pub said: Word,
    /// What is said after a run that did not find a program of the compiler.
    pub hint: Word,
    /// The lines about the compiler that it goes by.
    pub about: Word,
    /// What is said after any other.
    pub remark: Word,
}

/// The plan that has one command.
fn one_command(alloc: Global, command: Command) -> Result<Plan, AllocError>
    ensures { IfOk result (λ plan. plan ≡ one_command command) }
{
    let mut commands = Vec::new(alloc);
    commands.push(command)?;
    let mut groups = Listing::new(alloc);
    if let Some(group) = Group::from_vec(commands) {
        groups.push(group)?;
    }
    let job = Job {
        source: None,
        groups,
        temps: Listing::new(alloc),
        marked: Listing::new(alloc),
        on_failure: Listing::new(alloc),
        output: None,
    };
    let mut jobs = Listing::new(alloc);
    jobs.push(job)?;
    Ok(Plan {
        notices: Listing::new(alloc),
        jobs,
        link: None,
    })
}

/// The question to a compiler: it is started with these words, and its status is the answer.
fn question(alloc: Global, compiler: Word, args: &Listing<Word>) -> Result<Work, AllocError>
    ensures question { IfOk result (λ work. work ≡ question compiler args.now) }
{
    let command = Command {
        program: compiler,
        words: args.clone()?,
    };
    let plan = one_command(alloc, command)?;
    let manner = Manner {
        telling: Telling::Notices,
        pass_codes: true,
        window: Window::new(1),
    };
    Ok(Work::CarryOut { plan, manner })
}

/// The work of a line of the driver.
///
/// # Errors
/// The text of its refusal.
#[tactic(auto, using(drv_system::proofs::AskedCalls::asked_further))]
fn work_or_stop<S: System>(
    alloc: Global,
    name: &[u8],
    line: &DriverLine,
    seed: u32,
    outside: &mut Outside<'_, S>,
) -> Result<Work, Stop>
    ensures asks { Asked S.events outside.old outside.new }
    ensures works { (F : Facts) → Extends outside.new.facts.now F
        → MatchResult result (λ work. Works F line.now seed work)
        (λ stop. IfTold stop (IsFailure F name.now line.now seed)) }
{
    match work_of_items(alloc, line, seed, outside) {
        Ok(work) => Ok(work),
        Err(ending) => Err(stop_after(alloc, name, &ending)),
    }
}

/// Refuses a line of which an output is a file that it reads.
///
/// # Errors
/// The text about it.
fn refuse_overwriting<S: System, H: Host<S>>(
    alloc: Global,
    line: &GccLine<'_>,
    call: &Call,
    host: &mut H,
) -> Result<(), Stop>
    ensures { Noted (H.notes host.old) (H.notes host.new)
        (λ events. MatchResult result
        (λ _. Overwrites (files_read call.now line.now.given.files) (files_written call.now) events None)
        (λ stop. IfTold stop (IsOverwriting line.now call.now events))) }
{
    let files = files_read(alloc, call, line.given.files.as_slice())?;
    let outputs = files_written(alloc, call)?;
    let found = overwrites(files.as_slice(), outputs.as_slice(), host)?;
    let Some(clash) = found else {
        return Ok(());
    };
    let name = line.request.calling.name.as_bytes();
    let text = overwrite_text(alloc, name, &clash)?;
    Err(Stop::Told(text))
}

/// What a call does for a line that the driver is called with so.
///
/// # Errors
/// The text of its refusal.
#[tactic(auto, using(drv_system::proofs::AskedCalls::asked_further))]
fn prepare_plan<S: System>(
    alloc: Global,
    line: &GccLine<'_>,
    driven: Driven,
    outside: &mut Outside<'_, S>,
) -> Result<Prepared, Stop>
    ensures asks { Asked S.events outside.old outside.new }
    ensures plans { (F : Facts) → Extends outside.new.facts.now F
        → MatchResult result
        (λ prepared. IsPlanned F line.now.request.now.calling.now line.now.chain driven line.now.request.now.seed prepared)
        (λ stop. IfTold stop (IsFailure F line.now.request.now.calling.now.name driven.line line.now.request.now.seed)) }
{
    let calling = line.request.calling;
    let name = calling.name.as_bytes();
    let specs = line.chain.specs.as_bytes();
    let hint = gone_text(alloc, calling, specs)?;
    let items = driven.line.items.as_slice();
    let wrapper = Word::from_bytes(alloc, wrapper_of(items))?;
    let about = line.chain.about.clone()?;
    let said = opening(alloc, about.as_bytes(), items, driven.children.as_slice())?;
    match work_or_stop(alloc, name, &driven.line, line.request.seed, outside) {
        Ok(work) => Ok(Prepared {
            work,
            line: Some(driven.line),
            children: driven.children,
            wrapper,
            said,
            hint,
            about,
            remark: Word::empty(alloc),
        }),
        Err(stop) => Err(undone(stop, driven.line)),
    }
}

/// What a call does for a line that nothing refuses.
///
/// # Errors
/// The text of its refusal.
#[tactic(auto, using(drv_system::proofs::AskedCalls::asked_further))]
fn prepare_line<S: System, H: Host<S>>(
    alloc: Global,
    line: &GccLine<'_>,
    call: Call,
    outside: &mut Outside<'_, S>,
    host: &mut H,
) -> Result<Prepared, Stop>
    ensures asks { Asked S.events outside.old outside.new }
    ensures plans { Noted (H.notes host.old) (H.notes host.new)
        (λ events. (F : Facts) → Extends outside.new.facts.now F
        → MatchResult result
        (λ prepared. IsPrepared F line.now call events prepared)
        (λ stop. IfTold stop (IsUnplanned F line.now call events))) }
{
    match worker_of(alloc, line, call, outside, host)? {
        Worker::Driver(driven) => prepare_plan(alloc, line, driven, outside),
        Worker::Nobody(options) => {
            let name = line.request.calling.name.as_bytes();
            let specs = line.chain.specs.as_bytes();
            let text = unworded_text(alloc, name, specs, options.as_bytes())?;
            Err(Stop::Told(text))
        }
    }
}

/// A line that is carried out.
///
/// # Errors
/// The text of its refusal.
#[tactic(auto, using(drv_system::proofs::AskedCalls::asked_further))]
fn compilation<S: System, H: Host<S>>(
    alloc: Global,
    line: &GccLine<'_>,
    call: Call,
    outside: &mut Outside<'_, S>,
    host: &mut H,
) -> Result<Prepared, Stop>
    ensures asks { Asked S.events outside.old outside.new }
    ensures performs { Noted (H.notes host.old) (H.notes host.new)
        (λ events. (F : Facts) → Extends outside.new.facts.now F
        → MatchResult result
        (λ prepared. IsDone F line.now call events prepared)
        (λ stop. IfTold stop (IsUndone F line.now call events))) }
{
    let name = line.request.calling.name.as_bytes();
    let text = objection(alloc, name, call.inputs.as_slice(), outside)?;
    if !text.is_empty() {
        return Err(Stop::Told(text));
    }
    refuse_overwriting(alloc, line, &call, host)?;
    prepare_line(alloc, line, call, outside, host)
}

/// What a call does whose line is a question to a compiler.
fn prepare_question(
    alloc: Global,
    request: &Request<'_>,
    file: SpecFile,
    compiler: Word,
) -> Result<Prepared, AllocError>
    ensures asks { IfOk result (λ prepared. IsQuestion request.now.calling.now file compiler
        request.now.args.now prepared) }
{
    let name = request.calling.name.as_bytes();
    let args = request.args;
    let hint = gone_text(alloc, request.calling, file.path.as_bytes())?;
    let said = help_text(alloc, name, compiler.as_bytes(), args.as_slice())?;
    let remark = version_text(alloc, name, compiler.as_bytes(), args.as_slice())?;
    let work = question(alloc, compiler, args)?;
    Ok(Prepared {
        work,
        line: None,
        children: Listing::new(alloc),
        wrapper: Word::empty(alloc),
        said,
        hint,
        about: file.about,
        remark,
    })
}

/// What a call does by what its line asks for.
///
/// # Errors
/// The text of its refusal.
#[tactic(auto, using(drv_system::proofs::AskedCalls::asked_further))]
fn prepare_task<S: System, H: Host<S>>(
    alloc: Global,
    request: &Request<'_>,
    outside: &mut Outside<'_, S>,
    host: &mut H,
) -> Result<Prepared, Stop>
    ensures asks { Asked S.events outside.old outside.new }
    ensures plans { Noted (H.notes host.old) (H.notes host.new)
        (λ events. (F : Facts) → Extends outside.new.facts.now F
        → MatchResult result
        (λ prepared. Plans F request.now.calling.now request.now.own.now request.now.args.now
        request.now.seed events prepared)
        (λ stop. IfTold stop (Refuses F request.now.calling.now request.now.own.now
        request.now.args.now request.now.seed events))) }
{
    let calling = request.calling;
    let words = line_words(alloc, calling, request.args, outside)?;
    let decision = decide(alloc, request.own, words.words.as_slice(), outside)?;
    let task = task_of(alloc, calling, decision)?;
    match task {
        Task::Question(file, compiler) => {
            let prepared = prepare_question(alloc, request, file, compiler)?;
            Ok(prepared)
        }
        Task::Compilation(chain, call) => {
            let line = GccLine {
                request,
                given: words,
                chain,
            };
            compilation(alloc, &line, call, outside, host)
        }
    }
}

/// What a call does where its compiler may be another: it says the hint first, and not again.
fn warned(alloc: Global, prepared: Prepared, stale: bool) -> Result<Prepared, AllocError>
    ensures { IfOk result (λ made. made ≡ warned stale prepared) }
{
    let mut made = prepared;
    if stale {
        let hint = replace(&mut made.hint, Word::empty(alloc));
        let said = replace(&mut made.said, hint);
        made.said.extend_from_slice(said.as_bytes())?;
    }
    Ok(made)
}

/// What a call does, by what it is given, with what it says of its compiler first. It asks the
/// system only where the table has no answer.
///
/// # Errors
/// The text of its refusal.
#[tactic(auto, using(drv_system::proofs::AskedCalls::asked_further))]
pub fn prepare<S: System, H: Host<S>>(
    alloc: Global,
    request: &Request<'_>,
    outside: &mut Outside<'_, S>,
    host: &mut H,
) -> Result<Prepared, Stop>
    ensures asks { Asked S.events outside.old outside.new }
    ensures comes { Noted (H.notes host.old) (H.notes host.new)
        (λ events. (F : Facts) → Extends outside.new.facts.now F
        → MatchResult result
        (λ prepared. Comes F request.now.calling.now request.now.own.now request.now.args.now
        request.now.seed events prepared)
        (λ stop. IfTold stop (Refuses F request.now.calling.now request.now.own.now
        request.now.args.now request.now.seed events))) }
{
    let prepared = prepare_task(alloc, request, outside, host)?;
    let stale = is_stale(alloc, prepared.about.as_bytes(), host)?;
    let made = warned(alloc, prepared, stale)?;
    Ok(made)
}
