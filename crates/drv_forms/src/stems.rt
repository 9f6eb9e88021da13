//! The stem that the names of a plan's temporaries share.

ghost use Rattle.drv_forms.specs.Script.{first_of_plan, first_path, front_of, plan_front, stem_of};
ghost use Rattle.std.specs.Option.{option_map};
ghost use Rattle.std.specs.Prelude.{◌≡◌, ◌∷◌, [], IfOk};

use drv_words::{Job, Plan, Word, split_at_last};
use std::alloc::{AllocError, Global};

/// The path of the first temporary of a job.
fn path_of_job(job: &Job) -> Option<&[u8]>
    ensures { option_map (λ path. path.now) result ≡ first_path (job.now ∷ []) }
{
    match job.temps.as_slice() {
        [temp, ..] => Some(temp.path.as_bytes()),
        [] => None,
    }
}

/// The path of the first temporary of jobs.
fn first_path(jobs: &[Job]) -> Option<&[u8]>
    ensures { option_map (λ path. path.now) result ≡ first_path jobs.now }
{
    for job in jobs {
        if let Some(path) = path_of_job(job) {
            return Some(path);
        }
    }
    None
}

/// The path of the first temporary of a plan, the link's last.
fn first_of_plan(plan: &Plan) -> Option<&[u8]>
    ensures { option_map (λ path. path.now) result ≡ first_of_plan plan.now }
{
    if let Some(path) = first_path(plan.jobs.as_slice()) {
        return Some(path);
    }
    match &plan.link {
        Some(job) => path_of_job(job),
        None => None,
    }
}

/// The part of a path that all temporaries have: up to its last underscore, and with it.
fn front_of(alloc: Global, path: &[u8]) -> Result<Word, AllocError>
    ensures { IfOk result (λ front. front ≡ front_of path.now) }
{
    let mut front = Word::empty(alloc);
    if let Some((before, _)) = split_at_last(b'_', path) {
        front.extend_from_slice(before)?;
        front.push(b'_')?;
    }
    Ok(front)
}

/// The part that the paths of a plan's temporaries share; nothing if it has none.
pub(crate) fn plan_front(alloc: Global, plan: &Plan) -> Result<Word, AllocError>
    ensures { IfOk result (λ front. front ≡ plan_front plan.now) }
{
    match first_of_plan(plan) {
        Some(path) => front_of(alloc, path),
        None => Ok(Word::empty(alloc)),
    }
}

/// The stem in such a part: from its last slash on.
pub(crate) fn stem_of(alloc: Global, front: &Word) -> Result<Word, AllocError>
    ensures { IfOk result (λ stem. stem ≡ stem_of front.now) }
{
    let mut stem = Word::empty(alloc);
    if let Some((_, name)) = split_at_last(b'/', front.as_bytes()) {
        stem.push(b'/')?;
        stem.extend_from_slice(name)?;
    }
    Ok(stem)
}
