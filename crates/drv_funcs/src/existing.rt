//! The functions that ask for a variable or a path.

// In clauses: `Asked` says that a call only asked, and that the table has the answers. `Tells` says
// that a result is that of a definition, by any facts that extend what is known.
ghost use Rattle.drv_funcs.specs.Outcome.{exists, getenv, if_exists, if_exists_else};
ghost use Rattle.drv_funcs.specs.Outcome.{if_exists_then_else, is_missing};
ghost use Rattle.drv_funcs.specs.Code.Telling.{Tells};
ghost use Rattle.drv_system.specs.Asking.{Extends};
ghost use Rattle.drv_system.specs.Code.Asked.{Asked};
ghost use Rattle.drv_system.specs.Facts.{Facts};
ghost use Rattle.drv_system.specs.Known.{Is};
ghost use Rattle.std.specs.Prelude.{◌≡◌, IfOk};

use crate::{FuncsFault, Function};
use drv_system::{Outside, PathKind, System};
use drv_words::Word;
use std::alloc::AllocError;

/// The value of the variable that the first argument names, followed by the second argument.
pub fn getenv<S: System>(
    args: &[Word],
    outside: &mut Outside<'_, S>,
) -> Result<Option<Word>, FuncsFault>
    ensures asks { Asked S.events outside.old outside.new }
    ensures gives { Tells outside.new result (λ F. getenv F args.now) }
{
    let [name, string] = args else {
        return Err(FuncsFault::WrongCount(Function::Getenv));
    };
    outside.facts.variable(outside.sys, name)?;
    match outside.facts.variable_answer(name) {
        Some(value) => {
            let mut word = value.clone()?;
            word.extend_from_slice(string.as_bytes())?;
            Ok(Some(word))
        }
        None => Err(FuncsFault::VariableMissing(name.clone()?)),
    }
}

/// The path, if it exists.
pub fn if_exists<S: System>(
    args: &[Word],
    outside: &mut Outside<'_, S>,
) -> Result<Option<Word>, FuncsFault>
    ensures asks { Asked S.events outside.old outside.new }
    ensures gives { Tells outside.new result (λ F. if_exists F args.now) }
{
    let [path] = args else {
        return Err(FuncsFault::WrongCount(Function::IfExists));
    };
    if exists(path, outside)? {
        return Ok(Some(path.clone()?));
    }
    Ok(None)
}

/// The path if it exists, otherwise the other word.
pub fn if_exists_else<S: System>(
    args: &[Word],
    outside: &mut Outside<'_, S>,
) -> Result<Option<Word>, FuncsFault>
    ensures asks { Asked S.events outside.old outside.new }
    ensures gives { Tells outside.new result (λ F. if_exists_else F args.now) }
{
    let [path, other] = args else {
        return Err(FuncsFault::WrongCount(Function::IfExistsElse));
    };
    if exists(path, outside)? {
        return Ok(Some(path.clone()?));
    }
    Ok(Some(other.clone()?))
}

/// One word if the path exists, otherwise another one, or nothing.
pub fn if_exists_then_else<S: System>(
    args: &[Word],
    outside: &mut Outside<'_, S>,
) -> Result<Option<Word>, FuncsFault>
    ensures asks { Asked S.events outside.old outside.new }
    ensures gives { Tells outside.new result (λ F. if_exists_then_else F args.now) }
{
    match args {
        [path, first] => {
            if exists(path, outside)? {
                return Ok(Some(first.clone()?));
            }
            Ok(None)
        }
        [path, first, second] => {
            if exists(path, outside)? {
                return Ok(Some(first.clone()?));
            }
            Ok(Some(second.clone()?))
        }
        _ => Err(FuncsFault::WrongCount(Function::IfExistsThenElse)),
    }
}

/// Whether a path begins with a slash and exists.
fn exists<S: System>(path: &Word, outside: &mut Outside<'_, S>) -> Result<bool, AllocError>
    ensures asks { Asked S.events outside.old outside.new }
    ensures tells { (F : Facts) → Extends outside.new.facts.now F
        → IfOk result (λ there. exists F path.now ≡ Is there) }
{
    // The GCC manual asks for absolute paths.
    if !path.as_bytes().starts_with(b"/") {
        return Ok(false);
    }
    let kind = outside.facts.kind(outside.sys, path)?;
    Ok(!is_missing(kind))
}

/// Whether a path of this kind doesn't exist.
fn is_missing(kind: PathKind) -> bool
    ensures { result ≡ is_missing kind }
{
    matches!(kind, PathKind::Missing)
}
