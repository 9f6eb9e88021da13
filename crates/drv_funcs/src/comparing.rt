//! The function that compares the version of a switch.

// In clauses: `Gives` says that a result is the defined one, or lack of memory.
ghost use Rattle.drv_funcs.specs.Comparing.{takes_two};
ghost use Rattle.drv_funcs.specs.Outcome.{judged, value_of, version_compare, with_versions};
ghost use Rattle.drv_funcs.specs.Outcome as outcome;
ghost use Rattle.drv_words.specs.Gives.{Gives};
ghost use Rattle.std.specs.Prelude.{◌≡◌, IfOk, length};

use crate::operator::Operator;
use crate::version::version_of;
use crate::{FuncsFault, Function};
use drv_match::{Hidden, Pattern, Switches};
use drv_words::Word;
use std::alloc::{AllocError, Global};

/// The rest of the last switch that the starred prefix hits.
fn value_of(
    alloc: Global,
    prefix: &Word,
    switches: &Switches<'_>,
    hidden: &Hidden,
) -> Result<Option<Word>, AllocError>
    ensures { IfOk result (λ value. value ≡ value_of switches.now hidden.now prefix.now) }
{
    let pattern = Pattern {
        name: prefix.as_bytes(),
        star: true,
    };
    let hits = switches.hits(alloc, &pattern, hidden)?;
    match hits.as_slice().last() {
        None => Ok(None),
        Some(place) => {
            let rest = switches.rest(*place, prefix.len());
            Ok(Some(Word::from_bytes(alloc, rest)?))
        }
    }
}

/// Whether the value of a switch compares so with the versions. Without a value the operator alone
/// decides.
fn judge(
    operator: Operator,
    first: &Word,
    second: &Word,
    value: &Option<Word>,
) -> Result<bool, FuncsFault>
    ensures { Gives FuncsFault.Memory (λ holds. holds) result
        (judged operator first.now second.now value.now) }
{
    let Some(one) = version_of(first.as_bytes()) else {
        return Err(FuncsFault::BadVersion(first.clone()?));
    };
    let Some(two) = version_of(second.as_bytes()) else {
        return Err(FuncsFault::BadVersion(second.clone()?));
    };
    let Some(value) = value else {
        return Ok(operator.holds_of_none());
    };
    let Some(numbers) = version_of(value.as_bytes()) else {
        return Err(FuncsFault::BadVersion(value.clone()?));
    };
    Ok(operator.holds(numbers.as_slice(), one.as_slice(), two.as_slice()))
}

/// The word, if the value of a switch compares so with the versions.
fn word_if(
    operator: Operator,
    first: &Word,
    second: &Word,
    value: &Option<Word>,
    word: &Word,
) -> Result<Option<Word>, FuncsFault>
    ensures { Gives FuncsFault.Memory (λ given. given) result
        (outcome.word_if word.now (judged operator first.now second.now value.now)) }
{
    if judge(operator, first, second, value)? {
        return Ok(Some(word.clone()?));
    }
    Ok(None)
}

/// The last argument, if the version of a switch compares so.
pub fn version_compare(
    alloc: Global,
    args: &[Word],
    switches: &Switches<'_>,
    hidden: &Hidden,
) -> Result<Option<Word>, FuncsFault>
    ensures { Gives FuncsFault.Memory (λ given. given) result
        (version_compare switches.now hidden.now args.now) }
{
    let [name, args @ ..] = args else {
        return Err(FuncsFault::WrongCount(Function::VersionCompare));
    };
    let Some(operator) = Operator::by_name(name.as_bytes()) else {
        return Err(FuncsFault::BadOperator(name.clone()?));
    };
    with_versions(alloc, operator, args, switches, hidden)
}

/// The last argument, if the version of a switch compares so with the first version, or the first
/// two.
fn with_versions(
    alloc: Global,
    operator: Operator,
    args: &[Word],
    switches: &Switches<'_>,
    hidden: &Hidden,
) -> Result<Option<Word>, FuncsFault>
    ensures { Gives FuncsFault.Memory (λ given. given) result
        (with_versions switches.now hidden.now operator (takes_two operator) args.now) }
{
    if operator.takes_two() {
        let [first, second, prefix, word] = args else {
            return Err(FuncsFault::WrongCount(Function::VersionCompare));
        };
        let value = value_of(alloc, prefix, switches, hidden)?;
        return word_if(operator, first, second, &value, word);
    }
    let [first, prefix, word] = args else {
        return Err(FuncsFault::WrongCount(Function::VersionCompare));
    };
    let value = value_of(alloc, prefix, switches, hidden)?;
    word_if(operator, first, first, &value, word)
}
