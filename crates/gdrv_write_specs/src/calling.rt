//! What a call of the program asks for.

// In clauses: `Gives` says that a result is the defined one, or lack of memory.
ghost use Rattle.drv_words.specs.Gives.{Gives};
ghost use Rattle.gdrv_write_specs.specs.Calls.{call_of, is_option, is_specs, named_order_of};
ghost use Rattle.gdrv_write_specs.specs.Calls.{order_of, question_of, row_of, row_order_of};
ghost use Rattle.gdrv_write_specs.specs.Calls.{target_of, usual_output, written_to};
ghost use Rattle.gdrv_write_specs.specs.declared.calling.CallFault.TheVariants.{Memory};
ghost use Rattle.std.specs.List.{list_all};
ghost use Rattle.std.specs.Prelude.{◌≡◌, IfOk};

use drv_words::{Listing, Word, base, copy_words, split_at_last};
use std::alloc::{AllocError, Global};
use std::slice;

/// How a spec file is put in place.
#[derive(Clone, Copy, Debug)]
pub enum Manner {
    /// Only if the plans by it are those of the gcc.
    Compared,
    /// Whatever the plans by it are.
    Forced,
}

/// What becomes of a row.
#[derive(Clone, Copy, Debug)]
pub enum Fate {
    /// It is added to those beside the spec file.
    Added,
    /// It is printed, and nothing is written.
    Printed,
}

/// A spec file that is asked for.
#[derive(Debug, Drop)]
pub struct Order {
    /// How it is put in place.
    pub manner: Manner,
    /// Its path.
    pub output: Word,
    /// The name or the path of the gcc.
    pub gcc: Word,
    /// Options of a line that choose a machine. The file must serve lines with these.
    pub options: Listing<Word>,
}

/// What a call asks for.
#[derive(Debug, Drop)]
pub enum Call {
    /// How the program is used.
    Help,
    /// Its version.
    Version,
    /// The spec file of a gcc.
    Write(Order),
    /// The words of these options for a machine, by the gcc of the spec file of this path.
    Row(Fate, Word, Listing<Word>),
}

/// Why a call asks for nothing.
#[derive(Debug, Drop)]
pub enum CallFault {
    /// Memory was wanted.
    Memory,
    /// It has too few words, too many, or others.
    Misused,
    /// This is no name of a spec file.
    NotSpecs(Word),
}

impl From<AllocError> for CallFault {
    ghost use Rattle.gdrv_write_specs.specs.declared.calling.CallFault.TheVariants.{Memory};
    ghost use Rattle.std.specs.Prelude.{◌≡◌};

    ghost from_gives = { λ _ fault. fault ≡ Memory };

    fn from(_error: AllocError) -> CallFault {
        CallFault::Memory
    }
}

/// The name of a spec file: something before its ending.
fn is_specs(path: &[u8]) -> bool
    ensures { result ≡ is_specs path.now }
{
    path.ends_with(b".specs") && path.len() > 6
}

/// Whether a word is an option.
fn is_option(word: &[u8]) -> bool
    ensures { result ≡ is_option word.now }
{
    word.starts_with(b"-")
}

/// Whether words are options.
fn are_options(words: &[Word]) -> bool
    ensures { result ≡ list_all is_option words.now }
{
    match words {
        [] => true,
        [word, rest @ ..] => is_option(word.as_bytes()) && are_options(rest),
    }
}

/// The machine of a gcc of this name, as an installation names its spec file.
fn target_of(name: &[u8]) -> &[u8]
    ensures { result.now ≡ target_of name.now }
{
    if name == b"gcc".as_slice() {
        return b"host";
    }
    match split_at_last(b'-', name) {
        Some((target, rest)) if rest == b"gcc".as_slice() => target,
        _ => name,
    }
}

/// The spec file of a gcc for which the call names none.
fn usual_output(alloc: Global, gcc: &[u8]) -> Result<Word, AllocError>
    ensures { IfOk result (λ path. path ≡ usual_output gcc.now) }
{
    let mut path = Word::from_bytes(alloc, target_of(base(gcc)))?;
    path.extend_from_slice(b".specs")?;
    Ok(path)
}

/// The spec file of this path for this gcc and these options.
fn written_to(
    alloc: Global,
    manner: Manner,
    output: Word,
    gcc: &Word,
    options: &[Word],
) -> Result<Call, CallFault>
    ensures { Gives Memory (λ call. call) result (written_to manner output gcc.now options.now) }
{
    if is_specs(output.as_bytes()) {
        return Ok(Call::Write(Order {
            manner,
            output,
            gcc: gcc.clone()?,
            options: copy_words(alloc, options)?,
        }));
    }
    Err(CallFault::NotSpecs(output))
}

/// The spec file of this path that words ask for: a gcc, and options after it.
fn named_order_of(
    alloc: Global,
    manner: Manner,
    output: Word,
    words: &[Word],
) -> Result<Call, CallFault>
    ensures { Gives Memory (λ call. call) result (named_order_of manner output words.now) }
{
    match words {
        [gcc, options @ ..] if !is_option(gcc.as_bytes()) && are_options(options) => {
            written_to(alloc, manner, output, gcc, options)
        }
        _ => Err(CallFault::Misused),
    }
}

/// The spec file that words ask for.
fn order_of(alloc: Global, manner: Manner, words: &[Word]) -> Result<Call, CallFault>
    ensures { Gives Memory (λ call. call) result (order_of manner words.now) }
{
    match words {
        [option, output, rest @ ..] if option.as_bytes() == b"-o".as_slice() => {
            named_order_of(alloc, manner, output.clone()?, rest)
        }
        [gcc, ..] => named_order_of(alloc, manner, usual_output(alloc, gcc.as_bytes())?, words),
        [] => Err(CallFault::Misused),
    }
}

/// The row of these options for the spec file of this path.
fn row_of(alloc: Global, fate: Fate, path: &Word, options: &[Word]) -> Result<Call, CallFault>
    ensures { Gives Memory (λ call. call) result (row_of fate path.now options.now) }
{
    let path = path.clone()?;
    if is_specs(path.as_bytes()) {
        let options = copy_words(alloc, options)?;
        return Ok(Call::Row(fate, path, options));
    }
    Err(CallFault::NotSpecs(path))
}

/// The row that words ask for.
fn row_order_of(alloc: Global, fate: Fate, words: &[Word]) -> Result<Call, CallFault>
    ensures { Gives Memory (λ call. call) result (row_order_of fate words.now) }
{
    match words {
        [path, options @ ..] if !options.is_empty() => row_of(alloc, fate, path, options),
        _ => Err(CallFault::Misused),
    }
}

/// What a word alone asks for: something of the program itself, or the spec file of a gcc.
fn question_of(alloc: Global, word: &Word) -> Result<Call, CallFault>
    ensures { Gives Memory (λ call. call) result (question_of word.now) }
{
    if word.as_bytes() == b"--help".as_slice() {
        return Ok(Call::Help);
    }
    if word.as_bytes() == b"--version".as_slice() {
        return Ok(Call::Version);
    }
    order_of(alloc, Manner::Compared, slice::from_ref(word))
}

/// What a call with these words asks for.
///
/// # Errors
/// Lack of memory; the words are others than `[--force] [-o X.specs] GCC [OPTION..]`,
/// `--add X.specs OPTION..`, `--row X.specs OPTION..` or a question; the name of the spec file has
/// another ending.
pub fn call_of(alloc: Global, words: &[Word]) -> Result<Call, CallFault>
    ensures { Gives Memory (λ call. call) result (call_of words.now) }
{
    match words {
        [] => Err(CallFault::Misused),
        [word] => question_of(alloc, word),
        [word, rest @ ..] if word.as_bytes() == b"--force".as_slice() => {
            order_of(alloc, Manner::Forced, rest)
        }
        [word, rest @ ..] if word.as_bytes() == b"--add".as_slice() => {
            row_order_of(alloc, Fate::Added, rest)
        }
        [word, rest @ ..] if word.as_bytes() == b"--row".as_slice() => {
            row_order_of(alloc, Fate::Printed, rest)
        }
        words => order_of(alloc, Manner::Compared, words),
    }
}
