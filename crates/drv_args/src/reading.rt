//! Reads words by the option table.

// In clauses: `Gives` says that a result is the defined one, or lack of memory. `start_shown` is
// what definitions see of a start. `items_of` is the items of words, or their refusal.
ghost use Rattle.drv_args.specs.Code.Building.{is_whole, line_with, start_shown};
ghost use Rattle.drv_args.specs.Fronts.{by_effect, is_bad, items_of, start_of};
ghost use Rattle.drv_args.specs.Lines.{line_of_items, line_read};
ghost use Rattle.drv_args.specs.Options.{form_fits, row, row_fits};
ghost use Rattle.drv_args.specs.declared.fault.ArgsFault.TheVariants as fault;
ghost use Rattle.drv_words.specs.Gives.{Gives};
ghost use Rattle.std.specs.Option.{option_map};
ghost use Rattle.std.specs.Prelude.{◌≡◌, IfSome, drop, find, length, map, true};

use crate::building::{LentItem, LineBuilder};
use crate::jobs::jobs_named;
use crate::judging::line_fault;
use crate::option_table::{Effect, Form, Row, rows_after};
use crate::{ArgsFault, Expanded, Line};
use drv_words::Word;
use std::alloc::Global;

/// The most words of a line.
const MOST_ARGUMENTS: usize = 65536;

/// Whether the last byte of an option is in its place in a word, as in each word that the option
/// fits. This test alone excludes most options.
fn may_end(option: &[u8], word: &[u8]) -> bool
    ensures { (form : Form) → form_fits form option.now word.now ≡ true → result ≡ true }
{
    match option {
        [.., last] => option.len() <= word.len() && word[option.len() - 1] == *last,
        [] => true,
    }
}

/// Whether an option of this form fits a word.
fn does_fit(form: Form, option: &[u8], word: &[u8]) -> bool
    ensures { result ≡ form_fits form option.now word.now }
{
    if !may_end(option, word) {
        return false;
    }
    match form {
        Form::Exact | Form::Separate => option == word,
        Form::Joined | Form::Either => word.starts_with(option),
    }
}

/// The first row of a table that fits a word.
fn first_fit(table: &[Row], word: &[u8]) -> Option<Row>
    ensures first { option_map (λ r. row r.0.now r.1 r.2) result
        ≡ find (row_fits word.now) (map (λ r. row r.0.now r.1 r.2) table.now) }
    ensures fits { IfSome result (λ r. form_fits r.1 r.0.now word.now ≡ true) }
{
    for row in table {
        if does_fit(row.1, row.0, word) {
            return Some(*row);
        }
    }
    None
}

/// How a word begins a front of the line.
#[derive(Clone, Copy)]
enum Start<'a> {
    /// It is a whole front: an option followed by its argument.
    Alone {
        effect: Effect,
        option: &'a [u8],
        argument: &'a [u8],
    },
    /// It is a switch, since no row fits it.
    Switch(&'a [u8]),
    /// It needs the next word as its argument.
    Wants {
        effect: Effect,
        option: &'a [u8],
    },
    /// It is refused.
    Bad,
}

/// Whether the argument of an option is refused, since it should be a number of jobs but isn't.
fn is_bad(effect: Effect, argument: &[u8]) -> bool
    ensures { result ≡ is_bad effect argument.now }
{
    match effect {
        Effect::Jobs => matches!(jobs_named(argument), None),
        _ => false,
    }
}

/// The rest of a word after an option.
fn rest_of<'a>(word: &'a [u8], option: &[u8]) -> &'a [u8]
    ensures { result.now ≡ drop (length option.now) word.now }
{
    word.get(option.len()..).unwrap_or(&[])
}

/// How a word begins a front, by the row that fits it.
fn start_by_row<'a>(option: &'static [u8], form: Form, effect: Effect, word: &'a [u8]) -> Start<'a>
    requires { form_fits form option.now word.now ≡ true }
    ensures start { start_shown result ≡ by_effect effect (row option.now form effect) word.now }
    ensures whole { is_whole word.now result }
{
    let argument = rest_of(word, option);
    if is_bad(effect, argument) {
        return Start::Bad;
    }
    match form {
        Form::Exact => Start::Alone {
            effect,
            option,
            argument: &[],
        },
        Form::Separate => Start::Wants { effect, option },
        // The word is the option alone, so the next word is its argument.
        Form::Either if option.len() == word.len() => Start::Wants { effect, option },
        Form::Joined | Form::Either => Start::Alone {
            effect,
            option,
            argument,
        },
    }
}

/// How a word begins a front.
fn start_of<'a>(word: &'a [u8]) -> Start<'a>
    ensures start { start_shown result ≡ start_of word.now }
    ensures whole { is_whole word.now result }
{
    let [b'-', letter, ..] = word else {
        return Start::Alone {
            effect: Effect::File,
            option: word,
            argument: &[],
        };
    };
    match first_fit(rows_after(*letter), word) {
        Some(row) => start_by_row(row.0, row.1, row.2, word),
        None => Start::Switch(word),
    }
}

/// Adds words to a line.
fn note_words(alloc: Global, builder: &mut LineBuilder, words: &[Word]) -> Result<(), ArgsFault>
    ensures { Gives fault.Memory (λ u. builder.new.line) result
        (line_with builder.old (items_of words.now)) }
{
    let mut left = words;
    while let [word, following @ ..] = left {
        let bytes = word.as_bytes();
        match start_of(bytes) {
            Start::Alone {
                effect,
                option,
                argument,
            } => {
                let whole = LentItem {
                    effect,
                    option,
                    argument,
                };
                builder.note_whole(alloc, bytes, whole)?;
                left = following;
            }
            Start::Switch(option) => {
                builder.note_switch(alloc, option)?;
                left = following;
            }
            Start::Wants { effect, option } => {
                let [argument, others @ ..] = following else {
                    return Err(ArgsFault::MissingArgument(word.clone()?));
                };
                builder.note(alloc, effect, option, argument.as_bytes())?;
                left = others;
            }
            Start::Bad => return Err(ArgsFault::BadJobs(word.clone()?)),
        }
    }
    Ok(())
}

/// Reads words into a line.
fn read_words(alloc: Global, expanded: &Expanded) -> Result<Line, ArgsFault>
    ensures { Gives fault.Memory (λ line. line) result
        (line_of_items expanded.now.from_file (items_of expanded.now.words)) }
{
    let mut builder = LineBuilder::new(alloc, expanded.words.len(), expanded.from_file)?;
    note_words(alloc, &mut builder, expanded.words.as_slice())?;
    Ok(builder.line)
}

/// Reads words by the option table: the first row that fits a word decides (GCC manual, "Overall
/// Options").
///
/// # Errors
/// `TooManyArguments` for more than 65,536 words. Then `MissingArgument` or `BadJobs` at the first
/// offending word; `BadJobs` is for each word that begins with `--jobs` but is not `--jobs=N` with
/// N from 1 to 64. Then, unless the specs are dumped, the first of `NoInputs`,
/// `StdinNeedsLanguage`, `OutputWithMany` and `OutputIsInput`.
pub fn read(alloc: Global, expanded: &Expanded) -> Result<Line, ArgsFault>
    ensures line { Gives fault.Memory (λ line. line) result (line_read expanded.now) }
{
    if expanded.words.len() > MOST_ARGUMENTS {
        return Err(ArgsFault::TooManyArguments);
    }
    let line = read_words(alloc, expanded)?;
    line_fault(&line)?;
    Ok(line)
}
