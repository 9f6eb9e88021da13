//! The options of a gcc by their names, as gdrv-cc reads them.

use crate::asking::Gcc;
use crate::fault::Fault;
use crate::finding::has_word;
use crate::listing::option_list;
use crate::newer::own_line;
use crate::refusing::{Refusals, name_of, quote_in};
use crate::texts::{add_all, cut_at, joined, lines_of, numbered, sorted_lines};
use drv_gcc::{option_lines, options, values};
use drv_words::{Listing, Word, split};
use std::alloc::Global;

/// Options whose values the front knows.
const OWN: [&[u8]; 6] = [
    b"-std=",
    b"-specs=",
    b"-fsanitize=",
    b"-fno-sanitize=",
    b"-fuse-ld=",
    b"-fcompare-debug=",
];

/// The name of an option with a value, up to its equals sign; none for another option, or for one
/// whose value the front knows.
fn open_name(option: &[u8]) -> Option<&[u8]> {
    let is_judged = matches!(option, [b'-', b'f' | b'W' | b'm' | b'g' | b's', ..]);
    let end = option.iter().position(|byte| *byte == b'=')?;
    let name = option.get(..end + 1)?;
    if is_judged && !OWN.iter().any(|own| name == *own) {
        Some(name)
    } else {
        None
    }
}

/// Each option that takes a value, with one that no option has.
fn with_no_value(alloc: Global, known: &[Word]) -> Result<Listing<Word>, Fault> {
    let mut words = Listing::new(alloc);
    for option in known {
        if let Some(name) = open_name(option.as_bytes()) {
            let word = joined(alloc, &[name, b"?"])?;
            if !has_word(words.as_slice(), word.as_bytes()) {
                words.push(word)?;
            }
        }
    }
    Ok(words)
}

/// What a gcc says that an option takes, where it refuses a value.
#[derive(Drop)]
struct Judged {
    /// The name, up to its equals sign.
    name: Word,
    /// The values; `#` for any number.
    values: Listing<Word>,
}

impl Judged {
    fn takes_numbers(&self) -> bool {
        has_word(self.values.as_slice(), b"#")
    }
}

/// Whether a refusal of this word says that its option doesn't take all values. An option for a
/// machine of which gcc lists no values takes those of which it makes a row.
fn is_judged(word: &[u8], found: &[Judged]) -> bool {
    !word.starts_with(b"-m") || found.iter().any(|it| it.name.as_bytes() == name_of(word))
}

/// A number of one digit or two.
fn small(text: &[u8]) -> Option<u8> {
    match text {
        [b'0'..=b'9'] => Some(text[0] - b'0'),
        [b'1'..=b'9', b'0'..=b'9'] => Some((text[0] - b'0') * 10 + (text[1] - b'0')),
        _ => None,
    }
}

/// The numbers from one small one to another, by words between which the two are.
fn numbers(alloc: Global, words: &[Word]) -> Result<Listing<Word>, Fault> {
    let mut numbers = Listing::new(alloc);
    if let [first, _, last] = words
        && let (Some(from), Some(to)) = (small(first.as_bytes()), small(last.as_bytes()))
    {
        for number in from..=to {
            numbers.push(numbered(alloc, b"", usize::from(number))?)?;
        }
    }
    Ok(numbers)
}

/// The values that a text behind the name of an option speaks of; none in other texts.
fn values_in(alloc: Global, after: &[u8]) -> Result<Listing<Word>, Fault> {
    if after.starts_with(b" should be a non-negative integer") {
        return Ok(split(alloc, b"#")?);
    }
    for head in [b" are: ".as_slice(), b" arguments are: "] {
        if let Some(list) = after.strip_prefix(head) {
            return Ok(split(alloc, cut_at(b';', list).0)?);
        }
    }
    let ends = after.strip_prefix(b" is not between ".as_slice());
    numbers(alloc, split(alloc, ends.unwrap_or(b""))?.as_slice())
}

/// What a gcc says of the values of these options.
fn judgements(gcc: Gcc<'_>, tried: &[Word]) -> Result<Listing<Judged>, Fault> {
    let alloc = gcc.alloc();
    let mut words = split(alloc, b"-### -c x.s")?;
    for word in tried {
        words.push(word.clone()?)?;
    }
    let said = gcc.ask_words(words.as_slice())?;
    let mut found = Listing::new(alloc);
    for line in said.err.as_bytes().split(|byte| *byte == b'\n') {
        let (_, name, after) = quote_in(line);
        let values = values_in(alloc, after)?;
        if !values.is_empty() {
            let name = Word::from_bytes(alloc, name)?;
            found.push(Judged { name, values })?;
        }
    }
    Ok(found)
}

/// Whether gcc's driver is asked of an option as it is: it has no value and doesn't end the call, or
/// each of its values is an option.
fn is_whole(option: &[u8]) -> bool {
    if option.starts_with(b"-stdlib=") {
        return !option.ends_with(b"=");
    }
    let is_judged = matches!(option, [b'-', b'f' | b'W' | b'm' | b'g', ..]);
    let ends_the_call = matches!(option, b"-fhelp" | b"-fversion" | b"-ftarget-help");
    is_judged && !option.contains(&b'=') && !option.ends_with(b"-") && !ends_the_call
}

/// The options of which gcc's driver is asked as they are.
fn whole_of(alloc: Global, known: &[Word]) -> Result<Listing<Word>, Fault> {
    let mut whole = Listing::new(alloc);
    for option in known {
        if is_whole(option.as_bytes()) {
            whole.push(option.clone()?)?;
        }
    }
    Ok(whole)
}

/// What a gcc makes of the options that it lists.
#[derive(Drop)]
struct OptionNames {
    /// The names of those that it judges, with their marks and values.
    names: Listing<Word>,
    /// Those that it does not know.
    lacking: Listing<Word>,
}

impl OptionNames {
    /// Adds those of some words that a gcc refuses.
    fn add_refused(&mut self, gcc: Gcc<'_>, words: &[Word]) -> Result<(), Fault> {
        let refusals = Refusals::of(gcc, words)?;
        for word in refusals.known.as_slice() {
            self.names
                .push(joined(gcc.alloc(), &[name_of(word.as_bytes()), b"?"])?)?;
        }
        for word in refusals.lacking.as_slice() {
            self.lacking
                .push(Word::from_bytes(gcc.alloc(), name_of(word.as_bytes()))?)?;
        }
        Ok(())
    }

    /// Adds the values that are listed for options.
    fn add_values(&mut self, alloc: Global, found: &[Judged]) -> Result<(), Fault> {
        for it in found {
            if !it.takes_numbers() {
                for value in it.values.as_slice() {
                    self.names
                        .push(joined(alloc, &[it.name.as_bytes(), value.as_bytes()])?)?;
                }
            }
        }
        Ok(())
    }

    /// Adds the names of the options whose value is judged: `NAME=#` takes a number, and what is
    /// listed follows `NAME=`. Some of these numbers are a list, as a large one shows.
    fn add_judged(&mut self, gcc: Gcc<'_>, found: &[Judged]) -> Result<(), Fault> {
        let alloc = gcc.alloc();
        let mut large = Listing::new(alloc);
        for it in found {
            if it.takes_numbers() {
                large.push(joined(alloc, &[it.name.as_bytes(), b"99999999999999999999"])?)?;
            }
        }
        let few = judgements(gcc, large.as_slice())?;
        self.add_values(alloc, found)?;
        self.add_values(alloc, few.as_slice())?;
        for it in found {
            let name = it.name.as_bytes();
            if it.takes_numbers() && !few.as_slice().iter().any(|it| it.name.as_bytes() == name) {
                self.names.push(joined(alloc, &[name, b"#"])?)?;
            }
        }
        Ok(())
    }

    /// What a gcc makes of these options. `NAME?` is known and refused; of one with a value, others
    /// than those that are listed.
    fn of(gcc: Gcc<'_>, known: &[Word]) -> Result<OptionNames, Fault> {
        let alloc = gcc.alloc();
        let mut options = OptionNames {
            names: Listing::new(alloc),
            lacking: Listing::new(alloc),
        };
        let mut tried = with_no_value(alloc, known)?.into_vec();
        let found = judgements(gcc, tried.as_slice())?;
        tried.retain(|word| is_judged(word.as_bytes(), found.as_slice()));
        options.add_refused(gcc, whole_of(alloc, known)?.as_slice())?;
        options.add_refused(gcc, tried.as_slice())?;
        options.add_judged(gcc, found.as_slice())?;
        Ok(options)
    }

    /// Whether a gcc takes an option whatever its value is.
    fn are_without(&self, option: &[u8]) -> bool {
        let is_judged = self.names.as_slice().iter().any(|it| match it.as_bytes().split_last() {
            Some((b'#' | b'?', name)) => name == option,
            _ => false,
        });
        !is_judged && !has_word(self.lacking.as_slice(), option)
    }
}

/// Adds the options that turn a warning off.
fn add_negatives(alloc: Global, said: &[u8], known: &mut Listing<Word>) -> Result<(), Fault> {
    for rest in values(alloc, b"-Wno-", said)?.as_slice() {
        if let [option, ..] = split(alloc, rest.as_bytes())?.as_slice() {
            known.push(joined(alloc, &[b"-Wno-".as_slice(), option.as_bytes()])?)?;
        }
    }
    Ok(())
}

/// Adds the name by which a gcc calls `-mcpu=`, if it is another one.
fn add_tune(gcc: Gcc<'_>, lines: &mut Word) -> Result<(), Fault> {
    let planned = gcc.plan(b"-### -S x.i -o made -mcpu=x")?;
    let mut commands = planned.as_slice().iter();
    if commands.any(|command| has_word(command.as_slice(), b"-mtune=x")) {
        lines.extend_from_slice(b"-mcpu=>-mtune=\n")?;
    }
    Ok(())
}

/// Adds the options for the devices of a gcc.
fn add_devices(gcc: Gcc<'_>, lines: &mut Word) -> Result<(), Fault> {
    for device in gcc.devices_in(&gcc.device_folder()?)?.as_slice() {
        add_all(lines, &[b"-mmcu=".as_slice(), device.as_bytes(), b"\n"])?;
    }
    Ok(())
}

/// The names of the options that a gcc lists, with what it says of them.
fn names_among(gcc: Gcc<'_>, said: &[u8], known: Listing<Word>) -> Result<Listing<Word>, Fault> {
    let judged = OptionNames::of(gcc, known.as_slice())?;
    let mut all = known;
    add_negatives(gcc.alloc(), said, &mut all)?;
    let mut names = Listing::new(gcc.alloc());
    for option in all.into_vec() {
        if judged.are_without(option.as_bytes()) {
            names.push(option)?;
        }
    }
    for name in judged.names.into_vec() {
        names.push(name)?;
    }
    Ok(names)
}

/// All options that a gcc knows, by their names, and those of these lines: a line each.
pub fn names_of(gcc: Gcc<'_>, more: &[u8]) -> Result<Word, Fault> {
    let said = option_list(gcc)?;
    let known = options(gcc.alloc(), said.as_bytes())?;
    if known.is_empty() {
        return Err(Fault::NoOptions(gcc.path.clone()?));
    }
    let names = names_among(gcc, said.as_bytes(), known)?;
    let mut lines = option_lines(gcc.alloc(), names.as_slice())?;
    add_tune(gcc, &mut lines)?;
    add_devices(gcc, &mut lines)?;
    let own = own_line(gcc)?;
    add_all(&mut lines, &[own.as_bytes(), more])?;
    lines_of(
        gcc.alloc(),
        sorted_lines(gcc.alloc(), lines.as_bytes())?.as_slice(),
    )
}
