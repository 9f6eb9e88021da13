//! The words of a tool's call: its options, its files, and the command behind `--`.

use crate::calling::CallFault;
use crate::forms::Form;
use crate::options::{Choice, OptionRow, Tool, near_option};
use drv_check::Names;
use drv_forms::Detail;
use drv_why::Asked;
use drv_words::{Listing, Word, copy_words};
use std::alloc::{AllocError, Global};

/// What the words of a tool's call ask for. Of options that exclude one another the last one counts.
#[derive(Drop)]
pub struct Request {
    /// How the tool is used.
    pub help: bool,
    /// The form of what is printed.
    pub form: Form,
    /// How much is printed of two commands that differ.
    pub detail: Detail,
    /// What is asked about the words of a plan.
    pub asked: Asked,
    /// The commands that fail, as `PLACE=ANSWER`.
    pub failures: Listing<Word>,
    /// Whether warnings count for the exit status.
    pub strict: bool,
    /// Whose texts count as run, though no text names them.
    pub whose: Names,
    /// The options of the warnings that aren't printed.
    pub off: Listing<Word>,
    /// The paths of the files that are loaded first.
    pub over: Listing<Word>,
    /// The paths of the files: the words that are no option.
    pub files: Listing<Word>,
    /// The words behind `--`, if that is there.
    pub command: Option<Listing<Word>>,
}

/// The path of a file: a hyphen is standard input.
pub fn path_of(alloc: Global, word: &Word) -> Result<Word, AllocError> {
    match word.as_bytes() {
        b"-" => Word::from_bytes(alloc, b"/dev/stdin"),
        path => Word::from_bytes(alloc, path),
    }
}

/// Why a tool doesn't take an option.
fn no_option(alloc: Global, tool: Tool, word: &Word) -> Result<CallFault, AllocError> {
    Ok(CallFault::UnknownOption {
        tool,
        word: word.clone()?,
        near: near_option(alloc, tool, word.as_bytes())?,
    })
}

/// The row of an option that takes an argument, and its argument where that is in the same word.
fn joined<'a>(tool: Tool, word: &'a [u8]) -> Option<(OptionRow, Option<&'a [u8]>)> {
    for row in tool.options() {
        if row.takes_argument()
            && let Some(rest) = word.strip_prefix(row.name)
        {
            match rest {
                [] => return Some((*row, None)),
                [b'=', argument @ ..] => return Some((*row, Some(argument))),
                _ => {}
            }
        }
    }
    None
}

impl Request {
    /// The call without words.
    fn new(alloc: Global) -> Request {
        Request {
            help: false,
            form: Form::Lines,
            detail: Detail::Words,
            asked: Asked::Words,
            failures: Listing::new(alloc),
            strict: false,
            whose: Names::Driver,
            off: Listing::new(alloc),
            over: Listing::new(alloc),
            files: Listing::new(alloc),
            command: None,
        }
    }

    /// Takes an option, with its argument if it has one.
    fn choose(&mut self, alloc: Global, choice: Choice, argument: &Word) -> Result<(), AllocError> {
        match choice {
            Choice::Help => self.help = true,
            Choice::Json => self.form = Form::Json,
            Choice::Script => self.form = Form::Script,
            Choice::Full => self.detail = Detail::Lines,
            Choice::Of => self.asked = Asked::Of(argument.clone()?),
            Choice::Not => self.asked = Asked::Not(argument.clone()?),
            Choice::Fail => self.failures.push(argument.clone()?)?,
            Choice::Over => self.over.push(path_of(alloc, argument)?)?,
            Choice::Gcc => self.whose = Names::Gcc,
            Choice::Strict => self.strict = true,
            Choice::Silent => self.off.push(argument.clone()?)?,
        }
        Ok(())
    }

    /// Adds a word that is no option.
    fn add_file(&mut self, word: &Word) -> Result<(), AllocError> {
        self.files.push(word.clone()?)?;
        Ok(())
    }

    /// Takes a word that begins as an option. Answers the option whose argument the next word is.
    fn take_option(
        &mut self,
        alloc: Global,
        tool: Tool,
        word: &Word,
    ) -> Result<Option<OptionRow>, CallFault> {
        for row in tool.options() {
            if !row.takes_argument() && row.name == word.as_bytes() {
                self.choose(alloc, row.choice, word)?;
                return Ok(None);
            }
        }
        match joined(tool, word.as_bytes()) {
            Some((row, None)) => Ok(Some(row)),
            Some((row, Some(argument))) => {
                self.choose(alloc, row.choice, &Word::from_bytes(alloc, argument)?)?;
                Ok(None)
            }
            None => Err(no_option(alloc, tool, word)?),
        }
    }

    /// Takes the words before the `--`, if that is there, and answers how many they are. A hyphen alone
    /// is no option.
    fn take_words(
        &mut self,
        alloc: Global,
        tool: Tool,
        words: &[Word],
    ) -> Result<usize, CallFault> {
        let mut awaits: Option<OptionRow> = None;
        let mut count = words.len();
        for (place, word) in words.iter().enumerate() {
            if word.as_bytes() == b"--".as_slice() {
                count = place;
                break;
            }
            match (awaits.take(), word.as_bytes()) {
                (Some(row), _) => self.choose(alloc, row.choice, word)?,
                (None, [b'-', _, ..]) => awaits = self.take_option(alloc, tool, word)?,
                (None, _) => self.add_file(word)?,
            }
        }
        match awaits {
            Some(row) => Err(CallFault::MissingArgument(Word::from_bytes(alloc, row.name)?)),
            None => Ok(count),
        }
    }
}

/// What the words of a tool's call ask for.
///
/// # Errors
/// Lack of memory; the first word that begins as an option and is none of the tool; an option
/// without its argument.
pub fn request_of(alloc: Global, tool: Tool, words: &[Word]) -> Result<Request, CallFault> {
    let mut request = Request::new(alloc);
    let place = request.take_words(alloc, tool, words)?;
    if let Some([_, command @ ..]) = words.get(place..) {
        request.command = Some(copy_words(alloc, command)?);
    }
    Ok(request)
}
