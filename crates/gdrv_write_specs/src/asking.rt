//! Programs are asked: a gcc once for each question, and the driver whose plans are compared with
//! its own.

use crate::bounded::output_of;
use crate::fault::Fault;
use crate::texts::{cut_at, joined};
use crate::work_folder::WorkFolder;
use drv_gcc::values;
use drv_words::{Listing, Word, split};
use std::alloc::Global;
use std::io::{Error, ErrorKind};
use std::process::Command;
use std::{io, str};

/// What a program said.
#[derive(Clone, Drop)]
pub struct Said {
    /// Whether its exit status was 0.
    pub is_done: bool,
    /// Its standard output.
    pub out: Word,
    /// Its standard error.
    pub err: Word,
}

/// What a gcc said to a question.
#[derive(Drop)]
pub struct Heard {
    question: Word,
    said: Said,
}

/// A word as text.
pub fn text(word: &[u8]) -> io::Result<&str> {
    str::from_utf8(word).map_err(|_| Error::from(ErrorKind::InvalidInput))
}

/// Variables that lead a gcc to other programs, folders, files or plans than its own. An empty one
/// is not as one that isn't there: an empty path names the folder of the call.
const LEADING: [&str; 11] = [
    "COMPILER_PATH",
    "LIBRARY_PATH",
    "GCC_EXEC_PREFIX",
    "GCC_COMPARE_DEBUG",
    "CPATH",
    "C_INCLUDE_PATH",
    "CPLUS_INCLUDE_PATH",
    "OBJC_INCLUDE_PATH",
    "DEPENDENCIES_OUTPUT",
    "SUNPRO_DEPENDENCIES",
    "GCC_EXTRA_DIAGNOSTIC_OUTPUT",
];

/// Gives a command its words, and has it run in a folder, with messages in English. The spec file
/// that the caller names for drivers is not that of a driver that is tried, and no variable of the
/// caller leads a driver elsewhere.
fn prepare(made: &mut Command, at: &Word, words: &[Word]) -> io::Result<()> {
    for word in words {
        made.arg(text(word.as_bytes())?)?;
    }
    for name in LEADING {
        made.env_remove(name)?;
    }
    made.env("LC_ALL", "C")?;
    made.env("GDRV_CC_SPECS", "")?;
    made.current_dir(text(at.as_bytes())?)?;
    Ok(())
}

/// Runs a program, in a folder, with these words.
fn run(rt: &HostRuntime, at: &Word, program: &Word, words: &[Word]) -> io::Result<Said> {
    let mut made = Command::new(rt.alloc(), text(program.as_bytes())?)?;
    prepare(&mut made, at, words)?;
    let output = output_of(rt, at, &mut made)?;
    Ok(Said {
        is_done: output.status.success(),
        out: Word::from_vec(output.stdout),
        err: Word::from_vec(output.stderr),
    })
}

/// How many words of a question a message shows.
const SHOWN: usize = 8;

/// A question as a message shows it: the program and its first words.
fn shown_question(program: &Word, words: &[Word]) -> Result<Word, Fault> {
    let mut question = program.clone()?;
    for word in words.iter().take(SHOWN) {
        question.push(b' ')?;
        question.extend_from_slice(word.as_bytes())?;
    }
    if SHOWN < words.len() {
        question.extend_from_slice(b" ..")?;
    }
    Ok(question)
}

/// The words of a question by which it is known.
fn question_of(alloc: Global, words: &[Word]) -> Result<Word, Fault> {
    let mut question = Word::empty(alloc);
    for word in words {
        question.extend_from_slice(word.as_bytes())?;
        question.push(0)?;
    }
    Ok(question)
}

/// The commands that a driver shows: each line that begins with a blank, without the `|` after it.
pub fn commands(alloc: Global, shown: &[u8]) -> Result<Listing<Listing<Word>>, Fault> {
    let mut commands = Listing::new(alloc);
    for line in values(alloc, b" ", shown)?.as_slice() {
        let bytes = line.as_bytes();
        commands.push(split(alloc, bytes.strip_suffix(b" |".as_slice()).unwrap_or(bytes))?)?;
    }
    Ok(commands)
}

/// A gcc that is asked in a folder of work, with options that choose its machine.
#[derive(Clone, Copy)]
pub struct Gcc<'a> {
    pub rt: &'a HostRuntime,
    pub work: &'a WorkFolder,
    /// Its path.
    pub path: &'a Word,
    /// The options, as a line has them.
    pub options: &'a [u8],
}

impl<'a> Gcc<'a> {
    pub fn alloc(self) -> Global {
        self.rt.alloc()
    }

    /// The same with other options.
    pub fn with(self, options: &'a [u8]) -> Gcc<'a> {
        Gcc { options, ..self }
    }

    /// Asks a program in the folder of the lines.
    ///
    /// # Errors
    /// Lack of memory; the answer breaks a bound; the program can't be started.
    fn ask_program(self, program: &Word, words: &[Word]) -> Result<Said, Fault> {
        let error = match run(self.rt, &self.work.lines, program, words) {
            Ok(said) => return Ok(said),
            Err(error) => error.kind(),
        };
        Err(match error {
            ErrorKind::OutOfMemory => Fault::Memory,
            ErrorKind::FileTooLarge => Fault::TooMuch(shown_question(program, words)?),
            ErrorKind::TimedOut => Fault::TooSlow(shown_question(program, words)?),
            _ => Fault::NoGcc(program.clone()?),
        })
    }

    /// What it said to a question, if it was asked that before.
    fn heard(self, question: &Word) -> Result<Option<Said>, Fault> {
        let Ok(heard) = self.work.heard.try_borrow() else {
            return Ok(None);
        };
        for it in heard.as_slice() {
            if it.question.as_bytes() == question.as_bytes() {
                return Ok(Some(it.said.clone()?));
            }
        }
        Ok(None)
    }

    /// Keeps what it said to a question.
    fn keep(self, question: Word, said: Said) -> Result<(), Fault> {
        if let Ok(mut heard) = self.work.heard.try_borrow_mut() {
            heard.push(Heard { question, said })?;
        }
        Ok(())
    }

    /// What it says to these words alone.
    pub fn ask_words(self, words: &[Word]) -> Result<Said, Fault> {
        let question = question_of(self.alloc(), words)?;
        if let Some(said) = self.heard(&question)? {
            return Ok(said);
        }
        let said = self.ask_program(self.path, words)?;
        self.keep(question, said.clone()?)?;
        Ok(said)
    }

    /// What it says to the words of a line, with its options.
    pub fn ask(self, line: &[u8]) -> Result<Said, Fault> {
        let whole = joined(self.alloc(), &[line, b" ", self.options])?;
        self.ask_words(split(self.alloc(), whole.as_bytes())?.as_slice())
    }

    /// What the driver says to the words of a line by the spec file in the folder of work.
    pub fn ask_driver(self, line: &[u8]) -> Result<Said, Fault> {
        let words = split(self.alloc(), line)?;
        self.ask_program(&self.work.driver, words.as_slice())
    }

    /// The first line of its answer to a question about a name.
    pub fn answer(self, question: &[u8], name: &[u8]) -> Result<Word, Fault> {
        let line = joined(self.alloc(), &[question, name])?;
        let said = self.ask(line.as_bytes())?;
        Ok(Word::from_bytes(self.alloc(), cut_at(b'\n', said.out.as_bytes()).0)?)
    }

    /// The path of a file; empty where it doesn't find it.
    pub fn path_of(self, name: &[u8]) -> Result<Word, Fault> {
        let path = self.answer(b"-print-file-name=", name)?;
        if path.as_bytes().starts_with(b"/") {
            Ok(path)
        } else {
            Ok(Word::empty(self.alloc()))
        }
    }

    /// The commands that it plans for a line.
    pub fn plan(self, line: &[u8]) -> Result<Listing<Listing<Word>>, Fault> {
        commands(self.alloc(), self.ask(line)?.err.as_bytes())
    }

    /// The words of the link of an object that it plans with these more.
    pub fn link(self, more: &[u8]) -> Result<Listing<Word>, Fault> {
        let line = joined(self.alloc(), &[b"-### x.o -o made ".as_slice(), more])?;
        let mut planned = self.plan(line.as_bytes())?;
        Ok(planned.pop().unwrap_or(Listing::new(self.alloc())))
    }
}
