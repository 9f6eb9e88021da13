//! The script that answers instead of a machine. Standard input holds its lines, whose words are
//! written as in a response file:
//!
//! ```text
//! file PATH TEXT         a file of these bytes; without a text it can't be read
//! lines PATH LINE..      a file of these lines
//! folder PATH            a folder
//! variable NAME VALUE    a variable of the environment
//! mute                   messages fail
//! answers WORDS          the answers to steps, see `answers`
//! ```

ghost use Rattle.std.specs.Prelude.{◌≡◌, [], IfOk};

use crate::answers::answer_of;
use crate::names::look_up;
use drv_system::ScriptSystem;
use drv_words::{Answer, Listing, Word, split};
use std::alloc::{AllocError, Global};
use std::io;

/// The lines of standard input, split into words.
///
/// # Errors
/// A lack of memory, and a standard input that can't be read.
pub fn read_lines(rt: &HostRuntime) -> io::Result<Vec<Listing<Word>>> {
    let mut lines = Vec::new(rt.alloc());
    for line in rt.lines(rt.alloc()) {
        lines.push(split(rt.alloc(), line?.as_bytes())?)?;
    }
    Ok(lines)
}

/// The text of lines.
fn text_of(alloc: Global, lines: &[Word]) -> Result<Word, AllocError> {
    let mut text = Word::empty(alloc);
    for line in lines {
        text.extend_from_slice(line.as_bytes())?;
        text.push(b'\n')?;
    }
    Ok(text)
}

/// What a line adds to a script.
#[derive(Clone, Copy)]
enum Entry {
    File,
    Lines,
    Folder,
    Variable,
    Mute,
    Answers,
}

/// The first words of lines.
const ENTRIES: [(&[u8], Entry); 6] = [
    (b"file", Entry::File),
    (b"lines", Entry::Lines),
    (b"folder", Entry::Folder),
    (b"variable", Entry::Variable),
    (b"mute", Entry::Mute),
    (b"answers", Entry::Answers),
];

/// The contents of a script.
#[derive(Drop)]
struct Script {
    files: Listing<(Word, Option<Word>)>,
    folders: Listing<Word>,
    variables: Listing<(Word, Word)>,
    answers: Listing<Answer>,
    is_mute: bool,
}

impl Script {
    /// The empty script.
    fn new(alloc: Global) -> Script {
        Script {
            files: Listing::new(alloc),
            folders: Listing::new(alloc),
            variables: Listing::new(alloc),
            answers: Listing::new(alloc),
            is_mute: false,
        }
    }

    /// Adds a line. A line of a plan adds nothing.
    fn add(&mut self, alloc: Global, line: &[Word]) -> Result<(), AllocError> {
        let [what, words @ ..] = line else {
            return Ok(());
        };
        match look_up(&ENTRIES, what.as_bytes()) {
            Some(Entry::File) => self.add_file(words),
            Some(Entry::Lines) => self.add_lines(alloc, words),
            Some(Entry::Folder) => self.add_folder(words),
            Some(Entry::Variable) => self.add_variable(words),
            Some(Entry::Mute) => {
                self.is_mute = true;
                Ok(())
            }
            Some(Entry::Answers) => self.add_answers(words),
            None => Ok(()),
        }
    }

    /// Adds a file by its path, and perhaps its text; without one it can't be read.
    fn add_file(&mut self, words: &[Word]) -> Result<(), AllocError> {
        match words {
            [path] => Ok(self.files.push((path.clone()?, None))?),
            [path, text] => Ok(self.files.push((path.clone()?, Some(text.clone()?)))?),
            _ => Ok(()),
        }
    }

    /// Adds a file by its path and its lines.
    fn add_lines(&mut self, alloc: Global, words: &[Word]) -> Result<(), AllocError> {
        let [path, lines @ ..] = words else {
            return Ok(());
        };
        let text = text_of(alloc, lines)?;
        Ok(self.files.push((path.clone()?, Some(text)))?)
    }

    /// Adds a folder by its path.
    fn add_folder(&mut self, words: &[Word]) -> Result<(), AllocError> {
        match words {
            [path] => Ok(self.folders.push(path.clone()?)?),
            _ => Ok(()),
        }
    }

    /// Adds a variable by its name and value.
    fn add_variable(&mut self, words: &[Word]) -> Result<(), AllocError> {
        match words {
            [name, value] => Ok(self.variables.push((name.clone()?, value.clone()?))?),
            _ => Ok(()),
        }
    }

    /// Adds the answers that these words name; others are passed over.
    fn add_answers(&mut self, words: &[Word]) -> Result<(), AllocError> {
        for word in words {
            if let Some(answer) = answer_of(word.as_bytes()) {
                self.answers.push(answer)?;
            }
        }
        Ok(())
    }
}

/// The script of these lines.
fn script_of(alloc: Global, lines: &[Listing<Word>]) -> Result<Script, AllocError> {
    let mut script = Script::new(alloc);
    for line in lines {
        script.add(alloc, line.as_slice())?;
    }
    Ok(script)
}

/// A system that answers as the lines say.
///
/// # Errors
/// A lack of memory.
pub fn system(alloc: Global, lines: &[Listing<Word>]) -> Result<ScriptSystem, AllocError>
    ensures { IfOk result (λ sys. sys.journal ≡ []) }
{
    let script = script_of(alloc, lines)?;
    let is_mute = script.is_mute;
    let mut sys = ScriptSystem::new(
        alloc,
        script.files,
        script.folders,
        script.variables,
        script.answers,
    );
    if is_mute {
        sys.mute();
    }
    Ok(sys)
}
