//! Questions that the program answers itself: `gdrv --help` and `gdrv --version`.

ghost use Rattle.gdrv.specs.Questions.{question_of};
ghost use Rattle.std.specs.Prelude.{◌≡◌};

use drv_run::VERSION;
use drv_words::Word;
use std::io::{self, Write};

/// The answer to `--help`.
const HELP: &str = "\
Usage: gdrv [option]... file...
gdrv plans the runs of preprocessor, compiler, assembler and linker that spec
files ask for, and starts them. With the built-in specs it starts rectool, which
records its call: nothing is compiled.

  -###            print the commands and start none of them
  -specs=FILE     read a spec file over the built-in specs
  -dumpspecs      print all specs
  --jobs=N        compile up to N sources at once

The manual pages gdrv(1) and gdrv-cc(1) say more. To compile C, use gdrv-cc.
";

/// A question about the program itself.
#[derive(Clone, Copy)]
pub enum Question {
    /// The usage text.
    Help,
    /// Its version.
    Version,
}

impl Question {
    /// Writes the answer.
    ///
    /// # Errors
    /// Why it could not be written.
    pub fn answer<W: Write>(self, to: &mut W) -> io::Result<()> {
        match self {
            Question::Help => to.write_all(HELP.as_bytes()),
            Question::Version => {
                to.write_all(b"gdrv ")?;
                to.write_all(VERSION.as_bytes())?;
                to.write_all(b"\n")
            }
        }
    }
}

/// The question of a call, if that is its only word. With other words, the driver reads these words
/// as switches.
pub fn question_of(args: &[Word]) -> Option<Question>
    ensures { result ≡ question_of args.now }
{
    match args {
        [word] if word.as_bytes() == b"--help".as_slice() => Some(Question::Help),
        [word] if word.as_bytes() == b"--version".as_slice() => Some(Question::Version),
        _ => None,
    }
}
