//! What the program says of itself: `gdrv-specs --help`, `gdrv-specs TOOL --help` and
//! `gdrv-specs --version`.

use crate::options::{OptionRow, Tool};
use drv_run::VERSION;
use std::io::{self, Write};

const HELP: &str = "\
Usage: gdrv-specs TOOL [OPTION]... -- PROGRAM WORD...
       gdrv-specs check [OPTION]... FILE...
       gdrv-specs diff [OPTION]... FILE FILE [-- PROGRAM WORD...]
gdrv-specs says what a command would do, and why, and what is wrong with spec
files. It makes no file and carries no command out.

  check    print every fault of spec files, and what is surely not meant
  plan     print the commands that PROGRAM would start
  after    print what it would start, make and remove, and what it would leave
  diff     print what differs between its commands with one spec FILE and with
           another; without PROGRAM, between the texts
  why      print under each command where its words are from

PROGRAM WORD... is a command as it stands in the log of a build. PROGRAM is gdrv,
gdrv-cc, gcc, cc, c99, TARGET-gdrv-cc or TARGET-gcc, by its name or path: a gcc's
name means the spec file that is installed for it.

The status is 0, 1 where a check or a comparison finds something, or 2 for trouble.
'gdrv-specs TOOL --help' lists the options of a tool. The manual page gdrv-specs(1)
says more.
";

const CHECK: &str = "\
Usage: gdrv-specs check [OPTION]... FILE...
Prints every fault of spec files, and what is surely not meant, each with its
line. The FILE - is standard input. The status is 2 for faults. An option -Wno-..
leaves out the warnings about what it names.

";

const PLAN: &str = "\
Usage: gdrv-specs plan [OPTION]... -- PROGRAM WORD...
Prints the commands that PROGRAM would start, a line each.

";

const AFTER: &str = "\
Usage: gdrv-specs after [OPTION]... -- PROGRAM WORD...
Prints what PROGRAM would start, make and remove, its status, and what it would
leave.

";

const DIFF: &str = "\
Usage: gdrv-specs diff [OPTION]... FILE FILE [-- PROGRAM WORD...]
Prints the words by which the commands of PROGRAM differ with the first spec FILE
and with the second; without PROGRAM, what differs between the texts. The status
is 1 if anything does.

";

const WHY: &str = "\
Usage: gdrv-specs why [OPTION]... -- PROGRAM WORD...
Prints the commands that PROGRAM would start, and under each its words with the
parts of texts that they are from, and what they are for.

";

/// The columns up to what the help says of an option.
const COLUMNS: usize = 26;

/// What a call asks of the program itself.
#[derive(Clone, Copy)]
pub enum Question {
    /// How it is used.
    Help,
    /// How a tool is used.
    Tool(Tool),
    /// Its version.
    Version,
}

/// How a tool is called, and what it does.
fn purpose(tool: Tool) -> &'static str {
    match tool {
        Tool::Check => CHECK,
        Tool::Plan => PLAN,
        Tool::After => AFTER,
        Tool::Diff => DIFF,
        Tool::Why => WHY,
    }
}

/// Writes the name of an option, with its argument, and answers how many columns it has.
fn write_name<W: Write>(to: &mut W, row: &OptionRow) -> io::Result<usize> {
    to.write_all(b"  ")?;
    to.write_all(row.name)?;
    if !row.takes_argument() {
        return Ok(row.name.len().saturating_add(2));
    }
    to.write_all(b"=")?;
    to.write_all(row.argument)?;
    let length = row.name.len().saturating_add(row.argument.len());
    Ok(length.saturating_add(3))
}

/// Writes the line of an option.
fn write_option<W: Write>(to: &mut W, row: &OptionRow) -> io::Result<()> {
    let columns = write_name(to, row)?;
    for _ in columns..COLUMNS {
        to.write_all(b" ")?;
    }
    to.write_all(b" ")?;
    to.write_all(row.help)?;
    to.write_all(b"\n")
}

/// Writes how a tool is used.
fn write_tool<W: Write>(to: &mut W, tool: Tool) -> io::Result<()> {
    to.write_all(purpose(tool).as_bytes())?;
    for row in tool.options() {
        write_option(to, row)?;
    }
    Ok(())
}

/// Writes the version.
fn write_version<W: Write>(to: &mut W) -> io::Result<()> {
    to.write_all(b"gdrv-specs ")?;
    to.write_all(VERSION.as_bytes())?;
    to.write_all(b"\n")
}

impl Question {
    /// Writes the answer.
    ///
    /// # Errors
    /// Why it could not be written.
    pub fn answer<W: Write>(self, to: &mut W) -> io::Result<()> {
        match self {
            Question::Help => to.write_all(HELP.as_bytes()),
            Question::Tool(tool) => write_tool(to, tool),
            Question::Version => write_version(to),
        }
    }
}
