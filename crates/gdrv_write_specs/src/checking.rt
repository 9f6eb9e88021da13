//! The plans by a spec file are compared with those of the gcc.

use crate::asking::{Gcc, commands};
use crate::fault::Fault;
use crate::finding::has_word;
use crate::refusing::Refusals;
use crate::texts::joined;
use drv_gcc::same_commands;
use drv_words::{Listing, Word, split};

/// The lines that must have gcc's plan: each way to compile, to assemble and to link.
const LINES: [&[u8]; 31] = [
    b"-c x.c -o made",
    b"-c x.c -O2 -g -o made",
    b"-c x.c -g3 -gdwarf-4 -o made",
    b"-S x.c -fPIC -o made",
    b"-E x.c -o made",
    b"-M x.c",
    b"-c x.c -MD -MF d -o made",
    b"-c x.c -DA -I. -isystem . -include x.c -Wall -std=c99 -pthread -o made",
    b"-c x.c -pg -o made",
    b"-c x.c -fprofile-arcs -ftest-coverage -o made",
    b"-c x.i -g -o made",
    b"-c x.s -o made",
    b"-c x.s -g -o made",
    b"-c x.S -o made",
    b"-c x.S -g -o made",
    b"x.c -o made",
    b"x.o -o made",
    b"x.o -static -o made",
    b"x.o -shared -o made",
    b"x.o -static-pie -o made",
    b"x.o -no-pie -o made",
    b"x.o -r -o made",
    b"x.o -nostdlib -o made",
    b"x.o -nostartfiles -L. -lm -o made",
    b"x.o -pthread -rdynamic -s -o made",
    b"x.o -shared-libgcc -Ofast -o made",
    b"x.o -static-libgcc -o made",
    b"x.o -fsanitize=address -o made",
    b"-c x.c -flto -O2 -o made",
    b"-c x.c -save-temps -o made",
    b"-wrapper W,w -c x.c -o made",
];

/// The lines with a folder in which gcc looks for files: they have its plan, or are refused.
const FOLDER_LINES: [&[u8]; 3] = [
    b"-BB -c x.c -o made",
    b"-BB x.o -o made",
    b"-wrapper W -BB -c x.S -o made",
];

/// The lines that are compared with another root.
const ROOT_LINES: [&[u8]; 3] = [
    b"--sysroot=../root -c x.c -o made",
    b"--sysroot=../root x.o -o made",
    b"--sysroot=../root x.o -static -o made",
];

/// The lines that are compared with each option for a machine.
const MACHINE_LINES: [&[u8]; 3] = [b"-c x.c -o made", b"-c x.S -o made", b"x.o -o made"];

/// Options that gcc's driver takes only where its texts name them, or for some machines (`-G`).
const NAMED: &[u8] = b"-G -nolibc -pthread -rdynamic -symbolic -p -pg -profile -pie -no-pie \
-static-pie -static -shared -static-libgcc -shared-libgcc";

/// A line that links, and the options other than `-m..` by which a gcc may choose other words there: a
/// line with one has gcc's plan, or is refused.
const LINKED: &[u8] = b"x.c -o made";

const LINK_OPTIONS: &[u8] = b"-fopenmp -fopenacc -fpic -fPIC -fpie -fPIE -fno-pic -fno-PIC \
-fno-pie -fno-PIE -pie -no-pie -static -shared -Ofast -Os -ffast-math -fno-fast-math";

/// A line that compiles, and such options there.
const COMPILED: &[u8] = b"-c x.c -o made";

const COMPILE_OPTIONS: &[u8] = b"-fgnu-tm -ftree-parallelize-loops=2";

/// How two drivers take a line.
#[derive(Clone, Copy)]
enum Verdict {
    /// As one, or both refuse it.
    Same,
    /// This driver alone refuses it.
    Refused,
    /// Each in its own way.
    Other,
}

/// The pattern by which an option is refused: with any value, if it has one.
fn pattern_of(gcc: Gcc<'_>, option: &[u8]) -> Result<Word, Fault> {
    match option.strip_suffix(b"=2".as_slice()) {
        Some(name) => joined(gcc.alloc(), &[name, b"=*"]),
        None => Ok(Word::from_bytes(gcc.alloc(), option)?),
    }
}

impl<'a> Gcc<'a> {
    /// How this driver and the gcc take a line with the gcc's options.
    fn verdict(self, line: &[u8]) -> Result<Verdict, Fault> {
        let alloc = self.alloc();
        let shown = joined(alloc, &[b"-### ".as_slice(), line, b" ", self.options])?;
        let ours = self.ask_driver(shown.as_bytes())?;
        let theirs = self.with(b"").ask(shown.as_bytes())?;
        if !ours.is_done {
            return Ok(if theirs.is_done {
                Verdict::Refused
            } else {
                Verdict::Same
            });
        }
        let one = commands(alloc, ours.err.as_bytes())?;
        let other = commands(alloc, theirs.err.as_bytes())?;
        let is_same = theirs.is_done && same_commands(one.as_slice(), other.as_slice());
        Ok(if is_same {
            Verdict::Same
        } else {
            Verdict::Other
        })
    }

    /// Whether a line has another plan than gcc's, which this driver would carry out.
    pub fn is_line_other(self, line: &[u8]) -> Result<bool, Fault> {
        Ok(matches!(self.verdict(line)?, Verdict::Other))
    }

    /// Whether one of some lines has another plan than gcc's, which this driver would carry out.
    fn is_any_other(self, lines: &[&[u8]]) -> Result<bool, Fault> {
        for line in lines {
            if self.is_line_other(line)? {
                return Ok(true);
            }
        }
        Ok(false)
    }

    /// Whether a line with another root has another plan than gcc's.
    pub fn is_rooted_otherwise(self) -> Result<bool, Fault> {
        self.is_any_other(&ROOT_LINES)
    }

    /// Whether the options for a machine give another plan than gcc's.
    pub fn is_other(self) -> Result<bool, Fault> {
        self.is_any_other(&MACHINE_LINES)
    }

    /// Adds those of some lines whose plans differ, or that this driver alone refuses.
    fn add_unlike(self, lines: &[&[u8]], unlike: &mut Listing<Word>) -> Result<(), Fault> {
        for line in lines {
            if !matches!(self.verdict(line)?, Verdict::Same) {
                let whole = joined(self.alloc(), &[*line, b" ", self.options])?;
                unlike.push(Word::from_bytes(self.alloc(), whole.as_bytes().trim_ascii())?)?;
            }
        }
        Ok(())
    }

    /// The lines whose plans differ, also of those with these options for a machine.
    pub fn differences(self, options: &[u8]) -> Result<Listing<Word>, Fault> {
        let mut lines = Listing::new(self.alloc());
        self.add_unlike(&LINES, &mut lines)?;
        for line in FOLDER_LINES {
            if self.is_line_other(line)? {
                lines.push(Word::from_bytes(self.alloc(), line)?)?;
            }
        }
        if !options.is_empty() {
            self.with(options).add_unlike(&MACHINE_LINES, &mut lines)?;
        }
        Ok(lines)
    }

    /// Whether the gcc compiles with its options.
    pub fn compiles(self) -> Result<bool, Fault> {
        Ok(self.ask(b"-### -c x.c -o made")?.is_done)
    }

    /// Adds the options with which a line would be carried out otherwise, each as a pattern names it.
    fn add_chosen(
        self,
        line: &[u8],
        options: &[u8],
        others: &mut Listing<Word>,
    ) -> Result<(), Fault> {
        for option in split(self.alloc(), options)?.as_slice() {
            if self.with(option.as_bytes()).is_line_other(line)? {
                others.push(pattern_of(self, option.as_bytes())?)?;
            }
        }
        Ok(())
    }

    /// The options for no machine that this driver would carry out otherwise, each as a pattern
    /// names it.
    pub fn chosen_otherwise(self) -> Result<Listing<Word>, Fault> {
        let mut others = Listing::new(self.alloc());
        self.add_chosen(LINKED, LINK_OPTIONS, &mut others)?;
        self.add_chosen(COMPILED, COMPILE_OPTIONS, &mut others)?;
        Ok(others)
    }

    /// The options that the gcc lacks because its texts don't name them.
    pub fn unnamed_options(self) -> Result<Listing<Word>, Fault> {
        let named = split(self.alloc(), NAMED)?;
        let refusals = Refusals::of(self, named.as_slice())?;
        let mut lacking = Listing::new(self.alloc());
        for option in named.into_vec() {
            if has_word(refusals.lacking.as_slice(), option.as_bytes()) {
                lacking.push(option)?;
            }
        }
        Ok(lacking)
    }
}
