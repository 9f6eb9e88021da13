//! What is known of a gcc is gathered from its answers.

use crate::asking::Gcc;
use crate::choosing::{Chooser, choosers_of, key_by, push_choosers};
use crate::fault::Fault;
use crate::finding::{command_named, has_word, word_beginning};
use crate::libraries::{Libraries, LibraryText, only, paths_of};
use crate::natives::{row_values, with_natives};
use crate::programs::is_folder;
use crate::rows::{Row, rows_of};
use crate::texts::{cut_at, has_bytes, joined};
use crate::vendors::{VendorsFile, copies_in};
use crate::wording::{own_records, with_other_words};
use drv_dump::{OurDump, pass_libraries, translate_dump};
use drv_gcc::{Alone, NamedText, Programs, SideFiles, Toolchain, named_texts, replace, values};
use drv_words::{Listing, Word};
use std::alloc::Global;

/// A spec file that shows what the folders of gcc are (`%I`, `%D`).
pub const PROBE: &[u8] =
    b"*link_command:\nPROBE-D %D\n\n*cpp_unique_options:\nPROBE-I %I PROBE-END\n\n";

/// The line of a compilation whose plan names the programs and the folders.
const COMPILING: &[u8] = b"-### -c x.c -o x.o";

/// How texts begin that name a file.
const FILE: &[u8] = b"%(file_";

/// Files that tell which of gcc's folders are of use.
const FILES: [&[u8]; 4] = [b"libgcc.a", b"crti.o", b"crt0.o", b"nosys.specs"];

/// Programs that tell it, too.
const PROGRAMS: [&[u8]; 4] = [b"cc1", b"as", b"ld", b"objcopy"];

/// Whether some of these files are in a folder.
fn is_used(folder: &[u8], files: &[Word]) -> bool {
    files.iter().any(|file| match file.as_bytes().strip_prefix(folder) {
        Some(name) => !name.contains(&b'/') && !name.is_empty(),
        None => false,
    })
}

/// What is known of a gcc.
#[derive(Drop)]
pub struct Gathered {
    /// What its spec file is made of.
    pub toolchain: Toolchain,
    /// The names of those of its texts that refuse their lines.
    pub lacking: Listing<Word>,
    /// The copies of vendors' spec files in its folders.
    pub copies: Listing<VendorsFile>,
    /// The options for no machine that are in the keys of rows.
    pub choosers: Listing<Chooser>,
    /// Its rows.
    pub rows: Listing<Row>,
    /// The key of the options that the user names.
    pub key: Word,
}

/// The texts of a dump in this driver's language, and of it what they lack.
#[derive(Drop)]
struct Translated {
    texts: Word,
    passed: Word,
    lacking: Listing<Word>,
    probes: Listing<Word>,
}

impl<'a> Gcc<'a> {
    /// Its texts in this driver's language.
    fn translate(self) -> Result<Translated, Fault> {
        let alloc = self.alloc();
        let (dump, probes) = with_natives(self, self.own_texts()?)?;
        let (Ok(OurDump { texts, refused }), Ok(passed)) = (
            translate_dump(alloc, dump.as_bytes()),
            pass_libraries(alloc, dump.as_bytes()),
        ) else {
            return Err(Fault::BadDump(self.path.clone()?));
        };
        Ok(Translated {
            texts: with_other_words(alloc, &texts)?,
            passed,
            lacking: refused,
            probes,
        })
    }

    /// What the assembler is given for `-g`; empty if nothing.
    fn records(self) -> Result<Word, Fault> {
        let planned = self.plan(b"-### -g -c x.c -o x.o")?;
        let assembler = command_named(planned.as_slice(), b"as");
        word_beginning(self.alloc(), assembler, b"--gdwarf")
    }

    /// Whether a link is given the root that its line names.
    fn is_rooted(self) -> Result<bool, Fault> {
        let root = joined(self.alloc(), &[b"--sysroot=", self.work.root.as_bytes()])?;
        let link = self.link(root.as_bytes())?;
        let given = word_beginning(self.alloc(), link.as_slice(), b"--sysroot=")?;
        Ok(given.as_bytes() == root.as_bytes())
    }

    /// The programs by the plans of a compilation and of a link.
    fn all_programs(self) -> Result<Programs, Fault> {
        let compiling = self.plan(COMPILING)?;
        let link = self.link(b"")?;
        match (
            command_named(compiling.as_slice(), b"cc1"),
            command_named(compiling.as_slice(), b"as"),
            link.as_slice(),
        ) {
            ([cc1, ..], [assembler, ..], [_, ..]) => self.programs(cc1, assembler, link.as_slice()),
            _ => Err(Fault::NoPlan(self.path.clone()?)),
        }
    }

    /// The programs and files that the texts name by these names, and others that tell which folders
    /// are of use.
    fn files(self, names: &[Word]) -> Result<Listing<Word>, Fault> {
        let mut files = paths_of(self, names)?;
        for name in FILES {
            files.push(self.path_of(name)?)?;
        }
        for name in PROGRAMS {
            files.push(self.answer(b"-print-prog-name=", name)?)?;
        }
        Ok(files)
    }

    /// The folders in which it looks for programs and for files, of those that are there and have some
    /// that the texts name: each once.
    fn folders(self, names: &[Word]) -> Result<Listing<Word>, Fault> {
        let shown = self.ask(COMPILING)?.err;
        let files = self.files(names)?;
        let mut folders = Listing::new(self.alloc());
        for key in [b"COMPILER_PATH=".as_slice(), b"LIBRARY_PATH="] {
            for path in values(self.alloc(), key, shown.as_bytes())?.as_slice() {
                for folder in path.as_bytes().split(|byte| *byte == b':') {
                    if is_used(folder, files.as_slice())
                        && is_folder(self.rt, folder)?
                        && !has_word(folders.as_slice(), folder)
                    {
                        folders.push(Word::from_bytes(self.alloc(), folder)?)?;
                    }
                }
            }
        }
        Ok(folders)
    }

    /// The options that are refused: those that it lacks, and those that name a vendor's file which looks
    /// for a file in a folder.
    fn refused_with(self, copies: &[VendorsFile]) -> Result<Listing<Word>, Fault> {
        let mut refused = self.unnamed_options()?;
        for copy in copies {
            if copy.has_folders {
                refused.push(joined(self.alloc(), &[b"-specs=", copy.name.as_bytes()])?)?;
            }
        }
        Ok(refused)
    }

    /// The named texts: of files, of what functions give, and of the records of an assembly.
    fn named(self, libraries: &Libraries, probes: &[Word]) -> Result<Listing<NamedText>, Fault> {
        let alloc = self.alloc();
        let mut named = libraries.named(alloc)?;
        row_values(alloc, probes, &mut named)?;
        named.push(NamedText {
            name: Word::from_bytes(alloc, b"own_records")?,
            choice: only(alloc, own_records(alloc, self.records()?.as_bytes())?),
        })?;
        Ok(named)
    }
}

/// What x86's texts say of lines with `-march=native`, which no line without the front has.
const OF_NATIVE: &[u8] = b"%{!mtune=*:%>mtune=native";

/// Whether texts test a switch, which begins so.
fn have_test(alloc: Global, texts: &[u8], switch: &[u8]) -> Result<bool, Fault> {
    for before in [b"{".as_slice(), b"|", b";", b"!", b"&"] {
        if has_bytes(texts, joined(alloc, &[before, switch])?.as_bytes()) {
            return Ok(true);
        }
    }
    Ok(false)
}

/// Whether texts test a word that gcc adds for its machine, or one with its name and any value.
fn test_word(alloc: Global, texts: &[u8], word: &[u8]) -> Result<bool, Fault> {
    let switch = word.get(1..).unwrap_or(b"");
    let any = joined(alloc, &[cut_at(b'=', switch).0, b"=*"])?;
    Ok(
        have_test(alloc, texts, switch)?
            || (switch.contains(&b'=') && have_test(alloc, texts, any.as_bytes())?),
    )
}

/// What a line without the front gets: the words of the row for no options, unless texts have tests
/// of them, or the front alone knows some.
fn alone_by(alloc: Global, texts: &[u8], rows: &[Row]) -> Result<Alone, Fault> {
    let [row, ..] = rows else {
        return Ok(Alone::Refused);
    };
    let other = replace(alloc, texts, OF_NATIVE, b"")?;
    for word in row.words.as_slice() {
        let is_front = word.as_bytes().starts_with(b"--gdrv-");
        if is_front || test_word(alloc, other.as_bytes(), word.as_bytes())? {
            return Ok(Alone::Refused);
        }
    }
    Ok(Alone::Served(row.words.clone()?))
}

/// How texts name side files.
fn side_files_of(texts: &[u8]) -> SideFiles {
    if has_bytes(texts, b"%(dump_words)") {
        SideFiles::Front
    } else {
        SideFiles::Source
    }
}

/// What the spec file of a gcc with these texts, programs, folders and rows is made of.
fn toolchain_of(
    gcc: Gcc<'_>,
    translated: &Translated,
    programs: Programs,
    folders: Listing<Word>,
    copies: &[VendorsFile],
    rows: &[Row],
) -> Result<Toolchain, Fault> {
    let alloc = gcc.alloc();
    let texts = translated.texts.as_bytes();
    let libraries = Libraries::of(gcc, named_texts(alloc, FILE, texts)?)?;
    Ok(Toolchain {
        texts: translated.texts.clone()?,
        passed: translated.passed.clone()?,
        named: gcc.named(&libraries, translated.probes.as_slice())?,
        included: gcc.included_by(texts)?,
        folders,
        sysroot: word_beginning(alloc, gcc.link(b"")?.as_slice(), b"--sysroot=")?,
        is_rooted: gcc.is_rooted()?,
        include_words: libraries.choice(alloc, LibraryText::Headers)?,
        link_folders: libraries.choice(alloc, LibraryText::Libraries)?,
        programs,
        refused: gcc.refused_with(copies)?,
        alone: alone_by(alloc, texts, rows)?,
        library: libraries.folder_text(alloc)?,
        side_files: side_files_of(texts),
    })
}

/// The key of these options where a gcc has these choosers.
fn key_of(alloc: Global, choosers: &[Chooser], options: &[Word]) -> Result<Word, Fault> {
    let mut lines = Word::empty(alloc);
    push_choosers(&mut lines, choosers)?;
    key_by(alloc, lines.as_bytes(), options)
}

/// Asks a gcc for all that its spec file is made of, and for its rows, also for that of these
/// options.
pub fn gather(gcc: Gcc<'_>, options: &[Word]) -> Result<Gathered, Fault> {
    let alloc = gcc.alloc();
    let translated = gcc.translate()?;
    let programs = gcc.all_programs()?;
    let names = named_texts(alloc, FILE, translated.texts.as_bytes())?;
    let folders = gcc.folders(names.as_slice())?;
    let copies = copies_in(gcc.rt, folders.as_slice())?;
    let choosers = choosers_of(gcc)?;
    let key = key_of(alloc, choosers.as_slice(), options)?;
    let probes = translated.probes.as_slice();
    let rows = rows_of(gcc, probes, folders.as_slice(), choosers.as_slice(), &key)?;
    let vendors = copies.as_slice();
    let toolchain = toolchain_of(
        gcc,
        &translated,
        programs,
        folders,
        vendors,
        rows.as_slice(),
    )?;
    Ok(Gathered {
        toolchain,
        lacking: translated.lacking,
        copies,
        choosers,
        rows,
        key,
    })
}
