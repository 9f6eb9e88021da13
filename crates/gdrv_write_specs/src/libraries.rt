//! What a gcc finds for libraries: its own, and each in a folder of their own.

use crate::asking::Gcc;
use crate::fault::Fault;
use crate::finding::{command_named, words_between};
use crate::natives::write_specs;
use crate::rows::{folder_switch, library_of, multilibs};
use crate::texts::{add_all, joined, numbered};
use crate::work_folder::make_all;
use drv_gcc::{
    Choice, ForMachine, NamedText, file_text, folder_text, libraries, placed_text, rooted_text,
    values, words_text,
};
use drv_words::{Listing, Word};
use itoa::Buffer;
use std::alloc::Global;

/// The texts for the folders of headers and of libraries.
#[derive(Drop)]
struct Folders {
    headers: Word,
    libraries: Word,
}

/// What a gcc finds for libraries: texts, but for their folder.
#[derive(Drop)]
pub struct Facts {
    /// The folder of the libraries; empty for the gcc's own.
    folder: Word,
    /// What the compiler and the linker get for their folders.
    shown: Folders,
    /// Where it has the files that its texts name.
    places: Listing<Word>,
}

/// One of these texts.
#[derive(Clone, Copy)]
pub enum LibraryText {
    /// Where a file of this number is.
    Place(usize),
    /// What the compiler gets.
    Headers,
    /// What the linker gets.
    Libraries,
}

/// The folders that gcc looks for below a root are made there.
fn make_below(gcc: Gcc<'_>, root: &Word) -> Result<(), Fault> {
    let line = [b"-print-search-dirs --sysroot=".as_slice(), root.as_bytes()];
    let said = gcc.ask(joined(gcc.alloc(), &line)?.as_bytes())?;
    for path in values(gcc.alloc(), b"libraries: ", said.out.as_bytes())?.as_slice() {
        let folders = path.as_bytes().strip_prefix(b"=".as_slice());
        for folder in folders
            .unwrap_or(path.as_bytes())
            .split(|byte| *byte == b':')
        {
            if folder.starts_with(root.as_bytes()) {
                make_all(gcc.rt, folder)?;
            }
        }
    }
    Ok(())
}

/// The text for these words, of which one names gcc's own folder, and the last is apart.
fn libraries_of(alloc: Global, own: &Word, words: &[Word]) -> Result<Word, Fault> {
    let Some((last, folders)) = words.split_last() else {
        return Ok(libraries(alloc, &[], &[], b"")?);
    };
    let own_word = joined(alloc, &[b"-L".as_slice(), own.as_bytes()])?;
    let found = folders
        .iter()
        .position(|it| it.as_bytes() == own_word.as_bytes());
    let (before, rest) = folders.split_at(found.unwrap_or(0).min(folders.len()));
    Ok(libraries(alloc, before, rest, last.as_bytes())?)
}

/// The texts for the folders that gcc shows with these words.
fn folders_with(gcc: Gcc<'_>, own: &Word, words: &[u8]) -> Result<Folders, Fault> {
    let alloc = gcc.alloc();
    let line = joined(alloc, &[b"-### -specs=probe x.c -o x ".as_slice(), words])?;
    let probed = gcc.plan(line.as_bytes())?;
    let compiler = command_named(probed.as_slice(), b"cc1");
    let linker = command_named(probed.as_slice(), b"PROBE-D");
    Ok(Folders {
        headers: words_text(alloc, words_between(compiler, b"PROBE-I", b"PROBE-END"))?,
        libraries: libraries_of(alloc, own, words_between(linker, b"PROBE-D", b""))?,
    })
}

/// How many bytes two texts begin with alike, up to the end of a word outside of braces.
fn common_start(one: &[u8], other: &[u8]) -> usize {
    let mut end = 0;
    let mut depth = 0usize;
    let mut is_escaped = false;
    for (at, byte) in one.iter().enumerate() {
        if other.get(at) != Some(byte) {
            return end;
        }
        match byte {
            b'{' => depth = depth.saturating_add(1),
            b'}' => depth = depth.saturating_sub(1),
            b' ' if depth == 0 && !is_escaped => end = at.saturating_add(1),
            _ => {}
        }
        is_escaped = *byte == b'\\' && !is_escaped;
    }
    end
}

/// A word in a text of words.
fn text_of(alloc: Global, word: &Word) -> Result<Word, Fault> {
    let one = [word.clone()?];
    let written = words_text(alloc, &one)?;
    Ok(Word::from_bytes(alloc, written.as_bytes().trim_ascii())?)
}

/// A text, or one with parts for lines with another root and without one.
fn maybe_rooted(alloc: Global, plain: Word, rooted: &Word, root: &Word) -> Result<Word, Fault> {
    if plain.as_bytes() == rooted.as_bytes() {
        return Ok(plain);
    }
    let end = common_start(plain.as_bytes(), rooted.as_bytes());
    let (start, own) = plain.as_bytes().split_at(end.min(plain.len()));
    let below = rooted.as_bytes().get(end..).unwrap_or(b"");
    let name = text_of(alloc, root)?;
    let rest = rooted_text(alloc, own, below, name.as_bytes())?;
    joined(alloc, &[start, rest.as_bytes()])
}

/// The texts for the folders, also with another root.
fn all_folders(gcc: Gcc<'_>, own: &Word) -> Result<Folders, Fault> {
    let alloc = gcc.alloc();
    let root = &gcc.work.root;
    make_below(gcc, root)?;
    let words = joined(alloc, &[b"--sysroot=".as_slice(), root.as_bytes()])?;
    let plain = folders_with(gcc, own, b"")?;
    let rooted = folders_with(gcc, own, words.as_bytes())?;
    Ok(Folders {
        headers: maybe_rooted(alloc, plain.headers, &rooted.headers, root)?,
        libraries: maybe_rooted(alloc, plain.libraries, &rooted.libraries, root)?,
    })
}

/// The folder of a file of this name, with its slash.
fn folder_of<'a>(path: &'a [u8], name: &[u8]) -> Option<&'a [u8]> {
    path.strip_suffix(name)
        .filter(|folder| folder.ends_with(b"/"))
}

/// The number of a folder in a list, which then has it.
fn number_of(alloc: Global, folders: &mut Listing<Word>, folder: &[u8]) -> Result<usize, Fault> {
    let mut known = folders.as_slice().iter();
    if let Some(number) = known.position(|it| it.as_bytes() == folder) {
        return Ok(number);
    }
    let number = folders.len();
    folders.push(Word::from_bytes(alloc, folder)?)?;
    Ok(number)
}

/// The text that finds a file that gcc has at a path, if it does.
fn own_place(
    alloc: Global,
    name: &[u8],
    path: &[u8],
    folders: &mut Listing<Word>,
) -> Result<Word, Fault> {
    let Some(folder) = folder_of(path, name) else {
        return Ok(file_text(alloc, name, path)?);
    };
    let number = number_of(alloc, folders, folder)?;
    Ok(placed_text(alloc, name, Buffer::new().format(number).as_bytes())?)
}

/// The paths of files of these names; empty where gcc doesn't find one. It is asked for all at once,
/// by a spec file, and for one that it doesn't show so by itself.
pub fn paths_of(gcc: Gcc<'_>, names: &[Word]) -> Result<Listing<Word>, Fault> {
    let mut specs = Word::from_bytes(gcc.alloc(), b"*link_command:\nPROBE-F")?;
    for name in names {
        add_all(&mut specs, &[b" ", name.as_bytes(), b"%s"])?;
    }
    specs.extend_from_slice(b"\n\n")?;
    write_specs(gcc, b"files", &specs)?;
    let planned = gcc.plan(b"-### x.o -o x -specs=files")?;
    let mut shown = command_named(planned.as_slice(), b"PROBE-F").iter().skip(1);
    let mut paths = Listing::new(gcc.alloc());
    for name in names {
        paths.push(match shown.next() {
            Some(path) if path.as_bytes().starts_with(b"/") => path.clone()?,
            Some(_) => Word::empty(gcc.alloc()),
            None => gcc.path_of(name.as_bytes())?,
        })?;
    }
    Ok(paths)
}

/// The text that finds a file that gcc has at a path. In a fixed place, and for libraries in a folder
/// of their own, one that it doesn't find has its plain name.
fn place(
    gcc: Gcc<'_>,
    name: &Word,
    path: &Word,
    folders: &mut Listing<Word>,
) -> Result<Word, Fault> {
    if gcc.options.is_empty() && !gcc.has_fixed_places()? {
        return own_place(gcc.alloc(), name.as_bytes(), path.as_bytes(), folders);
    }
    text_of(gcc.alloc(), if path.is_empty() { name } else { path })
}

/// The folder of gcc's own library.
fn own_folder(gcc: Gcc<'_>) -> Result<Word, Fault> {
    let path = gcc.path_of(b"libgcc.a")?;
    let folder = path.as_bytes().strip_suffix(b"/libgcc.a".as_slice());
    Ok(Word::from_bytes(gcc.alloc(), folder.unwrap_or(b""))?)
}

impl Facts {
    /// What gcc finds with its options, which are those of the libraries in this folder; empty for
    /// its own. The folders are those that the texts have by their numbers.
    fn of(
        gcc: Gcc<'_>,
        names: &[Word],
        folder: Word,
        folders: &mut Listing<Word>,
    ) -> Result<Facts, Fault> {
        let shown = all_folders(gcc, &own_folder(gcc.with(b""))?)?;
        let mut places = Listing::new(gcc.alloc());
        let paths = paths_of(gcc, names)?;
        for (name, path) in names.iter().zip(paths.as_slice()) {
            places.push(place(gcc, name, path, folders)?)?;
        }
        Ok(Facts {
            folder,
            shown,
            places,
        })
    }

    /// One of the texts.
    fn text(&self, part: LibraryText) -> &[u8] {
        match part {
            LibraryText::Place(n) => match self.places.as_slice().get(n) {
                Some(place) => place.as_bytes(),
                None => b"",
            },
            LibraryText::Headers => self.shown.headers.as_bytes(),
            LibraryText::Libraries => self.shown.libraries.as_bytes(),
        }
    }
}

/// The libraries of a gcc.
#[derive(Drop)]
pub struct Libraries {
    /// The files that its texts name.
    names: Listing<Word>,
    /// The folders that these texts have by their numbers.
    folders: Listing<Word>,
    /// Its own.
    own: Facts,
    /// Those in folders of their own.
    others: Listing<Facts>,
}

impl Libraries {
    /// What a gcc finds for its libraries, of the files that its texts name.
    pub fn of(gcc: Gcc<'_>, names: Listing<Word>) -> Result<Libraries, Fault> {
        let alloc = gcc.alloc();
        let mut folders = Listing::new(alloc);
        let own = Facts::of(gcc, names.as_slice(), Word::empty(alloc), &mut folders)?;
        let mut others = Listing::new(alloc);
        for options in multilibs(gcc)?.as_slice() {
            let other = gcc.with(options.as_bytes());
            let folder = library_of(other)?;
            others.push(Facts::of(other, names.as_slice(), folder, &mut folders)?)?;
        }
        Ok(Libraries {
            names,
            folders,
            own,
            others,
        })
    }

    /// A text for the gcc's own libraries, and those of which it is another one.
    pub fn choice(&self, alloc: Global, part: LibraryText) -> Result<Choice, Fault> {
        let mut others = Listing::new(alloc);
        for it in self.others.as_slice() {
            if it.text(part) != self.own.text(part) {
                others.push(ForMachine {
                    test: folder_switch(alloc, &it.folder)?,
                    text: Word::from_bytes(alloc, it.text(part))?,
                })?;
            }
        }
        let own = Word::from_bytes(alloc, self.own.text(part))?;
        Ok(Choice { own, others })
    }

    /// The named texts of files, and of their folders.
    pub fn named(&self, alloc: Global) -> Result<Listing<NamedText>, Fault> {
        let mut texts = Listing::new(alloc);
        for (n, name) in self.names.as_slice().iter().enumerate() {
            texts.push(NamedText {
                name: joined(alloc, &[b"file_".as_slice(), name.as_bytes()])?,
                choice: self.choice(alloc, LibraryText::Place(n))?,
            })?;
        }
        for (n, folder) in self.folders.as_slice().iter().enumerate() {
            texts.push(NamedText {
                name: numbered(alloc, b"in_", n)?,
                choice: only(alloc, folder_text(alloc, folder.as_bytes())?),
            })?;
        }
        Ok(texts)
    }

    /// The text of the folder of a line's library.
    pub fn folder_text(&self, alloc: Global) -> Result<Word, Fault> {
        if self.others.is_empty() {
            return Ok(Word::from_bytes(alloc, b".")?);
        }
        let mut text = Word::from_bytes(alloc, b"%{")?;
        for it in self.others.as_slice() {
            let test = folder_switch(alloc, &it.folder)?;
            add_all(
                &mut text,
                &[test.as_bytes(), b":", it.folder.as_bytes(), b";"],
            )?;
        }
        text.extend_from_slice(b":.}")?;
        Ok(text)
    }
}

/// A text that is the same for each line.
pub fn only(alloc: Global, own: Word) -> Choice {
    Choice {
        own,
        others: Listing::new(alloc),
    }
}
