//! Copies of vendors' spec files in gcc's folders that have forms which this driver has in other
//! words. The copy is found before the file by its name.

use crate::asking::{Gcc, text};
use crate::fault::Fault;
use crate::finding::has_word;
use crate::gluing::unglue;
use crate::parts::add_body_line;
use crate::programs::names_in;
use crate::texts::{add_all, has_bytes, joined};
use drv_dump::{Kind, Piece, read_text, translate_vendors};
use drv_words::{Listing, Word};
use std::alloc::Global;
use std::fs;

/// The ending of the folder beside a spec file that has the copies.
pub const COPIES: &[u8] = b".vendors/";

/// A vendor's file in this driver's words.
#[derive(Drop)]
pub struct VendorsFile {
    /// Its name.
    pub name: Word,
    /// Its texts in this driver's words.
    pub content: Word,
    /// Options that its texts test.
    pub options: Listing<Word>,
    /// Whether its texts look for a file in a folder.
    pub has_folders: bool,
}

/// A file that is translated line by line.
#[derive(Drop)]
struct Translating {
    content: Word,
    options: Listing<Word>,
    has_folders: bool,
    /// The body of the text that is read, if one is.
    open: Option<Word>,
    is_lost: bool,
}

/// The name of the text that a line begins, if it begins one.
fn name_of(line: &[u8]) -> Option<&[u8]> {
    match line {
        [b'#' | b'%' | b' ' | b'\t', ..] => None,
        _ => line.strip_suffix(b":".as_slice()),
    }
}

/// Whether a line is a text of one line with its name.
fn is_whole_text(line: &[u8]) -> bool {
    line.starts_with(b"*") && name_of(line).is_none()
}

/// The option that a test of a text is for.
fn option_of(alloc: Global, test: &[u8]) -> Result<Word, Fault> {
    match test.strip_suffix(b"*".as_slice()) {
        Some(beginning) => joined(alloc, &[b"-", beginning, b"x"]),
        None => joined(alloc, &[b"-", test]),
    }
}

/// Whether a text looks for a file in a folder (`FOLDER/FILE%s`): gcc finds it along its folders, and
/// this driver looks for no name with a slash.
fn has_folders(alloc: Global, body: &[u8]) -> bool {
    let Ok(pieces) = read_text(alloc, body) else {
        return body.contains(&b'/');
    };
    pieces.as_slice().windows(2).any(is_in_folder)
}

/// Whether the first of two pieces ends in a name with a slash, which the second looks for.
fn is_in_folder(pieces: &[Piece]) -> bool {
    let [name, next, ..] = pieces else {
        return false;
    };
    let mut words = name
        .bytes
        .as_bytes()
        .rsplit(|byte| byte.is_ascii_whitespace());
    let last = words.next().unwrap_or(b"");
    let is_found = matches!(next.bytes.as_bytes(), b"%s" | b"%O");
    is_found && last.contains(&b'/') && !last.starts_with(b"/")
}

/// Adds the options that a text tests.
fn add_options(alloc: Global, body: &[u8], options: &mut Listing<Word>) -> Result<(), Fault> {
    let Ok(pieces) = read_text(alloc, body) else {
        return Ok(());
    };
    for piece in pieces.as_slice() {
        if let Kind::Test = piece.kind {
            let option = option_of(alloc, piece.bytes.as_bytes())?;
            if !has_word(options.as_slice(), option.as_bytes()) {
                options.push(option)?;
            }
        }
    }
    Ok(())
}

/// A text in this driver's words; none if it can't be put so.
fn translate(alloc: Global, body: &[u8]) -> Result<Option<Word>, Fault> {
    match translate_vendors(alloc, body) {
        Ok(words) => unglue(alloc, words),
        Err(_) => Ok(None),
    }
}

impl Translating {
    /// A file of which nothing is read.
    fn new(alloc: Global) -> Translating {
        Translating {
            content: Word::empty(alloc),
            options: Listing::new(alloc),
            has_folders: false,
            open: None,
            is_lost: false,
        }
    }

    /// Adds a line.
    fn push_line(&mut self, line: &[u8]) -> Result<(), Fault> {
        add_all(&mut self.content, &[line, b"\n"])
    }

    /// Adds a text that was read.
    fn push_text(&mut self, alloc: Global, body: &[u8]) -> Result<(), Fault> {
        add_options(alloc, body, &mut self.options)?;
        self.has_folders = self.has_folders || has_folders(alloc, body);
        let Some(words) = translate(alloc, body)? else {
            self.is_lost = true;
            return Ok(());
        };
        self.push_line(words.as_bytes())
    }

    /// Ends the text that is open.
    fn end_text(&mut self, alloc: Global) -> Result<(), Fault> {
        if let Some(body) = self.open.take() {
            self.push_text(alloc, body.as_bytes())?;
        }
        Ok(())
    }

    /// Reads a line that is in no text.
    fn read_other(&mut self, alloc: Global, line: &[u8]) -> Result<(), Fault> {
        self.is_lost = self.is_lost || is_whole_text(line);
        if name_of(line).is_some() {
            self.open = Some(Word::empty(alloc));
        }
        self.push_line(line)
    }

    /// Reads a line.
    fn read(&mut self, alloc: Global, line: &[u8]) -> Result<(), Fault> {
        if line.trim_ascii().is_empty() {
            self.end_text(alloc)?;
            return self.push_line(b"");
        }
        if let Some(body) = &mut self.open {
            return add_body_line(body, line);
        }
        self.read_other(alloc, line)
    }
}

/// The copy of a vendor's file of this name; none if it needs none, or if a text can't be put into
/// this driver's words. One that looks for a file in a folder has a copy, but lines with it are refused.
fn copy_of(alloc: Global, name: &Word, content: &[u8]) -> Result<Option<VendorsFile>, Fault> {
    let mut it = Translating::new(alloc);
    for line in content.split(|byte| *byte == b'\n') {
        it.read(alloc, line)?;
    }
    it.end_text(alloc)?;
    let is_needed = has_bytes(content, b"%M") || has_bytes(it.content.as_bytes(), b"-gdrv-define=");
    if !it.has_folders && (it.is_lost || !is_needed) {
        return Ok(None);
    }
    Ok(Some(VendorsFile {
        name: name.clone()?,
        content: it.content,
        options: it.options,
        has_folders: it.has_folders,
    }))
}

/// Adds the copies of a folder's files, but of those whose names an earlier folder has.
fn add_copies(
    rt: &HostRuntime,
    folder: &Word,
    seen: &mut Listing<Word>,
    copies: &mut Listing<VendorsFile>,
) -> Result<(), Fault> {
    for name in names_in(rt, folder)?.into_vec() {
        let path = joined(rt.alloc(), &[folder.as_bytes(), name.as_bytes()])?;
        let is_specs = name.as_bytes().ends_with(b".specs");
        if is_specs && !has_word(seen.as_slice(), name.as_bytes()) {
            if let Ok(content) = fs::read(rt, text(path.as_bytes())?)
                && let Some(copy) = copy_of(rt.alloc(), &name, content.as_slice())?
            {
                copies.push(copy)?;
            }
            seen.push(name)?;
        }
    }
    Ok(())
}

/// The copies of the vendors' files in these folders.
pub fn copies_in(rt: &HostRuntime, folders: &[Word]) -> Result<Listing<VendorsFile>, Fault> {
    let mut seen = Listing::new(rt.alloc());
    let mut copies = Listing::new(rt.alloc());
    for folder in folders {
        add_copies(rt, folder, &mut seen, &mut copies)?;
    }
    Ok(copies)
}

/// The lines that are compared with each copy.
const LINES: [&[u8]; 3] = [
    b"-c x.c -o made -specs=",
    b"-c x.S -o made -specs=",
    b"x.c -o made -specs=",
];

/// The line with a copy that is compared with each option of its texts, and for each library.
const LINKED: [&[u8]; 1] = [b"x.c -o made -specs="];

impl<'a> Gcc<'a> {
    /// Whether one of some lines with a spec file of this name and one of these options has another
    /// plan than gcc's.
    fn is_other_with(self, lines: &[&[u8]], name: &Word, options: &[Word]) -> Result<bool, Fault> {
        for line in lines {
            let whole = joined(self.alloc(), &[*line, name.as_bytes()])?;
            for option in options {
                if self
                    .with(option.as_bytes())
                    .is_line_other(whole.as_bytes())?
                {
                    return Ok(true);
                }
            }
        }
        Ok(false)
    }

    /// Whether a line with the copy has another plan, for one of these options for machines or none.
    pub fn is_copy_other(self, copy: &VendorsFile, keys: &[Word]) -> Result<bool, Fault> {
        let none = [Word::empty(self.alloc())];
        Ok(
            self.is_other_with(&LINES, &copy.name, &none)?
                || self.is_other_with(&LINKED, &copy.name, copy.options.as_slice())?
                || self.is_other_with(&LINKED, &copy.name, keys)?,
        )
    }
}
