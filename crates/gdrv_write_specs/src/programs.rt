//! The programs of a gcc, and where programs are.

use crate::asking::{Gcc, text};
use crate::fault::Fault;
use crate::finding::{word_after, word_beginning};
use crate::texts::{add_all, joined, sorted_lines};
use crate::work_folder::absolute;
use drv_gcc::{Finding, Linker, Program, Programs};
use drv_words::{Listing, Word, base};
use std::env::var;
use std::fs;

/// The linkers that `-fuse-ld=` names.
const LINKERS: [&[u8]; 4] = [b"bfd", b"gold", b"lld", b"mold"];

/// Whether a plain file is at a path.
pub fn is_file(rt: &HostRuntime, path: &Word) -> Result<bool, Fault> {
    match fs::metadata(rt, text(path.as_bytes())?) {
        Ok(found) => Ok(found.is_file()),
        Err(_) => Ok(false),
    }
}

/// Whether a folder is at a path.
pub fn is_folder(rt: &HostRuntime, path: &[u8]) -> Result<bool, Fault> {
    match fs::metadata(rt, text(path)?) {
        Ok(found) => Ok(found.is_dir()),
        Err(_) => Ok(false),
    }
}

/// The names in a folder, sorted.
pub fn names_in(rt: &HostRuntime, folder: &Word) -> Result<Listing<Word>, Fault> {
    let mut names = Word::empty(rt.alloc());
    for entry in fs::read_dir(rt, text(folder.as_bytes())?)? {
        let found = entry?;
        add_all(&mut names, &[found.file_name().as_bytes(), b"\n"])?;
    }
    sorted_lines(rt.alloc(), names.as_bytes())
}

/// The path of a program that is looked for along PATH, or that has a path; none where it isn't
/// there.
pub fn program_at(rt: &HostRuntime, name: &Word) -> Result<Option<Word>, Fault> {
    if name.as_bytes().contains(&b'/') {
        let path = absolute(rt, name)?;
        let is_there = is_file(rt, &path)?;
        return Ok(Some(path).filter(|_| is_there));
    }
    let Ok(folders) = var(rt, "PATH") else {
        return Ok(None);
    };
    for folder in folders.as_bytes().split(|byte| *byte == b':') {
        let path = joined(rt.alloc(), &[folder, b"/", name.as_bytes()])?;
        if is_file(rt, &path)? {
            return Ok(Some(absolute(rt, &path)?));
        }
    }
    Ok(None)
}

/// Where gcc finds a program of this name that it shows so. One of another name is at the place with
/// which gcc was built: its options look for no such name.
fn finding_of(name: &[u8], shown: &[u8]) -> Finding {
    if !shown.contains(&b'/') {
        Finding::Along
    } else if base(shown) == name {
        Finding::Own
    } else {
        Finding::Fixed
    }
}

impl<'a> Gcc<'a> {
    /// A program of this name that gcc shows so: by its path, or by its plain name.
    fn program(self, name: &[u8], shown: &Word) -> Result<Program, Fault> {
        let finding = finding_of(name, shown.as_bytes());
        let found = match finding {
            Finding::Along => program_at(self.rt, shown)?,
            Finding::Own | Finding::Fixed => None,
        };
        Ok(Program {
            path: found.unwrap_or(shown.clone()?),
            finding,
        })
    }

    /// A program of this name.
    fn program_named(self, name: &[u8]) -> Result<Program, Fault> {
        self.program(name, &self.answer(b"-print-prog-name=", name)?)
    }

    /// The linkers of `-fuse-ld=` in gcc's own folders.
    fn linkers(self) -> Result<Listing<Linker>, Fault> {
        let mut linkers = Listing::new(self.alloc());
        for name in LINKERS {
            let path = self.answer(b"-print-prog-name=ld.", name)?;
            if path.as_bytes().contains(&b'/') {
                linkers.push(Linker {
                    name: Word::from_bytes(self.alloc(), name)?,
                    path,
                })?;
            }
        }
        Ok(linkers)
    }

    /// The programs: those of the plan of a compilation, and those that gcc names.
    pub fn programs(self, cc1: &Word, assembler: &Word, link: &[Word]) -> Result<Programs, Fault> {
        let wrapper = word_beginning(self.alloc(), link, b"-plugin-opt=/")?;
        let wrapper = wrapper.as_bytes().strip_prefix(b"-plugin-opt=".as_slice());
        Ok(Programs {
            compiler: self.program(b"cc1", cc1)?,
            assembler: self.program(b"as", assembler)?,
            objcopy: self.program_named(b"objcopy")?,
            linker: self.program_named(b"ld")?,
            linkers: self.linkers()?,
            plugin: word_after(self.alloc(), link, b"-plugin")?,
            lto_wrapper: Word::from_bytes(self.alloc(), wrapper.unwrap_or(b""))?,
            plugin_folder: self.answer(b"-print-file-name=", b"plugin")?,
        })
    }
}
