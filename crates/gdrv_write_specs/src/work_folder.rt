//! The folder in which a spec file is written and tried before it is put in place.

use crate::asking::{Heard, text};
use crate::fault::Fault;
use crate::gathering::PROBE;
use crate::programs::{is_file, is_folder};
use crate::temporary::{new_folder, new_path};
use crate::texts::joined;
use crate::vendors::{COPIES, VendorsFile};
use drv_gcc::with_mark;
use drv_words::{Listing, Word};
use std::alloc::Global;
use std::cell::RefCell;
use std::fs::File;
use std::io::Write;
use std::{env, fs};

/// A folder of temporary files. Its own files are those that gcc-like drivers are tried with.
#[derive(Drop)]
pub struct WorkFolder {
    /// The folder.
    pub path: Word,
    /// The folder in which lines are tried.
    pub lines: Word,
    /// A copy of the driver, which looks for its spec file in this folder.
    pub driver: Word,
    /// A folder that lines name as another root.
    pub root: Word,
    /// The spec file that it finds, without the ending.
    pub stem: Word,
    /// What the gcc that is asked there has said.
    pub heard: RefCell<Listing<Heard>>,
}

/// The source that lines are tried with.
const SOURCE: &[u8] = b"double half(double n) { return n / 2; }\nint main(void) { return 0; }\n";

/// The folders in it.
const FOLDERS: [&[u8]; 7] = [
    b"/lines",
    b"/lines/B",
    b"/lines/B/include",
    b"/root",
    b"/bin",
    b"/share",
    b"/share/gdrv",
];

/// The endings of the parts of a spec file.
const PARTS: [&[u8]; 5] = [b".compile", b".c.compile", b".link", b".all", b".c.all"];

/// The endings of the other files, the spec file last.
const ENDINGS: [&[u8]; 3] = [b".gcc", b".options", b".specs"];

/// A path with this after it.
pub fn join(alloc: Global, path: &Word, more: &[u8]) -> Result<Word, Fault> {
    joined(alloc, &[path.as_bytes(), more])
}

/// A path that is the same from any folder.
pub fn absolute(rt: &HostRuntime, path: &Word) -> Result<Word, Fault> {
    if path.as_bytes().starts_with(b"/") {
        return Ok(path.clone()?);
    }
    let here = env::current_dir(rt)?;
    joined(
        rt.alloc(),
        &[here.as_str().as_bytes(), b"/", path.as_bytes()],
    )
}

/// Writes a file.
pub fn write(rt: &HostRuntime, path: &Word, content: &[u8]) -> Result<(), Fault> {
    match fs::write(rt, text(path.as_bytes())?, content) {
        Ok(()) => Ok(()),
        Err(_) => Err(Fault::NoPlace(path.clone()?)),
    }
}

/// Makes a folder.
fn make_folder(rt: &HostRuntime, path: &Word) -> Result<(), Fault> {
    match fs::create_dir(rt, text(path.as_bytes())?) {
        Ok(()) => Ok(()),
        Err(_) => Err(Fault::NoPlace(path.clone()?)),
    }
}

/// Makes a folder, and those around it.
pub fn make_all(rt: &HostRuntime, path: &[u8]) -> Result<(), Fault> {
    Ok(fs::create_dir_all(rt, text(path)?)?)
}

/// Writes a new file beside its place, and renames it. `stem` is the spec file without its ending.
pub fn put_in_place(rt: &HostRuntime, stem: &Word, to: &Word, content: &[u8]) -> Result<(), Fault> {
    let new = new_path(rt, stem)?;
    let (from, path) = (text(new.as_bytes())?, text(to.as_bytes())?);
    let Ok(mut file) = File::create_new(rt, from) else {
        return Err(Fault::NoPlace(to.clone()?));
    };
    if file.write_all(content).is_ok() && fs::rename(rt, from, path).is_ok() {
        return Ok(());
    }
    let _ = fs::remove_file(rt, from);
    Err(Fault::NoPlace(to.clone()?))
}

/// Whether files can be put in place: one is made there, and removed.
pub fn try_place(rt: &HostRuntime, stem: &Word) -> Result<(), Fault> {
    let new = new_path(rt, stem)?;
    let path = text(new.as_bytes())?;
    if File::create_new(rt, path).is_err() {
        return Err(Fault::NoPlace(join(rt.alloc(), stem, b".specs")?));
    }
    Ok(fs::remove_file(rt, path)?)
}

impl WorkFolder {
    /// The folder at a path, in which nothing is made yet.
    fn at(alloc: Global, path: Word) -> Result<WorkFolder, Fault> {
        Ok(WorkFolder {
            lines: join(alloc, &path, b"/lines")?,
            driver: join(alloc, &path, b"/bin/checked-gdrv-cc")?,
            root: join(alloc, &path, b"/root")?,
            stem: join(alloc, &path, b"/share/gdrv/checked")?,
            heard: RefCell::new(Listing::new(alloc)),
            path,
        })
    }

    /// Makes the folders in it.
    fn make_folders(&self, rt: &HostRuntime) -> Result<(), Fault> {
        for folder in FOLDERS {
            make_folder(rt, &join(rt.alloc(), &self.path, folder)?)?;
        }
        Ok(())
    }

    /// Writes a file that lines are tried with.
    fn write_line_file(&self, rt: &HostRuntime, name: &[u8], content: &[u8]) -> Result<(), Fault> {
        write(rt, &join(rt.alloc(), &self.lines, name)?, content)
    }

    /// Writes the files that lines are tried with.
    fn write_line_files(&self, rt: &HostRuntime) -> Result<(), Fault> {
        for name in [b"/x.c".as_slice(), b"/x.i"] {
            self.write_line_file(rt, name, SOURCE)?;
        }
        for name in [b"/x.s".as_slice(), b"/x.S", b"/x.o"] {
            self.write_line_file(rt, name, b"\t.data\n\t.long 1\n")?;
        }
        self.write_line_file(rt, b"/probe", PROBE)
    }

    /// Copies a driver into it.
    fn copy_driver(&self, rt: &HostRuntime, driver: &Word) -> Result<(), Fault> {
        fs::copy(rt, text(driver.as_bytes())?, text(self.driver.as_bytes())?)?;
        Ok(())
    }

    /// Fills it, with the copy of a driver in it.
    fn fill(&self, rt: &HostRuntime, driver: &Word) -> Result<(), Fault> {
        self.make_folders(rt)?;
        self.copy_driver(rt, driver)?;
        self.write_line_files(rt)
    }

    /// A new folder, with the copy of a driver in it.
    pub fn new(rt: &HostRuntime, driver: &Word) -> Result<WorkFolder, Fault> {
        let work = WorkFolder::at(rt.alloc(), new_folder(rt)?)?;
        match work.fill(rt, driver) {
            Ok(()) => Ok(work),
            Err(fault) => {
                work.remove(rt);
                Err(fault)
            }
        }
    }

    /// Writes a file of this ending, with its mark.
    pub fn put(&self, rt: &HostRuntime, ending: &[u8], content: &Word) -> Result<(), Fault> {
        let path = join(rt.alloc(), &self.stem, ending)?;
        write(rt, &path, with_mark(content)?.as_bytes())
    }

    /// Writes a part of the spec file, or none.
    pub fn put_part(
        &self,
        rt: &HostRuntime,
        ending: &[u8],
        content: Option<Word>,
    ) -> Result<(), Fault> {
        if let Some(content) = content {
            return self.put(rt, ending, &content);
        }
        let path = join(rt.alloc(), &self.stem, ending)?;
        let _ = fs::remove_file(rt, text(path.as_bytes())?);
        Ok(())
    }

    /// Copies the files of a spec file into it.
    pub fn copy_files(&self, rt: &HostRuntime, stem: &Word) -> Result<(), Fault> {
        for ending in PARTS.iter().chain(ENDINGS.iter()) {
            let path = join(rt.alloc(), stem, ending)?;
            if let Ok(content) = fs::read(rt, text(path.as_bytes())?) {
                let copy = join(rt.alloc(), &self.stem, ending)?;
                write(rt, &copy, content.as_slice())?;
            }
        }
        Ok(())
    }

    /// Puts a file of this ending in place.
    pub fn place_file(&self, rt: &HostRuntime, stem: &Word, ending: &[u8]) -> Result<(), Fault> {
        let from = join(rt.alloc(), &self.stem, ending)?;
        let to = join(rt.alloc(), stem, ending)?;
        match fs::read(rt, text(from.as_bytes())?) {
            Ok(content) => put_in_place(rt, stem, &to, content.as_slice()),
            Err(_) => Err(Fault::NoPlace(to)),
        }
    }

    /// The path of a copy of a vendor's file.
    fn copy_path(&self, rt: &HostRuntime, name: &Word) -> Result<Word, Fault> {
        joined(rt.alloc(), &[self.stem.as_bytes(), COPIES, name.as_bytes()])
    }

    /// Writes copies of vendors' files.
    pub fn put_copies(&self, rt: &HostRuntime, copies: &[VendorsFile]) -> Result<(), Fault> {
        if !copies.is_empty() {
            make_all(rt, join(rt.alloc(), &self.stem, COPIES)?.as_bytes())?;
        }
        for copy in copies {
            let path = self.copy_path(rt, &copy.name)?;
            write(rt, &path, copy.content.as_bytes())?;
        }
        Ok(())
    }

    /// Removes the copy of this name.
    pub fn remove_copy(&self, rt: &HostRuntime, name: &Word) -> Result<(), Fault> {
        Ok(fs::remove_file(rt, text(self.copy_path(rt, name)?.as_bytes())?)?)
    }

    /// Puts the copies of vendors' files in place of earlier ones.
    fn place_copies(&self, rt: &HostRuntime, stem: &Word) -> Result<(), Fault> {
        let from = join(rt.alloc(), &self.stem, COPIES)?;
        let to = join(rt.alloc(), stem, COPIES)?;
        let _ = fs::remove_dir_all(rt, text(to.as_bytes())?);
        if !is_folder(rt, from.as_bytes())? {
            return Ok(());
        }
        make_folder(rt, &to)?;
        for entry in fs::read_dir(rt, text(from.as_bytes())?)? {
            let found = entry?;
            let name = found.file_name().as_bytes();
            let path = join(rt.alloc(), &from, name)?;
            let content = fs::read(rt, text(path.as_bytes())?)?;
            put_in_place(rt, stem, &join(rt.alloc(), &to, name)?, content.as_slice())?;
        }
        Ok(())
    }

    /// Puts its files in place. The parts of an earlier spec file, which gdrv-cc would
    /// read in its place, go first.
    pub fn place(&self, rt: &HostRuntime, stem: &Word) -> Result<(), Fault> {
        for ending in PARTS {
            let _ = fs::remove_file(rt, text(join(rt.alloc(), stem, ending)?.as_bytes())?);
            if is_file(rt, &join(rt.alloc(), &self.stem, ending)?)? {
                self.place_file(rt, stem, ending)?;
            }
        }
        self.place_copies(rt, stem)?;
        for ending in ENDINGS {
            self.place_file(rt, stem, ending)?;
        }
        Ok(())
    }

    /// Removes it.
    pub fn remove(&self, rt: &HostRuntime) {
        if let Ok(path) = text(self.path.as_bytes()) {
            let _ = fs::remove_dir_all(rt, path);
        }
    }
}
