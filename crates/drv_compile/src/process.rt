//! The host that a process has.

ghost use Rattle.std.specs.Prelude.{◌≡◌, []};

use crate::host::{Host, HostEvent};
use crate::places::beside;
use drv_cc::Variable;
use drv_system::{HostSystem, System};
use drv_words::{Word, copy_word, split_at_last};
use itoa::Buffer;
use std::alloc::AllocError;
use std::env::current_exe;
use std::fs::Metadata;
use std::io::{Error, ErrorKind};
use std::marker::Model;
use std::os::unix::fs::MetadataExt;
use std::process::Command;
use std::{fs, io, str};

/// The bits of a mode by which a class of users may read, write and search a folder.
const OWNER: u32 = 0o700;

const GROUP: u32 = 0o070;

const OTHERS: u32 = 0o007;

/// The bits of a mode by which all users may.
const EVERYONE: u32 = OWNER | GROUP | OTHERS;

/// The files of this process, and the children of its system.
#[derive(Drop)]
pub struct Process {
    rt: HostRuntime,
    notes: Vec<HostEvent>,
}

impl Model for Process {
    ghost use Rattle.drv_compile.specs.declared.host.HostEvent.{HostEvent};
    ghost use Rattle.std.specs.Prelude.{List};

    ghost Value = { List HostEvent };

    ghost view = { λ process. process.notes.items };
}

impl Process {
    /// The host of this process, of which nothing was asked yet. The call allocates nothing.
    pub fn new(rt: HostRuntime) -> Process
        ensures { result ≡ [] }
    {
        let notes = Vec::new(rt.alloc());
        Process { rt, notes }
    }
}

/// The path of the spec file beside this program; none where the system doesn't say where the
/// program lies.
pub fn own_specs(rt: &HostRuntime, machine: &[u8]) -> Result<Option<Word>, AllocError> {
    match current_exe(rt) {
        Ok(program) => Ok(Some(beside(rt.alloc(), program.as_str().as_bytes(), machine)?)),
        Err(_) => Ok(None),
    }
}

impl Host<HostSystem> for Process {
    ghost notes = { λ process. process };

    /// A name that is no text leads to no file.
    fn resolve(&mut self, name: &Word) -> Result<Option<Word>, AllocError> {
        let asked = name.clone()?;
        let path = path_of(&self.rt, name)?;
        let noted = copy_word(&path)?;
        self.notes.push(HostEvent::Resolved(asked, noted))?;
        Ok(path)
    }

    /// A name that is no text is that of no folder.
    fn is_usable(&mut self, name: &Word) -> Result<bool, AllocError> {
        let asked = name.clone()?;
        self.notes.reserve(1)?;
        let usable = match str::from_utf8(name.as_bytes()) {
            Ok(path) => is_usable_folder(&self.rt, path)?,
            Err(_) => false,
        };
        self.notes.push_reserved(HostEvent::Tried(asked, usable));
        Ok(usable)
    }

    fn row_of(&mut self, specs: &Word, options: &Word) -> Result<Word, AllocError> {
        let of = specs.clone()?;
        let asked = options.clone()?;
        let row = row_said(&self.rt, specs, options)?;
        let noted = row.clone()?;
        self.notes.push(HostEvent::Worded(of, asked, noted))?;
        Ok(row)
    }

    fn stamp_of(&mut self, path: &Word) -> Result<Word, AllocError> {
        let asked = path.clone()?;
        let stamp = stamp_at(&self.rt, path)?;
        let noted = stamp.clone()?;
        self.notes.push(HostEvent::Stamped(asked, noted))?;
        Ok(stamp)
    }

    fn set_for_children(
        &mut self,
        sys: &mut HostSystem,
        variable: &Variable,
    ) -> Result<(), AllocError> {
        let set = Variable {
            name: variable.name.clone()?,
            value: variable.value.clone()?,
        };
        self.notes.reserve(1)?;
        let at = sys.journal().len();
        sys.set_for_children(variable.name.clone()?, variable.value.clone()?)?;
        self.notes.push_reserved(HostEvent::Set(at, set));
        Ok(())
    }
}

/// The path of the file that a name leads to, if there is one.
fn path_of(rt: &HostRuntime, name: &Word) -> Result<Option<Word>, AllocError> {
    let Some(path) = str::from_utf8(name.as_bytes()).ok() else {
        return Ok(None);
    };
    match fs::canonicalize(rt, path) {
        Ok(path) => Ok(Some(Word::from_bytes(rt.alloc(), path.as_str().as_bytes())?)),
        Err(e) if e.kind() == ErrorKind::OutOfMemory => Err(AllocError),
        Err(_) => Ok(None),
    }
}

/// The program beside this one that asks a compiler for the words of a row.
fn asker_path(rt: &HostRuntime) -> io::Result<Word> {
    let program = current_exe(rt)?;
    let folder = match split_at_last(b'/', program.as_str().as_bytes()) {
        Some((folder, _)) => folder,
        None => &[],
    };
    let mut path = Word::from_bytes(rt.alloc(), folder)?;
    path.extend_from_slice(b"/gdrv-write-specs")?;
    Ok(path)
}

/// A word as text.
fn text(word: &Word) -> io::Result<&str> {
    str::from_utf8(word.as_bytes()).map_err(|_| Error::from(ErrorKind::InvalidInput))
}

/// What that program prints for these options; nothing where it gives no row.
fn ask_row(rt: &HostRuntime, specs: &Word, options: &Word) -> io::Result<Word> {
    let mut made = Command::new(rt.alloc(), text(&asker_path(rt)?)?)?;
    for word in ["--row", text(specs)?, text(options)?] {
        made.arg(word)?;
    }
    let output = made.output(rt)?;
    if output.status.success() {
        return Ok(Word::from_vec(output.stdout));
    }
    Ok(Word::empty(rt.alloc()))
}

/// The same; nothing too where the program can't be started.
fn row_said(rt: &HostRuntime, specs: &Word, options: &Word) -> Result<Word, AllocError> {
    match ask_row(rt, specs, options) {
        Ok(row) => Ok(row),
        Err(e) if e.kind() == ErrorKind::OutOfMemory => Err(AllocError),
        Err(_) => Ok(Word::empty(rt.alloc())),
    }
}

/// What is known of a file, if it is there.
fn metadata_of(rt: &HostRuntime, path: &str) -> Result<Option<Metadata>, AllocError> {
    match fs::metadata(rt, path) {
        Ok(found) => Ok(Some(found)),
        Err(e) if e.kind() == ErrorKind::OutOfMemory => Err(AllocError),
        Err(_) => Ok(None),
    }
}

/// The stamp of the file at a path: its size in bytes and the second of its last change, or a minus
/// where it is missing. The size of a folder depends on its disk, so it is 0 here.
fn stamp_at(rt: &HostRuntime, path: &Word) -> Result<Word, AllocError> {
    let found = match str::from_utf8(path.as_bytes()) {
        Ok(path) => metadata_of(rt, path)?,
        Err(_) => None,
    };
    let Some(found) = found else {
        return Word::from_bytes(rt.alloc(), b"-");
    };
    let size = if found.is_dir() { 0 } else { found.len() };
    let mut stamp = Word::from_bytes(rt.alloc(), Buffer::new().format(size).as_bytes())?;
    stamp.push(b':')?;
    stamp.extend_from_slice(Buffer::new().format(found.mtime()).as_bytes())?;
    Ok(stamp)
}

/// Whether this process can make and find files in a folder (POSIX, "File Access Permissions"). It
/// has the user and the group of its folder in `/proc`. Of another owner's folder the group may be
/// one of the further groups of this process, so it is enough that one class may do all.
fn may_use(rt: &HostRuntime, folder: &Metadata) -> Result<bool, AllocError> {
    let mode = folder.mode();
    if mode & EVERYONE == EVERYONE {
        return Ok(true);
    }
    let Some(own) = metadata_of(rt, "/proc/self")? else {
        return Ok(true);
    };
    if own.uid() == 0 {
        return Ok(true);
    }
    if own.uid() == folder.uid() {
        return Ok(mode & OWNER == OWNER);
    }
    Ok(mode & GROUP == GROUP || mode & OTHERS == OTHERS)
}

/// Whether a path is that of a folder in which this process can make and find files.
fn is_usable_folder(rt: &HostRuntime, path: &str) -> Result<bool, AllocError> {
    match metadata_of(rt, path)? {
        Some(found) if found.is_dir() => may_use(rt, &found),
        _ => Ok(false),
    }
}
