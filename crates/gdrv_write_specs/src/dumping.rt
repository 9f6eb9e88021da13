//! The texts of a gcc: its dump, and the spec files that it reads for each line.

use crate::asking::{Gcc, text};
use crate::fault::Fault;
use crate::parts::dump_of;
use crate::texts::{add_all, joined};
use drv_gcc::{named_texts, replace, values};
use drv_words::Word;
use std::fs;

/// The text that refuses `-B`, where files are not looked for along folders of the line.
const WITHOUT_FOLDERS: &[u8] = b"*refused_folders:\n\
    %{-gdrv-dirs:%(own_folders)%{B*:%e-B is not in this spec file}}\n\n";

/// How a function begins that says a file's name if the file is there.
const IF_EXISTS: &[u8] = b"%:if-exists(";

impl<'a> Gcc<'a> {
    /// What the gcc dumps.
    fn dump(self) -> Result<Word, Fault> {
        let said = self.with(b"").ask(b"-dumpspecs")?;
        if !said.is_done || said.out.is_empty() {
            return Err(Fault::NoDump(self.path.clone()?));
        }
        Ok(said.out)
    }

    /// Whether its texts find its files where it has them, whatever the line says, and not where it
    /// looks, also along the folders of the line: if such a file names some, since its names may be
    /// those of folders.
    pub fn has_fixed_places(self) -> Result<bool, Fault> {
        Ok(!self.own_files()?.is_empty())
    }

    /// A dump and the texts of these files.
    fn with_files(self, dump: Word, files: &[Word]) -> Result<Word, Fault> {
        let alloc = self.alloc();
        let mut whole = dump;
        for path in files {
            let Ok(content) = fs::read(self.rt, text(path.as_bytes())?) else {
                return Err(Fault::BadDump(self.path.clone()?));
            };
            if !values(alloc, b"%include", content.as_slice())?.is_empty() {
                return Err(Fault::BadDump(self.path.clone()?));
            }
            add_all(&mut whole, &[b"\n", content.as_slice(), b"\n\n"])?;
        }
        whole.extend_from_slice(WITHOUT_FOLDERS)?;
        dump_of(alloc, whole.as_bytes())
    }

    /// Texts that name a file outright if gcc finds it, in place of asking at each call.
    fn with_found(self, texts: Word) -> Result<Word, Fault> {
        let alloc = self.alloc();
        let mut whole = texts;
        for file in named_texts(alloc, IF_EXISTS, whole.as_bytes())?.as_slice() {
            let Some(name) = file.as_bytes().strip_suffix(b"%s".as_slice()) else {
                continue;
            };
            let call = joined(alloc, &[IF_EXISTS, file.as_bytes(), b")"])?;
            let found = if self.path_of(name)?.is_empty() {
                b"".as_slice()
            } else {
                file.as_bytes()
            };
            whole = replace(alloc, whole.as_bytes(), call.as_bytes(), found)?;
        }
        Ok(whole)
    }

    /// The texts of the gcc.
    pub fn own_texts(self) -> Result<Word, Fault> {
        let files = self.own_files()?;
        let dump = self.dump()?;
        if files.is_empty() {
            return Ok(dump);
        }
        let whole = self.with_files(dump, files.as_slice())?;
        self.with_found(whole)
    }
}
