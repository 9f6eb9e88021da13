//! The folder of work, and files beside a spec file: each is new, and has random digits in its name.

use crate::asking::text;
use crate::fault::Fault;
use crate::work_folder::{absolute, join};
use drv_words::Word;
use itoa::Buffer;
use std::env::var;
use std::fs::DirBuilder;
use std::os::unix::fs::DirBuilderExt;
use std::random::RandomSource;

/// The variables that may name the folder of temporary files, as for gdrv-cc.
const NAMING: [&str; 3] = ["TMPDIR", "TMP", "TEMP"];

/// All permissions for the owner alone.
const OWNERS: u32 = 0o700;

/// Whether a byte of a path is itself in a line, in a spec text and in a list of folders.
fn is_plain(byte: u8) -> bool {
    byte.is_ascii_alphanumeric() || b"/._-+,=@~".contains(&byte)
}

/// A path that ends in random digits.
fn with_digits(rt: &HostRuntime, start: &Word) -> Result<Word, Fault> {
    let mut bytes = [0; 8];
    rt.fill_bytes(&mut bytes)?;
    let number = u64::from_le_bytes(bytes);
    join(rt.alloc(), start, Buffer::new().format(number).as_bytes())
}

/// Makes a folder of work in this folder. There is none where lines and texts could not have its
/// path as it is, or it can't be made.
fn folder_in(rt: &HostRuntime, folder: &Word) -> Result<Option<Word>, Fault> {
    let start = join(rt.alloc(), &absolute(rt, folder)?, b"/.gdrv-write-specs.")?;
    let path = with_digits(rt, &start)?;
    let is_made = path.as_bytes().iter().all(|byte| is_plain(*byte))
        && DirBuilder::new()
            .mode(OWNERS)
            .create(rt, text(path.as_bytes())?)
            .is_ok();
    Ok(if is_made { Some(path) } else { None })
}

/// Makes a folder of work, which is its owner's alone.
pub fn new_folder(rt: &HostRuntime) -> Result<Word, Fault> {
    for variable in NAMING {
        if let Ok(folder) = var(rt, variable)
            && !folder.is_empty()
            && let Some(path) = folder_in(rt, &Word::from_vec(folder.into_bytes()))?
        {
            return Ok(path);
        }
    }
    let last = Word::from_bytes(rt.alloc(), b"/tmp")?;
    folder_in(rt, &last)?.ok_or(Fault::NoPlace(last))
}

/// The path of a file that is written and then renamed to one of a spec file. `stem` is the spec
/// file without its ending.
pub fn new_path(rt: &HostRuntime, stem: &Word) -> Result<Word, Fault> {
    with_digits(rt, &join(rt.alloc(), stem, b".new.")?)
}
