//! Rows that are kept in the user's cache, so that a gcc is asked once for each line of options.
//!
//! The file for a spec file is in `$XDG_CACHE_HOME/gdrv`, or else `$HOME/.cache/gdrv`. Its first line
//! tells for which spec file and gcc its rows are. Where it can't be read or written, a gcc is asked
//! again.

use crate::adding::row_head;
use crate::asking::text;
use crate::fault::Fault;
use crate::placing::stamp_of;
use crate::texts::{has_bytes, joined};
use crate::work_folder::{make_all, put_in_place};
use drv_gcc::{replace, values};
use drv_words::Word;
use std::env::var;
use std::fs;

/// The folder in which a user has caches: that of this variable with this after it, if the variable
/// names one.
fn folder_below(rt: &HostRuntime, variable: &str, rest: &[u8]) -> Result<Option<Word>, Fault> {
    match var(rt, variable) {
        Ok(value) if value.as_bytes().starts_with(b"/") => {
            Ok(Some(joined(rt.alloc(), &[value.as_bytes(), rest])?))
        }
        _ => Ok(None),
    }
}

/// The folder of the rows, if a variable names one.
fn folder(rt: &HostRuntime) -> Result<Option<Word>, Fault> {
    match folder_below(rt, "XDG_CACHE_HOME", b"/gdrv")? {
        Some(own) => Ok(Some(own)),
        None => folder_below(rt, "HOME", b"/.cache/gdrv"),
    }
}

/// The file of the rows in a folder for a spec file, which is named without its ending: its path is
/// the name, with another byte for each slash.
fn path_in(rt: &HostRuntime, folder: &Word, stem: &Word) -> Result<Word, Fault> {
    let name = replace(rt.alloc(), stem.as_bytes(), b"/", b"%")?;
    joined(
        rt.alloc(),
        &[folder.as_bytes(), b"/", name.as_bytes(), b".rows"],
    )
}

/// The first line of the file: the stamps of the gcc and of the file beside the spec file that names
/// it, with the mark of this one.
fn first_line(rt: &HostRuntime, stem: &Word, gcc: &Word) -> Result<Word, Fault> {
    let alloc = rt.alloc();
    let beside = joined(alloc, &[stem.as_bytes(), b".gcc"])?;
    let mut mark = Word::empty(alloc);
    if let Ok(content) = fs::read(rt, text(beside.as_bytes())?)
        && let Some(last) = values(alloc, b"# whole ", content.as_slice())?.pop()
    {
        mark = last;
    }
    let of_gcc = stamp_of(rt, gcc.as_bytes())?;
    let of_file = stamp_of(rt, beside.as_bytes())?;
    let parts = [
        of_gcc.as_bytes(),
        b" ",
        of_file.as_bytes(),
        b" ",
        mark.as_bytes(),
        b"\n",
    ];
    joined(alloc, &parts)
}

/// The rows that are kept with this first line; empty if there are none.
fn kept(rt: &HostRuntime, path: &Word, first: &Word) -> Result<Word, Fault> {
    if let Ok(content) = fs::read(rt, text(path.as_bytes())?)
        && let Some(rows) = content.as_slice().strip_prefix(first.as_bytes())
    {
        return Ok(Word::from_bytes(rt.alloc(), rows)?);
    }
    Ok(Word::empty(rt.alloc()))
}

/// The row of these options that is kept for a spec file and its gcc, if there is one.
pub fn kept_row(
    rt: &HostRuntime,
    stem: &Word,
    gcc: &Word,
    key: &Word,
) -> Result<Option<Word>, Fault> {
    let Some(folder) = folder(rt)? else {
        return Ok(None);
    };
    let path = path_in(rt, &folder, stem)?;
    let rows = kept(rt, &path, &first_line(rt, stem, gcc)?)?;
    let head = row_head(rt.alloc(), key)?;
    match values(rt.alloc(), head.as_bytes(), rows.as_bytes())?.pop() {
        Some(words) => Ok(Some(joined(rt.alloc(), &[head.as_bytes(), words.as_bytes(), b"\n"])?)),
        None => Ok(None),
    }
}

/// Keeps a row for a spec file and its gcc, beside others, if that can be done. A row may be for the
/// machine of the call, and the cache be read on another one: that is not kept.
pub fn keep_row(rt: &HostRuntime, stem: &Word, gcc: &Word, row: &Word) -> Result<(), Fault> {
    let Some(folder) = folder(rt)? else {
        return Ok(());
    };
    if has_bytes(row.as_bytes(), b"=native") {
        return Ok(());
    }
    let path = path_in(rt, &folder, stem)?;
    let first = first_line(rt, stem, gcc)?;
    let rows = kept(rt, &path, &first)?;
    let whole = joined(
        rt.alloc(),
        &[first.as_bytes(), rows.as_bytes(), row.as_bytes()],
    )?;
    if make_all(rt, folder.as_bytes()).is_ok() {
        let _ = put_in_place(rt, &path, &path, whole.as_bytes());
    }
    Ok(())
}
