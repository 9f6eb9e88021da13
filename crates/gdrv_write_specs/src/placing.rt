//! A spec file is written, tried and put in place.

use crate::asking::{Gcc, text};
use crate::calling::{Manner, Order};
use crate::children::push_children;
use crate::choosing::{options_text, push_choosers};
use crate::fault::{Fault, push_shown};
use crate::gathering::{Gathered, gather};
use crate::names::names_of;
use crate::parts::{PARTS, part_of};
use crate::programs::{is_file, program_at};
use crate::rows::{SHOWING, multilibs, push_names, push_row, rare_libraries, suffix_of};
use crate::texts::{add_all, has_bytes, joined};
use crate::vendors::COPIES;
use crate::work_folder::{WorkFolder, absolute, try_place};
use drv_gcc::{gcc_file, spec_file, values};
use drv_system::complain;
use drv_words::{Listing, Word, base, split_at_last};
use itoa::Buffer;
use std::alloc::Global;
use std::env::current_exe;
use std::os::unix::fs::MetadataExt;
use std::{fs, mem};

/// The path of a gcc: of this name or at this path, of `gcc` for `host`, or of TARGET-gcc for the
/// name of a target.
fn gcc_at(rt: &HostRuntime, name: &Word) -> Result<Option<Word>, Fault> {
    if name.as_bytes() == b"host".as_slice() {
        return program_at(rt, &Word::from_bytes(rt.alloc(), b"gcc")?);
    }
    match program_at(rt, name)? {
        Some(path) => Ok(Some(path)),
        None => program_at(rt, &joined(rt.alloc(), &[name.as_bytes(), b"-gcc"])?),
    }
}

/// The driver that plans by a spec file: beside this program, or along PATH.
pub fn driver_at(rt: &HostRuntime) -> Result<Word, Fault> {
    if let Ok(own) = current_exe(rt)
        && let Some((folder, _)) = split_at_last(b'/', own.as_str().as_bytes())
    {
        let path = joined(rt.alloc(), &[folder, b"/gdrv-cc"])?;
        if is_file(rt, &path)? {
            return Ok(path);
        }
    }
    let name = Word::from_bytes(rt.alloc(), b"gdrv-cc")?;
    program_at(rt, &name)?.ok_or(Fault::NoDriver)
}

/// Adds the values that a key has in a text, each with the key.
fn add_values(
    alloc: Global,
    key: &[u8],
    text: &[u8],
    lines: &mut Listing<Word>,
) -> Result<(), Fault> {
    for value in values(alloc, key, text)?.as_slice() {
        lines.push(joined(alloc, &[key, value.as_bytes()])?)?;
    }
    Ok(())
}

/// What a gcc says of itself where commands are shown: its version, and the folders that it searches.
fn say_of_itself(gcc: Gcc<'_>) -> Result<Listing<Word>, Fault> {
    let mut lines = Listing::new(gcc.alloc());
    let version = gcc.ask(b"-v")?.err;
    for line in values(gcc.alloc(), b"", version.as_bytes())?.into_vec() {
        if !line.is_empty() {
            lines.push(line)?;
        }
    }
    let shown = gcc.ask(SHOWING)?.err;
    for key in [b"COMPILER_PATH=".as_slice(), b"LIBRARY_PATH="] {
        add_values(gcc.alloc(), key, shown.as_bytes(), &mut lines)?;
    }
    Ok(lines)
}

/// What tells a file from one that takes its place: its size in bytes and the second of its last
/// change; a minus where it is missing. The size of a folder depends on its disk, so it is 0 here.
pub fn stamp_of(rt: &HostRuntime, path: &[u8]) -> Result<Word, Fault> {
    let Ok(found) = fs::metadata(rt, text(path)?) else {
        return Ok(Word::from_bytes(rt.alloc(), b"-")?);
    };
    let size = if found.is_dir() { 0 } else { found.len() };
    let (mut sizes, mut times) = (Buffer::new(), Buffer::new());
    let stamp = [
        sizes.format(size).as_bytes(),
        b":",
        times.format(found.mtime()).as_bytes(),
    ];
    joined(rt.alloc(), &stamp)
}

/// Adds a line `stamp PATH STAMP`, by which gdrv-cc sees that a file was changed.
fn push_stamp(rt: &HostRuntime, lines: &mut Word, path: &[u8]) -> Result<(), Fault> {
    if path.starts_with(b"/") {
        let stamp = stamp_of(rt, path)?;
        add_all(lines, &[b"stamp ", path, b" ", stamp.as_bytes(), b"\n"])?;
    }
    Ok(())
}

/// Adds the stamps of the gcc, of its cc1, of its folder, and of the spec file that it would read
/// there.
fn push_stamps(gcc: Gcc<'_>, cc1: &Word, lines: &mut Word) -> Result<(), Fault> {
    push_stamp(gcc.rt, lines, gcc.path.as_bytes())?;
    push_stamp(gcc.rt, lines, cc1.as_bytes())?;
    let headers = gcc.path_of(b"include")?;
    if let Some(folder) = headers.as_bytes().strip_suffix(b"/include".as_slice()) {
        push_stamp(gcc.rt, lines, folder)?;
        let specs = joined(gcc.alloc(), &[folder, b"/specs"])?;
        push_stamp(gcc.rt, lines, specs.as_bytes())?;
    }
    Ok(())
}

/// The gcc that a link leads to, so that questions go to the program whose compiler the plans start.
/// A program without `gcc` in its name may act by the name that it is called by, and keeps the link.
fn own_path(rt: &HostRuntime, gcc: &Word) -> Result<Word, Fault> {
    if let Ok(path) = fs::canonicalize(rt, text(gcc.as_bytes())?) {
        let path = path.as_str().as_bytes();
        if has_bytes(base(path), b"gcc") {
            return Ok(Word::from_bytes(rt.alloc(), path)?);
        }
    }
    Ok(gcc.clone()?)
}

/// Writes the file beside the spec file that names the gcc, and has its rows.
fn put_gcc(gcc: Gcc<'_>, gathered: &Gathered) -> Result<(), Fault> {
    let said = say_of_itself(gcc)?;
    let path = own_path(gcc.rt, gcc.path)?;
    let folders = gathered.toolchain.folders.as_slice();
    let mut text = gcc_file(gcc.alloc(), path.as_bytes(), folders, said.as_slice())?;
    push_stamps(gcc, &gathered.toolchain.programs.compiler.path, &mut text)?;
    let suffix = suffix_of(gcc)?;
    if !suffix.is_empty() {
        add_all(&mut text, &[b"suffix ", suffix.as_bytes(), b"\n"])?;
    }
    if !gathered.copies.is_empty() {
        add_all(&mut text, &[b"copies ", COPIES, b"\n"])?;
    }
    push_children(gcc, &mut text, said.as_slice())?;
    push_choosers(&mut text, gathered.choosers.as_slice())?;
    for row in gathered.rows.as_slice() {
        push_row(&mut text, row)?;
    }
    gcc.work.put(gcc.rt, b".gcc", &text)
}

/// Writes the names of the options that the gcc takes, and those of its rows.
fn put_options(gcc: Gcc<'_>, gathered: &Gathered) -> Result<(), Fault> {
    let mut more = Word::empty(gcc.alloc());
    for row in gathered.rows.as_slice() {
        push_names(&mut more, row)?;
    }
    gcc.work
        .put(gcc.rt, b".options", &names_of(gcc, more.as_bytes())?)
}

/// Writes the spec file in the folder of work, and its parts.
fn put_specs(gcc: Gcc<'_>, gathered: &Gathered) -> Result<(), Fault> {
    let specs = spec_file(gcc.alloc(), &gathered.toolchain)?;
    let rare = rare_libraries(gcc)?;
    for part in PARTS {
        let text = part_of(gcc.alloc(), &specs, &part, rare.as_slice())?;
        gcc.work.put_part(gcc.rt, part.ending, text)?;
    }
    gcc.work.put(gcc.rt, b".specs", &specs)
}

/// Tells the user some words, after what they are.
fn tell(gcc: Gcc<'_>, before: &[u8], words: &[Word]) -> Result<(), Fault> {
    if words.is_empty() {
        return Ok(());
    }
    let mut line = joined(gcc.alloc(), &[b"gdrv-write-specs: ", before])?;
    for word in words {
        line.push(b' ')?;
        push_shown(&mut line, word.as_bytes())?;
    }
    line.push(b'\n')?;
    complain(gcc.rt, line.as_bytes());
    Ok(())
}

/// Has the options refused that are for no machine and would give other plans.
fn refuse_others(gcc: Gcc<'_>, gathered: &mut Gathered) -> Result<(), Fault> {
    let others = gcc.chosen_otherwise()?;
    if others.is_empty() {
        return Ok(());
    }
    let before = b"refused by name, since they would make something else:".as_slice();
    tell(gcc, before, others.as_slice())?;
    for option in others.into_vec() {
        gathered.toolchain.refused.push(option)?;
    }
    put_specs(gcc, gathered)
}

/// Refuses a gcc that has other plans for lines, also of those with these options, or tells them.
fn compare(gcc: Gcc<'_>, manner: Manner, options: &[u8]) -> Result<(), Fault> {
    let lines = gcc.differences(options)?;
    match manner {
        Manner::Compared if !lines.is_empty() => Err(Fault::Differs(gcc.path.clone()?, lines)),
        _ => tell(
            gcc,
            b"lines that have another plan than gcc's:",
            lines.as_slice(),
        ),
    }
}

/// Leaves out the rows that would give other plans. The others are in the opposite order then.
fn check_rows(gcc: Gcc<'_>, gathered: &mut Gathered) -> Result<(), Fault> {
    let mut others = Listing::new(gcc.alloc());
    let rows = mem::replace(&mut gathered.rows, Listing::new(gcc.alloc()));
    for row in rows.into_vec().into_iter().rev() {
        if gcc.with(row.key.as_bytes()).is_other()? {
            others.push(row.key)?;
        } else {
            gathered.rows.push(row)?;
        }
    }
    tell(
        gcc,
        b"no row, since it would make something else:",
        others.as_slice(),
    )
}

/// Leaves out the copies of vendors' files that would give other plans. The others are in the opposite
/// order then.
fn check_copies(gcc: Gcc<'_>, gathered: &mut Gathered) -> Result<(), Fault> {
    let keys = multilibs(gcc)?;
    let mut others = Listing::new(gcc.alloc());
    let copies = mem::replace(&mut gathered.copies, Listing::new(gcc.alloc()));
    for copy in copies.into_vec().into_iter().rev() {
        if gcc.is_copy_other(&copy, keys.as_slice())? {
            gcc.work.remove_copy(gcc.rt, &copy.name)?;
            others.push(copy.name)?;
        } else {
            gathered.copies.push(copy)?;
        }
    }
    tell(
        gcc,
        b"no copy, since it would make something else:",
        others.as_slice(),
    )
}

/// Makes the files of a gcc, of which this is known, and tries them, also with these options.
///
/// The order matters. The names of options and the rows come before the spec file, since a line is
/// refused for an option that is no name. Options are refused before lines are compared, and copies
/// are compared before rows, whose lines need the spec file as it stays.
fn put_gathered(
    gcc: Gcc<'_>,
    manner: Manner,
    options: &[u8],
    gathered: &mut Gathered,
) -> Result<(), Fault> {
    let lacking =
        b"texts that cannot be translated, so lines that use them are refused:".as_slice();
    tell(gcc, lacking, gathered.lacking.as_slice())?;
    put_options(gcc, gathered)?;
    gcc.work.put_copies(gcc.rt, gathered.copies.as_slice())?;
    put_gcc(gcc, gathered)?;
    put_specs(gcc, gathered)?;
    refuse_others(gcc, gathered)?;
    compare(gcc, manner, options)?;
    check_copies(gcc, gathered)?;
    put_gcc(gcc, gathered)?;
    check_rows(gcc, gathered)?;
    if gcc.is_rooted_otherwise()? {
        gathered.toolchain.is_rooted = false;
        put_specs(gcc, gathered)?;
    }
    put_gcc(gcc, gathered)
}

/// Makes the files of a gcc in its folder of work, and tries them.
fn put_whole(gcc: Gcc<'_>, order: &Order) -> Result<(), Fault> {
    let options = options_text(gcc.alloc(), order.options.as_slice())?;
    if !options.is_empty() && !gcc.with(options.as_bytes()).compiles()? {
        return Err(Fault::Refuses(gcc.path.clone()?, options));
    }
    let mut gathered = gather(gcc, order.options.as_slice())?;
    put_gathered(gcc, order.manner, options.as_bytes(), &mut gathered)?;
    let key = gathered.key.as_bytes();
    let has_row = gathered
        .rows
        .as_slice()
        .iter()
        .any(|row| row.key.as_bytes() == key);
    match order.manner {
        Manner::Compared if !has_row => Err(Fault::NoRow(gathered.key)),
        _ => Ok(()),
    }
}

/// The path of a spec file without its ending.
pub fn stem_of(rt: &HostRuntime, output: &Word) -> Result<Word, Fault> {
    let specs = absolute(rt, output)?;
    let bytes = specs.as_bytes();
    let stem = bytes.strip_suffix(b".specs".as_slice()).unwrap_or(bytes);
    Ok(Word::from_bytes(rt.alloc(), stem)?)
}

/// Writes the spec file of a gcc, and the files beside it. If its plans differ from gcc's, nothing
/// is written.
pub fn write_file(rt: &HostRuntime, order: &Order) -> Result<(), Fault> {
    let Some(path) = gcc_at(rt, &order.gcc)? else {
        return Err(Fault::NoGcc(order.gcc.clone()?));
    };
    let stem = stem_of(rt, &order.output)?;
    try_place(rt, &stem)?;
    let work = WorkFolder::new(rt, &driver_at(rt)?)?;
    let gcc = Gcc {
        rt,
        work: &work,
        path: &path,
        options: b"",
    };
    let done = put_whole(gcc, order).and_then(|()| work.place(rt, &stem));
    work.remove(rt);
    done
}
