//! Whether a file that a line writes is one that it reads.

// In clauses: `Noted before after P` says that the host was asked, and that P holds of these
// events.
ghost use Rattle.drv_compile.specs.Inputs.{Noted};
ghost use Rattle.drv_compile.specs.Overwriting.{First, IsAt, IsRead, Overwrites, clash_of, decides};
ghost use Rattle.drv_compile.specs.Overwriting.{dependencies, file_read, files_read, files_written};
ghost use Rattle.drv_compile.specs.Overwriting.{in_folder, inputs_read, is_at, is_left};
ghost use Rattle.drv_compile.specs.Overwriting.{read_or_left, reads_all, side_file, specs_read};
ghost use Rattle.std.specs.List.{filter_map, flat_map, list_any};
ghost use Rattle.std.specs.Option.{option_copied};
ghost use Rattle.std.specs.Prelude.{◌≡◌, ◌++◌, IfOk, OnOk, map};

use crate::compilers::rest_of;
use crate::host::Host;
use crate::places::may_link;
use crate::reading::{folders_given, specs_given};
use crate::suffixing::is_no_file;
use drv_args::{Effect, Item};
use drv_cc::Call;
use drv_system::System;
use drv_words::{Listing, Word};
use std::alloc::{AllocError, Global};

/// What a line reads a file as.
#[derive(Clone, Copy)]
pub(crate) enum ReadAs {
    /// An input.
    Input,
    /// A spec file, of `-specs=`.
    Specs,
    /// A response file.
    Response,
}

/// A file that a line reads.
#[derive(Drop)]
pub(crate) struct FileRead {
    /// What it is read as.
    pub(crate) read_as: ReadAs,
    /// Its name, as the line has it.
    pub(crate) name: Word,
}

/// An output of a line that it reads too.
#[derive(Drop)]
pub(crate) struct Clash {
    /// The name of the output.
    pub(crate) output: Word,
    /// What the file is read as.
    pub(crate) read_as: ReadAs,
}

/// Adds files of these names.
fn add_files(
    read_as: ReadAs,
    names: &[Word],
    files: &mut Listing<FileRead>,
) -> Result<(), AllocError>
    ensures { OnOk result (files.new ≡ files.old ++ map (file_read read_as) names.now) }
{
    for name in names {
        files.push(FileRead {
            read_as,
            name: name.clone()?,
        })?;
    }
    Ok(())
}

/// Whether an option names the output, or the language of the files after it.
fn decides(effect: Effect) -> bool
    ensures { result ≡ decides effect }
{
    matches!(effect, Effect::Output | Effect::Language)
}

/// Whether some item does.
fn any_decides(items: &[Item]) -> bool
    ensures { result ≡ list_any (λ i. decides i.effect) items.now }
{
    items.iter().any(|item| decides(item.effect))
}

/// Whether a line reads each of its inputs, or gcc refuses any of them as its output.
fn reads_all(call: &Call) -> bool
    ensures { result ≡ reads_all call.now }
{
    may_link(call.stages) || any_decides(call.items.as_slice())
}

/// Whether an input is an object, which is for a link.
fn is_left(name: &[u8]) -> bool
    ensures { result ≡ is_left name.now }
{
    name.ends_with(b".o")
}

/// Adds an input, unless it is left to a link.
fn add_read(name: &Word, files: &mut Listing<FileRead>) -> Result<(), AllocError>
    ensures { OnOk result (files.new ≡ files.old ++ read_or_left name.now) }
{
    if !is_left(name.as_bytes()) {
        files.push(FileRead {
            read_as: ReadAs::Input,
            name: name.clone()?,
        })?;
    }
    Ok(())
}

/// Adds the inputs that aren't left to a link.
fn add_all_read(names: &[Word], files: &mut Listing<FileRead>) -> Result<(), AllocError>
    ensures { OnOk result (files.new ≡ files.old ++ flat_map read_or_left names.now) }
{
    for name in names {
        add_read(name, files)?;
    }
    Ok(())
}

/// Adds the inputs that a line reads.
fn add_inputs(call: &Call, files: &mut Listing<FileRead>) -> Result<(), AllocError>
    ensures { OnOk result (files.new ≡ files.old ++ inputs_read call.now) }
{
    if reads_all(call) {
        add_files(ReadAs::Input, call.inputs.as_slice(), files)
    } else {
        add_all_read(call.inputs.as_slice(), files)
    }
}

/// A file in a folder.
fn in_folder(folder: &Word, name: &Word) -> Result<Word, AllocError>
    ensures { IfOk result (λ path. path ≡ in_folder folder.now name.now) }
{
    let mut path = folder.clone()?;
    path.push(b'/')?;
    path.extend_from_slice(name.as_bytes())?;
    Ok(path)
}

/// Adds files in a folder.
fn add_in_folder(folder: &Word, names: &[Word], paths: &mut Listing<Word>) -> Result<(), AllocError>
    ensures { OnOk result (paths.new ≡ paths.old ++ map (in_folder folder.now) names.now) }
{
    for name in names {
        paths.push(in_folder(folder, name)?)?;
    }
    Ok(())
}

/// Adds files in folders.
fn add_in_folders(
    folders: &[Word],
    names: &[Word],
    paths: &mut Listing<Word>,
) -> Result<(), AllocError>
    ensures { OnOk result (paths.new
        ≡ paths.old ++ flat_map (λ folder. map (in_folder folder) names.now) folders.now) }
{
    for folder in folders {
        add_in_folder(folder, names, paths)?;
    }
    Ok(())
}

/// The spec files of `-specs=`, by their names and in each folder of `-B`.
fn specs_read(alloc: Global, items: &[Item]) -> Result<Listing<Word>, AllocError>
    ensures { IfOk result (λ paths. paths ≡ specs_read items.now) }
{
    let names = specs_given(alloc, items)?;
    let folders = folders_given(alloc, items)?;
    let mut paths = names.clone()?;
    add_in_folders(folders.as_slice(), names.as_slice(), &mut paths)?;
    Ok(paths)
}

/// The files that a line reads, of which these are response files.
pub(crate) fn files_read(
    alloc: Global,
    call: &Call,
    responses: &[Word],
) -> Result<Listing<FileRead>, AllocError>
    ensures { IfOk result (λ files. files ≡ files_read call.now responses.now) }
{
    let specs = specs_read(alloc, call.items.as_slice())?;
    let mut files = Listing::new(alloc);
    add_inputs(call, &mut files)?;
    add_files(ReadAs::Specs, specs.as_slice(), &mut files)?;
    add_files(ReadAs::Response, responses, &mut files)?;
    Ok(files)
}

/// How the word begins that names the file of dependencies of a source.
const DEPENDENCIES: &[u8] = b"--gdrv-dep=";

/// The file that an item names for dependencies, if it is this driver's own word.
fn dependencies(option: &[u8]) -> Option<&[u8]>
    ensures { option_copied result ≡ dependencies option.now }
{
    if option.starts_with(DEPENDENCIES) {
        return Some(rest_of(DEPENDENCIES, option));
    }
    None
}

/// The file beside the output that an item names, if it names one (GCC manual, "Preprocessor
/// Options", -MF, and "C Dialect Options", -aux-info).
fn side_file(item: &Item) -> Option<&[u8]>
    ensures { option_copied result ≡ side_file item.now }
{
    let option = item.option.as_bytes();
    if option == b"-MF".as_slice() || option == b"-aux-info".as_slice() {
        return Some(item.argument.as_bytes());
    }
    dependencies(option)
}

/// Adds the files beside the output that items name.
fn add_side_files(
    alloc: Global,
    items: &[Item],
    names: &mut Listing<Word>,
) -> Result<(), AllocError>
    ensures { OnOk result (names.new ≡ names.old ++ filter_map side_file items.now) }
{
    for item in items {
        if let Some(name) = side_file(item) {
            names.push(Word::from_bytes(alloc, name)?)?;
        }
    }
    Ok(())
}

/// The files that a line writes: its outputs, and those that its options name.
pub(crate) fn files_written(alloc: Global, call: &Call) -> Result<Listing<Word>, AllocError>
    ensures { IfOk result (λ names. names ≡ files_written call.now) }
{
    let mut names = call.outputs.clone()?;
    add_side_files(alloc, call.items.as_slice(), &mut names)?;
    Ok(names)
}

/// Whether what a name leads to is the file at a path.
fn is_at(path: &Word, found: &Option<Word>) -> bool
    ensures { result ≡ is_at path.now found.now }
{
    match found {
        Some(found) => found.as_bytes() == path.as_bytes(),
        None => false,
    }
}

/// What a file is read as, if it is the one at a path.
fn read_at<S: System, H: Host<S>>(
    path: &Word,
    file: &FileRead,
    host: &mut H,
) -> Result<Option<ReadAs>, AllocError>
    ensures { Noted (H.notes host.old) (H.notes host.new)
        (λ events. IfOk result (λ found. IsAt path.now file.now events found)) }
{
    let answer = host.resolve(&file.name)?;
    if is_at(path, &answer) {
        Ok(Some(file.read_as))
    } else {
        Ok(None)
    }
}

/// What the file at a path is read as, if it is one of these. The host is asked for each up to the
/// first that leads there.
fn first_at<S: System, H: Host<S>>(
    path: &Word,
    files: &[FileRead],
    host: &mut H,
) -> Result<Option<ReadAs>, AllocError>
    ensures { Noted (H.notes host.old) (H.notes host.new)
        (λ events. IfOk result (λ found. First (IsAt path.now) files.now events found)) }
{
    for file in files {
        let found = read_at(path, file, host)?;
        if found.is_some() {
            return Ok(found);
        }
    }
    Ok(None)
}

/// The output with what it is read as, if it is read.
fn clash_of(output: &Word, found: Option<ReadAs>) -> Result<Option<Clash>, AllocError>
    ensures { IfOk result (λ clash. clash ≡ clash_of output.now found) }
{
    match found {
        Some(read_as) => {
            let output = output.clone()?;
            Ok(Some(Clash { output, read_as }))
        }
        None => Ok(None),
    }
}

/// The output with what it is read as, if it is one of these files; `-` and `/dev/null` are none.
fn clash_with<S: System, H: Host<S>>(
    files: &[FileRead],
    output: &Word,
    host: &mut H,
) -> Result<Option<Clash>, AllocError>
    ensures { Noted (H.notes host.old) (H.notes host.new)
        (λ events. IfOk result (λ found. IsRead files.now output.now events found)) }
{
    if is_no_file(output.as_bytes()) {
        return Ok(None);
    }
    let answer = host.resolve(output)?;
    let Some(path) = answer else {
        return Ok(None);
    };
    let found = first_at(&path, files, host)?;
    clash_of(output, found)
}

/// The first output that is one of these files, by whatever path (GCC, "gcc.cc", process_command).
pub(crate) fn overwrites<S: System, H: Host<S>>(
    files: &[FileRead],
    outputs: &[Word],
    host: &mut H,
) -> Result<Option<Clash>, AllocError>
    ensures { Noted (H.notes host.old) (H.notes host.new)
        (λ events. IfOk result (λ found. Overwrites files.now outputs.now events found)) }
{
    for output in outputs {
        let found = clash_with(files, output, host)?;
        if found.is_some() {
            return Ok(found);
        }
    }
    Ok(None)
}
