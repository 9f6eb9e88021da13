//! What the names of side files begin with, and the name of a source's side files. Side files are those
//! that gcc writes beside its output: for -save-temps, -MD, dumps, -fprofile-arcs.

ghost use Rattle.drv_cc.specs.Code.Leading.{link_leading_in, link_program_in};
ghost use Rattle.drv_cc.specs.Kept.{last_argument};
ghost use Rattle.drv_cc.specs.SideFiles as sides;
ghost use Rattle.drv_cc.specs.SideFiles.{beginning, folder_by, given_base, given_end};
ghost use Rattle.drv_cc.specs.SideFiles.{given_folder, given_or};
ghost use Rattle.drv_cc.specs.SideFiles.{is_empty_name, is_end, is_given, is_named, side_lead};
ghost use Rattle.drv_cc.specs.SideFiles.{leading_base, leading_program, leads, link_base};
ghost use Rattle.drv_cc.specs.SideFiles.{link_beginning, only, path_with_mark};
ghost use Rattle.drv_cc.specs.SideFiles.{output, own_folder, program, side_folder, source_base};
ghost use Rattle.drv_cc.specs.SideFiles.{stem_of, stops, unnamed_stem, usual_program, without_end};
ghost use Rattle.std.specs.Option.{option_map};
ghost use Rattle.std.specs.Prelude.{◌≡◌, ◌∷◌, ◌++◌, [], IfOk};

use crate::classes::is;
use crate::item::Item;
use crate::keeping::{has, last_argument};
use crate::names::{folder, suffix};
use crate::placing::{placed_folder, stay_here};
use crate::sources::{has_several_files, only_file};
use drv_words::{Word, base, stem};
use std::alloc::{AllocError, Global};

/// Whether the driver stops before the link.
pub(crate) fn stops(items: &[Item]) -> bool
    ensures { result ≡ stops items.now }
{
    has(items, b"-c") || has(items, b"-S") || has(items, b"-E")
}

/// The output, where it is a file.
fn output(items: &[Item]) -> Option<&[u8]>
    ensures { option_map (λ name. name.now) result ≡ output items.now }
{
    let output = last_argument(items, b"-o")?;
    if is(output, b"-") || is(output, b"/dev/null") {
        None
    } else {
        Some(output)
    }
}

/// The folder of side files, if no option names it.
fn own_folder(items: &[Item]) -> &[u8]
    ensures { result.now ≡ own_folder items.now }
{
    if stay_here(items) {
        return &[];
    }
    match output(items) {
        Some(output) => folder(output),
        None => &[],
    }
}

/// The folder of side files that options name.
fn given_folder(items: &[Item]) -> Option<&[u8]>
    ensures { option_map (λ folder. folder.now) result ≡ given_folder items.now }
{
    placed_folder(own_folder(items), items)
}

/// Whether a folder is given.
fn is_given(folder: Option<&[u8]>) -> bool
    ensures { result ≡ is_given (option_map (λ folder. folder.now) folder.entry) }
{
    folder.is_some()
}

/// The folder that was given, or else the line's own.
fn given_or<'a>(own: &'a [u8], given: Option<&'a [u8]>) -> &'a [u8]
    ensures { result.now ≡ given_or own.now (option_map (λ folder. folder.now) given.entry) }
{
    match given {
        Some(given) => given,
        None => own,
    }
}

/// The folder that options name, or the line's own.
fn any_folder(items: &[Item]) -> &[u8]
    ensures { result.now ≡ given_or (own_folder items.now) (given_folder items.now) }
{
    let own = own_folder(items);
    given_or(own, placed_folder(own, items))
}

/// The name of -dumpbase.
fn given_base(items: &[Item]) -> Option<&[u8]>
    ensures { option_map (λ name. name.now) result ≡ given_base items.now }
{
    last_argument(items, b"-dumpbase")
}

/// The end of -dumpbase-ext.
pub(crate) fn given_end(items: &[Item]) -> Option<&[u8]>
    ensures { option_map (λ end. end.now) result ≡ given_end items.now }
{
    last_argument(items, b"-dumpbase-ext")
}

/// The folder of side files; a name of -dumpbase that has one takes its place.
fn folder_by<'a>(base: Option<&[u8]>, around: &'a [u8]) -> &'a [u8]
    ensures { result.now ≡ folder_by (option_map (λ name. name.now) base.entry) around.now }
{
    match base {
        Some(name) if !folder(name).is_empty() => &[],
        _ => around,
    }
}

/// The folder of side files.
pub(crate) fn side_folder(items: &[Item]) -> &[u8]
    ensures { result.now ≡ side_folder items.now }
{
    folder_by(given_base(items), any_folder(items))
}

/// Whether a name ends so, and isn't that alone.
pub(crate) fn is_end(name: &[u8], end: &[u8]) -> bool
    ensures { result ≡ is_end name.now end.now }
{
    end.len() < name.len() && name.ends_with(end)
}

/// A name without an end, where it has that.
pub(crate) fn without_end<'a>(name: &'a [u8], end: Option<&[u8]>) -> &'a [u8]
    ensures { result.now ≡ without_end name.now (option_map (λ bytes. bytes.now) end.entry) }
{
    match end {
        Some(end) if is_end(name, end) => &name[..name.len().saturating_sub(end.len())],
        _ => name,
    }
}

/// The name of a program that is the output.
fn usual_program(output: &[u8]) -> &[u8]
    ensures { result.now ≡ usual_program output.now }
{
    if is(base(output), b"a.out") || is(suffix(output), b".exe") {
        stem(output)
    } else {
        base(output)
    }
}

/// The name of the program.
fn program(items: &[Item]) -> &[u8]
    ensures { result.now ≡ program items.now }
{
    let Some(output) = output(items) else {
        return b"a";
    };
    match given_end(items) {
        Some(end) => without_end(base(output), Some(end)),
        None => usual_program(output),
    }
}

/// Whether the only file is named as the program is.
fn is_named(items: &[Item]) -> bool
    ensures { result ≡ is_named (program items.now) (only (sides.files items.now)) }
{
    match only_file(items) {
        Some(file) => is(program(items), stem(file)) && !suffix(file).is_empty(),
        None => false,
    }
}

/// Whether the name of -dumpbase leads those of side files.
fn leads(items: &[Item]) -> bool
    ensures { result ≡ leads items.now }
{
    has_several_files(items) || !(stops(items) || is_given(given_folder(items)))
}

/// A name of -dumpbase that leads those of side files.
fn leading_base<'a>(items: &'a [Item], name: &'a [u8]) -> Option<&'a [u8]>
    ensures { option_map (λ bytes. bytes.now) result ≡ leading_base items.now name.now }
{
    if !name.is_empty() && leads(items) {
        Some(without_end(name, given_end(items)))
    } else {
        None
    }
}

/// The name of the program, where it leads those of side files.
fn leading_program(items: &[Item]) -> Option<&[u8]>
    ensures { option_map (λ name. name.now) result ≡ leading_program items.now }
{
    if stops(items) || is_given(given_folder(items)) || is_named(items) {
        None
    } else {
        Some(program(items))
    }
}

/// What leads the names of side files.
fn side_lead(items: &[Item]) -> Option<&[u8]>
    ensures { option_map (λ name. name.now) result ≡ side_lead items.now }
{
    match given_base(items) {
        Some(name) => leading_base(items, name),
        None => leading_program(items),
    }
}

/// A name of -dumpbase for the link's side files, or the program's.
fn link_base<'a>(items: &'a [Item], name: &'a [u8]) -> &'a [u8]
    ensures { result.now ≡ link_base items.now name.now }
{
    if name.is_empty() {
        program(items)
    } else {
        without_end(name, given_end(items))
    }
}

/// The name of the program, where it leads those of the link's side files: options give them no
/// folder.
fn link_program<'a>(items: &'a [Item], folder: Option<&[u8]>) -> Option<&'a [u8]>
    ensures { option_map (λ name. name.now) result
        ≡ link_program_in items.now (option_map (λ bytes. bytes.now) folder.entry) }
{
    if is_given(folder) {
        None
    } else {
        Some(program(items))
    }
}

/// What leads the names of the link's side files, by the name of -dumpbase and the folder that
/// options give.
fn link_leading<'a>(
    items: &'a [Item],
    base: Option<&'a [u8]>,
    folder: Option<&[u8]>,
) -> Option<&'a [u8]>
    ensures { option_map (λ name. name.now) result
        ≡ link_leading_in items.now (option_map (λ name. name.now) base.entry)
        (option_map (λ bytes. bytes.now) folder.entry) }
{
    match base {
        Some(name) => Some(link_base(items, name)),
        None => link_program(items, folder),
    }
}

/// A folder, and a name with a mark, if there is one.
fn path_with_mark(
    alloc: Global,
    folder: &[u8],
    name: Option<&[u8]>,
    mark: u8,
) -> Result<Word, AllocError>
    ensures { IfOk result (λ word. word ≡ folder.now
        ++ path_with_mark (mark ∷ []) (option_map (λ bytes. bytes.now) name.entry)) }
{
    let Some(name) = name else {
        return Word::from_bytes(alloc, folder);
    };
    let mut word = Word::from_bytes(alloc, folder)?;
    word.extend_from_slice(name)?;
    word.push(mark)?;
    Ok(word)
}

/// What the names of side files begin with.
pub(crate) fn beginning(alloc: Global, items: &[Item]) -> Result<Word, AllocError>
    ensures { IfOk result (λ word. word ≡ beginning items.now) }
{
    path_with_mark(alloc, side_folder(items), side_lead(items), b'-')
}

/// What the names of the link's side files begin with.
#[tactic(auto, using(crate::proofs::LinkLeading::link_leads))]
pub(crate) fn link_beginning(alloc: Global, items: &[Item]) -> Result<Word, AllocError>
    ensures { IfOk result (λ word. word ≡ link_beginning items.now) }
{
    let base = given_base(items);
    let own = own_folder(items);
    let given = placed_folder(own, items);
    let leading = link_leading(items, base, given);
    path_with_mark(alloc, folder_by(base, given_or(own, given)), leading, b'.')
}

/// The name of -dumpbase, where it is that of the only source's side files.
pub(crate) fn source_base(items: &[Item]) -> Option<&[u8]>
    ensures { option_map (λ name. name.now) result ≡ source_base items.now }
{
    match given_base(items) {
        Some(name) if !name.is_empty() && !leads(items) => Some(name),
        _ => None,
    }
}

/// Whether a name is given that is empty.
fn is_empty_name(name: Option<&[u8]>) -> bool
    ensures { result ≡ is_empty_name (option_map (λ name. name.now) name.entry) }
{
    match name {
        Some(name) => name.is_empty(),
        None => false,
    }
}

/// The name of a source's side files, where none is given.
pub(crate) fn unnamed_stem<'a>(items: &'a [Item], name: &'a [u8]) -> &'a [u8]
    ensures { result.now ≡ unnamed_stem items.now name.now }
{
    if is_empty_name(given_base(items)) {
        return stem(name);
    }
    match output(items) {
        Some(output) if stops(items) => stem(output),
        _ => stem(name),
    }
}

/// The name of a source's side files.
pub(crate) fn stem_of<'a>(items: &'a [Item], name: &'a [u8]) -> &'a [u8]
    ensures { result.now ≡ stem_of items.now name.now }
{
    match source_base(items) {
        Some(given) => without_end(given, given_end(items)),
        None => unnamed_stem(items, name),
    }
}
