//! The variables that a compiler has for its children, beside those of the line's switches.

ghost use Rattle.drv_cc.specs.Children.{folder_text, given_text, own_values, value_in};
ghost use Rattle.drv_cc.specs.Front.{folders, link_variables, linked_variables};
ghost use Rattle.drv_cc.specs.Front.{offload_variables, own_variable, path_before, target_variable};
ghost use Rattle.drv_cc.specs.Front.{variable};
ghost use Rattle.drv_cc.specs.Children.{given_targets};
ghost use Rattle.std.specs.List.{flat_map};
ghost use Rattle.std.specs.Prelude.{◌≡◌, ◌∷◌, ◌++◌, [], IfOk, OnOk, map};

use crate::classes::is;
use crate::item::Item;
use crate::leading::stops;
use crate::line_adding::folders;
use crate::quoting::add_variable;
use crate::reading::rest_after;
use crate::targets::given_targets;
use crate::words::add_word;
use crate::{Surroundings, Variable};
use drv_words::{Listing, Word};
use std::alloc::{AllocError, Global};

/// Adds the value that a text has for a key, if it begins with it.
fn add_value_in(
    alloc: Global,
    key: &[u8],
    text: &[u8],
    found: &mut Listing<Word>,
) -> Result<(), AllocError>
    ensures { OnOk result (found.new ≡ found.old ++ value_in key.now text.now) }
{
    if text.starts_with(key) {
        add_word(alloc, found, rest_after(text, key))?;
    }
    Ok(())
}

/// The values of a variable of the compiler's own.
fn own_values(alloc: Global, name: &[u8], told: &[Word]) -> Result<Listing<Word>, AllocError>
    ensures { IfOk result (λ values. values ≡ own_values name.now told.now) }
{
    let mut key = Word::from_bytes(alloc, name)?;
    key.push(b'=')?;
    let mut values = Listing::new(alloc);
    for text in told {
        add_value_in(alloc, key.as_bytes(), text.as_bytes(), &mut values)?;
    }
    Ok(values)
}

/// Adds a variable of two texts.
fn add_joined_variable(
    alloc: Global,
    name: &[u8],
    before: &[u8],
    value: &[u8],
    children: &mut Listing<Variable>,
) -> Result<(), AllocError>
    ensures { OnOk result (children.new
        ≡ children.old ++ variable name.now (before.now ++ value.now) ∷ []) }
{
    let mut whole = Word::from_bytes(alloc, before)?;
    whole.extend_from_slice(value)?;
    add_variable(alloc, name, whole, children)
}

/// Adds a variable of the compiler's own, if it has it, with a text before its value.
fn add_own(
    alloc: Global,
    told: &[Word],
    name: &[u8],
    before: &[u8],
    children: &mut Listing<Variable>,
) -> Result<(), AllocError>
    ensures { OnOk result (children.new
        ≡ children.old ++ own_variable told.now name.now before.now) }
{
    let values = own_values(alloc, name, told)?;
    for value in values.as_slice() {
        add_joined_variable(alloc, name, before, value.as_bytes(), children)?;
    }
    Ok(())
}

/// Adds a folder before others.
fn push_folder(folder: &[u8], path: &mut Word) -> Result<(), AllocError>
    ensures { OnOk result (path.new ≡ path.old ++ folder_text folder.now) }
{
    path.extend_from_slice(folder)?;
    if folder.ends_with(b"/") {
        path.extend_from_slice(b":")
    } else {
        path.extend_from_slice(b"/:")
    }
}

/// Adds the folder of an item, if it gives one.
fn push_given(item: &Item, path: &mut Word) -> Result<(), AllocError>
    ensures { OnOk result (path.new ≡ path.old ++ given_text item.now) }
{
    if is(item.name.as_bytes(), b"-B") {
        push_folder(item.argument.as_bytes(), path)?;
    }
    Ok(())
}

/// Adds the folders of the line's `-B`.
fn push_all_given(items: &[Item], path: &mut Word) -> Result<(), AllocError>
    ensures { OnOk result (path.new ≡ path.old ++ flat_map given_text items.now) }
{
    for item in items {
        push_given(item, path)?;
    }
    Ok(())
}

/// Adds folders before others.
fn push_folders(folders: &[Word], path: &mut Word) -> Result<(), AllocError>
    ensures { OnOk result (path.new ≡ path.old ++ flat_map folder_text folders.now) }
{
    for folder in folders {
        push_folder(folder.as_bytes(), path)?;
    }
    Ok(())
}

/// The folders of the line's `-B` and of a path, before the compiler's own.
fn path_before(alloc: Global, items: &[Item], named: &Option<Word>) -> Result<Word, AllocError>
    ensures { IfOk result (λ path. path ≡ path_before items.now named.now) }
{
    let mut path = Word::empty(alloc);
    push_all_given(items, &mut path)?;
    let all = folders(alloc, named)?;
    push_folders(all.as_slice(), &mut path)?;
    Ok(path)
}

/// Adds the variable of the targets of offloading that a line names, if there are some.
fn add_targets(
    alloc: Global,
    targets: Word,
    children: &mut Listing<Variable>,
) -> Result<(), AllocError>
    ensures { OnOk result (children.new ≡ children.old ++ target_variable targets) }
{
    if targets.is_empty() {
        return Ok(());
    }
    add_variable(alloc, b"OFFLOAD_TARGET_NAMES", targets, children)
}

/// Adds the variables of the targets of offloading.
pub(crate) fn add_offload_variables(
    alloc: Global,
    told: &[Word],
    items: &[Item],
    children: &mut Listing<Variable>,
) -> Result<(), AllocError>
    ensures { OnOk result (children.new
        ≡ children.old ++ offload_variables told.now (given_targets items.now)) }
{
    match given_targets(alloc, items)? {
        Some(targets) => add_targets(alloc, targets, children),
        None => {
            add_own(alloc, told, b"OFFLOAD_TARGET_NAMES", b"", children)?;
            add_own(alloc, told, b"OFFLOAD_TARGET_DEFAULT", b"", children)
        }
    }
}

/// Adds the variables for a link.
fn add_link_variables(
    alloc: Global,
    around: &Surroundings,
    told: &[Word],
    items: &[Item],
    children: &mut Listing<Variable>,
) -> Result<(), AllocError>
    ensures { OnOk result (children.new
        ≡ children.old ++ link_variables around.now told.now items.now) }
{
    let programs = path_before(alloc, items, &around.compiler_path)?;
    let libraries = path_before(alloc, items, &around.library_path)?;
    add_own(alloc, told, b"COLLECT_LTO_WRAPPER", b"", children)?;
    add_own(alloc, told, b"COMPILER_PATH", programs.as_bytes(), children)?;
    add_own(alloc, told, b"LIBRARY_PATH", libraries.as_bytes(), children)
}

/// Adds the variables for a link, unless the line stops before it.
pub(crate) fn add_linked_variables(
    alloc: Global,
    around: &Surroundings,
    told: &[Word],
    items: &[Item],
    children: &mut Listing<Variable>,
) -> Result<(), AllocError>
    ensures { OnOk result (children.new
        ≡ children.old ++ linked_variables around.now told.now items.now) }
{
    if stops(items) {
        return Ok(());
    }
    add_link_variables(alloc, around, told, items, children)
}
