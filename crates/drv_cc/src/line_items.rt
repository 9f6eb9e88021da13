//! Items of a line of `gcc` as items of the driver's line.

ghost use Rattle.drv_cc.specs.LineItems.{alone_effect, effect_of, joined_effect, line_item};
ghost use Rattle.drv_cc.specs.LineItems.{option_effect, separate_effect};
ghost use Rattle.std.specs.List.{filter_map};
ghost use Rattle.std.specs.Prelude.{◌≡◌, ◌++◌, IfOk, OnOk};

use crate::classes::is;
use crate::item::Item;
use drv_args::{Effect, Setting, Tool};
use drv_options::{Role, Spelling};
use drv_words::Listing;
use std::alloc::AllocError;

/// What an option without an argument does.
fn alone_effect(name: &[u8]) -> Effect
    ensures { result ≡ alone_effect name.now }
{
    if is(name, b"-###") {
        Effect::TurnsOn(Setting::Dry)
    } else if is(name, b"-v") {
        Effect::TurnsOn(Setting::Verbose)
    } else if is(name, b"-pass-exit-codes") {
        Effect::TurnsOn(Setting::PassCodes)
    } else if is(name, b"-pipe") {
        Effect::TurnsOn(Setting::Pipe)
    } else {
        Effect::Switch
    }
}

/// What an option does whose argument is in its word.
fn joined_effect(name: &[u8]) -> Effect
    ensures { result ≡ joined_effect name.now }
{
    if is(name, b"-specs=") {
        Effect::Specs
    } else if is(name, b"-l") {
        Effect::Library
    } else if is(name, b"-Wl,") {
        Effect::Pieces(Tool::Linker)
    } else if is(name, b"-Wa,") {
        Effect::Pieces(Tool::Assembler)
    } else if is(name, b"-Wp,") {
        Effect::Pieces(Tool::Preprocessor)
    } else {
        Effect::JoinedSwitch
    }
}

/// What an option does whose argument is the next word.
fn separate_effect(name: &[u8]) -> Effect
    ensures { result ≡ separate_effect name.now }
{
    if is(name, b"-x") {
        Effect::Language
    } else if is(name, b"-o") {
        Effect::Output
    } else if is(name, b"-B") {
        Effect::Prefix
    } else if is(name, b"-Xlinker") {
        Effect::Piece(Tool::Linker)
    } else if is(name, b"-Xassembler") {
        Effect::Piece(Tool::Assembler)
    } else if is(name, b"-Xpreprocessor") {
        Effect::Piece(Tool::Preprocessor)
    } else {
        Effect::SwitchWithArgument
    }
}

/// The effect of an option in the driver's line, if it has one.
fn option_effect(spelling: Spelling, name: &[u8]) -> Option<Effect>
    ensures { result ≡ option_effect spelling name.now }
{
    match spelling {
        Spelling::Alone => Some(alone_effect(name)),
        Spelling::Joined => Some(joined_effect(name)),
        Spelling::Separate => Some(separate_effect(name)),
        Spelling::Nowhere => None,
    }
}

/// The effect of an item in the driver's line, if it has one.
pub(crate) fn effect_of(role: Role, spelling: Spelling, name: &[u8]) -> Option<Effect>
    ensures { result ≡ effect_of role spelling name.now }
{
    match role {
        Role::Input => Some(Effect::File),
        _ => option_effect(spelling, name),
    }
}

/// The item of the driver's line for an item, if there is one.
fn line_item(item: &Item) -> Result<Option<drv_args::Item>, AllocError>
    ensures { IfOk result (λ given. given ≡ line_item item.now) }
{
    let Some(effect) = effect_of(item.role, item.spelling, item.name.as_bytes()) else {
        return Ok(None);
    };
    Ok(Some(drv_args::Item {
        effect,
        option: item.name.clone()?,
        argument: item.argument.clone()?,
    }))
}

/// Adds the items of the driver's line for these items.
pub(crate) fn add_kept(
    items: &[Item],
    given: &mut Listing<drv_args::Item>,
) -> Result<(), AllocError>
    ensures { OnOk result (given.new ≡ given.old ++ filter_map line_item items.now) }
{
    for item in items {
        if let Some(one) = line_item(item)? {
            given.push(one)?;
        }
    }
    Ok(())
}
