//! The level of debugging information, and the libraries of checks.

ghost use Rattle.drv_cc.specs.Levels.{asks_for_records, debug_words, debug_words_of, debugging_of};
ghost use Rattle.drv_cc.specs.Levels.{debugged_by, level_named, level_words, no_debugging};
ghost use Rattle.drv_cc.specs.Levels.{raised_by, toggle_named, toggled, version_named};
ghost use Rattle.drv_cc.specs.SelfSpecs.{debugged_with, levels_with, with_toggle};
ghost use Rattle.std.specs.Prelude.{◌≡◌, ◌++◌, OnOk};

use crate::classes::{is, stands_in};
use crate::item::Item;
use crate::words::add_joined;
use drv_words::{Listing, Word};
use std::alloc::{AllocError, Global};

/// The debugging information that options ask for.
#[derive(Clone, Copy)]
pub(crate) struct Debugging {
    /// The level, as a digit from 0 to 3.
    pub(crate) level: u8,
    /// The version of DWARF, as a digit.
    pub(crate) version: u8,
    /// Whether the level is turned on where it is off, and off where it is on.
    pub(crate) toggled: bool,
}

/// The level that an option names, as a digit.
fn level_named(name: &[u8]) -> Option<u8>
    ensures { result ≡ level_named name.now }
{
    if stands_in(b"-g0 -ggdb0", name) {
        Some(b'0')
    } else if stands_in(b"-g1 -ggdb1", name) {
        Some(b'1')
    } else if stands_in(b"-g2 -ggdb2", name) {
        Some(b'2')
    } else if stands_in(b"-g3 -ggdb3", name) {
        Some(b'3')
    } else {
        None
    }
}

/// The version of DWARF that an option names, as a digit.
fn version_named(name: &[u8]) -> Option<u8>
    ensures { result ≡ version_named name.now }
{
    if is(name, b"-gdwarf-2") {
        Some(b'2')
    } else if is(name, b"-gdwarf-3") {
        Some(b'3')
    } else if is(name, b"-gdwarf-4") {
        Some(b'4')
    } else if is(name, b"-gdwarf-5") {
        Some(b'5')
    } else {
        None
    }
}

/// Whether an option sets the toggle, or takes it back.
fn toggle_named(name: &[u8]) -> Option<bool>
    ensures { result ≡ toggle_named name.now }
{
    if is(name, b"-gtoggle") {
        Some(true)
    } else if is(name, b"-gno-toggle") {
        Some(false)
    } else {
        None
    }
}

/// Whether an option asks for records.
fn asks_for_records(name: &[u8]) -> bool
    ensures { result ≡ asks_for_records name.now }
{
    stands_in(
        b"-g -ggdb -gdwarf -gdwarf-2 -gdwarf-3 -gdwarf-4 -gdwarf-5 -gstabs -gstabs+ -gbtf -gctf -gvms -gxcoff -gxcoff+",
        name,
    )
}

impl Debugging {
    /// The level, where an option with this name asks for records or not: 2 at least.
    fn raised_by(self, name: &[u8]) -> u8
        ensures { result ≡ raised_by (asks_for_records name.now) self.level }
    {
        if asks_for_records(name) && self.level < b'2' {
            b'2'
        } else {
            self.level
        }
    }

    /// After an option of debugging.
    #[tactic(auto, unfolding(crate::specs::Levels::debugged_by))]
    fn after_debugging(self, name: &[u8]) -> Debugging
        ensures { result ≡ debugged_by self name.now }
    {
        Debugging {
            level: level_named(name).unwrap_or(self.raised_by(name)),
            version: version_named(name).unwrap_or(self.version),
            toggled: toggle_named(name).unwrap_or(self.toggled),
        }
    }

    /// After an option.
    #[tactic(auto, using(crate::proofs::OtherOptions::others_keep))]
    fn after(self, name: &[u8]) -> Debugging
        ensures { result ≡ debugged_by self name.now }
    {
        if name.starts_with(b"-g") {
            self.after_debugging(name)
        } else {
            self
        }
    }

    /// The level, with the toggle.
    fn level(self) -> u8
        ensures { result ≡ toggled self }
    {
        match (self.toggled, self.level) {
            (false, level) => level,
            (true, b'0') => b'2',
            (true, _) => b'0',
        }
    }

    /// The same with the level that the toggle gives, and without a toggle.
    fn with_toggle(self) -> Debugging
        ensures { result ≡ with_toggle self }
    {
        Debugging {
            level: self.level(),
            version: self.version,
            toggled: false,
        }
    }
}

/// The debugging information after items.
fn debugged_after(before: Debugging, items: &[Item]) -> Debugging
    ensures { result ≡ debugging_of before items.now }
{
    let mut so_far = before;
    for item in items {
        so_far = so_far.after(item.name.as_bytes());
    }
    so_far
}

/// The debugging information of a line.
fn debugging_of(items: &[Item]) -> Debugging
    ensures { result ≡ debugging_of no_debugging items.now }
{
    let none = Debugging {
        level: b'0',
        version: b'5',
        toggled: false,
    };
    debugged_after(none, items)
}

/// The debugging information of a line to which these options are given.
fn debugged_with(items: &[Item], given: &[Item]) -> Debugging
    ensures { result ≡ debugged_with items.now given.now }
{
    debugged_after(debugging_of(items).with_toggle(), given)
}

/// Adds the words of a level above 0 and a version.
fn add_level(
    alloc: Global,
    words: &mut Listing<Word>,
    level: u8,
    version: u8,
) -> Result<(), AllocError>
    ensures { OnOk result (words.new ≡ words.old ++ level_words level version) }
{
    add_joined(alloc, words, b"--gdrv-level=", &[level])?;
    add_joined(alloc, words, b"--gdrv-dwarf=", &[version])
}

/// Adds the words of a level and a version.
fn add_levels(
    alloc: Global,
    words: &mut Listing<Word>,
    level: u8,
    version: u8,
) -> Result<(), AllocError>
    ensures { OnOk result (words.new ≡ words.old ++ debug_words_of level version) }
{
    if level == b'0' {
        return Ok(());
    }
    add_level(alloc, words, level, version)
}

/// Adds the words of the level and the version of a line.
pub(crate) fn add_debug_words(
    alloc: Global,
    items: &[Item],
    words: &mut Listing<Word>,
) -> Result<(), AllocError>
    ensures { OnOk result (words.new ≡ words.old ++ debug_words items.now) }
{
    let debugging = debugging_of(items);
    add_levels(alloc, words, debugging.level(), debugging.version)
}

/// Adds the words of the level and the version of a line to which these options are given.
pub(crate) fn add_levels_with(
    alloc: Global,
    items: &[Item],
    given: &[Item],
    words: &mut Listing<Word>,
) -> Result<(), AllocError>
    ensures { OnOk result (words.new ≡ words.old ++ levels_with (debugged_with items.now given.now)) }
{
    let debugging = debugged_with(items, given);
    add_levels(alloc, words, debugging.level, debugging.version)
}
