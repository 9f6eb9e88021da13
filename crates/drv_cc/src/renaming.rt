//! The options that other long names mean.

ghost use Rattle.drv_cc.specs.Code.Building.{pair_shown};
ghost use Rattle.drv_cc.specs.Items.{begins, is_longer, meant_option};
ghost use Rattle.drv_cc.specs.Table.{renames};
ghost use Rattle.std.specs.Option.{option_map};
ghost use Rattle.std.specs.Prelude.{◌≡◌, IfOk, IsFalse, codes, find, map};

use crate::reading::rest_after;
use drv_words::Word;
use std::alloc::{AllocError, Global};

/// The beginning of long names, and that of the options that they mean.
#[derive(Clone, Copy)]
pub(crate) struct Rename {
    /// The beginning of the long name.
    pub(crate) from: &'static [u8],
    /// The beginning of the option.
    pub(crate) to: &'static [u8],
}

/// Beginnings of long names.
macro_rules! renames {
    ($($from:literal => $to:literal;)+) => { [$(Rename { from: $from, to: $to }),+] };
}

/// The beginnings of long names (GCC, "opts-common.cc", the map of options).
const RENAMES: [Rename; 7] = renames! {
    b"--debug=" => b"-g";
    b"--machine-" => b"-m";
    b"--machine=" => b"-m";
    b"--optimize=" => b"-O";
    b"--std=" => b"-std=";
    b"--warn-" => b"-W";
    b"--" => b"-f";
};

/// All of them.
fn renames() -> &'static [Rename]
    ensures { map pair_shown result.now ≡ renames }
{
    &RENAMES
}

impl Rename {
    /// Whether a word begins so, and goes on after it.
    fn fits(&self, word: &[u8]) -> bool
        ensures { result ≡ is_longer word.now (pair_shown self.now) }
    {
        word.starts_with(self.from) && self.from.len() < word.len()
    }
}

/// Whether a word begins as all long names do.
fn is_long(word: &[u8]) -> bool
    ensures { result ≡ begins (codes "--") word.now }
{
    matches!(word, [b'-', b'-', ..])
}

/// The first that fits a word.
#[tactic(auto, using(crate::proofs::LongNames::no_rename))]
fn rename_of(word: &[u8]) -> Option<Rename>
    ensures { option_map pair_shown result ≡ find (is_longer word.now) renames }
{
    if !is_long(word) {
        return None;
    }
    for rename in renames() {
        if rename.fits(word) {
            return Some(*rename);
        }
    }
    None
}

/// Whether a word is a long name of an option.
#[tactic(auto, using(crate::proofs::LongNames::not_renamed))]
pub(crate) fn is_renamed(word: &[u8]) -> bool
    ensures { IsFalse result → meant_option word.now ≡ word.now }
{
    is_long(word) && rename_of(word).is_some()
}

/// The option that a long name means.
pub(crate) fn meant_option(alloc: Global, word: &[u8]) -> Result<Word, AllocError>
    ensures { IfOk result (λ name. name ≡ meant_option word.now) }
{
    let Some(rename) = rename_of(word) else {
        return Word::from_bytes(alloc, word);
    };
    let mut name = Word::from_bytes(alloc, rename.to)?;
    name.extend_from_slice(rest_after(word, rename.from))?;
    Ok(name)
}
