//! Words that are added to a line.

ghost use Rattle.drv_cc.specs.SideFiles.{with_value};
ghost use Rattle.std.specs.Prelude.{◌≡◌, ◌∷◌, ◌++◌, [], OnOk};

use drv_words::{Listing, Word};
use std::alloc::{AllocError, Global};

/// Adds a word.
pub(crate) fn add_word(
    alloc: Global,
    words: &mut Listing<Word>,
    word: &[u8],
) -> Result<(), AllocError>
    ensures { OnOk result (words.new ≡ words.old ++ word.now ∷ []) }
{
    words.push(Word::from_bytes(alloc, word)?)?;
    Ok(())
}

/// Adds three texts as one word.
pub(crate) fn add_parts(
    alloc: Global,
    words: &mut Listing<Word>,
    option: &[u8],
    beginning: &[u8],
    end: &[u8],
) -> Result<(), AllocError>
    ensures { OnOk result (words.new ≡ words.old ++ (option.now ++ beginning.now ++ end.now) ∷ []) }
{
    let mut word = Word::from_bytes(alloc, option)?;
    word.extend_from_slice(beginning)?;
    word.extend_from_slice(end)?;
    words.push(word)?;
    Ok(())
}

/// Adds two texts as one word.
pub(crate) fn add_joined(
    alloc: Global,
    words: &mut Listing<Word>,
    option: &[u8],
    argument: &[u8],
) -> Result<(), AllocError>
    ensures { OnOk result (words.new ≡ words.old ++ (option.now ++ argument.now) ∷ []) }
{
    let mut word = Word::from_bytes(alloc, option)?;
    word.extend_from_slice(argument)?;
    words.push(word)?;
    Ok(())
}

/// Adds a word with a value, where that is not empty.
pub(crate) fn add_value(
    alloc: Global,
    words: &mut Listing<Word>,
    option: &[u8],
    value: &[u8],
) -> Result<(), AllocError>
    ensures { OnOk result (words.new ≡ words.old ++ with_value option.now value.now) }
{
    if !value.is_empty() {
        add_joined(alloc, words, option, value)?;
    }
    Ok(())
}
