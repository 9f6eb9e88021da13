//! An input's suffix and language.

ghost use Rattle.drv_machine.specs.Names.{is_word, language_of, suffix_of};
ghost use Rattle.std.specs.Prelude.{◌≡◌};

use crate::Source;
use drv_words::split_suffix;

/// Whether an input's suffix is this word. The link has no suffix.
pub(crate) fn has_suffix(input: &Option<Source<'_>>, word: &[u8]) -> bool
    ensures { result ≡ is_word word.now (suffix_of input.now) }
{
    let Some(source) = input else {
        return false;
    };
    match split_suffix(source.name) {
        Some((_, suffix)) => word == suffix,
        None => false,
    }
}

/// Whether an input's language has this name. The link has no language.
pub(crate) fn has_language(input: &Option<Source<'_>>, word: &[u8]) -> bool
    ensures { result ≡ is_word word.now (language_of input.now) }
{
    let Some(source) = input else {
        return false;
    };
    match source.language {
        Some(language) => word == language,
        None => false,
    }
}
