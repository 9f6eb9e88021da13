//! The names of the warnings of a check, and what they say.

use drv_check::Warning;
use drv_words::Word;
use std::alloc::{AllocError, Global};

/// The name of a warning.
pub fn warning_name(warning: Warning) -> &'static [u8] {
    match warning {
        Warning::AppendToNothing => b"append-to-nothing",
        Warning::DirectiveInBody => b"directive-in-body",
        Warning::QuotedWord => b"quoted-word",
        Warning::NeverTrue
        | Warning::NeverOutput
        | Warning::NeverLibrary
        | Warning::NeverLanguage
        | Warning::NeverPiece
        | Warning::NeverSetting
        | Warning::NeverSpecs => b"never-true",
        Warning::UnknownText => b"unknown-text",
        Warning::HiddenPair => b"hidden-pair",
        Warning::Unreachable => b"unreachable",
        Warning::LostMark | Warning::LostInPair => b"lost-mark",
        Warning::UnusedText => b"unused-text",
    }
}

/// What a warning says, without its name.
fn warning_words(warning: Warning) -> &'static [u8] {
    match warning {
        Warning::AppendToNothing => b"there is no text to append to",
        Warning::DirectiveInBody => {
            b"this line belongs to the text above it, as no line before it is empty"
        }
        Warning::QuotedWord => b"this quote is a byte of the word, as texts have no quotes",
        Warning::NeverTrue =>
            b"no switch has this name, as -DX is the switch D with the argument X",
        Warning::NeverOutput =>
            b"no switch has this name, as -oX is the switch o with the argument X",
        Warning::NeverLibrary => b"no switch has this name, as -lX is a library",
        Warning::NeverLanguage => b"no switch has this name, as -xX is a language",
        Warning::NeverPiece => b"no switch has this name, as its option gives words to a tool",
        Warning::NeverSetting => b"no switch has this name, as its option is a setting of the call",
        Warning::NeverSpecs => b"no switch has this name, as --specs=X is the switch specs=X",
        Warning::UnknownText => b"there is no text of this name",
        Warning::HiddenPair => b"a later pair of this file counts wherever this one would",
        Warning::Unreachable => {
            b"no line reaches this branch, as an earlier one is taken in its place"
        }
        Warning::LostMark => b"this marks no word, as white space is on both sides",
        Warning::LostInPair => {
            b"this marks no word, as the text of a pair begins or ends beside it"
        }
        Warning::UnusedText => b"no text names this one, and nothing else runs it",
    }
}

/// What a warning says, with its name.
pub fn warning_text(alloc: Global, warning: Warning) -> Result<Word, AllocError> {
    let mut text = Word::from_bytes(alloc, warning_words(warning))?;
    text.extend_from_slice(b" [-W")?;
    text.extend_from_slice(warning_name(warning))?;
    text.extend_from_slice(b"]")?;
    Ok(text)
}

/// Whether an option switches a warning off.
pub fn is_off_by(option: &[u8], warning: Warning) -> bool {
    option.strip_prefix(b"-Wno-".as_slice()) == Some(warning_name(warning))
}
