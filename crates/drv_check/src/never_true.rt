//! Patterns that no switch has.

use crate::findings::Warning;
use crate::known_names::Names;
use drv_match::Pattern;

/// The warning of a pattern by its first letter: what follows that in an option is its argument,
/// which no test names.
fn letter_warning(whose: Names, word: &[u8]) -> Option<Warning> {
    match (whose, word) {
        (_, [b'l', ..]) => Some(Warning::NeverLibrary),
        (_, [b'x', ..]) => Some(Warning::NeverLanguage),
        (_, [b'o', _, ..]) => Some(Warning::NeverOutput),
        (_, [b'I', _, ..]) | (Names::Driver, [b'D' | b'U', _, ..]) => Some(Warning::NeverTrue),
        _ => None,
    }
}

/// Whether the rest of such an option is words for a tool.
fn begins_pieces(word: &[u8]) -> bool {
    word.starts_with(b"Wl,") || word.starts_with(b"Wa,") || word.starts_with(b"Wp,")
}

/// Whether the word after this option is one for a tool.
fn is_piece(word: &[u8]) -> bool {
    word == b"Xlinker".as_slice()
        || word == b"Xassembler".as_slice()
        || word == b"Xpreprocessor".as_slice()
}

/// Whether an option is a setting of the call alone.
fn is_setting(word: &[u8]) -> bool {
    word == b"pass-exit-codes".as_slice()
        || word == b"dumpspecs".as_slice()
        || word == b"###".as_slice()
}

/// The warning of a pattern by the option that it is, or that it begins as.
fn option_warning(whose: Names, pattern: &Pattern<'_>) -> Option<Warning> {
    let word = pattern.name;
    let is_whole = !pattern.star;
    let begins_jobs = matches!(whose, Names::Driver) && word.starts_with(b"-jobs");
    if begins_pieces(word) || is_whole && is_piece(word) {
        Some(Warning::NeverPiece)
    } else if begins_jobs || is_whole && is_setting(word) {
        Some(Warning::NeverSetting)
    } else if word.starts_with(b"-specs=") || is_whole && word == b"specs=".as_slice() {
        Some(Warning::NeverSpecs)
    } else {
        None
    }
}

/// The warning of a pattern for switches, if no switch has it.
pub(crate) fn switch_warning(whose: Names, pattern: &Pattern<'_>) -> Option<Warning> {
    letter_warning(whose, pattern.name).or(option_warning(whose, pattern))
}
