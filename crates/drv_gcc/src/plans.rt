//! Whether two drivers plan the same.

ghost use Rattle.drv_gcc.specs.Plans.{is_linker, is_temporary, plain_program, plain_word};
ghost use Rattle.drv_gcc.specs.Plans.{same_command, same_commands, same_words};
ghost use Rattle.std.specs.Prelude.{◌≡◌};

use drv_words::{Listing, Word, base};

/// A word that names a temporary file, which has another name in each call.
fn is_temporary(word: &[u8]) -> bool
    ensures { result ≡ is_temporary word.now }
{
    word.starts_with(b"-plugin-opt=-fresolution=")
        || (word.starts_with(b"/") && base(word).starts_with(b"cc"))
}

/// A word, or one name for all temporary files.
fn plain_word<'a>(word: &'a [u8]) -> &'a [u8]
    ensures { result.now ≡ plain_word word.now }
{
    if is_temporary(word) {
        b"temporary"
    } else {
        word
    }
}

/// Whether a program is the linker, that of a target, or what runs it.
fn is_linker(name: &[u8]) -> bool
    ensures { result ≡ is_linker name.now }
{
    name == b"collect2".as_slice() || name.ends_with(b"-ld")
}

/// A program by its name. What runs the linker is the linker.
fn plain_program<'a>(path: &'a [u8]) -> &'a [u8]
    ensures { result.now ≡ plain_program path.now }
{
    let name = base(path);
    if is_linker(name) { b"ld" } else { name }
}

/// Whether words are the same.
fn same_words(one: &[Word], other: &[Word]) -> bool
    ensures { result ≡ same_words one.now other.now }
{
    match one {
        [] => matches!(other, []),
        [a, one @ ..] => match other {
            [] => false,
            [b, other @ ..] => plain_word(a.as_bytes()) == plain_word(b.as_bytes())
                && same_words(one, other),
        },
    }
}

/// Whether commands, each its program and its words, are the same.
fn same_command(one: &[Word], other: &[Word]) -> bool
    ensures { result ≡ same_command one.now other.now }
{
    match one {
        [] => matches!(other, []),
        [a, one @ ..] => match other {
            [] => false,
            [b, other @ ..] => plain_program(a.as_bytes()) == plain_program(b.as_bytes())
                && same_words(one, other),
        },
    }
}

/// Whether two plans are the same: the same programs in the same order, each with the same words.
/// Each command is its program and its words.
pub fn same_commands(one: &[Listing<Word>], other: &[Listing<Word>]) -> bool
    ensures { result ≡ same_commands one.now other.now }
{
    match one {
        [] => matches!(other, []),
        [a, one @ ..] => match other {
            [] => false,
            [b, other @ ..] => same_command(a.as_slice(), b.as_slice())
                && same_commands(one, other),
        },
    }
}
