//! Runs of bytes of one class, and words with escapes.

ghost use Rattle.drv_syntax.specs.Descent as descent;
ghost use Rattle.drv_syntax.specs.Code.Writing.{in_class, more_ran, ran, seen, words_seen};
ghost use Rattle.drv_syntax.specs.Rest.{begins_with};
ghost use Rattle.drv_syntax.specs.Rest.{first_of, second_of};
ghost use Rattle.drv_words.specs.Gives.{Gives};
ghost use Rattle.std.specs.Prelude.{◌≡◌, [], Ok};

use crate::descent::bytes::is_word;
use crate::descent::contexts::ListKind;
use crate::descent::reader::{Reader, Spelled};
use crate::descent::runs::{RunKind, run_length};
use crate::fault::SyntaxFault;

/// What the bytes of a word can be.
#[derive(Clone, Copy)]
pub enum Class {
    /// Those of `%x{OPTION}`.
    Option,
    /// Those of a pattern or a test.
    Word,
    /// Those of a text for the user, in a list of this kind.
    Said(ListKind),
}

/// The byte belongs to the class.
#[inline(always)]
pub fn belongs(class: Class, b: u8) -> bool
    ensures { result ≡ in_class class b }
{
    match class {
        Class::Option => b != b'}',
        Class::Word => is_word(b),
        Class::Said(ListKind::Top | ListKind::InArguments) => b != b'\n',
        Class::Said(ListKind::InX) => b != b'\n' && b != b';' && b != b'}',
    }
}

/// The text begins with this byte.
#[inline(always)]
pub fn begins(b: u8, text: &[u8]) -> bool
    ensures { result ≡ begins_with b text.now }
{
    match text {
        [] => false,
        [first, ..] => *first == b,
    }
}

/// The first byte of a text.
#[inline(always)]
pub fn first(text: &[u8]) -> Option<u8>
    ensures { result ≡ first_of text.now }
{
    match text {
        [] => None,
        [b, ..] => Some(*b),
    }
}

/// The second byte of a text.
#[inline(always)]
pub fn second(text: &[u8]) -> Option<u8>
    ensures { result ≡ second_of text.now }
{
    match text {
        [_, b, ..] => Some(*b),
        _ => None,
    }
}

/// More of a run of bytes of the class and of escapes, after this part of it; nothing where the text
/// ends in an escape.
fn escaped_run<'a>(
    class: Class,
    front: &[u8],
    r: &mut Reader<'a>,
) -> Result<Option<Spelled<'a>>, SyntaxFault>
    ensures { Gives SyntaxFault.Memory (λ word. words_seen word r.new.word.items (seen r.new))
        result (Ok (more_ran front.now (descent.quoted (in_class class) r.old.rest) (seen r.old))) }
{
    r.word.clear();
    r.word.extend_from_slice(front)?;
    while let Some(b) = first(r.rest.bytes()) {
        if b == b'\\' {
            let Some(escaped) = second(r.rest.bytes()) else {
                return Ok(None);
            };
            r.word.push(escaped)?;
            r.rest.take(2);
        } else if belongs(class, b) {
            r.word.push(b)?;
            r.rest.take(1);
        } else {
            return Ok(Some(Spelled::Copied));
        }
    }
    Ok(Some(Spelled::Copied))
}

/// The longest run of bytes of the class and of escapes; nothing where the text ends in an escape.
#[inline(always)]
pub fn word_run<'a>(class: Class, r: &mut Reader<'a>) -> Result<Option<Spelled<'a>>, SyntaxFault>
    ensures { Gives SyntaxFault.Memory (λ word. words_seen word r.new.word.items (seen r.new))
        result (Ok (ran (descent.quoted (in_class class) r.old.rest) (seen r.old))) }
{
    let size = run_length(RunKind::Word(class), r.rest.bytes());
    let run = r.rest.take(size);
    if !begins(b'\\', r.rest.bytes()) {
        return Ok(Some(Spelled::Lent(run)));
    }
    escaped_run(class, run, r)
}
