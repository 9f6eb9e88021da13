//! The libraries of a link, as the linker's plugin gets them.

ghost use Rattle.drv_dump.specs.Ours.{put_words, words_of};
ghost use Rattle.drv_dump.specs.Passed.{copy_of, has_libraries, is_library, or_refusal, pass_words, passed_dump_of};
ghost use Rattle.drv_dump.specs.Passed.{passed_entry, passed_from, passed_name, passed_of, passed_word};
ghost use Rattle.drv_dump.specs.Passed.{passed_directive, with_option};
ghost use Rattle.drv_dump.specs.declared.fault.DumpFault.TheVariants as dump_fault;
ghost use Rattle.drv_dump.specs.declared.fault.OursFault.TheVariants.{Memory};
ghost use Rattle.drv_words.specs.Gives.{Gives};
ghost use Rattle.drv_dump.specs.Dumps.{written_entry};
ghost use Rattle.std.specs.Prelude.{◌≡◌, ◌++◌, [], IfOk, OnOk, Ok};

use crate::dump::{Entry, entries};
use crate::files::with_named_texts;
use crate::ours::push_piece;
use crate::turns_of_tests::is_white;
use crate::{DumpFault, Kind, OursFault, Piece, TextFault, read_text};
use drv_words::Word;
use std::alloc::{AllocError, Global};

/// The name of a library, or of an archive.
fn is_library(word: &[u8]) -> bool
    ensures { result ≡ is_library word.now }
{
    word.starts_with(b"-l") || word.ends_with(b".a")
}

/// Adds the option, and a word.
fn push_with_option(word: &[u8], copy: &mut Word) -> Result<(), AllocError>
    ensures { OnOk result (copy.new ≡ copy.old ++ with_option word.now) }
{
    copy.extend_from_slice(b"-plugin-opt=-pass-through=")?;
    copy.extend_from_slice(word)?;
    Ok(())
}

/// Adds what a word becomes.
fn push_word(word: &[u8], copy: &mut Word) -> Result<(), AllocError>
    ensures { OnOk result (copy.new ≡ copy.old ++ passed_word word.now) }
{
    if is_library(word) {
        return push_with_option(word, copy);
    }
    Ok(())
}

/// Adds what plain bytes become.
#[tactic(auto, using(crate::proofs::Passing::ended_next, crate::proofs::Passing::word_next))]
fn push_plain(alloc: Global, text: &[u8], copy: &mut Word) -> Result<(), AllocError>
    ensures { OnOk result (copy.new ≡ copy.old ++ passed_from [] text.now) }
{
    let mut word = Word::empty(alloc);
    let mut left = text;
    while let [byte, rest @ ..] = left {
        left = rest;
        if is_white(*byte) {
            push_word(word.as_bytes(), copy)?;
            copy.push(*byte)?;
            word = Word::empty(alloc);
            continue;
        }
        word.push(*byte)?;
    }
    push_word(word.as_bytes(), copy)
}

/// Adds what a named text becomes.
fn push_name(name: &[u8], copy: &mut Word) -> Result<(), AllocError>
    ensures { OnOk result (copy.new ≡ copy.old ++ passed_name name.now) }
{
    if name.starts_with(b"%(file_") {
        return push_with_option(name, copy);
    }
    copy.extend_from_slice(b"%(pass_")?;
    copy.extend_from_slice(name.get(2..).unwrap_or(b""))
}

/// Adds what a directive becomes.
fn push_directive(directive: &[u8], copy: &mut Word) -> Result<(), AllocError>
    ensures { OnOk result (copy.new ≡ copy.old ++ passed_directive directive.now) }
{
    if directive == b"%G".as_slice() {
        return copy.extend_from_slice(b"%(pass_libgcc)");
    }
    if directive == b"%L".as_slice() {
        return copy.extend_from_slice(b"%(pass_lib)");
    }
    Ok(())
}

/// Adds what a piece becomes.
fn push_passed(alloc: Global, piece: &Piece, copy: &mut Word) -> Result<(), OursFault>
    ensures { Gives Memory (λ u. copy.new) result
        (put_words copy.old (pass_words piece.now.kind piece.now.bytes) piece.now.bytes) }
{
    let bytes = piece.bytes.as_bytes();
    match piece.kind {
        Kind::Text => Ok(push_plain(alloc, bytes, copy)?),
        Kind::NamedText => Ok(push_name(bytes, copy)?),
        Kind::Directive => Ok(push_directive(bytes, copy)?),
        Kind::LinkerOption | Kind::Call => Ok(()),
        _ => push_piece(alloc, piece, copy),
    }
}

/// The copy of a text: its libraries alone, each with the option.
fn pass_text(alloc: Global, text: &[u8]) -> Result<Word, OursFault>
    ensures { Gives Memory (λ copy. copy) result (passed_of text.now) }
{
    let pieces = match read_text(alloc, text) {
        Ok(pieces) => pieces,
        Err(TextFault::Memory) => return Err(OursFault::Memory),
        Err(TextFault::Unreadable(misfit, at)) => return Err(OursFault::Unreadable(misfit, at)),
    };
    let named = with_named_texts(alloc, pieces.as_slice())?;
    let mut copy = Word::empty(alloc);
    for piece in named.as_slice() {
        push_passed(alloc, piece, &mut copy)?;
    }
    Ok(copy)
}

/// A text that names libraries.
#[tactic(auto, unfolding(crate::specs::Passed::has_libraries))]
fn has_libraries(name: &[u8]) -> bool
    ensures { result ≡ has_libraries name.now }
{
    name == b"link_gcc_c_sequence".as_slice() || name.starts_with(b"lib")
}

/// The copy of a text, or what refuses the lines that use it.
fn copy_or_refusal(alloc: Global, entry: &Entry) -> Result<Word, DumpFault>
    ensures { Gives dump_fault.Memory (λ words. words) result
        (Ok (or_refusal entry.now.name (passed_of entry.now.text))) }
{
    match pass_text(alloc, entry.text.as_bytes()) {
        Ok(words) => Ok(words),
        Err(OursFault::Memory) => Err(DumpFault::Memory),
        Err(OursFault::Unreadable(_, _) | OursFault::Lacking(_)) => {
            let mut words = Word::from_bytes(alloc, b"%etext ")?;
            words.extend_from_slice(entry.name.as_bytes())?;
            words.extend_from_slice(b" is not in this spec file")?;
            Ok(words)
        }
    }
}

/// Adds a text of this name.
fn push_text(texts: &mut Word, name: &[u8], words: &[u8]) -> Result<(), AllocError>
    ensures { OnOk result (texts.new ≡ texts.old ++ written_entry name.now words.now) }
{
    texts.extend_from_slice(b"*")?;
    texts.extend_from_slice(name)?;
    texts.extend_from_slice(b":\n")?;
    texts.extend_from_slice(words)?;
    texts.extend_from_slice(b"\n\n")
}

/// Two texts as one.
fn join(alloc: Global, first: &[u8], second: &[u8]) -> Result<Word, AllocError>
    ensures { IfOk result (λ word. word ≡ first.now ++ second.now) }
{
    let mut word = Word::from_bytes(alloc, first)?;
    word.extend_from_slice(second)?;
    Ok(word)
}

/// Adds the copy of an entry.
fn push_copy(alloc: Global, entry: &Entry, texts: &mut Word) -> Result<(), DumpFault>
    ensures { Gives dump_fault.Memory (λ u. texts.new) result (Ok (texts.old ++ copy_of entry.now)) }
{
    let words = copy_or_refusal(alloc, entry)?;
    let name = join(alloc, b"pass_", entry.name.as_bytes())?;
    let body = join(alloc, b"%{-gdrv-none:}", words.as_bytes())?;
    push_text(texts, name.as_bytes(), body.as_bytes())?;
    Ok(())
}

/// Adds the copy of an entry, if it names libraries.
fn push_entry(alloc: Global, entry: &Entry, texts: &mut Word) -> Result<(), DumpFault>
    ensures { Gives dump_fault.Memory (λ u. texts.new) result (Ok (texts.old ++ passed_entry entry.now)) }
{
    if has_libraries(entry.name.as_bytes()) {
        return push_copy(alloc, entry, texts);
    }
    Ok(())
}

/// The texts that name the libraries of a link, for the linker's plugin: a copy `pass_NAME` of each
/// such text of a dump.
///
/// # Errors
/// `Misplaced` as for `translate_dump`.
pub fn pass_libraries(alloc: Global, dump: &[u8]) -> Result<Word, DumpFault>
    ensures { Gives dump_fault.Memory (λ texts. texts) result (passed_dump_of dump.now) }
{
    let entries = entries(alloc, dump)?;
    let mut texts = Word::empty(alloc);
    for entry in entries.as_slice() {
        push_entry(alloc, entry, &mut texts)?;
    }
    Ok(texts)
}
