//! The spec file of a gcc.

ghost use Rattle.drv_gcc.specs.Replacing.{replaced};
ghost use Rattle.drv_gcc.specs.SpecFile.{entry, file_body, folder_body, folder_texts, found_body};
ghost use Rattle.drv_gcc.specs.SpecFile.{guard_alone, headers_text, hidden_folder, included_text};
ghost use Rattle.drv_gcc.specs.SpecFile.{libraries_text};
ghost use Rattle.drv_gcc.specs.SpecFile.{library_words, line_root, machine_texts, named_text};
ghost use Rattle.drv_gcc.specs.SpecFile.{options_text, own_text, placed_body};
ghost use Rattle.drv_gcc.specs.SpecFile.{refusals_text, refused_option, root_guard, root_text};
ghost use Rattle.drv_gcc.specs.SpecFile.{root_words, rooted_words, served_words, spec_file};
ghost use Rattle.drv_gcc.specs.SpecFile.{then_blank};
ghost use Rattle.std.specs.List.{flat_map};
ghost use Rattle.std.specs.Prelude.{◌≡◌, ◌++◌, IfOk, OnOk, codes};

use crate::choices::push_choice;
use crate::fixed::{push_first, push_last};
use crate::hiding::push_hiding;
use crate::programs::push_programs;
use crate::replacing::replace;
use crate::toolchain::{Alone, Choice, Included, NamedText, Toolchain};
use crate::words::{push_test, push_then_blank, push_word};
use drv_words::Word;
use std::alloc::{AllocError, Global};

/// Adds a text of this name.
#[tactic(auto, unfolding(crate::specs::SpecFile::entry))]
pub(crate) fn push_entry(text: &mut Word, name: &[u8], body: &[u8]) -> Result<(), AllocError>
    ensures { OnOk result (text.new ≡ text.old ++ entry name.now body.now) }
{
    text.push(b'*')?;
    text.extend_from_slice(name)?;
    text.extend_from_slice(b":\n")?;
    text.extend_from_slice(body)?;
    text.extend_from_slice(b"\n\n")
}

/// Adds a named text.
#[tactic(auto, unfolding(crate::specs::SpecFile::named_text))]
fn push_named_text(alloc: Global, text: &mut Word, it: &NamedText) -> Result<(), AllocError>
    ensures { OnOk result (text.new ≡ text.old ++ named_text it.now) }
{
    let mut body = Word::empty(alloc);
    push_choice(&mut body, &it.choice)?;
    push_entry(text, it.name.as_bytes(), body.as_bytes())
}

/// Adds what finds a file that gcc has at a path.
#[tactic(auto, unfolding(crate::specs::SpecFile::found_body))]
fn push_found(body: &mut Word, name: &[u8], path: &[u8]) -> Result<(), AllocError>
    ensures { OnOk result (body.new ≡ body.old ++ found_body name.now path.now) }
{
    body.extend_from_slice(b"%{-gdrv-dirs:")?;
    body.extend_from_slice(name)?;
    body.extend_from_slice(b"%s;:")?;
    push_word(body, path)?;
    body.extend_from_slice(b"}")?;
    Ok(())
}

/// Adds what finds a file.
#[tactic(auto, unfolding(crate::specs::SpecFile::file_body))]
fn push_file_body(body: &mut Word, name: &[u8], path: &[u8]) -> Result<(), AllocError>
    ensures { OnOk result (body.new ≡ body.old ++ file_body name.now path.now) }
{
    if !path.is_empty() {
        return push_found(body, name, path);
    }
    body.extend_from_slice(name)?;
    body.extend_from_slice(b"%s")
}

/// The text that finds a file of this name, which gcc has at this path; or nowhere, if that is
/// empty.
pub fn file_text(alloc: Global, name: &[u8], path: &[u8]) -> Result<Word, AllocError>
    ensures { IfOk result (λ body. body ≡ file_body name.now path.now) }
{
    let mut body = Word::empty(alloc);
    push_file_body(&mut body, name, path)?;
    Ok(body)
}

/// The text for the folder of files.
#[tactic(auto, unfolding(crate::specs::SpecFile::folder_body))]
pub fn folder_text(alloc: Global, folder: &[u8]) -> Result<Word, AllocError>
    ensures { IfOk result (λ body. body ≡ folder_body folder.now) }
{
    let mut body = Word::from_bytes(alloc, b"%{-gdrv-dirs:;:")?;
    push_word(&mut body, folder)?;
    body.extend_from_slice(b"}")?;
    Ok(body)
}

/// The text that finds a file of this name, which gcc has in a folder with a text of its own.
#[tactic(auto, unfolding(crate::specs::SpecFile::placed_body))]
pub fn placed_text(alloc: Global, name: &[u8], folder: &[u8]) -> Result<Word, AllocError>
    ensures { IfOk result (λ body. body ≡ placed_body name.now folder.now) }
{
    let mut body = Word::from_bytes(alloc, b"%(in_")?;
    body.extend_from_slice(folder)?;
    body.extend_from_slice(b")")?;
    body.extend_from_slice(name)?;
    body.extend_from_slice(b"%s")?;
    Ok(body)
}

/// Adds the texts of a file that a text includes.
#[tactic(auto, unfolding(crate::specs::SpecFile::included_text))]
fn push_included(alloc: Global, text: &mut Word, it: &Included) -> Result<(), AllocError>
    ensures { OnOk result (text.new ≡ text.old ++ included_text it.now) }
{
    let mut name = Word::from_bytes(alloc, b"include_")?;
    name.extend_from_slice(it.name.as_bytes())?;
    if it.is_there {
        push_entry(text, name.as_bytes(), b"%{-gdrv-none:}")?;
        return text.extend_from_slice(it.texts.as_bytes());
    }
    let mut body = Word::from_bytes(alloc, b"%espec file '")?;
    body.extend_from_slice(it.name.as_bytes())?;
    body.extend_from_slice(b"' not found")?;
    push_entry(text, name.as_bytes(), body.as_bytes())
}

/// Adds what takes a folder out of the -B of a line.
#[tactic(auto, unfolding(crate::specs::SpecFile::hidden_folder))]
fn push_hidden(body: &mut Word, folder: &[u8]) -> Result<(), AllocError>
    ensures { OnOk result (body.new ≡ body.old ++ hidden_folder folder.now) }
{
    body.extend_from_slice(b"%<B")?;
    push_test(body, folder)?;
    body.extend_from_slice(b" ")
}

/// Adds what takes folders out of the -B of a line.
fn push_all_hidden(body: &mut Word, folders: &[Word]) -> Result<(), AllocError>
    ensures { OnOk result (body.new ≡ body.old ++ flat_map hidden_folder folders.now) }
{
    for folder in folders {
        push_hidden(body, folder.as_bytes())?;
    }
    Ok(())
}

/// Adds words, each with a blank after it.
fn push_words(body: &mut Word, words: &[Word]) -> Result<(), AllocError>
    ensures { OnOk result (body.new ≡ body.old ++ flat_map then_blank words.now) }
{
    for word in words {
        push_then_blank(body, word.as_bytes())?;
    }
    Ok(())
}

/// Adds the text of gcc's own folders.
#[tactic(auto, unfolding(crate::specs::SpecFile::own_text))]
fn push_own(alloc: Global, text: &mut Word, folders: &[Word]) -> Result<(), AllocError>
    ensures { OnOk result (text.new ≡ text.old ++ own_text folders.now) }
{
    let mut body = Word::from_bytes(alloc, b"%{-gdrv-dirs|-gdrv-path=*:")?;
    push_all_hidden(&mut body, folders)?;
    body.extend_from_slice(b"}")?;
    push_entry(text, b"own_folders", body.as_bytes())
}

/// The text of words.
pub fn words_text(alloc: Global, words: &[Word]) -> Result<Word, AllocError>
    ensures { IfOk result (λ text. text ≡ flat_map then_blank words.now) }
{
    let mut text = Word::empty(alloc);
    push_words(&mut text, words)?;
    Ok(text)
}

/// Adds words for folders of libraries.
#[tactic(auto, unfolding(crate::specs::SpecFile::library_words))]
fn push_library_words(
    body: &mut Word,
    before: &[Word],
    words: &[Word],
    last: &[u8],
) -> Result<(), AllocError>
    ensures { OnOk result (body.new ≡ body.old ++ library_words before.now words.now last.now) }
{
    push_words(body, before)?;
    body.extend_from_slice(b"%{B*:-L%*} ")?;
    push_words(body, words)?;
    body.extend_from_slice(b"%{-gdrv-lib=*:-L%*} ")?;
    push_word(body, last)?;
    Ok(())
}

/// The text of words for folders of libraries: those before gcc's own folder, those of -B, that
/// folder and others, and the last one after those of LIBRARY_PATH.
pub fn libraries(
    alloc: Global,
    before: &[Word],
    words: &[Word],
    last: &[u8],
) -> Result<Word, AllocError>
    ensures { IfOk result (λ text. text ≡ library_words before.now words.now last.now) }
{
    let mut text = Word::empty(alloc);
    push_library_words(&mut text, before, words, last)?;
    Ok(text)
}

/// Adds texts for lines with another root and without one.
#[tactic(auto, unfolding(crate::specs::SpecFile::rooted_words))]
fn push_rooted(body: &mut Word, plain: &[u8], below: &[u8]) -> Result<(), AllocError>
    ensures { OnOk result (body.new ≡ body.old ++ rooted_words plain.now below.now) }
{
    body.extend_from_slice(b"%{-sysroot=*:")?;
    body.extend_from_slice(below)?;
    body.extend_from_slice(b";:")?;
    body.extend_from_slice(plain)?;
    body.extend_from_slice(b"}")?;
    Ok(())
}

/// The text for lines with another root and without one, of what is said with a root that was tried
/// and without one.
pub fn rooted_text(
    alloc: Global,
    plain: &[u8],
    rooted: &[u8],
    root: &[u8],
) -> Result<Word, AllocError>
    ensures { IfOk result (λ text. text
        ≡ rooted_words plain.now (replaced root.now (codes "%*") 0 rooted.now)) }
{
    let below = replace(alloc, rooted, root, b"%*")?;
    let mut text = Word::empty(alloc);
    push_rooted(&mut text, plain, below.as_bytes())?;
    Ok(text)
}

/// Adds the text of the folders of headers.
#[tactic(auto, unfolding(crate::specs::SpecFile::headers_text))]
fn push_headers(alloc: Global, text: &mut Word, words: &Choice) -> Result<(), AllocError>
    ensures { OnOk result (text.new ≡ text.old ++ headers_text words.now) }
{
    let mut body = Word::from_bytes(alloc, b"%(own_folders) ")?;
    push_choice(&mut body, words)?;
    body.extend_from_slice(b" %{B*:-isystem %*/include} %{-gdrv-path=*:-isystem %*/include}")?;
    push_entry(text, b"include_words", body.as_bytes())
}

/// Adds the text of the folders of libraries.
#[tactic(auto, unfolding(crate::specs::SpecFile::libraries_text))]
fn push_libraries(alloc: Global, text: &mut Word, folders: &Choice) -> Result<(), AllocError>
    ensures { OnOk result (text.new ≡ text.old ++ libraries_text folders.now) }
{
    let mut body = Word::from_bytes(alloc, b"%(own_folders) ")?;
    push_choice(&mut body, folders)?;
    push_entry(text, b"link_folders", body.as_bytes())
}

/// Adds the texts of the folders.
#[tactic(auto, unfolding(crate::specs::SpecFile::folder_texts))]
fn push_folders(alloc: Global, text: &mut Word, gcc: &Toolchain) -> Result<(), AllocError>
    ensures { OnOk result (text.new ≡ text.old ++ folder_texts gcc.now) }
{
    push_own(alloc, text, gcc.folders.as_slice())?;
    push_headers(alloc, text, &gcc.include_words)?;
    push_libraries(alloc, text, &gcc.link_folders)
}

/// Adds the root of the line, or else that of the gcc.
#[tactic(auto, unfolding(crate::specs::SpecFile::line_root))]
fn push_line_root(body: &mut Word, own: &[u8]) -> Result<(), AllocError>
    ensures { OnOk result (body.new ≡ body.old ++ line_root own.now) }
{
    body.extend_from_slice(b"%{-sysroot=*:--sysroot=%*;:")?;
    push_word(body, own)?;
    body.extend_from_slice(b"}")?;
    Ok(())
}

/// Adds the words for the root of a link.
#[tactic(auto, unfolding(crate::specs::SpecFile::root_words))]
fn push_root_words(body: &mut Word, is_rooted: bool, own: &[u8]) -> Result<(), AllocError>
    ensures { OnOk result (body.new ≡ body.old ++ root_words is_rooted own.now) }
{
    if is_rooted {
        return push_line_root(body, own);
    }
    push_word(body, own)
}

/// Adds the text of a link, in which the root precedes all other words.
#[tactic(auto, unfolding(crate::specs::SpecFile::root_text))]
fn push_root(text: &mut Word, is_rooted: bool, own: &[u8]) -> Result<(), AllocError>
    ensures { OnOk result (text.new ≡ text.old ++ root_text is_rooted own.now) }
{
    text.extend_from_slice(b"%rename link link_of_gcc\n\n*link:\n")?;
    push_root_words(text, is_rooted, own)?;
    text.extend_from_slice(b" %(link_of_gcc)\n\n")
}

/// Adds what a line with another root is refused for.
#[tactic(auto, unfolding(crate::specs::SpecFile::root_guard))]
fn push_root_guard(text: &mut Word, is_rooted: bool) -> Result<(), AllocError>
    ensures { OnOk result (text.new ≡ text.old ++ root_guard is_rooted) }
{
    if is_rooted {
        return push_entry(text, b"refused_root", b"%{-gdrv-none:}");
    }
    push_entry(
        text,
        b"refused_root",
        b"%{-sysroot=*:%e--sysroot= is not in this spec file}",
    )
}

/// Adds the refusal of an option.
#[tactic(auto, unfolding(crate::specs::SpecFile::refused_option))]
fn push_refused(body: &mut Word, option: &[u8]) -> Result<(), AllocError>
    ensures { OnOk result (body.new ≡ body.old ++ refused_option option.now) }
{
    body.extend_from_slice(b"%{")?;
    body.extend_from_slice(option.get(1..).unwrap_or(&[]))?;
    body.extend_from_slice(b":%e")?;
    body.extend_from_slice(option)?;
    body.extend_from_slice(b" is not in this spec file}")
}

/// Adds the refusals of options.
fn push_all_refused(body: &mut Word, options: &[Word]) -> Result<(), AllocError>
    ensures { OnOk result (body.new ≡ body.old ++ flat_map refused_option options.now) }
{
    for option in options {
        push_refused(body, option.as_bytes())?;
    }
    Ok(())
}

/// Adds words for lines without the front.
#[tactic(auto, unfolding(crate::specs::SpecFile::served_words))]
fn push_served(body: &mut Word, words: &[Word]) -> Result<(), AllocError>
    ensures { OnOk result (body.new ≡ body.old ++ served_words words.now) }
{
    body.extend_from_slice(b"%{!-gdrv-front:")?;
    push_words(body, words)?;
    body.extend_from_slice(b"}")
}

/// Adds the text of the options for the machine.
#[tactic(auto, unfolding(crate::specs::SpecFile::options_text))]
fn push_options(alloc: Global, text: &mut Word, alone: &Alone) -> Result<(), AllocError>
    ensures { OnOk result (text.new ≡ text.old ++ options_text alone.now) }
{
    let mut body = Word::from_bytes(alloc, b"%{m*} ")?;
    if let Alone::Served(words) = alone {
        push_served(&mut body, words.as_slice())?;
    }
    push_entry(text, b"machine_options", body.as_bytes())
}

/// Adds what refuses lines without the front, if none is served.
fn push_guard_alone(body: &mut Word, alone: &Alone) -> Result<(), AllocError>
    ensures { OnOk result (body.new ≡ body.old ++ guard_alone alone.now) }
{
    match alone {
        Alone::Served(_words) => Ok(()),
        Alone::Refused => {
            body.extend_from_slice(b"%{!-gdrv-front:%ethis spec file needs gdrv-cc}")
        }
    }
}

/// Adds the text of the refused options.
#[tactic(auto, unfolding(crate::specs::SpecFile::refusals_text))]
fn push_refusals(
    alloc: Global,
    text: &mut Word,
    options: &[Word],
    alone: &Alone,
) -> Result<(), AllocError>
    ensures { OnOk result (text.new ≡ text.old ++ refusals_text options.now alone.now) }
{
    let mut body = Word::from_bytes(alloc, b"%{-gdrv-none:}")?;
    push_guard_alone(&mut body, alone)?;
    push_all_refused(&mut body, options)?;
    push_entry(text, b"refused_options", body.as_bytes())
}

/// Adds the texts for the machine.
#[tactic(auto, unfolding(crate::specs::SpecFile::machine_texts))]
fn push_machine(alloc: Global, text: &mut Word, gcc: &Toolchain) -> Result<(), AllocError>
    ensures { OnOk result (text.new ≡ text.old ++ machine_texts gcc.now) }
{
    push_options(alloc, text, &gcc.alone)?;
    push_refusals(alloc, text, gcc.refused.as_slice(), &gcc.alone)?;
    push_entry(text, b"multilib_folder", gcc.library.as_bytes())
}

/// Adds named texts.
fn push_all_named(alloc: Global, text: &mut Word, named: &[NamedText]) -> Result<(), AllocError>
    ensures { OnOk result (text.new ≡ text.old ++ flat_map named_text named.now) }
{
    for it in named {
        push_named_text(alloc, text, it)?;
    }
    Ok(())
}

/// Adds the texts of files that texts include.
fn push_all_included(alloc: Global, text: &mut Word, files: &[Included]) -> Result<(), AllocError>
    ensures { OnOk result (text.new ≡ text.old ++ flat_map included_text files.now) }
{
    for file in files {
        push_included(alloc, text, file)?;
    }
    Ok(())
}

/// The spec file of a gcc: its dump's texts, and those that say where this gcc has what they name,
/// what it adds for its machine, and how it compiles a source of each language.
#[tactic(auto, unfolding(crate::specs::SpecFile::spec_file))]
pub fn spec_file(alloc: Global, gcc: &Toolchain) -> Result<Word, AllocError>
    ensures { IfOk result (λ text. text ≡ spec_file gcc.now) }
{
    let mut text = Word::empty(alloc);
    push_first(&mut text)?;
    text.extend_from_slice(gcc.texts.as_bytes())?;
    push_root(&mut text, gcc.is_rooted, gcc.sysroot.as_bytes())?;
    text.extend_from_slice(gcc.passed.as_bytes())?;
    push_all_named(alloc, &mut text, gcc.named.as_slice())?;
    push_hiding(alloc, &mut text, gcc.named.as_slice())?;
    push_all_included(alloc, &mut text, gcc.included.as_slice())?;
    push_folders(alloc, &mut text, gcc)?;
    push_programs(alloc, &mut text, &gcc.programs)?;
    push_machine(alloc, &mut text, gcc)?;
    push_root_guard(&mut text, gcc.is_rooted)?;
    push_last(&mut text, gcc.side_files)?;
    Ok(text)
}
