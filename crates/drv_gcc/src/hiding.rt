//! What a link is refused for: files of it in the folders of COMPILER_PATH.
//!
//! Words --gdrv-.. are the front's: gdrv-cc(1), SWITCHES FOR SPEC TEXTS. --gdrv-path= has a folder
//! of COMPILER_PATH, and --gdrv-dirs says that the line has -B or -specs=. docs/SPECS.md explains
//! `%{..}`.

ghost use Rattle.drv_gcc.specs.SpecFile.{file_of, hiding_body, hiding_text, there_test, there_tests};
ghost use Rattle.std.specs.List.{flat_map};
ghost use Rattle.std.specs.Prelude.{◌≡◌, ◌++◌, OnOk, drop, length, codes};

use crate::composing::push_entry;
use crate::toolchain::NamedText;
use drv_words::Word;
use std::alloc::{AllocError, Global};

/// How the name of a text for a file begins.
const FILE: &[u8] = b"file_";

/// Adds a test of whether a folder has a file.
#[tactic(auto, unfolding(crate::specs::SpecFile::there_test))]
fn push_there_test(body: &mut Word, name: &[u8]) -> Result<(), AllocError>
    ensures { OnOk result (body.new ≡ body.old ++ there_test name.now) }
{
    body.extend_from_slice(b"%:if-exists(%*/")?;
    body.extend_from_slice(name)?;
    body.extend_from_slice(b")|")
}

/// Adds that test, if a text is for a file.
#[tactic(auto, unfolding(crate::specs::SpecFile::there_tests))]
fn push_there(body: &mut Word, it: &NamedText) -> Result<(), AllocError>
    ensures { OnOk result (body.new ≡ body.old ++ there_tests it.now) }
{
    let name = it.name.as_bytes();
    if name.starts_with(FILE) {
        return push_there_test(body, name.get(FILE.len()..).unwrap_or(&[]));
    }
    Ok(())
}

/// Adds tests of whether a folder has one of these files.
fn push_all_there(body: &mut Word, texts: &[NamedText]) -> Result<(), AllocError>
    ensures { OnOk result (body.new ≡ body.old ++ flat_map there_tests texts.now) }
{
    for it in texts {
        push_there(body, it)?;
    }
    Ok(())
}

/// Adds what such a line is refused for.
#[tactic(auto, unfolding(crate::specs::SpecFile::hiding_body))]
fn push_hiding_body(body: &mut Word, texts: &[NamedText]) -> Result<(), AllocError>
    ensures { OnOk result (body.new ≡ body.old ++ hiding_body texts.now) }
{
    body.extend_from_slice(b"%{!-gdrv-path=*:;-gdrv-dirs:%{-gdrv-path=*:%{")?;
    push_all_there(body, texts)?;
    body.extend_from_slice(
        b"-gdrv-none:%e-B or -specs= beside a folder of COMPILER_PATH with files of a link is not \
in this spec file}}",
    )?;
    body.extend_from_slice(
        b"%<-gdrv-path=\\/* %{-gdrv-path=*:%e-B or -specs= beside a relative folder of \
COMPILER_PATH is not in this spec file}}",
    )?;
    Ok(())
}

/// Adds the text of what such a line is refused for.
#[tactic(auto, unfolding(crate::specs::SpecFile::hiding_text))]
pub(crate) fn push_hiding(
    alloc: Global,
    text: &mut Word,
    texts: &[NamedText],
) -> Result<(), AllocError>
    ensures { OnOk result (text.new ≡ text.old ++ hiding_text texts.now) }
{
    let mut body = Word::empty(alloc);
    push_hiding_body(&mut body, texts)?;
    push_entry(text, b"hiding_folders", body.as_bytes())
}
