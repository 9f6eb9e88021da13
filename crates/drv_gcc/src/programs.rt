//! The texts of the programs of a gcc.

ghost use Rattle.drv_gcc.specs.SpecFile.{entry, folder_of_plugins, linker_body, linker_text, looked_for};
ghost use Rattle.drv_gcc.specs.SpecFile.{or_nothing, own_linker, plugin_texts, program_body};
ghost use Rattle.drv_gcc.specs.SpecFile.{program_choice, program_text, program_texts, tool_texts, wrapped_text};
ghost use Rattle.std.specs.List.{flat_map};
ghost use Rattle.std.specs.Prelude.{◌≡◌, ◌++◌, OnOk};

use crate::composing::push_entry;
use crate::toolchain::{Finding, Linker, Program, Programs};
use crate::words::{push_or_nothing, push_word};
use drv_words::Word;
use std::alloc::{AllocError, Global};

/// Adds the tests of a line for which a program is looked for by its name.
#[tactic(auto, unfolding(crate::specs::SpecFile::looked_for))]
fn push_looked_for(body: &mut Word, finding: Finding) -> Result<(), AllocError>
    ensures { OnOk result (body.new ≡ body.old ++ looked_for finding) }
{
    match finding {
        Finding::Own => body.extend_from_slice(b"-gdrv-dirs|-gdrv-path=*"),
        Finding::Along => body.extend_from_slice(b"-gdrv-dirs|-gdrv-path=*|-gdrv-wrapper=*"),
        Finding::Fixed => body.extend_from_slice(b"-gdrv-none"),
    }
}

/// Adds the name of a program for these lines, and its path for others.
#[tactic(auto, unfolding(crate::specs::SpecFile::program_choice))]
fn push_choice_of(body: &mut Word, name: &[u8], it: &Program) -> Result<(), AllocError>
    ensures { OnOk result (body.new ≡ body.old ++ program_choice name.now it.now) }
{
    push_looked_for(body, it.finding)?;
    body.extend_from_slice(b":")?;
    body.extend_from_slice(name)?;
    body.extend_from_slice(b";:")?;
    push_word(body, it.path.as_bytes())?;
    Ok(())
}

/// Adds what finds a program.
#[tactic(auto, unfolding(crate::specs::SpecFile::program_body))]
fn push_program_body(body: &mut Word, name: &[u8], it: &Program) -> Result<(), AllocError>
    ensures { OnOk result (body.new ≡ body.old ++ program_body name.now it.now) }
{
    body.extend_from_slice(b"%{")?;
    push_choice_of(body, name, it)?;
    body.extend_from_slice(b"}%(wrapped)")?;
    Ok(())
}

/// Adds the text of a program.
#[tactic(auto, unfolding(crate::specs::SpecFile::program_text))]
fn push_program(
    alloc: Global,
    text: &mut Word,
    entry: &[u8],
    name: &[u8],
    it: &Program,
) -> Result<(), AllocError>
    ensures { OnOk result (text.new ≡ text.old ++ program_text entry.now name.now it.now) }
{
    let mut body = Word::empty(alloc);
    push_program_body(&mut body, name, it)?;
    push_entry(text, entry, body.as_bytes())
}

/// Adds the text of a program that the words of `-wrapper` precede.
#[tactic(auto, unfolding(crate::specs::SpecFile::wrapped_text))]
fn push_wrapped(
    alloc: Global,
    text: &mut Word,
    entry: &[u8],
    name: &[u8],
    it: &Program,
) -> Result<(), AllocError>
    ensures { OnOk result (text.new ≡ text.old ++ wrapped_text entry.now name.now it.now) }
{
    let mut body = Word::from_bytes(alloc, b"%(wrapper)")?;
    push_program_body(&mut body, name, it)?;
    push_entry(text, entry, body.as_bytes())
}

/// Adds a linker of `-fuse-ld=`.
#[tactic(auto, unfolding(crate::specs::SpecFile::own_linker))]
fn push_own_linker(body: &mut Word, it: &Linker) -> Result<(), AllocError>
    ensures { OnOk result (body.new ≡ body.old ++ own_linker it.now) }
{
    body.extend_from_slice(b"fuse-ld=")?;
    body.extend_from_slice(it.name.as_bytes())?;
    body.extend_from_slice(b":%{-gdrv-dirs|-gdrv-path=*:ld.")?;
    body.extend_from_slice(it.name.as_bytes())?;
    body.extend_from_slice(b";:")?;
    push_word(body, it.path.as_bytes())?;
    body.extend_from_slice(b"};")?;
    Ok(())
}

/// Adds the linkers of `-fuse-ld=`.
fn push_own_linkers(body: &mut Word, linkers: &[Linker]) -> Result<(), AllocError>
    ensures { OnOk result (body.new ≡ body.old ++ flat_map own_linker linkers.now) }
{
    for it in linkers {
        push_own_linker(body, it)?;
    }
    Ok(())
}

/// Adds what chooses a linker.
#[tactic(auto, unfolding(crate::specs::SpecFile::linker_body))]
fn push_linker_body(body: &mut Word, linkers: &[Linker], linker: &Program) -> Result<(), AllocError>
    ensures { OnOk result (body.new ≡ body.old ++ linker_body linkers.now linker.now) }
{
    body.extend_from_slice(b"%(wrapper)%{")?;
    push_own_linkers(body, linkers)?;
    body.extend_from_slice(b"fuse-ld=*:ld.%*;")?;
    push_choice_of(body, b"ld", linker)?;
    body.extend_from_slice(b"}%(wrapped)")?;
    Ok(())
}

/// Adds the text of the linker.
#[tactic(auto, unfolding(crate::specs::SpecFile::linker_text))]
fn push_linker(alloc: Global, text: &mut Word, programs: &Programs) -> Result<(), AllocError>
    ensures { OnOk result (text.new ≡ text.old ++ linker_text programs.now) }
{
    let mut body = Word::empty(alloc);
    push_linker_body(&mut body, programs.linkers.as_slice(), &programs.linker)?;
    push_entry(text, b"linker", body.as_bytes())
}

/// Adds a text of one word, or of none.
fn push_one(alloc: Global, text: &mut Word, name: &[u8], word: &[u8]) -> Result<(), AllocError>
    ensures { OnOk result (text.new ≡ text.old ++ entry name.now (or_nothing word.now)) }
{
    let mut body = Word::empty(alloc);
    push_or_nothing(&mut body, word)?;
    push_entry(text, name, body.as_bytes())
}

/// Adds the texts of compiler, assembler and what splits objects.
#[tactic(auto, unfolding(crate::specs::SpecFile::tool_texts))]
fn push_tools(
    alloc: Global,
    text: &mut Word,
    compiler: &Program,
    assembler: &Program,
    objcopy: &Program,
) -> Result<(), AllocError>
    ensures { OnOk result (text.new ≡ text.old ++ tool_texts compiler.now assembler.now objcopy.now) }
{
    push_wrapped(alloc, text, b"cc1_cmd", b"cc1", compiler)?;
    push_program(alloc, text, b"as_cmd", b"as", assembler)?;
    push_wrapped(alloc, text, b"objcopy_cmd", b"objcopy", objcopy)?;
    Ok(())
}

/// Adds the text of the folder of plugins.
#[tactic(auto, unfolding(crate::specs::SpecFile::folder_of_plugins))]
fn push_plugins(alloc: Global, text: &mut Word, folder: &[u8]) -> Result<(), AllocError>
    ensures { OnOk result (text.new ≡ text.old ++ folder_of_plugins folder.now) }
{
    let mut body = Word::from_bytes(alloc, b"-iplugindir=")?;
    push_word(&mut body, folder)?;
    push_entry(text, b"plugin_folder", body.as_bytes())
}

/// Adds the texts of plugins.
#[tactic(auto, unfolding(crate::specs::SpecFile::plugin_texts))]
fn push_all_plugins(
    alloc: Global,
    text: &mut Word,
    plugin: &[u8],
    wrapper: &[u8],
    folder: &[u8],
) -> Result<(), AllocError>
    ensures { OnOk result (text.new ≡ text.old ++ plugin_texts plugin.now wrapper.now folder.now) }
{
    push_one(alloc, text, b"linker_plugin_file", plugin)?;
    push_one(alloc, text, b"lto_wrapper", wrapper)?;
    push_plugins(alloc, text, folder)?;
    Ok(())
}

/// Adds the texts of the programs.
#[tactic(auto, unfolding(crate::specs::SpecFile::program_texts))]
pub(crate) fn push_programs(
    alloc: Global,
    text: &mut Word,
    programs: &Programs,
) -> Result<(), AllocError>
    ensures { OnOk result (text.new ≡ text.old ++ program_texts programs.now) }
{
    push_tools(
        alloc,
        text,
        &programs.compiler,
        &programs.assembler,
        &programs.objcopy,
    )?;
    push_linker(alloc, text, programs)?;
    push_all_plugins(
        alloc,
        text,
        programs.plugin.as_bytes(),
        programs.lto_wrapper.as_bytes(),
        programs.plugin_folder.as_bytes(),
    )
}
