//! Texts for the libraries of a line.

ghost use Rattle.drv_gcc.specs.SpecFile.{alternatives, chosen, for_machine};
ghost use Rattle.std.specs.List.{flat_map};
ghost use Rattle.std.specs.Prelude.{◌≡◌, ◌++◌, OnOk};

use crate::toolchain::{Choice, ForMachine};
use drv_words::Word;
use std::alloc::AllocError;

/// Adds the text for libraries.
#[tactic(auto, unfolding(crate::specs::SpecFile::for_machine))]
fn push_for_machine(body: &mut Word, it: &ForMachine) -> Result<(), AllocError>
    ensures { OnOk result (body.new ≡ body.old ++ for_machine it.now) }
{
    body.extend_from_slice(it.test.as_bytes())?;
    body.extend_from_slice(b":")?;
    body.extend_from_slice(it.text.as_bytes())?;
    body.extend_from_slice(b";")
}

/// Adds the texts for libraries.
fn push_for_machines(body: &mut Word, others: &[ForMachine]) -> Result<(), AllocError>
    ensures { OnOk result (body.new ≡ body.old ++ flat_map for_machine others.now) }
{
    for it in others {
        push_for_machine(body, it)?;
    }
    Ok(())
}

/// Adds texts of which a line chooses one.
#[tactic(auto, unfolding(crate::specs::SpecFile::alternatives))]
fn push_alternatives(body: &mut Word, own: &[u8], others: &[ForMachine]) -> Result<(), AllocError>
    ensures { OnOk result (body.new ≡ body.old ++ alternatives own.now others.now) }
{
    body.extend_from_slice(b"%{")?;
    push_for_machines(body, others)?;
    body.extend_from_slice(b":")?;
    body.extend_from_slice(own)?;
    body.extend_from_slice(b"}")
}

/// Adds a text for the libraries of the line.
#[tactic(auto, unfolding(crate::specs::SpecFile::chosen))]
pub(crate) fn push_choice(body: &mut Word, it: &Choice) -> Result<(), AllocError>
    ensures { OnOk result (body.new ≡ body.old ++ chosen it.now) }
{
    if !it.others.as_slice().is_empty() {
        return push_alternatives(body, it.own.as_bytes(), it.others.as_slice());
    }
    body.extend_from_slice(it.own.as_bytes())
}
