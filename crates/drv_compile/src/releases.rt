//! What a gcc before release 11 doesn't give its children.

ghost use Rattle.drv_compile.specs.Releases.{before_last, children_by, early_variable, is_early};
ghost use Rattle.drv_compile.specs.Releases.{is_early_version, without_dumps};
ghost use Rattle.std.specs.Prelude.{◌≡◌, IfOk, map};

use crate::compilers::first_value;
use crate::machines::options_of;
use bstr::ByteSlice;
use drv_cc::Variable;
use drv_words::{Listing, Word};
use std::alloc::{AllocError, Global};

/// Whether a version of gcc is before release 11.
fn is_early_version(version: &[u8]) -> bool
    ensures { result ≡ is_early_version version.now }
{
    version.starts_with(b"3.")
        || version.starts_with(b"4.")
        || version.starts_with(b"5.")
        || version.starts_with(b"6.")
        || version.starts_with(b"7.")
        || version.starts_with(b"8.")
        || version.starts_with(b"9.")
        || version.starts_with(b"10.")
}

/// Whether a text about a compiler says that it is a gcc before release 11.
fn is_early(alloc: Global, about: &[u8]) -> Result<bool, AllocError>
    ensures { IfOk result (λ early. early ≡ is_early about.now) }
{
    match first_value(alloc, b"said gcc version ", about)? {
        Some(version) => Ok(is_early_version(version.as_bytes())),
        None => Ok(false),
    }
}

/// What a text has before the last place where a part of it is, or the whole text.
fn before_last<'t>(part: &[u8], text: &'t [u8]) -> &'t [u8]
    ensures { result.now ≡ before_last part.now text.now }
{
    match text.rsplit_once_str(part) {
        Some((before, _)) => before,
        None => text,
    }
}

/// The switches of a line without `-dumpdir` and its argument, which are at their end.
fn without_dumps(alloc: Global, text: &[u8]) -> Result<Word, AllocError>
    ensures { IfOk result (λ made. made ≡ without_dumps text.now) }
{
    let mut spaced = Word::from_bytes(alloc, b" ")?;
    spaced.extend_from_slice(text)?;
    options_of(alloc, before_last(b" '-dumpdir' '", spaced.as_bytes()))
}

/// A variable of the children of a gcc before release 11.
fn early_variable(alloc: Global, variable: &Variable) -> Result<Variable, AllocError>
    ensures { IfOk result (λ made. made ≡ early_variable variable.now) }
{
    let value = if variable.name.as_bytes() == b"COLLECT_GCC_OPTIONS".as_slice() {
        without_dumps(alloc, variable.value.as_bytes())?
    } else {
        variable.value.clone()?
    };
    Ok(Variable {
        name: variable.name.clone()?,
        value,
    })
}

/// The variables of the children of a gcc before release 11.
fn early_variables(alloc: Global, children: &[Variable]) -> Result<Listing<Variable>, AllocError>
    ensures { IfOk result (λ made. made ≡ map early_variable children.now) }
{
    let mut made = Listing::new(alloc);
    for variable in children {
        made.push(early_variable(alloc, variable)?)?;
    }
    Ok(made)
}

/// The variables of the children, by a text about the compiler.
pub(crate) fn children_by(
    alloc: Global,
    about: &[u8],
    children: Listing<Variable>,
) -> Result<Listing<Variable>, AllocError>
    ensures { IfOk result (λ made. made ≡ children_by about.now children) }
{
    if is_early(alloc, about)? {
        early_variables(alloc, children.as_slice())
    } else {
        Ok(children)
    }
}
