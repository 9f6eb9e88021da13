//! Sources in languages that no spec file serves.

ghost use Rattle.drv_compile.specs.Languages.{ends_so, first_unserved, foreign_suffixes, is_linkers};
ghost use Rattle.drv_compile.specs.Languages.{language_by, language_of, unserved};
ghost use Rattle.drv_plan.specs.Languages.{chosen_for};
ghost use Rattle.std.specs.Option.{option_map};
ghost use Rattle.std.specs.Prelude.{◌≡◌, IfOk, find, map};

use drv_args::Input;
use drv_plan::{PlanFault, language};
use drv_specs::SpecSet;
use std::alloc::{AllocError, Global};

/// The suffixes of languages that gcc compiles and this program doesn't, each with its language (GCC,
/// "gcc.cc", default_compilers, and "cp/lang-specs.h").
pub const FOREIGN: [(&[u8], &[u8]); 32] = [
    (b".ads", b"Ada"),
    (b".adb", b"Ada"),
    (b".f", b"Fortran"),
    (b".F", b"Fortran"),
    (b".for", b"Fortran"),
    (b".FOR", b"Fortran"),
    (b".ftn", b"Fortran"),
    (b".FTN", b"Fortran"),
    (b".fpp", b"Fortran"),
    (b".FPP", b"Fortran"),
    (b".f90", b"Fortran"),
    (b".F90", b"Fortran"),
    (b".f95", b"Fortran"),
    (b".F95", b"Fortran"),
    (b".f03", b"Fortran"),
    (b".F03", b"Fortran"),
    (b".f08", b"Fortran"),
    (b".F08", b"Fortran"),
    (b".r", b"Ratfor"),
    (b".go", b"Go"),
    (b".d", b"D"),
    (b".dd", b"D"),
    (b".di", b"D"),
    (b".mod", b"Modula-2"),
    (b".hh", b"C++ header"),
    (b".H", b"C++ header"),
    (b".hp", b"C++ header"),
    (b".hxx", b"C++ header"),
    (b".hpp", b"C++ header"),
    (b".HPP", b"C++ header"),
    (b".h++", b"C++ header"),
    (b".tcc", b"C++ header"),
];

/// All of them.
fn foreign_suffixes() -> &'static [(&'static [u8], &'static [u8])]
    ensures { map (λ row. (row.0.now, row.1.now)) result.now ≡ foreign_suffixes }
{
    &FOREIGN
}

/// Whether a name ends with a suffix, and has more than that.
fn ends_so(name: &[u8], suffix: &[u8]) -> bool
    ensures { result ≡ ends_so name.now suffix.now }
{
    suffix.len() < name.len() && name.ends_with(suffix)
}

/// The first of them that fits a name, with its language.
fn row_of(name: &[u8]) -> Option<(&'static [u8], &'static [u8])>
    ensures { option_map (λ row. (row.0.now, row.1.now)) result
        ≡ find (λ row. ends_so name.now row.0) foreign_suffixes }
{
    for row in foreign_suffixes() {
        if ends_so(name, row.0) {
            return Some(*row);
        }
    }
    None
}

/// The language of a name by its suffix.
fn language_by(name: &[u8]) -> Option<&'static [u8]>
    ensures { option_map (λ l. l.now) result ≡ language_by name.now }
{
    match row_of(name) {
        Some((_, language)) => Some(language),
        None => None,
    }
}

/// The language of an input by its name.
fn language_of(input: &Input) -> Option<&'static [u8]>
    ensures { option_map (λ l. l.now) result ≡ language_of input.now }
{
    match input {
        Input::File { name, .. } => language_by(name.as_bytes()),
        Input::Library(_) | Input::LinkWord(_) => None,
    }
}

/// Whether the specs leave an input to the linker.
fn is_linkers(alloc: Global, set: &SpecSet, input: &Input) -> Result<bool, AllocError>
    ensures { IfOk result (λ found. found ≡ is_linkers (chosen_for set.now input.now)) }
{
    match language(alloc, input, set) {
        Ok(chosen) => Ok(chosen.is_none()),
        Err(PlanFault::Memory) => Err(AllocError),
        Err(PlanFault::NotInstalled(_) | PlanFault::UnknownLanguage(_) | PlanFault::Machine(_)) =>
            Ok(false),
    }
}

/// The language of an input, if no spec file serves it.
fn unserved(
    alloc: Global,
    set: &SpecSet,
    input: &Input,
) -> Result<Option<&'static [u8]>, AllocError>
    ensures { IfOk result (λ found. option_map (λ l. l.now) found ≡ unserved set.now input.now) }
{
    let Some(language) = language_of(input) else {
        return Ok(None);
    };
    if is_linkers(alloc, set, input)? {
        Ok(Some(language))
    } else {
        Ok(None)
    }
}

/// The first language of inputs that no spec file serves.
pub(crate) fn first_unserved(
    alloc: Global,
    set: &SpecSet,
    inputs: &[Input],
) -> Result<Option<&'static [u8]>, AllocError>
    ensures { IfOk result (λ found. option_map (λ l. l.now) found
        ≡ first_unserved set.now inputs.now) }
{
    for input in inputs {
        let found = unserved(alloc, set, input)?;
        if found.is_some() {
            return Ok(found);
        }
    }
    Ok(None)
}
