//! The built-in specs.

// In clauses: `Gives` says that a result is the defined one, or lack of memory.
ghost use Rattle.drv_specs.specs.Builtin.{builtin_named, builtin_specs, suffixes};
ghost use Rattle.drv_specs.specs.Code.Tables.{all_added, all_put, languages, row_shown};
ghost use Rattle.drv_specs.specs.declared.fault.SpecsFault.TheVariants as fault;
ghost use Rattle.drv_words.specs.Gives.{Gives};
ghost use Rattle.std.specs.Prelude.{◌≡◌, IfOk, Ok, map};

use crate::entries::Entries;
use crate::{SpecSet, SpecsFault};
use std::alloc::{AllocError, Global};

/// Room for the named texts of a spec file for a real compiler.
const TEXTS_OF_A_FILE: usize = 64;

/// A name or a key, and its text.
#[derive(Clone, Copy)]
struct Row {
    name: &'static [u8],
    text: &'static [u8],
}

/// Names or keys, each with its text.
macro_rules! rows {
    ($($name:literal $text:literal),*) => { [$(Row { name: $name, text: $text }),*] };
}

/// The named texts.
const NAMED: [Row; 19] = rows!(
    b"asm" b"%{mcpu=*}",
    b"cpp" b"%{posix:-D_POSIX_SOURCE}",
    b"cc1" b"%{mcpu=*}",
    b"endfile" b"crtend.o%s crtn.o%s",
    b"link" b"%{shared} %{static}",
    b"lib" b"-lc",
    b"libgcc" b"-lgcc",
    b"link_gcc_c_sequence" b"%G %L",
    b"linker" b"rectool link",
    b"signed_char" b"%{funsigned-char:-D__CHAR_UNSIGNED__}",
    b"startfile" b"crt1.o%s crti.o%s",
    b"cpp_cmd" b"rectool cpp",
    b"cc1_cmd" b"rectool cc1",
    b"as_cmd" b"rectool as",
    b"cpp_unique_options" b"%{nostdinc*} %{C} %{P} %{D*&U*} %{I*} %{M*} %{i*}",
    b"cpp_options" b"%(cpp_unique_options) %{std=*} %C %Z",
    b"cc1_options" b"%{O*} %{g*} %{f*} %{W*} %{w} %1",
    b"asm_options" b"%{g*} %a %Y %{c:%W{o*}%{!o*:-o %w%b%O}}%{!c:-o %w%u%O}",
    b"link_command" b"%{!E:%{!S:%{!c:%(linker) %l %{e*} %{r} %{s} %{t} %{T*} %{u*} %{z} %{L*} %X \
        %W{o*}%{!o*:-o %wa.out} %{!nostdlib:%{!r:%{!nostartfiles:%S}}} %o \
        %{!nostdlib:%{!r:%{!nodefaultlibs:%(link_gcc_c_sequence)} %{!nostartfiles:%E}}}}}}"
);

/// The pairs that have no text to run: suffixes that name a language, and languages that are not
/// installed.
const SUFFIXES: [Row; 23] = rows!(
    b".c" b"@c",
    b".i" b"@cpp-output",
    b".s" b"@assembler",
    b".S" b"@assembler-with-cpp",
    b".sx" b"@assembler-with-cpp",
    b".h" b"#C header",
    b".cc" b"#C++",
    b".cp" b"#C++",
    b".cxx" b"#C++",
    b".cpp" b"#C++",
    b".CPP" b"#C++",
    b".c++" b"#C++",
    b".C" b"#C++",
    b".ii" b"#C++",
    b".m" b"#Objective-C",
    b".mi" b"#Objective-C",
    b".mm" b"#Objective-C++",
    b".M" b"#Objective-C++",
    b".mii" b"#Objective-C++",
    b"@c-header" b"#C header",
    b"@c++" b"#C++",
    b"@c++-cpp-output" b"#C++",
    b"@objective-c" b"#Objective-C"
);

/// The languages that have a text.
const LANGUAGES: [Row; 4] = rows!(
    b"@c" b"%{E:%(cpp_cmd) %(cpp_options) %i %W{o*} %V}%{!E:%(cc1_cmd) %(cpp_options) \
        %(cc1_options) %i %{S:%W{o*}%{!o*:-o %w%b.s}}%{!S:-o %|.s |\n %(as_cmd) %(asm_options) \
        %m.s %A}}",
    b"@cpp-output" b"%{!E:%(cc1_cmd) %(cc1_options) %i %{S:%W{o*}%{!o*:-o %w%b.s}}%{!S:-o %|.s \
        |\n %(as_cmd) %(asm_options) %m.s %A}}",
    b"@assembler" b"%{!E:%{!S:%(as_cmd) %(asm_options) %i %A}}",
    b"@assembler-with-cpp" b"%{E:%(cpp_cmd) %(cpp_options) %i %W{o*} %V}%{!E:%{!S:%(cpp_cmd) \
        %(cpp_options) %i -o %|.s |\n %(as_cmd) %(asm_options) %m.s %A}}"
);

/// The named texts.
fn named_rows() -> &'static [Row]
    ensures { map row_shown result.now ≡ builtin_named }
{
    &NAMED
}

/// The pairs that have no text to run.
fn suffix_rows() -> &'static [Row]
    ensures { map row_shown result.now ≡ suffixes.pairs }
{
    &SUFFIXES
}

/// The languages that have a text.
fn language_rows() -> &'static [Row]
    ensures { map row_shown result.now ≡ languages }
{
    &LANGUAGES
}

/// Puts the texts of rows under their names.
fn put_rows(entries: &mut Entries, rows: &[Row]) -> Result<(), SpecsFault>
    ensures { Gives fault.Memory (λ _. entries.new) result
        (all_put entries.old (map row_shown rows.now)) }
{
    for row in rows {
        entries.put(row.name, row.text)?;
    }
    Ok(())
}

/// Adds the pairs of rows.
fn add_rows(entries: &mut Entries, rows: &[Row]) -> Result<(), SpecsFault>
    ensures { Gives fault.Memory (λ _. entries.new) result
        (all_added entries.old (map row_shown rows.now)) }
{
    for row in rows {
        entries.add_pair_text(row.name, row.text)?;
    }
    Ok(())
}

/// The entries of the built-in specs.
fn builtin_entries(alloc: Global) -> Result<Entries, SpecsFault>
    ensures { Gives fault.Memory (λ entries. entries) result (Ok builtin_specs) }
{
    let pairs = SUFFIXES.len() + LANGUAGES.len();
    let mut entries = Entries::with_capacity(alloc, NAMED.len(), pairs)?;
    put_rows(&mut entries, named_rows())?;
    add_rows(&mut entries, suffix_rows())?;
    add_rows(&mut entries, language_rows())?;
    Ok(entries)
}

/// The built-in specs (GCC manual, "Spec Files"). Lack of memory is the only error.
pub fn builtin(alloc: Global) -> Result<SpecSet, AllocError>
    ensures { IfOk result (λ set. set ≡ builtin_specs) }
{
    match builtin_entries(alloc) {
        Ok(entries) => Ok(SpecSet { entries }),
        Err(_memory) => Err(AllocError),
    }
}

/// The pairs that have no text to run, with room for the named texts of a spec file.
fn suffix_entries(alloc: Global) -> Result<Entries, SpecsFault>
    ensures { Gives fault.Memory (λ entries. entries) result (Ok suffixes) }
{
    let mut entries = Entries::with_capacity(alloc, TEXTS_OF_A_FILE, SUFFIXES.len())?;
    add_rows(&mut entries, suffix_rows())?;
    Ok(entries)
}

/// The pairs of the built-in specs that have no text to run: suffixes that name a language, and
/// languages that are not installed. Lack of memory is the only error.
pub fn suffixes(alloc: Global) -> Result<SpecSet, AllocError>
    ensures { IfOk result (λ set. set ≡ suffixes) }
{
    match suffix_entries(alloc) {
        Ok(entries) => Ok(SpecSet { entries }),
        Err(_memory) => Err(AllocError),
    }
}
