//! What the words of a line ask for, over the spec file and the files beside it.

// In clauses: `Asked` says that a call only asked, and that the table has the answers. `Tells` says
// that a result is that of a definition, by any facts that extend what is known.
ghost use Rattle.drv_compile.specs.Compilers.{values};
ghost use Rattle.drv_compile.specs.Decides.{children_of, copies_of, decide, decided_around};
ghost use Rattle.drv_compile.specs.Decides.{decided_over, decided_with, of_reading};
ghost use Rattle.drv_search.specs.Code.Telling.{Tells};
ghost use Rattle.drv_system.specs.Code.Asked.{Asked};
ghost use Rattle.drv_system.specs.Facts.{variable_of};
ghost use Rattle.drv_system.specs.Known.{asked};
ghost use Rattle.std.specs.Prelude.{◌≡◌, IfOk, Some};

use crate::compilers::{first_value, values};
use crate::finding::{file_of_variable, or_own, spec_file, written_beside};
use crate::places::companion;
use crate::reading::{Reading, read_line};
use drv_cc::Surroundings;
use drv_system::{Outside, System};
use drv_words::{Listing, Word, copy_word};
use std::alloc::{AllocError, Global};

/// The spec file of a call, and what is written of its compiler.
#[derive(Drop)]
pub(crate) struct SpecFile {
    /// The path of the spec file.
    pub(crate) path: Word,
    /// The lines of the file beside it that is about the compiler.
    pub(crate) about: Word,
}

/// What the words of a line ask for.
#[derive(Drop)]
pub(crate) enum Decision {
    /// There is no spec file: the path where it should be, if there is one.
    NoSpecs(Option<Word>),
    /// A file beside the spec file is missing or not whole.
    Damaged {
        /// The spec file.
        specs: Word,
        /// The file that is damaged.
        path: Word,
    },
    /// No compiler is named beside this spec file.
    NoCompiler(Word),
    /// The line was read.
    Read {
        /// The spec file.
        file: SpecFile,
        /// The compiler of the spec file, and where it looks.
        around: Surroundings,
        /// The answer to the line.
        reading: Reading,
    },
}

/// The value of a variable, if it is set.
pub(crate) fn variable<S: System>(
    alloc: Global,
    name: &[u8],
    outside: &mut Outside<'_, S>,
) -> Result<Option<Word>, AllocError>
    ensures asks { Asked S.events outside.old outside.new }
    ensures value { Tells outside.new result (λ F. asked (variable_of F name.now)) }
{
    let name = Word::from_bytes(alloc, name)?;
    outside.facts.variable(outside.sys, &name)?;
    match outside.facts.variable_answer(&name) {
        Some(value) => Ok(Some(value.clone()?)),
        None => Ok(None),
    }
}

/// The decision by what a line was read as, if the files that this took are whole.
fn of_reading(
    alloc: Global,
    file: SpecFile,
    around: Surroundings,
    reading: Option<Reading>,
) -> Result<Decision, AllocError>
    ensures { IfOk result (λ decision. decision ≡ of_reading file around reading) }
{
    match reading {
        Some(reading) => Ok(Decision::Read {
            file,
            around,
            reading,
        }),
        None => {
            let specs = file.path;
            let path = companion(alloc, specs.as_bytes(), b".options")?;
            Ok(Decision::Damaged { specs, path })
        }
    }
}

/// The decision over a compiler and where it looks.
fn decided_around<S: System>(
    alloc: Global,
    file: SpecFile,
    words: &[Word],
    around: Surroundings,
    outside: &mut Outside<'_, S>,
) -> Result<Decision, AllocError>
    ensures asks { Asked S.events outside.old outside.new }
    ensures decision { Tells outside.new result (λ F. decided_around F file words.now around) }
{
    let reading = read_line(alloc, file.path.as_bytes(), &around, words, outside)?;
    of_reading(alloc, file, around, reading)
}

/// The folders beside a spec file that have copies of vendors' spec files.
fn copies_of(alloc: Global, specs: &[u8], text: &[u8]) -> Result<Listing<Word>, AllocError>
    ensures { IfOk result (λ copies. copies ≡ copies_of specs.now text.now) }
{
    let mut copies = Listing::new(alloc);
    for ending in values(alloc, b"copies ", text)?.as_slice() {
        copies.push(companion(alloc, specs, ending.as_bytes())?)?;
    }
    Ok(copies)
}

/// What a compiler gives its children by a text about it, and last the place of a row's words.
fn children_of(alloc: Global, text: &[u8]) -> Result<Listing<Word>, AllocError>
    ensures { IfOk result (λ children. children ≡ children_of text.now) }
{
    let mut children = values(alloc, b"child ", text)?;
    children.push(Word::from_bytes(alloc, b"\t\t--gdrv-row")?)?;
    Ok(children)
}

/// The decision by the compiler that a text names, if it names one.
#[tactic(auto, using(drv_system::proofs::AskedCalls::asked_further))]
fn decided_by<S: System>(
    alloc: Global,
    path: Word,
    words: &[Word],
    about: Word,
    outside: &mut Outside<'_, S>,
) -> Result<Decision, AllocError>
    ensures asks { Asked S.events outside.old outside.new }
    ensures decision { Tells outside.new result
        (λ F. decided_over F path words.now (Some about)) }
{
    let text = about.as_bytes();
    let compiler = first_value(alloc, b"compiler ", text)?;
    let Some(compiler) = compiler else {
        return Ok(Decision::NoCompiler(path));
    };
    let folders = values(alloc, b"folder ", text)?;
    let copies = copies_of(alloc, path.as_bytes(), text)?;
    let children = children_of(alloc, text)?;
    let compiler_path = variable(alloc, b"COMPILER_PATH", outside)?;
    let library_path = variable(alloc, b"LIBRARY_PATH", outside)?;
    let around = Surroundings {
        compiler,
        folders,
        copies,
        compiler_path,
        library_path,
        children,
    };
    decided_around(alloc, SpecFile { path, about }, words, around, outside)
}

/// The decision over a spec file with this text beside it, if that is whole.
fn decided_over<S: System>(
    alloc: Global,
    specs: Word,
    words: &[Word],
    text: Option<Word>,
    outside: &mut Outside<'_, S>,
) -> Result<Decision, AllocError>
    ensures asks { Asked S.events outside.old outside.new }
    ensures decision { Tells outside.new result (λ F. decided_over F specs words.now text) }
{
    let Some(text) = text else {
        let path = companion(alloc, specs.as_bytes(), b".gcc")?;
        return Ok(Decision::Damaged { specs, path });
    };
    decided_by(alloc, specs, words, text, outside)
}

/// The decision with a spec file, if there is one.
#[tactic(auto, using(drv_system::proofs::AskedCalls::asked_further))]
fn decided_with<S: System>(
    alloc: Global,
    own: Option<Word>,
    words: &[Word],
    found: Option<Word>,
    outside: &mut Outside<'_, S>,
) -> Result<Decision, AllocError>
    ensures asks { Asked S.events outside.old outside.new }
    ensures decision { Tells outside.new result (λ F. decided_with F own words.now found) }
{
    let Some(specs) = found else {
        let named = file_of_variable(alloc, outside)?;
        return Ok(Decision::NoSpecs(or_own(own, named)));
    };
    let text = written_beside(alloc, specs.as_bytes(), b".gcc", outside)?;
    decided_over(alloc, specs, words, text, outside)
}

/// What the words of a line ask for, response files expanded and those of c99 turned into gcc's,
/// where the spec file of this program lies at `own`, if that is known. This is a refusal for lack
/// of a file, or what the front reads (GCC manual, "Invoking GCC"). It asks the system only where
/// the table has no answer: for the spec file, the files beside it, two variables, and what the
/// line's unknown words need.
#[tactic(auto, using(drv_system::proofs::AskedCalls::asked_further))]
pub(crate) fn decide<S: System>(
    alloc: Global,
    own: &Option<Word>,
    words: &[Word],
    outside: &mut Outside<'_, S>,
) -> Result<Decision, AllocError>
    ensures asks { Asked S.events outside.old outside.new }
    ensures decision { Tells outside.new result (λ F. decide F own.now words.now) }
{
    let place = copy_word(own)?;
    let found = spec_file(alloc, place, outside)?;
    let place = copy_word(own)?;
    decided_with(alloc, place, words, found, outside)
}
