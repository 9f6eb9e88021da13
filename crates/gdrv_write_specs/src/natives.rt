//! The functions of a gcc's texts that only some gccs have.

use crate::asking::Gcc;
use crate::fault::Fault;
use crate::libraries::only;
use crate::texts::{add_all, joined, numbered};
use crate::work_folder::write;
use drv_gcc::{NamedText, named_texts, replace};
use drv_words::{Listing, Word};
use std::alloc::Global;

/// The function that finds out about the machine of the call.
const NATIVE: &[u8] = b"%:local_cpu_detect(";

/// How functions of one machine alone are called.
const FUNCTIONS: [&[u8]; 5] = [
    NATIVE,
    b"%:rewrite_march(",
    b"%:rewrite_mcpu(",
    b"%:asm_auto_mfpu(",
    b"%:be8_linkopt(",
];

/// The beginning of a call for lines that need it: some functions end gcc without arguments, and one
/// is for lines that ask for the machine of the call.
fn guard_of<'a>(function: &[u8], arguments: &'a [u8]) -> &'a [u8] {
    if function == NATIVE {
        return b"%{march=native|mcpu=native|mtune=native";
    }
    let end = arguments.iter().position(|byte| *byte == b':').unwrap_or(0);
    if !arguments.starts_with(b"%{") || arguments.starts_with(b"%{!") {
        return b"";
    }
    arguments.get(..end).unwrap_or(b"")
}

/// A call for lines that need it.
fn guarded(alloc: Global, function: &[u8], arguments: &[u8], call: &Word) -> Result<Word, Fault> {
    let guard = guard_of(function, arguments);
    if guard.is_empty() {
        return Ok(call.clone()?);
    }
    joined(alloc, &[guard, b":", call.as_bytes(), b"}"])
}

/// Writes a spec file of this name among the lines' files.
pub fn write_specs(gcc: Gcc<'_>, name: &[u8], specs: &Word) -> Result<(), Fault> {
    let path = joined(gcc.alloc(), &[gcc.work.lines.as_bytes(), b"/", name])?;
    write(gcc.rt, &path, specs.as_bytes())
}

/// Adds a spec file that shows what a call gives, and gives the name of the text for that.
pub fn add_probe(gcc: Gcc<'_>, call: &Word, probes: &mut Listing<Word>) -> Result<Word, Fault> {
    let name = numbered(gcc.alloc(), b"native_", probes.len())?;
    let mut specs = joined(
        gcc.alloc(),
        &[b"*", name.as_bytes(), b":\n", call.as_bytes()],
    )?;
    let link = [
        b"\n\n*link_command:\nPROBE-V %(",
        name.as_bytes(),
        b") PROBE-END\n\n",
    ];
    add_all(&mut specs, &link)?;
    write_specs(gcc, name.as_bytes(), &specs)?;
    probes.push(name.clone()?)?;
    Ok(name)
}

/// Writes the spec file `natives`. Behind those of all probes it shows what each gives, by a command
/// with the name of that.
fn write_all(gcc: Gcc<'_>, probes: &[Word]) -> Result<(), Fault> {
    let mut specs = Word::from_bytes(gcc.alloc(), b"*link_command:\n")?;
    for probe in probes {
        let name = probe.as_bytes();
        add_all(
            &mut specs,
            &[b"PROBE-", name, b" %(", name, b") PROBE-END\n"],
        )?;
    }
    specs.push(b'\n')?;
    write_specs(gcc, b"natives", &specs)
}

impl<'a> Gcc<'a> {
    /// The commands that show what all probes give: those before one that ends gcc.
    pub fn all_shown(self, probes: &[Word]) -> Result<Listing<Listing<Word>>, Fault> {
        if probes.is_empty() {
            return Ok(Listing::new(self.alloc()));
        }
        let mut line = Word::from_bytes(self.alloc(), b"-### x.o -o x")?;
        for probe in probes {
            add_all(&mut line, &[b" -specs=", probe.as_bytes()])?;
        }
        line.extend_from_slice(b" -specs=natives")?;
        self.plan(line.as_bytes())
    }
}

/// A dump with named texts in the places of the calls of this function, and a spec file for each
/// that shows what it gives.
fn with_function(
    gcc: Gcc<'_>,
    function: &[u8],
    dump: Word,
    probes: &mut Listing<Word>,
) -> Result<Word, Fault> {
    let alloc = gcc.alloc();
    let found = named_texts(alloc, function, dump.as_bytes())?;
    let mut texts = dump;
    for arguments in found.as_slice() {
        let call = joined(alloc, &[function, arguments.as_bytes(), b")"])?;
        let guarded = guarded(alloc, function, arguments.as_bytes(), &call)?;
        let name = add_probe(gcc, &guarded, probes)?;
        let other = joined(alloc, &[b"%(".as_slice(), name.as_bytes(), b")"])?;
        texts = replace(alloc, texts.as_bytes(), call.as_bytes(), other.as_bytes())?;
    }
    Ok(texts)
}

/// A dump with named texts in the places of the calls of these functions, and a spec file for each
/// that shows what it gives.
pub fn with_natives(gcc: Gcc<'_>, dump: Word) -> Result<(Word, Listing<Word>), Fault> {
    let mut texts = dump;
    let mut probes = Listing::new(gcc.alloc());
    for function in FUNCTIONS.as_slice() {
        texts = with_function(gcc, function, texts, &mut probes)?;
    }
    texts = gcc.with_devices(texts, &mut probes)?;
    write_all(gcc, probes.as_slice())?;
    Ok((texts, probes))
}

/// Named texts of what functions give, of which rows have the words: each after this one's name.
pub fn row_values(
    alloc: Global,
    probes: &[Word],
    texts: &mut Listing<NamedText>,
) -> Result<(), Fault> {
    for (n, probe) in probes.iter().enumerate() {
        let mut own = numbered(alloc, b"%{-gdrv-fn", n)?;
        own.extend_from_slice(b"=*:%*}")?;
        texts.push(NamedText {
            name: probe.clone()?,
            choice: only(alloc, own),
        })?;
    }
    Ok(())
}
