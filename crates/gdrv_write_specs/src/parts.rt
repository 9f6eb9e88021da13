//! The parts of a spec file, which gdrv-cc reads in its place for most lines.
//!
//! Words -gdrv-.. are the front's switches, as patterns name them: gdrv-cc(1), SWITCHES FOR SPEC
//! TEXTS. docs/SPECS.md explains `%{..}`.

use crate::fault::Fault;
use crate::shortening::{Known, name_in, shorten, squeeze};
use crate::texts::joined;
use drv_dump::{Kind, read_text};
use drv_words::{Listing, Word, copy_words, split};
use std::alloc::Global;

/// A text of a spec file.
#[derive(Drop)]
struct Entry {
    /// Its name, or the key of a language.
    name: Word,
    body: Word,
    /// How often texts that are reached name it.
    uses: usize,
    is_reached: bool,
    /// Whether its uses of others were counted.
    is_counted: bool,
    /// Whether it is final: the texts that it names are put in it, or it is left as it is.
    is_grown: bool,
    /// Its name in the shorter file, if it is long and used often.
    letter: Option<Word>,
}

/// What a part is for.
#[derive(Clone, Copy)]
pub struct Part {
    /// The ending of its file.
    pub ending: &'static [u8],
    /// The texts that it has.
    roots: &'static [u8],
    /// Whether its lines have a link.
    has_link: bool,
    /// Tests that hold for each of its lines, and switches that none of them has.
    holds: &'static [u8],
    lacks: &'static [&'static [u8]],
}

/// The text of the link, and those of all languages.
const ALL: &[u8] = b"link_command .h @c @cpp-output @assembler-with-cpp @assembler @c-header";

/// Switches for which gdrv-cc reads the whole file, that it refuses, or that no line has.
const RARE: &[u8] = b"march=native mtune=native save-temps* gsplit-dwarf traditional \
    traditional-cpp no-integrated-cpp m32 mx32 m16 gz=none gz=zlib gz=zstd gz=zlib-gnu -gdrv-none \
    -gdrv-path=* -gdrv-wrapper=* -gdrv-wrapper= -gdrv-passed mmusl muclibc mbionic mandroid -help -target-help -version -help=* \
    fvtable-verify=none fvtable-verify=preinit fvtable-verify=std";

/// Switches without which a line may link.
const UNLINKED: &[u8] = b"fsyntax-only c M MM E S -sysroot=*";

/// Suffixes and switches that a line for C alone lacks.
const NOT_OF_C: &[u8] = b".i .h .S .sx E M MM -gdrv-suffixes";

/// Checks whose libraries only few links have.
const CHECKS: &[u8] =
    b"fsanitize=* -gdrv-san=asan -gdrv-san=hwasan -gdrv-san=tsan -gdrv-san=lsan -gdrv-san=ubsan";

/// The parts.
pub const PARTS: [Part; 5] = [
    Part {
        ending: b".compile",
        roots: ALL,
        has_link: false,
        holds: b"-gdrv-front",
        lacks: &[RARE],
    },
    Part {
        ending: b".c.compile",
        roots: b"link_command @c",
        has_link: false,
        holds: b"-gdrv-front .c",
        lacks: &[RARE, NOT_OF_C],
    },
    Part {
        ending: b".link",
        roots: b"link_command",
        has_link: true,
        holds: b"-gdrv-front",
        lacks: &[RARE, UNLINKED, CHECKS, b"-gdrv-suffixes"],
    },
    Part {
        ending: b".all",
        roots: ALL,
        has_link: true,
        holds: b"-gdrv-front",
        lacks: &[RARE, UNLINKED],
    },
    Part {
        ending: b".c.all",
        roots: b"link_command @c",
        has_link: true,
        holds: b"-gdrv-front .c",
        lacks: &[RARE, UNLINKED, NOT_OF_C, CHECKS],
    },
];

/// What is known of each line of a part.
fn known_of(alloc: Global, part: &Part, rare: &[Word]) -> Result<Known, Fault> {
    let mut lacks = copy_words(alloc, rare)?;
    for words in part.lacks {
        for word in split(alloc, words)?.into_vec() {
            lacks.push(word)?;
        }
    }
    Ok(Known {
        holds: split(alloc, part.holds)?,
        lacks,
    })
}

/// A text of this name.
fn new_entry(name: Word, body: Word) -> Entry {
    Entry {
        name,
        body,
        uses: 0,
        is_reached: false,
        is_counted: false,
        is_grown: false,
        letter: None,
    }
}

/// Where a text of this name is.
fn place_of(entries: &[Entry], name: &[u8]) -> Option<usize> {
    entries.iter().position(|it| it.name.as_bytes() == name)
}

/// Appends to a text, or puts it in the place of one.
fn set(entries: &mut Vec<Entry>, name: Word, body: Word) -> Result<(), Fault> {
    let Some(at) = place_of(entries, name.as_bytes()) else {
        return Ok(entries.push(new_entry(name, body))?);
    };
    if let Some(it) = entries.get_mut(at) {
        match body.as_bytes().strip_prefix(b"+".as_slice()) {
            Some(more) => it.body.extend_from_slice(more)?,
            None => it.body = body,
        }
    }
    Ok(())
}

/// Gives a text another name.
fn rename(entries: &mut [Entry], words: &[Word]) -> Result<(), Fault> {
    if let [_, old, new] = words {
        for it in entries.iter_mut() {
            if it.name.as_bytes() == old.as_bytes() {
                it.name = new.clone()?;
            }
        }
    }
    Ok(())
}

/// The name of a text that begins in a line.
fn name_of(line: &[u8]) -> Option<&[u8]> {
    let is_name = matches!(line, [b'*' | b'.' | b'@', ..]);
    match line.strip_suffix(b":".as_slice()) {
        Some(name) if is_name => Some(name.strip_prefix(b"*".as_slice()).unwrap_or(name)),
        _ => None,
    }
}

/// Adds a line to a body.
pub fn add_body_line(body: &mut Word, line: &[u8]) -> Result<(), Fault> {
    if !body.is_empty() {
        body.push(b'\n')?;
    }
    Ok(body.extend_from_slice(line)?)
}

/// Renames as a line outside of a text says.
fn rename_by(alloc: Global, entries: &mut [Entry], line: &[u8]) -> Result<(), Fault> {
    let words = split(alloc, line)?;
    rename(entries, words.as_slice())
}

/// The name and the empty body of the text that a line begins.
fn begun_by(alloc: Global, line: &[u8]) -> Result<Option<(Word, Word)>, Fault> {
    match name_of(line) {
        Some(name) => Ok(Some((Word::from_bytes(alloc, name)?, Word::empty(alloc)))),
        None => Ok(None),
    }
}

/// Reads a line of a spec file: of the open text, if there is one.
fn read_line(
    alloc: Global,
    entries: &mut Vec<Entry>,
    open: Option<(Word, Word)>,
    line: &[u8],
) -> Result<Option<(Word, Word)>, Fault> {
    match open {
        Some((name, body)) if line.is_empty() => {
            set(entries, name, body)?;
            Ok(None)
        }
        Some((name, mut body)) => {
            add_body_line(&mut body, line)?;
            Ok(Some((name, body)))
        }
        None if line.starts_with(b"%rename ") => {
            rename_by(alloc, entries.as_mut_slice(), line)?;
            Ok(None)
        }
        None => begun_by(alloc, line),
    }
}

/// The texts of a spec file.
fn entries_of(alloc: Global, file: &[u8]) -> Result<Vec<Entry>, Fault> {
    let mut entries = Vec::new(alloc);
    let mut open: Option<(Word, Word)> = None;
    for line in file.split(|byte| *byte == b'\n') {
        open = read_line(alloc, &mut entries, open.take(), line)?;
    }
    Ok(entries)
}

/// The texts of a spec file after its renames and additions, as a dump has them.
pub fn dump_of(alloc: Global, file: &[u8]) -> Result<Word, Fault> {
    let mut dump = Word::empty(alloc);
    for it in entries_of(alloc, file)? {
        push_head(&mut dump, it.name.as_bytes())?;
        dump.extend_from_slice(it.body.as_bytes())?;
        dump.extend_from_slice(b"\n\n")?;
    }
    Ok(dump)
}

/// The names of texts.
fn names_of(alloc: Global, entries: &[Entry]) -> Result<Listing<Word>, Fault> {
    let mut names = Listing::new(alloc);
    for it in entries {
        names.push(it.name.clone()?)?;
    }
    Ok(names)
}

/// Counts the uses of the texts that a text names.
fn count(alloc: Global, entries: &mut [Entry], body: &[u8]) -> Result<(), Fault> {
    let Ok(pieces) = read_text(alloc, body) else {
        return Ok(());
    };
    for piece in pieces.as_slice() {
        if let Kind::NamedText = piece.kind {
            for it in entries.iter_mut() {
                if it.name.as_bytes() == name_in(piece) {
                    it.uses = it.uses.saturating_add(1);
                    it.is_reached = true;
                }
            }
        }
    }
    Ok(())
}

/// Cuts a text down to what lines use of which this is known, and counts the uses of those that it
/// names. False if it can't be read.
fn visit(
    alloc: Global,
    known: &Known,
    names: &[Word],
    entries: &mut [Entry],
    at: usize,
) -> Result<bool, Fault> {
    let Some(it) = entries.get_mut(at) else {
        return Ok(true);
    };
    if !it.is_reached || it.is_counted {
        return Ok(true);
    }
    it.is_counted = true;
    let Some(text) = shorten(alloc, known, names, it.body.as_bytes())? else {
        return Ok(false);
    };
    it.body = text.clone()?;
    count(alloc, entries, text.as_bytes())?;
    Ok(true)
}

/// Visits the texts that are reached, until no more are. False if one can't be read.
fn reach(alloc: Global, known: &Known, entries: &mut [Entry]) -> Result<bool, Fault> {
    let names = names_of(alloc, entries)?;
    for _ in 0..entries.len() {
        for at in 0..entries.len() {
            if !visit(alloc, known, names.as_slice(), entries, at)? {
                return Ok(false);
            }
        }
    }
    Ok(true)
}

/// A name of a letter.
fn letter(alloc: Global, number: usize) -> Result<Word, Fault> {
    let mut name = Word::empty(alloc);
    for _ in 0..number / 26 {
        name.push(b'z')?;
    }
    name.push(b'a'.saturating_add((number % 26) as u8))?;
    Ok(name)
}

/// The use of a text by its name.
fn use_of(alloc: Global, name: &Word) -> Result<Word, Fault> {
    joined(alloc, &[b"%(".as_slice(), name.as_bytes(), b")"])
}

/// What replaces a text's name: the text, or another name if it is long and used
/// often. None if the text isn't grown yet.
fn place_entry(alloc: Global, entries: &mut [Entry], name: &[u8]) -> Result<Option<Word>, Fault> {
    let letters = entries.iter().filter(|it| it.letter.is_some()).count();
    let Some(at) = place_of(entries, name) else {
        return Ok(Some(Word::empty(alloc)));
    };
    let Some(it) = entries.get_mut(at) else {
        return Ok(None);
    };
    if !it.is_grown {
        return Ok(None);
    }
    let spared = it.uses.saturating_sub(1).saturating_mul(it.body.len());
    if spared <= it.uses.saturating_mul(4).saturating_add(110) {
        return Ok(Some(it.body.clone()?));
    }
    let own = match &it.letter {
        Some(own) => own.clone()?,
        None => letter(alloc, letters)?,
    };
    let text = use_of(alloc, &own)?;
    it.letter = Some(own);
    Ok(Some(text))
}

/// A text with others in the places of their names; none if one of them isn't grown yet.
fn with_bodies(alloc: Global, entries: &mut [Entry], body: &[u8]) -> Result<Option<Word>, Fault> {
    let mut whole = Word::empty(alloc);
    let Ok(pieces) = read_text(alloc, body) else {
        return Ok(None);
    };
    for piece in pieces.as_slice() {
        if let Kind::NamedText = piece.kind {
            let Some(text) = place_entry(alloc, entries, name_in(piece))? else {
                return Ok(None);
            };
            whole.extend_from_slice(text.as_bytes())?;
        } else {
            whole.extend_from_slice(piece.bytes.as_bytes())?;
        }
    }
    Ok(Some(whole))
}

/// Grows the texts that are reached, those first that name no others.
fn grow(alloc: Global, entries: &mut [Entry]) -> Result<(), Fault> {
    for _ in 0..entries.len() {
        for n in 0..entries.len() {
            let body = match entries.get(n) {
                Some(it) if it.is_reached && !it.is_grown => it.body.clone()?,
                _ => continue,
            };
            if let Some(text) = with_bodies(alloc, entries, body.as_bytes())? {
                if let Some(it) = entries.get_mut(n) {
                    it.body = squeeze(alloc, text.as_bytes())?;
                    it.is_grown = true;
                }
            }
        }
    }
    Ok(())
}

/// Adds the line of a text's name.
fn push_head(file: &mut Word, name: &[u8]) -> Result<(), Fault> {
    if !matches!(name, [b'.' | b'@', ..]) {
        file.push(b'*')?;
    }
    file.extend_from_slice(name)?;
    Ok(file.extend_from_slice(b":\n")?)
}

/// Adds a text.
fn push_entry(file: &mut Word, name: &[u8], body: &[u8]) -> Result<(), Fault> {
    push_head(file, name)?;
    let text = body.trim_ascii();
    file.extend_from_slice(if text.is_empty() {
        b"%{-gdrv-none:}"
    } else {
        text
    })?;
    file.extend_from_slice(b"\n\n")?;
    Ok(())
}

/// The texts of a part: those with new names, and its roots. None if some root isn't grown.
fn print_part(alloc: Global, entries: &[Entry], roots: &[Word]) -> Result<Option<Word>, Fault> {
    let mut file = Word::empty(alloc);
    for it in entries {
        if let Some(name) = &it.letter {
            push_entry(&mut file, name.as_bytes(), it.body.as_bytes())?;
        }
    }
    for root in roots {
        match place_of(entries, root.as_bytes()).and_then(|at| entries.get(at)) {
            Some(it) if it.is_grown => push_entry(&mut file, root.as_bytes(), it.body.as_bytes())?,
            _ => return Ok(None),
        }
    }
    Ok(Some(file))
}

/// Puts an empty link command.
fn put_no_link(alloc: Global, entries: &mut Vec<Entry>) -> Result<(), Fault> {
    let name = Word::from_bytes(alloc, b"link_command")?;
    set(entries, name, Word::from_bytes(alloc, b"%{-gdrv-none:}")?)
}

/// Marks the texts of this name as reached.
fn mark_reached(entries: &mut [Entry], name: &[u8]) {
    for it in entries.iter_mut() {
        if it.name.as_bytes() == name {
            it.is_reached = true;
        }
    }
}

/// Marks the roots of a part and all that they reach; whether each of these texts can be read.
fn reach_from(
    alloc: Global,
    entries: &mut [Entry],
    known: &Known,
    roots: &[Word],
) -> Result<bool, Fault> {
    for root in roots {
        mark_reached(entries, root.as_bytes());
    }
    reach(alloc, known, entries)
}

/// A part of these texts.
fn part_among(
    alloc: Global,
    entries: &mut [Entry],
    known: &Known,
    roots: &[Word],
) -> Result<Option<Word>, Fault> {
    if !reach_from(alloc, entries, known, roots)? {
        return Ok(None);
    }
    grow(alloc, entries)?;
    print_part(alloc, entries, roots)
}

/// A part of a spec file, whose lines lack these tests too; none if it has a text that can't be
/// read, or that names itself.
pub fn part_of(
    alloc: Global,
    file: &Word,
    part: &Part,
    rare: &[Word],
) -> Result<Option<Word>, Fault> {
    let mut entries = entries_of(alloc, file.as_bytes())?;
    if !part.has_link {
        put_no_link(alloc, &mut entries)?;
    }
    let roots = split(alloc, part.roots)?;
    let known = known_of(alloc, part, rare)?;
    part_among(alloc, entries.as_mut_slice(), &known, roots.as_slice())
}
