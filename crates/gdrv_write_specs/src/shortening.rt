//! A spec text is cut down to what some lines use.

use crate::fault::Fault;
use crate::finding::has_word;
use drv_dump::{Kind, Piece, read_text};
use drv_words::{Listing, Word};
use std::alloc::Global;

/// What is known of each line that a shorter text is for.
#[derive(Drop)]
pub struct Known {
    /// Tests that hold.
    pub holds: Listing<Word>,
    /// Tests that do not hold.
    pub lacks: Listing<Word>,
}

/// What is left of tests.
#[derive(Drop)]
enum Left {
    /// They hold in each of these lines.
    Always,
    /// They hold in none.
    Never,
    /// A line decides them.
    Asked(Word),
}

/// Braces that are open.
#[derive(Drop)]
struct Braces {
    /// How they begin.
    opening: Word,
    /// The alternatives so far.
    given: Word,
    /// The tests of this one.
    tests: Word,
    /// Tests that do not hold where a later one is reached.
    failed: Listing<Word>,
    /// Whether a function is among them.
    has_call: bool,
    /// Its body, if that has begun.
    body: Option<Word>,
    /// Whether one of them gives something.
    has_words: bool,
    /// Whether an earlier one always holds.
    is_decided: bool,
    /// The body of the only one that is left.
    alone: Option<Word>,
}

/// A text that is cut down.
#[derive(Drop)]
struct Cutting {
    open: Vec<Braces>,
    whole: Word,
}

/// Braces that begin so.
fn open_braces(alloc: Global, opening: &Word) -> Result<Braces, Fault> {
    Ok(Braces {
        opening: opening.clone()?,
        given: Word::empty(alloc),
        tests: Word::empty(alloc),
        failed: Listing::new(alloc),
        has_call: false,
        body: None,
        has_words: false,
        is_decided: false,
        alone: None,
    })
}

/// A test without the `!` before it.
fn plain_test(test: &[u8]) -> (bool, &[u8]) {
    match test {
        [b'!', rest @ ..] => (true, rest),
        _ => (false, test),
    }
}

/// What is left of tests, of which those do not hold that failed before.
fn left_of(alloc: Global, known: &Known, failed: &[Word], tests: &[u8]) -> Result<Left, Fault> {
    if tests.is_empty() || has_word(known.holds.as_slice(), tests) {
        return Ok(Left::Always);
    }
    let mut left = Word::empty(alloc);
    for test in tests.split(|byte| *byte == b'|') {
        let (is_negated, name) = plain_test(test);
        let holds = has_word(known.holds.as_slice(), name);
        let lacks = has_word(known.lacks.as_slice(), name) || has_word(failed, name);
        if (holds && !is_negated) || (lacks && is_negated) {
            return Ok(Left::Always);
        }
        if !holds && !lacks {
            if !left.is_empty() {
                left.push(b'|')?;
            }
            left.extend_from_slice(test)?;
        }
    }
    Ok(if left.is_empty() {
        Left::Never
    } else {
        Left::Asked(left)
    })
}

/// What is left of the tests of braces.
fn tests_left(alloc: Global, known: &Known, it: &Braces) -> Result<Left, Fault> {
    if it.is_decided {
        return Ok(Left::Never);
    }
    if it.has_call {
        return Ok(Left::Asked(it.tests.clone()?));
    }
    left_of(alloc, known, it.failed.as_slice(), it.tests.as_bytes())
}

/// Notes that these tests do not hold where a later alternative is reached.
fn note_failed(alloc: Global, it: &mut Braces, tests: &[u8]) -> Result<(), Fault> {
    if it.has_call || tests.contains(&b'!') || tests.contains(&b'&') {
        return Ok(());
    }
    for test in tests.split(|byte| *byte == b'|') {
        it.failed.push(Word::from_bytes(alloc, test)?)?;
    }
    Ok(())
}

/// A body without the blanks at its end.
fn trim_end(body: &[u8]) -> &[u8] {
    let mut end = 0;
    let mut is_escaped = false;
    for (at, byte) in body.iter().enumerate() {
        if is_escaped || !matches!(byte, b' ' | b'\t') {
            end = at.saturating_add(1);
        }
        is_escaped = *byte == b'\\' && !is_escaped;
    }
    body.get(..end).unwrap_or(body)
}

/// Adds an alternative that always holds. In braces of another kind the only one keeps its tests.
fn decide(it: &mut Braces, body: Word) -> Result<(), Fault> {
    it.is_decided = true;
    if it.given.is_empty() && it.opening.as_bytes() == b"%{".as_slice() {
        it.alone = Some(body);
        return Ok(());
    }
    if it.given.is_empty() {
        it.given.extend_from_slice(it.tests.as_bytes())?;
    } else if !body.is_empty() {
        it.given.push(b';')?;
    } else {
        return Ok(());
    }
    it.given.push(b':')?;
    it.given.extend_from_slice(trim_end(body.as_bytes()))?;
    Ok(())
}

/// Ends an alternative.
fn end_alternative(alloc: Global, known: &Known, it: &mut Braces) -> Result<(), Fault> {
    let Some(body) = it.body.take() else {
        return Ok(());
    };
    let has_words = !body.as_bytes().trim_ascii().is_empty();
    match tests_left(alloc, known, it)? {
        Left::Always => {
            it.has_words = it.has_words || has_words;
            decide(it, body)?;
        }
        Left::Never => {}
        Left::Asked(tests) => {
            it.has_words = it.has_words || has_words;
            if !it.given.is_empty() {
                it.given.push(b';')?;
            }
            it.given.extend_from_slice(tests.as_bytes())?;
            it.given.push(b':')?;
            let text = squeeze(alloc, trim_end(body.as_bytes()))?;
            it.given.extend_from_slice(text.as_bytes())?;
            note_failed(alloc, it, tests.as_bytes())?;
        }
    }
    it.tests = Word::empty(alloc);
    it.has_call = false;
    Ok(())
}

/// Words between braces.
fn brace(opening: &Word, inside: &[u8]) -> Result<Word, Fault> {
    let mut whole = opening.clone()?;
    whole.extend_from_slice(inside)?;
    whole.push(b'}')?;
    Ok(whole)
}

/// Whether the inside of braces is one alternative.
fn is_alternative(inside: &[u8]) -> bool {
    let mut depth = 0usize;
    let mut is_escaped = false;
    for byte in inside {
        match byte {
            _ if is_escaped => {}
            b'{' => depth = depth.saturating_add(1),
            b'}' | b';' if depth == 0 => return false,
            b'}' => depth = depth.saturating_sub(1),
            _ => {}
        }
        is_escaped = *byte == b'\\' && !is_escaped;
    }
    depth == 0
}

/// The switches without any of which braces give something, and what they give: `%{!S:X}`, or
/// `%{S|T:;:X}`. None for others.
fn unless(text: &[u8]) -> Option<(&[u8], &[u8])> {
    let inside = text
        .strip_prefix(b"%{".as_slice())?
        .strip_suffix(b"}".as_slice())?;
    let end = inside.iter().position(|byte| *byte == b':')?;
    let (tests, rest) = inside.split_at(end.min(inside.len()));
    let (names, body) = match tests.strip_prefix(b"!".as_slice()) {
        Some(name) if !name.contains(&b'|') => (name, rest.strip_prefix(b":".as_slice())?),
        _ => (tests, rest.strip_prefix(b":;:".as_slice())?),
    };
    let is_plain = !names.iter().any(|byte| matches!(byte, b'!' | b'&' | b'%'));
    if is_plain && is_alternative(body) {
        Some((names, body))
    } else {
        None
    }
}

/// Braces in braces, both for lines without some switches, as one: `%{!S:%{!T:X}}`. None if they are
/// others.
fn merge(alloc: Global, text: &[u8]) -> Result<Option<Word>, Fault> {
    let Some((names, body)) = unless(text) else {
        return Ok(None);
    };
    let inner = body.strip_prefix(b" ".as_slice()).unwrap_or(body);
    let Some((others, left)) = unless(inner) else {
        return Ok(None);
    };
    let mut whole = Word::from_bytes(alloc, b"%{")?;
    whole.extend_from_slice(names)?;
    whole.push(b'|')?;
    whole.extend_from_slice(others)?;
    whole.extend_from_slice(b":;:")?;
    if inner.len() < body.len() {
        whole.push(b' ')?;
    }
    whole.extend_from_slice(left)?;
    whole.push(b'}')?;
    Ok(Some(whole))
}

/// What is left of braces that end after tests alone.
fn tests_alone(alloc: Global, known: &Known, it: &Braces) -> Result<Word, Fault> {
    match tests_left(alloc, known, it)? {
        Left::Never => Ok(Word::empty(alloc)),
        _ => brace(&it.opening, it.tests.as_bytes()),
    }
}

/// Braces with their alternatives; nothing where none of these gives something.
fn alternatives(alloc: Global, it: &Braces) -> Result<Word, Fault> {
    if !it.has_words {
        return Ok(Word::empty(alloc));
    }
    let whole = brace(&it.opening, it.given.as_bytes())?;
    Ok(match merge(alloc, whole.as_bytes())? {
        Some(shorter) => shorter,
        None => whole,
    })
}

/// What is left of braces that end.
fn close_braces(alloc: Global, known: &Known, it: &mut Braces) -> Result<Word, Fault> {
    if it.body.is_none() && it.given.is_empty() && !it.is_decided {
        return tests_alone(alloc, known, it);
    }
    end_alternative(alloc, known, it)?;
    match it.alone.take() {
        Some(body) => Ok(body),
        None => alternatives(alloc, it),
    }
}

/// The text that a directive of one letter works.
fn text_of_letter(letter: &[u8]) -> Option<&'static [u8]> {
    match letter {
        b"%a" => Some(b"asm"),
        b"%A" => Some(b"asm_final"),
        b"%l" => Some(b"link"),
        b"%L" => Some(b"lib"),
        b"%G" => Some(b"libgcc"),
        b"%S" => Some(b"startfile"),
        b"%E" => Some(b"endfile"),
        b"%C" => Some(b"cpp"),
        b"%1" => Some(b"cc1"),
        b"%2" => Some(b"cc1plus"),
        _ => None,
    }
}

/// A text by its name, or nothing if there is none.
fn named_text(alloc: Global, names: &[Word], name: &[u8]) -> Result<Word, Fault> {
    if !has_word(names, name) {
        return Ok(Word::empty(alloc));
    }
    let mut whole = Word::from_bytes(alloc, b"%(")?;
    whole.extend_from_slice(name)?;
    whole.push(b')')?;
    Ok(whole)
}

/// The name in `%(NAME)`.
pub fn name_in(piece: &Piece) -> &[u8] {
    let bytes = piece.bytes.as_bytes();
    let name = bytes.strip_prefix(b"%(".as_slice()).unwrap_or(bytes);
    name.strip_suffix(b")".as_slice()).unwrap_or(name)
}

/// Adds bytes to the tests of these braces, or to their body.
fn put_inside(it: &mut Braces, bytes: &[u8]) -> Result<(), Fault> {
    match &mut it.body {
        Some(body) => Ok(body.extend_from_slice(bytes)?),
        None => Ok(it.tests.extend_from_slice(bytes)?),
    }
}

impl Cutting {
    /// Adds bytes.
    fn put(&mut self, bytes: &[u8]) -> Result<(), Fault> {
        match self.open.last_mut() {
            Some(it) => put_inside(it, bytes),
            None => Ok(self.whole.extend_from_slice(bytes)?),
        }
    }

    /// Adds a test with a function.
    fn put_call(&mut self, bytes: &[u8]) -> Result<(), Fault> {
        if let Some(it) = self.open.last_mut() {
            it.has_call = true;
        }
        self.put(bytes)
    }

    /// Begins a body, or ends an alternative.
    fn turn(&mut self, alloc: Global, known: &Known, kind: Kind) -> Result<(), Fault> {
        let Some(it) = self.open.last_mut() else {
            return Ok(());
        };
        if let Kind::Then = kind {
            it.body = Some(Word::empty(alloc));
            return Ok(());
        }
        end_alternative(alloc, known, it)
    }

    /// Ends braces.
    fn close(&mut self, alloc: Global, known: &Known) -> Result<(), Fault> {
        let Some(mut it) = self.open.pop() else {
            return Ok(());
        };
        let left = close_braces(alloc, known, &mut it)?;
        self.put(left.as_bytes())
    }

    /// Adds a piece.
    fn add(
        &mut self,
        alloc: Global,
        known: &Known,
        names: &[Word],
        piece: &Piece,
    ) -> Result<(), Fault> {
        let bytes = piece.bytes.as_bytes();
        match piece.kind {
            Kind::Opening => Ok(self.open.push(open_braces(alloc, &piece.bytes)?)?),
            Kind::Blank => Ok(()),
            Kind::TestCall | Kind::NegatedCall => self.put_call(bytes),
            Kind::Then | Kind::Otherwise => self.turn(alloc, known, piece.kind),
            Kind::Closing => self.close(alloc, known),
            Kind::NamedText => {
                let text = named_text(alloc, names, name_in(piece))?;
                self.put(text.as_bytes())
            }
            Kind::Directive => match text_of_letter(bytes) {
                Some(name) => {
                    let text = named_text(alloc, names, name)?;
                    self.put(text.as_bytes())
                }
                None => self.put(bytes),
            },
            _ => self.put(bytes),
        }
    }
}

/// What separates words.
#[derive(Clone, Copy)]
enum Gap {
    Nothing,
    Blank,
    Line,
}

/// Adds what separates words.
fn put_gap(gap: Gap, text: &mut Word) -> Result<(), Fault> {
    match gap {
        Gap::Nothing => Ok(()),
        Gap::Blank => Ok(text.push(b' ')?),
        Gap::Line => Ok(text.push(b'\n')?),
    }
}

/// A text with one blank where there are several, and none beside a newline.
pub fn squeeze(alloc: Global, text: &[u8]) -> Result<Word, Fault> {
    let mut whole = Word::empty(alloc);
    let mut gap = Gap::Nothing;
    let mut is_escaped = false;
    for byte in text {
        if !is_escaped && *byte == b'\n' {
            gap = Gap::Line;
            continue;
        }
        if !is_escaped && matches!(*byte, b' ' | b'\t') {
            if let Gap::Nothing = gap {
                gap = Gap::Blank;
            }
            continue;
        }
        put_gap(gap, &mut whole)?;
        gap = Gap::Nothing;
        whole.push(*byte)?;
        is_escaped = !is_escaped && *byte == b'\\';
    }
    put_gap(gap, &mut whole)?;
    Ok(whole)
}

/// A text for lines of which this is known, where these are the names of all texts; none if it
/// can't be read.
pub fn shorten(
    alloc: Global,
    known: &Known,
    names: &[Word],
    text: &[u8],
) -> Result<Option<Word>, Fault> {
    let Ok(pieces) = read_text(alloc, text) else {
        return Ok(None);
    };
    let mut cutting = Cutting {
        open: Vec::new(alloc),
        whole: Word::empty(alloc),
    };
    for piece in pieces.as_slice() {
        cutting.add(alloc, known, names, piece)?;
    }
    Ok(Some(squeeze(alloc, cutting.whole.as_bytes())?))
}
