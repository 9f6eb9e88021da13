//! Which option an unknown word was meant to be, as gcc reckons it. No contract says that it is the
//! nearest one.

ghost use Rattle.drv_compile.specs.Near.{MayMean, after_equals, is_marked, meant_by, without_mark};
ghost use Rattle.std.specs.List.{ends_with};
ghost use Rattle.std.specs.Prelude.{◌≡◌, ◌<◌, ◌≤◌, IfOk, IfSome, codes, length, nat_eq};

use drv_words::Word;
use std::alloc::{AllocError, Global};
use std::str::from_utf8;
use strsim::osa_distance;

/// A name and its place, how many edits lead to it, and how many bytes of the word it was compared
/// with.
#[derive(Clone, Copy)]
struct Near<'n> {
    place: usize,
    name: &'n [u8],
    edits: usize,
    compared: usize,
}

/// A word to which names are compared. How often it has each byte tells how many edits there are at
/// least, before they are counted.
#[derive(Drop)]
struct Wanted<'w> {
    word: &'w [u8],
    counts: [u8; 256],
}

impl<'w> Wanted<'w> {
    /// A word to compare.
    fn new(word: &'w [u8]) -> Wanted<'w> {
        let mut counts = [0_u8; 256];
        for byte in word {
            if let Some(count) = counts.get_mut(usize::from(*byte)) {
                *count = count.saturating_add(1);
            }
        }
        Wanted { word, counts }
    }

    /// How many bytes of a name have one of the word for themselves.
    fn common_bytes(&self, name: &[u8]) -> usize {
        let mut left = self.counts;
        let mut shared = 0_usize;
        for byte in name {
            if let Some(count) = left.get_mut(usize::from(*byte))
                && 0 < *count
            {
                *count = count.saturating_sub(1);
                shared = shared.saturating_add(1);
            }
        }
        shared
    }

    /// How many edits there are at least, since each makes at most one byte another one.
    fn least_edits(&self, name: &[u8]) -> usize {
        self.word
            .len()
            .max(name.len())
            .saturating_sub(self.common_bytes(name))
    }

    /// How many edits lead to a name; none where there are more than are wanted.
    fn edits(&self, alloc: Global, name: &[u8], most: usize) -> Result<Option<usize>, AllocError> {
        if self.word.len().abs_diff(name.len()) > most || self.least_edits(name) > most {
            return Ok(None);
        }
        let (Ok(word), Ok(name)) = (from_utf8(self.word), from_utf8(name)) else {
            return Ok(None);
        };
        let edits = osa_distance(alloc, word, name)?;
        Ok(if edits <= most { Some(edits) } else { None })
    }
}

/// Twice the most edits that may lie between words of these lengths.
fn most_apart(longer: usize, shorter: usize) -> usize {
    if longer <= 1 {
        return 0;
    }
    if longer.saturating_sub(shorter) <= 1 {
        return (longer / 3).max(1).saturating_mul(2);
    }
    longer.saturating_add(2).saturating_mul(2) / 3
}

/// The most edits by which a word of this length may be meant by a name of another. Hyphens in
/// front don't count.
fn most_edits(word: usize, name: usize) -> usize {
    let (word, name) = (word.saturating_sub(1), name.saturating_sub(1));
    most_apart(word.max(name), word.min(name)) / 2
}

/// How many bytes of a word are those up to and with its first `=`, where it has one; else all.
fn head_length(word: &[u8]) -> usize
    ensures { result ≤ length word.now }
{
    for i in 0..word.len() {
        if word[i] == b'=' {
            return i + 1;
        }
    }
    word.len()
}

/// Whether a name takes an argument after `=`.
fn takes_argument(name: &[u8]) -> bool
    ensures { result ≡ ends_with nat_eq name.now (codes "=") }
{
    name.ends_with(b"=".as_slice())
}

/// Whether a name of `X.options` ends with a mark: `NAME=#` takes a number, `NAME=?` only the values
/// that are listed, and gcc refuses `NAME?`.
fn is_marked(name: &[u8]) -> bool
    ensures { result ≡ is_marked name.now }
{
    name.ends_with(b"?") || name.ends_with(b"=#")
}

/// A name without the mark at its end.
fn without_mark(name: &[u8]) -> &[u8]
    ensures { result.now ≡ without_mark name.now }
{
    if is_marked(name) {
        &name[..name.len().saturating_sub(1)]
    } else {
        name
    }
}

/// A name without the `no-` after its first letter, in two parts.
fn positive(name: &[u8]) -> (&[u8], &[u8]) {
    match name {
        [_, _, b'n', b'o', b'-', rest @ ..] => (name.get(..2).unwrap_or(&[]), rest),
        _ => (name.get(..2).unwrap_or(&[]), name.get(2..).unwrap_or(&[])),
    }
}

/// Whether gcc lists a name before another one: it lists an option and then what takes it back.
fn is_listed_before(name: &[u8], other: &[u8]) -> bool {
    let (first, second) = (positive(name), positive(other));
    first < second || (first == second && name.len() < other.len())
}

/// Whether a name is nearer than another one that is this many edits away.
fn is_nearer(name: &[u8], edits: usize, other: &Near<'_>) -> bool {
    edits < other.edits || (edits == other.edits && is_listed_before(name, other.name))
}

/// Whether a word of one length may be meant to be a name of another, this many edits away.
fn is_near(word: usize, name: usize, edits: usize) -> bool {
    edits <= most_edits(word, name)
}

/// Of the names that are nearest to a word, the place of the one that gcc lists first, if that is
/// near enough to be meant (GCC, "spellcheck.h", best_match).
fn nearest(alloc: Global, known: &[Word], word: &[u8]) -> Result<Option<usize>, AllocError>
    ensures { IfOk result (λ found. IfSome found (λ place. place < length known.now)) }
{
    let whole = Wanted::new(word);
    let head = Wanted::new(&word[..head_length(word)]);
    let mut found: Option<Near<'_>> = None;
    for place in 0..known.len() {
        let name = without_mark(known[place].as_bytes());
        let wanted = if takes_argument(name) { &head } else { &whole };
        let compared = wanted.word.len();
        if !is_near(compared, name.len(), compared.abs_diff(name.len())) {
            continue;
        }
        let most = match &found {
            Some(other) => other.edits,
            None => usize::MAX,
        };
        if let Some(edits) = wanted.edits(alloc, name, most)? {
            found = match found {
                Some(other) if !is_nearer(name, edits, &other) => Some(other),
                _ => Some(Near {
                    place,
                    name,
                    edits,
                    compared,
                }),
            };
        }
    }
    Ok(match found {
        Some(near) if is_near(near.compared, near.name.len(), near.edits) => Some(near.place),
        _ => None,
    })
}

/// What follows the first `=` of a word.
fn after_equals(word: &[u8]) -> &[u8]
    ensures { result.now ≡ after_equals word.now }
{
    let mut left = word;
    while let [byte, following @ ..] = left {
        if *byte == b'=' {
            return following;
        }
        left = following;
    }
    left
}

/// An option by its name, with the word's own argument where it takes one after `=`.
fn meant_by(alloc: Global, word: &[u8], name: &[u8]) -> Result<Word, AllocError>
    ensures { IfOk result (λ option. option ≡ meant_by word.now name.now) }
{
    let mut option = Word::from_bytes(alloc, name)?;
    if takes_argument(name) {
        option.extend_from_slice(after_equals(word))?;
    }
    Ok(option)
}

/// The option that a word was meant to be, if one of these names is near: with the word's own
/// argument, where it takes one after `=`.
pub fn option_meant(alloc: Global, known: &[Word], word: &[u8]) -> Result<Option<Word>, AllocError>
    ensures { IfOk result (λ near. MayMean known.now word.now near) }
{
    let Some(place) = nearest(alloc, known, word)? else {
        return Ok(None);
    };
    let option = meant_by(alloc, word, without_mark(known[place].as_bytes()))?;
    Ok(Some(option))
}
