//! The lines of a settled text, one after another, and the words of a line.

// In clauses: `lines_left` is the lines that are left. `size_left` is how many bytes are left.
// `bytes_from` is what follows a line, with its newline. `read_lines in_body n lines` is the
// directives of lines, the first of which has number n. `words_of` is the words of a text from here
// on. `text_left` is the text that is left.
ghost use Rattle.drv_specs.specs.Directives.{body_lines, read_lines};
ghost use Rattle.drv_specs.specs.Lines.{ends_line, is_empty_line, lines_of, words_of};
ghost use Rattle.drv_specs.specs.Code.Slices.{bytes_from, directives_left, lines_from, lines_left};
ghost use Rattle.drv_specs.specs.Code.Slices.{size_left, text_left};
ghost use Rattle.drv_words.specs.Bytes.{newline};
ghost use Rattle.std.specs.List.{join_with_byte, list_all};
ghost use Rattle.std.specs.Option.{option_map};
ghost use Rattle.std.specs.Prelude.{◌≡◌, ◌<◌, ◌≤◌, ◌^◌, ◌+◌, ◌∷◌, ◌++◌, [], IfNone, IfSome, drop};
ghost use Rattle.std.specs.Prelude.{false, length, not, take, true, ℕ};

use crate::bytes::{following, has_byte, is_empty_line, without_blanks};
use bstr::ByteSlice;

/// The lines of a text that are left: what the first begins, if there is one, and its number.
#[derive(Clone, Copy)]
pub(crate) struct Lines<'a> {
    pub(crate) text: Option<&'a [u8]>,
    pub(crate) number: usize,
}

/// A body, and the lines after it.
#[derive(Clone, Copy)]
pub(crate) struct Body<'a> {
    pub(crate) text: &'a [u8],
    pub(crate) left: Lines<'a>,
}

/// A text's first line, and what follows its newline, if it has one.
#[tactic(auto, using(crate::proofs::Found::line_found, crate::proofs::Found::line_clean, crate::proofs::Found::line_alone, crate::proofs::Sliced::line_only))]
pub fn cut_line(text: &[u8]) -> (&[u8], Option<&[u8]>)
    ensures whole { text.now
        ≡ result.0.now ++ bytes_from (option_map (λ following. following.now) result.1) }
    ensures line { list_all (λ b. not (ends_line b)) result.0.now ≡ true }
    ensures lines { lines_of text.now
        ≡ result.0.now ∷ lines_from (option_map (λ following. following.now) result.1) }
{
    match text.find_byte(b'\n') {
        Some(at) => (&text[..at], Some(&text[at + 1..])),
        None => (text, None),
    }
}

/// The next line and those after it, unless it is empty or has blanks alone, or there is none.
fn full_line<'a>(lines: Lines<'a>) -> Option<(&'a [u8], Lines<'a>)>
    requires { lines.number + size_left lines < 2 ^ 64 }
    ensures none { IfNone result (body_lines (lines_left lines.entry) ≡ []) }
    ensures outside { IfNone result ((n : ℕ) → read_lines true n (lines_left lines.entry)
        ≡ read_lines false n (lines_left lines.entry)) }
    ensures bytes { IfSome result (λ found. bytes_from (text_left lines.entry)
        ≡ newline ∷ found.0.now ++ bytes_from (text_left found.1)) }
    ensures lines { IfSome result (λ found. lines_left lines.entry
        ≡ found.0.now ∷ lines_left found.1) }
    ensures full { IfSome result (λ found. is_empty_line found.0.now ≡ false) }
    ensures number { IfSome result (λ found. found.1.number ≡ lines.entry.number + 1) }
{
    let Some(text) = lines.text else {
        return None;
    };
    let (line, following) = cut_line(text);
    // An empty line ends a body.
    if is_empty_line(line) {
        return None;
    }
    let number = lines.number + 1;
    Some((
        line,
        Lines {
            text: following,
            number,
        },
    ))
}

/// The first lines of a text, which have this many bytes with a newline before each.
fn first_lines(text: Option<&[u8]>, size: usize) -> &[u8]
    requires { size ≤ length (bytes_from (option_map (λ bytes. bytes.now) text)) }
    ensures { result.now
        ≡ drop 1 (take size (bytes_from (option_map (λ bytes. bytes.now) text.entry))) }
{
    match text {
        Some(text) => &text[..size.saturating_sub(1)],
        None => &[],
    }
}

/// The lines up to the next one that is empty.
pub(crate) fn cut_body<'a>(lines: Lines<'a>) -> Body<'a>
    requires { lines.number + size_left lines < 2 ^ 64 }
    ensures body { result.text.now ≡ join_with_byte newline (body_lines (lines_left lines.entry)) }
    ensures left { read_lines true lines.entry.number (lines_left lines.entry)
        ≡ directives_left result.left }
    ensures room { result.left.number + size_left result.left
        ≤ lines.entry.number + size_left lines.entry }
    ensures fewer { size_left result.left ≤ size_left lines.entry }
{
    let mut left = lines;
    let mut size = 0;
    while let Some((line, following)) = full_line(left) {
        // 1 for the newline before the line.
        size += 1 + line.len();
        left = following;
    }
    Body {
        text: first_lines(lines.text, size),
        left,
    }
}

/// A text's first word, cut at blanks, and what follows it.
pub fn next_word(text: &[u8]) -> Option<(&[u8], &[u8])>
    ensures none { IfNone result (words_of text.now ≡ []) }
    ensures some { IfSome result (λ found. words_of text.now ≡ found.0.now ∷ words_of found.1.now) }
{
    let text = without_blanks(text);
    if !has_byte(text) {
        return None;
    }
    match text.find_byteset(b" \t") {
        Some(at) => Some((&text[..at], following(text, at))),
        None => Some((text, &[])),
    }
}
