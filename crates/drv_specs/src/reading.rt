//! The directives of a settled text, one after another.

// In clauses: `size_left` is how many bytes are left. `lines_left` is the lines that are left.
// `directives_left` is the directives of the lines that are left. `read_lines in_body n lines` is
// the directives of lines, the first of which has number n. `bytes_from` is what follows a line,
// with its newline. `words_of` is the words of a text from here on.
ghost use Rattle.drv_specs.specs.Directives.{body_lines, by_colon, by_key, by_keyword, first_line};
ghost use Rattle.drv_specs.specs.Directives.{include_directive, is_colon, read_lines, read_settled};
ghost use Rattle.drv_specs.specs.Directives.{rename_directive, shown};
ghost use Rattle.drv_specs.specs.Lines.{ends_line, lines_of, words_of};
ghost use Rattle.drv_specs.specs.Code.Slices.{Ends, bytes_from, directives_left, found, is_keyword};
ghost use Rattle.drv_specs.specs.Code.Slices.{is_passed, lines_left, size_left, text_left};
ghost use Rattle.std.specs.List.{list_all, position};
ghost use Rattle.std.specs.Option.{option_map};
ghost use Rattle.std.specs.Prelude.{◌≡◌, ◌<◌, ◌≤◌, ◌^◌, ◌+◌, ◌-◌, ◌∷◌, ◌++◌, [], IfNone, false};
ghost use Rattle.std.specs.Prelude.{length, not, slice_get, true};

use crate::bytes::{following, has_byte, trim, without_blanks, without_last};
use crate::directive::{Directive, IfMissing};
use crate::lines::{Lines, cut_body, cut_line, next_word};
use bstr::ByteSlice;
use std::marker::Model;

/// What a line begins, and the lines after that.
#[derive(Clone, Copy)]
struct Begun<'a> {
    directive: Option<Directive<'a>>,
    left: Lines<'a>,
}

/// A directive with a body, by what precedes the colon.
fn by_key<'a>(key: &'a [u8], body: &'a [u8]) -> Directive<'a>
    ensures { shown result ≡ by_key key.now body.now }
{
    match key {
        [b'*', name @ ..] => Directive::Text { name, body },
        _ => Directive::Pair { key, body },
    }
}

/// The directive of a line `%rename`, by what follows that.
fn rename_directive<'a>(number: usize, text: &'a [u8]) -> Directive<'a>
    ensures { shown result ≡ rename_directive number (words_of text.now) }
{
    let Some((old, text)) = next_word(text) else {
        return Directive::Bad(number);
    };
    let Some((new, text)) = next_word(text) else {
        return Directive::Bad(number);
    };
    match next_word(text) {
        Some(_) => Directive::Bad(number),
        None => Directive::Rename { old, new },
    }
}

/// The directive of a line `%include`, by what follows that.
fn include_directive<'a>(number: usize, if_missing: IfMissing, text: &'a [u8]) -> Directive<'a>
    ensures { shown result ≡ include_directive number if_missing text.now }
{
    match text {
        [b'<', file @ ..] if file.ends_with(b">") => Directive::Include {
            if_missing,
            file: without_last(file),
        },
        _ => Directive::Bad(number),
    }
}

/// The directive of a line that begins with `%`.
fn by_keyword<'a>(number: usize, line: &'a [u8]) -> Directive<'a>
    ensures { shown result ≡ by_keyword number line.now (words_of line.now) }
{
    let Some((word, words)) = next_word(line) else {
        return Directive::Bad(number);
    };
    if word == b"%rename".as_slice() {
        return rename_directive(number, words);
    }
    let rest = trim(following(line, word.len()));
    if word == b"%include".as_slice() {
        return include_directive(number, IfMissing::Refuse, rest);
    }
    if word == b"%include_noerr".as_slice() {
        return include_directive(number, IfMissing::PassOver, rest);
    }
    Directive::Bad(number)
}

/// Where a body begins: after the colon of its line, or, where only blanks follow that, with the
/// next line.
fn body_start<'a>(text: &'a [u8], line: &[u8], value: &[u8], lines: Lines<'a>) -> Lines<'a>
    requires whole { text.now ≡ line.now ++ bytes_from (text_left lines) }
    requires line { list_all (λ b. not (ends_line b)) line.now ≡ true }
    requires value { Ends line.now value.now }
    requires number { 0 < lines.number }
    ensures body { body_lines (lines_left result)
        ≡ first_line value.now ++ body_lines (lines_left lines.entry) }
    ensures left { read_lines true result.number (lines_left result)
        ≡ read_lines true lines.entry.number (lines_left lines.entry) }
    ensures room { result.number + size_left result
        ≤ lines.entry.number + (length value.now + size_left lines.entry) }
    ensures fewer { size_left result ≤ 1 + length value.now + size_left lines.entry }
{
    let rest = without_blanks(value);
    // Nothing follows the colon, so the body is the lines after it.
    if !has_byte(rest) {
        return lines;
    }
    Lines {
        text: Some(following(text, line.len() - rest.len())),
        // The body begins on the line of the colon, one before those left.
        number: lines.number - 1,
    }
}

/// What a line begins that may have a colon: `start` is the line without the blanks at its front.
fn with_colon<'a>(text: &'a [u8], line: &[u8], start: &'a [u8], lines: Lines<'a>) -> Begun<'a>
    requires whole { text.now ≡ line.now ++ bytes_from (text_left lines) }
    requires line { list_all (λ b. not (ends_line b)) line.now ≡ true }
    requires start { Ends line.now start.now }
    requires number { 0 < lines.number }
    requires room { lines.number + length text.now < 2 ^ 64 }
    ensures directive { found result.directive
        ≡ by_colon (lines.entry.number - 1) start.now (lines_left lines.entry)
        (position is_colon start.now) ∷ [] }
    ensures left { read_lines true lines.entry.number (lines_left lines.entry)
        ≡ directives_left result.left }
    ensures room { result.left.number + size_left result.left
        ≤ lines.entry.number + length text.now }
    ensures fewer { size_left result.left ≤ length text.now }
{
    let Some(at) = start.find_byte(b':') else {
        return Begun {
            // The line at fault is the one before those left.
            directive: Some(Directive::Bad(lines.number - 1)),
            left: cut_body(lines).left,
        };
    };
    let value = following(start, at + 1);
    let body = cut_body(body_start(text, line, value, lines));
    Begun {
        directive: Some(by_key(&start[..at], body.text)),
        left: body.left,
    }
}

/// Whether a line without the blanks at its front begins nothing.
fn is_passed(start: &[u8]) -> bool
    ensures { result ≡ is_passed start.now }
{
    matches!(start, [] | [b'#', ..])
}

/// Whether a line without the blanks at its front begins with `%`.
fn is_keyword(start: &[u8]) -> bool
    ensures { result ≡ is_keyword start.now }
{
    matches!(start, [b'%', ..])
}

/// What the first line of a text begins, which has this number and is in no body.
fn begin<'a>(number: usize, text: &'a [u8]) -> Begun<'a>
    requires { number + 1 + length text.now < 2 ^ 64 }
    ensures directives { read_lines false number (lines_of text.now)
        ≡ found result.directive ++ directives_left result.left }
    ensures room { result.left.number + size_left result.left ≤ number + 1 + length text.now }
    ensures fewer { size_left result.left ≤ length text.now }
{
    let (line, following) = cut_line(text);
    let left = Lines {
        text: following,
        number: number + 1,
    };
    let start = without_blanks(line);
    if is_passed(start) {
        return Begun {
            directive: None,
            left,
        };
    }
    if is_keyword(start) {
        return Begun {
            directive: Some(by_keyword(number, start)),
            left,
        };
    }
    with_colon(text, line, start, left)
}

/// The next directive of lines, if there is one, and the lines after it.
fn next_of<'a>(lines: Lines<'a>) -> Begun<'a>
    requires { lines.number + size_left lines < 2 ^ 64 }
    ensures directives { directives_left lines.entry
        ≡ found result.directive ++ directives_left result.left }
    ensures end { IfNone result.directive (directives_left lines.entry ≡ []) }
    ensures room { result.left.number + size_left result.left
        ≤ lines.entry.number + size_left lines.entry }
{
    let mut left = lines;
    while let Some(text) = left.text {
        let begun = begin(left.number, text);
        if begun.directive.is_some() {
            return begun;
        }
        left = begun.left;
    }
    Begun {
        directive: None,
        left,
    }
}

/// What is left of a settled text. Contracts see the directives.
#[derive(Drop)]
pub(crate) struct Reader<'a> {
    left: Lines<'a>,
}

impl<'a> Model for Reader<'a> {
    ghost use Rattle.drv_specs.specs.Directives.{Directive};
    ghost use Rattle.drv_specs.specs.Code.Slices.{directives_left, size_left};
    ghost use Rattle.std.specs.Prelude.{◌<◌, ◌+◌, ◌^◌, List};

    ghost Value = { List Directive };

    ghost view = { λ r. directives_left r.left };

    ghost invariant = { λ r. r.left.number + size_left r.left < 2 ^ 64 };
}

impl<'a> Reader<'a> {
    /// At the first line of a settled text.
    pub(crate) fn new(text: &'a [u8]) -> Reader<'a>
        ensures { result ≡ read_settled text.now }
    {
        Reader {
            left: Lines {
                text: Some(text),
                number: 1,
            },
        }
    }

    /// Takes the next directive, if there is one.
    pub(crate) fn next(&mut self) -> Option<Directive<'a>>
        ensures directives { self.old ≡ found result ++ self.new }
        ensures end { IfNone result (self.old ≡ []) }
    {
        let begun = next_of(self.left);
        self.left = begun.left;
        begun.directive
    }
}

/// The first directive of a settled text, if there is one.
#[tactic(auto, using(crate::proofs::Carrying::first_taken))]
pub fn first_directive(text: &[u8]) -> Option<Directive<'_>>
    ensures { option_map shown result ≡ slice_get (read_settled text.now) 0 }
{
    let mut reader = Reader::new(text);
    reader.next()
}
