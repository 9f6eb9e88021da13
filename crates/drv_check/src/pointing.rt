//! What a piece gives, and where in it a fault is.

ghost use Rattle.drv_check.specs.Points.{body_in, body_start, front_length, in_body, name_in, old_length};
ghost use Rattle.drv_check.specs.Points.{percent_of, percent_place, place_in_addition, place_of, point};
ghost use Rattle.drv_specs.specs.Blanks.{is_blank};
ghost use Rattle.drv_specs.specs.Directives.{is_colon};
ghost use Rattle.std.specs.List.{position};
ghost use Rattle.std.specs.Option.{option_map};
ghost use Rattle.std.specs.Prelude.{◌≡◌, ◌≤◌, ◌<◌, ◌+◌, IfSome, length, slice_get};

use drv_place::{after_first, item_or};
use drv_specs::bytes::{first_solid, following, without_white};
use drv_specs::{Directive, SpecSet, SpecsFault, appends, first_directive};
use drv_syntax::SyntaxFault;

/// How many blanks a text begins with.
pub(crate) fn blanks_before(text: &[u8]) -> usize
    ensures is { result ≡ front_length is_blank text.now }
    ensures within { result ≤ length text.now }
{
    first_solid(text).unwrap_or(text.len())
}

/// The place of the first colon.
pub(crate) fn colon_in(text: &[u8]) -> Option<usize>
    ensures is { result ≡ position is_colon text.now }
    ensures within { IfSome result (λ at. at < length text.now) }
{
    text.iter().position(|byte| *byte == b':')
}

/// The body of a piece; without one it is the whole piece.
fn body_in(text: &[u8]) -> &[u8]
    ensures { result.now ≡ body_in text.now }
{
    match first_directive(text) {
        Some(Directive::Text { body, .. }) => body,
        Some(Directive::Pair { body, .. }) => body,
        _ => text,
    }
}

/// Where the body of a piece begins.
fn body_start(text: &[u8]) -> usize
    ensures is { result ≡ body_start text.now }
    ensures within { result ≤ length text.now }
{
    text.len().saturating_sub(body_in(text).len())
}

/// The name of the text that a piece puts or changes.
pub(crate) fn name_in(text: &[u8]) -> Option<&[u8]>
    ensures { option_map (λ name. name.now) result ≡ name_in text.now }
{
    match first_directive(text) {
        Some(Directive::Text { name, .. }) => Some(name),
        _ => None,
    }
}

/// Whether a piece has a body.
pub(crate) fn has_body(text: &[u8]) -> bool {
    matches!(
        first_directive(text),
        Some(Directive::Text { .. } | Directive::Pair { .. })
    )
}

/// Whether a piece adds to a text.
pub(crate) fn is_addition(text: &[u8]) -> bool {
    appends(body_in(text))
}

/// Where in a piece its own text begins: its body, or what that adds.
pub(crate) fn own_start(text: &[u8]) -> usize
    ensures within { result ≤ length text.now + 1 }
{
    let start = body_start(text);
    if is_addition(text) { start + 1 } else { start }
}

/// The place of the `%` in its text, if the fault has one.
fn percent_of(fault: &SyntaxFault) -> Option<usize>
    ensures { result ≡ percent_of fault.now }
{
    match fault {
        SyntaxFault::Memory | SyntaxFault::TextTooLong => None,
        SyntaxFault::BadDirective(place)
        | SyntaxFault::Unclosed(place)
        | SyntaxFault::StarOutside(place)
        | SyntaxFault::MixedStar(place)
        | SyntaxFault::TooNested(place)
        | SyntaxFault::UnknownFunction(place)
        | SyntaxFault::EmptyTest(place) => Some(*place),
    }
}

/// The place of the `%` in its text, if the fault is one of a text.
fn place_of(fault: &SpecsFault) -> Option<usize>
    ensures { result ≡ place_of fault.now }
{
    match fault {
        SpecsFault::Syntax { fault, .. } => percent_of(fault),
        _ => None,
    }
}

/// The place with this number in a list, if there is one.
fn place_at(places: &[usize], number: usize) -> Option<usize>
    ensures { result ≡ slice_get places.now number }
{
    places.get(number).copied()
}

/// The place in the file of a byte of the whole text, where an addition has this body.
fn place_in_addition(
    old: Option<usize>,
    body: &[u8],
    places: &[usize],
    number: usize,
) -> Option<usize>
    ensures { result ≡ place_in_addition old body.now places.now number }
{
    let rest = after_first(places, 1);
    match old {
        Some(size) if number < size => None,
        Some(size) => place_at(rest, number - size),
        None if number == 0 => None,
        None => {
            let addition = following(body, 1);
            let white = addition.len().saturating_sub(without_white(addition).len());
            place_at(after_first(rest, white), number - 1)
        }
    }
}

/// The place in the file of a byte of the whole text, where a directive has this body.
fn in_body(
    old: Option<Option<usize>>,
    body: &[u8],
    places: &[usize],
    number: usize,
) -> Option<usize>
    ensures { result ≡ in_body old body.now places.now number }
{
    match old {
        Some(old) if appends(body) => place_in_addition(old, body, places, number),
        _ => place_at(places, number),
    }
}

/// The length of the text that a name has; none where the piece has no name.
fn old_length(set: &SpecSet, name: Option<&[u8]>) -> Option<Option<usize>>
    ensures { result ≡ old_length set.now (option_map (λ name. name.now) name.entry) }
{
    match name {
        Some(name) => match set.text(name) {
            Some(text) => Some(Some(text.len())),
            None => Some(None),
        },
        None => None,
    }
}

/// The place in the file of the `%` of a fault, if it has one.
fn percent_place(
    set: &SpecSet,
    text: &[u8],
    places: &[usize],
    percent: Option<usize>,
) -> Option<usize>
    ensures { result ≡ percent_place set.now text.now places.now percent }
{
    let number = percent?;
    let old = old_length(set, name_in(text));
    let places = after_first(places, body_start(text));
    in_body(old, body_in(text), places, number)
}

/// The place of a fault in a file of this size, of a piece whose bytes are at these places.
pub(crate) fn point(
    set: &SpecSet,
    text: &[u8],
    places: &[usize],
    size: usize,
    fault: &SpecsFault,
) -> usize
    ensures { result ≡ point set.now text.now places.now size fault.now }
{
    match percent_place(set, text, places, place_of(fault)) {
        Some(place) => place,
        None => item_or(places, blanks_before(text), size),
    }
}
