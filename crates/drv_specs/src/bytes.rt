//! Bytes of spec files, and what is around a text.

ghost use Rattle.drv_specs.specs.Blanks.{has_byte, is_blank, is_white};
ghost use Rattle.drv_specs.specs.Lines.{is_empty_line, trim, without_end, without_front};
ghost use Rattle.std.specs.List.{position};
ghost use Rattle.std.specs.Prelude.{◌≡◌, ◌<◌, ◌≤◌, ◌-◌, IfSome, drop, length, not, take};

/// Whether a byte is a space or a tab.
pub fn is_blank(byte: u8) -> bool
    ensures { result ≡ is_blank byte }
{
    byte == b' ' || byte == b'\t'
}

/// Whether a byte is a blank or a newline.
pub fn is_white(byte: u8) -> bool
    ensures { result ≡ is_white byte }
{
    is_blank(byte) || byte == b'\n'
}

/// Whether a text has any byte.
pub fn has_byte(text: &[u8]) -> bool
    ensures { result ≡ has_byte text.now }
{
    !matches!(text, [])
}

/// Whether a line is empty or has blanks alone.
pub fn is_empty_line(line: &[u8]) -> bool
    ensures { result ≡ is_empty_line line.now }
{
    line.iter().all(|byte| is_blank(*byte))
}

/// A text without its last byte.
pub fn without_last(text: &[u8]) -> &[u8]
    ensures { result.now ≡ take (length text.now - 1) text.now }
{
    match text {
        [] => text,
        [front @ .., _] => front,
    }
}

/// The place of the first byte of a text that is no blank.
pub fn first_solid(text: &[u8]) -> Option<usize>
    ensures is { result ≡ position (λ b. not (is_blank b)) text.now }
    ensures within { IfSome result (λ at. at < length text.now) }
{
    text.iter().position(|byte| !is_blank(*byte))
}

/// The place of the first byte of a text that is no white space.
pub fn first_black(text: &[u8]) -> Option<usize>
    ensures is { result ≡ position (λ b. not (is_white b)) text.now }
    ensures within { IfSome result (λ at. at < length text.now) }
{
    text.iter().position(|byte| !is_white(*byte))
}

/// A text without the blanks at its front.
pub fn without_blanks(text: &[u8]) -> &[u8]
    ensures bytes { result.now ≡ without_front is_blank text.now }
    ensures within { length result.now ≤ length text.now }
{
    let stays = first_solid(text).unwrap_or(text.len());
    following(text, stays)
}

/// A text without the white space at its front.
pub fn without_white(text: &[u8]) -> &[u8]
    ensures { result.now ≡ without_front is_white text.now }
{
    let stays = first_black(text).unwrap_or(text.len());
    following(text, stays)
}

/// A text without its first byte.
pub(crate) fn without_first(text: &[u8]) -> &[u8]
    ensures { result.now ≡ drop 1 text.now }
{
    match text {
        [] => text,
        [_, rest @ ..] => rest,
    }
}

/// A text after its first bytes.
pub fn following(text: &[u8], count: usize) -> &[u8]
    ensures { result.now ≡ drop count text.now }
{
    if count <= text.len() {
        &text[count..]
    } else {
        &[]
    }
}

/// A text without the blanks at its end.
#[tactic(auto, using(crate::proofs::Trimming::end_goes, crate::proofs::Trimming::end_stays, crate::proofs::Trimming::end_empty))]
fn without_end_blanks(text: &[u8]) -> &[u8]
    ensures { result.now ≡ without_end is_blank text.now }
{
    let mut end = text.len();
    while end > 0 {
        if !is_blank(text[end - 1]) {
            return &text[..end];
        }
        end -= 1;
    }
    &[]
}

/// A text without the white space at its end.
#[tactic(auto, using(crate::proofs::Trimming::end_goes, crate::proofs::Trimming::end_stays, crate::proofs::Trimming::end_empty))]
pub(crate) fn without_end_white(text: &[u8]) -> &[u8]
    ensures { result.now ≡ without_end is_white text.now }
{
    let mut end = text.len();
    while end > 0 {
        if !is_white(text[end - 1]) {
            return &text[..end];
        }
        end -= 1;
    }
    &[]
}

/// A text without the blanks around it.
pub fn trim(text: &[u8]) -> &[u8]
    ensures { result.now ≡ trim text.now }
{
    without_end_blanks(without_blanks(text))
}
