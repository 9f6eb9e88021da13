//! Whether a file that `gdrv-write-specs` wrote is whole: it ends in a mark that says its size and
//! its sum.

ghost use Rattle.drv_compile.specs.Written.{mark, numbers, whole_lines};
ghost use Rattle.drv_words.specs.Bytes.{space};
ghost use Rattle.drv_words.specs.Checksums.{checksum};
ghost use Rattle.std.specs.Cmp.Lexicographic.{pointwise};
ghost use Rattle.std.specs.Fmt.{decimal};
ghost use Rattle.std.specs.Option.{option_copied};
ghost use Rattle.std.specs.Prelude.{◌≡◌, ◌∷◌, nat_eq};

use crate::calling::before_ending;
use drv_words::{checksum, split_at_last};
use itoa::Buffer;

/// Whether a text is a blank and the sum of these bytes.
fn is_sum(text: &[u8], bytes: &[u8]) -> bool
    ensures { result ≡ pointwise nat_eq text.now (space ∷ decimal (checksum bytes.now)) }
{
    match text.strip_prefix(b" ".as_slice()) {
        Some(sum) => sum == Buffer::new().format(checksum(bytes)).as_bytes(),
        None => false,
    }
}

/// Whether a text is the size and the sum of these bytes.
fn are_numbers(text: &[u8], bytes: &[u8]) -> bool
    ensures { result ≡ pointwise nat_eq text.now (numbers bytes.now) }
{
    match text.strip_prefix(Buffer::new().format(bytes.len()).as_bytes()) {
        Some(sum) => is_sum(sum, bytes),
        None => false,
    }
}

/// Whether a line is the mark of a file with these bytes before it.
fn is_mark(line: &[u8], before: &[u8]) -> bool
    ensures { result ≡ pointwise nat_eq line.now (mark before.now) }
{
    match line.strip_prefix(b"# whole ".as_slice()) {
        Some(numbers) => are_numbers(numbers, before),
        None => false,
    }
}

/// The lines of a file before its mark, without the newline that ends them; none where the file is
/// not whole.
pub fn whole_lines(text: &[u8]) -> Option<&[u8]>
    ensures { option_copied result ≡ whole_lines text.now }
{
    let (lines, mark) = split_at_last(b'\n', before_ending(b"\n", text)?)?;
    let before = text.get(..lines.len() + 1).unwrap_or(text);
    is_mark(mark, before).then_some(lines)
}
