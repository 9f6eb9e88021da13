//! The names of functions.

ghost use Rattle.drv_syntax.specs.Descent as descent;
ghost use Rattle.drv_syntax.specs.Code.Writing.{seen, value_given};
ghost use Rattle.drv_words.specs.Gives.{Gives};
ghost use Rattle.std.specs.Prelude.{◌≡◌, ◌≤◌, [], length};

use crate::descent::bytes::{is_function, is_function_front};
use crate::descent::reader::{Reader, unclosed_fault};
use crate::fault::SyntaxFault;

/// How many bytes of a function's name a text begins with.
fn front_length(text: &[u8]) -> usize
    ensures size { result ≡ descent.front_size [] text.now }
    ensures within { result ≤ length text.now }
{
    let mut length = 0;
    while length < text.len() && is_function_front(&text[..length], text[length]) {
        length += 1;
    }
    length
}

/// A function's name, and its parenthesis.
pub fn function<'a>(
    outer: Option<u32>,
    at: u32,
    r: &mut Reader<'a>,
) -> Result<&'a [u8], SyntaxFault>
    ensures { Gives SyntaxFault.Memory (λ name. (name.now, seen r.new)) result
        (value_given outer (seen r.old) (descent.function at r.old.rest)) }
{
    let size = front_length(r.rest.bytes());
    let name = r.rest.take(size);
    let Some(b) = r.rest.first() else {
        return Err(unclosed_fault(outer, at));
    };
    if b != b'(' || !is_function(name) {
        return Err(SyntaxFault::UnknownFunction(at as usize));
    }
    r.rest.take(1);
    Ok(name)
}
