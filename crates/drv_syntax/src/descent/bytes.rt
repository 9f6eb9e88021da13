//! What the bytes of spec texts can be.

ghost use Rattle.drv_syntax.specs.Bytes as bytes;
ghost use Rattle.std.specs.Prelude.{◌≡◌, ◌++◌, ◌∷◌, []};

/// In a word of a test.
#[inline(always)]
pub fn is_word(b: u8) -> bool
    ensures { result ≡ bytes.is_word b }
{
    b.is_ascii_lowercase()
        || b.is_ascii_alphanumeric()
        || matches!(b, b'_' | b'-' | b'+' | b'=' | b',' | b'.' | b'@')
}

/// In the name of a named text.
pub fn is_name_byte(b: u8) -> bool
    ensures { result ≡ bytes.is_name_byte b }
{
    b.is_ascii_lowercase() || b.is_ascii_alphanumeric() || matches!(b, b'_' | b'.' | b'+' | b'-')
}

/// In a suffix.
pub fn is_suffix(b: u8) -> bool
    ensures { result ≡ bytes.is_suffix b }
{
    b == b'.' || b.is_ascii_alphabetic()
}

/// A space or a tab.
pub fn is_blank(b: u8) -> bool
    ensures { result ≡ bytes.is_blank b }
{
    b == b' ' || b == b'\t'
}

/// A space, a tab or a newline.
pub fn is_white(b: u8) -> bool
    ensures { result ≡ bytes.is_white b }
{
    b == b' ' || b == b'\t' || b == b'\n'
}

/// What begins a test of a suffix or of a language.
pub fn is_mark(b: u8) -> bool
    ensures { result ≡ bytes.is_mark b }
{
    b == b'.' || b == b','
}

#[tactic(auto, using(crate::proofs::FunctionNames::same_pointwise))]
fn is_same(name: &[u8], whole: &[u8]) -> bool
    ensures { result ≡ bytes.is_same name.now whole.now }
{
    name == whole
}

#[tactic(auto, using(crate::proofs::FunctionNames::front_long, crate::proofs::FunctionNames::front_short))]
fn is_front(name: &[u8], b: u8, whole: &[u8]) -> bool
    ensures { result ≡ bytes.is_front (name.now ++ b ∷ []) whole.now }
{
    if whole.len() <= name.len() {
        return false;
    }
    let front = &whole[..name.len()];
    name == front && b == whole[name.len()]
}

/// The name of a function.
pub fn is_function(name: &[u8]) -> bool
    ensures { result ≡ bytes.is_function name.now }
{
    is_same(name, b"getenv")
        || is_same(name, b"if-exists")
        || is_same(name, b"if-exists-else")
        || is_same(name, b"if-exists-then-else")
        || is_same(name, b"replace-outfile")
        || is_same(name, b"remove-outfile")
        || is_same(name, b"version-compare")
}

/// This front of a name and this byte begin the name of a function.
pub fn is_function_front(name: &[u8], b: u8) -> bool
    ensures { result ≡ bytes.is_function_front (name.now ++ b ∷ []) }
{
    is_front(name, b, b"getenv")
        || is_front(name, b, b"if-exists")
        || is_front(name, b, b"if-exists-else")
        || is_front(name, b, b"if-exists-then-else")
        || is_front(name, b, b"replace-outfile")
        || is_front(name, b, b"remove-outfile")
        || is_front(name, b, b"version-compare")
}
