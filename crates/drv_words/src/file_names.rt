//! The parts of a file's name.

ghost use Rattle.drv_words.specs.FileNames.{base, split_at_last, split_suffix, stem};
ghost use Rattle.std.specs.Option.{option_map};
ghost use Rattle.std.specs.Prelude.{◌≡◌};

/// The bytes before the last byte of a kind, and those after it, if there is one.
pub fn split_at_last(mark: u8, name: &[u8]) -> Option<(&[u8], &[u8])>
    ensures { option_map (λ parts. (parts.0.now, parts.1.now)) result ≡ split_at_last mark name.now }
{
    match name.iter().rposition(|byte| *byte == mark) {
        Some(at) => Some((&name[..at], &name[at + 1..])),
        None => None,
    }
}

/// A name without its folder: the part after its last slash.
pub fn base(name: &[u8]) -> &[u8]
    ensures { result.now ≡ base name.now }
{
    match split_at_last(b'/', name) {
        Some((_, file)) => file,
        None => name,
    }
}

/// The parts before and after the last period of a name without its folder. A leading period
/// doesn't count.
pub fn split_suffix(name: &[u8]) -> Option<(&[u8], &[u8])>
    ensures { option_map (λ parts. (parts.0.now, parts.1.now)) result ≡ split_suffix name.now }
{
    let (stem, suffix) = split_at_last(b'.', base(name))?;
    // A name such as `.profile` has no suffix.
    if stem.is_empty() {
        return None;
    }
    Some((stem, suffix))
}

/// A name without its folder and its suffix.
pub fn stem(name: &[u8]) -> &[u8]
    ensures { result.now ≡ stem name.now }
{
    match split_suffix(name) {
        Some((stem, _)) => stem,
        None => base(name),
    }
}
