//! The place of a byte in a text.

ghost use Rattle.std.specs.List.{position};
ghost use Rattle.std.specs.Prelude.{◌≡◌, ◌==◌};

/// The place of the first byte of a kind, if there is one. The call allocates nothing.
pub(crate) fn first_place(mark: u8, text: &[u8]) -> Option<usize>
    ensures { result ≡ position (λ b. b == mark) text.now }
{
    text.iter().position(|byte| *byte == mark)
}
