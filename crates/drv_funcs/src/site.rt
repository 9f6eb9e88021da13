//! The text that calls a function.

/// The text that calls a function.
#[derive(Clone, Copy)]
pub enum Site {
    /// That of a source.
    Source,
    /// That of the link.
    Link,
}
