//! The version of the programs.

/// The version of `gdrv` and of the programs beside it, as CHANGELOG.md has it at its head.
pub const VERSION: &str = "1.1";
