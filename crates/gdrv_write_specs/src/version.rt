//! The version of the program.

/// The version, as CHANGELOG.md has it at its head.
///
/// `drv_run` has the same for the other programs. This crate uses nothing of the driver, so it is
/// proved beside the driver's crates, and not after them.
pub const VERSION: &str = "1.1";
