//! Files that a run makes and removes.

use crate::reading::is_absent;
use drv_words::{ClaimAnswer, RemoveAnswer};
use std::fs::{self, File, OpenOptions};
use std::io::{self, ErrorKind, Write};
use std::os::unix::fs::OpenOptionsExt;

/// Read and write permission for the owner alone.
const OWNERS: u32 = 0o600;

/// Opens a new file that only its owner may read or write, whatever the umask.
fn create_private(rt: &HostRuntime, path: &str) -> io::Result<File> {
    OpenOptions::new()
        .write(true)
        .create_new(true)
        .mode(OWNERS)
        .open(rt, path)
}

/// Makes a new private file of these bytes. A file that could not be written whole is removed.
pub fn make_file(rt: &HostRuntime, path: &str, contents: &[u8]) -> ClaimAnswer {
    let mut file = match create_private(rt, path) {
        Ok(file) => file,
        Err(e) if e.kind() == ErrorKind::AlreadyExists => return ClaimAnswer::Taken,
        Err(_) => return ClaimAnswer::Failed,
    };
    if file.write_all(contents).is_ok() {
        return ClaimAnswer::Claimed;
    }
    drop(file);
    let _ = fs::remove_file(rt, path);
    ClaimAnswer::Failed
}

/// Removes a plain file. Neither a link nor what it leads to is ever removed.
pub fn remove_file(rt: &HostRuntime, path: &str) -> RemoveAnswer {
    match fs::symlink_metadata(rt, path) {
        Ok(found) if !found.is_file() => return RemoveAnswer::NotPlain,
        Ok(_) => {}
        Err(e) if is_absent(&e) => return RemoveAnswer::Missing,
        Err(_) => return RemoveAnswer::Failed,
    }
    match fs::remove_file(rt, path) {
        Ok(()) => RemoveAnswer::Removed,
        Err(e) if is_absent(&e) => RemoveAnswer::Missing,
        Err(_) => RemoveAnswer::Failed,
    }
}
