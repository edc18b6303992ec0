//! The file of a store: who may read it.

use journal::path_beside;
use std::fs;
use std::fs::OpenOptions;
use std::io::Write;
use std::os::unix::fs::{MetadataExt, OpenOptionsExt};

/// Reading and writing for the owner, nothing for others.
const OWNER_ALONE: u32 = 0o600;

/// Reading for the group or for all.
const OTHERS_READ: u32 = 0o044;

/// How many octets a log has at most that has no page of a store: a page has 512 at least.
const WITHOUT_PAGES: u64 = 512;

/// How many octets the log beside a store's file has; 0 if there is none.
pub fn log_octets(rt: &HostRuntime, path: &str) -> u64 {
    let Ok(log) = path_beside(rt, path, "-wal") else {
        return 0;
    };
    match fs::metadata(rt, log.as_str()) {
        Ok(log) => log.len(),
        Err(_) => 0,
    }
}

/// Whether a log with pages lies beside no file, or an empty one: that of a store whose file was
/// moved or removed. An opening would make a file, and begin the log anew.
pub fn is_log_alone(rt: &HostRuntime, path: &str) -> bool {
    let file = match fs::metadata(rt, path) {
        Ok(file) => file.len(),
        Err(_) => 0,
    };
    file == 0 && log_octets(rt, path) > WITHOUT_PAGES
}

/// Makes the file of a store, empty, if there is none. Only its owner may read it, and its log,
/// which is made with its mode. If it can't be made, the opening of the store says why.
pub fn make_file(rt: &HostRuntime, path: &str) {
    if path == ":memory:" || path.starts_with("file:") {
        return;
    }
    let _ = OpenOptions::new()
        .write(true)
        .create_new(true)
        .mode(OWNER_ALONE)
        .open(rt, path);
}

/// Prints if others than the owner may read the file of a store, or its log.
pub fn tell_readers<E: Write>(rt: &HostRuntime, err: &mut E, path: &str) {
    tell_readers_of(rt, err, path);
    if let Ok(log) = path_beside(rt, path, "-wal") {
        tell_readers_of(rt, err, log.as_str());
    }
}

/// Prints if others than its owner may read a file.
fn tell_readers_of<E: Write>(rt: &HostRuntime, err: &mut E, path: &str) {
    if let Some(mode) = mode_for_others(rt, path) {
        let _ = writeln!(
            err,
            "note: {path}: others than its owner may read it (mode {mode:o}), and mail and secrets lie in it in clear"
        );
    }
}

/// The mode of a file that others than its owner may read; none of another, or if none is there.
pub fn mode_for_others(rt: &HostRuntime, path: &str) -> Option<u32> {
    let mode = fs::metadata(rt, path).ok()?.mode() & 0o777;
    if mode & OTHERS_READ == 0 {
        return None;
    }
    Some(mode)
}
