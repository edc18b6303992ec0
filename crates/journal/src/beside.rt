//! Where SQLite puts what it keeps beside a store's file.
use std::alloc::AllocError;
use std::fs;

/// The path of what SQLite puts beside a store's file: the file's path with this ending. If a link
/// is given, it is the path of the file to which it leads, with the ending.
pub fn path_beside(rt: &HostRuntime, path: &str, ending: &str) -> Result<String, AllocError> {
    let is_link = fs::symlink_metadata(rt, path).is_ok_and(|found| found.is_symlink());
    if is_link && let Ok(real) = fs::canonicalize(rt, path) {
        return format!(in rt.alloc(); "{}{ending}", real.as_str());
    }
    format!(in rt.alloc(); "{path}{ending}")
}
