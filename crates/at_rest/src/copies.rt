//! A copy of a store that is read into memory, so that no file is changed or created.

use causes::tell_tables;
use converse::{Fault, read_fault, tell_fault};
use jobs::open_fault;
use journal::path_beside;
use sqlite::{Connection, Error, ErrorCode, FileStore, Files, Options};
use sqlite_disk::{Disk, Memory};
use sqlvault::let_go;
use std::alloc::Global;
use std::fs::OpenOptions;
use std::io::{ErrorKind, Read, Write};
use std::{fs, io};
use vault::VaultFault;

/// How many octets of a file are read at once.
const PIECE_OCTETS: usize = 65_536;

/// Where a database's header has the versions of the format by which it is written and read
/// (https://www.sqlite.org/fileformat.html, 1.3).
const VERSIONS: usize = 18;

/// These versions, if the database has a log.
const LOGGED: [u8; 2] = [2, 2];

/// Why a copy isn't opened.
#[derive(Drop)]
pub enum CopyFault {
    /// Its file or its log can't be read.
    Unread(io::Error),
    /// A journal lies beside it, by which SQLite would first change it.
    Journal,
    /// SQLite refuses it.
    Refused(Error),
}

/// Whether a file lies beside that of the store whose name is the store's with this ending.
fn has_file(rt: &HostRuntime, path: &str, ending: &str) -> bool {
    match path_beside(rt, path, ending) {
        Ok(name) => fs::symlink_metadata(rt, name.as_str()).is_ok(),
        Err(_) => false,
    }
}

/// Whether the store at a path lies where nothing can be written, or has no log beside it: then an
/// opening would be refused, or would create a log.
pub fn is_copy(rt: &HostRuntime, path: &str) -> bool {
    if !has_file(rt, path, "-wal") {
        return true;
    }
    match OpenOptions::new().write(true).open(rt, path) {
        Ok(_) => false,
        Err(error) => error.kind() == ErrorKind::ReadOnlyFilesystem,
    }
}

/// Whether a database's header says that it has a log.
fn is_logged(rt: &HostRuntime, path: &str) -> bool {
    let mut head = [0; VERSIONS + 2];
    match fs::open(rt, path) {
        Ok(mut file) => {
            file.read_exact(&mut head).is_ok() && &head[VERSIONS..] == LOGGED.as_slice()
        }
        Err(_) => false,
    }
}

/// Prints a note if the log of a store isn't beside it: what was done last is in the log.
pub fn tell_lost_log<E: Write>(rt: &HostRuntime, err: &mut E, path: &str) {
    if is_logged(rt, path) && !has_file(rt, path, "-wal") {
        let _ = writeln!(
            err,
            "note: {path}-wal is missing, and so may be the last changes to the store"
        );
    }
}

/// Reads a file into memory, whole.
fn read_into_memory(rt: &HostRuntime, path: &str) -> io::Result<Memory> {
    let mut file = fs::open(rt, path)?;
    let mut memory = Memory::new(rt.alloc());
    let mut piece = [0; PIECE_OCTETS];
    let mut at = 0;
    for _ in 0..u64::MAX {
        let count = file.read(&mut piece)?;
        if count == 0 {
            break;
        }
        if !memory.may_be_used() {
            break;
        }
        memory.write_at(at, &piece[..count])?;
        at = at.saturating_add(count);
    }
    Ok(memory)
}

/// Reads the files of the store at a path into memory.
fn read_files(rt: &HostRuntime, path: &str) -> io::Result<Files<Memory>> {
    let alloc: Global = rt.alloc();
    let db = read_into_memory(rt, path)?;
    let log = path_beside(rt, path, "-wal")?;
    let log = match read_into_memory(rt, log.as_str()) {
        Ok(log) => log,
        Err(error) if error.kind() == ErrorKind::NotFound => Memory::new(alloc),
        Err(error) => return Err(error),
    };
    Ok(Files { log, db })
}

/// Opens the store at a path in memory: its files stay as they are.
pub fn open_copy(rt: &HostRuntime, path: &str) -> Result<Connection<FileStore<Memory>>, CopyFault> {
    if has_file(rt, path, "-journal") {
        return Err(CopyFault::Journal);
    }
    let files = match read_files(rt, path) {
        Ok(files) => files,
        Err(error) => return Err(CopyFault::Unread(error)),
    };
    if !files.may_be_used() {
        return Err(CopyFault::Refused(Error::SqliteFailure(ErrorCode::CannotOpen)));
    }
    match Connection::open_files(rt.alloc(), files, Options::new(0)) {
        Ok(conn) => Ok(conn),
        Err((error, _left)) => Err(CopyFault::Refused(error)),
    }
}

/// Prints why a copy isn't opened. Gives the exit status.
pub fn tell_copy<E: Write>(err: &mut E, is_verbose: bool, path: &str, fault: &CopyFault) -> u8 {
    let told = match fault {
        CopyFault::Unread(error) => read_fault(error),
        CopyFault::Journal => Fault::from(VaultFault::Store),
        CopyFault::Refused(error) => Fault::from(open_fault(error)),
    };
    let status = tell_fault(err, told);
    if is_verbose {
        let _ = match fault {
            CopyFault::Unread(error) => writeln!(err, "why: {path}: {error}"),
            CopyFault::Journal => writeln!(err, "why: {path}-journal: a journal lies beside it"),
            CopyFault::Refused(error) => writeln!(err, "why: {path}: {error}"),
        };
    }
    status
}

/// Prints why a copy that can be opened was refused with a fault.
pub fn tell_copy_tables<E: Write>(
    rt: &HostRuntime,
    err: &mut E,
    path: &str,
    fault: VaultFault,
) -> io::Result<()> {
    match open_copy(rt, path) {
        Ok(mut conn) => {
            let told = tell_tables(rt.alloc(), err, path, &mut conn, fault);
            let_go(conn);
            told
        }
        Err(_) => Ok(()),
    }
}
