//! `popbox export` and `popbox check`: over a store that no server has, which stays as it is.

use crate::copies::{is_copy, open_copy, tell_copy, tell_copy_tables, tell_lost_log};
use crate::store_file::log_octets;
use arguments::{CheckOptions, ExportOptions};
use causes::{Watched, tell_closed_store, tell_refusal, tell_unread};
use converse::check_store::StoreFile;
use converse::export::Folder;
use converse::{Fault, Noted, NotedFolder, tell_fault};
use creds::Name;
use jobs::{check_all, export_from, open_fault};
use mailsql::meta::find_meta_row;
use sqlite::{Alter, Connection, Error, ErrorCode, FileStore, Wary};
use sqlite_disk::Disk;
use sqlvault::{SqlVault, let_go};
use std::alloc::Global;
use std::fs::{File, OpenOptions};
use std::io::{BufWriter, ErrorKind, Read, Write};
use std::os::unix::fs::OpenOptionsExt;
use std::{fs, io};
use vault::{Vault, VaultFault};

/// The version of the tables that this popbox makes. A store of an older one would be changed by an
/// opening.
const VERSION: i64 = 3;

/// How a file begins that is a database of SQLite.
const DATABASE: &[u8; 16] = b"SQLite format 3\0";

/// The name under which a file is written until it is whole.
const UNFINISHED: &str = ".popbox-export";

/// Reading and writing for the owner, nothing for others.
const OWNER_ALONE: u32 = 0o600;

/// What is done over a store at rest.
#[derive(Clone, Copy)]
enum Errand<'a, 'w> {
    /// `popbox check`, of a file and a log of so many octets.
    Check(u64, &'a CheckOptions<'w>),
    /// `popbox export`, of this maildrop.
    Export(Name, &'a ExportOptions<'w>),
}

/// Why a store isn't opened.
#[derive(Clone, Copy)]
pub enum Closed {
    /// It can't be opened, or is refused.
    Refused(VaultFault),
    /// It is of this older version.
    Older(i64),
}

/// Runs `popbox check`: prints what lies in the store that is named.
pub fn run_check<E: Write>(
    rt: &HostRuntime,
    options: &CheckOptions<'_>,
    err: &mut E,
) -> Result<u8, Fault> {
    let (path, is_verbose) = (options.store, options.is_verbose);
    match look_at(rt, path, is_verbose, err) {
        Ok(file) => {
            let octets = file.saturating_add(log_octets(rt, path));
            run_errand(rt, &Errand::Check(octets, options), path, is_verbose, err)
        }
        Err(status) => Ok(status),
    }
}

/// How many octets a store's file has. If there is none, or it is no database, that is printed, and
/// an `Err` is the exit status: an opening would make a file, or write a first page or a log.
pub fn look_at<E: Write>(
    rt: &HostRuntime,
    path: &str,
    is_verbose: bool,
    err: &mut E,
) -> Result<u64, u8> {
    match database_octets(rt, path) {
        Ok(Some(octets)) => Ok(octets),
        Ok(None) => {
            let status = tell_fault(err, Fault::from(VaultFault::NotOurs));
            if is_verbose {
                let _ = writeln!(err, "why: {path}: it doesn't begin as an SQLite database");
            }
            Err(status)
        }
        Err(error) => Err(tell_unread(err, is_verbose, path, &error)),
    }
}

/// How many octets a file has that begins as a database of SQLite; `None` of any other file, and of
/// what is neither a file nor a folder: to open a FIFO is to wait for its writer.
fn database_octets(rt: &HostRuntime, path: &str) -> io::Result<Option<u64>> {
    let metadata = fs::metadata(rt, path)?;
    if !metadata.is_file() && !metadata.is_dir() {
        return Ok(None);
    }
    let octets = metadata.len();
    let mut file = OpenOptions::new().read(true).open(rt, path)?;
    let mut head = [0; 16];
    match file.read_exact(&mut head) {
        Ok(()) if head.as_slice() == DATABASE.as_slice() => Ok(Some(octets)),
        Ok(()) => Ok(None),
        Err(error) if error.kind() == ErrorKind::UnexpectedEof => Ok(None),
        Err(error) => Err(error),
    }
}

/// Runs `popbox export`: puts the messages of the maildrop that is named into a folder.
pub fn run_export<E: Write>(
    rt: &HostRuntime,
    options: &ExportOptions<'_>,
    err: &mut E,
) -> Result<u8, Fault> {
    let (path, is_verbose) = (options.store, options.is_verbose);
    let word = options.maildrop;
    let Some(maildrop) = Name::read(word.as_bytes()) else {
        let _ = writeln!(err, "popbox: bad name");
        if is_verbose {
            let _ = writeln!(err, "why: --maildrop {word:?}: 1 to 32 of a-z, 0-9 and -");
        }
        return Ok(1);
    };
    if let Err(status) = look_at(rt, path, is_verbose, err) {
        return Ok(status);
    }
    run_errand(
        rt,
        &Errand::Export(maildrop, options),
        path,
        is_verbose,
        err,
    )
}

/// Opens the store at a path, and does an errand over it. A store that is refused is reported as
/// `popbox replay` tells it. If it lies where nothing can be written, or has no log beside it, it
/// is read into memory, so that no file is changed or created.
fn run_errand<E: Write>(
    rt: &HostRuntime,
    errand: &Errand<'_, '_>,
    path: &str,
    is_verbose: bool,
    err: &mut E,
) -> Result<u8, Fault> {
    tell_lost_log(rt, err, path);
    if is_copy(rt, path) {
        return match open_copy(rt, path) {
            Ok(conn) => run_over_connection(rt, conn, errand, path, is_verbose, err),
            Err(error) => Ok(tell_copy(err, is_verbose, path, &error)),
        };
    }
    let closed = match Connection::open_from(rt, path, false, Wary) {
        Ok(conn) => return run_over_connection(rt, conn, errand, path, is_verbose, err),
        Err((error, _)) => Closed::Refused(open_fault(&error)),
    };
    Ok(tell_closed(rt, err, is_verbose, path, &closed))
}

/// Prints why a store isn't opened. Gives the exit status.
pub fn tell_closed<E: Write>(
    rt: &HostRuntime,
    err: &mut E,
    is_verbose: bool,
    path: &str,
    closed: &Closed,
) -> u8 {
    let fault = match closed {
        Closed::Refused(fault) => *fault,
        Closed::Older(_) => VaultFault::OldVersion,
    };
    let status = tell_fault(err, Fault::from(fault));
    if is_verbose {
        let _ = match closed {
            Closed::Refused(fault) if *fault != VaultFault::NoMemory && is_copy(rt, path) => {
                tell_copy_tables(rt, err, path, *fault)
            }
            Closed::Refused(fault) => tell_closed_store(rt, err, path, *fault),
            Closed::Older(found) => writeln!(
                err,
                "why: {path}: a store of version {found}, which `replay` over a copy carries over"
            ),
        };
    }
    status
}

/// Adopts the store of a connection, and does an errand over it. The log isn't copied into the file
/// at the end, as other commands do: both stay as they are.
fn run_over_connection<D: Disk + Drop, E: Write>(
    rt: &HostRuntime,
    conn: Connection<FileStore<D>>,
    errand: &Errand<'_, '_>,
    path: &str,
    is_verbose: bool,
    err: &mut E,
) -> Result<u8, Fault> {
    let mut vault = match adopt(rt.alloc(), conn) {
        Ok(vault) => vault,
        Err(closed) => return Ok(tell_closed(rt, err, is_verbose, path, &closed)),
    };
    let done = match errand {
        Errand::Check(octets, options) => check_over(rt, &mut vault, *octets, options, err),
        Errand::Export(maildrop, options) => export_over(rt, &mut vault, maildrop, options, err),
    };
    let_go(vault.into_connection());
    done
}

/// Adopts the store of a connection, which changes nothing in it. A refused one is let go.
pub fn adopt<D: Disk + Drop>(
    alloc: Global,
    conn: Connection<FileStore<D>>,
) -> Result<SqlVault<FileStore<D>>, Closed> {
    let mut conn = conn;
    if let Err(closed) = judge_version(alloc, &mut conn) {
        let_go(conn);
        return Err(closed);
    }
    match SqlVault::adopt_files(alloc, conn) {
        Ok(vault) => Ok(vault),
        Err(fault) => Err(Closed::Refused(fault)),
    }
}

/// Refuses a database without our version row, which an adoption might make a store of, and a store
/// of another version.
fn judge_version<A: Alter>(alloc: Global, conn: &mut Connection<A>) -> Result<(), Closed> {
    match find_meta_row(alloc, conn, b"popbox") {
        Ok(Some(row)) if row.value == VERSION => Ok(()),
        Ok(Some(row)) if row.value == 1 || row.value == 2 => Err(Closed::Older(row.value)),
        Ok(Some(_)) => Err(Closed::Refused(VaultFault::OldVersion)),
        Ok(None) => Err(Closed::Refused(VaultFault::NotOurs)),
        Err(error) => Err(Closed::Refused(read_fault_of(&error))),
    }
}

/// Why a statement that only reads is refused: by a database that has no such table, or for want of
/// memory.
fn read_fault_of(error: &Error) -> VaultFault {
    match error {
        Error::SqliteFailure(ErrorCode::OutOfMemory) => VaultFault::NoMemory,
        Error::SqlInputError(_) => VaultFault::NotOurs,
        _ => VaultFault::Store,
    }
}

/// Prints what lies in a store to standard output.
fn check_over<A: Alter, E: Write>(
    rt: &HostRuntime,
    vault: &mut SqlVault<A>,
    octets: u64,
    options: &CheckOptions<'_>,
    err: &mut E,
) -> Result<u8, Fault> {
    let alloc: Global = rt.alloc();
    let out = BufWriter::new(alloc, io::writer(rt)).map_err(|_| Fault::OutOfMemory)?;
    let mut out = Noted::new(Watched::new(out));
    let file = StoreFile {
        version: VERSION as u64,
        octets,
    };
    let compared = !options.quick;
    let status = check_all(alloc, vault, compared, &file, &mut out, err);
    if options.is_verbose {
        tell_refusal(err, "standard output", out.inner.refusal());
    }
    Ok(status)
}

/// Puts a maildrop's messages into a folder, and prints how many to standard output.
fn export_over<A: Alter, E: Write>(
    rt: &HostRuntime,
    vault: &mut SqlVault<A>,
    maildrop: &Name,
    options: &ExportOptions<'_>,
    err: &mut E,
) -> Result<u8, Fault> {
    let alloc: Global = rt.alloc();
    let out = BufWriter::new(alloc, io::writer(rt)).map_err(|_| Fault::OutOfMemory)?;
    let mut out = Noted::new(Watched::new(out));
    let mut folder = NotedFolder::new(NamedFolder {
        rt,
        path: options.folder,
        is_settled: false,
        faults: 0,
        refusal: None,
        taken: None,
    });
    let compared = !options.damaged;
    let status = export_from(alloc, vault, maildrop, compared, &mut folder, &mut out, err);
    if options.is_verbose && status != 0 {
        if let Err(VaultFault::NoMaildrop) = vault.heads(maildrop) {
            let store = options.store;
            let _ = writeln!(err, "why: {store}: it has no maildrop {maildrop}");
        }
        tell_folder(err, &folder.inner);
        tell_refusal(err, "standard output", out.inner.refusal());
    }
    Ok(status)
}

/// Prints which file of a folder was there already, or what else the system answered.
fn tell_folder<E: Write>(err: &mut E, folder: &NamedFolder<'_>) {
    let path = folder.path;
    if let Some(error) = &folder.refusal {
        let _ = match &folder.taken {
            Some(name) => writeln!(err, "why: {path}/{name}: {error}"),
            None => writeln!(err, "why: {path}: {error}"),
        };
    }
}

/// The folder at a path: whether it was synced after the last file, how many of its calls failed,
/// what the system answered to the last of these, and which file's name was taken, if that was it.
#[derive(Drop)]
struct NamedFolder<'a> {
    rt: &'a HostRuntime,
    path: &'a str,
    is_settled: bool,
    faults: u64,
    refusal: Option<io::Error>,
    taken: Option<String>,
}

impl Folder for NamedFolder<'_> {
    ghost use Rattle.std.specs.Prelude.{None};

    ghost files = { λ _. None };

    ghost is_settled = { λ folder. folder.is_settled };

    ghost faults = { λ folder. folder.faults };

    fn put(&mut self, name: &str, octets: &[u8]) -> io::Result<()> {
        self.is_settled = false;
        match put_file(self.rt, self.path, name, octets) {
            Ok(()) => Ok(()),
            Err(error) => {
                self.faults = self.faults.saturating_add(1);
                self.refusal = Some(error);
                self.taken = taken_name(self.rt, self.path, name, &error);
                Err(error)
            }
        }
    }

    fn settle(&mut self) -> io::Result<()> {
        match sync_folder(self.rt, self.path) {
            Ok(()) => {
                self.is_settled = true;
                Ok(())
            }
            Err(error) => {
                self.faults = self.faults.saturating_add(1);
                self.refusal = Some(error);
                Err(error)
            }
        }
    }
}

/// Which name in the folder at a path was taken, if a file was refused for that: its own, or that
/// under which it is written.
fn taken_name(rt: &HostRuntime, path: &str, name: &str, error: &io::Error) -> Option<String> {
    if error.kind() != ErrorKind::AlreadyExists {
        return None;
    }
    let whole = format!(in rt.alloc(); "{path}/{name}").ok()?;
    let taken = match fs::symlink_metadata(rt, whole.as_str()) {
        Ok(_) => name,
        Err(_) => UNFINISHED,
    };
    String::from_str(rt.alloc(), taken).ok()
}

/// Waits until the names in the folder at a path are on the disk.
fn sync_folder(rt: &HostRuntime, path: &str) -> io::Result<()> {
    fs::open(rt, path)?.sync_all()
}

/// Writes a file into the folder at a path under a name of its own, and gives it its name once its
/// octets are on the disk. A file that has the name stays.
fn put_file(rt: &HostRuntime, path: &str, name: &str, octets: &[u8]) -> io::Result<()> {
    let alloc: Global = rt.alloc();
    let unfinished = format!(in alloc; "{path}/{UNFINISHED}")?;
    let whole = format!(in alloc; "{path}/{name}")?;
    if fs::symlink_metadata(rt, whole.as_str()).is_ok() {
        return Err(io::Error::from(ErrorKind::AlreadyExists));
    }
    let mut file = OpenOptions::new()
        .write(true)
        .create_new(true)
        .mode(OWNER_ALONE)
        .open(rt, unfinished.as_str())?;
    let written = write_whole(&mut file, octets);
    let done = match written {
        Ok(()) => fs::rename(rt, unfinished.as_str(), whole.as_str()),
        Err(error) => Err(error),
    };
    if done.is_err() {
        let _ = fs::remove_file(rt, unfinished.as_str());
    }
    done
}

/// Writes octets to a file, and waits for the disk.
fn write_whole(file: &mut File, octets: &[u8]) -> io::Result<()> {
    file.write_all(octets)?;
    file.sync_all()
}
