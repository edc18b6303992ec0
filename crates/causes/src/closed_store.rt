//! Why a store can't be opened: its file is looked at again.

use mailsql::schema::{OurTable, Taken, has_meta_rows, lacked_table, taken_name};
use sqlite::{Alter, Connection, Wary};
use sqlite_std_file::OpenError;
use sqlvault::{NEWEST, OLDEST, Part, StoreVersion, find_version, let_go, unsound_part};
use std::alloc::Global;
use std::io::{ErrorKind, Write};
use std::{fs, io};
use vault::VaultFault;

/// How many megabytes an opening takes beside the largest table, at most.
const BESIDE: u64 = 16;

/// Prints why the store at a path was refused with a fault.
pub fn tell_closed_store<E: Write>(
    rt: &HostRuntime,
    err: &mut E,
    path: &str,
    fault: VaultFault,
) -> io::Result<()> {
    if path == ":memory:" || path.starts_with("file:") {
        return writeln!(
            err,
            "why: {path}: this is no file's path, but a form of SQLite's own"
        );
    }
    if fault == VaultFault::NoMemory {
        return tell_size(rt, err, path);
    }
    if let Err(error) = sqlite_std_file::open(rt, path, Wary) {
        return tell_unopened(err, path, error);
    }
    match Connection::open_from(rt, path, false, Wary) {
        Ok(mut conn) => {
            let told = tell_tables(rt.alloc(), err, path, &mut conn, fault);
            let_go(conn);
            told
        }
        Err((error, _)) => writeln!(err, "why: {path}: {error}"),
    }
}

/// Prints why the files of a store can't be opened.
fn tell_unopened<E: Write>(err: &mut E, path: &str, error: OpenError) -> io::Result<()> {
    match error {
        OpenError::Busy => {
            writeln!(
                err,
                "why: {path}: another process has it open, popbox or sqlite3"
            )
        }
        OpenError::Io(error) if error.kind() == ErrorKind::Unsupported => {
            writeln!(err, "why: {path}: it is no file, or a file of two names")
        }
        error => writeln!(err, "why: {path}: {error}"),
    }
}

/// Prints how large a store is that memory was wanting to open. Its opening takes as much memory as
/// its largest table, which is less than both files have.
fn tell_size<E: Write>(rt: &HostRuntime, err: &mut E, path: &str) -> io::Result<()> {
    let log = format!(in rt.alloc(); "{path}-wal")?;
    let (file, log) = (octets_of(rt, path), octets_of(rt, log.as_str()));
    let megabytes = file.saturating_add(log) / 1_000_000 + BESIDE;
    writeln!(
        err,
        "why: {path}: it has {file} octets, and its log {log}: opening it takes up to {megabytes} MB of memory"
    )
}

/// How many octets the file at a path has; 0 if there is none.
fn octets_of(rt: &HostRuntime, path: &str) -> u64 {
    match fs::metadata(rt, path) {
        Ok(metadata) => metadata.len(),
        Err(_) => 0,
    }
}

/// Prints why the store at a path, which can be opened, was refused with a fault.
pub fn tell_tables<S: Alter, E: Write>(
    alloc: Global,
    err: &mut E,
    path: &str,
    conn: &mut Connection<S>,
    fault: VaultFault,
) -> io::Result<()> {
    write!(err, "why: {path}: ")?;
    match fault {
        VaultFault::OldVersion | VaultFault::NotOurs => {
            if has_meta_rows(conn) {
                tell_meta_rows(alloc, err, conn, fault)
            } else {
                tell_taken(err, taken_name(conn))
            }
        }
        _ => writeln!(
            err,
            "it can be opened, but its disk refused a part, or is full"
        ),
    }
}

/// Prints what has the name of a table of ours, in a database without our version row.
fn tell_taken<E: Write>(err: &mut E, taken: Option<Taken>) -> io::Result<()> {
    let (kind, table) = match taken {
        Some(Taken::Table(table)) => ("table", table),
        Some(Taken::Index(table)) => ("index", table),
        Some(Taken::View(table)) => ("view or table", table),
        None => return writeln!(err, "it isn't popbox's"),
    };
    let name = name_of(table);
    writeln!(
        err,
        "its {kind} `{name}` isn't popbox's, and popbox needs the name"
    )
}

/// Prints why a database with our table `meta` is no store.
fn tell_meta_rows<S: Alter, E: Write>(
    alloc: Global,
    err: &mut E,
    conn: &mut Connection<S>,
    fault: VaultFault,
) -> io::Result<()> {
    match find_version(alloc, conn) {
        Ok(StoreVersion::Missing) => writeln!(err, "its table `meta` has no row `popbox`"),
        Ok(StoreVersion::Unknown(found)) => tell_unknown(err, found),
        Ok(StoreVersion::Beside(found) | StoreVersion::Alone(found))
            if fault == VaultFault::OldVersion => {
            writeln!(
                err,
                "a store of version {found} by `meta`, with the tables of version {NEWEST}"
            )
        }
        Ok(StoreVersion::Beside(_)) => {
            writeln!(err, "its table `meta` has a row that isn't popbox's")
        }
        Ok(StoreVersion::Alone(found)) => tell_contents(alloc, err, conn, found),
        Err(error) => writeln!(err, "{error}"),
    }
}

/// Prints that a version is unknown here.
fn tell_unknown<E: Write>(err: &mut E, found: i64) -> io::Result<()> {
    if found > NEWEST {
        writeln!(
            err,
            "a store of version {found}, newer than {NEWEST}, which this popbox makes"
        )
    } else {
        writeln!(
            err,
            "a store of version {found}, older than {OLDEST}, which this popbox carries over"
        )
    }
}

/// Prints which of the tables or the rows of a store of this version isn't ours.
fn tell_contents<S: Alter, E: Write>(
    alloc: Global,
    err: &mut E,
    conn: &mut Connection<S>,
    version: i64,
) -> io::Result<()> {
    match lacked_table(conn, version) {
        Some(table) => tell_lacked(err, table),
        None if version != NEWEST => {
            writeln!(
                err,
                "its tables are of version {version}, but a row is no sound record"
            )
        }
        None => tell_rows(alloc, err, conn),
    }
}

/// The name of a table.
fn name_of(table: OurTable) -> &'static str {
    match table {
        OurTable::Meta => "meta",
        OurTable::Clerks => "clerks",
        OurTable::Maildrops => "maildrops",
        OurTable::Counts => "counts",
        OurTable::Deposits => "deposits",
        OurTable::Rules => "rules",
        OurTable::Messages => "messages",
        OurTable::Mail => "mail",
        OurTable::Sheets => "sheets",
        OurTable::Groups => "groups",
        OurTable::Members => "members",
    }
}

/// Reports a table that a store of its version has, and that is missing, or has other columns or
/// keys.
fn tell_lacked<E: Write>(err: &mut E, table: OurTable) -> io::Result<()> {
    let name = name_of(table);
    writeln!(
        err,
        "its table `{name}` is missing, or has other columns or keys than popbox's"
    )
}

/// Prints which part of the rows of our tables isn't sound.
fn tell_rows<S: Alter, E: Write>(
    alloc: Global,
    err: &mut E,
    conn: &mut Connection<S>,
) -> io::Result<()> {
    match unsound_part(alloc, conn) {
        Ok(Some(part)) => tell_part(err, part),
        Ok(None) => writeln!(err, "its tables and rows are popbox's at a second look"),
        Err(error) => writeln!(err, "{error}"),
    }
}

/// Reports a part of the rows that isn't sound, by its tables.
fn tell_part<E: Write>(err: &mut E, part: Part) -> io::Result<()> {
    match part {
        Part::Clerks => tell_unsound(err, "table `clerks`"),
        Part::Maildrops => tell_unsound(err, "table `maildrops`"),
        Part::Groups => tell_unsound(err, "tables `groups` or `members`"),
        Part::Rules => tell_joined(err, "tables `rules`, `groups` or `members`"),
        Part::Deposits => tell_joined(err, "tables `deposits` or `counts`"),
        Part::Messages => tell_joined(err, "tables `mail` or `sheets`"),
    }
}

/// Reports tables with a row that is no sound record.
fn tell_unsound<E: Write>(err: &mut E, tables: &str) -> io::Result<()> {
    writeln!(err, "a row of its {tables} is no sound record")
}

/// Reports tables with a row that is no sound record by itself, or with those of the others.
fn tell_joined<E: Write>(err: &mut E, tables: &str) -> io::Result<()> {
    writeln!(
        err,
        "a row of its {tables} is no sound record, or they don't fit together"
    )
}
