//! The stores that measures run over.

use crate::fault::Fault;
use crate::{sessions, since, store};
use sqlite::{Alter, Connection, FileStore, Wary};
use sqlite_disk::Disk;
use sqlvault::SqlVault;
use std::rt::Clock;
use std::time::Instant;
use vault::PlainVault;

/// What is measured over a store.
#[derive(Clone, Copy)]
pub enum Job {
    /// In an office: ten maildrops are filled.
    Filling,
    /// In an office: nothing.
    Standing,
    /// In an office: all messages of a maildrop are marked, and QUIT removes them.
    Removal,
    /// In an office: a clerk logs in, under a short policy and under a long one.
    Logins,
    /// In an office: a clerk logs in, under a long policy whose other rules are about groups.
    Grouped,
    /// The sheets of a text are written and read.
    Sheets,
    /// A row or two is written in each table.
    Sample,
}

/// Runs a measure of an office or of the tables over a store in tables. Gives its connection back.
fn run_over<S: Alter + Drop>(
    rt: &(impl Print + AllocGlobal + Clock),
    vault: SqlVault<S>,
    job: Job,
    count: u32,
) -> (Result<(), Fault>, Connection<S>) {
    match job {
        Job::Sheets | Job::Sample => {
            let mut conn = vault.into_connection();
            let ran = store::measure(rt, &mut conn, job, count);
            (ran, conn)
        }
        _ => {
            let (ran, vault) = sessions::measure(rt, vault, job, count);
            (ran, vault.into_connection())
        }
    }
}

fn tell_opening(rt: &(impl Print + Clock), start: Instant) -> Result<(), Fault> {
    let opening = since(rt, start)?;
    println!(rt; "file: opened in {opening} us")?;
    Ok(())
}

/// Prints how long the store's opening took, since `start`, and runs a measure over it. Gives its
/// connection back.
fn run_opened<S: Alter + Drop>(
    rt: &(impl Print + AllocGlobal + Clock),
    start: Instant,
    vault: SqlVault<S>,
    job: Job,
    count: u32,
) -> (Result<(), Fault>, Connection<S>) {
    match tell_opening(rt, start) {
        Ok(()) => run_over(rt, vault, job, count),
        Err(fault) => (Err(fault), vault.into_connection()),
    }
}

/// Does the same over a store in a file, and closes it.
fn run_and_close<D: Disk + Drop>(
    rt: &(impl Print + AllocGlobal + Clock),
    start: Instant,
    vault: SqlVault<FileStore<D>>,
    job: Job,
    count: u32,
) -> Result<(), Fault> {
    let (ran, conn) = run_opened(rt, start, vault, job, count);
    let closed = conn.close();
    ran?;
    closed?;
    Ok(())
}

/// Opens the store in a file, runs a measure over it, and times the opening too. `Wary`: a torn
/// write may leave any octets where it wrote.
fn run_in_file(rt: &HostRuntime, path: &str, job: Job, count: u32) -> Result<(), Fault> {
    let start = Instant::now(rt)?;
    match SqlVault::open(rt, path, Wary) {
        Ok(vault) => run_and_close(rt, start, vault, job, count),
        Err(fault) => Err(Fault::Store(fault)),
    }
}

/// Runs a measure in an office over the store that the command line names.
pub fn measure(
    rt: &HostRuntime,
    job: Job,
    count: u32,
    over: &str,
    path: &str,
) -> Result<(), Fault> {
    match over {
        "" | "plain" => sessions::measure(rt, PlainVault::new(rt.alloc()), job, count).0,
        "tables" => run_over(rt, SqlVault::in_memory(rt.alloc())?, job, count).0,
        "file" => run_in_file(rt, path, job, count),
        _ => Err(Fault::NoStore),
    }
}

/// Runs a measure over the tables of a store in a file, or in memory if the path is empty.
pub fn measure_tables(rt: &HostRuntime, job: Job, count: u32, path: &str) -> Result<(), Fault> {
    if path == "" {
        return run_over(rt, SqlVault::in_memory(rt.alloc())?, job, count).0;
    }
    run_in_file(rt, path, job, count)
}

/// Fills a file with `count` messages, and opens it again.
pub fn measure_opening(rt: &HostRuntime, path: &str, count: u32) -> Result<(), Fault> {
    run_in_file(rt, path, Job::Filling, count)?;
    run_in_file(rt, path, Job::Standing, count)
}

/// Opens a database file as the toolchain's SQLite does, with nothing of ours over it, prints how
/// long that took, and closes the file.
pub fn measure_floor(rt: &HostRuntime, path: &str) -> Result<(), Fault> {
    let start = Instant::now(rt)?;
    match Connection::open_from(rt, path, false, Wary) {
        Ok(conn) => {
            let told = tell_opening(rt, start);
            let closed = conn.close();
            told?;
            closed?;
            Ok(())
        }
        Err((error, _)) => Err(Fault::from(error)),
    }
}
