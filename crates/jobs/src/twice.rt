//! A store in two files in memory, over which an office is opened twice.
ghost use Rattle.std.specs.Prelude.{IfOk};
ghost use Rattle.office.specs.Events.{Trace};
ghost use Rattle.office.specs.Seen.{event_seen};
ghost use Rattle.office.specs.Stands.{Keeps, StandsFor};
ghost use Rattle.jobs.specs.Sittings.{holds, unused, opened, sat};

use crate::resting::{close, open_files, reopen};
use crate::sitting::sit_once;
use office::{Event, Limits, Office, OpenFault, Outcome};
use sqlite::{FileStore, Files, Options};
use sqlite_disk::Memory;
use sqlvault::SqlVault;
use std::alloc::Global;
use vault::VaultFault;

/// Why an office was not opened twice.
#[derive(Clone, Copy, Debug, PartialEq, Eq)]
pub enum TwiceFault {
    /// The store can't be opened, closed, or opened again.
    Store(VaultFault),
    /// An office can't be opened over it.
    Office(OpenFault),
}

/// Makes a store in two empty files, opens an office over it, does one event, closes the store,
/// opens it again from its files, and opens an office over it, with the number `again`. Gives the
/// outcome, and the second office, which stands for all that was done.
pub fn open_twice(
    alloc: Global,
    host: &str,
    boot: u64,
    again: u64,
    limits: Limits,
    event: Event<'_>,
) -> Result<(Outcome, Office<SqlVault<FileStore<Memory>>>), TwiceFault>
    ensures stands { IfOk result (λ it. StandsFor holds it.1
        (opened (sat unused host.now boot limits (event_seen event.entry) it.0) host.now again
        limits)) }
{
    let made = make(alloc)?;
    let sitting = sit(alloc, made, host, boot, limits, event)?;
    let (outcome, left) = sitting;
    let found = find_again(alloc, left)?;
    let office = seat(alloc, found, host, again, limits)?;
    Ok((outcome, office))
}

/// A new store in two empty files.
fn make(alloc: Global) -> Result<SqlVault<FileStore<Memory>>, TwiceFault>
    ensures kept { IfOk result (λ vault. Keeps (holds vault) unused) }
{
    let files = Files {
        log: Memory::new(alloc),
        db: Memory::new(alloc),
    };
    match open_files(alloc, files, Options::new(1)) {
        Ok(vault) => Ok(vault),
        Err(fault) => Err(TwiceFault::Store(fault)),
    }
}

/// Closes a store over which no office was opened, and gives the fault. The store is not dropped
/// here: that would prove again how each part of a connection is dropped.
fn refused(fault: OpenFault, vault: SqlVault<FileStore<Memory>>) -> TwiceFault {
    let _ = close(vault);
    TwiceFault::Office(fault)
}

/// Opens an office over the store for one event.
fn sit(
    alloc: Global,
    vault: SqlVault<FileStore<Memory>>,
    host: &str,
    boot: u64,
    limits: Limits,
    event: Event<'_>,
) -> Result<(Outcome, SqlVault<FileStore<Memory>>), TwiceFault>
    ensures kept { IfOk result (λ it. (T : Trace) → Keeps (holds vault) T
        → Keeps (holds it.1) (sat T host.now boot limits (event_seen event.entry) it.0)) }
{
    match sit_once(alloc, vault, host, boot, limits, event) {
        Ok(sat) => Ok(sat),
        Err((fault, vault)) => Err(refused(fault, vault)),
    }
}

/// Closes the store, and opens it again from its files.
fn find_again(
    alloc: Global,
    vault: SqlVault<FileStore<Memory>>,
) -> Result<SqlVault<FileStore<Memory>>, TwiceFault>
    ensures kept { IfOk result (λ again. (T : Trace) → Keeps (holds vault) T
        → Keeps (holds again) T) }
{
    match reopen(alloc, vault, Options::new(2)) {
        Ok(again) => Ok(again),
        Err(fault) => Err(TwiceFault::Store(fault)),
    }
}

/// Opens an office over the store.
fn seat(
    alloc: Global,
    vault: SqlVault<FileStore<Memory>>,
    host: &str,
    boot: u64,
    limits: Limits,
) -> Result<Office<SqlVault<FileStore<Memory>>>, TwiceFault>
    ensures stands { IfOk result (λ office. (T : Trace) → Keeps (holds vault) T
        → StandsFor holds office (opened T host.now boot limits)) }
{
    match Office::open(alloc, vault, host, boot, limits) {
        Ok(office) => Ok(office),
        Err((fault, vault)) => Err(refused(fault, vault)),
    }
}
