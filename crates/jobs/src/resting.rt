//! A store in two files: it is opened, closed, and opened again.
ghost use Rattle.std.specs.Prelude.{◌≡◌, IfOk, IfErr};
ghost use Rattle.sqlite_wal.specs.Reads.{AreClean};
ghost use Rattle.sqlite_wal.specs.Files.{outcomes};
ghost use Rattle.sqlite_wal.specs.Recovery.{Image};
ghost use Rattle.sqlite.specs.Files.{file_state, image_of};
ghost use Rattle.sqlite.specs.State.{HasCleanDisk};
ghost use Rattle.vault.specs.Changes.{Contents};
ghost use Rattle.vault.specs.Plain.{no_contents};
ghost use Rattle.sqlvault.specs.Adopts.{IsAdoptFault};
ghost use Rattle.sqlvault.specs.Refusals.{open_fault};
ghost use Rattle.sqlvault.specs.Stands.{Holds};
ghost use Rattle.jobs.specs.Resting.{Rests, IsUnmade};

use sqlite::{Connection, Error, ErrorCode, FileStore, Files, Options};
use sqlite_disk::Disk;
use sqlvault::SqlVault;
use std::alloc::Global;
use vault::VaultFault;

/// Opens the store in two files, and adopts it as [`SqlVault::adopt`] does. It holds what rests in
/// the files; if the database's file is empty, and its log has no commit, a new store is made,
/// which holds nothing.
///
/// Answers what [`SqlVault::open`] answers, and [`VaultFault::Store`] if a sync of one of the
/// files failed before. The files are dropped then.
pub fn open_files<D: Disk + Drop>(
    alloc: Global,
    files: Files<D>,
    options: Options,
) -> Result<SqlVault<FileStore<D>>, VaultFault>
    ensures held { IfOk result (λ vault. (c : Contents) → HasCleanDisk (file_state vault.conn)
        → Rests (image_of D.Disk files) c → Holds (file_state vault.conn) c) }
    ensures new { IfOk result (λ vault. HasCleanDisk (file_state vault.conn)
        → IsUnmade (image_of D.Disk files) → Holds (file_state vault.conn) no_contents) }
    ensures clean { IfOk result (λ vault. HasCleanDisk (file_state vault.conn)
        → AreClean D.Disk files.log files.db) }
    ensures kinds { IfErr result IsAdoptFault }
    ensures uncounted { IfOk result (λ vault. vault.faults ≡ 0) }
{
    if !files.may_be_used() {
        return Err(VaultFault::Store);
    }
    match Connection::open_files(alloc, files, options) {
        Ok(conn) => SqlVault::adopt_files(alloc, conn),
        Err((error, _left)) => Err(open_fault(&error)),
    }
}

/// Why a store's files aren't opened, as the vault's fault: [`VaultFault::NoMemory`] for want of
/// memory, [`VaultFault::NotOurs`] if they are no database, and else [`VaultFault::Store`].
pub fn open_fault(error: &Error) -> VaultFault
    ensures is { result ≡ open_fault error.now }
    ensures kinds { IsAdoptFault result }
{
    match error {
        Error::SqliteFailure(ErrorCode::OutOfMemory) => VaultFault::NoMemory,
        Error::SqliteFailure(ErrorCode::NotADatabase) => VaultFault::NotOurs,
        _ => VaultFault::Store,
    }
}

/// Closes a store: what it holds then rests in its files, in the database's file alone, and also
/// after a crash. An error gives the files as they are: nothing that was done is lost, but the next
/// opening has the log to read.
pub fn close<D: Disk + Drop>(vault: SqlVault<FileStore<D>>) -> Result<Files<D>, (Error, Files<D>)>
    ensures rests { IfOk result (λ files. (c : Contents) → AreClean D.Disk files.log files.db
        → Holds (file_state vault.conn) c → Rests (image_of D.Disk files) c) }
    ensures left { IfOk result (λ files. (c : Contents) (image : Image)
        → AreClean D.Disk files.log files.db → Holds (file_state vault.conn) c
        → outcomes D.Disk files.log files.db image → Rests image c) }
    ensures clean { IfOk result (λ files. AreClean D.Disk files.log files.db
        → HasCleanDisk (file_state vault.conn)) }
{
    match vault.close_files() {
        Ok(files) => Ok(files),
        Err(refused) => Err(refused),
    }
}

/// Closes a store and opens it again, from the same files. It holds what it held.
///
/// Answers what [`open_files`] answers, and [`VaultFault::Store`] if it can't be closed.
pub fn reopen<D: Disk + Drop>(
    alloc: Global,
    vault: SqlVault<FileStore<D>>,
    options: Options,
) -> Result<SqlVault<FileStore<D>>, VaultFault>
    ensures held { IfOk result (λ again. (c : Contents) → HasCleanDisk (file_state again.conn)
        → Holds (file_state vault.conn) c → Holds (file_state again.conn) c) }
    ensures clean { IfOk result (λ again. HasCleanDisk (file_state again.conn)
        → HasCleanDisk (file_state vault.conn)) }
    ensures kinds { IfErr result IsAdoptFault }
    ensures uncounted { IfOk result (λ again. again.faults ≡ 0) }
{
    match close(vault) {
        Ok(files) => open_files(alloc, files, options),
        Err(_) => Err(VaultFault::Store),
    }
}
