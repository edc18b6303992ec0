//! A store is opened, a job is done over it, and it is closed.
ghost use Rattle.std.specs.Prelude.{IfOk, IfErr};
ghost use Rattle.sqlite_wal.specs.Files.{image_at};
ghost use Rattle.sqlite_wal.specs.Reads.{AreClean};
ghost use Rattle.sqlite.specs.Files.{file_state, image_of};
ghost use Rattle.sqlite.specs.State.{HasCleanDisk};
ghost use Rattle.office.specs.Events.{Trace};
ghost use Rattle.office.specs.Stands.{Keeps};
ghost use Rattle.sqlvault.specs.Adopts.{IsAdoptFault, IsRefusedIn};
ghost use Rattle.jobs.specs.Resting.{Rests, IsUnmade};
ghost use Rattle.sqlvault.specs.Stands.{Holds};
ghost use Rattle.jobs.specs.Jobs.{Leaves};
ghost use Rattle.jobs.specs.Sittings.{unused};

use crate::Job;
use crate::opening::{Careful, open};
use crate::resting::close;
use sqlite::{Error, FileFrom, FileStore, Files};
use sqlite_disk::Disk;
use sqlvault::{Ahead, SqlVault};
use vault::VaultFault;

/// Does a job over a store in two files, which may do removals in parts ([`Ahead`]), and closes it.
/// Gives the answer, and the files: as `Err` if the store couldn't be closed, which loses nothing
/// that was done.
pub fn do_and_close<D: Disk + Drop, J: Job>(
    vault: SqlVault<FileStore<D>>,
    job: J,
) -> (J::Answer, Result<Files<D>, (Error, Files<D>)>)
    ensures left { IfOk result.1 (λ files. J.tells job → AreClean D.Disk files.log files.db
        → (T : Trace) → Keeps (Holds (file_state vault.conn)) T
        → Leaves (λ T U n m. J.does job T U n m result.0) T vault.faults (image_of D.Disk files)) }
    ensures clean { IfOk result.1 (λ files. J.tells job → AreClean D.Disk files.log files.db
        → HasCleanDisk (file_state vault.conn)) }
{
    let (answer, ahead) = job.run(Ahead::new(vault));
    let vault = ahead.into_vault();
    (answer, close(vault))
}

/// Opens the store in the file at a path, does a job over it, and closes it. `start` stands for
/// what the files hold, as in [`SqlVault::open`], and trusts no byte of a torn write. Gives the
/// answer, and the files: as `Err` if the store couldn't be closed, which loses nothing that was
/// done.
///
/// Answers what [`SqlVault::open`] answers if the store isn't opened; the job isn't begun then.
pub fn open_do_close<S: Careful, J: Job + Drop>(
    rt: &HostRuntime,
    path: &str,
    start: S,
    job: J,
) -> Result<
    (
        J::Answer,
        Result<Files<FileFrom<S>>, (Error, Files<FileFrom<S>>)>,
    ),
    VaultFault,
>
    ensures left { IfOk result (λ ended. IfOk ended.1
        (λ files. J.tells job → AreClean ⟦<FileFrom<S> as Disk>⟧ files.log files.db → (T : Trace)
        → Keeps (Rests (image_at S.Start)) T → Leaves (λ T U n m. J.does job T U n m ended.0) T 0
        (image_of ⟦<FileFrom<S> as Disk>⟧ files))) }
    ensures new { IfOk result (λ ended. IfOk ended.1
        (λ files. J.tells job → AreClean ⟦<FileFrom<S> as Disk>⟧ files.log files.db
        → IsUnmade (image_at S.Start) → Leaves (λ T U n m. J.does job T U n m ended.0) unused 0
        (image_of ⟦<FileFrom<S> as Disk>⟧ files))) }
    ensures refused { IfErr result (IsRefusedIn ⟦<FileFrom<S> as Disk>⟧ (image_at S.Start)) }
    ensures kinds { IfErr result IsAdoptFault }
{
    match open(rt, path, start) {
        Ok(vault) => Ok(do_and_close(vault, job)),
        Err(fault) => Err(fault),
    }
}
