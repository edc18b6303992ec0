//! The store in the file at a path is opened.
ghost use Rattle.std.specs.Prelude.{◌≡◌, IfOk, IfErr};
ghost use Rattle.sqlite_wal.specs.Files.{image_at};
ghost use Rattle.sqlite.specs.Files.{file_state};
ghost use Rattle.sqlite.specs.State.{HasCleanDisk};
ghost use Rattle.vault.specs.Changes.{Contents};
ghost use Rattle.vault.specs.Plain.{no_contents};
ghost use Rattle.sqlvault.specs.Adopts.{IsAdoptFault, OpensIn};
ghost use Rattle.sqlvault.specs.Stands.{Holds};
ghost use Rattle.jobs.specs.Resting.{Rests, IsUnmade};

use sqlite::{FileFrom, FileStore, Start, Wary};
use sqlvault::SqlVault;
use vault::VaultFault;

/// A start that trusts no byte of a torn write, so that each commit waits for the disk twice.
pub trait Careful: Start {
    ghost use Rattle.std.specs.Prelude.{◌≡◌, false};

    /// After a crash any byte of what wasn't synced may be another one.
    ghost doubts: { Self.is_mixing ≡ false };
}

impl Careful for Wary {
    ghost use Rattle.std.proofs.Common.{refl};

    ghost doubts = { refl };
}

/// Opens the store in the file at a path, as [`SqlVault::open`] does, by a careful start. It holds
/// what rests in the file and its log; if there is neither, or the file is empty and its log has
/// no commit, a new store is made, which holds nothing.
pub fn open<S: Careful>(
    rt: &HostRuntime,
    path: &str,
    start: S,
) -> Result<SqlVault<FileStore<FileFrom<S>>>, VaultFault>
    ensures held { IfOk result (λ vault. (c : Contents) → HasCleanDisk (file_state vault.conn)
        → Rests (image_at S.Start) c → Holds (file_state vault.conn) c) }
    ensures new { IfOk result (λ vault. HasCleanDisk (file_state vault.conn)
        → IsUnmade (image_at S.Start) → Holds (file_state vault.conn) no_contents) }
    ensures opened { OpensIn (image_at S.Start) result }
    ensures kinds { IfErr result IsAdoptFault }
    ensures uncounted { IfOk result (λ vault. vault.faults ≡ 0) }
{
    SqlVault::open(rt, path, start)
}
