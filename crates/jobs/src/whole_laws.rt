//! A store that is opened again after a stop, whatever tables the opening finds.
ghost use Rattle.std.specs.Prelude.{◌≡◌, ◌⊎◌, IfOk, IfErr, IsTrue};
ghost use Rattle.sqlite.specs.Held.{Held, state};
ghost use Rattle.sqlite.specs.State.{HasCleanDisk, IsLive};
ghost use Rattle.vault.specs.declared.fault.VaultFault.TheVariants.{Store, NoMemory};
ghost use Rattle.vault.specs.Changes.{Contents};
ghost use Rattle.sqlvault.specs.Carries.{KeepsOlder};
ghost use Rattle.sqlvault.specs.Stands.{Holds};
ghost use Rattle.jobs.specs.Stopped.{FindsWhole, StopsCarrying};

use sqlite::{Alter, Connection};
use sqlvault::SqlVault;
use std::alloc::Global;
use vault::VaultFault;

/// For the proof: while a connection is open, its database lists its tables.
fn tables_are_listed<S: Alter>(conn: &Connection<S>)
    ensures live { IsLive (state S.Store conn.now) }
{
    let _schema = conn.schema();
}

/// Adopts a connection that was just opened after a stop between two calls of a store, while its
/// connection `stopped` was open, and that found what the stop may leave. The new store holds the
/// contents that the stopped one held; the only errors are `NoMemory` and `Store`.
pub fn adopt_whole<S: Alter, T: Alter>(
    alloc: Global,
    stopped: &Connection<S>,
    conn: Connection<T>,
) -> Result<SqlVault<T>, (VaultFault, Connection<T>)>
    ensures same { IfOk result (λ vault. (c : Contents) → HasCleanDisk (state T.Store vault.conn)
        → FindsWhole (state S.Store stopped.now) (state T.Store conn)
        → IsTrue (state S.Store stopped.now).is_open → Holds (state S.Store stopped.now) c
        → Holds (state T.Store vault.conn) c) }
    ensures refused { IfErr result (λ refused. (c : Contents)
        → HasCleanDisk (state T.Store refused.1)
        → FindsWhole (state S.Store stopped.now) (state T.Store conn)
        → IsTrue (state S.Store stopped.now).is_open → Holds (state S.Store stopped.now) c
        → (refused.0 ≡ Store) ⊎ (refused.0 ≡ NoMemory)) }
{
    tables_are_listed(stopped);
    tables_are_listed(&conn);
    SqlVault::adopt(alloc, conn)
}

/// Adopts a connection that was just opened after a stop of `stopped` while an older store was
/// carried over, and that found what the stop may leave: the older store, or the new one. The new
/// store holds each contents that the older store's rows were.
pub fn carry_again<S: Alter, T: Alter>(
    alloc: Global,
    stopped: &Connection<S>,
    conn: Connection<T>,
) -> Result<SqlVault<T>, (VaultFault, Connection<T>)>
    ensures same { IfOk result (λ vault. (old : Held _) (c : Contents)
        → HasCleanDisk (state T.Store vault.conn)
        → StopsCarrying (state S.Store old) (state S.Store stopped.now)
        → FindsWhole (state S.Store stopped.now) (state T.Store conn)
        → KeepsOlder (state S.Store old) c → Holds (state T.Store vault.conn) c) }
{
    let _stopped = stopped;
    tables_are_listed(&conn);
    SqlVault::<T>::adopt(alloc, conn)
}
