//! A store that is opened again after a stop.
ghost use Rattle.std.specs.Prelude.{◌≡◌, ◌⊎◌, IfOk, IfErr, IsTrue};
ghost use Rattle.sqlite.specs.Held.{state};
ghost use Rattle.sqlite.specs.State.{HasCleanDisk};
ghost use Rattle.vault.specs.declared.fault.VaultFault.TheVariants.{Store, NoMemory};
ghost use Rattle.vault.specs.Changes.{Contents};
ghost use Rattle.sqlvault.specs.Again.{FindsLeft, HoldsLeft, RulesOut};
ghost use Rattle.sqlvault.specs.Stands.{Holds};

use crate::SqlVault;
use sqlite::{Alter, Connection};
use std::alloc::Global;
use vault::VaultFault;

/// Adopts a connection that was just opened after a stop of `stopped`, and that found our tables
/// with rows that the stop may leave. The new store holds contents that the stop may leave: if
/// `stopped` was between two calls, with its connection open, just those that it held. In that
/// case, and if at least one state is impossible after the stop, the only errors are `NoMemory` and
/// `Store`.
pub fn adopt_again<S: Alter, T: Alter>(
    alloc: Global,
    stopped: &SqlVault<S>,
    conn: Connection<T>,
) -> Result<SqlVault<T>, (VaultFault, Connection<T>)>
    ensures left { IfOk result (λ vault. HasCleanDisk (state T.Store vault.conn)
        → FindsLeft (state S.Store stopped.now.conn) (state T.Store conn)
        → HoldsLeft (state S.Store stopped.now.conn) (state T.Store vault.conn)) }
    ensures same { IfOk result (λ vault. (c : Contents) → HasCleanDisk (state T.Store vault.conn)
        → FindsLeft (state S.Store stopped.now.conn) (state T.Store conn)
        → IsTrue (state S.Store stopped.now.conn).is_open → Holds (state S.Store stopped.now.conn) c
        → Holds (state T.Store vault.conn) c) }
    ensures refused { IfErr result (λ refused. HasCleanDisk (state T.Store refused.1)
        → FindsLeft (state S.Store stopped.now.conn) (state T.Store conn)
        → RulesOut (state S.Store stopped.now.conn) → (refused.0 ≡ Store)
        ⊎ (refused.0 ≡ NoMemory)) }
    ensures refused_between { IfErr result (λ refused. (c : Contents)
        → HasCleanDisk (state T.Store refused.1)
        → FindsLeft (state S.Store stopped.now.conn) (state T.Store conn)
        → IsTrue (state S.Store stopped.now.conn).is_open → Holds (state S.Store stopped.now.conn) c
        → (refused.0 ≡ Store) ⊎ (refused.0 ≡ NoMemory)) }
{
    let _stopped = stopped;
    SqlVault::adopt(alloc, conn)
}
