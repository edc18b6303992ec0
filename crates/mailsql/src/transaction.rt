//! Beginning and ending a transaction.

ghost use Rattle.std.specs.Prelude.{◌≡◌, true, false, IfErr, OnOk, OnErr, IsTrue, []};
ghost use Rattle.sqlite.specs.Held.{state};
ghost use Rattle.sqlite.specs.State.{HasCleanDisk, Shows, IsRolledBack, Survives};
ghost use Rattle.mailsql.specs.Rows.{IsUndone};
ghost use Rattle.mailsql.specs.Errors.{FailsToRun};
ghost use Rattle.mailsql.specs.Statements.{begin_text, commit_text, rollback_text};

use crate::run::run;
use sqlite::{Alter, Connection, Error};

/// Begins a transaction. Refused if one is under way.
pub fn begin<S: Alter>(conn: &mut Connection<S>) -> Result<(), Error>
    ensures ok { HasCleanDisk (state S.Store conn.new)
        → OnOk result (((state S.Store conn.old).in_transaction ≡ false)
        × Shows (state S.Store conn.old) (state S.Store conn.new) (state S.Store conn.old).now
        (state S.Store conn.old).committed true) }
    ensures err { HasCleanDisk (state S.Store conn.new)
        → OnErr result (IsUndone (state S.Store conn.old) (state S.Store conn.new)) }
    ensures cause { HasCleanDisk (state S.Store conn.new)
        → IfErr result (FailsToRun begin_text [] (state S.Store conn.old)
        (state S.Store conn.new)) }
    ensures survives { Survives (state S.Store conn.old) (state S.Store conn.new) (λ _. ⊥) }
{
    run(conn, "BEGIN", &[])
}

/// Commits the transaction. Refused if none is under way. After an error the transaction is
/// still under way, or was rolled back.
pub fn commit<S: Alter>(conn: &mut Connection<S>) -> Result<(), Error>
    ensures ok { HasCleanDisk (state S.Store conn.new)
        → OnOk result (IsTrue (state S.Store conn.old).in_transaction
        × Shows (state S.Store conn.old) (state S.Store conn.new) (state S.Store conn.old).now
        (state S.Store conn.old).now false) }
    ensures err { HasCleanDisk (state S.Store conn.new)
        → OnErr result (IsUndone (state S.Store conn.old) (state S.Store conn.new)) }
    ensures cause { HasCleanDisk (state S.Store conn.new)
        → IfErr result (FailsToRun commit_text [] (state S.Store conn.old)
        (state S.Store conn.new)) }
    ensures survives { Survives (state S.Store conn.old) (state S.Store conn.new)
        (λ db. db ≡ (state S.Store conn.old).now.trees) }
{
    run(conn, "COMMIT", &[])
}

/// Rolls the transaction back. Refused if none is under way. Whatever it answers, nothing of
/// the transaction is left.
pub fn rollback<S: Alter>(conn: &mut Connection<S>) -> Result<(), Error>
    ensures ok { HasCleanDisk (state S.Store conn.new)
        → OnOk result (IsTrue (state S.Store conn.old).in_transaction) }
    ensures undone { HasCleanDisk (state S.Store conn.new)
        → IsTrue (state S.Store conn.old).in_transaction
        → IsRolledBack (state S.Store conn.old) (state S.Store conn.new) }
    ensures cause { HasCleanDisk (state S.Store conn.new)
        → IfErr result (FailsToRun rollback_text [] (state S.Store conn.old)
        (state S.Store conn.new)) }
    ensures survives { Survives (state S.Store conn.old) (state S.Store conn.new) (λ _. ⊥) }
{
    run(conn, "ROLLBACK", &[])
}
