//! The table `messages` of version 1, which holds each message's octets in one column. A store that
//! was carried over from version 1 still has the table, emptied.

ghost use Rattle.std.specs.Prelude.{◌≡◌, IsTrue, map, IfOk, IfErr, OnOk, OnErr, [], ◌∷◌};
ghost use Rattle.std.specs.List.{find};
ghost use Rattle.sqlite.specs.Held.{state};
ghost use Rattle.sqlite.specs.State.{HasCleanDisk, IsUnchanged, Survives};
ghost use Rattle.mailsql.specs.Changes as changes;
ghost use Rattle.mailsql.specs.Rows as rows;
ghost use Rattle.mailsql.specs.Rows.{IsOurs, IsReady, HasTables, MayLeave, Changes, IsUndone};
ghost use Rattle.mailsql.specs.Rows.{is_carried, rows_in};
ghost use Rattle.sqlite_value.specs.declared.value.Value.TheVariants.{Int};
ghost use Rattle.mailsql.specs.Errors.{FailsToRun, FailsToRead};
ghost use Rattle.mailsql.specs.Statements.{old_messages_text, find_body_text, clear_bodies_text};

use crate::rows::{Body, Message};
use crate::run::{first, list, run};
use sqlite::{Alter, Connection, Error};
use sqlite_value::value::ValueRef;
use std::alloc::Global;

/// Every message of version 1, without its octets, in order of arrival.
pub fn old_messages<S: Alter>(
    alloc: Global,
    conn: &mut Connection<S>,
) -> Result<Vec<Message>, Error>
    ensures ok { HasCleanDisk (state S.Store conn.new) → HasTables (state S.Store conn.old)
        → IsTrue (is_carried (state S.Store conn.old).now.trees)
        → IfOk result (λ all. all.items ≡ map (λ b. b.head)
        (rows_in (state S.Store conn.old).now.trees).bodies) }
    ensures same { HasCleanDisk (state S.Store conn.new) → HasTables (state S.Store conn.old)
        → IsTrue (is_carried (state S.Store conn.old).now.trees)
        → OnOk result (IsUnchanged (state S.Store conn.old) (state S.Store conn.new)) }
    ensures err { HasCleanDisk (state S.Store conn.new) → HasTables (state S.Store conn.old)
        → IsTrue (is_carried (state S.Store conn.old).now.trees)
        → OnErr result (IsUndone (state S.Store conn.old) (state S.Store conn.new)) }
    ensures cause { HasCleanDisk (state S.Store conn.new) → HasTables (state S.Store conn.old)
        → IsTrue (is_carried (state S.Store conn.old).now.trees)
        → IfErr result (FailsToRead old_messages_text [] (state S.Store conn.old)
        (state S.Store conn.new)) }
    ensures survives { Survives (state S.Store conn.old) (state S.Store conn.new)
        (λ _. IsTrue (is_carried (state S.Store conn.old).now.trees)
        → ¬ IsOurs (state S.Store conn.old).now) }
{
    list(
        alloc,
        conn,
        "SELECT key, maildrop, class, k, octets FROM messages ORDER BY key",
        &[],
    )
}

/// The message of version 1 under this key, with its octets, if there is one.
pub fn find_body<S: Alter>(
    alloc: Global,
    conn: &mut Connection<S>,
    key: i64,
) -> Result<Option<Body>, Error>
    ensures ok { HasCleanDisk (state S.Store conn.new) → HasTables (state S.Store conn.old)
        → IsTrue (is_carried (state S.Store conn.old).now.trees)
        → IfOk result (λ found. found ≡ find (rows.is_body key)
        (rows_in (state S.Store conn.old).now.trees).bodies) }
    ensures same { HasCleanDisk (state S.Store conn.new) → HasTables (state S.Store conn.old)
        → IsTrue (is_carried (state S.Store conn.old).now.trees)
        → OnOk result (IsUnchanged (state S.Store conn.old) (state S.Store conn.new)) }
    ensures err { HasCleanDisk (state S.Store conn.new) → HasTables (state S.Store conn.old)
        → IsTrue (is_carried (state S.Store conn.old).now.trees)
        → OnErr result (IsUndone (state S.Store conn.old) (state S.Store conn.new)) }
    ensures cause { HasCleanDisk (state S.Store conn.new) → HasTables (state S.Store conn.old)
        → IsTrue (is_carried (state S.Store conn.old).now.trees)
        → IfErr result (FailsToRead find_body_text (Int key ∷ []) (state S.Store conn.old)
        (state S.Store conn.new)) }
    ensures survives { Survives (state S.Store conn.old) (state S.Store conn.new)
        (λ _. IsTrue (is_carried (state S.Store conn.old).now.trees)
        → ¬ IsOurs (state S.Store conn.old).now) }
{
    first(
        alloc,
        conn,
        "SELECT key, maildrop, class, k, octets, body FROM messages WHERE key = ?1 ORDER BY key",
        &[ValueRef::Int(key)],
    )
}

/// Removes every message of version 1.
pub fn clear_bodies<S: Alter>(conn: &mut Connection<S>) -> Result<(), Error>
    ensures ok { HasCleanDisk (state S.Store conn.new) → IsReady (state S.Store conn.old)
        → IsTrue (is_carried (state S.Store conn.old).now.trees)
        → OnOk result (Changes changes.ClearsBodies (state S.Store conn.old)
        (state S.Store conn.new)) }
    ensures err { HasCleanDisk (state S.Store conn.new)
        → OnErr result (IsUndone (state S.Store conn.old) (state S.Store conn.new)) }
    ensures cause { HasCleanDisk (state S.Store conn.new)
        → IfErr result (FailsToRun clear_bodies_text [] (state S.Store conn.old)
        (state S.Store conn.new)) }
    ensures survives { Survives (state S.Store conn.old) (state S.Store conn.new)
        (λ db. IsTrue (is_carried (state S.Store conn.old).now.trees)
        → MayLeave changes.ClearsBodies (state S.Store conn.old) db) }
{
    run(conn, "DELETE FROM messages", &[])
}
