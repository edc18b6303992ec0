//! The names of the maildrops.

ghost use Rattle.std.specs.Prelude.{◌≡◌, min, length, IfOk, IfErr, OnOk, OnErr, [], ◌∷◌};
ghost use Rattle.sqlite.specs.Held.{state};
ghost use Rattle.sqlite.specs.State.{HasCleanDisk, IsUnchanged, FailsToQuery, Survives};
ghost use Rattle.mailsql.specs.Changes as changes;
ghost use Rattle.mailsql.specs.Rows as rows;
ghost use Rattle.mailsql.specs.Rows.{IsOurs, IsReady, HasTables, MayLeave, Changes, IsUndone};
ghost use Rattle.mailsql.specs.Rows.{rows_in};
ghost use Rattle.sqlite_value.specs.declared.value.Value.TheVariants.{Text};
ghost use Rattle.mailsql.specs.Errors.{FailsToRun, FailsToRead, FailsToCount};
ghost use Rattle.mailsql.specs.Statements.{add_maildrop_text, drop_maildrop_text};
ghost use Rattle.mailsql.specs.Statements.{all_maildrops_text, maildrop_count_text};
ghost use Rattle.mailsql.specs.Statements.{find_maildrop_text};

use crate::run::{count, list, run};
use sqlite::{Alter, Connection, Error};
use sqlite_value::value::{Bytes, ValueRef};
use std::alloc::Global;

/// Adds a maildrop's name. The table refuses one that is there.
pub fn add_maildrop<S: Alter>(conn: &mut Connection<S>, name: &[u8]) -> Result<(), Error>
    ensures ok { HasCleanDisk (state S.Store conn.new) → IsReady (state S.Store conn.old)
        → OnOk result (Changes (changes.AddsMaildrop name.now) (state S.Store conn.old)
        (state S.Store conn.new)) }
    ensures err { HasCleanDisk (state S.Store conn.new)
        → OnErr result (IsUndone (state S.Store conn.old) (state S.Store conn.new)) }
    ensures cause { HasCleanDisk (state S.Store conn.new)
        → IfErr result (FailsToRun add_maildrop_text (Text name.now ∷ []) (state S.Store conn.old)
        (state S.Store conn.new)) }
    ensures survives { Survives (state S.Store conn.old) (state S.Store conn.new)
        (MayLeave (changes.AddsMaildrop name.now) (state S.Store conn.old)) }
{
    run(
        conn,
        "INSERT INTO maildrops (name) VALUES (?1)",
        &[ValueRef::Text(name)],
    )
}

/// Removes the name, if it is there. Refused while a message lies in the maildrop.
pub fn drop_maildrop<S: Alter>(conn: &mut Connection<S>, name: &[u8]) -> Result<(), Error>
    ensures ok { HasCleanDisk (state S.Store conn.new) → IsReady (state S.Store conn.old)
        → OnOk result (Changes (changes.DropsMaildrop name.now) (state S.Store conn.old)
        (state S.Store conn.new)) }
    ensures err { HasCleanDisk (state S.Store conn.new)
        → OnErr result (IsUndone (state S.Store conn.old) (state S.Store conn.new)) }
    ensures cause { HasCleanDisk (state S.Store conn.new)
        → IfErr result (FailsToRun drop_maildrop_text (Text name.now ∷ []) (state S.Store conn.old)
        (state S.Store conn.new)) }
    ensures survives { Survives (state S.Store conn.old) (state S.Store conn.new)
        (MayLeave (changes.DropsMaildrop name.now) (state S.Store conn.old)) }
{
    run(
        conn,
        "DELETE FROM maildrops WHERE name = ?1",
        &[ValueRef::Text(name)],
    )
}

/// Whether the name is there.
pub fn has_maildrop<S: Alter>(conn: &mut Connection<S>, name: &[u8]) -> Result<bool, Error>
    ensures ok { HasCleanDisk (state S.Store conn.new) → HasTables (state S.Store conn.old)
        → IfOk result (λ there. there ≡ rows.has_name name.now
        (rows_in (state S.Store conn.old).now.trees).maildrops) }
    ensures same { HasCleanDisk (state S.Store conn.new) → HasTables (state S.Store conn.old)
        → OnOk result (IsUnchanged (state S.Store conn.old) (state S.Store conn.new)) }
    ensures err { HasCleanDisk (state S.Store conn.new)
        → OnErr result (IsUndone (state S.Store conn.old) (state S.Store conn.new)) }
    ensures cause { HasCleanDisk (state S.Store conn.new)
        → IfErr result (FailsToQuery find_maildrop_text (Text name.now ∷ [])
        (state S.Store conn.old) (state S.Store conn.new)) }
    ensures survives { Survives (state S.Store conn.old) (state S.Store conn.new)
        (λ _. ¬ IsOurs (state S.Store conn.old).now) }
{
    // For the proof: while a connection is open, its database lists its tables.
    let _schema = conn.schema();
    match conn.query_all(
        "SELECT name FROM maildrops WHERE name = ?1",
        &[ValueRef::Text(name)],
    ) {
        Ok(rows) => Ok(!rows.is_empty()),
        Err(error) => Err(error),
    }
}

/// How many names there are.
pub fn maildrop_count<S: Alter>(conn: &mut Connection<S>) -> Result<u64, Error>
    ensures ok { HasCleanDisk (state S.Store conn.new) → HasTables (state S.Store conn.old)
        → IfOk result (λ count. count ≡ min (length
        (rows_in (state S.Store conn.old).now.trees).maildrops) 9223372036854775807) }
    ensures same { HasCleanDisk (state S.Store conn.new) → HasTables (state S.Store conn.old)
        → OnOk result (IsUnchanged (state S.Store conn.old) (state S.Store conn.new)) }
    ensures err { HasCleanDisk (state S.Store conn.new) → HasTables (state S.Store conn.old)
        → OnErr result (IsUndone (state S.Store conn.old) (state S.Store conn.new)) }
    ensures cause { HasCleanDisk (state S.Store conn.new) → HasTables (state S.Store conn.old)
        → IfErr result (FailsToCount maildrop_count_text [] (state S.Store conn.old)
        (state S.Store conn.new)) }
    ensures survives { Survives (state S.Store conn.old) (state S.Store conn.new)
        (λ _. ¬ IsOurs (state S.Store conn.old).now) }
{
    count(conn, "SELECT count(*) FROM maildrops", &[])
}

/// Every name, in the order of adding.
pub fn all_maildrops<S: Alter>(alloc: Global, conn: &mut Connection<S>) -> Result<Vec<Bytes>, Error>
    ensures ok { HasCleanDisk (state S.Store conn.new) → HasTables (state S.Store conn.old)
        → IfOk result (λ all. all.items ≡ (rows_in (state S.Store conn.old).now.trees).maildrops) }
    ensures same { HasCleanDisk (state S.Store conn.new) → HasTables (state S.Store conn.old)
        → OnOk result (IsUnchanged (state S.Store conn.old) (state S.Store conn.new)) }
    ensures err { HasCleanDisk (state S.Store conn.new) → HasTables (state S.Store conn.old)
        → OnErr result (IsUndone (state S.Store conn.old) (state S.Store conn.new)) }
    ensures cause { HasCleanDisk (state S.Store conn.new) → HasTables (state S.Store conn.old)
        → IfErr result (FailsToRead all_maildrops_text [] (state S.Store conn.old)
        (state S.Store conn.new)) }
    ensures survives { Survives (state S.Store conn.old) (state S.Store conn.new)
        (λ _. ¬ IsOurs (state S.Store conn.old).now) }
{
    list(
        alloc,
        conn,
        "SELECT name FROM maildrops ORDER BY rowid",
        &[],
    )
}
