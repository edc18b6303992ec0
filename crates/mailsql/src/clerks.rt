//! The clerks and their credentials.

ghost use Rattle.std.specs.Prelude.{◌≡◌, ◌⊎◌, IsTrue, min, length, IfOk, IfErr, OnOk, OnErr, []};
ghost use Rattle.std.specs.Prelude.{◌∷◌};
ghost use Rattle.std.specs.List.{find};
ghost use Rattle.sqlite.specs.Held.{state};
ghost use Rattle.sqlite.specs.State.{HasCleanDisk, IsUnchanged, Survives};
ghost use Rattle.mailsql.specs.Changes as changes;
ghost use Rattle.mailsql.specs.Rows as rows;
ghost use Rattle.mailsql.specs.Rows.{IsOurs, IsReady, HasTables, MayLeave, Changes, IsUndone};
ghost use Rattle.mailsql.specs.Rows.{IsHalted, rows_in};
ghost use Rattle.sqlite_value.specs.declared.value.Value.TheVariants.{Int, Text, Blob};
ghost use Rattle.mailsql.specs.Errors.{FailsToRun, FailsAfter, FailsToRead, FailsToCount};
ghost use Rattle.mailsql.specs.Statements.{add_clerk_text, drop_clerk_text, find_clerk_text};
ghost use Rattle.mailsql.specs.Statements.{all_clerks_text, clerk_count_text};

use crate::rows::Clerk;
use crate::run::{count, first, list, run};
use sqlite::{Alter, Connection, Error};
use sqlite_value::value::ValueRef;
use std::alloc::Global;

/// Adds a clerk. The table refuses a name that is there.
pub fn add_clerk<'x, S: Alter>(
    conn: &mut Connection<S>,
    name: &'x [u8],
    kind: i64,
    secret: &'x [u8],
) -> Result<(), Error>
    ensures ok { HasCleanDisk (state S.Store conn.new) → IsReady (state S.Store conn.old)
        → OnOk result (Changes (changes.AddsClerk
        (record { name = name.now; kind = kind; secret = secret.now })) (state S.Store conn.old)
        (state S.Store conn.new)) }
    ensures err { HasCleanDisk (state S.Store conn.new)
        → OnErr result (IsUndone (state S.Store conn.old) (state S.Store conn.new)) }
    ensures cause { HasCleanDisk (state S.Store conn.new)
        → IfErr result (FailsToRun add_clerk_text (Text name.now ∷ Int kind ∷ Blob secret.now ∷ [])
        (state S.Store conn.old) (state S.Store conn.new)) }
    ensures survives { Survives (state S.Store conn.old) (state S.Store conn.new)
        (MayLeave (changes.AddsClerk (record { name = name.now; kind = kind; secret = secret.now }))
        (state S.Store conn.old)) }
{
    run(
        conn,
        "INSERT INTO clerks (name, kind, secret) VALUES (?1, ?2, ?3)",
        &[
            ValueRef::Text(name),
            ValueRef::Int(kind),
            ValueRef::Blob(secret),
        ],
    )
}

/// Removes the clerk of this name, if there is one.
pub fn drop_clerk<S: Alter>(conn: &mut Connection<S>, name: &[u8]) -> Result<(), Error>
    ensures ok { HasCleanDisk (state S.Store conn.new) → IsReady (state S.Store conn.old)
        → OnOk result (Changes (changes.DropsClerk name.now) (state S.Store conn.old)
        (state S.Store conn.new)) }
    ensures err { HasCleanDisk (state S.Store conn.new)
        → OnErr result (IsUndone (state S.Store conn.old) (state S.Store conn.new)) }
    ensures cause { HasCleanDisk (state S.Store conn.new)
        → IfErr result (FailsToRun drop_clerk_text (Text name.now ∷ []) (state S.Store conn.old)
        (state S.Store conn.new)) }
    ensures survives { Survives (state S.Store conn.old) (state S.Store conn.new)
        (MayLeave (changes.DropsClerk name.now) (state S.Store conn.old)) }
{
    run(
        conn,
        "DELETE FROM clerks WHERE name = ?1",
        &[ValueRef::Text(name)],
    )
}

/// The clerk of this name, if there is one.
pub fn find_clerk<S: Alter>(
    alloc: Global,
    conn: &mut Connection<S>,
    name: &[u8],
) -> Result<Option<Clerk>, Error>
    ensures ok { HasCleanDisk (state S.Store conn.new) → HasTables (state S.Store conn.old)
        → IfOk result (λ found. found ≡ find (rows.is_clerk name.now)
        (rows_in (state S.Store conn.old).now.trees).clerks) }
    ensures same { HasCleanDisk (state S.Store conn.new) → HasTables (state S.Store conn.old)
        → OnOk result (IsUnchanged (state S.Store conn.old) (state S.Store conn.new)) }
    ensures err { HasCleanDisk (state S.Store conn.new) → HasTables (state S.Store conn.old)
        → OnErr result (IsUndone (state S.Store conn.old) (state S.Store conn.new)) }
    ensures cause { HasCleanDisk (state S.Store conn.new) → HasTables (state S.Store conn.old)
        → IfErr result (FailsToRead find_clerk_text (Text name.now ∷ []) (state S.Store conn.old)
        (state S.Store conn.new)) }
    ensures survives { Survives (state S.Store conn.old) (state S.Store conn.new)
        (λ _. ¬ IsOurs (state S.Store conn.old).now) }
{
    first(
        alloc,
        conn,
        "SELECT name, kind, secret FROM clerks WHERE name = ?1 ORDER BY rowid",
        &[ValueRef::Text(name)],
    )
}

/// Every clerk, in the order of adding.
pub fn all_clerks<S: Alter>(alloc: Global, conn: &mut Connection<S>) -> Result<Vec<Clerk>, Error>
    ensures ok { HasCleanDisk (state S.Store conn.new) → HasTables (state S.Store conn.old)
        → IfOk result (λ all. all.items ≡ (rows_in (state S.Store conn.old).now.trees).clerks) }
    ensures same { HasCleanDisk (state S.Store conn.new) → HasTables (state S.Store conn.old)
        → OnOk result (IsUnchanged (state S.Store conn.old) (state S.Store conn.new)) }
    ensures err { HasCleanDisk (state S.Store conn.new) → HasTables (state S.Store conn.old)
        → OnErr result (IsUndone (state S.Store conn.old) (state S.Store conn.new)) }
    ensures cause { HasCleanDisk (state S.Store conn.new) → HasTables (state S.Store conn.old)
        → IfErr result (FailsToRead all_clerks_text [] (state S.Store conn.old)
        (state S.Store conn.new)) }
    ensures survives { Survives (state S.Store conn.old) (state S.Store conn.new)
        (λ _. ¬ IsOurs (state S.Store conn.old).now) }
{
    list(
        alloc,
        conn,
        "SELECT name, kind, secret FROM clerks ORDER BY rowid",
        &[],
    )
}

/// How many clerks there are.
pub fn clerk_count<S: Alter>(conn: &mut Connection<S>) -> Result<u64, Error>
    ensures ok { HasCleanDisk (state S.Store conn.new) → HasTables (state S.Store conn.old)
        → IfOk result (λ count. count ≡ min (length
        (rows_in (state S.Store conn.old).now.trees).clerks) 9223372036854775807) }
    ensures same { HasCleanDisk (state S.Store conn.new) → HasTables (state S.Store conn.old)
        → OnOk result (IsUnchanged (state S.Store conn.old) (state S.Store conn.new)) }
    ensures err { HasCleanDisk (state S.Store conn.new) → HasTables (state S.Store conn.old)
        → OnErr result (IsUndone (state S.Store conn.old) (state S.Store conn.new)) }
    ensures cause { HasCleanDisk (state S.Store conn.new) → HasTables (state S.Store conn.old)
        → IfErr result (FailsToCount clerk_count_text [] (state S.Store conn.old)
        (state S.Store conn.new)) }
    ensures survives { Survives (state S.Store conn.old) (state S.Store conn.new)
        (λ _. ¬ IsOurs (state S.Store conn.old).now) }
{
    count(conn, "SELECT count(*) FROM clerks", &[])
}

/// Adds the clerk, or replaces the one of its name. It runs two statements: call it inside a
/// transaction, so that an error between them can be rolled back.
pub fn put_clerk<'x, S: Alter>(
    conn: &mut Connection<S>,
    name: &'x [u8],
    kind: i64,
    secret: &'x [u8],
) -> Result<(), Error>
    ensures ok { HasCleanDisk (state S.Store conn.new) → IsReady (state S.Store conn.old)
        → OnOk result (Changes (changes.PutsClerk
        (record { name = name.now; kind = kind; secret = secret.now })) (state S.Store conn.old)
        (state S.Store conn.new)) }
    ensures err { HasCleanDisk (state S.Store conn.new) → IsReady (state S.Store conn.old)
        → IsTrue (state S.Store conn.old).in_transaction
        → OnErr result (IsHalted (state S.Store conn.old) (state S.Store conn.new)) }
    ensures cause { HasCleanDisk (state S.Store conn.new) → IsReady (state S.Store conn.old)
        → IfErr result (λ e. FailsToRun drop_clerk_text (Text name.now ∷ [])
        (state S.Store conn.old) (state S.Store conn.new) e
        ⊎ FailsAfter S.Store (changes.DropsClerk name.now) add_clerk_text
        (Text name.now ∷ Int kind ∷ Blob secret.now ∷ []) conn.old conn.new e) }
    ensures survives { Survives (state S.Store conn.old) (state S.Store conn.new)
        (MayLeave (λ before after. changes.DropsClerk name.now before after
        ⊎ changes.PutsClerk (record { name = name.now; kind = kind; secret = secret.now }) before
        after) (state S.Store conn.old)) }
{
    match drop_clerk(conn, name) {
        Ok(()) => add_clerk(conn, name, kind, secret),
        Err(error) => Err(error),
    }
}
