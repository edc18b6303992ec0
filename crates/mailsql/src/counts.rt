//! The counts: for each class of a maildrop the greatest number that a message of it got.

ghost use Rattle.std.specs.Prelude.{◌≡◌, ◌⊎◌, IsTrue, IfOk, IfErr, OnOk, OnErr, [], ◌∷◌};
ghost use Rattle.std.specs.List.{find};
ghost use Rattle.sqlite.specs.Held.{state};
ghost use Rattle.sqlite.specs.State.{HasCleanDisk, IsUnchanged, Survives};
ghost use Rattle.mailsql.specs.Changes as changes;
ghost use Rattle.mailsql.specs.Rows as rows;
ghost use Rattle.mailsql.specs.Rows.{IsOurs, IsReady, HasTables, MayLeave, Changes, IsUndone};
ghost use Rattle.mailsql.specs.Rows.{IsHalted, rows_in};
ghost use Rattle.sqlite_value.specs.declared.value.Value.TheVariants.{Int, Text};
ghost use Rattle.mailsql.specs.Errors.{FailsToRun, FailsAfter, FailsToRead};
ghost use Rattle.mailsql.specs.Statements.{add_count_text, clear_count_text, find_count_text};
ghost use Rattle.mailsql.specs.Statements.{all_counts_text};

use crate::rows::Count;
use crate::run::{first, list, run};
use sqlite::{Alter, Connection, Error};
use sqlite_value::value::ValueRef;
use std::alloc::Global;

/// Adds the count of a class. The table refuses a class that has one.
fn add_count<'x, S: Alter>(
    conn: &mut Connection<S>,
    maildrop: &'x [u8],
    class: &'x [u8],
    k: i64,
) -> Result<(), Error>
    ensures ok { HasCleanDisk (state S.Store conn.new) → IsReady (state S.Store conn.old)
        → OnOk result (Changes (changes.AddsCount
        (record { maildrop = maildrop.now; class = class.now; k = k })) (state S.Store conn.old)
        (state S.Store conn.new)) }
    ensures err { HasCleanDisk (state S.Store conn.new)
        → OnErr result (IsUndone (state S.Store conn.old) (state S.Store conn.new)) }
    ensures cause { HasCleanDisk (state S.Store conn.new)
        → IfErr result (FailsToRun add_count_text (Text maildrop.now ∷ Text class.now ∷ Int k ∷ [])
        (state S.Store conn.old) (state S.Store conn.new)) }
    ensures survives { Survives (state S.Store conn.old) (state S.Store conn.new)
        (MayLeave (changes.AddsCount (record { maildrop = maildrop.now; class = class.now; k = k }))
        (state S.Store conn.old)) }
{
    run(
        conn,
        "INSERT INTO counts (maildrop, class, k) VALUES (?1, ?2, ?3)",
        &[
            ValueRef::Text(maildrop),
            ValueRef::Text(class),
            ValueRef::Int(k),
        ],
    )
}

/// Removes the count of the class, if there is one.
fn clear_count<'x, S: Alter>(
    conn: &mut Connection<S>,
    maildrop: &'x [u8],
    class: &'x [u8],
) -> Result<(), Error>
    ensures ok { HasCleanDisk (state S.Store conn.new) → IsReady (state S.Store conn.old)
        → OnOk result (Changes (changes.ClearsCount maildrop.now class.now) (state S.Store conn.old)
        (state S.Store conn.new)) }
    ensures err { HasCleanDisk (state S.Store conn.new)
        → OnErr result (IsUndone (state S.Store conn.old) (state S.Store conn.new)) }
    ensures cause { HasCleanDisk (state S.Store conn.new)
        → IfErr result (FailsToRun clear_count_text (Text maildrop.now ∷ Text class.now ∷ [])
        (state S.Store conn.old) (state S.Store conn.new)) }
    ensures survives { Survives (state S.Store conn.old) (state S.Store conn.new)
        (MayLeave (changes.ClearsCount maildrop.now class.now) (state S.Store conn.old)) }
{
    run(
        conn,
        "DELETE FROM counts WHERE maildrop = ?1 AND class = ?2",
        &[ValueRef::Text(maildrop), ValueRef::Text(class)],
    )
}

/// The count of the class in the maildrop, if one was ever set.
pub fn find_count<'x, S: Alter>(
    alloc: Global,
    conn: &mut Connection<S>,
    maildrop: &'x [u8],
    class: &'x [u8],
) -> Result<Option<Count>, Error>
    ensures ok { HasCleanDisk (state S.Store conn.new) → HasTables (state S.Store conn.old)
        → IfOk result (λ found. found ≡ find (rows.is_count maildrop.now class.now)
        (rows_in (state S.Store conn.old).now.trees).counts) }
    ensures same { HasCleanDisk (state S.Store conn.new) → HasTables (state S.Store conn.old)
        → OnOk result (IsUnchanged (state S.Store conn.old) (state S.Store conn.new)) }
    ensures err { HasCleanDisk (state S.Store conn.new) → HasTables (state S.Store conn.old)
        → OnErr result (IsUndone (state S.Store conn.old) (state S.Store conn.new)) }
    ensures cause { HasCleanDisk (state S.Store conn.new) → HasTables (state S.Store conn.old)
        → IfErr result (FailsToRead find_count_text (Text maildrop.now ∷ Text class.now ∷ [])
        (state S.Store conn.old) (state S.Store conn.new)) }
    ensures survives { Survives (state S.Store conn.old) (state S.Store conn.new)
        (λ _. ¬ IsOurs (state S.Store conn.old).now) }
{
    first(
        alloc,
        conn,
        "SELECT maildrop, class, k FROM counts WHERE maildrop = ?1 AND class = ?2 ORDER BY rowid",
        &[ValueRef::Text(maildrop), ValueRef::Text(class)],
    )
}

/// Every count, in the order of adding.
pub fn all_counts<S: Alter>(alloc: Global, conn: &mut Connection<S>) -> Result<Vec<Count>, Error>
    ensures ok { HasCleanDisk (state S.Store conn.new) → HasTables (state S.Store conn.old)
        → IfOk result (λ all. all.items ≡ (rows_in (state S.Store conn.old).now.trees).counts) }
    ensures same { HasCleanDisk (state S.Store conn.new) → HasTables (state S.Store conn.old)
        → OnOk result (IsUnchanged (state S.Store conn.old) (state S.Store conn.new)) }
    ensures err { HasCleanDisk (state S.Store conn.new) → HasTables (state S.Store conn.old)
        → OnErr result (IsUndone (state S.Store conn.old) (state S.Store conn.new)) }
    ensures cause { HasCleanDisk (state S.Store conn.new) → HasTables (state S.Store conn.old)
        → IfErr result (FailsToRead all_counts_text [] (state S.Store conn.old)
        (state S.Store conn.new)) }
    ensures survives { Survives (state S.Store conn.old) (state S.Store conn.new)
        (λ _. ¬ IsOurs (state S.Store conn.old).now) }
{
    list(
        alloc,
        conn,
        "SELECT maildrop, class, k FROM counts ORDER BY rowid",
        &[],
    )
}

/// Sets the count of the class to `k`. It runs two statements: call it inside a transaction, so
/// that an error between them can be rolled back.
pub fn set_count<'x, S: Alter>(
    conn: &mut Connection<S>,
    maildrop: &'x [u8],
    class: &'x [u8],
    k: i64,
) -> Result<(), Error>
    ensures ok { HasCleanDisk (state S.Store conn.new) → IsReady (state S.Store conn.old)
        → OnOk result (Changes (changes.SetsCount
        (record { maildrop = maildrop.now; class = class.now; k = k })) (state S.Store conn.old)
        (state S.Store conn.new)) }
    ensures err { HasCleanDisk (state S.Store conn.new) → IsReady (state S.Store conn.old)
        → IsTrue (state S.Store conn.old).in_transaction
        → OnErr result (IsHalted (state S.Store conn.old) (state S.Store conn.new)) }
    ensures cause { HasCleanDisk (state S.Store conn.new) → IsReady (state S.Store conn.old)
        → IfErr result (λ e. FailsToRun clear_count_text (Text maildrop.now ∷ Text class.now ∷ [])
        (state S.Store conn.old) (state S.Store conn.new) e
        ⊎ FailsAfter S.Store (changes.ClearsCount maildrop.now class.now) add_count_text
        (Text maildrop.now ∷ Text class.now ∷ Int k ∷ []) conn.old conn.new e) }
    ensures survives { Survives (state S.Store conn.old) (state S.Store conn.new)
        (MayLeave (λ before after. changes.ClearsCount maildrop.now class.now before after
        ⊎ changes.SetsCount (record { maildrop = maildrop.now; class = class.now; k = k }) before
        after) (state S.Store conn.old)) }
{
    match clear_count(conn, maildrop, class) {
        Ok(()) => add_count(conn, maildrop, class, k),
        Err(error) => Err(error),
    }
}
