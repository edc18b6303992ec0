//! The rows of `meta` of a store: named numbers. The one named `popbox` is the version of the
//! layout.

ghost use Rattle.std.specs.Prelude.{◌≡◌, ◌⊎◌, IsTrue, IfOk, IfErr, OnOk, OnErr, [], ◌∷◌};
ghost use Rattle.std.specs.List.{find};
ghost use Rattle.sqlite.specs.Held.{state};
ghost use Rattle.sqlite.specs.State.{HasCleanDisk, IsUnchanged, Survives};
ghost use Rattle.mailsql.specs.Changes as changes;
ghost use Rattle.mailsql.specs.Rows as rows;
ghost use Rattle.mailsql.specs.Rows.{IsOurs, IsReady, HasTables, HasOldTables, IsOldSchema};
ghost use Rattle.mailsql.specs.Rows.{MayLeave, Changes, IsUndone, IsHalted, rows_in};
ghost use Rattle.sqlite_value.specs.declared.value.Value.TheVariants.{Int, Text};
ghost use Rattle.mailsql.specs.MetaTable.{HasMetaRows};
ghost use Rattle.mailsql.specs.Errors.{FailsToRun, FailsAfter, FailsToRead};
ghost use Rattle.mailsql.specs.Statements.{add_meta_row_text, drop_meta_row_text};
ghost use Rattle.mailsql.specs.Statements.{find_meta_row_text};
ghost use Rattle.mailsql.specs.Statements.{all_meta_rows_text};

use crate::rows::MetaRow;
use crate::run::{first, list, run};
use sqlite::{Alter, Connection, Error};
use sqlite_value::value::ValueRef;
use std::alloc::Global;

/// Adds a row of `meta`. The table refuses a name that is there.
pub fn add_meta_row<S: Alter>(
    conn: &mut Connection<S>,
    name: &[u8],
    value: i64,
) -> Result<(), Error>
    ensures ok { HasCleanDisk (state S.Store conn.new) → IsReady (state S.Store conn.old)
        → OnOk result (Changes (changes.AddsMetaRow (record { name = name.now; value = value }))
        (state S.Store conn.old) (state S.Store conn.new)) }
    ensures err { HasCleanDisk (state S.Store conn.new)
        → OnErr result (IsUndone (state S.Store conn.old) (state S.Store conn.new)) }
    ensures cause { HasCleanDisk (state S.Store conn.new)
        → IfErr result (FailsToRun add_meta_row_text (Text name.now ∷ Int value ∷ [])
        (state S.Store conn.old) (state S.Store conn.new)) }
    ensures survives { Survives (state S.Store conn.old) (state S.Store conn.new)
        (MayLeave (changes.AddsMetaRow (record { name = name.now; value = value }))
        (state S.Store conn.old)) }
{
    run(
        conn,
        "INSERT INTO meta (name, value) VALUES (?1, ?2)",
        &[ValueRef::Text(name), ValueRef::Int(value)],
    )
}

/// Removes the row of `meta` of this name, if there is one.
pub fn drop_meta_row<S: Alter>(conn: &mut Connection<S>, name: &[u8]) -> Result<(), Error>
    ensures ok { HasCleanDisk (state S.Store conn.new) → IsReady (state S.Store conn.old)
        → OnOk result (Changes (changes.DropsMetaRow name.now) (state S.Store conn.old)
        (state S.Store conn.new)) }
    ensures err { HasCleanDisk (state S.Store conn.new)
        → OnErr result (IsUndone (state S.Store conn.old) (state S.Store conn.new)) }
    ensures cause { HasCleanDisk (state S.Store conn.new)
        → IfErr result (FailsToRun drop_meta_row_text (Text name.now ∷ []) (state S.Store conn.old)
        (state S.Store conn.new)) }
    ensures survives { Survives (state S.Store conn.old) (state S.Store conn.new)
        (MayLeave (changes.DropsMetaRow name.now) (state S.Store conn.old)) }
{
    run(
        conn,
        "DELETE FROM meta WHERE name = ?1",
        &[ValueRef::Text(name)],
    )
}

/// Adds the row of `meta`, or replaces the one of its name. It runs two statements: call it inside
/// a transaction, so that an error between them can be rolled back.
pub fn put_meta_row<S: Alter>(
    conn: &mut Connection<S>,
    name: &[u8],
    value: i64,
) -> Result<(), Error>
    ensures ok { HasCleanDisk (state S.Store conn.new) → IsReady (state S.Store conn.old)
        → OnOk result (Changes (changes.PutsMetaRow (record { name = name.now; value = value }))
        (state S.Store conn.old) (state S.Store conn.new)) }
    ensures err { HasCleanDisk (state S.Store conn.new) → IsReady (state S.Store conn.old)
        → IsTrue (state S.Store conn.old).in_transaction
        → OnErr result (IsHalted (state S.Store conn.old) (state S.Store conn.new)) }
    ensures cause { HasCleanDisk (state S.Store conn.new) → IsReady (state S.Store conn.old)
        → IfErr result (λ e. FailsToRun drop_meta_row_text (Text name.now ∷ [])
        (state S.Store conn.old) (state S.Store conn.new) e
        ⊎ FailsAfter S.Store (changes.DropsMetaRow name.now) add_meta_row_text
        (Text name.now ∷ Int value ∷ []) conn.old conn.new e) }
    ensures survives { Survives (state S.Store conn.old) (state S.Store conn.new)
        (MayLeave (λ before after. changes.DropsMetaRow name.now before after
        ⊎ changes.PutsMetaRow (record { name = name.now; value = value }) before after)
        (state S.Store conn.old)) }
{
    match drop_meta_row(conn, name) {
        Ok(()) => add_meta_row(conn, name, value),
        Err(error) => Err(error),
    }
}

/// The row of `meta` of this name, if there is one. It reads a store of any version, whatever other
/// tables that has.
pub fn find_meta_row<S: Alter>(
    alloc: Global,
    conn: &mut Connection<S>,
    name: &[u8],
) -> Result<Option<MetaRow>, Error>
    ensures ok { HasCleanDisk (state S.Store conn.new) → HasTables (state S.Store conn.old)
        → IfOk result (λ found. found ≡ find (rows.is_meta_row name.now)
        (rows_in (state S.Store conn.old).now.trees).meta_rows) }
    ensures same { HasCleanDisk (state S.Store conn.new) → HasTables (state S.Store conn.old)
        → OnOk result (IsUnchanged (state S.Store conn.old) (state S.Store conn.new)) }
    ensures err { HasCleanDisk (state S.Store conn.new) → HasTables (state S.Store conn.old)
        → OnErr result (IsUndone (state S.Store conn.old) (state S.Store conn.new)) }
    ensures cause { HasCleanDisk (state S.Store conn.new) → HasTables (state S.Store conn.old)
        → IfErr result (FailsToRead find_meta_row_text (Text name.now ∷ []) (state S.Store conn.old)
        (state S.Store conn.new)) }
    ensures survives { Survives (state S.Store conn.old) (state S.Store conn.new)
        (λ _. ¬ IsOurs (state S.Store conn.old).now) }
    ensures old_ok { HasCleanDisk (state S.Store conn.new) → HasOldTables (state S.Store conn.old)
        → IfOk result (λ found. found ≡ find (rows.is_meta_row name.now)
        (rows_in (state S.Store conn.old).now.trees).meta_rows) }
    ensures old_same { HasCleanDisk (state S.Store conn.new) → HasOldTables (state S.Store conn.old)
        → OnOk result (IsUnchanged (state S.Store conn.old) (state S.Store conn.new)) }
    ensures old_err { HasCleanDisk (state S.Store conn.new) → HasOldTables (state S.Store conn.old)
        → OnErr result (IsUndone (state S.Store conn.old) (state S.Store conn.new)) }
    ensures old_survives { Survives (state S.Store conn.old) (state S.Store conn.new)
        (λ _. IsOldSchema (state S.Store conn.old).now → ⊥) }
    ensures marked_ok { HasCleanDisk (state S.Store conn.new)
        → HasMetaRows (state S.Store conn.old).now
        → IfOk result (λ found. found ≡ find (rows.is_meta_row name.now)
        (rows_in (state S.Store conn.old).now.trees).meta_rows) }
    ensures marked_same { HasCleanDisk (state S.Store conn.new)
        → HasMetaRows (state S.Store conn.old).now
        → OnOk result (IsUnchanged (state S.Store conn.old) (state S.Store conn.new)) }
    ensures marked_err { HasCleanDisk (state S.Store conn.new)
        → HasMetaRows (state S.Store conn.old).now
        → OnErr result (IsUndone (state S.Store conn.old) (state S.Store conn.new)) }
    ensures marked_survives { Survives (state S.Store conn.old) (state S.Store conn.new)
        (λ _. HasMetaRows (state S.Store conn.old).now → ⊥) }
{
    first(
        alloc,
        conn,
        "SELECT name, value FROM meta WHERE name = ?1 ORDER BY rowid",
        &[ValueRef::Text(name)],
    )
}

/// Every row of `meta`, in the order of adding. It reads an older store too.
pub fn all_meta_rows<S: Alter>(
    alloc: Global,
    conn: &mut Connection<S>,
) -> Result<Vec<MetaRow>, Error>
    ensures ok { HasCleanDisk (state S.Store conn.new) → HasTables (state S.Store conn.old)
        → IfOk result (λ all. all.items ≡ (rows_in (state S.Store conn.old).now.trees).meta_rows) }
    ensures same { HasCleanDisk (state S.Store conn.new) → HasTables (state S.Store conn.old)
        → OnOk result (IsUnchanged (state S.Store conn.old) (state S.Store conn.new)) }
    ensures err { HasCleanDisk (state S.Store conn.new) → HasTables (state S.Store conn.old)
        → OnErr result (IsUndone (state S.Store conn.old) (state S.Store conn.new)) }
    ensures cause { HasCleanDisk (state S.Store conn.new) → HasTables (state S.Store conn.old)
        → IfErr result (FailsToRead all_meta_rows_text [] (state S.Store conn.old)
        (state S.Store conn.new)) }
    ensures survives { Survives (state S.Store conn.old) (state S.Store conn.new)
        (λ _. ¬ IsOurs (state S.Store conn.old).now) }
    ensures old_ok { HasCleanDisk (state S.Store conn.new) → HasOldTables (state S.Store conn.old)
        → IfOk result (λ all. all.items ≡ (rows_in (state S.Store conn.old).now.trees).meta_rows) }
    ensures old_same { HasCleanDisk (state S.Store conn.new) → HasOldTables (state S.Store conn.old)
        → OnOk result (IsUnchanged (state S.Store conn.old) (state S.Store conn.new)) }
    ensures old_err { HasCleanDisk (state S.Store conn.new) → HasOldTables (state S.Store conn.old)
        → OnErr result (IsUndone (state S.Store conn.old) (state S.Store conn.new)) }
    ensures old_survives { Survives (state S.Store conn.old) (state S.Store conn.new)
        (λ _. IsOldSchema (state S.Store conn.old).now → ⊥) }
{
    list(
        alloc,
        conn,
        "SELECT name, value FROM meta ORDER BY rowid",
        &[],
    )
}
