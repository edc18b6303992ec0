//! The deposits that were ever accepted.

ghost use Rattle.std.specs.Prelude.{◌≡◌, IfOk, IfErr, OnOk, OnErr, [], ◌∷◌};
ghost use Rattle.std.specs.List.{find};
ghost use Rattle.sqlite.specs.Held.{state};
ghost use Rattle.sqlite.specs.State.{HasCleanDisk, IsUnchanged, Survives};
ghost use Rattle.mailsql.specs.Changes as changes;
ghost use Rattle.mailsql.specs.Rows as rows;
ghost use Rattle.mailsql.specs.Rows.{IsOurs, IsReady, HasTables, MayLeave, Changes, IsUndone};
ghost use Rattle.mailsql.specs.Rows.{rows_in};
ghost use Rattle.sqlite_value.specs.declared.value.Value.TheVariants.{Int, Text, Blob};
ghost use Rattle.mailsql.specs.Errors.{FailsToRun, FailsToRead};
ghost use Rattle.mailsql.specs.Statements.{add_deposit_text, find_deposit_text, all_deposits_text};

use crate::rows::Deposit;
use crate::run::{first, list, run};
use sqlite::{Alter, Connection, Error};
use sqlite_value::value::ValueRef;
use std::alloc::Global;

/// Adds a deposit. The table refuses an id that the maildrop's name had before.
pub fn add_deposit<'x, S: Alter>(
    conn: &mut Connection<S>,
    maildrop: &'x [u8],
    id: &'x [u8],
    class: &'x [u8],
    k: i64,
    digest: &'x [u8],
) -> Result<(), Error>
    ensures ok { HasCleanDisk (state S.Store conn.new) → IsReady (state S.Store conn.old)
        → OnOk result (Changes (changes.AddsDeposit
        (record {
          maildrop = maildrop.now;
          id = id.now;
          class = class.now;
          k = k;
          digest =
              digest.now;
        })) (state S.Store conn.old) (state S.Store conn.new)) }
    ensures err { HasCleanDisk (state S.Store conn.new)
        → OnErr result (IsUndone (state S.Store conn.old) (state S.Store conn.new)) }
    ensures cause { HasCleanDisk (state S.Store conn.new)
        → IfErr result (FailsToRun add_deposit_text
        (Text maildrop.now ∷ Text id.now ∷ Text class.now ∷ Int k ∷ Blob digest.now ∷ [])
        (state S.Store conn.old) (state S.Store conn.new)) }
    ensures survives { Survives (state S.Store conn.old) (state S.Store conn.new)
        (MayLeave (changes.AddsDeposit (record {
          maildrop = maildrop.now;
          id = id.now;
          class =
              class.now;
          k = k;
          digest = digest.now;
        })) (state S.Store conn.old)) }
{
    run(
        conn,
        "INSERT INTO deposits (maildrop, id, class, k, digest) VALUES (?1, ?2, ?3, ?4, ?5)",
        &[
            ValueRef::Text(maildrop),
            ValueRef::Text(id),
            ValueRef::Text(class),
            ValueRef::Int(k),
            ValueRef::Blob(digest),
        ],
    )
}

/// The deposit of this id, if the maildrop's name ever had it.
pub fn find_deposit<'x, S: Alter>(
    alloc: Global,
    conn: &mut Connection<S>,
    maildrop: &'x [u8],
    id: &'x [u8],
) -> Result<Option<Deposit>, Error>
    ensures ok { HasCleanDisk (state S.Store conn.new) → HasTables (state S.Store conn.old)
        → IfOk result (λ found. found ≡ find (rows.is_deposit maildrop.now id.now)
        (rows_in (state S.Store conn.old).now.trees).deposits) }
    ensures same { HasCleanDisk (state S.Store conn.new) → HasTables (state S.Store conn.old)
        → OnOk result (IsUnchanged (state S.Store conn.old) (state S.Store conn.new)) }
    ensures err { HasCleanDisk (state S.Store conn.new) → HasTables (state S.Store conn.old)
        → OnErr result (IsUndone (state S.Store conn.old) (state S.Store conn.new)) }
    ensures cause { HasCleanDisk (state S.Store conn.new) → HasTables (state S.Store conn.old)
        → IfErr result (FailsToRead find_deposit_text (Text maildrop.now ∷ Text id.now ∷ [])
        (state S.Store conn.old) (state S.Store conn.new)) }
    ensures survives { Survives (state S.Store conn.old) (state S.Store conn.new)
        (λ _. ¬ IsOurs (state S.Store conn.old).now) }
{
    first(
        alloc,
        conn,
        "SELECT maildrop, id, class, k, digest FROM deposits WHERE maildrop = ?1 AND id = ?2 ORDER BY rowid",
        &[ValueRef::Text(maildrop), ValueRef::Text(id)],
    )
}

/// Every deposit, in the order of adding.
pub fn all_deposits<S: Alter>(
    alloc: Global,
    conn: &mut Connection<S>,
) -> Result<Vec<Deposit>, Error>
    ensures ok { HasCleanDisk (state S.Store conn.new) → HasTables (state S.Store conn.old)
        → IfOk result (λ all. all.items ≡ (rows_in (state S.Store conn.old).now.trees).deposits) }
    ensures same { HasCleanDisk (state S.Store conn.new) → HasTables (state S.Store conn.old)
        → OnOk result (IsUnchanged (state S.Store conn.old) (state S.Store conn.new)) }
    ensures err { HasCleanDisk (state S.Store conn.new) → HasTables (state S.Store conn.old)
        → OnErr result (IsUndone (state S.Store conn.old) (state S.Store conn.new)) }
    ensures cause { HasCleanDisk (state S.Store conn.new) → HasTables (state S.Store conn.old)
        → IfErr result (FailsToRead all_deposits_text [] (state S.Store conn.old)
        (state S.Store conn.new)) }
    ensures survives { Survives (state S.Store conn.old) (state S.Store conn.new)
        (λ _. ¬ IsOurs (state S.Store conn.old).now) }
{
    list(
        alloc,
        conn,
        "SELECT maildrop, id, class, k, digest FROM deposits ORDER BY rowid",
        &[],
    )
}
