//! How each function of the crate runs its statement: what the statement did or showed, and what
//! its error tells.

ghost use Rattle.std.specs.Prelude.{◌≡◌, ◌<◌, ℕ, Ok, Err, pos, map, length, slice_get, List};
ghost use Rattle.std.specs.Prelude.{IfOk, IfErr, OnOk, OnErr};
ghost use Rattle.std.specs.Option.{option_map};
ghost use Rattle.sqlite_value.specs.declared.value.Value.TheVariants.{Int};
ghost use Rattle.sqlite_value.specs.Order.{Row as SqlRow, column};
ghost use Rattle.sqlite.specs.Values.{bound};
ghost use Rattle.sqlite.specs.Held.{state};
ghost use Rattle.sqlite.specs.State.{HasCleanDisk, IsLive, Survives, Executes, CommitsBy, Shown};
ghost use Rattle.sqlite.specs.State.{CommitsShowing, QueriesRow};
ghost use Rattle.mailsql.specs.Rows.{IsUndone};
ghost use Rattle.mailsql.specs.Errors.{FailsToRun, FailsToReadAs, FailsToCountAs};

use crate::decode::{Stored, read_all, read_count, read_first};
use sqlite::{Alter, Connection, Error};
use sqlite_value::value::ValueRef;
use std::alloc::Global;

/// Runs a statement that is no query.
pub(crate) fn run<S: Alter>(
    conn: &mut Connection<S>,
    text: &str,
    params: &[ValueRef<'_>],
) -> Result<(), Error>
    ensures live { IsLive (state S.Store conn.old) }
    ensures ok { HasCleanDisk (state S.Store conn.new)
        → OnOk result ((count : ℕ) × Executes text.now (bound params.now) (state S.Store conn.old)
        (state S.Store conn.new) (Ok count)) }
    ensures err { HasCleanDisk (state S.Store conn.new)
        → OnErr result (IsUndone (state S.Store conn.old) (state S.Store conn.new)) }
    ensures cause { HasCleanDisk (state S.Store conn.new)
        → IfErr result (FailsToRun text.now (bound params.now) (state S.Store conn.old)
        (state S.Store conn.new)) }
    ensures survives { Survives (state S.Store conn.old) (state S.Store conn.new)
        (CommitsBy text.now (bound params.now) (state S.Store conn.old)) }
{
    // For the proof: while a connection is open, its database lists its tables.
    let _schema = conn.schema();
    match conn.execute(text, params) {
        Ok(_) => Ok(()),
        Err(error) => Err(error),
    }
}

/// Every row that a query shows.
pub(crate) fn list<T: Stored, S: Alter>(
    alloc: Global,
    conn: &mut Connection<S>,
    text: &str,
    params: &[ValueRef<'_>],
) -> Result<Vec<T>, Error>
    ensures live { IsLive (state S.Store conn.old) }
    ensures ok { HasCleanDisk (state S.Store conn.new)
        → IfOk result (λ all. (rows : List SqlRow)
        × Shown text.now (bound params.now) (state S.Store conn.old) (state S.Store conn.new) rows
        × (all.items ≡ map T.stored rows)) }
    ensures err { HasCleanDisk (state S.Store conn.new)
        → IfErr result (FailsToReadAs T.holds text.now (bound params.now) (state S.Store conn.old)
        (state S.Store conn.new)) }
    ensures survives { Survives (state S.Store conn.old) (state S.Store conn.new)
        (CommitsShowing text.now (bound params.now) (state S.Store conn.old)) }
{
    // For the proof: while a connection is open, its database lists its tables.
    let _schema = conn.schema();
    match conn.query_all(text, params) {
        Ok(rows) => read_all(alloc, rows.as_slice()),
        Err(error) => Err(error),
    }
}

/// The first row that a query shows.
pub(crate) fn first<T: Stored, S: Alter>(
    alloc: Global,
    conn: &mut Connection<S>,
    text: &str,
    params: &[ValueRef<'_>],
) -> Result<Option<T>, Error>
    ensures live { IsLive (state S.Store conn.old) }
    ensures ok { HasCleanDisk (state S.Store conn.new)
        → IfOk result (λ found. (rows : List SqlRow)
        × Shown text.now (bound params.now) (state S.Store conn.old) (state S.Store conn.new) rows
        × (found ≡ option_map T.stored (slice_get rows 0))) }
    ensures err { HasCleanDisk (state S.Store conn.new)
        → IfErr result (FailsToReadAs T.holds text.now (bound params.now) (state S.Store conn.old)
        (state S.Store conn.new)) }
    ensures survives { Survives (state S.Store conn.old) (state S.Store conn.new)
        (CommitsShowing text.now (bound params.now) (state S.Store conn.old)) }
{
    // For the proof: while a connection is open, its database lists its tables.
    let _schema = conn.schema();
    match conn.query_all(text, params) {
        Ok(rows) => read_first(alloc, rows.as_slice()),
        Err(error) => Err(error),
    }
}

/// The number that a `count(*)` shows.
pub(crate) fn count<S: Alter>(
    conn: &mut Connection<S>,
    text: &str,
    params: &[ValueRef<'_>],
) -> Result<u64, Error>
    ensures live { IsLive (state S.Store conn.old) }
    ensures ok { HasCleanDisk (state S.Store conn.new)
        → IfOk result (λ count. (row : SqlRow) × QueriesRow text.now (bound params.now)
        (state S.Store conn.old) (state S.Store conn.new) (Ok row) × (0 < length row)
        × (column row 0 ≡ Int (pos count))) }
    ensures err { HasCleanDisk (state S.Store conn.new)
        → IfErr result (FailsToCountAs text.now (bound params.now) (state S.Store conn.old)
        (state S.Store conn.new)) }
    ensures survives { Survives (state S.Store conn.old) (state S.Store conn.new)
        (CommitsShowing text.now (bound params.now) (state S.Store conn.old)) }
{
    // For the proof: while a connection is open, its database lists its tables.
    let _schema = conn.schema();
    match conn.query_row(text, params) {
        Ok(row) => read_count(&row),
        Err(error) => Err(error),
    }
}
