//! The beginning and the end of a transaction.
ghost use Rattle.std.specs.Prelude.{◌≡◌, ◌⊎◌, IsTrue};
ghost use Rattle.sqlite.specs.Held.{state};
ghost use Rattle.sqlite.specs.State.{IsLive};
ghost use Rattle.sqlvault.specs.Refusals.{is_memory};
ghost use Rattle.sqlvault.specs.Transactions.{Begins, Undoes, Ends, Concludes};

use crate::refusal::{Refusal, is_memory};
use mailsql::transaction;
use sqlite::{Alter, Connection, Error};

/// Begins a transaction. Refused if one is under way.
pub(crate) fn begin<S: Alter>(conn: &mut Connection<S>) -> Result<(), Error>
    ensures { Begins S.Store conn.old conn.new result }
{
    transaction::begin(conn)
}

/// Rolls the transaction back after an error, if it is still under way.
pub(crate) fn roll_back<S: Alter>(conn: &mut Connection<S>) -> Result<(), Error>
    ensures { Undoes S.Store conn.old conn.new }
{
    if conn.is_autocommit() {
        return Ok(());
    }
    transaction::rollback(conn)
}

/// Rolls the transaction back after an error, if it is still under way. Answers that error; if
/// memory ran out and the rollback fails too, the rollback's error.
pub(crate) fn undo<S: Alter>(conn: &mut Connection<S>, error: Error) -> Error
    ensures undoes { Undoes S.Store conn.old conn.new }
    ensures told { (result ≡ error) ⊎ IsTrue (is_memory error) }
{
    match roll_back(conn) {
        Ok(()) => error,
        Err(other) => { if is_memory(&error) { other } else { error } }
    }
}

/// For the proof: an open connection's database, now and as last committed, lists its tables.
fn tables_are_listed<S: Alter>(conn: &Connection<S>)
    ensures live { IsLive (state S.Store conn.now) }
{
    let _schema = conn.schema();
}

/// Commits the transaction, or rolls it back and answers the error.
fn end<S: Alter>(conn: &mut Connection<S>) -> Result<(), Error>
    ensures { Ends S.Store conn.old conn.new result }
{
    tables_are_listed(conn);
    match transaction::commit(conn) {
        Ok(()) => Ok(()),
        Err(error) => Err(undo(conn, error)),
    }
}

/// Ends the transaction in which this was written: commits it, or rolls it back after an error.
///
/// Answers the error that was met; the transaction is then gone.
pub(crate) fn conclude<S: Alter>(
    conn: &mut Connection<S>,
    written: Result<(), Error>,
) -> Result<(), Refusal>
    ensures { Concludes S.Store conn.old conn.new written result }
{
    match written {
        Ok(()) => Ok(end(conn)?),
        Err(error) => Err(Refusal::Met(undo(conn, error))),
    }
}
