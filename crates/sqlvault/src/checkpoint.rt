//! Copying the write-ahead log into the database file.
ghost use Rattle.std.specs.Prelude.{Ok};
ghost use Rattle.vault.specs.Calls.{IsAnswer};
ghost use Rattle.mailsql.specs.Changes.{PutsMetaRow};
ghost use Rattle.sqlvault.specs.Keeps.{our_meta_row};
ghost use Rattle.sqlvault.specs.Frame.{IsMet, Looks, Writes};
ghost use Rattle.sqlvault.specs.Refusals.{answer_of};

use crate::refusal::Refusal;
use crate::transaction::{begin, conclude};
use crate::version::NEWEST;
use mailsql::meta;
use sqlite::{Alter, Connection, Error};

/// Writes the version row anew, inside a transaction.
fn rewrite_version<S: Alter>(conn: &mut Connection<S>) -> Result<(), Error>
    ensures { Writes S.Store conn.old conn.new (λ _. PutsMetaRow our_meta_row) result }
{
    meta::put_meta_row(conn, b"popbox", NEWEST)
}

/// Commits a write that changes nothing: before it, as before any, SQLite copies a long log into
/// the database file.
///
/// Answers the error that a statement met.
pub(crate) fn checkpoint<S: Alter>(conn: &mut Connection<S>) -> Result<(), Refusal>
    ensures looks { Looks S.Store conn.old conn.new (IsMet result) }
    ensures answer { IsAnswer (Ok tt) (answer_of result) }
{
    begin(conn)?;
    let written = rewrite_version(conn);
    conclude(conn, written)
}
