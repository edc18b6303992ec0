//! Whether the rows of the clerks and of the maildrops are sound records.
ghost use Rattle.std.specs.Prelude.{◌≡◌, IfOk};
ghost use Rattle.std.specs.List.{list_all};
ghost use Rattle.creds.specs.Names.{is_name};
ghost use Rattle.sqlite.specs.Held.{state};
ghost use Rattle.sqlite.specs.State.{HasCleanDisk};
ghost use Rattle.mailsql.specs.Rows.{HasTables, rows_in};
ghost use Rattle.mailsql.specs.Apart.{AreApart};
ghost use Rattle.sqlvault.specs.Frame.{Asks};
ghost use Rattle.sqlvault.specs.Parts.{Finds, ClerksAre, MaildropsAre};
ghost use Rattle.sqlvault.specs.RowForms.{is_clerk_row, are_clerk_rows, are_maildrop_rows};

use crate::clerks::{MAX_CLERKS, read_credential};
use crate::maildrops::MAX_MAILDROPS;
use creds::Name;
use mailsql::rows::Clerk;
use mailsql::{clerks, maildrops};
use sqlite::{Alter, Connection, Error};
use sqlite_value::value::Bytes;
use std::alloc::Global;

/// Whether the row has the form of a name.
fn is_maildrop(row: &Bytes) -> bool
    ensures { result ≡ is_name row.now }
{
    Name::read(row.as_slice()).is_some()
}

/// Whether each row has the form of a name.
fn are_named(rows: &[Bytes]) -> bool
    ensures { result ≡ list_all is_name rows.now }
{
    for row in rows {
        if !is_maildrop(row) {
            return false;
        }
    }
    true
}

/// Whether the rows are those of maildrops, 1,000 at most.
fn are_maildrops(rows: &[Bytes]) -> bool
    ensures { result ≡ are_maildrop_rows rows.now }
{
    rows.len() as u64 <= MAX_MAILDROPS && are_named(rows)
}

/// Whether the row is a sound clerk's.
fn is_clerk(row: &Clerk) -> bool
    ensures { result ≡ is_clerk_row row.now }
{
    Name::read(row.name.as_slice()).is_some() && read_credential(row).is_some()
}

/// Whether each row is a sound clerk's.
fn each_is_clerk(rows: &[Clerk]) -> bool
    ensures { result ≡ list_all is_clerk_row rows.now }
{
    for row in rows {
        if !is_clerk(row) {
            return false;
        }
    }
    true
}

/// Whether the rows are those of sound clerks, 1,000 at most.
fn are_clerks(rows: &[Clerk]) -> bool
    ensures { result ≡ are_clerk_rows rows.now }
{
    rows.len() as u64 <= MAX_CLERKS && each_is_clerk(rows)
}

/// Whether the rows of the clerks are sound: 1,000 at most, and each name and credential has its
/// form.
pub(crate) fn are_clerks_sound<S: Alter>(
    alloc: Global,
    conn: &mut Connection<S>,
) -> Result<bool, Error>
    ensures judged { HasCleanDisk (state S.Store conn.new) → HasTables (state S.Store conn.old)
        → AreApart (rows_in (state S.Store conn.old).now.trees)
        → IfOk result (Finds (ClerksAre (rows_in (state S.Store conn.old).now.trees))) }
    ensures asks { Asks S.Store conn.old conn.new result }
{
    let rows = clerks::all_clerks(alloc, conn)?;
    Ok(are_clerks(rows.as_slice()))
}

/// Whether the rows of the maildrops are sound: 1,000 at most, and each name has its form.
pub(crate) fn are_maildrops_sound<S: Alter>(
    alloc: Global,
    conn: &mut Connection<S>,
) -> Result<bool, Error>
    ensures judged { HasCleanDisk (state S.Store conn.new) → HasTables (state S.Store conn.old)
        → AreApart (rows_in (state S.Store conn.old).now.trees)
        → IfOk result (Finds (MaildropsAre (rows_in (state S.Store conn.old).now.trees))) }
    ensures asks { Asks S.Store conn.old conn.new result }
{
    let rows = maildrops::all_maildrops(alloc, conn)?;
    Ok(are_maildrops(rows.as_slice()))
}
