//! Carrying an older store over.
ghost use Rattle.std.specs.Prelude.{◌≡◌, true, false, Bool, IfErr};
ghost use Rattle.sqlite.specs.Held.{state};
ghost use Rattle.sqlite.specs.State.{HasCleanDisk};
ghost use Rattle.mailsql.specs.Tables.{old_schema};
ghost use Rattle.mailsql.specs.OlderVersions.{is_first};
ghost use Rattle.mailsql.specs.Rows.{HasOldTables, rows_in};
ghost use Rattle.sqlvault.specs.Adopts.{IsAdoptFault, IsOfUnknownVersion, IsVersionRefused};
ghost use Rattle.sqlvault.specs.Carries.{HasOlder, IsOlder, IsOfRows, IsOfOlderVersion};
ghost use Rattle.sqlvault.specs.Moves.{Builds};
ghost use Rattle.sqlvault.specs.Older.{IsAllCommitted, IsBegunOlder, Brings};
ghost use Rattle.sqlvault.specs.Older.{AsksOlder, CarriesOlder};
ghost use Rattle.sqlvault.specs.Refusals.{answer_of, told};
ghost use Rattle.sqlvault.specs.Stands.{WasClean};
ghost use Rattle.sqlvault.specs.Transactions.{Undoes};

use crate::moves::move_old;
use crate::part::are_rows_sound;
use crate::refusal::Refusal;
use crate::transaction::{begin, conclude, roll_back, undo};
use crate::version::{NEWEST, find_version, older};
use mailsql::schema::{has_first_columns, has_second_columns};
use mailsql::tables::OlderVersion;
use mailsql::{meta, tables};
use sqlite::{Alter, Connection, Error};
use std::alloc::Global;
use vault::VaultFault;

/// Brings an older store to our version, inside a transaction: makes the tables that it lacks,
/// moves the messages of version 1, and puts our version row in place of its own.
fn bring<S: Alter>(
    alloc: Global,
    conn: &mut Connection<S>,
    version: OlderVersion,
) -> Result<(), Error>
    ensures { Builds S.Store conn.old conn.new (IsBegunOlder (is_first version))
        (Brings (is_first version)) result }
{
    tables::complete_tables(conn, version)?;
    move_old(alloc, conn, version)?;
    meta::put_meta_row(conn, b"popbox", NEWEST)
}

/// Carries an older store over, in one transaction. Its contents stay, and all its rows are read
/// once: `NotOurs` if they aren't sound records. After any refusal the store is as it was.
pub(crate) fn carry<S: Alter>(
    alloc: Global,
    conn: &mut Connection<S>,
    version: OlderVersion,
) -> Result<(), Refusal>
    ensures turns { HasCleanDisk (state S.Store conn.new)
        → IsOlder (is_first version) (state S.Store conn.old)
        → CarriesOlder (state S.Store conn.old) (state S.Store conn.new) result }
    ensures kinds { IfErr result (λ refusal. IsAdoptFault (told refusal)) }
    ensures clean { WasClean (state S.Store conn.old) (state S.Store conn.new) }
{
    begin(conn)?;
    match bring(alloc, conn, version) {
        Ok(()) => {}
        Err(error) => return Err(Refusal::Met(undo(conn, error))),
    }
    match are_rows_sound(alloc, conn) {
        Ok(true) => {}
        Ok(false) => return Err(unsound(conn)),
        Err(error) => return Err(Refusal::Met(undo(conn, error))),
    }
    conclude(conn, Ok(()))
}

/// Rolls back a transaction whose rows aren't sound records. `NotOurs`, or the rollback's error.
fn unsound<S: Alter>(conn: &mut Connection<S>) -> Refusal
    ensures undoes { Undoes S.Store conn.old conn.new }
    ensures kinds { IsOfRows (told result) }
{
    match roll_back(conn) {
        Ok(()) => Refusal::Answered(VaultFault::NotOurs),
        Err(error) => Refusal::Met(error),
    }
}

/// The older version of the store's one version row. `OldVersion` if our version row has an unknown
/// version; `NotOurs` if it has our version, is missing or isn't alone.
fn find_older<S: Alter>(alloc: Global, conn: &mut Connection<S>) -> Result<OlderVersion, Refusal>
    ensures asks { AsksOlder S.Store conn.old conn.new result }
    ensures judged { HasCleanDisk (state S.Store conn.new) → HasOldTables (state S.Store conn.old)
        → IsOfOlderVersion (rows_in (state S.Store conn.old).now.trees) (answer_of result) }
    ensures kinds { IfErr result (λ refusal. IsAdoptFault (told refusal)) }
    ensures unknown { HasCleanDisk (state S.Store conn.new)
        → IsOfUnknownVersion (state S.Store conn.old) → IsAllCommitted (state S.Store conn.old)
        → IsVersionRefused (state S.Store conn.old) (state S.Store conn.new) (answer_of result) }
{
    let version = find_version(alloc, conn)?;
    Ok(older(version)?)
}

/// Whether the store has the tables of this version.
fn has_older_columns<S: Alter>(conn: &Connection<S>, version: OlderVersion) -> bool
    ensures fits { (state S.Store conn.now).now.schema ≡ old_schema (is_first version)
        → result ≡ true }
    ensures order { (c : Bool) → (state S.Store conn.now).now.schema ≡ old_schema c
        → result ≡ true → c ≡ is_first version }
{
    match version {
        OlderVersion::First => has_first_columns(conn),
        OlderVersion::Second => has_second_columns(conn),
    }
}

/// Carries a store without all our tables over, if its tables and its one version row are those
/// of an older version. Else `OldVersion` for a version row of ours of an unknown version, or
/// `NotOurs`.
pub(crate) fn carry_marked<S: Alter>(alloc: Global, conn: &mut Connection<S>) -> Result<(), Refusal>
    ensures turns { HasCleanDisk (state S.Store conn.new) → HasOlder (state S.Store conn.old)
        → (state S.Store conn.old).in_transaction ≡ false
        → IsAllCommitted (state S.Store conn.old)
        → CarriesOlder (state S.Store conn.old) (state S.Store conn.new) result }
    ensures kinds { IfErr result (λ refusal. IsAdoptFault (told refusal)) }
    ensures clean { WasClean (state S.Store conn.old) (state S.Store conn.new) }
    ensures unknown { HasCleanDisk (state S.Store conn.new)
        → IsOfUnknownVersion (state S.Store conn.old) → IsAllCommitted (state S.Store conn.old)
        → IsVersionRefused (state S.Store conn.old) (state S.Store conn.new) (answer_of result) }
{
    let version = find_older(alloc, conn)?;
    if !has_older_columns(conn, version) {
        return Err(Refusal::Answered(VaultFault::NotOurs));
    }
    carry(alloc, conn, version)
}
