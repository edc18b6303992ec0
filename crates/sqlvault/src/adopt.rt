//! Adopting a connection: its tables are made, carried over or checked.
ghost use Rattle.std.specs.Prelude.{◌≡◌, false, IfErr, Err};
ghost use Rattle.sqlite.specs.Held.{state};
ghost use Rattle.sqlite.specs.State.{HasCleanDisk};
ghost use Rattle.mailsql.specs.Uses.{marked};
ghost use Rattle.mailsql.specs.Rows.{HasTables, IsBegun, rows_in, IsKept};
ghost use Rattle.sqlvault.specs.Frame.{Asks};
ghost use Rattle.sqlvault.specs.Keeps.{version};
ghost use Rattle.sqlvault.specs.Adopts.{Adopts, Settles, IsBlank, IsKnown};
ghost use Rattle.sqlvault.specs.Moves.{Builds};
ghost use Rattle.sqlvault.specs.Adopts.{IsAdoptFault, IsForeign};
ghost use Rattle.sqlvault.specs.Adopts.{IsOfOurVersion, IsOfUnknownVersion};
ghost use Rattle.sqlvault.specs.Adopts.{IsVersionRefused};
ghost use Rattle.vault.specs.declared.fault.VaultFault.TheVariants.{NotOurs};
ghost use Rattle.sqlvault.specs.declared.refusal.Refusal.TheVariants.{Answered};
ghost use Rattle.sqlvault.specs.Carries.{HasOlder};
ghost use Rattle.sqlvault.specs.Older.{IsAllCommitted, CarriesOlder};
ghost use Rattle.sqlvault.specs.Refusals.{answer_of, told};
ghost use Rattle.sqlvault.specs.Stands.{WasClean};

use crate::carry::carry_marked;
use crate::part::are_rows_sound;
use crate::refusal::Refusal;
use crate::transaction::{begin, conclude};
use crate::version::{NEWEST, find_version, ours};
use mailsql::schema::{has_columns, has_meta_rows, is_taken};
use mailsql::{meta, tables};
use sqlite::{Alter, Connection, Error};
use std::alloc::Global;
use vault::VaultFault;

/// Makes the tables and the version row, inside a transaction.
fn fill<S: Alter>(conn: &mut Connection<S>) -> Result<(), Error>
    ensures { Builds S.Store conn.old conn.new IsBegun (λ _ rows. rows ≡ marked version) result }
{
    tables::create_tables(conn)?;
    meta::add_meta_row(conn, b"popbox", NEWEST)
}

/// Makes a store of a connection without tables, in one transaction.
fn make<S: Alter>(conn: &mut Connection<S>) -> Result<(), Refusal>
    ensures settles { HasCleanDisk (state S.Store conn.new) → IsBlank (state S.Store conn.old)
        → (state S.Store conn.old).in_transaction ≡ false
        → IsAllCommitted (state S.Store conn.old)
        → Settles (state S.Store conn.old) (state S.Store conn.new) result }
    ensures kinds { IfErr result (λ refusal. IsAdoptFault (told refusal)) }
    ensures clean { WasClean (state S.Store conn.old) (state S.Store conn.new) }
{
    begin(conn)?;
    let filled = fill(conn);
    conclude(conn, filled)
}

/// Checks that the store's one version row is ours, of our version. `OldVersion` if our version
/// row has another version, `NotOurs` if it is missing or not alone. Nothing is changed.
fn judge_meta_rows<S: Alter>(alloc: Global, conn: &mut Connection<S>) -> Result<(), Refusal>
    ensures judged { HasCleanDisk (state S.Store conn.new) → HasTables (state S.Store conn.old)
        → IsOfOurVersion (rows_in (state S.Store conn.old).now.trees) (answer_of result) }
    ensures asks { Asks S.Store conn.old conn.new result }
    ensures kinds { IfErr result (λ refusal. IsAdoptFault (told refusal)) }
    ensures unknown { HasCleanDisk (state S.Store conn.new)
        → IsOfUnknownVersion (state S.Store conn.old) → IsAllCommitted (state S.Store conn.old)
        → IsVersionRefused (state S.Store conn.old) (state S.Store conn.new) (answer_of result) }
{
    let version = find_version(alloc, conn)?;
    Ok(ours(version)?)
}

/// Checks the version row, the columns and the rows of a store that has our tables. `OldVersion` or
/// `NotOurs` if they aren't ours. Nothing is changed.
fn judge<S: Alter>(alloc: Global, conn: &mut Connection<S>) -> Result<(), Refusal>
    ensures adopted { HasCleanDisk (state S.Store conn.new)
        → (state S.Store conn.old).in_transaction ≡ false
        → IsAllCommitted (state S.Store conn.old) → IsKept (state S.Store conn.old).now
        → Adopts (state S.Store conn.old) (state S.Store conn.new) (answer_of result) }
    ensures asks { Asks S.Store conn.old conn.new result }
    ensures kinds { IfErr result (λ refusal. IsAdoptFault (told refusal)) }
    ensures unknown { HasCleanDisk (state S.Store conn.new)
        → IsOfUnknownVersion (state S.Store conn.old) → IsAllCommitted (state S.Store conn.old)
        → IsVersionRefused (state S.Store conn.old) (state S.Store conn.new) (answer_of result) }
{
    judge_meta_rows(alloc, conn)?;
    if !has_columns(conn) {
        return Err(Refusal::Answered(VaultFault::NotOurs));
    }
    let sound = are_rows_sound(alloc, conn)?;
    if !sound {
        return Err(Refusal::Answered(VaultFault::NotOurs));
    }
    Ok(())
}

/// Makes our tables if no name of ours is taken, carries a store of version 1 or 2 over, and
/// checks a store that has our tables. `NotOurs` inside a transaction, and if a name of ours is
/// taken but there is no table of rows of `meta`.
pub(crate) fn settle<S: Alter>(alloc: Global, conn: &mut Connection<S>) -> Result<(), Refusal>
    ensures known { HasCleanDisk (state S.Store conn.new) → IsKnown (state S.Store conn.old)
        → Settles (state S.Store conn.old) (state S.Store conn.new) result }
    ensures foreign { IsForeign (state S.Store conn.old)
        → (result ≡ Err (Answered NotOurs)) × (conn.new ≡ conn.old) }
    ensures kinds { IfErr result (λ refusal. IsAdoptFault (told refusal)) }
    ensures clean { WasClean (state S.Store conn.old) (state S.Store conn.new) }
    ensures older { HasCleanDisk (state S.Store conn.new) → HasOlder (state S.Store conn.old)
        → (state S.Store conn.old).in_transaction ≡ false
        → CarriesOlder (state S.Store conn.old) (state S.Store conn.new) result }
    ensures unknown { HasCleanDisk (state S.Store conn.new)
        → IsOfUnknownVersion (state S.Store conn.old)
        → IsVersionRefused (state S.Store conn.old) (state S.Store conn.new) (answer_of result) }
{
    if !conn.is_autocommit() {
        return Err(Refusal::Answered(VaultFault::NotOurs));
    }
    if !is_taken(conn) {
        return make(conn);
    }
    if !has_meta_rows(conn) {
        return Err(Refusal::Answered(VaultFault::NotOurs));
    }
    if !has_columns(conn) {
        return carry_marked(alloc, conn);
    }
    judge(alloc, conn)
}
