//! Which version a store is of.
ghost use Rattle.std.specs.Prelude.{◌≡◌, ◌⊎◌, ℤ, true, false, Err, IfOk, IfErr};
ghost use Rattle.sqlite.specs.Held.{state};
ghost use Rattle.sqlite.specs.State.{HasCleanDisk};
ghost use Rattle.mailsql.specs.Rows.{Rows, HasTables, HasOldTables, rows_in};
ghost use Rattle.vault.specs.declared.fault.VaultFault.TheVariants.{OldVersion};
ghost use Rattle.sqlvault.specs.declared.version.StoreVersion.TheVariants.{Unknown};
ghost use Rattle.sqlvault.specs.Adopts.{IsAdoptFault, IsOfUnknownVersion, IsOfOurVersion};
ghost use Rattle.sqlvault.specs.Carries.{IsOfOlderVersion};
ghost use Rattle.sqlvault.specs.Frame.{Asks};
ghost use Rattle.sqlvault.specs.Older.{AsksOlder, IsAllCommitted};
ghost use Rattle.sqlvault.specs.Versions.{IsVersion, IsNoVersion, Tells, TellsUnknown};

use mailsql::meta;
use mailsql::tables::OlderVersion;
use sqlite::{Alter, Connection, Error};
use std::alloc::Global;
use vault::VaultFault;

/// The version of the layout of the tables, which a new store has.
pub const NEWEST: i64 = 3;

/// Version 1 of the layout, the oldest.
pub const OLDEST: i64 = 1;

/// Version 2 of the layout.
const SECOND: i64 = 2;

/// What a store's table `meta` says of its version.
#[derive(Clone, Copy, Debug, PartialEq, Eq)]
pub enum StoreVersion {
    /// It has no version row.
    Missing,
    /// The version row has a number that is none of the versions 1, 2 and 3.
    Unknown(i64),
    /// The version row has one of these versions, and another row stands beside it.
    Beside(i64),
    /// The version row has one of these versions, and is the only row.
    Alone(i64),
}

/// Whether the number is one of the versions 1, 2 and 3.
fn is_version(value: i64) -> bool
    ensures known { result ≡ true → IsVersion value }
    ensures unknown { result ≡ false → IsNoVersion value }
{
    matches!(value, OLDEST | SECOND | NEWEST)
}

/// What a store that has our table `meta` says of its version. Nothing is changed. The error is a
/// statement's, or that memory ran out.
pub fn find_version<S: Alter>(
    alloc: Global,
    conn: &mut Connection<S>,
) -> Result<StoreVersion, Error>
    ensures told { HasCleanDisk (state S.Store conn.new)
        → HasTables (state S.Store conn.old) ⊎ HasOldTables (state S.Store conn.old)
        → IfOk result (Tells (rows_in (state S.Store conn.old).now.trees)) }
    ensures unknown { HasCleanDisk (state S.Store conn.new)
        → IsOfUnknownVersion (state S.Store conn.old) → IsAllCommitted (state S.Store conn.old)
        → TellsUnknown (state S.Store conn.old) (state S.Store conn.new) result }
    ensures asks { Asks S.Store conn.old conn.new result }
    ensures asks_older { AsksOlder S.Store conn.old conn.new result }
{
    let Some(meta_row) = meta::find_meta_row(alloc, conn, b"popbox")? else {
        return Ok(StoreVersion::Missing);
    };
    let value = meta_row.value;
    if !is_version(value) {
        return Ok(StoreVersion::Unknown(value));
    }
    let meta_rows = meta::all_meta_rows(alloc, conn)?;
    if meta_rows.len() == 1 {
        Ok(StoreVersion::Alone(value))
    } else {
        Ok(StoreVersion::Beside(value))
    }
}

/// That a store is of our version. `OldVersion` if its version row has another, `NotOurs` if
/// that is missing or not alone.
pub(crate) fn ours(version: StoreVersion) -> Result<(), VaultFault>
    ensures judged { (rows : Rows) → Tells rows version → IsOfOurVersion rows result }
    ensures kinds { IfErr result IsAdoptFault }
    ensures unknown { (value : ℤ) → version ≡ Unknown value → result ≡ Err OldVersion }
{
    match version {
        StoreVersion::Missing => Err(VaultFault::NotOurs),
        StoreVersion::Unknown(_) => Err(VaultFault::OldVersion),
        StoreVersion::Beside(value) => {
            if value == NEWEST {
                Err(VaultFault::NotOurs)
            } else {
                Err(VaultFault::OldVersion)
            }
        }
        StoreVersion::Alone(value) => {
            if value == NEWEST {
                Ok(())
            } else {
                Err(VaultFault::OldVersion)
            }
        }
    }
}

/// The older version that a store is of. `OldVersion` if its version row has an unknown version;
/// `NotOurs` if it has ours, is missing or isn't alone.
pub(crate) fn older(version: StoreVersion) -> Result<OlderVersion, VaultFault>
    ensures judged { (rows : Rows) → Tells rows version → IsOfOlderVersion rows result }
    ensures kinds { IfErr result IsAdoptFault }
    ensures unknown { (value : ℤ) → version ≡ Unknown value → result ≡ Err OldVersion }
{
    match version {
        StoreVersion::Missing => Err(VaultFault::NotOurs),
        StoreVersion::Unknown(_) => Err(VaultFault::OldVersion),
        StoreVersion::Beside(_) => Err(VaultFault::NotOurs),
        StoreVersion::Alone(value) => {
            if value == OLDEST {
                Ok(OlderVersion::First)
            } else if value == SECOND {
                Ok(OlderVersion::Second)
            } else {
                Err(VaultFault::NotOurs)
            }
        }
    }
}
