//! The receipts of all deposits.
ghost use Rattle.std.specs.Prelude.{◌≡◌, true, List, Ok, map, IfOk};
ghost use Rattle.std.specs.List.{list_all};
ghost use Rattle.sqlite.specs.Held.{state};
ghost use Rattle.sqlite.specs.State.{HasCleanDisk};
ghost use Rattle.vault.specs.declared.record.Receipt as vault;
ghost use Rattle.vault.specs.Changes.{Contents};
ghost use Rattle.vault.specs.Calls.{seen_as};
ghost use Rattle.sqlvault.specs.Keeps.{deposit_row};
ghost use Rattle.sqlvault.specs.Receipts.{is_formed, AreReceipts};
ghost use Rattle.sqlvault.specs.Refusals.{answer_of};
ghost use Rattle.sqlvault.specs.Frame.{IsMet, Looks};
ghost use Rattle.sqlvault.specs.Stands.{Holds};

use crate::clerks::digest_of;
use crate::deposit::read_number;
use crate::refusal::{Refusal, unreadable};
use creds::{DepositId, Name};
use mailsql::deposits;
use mailsql::rows::Deposit;
use sqlite::{Alter, Connection, Error};
use std::alloc::Global;
use vault::Receipt;

/// The receipt of a deposit's row. An error if the row isn't a deposit's, which doesn't happen in a
/// sound store.
fn read_receipt(row: &Deposit) -> Result<Receipt, Error>
    ensures { (r : vault.Receipt) → row.now ≡ deposit_row r → is_formed r ≡ true → result ≡ Ok r }
{
    let Some(maildrop) = Name::read(row.maildrop.as_slice()) else {
        return Err(unreadable());
    };
    let Some(id) = DepositId::read(row.id.as_slice()) else {
        return Err(unreadable());
    };
    let Some(class) = Name::read(row.class.as_slice()) else {
        return Err(unreadable());
    };
    let k = read_number(row.k)?;
    let octets = row.digest.as_slice();
    if octets.len() != 32 {
        return Err(unreadable());
    }
    Ok(Receipt {
        maildrop,
        id,
        class,
        k,
        digest: digest_of(octets),
    })
}

/// The receipts of the rows, in the order of the rows.
fn read_receipts(alloc: Global, rows: &[Deposit]) -> Result<Vec<Receipt>, Error>
    ensures { (rs : List vault.Receipt) → rows.now ≡ map deposit_row rs
        → list_all is_formed rs ≡ true → IfOk result (λ read. read.items ≡ rs) }
{
    let mut receipts = Vec::new(alloc);
    for row in rows {
        let receipt = read_receipt(row)?;
        receipts.extend_from_slice(&[receipt])?;
    }
    Ok(receipts)
}

/// The receipts of all deposits that were ever accepted, in the order of the deposits. Nothing is
/// changed.
///
/// An `Err` is the error that the query met.
pub(crate) fn receipts<S: Alter>(
    alloc: Global,
    conn: &mut Connection<S>,
) -> Result<Vec<Receipt>, Refusal>
    ensures done { (c : Contents) → HasCleanDisk (state S.Store conn.new)
        → Holds (state S.Store conn.old) c → AreReceipts (Holds (state S.Store conn.new)) c
        (seen_as (answer_of result) (λ v. v.items)) }
    ensures looks { Looks S.Store conn.old conn.new (IsMet result) }
{
    let rows = deposits::all_deposits(alloc, conn)?;
    Ok(read_receipts(alloc, rows.as_slice())?)
}
