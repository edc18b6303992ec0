//! The maildrops, with their messages and octets.
ghost use Rattle.std.specs.Prelude.{◌≡◌, ◌^◌, ◌-◌, true, List, [], ◌∷◌, ◌++◌, length, map, min};
ghost use Rattle.std.specs.Prelude.{sum_by, IfOk, OnOk};
ghost use Rattle.std.specs.List.{list_all};
ghost use Rattle.sqlite.specs.Held.{state};
ghost use Rattle.sqlite.specs.State.{HasCleanDisk};
ghost use Rattle.creds.specs.Names.{is_name, by_name};
ghost use Rattle.vault.specs.declared.record.Keyed.{Keyed};
ghost use Rattle.vault.specs.Changes.{Contents};
ghost use Rattle.vault.specs.Calls.{AreTotals, seen_as};
ghost use Rattle.vault.specs.Plain.{capped_total};
ghost use Rattle.sqlvault.specs.Keeps.{message_row};
ghost use Rattle.sqlvault.specs.Refusals.{answer_of};
ghost use Rattle.sqlvault.specs.Frame.{IsOk, IsMet, Looks};
ghost use Rattle.sqlvault.specs.Stands.{Holds};

use crate::mail::rows_of;
use crate::refusal::{Refusal, unreadable};
use creds::Name;
use mailsql::maildrops;
use mailsql::rows::Message;
use sqlite::{Alter, Connection, Error};
use sqlite_value::value::Bytes;
use std::alloc::Global;
use vault::{Total, in_order};

/// Adds the name of a row after the others.
pub(crate) fn push_name(names: &mut Vec<Name>, row: &Bytes) -> Result<(), Error>
    ensures { is_name row.now ≡ true → OnOk result
        (names.new.items ≡ names.old.items ++ row.now ∷ []) }
{
    let Some(name) = Name::read(row.as_slice()) else {
        return Err(unreadable());
    };
    Ok(names.push(name)?)
}

/// The names of the rows.
fn read_names(alloc: Global, rows: &[Bytes]) -> Result<Vec<Name>, Error>
    ensures { list_all is_name rows.now ≡ true → IfOk result (λ read. read.items ≡ rows.now) }
{
    let mut names = Vec::new(alloc);
    for row in rows {
        push_name(&mut names, row)?;
    }
    Ok(names)
}

/// The names of the maildrops, in order.
fn names<S: Alter>(alloc: Global, conn: &mut Connection<S>) -> Result<Vec<Name>, Error>
    ensures names { (c : Contents) → HasCleanDisk (state S.Store conn.new)
        → Holds (state S.Store conn.old) c
        → IfOk result (λ names. names.items ≡ by_name c.maildrops) }
    ensures looks { Looks S.Store conn.old conn.new (IsOk result) }
{
    let rows = maildrops::all_maildrops(alloc, conn)?;
    let names = read_names(alloc, rows.as_slice())?;
    Ok(in_order(alloc, &names)?)
}

/// The octets of the messages of the rows, 2^64 - 1 at most.
fn octets_of(rows: &[Message]) -> u64
    ensures { (ms : List Keyed) → rows.now ≡ map message_row ms
        → result ≡ min (sum_by (λ x. length x.message.text) ms) (2 ^ 64 - 1) }
{
    let mut octets: u64 = 0;
    for row in rows {
        octets = octets.saturating_add(row.octets.cast_unsigned());
    }
    octets
}

/// The number of the maildrop's messages, and the sum of their octets, 2^64 - 1 at most.
fn total_of<S: Alter>(alloc: Global, conn: &mut Connection<S>, name: &Name) -> Result<Total, Error>
    ensures total { (c : Contents) → HasCleanDisk (state S.Store conn.new)
        → Holds (state S.Store conn.old) c
        → IfOk result (λ total. total ≡ capped_total c.messages name.now) }
    ensures looks { Looks S.Store conn.old conn.new (IsOk result) }
{
    let rows = rows_of(alloc, conn, name)?;
    Ok(Total {
        maildrop: *name,
        messages: rows.len() as u64,
        octets: octets_of(rows.as_slice()),
    })
}

/// The total of each of these maildrops, in order.
fn totals_of<S: Alter>(
    alloc: Global,
    conn: &mut Connection<S>,
    names: &[Name],
) -> Result<Vec<Total>, Error>
    ensures totals { (c : Contents) → HasCleanDisk (state S.Store conn.new)
        → Holds (state S.Store conn.old) c
        → IfOk result (λ totals. totals.items ≡ map (capped_total c.messages) names.now) }
    ensures looks { Looks S.Store conn.old conn.new (IsOk result) }
{
    let mut totals = Vec::new(alloc);
    for name in names {
        let total = total_of(alloc, conn, name)?;
        totals.push(total)?;
    }
    Ok(totals)
}

/// Each maildrop with the number of its messages and their octets, in order of the names.
pub(crate) fn maildrops<S: Alter>(
    alloc: Global,
    conn: &mut Connection<S>,
) -> Result<Vec<Total>, Refusal>
    ensures done { (c : Contents) → HasCleanDisk (state S.Store conn.new)
        → Holds (state S.Store conn.old) c → AreTotals (Holds (state S.Store conn.new)) c
        (seen_as (answer_of result) (λ v. v.items)) }
    ensures looks { Looks S.Store conn.old conn.new (IsMet result) }
{
    let names = names(alloc, conn)?;
    Ok(totals_of(alloc, conn, &names)?)
}
