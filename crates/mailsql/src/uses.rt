//! Callers over a store in memory, which show that the premises of the statements can be met.

ghost use Rattle.std.specs.Prelude.{◌≡◌, pos, IfOk, IfErr, OnOk};
ghost use Rattle.std.specs.List.{find};
ghost use Rattle.sqlite.specs.Held.{state};
ghost use Rattle.sqlite.specs.Steps.{over_memory};
ghost use Rattle.mailsql.specs.Rows.{is_sheet};
ghost use Rattle.mailsql.specs.Uses.{Stands, marked, arrived, with_sheets, Saw, FailsToOpenNew};
ghost use Rattle.mailsql.specs.Uses.{FailsToArrive, FailsToPutSheets, FailsToReadSheets};
ghost use Rattle.mailsql.specs.Uses.{FailsToSample};

use crate::rows::{Message, Sheet};
use crate::{deposits, mail, maildrops, meta, sheets, tables, transaction};
use sqlite::{Connection, Error, MemStore};
use std::alloc::Global;

/// Makes a store in memory, with empty tables and its version row. An error is want of
/// memory, or what one of the statements met.
pub fn open_new(alloc: Global, version: i64) -> Result<Connection<MemStore>, Error>
    ensures stands { IfOk result (λ conn. Stands (state over_memory conn) (marked version)) }
    ensures cause { IfErr result (FailsToOpenNew version) }
{
    let mut conn = Connection::open_in_memory(alloc)?;
    transaction::begin(&mut conn)?;
    tables::create_tables(&mut conn)?;
    meta::add_meta_row(&mut conn, b"popbox", version)?;
    transaction::commit(&mut conn)?;
    Ok(conn)
}

/// Adds a maildrop, a deposit into it and the message, and returns the message's key.
fn arrive(conn: &mut Connection<MemStore>) -> Result<i64, Error>
    ensures stands { (rows : _) → Stands (state over_memory conn.old) rows
        → IfOk result (λ key. Stands (state over_memory conn.new) (arrived key rows)) }
    ensures cause { (rows : _) → Stands (state over_memory conn.old) rows
        → IfErr result FailsToArrive }
{
    maildrops::add_maildrop(conn, b"orders")?;
    deposits::add_deposit(conn, b"orders", b"d1", b"note", 1, b"digest")?;
    mail::add_message(conn, b"orders", b"note", 1, 4097)
}

fn put_sheets(
    conn: &mut Connection<MemStore>,
    key: i64,
    first: &[u8],
    second: &[u8],
) -> Result<(), Error>
    ensures stands { (rows : _) → Stands (state over_memory conn.old) rows
        → OnOk result (Stands (state over_memory conn.new)
        (with_sheets key first.now second.now rows)) }
    ensures cause { (rows : _) → Stands (state over_memory conn.old) rows
        → IfErr result (FailsToPutSheets key first.now second.now) }
{
    sheets::add_sheet(conn, key, 0, first)?;
    sheets::add_sheet(conn, key, 1, second)
}

/// The two sheets of a message.
#[derive(Drop)]
pub struct Sheets {
    pub first: Option<Sheet>,
    pub second: Option<Sheet>,
}

fn read_sheets(alloc: Global, conn: &mut Connection<MemStore>, key: i64) -> Result<Sheets, Error>
    ensures found { (rows : _) → Stands (state over_memory conn.old) rows
        → IfOk result (λ both. (both.first ≡ find (is_sheet key (pos 0)) rows.sheets)
        × (both.second ≡ find (is_sheet key (pos 1)) rows.sheets)) }
    ensures same { (rows : _) → Stands (state over_memory conn.old) rows
        → OnOk result (Stands (state over_memory conn.new) rows) }
    ensures cause { (rows : _) → Stands (state over_memory conn.old) rows
        → IfErr result (FailsToReadSheets key) }
{
    let first = sheets::find_sheet(alloc, conn, key, 0)?;
    let second = sheets::find_sheet(alloc, conn, key, 1)?;
    Ok(Sheets { first, second })
}

/// What `sample` saw: its message's head and sheets, and the sheets after the removal.
#[derive(Drop)]
pub struct Seen {
    pub key: i64,
    pub heads: Vec<Message>,
    pub before: Sheets,
    pub after: Sheets,
}

/// Adds a maildrop, a deposit and a message of two sheets, reads its head and its sheets, removes
/// it, and looks for its sheets. An error is what one of these steps met.
pub fn sample(alloc: Global, first: &[u8], second: &[u8]) -> Result<Seen, Error>
    ensures saw { IfOk result (Saw first.now second.now) }
    ensures cause { IfErr result (FailsToSample first.now second.now) }
{
    let mut conn = open_new(alloc, 2)?;
    let key = arrive(&mut conn)?;
    put_sheets(&mut conn, key, first, second)?;
    let heads = mail::heads(alloc, &mut conn, b"orders")?;
    let before = read_sheets(alloc, &mut conn, key)?;
    mail::remove_message(&mut conn, key, b"orders")?;
    let after = read_sheets(alloc, &mut conn, key)?;
    Ok(Seen {
        key,
        heads,
        before,
        after,
    })
}
