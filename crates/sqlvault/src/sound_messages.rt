//! Whether the rows of the messages and of their sheets are sound records.
ghost use Rattle.std.specs.Prelude.{◌≡◌, ◌^◌, ◌-◌, IfOk, List, min, sum_by, All};
ghost use Rattle.sqlite.specs.Held.{state};
ghost use Rattle.sqlite.specs.State.{HasCleanDisk};
ghost use Rattle.vault.specs.declared.record.Receipt as vault;
ghost use Rattle.mailsql.specs.Rows.{HasTables, rows_in};
ghost use Rattle.mailsql.specs.Apart.{AreApart};
ghost use Rattle.sqlvault.specs.Frame.{Asks, Reads};
ghost use Rattle.sqlvault.specs.Parts.{Finds, MaildropsAre, DepositsAre, MessagesAre};
ghost use Rattle.sqlvault.specs.Stored.{Tells, Counts, Brings, IsPiece, HasText, is_kept_text};
ghost use Rattle.sqlvault.specs.Stored.{IsNumber, IsStored, HasMessage, sheets_in, IsSoundIn};
ghost use Rattle.sqlvault.specs.Stored.{sheets_under};

use crate::deposit::MAX_MESSAGES;
use mailsql::rows::{Message, Sheet};
use mailsql::sheets::{self, SHEET_OCTETS};
use mailsql::{counts, mail, maildrops};
use mailtext::MAX_OCTETS;
use sqlite::{Alter, Connection, Error};
use sqlite_value::value::Bytes;
use std::alloc::Global;

/// The sheet of message `mail` at this place, if it is there and has `size` octets.
fn find_piece<S: Alter>(
    alloc: Global,
    conn: &mut Connection<S>,
    mail: i64,
    place: u32,
    size: usize,
) -> Result<Option<Sheet>, Error>
    ensures judged { HasCleanDisk (state S.Store conn.new) → HasTables (state S.Store conn.old)
        → IfOk result (Brings (λ s. s.octets) (IsPiece (rows_in (state S.Store conn.old).now.trees)
        mail place size)) }
    ensures reads { Reads S.Store conn.old conn.new result }
{
    let Some(sheet) = sheets::find_sheet(alloc, conn, mail, i64::from(place))? else {
        return Ok(None);
    };
    if sheet.octets.as_slice().len() == size {
        Ok(Some(sheet))
    } else {
        Ok(None)
    }
}

/// The text of message `mail`, if its sheets are there and make up `octets` octets.
fn find_text<S: Alter>(
    alloc: Global,
    conn: &mut Connection<S>,
    mail: i64,
    octets: u32,
) -> Result<Option<Vec<u8>>, Error>
    ensures judged { HasCleanDisk (state S.Store conn.new) → HasTables (state S.Store conn.old)
        → IfOk result (Brings (λ text. text.items)
        (HasText (rows_in (state S.Store conn.old).now.trees) mail octets)) }
    ensures reads { Reads S.Store conn.old conn.new result }
{
    let long = octets as usize;
    let mut text = Vec::with_capacity(alloc, long)?;
    for place in 0..long.div_ceil(SHEET_OCTETS) {
        let size = SHEET_OCTETS.min(long - place * SHEET_OCTETS);
        let Some(sheet) = find_piece(alloc, conn, mail, place as u32, size)? else {
            return Ok(None);
        };
        text.extend_from_slice(sheet.octets.as_slice())?;
    }
    Ok(Some(text))
}

/// Whether the octets are a text in its kept form, of 1 to 26,214,400 octets.
fn is_kept(text: &[u8]) -> bool
    ensures { result ≡ is_kept_text text.now }
{
    mailtext::is_kept(text)
}

/// Whether the row's number is one of 1 to the count of its class.
fn is_numbered<S: Alter>(
    alloc: Global,
    conn: &mut Connection<S>,
    row: &Message,
) -> Result<bool, Error>
    ensures judged { (deposits : List vault.Receipt) → HasCleanDisk (state S.Store conn.new)
        → HasTables (state S.Store conn.old) → DepositsAre
        (rows_in (state S.Store conn.old).now.trees) deposits
        → IfOk result (Finds (IsNumber deposits row.now)) }
    ensures reads { Reads S.Store conn.old conn.new result }
{
    let count = counts::find_count(alloc, conn, row.maildrop.as_slice(), row.class.as_slice())?;
    let Some(count) = count else {
        return Ok(false);
    };
    if row.k < 1 {
        return Ok(false);
    }
    if row.k > count.k {
        return Ok(false);
    }
    Ok(true)
}

/// Whether the row is that of a message whose sheets are there.
fn is_message_sound<S: Alter>(
    alloc: Global,
    conn: &mut Connection<S>,
    row: &Message,
) -> Result<bool, Error>
    ensures judged { (deposits : List vault.Receipt) → HasCleanDisk (state S.Store conn.new)
        → HasTables (state S.Store conn.old) → DepositsAre
        (rows_in (state S.Store conn.old).now.trees) deposits
        → IfOk result (Finds (IsStored (rows_in (state S.Store conn.old).now.trees) deposits
        row.now)) }
    ensures reads { Reads S.Store conn.old conn.new result }
{
    let numbered = is_numbered(alloc, conn, row)?;
    if !numbered {
        return Ok(false);
    }
    if row.octets < 0 {
        return Ok(false);
    }
    if row.octets > MAX_OCTETS as i64 {
        return Ok(false);
    }
    match find_text(alloc, conn, row.key, row.octets as u32)? {
        Some(text) => Ok(is_kept(&text)),
        None => Ok(false),
    }
}

/// Whether each of these rows is that of a message whose sheets are there.
fn are_all_sound<S: Alter>(
    alloc: Global,
    conn: &mut Connection<S>,
    rows: &[Message],
) -> Result<bool, Error>
    ensures judged { (deposits : List vault.Receipt) → HasCleanDisk (state S.Store conn.new)
        → HasTables (state S.Store conn.old) → DepositsAre
        (rows_in (state S.Store conn.old).now.trees) deposits
        → IfOk result (Tells (All (HasMessage (rows_in (state S.Store conn.old).now.trees) deposits)
        rows.now)) }
    ensures reads { Reads S.Store conn.old conn.new result }
{
    for row in rows {
        let sound = is_message_sound(alloc, conn, row)?;
        if !sound {
            return Ok(false);
        }
    }
    Ok(true)
}

/// How many sheets the messages of the rows have, 2^64 - 1 at most.
fn count_sheets(rows: &[Message]) -> u64
    ensures { result ≡ min (sum_by sheets_in rows.now) (2 ^ 64 - 1) }
{
    let mut sheets: u64 = 0;
    for row in rows {
        let octets = row.octets.cast_unsigned();
        sheets = sheets.saturating_add(octets.div_ceil(SHEET_OCTETS as u64));
    }
    sheets
}

/// How many sheets the messages of the maildrop have, 2^64 - 1 at most; `None` if its rows
/// aren't sound.
fn judge_maildrop<S: Alter>(
    alloc: Global,
    conn: &mut Connection<S>,
    name: &[u8],
) -> Result<Option<u64>, Error>
    ensures judged { (deposits : List vault.Receipt) → HasCleanDisk (state S.Store conn.new)
        → HasTables (state S.Store conn.old) → DepositsAre
        (rows_in (state S.Store conn.old).now.trees) deposits
        → IfOk result (Counts (IsSoundIn (rows_in (state S.Store conn.old).now.trees) deposits
        name.now) (sheets_under (rows_in (state S.Store conn.old).now.trees) name.now)) }
    ensures reads { Reads S.Store conn.old conn.new result }
{
    let rows = mail::heads(alloc, conn, name)?;
    if rows.len() as u64 > MAX_MESSAGES {
        return Ok(None);
    }
    let sound = are_all_sound(alloc, conn, rows.as_slice())?;
    if !sound {
        return Ok(None);
    }
    Ok(Some(count_sheets(rows.as_slice())))
}

/// How many sheets the messages of these maildrops have, 2^64 - 1 at most; `None` if the rows of
/// one aren't sound.
fn judge_maildrops<S: Alter>(
    alloc: Global,
    conn: &mut Connection<S>,
    names: &[Bytes],
) -> Result<Option<u64>, Error>
    ensures judged { (deposits : List vault.Receipt) → HasCleanDisk (state S.Store conn.new)
        → HasTables (state S.Store conn.old) → DepositsAre
        (rows_in (state S.Store conn.old).now.trees) deposits
        → IfOk result (Counts (All (IsSoundIn (rows_in (state S.Store conn.old).now.trees) deposits)
        names.now) (sum_by (sheets_under (rows_in (state S.Store conn.old).now.trees)) names.now)) }
    ensures reads { Reads S.Store conn.old conn.new result }
{
    let mut sheets: u64 = 0;
    for name in names {
        let Some(more) = judge_maildrop(alloc, conn, name.as_slice())? else {
            return Ok(None);
        };
        sheets = sheets.saturating_add(more);
    }
    Ok(Some(sheets))
}

/// Whether the rows of the messages and sheets are sound: each message has a deposit of its class
/// and number, and its sheets are a text in its kept form with as many octets as the row says; no
/// maildrop has more than 10,000 messages; and there is no other sheet.
pub(crate) fn are_messages_sound<S: Alter>(
    alloc: Global,
    conn: &mut Connection<S>,
) -> Result<bool, Error>
    ensures judged { (deposits : List vault.Receipt) → HasCleanDisk (state S.Store conn.new)
        → HasTables (state S.Store conn.old) → AreApart (rows_in (state S.Store conn.old).now.trees)
        → MaildropsAre (rows_in (state S.Store conn.old).now.trees)
        (rows_in (state S.Store conn.old).now.trees).maildrops
        → DepositsAre (rows_in (state S.Store conn.old).now.trees) deposits
        → IfOk result (Finds (MessagesAre (rows_in (state S.Store conn.old).now.trees) deposits)) }
    ensures asks { Asks S.Store conn.old conn.new result }
{
    let names = maildrops::all_maildrops(alloc, conn)?;
    let Some(sheets) = judge_maildrops(alloc, conn, names.as_slice())? else {
        return Ok(false);
    };
    let count = sheets::sheet_count(conn)?;
    Ok(count == sheets)
}
