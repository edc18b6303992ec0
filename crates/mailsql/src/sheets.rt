//! The sheets of the messages, each of 1 to 4,096 octets.

ghost use Rattle.std.specs.Prelude.{◌≡◌, ◌<◌, pos, IsTrue, min, length, filter, IfOk, IfErr, OnOk};
ghost use Rattle.std.specs.Prelude.{OnErr, [], ◌∷◌};
ghost use Rattle.std.specs.List.{find};
ghost use Rattle.sqlite.specs.Held.{state};
ghost use Rattle.sqlite.specs.State.{HasCleanDisk, IsUnchanged, Survives};
ghost use Rattle.mailsql.specs.Changes as changes;
ghost use Rattle.mailsql.specs.Rows as rows;
ghost use Rattle.mailsql.specs.Rows.{IsOurs, IsReady, HasTables, MayLeave, Changes, IsUndone};
ghost use Rattle.mailsql.specs.Rows.{IsHalted, rows_in};
ghost use Rattle.mailsql.specs.Sheets as cut;
ghost use Rattle.mailsql.specs.Sheets.{SheetsAreTheText};
ghost use Rattle.sqlite_value.specs.declared.value.Value.TheVariants.{Int, Blob};
ghost use Rattle.mailsql.specs.Errors.{FailsToRun, FailsToAddSheets, FailsToAddRest};
ghost use Rattle.mailsql.specs.Errors.{FailsToRead, FailsToCount};
ghost use Rattle.mailsql.specs.Statements.{add_sheet_text, find_sheet_text, sheets_between_text};
ghost use Rattle.mailsql.specs.Statements.{sheet_count_text};

use crate::rows::Sheet;
use crate::run::{count, first, list, run};
use sqlite::{Alter, Connection, Error};
use sqlite_value::value::ValueRef;
use std::alloc::Global;

/// The octets of a whole sheet. Only the last sheet of a message may have fewer.
pub const SHEET_OCTETS: usize = 4096;

/// Adds a sheet of a message, at this place. The tables refuse a message that isn't there, and a
/// place that it has.
pub fn add_sheet<S: Alter>(
    conn: &mut Connection<S>,
    mail: i64,
    place: i64,
    octets: &[u8],
) -> Result<(), Error>
    ensures ok { HasCleanDisk (state S.Store conn.new) → IsReady (state S.Store conn.old)
        → OnOk result (Changes (changes.AddsSheet
        (record { mail = mail; place = place; octets = octets.now })) (state S.Store conn.old)
        (state S.Store conn.new)) }
    ensures err { HasCleanDisk (state S.Store conn.new)
        → OnErr result (IsUndone (state S.Store conn.old) (state S.Store conn.new)) }
    ensures cause { HasCleanDisk (state S.Store conn.new)
        → IfErr result (FailsToRun add_sheet_text (Int mail ∷ Int place ∷ Blob octets.now ∷ [])
        (state S.Store conn.old) (state S.Store conn.new)) }
    ensures survives { Survives (state S.Store conn.old) (state S.Store conn.new)
        (MayLeave (changes.AddsSheet (record { mail = mail; place = place; octets = octets.now }))
        (state S.Store conn.old)) }
{
    run(
        conn,
        "INSERT INTO sheets (mail, place, octets) VALUES (?1, ?2, ?3)",
        &[
            ValueRef::Int(mail),
            ValueRef::Int(place),
            ValueRef::Blob(octets),
        ],
    )
}

/// How many sheets a text has.
fn count_sheets(text: &[u8]) -> usize
    ensures { result ≡ cut.sheet_count text.now }
{
    text.len().div_ceil(SHEET_OCTETS)
}

/// Adds the sheet of the text at this place, which must be below the text's number of sheets.
fn add_sheet_at<S: Alter>(
    conn: &mut Connection<S>,
    mail: i64,
    text: &[u8],
    place: usize,
) -> Result<(), Error>
    requires { place < cut.sheet_count text.now }
    ensures ok { HasCleanDisk (state S.Store conn.new) → IsReady (state S.Store conn.old)
        → OnOk result (Changes (changes.AddsSheet (cut.sheet_at mail text.now place))
        (state S.Store conn.old) (state S.Store conn.new)) }
    ensures err { HasCleanDisk (state S.Store conn.new)
        → OnErr result (IsUndone (state S.Store conn.old) (state S.Store conn.new)) }
    ensures cause { HasCleanDisk (state S.Store conn.new)
        → IfErr result (FailsToRun add_sheet_text
        (Int mail ∷ Int (pos place) ∷ Blob (cut.octets_at text.now place) ∷ [])
        (state S.Store conn.old) (state S.Store conn.new)) }
    ensures survives { Survives (state S.Store conn.old) (state S.Store conn.new)
        (MayLeave (changes.AddsSheet (cut.sheet_at mail text.now place)) (state S.Store conn.old)) }
{
    let start = place * SHEET_OCTETS;
    let end = text.len().min(start + SHEET_OCTETS);
    add_sheet(conn, mail, place as i64, &text[start..end])
}

/// Adds the sheets of a text that are left, from this place on, to a message that is there: pieces
/// of `SHEET_OCTETS` octets, the last of 1 to `SHEET_OCTETS`; none if the text has no more. It runs
/// a statement for each sheet: call it inside a transaction, so that an error between them can be
/// rolled back. Outside one, an error or a stop leaves the sheets added before it.
pub fn add_rest<S: Alter>(
    conn: &mut Connection<S>,
    mail: i64,
    text: &[u8],
    from: usize,
) -> Result<(), Error>
    ensures ok { HasCleanDisk (state S.Store conn.new) → IsReady (state S.Store conn.old)
        → OnOk result (Changes (changes.AddsRest from mail text.now) (state S.Store conn.old)
        (state S.Store conn.new)) }
    ensures err { HasCleanDisk (state S.Store conn.new) → IsReady (state S.Store conn.old)
        → IsTrue (state S.Store conn.old).in_transaction
        → OnErr result (IsHalted (state S.Store conn.old) (state S.Store conn.new)) }
    ensures cause { HasCleanDisk (state S.Store conn.new) → IsReady (state S.Store conn.old)
        → IfErr result (FailsToAddRest S.Store mail text.now from conn.old conn.new) }
    ensures survives { Survives (state S.Store conn.old) (state S.Store conn.new)
        (MayLeave (changes.AddsSomeRest from mail text.now) (state S.Store conn.old)) }
{
    // For the proof: whether a transaction is open is known.
    let _settled = conn.is_autocommit();
    for place in from..count_sheets(text) {
        match add_sheet_at(conn, mail, text, place) {
            Ok(()) => {}
            Err(error) => return Err(error),
        }
    }
    Ok(())
}

/// Adds the sheets of a text to a message that is there and has none: pieces of `SHEET_OCTETS`
/// octets, the last of 1 to `SHEET_OCTETS`, at places counted from 0; none for an empty text. It
/// runs a statement for each sheet: call it inside a transaction, so that an error between them can
/// be rolled back. Outside one, an error or a stop leaves the sheets added before it.
pub fn add_sheets<S: Alter>(conn: &mut Connection<S>, mail: i64, text: &[u8]) -> Result<(), Error>
    ensures ok { HasCleanDisk (state S.Store conn.new) → IsReady (state S.Store conn.old)
        → OnOk result (Changes (changes.AddsSheets mail text.now) (state S.Store conn.old)
        (state S.Store conn.new)) }
    ensures err { HasCleanDisk (state S.Store conn.new) → IsReady (state S.Store conn.old)
        → IsTrue (state S.Store conn.old).in_transaction
        → OnErr result (IsHalted (state S.Store conn.old) (state S.Store conn.new)) }
    ensures cause { HasCleanDisk (state S.Store conn.new) → IsReady (state S.Store conn.old)
        → IfErr result (FailsToAddSheets S.Store mail text.now conn.old conn.new) }
    ensures survives { Survives (state S.Store conn.old) (state S.Store conn.new)
        (MayLeave (changes.AddsSomeSheets mail text.now) (state S.Store conn.old)) }
{
    add_rest(conn, mail, text, 0)
}

/// The sheet of the message at this place, if there is one.
pub fn find_sheet<S: Alter>(
    alloc: Global,
    conn: &mut Connection<S>,
    mail: i64,
    place: i64,
) -> Result<Option<Sheet>, Error>
    ensures ok { HasCleanDisk (state S.Store conn.new) → HasTables (state S.Store conn.old)
        → IfOk result (λ found. found ≡ find (rows.is_sheet mail place)
        (rows_in (state S.Store conn.old).now.trees).sheets) }
    ensures same { HasCleanDisk (state S.Store conn.new) → HasTables (state S.Store conn.old)
        → OnOk result (IsUnchanged (state S.Store conn.old) (state S.Store conn.new)) }
    ensures err { HasCleanDisk (state S.Store conn.new) → HasTables (state S.Store conn.old)
        → OnErr result (IsUndone (state S.Store conn.old) (state S.Store conn.new)) }
    ensures cause { HasCleanDisk (state S.Store conn.new) → HasTables (state S.Store conn.old)
        → IfErr result (FailsToRead find_sheet_text (Int mail ∷ Int place ∷ [])
        (state S.Store conn.old) (state S.Store conn.new)) }
    ensures survives { Survives (state S.Store conn.old) (state S.Store conn.new)
        (λ _. ¬ IsOurs (state S.Store conn.old).now) }
{
    first(
        alloc,
        conn,
        "SELECT mail, place, octets FROM sheets WHERE mail = ?1 AND place = ?2 ORDER BY rowid",
        &[ValueRef::Int(mail), ValueRef::Int(place)],
    )
}

/// The sheets of the message at the places from `from` on that are below `end`, in the order of
/// adding.
pub fn sheets_between<S: Alter>(
    alloc: Global,
    conn: &mut Connection<S>,
    mail: i64,
    from: i64,
    end: i64,
) -> Result<Vec<Sheet>, Error>
    ensures ok { HasCleanDisk (state S.Store conn.new) → HasTables (state S.Store conn.old)
        → IfOk result (λ found. found.items ≡ filter (rows.is_sheet_between mail from end)
        (rows_in (state S.Store conn.old).now.trees).sheets) }
    ensures same { HasCleanDisk (state S.Store conn.new) → HasTables (state S.Store conn.old)
        → OnOk result (IsUnchanged (state S.Store conn.old) (state S.Store conn.new)) }
    ensures err { HasCleanDisk (state S.Store conn.new) → HasTables (state S.Store conn.old)
        → OnErr result (IsUndone (state S.Store conn.old) (state S.Store conn.new)) }
    ensures cause { HasCleanDisk (state S.Store conn.new) → HasTables (state S.Store conn.old)
        → IfErr result (FailsToRead sheets_between_text (Int mail ∷ Int from ∷ Int end ∷ [])
        (state S.Store conn.old) (state S.Store conn.new)) }
    ensures survives { Survives (state S.Store conn.old) (state S.Store conn.new)
        (λ _. ¬ IsOurs (state S.Store conn.old).now) }
{
    list(
        alloc,
        conn,
        "SELECT mail, place, octets FROM sheets WHERE mail = ?1 AND place >= ?2 AND place < ?3 ORDER BY rowid",
        &[ValueRef::Int(mail), ValueRef::Int(from), ValueRef::Int(end)],
    )
}

/// How many sheets all messages have together.
pub fn sheet_count<S: Alter>(conn: &mut Connection<S>) -> Result<u64, Error>
    ensures ok { HasCleanDisk (state S.Store conn.new) → HasTables (state S.Store conn.old)
        → IfOk result (λ count. count ≡ min (length
        (rows_in (state S.Store conn.old).now.trees).sheets) 9223372036854775807) }
    ensures same { HasCleanDisk (state S.Store conn.new) → HasTables (state S.Store conn.old)
        → OnOk result (IsUnchanged (state S.Store conn.old) (state S.Store conn.new)) }
    ensures err { HasCleanDisk (state S.Store conn.new) → HasTables (state S.Store conn.old)
        → OnErr result (IsUndone (state S.Store conn.old) (state S.Store conn.new)) }
    ensures cause { HasCleanDisk (state S.Store conn.new) → HasTables (state S.Store conn.old)
        → IfErr result (FailsToCount sheet_count_text [] (state S.Store conn.old)
        (state S.Store conn.new)) }
    ensures survives { Survives (state S.Store conn.old) (state S.Store conn.new)
        (λ _. ¬ IsOurs (state S.Store conn.old).now) }
{
    count(conn, "SELECT count(*) FROM sheets", &[])
}

/// The sheets of a text, joined, are the text; each but the last has `SHEET_OCTETS` octets, and
/// none is empty.
pub fn sheets_are_the_text()
    ensures { SheetsAreTheText }
{}
