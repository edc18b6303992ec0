//! The pages of a message.
ghost use Rattle.std.specs.Prelude.{◌≡◌, ◌<◌, ◌≤◌, ◌^◌, ◌-◌, length, take, drop, min};
ghost use Rattle.std.specs.Prelude.{option_copied, ◌==◌, false};
ghost use Rattle.std.specs.List.{find};
ghost use Rattle.vault.specs.Calls.{IsPageRead, text_under};
ghost use Rattle.sqlvault.specs.Refusals.{answer_of};
ghost use Rattle.sqlvault.specs.Frame.{IsMet, Sees};
ghost use Rattle.sqlvault.specs.Pages.{is_at, octets_from};
ghost use Rattle.sqlvault.specs.UnderWay.{TellsBeside};

use crate::refusal::Refusal;
use mailsql::rows::Sheet;
use mailsql::sheets::{self, SHEET_OCTETS};
use sqlite::{Alter, Connection};
use std::alloc::Global;
use vault::MessageKey;

/// Copies the octets from place `from` on into the front of the buffer, as many as there are and
/// fit. Answers how many.
fn copy_from(octets: &[u8], from: usize, buffer: &mut [u8]) -> usize
    ensures count { result ≡ min (length octets.now - from) (length buffer.new) }
    ensures copied { take result buffer.new ≡ take result (drop from octets.now) }
{
    if from >= octets.len() {
        return 0;
    }
    let left = &octets[from..];
    let count = left.len().min(buffer.len());
    buffer[..count].copy_from_slice(&left[..count]);
    count
}

/// The most sheets that one statement reads.
const MOST_SHEETS: u64 = 16;

/// How many sheets are read for a buffer of this length.
fn sheets_for(room: usize) -> u64
    ensures some { 0 < result }
    ensures few { result ≤ MOST_SHEETS }
{
    (room.div_ceil(SHEET_OCTETS) as u64).max(1).min(MOST_SHEETS)
}

/// The sheet at this place, if it is one of these.
fn sheet_at(sheets: &[Sheet], place: i64) -> Option<&Sheet>
    ensures { option_copied result ≡ find (is_at place) sheets.now }
{
    sheets.iter().find(|sheet| sheet.place == place)
}

/// Copies the octets of the sheets at the places from `first` on that are below `end`, without the
/// first `skip` octets, into the front of the buffer, as many as there are and fit. The first place
/// that has no sheet ends them. Answers how many.
fn copy_sheets(sheets: &[Sheet], first: u64, end: u64, skip: usize, buffer: &mut [u8]) -> usize
    requires { end < 2 ^ 63 }
    ensures count { result ≡ min (length (octets_from (end - first) sheets.now first) - skip)
        (length buffer.new) }
    ensures copied { take result buffer.new
        ≡ take result (drop skip (octets_from (end - first) sheets.now first)) }
{
    let mut left = skip;
    let mut put = 0;
    for place in first..end {
        let Some(sheet) = sheet_at(sheets, place as i64) else {
            return put;
        };
        let octets = sheet.octets.as_slice();
        put += copy_from(octets, left, &mut buffer[put..]);
        left = left.saturating_sub(octets.len());
    }
    put
}

/// Reads octets of a message, from place `from` on, into the front of the buffer, by one statement.
/// Answers how many: those of up to 16 sheets that fit; 0 only if none is left, the buffer is
/// empty or the key is unknown. Nothing is changed.
///
/// An `Err` is the error that the query met.
pub(crate) fn page<S: Alter>(
    alloc: Global,
    conn: &mut Connection<S>,
    key: MessageKey,
    from: u64,
    buffer: &mut [u8],
) -> Result<usize, Refusal>
    ensures sees { Sees S.Store conn.old conn.new (IsMet result)
        (λ c. IsPageRead (text_under key c.messages) from buffer.new (answer_of result)) }
    ensures beside { TellsBeside S.Store conn.old conn.new (λ a. (key == a.key) ≡ false)
        (λ c. IsPageRead (text_under key c.messages) from buffer.new (answer_of result)) }
{
    let sheet_octets = SHEET_OCTETS as u64;
    let mail = key.number().cast_signed();
    let first = from / sheet_octets;
    let end = first + sheets_for(buffer.len());
    let found = sheets::sheets_between(alloc, conn, mail, first as i64, end as i64)?;
    let skip = (from % sheet_octets) as usize;
    Ok(copy_sheets(found.as_slice(), first, end, skip, buffer))
}
