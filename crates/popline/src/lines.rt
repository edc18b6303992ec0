//! Multi-line replies (RFC 1939, 3), put part by part: the first line, the other lines one by one,
//! and the line of the dot.
//!
//! A call that returns an error, which is want of memory, appends nothing.

ghost use Rattle.std.specs.Prelude.{◌≡◌, ◌++◌, OnOk, OnErr, ℕ, List, ◌∷◌, [], codes};
ghost use Rattle.std.specs.Fmt.{decimal};
ghost use Rattle.popline.specs.Replies.{bytes_of, one_line, scan_text, uid_row_text, scan_begun};
ghost use Rattle.popline.specs.Replies.{uids_begun, ScanListing, UidListing};

use crate::reply::put_octets;
use crate::texts;
use creds::Uid;
use std::alloc::{AllocError, Global};

/// Appends the first line of a scan listing (RFC 1939, 5: LIST).
pub fn begin_scan_listing(out: &mut Vec<u8>) -> Result<(), AllocError>
    ensures ok { OnOk result (out.new.items ≡ out.old.items ++ scan_begun []) }
    ensures err { OnErr result (out.new.items ≡ out.old.items) }
{
    put_octets(out, b"+OK scan listing follows\r\n")
}

/// Appends one message's line, its number and its octets, to a scan listing that has begun.
pub fn put_scan_row(
    alloc: Global,
    out: &mut Vec<u8>,
    number: u64,
    octets: u64,
) -> Result<(), AllocError>
    ensures ok { OnOk result (out.new.items ≡ out.old.items
        ++ one_line (scan_text (number, octets))) }
    ensures row { OnOk result ((front : List ℕ) (rows : List (ℕ × ℕ))
        → out.old.items ≡ front ++ scan_begun rows
        → out.new.items ≡ front ++ scan_begun (rows ++ (number, octets) ∷ [])) }
    ensures err { OnErr result (out.new.items ≡ out.old.items) }
{
    let row = texts::scan_row(alloc, number, octets)?;
    out.extend_from_slice(row.as_bytes())?;
    Ok(())
}

/// Appends the first line of a listing of unique-ids (RFC 1939, 7: UIDL).
pub fn begin_uid_listing(out: &mut Vec<u8>) -> Result<(), AllocError>
    ensures ok { OnOk result (out.new.items ≡ out.old.items ++ uids_begun []) }
    ensures err { OnErr result (out.new.items ≡ out.old.items) }
{
    put_octets(out, b"+OK unique-id listing follows\r\n")
}

/// Appends one message's line, its number and its unique-id, to a listing of unique-ids that has
/// begun.
pub fn put_uid_row(
    alloc: Global,
    out: &mut Vec<u8>,
    number: u64,
    uid: Uid,
) -> Result<(), AllocError>
    ensures ok { OnOk result (out.new.items ≡ out.old.items
        ++ one_line (uid_row_text (number, uid))) }
    ensures row { OnOk result ((front : List ℕ) (rows : List (ℕ × Uid))
        → out.old.items ≡ front ++ uids_begun rows
        → out.new.items ≡ front ++ uids_begun (rows ++ (number, uid) ∷ [])) }
    ensures err { OnErr result (out.new.items ≡ out.old.items) }
{
    let row = texts::uid_row(alloc, number, uid)?;
    out.extend_from_slice(row.as_bytes())?;
    Ok(())
}

/// Appends the first line of RETR's reply (RFC 1939, 5), which gives the message's octets. The
/// message's stuffed lines and `end_lines` are to follow.
pub fn begin_message(alloc: Global, out: &mut Vec<u8>, octets: u64) -> Result<(), AllocError>
    ensures ok { OnOk result (out.new.items ≡ out.old.items ++ one_line (codes "+OK " ++ decimal octets ++ codes " octets")) }
    ensures err { OnErr result (out.new.items ≡ out.old.items) }
{
    out.extend_from_slice(texts::message_follows(alloc, octets)?.as_bytes())
}

/// Appends the first line of TOP's reply (RFC 1939, 7). The part's stuffed lines and `end_lines`
/// are to follow.
pub fn begin_top(out: &mut Vec<u8>) -> Result<(), AllocError>
    ensures ok { OnOk result (out.new.items ≡ out.old.items ++ one_line (codes "+OK top follows")) }
    ensures err { OnErr result (out.new.items ≡ out.old.items) }
{
    put_octets(out, b"+OK top follows\r\n")
}

/// Appends the line of the dot, which ends a multi-line reply.
pub fn end_lines(out: &mut Vec<u8>) -> Result<(), AllocError>
    ensures ok { OnOk result (out.new.items ≡ out.old.items ++ one_line (codes ".")) }
    ensures scan { OnOk result ((front : List ℕ) (rows : List (ℕ × ℕ))
        → out.old.items ≡ front ++ scan_begun rows
        → out.new.items ≡ front ++ bytes_of (ScanListing rows)) }
    ensures uids { OnOk result ((front : List ℕ) (rows : List (ℕ × Uid))
        → out.old.items ≡ front ++ uids_begun rows
        → out.new.items ≡ front ++ bytes_of (UidListing rows)) }
    ensures err { OnErr result (out.new.items ≡ out.old.items) }
{
    put_octets(out, b".\r\n")
}
