//! Lines of replies that name a number, a rule or a host, each with its CRLF.

ghost use Rattle.std.specs.Prelude.{◌≡◌, ◌++◌, IfOk, codes, string_bytes};
ghost use Rattle.std.specs.Fmt.{decimal};
ghost use Rattle.popline.specs.Replies.{bytes_of, one_line, scan_text, uid_row_text, Greeting};
ghost use Rattle.popline.specs.Replies.{DeniedBy, MaildropHas, DropListing, ScanLine, UidLine};
ghost use Rattle.popline.specs.Replies.{Marked, AlreadyMarked, RemovalDenied};

use creds::{Name, Uid};
use std::alloc::{AllocError, Global};

pub(crate) fn greeting(
    alloc: Global,
    number: u64,
    boot: u64,
    host: &str,
) -> Result<String, AllocError>
    ensures { IfOk result (λ text. string_bytes text ≡ bytes_of (Greeting number boot host.now)) }
{
    let text = format!(in alloc; "+OK POP3 server ready <{number}.{boot}@{host}>\r\n")?;
    Ok(text)
}

pub(crate) fn denied_by(alloc: Global, rule: Name) -> Result<String, AllocError>
    ensures { IfOk result (λ text. string_bytes text ≡ bytes_of (DeniedBy rule)) }
{
    let text = format!(in alloc; "-ERR denied by rule {rule}\r\n")?;
    Ok(text)
}

pub(crate) fn maildrop_has(alloc: Global, messages: u64, octets: u64) -> Result<String, AllocError>
    ensures { IfOk result (λ text. string_bytes text ≡ bytes_of (MaildropHas messages octets)) }
{
    let text = format!(in alloc; "+OK maildrop has {messages} messages ({octets} octets)\r\n")?;
    Ok(text)
}

pub(crate) fn drop_listing(alloc: Global, messages: u64, octets: u64) -> Result<String, AllocError>
    ensures { IfOk result (λ text. string_bytes text ≡ bytes_of (DropListing messages octets)) }
{
    let text = format!(in alloc; "+OK {messages} {octets}\r\n")?;
    Ok(text)
}

pub(crate) fn scan_line(alloc: Global, number: u64, octets: u64) -> Result<String, AllocError>
    ensures { IfOk result (λ text. string_bytes text ≡ bytes_of (ScanLine number octets)) }
{
    let text = format!(in alloc; "+OK {number} {octets}\r\n")?;
    Ok(text)
}

/// A line of the scan listing.
pub(crate) fn scan_row(alloc: Global, number: u64, octets: u64) -> Result<String, AllocError>
    ensures { IfOk result (λ text. string_bytes text ≡ one_line (scan_text (number, octets))) }
{
    let text = format!(in alloc; "{number} {octets}\r\n")?;
    Ok(text)
}

pub(crate) fn uid_line(alloc: Global, number: u64, uid: Uid) -> Result<String, AllocError>
    ensures { IfOk result (λ text. string_bytes text ≡ bytes_of (UidLine number uid)) }
{
    let text = format!(in alloc; "+OK {number} {uid}\r\n")?;
    Ok(text)
}

/// A line of the listing of unique-ids.
pub(crate) fn uid_row(alloc: Global, number: u64, uid: Uid) -> Result<String, AllocError>
    ensures { IfOk result (λ text. string_bytes text ≡ one_line (uid_row_text (number, uid))) }
{
    let text = format!(in alloc; "{number} {uid}\r\n")?;
    Ok(text)
}

pub(crate) fn message_follows(alloc: Global, octets: u64) -> Result<String, AllocError>
    ensures { IfOk result (λ text. string_bytes text ≡ one_line (codes "+OK " ++ decimal octets ++ codes " octets")) }
{
    let text = format!(in alloc; "+OK {octets} octets\r\n")?;
    Ok(text)
}

pub(crate) fn marked(alloc: Global, number: u64) -> Result<String, AllocError>
    ensures { IfOk result (λ text. string_bytes text ≡ bytes_of (Marked number)) }
{
    let text = format!(in alloc; "+OK message {number} deleted\r\n")?;
    Ok(text)
}

pub(crate) fn already_marked(alloc: Global, number: u64) -> Result<String, AllocError>
    ensures { IfOk result (λ text. string_bytes text ≡ bytes_of (AlreadyMarked number)) }
{
    let text = format!(in alloc; "-ERR message {number} is deleted\r\n")?;
    Ok(text)
}

pub(crate) fn removal_denied(alloc: Global, rule: Name) -> Result<String, AllocError>
    ensures { IfOk result (λ text. string_bytes text ≡ bytes_of (RemovalDenied rule)) }
{
    let text = format!(in alloc;
        "-ERR some deleted messages not removed, denied by rule {rule}\r\n"
    )?;
    Ok(text)
}
