//! What a POP3 server says, octet by octet (RFC 1939, 3 to 7; RFC 2449, 5 and 8).

ghost use Rattle.std.specs.Prelude.{◌≡◌, ◌++◌, ℕ, List, IfOk, OnOk, OnErr, string_bytes};
ghost use Rattle.popline.specs.Replies.{bytes_of};
ghost use Rattle.popline.specs.Seen.{reply_seen};

use crate::texts;
use creds::{Name, Uid};
use std::alloc::{AllocError, Global};

/// A reply. The listings of a whole maildrop and messages aren't here: they are put in parts,
/// without a copy (`begin_scan_listing`, `begin_uid_listing`, `begin_message`).
#[derive(Clone, Copy)]
pub enum Reply<'a> {
    /// The first line of a connection, with the timestamp that APOP signs (RFC 1939, 4 and 7).
    Greeting {
        /// The connection's number.
        number: u64,
        /// The number of the server's start.
        boot: u64,
        /// The server's host name.
        host: &'a str,
    },
    /// A line of more than 255 octets came.
    LineTooLong,
    /// A line came whose first word is no keyword.
    UnknownCommand,
    /// A command came that isn't allowed in the connection's state.
    WrongState,
    /// The arguments of a command don't fit.
    BadArguments,
    /// The list of capabilities (RFC 2449, 5).
    Capabilities,
    /// USER gave a name, and PASS may follow.
    SendPass,
    /// No clerk has that credential.
    LoginFailed,
    /// No clerk has that credential, and the server closes the connection.
    LoginFailedClosing,
    /// The rule of this name denies the command; it is `default` if no rule matches.
    DeniedBy(Name),
    /// There is no maildrop of that name.
    NoSuchMaildrop,
    /// Another session holds the maildrop's lock (RFC 2449, 8.1.2).
    InUse,
    /// What the session sees, sent after a login and after RSET.
    MaildropHas {
        /// How many messages.
        messages: u64,
        /// Their octets.
        octets: u64,
    },
    /// The drop listing (RFC 1939, 5).
    DropListing {
        /// How many messages aren't marked.
        messages: u64,
        /// Their octets.
        octets: u64,
    },
    /// The scan listing of one message (RFC 1939, 5).
    ScanLine {
        /// The message's number.
        number: u64,
        /// Its octets.
        octets: u64,
    },
    /// The unique-id of one message (RFC 1939, 7).
    UidLine {
        /// The message's number.
        number: u64,
        /// Its unique-id.
        uid: Uid,
    },
    /// The message of this number is to be removed at QUIT.
    Marked(u64),
    /// NOOP's reply.
    Okay,
    /// No message has the number.
    NoSuchMessage,
    /// The message of this number is marked already.
    AlreadyMarked(u64),
    /// QUIT's reply.
    Bye,
    /// QUIT's reply if the rule of this name denies the removal of a marked message.
    RemovalDenied(Name),
    /// QUIT's reply if the store refused to remove the marked messages.
    RemovalFailed,
    /// The store refused what the command needs.
    StoreFailed,
}

impl Reply<'_> {
    /// Appends the reply's octets. On an error, want of memory, nothing is appended.
    pub fn put(&self, alloc: Global, out: &mut Vec<u8>) -> Result<(), AllocError>
        ensures ok { OnOk result (out.new.items ≡ out.old.items ++ bytes_of (reply_seen self.now)) }
        ensures err { OnErr result (out.new.items ≡ out.old.items) }
    {
        match self {
            Reply::Greeting { number, boot, host } => put_text(
                out,
                texts::greeting(alloc, *number, *boot, *host),
            ),
            Reply::LineTooLong => put_octets(out, b"-ERR line too long\r\n"),
            Reply::UnknownCommand => put_octets(out, b"-ERR unknown command\r\n"),
            Reply::WrongState => put_octets(out, b"-ERR wrong state\r\n"),
            Reply::BadArguments => put_octets(out, b"-ERR bad arguments\r\n"),
            Reply::Capabilities => put_octets(
                out,
                b"+OK capability list follows\r\nTOP\r\nUSER\r\nUIDL\r\nRESP-CODES\r\nPIPELINING\r\n.\r\n",
            ),
            Reply::SendPass => put_octets(out, b"+OK send PASS\r\n"),
            Reply::LoginFailed => put_octets(out, b"-ERR login failed\r\n"),
            Reply::LoginFailedClosing => put_octets(out, b"-ERR login failed, closing\r\n"),
            Reply::DeniedBy(rule) => put_text(out, texts::denied_by(alloc, *rule)),
            Reply::NoSuchMaildrop => put_octets(out, b"-ERR no such maildrop\r\n"),
            Reply::InUse => put_octets(out, b"-ERR [IN-USE] maildrop is in use\r\n"),
            Reply::MaildropHas { messages, octets } => put_text(
                out,
                texts::maildrop_has(alloc, *messages, *octets),
            ),
            Reply::DropListing { messages, octets } => put_text(
                out,
                texts::drop_listing(alloc, *messages, *octets),
            ),
            Reply::ScanLine { number, octets } => put_text(
                out,
                texts::scan_line(alloc, *number, *octets),
            ),
            Reply::UidLine { number, uid } => put_text(out, texts::uid_line(alloc, *number, *uid)),
            Reply::Marked(number) => put_text(out, texts::marked(alloc, *number)),
            Reply::Okay => put_octets(out, b"+OK\r\n"),
            Reply::NoSuchMessage => put_octets(out, b"-ERR no such message\r\n"),
            Reply::AlreadyMarked(number) => put_text(out, texts::already_marked(alloc, *number)),
            Reply::Bye => put_octets(out, b"+OK bye\r\n"),
            Reply::RemovalDenied(rule) => put_text(out, texts::removal_denied(alloc, *rule)),
            Reply::RemovalFailed => put_octets(out, b"-ERR some deleted messages not removed\r\n"),
            Reply::StoreFailed => put_octets(out, b"-ERR store failed\r\n"),
        }
    }
}

/// Appends octets.
pub(crate) fn put_octets(out: &mut Vec<u8>, octets: &[u8]) -> Result<(), AllocError>
    ensures ok { OnOk result (out.new.items ≡ out.old.items ++ octets.now) }
    ensures err { OnErr result (out.new.items ≡ out.old.items) }
{
    out.extend_from_slice(octets)
}

/// Appends the text, or returns its error.
fn put_text(out: &mut Vec<u8>, text: Result<String, AllocError>) -> Result<(), AllocError>
    ensures ok { (octets : List ℕ) → IfOk text (λ t. string_bytes t ≡ octets)
        → OnOk result (out.new.items ≡ out.old.items ++ octets) }
    ensures err { OnErr result (out.new.items ≡ out.old.items) }
{
    out.extend_from_slice(text?.as_bytes())
}
