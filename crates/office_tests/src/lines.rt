//! Lines at the limit of their length, a table of lines and how each is read, and the octets of the
//! replies.

use creds::{LoginName, Name, Uid};
use popline::{
    Command, Cut, Cutter, Keyword, LineFault, Reply, begin_message, begin_scan_listing, begin_top,
    begin_uid_listing, end_lines, put_scan_row, put_uid_row,
};
use std::test::Fail;

/// A line of each command, which is read the same with spaces at its end.
static COMPLETE: [&[u8]; 14] = [
    b"CAPA",
    b"QUIT",
    b"USER mrose/orders",
    b"APOP mrose/orders c4c9334bac560ecc979e58001b3e22fb",
    b"STAT",
    b"LIST",
    b"LIST 2",
    b"UIDL",
    b"UIDL 2",
    b"RETR 2",
    b"DELE 2",
    b"TOP 3 4",
    b"RSET",
    b"NOOP",
];

/// How many octets a line has, with its end; its end; and whether it is read.
static LENGTHS: [(usize, &[u8], bool); 6] = [
    (254, b"\n", true),
    (254, b"\r\n", true),
    (255, b"\n", true),
    (255, b"\r\n", true),
    (256, b"\n", false),
    (256, b"\r\n", false),
];

/// 256 octets, of which the first `octets` are a line, then the octet `fill` as often as there is
/// room, then the line's end.
fn filled(line: &[u8], fill: u8, end: &[u8], octets: usize) -> [u8; 256] {
    let mut filled = [fill; 256];
    let end_at = octets.saturating_sub(end.len());
    for (place, octet) in filled.iter_mut().enumerate() {
        if place < line.len() {
            *octet = line[place];
        } else if place >= end_at && place - end_at < end.len() {
            *octet = end[place - end_at];
        }
    }
    filled
}

/// A cutter that was fed a stream in two pieces, the first of which has `at` octets.
fn fed(stream: &[u8], at: usize) -> Cutter {
    let at = at.min(stream.len().saturating_sub(1));
    let mut cutter = Cutter::new();
    let _ = cutter.feed(&stream[..at]);
    let _ = cutter.feed(&stream[at..]);
    cutter
}

/// A line's reading, without the clauses of `Command::read`.
fn reading(line: &[u8]) -> Result<Command<'_>, LineFault> {
    Command::read(line)
}

/// Whether a line is read as this command.
fn is_read(line: &[u8], command: &Command<'_>) -> bool {
    matches!(reading(line), Ok(c) if c == *command)
}

/// Whether the line that is shown, with spaces after it, is the same command as `line`.
fn is_same(shown: &[u8], line: &[u8]) -> bool {
    match reading(line) {
        Ok(command) => is_read(shown, &command),
        Err(_) => false,
    }
}

/// Whether a cutter shows this command or, if it may not be read, that the line is too long.
fn shows(cutter: &Cutter, line: &[u8], is_read: bool) -> bool {
    match cutter.line() {
        Some(Cut::Line(shown)) => is_read && is_same(shown, line),
        Some(Cut::TooLong) => !is_read,
        None => false,
    }
}

/// Whether a line, filled to `octets` octets, is read as its command or is too long, wherever its
/// stream is cut in two.
fn is_cut_at_each_place(line: &[u8], end: &[u8], octets: usize, is_read: bool) -> bool {
    let stream = filled(line, b' ', end, octets);
    let octets = octets.min(256);
    for at in 0..256 {
        if !shows(&fed(&stream[..octets], at), line, is_read) {
            return false;
        }
    }
    true
}

/// Whether a line is its command up to 255 octets with its end, and too long from 256 on.
fn is_limited(line: &[u8]) -> bool {
    for (octets, end, is_read) in &LENGTHS {
        if !is_cut_at_each_place(line, *end, *octets, *is_read) {
            return false;
        }
    }
    true
}

/// How many octets the password has on a PASS line of `octets` octets with its end; 0 if it
/// isn't read.
fn password_len(fill: u8, end: &[u8], octets: usize) -> usize {
    let stream = filled(b"PASS ", fill, end, octets);
    let cutter = fed(&stream[..octets.min(256)], 5);
    match cutter.line() {
        Some(Cut::Line(line)) => match reading(line) {
            Ok(Command::Pass(password)) => password.len(),
            _ => 0,
        },
        _ => 0,
    }
}

#[test]
fn line_length_limit(rt: HostRuntime) {
    for line in &COMPLETE {
        assert!(rt; is_limited(*line), "{line:?}");
    }
    assert_eq!(rt; password_len(b'x', b"\r\n", 255), 248);
    assert_eq!(rt; password_len(b' ', b"\n", 254), 248);
    assert_eq!(rt; password_len(b'x', b"\r\n", 256), 0);
}

/// Lines of each keyword whose arguments don't fit: missing, one too many, after two spaces, or of
/// another form.
static BAD_ARGUMENTS: [(Keyword, &str); 13] = [
    (
        Keyword::Capa,
        "CAPA x\n\
         CAPA  x\n\
         CAPA CAPA\n\
         CAPA \t",
    ),
    (
        Keyword::Quit,
        "QUIT x\n\
         QUIT  x\n\
         QUIT QUIT\n\
         QUIT \t",
    ),
    (
        Keyword::Stat,
        "STAT x\n\
         STAT  x\n\
         STAT STAT\n\
         STAT \t",
    ),
    (
        Keyword::Rset,
        "RSET x\n\
         RSET  x\n\
         RSET RSET\n\
         RSET \t",
    ),
    (
        Keyword::Noop,
        "NOOP x\n\
         NOOP  x\n\
         NOOP NOOP\n\
         NOOP \t",
    ),
    (
        Keyword::User,
        "USER\n\
         USER   \n\
         USER ann\n\
         USER Ann/orders\n\
         USER ann/Orders\n\
         USER ann/\n\
         USER /orders\n\
         USER ann/orders/pay\n\
         USER ann orders\n\
         USER  ann/orders\n\
         USER ann/orders x\n\
         USER ann/orders ann/orders\n\
         USER ann/orders\t",
    ),
    (
        Keyword::Pass,
        "PASS\n\
         PASS ",
    ),
    (
        Keyword::Apop,
        "APOP\n\
         APOP  \n\
         APOP ann/orders\n\
         APOP c4c9334bac560ecc979e58001b3e22fb\n\
         APOP ann/orders c4c9334bac560ecc979e58001b3e22f\n\
         APOP ann/orders c4c9334bac560ecc979e58001b3e22fbc\n\
         APOP ann/orders c4c9334bac560ecc979e58001b3e22fbc4\n\
         APOP ann/orders g4c9334bac560ecc979e58001b3e22fb\n\
         APOP Ann/orders c4c9334bac560ecc979e58001b3e22fb\n\
         APOP ann c4c9334bac560ecc979e58001b3e22fb\n\
         APOP c4c9334bac560ecc979e58001b3e22fb ann/orders\n\
         APOP  ann/orders c4c9334bac560ecc979e58001b3e22fb\n\
         APOP ann/orders  c4c9334bac560ecc979e58001b3e22fb\n\
         APOP ann/orders c4c9334bac560ecc979e58001b3e22fb x\n\
         APOP ann/orders ann/orders c4c9334bac560ecc979e58001b3e22fb\n\
         APOP ann/orders c4c9334bac560ecc979e58001b3e22fb c4c9334bac560ecc979e58001b3e22fb",
    ),
    (
        Keyword::List,
        "LIST x\n\
         LIST +1\n\
         LIST -1\n\
         LIST 1.\n\
         LIST  1\n\
         LIST 1 2\n\
         LIST 1 1\n\
         LIST 1  2",
    ),
    (
        Keyword::Uidl,
        "UIDL x\n\
         UIDL +1\n\
         UIDL -1\n\
         UIDL 1.\n\
         UIDL  1\n\
         UIDL 1 2\n\
         UIDL 1 1\n\
         UIDL 1  2",
    ),
    (
        Keyword::Retr,
        "RETR\n\
         RETR  \n\
         RETR x\n\
         RETR 1x\n\
         RETR -1\n\
         RETR 0x1\n\
         RETR  1\n\
         RETR 1 2\n\
         RETR 1 1",
    ),
    (
        Keyword::Dele,
        "DELE\n\
         DELE  \n\
         DELE x\n\
         DELE 1x\n\
         DELE -1\n\
         DELE 0x1\n\
         DELE  1\n\
         DELE 1 2\n\
         DELE 1 1",
    ),
    (
        Keyword::Top,
        "TOP\n\
         TOP  \n\
         TOP 1\n\
         TOP  1\n\
         TOP 1 x\n\
         TOP x 1\n\
         TOP 1 -1\n\
         TOP +1 1\n\
         TOP  1 2\n\
         TOP 1  2\n\
         TOP 1 2 3\n\
         TOP 1 1 2\n\
         TOP 1 2 2",
    ),
];

/// Lines whose first word is no keyword.
static UNKNOWN: [&[u8]; 11] = [
    b"", b" ", b" QUIT", b"NOOP\r", b"XYZZY", b"QUITX", b"QUI", b"QUIT\tx", b"AUTH", b"TOP1 2",
    b"STLS",
];

/// Lines that are read as these commands, which have no login name.
const READ: [(&[u8], Command<'static>); 32] = [
    (b"capa", Command::Capa),
    (b"CaPa  ", Command::Capa),
    (b"QUIT", Command::Quit),
    (b"QUIT   ", Command::Quit),
    (b"PASS s3 cret", Command::Pass(b"s3 cret")),
    (b"pass  s3 cret ", Command::Pass(b" s3 cret ")),
    (b"PASS  ", Command::Pass(b" ")),
    (b"PASS x x", Command::Pass(b"x x")),
    (b"PASS \x00\xff", Command::Pass(b"\x00\xff")),
    (b"STAT", Command::Stat),
    (b"STAT ", Command::Stat),
    (b"LIST", Command::List(None)),
    (b"LIST  ", Command::List(None)),
    (b"LIST 007 ", Command::List(Some(7))),
    (
        b"LIST 18446744073709551615",
        Command::List(Some(18446744073709551615)),
    ),
    (
        b"LIST 18446744073709551616",
        Command::List(Some(18446744073709551615)),
    ),
    (b"UIDL", Command::Uidl(None)),
    (b"UIDL   ", Command::Uidl(None)),
    (b"UIDL 2", Command::Uidl(Some(2))),
    (b"uidl 2 ", Command::Uidl(Some(2))),
    (b"RETR 0", Command::Retr(0)),
    (b"retr 01 ", Command::Retr(1)),
    (
        b"RETR 99999999999999999999999999999999999999999",
        Command::Retr(18446744073709551615),
    ),
    (b"TOP 1 0", Command::Top(1, 0)),
    (b"TOP 1 2 ", Command::Top(1, 2)),
    (
        b"top 3 18446744073709551616   ",
        Command::Top(3, 18446744073709551615),
    ),
    (b"DELE 2", Command::Dele(2)),
    (b"dele 2  ", Command::Dele(2)),
    (b"RSET", Command::Rset),
    (b"RSET ", Command::Rset),
    (b"noop", Command::Noop),
    (b"NoOp  ", Command::Noop),
];

fn has_bad_arguments(line: &[u8], keyword: Keyword) -> bool {
    matches!(reading(line), Err(LineFault::Syntax(k)) if k == keyword)
}

fn is_unknown(line: &[u8]) -> bool {
    matches!(reading(line), Err(LineFault::Unknown))
}

/// The first line of `BAD_ARGUMENTS` that isn't read so.
fn first_with_others() -> Option<&'static str> {
    for (keyword, lines) in &BAD_ARGUMENTS {
        for line in lines.lines() {
            if !has_bad_arguments(line.as_bytes(), *keyword) {
                return Some(line);
            }
        }
    }
    None
}

/// The first line of `UNKNOWN` that isn't read so.
fn first_with_a_keyword() -> Option<&'static [u8]> {
    for line in &UNKNOWN {
        if !is_unknown(*line) {
            return Some(*line);
        }
    }
    None
}

/// The first line of `READ` that isn't read so.
fn first_of_another_command() -> Option<&'static [u8]> {
    for (line, command) in &READ {
        if !is_read(*line, command) {
            return Some(*line);
        }
    }
    None
}

#[test]
fn readings_of_lines(rt: HostRuntime) {
    assert!(rt; first_with_others().is_none());
    assert!(rt; first_with_a_keyword().is_none());
    assert!(rt; first_of_another_command().is_none());
}

/// The digest of RFC 1939, 7.
const DIGEST: [u8; 16] = [
    0xc4, 0xc9, 0x33, 0x4b, 0xac, 0x56, 0x0e, 0xcc, 0x97, 0x9e, 0x58, 0x00, 0x1b, 0x3e, 0x22, 0xfb,
];

/// The login name on a line of USER, or of APOP with `DIGEST`.
fn login_on(line: &[u8]) -> Option<LoginName> {
    match reading(line) {
        Ok(Command::User(name)) => Some(name),
        Ok(Command::Apop(name, digest)) => { if digest == DIGEST { Some(name) } else { None } }
        _ => None,
    }
}

#[test]
fn readings_of_logins(rt: HostRuntime) {
    let name = LoginName::read(b"mrose/orders");
    assert!(rt; name.is_some());
    assert!(rt; login_on(b"USER mrose/orders") == name);
    assert!(rt; login_on(b"user mrose/orders  ") == name);
    assert!(rt; login_on(b"APOP mrose/orders c4c9334bac560ecc979e58001b3e22fb") == name);
    assert!(rt; login_on(b"apop mrose/orders C4C9334BAC560ECC979E58001B3E22FB ") == name);
    assert!(rt; Command::Top(1, 2).keyword() == Keyword::Top);
}

#[test]
fn capability_list_octet_by_octet(rt: HostRuntime) -> Result<(), Fail> {
    let mut out = vec![in rt.alloc()]?;
    Reply::Greeting {
        number: 1,
        boot: 7,
        host: "h.test",
    }
    .put(rt.alloc(), &mut out)?;
    Reply::Capabilities.put(rt.alloc(), &mut out)?;
    Reply::Bye.put(rt.alloc(), &mut out)?;
    let wanted =
        b"+OK POP3 server ready <1.7@h.test>\r\n+OK capability list follows\r\nTOP\r\nUSER\r\nUIDL\r\nRESP-CODES\r\nPIPELINING\r\n.\r\n+OK bye\r\n";
    assert!(rt; out.as_slice() == wanted.as_slice());
    Ok(())
}

fn name(text: &[u8]) -> Result<Name, &'static str> {
    Name::read(text).ok_or("a name")
}

#[test]
fn replies_octet_by_octet(rt: HostRuntime) -> Result<(), Fail> {
    let uid = Uid {
        class: name(b"note")?,
        k: 2,
    };
    let replies = [
        Reply::DeniedBy(name(b"default")?),
        Reply::InUse,
        Reply::MaildropHas {
            messages: 4,
            octets: 80,
        },
        Reply::DropListing {
            messages: 3,
            octets: 61,
        },
        Reply::ScanLine {
            number: 1,
            octets: 21,
        },
        Reply::UidLine { number: 2, uid },
        Reply::Marked(1),
        Reply::AlreadyMarked(1),
        Reply::RemovalDenied(name(b"freeze-pay")?),
        Reply::LineTooLong,
        Reply::UnknownCommand,
        Reply::WrongState,
        Reply::BadArguments,
        Reply::SendPass,
        Reply::LoginFailed,
        Reply::LoginFailedClosing,
        Reply::NoSuchMaildrop,
        Reply::Okay,
        Reply::NoSuchMessage,
        Reply::RemovalFailed,
        Reply::StoreFailed,
    ];
    let mut out = vec![in rt.alloc()]?;
    for reply in &replies {
        reply.put(rt.alloc(), &mut out)?;
    }
    let wanted =
        b"-ERR denied by rule default\r\n-ERR [IN-USE] maildrop is in use\r\n+OK maildrop has 4 messages (80 octets)\r\n+OK 3 61\r\n+OK 1 21\r\n+OK 2 note.2\r\n+OK message 1 deleted\r\n-ERR message 1 is deleted\r\n-ERR some deleted messages not removed, denied by rule freeze-pay\r\n-ERR line too long\r\n-ERR unknown command\r\n-ERR wrong state\r\n-ERR bad arguments\r\n+OK send PASS\r\n-ERR login failed\r\n-ERR login failed, closing\r\n-ERR no such maildrop\r\n+OK\r\n-ERR no such message\r\n-ERR some deleted messages not removed\r\n-ERR store failed\r\n";
    assert!(rt; out.as_slice() == wanted.as_slice());
    Ok(())
}

#[test]
fn listings_octet_by_octet(rt: HostRuntime) -> Result<(), Fail> {
    let uid = Uid {
        class: name(b"note")?,
        k: 2,
    };
    let mut out = vec![in rt.alloc()]?;
    begin_scan_listing(&mut out)?;
    put_scan_row(rt.alloc(), &mut out, 1, 21)?;
    end_lines(&mut out)?;
    begin_uid_listing(&mut out)?;
    put_uid_row(rt.alloc(), &mut out, 2, uid)?;
    end_lines(&mut out)?;
    begin_message(rt.alloc(), &mut out, 0)?;
    begin_top(&mut out)?;
    let wanted =
        b"+OK scan listing follows\r\n1 21\r\n.\r\n+OK unique-id listing follows\r\n2 note.2\r\n.\r\n+OK 0 octets\r\n+OK top follows\r\n";
    assert!(rt; out.as_slice() == wanted.as_slice());
    Ok(())
}
