//! Long replies, whose pages are read as the client takes them: they have the same octets however
//! many are taken at a time, and a page may be refused (RFC 1939, 3 and 7).
use office::{Event, Office, Outcome};
use std::alloc::{AllocError, Global};
use std::test::Fail;
use transcripts::offices::{add_maildrop, deposit, opened, prepared};
use vault::{PlainVault, Refusing, Vault};

/// How many octets are taken at a time: one, some, and all that are lent.
static TAKINGS: [usize; 3] = [1, 512, usize::MAX];

/// How many lines the body of the long message has.
const LINES: usize = 6000;

/// How many octets a sheet has: a text is kept in these.
const SHEET: usize = 4096;

/// Takes `most` of the octets that a connection is lent, or all if they are fewer. Whether that was
/// done.
fn takes<V: Vault>(
    office: &mut Office<V>,
    c: u64,
    most: usize,
    sent: &mut Vec<u8>,
) -> Result<bool, AllocError> {
    let lent = office.owed(c);
    let count = lent.len().min(most);
    sent.extend_from_slice(&lent[..count])?;
    Ok(matches!(office.step(Event::Took(c, count)), Outcome::Done))
}

/// Takes all that a connection is owed. Whether that was done.
fn takes_all<V: Vault>(
    office: &mut Office<V>,
    c: u64,
    most: usize,
    sent: &mut Vec<u8>,
) -> Result<bool, AllocError> {
    for _ in 0..u64::MAX {
        if office.owed(c).is_empty() {
            return Ok(true);
        }
        if !takes(office, c, most, sent)? {
            return Ok(false);
        }
    }
    Ok(false)
}

/// Sends a line. Whether that was done.
fn says<V: Vault>(office: &mut Office<V>, c: u64, line: &[u8]) -> bool {
    matches!(office.step(Event::Bytes(c, line)), Outcome::Done)
}

/// The reply to a line, taken `most` octets at a time.
fn answer<V: Vault>(
    alloc: Global,
    office: &mut Office<V>,
    c: u64,
    line: &[u8],
    most: usize,
) -> Result<Vec<u8>, Fail> {
    let mut sent = Vec::new(alloc);
    if says(office, c, line) && takes_all(office, c, most, &mut sent)? {
        Ok(sent)
    } else {
        Err(Fail::new("not answered"))
    }
}

/// Connects, and logs ann in.
fn log_in<V: Vault>(
    alloc: Global,
    office: &mut Office<V>,
    c: u64,
    login: &[u8],
) -> Result<(), Fail> {
    let _ = office.step(Event::Connect);
    let mut greeting = Vec::new(alloc);
    takes_all(office, c, usize::MAX, &mut greeting)?;
    let told = answer(alloc, office, c, login, usize::MAX)?;
    if told.starts_with(b"+OK send PASS\r\n+OK maildrop has 1 messages (") {
        Ok(())
    } else {
        Err(Fail::new("not logged in"))
    }
}

/// A login into the maildrop `orders`.
static LOGIN: &[u8] = b"USER ann/orders\r\nPASS s3 cret\r\n";

/// An office with one message, in which ann is logged in on connection 1.
fn office_with(alloc: Global, text: &[u8]) -> Result<Office<PlainVault>, Fail> {
    let mut office = prepared(alloc, PlainVault::new(alloc))?;
    deposit(&mut office, "orders", text)?;
    log_in(alloc, &mut office, 1, LOGIN)?;
    Ok(office)
}

/// Fails unless a line has this reply, however many octets are taken at a time.
fn expect_answer(
    alloc: Global,
    office: &mut Office<PlainVault>,
    line: &[u8],
    want: &[u8],
) -> Result<(), Fail> {
    for most in &TAKINGS {
        if answer(alloc, office, 1, line, *most)?.as_slice() != want {
            return Err(Fail::new("another answer"));
        }
    }
    Ok(())
}

/// The octets `front`, `count` times `a`, and the octets `back`.
fn joined(alloc: Global, front: &[u8], count: usize, back: &[u8]) -> Result<Vec<u8>, AllocError> {
    let mut octets = Vec::new(alloc);
    octets.extend_from_slice(front)?;
    octets.extend_from_slice(&vec![in alloc; b'a'; count]?)?;
    octets.extend_from_slice(back)?;
    Ok(octets)
}

/// Fails unless a message of `count` times `a` and `text` is sent as `count` times `a` and `reply`,
/// in 4,121 octets.
fn expect_sent(alloc: Global, count: usize, text: &[u8], reply: &[u8]) -> Result<(), Fail> {
    let mut office = office_with(alloc, &joined(alloc, b"", count, text)?)?;
    let want = joined(alloc, b"+OK 4100 octets\r\n", count, reply)?;
    if want.len() != 4121 {
        return Err(Fail::new("another length"));
    }
    expect_answer(alloc, &mut office, b"RETR 1\r\n", &want)
}

/// A dot begins a page, and a line end is cut by a page's end.
#[test]
fn dots_at_the_edge_of_a_page(rt: HostRuntime) -> Result<(), Fail> {
    expect_sent(rt.alloc(), 4094, b"\n.x\n", b"\r\n..x\r\n.\r\n")?;
    expect_sent(rt.alloc(), 4095, b"\n.\n", b"\r\n..\r\n.\r\n")
}

/// Line `i` of the long message. Two of three lines begin with a dot.
fn line(alloc: Global, i: usize) -> Result<String, AllocError> {
    match i % 3 {
        0 => format!(in alloc; ".{i}"),
        1 => String::from_str(alloc, "..."),
        _ => Ok(String::new(alloc)),
    }
}

/// The long message.
fn message(alloc: Global) -> Result<Vec<u8>, AllocError> {
    let mut text = Vec::new(alloc);
    text.extend_from_slice(b"A: b\n\n")?;
    for i in 0..LINES {
        text.extend_from_slice(line(alloc, i)?.as_bytes())?;
        text.push(b'\n')?;
    }
    Ok(text)
}

/// A reply with the header and `lines` lines of the long message. A line that begins with a dot has
/// another before it.
fn reply(alloc: Global, front: &str, lines: usize) -> Result<Vec<u8>, AllocError> {
    let mut sent = Vec::new(alloc);
    sent.extend_from_slice(front.as_bytes())?;
    sent.extend_from_slice(b"\r\nA: b\r\n\r\n")?;
    for i in 0..lines {
        let line = line(alloc, i)?;
        if !line.is_empty() {
            sent.push(b'.')?;
        }
        sent.extend_from_slice(line.as_bytes())?;
        sent.extend_from_slice(b"\r\n")?;
    }
    sent.extend_from_slice(b".\r\n")?;
    Ok(sent)
}

/// How many octets the long message's kept form has: a CR more for each line.
fn kept_octets(text: &[u8]) -> usize {
    text.len().saturating_add(LINES.saturating_add(2))
}

/// The whole reply to RETR of the long message.
fn whole(alloc: Global, text: &[u8]) -> Result<Vec<u8>, AllocError> {
    let octets = kept_octets(text);
    let front = format!(in alloc; "+OK {octets} octets")?;
    reply(alloc, front.as_str(), LINES)
}

/// Fails unless TOP with `lines` lines sends as many, or all if the message has fewer.
fn expect_top(alloc: Global, office: &mut Office<PlainVault>, lines: usize) -> Result<(), Fail> {
    let line = format!(in alloc; "TOP 1 {lines}\r\n")?;
    let want = reply(alloc, "+OK top follows", lines.min(LINES))?;
    expect_answer(alloc, office, line.as_bytes(), &want)
}

#[test]
fn messages_of_dots(rt: HostRuntime) -> Result<(), Fail> {
    let alloc = rt.alloc();
    let text = message(alloc)?;
    let mut office = office_with(alloc, &text)?;
    expect_answer(alloc, &mut office, b"RETR 1\r\n", &whole(alloc, &text)?)?;
    for lines in [0usize, 1, 2, 3, 3500, 6000, 6001] {
        expect_top(alloc, &mut office, lines)?;
    }
    Ok(())
}

/// An office over a store that has the message and refuses call `n`. Ann is logged in. Call 1 is
/// the opening's, 2 and 3 are the login's, and the others are for the pages.
fn refusing_office(
    alloc: Global,
    text: &[u8],
    n: u64,
) -> Result<Office<Refusing<PlainVault>>, Fail> {
    let mut office = prepared(alloc, PlainVault::new(alloc))?;
    deposit(&mut office, "orders", text)?;
    let mut office = opened(alloc, Refusing::new(office.into_vault(), n))?;
    log_in(alloc, &mut office, 1, LOGIN)?;
    Ok(office)
}

/// How a message was sent.
#[derive(Clone, Copy, PartialEq, Eq)]
enum Sending {
    /// RETR was answered `-ERR store failed`, and the connection goes on.
    Refused,
    /// The connection was ended after a beginning of the reply, and the maildrop is free.
    CutOff,
    /// The whole reply came.
    Whole,
}

/// Answers `sending` if all is right, and else fails.
fn told(is_right: bool, sending: Sending) -> Result<Sending, Fail> {
    if is_right {
        Ok(sending)
    } else {
        Err(Fail::new("sent otherwise"))
    }
}

/// How the message is sent over a store that refuses call `n`.
fn sent_over_refusals(alloc: Global, text: &[u8], want: &[u8], n: u64) -> Result<Sending, Fail> {
    let mut office = refusing_office(alloc, text, n)?;
    let heard = says(&mut office, 1, b"RETR 1\r\n");
    let mut sent = Vec::new(alloc);
    let is_whole = takes_all(&mut office, 1, 5000, &mut sent)?;
    if !heard {
        let again = answer(alloc, &mut office, 1, b"RETR 1\r\n", usize::MAX)?;
        let is_told = sent.as_slice() == b"-ERR store failed\r\n".as_slice();
        return told(is_told && again.as_slice() == want, Sending::Refused);
    }
    if is_whole {
        return told(sent.as_slice() == want, Sending::Whole);
    }
    log_in(alloc, &mut office, 2, LOGIN)?;
    let is_beginning = sent.len() < want.len() && want.starts_with(&sent);
    told(is_beginning && office.ended(1), Sending::CutOff)
}

/// Refuses each page in turn. Answers how many refusals came with the line, and how many as the
/// client took octets.
fn refused_pages(alloc: Global, text: &[u8], want: &[u8]) -> Result<(usize, usize), Fail> {
    let mut with_line = 0usize;
    let mut later = 0usize;
    for n in 4..u64::MAX {
        match sent_over_refusals(alloc, text, want, n)? {
            Sending::Refused => with_line = with_line.saturating_add(1),
            Sending::CutOff => later = later.saturating_add(1),
            Sending::Whole => break,
        }
    }
    Ok((with_line, later))
}

/// Each page is read once: the first ones with the line, as far as the output has room, and the
/// others as the client takes octets.
#[test]
fn a_refused_page(rt: HostRuntime) -> Result<(), Fail> {
    let alloc = rt.alloc();
    let text = message(alloc)?;
    let (with_line, later) = refused_pages(alloc, &text, &whole(alloc, &text)?)?;
    assert!(rt; 0 < with_line && 0 < later);
    assert_eq!(rt;
        with_line.saturating_add(later),
        kept_octets(&text).div_ceil(SHEET)
    );
    Ok(())
}

/// An office with a message in each of two maildrops, and ann logged in on both.
fn office_with_two(alloc: Global, first: &[u8], second: &[u8]) -> Result<Office<PlainVault>, Fail> {
    let mut office = office_with(alloc, first)?;
    add_maildrop(&mut office, "sales")?;
    deposit(&mut office, "sales", second)?;
    log_in(alloc, &mut office, 2, b"USER ann/sales\r\nPASS s3 cret\r\n")?;
    Ok(office)
}

/// Has both clients take octets in turn, until nothing is owed.
fn takes_in_turn(
    office: &mut Office<PlainVault>,
    most: usize,
    first: &mut Vec<u8>,
    second: &mut Vec<u8>,
) -> Result<(), AllocError> {
    for _ in 0..u64::MAX {
        if office.owed(1).is_empty() && office.owed(2).is_empty() {
            break;
        }
        takes(office, 1, most, first)?;
        takes(office, 2, most, second)?;
    }
    Ok(())
}

/// Whether two messages that are fetched at once have these replies.
fn are_sent(
    alloc: Global,
    office: &mut Office<PlainVault>,
    most: usize,
    first: &[u8],
    second: &[u8],
) -> Result<bool, AllocError> {
    let mut one = Vec::new(alloc);
    let mut other = Vec::new(alloc);
    let is_heard = says(office, 1, b"RETR 1\r\n") && says(office, 2, b"RETR 1\r\n");
    takes_in_turn(office, most, &mut one, &mut other)?;
    Ok(is_heard && one.as_slice() == first && other.as_slice() == second)
}

#[test]
fn two_messages_side_by_side(rt: HostRuntime) -> Result<(), Fail> {
    let alloc = rt.alloc();
    let text = message(alloc)?;
    let first = whole(alloc, &text)?;
    let second = joined(alloc, b"+OK 20003 octets\r\n..", 20_000, b"\r\n.\r\n")?;
    let mut office = office_with_two(alloc, &text, &joined(alloc, b".", 20_000, b"")?)?;
    for most in &TAKINGS {
        assert!(rt;
            are_sent(alloc, &mut office, *most, &first, &second)?,
            "{most}"
        );
    }
    Ok(())
}
