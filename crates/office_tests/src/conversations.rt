//! What no clause says of `talk`: that it holds a conversation, that it writes all replies before
//! the next read, and which fault it answers.

use crate::offices::opened;
use converse::Noted;
use converse::talk::{TalkFault, talk};
use creds::Name;
use office::{AdminCommand, Answer, Event, Office, Outcome};
use std::alloc::Global;
use std::cell::Cell;
use std::io;
use std::io::{ErrorKind, Read, Write};
use std::test::Fail;
use transcripts::playing::{expect, run_on};
use vault::PlainVault;

/// A reader that gives one line a read. It fails if the number of octets written so far isn't
/// the line's, and after `calls` reads.
#[derive(Drop)]
struct Lines<'a> {
    lines: &'a [(usize, &'a [u8])],
    told: usize,
    calls: usize,
    written: &'a Cell<usize>,
}

impl Read for Lines<'_> {
    fn read(&mut self, room: &mut [u8]) -> io::Result<usize> {
        let told = self.told;
        if told >= self.calls {
            return Err(ErrorKind::ConnectionReset.into());
        }
        if told >= self.lines.len() {
            return Ok(0);
        }
        let (wanted, line) = self.lines[told];
        if self.written.get() != wanted || line.len() > room.len() {
            return Err(ErrorKind::WouldBlock.into());
        }
        self.told = told + 1;
        room[..line.len()].copy_from_slice(line);
        Ok(line.len())
    }
}

/// A writer that takes `most` octets a call and counts them. It fails after so many calls.
#[derive(Drop)]
struct Written<'a> {
    text: Vec<u8>,
    most: usize,
    calls: usize,
    written: &'a Cell<usize>,
}

impl Write for Written<'_> {
    fn write(&mut self, octets: &[u8]) -> io::Result<usize> {
        if self.calls == 0 {
            return Err(ErrorKind::BrokenPipe.into());
        }
        self.calls -= 1;
        let count = octets.len().min(self.most);
        self.text.extend_from_slice(&octets[..count])?;
        self.written.set(self.written.get().wrapping_add(count));
        Ok(count)
    }

    fn flush(&mut self) -> io::Result<()> {
        Ok(())
    }
}

/// Has a conversation, from a reader and to a writer.
fn talked<R: Read, W: Write>(
    office: &mut Office<PlainVault>,
    reader: &mut R,
    writer: &mut W,
) -> Result<(), TalkFault> {
    talk(office, &mut Noted::new(reader), &mut Noted::new(writer))
}

/// Whether a client that sends these lines, and then nothing more, is sent this text, and its
/// connection is then over.
fn says(alloc: Global, office: &mut Office<PlainVault>, lines: &[u8], want: &str) -> bool {
    let mut text = Vec::new(alloc);
    let mut reader = lines;
    talked(office, &mut reader, &mut text).is_ok()
        && text.as_slice() == want.as_bytes()
        && office.ended(1)
}

/// What a client is sent for CAPA and USER.
static UNFINISHED: &str =
    "+OK POP3 server ready <1.7@h.test>\r\n+OK capability list follows\r\nTOP\r\nUSER\r\nUIDL\r\nRESP-CODES\r\nPIPELINING\r\n.\r\n+OK send PASS\r\n";

#[test]
fn a_reader_that_ends(rt: HostRuntime) -> Result<(), Fail> {
    let alloc = rt.alloc();
    let mut office = opened(alloc, PlainVault::new(alloc), "h.test")?;
    let lines = b"CAPA\r\nUSER ann/orders\nNOO";
    assert!(rt; says(alloc, &mut office, lines, UNFINISHED));
    Ok(())
}

/// A script that puts a message into the maildrop `orders`, in which ann may do everything.
static MESSAGE: &str = r#"maildrop add orders
clerk pass ann s3 cret
policy [[rule]]\nname = "ann-all"\neffect = "allow"\nclerk = "ann"\nmaildrop = "orders"\nclass = "*"\nactions = ["open", "read", "remove"]
deposit orders orders d1 x
"#;

/// What that script prints.
static MESSAGE_SAID: &str = "answer added\nanswer added\nanswer 1 rules\nanswer new orders.1\n";

/// An office whose maildrop orders has that message.
fn with_a_message(alloc: Global) -> Result<Office<PlainVault>, Fail> {
    let (ran, vault) = run_on(alloc, PlainVault::new(alloc), "h.test", 7, MESSAGE)?;
    expect(ran, MESSAGE_SAID)?;
    Ok(opened(alloc, vault, "h.test")?)
}

/// How many messages the maildrop orders has.
fn messages_in(office: &mut Office<PlainVault>) -> Option<usize> {
    let command = AdminCommand::ShowMaildrop(Name::read(b"orders")?);
    match office.step(Event::Admin(&command)) {
        Outcome::Answered(Answer::Messages(messages)) => Some(messages.rows().len()),
        _ => None,
    }
}

/// What a client is sent for a login and a DELE.
static MARKED: &str =
    "+OK POP3 server ready <1.7@h.test>\r\n+OK send PASS\r\n+OK maildrop has 1 messages (3 octets)\r\n+OK message 1 deleted\r\n";

/// What a second client is sent for a login, a DELE and a QUIT.
static QUIT: &str =
    "+OK POP3 server ready <2.7@h.test>\r\n+OK send PASS\r\n+OK maildrop has 1 messages (3 octets)\r\n+OK message 1 deleted\r\n+OK bye\r\n";

/// Whether the message stays after a client that marks it and goes, and is removed after one that
/// marks it and sends QUIT.
fn only_a_quit(alloc: Global, office: &mut Office<PlainVault>) -> bool {
    let marks = b"USER ann/orders\nPASS s3 cret\nDELE 1\n";
    let quits = b"USER ann/orders\nPASS s3 cret\nDELE 1\nQUIT\n";
    says(alloc, office, marks, MARKED)
        && messages_in(office) == Some(1)
        && says(alloc, office, quits, QUIT)
        && messages_in(office) == Some(0)
}

#[test]
fn only_a_quit_removes(rt: HostRuntime) -> Result<(), Fail> {
    let mut office = with_a_message(rt.alloc())?;
    assert!(rt; only_a_quit(rt.alloc(), &mut office));
    Ok(())
}

/// The lines of a login and a DELE, each with how many octets must be written before it is read.
static MARKING: [(usize, &[u8]); 3] = [
    (36, b"USER ann/orders\n"),
    (51, b"PASS s3 cret\n"),
    (91, b"DELE 1\n"),
];

/// Whether each line is read only after all replies to those before it are written, to a client
/// that takes `most` octets at a time.
fn is_prompt(alloc: Global, office: &mut Office<PlainVault>, most: usize) -> bool {
    let written = Cell::new(0);
    let mut reader = Lines {
        lines: MARKING.as_slice(),
        told: 0,
        calls: 100,
        written: &written,
    };
    let mut writer = Written {
        text: Vec::new(alloc),
        most,
        calls: 1000,
        written: &written,
    };
    talked(office, &mut reader, &mut writer).is_ok() && writer.text.as_slice() == MARKED.as_bytes()
}

#[test]
fn replies_are_written_before_the_next_read(rt: HostRuntime) -> Result<(), Fail> {
    for most in [1, 7, 1000] {
        let mut office = with_a_message(rt.alloc())?;
        assert!(rt; is_prompt(rt.alloc(), &mut office, most));
        assert!(rt; messages_in(&mut office) == Some(1));
    }
    Ok(())
}

/// CAPA, USER and QUIT in pieces of four octets, each with how many octets are written before it.
static PIECES: [(usize, &[u8]); 7] = [
    (36, b"CAPA"),
    (36, b"\nUSE"),
    (109, b"R an"),
    (109, b"n/or"),
    (109, b"ders"),
    (109, b"\nQUI"),
    (124, b"T\n"),
];

/// What a client is sent for them.
static FINISHED: &str =
    "+OK POP3 server ready <1.7@h.test>\r\n+OK capability list follows\r\nTOP\r\nUSER\r\nUIDL\r\nRESP-CODES\r\nPIPELINING\r\n.\r\n+OK send PASS\r\n+OK bye\r\n";

/// How many calls of a reader and of a writer are answered before one is refused, how many octets a
/// call of the writer takes at most, and the fault that comes of it.
static REFUSED: [(usize, usize, usize, Option<TalkFault>); 9] = [
    (0, 100, 20, Some(TalkFault::Read)),
    (1, 100, 20, Some(TalkFault::Read)),
    (6, 100, 20, Some(TalkFault::Read)),
    (7, 100, 20, None),
    (100, 0, 20, Some(TalkFault::Write)),
    (100, 1, 20, Some(TalkFault::Write)),
    (100, 7, 20, Some(TalkFault::Write)),
    (100, 8, 20, None),
    (100, 100, 0, Some(TalkFault::Write)),
];

/// Whether a conversation with such a reader and writer ends with this fault and its connection is
/// over. What is written must be a beginning of the replies and, without a fault, all of them.
fn is_told(
    alloc: Global,
    office: &mut Office<PlainVault>,
    calls: (usize, usize, usize),
    fault: Option<TalkFault>,
) -> bool {
    let (reads, writes, most) = calls;
    let written = Cell::new(0);
    let mut reader = Lines {
        lines: PIECES.as_slice(),
        told: 0,
        calls: reads,
        written: &written,
    };
    let mut writer = Written {
        text: Vec::new(alloc),
        most,
        calls: writes,
        written: &written,
    };
    talked(office, &mut reader, &mut writer).err() == fault
        && FINISHED.as_bytes().starts_with(writer.text.as_slice())
        && (fault.is_some() || writer.text.len() == FINISHED.len())
        && office.ended(1)
}

#[test]
fn each_call_refused(rt: HostRuntime) -> Result<(), Fail> {
    let alloc = rt.alloc();
    for (reads, writes, most, fault) in &REFUSED {
        let mut office = opened(alloc, PlainVault::new(alloc), "h.test")?;
        let calls = (*reads, *writes, *most);
        assert!(rt;
            is_told(alloc, &mut office, calls, *fault),
            "{reads} {writes}"
        );
    }
    Ok(())
}

/// Whether a further conversation is refused, before anything of it is read or written.
fn is_refused(alloc: Global, office: &mut Office<PlainVault>) -> bool {
    let mut text = Vec::new(alloc);
    let mut reader = b"QUIT\r\n".as_slice();
    talked(office, &mut reader, &mut text) == Err(TalkFault::TooManyConnections)
        && text.is_empty()
        && reader.len() == 6
}

#[test]
fn no_further_connection(rt: HostRuntime) -> Result<(), Fail> {
    let mut office = opened(rt.alloc(), PlainVault::new(rt.alloc()), "h.test")?;
    for _ in 0..64 {
        let _ = office.step(Event::Connect);
    }
    assert!(rt; is_refused(rt.alloc(), &mut office));
    Ok(())
}
