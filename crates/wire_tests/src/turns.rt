//! Turns over a wire in memory.
use office::Office;
use serving::{Links, NoListener, ScriptSpool, ScriptWire, Server, Wire};
use std::alloc::Global;
use std::test::Fail;
use transcripts::offices::{deposit, prepared};
use vault::PlainVault;

/// What a client that sends CAPA and QUIT is sent.
static GREETING_ROW: &[u8] =
    b"+OK POP3 server ready <1.7@h.test>\r\n+OK capability list follows\r\nTOP\r\nUSER\r\nUIDL\r\nRESP-CODES\r\nPIPELINING\r\n.\r\n+OK bye\r\n";

/// A login as ann, a RETR, a DELE and a QUIT, all sent at once.
static PIPELINED: &[u8] = b"USER ann/orders\r\nPASS s3 cret\r\nRETR 1\r\nDELE 1\r\nQUIT\r\n";

/// What a client that sends `PIPELINED` is sent.
static PIPELINED_ROW: &[u8] =
    b"+OK POP3 server ready <1.7@h.test>\r\n+OK send PASS\r\n+OK maildrop has 1 messages (21 octets)\r\n+OK 21 octets\r\nSubject: a\r\n\r\nhi\r\n..\r\n.\r\n+OK message 1 deleted\r\n+OK bye\r\n";

/// A copy of these octets in a vector.
pub(super) fn octets(alloc: Global, text: &[u8]) -> Result<Vec<u8>, Fail> {
    let mut copy = Vec::new(alloc);
    copy.extend_from_slice(text)?;
    Ok(copy)
}

/// An office with the clerk ann and the maildrop `orders`, which has the message of deposit d1.
pub(super) fn new_office(alloc: Global) -> Result<Office<PlainVault>, Fail> {
    let mut office = prepared(alloc, PlainVault::new(alloc))?;
    deposit(&mut office, "orders", b"Subject: a\n\nhi\n.\n")?;
    Ok(office)
}

/// A wire with one link to be accepted, which brings the octets `comes`. Each read and each write
/// moves `piece` octets at most.
pub(super) fn one_link(alloc: Global, comes: &[u8], piece: usize) -> Result<ScriptWire, Fail> {
    let mut waiting = Vec::new(alloc);
    waiting.push(octets(alloc, comes)?)?;
    Ok(ScriptWire::new(alloc, waiting, piece))
}

/// A server of `new_office`, on this wire.
pub(super) fn server_on<W: Wire + Drop>(
    alloc: Global,
    wire: W,
) -> Result<Server<PlainVault, W, NoListener>, Fail> {
    Ok(Server {
        office: new_office(alloc)?,
        wire,
        listener: NoListener,
    })
}

/// Serves `count` turns, without a spool file.
pub(super) fn turns(
    alloc: Global,
    server: &mut Server<PlainVault, ScriptWire, NoListener>,
    links: &mut Links,
    count: u64,
) {
    let mut spool = ScriptSpool::new(alloc);
    for turn in 0..count {
        server.serve_turn(links, &mut spool, turn / 100);
    }
}

/// The wire after `count` turns with one link, which brings the octets `comes`. Each read and each
/// write moves `piece` octets at most.
fn served(alloc: Global, comes: &[u8], piece: usize, count: u64) -> Result<ScriptWire, Fail> {
    let mut server = server_on(alloc, one_link(alloc, comes, piece)?)?;
    let mut links = server.begin(alloc, &ScriptSpool::new(alloc));
    turns(alloc, &mut server, &mut links, count);
    Ok(server.wire)
}

#[test]
fn greeting_row(rt: HostRuntime) -> Result<(), Fail> {
    for piece in [1usize, 7, 4096] {
        let wire = served(rt.alloc(), b"CAPA\r\nQUIT\r\n", piece, 60)?;
        assert!(rt; wire.written(0) == GREETING_ROW);
        assert!(rt; wire.is_closed(0));
    }
    Ok(())
}

#[test]
fn pipelined_row(rt: HostRuntime) -> Result<(), Fail> {
    for piece in [1usize, 7, 4096] {
        let wire = served(rt.alloc(), PIPELINED, piece, 200)?;
        assert!(rt; wire.written(0) == PIPELINED_ROW);
        assert!(rt; wire.is_closed(0));
    }
    Ok(())
}

/// A half-closed client gets the replies to all that it sent, and is then gone.
#[test]
fn half_closed(rt: HostRuntime) -> Result<(), Fail> {
    let alloc = rt.alloc();
    let mut server = server_on(alloc, one_link(alloc, b"NOOP\r\nNOOP\r\n", 4096)?)?;
    server.wire.end_links();
    let mut links = server.begin(alloc, &ScriptSpool::new(alloc));
    turns(alloc, &mut server, &mut links, 10);
    assert!(rt;
        server.wire.written(0)
            == b"+OK POP3 server ready <1.7@h.test>\r\n-ERR wrong state\r\n-ERR wrong state\r\n".as_slice()
    );
    assert!(rt; server.wire.is_closed(0) && links.count() == 0);
    Ok(())
}
