//! Lines of proxies, and the links that they begin.
use proxy::{ProxiedWire, ProxyLine};
use serving::{Io, Link, Port, Refusal, ScriptWire, Wire};
use std::alloc::{AllocError, Global};
use std::io;
use std::net::{IpAddr, Ipv4Addr};
use std::test::Fail;
use std::time::{Clock, Duration};

/// A clock whose seconds the test sets.
#[derive(Drop)]
struct HandClock {
    seconds: u64,
}

impl Clock for HandClock {
    fn monotonic(&self) -> io::Result<Duration> {
        Ok(Duration::from_secs(self.seconds))
    }

    fn since_1970(&self) -> io::Result<Duration> {
        Ok(Duration::from_secs(self.seconds))
    }
}

/// A client's link in memory, from a proxy.
type TestWire = ProxiedWire<ScriptWire, HandClock>;

/// What comes on a link, what is read from it, and what its address is: an address, `peer` for that
/// of the wire inside, `none` if it isn't known, `broken` if the link was closed.
static LINKS: [(&str, &str, &str); 17] = [
    (
        "PROXY TCP4 203.0.113.7 127.0.0.1 51234 1110\r\nCAPA\r\n",
        "CAPA\r\n",
        "203.0.113.7",
    ),
    (
        "PROXY TCP4 203.0.113.7 127.0.0.1 51234 1110\r\n",
        "",
        "203.0.113.7",
    ),
    (
        "PROXY TCP6 2001:db8::7 ::1 51234 1110\r\nQUIT\r\nx",
        "QUIT\r\nx",
        "2001:db8::7",
    ),
    ("PROXY UNKNOWN\r\nCAPA\r\n", "CAPA\r\n", "127.0.0.1"),
    (
        "PROXY UNKNOWN ffff::1 what 0 0\r\nCAPA\r\n",
        "CAPA\r\n",
        "127.0.0.1",
    ),
    ("PROXY TCP4 203.0.113.7", "", "none"),
    ("", "", "none"),
    ("CAPA\r\n", "", "broken"),
    ("\r\n\r\n\0\r\nQUIT\n!\x11\0\x0c", "", "broken"),
    (
        "PROXY TCP4 203.0.113.7 127.0.0.1 51234 1110\nCAPA\r\n",
        "",
        "broken",
    ),
    (
        "PROXY TCP4 203.0.113.07 127.0.0.1 51234 1110\r\nCAPA\r\n",
        "",
        "broken",
    ),
    (
        "PROXY TCP4 203.0.113.7 ::1 51234 1110\r\nCAPA\r\n",
        "",
        "broken",
    ),
    (
        "PROXY TCP4 203.0.113.7 127.0.0.1 65536 1110\r\nCAPA\r\n",
        "",
        "broken",
    ),
    (
        "PROXY TCP4 203.0.113.7 127.0.0.1 51234 01\r\nCAPA\r\n",
        "",
        "broken",
    ),
    (
        "PROXY TCP4  203.0.113.7 127.0.0.1 51234 1110\r\nCAPA\r\n",
        "",
        "broken",
    ),
    (
        "PROXY UNKNOWN 012345678901234567890123456789012345678901234567890123456789\
            0123456789012345678901234567890\r\nCAPA\r\n",
        "CAPA\r\n",
        "127.0.0.1",
    ),
    (
        "PROXY UNKNOWN 012345678901234567890123456789012345678901234567890123456789\
            01234567890123456789012345678901\r\nCAPA\r\n",
        "",
        "broken",
    ),
];

/// A wire on whose first link this comes, in pieces of so many octets at most.
fn wire_of(alloc: Global, comes: &str, piece: usize) -> Result<TestWire, AllocError> {
    let mut waiting = Vec::new(alloc);
    waiting.push(comes.as_bytes().to_vec(alloc)?)?;
    let mut inside = ScriptWire::new(alloc, waiting, piece);
    let mut addresses = Vec::new(alloc);
    addresses.push(IpAddr::V4(Ipv4Addr::new(127, 0, 0, 1)))?;
    inside.set_addresses(addresses);
    Ok(ProxiedWire::new(alloc, inside, HandClock { seconds: 5 }))
}

/// Reads 200 times from a link; `false` if it is over then.
fn read_on(wire: &mut TestWire, link: Link, heard: &mut Vec<u8>) -> Result<bool, AllocError> {
    let mut room = [0; 4096];
    for _ in 0..200 {
        match wire.read(Port::Pop, link, &mut room) {
            Io::Count(count) => heard.extend_from_slice(&room[..count])?,
            Io::Later => {}
            Io::End | Io::Broken => return Ok(false),
        }
    }
    Ok(true)
}

/// The address of a link, as the table says it.
fn source_text(alloc: Global, wire: &TestWire, link: Link) -> Result<String, AllocError> {
    if wire.wire.is_closed(0) {
        return String::from_str(alloc, "broken");
    }
    match wire.address(Port::Pop, link) {
        Some(address) => format!(in alloc; "{address}"),
        None => String::from_str(alloc, "none"),
    }
}

/// Whether a link with this on it is read as a row says.
fn is_as(alloc: Global, row: &(&str, &str, &str), piece: usize) -> Result<bool, AllocError> {
    let (comes, hears, source) = *row;
    let mut wire = wire_of(alloc, comes, piece)?;
    let Some(link) = wire.accept(Port::Pop) else {
        return Ok(false);
    };
    let mut heard = Vec::new(alloc);
    let open = read_on(&mut wire, link, &mut heard)?;
    let told = source_text(alloc, &wire, link)?;
    Ok(
        heard.as_slice() == hears.as_bytes()
            && told.as_str() == source
            && open == (source != "broken")
            && (wire.refusal(link) == Some(Refusal::NoLine)) == (source == "broken")
            && !wire.wire.strayed(),
    )
}

#[test]
fn first_lines(rt: HostRuntime) -> Result<(), Fail> {
    for row in &LINKS {
        assert!(rt; is_as(rt.alloc(), row, 4096)?, "{}", row.0);
        assert!(rt; is_as(rt.alloc(), row, 1)?, "{}", row.0);
        assert!(rt; is_as(rt.alloc(), row, 7)?, "{}", row.0);
    }
    Ok(())
}

/// A line that isn't whole ten seconds after the acceptance closes its link, and not before.
#[test]
fn late_line(rt: HostRuntime) -> Result<(), Fail> {
    let mut wire = wire_of(rt.alloc(), "PROXY TCP4 203.0", 4096)?;
    let link = wire.accept(Port::Pop).ok_or("no link")?;
    let mut room = [0; 16];
    wire.clock.seconds = 14;
    assert_eq!(rt; wire.read(Port::Pop, link, &mut room), Io::Later);
    assert!(rt; !wire.wire.is_closed(0));
    wire.clock.seconds = 15;
    assert_eq!(rt; wire.read(Port::Pop, link, &mut room), Io::Broken);
    assert!(rt; wire.wire.is_closed(0));
    assert!(rt; wire.refusal(link) == Some(Refusal::TooLate));
    Ok(())
}

/// What lies after a line is looked at in the next turn, which doesn't wait.
#[test]
fn looked_at_behind(rt: HostRuntime) -> Result<(), Fail> {
    let mut wire = wire_of(rt.alloc(), "PROXY UNKNOWN\r\nCAPA\r\n", 4096)?;
    let link = wire.accept(Port::Pop).ok_or("no link")?;
    let mut room = [0; 4096];
    assert_eq!(rt; wire.look(Port::Pop, link, &mut room), Io::Later);
    assert_eq!(rt; wire.read(Port::Pop, link, &mut room), Io::Later);
    wire.wait(1000);
    assert_eq!(rt; wire.wire.waited(), 0);
    assert_eq!(rt; wire.look(Port::Pop, link, &mut room), Io::Count(6));
    wire.wait(1000);
    assert_eq!(rt; wire.wire.waited(), 1000);
    Ok(())
}

/// Links of the administration have no line.
#[test]
fn administration(rt: HostRuntime) -> Result<(), Fail> {
    let mut wire = wire_of(rt.alloc(), "", 4096)?;
    wire.wire
        .request(b"GET / HTTP/1.1\r\n".to_vec(rt.alloc())?)?;
    let link = wire.accept(Port::Admin).ok_or("no link")?;
    let mut room = [0; 4096];
    assert_eq!(rt; wire.read(Port::Admin, link, &mut room), Io::Count(16));
    Ok(())
}

#[test]
fn sources(rt: HostRuntime) -> Result<(), Fail> {
    let line = b"PROXY TCP4 255.255.255.255 255.255.255.255 65535 65535\r\n";
    let read = ProxyLine::read(line).ok_or("no line")?;
    let all = IpAddr::V4(Ipv4Addr::new(255, 255, 255, 255));
    assert!(rt; read.source == Some(all));
    assert!(rt; ProxyLine::read(b"PROXY\r\n").is_none());
    assert!(rt; ProxyLine::read(b"\n").is_none());
    Ok(())
}
