//! Clients that break off, send too much, take nothing or do nothing, over a wire in memory.
use crate::turns::{octets, one_link, server_on, turns};
use serving::{ScriptSpool, ScriptWire, Stop};
use std::alloc::Global;
use std::test::Fail;

/// Serves two links with a fault in place of one call of the wire. Answers the wire, with what both
/// were sent, and whether both are closed.
fn with_stop(alloc: Global, call: u64, stop: Stop) -> Result<(ScriptWire, bool), Fail> {
    let mut server = server_on(alloc, one_link(alloc, b"CAPA\r\nQUIT\r\n", 7)?)?;
    server.wire.connect(octets(alloc, b"NOOP\r\nQUIT\r\n")?)?;
    server.wire.stop_at(call, stop);
    let mut links = server.begin(alloc, &ScriptSpool::new(alloc));
    turns(alloc, &mut server, &mut links, 60);
    Ok((server.wire, links.count() == 0))
}

#[test]
fn a_fault_ends_its_own_link(rt: HostRuntime) -> Result<(), Fail> {
    let noop: &[u8] = b"+OK POP3 server ready <1.7@h.test>\r\n-ERR wrong state\r\n+OK bye\r\n";
    for call in 0..70u64 {
        for stop in [Stop::End, Stop::Broken] {
            let (wire, all_closed) = with_stop(rt.alloc(), call, stop)?;
            let first = wire.written(0);
            let second = wire.written(1);
            let first_whole = first == noop;
            let second_ends = second.ends_with(b"+OK bye\r\n");
            assert!(rt; all_closed && (first_whole || second_ends), "{call}");
            assert!(rt; noop.starts_with(first), "{call}");
        }
    }
    Ok(())
}

#[test]
fn sixty_four_links_and_one_more(rt: HostRuntime) -> Result<(), Fail> {
    let alloc = rt.alloc();
    let mut server = server_on(alloc, ScriptWire::new(alloc, Vec::new(alloc), 4096))?;
    for _ in 0..65u32 {
        server.wire.connect(Vec::new(alloc))?;
    }
    let mut links = server.begin(alloc, &ScriptSpool::new(alloc));
    turns(alloc, &mut server, &mut links, 3);
    assert_eq!(rt; links.count(), 64);
    assert!(rt; server.wire.is_closed(64) && server.wire.written(64).is_empty());
    assert!(rt; server.wire.written(63) == b"+OK POP3 server ready <64.7@h.test>\r\n".as_slice());
    server.wire.send(63, b"QUIT\r\n")?;
    turns(alloc, &mut server, &mut links, 3);
    server.wire.connect(Vec::new(alloc))?;
    turns(alloc, &mut server, &mut links, 2);
    assert!(rt; server.wire.written(65) == b"+OK POP3 server ready <65.7@h.test>\r\n".as_slice());
    Ok(())
}

/// A link that sends lines but takes nothing isn't read after its first line, and every turn waits
/// as if it weren't there.
#[test]
fn a_link_that_never_takes(rt: HostRuntime) -> Result<(), Fail> {
    let alloc = rt.alloc();
    let mut server = server_on(alloc, one_link(alloc, b"", 4096)?)?;
    let mut links = server.begin(alloc, &ScriptSpool::new(alloc));
    turns(alloc, &mut server, &mut links, 2);
    server.wire.stall(0);
    server.wire.send(0, b"NOOP\r\n")?;
    for _ in 0..10u32 {
        server.wire.send(0, b"NOOP\r\n")?;
        turns(alloc, &mut server, &mut links, 1);
        assert_eq!(rt; server.wire.waited(), 1000);
    }
    assert!(rt; server.wire.written(0) == b"+OK POP3 server ready <1.7@h.test>\r\n".as_slice());
    Ok(())
}

/// A turn makes 64 writes on a link at most. The rest is written in the next turn, which doesn't
/// wait.
#[test]
fn more_than_64_writes(rt: HostRuntime) -> Result<(), Fail> {
    let alloc = rt.alloc();
    let mut server = server_on(alloc, one_link(alloc, b"CAPA\r\n", 1)?)?;
    let mut links = server.begin(alloc, &ScriptSpool::new(alloc));
    turns(alloc, &mut server, &mut links, 5);
    let before = server.wire.written(0).len();
    turns(alloc, &mut server, &mut links, 1);
    assert_eq!(rt; server.wire.written(0).len(), before + 64);
    turns(alloc, &mut server, &mut links, 1);
    assert_eq!(rt; server.wire.waited(), 0);
    turns(alloc, &mut server, &mut links, 2);
    assert_eq!(rt; server.wire.waited(), 1000);
    Ok(())
}

/// An idle connection is ended after 600 seconds without a further octet, and its link is closed.
#[test]
fn idle_link(rt: HostRuntime) -> Result<(), Fail> {
    let alloc = rt.alloc();
    let mut server = server_on(alloc, one_link(alloc, b"", 4096)?)?;
    let mut spool = ScriptSpool::new(alloc);
    let mut links = server.begin(alloc, &spool);
    server.serve_turn(&mut links, &mut spool, 0);
    server.serve_turn(&mut links, &mut spool, 599);
    assert!(rt; !server.wire.is_closed(0));
    server.serve_turn(&mut links, &mut spool, 600);
    assert!(rt; server.wire.is_closed(0) && links.count() == 0);
    Ok(())
}
