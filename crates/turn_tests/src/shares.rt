//! How much of a long reply one turn writes: all of it on a link that is alone, and a share beside
//! another; and a share of a long response.

use crate::two_clerks::{name, office_of_two};
use creds::DepositId;
use office::{AdminCommand, Event, Office};
use serving::{Links, NoListener, ScriptSpool, ScriptWire, Server};
use std::alloc::Global;
use std::test::Fail;
use vault::PlainVault;

/// Serves a turn.
fn serve(
    server: &mut Server<PlainVault, ScriptWire, NoListener>,
    links: &mut Links,
    spool: &mut ScriptSpool,
) {
    server.serve_turn(links, spool, 0);
}

/// A server of this office, on this wire.
fn server_of(
    office: Office<PlainVault>,
    wire: ScriptWire,
) -> Server<PlainVault, ScriptWire, NoListener> {
    Server {
        office,
        wire,
        listener: NoListener,
    }
}

/// An office with a message of so many lines of forty octets in the maildrop `orders`.
fn office_with_a_long_message(alloc: Global, lines: u32) -> Result<Office<PlainVault>, Fail> {
    let mut office = office_of_two(alloc, &["orders"])?;
    let orders = name("orders")?;
    let note = name("note")?;
    let id = DepositId::read(b"d1").ok_or("id")?;
    let mut text = Vec::new(alloc);
    for _ in 0..lines {
        text.extend_from_slice(b"A line of forty octets with its end...\r\n")?;
    }
    let _ = office.step(Event::Deposit(&orders, &note, &id, &text));
    Ok(office)
}

/// What ann sends.
const ANN: &[u8] = b"USER ann/orders\r\nPASS s3 cret\r\nRETR 1\r\n";

/// How many octets ann got after each of three turns, by a link that takes so many at once, of
/// so many lines, with so many silent links beside hers.
fn told_by(alloc: Global, most: usize, lines: u32, silent: u32) -> Result<[usize; 3], Fail> {
    let office = office_with_a_long_message(alloc, lines)?;
    let mut wire = ScriptWire::new(alloc, Vec::new(alloc), most);
    // The wire gives the link that came last first.
    for _ in 0..silent {
        wire.connect(Vec::new(alloc))?;
    }
    wire.connect(Vec::from_slice(alloc, ANN)?)?;
    let mut spool = ScriptSpool::new(alloc);
    let mut server = server_of(office, wire);
    let mut links = server.begin(alloc, &spool);
    let mut behind = [0; 3];
    for turn in 0..3usize {
        serve(&mut server, &mut links, &mut spool);
        behind[turn] = server.wire.written(0).len();
    }
    Ok(behind)
}

/// The same of 2,000 lines, by a link that takes all that it is offered.
fn told(alloc: Global, silent: u32) -> Result<[usize; 3], Fail> {
    told_by(alloc, 20_000, 2000, silent)
}

#[test]
fn alone(rt: HostRuntime) -> Result<(), Fail> {
    let behind = told(rt.alloc(), 0)?;
    assert!(rt; behind[0] > 80_000);
    assert_eq!(rt; behind[1], behind[0]);
    assert_eq!(rt; behind[2], behind[0]);
    Ok(())
}

#[test]
fn beside_another(rt: HostRuntime) -> Result<(), Fail> {
    let behind = told(rt.alloc(), 1)?;
    assert!(rt; behind[0] < 20_000);
    assert_eq!(rt; behind[1], behind[0].saturating_add(16_384));
    assert_eq!(rt; behind[2], behind[1].saturating_add(16_384));
    Ok(())
}

#[test]
fn alone_64_full_writes(rt: HostRuntime) -> Result<(), Fail> {
    let behind = told_by(rt.alloc(), 20_000, 60_000, 0)?;
    assert_eq!(rt; behind[1], behind[0].saturating_add(1_048_576));
    Ok(())
}

#[test]
fn alone_64_writes(rt: HostRuntime) -> Result<(), Fail> {
    let behind = told_by(rt.alloc(), 100, 2000, 0)?;
    assert_eq!(rt; behind[1], behind[0].saturating_add(6_400));
    assert_eq!(rt; behind[2], behind[1].saturating_add(6_400));
    Ok(())
}

/// An office with 500 maildrops, whose list has 18,500 octets.
fn office_with_many_maildrops(alloc: Global) -> Result<Office<PlainVault>, Fail> {
    let mut office = office_of_two(alloc, &[])?;
    for number in 1000..1500u32 {
        let text = format!(in alloc; "a-maildrop-with-a-long-name-{number}")?;
        let maildrop = name(text.as_str())?;
        let _ = office.step(Event::Admin(&AdminCommand::AddMaildrop(maildrop)));
    }
    Ok(office)
}

#[test]
fn of_a_response(rt: HostRuntime) -> Result<(), Fail> {
    let alloc = rt.alloc();
    let office = office_with_many_maildrops(alloc)?;
    let mut wire = ScriptWire::new(alloc, Vec::new(alloc), 20_000);
    wire.request(Vec::from_slice(alloc, b"GET /maildrops HTTP/1.1\r\n\r\n")?)?;
    let mut spool = ScriptSpool::new(alloc);
    let mut server = server_of(office, wire);
    let mut links = server.begin(alloc, &spool);
    serve(&mut server, &mut links, &mut spool);
    assert_eq!(rt; server.wire.response(0).len(), 16_384);
    serve(&mut server, &mut links, &mut spool);
    assert!(rt; server.wire.response(0).len() > 18_500);
    assert!(rt; server.wire.is_request_closed(0));
    // Nothing is left to do: the turn after one that does nothing waits.
    serve(&mut server, &mut links, &mut spool);
    serve(&mut server, &mut links, &mut spool);
    assert_eq!(rt; server.wire.waited(), 1000);
    Ok(())
}
