//! Scenes over a wire in memory: who comes, what is sent and what each must get; played as they
//! stand, and with a fault in place of each read and write in turn.

use crate::two_clerks::{name, office_of_two};
use creds::DepositId;
use office::{Event, Office};
use serving::{Links, NoListener, Port, ScriptWire, Server, Spool, Stop};
use std::alloc::{AllocError, Global};
use std::net::IpAddr;
use std::test::Fail;
use vault::PlainVault;

/// An act of a scene. Guests are numbered from 0 on, as they come.
#[derive(Clone, Copy)]
pub enum Act {
    /// A client comes: the one of this place among them.
    Comes(usize),
    /// A link of the administration comes: the one of this place among them.
    Asks(usize),
    /// A guest sends a text, so many times over.
    Sends(usize, &'static str, u64),
    /// The client of this place takes nothing any more.
    Stalls(usize),
    /// So many turns, at a moment.
    Turns(u64, u64),
    /// A guest got a text, so many times over, after what it got before, and nothing
    /// else.
    Told(usize, &'static str, u64),
    /// A guest's link is open.
    Open(usize),
    /// A guest's link was closed.
    Closed(usize),
}

/// A scene in two parts. Each read and each write moves so many octets at most.
#[derive(Clone, Copy)]
pub struct Scene<'a> {
    pub piece: usize,
    pub first: &'a [Act],
    pub then: &'a [Act],
}

/// Who came on a link.
#[derive(Drop)]
struct Guest {
    port: Port,
    /// Its place among those of its port.
    place: usize,
    /// What it must have got by now.
    wanted: Vec<u8>,
    /// It got less, or its link was closed too early.
    is_lost: bool,
}

/// A server, its links and who came.
#[derive(Drop)]
pub struct Stage {
    pub alloc: Global,
    pub server: Server<PlainVault, ScriptWire, NoListener>,
    pub links: Links,
    guests: Vec<Guest>,
}

/// An office with a message of 21 octets in the maildrop `orders`, and the clerks ann and bob.
fn office_with_a_message(alloc: Global) -> Result<Office<PlainVault>, Fail> {
    let mut office = office_of_two(alloc, &["orders"])?;
    let orders = name("orders")?;
    let note = name("note")?;
    let id = DepositId::read(b"d1").ok_or("id")?;
    let _ = office.step(Event::Deposit(&orders, &note, &id, b"Subject: a\n\nhi\n.\n"));
    Ok(office)
}

/// A stage on which nothing has happened, to serve this spool, with a fault in place of a call.
pub fn staged<S: Spool>(
    alloc: Global,
    spool: &S,
    piece: usize,
    call: u64,
    stop: Stop,
) -> Result<Stage, Fail> {
    let office = office_with_a_message(alloc)?;
    let mut wire = ScriptWire::new(alloc, Vec::new(alloc), piece);
    wire.stop_at(call, stop);
    let server = Server {
        office,
        wire,
        listener: NoListener,
    };
    let links = server.begin(alloc, spool);
    Ok(Stage {
        alloc,
        server,
        links,
        guests: Vec::new(alloc),
    })
}

/// Serves so many turns at a moment.
pub fn turns<S: Spool>(stage: &mut Stage, spool: &mut S, count: u64, now: u64) {
    for _ in 0..count {
        stage.server.serve_turn(&mut stage.links, spool, now);
    }
}

/// A link comes at a port: the one of this place there.
fn comes(stage: &mut Stage, port: Port, place: usize) -> Result<(), AllocError> {
    let alloc = stage.alloc;
    stage.guests.push(Guest {
        port,
        place,
        wanted: Vec::new(alloc),
        is_lost: false,
    })?;
    match port {
        Port::Pop => stage.server.wire.connect(Vec::new(alloc)),
        Port::Admin => stage.server.wire.request(Vec::new(alloc)),
    }
}

/// Octets come from a guest.
fn send(wire: &mut ScriptWire, guest: &Guest, octets: &[u8]) -> Result<(), AllocError> {
    match guest.port {
        Port::Pop => wire.send(guest.place, octets),
        Port::Admin => wire.send_request(guest.place, octets),
    }
}

/// Whether a guest's link was closed.
fn is_closed(wire: &ScriptWire, guest: &Guest) -> bool {
    match guest.port {
        Port::Pop => wire.is_closed(guest.place),
        Port::Admin => wire.is_request_closed(guest.place),
    }
}

/// What a guest got.
fn told_to<'a>(wire: &'a ScriptWire, guest: &Guest) -> &'a [u8] {
    match guest.port {
        Port::Pop => wire.written(guest.place),
        Port::Admin => wire.response(guest.place),
    }
}

/// Whether a guest got what it must, or is lost: it got a beginning of it, and its
/// link was closed.
fn is_told(wire: &ScriptWire, guest: &mut Guest) -> bool {
    let told = told_to(wire, guest);
    if told == guest.wanted.as_slice() {
        return true;
    }
    let is_beginning = guest.wanted.starts_with(told);
    guest.is_lost = true;
    is_beginning && is_closed(wire, guest)
}

/// A guest sends a text, so many times over.
fn sends(wire: &mut ScriptWire, guest: &Guest, text: &str, times: u64) -> Result<(), AllocError> {
    for _ in 0..times {
        send(wire, guest, text.as_bytes())?;
    }
    Ok(())
}

/// A guest must get a text, so many times over, after what it got before.
fn wants(guest: &mut Guest, text: &str, times: u64) -> Result<(), AllocError> {
    for _ in 0..times {
        guest.wanted.extend_from_slice(text.as_bytes())?;
    }
    Ok(())
}

/// Does an act of a guest. Whether what must be is so.
fn does(wire: &mut ScriptWire, guest: &mut Guest, act: Act) -> Result<bool, AllocError> {
    match act {
        Act::Sends(_, text, times) => {
            sends(wire, guest, text, times)?;
            Ok(true)
        }
        Act::Told(_, text, times) => {
            wants(guest, text, times)?;
            Ok(is_told(wire, guest))
        }
        Act::Open(_) => {
            guest.is_lost |= is_closed(wire, guest);
            Ok(true)
        }
        _ => Ok(is_closed(wire, guest)),
    }
}

/// Does an act of the guest of this number.
fn guest_does(stage: &mut Stage, number: usize, act: Act) -> Result<(), Fail> {
    let Some(guest) = stage.guests.get_mut(number) else {
        return Err(Fail::new("no guest"));
    };
    if does(&mut stage.server.wire, guest, act)? {
        Ok(())
    } else {
        Err(Fail::new("told otherwise, or open"))
    }
}

/// Does an act.
fn play_act<S: Spool>(stage: &mut Stage, spool: &mut S, act: Act) -> Result<(), Fail> {
    match act {
        Act::Comes(place) => Ok(comes(stage, Port::Pop, place)?),
        Act::Asks(place) => Ok(comes(stage, Port::Admin, place)?),
        Act::Turns(count, now) => {
            turns(stage, spool, count, now);
            Ok(())
        }
        Act::Stalls(place) => {
            stage.server.wire.stall(place);
            Ok(())
        }
        Act::Sends(k, _, _) | Act::Told(k, _, _) | Act::Open(k) | Act::Closed(k) => {
            guest_does(stage, k, act)
        }
    }
}

/// Does these acts.
fn play_acts<S: Spool>(stage: &mut Stage, spool: &mut S, acts: &[Act]) -> Result<(), Fail> {
    for act in acts {
        play_act(stage, spool, *act)?;
    }
    Ok(())
}

/// How many guests are lost.
fn lost(guests: &[Guest]) -> u64 {
    let mut count = 0u64;
    for guest in guests {
        if guest.is_lost {
            count = count.saturating_add(1);
        }
    }
    count
}

/// Plays a scene on a stage: how many guests were lost, and how many calls there were.
fn play_on<S: Spool>(
    stage: &mut Stage,
    spool: &mut S,
    scene: &Scene<'_>,
) -> Result<(u64, u64), Fail> {
    play_acts(stage, spool, scene.first)?;
    play_acts(stage, spool, scene.then)?;
    if stage.server.wire.strayed() {
        return Err(Fail::new("a link that was over was read or written"));
    }
    Ok((lost(stage.guests.as_slice()), stage.server.wire.calls()))
}

/// The same, with a fault in place of a call.
fn play<S: Spool>(
    alloc: Global,
    spool: &mut S,
    scene: &Scene<'_>,
    call: u64,
    stop: Stop,
) -> Result<(u64, u64), Fail> {
    let mut stage = staged(alloc, spool, scene.piece, call, stop)?;
    play_on(&mut stage, spool, scene)
}

/// What the links are set to, and the clients' addresses, in the order in which they come.
#[derive(Clone, Copy)]
pub struct Settings<'a> {
    pub wait: u64,
    pub login_seconds: u64,
    pub slow_guesses: bool,
    pub from: &'a [IpAddr],
}

/// Plays acts without a fault, over links that are set so. No guest may be lost.
pub fn play_set<S: Spool>(
    alloc: Global,
    spool: &mut S,
    acts: &[Act],
    settings: &Settings<'_>,
) -> Result<(), Fail> {
    let mut stage = staged(alloc, spool, 4096, u64::MAX, Stop::End)?;
    stage.links.set_wait(settings.wait);
    stage.links.set_login_seconds(settings.login_seconds);
    stage.links.set_slow_guesses(settings.slow_guesses);
    let mut addresses = Vec::new(alloc);
    addresses.extend_from_slice(settings.from)?;
    stage.server.wire.set_addresses(addresses);
    play_acts(&mut stage, spool, acts)?;
    if lost(stage.guests.as_slice()) > 0 {
        return Err(Fail::new("a guest is lost"));
    }
    Ok(())
}

/// Plays a scene as it stands, and with a fault in place of each of its calls in turn, by which one
/// guest alone is lost each time. How many calls it has.
pub fn cut_by<S: Spool>(
    alloc: Global,
    spool: &mut S,
    scene: &Scene<'_>,
    stop: Stop,
    every: u64,
) -> Result<u64, Fail> {
    let (lost, calls) = play(alloc, spool, scene, u64::MAX, stop)?;
    if lost > 0 {
        return Err(Fail::new("a guest is lost"));
    }
    for call in 0..calls {
        if call.checked_rem(every) != Some(0) {
            continue;
        }
        let (lost, _) = play(alloc, spool, scene, call, stop)?;
        if lost != 1 {
            return Err(Fail::new("not one guest alone is lost"));
        }
    }
    Ok(calls)
}

/// Does so with each fault. How many calls the scene has.
pub fn cut_off<S: Spool>(alloc: Global, spool: &mut S, scene: &Scene<'_>) -> Result<u64, Fail> {
    let calls = cut_by(alloc, spool, scene, Stop::End, 1)?;
    cut_by(alloc, spool, scene, Stop::Broken, 1)?;
    Ok(calls)
}
