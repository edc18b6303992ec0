//! Turns over a wire by chance: clients and requests in pieces, that wait, end and break, beside a
//! reckoning that is given whole lines.
use crate::chance::Chance;
use crate::heard::Heard;
use crate::random_wire::RandomWire;
use crate::reckoning::{Counts, Reckoning};
use crate::sent::{MAILDROPS, some_line, some_maildrop};
use crate::two_clerks::{name, office_of_two};
use creds::DepositId;
use office::{Answer, Event, Office, Outcome, read_number};
use serving::{Links, ScriptSpool, Server};
use std::alloc::{AllocError, Global};
use std::fs;
use std::test::Fail;
use vault::PlainVault;

/// By which seed the numbers come, and how many turns there are, unless the file says otherwise.
const SEED: u64 = 1;

const TURNS: u64 = 2500;

/// A file with another seed and another number of turns, which tools/check-by-chance writes.
const FILE: &str = "random-turns";

/// A server and its spool.
#[derive(Drop)]
struct Game {
    alloc: Global,
    /// Its listener has what the server judged in a turn.
    server: Server<PlainVault, RandomWire, Heard>,
    links: Links,
    spool: ScriptSpool,
    /// How many files were put.
    files: u64,
}

/// A game over two offices that are alike: one that serves, one that reckons.
fn new_game(
    alloc: Global,
    seed: u64,
    office: Office<PlainVault>,
    other: Office<PlainVault>,
) -> Game {
    let wire = RandomWire {
        reckoning: Reckoning::new(alloc, other),
        chance: Chance::new(seed),
        waiting: 0,
        asking: 0,
        is_fast: false,
        is_calm: false,
    };
    let spool = ScriptSpool::new(alloc);
    let server = Server {
        office,
        wire,
        listener: Heard::new(alloc),
    };
    let links = server.begin(alloc, &spool);
    Game {
        alloc,
        server,
        links,
        spool,
        files: 0,
    }
}

/// Some client sends some text.
fn send_some(wire: &mut RandomWire) -> Result<(), AllocError> {
    let line = some_line(&mut wire.chance);
    let count = wire.reckoning.guests.len();
    let place = wire.chance.below(count as u64);
    match wire.reckoning.guests.get_mut(place as usize) {
        Some(guest) => guest.says(line),
        None => Ok(()),
    }
}

/// Some clients send.
fn clients_send(wire: &mut RandomWire) -> Result<(), AllocError> {
    for _ in 0..wire.chance.below(6) {
        send_some(wire)?;
    }
    Ok(())
}

/// A message's text by chance.
fn some_message(alloc: Global, chance: &mut Chance) -> Result<Vec<u8>, AllocError> {
    let mut text = Vec::new(alloc);
    text.extend_from_slice(b"A: b\n\n")?;
    let most = chance.size();
    for _ in 0..chance.below(most as u64) {
        text.extend_from_slice(b".\n..x\n\nabcd")?;
    }
    text.push(b'\n')?;
    Ok(text)
}

/// So many seconds pass.
fn pass_time(wire: &mut RandomWire, seconds: u64) {
    wire.reckoning.now = wire.reckoning.now.saturating_add(seconds);
}

/// So many seconds pass that some have done nothing for too long.
fn pass_minutes(wire: &mut RandomWire) {
    let seconds = wire.chance.below(300).saturating_add(301);
    pass_time(wire, seconds);
}

/// What comes by chance before a turn, the spool aside.
fn come_some(wire: &mut RandomWire) -> Result<(), AllocError> {
    match wire.chance.below(32) {
        0..8 => wire.waiting = 1,
        8 if wire.chance.once_in(8) => wire.waiting = 70,
        9 | 23 => wire.asking = 1,
        22 if wire.chance.once_in(8) => wire.asking = 12,
        10..20 => pass_time(wire, 1),
        20 => pass_time(wire, 40),
        21 if wire.chance.once_in(8) => pass_minutes(wire),
        _ => {}
    }
    clients_send(wire)
}

/// Serves a turn.
fn serve(game: &mut Game) {
    let now = game.server.wire.reckoning.now;
    game.server
        .serve_turn(&mut game.links, &mut game.spool, now);
}

/// The office that reckons is given a deposit. Whether it took it.
fn deposit(
    office: &mut Office<PlainVault>,
    maildrop: &str,
    id: &[u8],
    text: &[u8],
) -> Result<bool, Fail> {
    let maildrop = name(maildrop)?;
    let note = name("note")?;
    let id = DepositId::read(id).ok_or("id")?;
    match office.step(Event::Deposit(&maildrop, &note, &id, text)) {
        Outcome::Answered(Answer::New(_)) => Ok(true),
        _ => Ok(false),
    }
}

/// Serves a turn with a file in the spool, which is then deposited.
fn serve_with_file(game: &mut Game) -> Result<(), Fail> {
    let text = some_message(game.alloc, &mut game.server.wire.chance)?;
    let id = format!(in game.alloc; "f{}", game.files)?;
    game.files = game.files.saturating_add(1);
    let maildrop = some_maildrop(&mut game.server.wire.chance);
    let file = format!(in game.alloc; "{maildrop}.note.{id}.eml")?;
    game.spool.put(file.as_str(), text.as_slice())?;
    serve(game);
    let office = &mut game.server.wire.reckoning.office;
    let is_new = deposit(office, maildrop, id.as_bytes(), text.as_slice())?;
    if game.spool.has(file.as_str()) || !is_new {
        game.server.wire.reckoning.note("not deposited");
    }
    Ok(())
}

/// After a turn the links of clients that are over are closed, and no others.
fn look_at_links(links: &Links, reckoning: &mut Reckoning) {
    let (clients, requests) = reckoning.open();
    if links.count() != clients || links.requests() != requests {
        reckoning.note("another number of links");
    }
    if reckoning.over() > 0 {
        reckoning.note("not closed");
    }
}

/// What was heard in a turn is what the office that reckons judged, line by line.
fn compare_heard(heard: &mut Heard, reckoning: &mut Reckoning) {
    if !heard.is_as(&reckoning.heard) {
        reckoning.note("another account");
    }
    reckoning.counts.judged = reckoning.counts.judged.saturating_add(heard.len() as u64);
    heard.clear();
    reckoning.heard.clear();
}

/// What the server judged in a turn is what the office that reckons did.
fn look_at_accounts(server: &mut Server<PlainVault, RandomWire, Heard>) {
    compare_heard(&mut server.listener, &mut server.wire.reckoning);
}

/// A turn.
fn turn(game: &mut Game) -> Result<(), Fail> {
    come_some(&mut game.server.wire)?;
    if game.server.wire.chance.once_in(24) {
        serve_with_file(game)?;
    } else {
        serve(game);
    }
    look_at_links(&game.links, &mut game.server.wire.reckoning);
    look_at_accounts(&mut game.server);
    Ok(())
}

/// So many turns, until something goes wrong. How many there were.
fn play(game: &mut Game, turns: u64) -> Result<u64, Fail> {
    for done in 0..turns {
        if game.server.wire.reckoning.fault.is_some() {
            return Ok(done);
        }
        turn(game)?;
    }
    Ok(turns)
}

/// Turns in which nothing comes, waits, ends or breaks: all that came is then answered.
fn calm_down(game: &mut Game) {
    game.server.wire.is_calm = true;
    for _ in 0..1000u32 {
        if game.server.wire.reckoning.is_done() {
            return;
        }
        serve(game);
        look_at_links(&game.links, &mut game.server.wire.reckoning);
        look_at_accounts(&mut game.server);
    }
    game.server.wire.reckoning.note("not all was told");
}

/// Plays so many turns by a seed: how many there were, what went wrong, and how often what
/// happened.
fn played(alloc: Global, seed: u64, turns: u64) -> Result<(u64, &'static str, Counts), Fail> {
    let other = office_of_two(alloc, &MAILDROPS)?;
    let mut game = new_game(alloc, seed, office_of_two(alloc, &MAILDROPS)?, other);
    let done = play(&mut game, turns)?;
    calm_down(&mut game);
    let counts = game.server.wire.reckoning.counts;
    Ok((done, game.server.wire.reckoning.fault.unwrap_or(""), counts))
}

/// The seed and the number of turns that a file says.
fn read_chosen(text: &str) -> Option<(u64, u64)> {
    let (seed, turns) = text.split_once(' ')?;
    Some((
        read_number(seed.as_bytes())?,
        read_number(turns.as_bytes())?,
    ))
}

/// A text of the counts.
fn counts_text(alloc: Global, counts: &Counts) -> Result<String, AllocError> {
    let Counts {
        came,
        lines,
        requests,
        told,
        lost,
        late,
        ended,
        closed,
        judged,
    } = *counts;
    format!(in alloc;
        "{came} links, {lines} lines, {requests} requests, {told} octets, {lost} lost, \
        {late} late, {ended} ended, {closed} closed, {judged} judged"
    )
}

/// Whether each kind of thing happened often enough.
fn are_many(counts: &Counts) -> bool {
    counts.came > 1000
        && counts.lines > 3000
        && counts.requests > 100
        && counts.lost > 100
        && counts.late > 20
        && counts.ended > 5
        && counts.closed > 1000
        && counts.judged > 1000
}

#[test]
fn turns_by_chance(rt: HostRuntime) -> Result<(), Fail> {
    let chosen = fs::read_to_string(&rt, FILE);
    let (seed, turns) = match &chosen {
        Ok(text) => read_chosen(text.as_str()).ok_or("no seed and turns")?,
        Err(_) => (SEED, TURNS),
    };
    let (done, fault, counts) = played(rt.alloc(), seed, turns)?;
    let text = counts_text(rt.alloc(), &counts)?;
    println!(rt; "seed {seed}, {done} turns: {text}")?;
    assert!(rt; fault.is_empty(), "{fault}");
    assert!(rt; turns < TURNS || are_many(&counts), "too few");
    Ok(())
}
