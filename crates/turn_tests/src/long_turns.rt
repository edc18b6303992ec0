//! Turns by chance in which clients remove many messages at once, over a store that prepares such a
//! removal in parts while others are served, and the deposit of a large file too; beside a
//! reckoning that removes them at once, and knows of no file.
ghost use Rattle.std.specs.Prelude.{None, ⊤};

use crate::chance::Chance;
use crate::heard::Heard;
use crate::random_wire::RandomWire;
use crate::reckoning::Reckoning;
use crate::sent::{MAILDROPS, some_line};
use crate::two_clerks::{admit_two, name, office_of_two};
use creds::{DepositId, Name};
use mailtext::canon;
use office::{AdminCommand, Answer, Event, Limits, Office, Outcome, read_number};
use serving::{Clock, Coming, FileName, Io, Link, Links, Port, Refusal, Server, Spool, Wire};
use sqlite::MemStore;
use sqlvault::{Ahead, SqlVault};
use std::alloc::{AllocError, Global};
use std::fs;
use std::net::{IpAddr, SocketAddr};
use std::test::Fail;
use vault::Vault;

/// By which seed the numbers come, how many rounds there are, and how many messages are there at
/// the beginning of each, unless the file says otherwise.
const CHOSEN: (u64, u64, u64) = (1, 8, 150);

/// A file with others, which tools/check-by-chance writes.
const FILE: &str = "long-turns";

/// How many turns a round has, and how many turns there are in a second.
const TURNS: u64 = 100;

const IN_A_SECOND: u64 = 4;

/// How many octets the large file has: more than are prepared in two parts.
const LARGE: usize = 600_000;

/// In which pause the file comes again, counted from the one in which it was prepared.
const AGAIN: u32 = 7;

/// A clock that goes on with the turns.
#[derive(Drop)]
struct Turns {
    count: u64,
}

/// The moment of the turn of this number.
fn moment_of(count: u64) -> u64 {
    count / IN_A_SECOND
}

impl Clock for Turns {
    ghost gave = { λ _ _. ⊥ };

    fn moment(&mut self) -> Option<u64> {
        self.count = self.count.saturating_add(1);
        Some(moment_of(self.count))
    }
}

/// A wire by chance on which clients come and send before each turn.
#[derive(Drop)]
struct BusyWire {
    wire: RandomWire,
    /// How many turns there were.
    count: u64,
    /// What a client sends who marks each message of a maildrop, for two maildrops.
    orders: Vec<u8>,
    stock: Vec<u8>,
}

/// A login, and lines that mark so many messages.
fn session_of(alloc: Global, login: &[u8], messages: u64) -> Result<Vec<u8>, AllocError> {
    let mut octets = Vec::new(alloc);
    octets.extend_from_slice(login)?;
    for n in 0..messages {
        let number = n.saturating_add(1);
        octets.extend_from_slice(format!(in alloc; "DELE {number}\r\n")?.as_bytes())?;
    }
    Ok(octets)
}

impl BusyWire {
    /// What a client sends, of whom all was read: mostly a session up to its QUIT, or the QUIT.
    fn some_step(&mut self) -> &[u8] {
        match self.wire.chance.below(16) {
            0..4 => self.orders.as_slice(),
            4..8 => self.stock.as_slice(),
            8..14 => b"QUIT\r\n",
            _ => some_line(&mut self.wire.chance),
        }
    }

    /// Some client sends something, if all of it was read.
    fn send_some(&mut self) -> Result<(), AllocError> {
        let count = self.wire.reckoning.guests.len();
        let place = self.wire.chance.below(count as u64) as usize;
        let mut octets = Vec::new(self.wire.reckoning.alloc);
        octets.extend_from_slice(self.some_step())?;
        match self.wire.reckoning.guests.get_mut(place) {
            Some(guest) if guest.unread().is_empty() => guest.says(octets.as_slice()),
            _ => Ok(()),
        }
    }

    /// What comes by chance before a turn.
    fn come_some(&mut self) -> Result<(), AllocError> {
        if self.wire.chance.once_in(8) && self.wire.reckoning.guests.len() < 12 {
            self.wire.waiting = 1;
        }
        if self.wire.chance.once_in(64) {
            self.wire.asking = 1;
        }
        self.send_some()
    }
}

impl Wire for BusyWire {
    ghost tells = { λ _ _. ⊥ };

    ghost asked = { λ _ _. ⊥ };

    ghost address_of = { λ _ _ _. None };

    ghost peer_of = { λ _ _ _. None };

    ghost closed_for = { λ _ _. None };

    ghost tells_once = { λ wire t u a b. absurd a };

    fn wait(&mut self, millis: u32) {
        if !self.wire.is_calm && self.come_some().is_err() {
            self.wire.reckoning.note("memory");
        }
        self.count = self.count.saturating_add(1);
        self.wire.reckoning.now = moment_of(self.count);
        self.wire.wait(millis);
    }

    fn accept(&mut self, port: Port) -> Option<Link> {
        self.wire.accept(port)
    }

    fn look(&mut self, port: Port, link: Link, buffer: &mut [u8]) -> Io {
        self.wire.show(port, link, buffer)
    }

    fn read(&mut self, port: Port, link: Link, buffer: &mut [u8]) -> Io {
        self.wire.read(port, link, buffer)
    }

    fn write(&mut self, port: Port, link: Link, octets: &[u8]) -> Io {
        self.wire.write(port, link, octets)
    }

    fn address(&self, _port: Port, _link: Link) -> Option<IpAddr> {
        None
    }

    fn peer(&self, _port: Port, _link: Link) -> Option<SocketAddr> {
        None
    }

    fn refusal(&self, _link: Link) -> Option<Refusal> {
        None
    }

    fn close(&mut self, port: Port, link: Link) {
        self.wire.close(port, link)
    }
}

/// A spool with a large file that is prepared again and again, and gone in the end: nobody may see
/// anything of it.
#[derive(Drop)]
struct GoneSpool {
    file: Coming,
    /// In which pause it comes, counted from this one.
    rest: u32,
    /// In how many pauses it was coming, and after how many of them no more could be prepared.
    came: u64,
    prepared: u64,
}

impl Spool for GoneSpool {
    ghost tells = { λ _ _. ⊥ };

    ghost asked = { λ _ _. ⊥ };

    ghost parted = { λ _ _. ⊥ };

    ghost is_coming = { λ _ _. ⊤ };

    ghost tells_once = { λ spool a b h k. absurd h };

    fn next_name(&mut self, _last: &Option<FileName>) -> Option<FileName> {
        None
    }

    fn read(&mut self, _name: &FileName) -> Option<Vec<u8>> {
        None
    }

    fn remove(&mut self, _name: &FileName) -> bool {
        false
    }

    fn rename(&mut self, _name: &FileName) -> bool {
        false
    }

    fn coming(&self) -> Option<&Coming> {
        if self.rest > 0 {
            return None;
        }
        Some(&self.file)
    }

    fn read_on(&mut self) {
        self.rest = self.rest.saturating_sub(1);
        if self.rest == 0 {
            self.came = self.came.saturating_add(1);
        }
    }

    fn note_prepared(&mut self) {
        self.rest = AGAIN;
        self.prepared = self.prepared.saturating_add(1);
    }
}

/// A spool whose file is coming.
fn new_spool(alloc: Global) -> Result<GoneSpool, Fail> {
    let octets = vec![in alloc; b'a'; LARGE]?;
    let text = canon(alloc, octets.as_slice())?;
    Ok(GoneSpool {
        file: Coming {
            name: FileName::read(b"bills.note.large.eml").ok_or("name")?,
            text: Some(text),
        },
        rest: 0,
        came: 0,
        prepared: 0,
    })
}

/// A server, its spool and its clock.
#[derive(Drop)]
struct Game {
    alloc: Global,
    server: Server<Ahead<MemStore>, BusyWire, Heard>,
    links: Links,
    spool: GoneSpool,
    clock: Turns,
    /// How many messages were deposited.
    messages: u64,
}

/// An office of ann and bob over a store that removes in parts.
fn office_over_tables(alloc: Global) -> Result<Office<Ahead<MemStore>>, Fail> {
    let vault = Ahead::new(SqlVault::in_memory(alloc)?);
    let limits = Limits::new(600).ok_or("idle")?;
    let mut office = match Office::open(alloc, vault, "h.test", 7, limits) {
        Ok(office) => office,
        Err((fault, _)) => return Err(Fail::from(fault)),
    };
    admit_two(alloc, &mut office, &MAILDROPS)?;
    Ok(office)
}

/// A game by a seed, with so many messages.
fn new_game(alloc: Global, seed: u64, messages: u64) -> Result<Game, Fail> {
    let wire = RandomWire {
        reckoning: Reckoning::new(alloc, office_of_two(alloc, &MAILDROPS)?),
        chance: Chance::new(seed),
        waiting: 0,
        asking: 0,
        is_fast: true,
        is_calm: false,
    };
    let spool = new_spool(alloc)?;
    let server = Server {
        office: office_over_tables(alloc)?,
        wire: BusyWire {
            wire,
            count: 0,
            orders: session_of(alloc, b"USER ann/orders\r\nPASS s3 cret\r\n", messages)?,
            stock: session_of(alloc, b"USER bob/stock\r\nPASS hunter\r\n", messages)?,
        },
        listener: Heard::new(alloc),
    };
    let links = server.begin(alloc, &spool);
    Ok(Game {
        alloc,
        server,
        links,
        spool,
        clock: Turns { count: 0 },
        messages: 0,
    })
}

/// How many messages a maildrop has.
fn count_in<V: Vault>(office: &mut Office<V>, maildrop: Name) -> Result<u64, Fail> {
    match office.step(Event::Admin(&AdminCommand::ShowMaildrop(maildrop))) {
        Outcome::Answered(Answer::Messages(messages)) => Ok(messages.rows().len() as u64),
        _ => Err(Fail::new("no maildrop")),
    }
}

/// Both offices are given one more message.
fn deposit(game: &mut Game, maildrop: Name) -> Result<(), Fail> {
    let note = name("note")?;
    let id = format!(in game.alloc; "d{}", game.messages)?;
    let id = DepositId::read(id.as_bytes()).ok_or("id")?;
    game.messages = game.messages.saturating_add(1);
    let event = Event::Deposit(&maildrop, &note, &id, b"A: b\n\nabcd\n");
    let _ = game.server.office.step(event);
    let _ = game.server.wire.wire.reckoning.office.step(event);
    Ok(())
}

/// Both offices are given messages of a maildrop, until there are so many.
fn fill(game: &mut Game, maildrop: &str, messages: u64) -> Result<(), Fail> {
    let maildrop = name(maildrop)?;
    let there = count_in(&mut game.server.office, maildrop)?;
    if there != count_in(&mut game.server.wire.wire.reckoning.office, maildrop)? {
        game.server.wire.wire.reckoning.note("other messages");
    }
    for _ in there..messages {
        deposit(game, maildrop)?;
    }
    Ok(())
}

/// What was heard is what the office that reckons judged.
fn compare_heard(heard: &mut Heard, reckoning: &mut Reckoning) {
    if !heard.is_as(&reckoning.heard) {
        reckoning.note("another account");
    }
    heard.clear();
    reckoning.heard.clear();
}

/// What the server judged is what the office that reckons did.
fn look_at_accounts(server: &mut Server<Ahead<MemStore>, BusyWire, Heard>) {
    compare_heard(&mut server.listener, &mut server.wire.wire.reckoning);
}

/// Serves so many turns, and compares what was judged.
fn serve(game: &mut Game, turns: u64) {
    game.server
        .serve_while(&mut game.links, &mut game.spool, &mut game.clock, turns);
    look_at_accounts(&mut game.server);
}

/// So many rounds, each of which begins with so many messages, and then turns in which nothing
/// more comes: all that came is then answered.
fn play(game: &mut Game, rounds: u64, messages: u64) -> Result<(), Fail> {
    for _ in 0..rounds {
        fill(game, "orders", messages)?;
        fill(game, "stock", messages)?;
        serve(game, TURNS);
        if game.server.wire.wire.reckoning.fault.is_some() {
            return Ok(());
        }
    }
    game.server.wire.wire.is_calm = true;
    for _ in 0..100u32 {
        if game.server.wire.wire.reckoning.is_done() {
            fill(game, "orders", 0)?;
            return fill(game, "stock", 0);
        }
        serve(game, TURNS);
    }
    game.server.wire.wire.reckoning.note("not all was told");
    Ok(())
}

/// The three numbers that a file says.
fn read_chosen(text: &str) -> Option<(u64, u64, u64)> {
    let (seed, rest) = text.split_once(' ')?;
    let (rounds, messages) = rest.split_once(' ')?;
    Some((
        read_number(seed.as_bytes())?,
        read_number(rounds.as_bytes())?,
        read_number(messages.as_bytes())?,
    ))
}

#[test]
fn long_quits_by_chance(rt: HostRuntime) -> Result<(), Fail> {
    let chosen = fs::read_to_string(&rt, FILE);
    let (seed, rounds, messages) = match &chosen {
        Ok(text) => read_chosen(text.as_str()).ok_or("no seed, rounds and messages")?,
        Err(_) => CHOSEN,
    };
    let mut game = new_game(rt.alloc(), seed, messages)?;
    play(&mut game, rounds, messages)?;
    let reckoning = &game.server.wire.wire.reckoning;
    let fault = reckoning.fault.unwrap_or("");
    let (lines, long) = (reckoning.counts.lines, game.server.listener.long_quits());
    let (came, prepared) = (game.spool.came, game.spool.prepared);
    println!(rt; "seed {seed}, {rounds} rounds of {TURNS} turns, {messages} messages")?;
    println!(rt;
        "{lines} lines, {long} long quits, a file prepared {prepared} times in {came} pauses"
    )?;
    assert!(rt; fault.is_empty(), "{fault}");
    assert!(rt; long >= rounds / 2, "too few");
    assert!(rt; came > prepared, "nothing was prepared of the file");
    Ok(())
}
