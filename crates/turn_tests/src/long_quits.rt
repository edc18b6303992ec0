//! In which turn a long QUIT is read, and that others are served in those before it.

use crate::two_clerks::{admit_two, name};
use creds::DepositId;
use office::{Event, Limits, Office};
use serving::{Clock, NoListener, ScriptSpool, ScriptWire, Server};
use sqlite::MemStore;
use sqlvault::{Ahead, SqlVault};
use std::alloc::{AllocError, Global};
use std::test::Fail;
use vault::Vault;

/// A clock that stands still.
#[derive(Clone, Copy)]
struct Still;

impl Clock for Still {
    ghost gave = { λ _ _. ⊥ };

    fn moment(&mut self) -> Option<u64> {
        Some(0)
    }
}

/// How many messages ann removes: three parts of a removal, of which the last is short.
const MESSAGES: u32 = 300;

/// How many octets a link gives in a turn: the line of a NOOP, and of a QUIT.
const PIECE: usize = 6;

type Store = Ahead<MemStore>;

/// An office over a store that removes in parts, with 300 messages in the maildrop `orders`.
fn office_of_many(alloc: Global) -> Result<Office<Store>, Fail> {
    let vault = Ahead::new(SqlVault::in_memory(alloc)?);
    let limits = Limits::new(600).ok_or("idle")?;
    let mut office = match Office::open(alloc, vault, "h.test", 7, limits) {
        Ok(office) => office,
        Err((fault, _)) => return Err(Fail::from(fault)),
    };
    admit_two(alloc, &mut office, &["notes", "orders"])?;
    fill(alloc, &mut office)?;
    Ok(office)
}

/// Deposits the messages.
fn fill(alloc: Global, office: &mut Office<Store>) -> Result<(), Fail> {
    let orders = name("orders")?;
    let note = name("note")?;
    for n in 0..MESSAGES {
        let id = DepositId::read(format!(in alloc; "d{n}")?.as_bytes()).ok_or("id")?;
        let _ = office.step(Event::Deposit(&orders, &note, &id, b"Subject: a\n\nhi\n"));
    }
    Ok(())
}

/// What ann sends: 488 pieces, and a QUIT in the next one.
fn anns(alloc: Global) -> Result<Vec<u8>, AllocError> {
    let mut octets = Vec::new(alloc);
    octets.extend_from_slice(b"USER ann/orders\r\nPASS s3 cret\r\nNO.\r\n")?;
    for n in 0..MESSAGES {
        let number = n.saturating_add(1);
        octets.extend_from_slice(format!(in alloc; "DELE {number}\r\n")?.as_bytes())?;
    }
    octets.extend_from_slice(b"QUIT\r\n")?;
    Ok(octets)
}

/// What bob sends: a NOOP in each of 500 turns and more.
fn bobs(alloc: Global) -> Result<Vec<u8>, AllocError> {
    let mut octets = Vec::new(alloc);
    octets.extend_from_slice(b"USER bob/notes\r\nPASS hunter\r\n")?;
    for _ in 0..600 {
        octets.extend_from_slice(b"NOOP\r\n")?;
    }
    Ok(octets)
}

/// A server of both, on which nothing was served yet. The first link is ann's.
fn new_server(alloc: Global) -> Result<Server<Store, ScriptWire, NoListener>, Fail> {
    let mut waiting = Vec::new(alloc);
    waiting.push(bobs(alloc)?)?;
    waiting.push(anns(alloc)?)?;
    Ok(Server {
        office: office_of_many(alloc)?,
        wire: ScriptWire::new(alloc, waiting, PIECE),
        listener: NoListener,
    })
}

/// Whether ann's QUIT is answered.
fn is_answered(wire: &ScriptWire) -> bool {
    wire.written(0).ends_with(b"+OK bye\r\n")
}

/// What is seen after so many turns: whether ann's QUIT is answered, how many octets bob got, and
/// how many messages are there.
fn seen_after(alloc: Global, turns: u64) -> Result<(bool, usize, usize), Fail> {
    let mut server = new_server(alloc)?;
    let mut spool = ScriptSpool::new(alloc);
    let mut links = server.begin(alloc, &spool);
    server.serve_while(&mut links, &mut spool, &mut Still, turns);
    let is_answered = is_answered(&server.wire);
    let told = server.wire.written(1).len();
    let mut vault = server.office.into_vault();
    let left = vault.heads(&name("orders")?)?.len();
    Ok((is_answered, told, left))
}

/// Turns, whether the QUIT is answered by then, and how many messages are left: it is seen in turn
/// 489, and read in the third one after it, as the third part is prepared. Bob's NOOP is answered
/// in each of these turns.
static TURNS: [(u64, bool, usize); 5] = [
    (488, false, 300),
    (489, false, 300),
    (490, false, 300),
    (491, false, 300),
    (492, true, 0),
];

#[test]
fn others_are_served_while_a_long_quit_is_prepared(rt: HostRuntime) -> Result<(), Fail> {
    let alloc = rt.alloc();
    let mut wanted = seen_after(alloc, 487)?.1;
    for (turns, is_answered, left) in &TURNS {
        wanted = wanted.saturating_add(5);
        if seen_after(alloc, *turns)? != (*is_answered, wanted, *left) {
            return Err(Fail::new("answered in another turn"));
        }
    }
    Ok(())
}

/// In how many turns nobody sends a long QUIT: ann's is seen in the next one.
const BEFORE: u64 = 488;

/// What is seen after so many turns from the one in which ann's QUIT is seen, if a file comes in in
/// each of them: whether it is answered, how many messages are left, and how many came in.
fn seen_beside_files(alloc: Global, turns: u64) -> Result<(bool, usize, usize), Fail> {
    let mut server = new_server(alloc)?;
    let mut spool = ScriptSpool::new(alloc);
    let mut links = server.begin(alloc, &spool);
    server.serve_while(&mut links, &mut spool, &mut Still, BEFORE);
    for n in 0..turns {
        let file = format!(in alloc; "notes.note.f{n}.eml")?;
        spool.put(file.as_str(), b"Subject: a\n\nhi\n")?;
    }
    server.serve_while(&mut links, &mut spool, &mut Still, turns);
    let is_answered = is_answered(&server.wire);
    let mut vault = server.office.into_vault();
    let left = vault.heads(&name("orders")?)?.len();
    let came = vault.heads(&name("notes")?)?.len();
    Ok((is_answered, left, came))
}

/// Each deposit of a file gives up what was prepared. In the pauses after the first three turns a
/// part is prepared, and the files of the second, third and fourth give it up; then none is
/// prepared, and the QUIT is read in the fifth turn, where the store removes all at once.
#[test]
fn a_long_quit_that_is_given_up_again_and_again_ends(rt: HostRuntime) -> Result<(), Fail> {
    assert!(rt; seen_beside_files(rt.alloc(), 4)? == (false, 300, 4));
    assert!(rt; seen_beside_files(rt.alloc(), 5)? == (true, 0, 5));
    Ok(())
}
