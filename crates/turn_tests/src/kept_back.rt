//! Logins that are kept back, for a pace or for a lock: how long each waits, that whoever waits
//! isn't late, and that each line before one is read by itself.

use crate::scenes::{Act, Settings, play_set};
use serving::ScriptSpool;
use std::alloc::{AllocError, Global};
use std::net::{IpAddr, Ipv4Addr};
use std::test::Fail;

const GUESS: &str = "USER ann/orders\r\nPASS wrong\r\n";

const RIGHT: &str = "USER ann/orders\r\nPASS s3 cret\r\n";

const FAILED: &str = "-ERR login failed\r\n";

const LET_IN: &str = "+OK maildrop has 1 messages (21 octets)\r\n";

/// What the second to come gets before his PASS, and the sixth.
const SECOND_TOLD: &str = "+OK POP3 server ready <2.7@h.test>\r\n+OK send PASS\r\n";

const SIXTH_TOLD: &str = "+OK POP3 server ready <6.7@h.test>\r\n+OK send PASS\r\n";

/// Four strangers' guesses wait, and then ann's login: they are judged at moments 4, 6, 10 and 18.
/// Hers is judged 15 seconds after it came, whatever was refused meanwhile.
static WAITS_BY_ITSELF: [Act; 9] = [
    Act::Turns(3, 3),
    Act::Told(5, SIXTH_TOLD, 1),
    Act::Turns(2, 4),
    Act::Turns(2, 6),
    Act::Turns(2, 10),
    Act::Turns(2, 17),
    Act::Told(5, "", 0),
    Act::Turns(1, 18),
    Act::Told(5, LET_IN, 1),
];

/// With ten seconds for a login ann, who came at moment 5, sends hers at moment 14, after two
/// guesses: it is judged at moment 16.
static HERS_IS_RIGHT: [Act; 13] = [
    Act::Comes(0),
    Act::Comes(1),
    Act::Turns(1, 5),
    Act::Sends(0, GUESS, 2),
    Act::Turns(4, 13),
    Act::Turns(1, 14),
    Act::Sends(1, RIGHT, 1),
    Act::Turns(2, 14),
    Act::Told(1, SECOND_TOLD, 1),
    Act::Turns(2, 15),
    Act::Open(1),
    Act::Turns(1, 16),
    Act::Told(1, LET_IN, 1),
];

/// A wrong one is refused then, and her tenth second is over at moment 17.
static HERS_IS_WRONG: [Act; 14] = [
    Act::Comes(0),
    Act::Comes(1),
    Act::Turns(1, 5),
    Act::Sends(0, GUESS, 2),
    Act::Turns(4, 13),
    Act::Turns(1, 14),
    Act::Sends(1, GUESS, 1),
    Act::Turns(2, 14),
    Act::Told(1, SECOND_TOLD, 1),
    Act::Turns(1, 16),
    Act::Told(1, FAILED, 1),
    Act::Open(1),
    Act::Turns(1, 17),
    Act::Closed(1),
];

/// Bob is in the maildrop, and ann comes at moment 5.
static BOB_IS_IN: [Act; 7] = [
    Act::Comes(0),
    Act::Turns(1, 0),
    Act::Sends(0, "USER bob/orders\r\nPASS hunter\r\n", 1),
    Act::Turns(4, 0),
    Act::Comes(1),
    Act::Turns(1, 5),
    Act::Sends(1, "USER ann/orders\r\n", 1),
];

/// Her login lies unread from moment 14 on, until bob quits at moment 20.
static WAITS_FOR_BOB: [Act; 10] = [
    Act::Turns(2, 14),
    Act::Told(1, SECOND_TOLD, 1),
    Act::Sends(1, "PASS s3 cret\r\n", 1),
    Act::Turns(1, 14),
    Act::Turns(2, 20),
    Act::Open(1),
    Act::Told(1, "", 0),
    Act::Sends(0, "QUIT\r\n", 1),
    Act::Turns(3, 20),
    Act::Told(1, LET_IN, 1),
];

/// 2,048 empty lines come before it, in the same piece; they end what USER said.
static EMPTY_LINES: [Act; 12] = [
    Act::Turns(2, 5),
    Act::Told(1, SECOND_TOLD, 1),
    Act::Sends(1, "\r\n", 2048),
    Act::Sends(1, RIGHT, 1),
    Act::Turns(2048, 5),
    Act::Told(1, "-ERR unknown command\r\n", 2048),
    Act::Turns(3, 5),
    Act::Told(1, "+OK send PASS\r\n", 1),
    Act::Turns(2, 14),
    Act::Sends(0, "QUIT\r\n", 1),
    Act::Turns(3, 14),
    Act::Told(1, LET_IN, 1),
];

/// A line that is too long comes before it.
static LONG_LINE: [Act; 13] = [
    Act::Turns(2, 5),
    Act::Told(1, SECOND_TOLD, 1),
    Act::Sends(1, "x", 300),
    Act::Sends(1, "\r\n", 1),
    Act::Sends(1, RIGHT, 1),
    Act::Turns(1, 5),
    Act::Told(1, "-ERR line too long\r\n", 1),
    Act::Turns(2, 5),
    Act::Told(1, "+OK send PASS\r\n", 1),
    Act::Turns(2, 14),
    Act::Sends(0, "QUIT\r\n", 1),
    Act::Turns(3, 14),
    Act::Told(1, LET_IN, 1),
];

/// Her PASS, octet by octet.
static OCTETS: [&str; 14] = [
    "P", "A", "S", "S", " ", "s", "3", " ", "c", "r", "e", "t", "\r", "\n",
];

/// It waits, although each of its octets came by itself.
static AN_OCTET_A_PACKET: [Act; 5] = [
    Act::Turns(2, 14),
    Act::Told(1, SECOND_TOLD, 1),
    Act::Sends(0, "QUIT\r\n", 1),
    Act::Turns(3, 14),
    Act::Told(1, LET_IN, 1),
];

/// Plays acts of clients from one address; with slow guesses if the wait is 0.
fn plays(alloc: Global, acts: &[Act], wait: u64, login_seconds: u64) -> Result<(), Fail> {
    let from = [IpAddr::V4(Ipv4Addr::new(192, 0, 2, 1)); 6];
    let settings = Settings {
        wait,
        login_seconds,
        slow_guesses: wait == 0,
        from: &from,
    };
    play_set(alloc, &mut ScriptSpool::new(alloc), acts, &settings)
}

/// A client comes at moment 3, and sends this.
fn comes(acts: &mut Vec<Act>, place: usize, text: &'static str) -> Result<(), AllocError> {
    acts.push(Act::Comes(place))?;
    acts.push(Act::Turns(1, 3))?;
    acts.push(Act::Sends(place, text, 1))?;
    Ok(())
}

/// A stranger has guessed once; four more guess, and ann comes after them.
fn strangers(alloc: Global) -> Result<Vec<Act>, AllocError> {
    let mut acts = Vec::new(alloc);
    comes(&mut acts, 0, GUESS)?;
    acts.push(Act::Turns(3, 3))?;
    for place in 1..5usize {
        comes(&mut acts, place, GUESS)?;
    }
    comes(&mut acts, 5, RIGHT)?;
    Ok(acts)
}

#[test]
fn each_waits_by_itself(rt: HostRuntime) -> Result<(), Fail> {
    let mut acts = strangers(rt.alloc())?;
    acts.extend_from_slice(&WAITS_BY_ITSELF)?;
    plays(rt.alloc(), acts.as_slice(), 0, 0)
}

#[test]
fn whoever_is_kept_back_is_not_late(rt: HostRuntime) -> Result<(), Fail> {
    plays(rt.alloc(), &HERS_IS_RIGHT, 0, 10)?;
    plays(rt.alloc(), &HERS_IS_WRONG, 0, 10)
}

/// Plays acts of ann, while bob is in the maildrop.
fn plays_beside_bob(alloc: Global, then: &[Act], login_seconds: u64) -> Result<(), Fail> {
    let mut acts = Vec::new(alloc);
    acts.extend_from_slice(&BOB_IS_IN)?;
    acts.extend_from_slice(then)?;
    plays(alloc, acts.as_slice(), 10, login_seconds)
}

#[test]
fn whoever_waits_for_a_lock_is_not_late(rt: HostRuntime) -> Result<(), Fail> {
    plays_beside_bob(rt.alloc(), &WAITS_FOR_BOB, 10)
}

#[test]
fn a_login_waits_behind_other_lines(rt: HostRuntime) -> Result<(), Fail> {
    plays_beside_bob(rt.alloc(), &EMPTY_LINES, 0)?;
    plays_beside_bob(rt.alloc(), &LONG_LINE, 0)
}

/// Each octet of ann's PASS is read by itself.
fn octets(alloc: Global) -> Result<Vec<Act>, AllocError> {
    let mut acts = Vec::new(alloc);
    acts.push(Act::Turns(2, 5))?;
    for octet in &OCTETS {
        acts.push(Act::Sends(1, *octet, 1))?;
        acts.push(Act::Turns(1, 5))?;
    }
    Ok(acts)
}

#[test]
fn a_login_by_octets_waits(rt: HostRuntime) -> Result<(), Fail> {
    let mut acts = octets(rt.alloc())?;
    acts.extend_from_slice(&AN_OCTET_A_PACKET)?;
    plays_beside_bob(rt.alloc(), acts.as_slice(), 0)
}
