//! Clients that don't log in within the seconds that they are given.

use crate::scenes::{Act, Settings, play_set};
use serving::ScriptSpool;
use std::alloc::{AllocError, Global};
use std::test::Fail;

const GREETED: &str = "+OK POP3 server ready <1.7@h.test>\r\n";

const GREETED_THEN: &str = "+OK POP3 server ready <2.7@h.test>\r\n";

/// How ann is let in.
const LET_IN: &str = "+OK POP3 server ready <2.7@h.test>\r\n+OK send PASS\r\n\
    +OK maildrop has 1 messages (21 octets)\r\n";

/// Two come at moment 5: one is silent, ann logs in. With ten seconds for a login the silent one is
/// closed at moment 15, and ann stays, also after her QUIT.
static SILENT: [Act; 19] = [
    Act::Comes(0),
    Act::Turns(1, 5),
    Act::Comes(1),
    Act::Turns(1, 5),
    Act::Sends(1, "USER ann/orders\r\nPASS s3 cret\r\n", 1),
    Act::Turns(4, 5),
    Act::Told(0, GREETED, 1),
    Act::Told(1, LET_IN, 1),
    Act::Turns(2, 14),
    Act::Open(0),
    Act::Turns(1, 15),
    Act::Closed(0),
    Act::Turns(2, 400),
    Act::Open(1),
    Act::Told(1, "", 0),
    // Her link takes nothing for now: she is still owed the reply to her QUIT.
    Act::Stalls(1),
    Act::Sends(1, "QUIT\r\n", 1),
    Act::Turns(2, 401),
    Act::Open(1),
];

/// Who sends lines but no login, or takes nothing, has no more time; who logs in within the turn of
/// the last second has logged in.
static BUSY: [Act; 14] = [
    Act::Comes(0),
    Act::Turns(1, 5),
    Act::Stalls(0),
    Act::Sends(0, "CAPA\r\n", 1),
    Act::Turns(2, 14),
    Act::Open(0),
    Act::Comes(1),
    Act::Turns(1, 14),
    Act::Turns(1, 15),
    Act::Closed(0),
    Act::Sends(1, "USER ann/orders\r\nPASS s3 cret\r\n", 1),
    Act::Turns(1, 24),
    Act::Told(1, LET_IN, 1),
    Act::Open(1),
];

/// Without a limit a silent one stays until the office's idle time is over.
static NO_LIMIT: [Act; 6] = [
    Act::Comes(0),
    Act::Turns(1, 5),
    Act::Turns(2, 604),
    Act::Open(0),
    Act::Turns(1, 605),
    Act::Closed(0),
];

/// Plays acts if each client has so many seconds for its login.
fn plays(alloc: Global, acts: &[Act], login_seconds: u64) -> Result<(), Fail> {
    let settings = Settings {
        wait: 0,
        login_seconds,
        slow_guesses: false,
        from: &[],
    };
    play_set(alloc, &mut ScriptSpool::new(alloc), acts, &settings)
}

#[test]
fn silent_ones_are_closed(rt: HostRuntime) -> Result<(), Fail> {
    plays(rt.alloc(), &SILENT, 10)
}

/// Twenty that come at a moment.
fn twenty_come(alloc: Global, now: u64) -> Result<Vec<Act>, AllocError> {
    let mut acts = Vec::new(alloc);
    for place in 0..20usize {
        acts.push(Act::Comes(place))?;
        acts.push(Act::Turns(1, now))?;
    }
    Ok(acts)
}

#[test]
fn twenty_silent_ones_are_closed(rt: HostRuntime) -> Result<(), Fail> {
    let mut acts = twenty_come(rt.alloc(), 5)?;
    acts.push(Act::Turns(2, 15))?;
    for place in 0..20usize {
        acts.push(Act::Closed(place))?;
    }
    plays(rt.alloc(), acts.as_slice(), 10)
}

#[test]
fn busy_ones_are_closed(rt: HostRuntime) -> Result<(), Fail> {
    plays(rt.alloc(), &BUSY, 10)
}

#[test]
fn without_a_limit_they_stay(rt: HostRuntime) -> Result<(), Fail> {
    plays(rt.alloc(), &NO_LIMIT, 0)
}
