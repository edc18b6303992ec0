//! Logins that wait for a lock: bob comes to a maildrop while ann has it.

use crate::scenes::{Act, Settings, play_set};
use serving::ScriptSpool;
use std::alloc::Global;
use std::test::Fail;

/// How ann logs in, and what she gets.
const ANN: &str = "USER ann/orders\r\nPASS s3 cret\r\n";

const ANN_TOLD: &str = "+OK POP3 server ready <1.7@h.test>\r\n+OK send PASS\r\n\
    +OK maildrop has 1 messages (21 octets)\r\n";

/// What bob gets before his PASS.
const BOB_TOLD: &str = "+OK POP3 server ready <2.7@h.test>\r\n+OK send PASS\r\n";

/// What the first and the third to come get before their PASS.
const FIRST_TOLD: &str = "+OK POP3 server ready <1.7@h.test>\r\n+OK send PASS\r\n";

const THIRD_TOLD: &str = "+OK POP3 server ready <3.7@h.test>\r\n+OK send PASS\r\n";

/// How he is let in, and how not.
const LET_IN: &str = "+OK maildrop has 1 messages (21 octets)\r\n";

const IN_USE: &str = "-ERR [IN-USE] maildrop is in use\r\n";

/// Ann logs in at moment 0; bob is asked to send his password at moment 3, and sends it, in two
/// pieces.
static BOTH: [Act; 13] = [
    Act::Comes(0),
    Act::Turns(1, 0),
    Act::Sends(0, ANN, 1),
    Act::Turns(4, 0),
    Act::Told(0, ANN_TOLD, 1),
    Act::Comes(1),
    Act::Turns(1, 3),
    Act::Sends(1, "USER bob/orders\r\n", 1),
    Act::Turns(4, 3),
    Act::Told(1, BOB_TOLD, 1),
    Act::Sends(1, "PASS hun", 1),
    Act::Turns(1, 3),
    Act::Sends(1, "ter\r\n", 1),
];

/// Ann ends her session at moment 12, the tenth second of bob's wait.
static ENDS_IN_TIME: [Act; 6] = [
    Act::Turns(2, 12),
    Act::Told(1, "", 0),
    Act::Sends(0, "QUIT\r\n", 1),
    Act::Turns(2, 12),
    Act::Told(1, LET_IN, 1),
    Act::Open(1),
];

/// She doesn't: ten seconds after what he took last bob hears so.
static ENDS_TOO_LATE: [Act; 5] = [
    Act::Turns(2, 12),
    Act::Told(1, "", 0),
    Act::Turns(2, 13),
    Act::Told(1, IN_USE, 1),
    Act::Open(1),
];

/// Bob hears so at once.
static AT_ONCE: [Act; 3] = [Act::Turns(2, 3), Act::Told(1, IN_USE, 1), Act::Open(1)];

/// Ann comes between two who wait for her maildrop: the second one's password comes first.
static BETWEEN: [Act; 16] = [
    Act::Comes(0),
    Act::Turns(1, 0),
    Act::Comes(1),
    Act::Turns(1, 0),
    Act::Comes(2),
    Act::Turns(1, 0),
    Act::Sends(1, ANN, 1),
    Act::Turns(4, 0),
    Act::Sends(0, "USER bob/orders\r\n", 1),
    Act::Sends(2, "USER bob/orders\r\n", 1),
    Act::Turns(2, 3),
    Act::Sends(2, "PASS hunter\r\n", 1),
    Act::Turns(1, 3),
    Act::Sends(0, "PASS hunter\r\n", 1),
    Act::Turns(2, 3),
    Act::Told(0, FIRST_TOLD, 1),
];

/// As she ends her session the one of the lower number is let in, and then the other one.
static BY_NUMBER: [Act; 9] = [
    Act::Told(2, THIRD_TOLD, 1),
    Act::Sends(1, "QUIT\r\n", 1),
    Act::Turns(2, 5),
    Act::Told(0, LET_IN, 1),
    Act::Told(2, "", 0),
    Act::Sends(0, "QUIT\r\n", 1),
    Act::Turns(2, 6),
    Act::Told(2, LET_IN, 1),
    Act::Open(2),
];

/// What ann gets as the twenty-first client.
const LATE_TOLD: &str = "+OK POP3 server ready <21.7@h.test>\r\n+OK send PASS\r\n\
    +OK maildrop has 1 messages (21 octets)\r\n";

/// She logs in after twenty silent clients.
static BEHIND_MANY: [Act; 3] = [
    Act::Sends(20, ANN, 1),
    Act::Turns(4, 0),
    Act::Told(20, LATE_TOLD, 1),
];

/// What bob gets until he is in a maildrop without messages.
const BOB_IN: &str = "+OK POP3 server ready <2.7@h.test>\r\n+OK send PASS\r\n\
    +OK maildrop has 0 messages (0 octets)\r\n";

/// Ann is in her maildrop, and bob in another one, which the administration added.
static APART: [Act; 10] = [
    Act::Asks(0),
    Act::Turns(1, 0),
    Act::Sends(0, "PUT /maildrops/stock HTTP/1.1\r\n\r\n", 1),
    Act::Turns(2, 0),
    Act::Comes(0),
    Act::Comes(1),
    Act::Turns(1, 0),
    Act::Sends(1, ANN, 1),
    Act::Sends(2, "USER bob/stock\r\nPASS hunter\r\n", 1),
    Act::Turns(4, 0),
];

/// Ann ends her session as bob sends two lines: both are read in that turn, since neither is a
/// login.
static GOES_ON: [Act; 5] = [
    Act::Told(2, BOB_IN, 1),
    Act::Sends(1, "QUIT\r\n", 1),
    Act::Sends(2, "NOOP\r\nNOOP\r\n", 1),
    Act::Turns(1, 1),
    Act::Told(2, "+OK\r\n", 2),
];

/// Bob sends three lines in one piece while ann is in her maildrop: the second waits, and those
/// after it with it.
static ONE_PIECE: [Act; 16] = [
    Act::Comes(0),
    Act::Turns(1, 0),
    Act::Sends(0, ANN, 1),
    Act::Turns(4, 0),
    Act::Comes(1),
    Act::Turns(1, 3),
    Act::Sends(1, "USER bob/orders\r\nPASS hunter\r\nSTAT\r\n", 1),
    Act::Turns(4, 3),
    Act::Told(1, BOB_TOLD, 1),
    Act::Turns(2, 12),
    Act::Told(1, "", 0),
    Act::Sends(0, "QUIT\r\n", 1),
    Act::Turns(3, 12),
    Act::Told(
        1,
        "+OK maildrop has 1 messages (21 octets)\r\n+OK 1 21\r\n",
        1,
    ),
    Act::Open(1),
    Act::Closed(0),
];

/// Plays acts, and then further ones.
fn plays(alloc: Global, first: &[Act], then: &[Act], wait: u64) -> Result<(), Fail> {
    let mut acts = Vec::new(alloc);
    acts.extend_from_slice(first)?;
    acts.extend_from_slice(then)?;
    let settings = Settings {
        wait,
        login_seconds: 0,
        slow_guesses: false,
        from: &[],
    };
    play_set(
        alloc,
        &mut ScriptSpool::new(alloc),
        acts.as_slice(),
        &settings,
    )
}

#[test]
fn let_in_as_the_lock_is_free(rt: HostRuntime) -> Result<(), Fail> {
    plays(rt.alloc(), &BOTH, &ENDS_IN_TIME, 10)
}

#[test]
fn told_in_use_in_the_end(rt: HostRuntime) -> Result<(), Fail> {
    plays(rt.alloc(), &BOTH, &ENDS_TOO_LATE, 10)
}

#[test]
fn without_a_wait_told_at_once(rt: HostRuntime) -> Result<(), Fail> {
    plays(rt.alloc(), &BOTH, &AT_ONCE, 0)
}

#[test]
fn one_piece_waits_for_the_lock(rt: HostRuntime) -> Result<(), Fail> {
    plays(rt.alloc(), &ONE_PIECE, &[], 10)
}

#[test]
fn let_in_by_number(rt: HostRuntime) -> Result<(), Fail> {
    plays(rt.alloc(), &BETWEEN, &BY_NUMBER, 10)
}

#[test]
fn let_in_behind_many(rt: HostRuntime) -> Result<(), Fail> {
    let mut acts = Vec::new(rt.alloc());
    for place in 0..21usize {
        acts.push(Act::Comes(place))?;
        acts.push(Act::Turns(1, 0))?;
    }
    plays(rt.alloc(), acts.as_slice(), &BEHIND_MANY, 10)
}

#[test]
fn read_on_beside_a_session_that_ends(rt: HostRuntime) -> Result<(), Fail> {
    plays(rt.alloc(), &APART, &GOES_ON, 10)
}
