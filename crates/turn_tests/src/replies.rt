//! A reply is written in the turn that read its line.

use crate::scenes::{Act, Settings, play_set};
use serving::ScriptSpool;
use std::alloc::Global;
use std::test::Fail;

/// One turn for each line, and one for the greeting.
static EACH_IN_ITS_TURN: [Act; 16] = [
    Act::Comes(0),
    Act::Turns(1, 0),
    Act::Told(0, "+OK POP3 server ready <1.7@h.test>\r\n", 1),
    Act::Sends(0, "USER ann/orders\r\n", 1),
    Act::Turns(1, 0),
    Act::Told(0, "+OK send PASS\r\n", 1),
    Act::Sends(0, "PASS s3 cret\r\n", 1),
    Act::Turns(1, 0),
    Act::Told(0, "+OK maildrop has 1 messages (21 octets)\r\n", 1),
    Act::Sends(0, "NOOP\r\n", 1),
    Act::Turns(1, 0),
    Act::Told(0, "+OK\r\n", 1),
    Act::Sends(0, "QUIT\r\n", 1),
    Act::Turns(1, 0),
    Act::Told(0, "+OK bye\r\n", 1),
    Act::Closed(0),
];

#[test]
fn each_in_its_turn(rt: HostRuntime) -> Result<(), Fail> {
    let alloc = rt.alloc();
    let settings = Settings {
        wait: 0,
        login_seconds: 0,
        slow_guesses: false,
        from: &[],
    };
    play_set(
        alloc,
        &mut ScriptSpool::new(alloc),
        &EACH_IN_ITS_TURN,
        &settings,
    )
}
