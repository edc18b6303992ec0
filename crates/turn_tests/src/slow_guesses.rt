//! Guesses that wait: a login is kept back after one of the same address and name that was
//! refused.

use crate::scenes::{Act, Settings, play_set};
use creds::LoginName;
use serving::{Guesses, ScriptSpool, origin_of};
use std::alloc::Global;
use std::net::{IpAddr, Ipv4Addr, Ipv6Addr};
use std::test::Fail;

/// A guess, in one piece.
const GUESS: &str = "USER ann/orders\r\nPASS wrong\r\n";

const RIGHT: &str = "USER ann/orders\r\nPASS s3 cret\r\n";

const SEND_PASS: &str = "+OK send PASS\r\n";

const FAILED: &str = "-ERR login failed\r\n";

/// What a guess is answered, and one after which a second one waits.
const GUESS_FAILED: &str = "+OK send PASS\r\n-ERR login failed\r\n";

const ONE_FAILED: &str = "+OK send PASS\r\n-ERR login failed\r\n+OK send PASS\r\n";

const CLOSING: &str = "-ERR login failed, closing\r\n";

const LET_IN: &str = "+OK maildrop has 1 messages (21 octets)\r\n";

const LET_IN_AT_ONCE: &str = "+OK send PASS\r\n+OK maildrop has 1 messages (21 octets)\r\n";

/// Three guesses in one piece, at moment 3: the second is kept back until moment 4, the third for
/// two seconds after that, and then the link is closed.
static THREE: [Act; 15] = [
    Act::Comes(0),
    Act::Turns(1, 3),
    Act::Told(0, "+OK POP3 server ready <1.7@h.test>\r\n", 1),
    Act::Sends(0, GUESS, 3),
    Act::Turns(6, 3),
    Act::Told(0, ONE_FAILED, 1),
    Act::Turns(1, 4),
    Act::Told(0, FAILED, 1),
    Act::Turns(3, 5),
    Act::Told(0, SEND_PASS, 1),
    Act::Turns(1, 6),
    Act::Told(0, CLOSING, 1),
    Act::Closed(0),
    Act::Comes(1),
    Act::Turns(1, 6),
];

/// After these the next one from there waits for four seconds, on another link too; one that is
/// right is let in then, and the next guess from there isn't kept back.
static FOUR: [Act; 14] = [
    Act::Told(1, "+OK POP3 server ready <2.7@h.test>\r\n", 1),
    Act::Sends(1, RIGHT, 1),
    Act::Turns(3, 9),
    Act::Told(1, SEND_PASS, 1),
    Act::Turns(1, 10),
    Act::Told(1, LET_IN, 1),
    Act::Comes(2),
    Act::Turns(1, 10),
    Act::Told(2, "+OK POP3 server ready <3.7@h.test>\r\n", 1),
    Act::Sends(2, GUESS, 1),
    Act::Turns(2, 10),
    Act::Told(2, GUESS_FAILED, 1),
    Act::Open(2),
    Act::Open(1),
];

/// A guess from another address isn't kept back.
static ANOTHER: [Act; 7] = [
    Act::Told(1, "+OK POP3 server ready <2.7@h.test>\r\n", 1),
    Act::Sends(1, GUESS, 1),
    Act::Turns(2, 6),
    Act::Told(1, GUESS_FAILED, 1),
    Act::Turns(1, 7),
    Act::Open(1),
    Act::Told(1, "", 0),
];

/// Nor does a login under another name, from the same address.
static ANOTHER_NAME: [Act; 5] = [
    Act::Told(1, "+OK POP3 server ready <2.7@h.test>\r\n", 1),
    Act::Sends(1, "USER bob/orders\r\nPASS hunter\r\n", 1),
    Act::Turns(2, 6),
    Act::Told(1, LET_IN_AT_ONCE, 1),
    Act::Open(1),
];

/// Guesses under a name that nobody has wait as those under ann's.
static NOBODY: [Act; 9] = [
    Act::Comes(0),
    Act::Turns(1, 3),
    Act::Told(0, "+OK POP3 server ready <1.7@h.test>\r\n", 1),
    Act::Sends(0, "USER eve/stock\r\nPASS wrong\r\n", 2),
    Act::Turns(5, 3),
    Act::Told(0, ONE_FAILED, 1),
    Act::Turns(1, 4),
    Act::Told(0, FAILED, 1),
    Act::Open(0),
];

/// With fast guesses none waits.
static FAST: [Act; 6] = [
    Act::Comes(0),
    Act::Turns(1, 3),
    Act::Told(0, "+OK POP3 server ready <1.7@h.test>\r\n", 1),
    Act::Sends(0, GUESS, 2),
    Act::Turns(1, 3),
    Act::Told(0, GUESS_FAILED, 2),
];

/// Plays acts, and then further ones, of clients from these addresses.
fn plays(
    alloc: Global,
    first: &[Act],
    then: &[Act],
    slow_guesses: bool,
    from: &[IpAddr],
) -> Result<(), Fail> {
    let mut acts = Vec::new(alloc);
    acts.extend_from_slice(first)?;
    acts.extend_from_slice(then)?;
    let settings = Settings {
        wait: 0,
        login_seconds: 0,
        slow_guesses,
        from,
    };
    play_set(
        alloc,
        &mut ScriptSpool::new(alloc),
        acts.as_slice(),
        &settings,
    )
}

/// The address 192.0.2.N.
fn four(n: u8) -> IpAddr {
    IpAddr::V4(Ipv4Addr::new(192, 0, 2, n))
}

/// An address of the network that 2001:N:0:7::/64 is.
fn six(n: u16) -> IpAddr {
    IpAddr::V6(Ipv6Addr::new(0x2001, n, 0, 7, 0, 0, 0, 1))
}

#[test]
fn each_waits_longer(rt: HostRuntime) -> Result<(), Fail> {
    let from = [four(1), four(1), four(1)];
    plays(rt.alloc(), &THREE, &FOUR, true, &from)
}

#[test]
fn others_do_not_wait(rt: HostRuntime) -> Result<(), Fail> {
    plays(rt.alloc(), &THREE, &ANOTHER, true, &[four(1), four(2)])
}

#[test]
fn other_names_do_not_wait(rt: HostRuntime) -> Result<(), Fail> {
    plays(rt.alloc(), &THREE, &ANOTHER_NAME, true, &[four(1), four(1)])
}

#[test]
fn nobodys_name_waits_alike(rt: HostRuntime) -> Result<(), Fail> {
    plays(rt.alloc(), &NOBODY, &[], true, &[four(1)])
}

#[test]
fn other_networks_do_not_wait(rt: HostRuntime) -> Result<(), Fail> {
    plays(
        rt.alloc(),
        &THREE,
        &FOUR,
        true,
        &[six(0xdb8), six(0xdb8), six(0xdb8)],
    )?;
    plays(
        rt.alloc(),
        &THREE,
        &ANOTHER,
        true,
        &[six(0xdb8), six(0xdb9)],
    )
}

#[test]
fn fast_ones_do_not_wait(rt: HostRuntime) -> Result<(), Fail> {
    plays(rt.alloc(), &FAST, &[], false, &[four(1)])
}

/// Guesses under a name, of so many origins: whether the first and the last are kept back.
fn many(name: &LoginName, count: u64) -> (bool, bool) {
    let mut guesses = Guesses::new();
    for origin in 0..count {
        guesses.refuse(origin, name, 100);
    }
    let first = guesses.hold_back(0, name, 100);
    let last = guesses.hold_back(count.saturating_sub(1), name, 100);
    (first, last)
}

#[test]
fn the_oldest_goes(_rt: HostRuntime) -> Result<(), Fail> {
    let Some(name) = LoginName::read(b"ann/orders") else {
        return Err(Fail::new("no name"));
    };
    if many(&name, 1024) != (true, true) {
        return Err(Fail::new("1,024 have room"));
    }
    if many(&name, 1025) != (false, true) {
        return Err(Fail::new("of 1,025 the oldest goes"));
    }
    Ok(())
}

/// For how many seconds the last of so many refusals keeps a login back, each so many seconds after
/// the one before it; 20 stand for more.
fn seconds_after(name: &LoginName, times: u64, apart: u64) -> u64 {
    let mut guesses = Guesses::new();
    let mut moment = 100;
    for _ in 0..times {
        moment = apart.saturating_add(moment);
        guesses.refuse(7, name, moment);
    }
    let mut seconds = 0;
    for second in 0..20u64 {
        if guesses.hold_back(7, name, second.saturating_add(moment)) {
            seconds = second.saturating_add(1);
        }
    }
    seconds
}

/// How many refusals there were, how many seconds apart, and for how many seconds the last of them
/// keeps a login back.
static PACES: [(u64, u64, u64); 9] = [
    (1, 100, 1),
    (2, 100, 2),
    (3, 100, 4),
    (4, 100, 8),
    (5, 100, 15),
    (6, 100, 15),
    (40, 1, 15),
    (4, 599, 8),
    (4, 600, 1),
];

#[test]
fn seconds_double_until_15(rt: HostRuntime) -> Result<(), Fail> {
    let Some(name) = LoginName::read(b"ann/orders") else {
        return Err(Fail::new("no name"));
    };
    for (times, apart, seconds) in &PACES {
        assert_eq!(rt; seconds_after(&name, *times, *apart), *seconds);
    }
    Ok(())
}

/// The number that an IPv6 address with this ending counts by.
fn origin_of_six(d: u16, g: u16, h: u16) -> u64 {
    origin_of(&IpAddr::V6(Ipv6Addr::new(0x2001, 0xdb8, 0, d, 0, 0, g, h)))
}

#[test]
fn addresses_count_by_their_numbers(_rt: HostRuntime) -> Result<(), Fail> {
    let four = IpAddr::V4(Ipv4Addr::new(192, 0, 2, 1));
    let within_six = IpAddr::V6(Ipv6Addr::new(0, 0, 0, 0, 0, 0xffff, 0xc000, 0x0201));
    if origin_of(&four) != 0xc000_0201 || origin_of(&within_six) != 0xc000_0201 {
        return Err(Fail::new("an IPv4 address counts by its 32 bits"));
    }
    if origin_of_six(7, 1, 2) != 0x2001_0db8_0000_0007
        || origin_of_six(7, 3, 4) != origin_of_six(7, 1, 2)
    {
        return Err(Fail::new("an IPv6 address counts by its first 64 bits"));
    }
    Ok(())
}
