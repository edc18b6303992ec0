//! Strangers, each also with its link at its end or broken in place of each read and write: that
//! link alone is closed, its maildrop is free, and all others get what they get without
//! that fault. How many calls a scene has is reckoned by the rules of a turn: a link whose
//! connection is ready is read once, and what is owed before and after that is written as long as
//! it is taken.

use crate::scenes::{Act, Scene, Stage, cut_by, cut_off, staged, turns};
use serving::{FolderSpool, ScriptSpool, Stop};
use std::alloc::{AllocError, Global};
use std::fs;
use std::test::Fail;

/// The first client's greeting.
const GREETING: &str = "+OK POP3 server ready <1.7@h.test>\r\n";

/// How ann logs in, and what she gets.
const ANN: &str = "USER ann/orders\r\nPASS s3 cret\r\n";

const ANN_TOLD: &str = "+OK send PASS\r\n+OK maildrop has 1 messages (21 octets)\r\n";

/// A session of bob, and what he gets.
const BOB: &str = "USER bob/orders\r\nPASS hunter\r\nSTAT\r\nQUIT\r\n";

const BOB_TOLD: &str =
    "+OK send PASS\r\n+OK maildrop has 1 messages (21 octets)\r\n+OK 1 21\r\n+OK bye\r\n";

/// After a stranger bob comes, and gets the maildrop.
static THEN_BOB: [Act; 8] = [
    Act::Comes(1),
    Act::Turns(6, 1199),
    Act::Told(1, "+OK POP3 server ready <2.7@h.test>\r\n", 1),
    Act::Open(1),
    Act::Sends(1, BOB, 1),
    Act::Turns(14, 1199),
    Act::Told(1, BOB_TOLD, 1),
    Act::Closed(1),
];

/// A line without its end, and its end.
static LONG_LINE: [Act; 11] = [
    Act::Comes(0),
    Act::Turns(1, 0),
    Act::Told(0, GREETING, 1),
    Act::Sends(0, "a", 10_000),
    Act::Turns(4, 0),
    Act::Told(0, "", 0),
    Act::Open(0),
    Act::Sends(0, "\n", 1),
    Act::Turns(2, 0),
    Act::Told(0, "-ERR line too long\r\n", 1),
    Act::Open(0),
];

/// Plays a scene over a spool without files, with each fault in place of each call in turn. How
/// many calls it has.
fn cut(alloc: Global, piece: usize, first: &[Act], then: &[Act]) -> Result<u64, Fail> {
    let scene = Scene { piece, first, then };
    cut_off(alloc, &mut ScriptSpool::new(alloc), &scene)
}

#[test]
fn line_without_its_end(rt: HostRuntime) -> Result<(), Fail> {
    assert_eq!(rt; cut(rt.alloc(), 4096, &LONG_LINE, &THEN_BOB)?, 21);
    Ok(())
}

/// A whole piece of line ends: one reply at a time is written, 64 in a turn.
static LINE_ENDS: [Act; 9] = [
    Act::Comes(0),
    Act::Turns(1, 0),
    Act::Told(0, GREETING, 1),
    Act::Sends(0, "\n", 4096),
    Act::Turns(1, 0),
    Act::Told(0, "-ERR unknown command\r\n", 64),
    Act::Turns(63, 0),
    Act::Told(0, "-ERR unknown command\r\n", 4032),
    Act::Open(0),
];

/// A short one.
static SOME_LINE_ENDS: [Act; 9] = [
    Act::Comes(0),
    Act::Turns(1, 0),
    Act::Told(0, GREETING, 1),
    Act::Sends(0, "\n", 256),
    Act::Turns(1, 0),
    Act::Told(0, "-ERR unknown command\r\n", 64),
    Act::Turns(3, 0),
    Act::Told(0, "-ERR unknown command\r\n", 192),
    Act::Open(0),
];

/// Cuts a piece off by a fault in place of one call of so many. How many calls it has.
fn cut_line_ends(alloc: Global, first: &[Act], stop: Stop, every: u64) -> Result<u64, Fail> {
    let scene = Scene {
        piece: 4096,
        first,
        then: &THEN_BOB,
    };
    cut_by(alloc, &mut ScriptSpool::new(alloc), &scene, stop, every)
}

/// Each 61st call, so that each place of a turn comes: all 4,111 take minutes without a proof.
#[test]
fn piece_of_line_ends(rt: HostRuntime) -> Result<(), Fail> {
    let alloc = rt.alloc();
    assert_eq!(rt; cut_line_ends(alloc, &LINE_ENDS, Stop::End, 61)?, 4111);
    assert_eq!(rt; cut_line_ends(alloc, &SOME_LINE_ENDS, Stop::End, 1)?, 271);
    Ok(())
}

/// The other fault.
#[test]
fn piece_of_line_ends_broken(rt: HostRuntime) -> Result<(), Fail> {
    let alloc = rt.alloc();
    assert_eq!(rt; cut_line_ends(alloc, &LINE_ENDS, Stop::Broken, 61)?, 4111);
    assert_eq!(rt;
        cut_line_ends(alloc, &SOME_LINE_ENDS, Stop::Broken, 1)?,
        271
    );
    Ok(())
}

/// Half a line doesn't set the clock.
static HALF_LINE: [Act; 10] = [
    Act::Comes(0),
    Act::Turns(1, 0),
    Act::Told(0, GREETING, 1),
    Act::Sends(0, "NO", 1),
    Act::Turns(1, 599),
    Act::Told(0, "", 0),
    Act::Open(0),
    Act::Turns(1, 600),
    Act::Told(0, "", 0),
    Act::Closed(0),
];

#[test]
fn half_a_line(rt: HostRuntime) -> Result<(), Fail> {
    assert_eq!(rt; cut(rt.alloc(), 4096, &HALF_LINE, &THEN_BOB)?, 15);
    Ok(())
}

/// A message of which nothing is taken.
static UNTAKEN: [Act; 15] = [
    Act::Comes(0),
    Act::Turns(6, 0),
    Act::Told(0, GREETING, 1),
    Act::Sends(0, ANN, 1),
    Act::Turns(14, 0),
    Act::Told(0, ANN_TOLD, 1),
    Act::Open(0),
    Act::Stalls(0),
    Act::Sends(0, "RETR 1\r\n", 1),
    Act::Turns(3, 599),
    Act::Open(0),
    Act::Turns(1, 1198),
    Act::Open(0),
    Act::Turns(1, 1199),
    Act::Closed(0),
];

#[test]
fn message_of_which_nothing_is_taken(rt: HostRuntime) -> Result<(), Fail> {
    assert_eq!(rt; cut(rt.alloc(), 7, &UNTAKEN, &THEN_BOB)?, 71);
    Ok(())
}

/// Responses.
const BAD: &str = "HTTP/1.1 400 Bad Request\r\nContent-Type: text/plain\r\n\
    Content-Length: 12\r\nConnection: close\r\n\r\nbad request\n";

const LISTED: &str = "HTTP/1.1 200 OK\r\nContent-Type: text/plain\r\n\
    Content-Length: 12\r\nConnection: close\r\n\r\norders 1 21\n";

const LENGTH_REQUIRED: &str = "HTTP/1.1 411 Length Required\r\nContent-Type: text/plain\r\n\
    Content-Length: 16\r\nConnection: close\r\n\r\nlength required\n";

const NOT_FOUND: &str = "HTTP/1.1 404 Not Found\r\nContent-Type: text/plain\r\n\
    Content-Length: 10\r\nConnection: close\r\n\r\nnot found\n";

/// Bob came before the requests; after them he gets the maildrop.
static NOW_BOB: [Act; 5] = [
    Act::Open(0),
    Act::Sends(0, BOB, 1),
    Act::Turns(14, 60),
    Act::Told(0, BOB_TOLD, 1),
    Act::Closed(0),
];

/// A head of 8,192 octets without its end, and one octet more.
static LONG_HEAD: [Act; 13] = [
    Act::Comes(0),
    Act::Turns(6, 0),
    Act::Told(0, GREETING, 1),
    Act::Asks(0),
    Act::Turns(1, 0),
    Act::Sends(1, "a", 8192),
    Act::Turns(3, 0),
    Act::Told(1, "", 0),
    Act::Open(1),
    Act::Sends(1, "a", 1),
    Act::Turns(2, 0),
    Act::Told(1, BAD, 1),
    Act::Closed(1),
];

#[test]
fn head_without_its_end(rt: HostRuntime) -> Result<(), Fail> {
    assert_eq!(rt; cut(rt.alloc(), 4096, &LONG_HEAD, &NOW_BOB)?, 24);
    Ok(())
}

/// 64 headers, and 65.
static HEADERS: [Act; 17] = [
    Act::Comes(0),
    Act::Turns(6, 0),
    Act::Told(0, GREETING, 1),
    Act::Asks(0),
    Act::Turns(1, 0),
    Act::Sends(1, "GET /maildrops HTTP/1.1\r\n", 1),
    Act::Sends(1, "A: b\r\n", 64),
    Act::Sends(1, "\r\n", 1),
    Act::Asks(1),
    Act::Turns(1, 0),
    Act::Sends(2, "GET /maildrops HTTP/1.1\r\n", 1),
    Act::Sends(2, "A: b\r\n", 65),
    Act::Sends(2, "\r\n", 1),
    Act::Turns(2, 0),
    Act::Told(1, LISTED, 1),
    Act::Told(2, BAD, 1),
    Act::Closed(2),
];

#[test]
fn headers_at_their_limit(rt: HostRuntime) -> Result<(), Fail> {
    assert_eq!(rt; cut(rt.alloc(), 4096, &HEADERS, &NOW_BOB)?, 22);
    Ok(())
}

/// A line that is no request, and the line that ends it.
static NO_REQUEST: [Act; 13] = [
    Act::Comes(0),
    Act::Turns(6, 0),
    Act::Told(0, GREETING, 1),
    Act::Asks(0),
    Act::Turns(1, 0),
    Act::Sends(1, "bad\r\n", 1),
    Act::Turns(2, 0),
    Act::Told(1, "", 0),
    Act::Open(1),
    Act::Sends(1, "\r\n", 1),
    Act::Turns(3, 0),
    Act::Told(1, BAD, 1),
    Act::Closed(1),
];

#[test]
fn line_that_is_no_request(rt: HostRuntime) -> Result<(), Fail> {
    assert_eq!(rt; cut(rt.alloc(), 7, &NO_REQUEST, &NOW_BOB)?, 56);
    Ok(())
}

/// A body's length twice, and a body in chunks.
static LENGTHS: [Act; 15] = [
    Act::Comes(0),
    Act::Turns(6, 0),
    Act::Told(0, GREETING, 1),
    Act::Asks(0),
    Act::Turns(1, 0),
    Act::Sends(
        1,
        "PUT /policy HTTP/1.1\r\nContent-Length: 1\r\nContent-Length: 1\r\n\r\nx",
        1,
    ),
    Act::Asks(1),
    Act::Turns(1, 0),
    Act::Sends(
        2,
        "PUT /policy HTTP/1.1\r\nTransfer-Encoding: chunked\r\n\r\n",
        1,
    ),
    Act::Turns(14, 0),
    Act::Told(1, BAD, 1),
    Act::Closed(1),
    Act::Told(2, LENGTH_REQUIRED, 1),
    Act::Closed(2),
    Act::Open(0),
];

#[test]
fn lengths_of_a_body(rt: HostRuntime) -> Result<(), Fail> {
    assert_eq!(rt; cut(rt.alloc(), 7, &LENGTHS, &NOW_BOB)?, 98);
    Ok(())
}

/// Targets of no route.
static TARGETS: [Act; 18] = [
    Act::Comes(0),
    Act::Turns(6, 0),
    Act::Told(0, GREETING, 1),
    Act::Asks(0),
    Act::Turns(1, 0),
    Act::Asks(1),
    Act::Turns(1, 0),
    Act::Asks(2),
    Act::Turns(1, 0),
    Act::Sends(1, "GET /maildrops/Orders HTTP/1.1\r\n\r\n", 1),
    Act::Sends(2, "GET /policy?x=1 HTTP/1.1\r\n\r\n", 1),
    Act::Sends(3, "GET /explain/bob/orders/pay/write HTTP/1.1\r\n\r\n", 1),
    Act::Turns(9, 0),
    Act::Told(1, NOT_FOUND, 1),
    Act::Told(2, NOT_FOUND, 1),
    Act::Told(3, NOT_FOUND, 1),
    Act::Closed(3),
    Act::Open(0),
];

#[test]
fn targets_of_no_route(rt: HostRuntime) -> Result<(), Fail> {
    assert_eq!(rt; cut(rt.alloc(), 7, &TARGETS, &NOW_BOB)?, 110);
    Ok(())
}

/// A request's link that was accepted 60 seconds ago.
static LATE: [Act; 11] = [
    Act::Comes(0),
    Act::Turns(6, 0),
    Act::Told(0, GREETING, 1),
    Act::Asks(0),
    Act::Turns(1, 0),
    Act::Sends(1, "GET /maildrops HTTP/1.1\r\n", 1),
    Act::Turns(4, 59),
    Act::Open(1),
    Act::Turns(1, 60),
    Act::Told(1, "", 0),
    Act::Closed(1),
];

#[test]
fn late_request(rt: HostRuntime) -> Result<(), Fail> {
    assert_eq!(rt; cut(rt.alloc(), 7, &LATE, &NOW_BOB)?, 42);
    Ok(())
}

/// A client comes.
static GREETED: [Act; 3] = [Act::Comes(0), Act::Turns(6, 0), Act::Told(0, GREETING, 1)];

/// Bob alone, who comes and gets the maildrop.
fn bob_alone() -> Scene<'static> {
    Scene {
        piece: 7,
        first: &GREETED,
        then: &NOW_BOB,
    }
}

/// Names of files that are no message's.
static NAMES: [&str; 4] = [
    "orders.note.eml",
    ".orders.note.x.eml",
    "ORDERS.note.x.eml",
    "orders.note.x.eml.bad",
];

/// Puts a file of each of these names into a spool.
fn put_names(spool: &mut ScriptSpool) -> Result<(), AllocError> {
    for name in &NAMES {
        spool.put(*name, b"x\n")?;
    }
    Ok(())
}

/// Whether they are all there, and none was tried.
fn are_left(spool: &ScriptSpool) -> bool {
    for name in &NAMES {
        if !spool.has(*name) {
            return false;
        }
    }
    spool.acts().is_empty()
}

#[test]
fn names_of_no_message(rt: HostRuntime) -> Result<(), Fail> {
    let alloc = rt.alloc();
    let mut spool = ScriptSpool::new(alloc);
    put_names(&mut spool)?;
    assert_eq!(rt; cut_off(alloc, &mut spool, &bob_alone())?, 31);
    assert!(rt; are_left(&spool));
    Ok(())
}

/// A folder with the name of a message's file is tried, and left.
#[test]
fn folder_in_the_spool(rt: HostRuntime) -> Result<(), Fail> {
    let alloc = rt.alloc();
    let _ = fs::remove_dir_all(&rt, "folder-of-a-test");
    fs::create_dir(&rt, "folder-of-a-test")?;
    fs::create_dir(&rt, "folder-of-a-test/orders.note.x.eml")?;
    let mut spool = FolderSpool::new(&rt, alloc, "folder-of-a-test");
    assert_eq!(rt; cut_off(alloc, &mut spool, &bob_alone())?, 31);
    fs::remove_dir(&rt, "folder-of-a-test/orders.note.x.eml")?;
    fs::remove_dir(&rt, "folder-of-a-test")?;
    Ok(())
}

/// Whether a client's link was closed, and it got this or a beginning of it. Fails if its
/// link is open, and it got anything else.
fn is_lost(stage: &Stage, place: usize, greeting: &[u8]) -> Result<bool, Fail> {
    let told = stage.server.wire.written(place);
    let is_closed = stage.server.wire.is_closed(place);
    if greeting.starts_with(told) && (is_closed || told == greeting) {
        Ok(is_closed)
    } else {
        Err(Fail::new("told otherwise"))
    }
}

/// How many of the first 64 clients are lost: each other one got its greeting, and is open.
fn lost_of_first(stage: &Stage) -> Result<u64, Fail> {
    let mut lost = 0u64;
    for place in 0..64usize {
        let number = place + 1;
        let greeting = format!(in stage.alloc; "+OK POP3 server ready <{number}.7@h.test>\r\n")?;
        if is_lost(stage, place, greeting.as_bytes())? {
            lost = lost.saturating_add(1);
        }
    }
    Ok(lost)
}

/// One client more comes, at this place among them: whether it has the next number, and wasn't
/// closed without an octet.
fn is_seated(stage: &mut Stage, spool: &mut ScriptSpool, place: usize) -> Result<bool, Fail> {
    stage.server.wire.connect(Vec::new(stage.alloc))?;
    turns(stage, spool, 1, 0);
    let is_gone = is_lost(stage, place, b"+OK POP3 server ready <65.7@h.test>\r\n")?;
    Ok(!is_gone || !stage.server.wire.written(place).is_empty())
}

/// 64 clients come, and in the next two turns one more each. Whether one of the 64 is lost, and the
/// next that comes has its place and the next number, while no other has.
fn is_one_replaced(stage: &mut Stage, spool: &mut ScriptSpool) -> Result<bool, Fail> {
    for _ in 0..64u32 {
        stage.server.wire.connect(Vec::new(stage.alloc))?;
    }
    turns(stage, spool, 1, 0);
    let early = lost_of_first(stage)?;
    let is_first_seated = is_seated(stage, spool, 64)?;
    let lost = lost_of_first(stage)?;
    let is_second_seated = is_seated(stage, spool, 65)?;
    let is_early = early == 1;
    Ok(lost == 1 && is_first_seated == is_early && is_second_seated != is_early)
}

/// The same, with a fault in place of a call.
fn is_one_replaced_at(alloc: Global, call: u64, stop: Stop) -> Result<bool, Fail> {
    let mut spool = ScriptSpool::new(alloc);
    let mut stage = staged(alloc, &spool, 4096, call, stop)?;
    Ok(is_one_replaced(&mut stage, &mut spool)? && !stage.server.wire.strayed())
}

/// The calls of two turns: 64 greetings and 64 reads, and 64 reads.
#[test]
fn sixty_four_clients(rt: HostRuntime) -> Result<(), Fail> {
    for call in 0..192u64 {
        for stop in [Stop::End, Stop::Broken] {
            assert!(rt; is_one_replaced_at(rt.alloc(), call, stop)?, "{call}");
        }
    }
    Ok(())
}
