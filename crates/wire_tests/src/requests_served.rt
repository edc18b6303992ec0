//! Requests of the administration over links in memory: pieces, limits, and faults in place of
//! reads and writes.
use crate::benches::{Bench, bench_over, request, turns};
use crate::turns::octets;
use office::{AdminCommand, Event};
use policy::Policy;
use serving::Stop;
use std::alloc::Global;
use std::test::Fail;
use vault::PlainVault;

/// A request that adds a maildrop, and its response.
static ADD: &[u8] = b"PUT /maildrops/sales HTTP/1.1\r\n\r\n";

static ADDED: &[u8] =
    b"HTTP/1.1 201 Created\r\nContent-Type: text/plain\r\nContent-Length: 6\r\nConnection: close\r\n\r\nadded\n";

/// A request that lists sessions, and its response without any.
static SESSIONS: &[u8] = b"GET /sessions HTTP/1.1\r\n\r\n";

static NO_SESSIONS: &[u8] =
    b"HTTP/1.1 200 OK\r\nContent-Type: text/plain\r\nContent-Length: 0\r\nConnection: close\r\n\r\n";

/// The first octets of a request.
static BEGUN: &[u8] = b"GET /sessions HTTP/1.1\r\n";

/// Requests, each with the first line of its response and its body, for an office that has seen
/// those above it.
pub(super) static ROWS: [(&str, &str, &str); 15] = [
    (
        "PUT /maildrops/orders HTTP/1.1\r\n\r\n",
        "HTTP/1.1 201 Created\r\n",
        "\r\n\r\nadded\n",
    ),
    (
        "PUT /maildrops/orders HTTP/1.1\r\n\r\n",
        "HTTP/1.1 200 OK\r\n",
        "\r\n\r\nwas there\n",
    ),
    (
        "GET /maildrops HTTP/1.0\n\n",
        "HTTP/1.1 200 OK\r\n",
        "\r\n\r\norders 0 0\n",
    ),
    (
        "PUT /clerks/ann HTTP/1.1\r\nContent-Length: 13\r\n\r\npass s3 cret\n",
        "HTTP/1.1 201 Created\r\n",
        "\r\n\r\nadded\n",
    ),
    (
        "GET /clerks/ann HTTP/1.1\r\n\r\n",
        "HTTP/1.1 200 OK\r\n",
        "Content-Length: 5\r\nConnection: close\r\n\r\npass\n",
    ),
    (
        "PUT /policy HTTP/1.1\r\nContent-Length: 0\r\n\r\n",
        "HTTP/1.1 200 OK\r\n",
        "Content-Length: 8\r\nConnection: close\r\n\r\n0 rules\n",
    ),
    (
        "PUT /policy HTTP/1.1\r\n\r\n",
        "HTTP/1.1 411 Length Required\r\n",
        "Content-Length: 16\r\nConnection: close\r\n\r\nlength required\n",
    ),
    (
        "PUT /policy HTTP/1.1\r\nContent-Length: 5\r\n\r\nx = 1",
        "HTTP/1.1 400 Bad Request\r\n",
        "Content-Length: 19\r\nConnection: close\r\n\r\nrule 0: UnknownKey\n",
    ),
    (
        "POST /policy HTTP/1.1\r\n\r\n",
        "HTTP/1.1 405 Method Not Allowed\r\n",
        "Allow: GET, PUT\r\nContent-Length: 19\r\nConnection: close\r\n\r\nmethod not allowed\n",
    ),
    (
        "PUT /policy HTTP/1.1\r\nContent-Length: 50\r\n\r\n[[group]]\nname = \"sales\"\nmembers = [\"ann\", \"bob\"]\n",
        "HTTP/1.1 200 OK\r\n",
        "Content-Length: 8\r\nConnection: close\r\n\r\n0 rules\n",
    ),
    (
        "GET /groups HTTP/1.1\r\n\r\n",
        "HTTP/1.1 200 OK\r\n",
        "Content-Length: 8\r\nConnection: close\r\n\r\nsales 2\n",
    ),
    (
        "GET /explain/bob/orders/pay/read HTTP/1.1\r\n\r\n",
        "HTTP/1.1 200 OK\r\n",
        "Content-Length: 21\r\nConnection: close\r\n\r\ndeny by rule default\n",
    ),
    (
        "DELETE /sessions/1 HTTP/1.1\r\n\r\n",
        "HTTP/1.1 404 Not Found\r\n",
        "\r\n\r\nno such session\n",
    ),
    (
        "DELETE /maildrops/orders HTTP/1.1\r\n\r\n",
        "HTTP/1.1 200 OK\r\n",
        "\r\n\r\ndropped\n",
    ),
    (
        "GET /maildrops/Orders HTTP/1.1\r\n\r\n",
        "HTTP/1.1 404 Not Found\r\n",
        "\r\n\r\nnot found\n",
    ),
];

/// A bench with an office over an empty store in memory.
fn new_bench(alloc: Global, piece: usize) -> Result<Bench<PlainVault>, Fail> {
    bench_over(alloc, PlainVault::new(alloc), piece)
}

/// Whether each row's request has its response, if both come in pieces of `piece` octets and
/// `count` turns are served.
fn rows_in_pieces(alloc: Global, piece: usize, count: u32) -> Result<bool, Fail> {
    let mut bench = new_bench(alloc, piece)?;
    let mut place = 0;
    for (asked, begins, ends) in &ROWS {
        request(&mut bench, asked.as_bytes())?;
        turns(&mut bench, count, 0);
        let told = bench.server.wire.response(place);
        let is_told = told.starts_with(begins.as_bytes()) && told.ends_with(ends.as_bytes());
        if !is_told || !bench.server.wire.is_request_closed(place) {
            return Ok(false);
        }
        place = place.saturating_add(1);
    }
    Ok(bench.links.requests() == 0 && !bench.server.wire.strayed())
}

#[test]
fn rows_of_the_administration(rt: HostRuntime) -> Result<(), Fail> {
    assert!(rt; rows_in_pieces(rt.alloc(), 1, 100)?);
    assert!(rt; rows_in_pieces(rt.alloc(), 7, 20)?);
    assert!(rt; rows_in_pieces(rt.alloc(), 4096, 1)?);
    Ok(())
}

/// While eight links wait, a ninth is closed without an octet. One that comes once there is room is
/// served.
#[test]
fn ninth_link(rt: HostRuntime) -> Result<(), Fail> {
    let alloc = rt.alloc();
    let mut bench = new_bench(alloc, 4096)?;
    for _ in 0..9u32 {
        request(&mut bench, BEGUN)?;
    }
    turns(&mut bench, 2, 0);
    assert_eq!(rt; bench.links.requests(), 8);
    assert!(rt; bench.server.wire.is_request_closed(8) && bench.server.wire.response(8).is_empty());
    bench.server.wire.send_request(3, b"\r\n")?;
    turns(&mut bench, 1, 0);
    assert!(rt;
        bench.server.wire.response(3) == NO_SESSIONS && bench.server.wire.is_request_closed(3)
    );
    request(&mut bench, SESSIONS)?;
    turns(&mut bench, 1, 0);
    assert!(rt; bench.server.wire.response(9) == NO_SESSIONS);
    assert!(rt;
        bench.server.wire.response(2).is_empty() && !bench.server.wire.is_request_closed(2)
    );
    Ok(())
}

/// Serves a turn, so many seconds after a moment.
fn turn_behind(bench: &mut Bench<PlainVault>, first: u64, seconds: u64) {
    turns(bench, 1, first.saturating_add(seconds));
}

/// Whether a link is closed 60 seconds after it was accepted, even if its request isn't whole or
/// its response isn't taken. The first one comes at this moment.
fn is_closed_by_time(alloc: Global, first: u64) -> Result<bool, Fail> {
    let mut bench = new_bench(alloc, 16)?;
    turns(&mut bench, 1, first);
    request(&mut bench, BEGUN)?;
    turn_behind(&mut bench, first, 2);
    turn_behind(&mut bench, first, 61);
    let first_stays = !bench.server.wire.is_request_closed(0);
    request(&mut bench, SESSIONS)?;
    turn_behind(&mut bench, first, 61);
    bench.server.wire.stall_response(1);
    turn_behind(&mut bench, first, 62);
    let first_ends = bench.server.wire.is_request_closed(0)
        && bench.server.wire.response(0).is_empty();
    turn_behind(&mut bench, first, 120);
    let second_stays = !bench.server.wire.is_request_closed(1);
    turn_behind(&mut bench, first, 121);
    let second_ends = bench.server.wire.is_request_closed(1) && bench.links.requests() == 0;
    Ok(first_stays && first_ends && second_stays && second_ends)
}

/// So it is at the start, after a day, and after more seconds than 32 bits count.
#[test]
fn sixty_seconds(rt: HostRuntime) -> Result<(), Fail> {
    for first in [5u64, 100_000, 5_000_000_000] {
        assert!(rt; is_closed_by_time(rt.alloc(), first)?, "{first}");
    }
    Ok(())
}

/// A policy of 1,000 rules, which has more than 100,000 octets.
fn large_policy(alloc: Global) -> Result<String, Fail> {
    let mut text = String::new(alloc);
    for number in 1..=1000u32 {
        if number > 1 {
            text.push_str("\n")?;
        }
        let rule = format!(in alloc;
            "[[rule]]\nname = \"rule-{number}\"\neffect = \"allow\"\nclerk = \"*\"\n\
             maildrop = \"maildrop-{number}\"\nclass = \"*\"\nactions = [\"open\"]\n"
        )?;
        text.push_str(rule.as_str())?;
    }
    Ok(text)
}

#[test]
fn a_large_policy_is_set(rt: HostRuntime) -> Result<(), Fail> {
    let alloc = rt.alloc();
    let policy = large_policy(alloc)?;
    assert!(rt; policy.len() > 100_000);
    let mut bench = new_bench(alloc, 65_536)?;
    let front = format!(in alloc;
        "PUT /policy HTTP/1.1\r\nContent-Length: {}\r\n\r\n",
        policy.len()
    )?;
    request(&mut bench, front.as_bytes())?;
    turns(&mut bench, 1, 0);
    bench.server.wire.send_request(0, policy.as_bytes())?;
    turns(&mut bench, 60, 0);
    assert!(rt;
        bench
            .server
            .wire
            .response(0)
            .ends_with(b"\r\n\r\n1000 rules\n")
    );
    Ok(())
}

#[test]
fn a_large_policy_is_read(rt: HostRuntime) -> Result<(), Fail> {
    let alloc = rt.alloc();
    let text = large_policy(alloc)?;
    let mut bench = new_bench(alloc, 65_536)?;
    let policy = Policy::read(alloc, text.as_str())?;
    let _ = bench
        .server
        .office
        .step(Event::Admin(&AdminCommand::SetPolicy(policy)));
    request(&mut bench, b"GET /policy HTTP/1.1\r\n\r\n")?;
    turns(&mut bench, 20, 0);
    assert!(rt; bench.server.wire.response(0).ends_with(text.as_bytes()));
    assert!(rt; bench.server.wire.is_request_closed(0));
    Ok(())
}

/// A link that ends before its request is whole is closed without a response. A whole request is
/// answered, though its link has ended.
#[test]
fn end_before_the_request_is_whole(rt: HostRuntime) -> Result<(), Fail> {
    let alloc = rt.alloc();
    let mut bench = new_bench(alloc, 4096)?;
    bench.server.wire.end_links();
    request(&mut bench, SESSIONS)?;
    request(&mut bench, BEGUN)?;
    turns(&mut bench, 3, 0);
    assert!(rt; bench.server.wire.is_request_closed(0) && bench.server.wire.response(0).is_empty());
    assert!(rt;
        bench.server.wire.is_request_closed(1) && bench.server.wire.response(1) == NO_SESSIONS
    );
    Ok(())
}

/// Puts a fault in place of one call of the wire. Whether two requests and a client are then each
/// sent a beginning of what they are owed, two of them at least all of it, and all links are
/// closed.
fn with_stop(alloc: Global, call: u64, stop: Stop) -> Result<bool, Fail> {
    let mut bench = new_bench(alloc, 7)?;
    bench.server.wire.connect(octets(alloc, b"QUIT\r\n")?)?;
    request(&mut bench, SESSIONS)?;
    request(&mut bench, ADD)?;
    bench.server.wire.stop_at(call, stop);
    turns(&mut bench, 40, 0);
    let added = bench.server.wire.response(0);
    let none = bench.server.wire.response(1);
    let client: &[u8] = b"+OK POP3 server ready <1.7@h.test>\r\n+OK bye\r\n";
    let said = bench.server.wire.written(0);
    if !ADDED.starts_with(added) || !NO_SESSIONS.starts_with(none) || !client.starts_with(said) {
        return Ok(false);
    }
    let is_added = added == ADDED;
    let is_told = none == NO_SESSIONS;
    let is_said = said == client;
    let two_are_whole = (is_added && is_told) || (is_said && (is_added || is_told));
    let is_over = bench.links.requests() == 0 && bench.links.count() == 0;
    Ok(is_over && two_are_whole && !bench.server.wire.strayed())
}

#[test]
fn a_fault_ends_its_own_request(rt: HostRuntime) -> Result<(), Fail> {
    for call in 0..70u64 {
        for stop in [Stop::End, Stop::Broken] {
            assert!(rt; with_stop(rt.alloc(), call, stop)?, "{call}");
        }
    }
    Ok(())
}
