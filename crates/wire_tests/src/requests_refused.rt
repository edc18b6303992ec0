//! Requests of the administration if a growth of memory or a call of the store is refused. Each
//! is answered as ever, or that memory ran out, or that the store failed; the link of the first may
//! be closed instead, if there is no memory to keep it. A command is done wholly or not at all.
//!
//! Without a refusal the tests of growths pass too. tools/check-growths runs them with each growth
//! refused, and counts them by the rows that they print.
use crate::benches::{Bench, bench_over, request, turns};
use crate::requests_served::ROWS;
use crate::turns::octets;
use sqlvault::SqlVault;
use std::alloc::Global;
use std::test::Fail;
use transcripts::looks::look;
use transcripts::worked::{Setting, filled};
use vault::{PlainVault, Refusing, Vault};

/// The response if memory ran out.
static OUT_OF_MEMORY: &[u8] =
    b"HTTP/1.1 503 Service Unavailable\r\nContent-Type: text/plain\r\nContent-Length: 14\r\nConnection: close\r\n\r\nout of memory\n";

/// The response if the store refused a call.
static STORE_FAILED: &[u8] =
    b"HTTP/1.1 503 Service Unavailable\r\nContent-Type: text/plain\r\nContent-Length: 13\r\nConnection: close\r\n\r\nstore failed\n";

/// The most calls of a store that the rows may make.
const MOST_CALLS: u64 = 100;

/// A request, and what its response begins and ends with.
type Row = (&'static str, &'static str, &'static str);

/// Requests over the sample store, while ann is logged in.
static SAMPLE_ROWS: [Row; 5] = [
    (
        "GET /explain/bob/orders/pay/read HTTP/1.1\r\n\r\n",
        "HTTP/1.1 200 OK\r\n",
        "Content-Length: 24\r\nConnection: close\r\n\r\ndeny by rule bob-no-pay\n",
    ),
    (
        "DELETE /maildrops/orders HTTP/1.1\r\n\r\n",
        "HTTP/1.1 409 Conflict\r\n",
        "\r\n\r\nin use\n",
    ),
    (
        "GET /sessions HTTP/1.1\r\n\r\n",
        "HTTP/1.1 200 OK\r\n",
        "\r\n\r\n1 ann orders\n",
    ),
    (
        "DELETE /sessions/1 HTTP/1.1\r\n\r\n",
        "HTTP/1.1 200 OK\r\n",
        "\r\n\r\nended\n",
    ),
    (
        "DELETE /maildrops/orders HTTP/1.1\r\n\r\n",
        "HTTP/1.1 409 Conflict\r\n",
        "\r\n\r\nnot empty\n",
    ),
];

/// What ann sends, and the last reply to it.
static ANN: &[u8] = b"USER ann/orders\r\nPASS s3 cret\r\n";

static ANN_IS_IN: &[u8] = b"+OK maildrop has 4 messages (80 octets)\r\n";

/// The last reply to ann if the store refused a call of her login.
static REFUSED: &[u8] = b"-ERR store failed\r\n";

/// An office that is sent requests, and how many came.
#[derive(Drop)]
struct Asked<V: Vault> {
    bench: Bench<V>,
    came: usize,
}

/// An office over this vault.
fn asked_over<V: Vault + Drop>(alloc: Global, vault: V) -> Result<Asked<V>, Fail> {
    let bench = bench_over(alloc, vault, 4096)?;
    Ok(Asked { bench, came: 0 })
}

/// The response to a request. Fails unless its link is closed after it.
fn told<V: Vault>(asked: &mut Asked<V>, text: &str) -> Result<Vec<u8>, Fail> {
    let place = asked.came;
    request(&mut asked.bench, text.as_bytes())?;
    asked.came = place.saturating_add(1);
    turns(&mut asked.bench, 4, 0);
    let wire = &asked.bench.server.wire;
    if !wire.is_request_closed(place) || wire.strayed() {
        return Err(Fail::new("not closed"));
    }
    octets(asked.bench.alloc, wire.response(place))
}

/// Whether a response begins and ends as the row's does.
fn is_as_ever(said: &[u8], row: &Row) -> bool {
    let (_, begins, ends) = row;
    said.starts_with(begins.as_bytes()) && said.ends_with(ends.as_bytes())
}

/// The response of the office in which nothing is to be refused. If it isn't the row's, memory
/// was refused to the test itself.
fn told_as_ever(free: &mut Asked<PlainVault>, row: &Row) -> Result<Vec<u8>, Fail> {
    let said = told(free, row.0)?;
    if is_as_ever(said.as_slice(), row) {
        Ok(said)
    } else {
        Err(Fail::new("error: OutOfMemory"))
    }
}

/// Whether both offices keep the same.
fn keep_the_same<V: Vault>(
    tested: &mut Asked<V>,
    free: &mut Asked<PlainVault>,
) -> Result<bool, Fail> {
    let alloc = tested.bench.alloc;
    let kept = look(alloc, &mut tested.bench.server.office)?;
    Ok(kept == look(alloc, &mut free.bench.server.office)?)
}

/// Gives the other office a request that was refused. Fails unless the tested office had done it
/// not at all or, if memory ran out, wholly. Answers the response that the tested office must
/// give when the request comes again.
fn whole_or_nothing<V: Vault>(
    tested: &mut Asked<V>,
    free: &mut Asked<PlainVault>,
    row: &Row,
    refusal: &[u8],
) -> Result<Vec<u8>, Fail> {
    let is_undone = keep_the_same(tested, free)?;
    let first = told(free, row.0)?;
    if is_undone {
        return Ok(first);
    }
    if refusal == STORE_FAILED || !keep_the_same(tested, free)? {
        return Err(Fail::new("half a record, or one that was refused"));
    }
    told(free, row.0)
}

/// Whether a response is this refusal or, if memory ran out for the first link, empty.
fn is_told(said: &[u8], refusal: &[u8], came: usize) -> bool {
    said == refusal || (refusal == OUT_OF_MEMORY && said.is_empty() && came == 1)
}

/// Checks what stands after a request with another response than ever: it was this refusal, and the
/// request, made again, is answered as by the other office.
fn was_refused<V: Vault>(
    tested: &mut Asked<V>,
    free: &mut Asked<PlainVault>,
    row: &Row,
    said: &[u8],
    refusal: &[u8],
) -> Result<(), Fail> {
    if !is_told(said, refusal, tested.came) {
        return Err(Fail::new("another response"));
    }
    let again = whole_or_nothing(tested, free, row, refusal)?;
    if told(tested, row.0)? != again || !keep_the_same(tested, free)? {
        return Err(Fail::new("another answer"));
    }
    Ok(())
}

/// Makes a row's request to both offices. Answers whether the tested one refused it.
fn ask<V: Vault>(
    tested: &mut Asked<V>,
    free: &mut Asked<PlainVault>,
    row: &Row,
    refusal: &[u8],
) -> Result<bool, Fail> {
    let said = told(tested, row.0)?;
    if !is_as_ever(said.as_slice(), row) {
        was_refused(tested, free, row, said.as_slice(), refusal)?;
        return Ok(true);
    }
    if said == told_as_ever(free, row)? {
        Ok(false)
    } else {
        Err(Fail::new("another response as ever"))
    }
}

/// Makes each row's request to both offices. Answers whether the tested one refused one. Fails
/// unless both then keep the same.
fn ask_rows<V: Vault>(
    tested: &mut Asked<V>,
    free: &mut Asked<PlainVault>,
    rows: &[Row],
    refusal: &[u8],
) -> Result<bool, Fail> {
    let mut is_refused = false;
    for row in rows {
        is_refused |= ask(tested, free, row, refusal)?;
    }
    // a look calls the store, so it may not come before the call that is to be refused
    if !is_refused && refusal == STORE_FAILED {
        return Ok(false);
    }
    // if memory is refused to the first look, the second decides
    if keep_the_same(tested, free)? || keep_the_same(tested, free)? {
        Ok(is_refused)
    } else {
        Err(Fail::new("other records"))
    }
}

/// Makes the requests of `ROWS` over empty stores. Answers whether one was refused.
fn ask_empty<V: Vault + Drop>(alloc: Global, vault: V, refusal: &[u8]) -> Result<bool, Fail> {
    let mut tested = asked_over(alloc, vault)?;
    let mut free = asked_over(alloc, PlainVault::new(alloc))?;
    ask_rows(&mut tested, &mut free, ROWS.as_slice(), refusal)
}

/// An office over this filled vault, with ann logged in.
fn with_ann<V: Vault + Drop>(alloc: Global, vault: V) -> Result<Asked<V>, Fail> {
    let mut asked = asked_over(alloc, vault)?;
    asked.bench.server.wire.connect(octets(alloc, ANN)?)?;
    turns(&mut asked.bench, 4, 0);
    let said = asked.bench.server.wire.written(0);
    if said.ends_with(ANN_IS_IN) {
        Ok(asked)
    } else if said.ends_with(REFUSED) {
        Err(Fail::new("ann was refused"))
    } else {
        Err(Fail::new("error: OutOfMemory"))
    }
}

/// Makes the requests of `SAMPLE_ROWS` over sample stores, with ann logged in. Answers whether one
/// was refused.
fn ask_sample<V: Vault + Drop>(alloc: Global, vault: V, refusal: &[u8]) -> Result<bool, Fail> {
    let mut tested = with_ann(alloc, vault)?;
    let sample = filled(alloc, PlainVault::new(alloc), Setting::Sample)?;
    let mut free = with_ann(alloc, sample)?;
    ask_rows(&mut tested, &mut free, SAMPLE_ROWS.as_slice(), refusal)
}

#[test]
fn growths_of_requests(rt: HostRuntime) -> Result<(), Fail> {
    let alloc = rt.alloc();
    println!(rt; "row requests over an empty store")?;
    let _ = ask_empty(alloc, PlainVault::new(alloc), OUT_OF_MEMORY)?;
    println!(rt; "row explain_and_drop_over_http")?;
    let vault = filled(alloc, PlainVault::new(alloc), Setting::Sample)?;
    let _ = ask_sample(alloc, vault, OUT_OF_MEMORY)?;
    Ok(())
}

#[test]
fn growths_of_requests_over_tables(rt: HostRuntime) -> Result<(), Fail> {
    let alloc = rt.alloc();
    println!(rt; "row requests over an empty store")?;
    let _ = ask_empty(alloc, SqlVault::in_memory(alloc)?, OUT_OF_MEMORY)?;
    println!(rt; "row explain_and_drop_over_http")?;
    let vault = filled(alloc, SqlVault::in_memory(alloc)?, Setting::Sample)?;
    let _ = ask_sample(alloc, vault, OUT_OF_MEMORY)?;
    Ok(())
}

/// Whether a request is refused if an empty store, of vectors or of tables, refuses call `call`.
fn is_refused(alloc: Global, call: u64, is_over_tables: bool) -> Result<bool, Fail> {
    if is_over_tables {
        let vault = Refusing::new(SqlVault::in_memory(alloc)?, call);
        ask_empty(alloc, vault, STORE_FAILED)
    } else {
        let vault = Refusing::new(PlainVault::new(alloc), call);
        ask_empty(alloc, vault, STORE_FAILED)
    }
}

/// How many calls the requests make over empty stores, after the opening's: each is refused once.
fn calls_refused(alloc: Global, is_over_tables: bool) -> Result<u64, Fail> {
    for call in 2..MOST_CALLS {
        if !is_refused(alloc, call, is_over_tables)? {
            return Ok(call.saturating_sub(2));
        }
    }
    Err(Fail::new("a call was refused in each run"))
}

/// Whether a request is refused if a sample store refuses call `call`, with ann logged in.
fn is_refused_with_ann(alloc: Global, call: u64, is_over_tables: bool) -> Result<bool, Fail> {
    if is_over_tables {
        let sample = filled(alloc, SqlVault::in_memory(alloc)?, Setting::Sample)?;
        ask_sample(alloc, Refusing::new(sample, call), STORE_FAILED)
    } else {
        let sample = filled(alloc, PlainVault::new(alloc), Setting::Sample)?;
        ask_sample(alloc, Refusing::new(sample, call), STORE_FAILED)
    }
}

/// Eight of the rows call the store, once each: the maildrop is added, added again, listed and
/// dropped, the clerk is put and shown, and the policy is set twice.
#[test]
fn calls_of_requests(rt: HostRuntime) -> Result<(), Fail> {
    for is_over_tables in [false, true] {
        assert_eq!(rt; calls_refused(rt.alloc(), is_over_tables)?, 8);
        // call 1 is the opening's, 2 and 3 are the login's, and 4 drops the maildrop
        assert!(rt; is_refused_with_ann(rt.alloc(), 4, is_over_tables)?);
        assert!(rt; !is_refused_with_ann(rt.alloc(), 5, is_over_tables)?);
    }
    Ok(())
}
