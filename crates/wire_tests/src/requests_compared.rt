//! Commands are answered the same over HTTP as in a script that replay plays.
use crate::benches::{Bench, bench_over, request, turns};
use crate::turns::octets;
use std::alloc::{AllocError, Global};
use std::str;
use std::test::Fail;
use transcripts::offices::deposit;
use transcripts::playing::{expect, run_at};
use vault::PlainVault;

/// A command: its request's method and target, its body if it has one, and its line in a script.
type Row = (&'static str, Option<&'static str>, &'static str);

/// A rule, as a body.
const RULE: &str = "[[rule]]\nname = \"ann-all\"\neffect = \"allow\"\nclerk = \"ann\"\n\
    maildrop = \"*\"\nclass = \"*\"\nactions = [\"open\", \"read\", \"remove\"]\n";

/// The rule, as a line of a script.
const RULE_LINE: &str =
    r#"policy [[rule]]\nname = "ann-all"\neffect = "allow"\nclerk = "ann"\nmaildrop = "*"\nclass = "*"\nactions = ["open", "read", "remove"]\n"#;

/// Groups without a rule, as a body.
const GROUPS: &str = "[[group]]\nname = \"sales\"\nmembers = [\"ann\", \"bob\"]\n\
    [[group]]\nname = \"books\"\nmembers = [\"cat\"]\n";

/// The groups, as a line of a script.
const GROUPS_LINE: &str =
    r#"policy [[group]]\nname = "sales"\nmembers = ["ann", "bob"]\n[[group]]\nname = "books"\nmembers = ["cat"]\n"#;

/// Commands to an office without maildrops.
static FIRST: [Row; 26] = [
    ("PUT /maildrops/orders", None, "maildrop add orders"),
    ("PUT /maildrops/orders", None, "maildrop add orders"),
    ("PUT /maildrops/sales", None, "maildrop add sales"),
    ("GET /maildrops", None, "maildrops"),
    ("GET /maildrops/orders", None, "list orders"),
    ("GET /maildrops/nowhere", None, "list nowhere"),
    ("GET /policy", None, "policy"),
    (
        "PUT /clerks/ann",
        Some("pass s3 cret"),
        "clerk pass ann s3 cret",
    ),
    (
        "PUT /clerks/bob",
        Some("apop tanstaaf\n"),
        "clerk apop bob tanstaaf",
    ),
    ("GET /clerks/ann", None, "clerk show ann"),
    ("GET /clerks/bob", None, "clerk show bob"),
    (
        "PUT /clerks/bob",
        Some("pass hunter"),
        "clerk pass bob hunter",
    ),
    ("GET /clerks/bob", None, "clerk show bob"),
    ("GET /clerks/zoe", None, "clerk show zoe"),
    ("GET /groups", None, "groups"),
    ("PUT /policy", Some(GROUPS), GROUPS_LINE),
    ("GET /groups", None, "groups"),
    ("GET /policy", None, "policy"),
    ("PUT /policy", Some("group = [{}]"), "policy group = [{}]"),
    ("PUT /policy", Some(RULE), RULE_LINE),
    ("GET /policy", None, "policy"),
    ("PUT /policy", Some("x = 1"), "policy x = 1"),
    (
        "GET /explain/ann/orders/note/open",
        None,
        "explain ann orders note open",
    ),
    (
        "GET /explain/bob/orders/pay/read",
        None,
        "explain bob orders pay read",
    ),
    ("GET /sessions", None, "sessions"),
    ("DELETE /sessions/1", None, "end 1"),
];

/// Commands while ann is logged in, and a message lies in the maildrop `orders`.
static SECOND: [Row; 12] = [
    ("GET /sessions", None, "sessions"),
    ("GET /maildrops", None, "maildrops"),
    ("GET /maildrops/orders", None, "list orders"),
    ("DELETE /maildrops/orders", None, "maildrop drop orders"),
    ("DELETE /sessions/1", None, "end 1"),
    ("DELETE /sessions/1", None, "end 1"),
    ("DELETE /maildrops/orders", None, "maildrop drop orders"),
    ("DELETE /maildrops/sales", None, "maildrop drop sales"),
    ("DELETE /maildrops/sales", None, "maildrop drop sales"),
    ("DELETE /clerks/bob", None, "clerk drop bob"),
    ("DELETE /clerks/bob", None, "clerk drop bob"),
    ("PUT /policy", Some(""), "policy "),
];

/// What is done between `FIRST` and `SECOND`, as lines of a script.
static BETWEEN: &str = "deposit orders note d1 hi\nconnect\ndrain 1\n\
    bytes 1 USER ann/orders\\r\\nPASS s3 cret\\r\\n\ndrain 1\n";

/// The octets of a request.
fn request_text(alloc: Global, row: &Row) -> Result<String, AllocError> {
    let (asked, body, _) = row;
    match body {
        Some(body) => {
            let len = body.len();
            format!(in alloc; "{asked} HTTP/1.1\r\nContent-Length: {len}\r\n\r\n{body}")
        }
        None => format!(in alloc; "{asked} HTTP/1.1\r\n\r\n"),
    }
}

/// Puts the lines of a response's body after `text`, as replay prints an answer.
fn put_answer(text: &mut String, body: &str) -> Result<(), AllocError> {
    if body.is_empty() {
        writeln!(text, "answer")?;
    }
    for line in body.lines() {
        writeln!(text, "answer {line}")?;
    }
    Ok(())
}

/// Makes the requests of these rows, the first on the wire's request link number `from`, and puts
/// their answers after `text`.
fn ask_all(
    bench: &mut Bench<PlainVault>,
    rows: &[Row],
    from: usize,
    text: &mut String,
) -> Result<(), Fail> {
    let mut place = from;
    for row in rows {
        let asked = request_text(bench.alloc, row)?;
        request(bench, asked.as_bytes())?;
        turns(bench, 2, 0);
        let told = str::from_utf8(bench.server.wire.response(place))?;
        let (_, body) = told.split_once("\r\n\r\n").ok_or("no response")?;
        put_answer(text, body)?;
        place = place.saturating_add(1);
    }
    Ok(())
}

/// The answers to all commands over HTTP.
fn told_over_http(alloc: Global) -> Result<String, Fail> {
    let mut bench = bench_over(alloc, PlainVault::new(alloc), 4096)?;
    let mut text = String::new(alloc);
    ask_all(&mut bench, FIRST.as_slice(), 0, &mut text)?;
    deposit(&mut bench.server.office, "orders", b"hi")?;
    text.push_str("answer new note.1\n")?;
    bench
        .server
        .wire
        .connect(octets(alloc, b"USER ann/orders\r\nPASS s3 cret\r\n")?)?;
    turns(&mut bench, 4, 0);
    ask_all(&mut bench, SECOND.as_slice(), FIRST.len(), &mut text)?;
    Ok(text)
}

/// Puts the lines of these rows after a script.
fn put_lines(script: &mut String, rows: &[Row]) -> Result<(), AllocError> {
    for (_, _, line) in rows {
        writeln!(script, "{line}")?;
    }
    Ok(())
}

/// The answers to all commands, as replay prints them.
fn told_by_replay(alloc: Global) -> Result<String, Fail> {
    let mut script = String::new(alloc);
    put_lines(&mut script, FIRST.as_slice())?;
    script.push_str(BETWEEN)?;
    put_lines(&mut script, SECOND.as_slice())?;
    let ran = run_at(alloc, "h.test", 7, script.as_str())?;
    let mut answers = String::new(alloc);
    for line in ran.as_str().lines() {
        if line.starts_with("answer") {
            writeln!(answers, "{line}")?;
        }
    }
    Ok(answers)
}

/// Some of the answers, as they must be.
static SOME: [&str; 7] = [
    "answer added\nanswer was there\nanswer added\nanswer orders 0 0\nanswer sales 0 0\nanswer\n",
    "answer rule 0: UnknownKey\nanswer allow by rule ann-all\nanswer deny by rule default\nanswer\n",
    "answer new note.1\nanswer 1 ann orders\nanswer orders 1 4\nanswer sales 0 0\nanswer note.1 4\n",
    "answer in use\nanswer ended\nanswer no such session\nanswer not empty\nanswer dropped\n",
    "answer no such maildrop\nanswer dropped\nanswer no such clerk\nanswer 0 rules\n",
    "answer apop\nanswer replaced\nanswer pass\nanswer no such clerk\nanswer\nanswer 0 rules\n",
    "answer sales 2\nanswer books 1\nanswer [[group]]\nanswer name = \"sales\"\nanswer members = [\"ann\", \"bob\"]\n",
];

#[test]
fn answers_are_those_of_replay(rt: HostRuntime) -> Result<(), Fail> {
    let told = told_over_http(rt.alloc())?;
    for some in &SOME {
        assert!(rt; told.as_str().contains(*some), "{some}");
    }
    expect(told, told_by_replay(rt.alloc())?.as_str())
}
