//! What clients and the administration send by chance.
use crate::chance::Chance;
use std::alloc::{AllocError, Global};

/// The maildrops.
pub static MAILDROPS: [&str; 3] = ["orders", "stock", "bills"];

/// What clients send.
static LINES: [&[u8]; 44] = [
    b"USER ann/orders\r\nPASS s3 cret\r\n",
    b"USER ann/sales\r\nPASS s3 cret\r\n",
    b"USER bob/orders\r\nPASS hunter\r\n",
    b"USER bob/sales\r\nPASS hunter\r\n",
    b"USER ann/stock\r\nPASS s3 cret\r\n",
    b"USER bob/stock\r\nPASS hunter\r\n",
    b"USER ann/bills\r\nPASS s3 cret\r\n",
    b"USER bob/bills\r\nPASS hunter\r\n",
    b"USER ann/orders\r\nPASS s3 cret\r\nSTAT\r\nLIST\r\n",
    b"USER bob/orders\r\nPASS hunter\r\nRETR 1\r\nDELE 1\r\nQUIT\r\n",
    b"USER ann/orders\r\nPASS s3 cret\r\nRETR 2\r\nDELE 2\r\nDELE 3\r\nQUIT\r\n",
    b"USER bob/orders\r\nPASS wrong\r\n",
    b"USER zoe/nowhere\r\nPASS x\r\n",
    b"PASS s3 cret\r\n",
    b"STAT\r\n",
    b"LIST\r\n",
    b"LIST 1\r\n",
    b"UIDL\r\n",
    b"UIDL 9\r\n",
    b"RETR 1\r\n",
    b"RETR 2\r\nRETR 3\r\n",
    b"RETR 4\r\n",
    b"TOP 1 0\r\nTOP 2 7\r\n",
    b"TOP 3 1000000000000000000000\r\n",
    b"DELE 1\r\n",
    b"DELE 2\r\nDELE 2\r\nLIST\r\n",
    b"RSET\r\n",
    b"NOOP\r\n",
    b"CAPA\r\n",
    b"QUIT\r\n",
    b"DELE 1\r\nQUIT\r\n",
    b"STAT\r\nDELE 1\r\nDELE 2\r\nDELE 3\r\nQUIT\r\nNOOP\r\n",
    b"noop\n",
    b"\r\n\n\r\n",
    b"NO",
    b"OP\r",
    b"\n",
    b"USER\r\n",
    b"RETR 99999999999999999999999999\r\n",
    b"\x00\xff\xfe\r\n",
    b"APOP ann/orders 0123456789abcdef0123456789abcdef\r\n",
    b"GET / HTTP/1.1\r\n\r\n",
    b"aaaaaaaaaaaaaaaaaaaaaaaaaaaaaaaaaaaaaaaaaaaaaaaaaaaaaaaaaaaaaaaa",
    b"Q",
];

/// What is asked, but for the end of a session.
static REQUESTS: [&str; 9] = [
    "GET /maildrops HTTP/1.1\r\n\r\n",
    "GET /maildrops/orders HTTP/1.1\r\n\r\n",
    "GET /sessions HTTP/1.1\r\n\r\n",
    "PUT /maildrops/sales HTTP/1.1\r\n\r\n",
    "DELETE /maildrops/sales HTTP/1.1\r\n\r\n",
    "GET /clerks/ann HTTP/1.0\n\n",
    "GET /nowhere HTTP/1.1\r\n\r\n",
    "bad\r\n\r\n",
    "PUT /clerks/bob HTTP/1.1\r\nContent-Length: 12\r\n\r\npass hunter\n",
];

/// A maildrop by chance.
pub fn some_maildrop(chance: &mut Chance) -> &'static str {
    match MAILDROPS.get(chance.below(3) as usize) {
        Some(maildrop) => *maildrop,
        None => "",
    }
}

/// What a client sends by chance.
pub fn some_line(chance: &mut Chance) -> &'static [u8] {
    match LINES.get(chance.below(44) as usize) {
        Some(line) => *line,
        None => b"",
    }
}

/// A request by chance, which may be the end of this session.
pub fn some_request(
    alloc: Global,
    chance: &mut Chance,
    session: u64,
) -> Result<String, AllocError> {
    match REQUESTS.get(chance.below(27) as usize) {
        Some(text) => String::from_str(alloc, *text),
        None => format!(in alloc; "DELETE /sessions/{session} HTTP/1.1\r\n\r\n"),
    }
}
