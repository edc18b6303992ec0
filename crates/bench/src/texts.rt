//! How fast message texts are kept, sent with their dots, and read back.

use crate::{rate, since};
use mailtext::{MailText, Stuffer, canon, stuff_into, unstuff};
use std::alloc::{AllocError, Global};
use std::io;
use std::rt::Clock;
use std::time::Instant;

/// A text of at least `octets` octets that repeats a line.
pub fn text_of(alloc: Global, line: &[u8], octets: usize) -> Result<Vec<u8>, AllocError> {
    let mut text = Vec::new(alloc);
    for _ in 0..octets.div_ceil(line.len().max(1)) {
        text.extend_from_slice(line)?;
    }
    Ok(text)
}

fn keep(alloc: Global, text: &[u8]) -> Option<MailText> {
    canon(alloc, text).ok()
}

/// The text's octets as they are sent, with the line of a dot that ends them.
fn send(alloc: Global, kept: &MailText) -> Result<Vec<u8>, AllocError> {
    let mut sent = Vec::new(alloc);
    stuff_into(&mut sent, kept.bytes())?;
    sent.extend_from_slice(b".\r\n")?;
    Ok(sent)
}

/// How many octets are sent of a text that comes in pieces of 4,096 octets.
fn send_pieces(text: &[u8], out: &mut [u8]) -> usize {
    let mut stuffer = Stuffer::new();
    let mut sent = 0usize;
    for piece in text.chunks(4096) {
        let (_, put) = stuffer.feed(piece, out);
        sent = sent.wrapping_add(put);
    }
    sent
}

/// Sends a text by pieces through a buffer of 16,384 octets. Answers how many octets are sent, and
/// how many of the text in a microsecond.
fn streaming(rt: &(impl AllocGlobal + Clock), kept: &MailText) -> io::Result<(usize, u64)> {
    let mut out = vec![in rt.alloc(); 0u8; 16_384]?;
    let start = Instant::now(rt)?;
    let sent = send_pieces(kept.bytes(), &mut out);
    Ok((sent, rate(kept.octets() as u64, since(rt, start)?)))
}

/// Whether a text that was sent can be read.
fn is_read(alloc: Global, sent: &[u8]) -> Result<bool, AllocError> {
    Ok(unstuff(alloc, sent)?.is_some())
}

/// Whether the octets that were sent can be read back, and how many of them in a microsecond.
fn reading(rt: &(impl AllocGlobal + Clock), sent: &[u8]) -> io::Result<(bool, u64)> {
    let start = Instant::now(rt)?;
    let is_read = is_read(rt.alloc(), sent)?;
    Ok((is_read, rate(sent.len() as u64, since(rt, start)?)))
}

/// Prints how fast a kept text is sent and read back.
fn measure_kept(
    rt: &(impl Print + AllocGlobal + Clock),
    name: &str,
    kept: &MailText,
    keeping: u64,
) -> io::Result<()> {
    let start = Instant::now(rt)?;
    let sent = send(rt.alloc(), kept)?;
    let stuffing = rate(kept.octets() as u64, since(rt, start)?);
    let (is_read, reading) = reading(rt, &sent)?;
    let state = if is_read { "read" } else { "not read" };
    let (put, streaming) = streaming(rt, kept)?;
    println!(rt;
        "{name}: canon {keeping} MB/s, stuff_into {stuffing} MB/s, unstuff {reading} MB/s, {state}"
    )?;
    println!(rt; "{name}: Stuffer {streaming} MB/s, {put} octets")
}

fn measure(rt: &(impl Print + AllocGlobal + Clock), name: &str, text: &[u8]) -> io::Result<()> {
    let start = Instant::now(rt)?;
    let kept = keep(rt.alloc(), text);
    let keeping = rate(text.len() as u64, since(rt, start)?);
    match kept {
        Some(kept) => measure_kept(rt, name, &kept, keeping),
        None => println!(rt; "{name}: not kept"),
    }
}

/// Measures four kinds of text, each of `octets` octets or a line more.
pub fn texts(rt: &(impl Print + AllocGlobal + Clock), octets: usize) -> io::Result<()> {
    let rows = [
        (
            "lines of 72 octets, LF",
            b"All other octets are kept, as they are, in each line of the message ..\n".as_slice(),
        ),
        (
            "lines of 73 octets, CRLF",
            b"All other octets are kept, as they are, in each line of the message ..\r\n".as_slice(),
        ),
        ("empty lines, CRLF", b"\r\n".as_slice()),
        ("lines that are a dot, CRLF", b".\r\n".as_slice()),
    ];
    for (name, line) in rows {
        let text = text_of(rt.alloc(), line, octets)?;
        measure(rt, name, &text)?;
    }
    Ok(())
}
