//! Worked values of texts that come in pieces.

use mailtext::{MailText, Stuffer, TextFault, TopCut, canon, stuff_into};
use std::alloc::{AllocError, Global};
use std::test::Fail;

/// The kept form of a text, without the clauses of `canon`.
fn kept(alloc: Global, text: &[u8]) -> Result<MailText, TextFault> {
    canon(alloc, text)
}

/// Stuffs a piece through a buffer of at least two octets, and puts it after `sent`.
fn send_piece(
    stuffer: &mut Stuffer,
    sent: &mut Vec<u8>,
    piece: &[u8],
    out: &mut [u8],
) -> Result<(), AllocError> {
    let mut left = piece;
    // each turn takes one octet at least, while one is left
    for _ in piece {
        let (taken, put) = stuffer.feed(left, out);
        sent.extend_from_slice(&out[..put])?;
        left = &left[taken..];
    }
    Ok(())
}

/// What is sent of a kept text that comes in pages of 4,096 octets, through a buffer of `size`
/// octets.
fn sent_by_pages(alloc: Global, text: &[u8], size: usize) -> Result<Vec<u8>, AllocError> {
    let mut sent = Vec::new(alloc);
    let mut out = vec![in alloc; 0u8; size]?;
    let mut stuffer = Stuffer::new();
    for page in text.chunks(4096) {
        send_piece(&mut stuffer, &mut sent, page, &mut out)?;
    }
    Ok(sent)
}

/// Whether a kept text has `octets` octets, and is sent in the same `wanted` octets by pages as at
/// once.
fn is_sent_alike(
    alloc: Global,
    text: &MailText,
    octets: usize,
    size: usize,
    wanted: usize,
) -> Result<bool, AllocError> {
    let mut whole = Vec::new(alloc);
    stuff_into(&mut whole, text.bytes())?;
    let parts = sent_by_pages(alloc, text.bytes(), size)?;
    Ok(text.octets() == octets && whole.len() == wanted && parts == whole)
}

/// The kept form of `octets` times `a` and an end.
fn long(alloc: Global, octets: usize, end: &[u8]) -> Result<MailText, TextFault> {
    let mut text = vec![in alloc; b'a'; octets]?;
    text.extend_from_slice(end)?;
    kept(alloc, &text)
}

// The dot is the first octet of the second page.
#[test]
fn dot_at_the_front_of_a_page(rt: HostRuntime) -> Result<(), Fail> {
    let alloc = rt.alloc();
    let text = long(alloc, 4094, b"\n.x\n")?;
    for size in [2, 3, 512, 16_384] {
        assert!(rt; is_sent_alike(alloc, &text, 4100, size, 4101)?);
    }
    Ok(())
}

// The CR is the last octet of the first page.
#[test]
fn line_end_over_the_edge_of_a_page(rt: HostRuntime) -> Result<(), Fail> {
    let alloc = rt.alloc();
    let text = long(alloc, 4095, b"\n.\n")?;
    for size in [2, 3, 512, 16_384] {
        assert!(rt; is_sent_alike(alloc, &text, 4100, size, 4101)?);
    }
    Ok(())
}

/// Puts those octets of a piece that TOP sends after `sent`.
fn put_part(cut: &mut TopCut, sent: &mut Vec<u8>, piece: &[u8]) -> Result<(), AllocError> {
    let octets = cut.feed(piece);
    sent.extend_from_slice(&piece[..octets])
}

/// What TOP sends of a kept text that comes in two pieces.
fn top_in_two(alloc: Global, text: &[u8], at: usize, lines: u64) -> Result<Vec<u8>, AllocError> {
    let (front, rest) = text.split_at(at.min(text.len()));
    let mut cut = TopCut::new(lines);
    let mut sent = Vec::new(alloc);
    put_part(&mut cut, &mut sent, front)?;
    put_part(&mut cut, &mut sent, rest)?;
    Ok(sent)
}

/// Whether TOP sends the same wherever the text is cut in two.
fn is_cut_alike(alloc: Global, text: &MailText, lines: u64) -> Result<bool, AllocError> {
    for at in 0..text.octets() {
        let sent = top_in_two(alloc, text.bytes(), at, lines)?;
        if sent.as_slice() != text.top(lines) {
            return Ok(false);
        }
    }
    Ok(true)
}

#[test]
fn top_of_a_text_cut_at_every_place(rt: HostRuntime) -> Result<(), Fail> {
    let alloc = rt.alloc();
    let text = kept(alloc, b"A: 1\n\rB\n\r\r\n\none\n.two\n\n\r\n\r\rx\n")?;
    for lines in [0, 1, 2, 3, 5, 6, u64::MAX] {
        assert!(rt; is_cut_alike(alloc, &text, lines)?);
    }
    let header = kept(alloc, b"no header end\n")?;
    assert!(rt; is_cut_alike(alloc, &header, 0)?);
    Ok(())
}
