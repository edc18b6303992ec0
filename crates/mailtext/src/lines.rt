//! The lines of a text written out, each with CRLF: how many octets they take, and the octets.

ghost use Rattle.std.specs.Prelude.{◌≡◌, ◌↔◌, ◌+◌, ◌^◌, ◌<◌, ◌≤◌, ◌++◌, ◌∷◌};
ghost use Rattle.std.specs.Prelude.{true, length, vec_len, vec_capacity};
ghost use Rattle.std.specs.Option.{SomeIff};
ghost use Rattle.mailtext.specs.Text.{lines_of, line_end, kept_form, without_return};
ghost use Rattle.mailtext.specs.Written.{written, dotted};

use memchr::memchr;

/// CR, the octet that stands before the LF of a line's end.
pub const CR: u8 = b'\r';

/// LF, the octet that ends a line.
pub const LF: u8 = b'\n';

/// What ends each line that is written.
const LINE_END: &[u8] = b"\r\n";

/// What becomes of a dot at the front of a line (RFC 1939, section 3).
#[derive(Clone, Copy)]
pub enum Dots {
    /// It stays.
    Kept,
    /// A second one is put before it, as a server does.
    Doubled,
    /// It is taken away, as a client does.
    Dropped,
}

/// A piece without one CR at its end.
#[inline]
fn without_return(piece: &[u8]) -> &[u8]
    ensures { result.now ≡ without_return piece.now }
{
    match piece.split_last() {
        Some((last, line)) if *last == CR => line,
        _ => piece,
    }
}

/// The first line of a text, without its end, and the text after it.
#[inline]
fn cut_line(text: &[u8]) -> (&[u8], &[u8])
    requires { 0 < length text.now }
    ensures lines { lines_of text.now ≡ result.0.now ∷ lines_of result.1.now }
    ensures shorter { length result.1.now < length text.now }
{
    match memchr(LF, text) {
        Some(end) => (without_return(&text[..end]), &text[end + 1..]),
        None => (text, b""),
    }
}

/// A line as it is written, in two parts: what is put at its front, and what is written of it.
#[inline]
fn dotted(line: &[u8], dots: Dots) -> (&'static [u8], &[u8])
    ensures { result.0.now ++ result.1.now ≡ dotted dots line.now }
{
    if line.first() != Some(&b'.') {
        return (b"", line);
    }
    match dots {
        Dots::Kept => (b"", line),
        Dots::Doubled => (b".", line),
        Dots::Dropped => (b"", &line[1..]),
    }
}

/// How many octets the lines of `text` take; `None` if a `usize` can't say it.
pub fn written_len(text: &[u8], dots: Dots) -> Option<usize>
    ensures { SomeIff result (length (written dots text.now) < 2 ^ 64)
        (length (written dots text.now)) }
{
    let mut len = 0usize;
    let mut rest = text;
    while !rest.is_empty() {
        let (line, behind) = cut_line(rest);
        let (front, octets) = dotted(line, dots);
        len = len.checked_add(front.len() + octets.len() + 2)?;
        rest = behind;
    }
    Some(len)
}

/// Appends a line and its end, for which there is room.
#[inline]
fn write_line(out: &mut Vec<u8>, line: &[u8], dots: Dots)
    requires { vec_len out.old + (length (dotted dots line.now) + 2) ≤ vec_capacity out.old }
    ensures items { out.new.items ≡ out.old.items ++ (dotted dots line.now ++ line_end) }
    ensures capacity { vec_capacity out.old ≤ vec_capacity out.new }
{
    let (front, octets) = dotted(line, dots);
    out.extend_from_slice(front).unwrap();
    out.extend_from_slice(octets).unwrap();
    out.extend_from_slice(LINE_END).unwrap();
}

/// Appends the lines of `text`, for which there is room.
pub fn write_lines(out: &mut Vec<u8>, text: &[u8], dots: Dots)
    requires { vec_len out.old + length (written dots text.now) ≤ vec_capacity out.old }
    ensures { out.new.items ≡ out.old.items ++ written dots text.now }
{
    let mut rest = text;
    while !rest.is_empty() {
        let (line, behind) = cut_line(rest);
        write_line(out, line, dots);
        rest = behind;
    }
}

/// Whether these are lines, each followed by CRLF.
pub fn are_ended_lines(octets: &[u8]) -> bool
    ensures { (result ≡ true) ↔ (kept_form octets.now ≡ octets.now) }
{
    let mut rest = octets;
    'rest: while let Some(end) = memchr(LF, rest) {
        let (piece, behind) = rest.split_at(end);
        if without_return(piece).len() == end {
            return false;
        }
        rest = &behind[1..];
    }
    rest.is_empty()
}
