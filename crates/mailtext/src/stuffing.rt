//! The lines of a reply of many lines: as a server sends them, a dot put before each that begins
//! with one, and as a client reads them (RFC 1939, section 3).

ghost use Rattle.std.specs.Prelude.{◌≡◌, ◌≤◌, ◌+◌, ◌++◌, ℕ, List, length, take, map, codes, IfOk};
ghost use Rattle.std.specs.Prelude.{OnOk, OnErr, IfSome, MatchOption};
ghost use Rattle.std.specs.Str.{bytes_eq};
ghost use Rattle.mailtext.specs.Text.{lines_of, kept_form, stuffed_lines, dot_line, without_return};
ghost use Rattle.mailtext.specs.Text.{without_dot, pieces, read_lines, unstuffed};

use crate::lines::{Dots, LF, write_lines, written_len};
use std::alloc::{AllocError, Global};
use std::ops::Range;

/// Appends the lines of `lines`, each with CRLF and with a dot put before each that begins with
/// one. They are meant to be a kept form, or a part of one that ends with a line; of any other text
/// they are the lines of its kept form.
///
/// The room for them all is made first, so that if memory is refused `out` stays as it was. Only
/// tests and benchmarks call it: the program writes a text piece by piece, with a [`Stuffer`].
pub fn stuff_into(out: &mut Vec<u8>, lines: &[u8]) -> Result<(), AllocError>
    ensures ok { OnOk result (out.new.items ≡ out.old.items ++ stuffed_lines (lines_of lines.now)) }
    ensures err { OnErr result (out.new.items ≡ out.old.items) }
{
    let more = written_len(lines, Dots::Doubled).ok_or(AllocError)?;
    out.reserve(more)?;
    write_lines(out, lines, Dots::Doubled);
    Ok(())
}

/// What a client reads of `octets`, which begin after the first line of a reply of many lines: the
/// lines before the first ended line that is a dot, each with CRLF and without one dot at its
/// front, and how many octets were read with the dot's line. `None` if no such line has come. Only
/// tests and benchmarks call it.
pub fn unstuff(alloc: Global, octets: &[u8]) -> Result<Option<(Vec<u8>, usize)>, AllocError>
    ensures { IfOk result (λ read. MatchOption read (unstuffed octets.now ≡ None)
        (λ found. unstuffed octets.now ≡ Some (found.0.items, found.1))) }
{
    let Some(dot) = find_dot_line(octets) else {
        return Ok(None);
    };
    let lines = &octets[..dot.start];
    let len = written_len(lines, Dots::Dropped).ok_or(AllocError)?;
    let mut read = Vec::with_capacity(alloc, len)?;
    write_lines(&mut read, lines, Dots::Dropped);
    Ok(Some((read, dot.end)))
}

/// A client reads back the lines that a server stuffed, and has read through the dot's line,
/// whatever follows it. The function does nothing: its contract is the law.
pub fn stuffing_is_undone()
    ensures { (text rest : List ℕ) → unstuffed (stuffed_lines (lines_of text) ++ dot_line ++ rest)
        ≡ Some (kept_form text, length (stuffed_lines (lines_of text) ++ dot_line)) }
{}

/// Whether a line, without its LF, is a dot.
#[tactic(auto, using(crate::proofs::ReadingLemmas::is_dot_long))]
fn is_dot(line: &[u8]) -> bool
    ensures { result ≡ bytes_eq (without_return line.now) (codes ".") }
{
    matches!(line, b"." | b".\r")
}

/// Where the first ended line that is a dot begins and ends.
fn find_dot_line(octets: &[u8]) -> Option<Range<usize>>
    ensures found { MatchOption result (read_lines (pieces octets.now) ≡ None)
        (λ dot. read_lines (pieces octets.now) ≡ Some
        (map without_dot (lines_of (take dot.start octets.now)), dot.end)) }
    ensures within { IfSome result (λ dot. dot.start ≤ length octets.now) }
{
    let mut start = 0;
    for (i, octet) in octets.iter().enumerate() {
        if *octet == LF {
            if is_dot(&octets[start..i]) {
                return Some(start..i + 1);
            }
            start = i + 1;
        }
    }
    None
}
