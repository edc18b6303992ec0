//! The lines of a reply sent from pieces of a text, a dot put before each that begins with one
//! (RFC 1939, section 3).

ghost use Rattle.std.specs.Prelude.{◌≡◌, ◌==◌, ◌&&◌, ◌<◌, ◌≤◌, ◌+◌, ◌*◌, ◌++◌, ℕ, List, length};
ghost use Rattle.std.specs.Prelude.{take, drop, slice_index, true};
ghost use Rattle.mailtext.specs.Text.{kept_form, lines_of, stuffed_lines};
ghost use Rattle.mailtext.specs.Streams.{stuffed_from, front_at, owed_dots};

use crate::lines::LF;
use memchr::memmem;
use std::marker::Model;

/// Sends the lines of a message from pieces of its kept form, in order, into buffers of any size.
/// Contracts see whether the next octet is at the front of a line. It holds no octets, and takes no
/// memory.
#[derive(Drop)]
pub struct Stuffer {
    at_front: bool,
}

impl Model for Stuffer {
    ghost use Rattle.std.specs.Prelude.{Bool};

    ghost Value = { Bool };

    ghost view = { λ stuffer. stuffer.at_front };
}

/// Whether a dot is put before these octets. `at_front` says whether the first is at the front of a
/// line.
fn wants_dot(octets: &[u8], at_front: bool) -> bool
    ensures { result ≡ (at_front && slice_index octets.now 0 == 46) }
{
    match octets.first() {
        Some(first) => at_front && *first == b'.',
        None => false,
    }
}

/// Whether what follows these octets is at the front of a line. `at_front` says it of the first.
fn is_front_behind(octets: &[u8], at_front: bool) -> bool
    ensures { result ≡ front_at at_front octets.now (length octets.now) }
{
    match octets.last() {
        Some(last) => *last == LF,
        None => at_front,
    }
}

/// How many octets there are before the first dot at the front of a line, or all; and whether what
/// follows them is at the front of a line. `at_front` says it of the first octet.
fn run_of(octets: &[u8], at_front: bool) -> (usize, bool)
    ensures within { result.0 ≤ length octets.now }
    ensures sent { (more : List ℕ) → stuffed_from at_front (octets.now ++ more)
        ≡ take result.0 octets.now ++ stuffed_from result.1 (drop result.0 octets.now ++ more) }
    ensures none { result.0 ≡ 0 → result.1 ≡ at_front }
    ensures front { result.0 < length octets.now → result.1 ≡ true }
    ensures dot { result.0 < length octets.now → slice_index octets.now result.0 ≡ 46 }
{
    if wants_dot(octets, at_front) {
        return (0, at_front);
    }
    match memmem::find(octets, b"\n.") {
        Some(newline) => (newline + 1, true),
        None => (octets.len(), is_front_behind(octets, at_front)),
    }
}

impl Stuffer {
    /// At the beginning of a message, or of a part of one that begins with a line.
    pub fn new() -> Stuffer
        ensures front { result ≡ true }
        ensures lines { (text : List ℕ) → kept_form text ≡ text
            → stuffed_from result text ≡ stuffed_lines (lines_of text) }
    {
        Stuffer { at_front: true }
    }

    /// Puts octets into the front of `out` until the whole piece is taken or `out` is full. Returns
    /// how many octets of the piece it took, and how many it put. The next piece begins after what
    /// was taken.
    ///
    /// At the end of `out` an added dot may be put, and the dot itself be taken by the next call.
    pub fn feed(&mut self, piece: &[u8], out: &mut [u8]) -> (usize, usize)
        ensures taken { result.0 ≤ length piece.now }
        ensures put { result.1 ≤ length out.new }
        // However the text goes on, what is put goes before what is then still to be sent.
        ensures sent { (more : List ℕ) → stuffed_from self.old (piece.now ++ more)
            ≡ take result.1 out.new ++ stuffed_from self.new (drop result.0 piece.now ++ more) }
        ensures full { result.0 < length piece.now → result.1 ≡ length out.new }
        ensures advances { 0 < length piece.now → 2 ≤ length out.new → 0 < result.0 }
        ensures whole { 2 * length piece.now ≤ length out.new → result.0 ≡ length piece.now }
        ensures grows { result.0 ≤ result.1 }
        ensures behind { drop result.1 out.new ≡ drop result.1 out.old }
    {
        let mut taken = 0;
        let mut put = 0;
        while taken < piece.len() && put < out.len() {
            let (more_taken, more_put) = self.put_some(&piece[taken..], &mut out[put..]);
            taken += more_taken;
            put += more_put;
        }
        (taken, put)
    }

    /// Puts octets up to a dot at the front of a line, as many as there is room for; if there
    /// are none, the added dot.
    fn put_some(&mut self, piece: &[u8], out: &mut [u8]) -> (usize, usize)
        requires piece { 0 < length piece.now }
        requires out { 0 < length out.old }
        ensures taken { result.0 ≤ length piece.now }
        ensures put { result.1 ≤ length out.new }
        ensures some { 0 < result.1 }
        ensures grows { result.0 ≤ result.1 }
        ensures dots { result.1 + owed_dots self.new ≤ 2 * result.0 + owed_dots self.old }
        ensures sent { (more : List ℕ) → stuffed_from self.old (piece.now ++ more)
            ≡ take result.1 out.new ++ stuffed_from self.new (drop result.0 piece.now ++ more) }
        ensures behind { drop result.1 out.new ≡ drop result.1 out.old }
    {
        let room = piece.len().min(out.len());
        let (len, at_front) = run_of(&piece[..room], self.at_front);
        if len == 0 {
            out[0] = b'.';
            self.at_front = false;
            return (0, 1);
        }
        out[..len].copy_from_slice(&piece[..len]);
        self.at_front = at_front;
        (len, len)
    }
}
