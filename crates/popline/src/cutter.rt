//! Cuts the octets of a connection into command lines, in whatever pieces they come.

ghost use Rattle.std.specs.Prelude.{◌≡◌, ℕ, List, ◌++◌, ◌≤◌, length, drop, false};
ghost use Rattle.popline.specs.Cutting.{without_return as without_return_of};

use std::marker::Model;

/// What the octets through an LF amount to (RFC 1939, 3; RFC 2449, 4).
#[derive(Clone, Copy)]
pub enum Cut<'a> {
    /// A command line of at most 254 octets, without its LF and one CR before the LF.
    Line(&'a [u8]),
    /// More than 255 octets came, the LF counted. The cutter dropped them.
    TooLong,
}

/// Cuts a stream into command lines. It holds at most 255 octets, and takes no memory.
#[derive(Drop)]
pub struct Cutter {
    buffer: [u8; 255],
    len: usize,
    whole: bool,
}

impl Model for Cutter {
    ghost use Rattle.std.specs.Prelude.{take, ◌≤◌};
    ghost use Rattle.popline.specs.Cutting.{Held};

    ghost Value = { Held };

    ghost view = { λ c. record { octets = take c.len c.buffer; whole = c.whole } };

    ghost invariant = { λ c. c.len ≤ 255 };
}

impl Cutter {
    ghost use Rattle.popline.specs.Cutting.{coming, whole_line, fed, through_newline, nothing_held};
    ghost use Rattle.popline.specs.Seen.{cuts_seen};

    /// A cutter at the beginning of a stream.
    pub fn new() -> Self
        ensures { result ≡ nothing_held }
    {
        Cutter {
            buffer: [0; 255],
            len: 0,
            whole: false,
        }
    }

    /// A cutter that holds the same octets, for a look ahead.
    pub fn copied(&self) -> Self
        ensures { result ≡ self.now }
    {
        Cutter {
            buffer: self.buffer,
            len: self.len,
            whole: self.whole,
        }
    }

    /// Drops the complete line that it holds, if any. Then takes the piece through its first LF, or
    /// all of it, and returns how many octets it took.
    pub fn feed(&mut self, piece: &[u8]) -> usize
        ensures taken { result ≡ through_newline piece.now }
        ensures within { result ≤ length piece.now }
        ensures all { self.new.whole ≡ false → result ≡ length piece.now }
        ensures held { self.new ≡ fed self.old piece.now }
        // Whatever comes after the piece: the next lines are the one that is whole now, if any,
        // and those of the octets that weren't taken.
        ensures stream { (more : List ℕ) → coming self.old (piece.now ++ more) ≡ whole_line self.new
            ++ coming self.new (drop result piece.now ++ more) }
    {
        if self.whole {
            self.len = 0;
            self.whole = false;
        }
        for (i, byte) in piece.iter().enumerate() {
            if *byte == b'\n' {
                self.whole = true;
                return i + 1;
            }
            if self.len < 255 {
                self.buffer[self.len] = *byte;
                self.len += 1;
            }
        }
        piece.len()
    }

    /// How many octets of the current line are held, at most 255.
    pub fn held(&self) -> usize
        ensures value { result ≡ length self.now.octets }
        ensures most { result ≤ 255 }
    {
        self.buffer[..self.len].len()
    }

    /// The complete line that is held, if any. The next `feed` drops it.
    pub fn line(&self) -> Option<Cut<'_>>
        ensures { cuts_seen result ≡ whole_line self.now }
    {
        if !self.whole {
            return None;
        }
        if self.len == 255 {
            return Some(Cut::TooLong);
        }
        let line = &self.buffer[..self.len];
        Some(Cut::Line(without_return(line)))
    }
}

/// A line without one CR at its end.
fn without_return(line: &[u8]) -> &[u8]
    ensures { result.now ≡ without_return_of line.now }
{
    match line {
        [front @ .., b'\r'] => front,
        _ => line,
    }
}
