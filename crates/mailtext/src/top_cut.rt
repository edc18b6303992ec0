//! What TOP sends of a message, found in pieces of its kept form (RFC 1939, section 7; RFC 822,
//! section 3.1).

ghost use Rattle.std.specs.Prelude.{◌≡◌, ◌<◌, ◌≤◌, ◌++◌, ℕ, List, [], length, take, drop, false};
ghost use Rattle.mailtext.specs.Text.{kept_form, lines_of, ended, top_part};
ghost use Rattle.mailtext.specs.Streams.{top_from, nothing_come, is_over, behind};

use crate::lines::{CR, LF};
use std::marker::Model;

/// Where the octets that came so far end.
#[derive(Clone, Copy)]
pub enum Place {
    /// At the front of a line of the header.
    Front,
    /// After a CR at the front of such a line.
    Return,
    /// After other octets of such a line.
    Inside,
    /// In the body.
    Body,
}

/// Finds in pieces of a kept form, in order, how far what TOP sends goes: the header, the empty
/// line, and the first lines of the body. It holds no octets, and takes no memory.
#[derive(Drop)]
pub struct TopCut {
    place: Place,
    left: u64,
}

impl Model for TopCut {
    ghost use Rattle.mailtext.specs.Streams.{Come};

    ghost Value = { Come };

    ghost view = { λ cut. record { place = cut.place; left = cut.left } };
}

impl TopCut {
    /// At the beginning of a message of whose body the first `n` lines are sent, or all if it
    /// has no more.
    pub fn new(n: u64) -> TopCut
        ensures front { result ≡ nothing_come n }
        ensures part { (text : List ℕ) → kept_form text ≡ text
            → top_from result text ≡ ended (top_part (lines_of text) n) }
        ensures lines { (text : List ℕ) → kept_form text ≡ text
            → lines_of (top_from result text) ≡ top_part (lines_of text) n }
        ensures kept { (text : List ℕ) → kept_form text ≡ text
            → kept_form (top_from result text) ≡ top_from result text }
    {
        TopCut {
            place: Place::Front,
            left: n,
        }
    }

    /// How many first octets of the piece belong; if these aren't all, none of what follows
    /// does.
    ///
    /// The next piece begins after this one, however many of its octets belong.
    pub fn feed(&mut self, piece: &[u8]) -> usize
        ensures within { result ≤ length piece.now }
        // However the text goes on, what belongs of the piece goes before what belongs of the rest.
        ensures part { (more : List ℕ) → top_from self.old (piece.now ++ more)
            ≡ take result piece.now ++ top_from self.new (drop result piece.now ++ more) }
        ensures over { result < length piece.now → (more : List ℕ) → top_from self.new more ≡ [] }
    {
        for (i, octet) in piece.iter().enumerate() {
            if self.is_over() {
                return i;
            }
            self.pass(*octet);
        }
        piece.len()
    }

    /// Whether nothing that follows belongs.
    fn is_over(&self) -> bool
        ensures { result ≡ is_over self.now }
    {
        matches!(self.place, Place::Body) && self.left == 0
    }

    /// Goes past an octet that belongs.
    fn pass(&mut self, octet: u8)
        requires { is_over self.old ≡ false }
        ensures { self.new ≡ behind self.old octet }
    {
        match self.place {
            Place::Front if octet == LF => self.place = Place::Body,
            Place::Front if octet == CR => self.place = Place::Return,
            Place::Front => self.place = Place::Inside,
            Place::Return if octet == LF => self.place = Place::Body,
            Place::Return => self.place = Place::Inside,
            Place::Inside if octet == LF => self.place = Place::Front,
            Place::Inside => {}
            Place::Body if octet == LF => self.left -= 1,
            Place::Body => {}
        }
    }
}
