//! Notes of what a wire was asked and answered, which only proofs read.
ghost use Rattle.std.specs.Prelude.{◌≡◌, [], ◌∷◌, ◌++◌};
ghost use Rattle.serving.specs.Noted.{call_of};

use crate::wire::{Io, Link, Port};
use notes::Notes;
use std::marker::Model;

/// What a wire was asked, and what it answered. The octets stand beside it.
#[derive(Clone, Copy, PartialEq, Eq, Debug)]
pub(crate) enum WireCall {
    Wait(u32),
    Accept(Port, Option<Link>),
    Look(Port, Link, Io),
    /// How many octets there was room for stands in it.
    Read(Port, Link, usize, Io),
    Write(Port, Link, Io),
    Close(Port, Link),
}

/// The calls of a wire, the newest last. They are in the proofs alone: a value takes no memory, and
/// to note a call does nothing when the program runs.
#[derive(Drop)]
pub struct WireNotes {
    list: Notes<(WireCall, Notes<u8>)>,
}

impl Model for WireNotes {
    ghost use Rattle.serving.specs.Noted.{NotedCalls, calls_of};

    ghost Value = { NotedCalls };

    ghost view = { λ n. record { calls = calls_of n.list.items } };
}

impl WireNotes {
    /// No call was noted.
    pub(crate) fn new() -> WireNotes
        ensures { result.calls ≡ [] }
    {
        WireNotes { list: Notes::new() }
    }

    /// Notes a call, and the buffer that was read or written.
    #[inline(always)]
    pub(crate) fn note(&mut self, asked: &WireCall, octets: &[u8])
        ensures { self.new.calls ≡ self.old.calls ++ call_of asked.now octets.now ∷ [] }
    {
        self.list.note(&(*asked, Notes::of(octets)));
    }
}
