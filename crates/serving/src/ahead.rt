//! Octets that came on a link and weren't read yet.
ghost use Rattle.std.specs.Prelude.{◌≡◌, ◌==◌, ◌++◌, length, take, min, [], OnOk, OnErr};

use crate::octets::rest_of;
use std::alloc::{AllocError, Global};
use std::marker::Model;

/// Octets that came on a link and were looked at, but not read yet. Contracts see these octets.
#[derive(Drop)]
pub(crate) struct Ahead {
    octets: Vec<u8>,
    /// How many of `octets` were read since.
    at: usize,
}

impl Model for Ahead {
    ghost use Rattle.std.specs.Prelude.{ℕ, List, drop, length, ◌≤◌};

    ghost Value = { List ℕ };

    ghost view = { λ a. drop a.at a.octets.items };

    ghost invariant = { λ a. a.at ≤ length a.octets.items };
}

impl Ahead {
    /// No octets.
    pub(crate) fn new(alloc: Global) -> Ahead
        ensures { result ≡ [] }
    {
        Ahead {
            octets: Vec::new(alloc),
            at: 0,
        }
    }

    /// Drops all octets.
    pub(crate) fn clear(&mut self)
        ensures { self.new ≡ [] }
    {
        self.octets.clear();
        self.at = 0;
    }

    /// Whether no octet is left.
    pub(crate) fn is_empty(&self) -> bool
        ensures { result ≡ (length self.now == 0) }
    {
        rest_of(self.octets.as_slice(), self.at).is_empty()
    }

    /// Reserves memory for so many more octets.
    pub(crate) fn make_room(&mut self, count: usize) -> Result<(), AllocError>
        ensures { self.new ≡ self.old }
    {
        self.octets.reserve(count)
    }

    /// Appends octets that came.
    pub(crate) fn keep(&mut self, octets: &[u8]) -> Result<(), AllocError>
        ensures ok { OnOk result (self.new ≡ self.old ++ octets.now) }
        ensures err { OnErr result (self.new ≡ self.old) }
    {
        self.octets.extend_from_slice(octets)
    }

    /// Copies the next octets into the front of a buffer, and keeps them. Returns how many.
    pub(crate) fn show(&self, buffer: &mut [u8]) -> usize
        ensures count { result ≡ min (length self.now) (length buffer.old) }
        ensures shown { take result buffer.new ≡ take result self.now }
        ensures room { length buffer.new ≡ length buffer.old }
    {
        let rest = rest_of(self.octets.as_slice(), self.at);
        let count = rest.len().min(buffer.len());
        buffer[..count].copy_from_slice(&rest[..count]);
        count
    }

    /// Moves the next octets into the front of a buffer. Returns how many.
    pub(crate) fn read(&mut self, buffer: &mut [u8]) -> usize
        ensures count { result ≡ min (length self.old) (length buffer.old) }
        ensures read { take result buffer.new ++ self.new ≡ self.old }
    {
        let count = self.show(buffer);
        self.at += count;
        count
    }
}
