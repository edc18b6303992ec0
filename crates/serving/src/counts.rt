//! How many links were accepted.
ghost use Rattle.std.specs.Prelude.{◌≡◌, ◌+◌, ◌==◌, ◌&&◌, nat_lt, if◌then◌else◌};
ghost use Rattle.serving.specs.Counting.{count_at, one_more_at, no_links, most_links, is_next};

use crate::wire::{Link, Port};

/// How many links were accepted at each port.
#[derive(Clone, Copy, PartialEq, Eq, Debug)]
pub struct Counts {
    pub clients: u64,
    pub requests: u64,
}

/// Counts a link of this number, if that is the next one. Whether it is.
fn count_one(count: &mut u64, number: u64) -> bool
    ensures next { result ≡ (number == count.old && nat_lt number most_links) }
    ensures counted { count.new ≡ (if result then count.old + 1 else count.old) }
{
    if number != *count {
        return false;
    }
    if number == u64::MAX {
        return false;
    }
    *count += 1;
    true
}

impl Counts {
    /// None was accepted.
    pub(crate) fn new() -> Counts
        ensures { result ≡ no_links }
    {
        Counts {
            clients: 0,
            requests: 0,
        }
    }

    /// How many at a port: the number of its next link.
    pub(crate) fn at(&self, port: Port) -> u64
        ensures { result ≡ count_at port self.now }
    {
        match port {
            Port::Pop => self.clients,
            Port::Admin => self.requests,
        }
    }

    /// Counts a link, if it has the port's next number. Whether it has. A port has at most
    /// 2^64 - 1 links.
    pub(crate) fn count(&mut self, port: Port, link: Link) -> bool
        ensures next { result ≡ is_next port link.number self.old }
        ensures counted { self.new ≡ (if result then one_more_at port self.old else self.old) }
    {
        match port {
            Port::Pop => count_one(&mut self.clients, link.number),
            Port::Admin => count_one(&mut self.requests, link.number),
        }
    }
}
