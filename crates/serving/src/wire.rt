//! What a server needs of its links.
ghost use Rattle.std.specs.Prelude.{◌≡◌, List, ◌∷◌, [], ◌++◌, length};
ghost use Rattle.serving.specs.Wires.{ToldOfPorts, at_port, counted, has_read, has_written};
ghost use Rattle.serving.specs.Wires.{has_closed, Addresses, Peers, Refusals};
ghost use Rattle.serving.specs.Calls.{Call, Waited, Accepted, Looked, Read, Wrote, Closed};

use std::net::{IpAddr, SocketAddr};

/// A link at one of a wire's ports. No other link at this port ever has its number.
#[derive(Clone, Copy, PartialEq, Eq, Default, Debug)]
pub struct Link {
    pub number: u64,
}

/// At which of a server's ports a link came.
#[derive(Clone, Copy, PartialEq, Eq, Debug)]
pub enum Port {
    /// That for POP3.
    Pop,
    /// That for the administration over HTTP.
    Admin,
}

/// What a read or a write gives.
#[derive(Clone, Copy, PartialEq, Eq, Debug)]
pub enum Io {
    /// That many octets, at least one.
    Count(usize),
    /// Nothing yet.
    Later,
    /// The peer has ended.
    End,
    /// The link is broken.
    Broken,
}

/// Why a wire closed a client's link before anything that its client sent was handed on: for its
/// first line, which is a proxy's.
#[derive(Clone, Copy, PartialEq, Eq)]
pub enum Refusal {
    /// It is no PROXY line of version 1, or has more than 107 octets.
    NoLine,
    /// It wasn't whole at a read ten seconds or more after the link's acceptance.
    TooLate,
    /// There wasn't enough memory for it, or for what it says.
    NoMemory,
}

/// A server's links: accepts, reads, writes and closes them.
///
/// `tells w t`: `t` is a true record of w's traffic. The links of each port are numbered in it from
/// 0 on, in the order in which they were accepted. `asked w calls`: `calls` is a true record of
/// what w was asked and answered. Of a wire over sockets neither is known.
/// `address_of w port link`: from where a link came, as far as w knows by now; `peer_of` is its
/// other end. `closed_for w link`: why w itself closed a client's link.
pub trait Wire {
    ghost use Rattle.serving.specs.Wires.{IsWithin, IsAccepted, SayAlikeOfPorts};

    /// `tells w t`: `t` is a true record of w's traffic.
    ghost tells: { Self → ToldOfPorts → Type 0 };

    /// `asked w calls`: w was asked these calls and answered them so, the newest last.
    ghost asked: { Self → List Call → Type 0 };

    /// `address_of w port link`: from where a link came, as far as w knows by now.
    ghost address_of: { Self → Addresses };

    /// `peer_of w port link`: what w gives as the other end of a link.
    ghost peer_of: { Self → Peers };

    /// `closed_for w link`: why w itself closed a client's link.
    ghost closed_for: { Self → Refusals };

    /// Waits until a link may be accepted, read or written, at most so many milliseconds.
    fn wait(&mut self, millis: u32)
        ensures told { (t : ToldOfPorts) → tells self.old t → tells self.new t }
        ensures called { (a : List Call) → asked self.old a
            → asked self.new (a ++ Waited millis ∷ []) };

    /// Accepts the next link that came at a port; `None` if none waits, or if it can't be
    /// accepted now.
    fn accept(&mut self, port: Port) -> Option<Link>
        ensures told { (t : ToldOfPorts) → tells self.old t
            → IsAccepted (tells self.new) port t result }
        ensures called { (a : List Call) → asked self.old a
            → asked self.new (a ++ Accepted port result ∷ []) };

    /// Shows in the front of the buffer what comes next on a link, and reads nothing: the next read
    /// gives these octets first. `Later` even if there is no memory to look.
    fn look(&mut self, port: Port, link: Link, buffer: &mut [u8]) -> Io
        ensures within { IsWithin (length buffer.old) result }
        ensures told { (t : ToldOfPorts) → tells self.old t → tells self.new t }
        ensures called { (a : List Call) → asked self.old a
            → asked self.new (a ++ Looked port link result (counted result buffer.new) ∷ []) };

    /// Reads from a link into the front of the buffer.
    fn read(&mut self, port: Port, link: Link, buffer: &mut [u8]) -> Io
        ensures within { IsWithin (length buffer.old) result }
        ensures told { (t : ToldOfPorts) → tells self.old t
            → tells self.new (at_port port (λ of. has_read of link.number result
            (counted result buffer.new)) t) }
        ensures called { (a : List Call) → asked self.old a
            → asked self.new (a ++ Read port link (length buffer.old) result
            (counted result buffer.new) ∷ []) };

    /// Writes octets on a link: all of them, or as many of the first as it takes.
    fn write(&mut self, port: Port, link: Link, octets: &[u8]) -> Io
        ensures within { IsWithin (length octets.now) result }
        ensures told { (t : ToldOfPorts) → tells self.old t
            → tells self.new (at_port port (λ of. has_written of link.number result
            (counted result octets.now)) t) }
        ensures called { (a : List Call) → asked self.old a
            → asked self.new (a ++ Wrote port link (length octets.now) result
            (counted result octets.now) ∷ []) };

    /// The address that a link came from; `None` if it isn't known.
    fn address(&self, port: Port, link: Link) -> Option<IpAddr>
        ensures { result ≡ address_of self.now port link };

    /// The other end of a link: of one that a proxy brings, the proxy. `None` if it isn't known.
    fn peer(&self, port: Port, link: Link) -> Option<SocketAddr>
        ensures { result ≡ peer_of self.now port link };

    /// Why a client's link was closed at its last read, if that was for its first line.
    fn refusal(&self, link: Link) -> Option<Refusal>
        ensures { result ≡ closed_for self.now link };

    /// Closes a link.
    fn close(&mut self, port: Port, link: Link)
        ensures told { (t : ToldOfPorts) → tells self.old t
            → tells self.new (at_port port (λ of. has_closed of link.number) t) }
        ensures called { (a : List Call) → asked self.old a
            → asked self.new (a ++ Closed port link ∷ []) };

    /// Any two records of one wire say the same.
    ghost tells_once: { (wire : Self) (t u : ToldOfPorts) → tells wire t → tells wire u
        → SayAlikeOfPorts t u };
}
