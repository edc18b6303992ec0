//! A wire whose reads and writes go well, wait, end or break by chance, and which looks at each
//! beside a reckoning.
ghost use Rattle.std.specs.Prelude.{None, length};
ghost use Rattle.serving.specs.Wires.{IsWithin};

use crate::chance::Chance;
use crate::reckoning::Reckoning;
use crate::sent::some_request;
use crate::stream::front;
use serving::{Io, Link, Port, Refusal, Wire};
use std::net::{IpAddr, SocketAddr};

/// A wire by chance.
#[derive(Drop)]
pub struct RandomWire {
    pub reckoning: Reckoning,
    pub chance: Chance,
    /// How many clients wait.
    pub waiting: u64,
    /// How many requests wait.
    pub asking: u64,
    /// Links are faster and are lost less often, so that clients come to the end of what is long.
    pub is_fast: bool,
    /// Nothing waits, ends or breaks any more.
    pub is_calm: bool,
}

/// A read or a write, of as many octets at least as one and at most as there is room for.
fn within(io: Io, room: usize) -> Io
    ensures { IsWithin room result }
{
    match io {
        Io::Count(count) => {
            if count == 0 || count > room {
                return Io::Later;
            }
            Io::Count(count)
        }
        Io::Later => Io::Later,
        Io::End => Io::End,
        Io::Broken => Io::Broken,
    }
}

/// Copies the front of what comes into the front of a buffer. How many octets these are.
fn copy_front(comes: &[u8], most: usize, buffer: &mut [u8]) -> usize {
    let count = comes.len().min(most).min(buffer.len());
    buffer[..count].copy_from_slice(&comes[..count]);
    count
}

impl RandomWire {
    /// How many octets it may be at most.
    fn size(&mut self) -> usize {
        let size = self.chance.size();
        if self.is_calm || (self.is_fast && !self.chance.once_in(8)) {
            return usize::MAX;
        }
        size
    }

    /// What comes in place of the next read or write of a link, if it doesn't go well.
    fn stop(&mut self, place: usize) -> Option<Io> {
        let number = self.chance.below(if self.is_fast { 20_000 } else { 400 });
        if self.is_calm {
            return None;
        }
        if number < 2 {
            self.reckoning.is_lost(place);
            return Some(if number == 0 { Io::End } else { Io::Broken });
        }
        match self.reckoning.guests.get(place) {
            Some(guest) if guest.stalls() || number < 40 => Some(Io::Later),
            _ => None,
        }
    }

    /// Reads from a link at a place.
    fn bring(&mut self, port: Port, place: usize, buffer: &mut [u8]) -> Io {
        let most = self.size();
        let Some(guest) = self.reckoning.guests.get(place) else {
            return Io::Later;
        };
        let count = copy_front(guest.unread(), most, buffer);
        if count > 0 {
            self.reckoning.was_read(port, place, front(buffer, count));
        }
        Io::Count(count)
    }

    /// Reads from a link.
    fn read_some(&mut self, port: Port, link: u64, buffer: &mut [u8]) -> Io {
        let Some(place) = self.reckoning.reads(port, link) else {
            self.reckoning.note("read astray");
            return Io::Later;
        };
        match self.stop(place) {
            Some(io) => io,
            None => self.bring(port, place, buffer),
        }
    }

    /// What a link shows.
    fn show_some(&mut self, port: Port, link: u64, buffer: &mut [u8]) -> Io {
        let most = if self.chance.once_in(4) {
            self.size()
        } else {
            usize::MAX
        };
        match self.reckoning.guest(port, link) {
            Some(guest) if !guest.stalls() => Io::Count(copy_front(guest.unread(), most, buffer)),
            _ => Io::Later,
        }
    }

    /// Shows what comes next on a link, or the front of it.
    pub fn show(&mut self, port: Port, link: Link, buffer: &mut [u8]) -> Io
        ensures { IsWithin (length buffer.old) result }
    {
        let room = buffer.len();
        let io = self.show_some(port, link.number, buffer);
        within(io, room)
    }

    /// Writes on a link.
    fn write_some(&mut self, port: Port, link: u64, octets: &[u8]) -> Io {
        let Some(place) = self.reckoning.tells(port, link, octets) else {
            self.reckoning.note("written astray");
            return Io::Later;
        };
        if let Some(io) = self.stop(place) {
            return io;
        }
        let count = self.size().min(octets.len());
        self.reckoning.was_told(port, place, count);
        Io::Count(count)
    }

    /// Accepts a client.
    fn accept_client(&mut self) -> Option<Link> {
        self.waiting = self.waiting.checked_sub(1)?;
        let stalls = self.chance.once_in(16);
        let number = self.reckoning.accept(Port::Pop, b"", stalls).ok()?;
        Some(Link { number })
    }

    /// The connection of some client.
    fn some_connection(&mut self) -> u64 {
        let count = self.reckoning.guests.len();
        let place = self.chance.below(count as u64);
        match self.reckoning.guests.get(place as usize) {
            Some(guest) => guest.connection(),
            None => 0,
        }
    }

    /// Accepts a link of the administration, which sends its request.
    fn accept_request(&mut self) -> Option<Link> {
        self.asking = self.asking.checked_sub(1)?;
        let session = self.some_connection();
        let sends = some_request(self.reckoning.alloc, &mut self.chance, session).ok()?;
        let stalls = self.chance.once_in(4);
        let number = self
            .reckoning
            .accept(Port::Admin, sends.as_bytes(), stalls)
            .ok()?;
        Some(Link { number })
    }
}

impl Wire for RandomWire {
    ghost tells = { λ _ _. ⊥ };

    ghost asked = { λ _ _. ⊥ };

    ghost address_of = { λ _ _ _. None };

    ghost peer_of = { λ _ _ _. None };

    ghost closed_for = { λ _ _. None };

    ghost tells_once = { λ wire t u a b. absurd a };

    fn wait(&mut self, _millis: u32) {
        self.reckoning.tick();
    }

    fn accept(&mut self, port: Port) -> Option<Link> {
        match port {
            Port::Pop => self.accept_client(),
            Port::Admin => self.accept_request(),
        }
    }

    fn look(&mut self, _port: Port, _link: Link, _buffer: &mut [u8]) -> Io {
        Io::Later
    }

    fn read(&mut self, port: Port, link: Link, buffer: &mut [u8]) -> Io {
        let room = buffer.len();
        let io = self.read_some(port, link.number, buffer);
        within(io, room)
    }

    fn write(&mut self, port: Port, link: Link, octets: &[u8]) -> Io {
        let io = self.write_some(port, link.number, octets);
        within(io, octets.len())
    }

    fn address(&self, _port: Port, _link: Link) -> Option<IpAddr> {
        None
    }

    fn peer(&self, _port: Port, _link: Link) -> Option<SocketAddr> {
        None
    }

    fn refusal(&self, _link: Link) -> Option<Refusal> {
        None
    }

    fn close(&mut self, port: Port, link: Link) {
        self.reckoning.closes(port, link.number);
    }
}
