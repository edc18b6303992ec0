//! A wire over sockets.
ghost use Rattle.std.specs.Prelude.{◌≡◌, ◌≤◌, ◌<◌, ◌⊎◌, ◌++◌, ℕ, List, [], length, take, IfSome};
ghost use Rattle.std.specs.Prelude.{find, option_copied, None};
ghost use Rattle.serving.specs.Wires.{IsWithin, counted as shown_of};
ghost use Rattle.serving.specs.Counting.{count_at, counted_with};
ghost use Rattle.serving.specs.Due.{presses, chosen, ahead_of};
ghost use Rattle.serving.specs.Places.{is_same_port, is_place_of, peer_in, address_in, HasPlace};

use crate::ahead::Ahead;
use crate::counts::Counts;
use crate::due;
use crate::wire::{Io, Link, Port, Refusal, Wire};
use mio::net::{TcpListener, TcpStream};
use mio::{Events, Interest, Poll, Token};
use std::alloc::Global;
use std::io;
use std::io::{ErrorKind, Read, Write};
use std::net::{IpAddr, Net, SocketAddr};
use std::time::Duration;

/// How many links may be held: more than are served at once, so that one more can be accepted, to
/// be closed.
const PLACES: u64 = 160;

/// The token of the listener for clients; those below are of places.
const LISTENER: Token = Token(160);

/// The token of the listener for the administration.
const ADMIN_LISTENER: Token = Token(161);

/// A listener.
#[derive(Drop)]
struct Door {
    listener: TcpListener,
    /// A link may wait to be accepted: the system reported one, and `accept` hasn't come away
    /// without a link since.
    comes: bool,
    /// The system refused to accept a link: `accept` is tried again after the next wait.
    is_refused: bool,
}

impl Door {
    /// Listens at an address, and returns the port.
    fn open<R: Net>(rt: &R, poll: &Poll, token: Token, at: SocketAddr) -> io::Result<(Door, u16)> {
        let mut listener = TcpListener::bind(rt, at)?;
        poll.registry()
            .register(&mut listener, token, Interest::READABLE)?;
        let port = listener.local_addr()?.port();
        let door = Door {
            listener,
            comes: true,
            is_refused: false,
        };
        Ok((door, port))
    }

    /// Whether a link may wait that can be accepted.
    fn is_pressing(&self) -> bool {
        self.comes && !self.is_refused
    }

    /// The next link that came, and its other end.
    fn accept(&mut self) -> Option<(TcpStream, SocketAddr)> {
        if !self.is_pressing() {
            return None;
        }
        match self.listener.accept() {
            Ok((stream, peer)) => Some((stream, peer)),
            Err(error) => {
                match error.kind() {
                    ErrorKind::WouldBlock => self.comes = false,
                    ErrorKind::Interrupted | ErrorKind::ConnectionAborted => {}
                    _ => self.is_refused = true,
                }
                None
            }
        }
    }
}

/// A place for a link.
#[derive(Drop)]
pub(crate) struct Place {
    /// The port and the number of the link that has it, or had it last.
    port: Port,
    number: u64,
    /// That of the link; `None` if the place is free, or its link is broken or closed.
    stream: Option<TcpStream>,
    /// Its other end, as the system told it when the link was accepted.
    peer: Option<SocketAddr>,
    /// What came and was looked at, but not read yet.
    ahead: Ahead,
    /// Octets may have come: the system reported some, and no read has emptied the socket since.
    unread: bool,
    /// The system reported that the other end sends no more, or that the link is broken.
    is_ending: bool,
    /// Its socket may be read before the next wait.
    is_due: bool,
    /// The number of its last turn at reading, or of its link's beginning: of those that wait, the
    /// one that waits longest has the least.
    pub(crate) turn: u64,
    /// Its number among the places, so that no two turns are the same.
    at: u64,
    /// The last write gave `Later`, and the system hasn't reported since that more may be written.
    is_blocked: bool,
}

/// Links over sockets. The system tells once that a socket is ready (edge-triggered); its place
/// keeps that until a read or write gives `Later`.
#[derive(Drop)]
pub struct SocketWire {
    alloc: Global,
    poll: Poll,
    events: Events,
    door: Door,
    /// The listener for the administration, if there is one.
    admin_door: Option<Door>,
    places: Vec<Place>,
    /// How many links were accepted at each port: the number of its next one.
    counts: Counts,
    /// Every turn at reading so far has a smaller number.
    turns: u64,
    /// The last wait reported that the other end of a client's link has ended. Its place is free
    /// once that is read, so whoever came meanwhile is accepted after the next wait.
    has_ended: bool,
}

/// A read or write of so many octets: 0 is the end of the link.
fn counted(count: usize, room: usize) -> Io
    requires { count ≤ room }
    ensures within { IsWithin room result }
    ensures shown { (octets : List ℕ) → shown_of result octets ≡ take count octets }
{
    if count == 0 {
        Io::End
    } else {
        Io::Count(count)
    }
}

/// A failed read or write. One that was interrupted is made again later.
fn failed(kind: ErrorKind) -> Io
    ensures { (result ≡ Io.Later) ⊎ (result ≡ Io.Broken) }
{
    match kind {
        ErrorKind::WouldBlock | ErrorKind::Interrupted => Io::Later,
        _ => Io::Broken,
    }
}

/// Places without a link.
fn free_places(alloc: Global) -> io::Result<Vec<Place>> {
    let mut places = Vec::new(alloc);
    for at in 0..PLACES {
        places.push(Place {
            port: Port::Pop,
            number: 0,
            stream: None,
            peer: None,
            ahead: Ahead::new(alloc),
            unread: false,
            is_ending: false,
            is_due: false,
            turn: 0,
            at,
            is_blocked: false,
        })?;
    }
    Ok(places)
}

/// The place of a link that is open, if it is among these.
fn place_among(places: &[Place], port: Port, link: Link) -> Option<&Place>
    ensures { option_copied result ≡ find (is_place_of port link) places.now }
{
    places.iter().find(|place| place.has(port, link))
}

/// The other end of a link that is open, if its place is among these.
fn peer_among(places: &[Place], port: Port, link: Link) -> Option<SocketAddr>
    ensures { result ≡ peer_in places.now port link }
{
    match place_among(places, port, link) {
        None => None,
        Some(place) => place.peer,
    }
}

/// Whether a port is this one.
fn is_same_port(one: Port, other: Port) -> bool
    ensures { result ≡ is_same_port one other }
{
    match one {
        Port::Pop => matches!(other, Port::Pop),
        Port::Admin => matches!(other, Port::Admin),
    }
}

impl SocketWire {
    /// Listens for clients at an address, and returns the port: that of the address, or if this is
    /// 0 one that the system chose. No clause speaks of it: of sockets nothing is known.
    pub fn bind<R: Net>(rt: &R, alloc: Global, at: SocketAddr) -> io::Result<(SocketWire, u16)> {
        let poll = Poll::new(rt)?;
        let events = Events::with_capacity(alloc, 256)?;
        let (door, port) = Door::open(rt, &poll, LISTENER, at)?;
        let wire = SocketWire {
            alloc,
            poll,
            events,
            door,
            admin_door: None,
            places: free_places(alloc)?,
            counts: Counts::new(),
            turns: 0,
            has_ended: false,
        };
        Ok((wire, port))
    }

    /// Listens for the administration at an address, and returns the port, as
    /// [`SocketWire::bind`] does, and no clause speaks of it either.
    pub fn bind_admin<R: Net>(&mut self, rt: &R, at: SocketAddr) -> io::Result<u16> {
        let (door, port) = Door::open(rt, &self.poll, ADMIN_LISTENER, at)?;
        self.admin_door = Some(door);
        Ok(port)
    }

    /// Whether something may be accepted or read in this turn.
    fn is_pressing(&self) -> bool {
        if self.door.is_pressing() {
            return true;
        }
        if let Some(door) = &self.admin_door
            && door.is_pressing()
        {
            return true;
        }
        self.places.iter().any(Place::is_pressing)
    }

    /// Notes which sockets the system reported as ready.
    fn note_events(&mut self) {
        for event in &self.events {
            let token = event.token();
            if token == LISTENER {
                self.door.comes = true;
            } else if token == ADMIN_LISTENER {
                if let Some(door) = &mut self.admin_door {
                    door.comes = true;
                }
            } else if let Some(place) = self.places.get_mut(token.0) {
                let is_ending = event.is_read_closed() || event.is_error();
                // Each link counts once, so that who comes doesn't wait for long.
                self.has_ended |= is_ending
                    && !place.is_ending
                    && is_same_port(place.port, Port::Pop);
                place.unread = true;
                place.is_ending |= is_ending;
                if event.is_writable() {
                    place.is_blocked = false;
                }
            }
        }
    }

    /// Gives a stream a free place, which keeps its other end, and its port's next number; `None`
    /// if no place is free, or the system won't watch it. Its turn comes after all others'.
    fn seat(&mut self, port: Port, mut stream: TcpStream, peer: SocketAddr) -> Option<Link>
        ensures next { IfSome result (λ link. link.number ≡ count_at port self.old.counts) }
        ensures place { IfSome result (λ link. HasPlace self.new.places.items port link peer) }
        ensures counts { self.new.counts ≡ counted_with port result self.old.counts }
        ensures behind { (turn : ℕ) → turn < self.old.turns
            → ahead_of turn self.new.places.items ≤ ahead_of turn self.old.places.items }
    {
        let at = self.places.iter().position(|place| place.stream.is_none())?;
        let both = Interest::READABLE | Interest::WRITABLE;
        let _ = stream.set_nodelay(true);
        self.poll
            .registry()
            .register(&mut stream, Token(at), both)
            .ok()?;
        let place = self.places.get_mut(at)?;
        let link = Link {
            number: self.counts.at(port),
        };
        if !self.counts.count(port, link) {
            return None;
        }
        *place = Place {
            port,
            number: link.number,
            stream: Some(stream),
            peer: Some(peer),
            ahead: Ahead::new(self.alloc),
            // It is read in the turn that accepts it: it may have ended already.
            unread: true,
            is_ending: false,
            is_due: true,
            turn: self.turns.saturating_add(place.at),
            at: place.at,
            is_blocked: false,
        };
        Some(link)
    }

    /// The place of a link that is open.
    fn place(&mut self, port: Port, link: Link) -> Option<&mut Place> {
        self.places.iter_mut().find(|place| place.has(port, link))
    }
}

impl Place {
    /// Whether this is the place of a link that is open.
    fn has(&self, port: Port, link: Link) -> bool
        ensures { result ≡ is_place_of port link self.now }
    {
        if self.number != link.number {
            return false;
        }
        is_same_port(self.port, port) && self.stream.is_some()
    }

    /// Whether a read may give octets at once. Octets that were looked at and left unread don't
    /// count: a login among them waits for another link.
    pub(crate) fn is_pressing(&self) -> bool
        ensures { result ≡ presses self.now }
    {
        self.unread && !self.is_blocked && self.ahead.is_empty()
    }

    /// Lets its socket be read before the next wait, if it presses, and its other end has ended or
    /// fewer than `most` wait longer; then its turn comes after so many.
    pub(crate) fn choose(&mut self, turns: u64, most: usize, waiting: &[u64])
        ensures { self.new ≡ chosen turns most waiting.now self.old }
    {
        self.is_due = self.is_pressing()
            && (self.is_ending || due::before(self.turn, waiting) < most);
        if self.is_due {
            self.turn = turns.saturating_add(self.at);
        }
    }

    /// Reads the octets that were looked at before, or else the socket.
    fn read(&mut self, buffer: &mut [u8]) -> Io
        ensures within { IsWithin (length buffer.old) result }
        ensures ahead { (self.old.ahead ≡ []) ⊎ (shown_of result buffer.new ++ self.new.ahead
            ≡ self.old.ahead) }
    {
        if self.ahead.is_empty() {
            return self.read_stream(buffer);
        }
        let room = buffer.len();
        counted(self.ahead.read(buffer), room)
    }

    /// Shows what the next read gives. `Later` if there is no memory to look; if there is
    /// none to keep what came, the link is broken.
    fn look(&mut self, buffer: &mut [u8]) -> Io
        ensures within { IsWithin (length buffer.old) result }
        ensures shown { shown_of result buffer.new ≡ shown_of result self.new.ahead }
        ensures kept { (self.old.ahead ≡ []) ⊎ (self.new.ahead ≡ self.old.ahead) }
    {
        let room = buffer.len();
        if !self.ahead.is_empty() {
            return counted(self.ahead.show(buffer), room);
        }
        // Octets that were read are dropped, so that one piece at most is kept.
        self.ahead.clear();
        if self.ahead.make_room(room).is_err() {
            return Io::Later;
        }
        let came = self.read_stream(buffer);
        self.keep(came, buffer)
    }

    /// Keeps a piece that was read from the socket for the next read. Nothing was kept before.
    fn keep(&mut self, came: Io, buffer: &[u8]) -> Io
        requires { IsWithin (length buffer.now) came × (self.old.ahead ≡ []) }
        ensures within { IsWithin (length buffer.now) result }
        ensures shown { shown_of result buffer.now ≡ shown_of result self.new.ahead }
    {
        let Io::Count(count) = came else {
            // The system reports a broken socket once, and the next read has to report it too.
            if matches!(came, Io::Broken) {
                self.stream = None;
            }
            return came;
        };
        if self.ahead.keep(&buffer[..count]).is_err() {
            self.stream = None;
            return Io::Broken;
        }
        came
    }

    /// Reads the socket, if octets may have come and it is due.
    fn read_stream(&mut self, buffer: &mut [u8]) -> Io
        ensures within { IsWithin (length buffer.old) result }
        ensures ahead { self.new.ahead ≡ self.old.ahead }
        ensures room { length buffer.new ≡ length buffer.old }
    {
        let Some(stream) = &mut self.stream else {
            return Io::Broken;
        };
        if !self.unread || !self.is_due {
            return Io::Later;
        }
        match stream.read(buffer) {
            Ok(count) => {
                // Fewer octets than there was room for: the socket has no more of them.
                if count < buffer.len() && !self.is_ending {
                    self.unread = false;
                }
                counted(count, buffer.len())
            }
            Err(error) => {
                if error.kind() != ErrorKind::Interrupted {
                    self.unread = false;
                }
                failed(error.kind())
            }
        }
    }

    /// Writes on the socket.
    fn write(&mut self, octets: &[u8]) -> Io
        ensures { IsWithin (length octets.now) result }
    {
        let Some(stream) = &mut self.stream else {
            return Io::Broken;
        };
        match stream.write(octets) {
            Ok(count) => counted(count, octets.len()),
            Err(error) => {
                if error.kind() == ErrorKind::WouldBlock {
                    self.is_blocked = true;
                }
                failed(error.kind())
            }
        }
    }
}

impl Wire for SocketWire {
    ghost tells = { λ _ _. ⊥ };

    ghost asked = { λ _ _. ⊥ };

    ghost address_of = { λ wire. address_in wire.places.items };

    ghost peer_of = { λ wire. peer_in wire.places.items };

    ghost closed_for = { λ _ _. None };

    ghost tells_once = { λ wire t u a b. absurd a };

    fn wait(&mut self, millis: u32) {
        let millis = if self.is_pressing() { 0 } else { millis };
        let time = Duration::from_millis(u64::from(millis));
        self.has_ended = false;
        if self.poll.poll(&mut self.events, Some(time)).is_ok() {
            self.note_events();
        }
        self.turns = self.turns.saturating_add(PLACES);
        due::choose(self.places.as_mut_slice(), self.turns);
        self.door.is_refused = false;
        if let Some(door) = &mut self.admin_door {
            door.is_refused = false;
        }
    }

    fn accept(&mut self, port: Port) -> Option<Link> {
        if self.has_ended && is_same_port(port, Port::Pop) {
            return None;
        }
        let (stream, peer) = match port {
            Port::Pop => self.door.accept()?,
            Port::Admin => self.admin_door.as_mut()?.accept()?,
        };
        self.seat(port, stream, peer)
    }

    fn look(&mut self, port: Port, link: Link, buffer: &mut [u8]) -> Io {
        match self.place(port, link) {
            Some(place) => place.look(buffer),
            None => Io::Later,
        }
    }

    fn read(&mut self, port: Port, link: Link, buffer: &mut [u8]) -> Io {
        match self.place(port, link) {
            Some(place) => place.read(buffer),
            None => Io::Broken,
        }
    }

    fn write(&mut self, port: Port, link: Link, octets: &[u8]) -> Io {
        match self.place(port, link) {
            Some(place) => place.write(octets),
            None => Io::Broken,
        }
    }

    fn address(&self, port: Port, link: Link) -> Option<IpAddr> {
        match peer_among(self.places.as_slice(), port, link) {
            None => None,
            Some(peer) => Some(peer.ip()),
        }
    }

    /// As the system told it when the link was accepted; `None` if the link is closed.
    fn peer(&self, port: Port, link: Link) -> Option<SocketAddr> {
        peer_among(self.places.as_slice(), port, link)
    }

    fn refusal(&self, _link: Link) -> Option<Refusal> {
        None
    }

    fn close(&mut self, port: Port, link: Link) {
        if let Some(place) = self.place(port, link) {
            place.stream = None;
            place.ahead.clear();
            place.unread = false;
            place.is_ending = false;
            place.is_blocked = false;
        }
    }
}
