//! A wire in memory: links whose octets are given, and which keep what is written on them.
ghost use Rattle.std.specs.Prelude.{◌≡◌, None};
ghost use Rattle.serving.specs.Wires.{ToldOfPorts, AreFresh};
ghost use Rattle.serving.specs.Scripts.{TellsOf, tells_once, address_in};

use crate::script_links::{ScriptLinks, Stop};
use crate::wire::{Io, Link, Port, Refusal, Wire};
use std::alloc::{AllocError, Global};
use std::net::{IpAddr, SocketAddr};

/// A wire in memory. Each read and each write moves so many octets at most.
#[derive(Drop)]
pub struct ScriptWire {
    alloc: Global,
    piece: usize,
    clients: ScriptLinks,
    /// The links of the administration.
    requests: ScriptLinks,
    /// From where the clients come, in the order in which they are accepted.
    addresses: Vec<IpAddr>,
    /// After its octets each link is at its end; else nothing more comes for now.
    ends: bool,
    /// How many reads and writes there were.
    calls: u64,
    /// The number of the read or write in whose place a fault comes, and the fault.
    stop: Option<(u64, Stop)>,
    /// How long the last wait was allowed to be, in milliseconds.
    waited: u32,
}

impl ScriptWire {
    /// No link was accepted. Those that wait come the last one first; each read and each write
    /// moves at most `piece` octets.
    pub fn new(alloc: Global, waiting: Vec<Vec<u8>>, piece: usize) -> ScriptWire
        ensures fresh { (t : ToldOfPorts) → TellsOf result.clients.accepted.items
            result.clients.strayed t.pop → TellsOf result.requests.accepted.items
            result.requests.strayed t.admin → AreFresh t }
    {
        ScriptWire {
            alloc,
            piece,
            clients: ScriptLinks::new(alloc, waiting),
            requests: ScriptLinks::new(alloc, Vec::new(alloc)),
            addresses: Vec::new(alloc),
            ends: false,
            calls: 0,
            stop: None,
            waited: 0,
        }
    }

    /// From now on each link is at its end once all its octets are read.
    pub fn end_links(&mut self) {
        self.ends = true;
    }

    /// Puts a fault in place of one read or write, counted from 0 on.
    pub fn stop_at(&mut self, call: u64, stop: Stop) {
        self.stop = Some((call, stop));
    }

    /// A further client's link comes.
    pub fn connect(&mut self, comes: Vec<u8>) -> Result<(), AllocError> {
        self.clients.connect(comes)
    }

    /// From where the clients come, in the order in which they are accepted. Until then, and of
    /// those after the last of these, no address is known.
    pub fn set_addresses(&mut self, addresses: Vec<IpAddr>)
        ensures addresses { self.new.addresses ≡ addresses }
        ensures clients { self.new.clients ≡ self.old.clients }
        ensures requests { self.new.requests ≡ self.old.requests }
    {
        self.addresses = addresses;
    }

    /// A further link of the administration comes. Of those that wait the last one is accepted
    /// first.
    pub fn request(&mut self, comes: Vec<u8>) -> Result<(), AllocError> {
        self.requests.connect(comes)
    }

    /// Further octets come on a client's link.
    pub fn send(&mut self, place: usize, octets: &[u8]) -> Result<(), AllocError> {
        self.clients.send(place, octets)
    }

    /// Further octets come on a link of the administration.
    pub fn send_request(&mut self, place: usize, octets: &[u8]) -> Result<(), AllocError> {
        self.requests.send(place, octets)
    }

    /// A client takes nothing any more.
    pub fn stall(&mut self, place: usize) {
        self.clients.stall(place);
    }

    /// A link of the administration takes nothing any more.
    pub fn stall_response(&mut self, place: usize) {
        self.requests.stall(place);
    }

    /// How many clients' links were accepted.
    pub fn count(&self) -> usize {
        self.clients.accepted.len()
    }

    /// How many reads and writes there were.
    pub fn calls(&self) -> u64 {
        self.calls
    }

    /// How long the last wait was allowed to be, in milliseconds.
    pub fn waited(&self) -> u32 {
        self.waited
    }

    /// What was written on a client's link.
    pub fn written(&self, place: usize) -> &[u8] {
        self.clients.written(place)
    }

    /// What was written on a link of the administration.
    pub fn response(&self, place: usize) -> &[u8] {
        self.requests.written(place)
    }

    /// Whether a client's link was closed.
    pub fn is_closed(&self, place: usize) -> bool {
        self.clients.is_closed(place)
    }

    /// Whether a link of the administration was closed.
    pub fn is_request_closed(&self, place: usize) -> bool {
        self.requests.is_closed(place)
    }

    /// Whether a read or a write came on a link that was over, or was never accepted.
    pub fn strayed(&self) -> bool {
        self.clients.strayed || self.requests.strayed
    }

    /// The fault that comes in place of this read or write, if one does.
    fn next_stop(&mut self) -> Option<Stop>
        ensures clients { self.new.clients ≡ self.old.clients }
        ensures requests { self.new.requests ≡ self.old.requests }
    {
        let call = self.calls;
        self.calls = call.saturating_add(1);
        match self.stop {
            Some((at, stop)) if at == call => Some(stop),
            _ => None,
        }
    }
}

impl Wire for ScriptWire {
    ghost tells = { λ wire t. TellsOf wire.clients.accepted.items wire.clients.strayed t.pop
        × TellsOf wire.requests.accepted.items wire.requests.strayed t.admin };

    ghost asked = { λ _ _. ⊥ };

    ghost address_of = { λ wire. address_in wire.addresses.items };

    ghost peer_of = { λ _ _ _. None };

    ghost closed_for = { λ _ _. None };

    ghost tells_once = { λ wire t u a b. (
      tells_once wire.clients.accepted.items
          wire.clients.strayed t.pop u.pop a.0 b.0,
      tells_once wire.requests.accepted.items
          wire.requests.strayed t.admin u.admin a.1 b.1,
    ) };

    fn wait(&mut self, millis: u32) {
        self.waited = millis;
    }

    fn accept(&mut self, port: Port) -> Option<Link> {
        match port {
            Port::Pop => self.clients.accept(self.alloc),
            Port::Admin => self.requests.accept(self.alloc),
        }
    }

    fn look(&mut self, port: Port, link: Link, buffer: &mut [u8]) -> Io {
        match port {
            Port::Pop => self.clients.look(link, self.piece, buffer),
            Port::Admin => self.requests.look(link, self.piece, buffer),
        }
    }

    fn read(&mut self, port: Port, link: Link, buffer: &mut [u8]) -> Io {
        let stop = self.next_stop();
        match port {
            Port::Pop => self.clients.read(link, stop, self.piece, self.ends, buffer),
            Port::Admin => self
                .requests
                .read(link, stop, self.piece, self.ends, buffer),
        }
    }

    fn write(&mut self, port: Port, link: Link, octets: &[u8]) -> Io {
        let stop = self.next_stop();
        match port {
            Port::Pop => self.clients.write(link, stop, self.piece, octets),
            Port::Admin => self.requests.write(link, stop, self.piece, octets),
        }
    }

    fn address(&self, port: Port, link: Link) -> Option<IpAddr> {
        match port {
            Port::Pop => self
                .addresses
                .get(usize::try_from(link.number).ok()?)
                .copied(),
            Port::Admin => None,
        }
    }

    fn peer(&self, _port: Port, _link: Link) -> Option<SocketAddr> {
        None
    }

    fn refusal(&self, _link: Link) -> Option<Refusal> {
        None
    }

    fn close(&mut self, port: Port, link: Link) {
        match port {
            Port::Pop => self.clients.close(link),
            Port::Admin => self.requests.close(link),
        }
    }
}
