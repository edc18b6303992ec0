//! A wire that notes what the one inside does.
ghost use Rattle.std.specs.Prelude.{◌≡◌, List, [], ◌∷◌, ◌++◌, IfSome, length};
ghost use Rattle.serving.specs.Wires.{ToldOfPorts, IsWithin, IsAccepted, at_port, counted};
ghost use Rattle.serving.specs.Wires.{has_read, has_written, has_closed};
ghost use Rattle.serving.specs.Calls.{Call};
ghost use Rattle.serving.specs.Calls as call;
ghost use Rattle.serving.specs.Counting.{count_at, counted_with};
ghost use Rattle.serving.specs.NotedWires.{tells_once, AreTold, TellNothing, WasAsked, WasAskedFor};

use crate::counts::Counts;
use crate::wire::{Io, Link, Port, Refusal, Wire};
use crate::wire_notes::{WireCall, WireNotes};
use std::net::{IpAddr, SocketAddr};

/// A wire that does what the one inside does, and notes it.
///
/// Of any wire inside, `tells` holds of this one: its record is what each call was answered. The
/// notes are in the proofs alone and take no memory. What a link of the one inside really carries
/// is no more known than before: a read gave these octets, a write counted those.
///
/// A link whose number isn't the port's next, counted from 0 on, is closed and not handed on.
#[derive(Drop)]
pub struct NotedWire<W: Wire> {
    pub wire: W,
    pub counts: Counts,
    pub notes: WireNotes,
}

impl<W: Wire> NotedWire<W> {
    /// A wire around this one, from which nothing was accepted yet.
    pub fn new(wire: W) -> NotedWire<W>
        ensures wire { result.wire ≡ wire }
        ensures fresh { TellNothing result.counts result.notes.calls }
        ensures calls { result.notes.calls ≡ [] }
    {
        NotedWire {
            wire,
            counts: Counts::new(),
            notes: WireNotes::new(),
        }
    }

    /// The next link of the wire inside, if it has the port's next number.
    fn accept_next(&mut self, port: Port) -> Option<Link>
        ensures next { IfSome result (λ link. link.number ≡ count_at port self.old.counts) }
        ensures counts { self.new.counts ≡ counted_with port result self.old.counts }
        ensures notes { self.new.notes ≡ self.old.notes }
        ensures inside { WasAskedFor W.tells W.asked port self.old.counts self.old.wire
            self.new.wire (call.Accepted port result) }
    {
        let link = self.wire.accept(port)?;
        if !self.counts.count(port, link) {
            self.wire.close(port, link);
            return None;
        }
        Some(link)
    }
}

impl<W: Wire> Wire for NotedWire<W> {
    ghost tells = { λ noted t. AreTold noted.counts noted.notes.calls t };

    ghost asked = { λ noted calls. calls ≡ noted.notes.calls };

    ghost address_of = { λ noted. W.address_of noted.wire };

    ghost peer_of = { λ noted. W.peer_of noted.wire };

    ghost closed_for = { λ noted. W.closed_for noted.wire };

    ghost tells_once = { λ noted t u a b. tells_once noted.counts noted.notes.calls t u a b };

    fn wait(&mut self, millis: u32)
        ensures told { (t : ToldOfPorts) → AreTold self.old.counts self.old.notes.calls t
            → AreTold self.new.counts self.new.notes.calls t }
        ensures called { (a : List Call) → a ≡ self.old.notes.calls
            → a ++ call.Waited millis ∷ [] ≡ self.new.notes.calls }
        ensures inside { WasAsked W.tells W.asked self.old.wire self.new.wire (call.Waited millis) }
    {
        self.wire.wait(millis);
        self.notes.note(&WireCall::Wait(millis), &[]);
    }

    fn accept(&mut self, port: Port) -> Option<Link>
        ensures told { (t : ToldOfPorts) → AreTold self.old.counts self.old.notes.calls t
            → IsAccepted (AreTold self.new.counts self.new.notes.calls) port t result }
        ensures called { (a : List Call) → a ≡ self.old.notes.calls
            → a ++ call.Accepted port result ∷ [] ≡ self.new.notes.calls }
        ensures inside { WasAskedFor W.tells W.asked port self.old.counts self.old.wire
            self.new.wire (call.Accepted port result) }
    {
        let link = self.accept_next(port);
        self.notes.note(&WireCall::Accept(port, link), &[]);
        link
    }

    fn look(&mut self, port: Port, link: Link, buffer: &mut [u8]) -> Io
        ensures within { IsWithin (length buffer.old) result }
        ensures told { (t : ToldOfPorts) → AreTold self.old.counts self.old.notes.calls t
            → AreTold self.new.counts self.new.notes.calls t }
        ensures called { (a : List Call) → a ≡ self.old.notes.calls
            → a ++ call.Looked port link result (counted result buffer.new) ∷ []
            ≡ self.new.notes.calls }
        ensures inside { WasAsked W.tells W.asked self.old.wire self.new.wire
            (call.Looked port link result (counted result buffer.new)) }
    {
        let io = self.wire.look(port, link, buffer);
        self.notes.note(&WireCall::Look(port, link, io), buffer);
        io
    }

    fn read(&mut self, port: Port, link: Link, buffer: &mut [u8]) -> Io
        ensures within { IsWithin (length buffer.old) result }
        ensures told { (t : ToldOfPorts) → AreTold self.old.counts self.old.notes.calls t
            → AreTold self.new.counts self.new.notes.calls
            (at_port port (λ of. has_read of link.number result (counted result buffer.new)) t) }
        ensures called { (a : List Call) → a ≡ self.old.notes.calls
            → a ++ call.Read port link (length buffer.old) result (counted result buffer.new) ∷ []
            ≡ self.new.notes.calls }
        ensures inside { WasAsked W.tells W.asked self.old.wire self.new.wire
            (call.Read port link (length buffer.old) result (counted result buffer.new)) }
    {
        let room = buffer.len();
        let io = self.wire.read(port, link, buffer);
        self.notes
            .note(&WireCall::Read(port, link, room, io), buffer);
        io
    }

    fn write(&mut self, port: Port, link: Link, octets: &[u8]) -> Io
        ensures within { IsWithin (length octets.now) result }
        ensures told { (t : ToldOfPorts) → AreTold self.old.counts self.old.notes.calls t
            → AreTold self.new.counts self.new.notes.calls
            (at_port port (λ of. has_written of link.number result (counted result octets.now)) t) }
        ensures called { (a : List Call) → a ≡ self.old.notes.calls
            → a ++ call.Wrote port link (length octets.now) result (counted result octets.now) ∷ []
            ≡ self.new.notes.calls }
        ensures inside { WasAsked W.tells W.asked self.old.wire self.new.wire
            (call.Wrote port link (length octets.now) result (counted result octets.now)) }
    {
        let io = self.wire.write(port, link, octets);
        self.notes.note(&WireCall::Write(port, link, io), octets);
        io
    }

    fn address(&self, port: Port, link: Link) -> Option<IpAddr> {
        self.wire.address(port, link)
    }

    fn peer(&self, port: Port, link: Link) -> Option<SocketAddr> {
        self.wire.peer(port, link)
    }

    fn refusal(&self, link: Link) -> Option<Refusal> {
        self.wire.refusal(link)
    }

    fn close(&mut self, port: Port, link: Link)
        ensures told { (t : ToldOfPorts) → AreTold self.old.counts self.old.notes.calls t
            → AreTold self.new.counts self.new.notes.calls
            (at_port port (λ of. has_closed of link.number) t) }
        ensures called { (a : List Call) → a ≡ self.old.notes.calls
            → a ++ call.Closed port link ∷ [] ≡ self.new.notes.calls }
        ensures inside { WasAsked W.tells W.asked self.old.wire self.new.wire
            (call.Closed port link) }
    {
        self.wire.close(port, link);
        self.notes.note(&WireCall::Close(port, link), &[]);
    }
}
