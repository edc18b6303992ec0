//! The clients' links that come in a turn.
ghost use Rattle.std.specs.Prelude.{◌≡◌, Bool, []};
ghost use Rattle.office.specs.Seen.{outcome_seen};
ghost use Rattle.serving.specs.Wires.{opened_by};
ghost use Rattle.serving.specs.Parts.{Accepts, AreNoted, KeepsServing};
ghost use Rattle.serving.specs.ClientParts.{AreAccepted};

use crate::ends::close_link;
use crate::links::{Clients, MOST_LINKS, Seat};
use crate::listener::{LinkEvent, Listener};
use crate::server::Server;
use crate::wire::{Port, Wire};
use office::{Event, Outcome};
use vault::Vault;

/// The number of the connection that a Connect opened; `None` if it opened none.
fn opened(outcome: Outcome) -> Option<u64>
    ensures { result ≡ opened_by (outcome_seen outcome) }
{
    match outcome {
        Outcome::Opened(connection) => Some(connection),
        _ => None,
    }
}

impl<V: Vault, W: Wire, L: Listener> Server<V, W, L> {
    /// Accepts the next client's link. At a full house it gets another's place, if one is to make
    /// room. It gets a seat with its connection, or is closed if the office opens none. Returns
    /// whether one came. While all 128 seats are taken none is accepted.
    fn accept_link(&mut self, clients: &mut Clients, now: u64) -> bool
        ensures serves { KeepsServing V.Vault W.Wire self.old self.new
            clients.old.seats.items [] clients.new.seats.items [] }
        ensures comers { AreNoted clients.old clients.new now }
        ensures works { Accepts V.Vault W.Wire L.Listener self.old self.new
            (AreAccepted V.holds V.is_clean self.old.office self.new.office
            clients.old.make_room clients.old.seats.items clients.new.seats.items 1 result) }
    {
        if clients.seats.is_full() {
            return false;
        }
        let Some(link) = self.wire.accept(Port::Pop) else {
            return false;
        };
        self.listener
            .on_link(&self.wire, Port::Pop, link, LinkEvent::Came);
        self.make_room(clients);
        let number = opened(self.office.step(Event::Connect));
        match number {
            Some(connection) => {
                clients.seats.push(Seat { link, connection });
                let _ = clients.newcomers.note(connection, now);
                self.listener.on_open(link, connection);
            }
            None => close_link(&mut self.wire, &mut self.listener, Port::Pop, link),
        }
        true
    }

    /// Accepts the links that came, at most 64.
    pub(crate) fn accept_links(&mut self, clients: &mut Clients, now: u64)
        ensures serves { KeepsServing V.Vault W.Wire self.old self.new
            clients.old.seats.items [] clients.new.seats.items [] }
        ensures comers { AreNoted clients.old clients.new now }
        ensures works { (has_more : Bool) × Accepts V.Vault W.Wire L.Listener self.old self.new
            (AreAccepted V.holds V.is_clean self.old.office self.new.office
            clients.old.make_room clients.old.seats.items clients.new.seats.items 64 has_more) }
    {
        for _times in 0..MOST_LINKS {
            if !self.accept_link(clients, now) {
                return;
            }
        }
    }
}
