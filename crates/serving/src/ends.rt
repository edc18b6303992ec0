//! The clients whose connections end in a turn: those that were idle, or late, and the links that
//! are closed for it.
ghost use Rattle.std.specs.Prelude.{◌≡◌, ◌<◌, ◌+◌, ◌==◌, ℕ, true, false, List, ◌∷◌, [], ◌++◌};
ghost use Rattle.std.specs.Prelude.{slice_index_or, take, if◌then◌else◌};
ghost use Rattle.std.specs.List.{All, Contains};
ghost use Rattle.office.specs.Events.{Trace};
ghost use Rattle.office.specs.Trace.{is_open};
ghost use Rattle.office.specs.Stands.{StandsFor};
ghost use Rattle.serving.specs.Calls.{Call, Closed};
ghost use Rattle.serving.specs.Wires.{ToldOfPorts, at_port, has_closed};
ghost use Rattle.serving.specs.Hearing.{Hearing, HasHeard, idle_ends, ends_by};
ghost use Rattle.serving.specs.Late.{HasEndedLate};
ghost use Rattle.serving.specs.Newcomers.{newcomer, lies_unread};
ghost use Rattle.serving.specs.Served.{Precedes, StillServes};
ghost use Rattle.serving.specs.Parts.{Asks, Gives, KeepsServing, KeepsServingOne, KeepsSeats};
ghost use Rattle.serving.specs.Parts.{IsOpenIn, IsEnded, Ends, Closes, ClosesSeat};
ghost use Rattle.serving.specs.Parts.{PollsBy, PollsAfterClosing};
ghost use Rattle.serving.specs.ClientParts.{AreClosed, IsClosed};
ghost use Rattle.serving.specs.declared.links.Seat as declared;
ghost use Rattle.arrayvec.specs.ArrayVec.{array_vec_len};

use crate::links::{Clients, Seat};
use crate::listener::{LinkEvent, Listener};
use crate::server::Server;
use crate::wire::{Link, Port, Wire};
use office::{Account, End, Event, Office};
use vault::Vault;

/// Tells the listener that the connection of one seat was idle for too long, if it isn't open
/// after the Tick.
fn report_idle<V: Vault, L: Listener>(
    office: &Office<V>,
    listener: &mut L,
    clients: &Clients,
    place: usize,
)
    requires { place < array_vec_len clients.now.seats }
    ensures { (T : Trace) (d : declared.Seat) → StandsFor V.holds office.now T
        → HasHeard L.heard listener.old listener.new
        (idle_ends T (slice_index_or clients.now.seats.items place d ∷ [])) }
{
    let connection = clients.seats[place].connection;
    if !office.ended(connection) {
        return;
    }
    listener.on_account(connection, &Account::Ended(End::Idle));
}

/// Tells the listener of each connection that this turn's Tick ended: between turns every seat's
/// connection is open, so one that isn't open right after the Tick was ended by it.
pub(crate) fn report_idle_ones<V: Vault, L: Listener>(
    office: &Office<V>,
    listener: &mut L,
    clients: &Clients,
)
    ensures { (T : Trace) → StandsFor V.holds office.now T
        → HasHeard L.heard listener.old listener.new (idle_ends T clients.now.seats.items) }
{
    let mut place = 0;
    while place < clients.seats.len() {
        report_idle(office, listener, clients, place);
        place += 1;
    }
}

/// Closes a link. The listener hears of it.
pub(crate) fn close_link<W: Wire, L: Listener>(
    wire: &mut W,
    listener: &mut L,
    port: Port,
    link: Link,
)
    ensures told { (t : ToldOfPorts) → W.tells wire.old t
        → W.tells wire.new (at_port port (λ of. has_closed of link.number) t) }
    ensures called { (a : List Call) → W.asked wire.old a
        → W.asked wire.new (a ++ Closed port link ∷ []) }
    ensures heard { (h : List Hearing) → L.heard listener.old h → L.heard listener.new h }
{
    wire.close(port, link);
    listener.on_link(wire, port, link, LinkEvent::Closed);
}

impl<V: Vault, W: Wire, L: Listener> Server<V, W, L> {
    /// Ends the connection of a seat. The listener hears why.
    ///
    /// `serves`: so it is over any wire, if the connection is open.
    pub(crate) fn end_seat(&mut self, seat: Seat, why: End)
        ensures serves { IsOpenIn V.holds self.old.office seat.connection → (wire : W)
            (seats these : List declared.Seat) → Contains seats seat
            → All (λ s. Precedes s seat) these → StillServes V.holds V.is_clean W.tells
            self.old.office wire seats these self.new.office wire seats these }
        ensures works { Gives V.Vault self.old self.new (λ given.
            IsEnded V.holds V.is_clean self.old.office self.new.office seat.connection given
            × HasHeard L.heard self.old.listener self.new.listener (ends_by why given)) }
    {
        let _ = self.office.step(Event::Gone(seat.connection));
        self.listener
            .on_account(seat.connection, &Account::Ended(why));
    }

    /// Ends the connection of one seat, if its client took too long to log in. A client whose login
    /// lies unread isn't late.
    fn end_late(&mut self, clients: &mut Clients, seat: Seat, now: u64, seconds: u64)
        ensures serves { KeepsServingOne V.Vault W.Wire seat self.old self.new }
        ensures keeps { KeepsSeats clients.old clients.new }
        ensures ends { Ends clients.old clients.new now seconds }
        ensures unread { lies_unread (newcomer seat.connection
            clients.old.newcomers.newcomers.items) ≡ true → self.new.office ≡ self.old.office }
        ensures works { Gives V.Vault self.old self.new (λ given.
            ((seconds == 0) ≡ false → HasEndedLate V.holds V.is_clean self.old.office
            self.new.office now seconds clients.old.newcomers.newcomers.items
            clients.new.newcomers.newcomers.items (seat ∷ []) given)
            × HasHeard L.heard self.old.listener self.new.listener (ends_by End.TooLate given)) }
    {
        if self.office.is_logged_in(seat.connection) {
            clients.newcomers.forget(seat.connection);
            return;
        }
        if clients.newcomers.lies_unread(seat.connection) {
            return;
        }
        if !clients.newcomers.is_late(seat.connection, now, seconds) {
            return;
        }
        if self.office.ended(seat.connection) {
            return;
        }
        self.end_seat(seat, End::TooLate);
    }

    /// Ends the connection of each client that hasn't logged in although so many or more of its
    /// login seconds are over. 0 means no limit: none is ended.
    pub(crate) fn end_late_ones(&mut self, clients: &mut Clients, now: u64, seconds: u64)
        ensures serves { KeepsServing V.Vault W.Wire self.old self.new
            clients.old.seats.items [] clients.new.seats.items [] }
        ensures keeps { KeepsSeats clients.old clients.new }
        ensures ends { Ends clients.old clients.new now seconds }
        ensures off { seconds ≡ 0 → self.new.office ≡ self.old.office }
        ensures works { Gives V.Vault self.old self.new (λ given.
            HasEndedLate V.holds V.is_clean self.old.office self.new.office now seconds
            clients.old.newcomers.newcomers.items clients.new.newcomers.newcomers.items
            clients.old.seats.items given
            × HasHeard L.heard self.old.listener self.new.listener (ends_by End.TooLate given)) }
    {
        if seconds == 0 {
            return;
        }
        let mut place = 0;
        while place < clients.seats.len() {
            let seat = clients.seats[place];
            self.end_late(clients, seat, now, seconds);
            place += 1;
        }
    }

    /// Closes the link of one seat if its connection ended, and removes the seat. Returns whether
    /// the seat stays: then the connections of it and of all seats before it are open.
    fn close_seat(&mut self, clients: &mut Clients, place: usize) -> bool
        requires { place < array_vec_len clients.old.seats }
        ensures serves { KeepsServing V.Vault W.Wire self.old self.new
            clients.old.seats.items (take place clients.old.seats.items) clients.new.seats.items
            (take (if result then place + 1 else place) clients.new.seats.items) }
        ensures left { array_vec_len clients.new.seats + (if result then 0 else 1)
            ≡ array_vec_len clients.old.seats }
        ensures closes { ClosesSeat clients.old clients.new place result }
        ensures works { Asks W.Wire L.Listener self.old self.new (λ calls. (T : Trace)
            (d : declared.Seat) → StandsFor V.holds self.old.office T
            → IsClosed T clients.old.seats.items clients.new.seats.items place
            (slice_index_or clients.old.seats.items place d) result calls
            × PollsBy clients.old.poll_now clients.new.poll_now calls
            × PollsAfterClosing clients.old.wait clients.new.poll_now calls) }
    {
        let seat = clients.seats[place];
        if !self.office.ended(seat.connection) {
            return true;
        }
        close_link(&mut self.wire, &mut self.listener, Port::Pop, seat.link);
        clients.seats.remove(place);
        let gone = seat.connection;
        clients.newcomers.forget(gone);
        // A login may have waited for what this connection held.
        clients.poll_now |= clients.wait > 0;
        false
    }

    /// Closes each link whose connection ended.
    pub(crate) fn close_links(&mut self, clients: &mut Clients)
        ensures serves { KeepsServing V.Vault W.Wire self.old self.new
            clients.old.seats.items [] clients.new.seats.items clients.new.seats.items }
        ensures closes { Closes clients.old clients.new }
        ensures newcomers { (T : Trace) → StandsFor V.holds self.old.office T → (c : ℕ)
            → is_open T c ≡ true → newcomer c clients.new.newcomers.newcomers.items ≡ newcomer c
            clients.old.newcomers.newcomers.items }
        ensures works { Asks W.Wire L.Listener self.old self.new (λ calls. (T : Trace)
            → StandsFor V.holds self.old.office T
            → AreClosed T clients.old.seats.items clients.new.seats.items calls
            × PollsBy clients.old.poll_now clients.new.poll_now calls
            × PollsAfterClosing clients.old.wait clients.new.poll_now calls) }
    {
        let mut place = 0;
        while place < clients.seats.len() {
            if self.close_seat(clients, place) {
                place += 1;
            }
        }
    }
}
