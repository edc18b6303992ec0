//! Whose place a newcomer gets at a full house, if clients that aren't logged in make room for it.
ghost use Rattle.std.specs.Prelude.{◌≡◌, ◌≤◌, ◌<◌, ◌++◌, [], length, count_by, option_to_list};
ghost use Rattle.office.specs.Events.{Trace};
ghost use Rattle.office.specs.Stands.{StandsFor};
ghost use Rattle.serving.specs.ClientParts.{HasMadeRoom};
ghost use Rattle.serving.specs.Hearing.{HasHeard, ends_by};
ghost use Rattle.serving.specs.Parts.{Gives};
ghost use Rattle.serving.specs.Room.{AreCandidates, CountsAs, GivesPlace, is_same as is_same_by};
ghost use Rattle.serving.specs.Room.{held as held_by, holds_most as holds_most_by, first_of_most};
ghost use Rattle.serving.specs.Room.{IsSeenAs, is_candidate};
ghost use Rattle.serving.specs.Served.{StillServes};
ghost use Rattle.serving.specs.Works.{is_open_seat};
ghost use Rattle.arrayvec.specs.ArrayVec.{array_vec_len};

use crate::guesses::origin_of;
use crate::links::{Clients, MOST_LINKS, PLACES, Seat};
use crate::listener::Listener;
use crate::server::Server;
use crate::wire::{Link, Port, Wire};
use arrayvec::ArrayVec;
use office::{End, Office};
use vault::Vault;

/// A client that isn't logged in.
#[derive(Clone, Copy, PartialEq, Eq, Default, Debug)]
pub(crate) struct Candidate {
    pub(crate) seat: Seat,
    /// By which number its address counts; `None` if it isn't known.
    pub(crate) origin: Option<u64>,
}

/// By which number the address of a client's link counts; `None` if it isn't known.
fn counts_as<W: Wire>(wire: &W, link: Link) -> Option<u64>
    ensures { CountsAs (W.address_of wire.now Port.Pop link) result }
{
    match wire.address(Port::Pop, link) {
        None => None,
        Some(address) => Some(origin_of(&address)),
    }
}

/// The client of a seat, if it has its place and isn't logged in.
fn find_candidate<V: Vault, W: Wire>(office: &Office<V>, wire: &W, seat: Seat) -> Option<Candidate>
    ensures { (T : Trace) → StandsFor V.holds office.now T
        → IsSeenAs (is_candidate T seat) (W.address_of wire.now Port.Pop seat.link) seat result }
{
    if office.ended(seat.connection) {
        return None;
    }
    if office.is_logged_in(seat.connection) {
        return None;
    }
    let origin = counts_as(wire, seat.link);
    Some(Candidate { seat, origin })
}

/// Adds a candidate, if there is one.
fn add(found: &mut ArrayVec<Candidate, PLACES>, one: Option<Candidate>)
    requires { array_vec_len found.old < 128 }
    ensures { found.new.items ≡ found.old.items ++ option_to_list one }
{
    if let Some(one) = one {
        found.push(one);
    }
}

/// The clients that aren't logged in, in the order in which they came.
fn candidates<V: Vault, W: Wire>(
    office: &Office<V>,
    wire: &W,
    seats: &[Seat],
) -> ArrayVec<Candidate, PLACES>
    requires { length seats.now ≤ 128 }
    ensures { (T : Trace) → StandsFor V.holds office.now T
        → AreCandidates T (W.address_of wire.now Port.Pop) seats.now result.items }
{
    let mut found = ArrayVec::new();
    for seat in seats {
        add(&mut found, find_candidate(office, wire, *seat));
    }
    found
}

/// How many places are taken: by clients whose connections are open.
fn places_taken<V: Vault>(office: &Office<V>, seats: &[Seat]) -> usize
    ensures { (T : Trace) → StandsFor V.holds office.now T
        → result ≡ count_by (is_open_seat T) seats.now }
{
    let mut taken: usize = 0;
    for seat in seats {
        if !office.ended(seat.connection) {
            taken += 1;
        }
    }
    taken
}

/// Whether two count by the same number, or neither's address is known.
fn is_same(one: Option<u64>, other: Option<u64>) -> bool
    ensures { result ≡ is_same_by one other }
{
    let Some(number) = one else {
        return other.is_none();
    };
    match other {
        None => false,
        Some(it) => number == it,
    }
}

/// How many places of candidates an address holds.
fn held(candidates: &[Candidate], origin: Option<u64>) -> usize
    ensures { result ≡ held_by candidates.now origin }
{
    candidates
        .iter()
        .filter(|it| is_same(it.origin, origin))
        .count()
}

/// Whether no address holds more places of candidates than this one's.
fn holds_most(candidates: &[Candidate], one: &Candidate) -> bool
    ensures { result ≡ holds_most_by candidates.now one.now }
{
    let most = held(candidates, one.origin);
    candidates
        .iter()
        .all(|other| held(candidates, other.origin) <= most)
}

/// Of the address that holds the most places of candidates the one that came first.
fn first_with_most(candidates: &[Candidate]) -> Option<Seat>
    ensures { result ≡ first_of_most candidates.now }
{
    match candidates.iter().find(|one| holds_most(candidates, one)) {
        None => None,
        Some(one) => Some(one.seat),
    }
}

/// Whose place a newcomer gets: of the clients that aren't logged in, and of the address that holds
/// the most of their places, the one that came first. Addresses that aren't known count as one.
/// `None` if clients don't make room, if a place is free, or if all are logged in.
fn who_gives_place<V: Vault, W: Wire>(
    office: &Office<V>,
    wire: &W,
    clients: &Clients,
) -> Option<Seat>
    ensures { (T : Trace) → StandsFor V.holds office.now T
        → GivesPlace clients.now.make_room T (W.address_of wire.now Port.Pop)
        clients.now.seats.items result }
{
    if !clients.make_room {
        return None;
    }
    let seats = clients.seats.as_slice();
    if places_taken(office, seats) < MOST_LINKS {
        return None;
    }
    let found = candidates(office, wire, seats);
    first_with_most(found.as_slice())
}

impl<V: Vault, W: Wire, L: Listener> Server<V, W, L> {
    /// Ends the connection of the client whose place a newcomer gets, if one is to make room. The
    /// listener hears of it.
    ///
    /// The wire may be any: no link's traffic changes.
    pub(crate) fn make_room(&mut self, clients: &Clients)
        ensures serves { (wire : W) → StillServes V.holds V.is_clean W.tells
            self.old.office wire clients.now.seats.items [] self.new.office wire
            clients.now.seats.items [] }
        ensures works { Gives V.Vault self.old self.new (λ given.
            HasMadeRoom V.holds self.old.office clients.now.make_room
            (W.address_of self.old.wire Port.Pop) clients.now.seats.items given
            × HasHeard L.heard self.old.listener self.new.listener (ends_by End.FullHouse given)) }
    {
        let Some(seat) = who_gives_place(&self.office, &self.wire, clients) else {
            return;
        };
        self.end_seat(seat, End::FullHouse);
    }
}
