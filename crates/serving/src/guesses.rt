//! Logins that were refused: which addresses they came from, under which names, and until when the
//! next login of that address and name is kept back.
ghost use Rattle.std.specs.Prelude.{◌≡◌, ◌<◌, option_copied, ◌++◌, ◌∷◌, [], false, ⊤};
ghost use Rattle.arrayvec.specs.ArrayVec.{array_vec_len};
ghost use Rattle.std.specs.Net.Addr.{MatchIp, ipv4_bits, ipv6_segments, IsCanonicalOf};
ghost use Rattle.std.specs.declared.net.ip_addr.IpAddr as declared;
ghost use Rattle.serving.specs.Guesses.{network, origin as origin_by, refusal_of, without};
ghost use Rattle.serving.specs.Guesses.{holds_back, next_seconds as seconds_behind, with_room};
ghost use Rattle.serving.specs.Guesses.{one_more, has_name, is_of as is_of_by};

use arrayvec::ArrayVec;
use creds::LoginName;
use std::net::{IpAddr, Ipv6Addr};

/// How many refusals are kept at most: the last one of each origin and name.
const MOST_REFUSALS: usize = 1024;

/// For how many seconds a first refusal keeps the next login back.
const FIRST_SECONDS: u64 = 1;

/// How many seconds a refusal keeps the next login back at most, and a login is kept back at most,
/// however many others are refused meanwhile.
pub(crate) const MOST_SECONDS: u64 = 15;

/// A refusal that is so many seconds old counts no more.
const OLD_SECONDS: u64 = 600;

/// The last refusal of an origin and a login name.
#[derive(Clone, Copy, PartialEq, Eq, Default, Debug)]
pub(crate) struct Refusal {
    pub(crate) origin: u64,
    /// The name that the login was for; `None` in a place that no refusal has taken.
    pub(crate) name: Option<LoginName>,
    /// When it was, in seconds.
    pub(crate) at: u64,
    /// For how many seconds it keeps the next login back.
    pub(crate) seconds: u64,
}

/// Whether a place has this login name.
fn is_name(place: &Option<LoginName>, name: &LoginName) -> bool
    ensures { result ≡ has_name name.now place.now }
{
    match place {
        None => false,
        Some(it) => it.clerk == name.clerk && it.maildrop == name.maildrop,
    }
}

/// Whether a refusal is of this origin and this login name.
fn is_of(refusal: &Refusal, origin: u64, name: &LoginName) -> bool
    ensures { result ≡ is_of_by origin name.now refusal.now }
{
    refusal.origin == origin && is_name(&refusal.name, name)
}

/// The first 64 bits of an IPv6 address.
fn network_of(six: &Ipv6Addr) -> u64
    ensures { result ≡ network (ipv6_segments six.now) }
{
    let segments = six.segments();
    let high = u64::from(segments[0]) * 65536 + u64::from(segments[1]);
    let low = u64::from(segments[2]) * 65536 + u64::from(segments[3]);
    high * 4_294_967_296 + low
}

/// The origin of an address that isn't an IPv4 address within an IPv6 one.
fn canonical_origin(address: &IpAddr) -> u64
    ensures { result ≡ origin_by address.now }
{
    match address {
        IpAddr::V4(four) => u64::from(four.to_bits()),
        IpAddr::V6(six) => network_of(six),
    }
}

/// The number by which an address counts: that of its 32 bits for an IPv4 address, even if it is
/// written as an IPv6 one; for another IPv6 address that of its first 64 bits, since one client has
/// all that begin with them.
pub fn origin_of(address: &IpAddr) -> u64
    ensures four { MatchIp address.now (λ a. result ≡ ipv4_bits a) (λ _. ⊤) }
    ensures six { MatchIp address.now (λ _. ⊤)
        (λ a. (c : declared.IpAddr) × IsCanonicalOf a c × (result ≡ origin_by c)) }
{
    canonical_origin(&address.to_canonical())
}

/// For how many seconds a refusal at this moment keeps the next login back, by the refusal before.
fn next_seconds(before: Option<Refusal>, now: u64) -> u64
    ensures { result ≡ seconds_behind now before }
{
    match before {
        None => FIRST_SECONDS,
        Some(refusal) => {
            if now.saturating_sub(refusal.at) >= OLD_SECONDS {
                return FIRST_SECONDS;
            }
            refusal.seconds.saturating_mul(2).min(MOST_SECONDS)
        }
    }
}

/// The first refusal of an origin and a login name.
fn first_of<'a>(refusals: &'a [Refusal], origin: u64, name: &LoginName) -> Option<&'a Refusal>
    ensures { option_copied result ≡ refusal_of origin name.now refusals.now }
{
    refusals.iter().find(|refusal| is_of(refusal, origin, name))
}

/// The last refusal of each origin and login name, the oldest first, of 1,024 at most.
#[derive(Drop)]
pub struct Guesses {
    /// Logins are kept back after a refusal.
    pub(crate) are_slow: bool,
    pub(crate) refusals: ArrayVec<Refusal, MOST_REFUSALS>,
}

impl Guesses {
    /// None was refused, and none is kept back.
    pub fn new() -> Guesses
        ensures slow { result.are_slow ≡ false }
        ensures refusals { result.refusals.items ≡ [] }
    {
        Guesses {
            are_slow: false,
            refusals: ArrayVec::new(),
        }
    }

    /// The last refusal of an origin and a login name.
    fn last(&self, origin: u64, name: &LoginName) -> Option<Refusal>
        ensures { result ≡ refusal_of origin name.now self.now.refusals.items }
    {
        first_of(self.refusals.as_slice(), origin, name).copied()
    }

    /// Whether the next login of an origin under this name is kept back at this moment.
    pub fn hold_back(&self, origin: u64, name: &LoginName, now: u64) -> bool
        ensures { result ≡ holds_back now (refusal_of origin name.now self.now.refusals.items) }
    {
        match self.last(origin, name) {
            None => false,
            Some(refusal) => now.saturating_sub(refusal.at) < refusal.seconds,
        }
    }

    /// Forgets the refusals of an origin under this name: a login of it was accepted.
    pub(crate) fn forget(&mut self, origin: u64, name: &LoginName)
        ensures slow { self.new.are_slow ≡ self.old.are_slow }
        ensures refusals { self.new.refusals.items
            ≡ without origin name.now self.old.refusals.items }
    {
        self.refusals
            .retain(|refusal| !is_of(refusal, origin, name));
    }

    /// Drops the oldest refusal, if 1,024 are there.
    fn make_room(&mut self)
        ensures slow { self.new.are_slow ≡ self.old.are_slow }
        ensures refusals { self.new.refusals.items ≡ with_room self.old.refusals.items }
        ensures room { array_vec_len self.new.refusals < MOST_REFUSALS }
    {
        if self.refusals.len() >= MOST_REFUSALS {
            self.refusals.remove(0);
        }
    }

    /// A login of an origin under this name was refused at this moment.
    pub fn refuse(&mut self, origin: u64, name: &LoginName, now: u64)
        ensures slow { self.new.are_slow ≡ self.old.are_slow }
        ensures refusals { self.new.refusals.items
            ≡ with_room (without origin name.now self.old.refusals.items)
            ++ one_more now origin name.now self.old.refusals.items ∷ [] }
    {
        let seconds = next_seconds(self.last(origin, name), now);
        self.forget(origin, name);
        self.make_room();
        self.refusals.push(Refusal {
            origin,
            name: Some(*name),
            at: now,
            seconds,
        });
    }
}
