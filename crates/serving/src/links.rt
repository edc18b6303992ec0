//! The open links, each with its connection.
ghost use Rattle.std.specs.Prelude.{◌≡◌, ◌||◌, [], None, length, min};
ghost use Rattle.serving.specs.Settings.{settings, settings_of, none_set, with_wait};
ghost use Rattle.serving.specs.Settings.{with_login_seconds, with_make_room, with_slow_guesses};

use crate::file_name::FileName;
use crate::guesses::Guesses;
use crate::newcomers::Newcomers;
use crate::requests::Requests;
use crate::wire::Link;
use arrayvec::ArrayVec;
use creds::HostName;
use std::alloc::Global;

/// A link with its connection.
#[derive(Clone, Copy, PartialEq, Eq, Default, Debug)]
pub struct Seat {
    pub link: Link,
    /// The connection's number.
    pub connection: u64,
}

/// How many connections may be open at once, and how many links are accepted at each port in one
/// turn, at most.
pub const MOST_LINKS: usize = 64;

/// How many writes a link has in one turn at most.
pub(crate) const MOST_WRITES: usize = 64;

/// How many octets are written in one turn on a link of a client while others are open, and on one
/// of the administration: one full write. So no client waits long for the others.
pub(crate) const SHARE_AMONG_OTHERS: usize = 16_384;

/// For how many seconds a login may wait at most. It is far below the idle time of any office.
const MOST_WAIT: u64 = 60;

/// How many seconds a client may be given for its login at most.
const MOST_LOGIN_SECONDS: u64 = 600;

/// How many seats there are: 64 for open connections, and 64 for connections that a Tick ended in
/// this turn, whose links are closed later in it.
pub(crate) const PLACES: usize = 2 * MOST_LINKS;

/// What serving keeps between turns: the open links, and which spool file was tried last.
#[derive(Drop)]
pub struct Links {
    pub(crate) clients: Clients,
    pub(crate) requests: Requests,
    /// The administration's site, if it has one: only its own requests are served.
    pub(crate) site: Option<HostName>,
}

impl Links {
    /// No link is open, and no spool file was tried.
    pub fn new(alloc: Global) -> Links
        ensures settings { settings result ≡ none_set }
        ensures seats { result.clients.seats.items ≡ [] }
        ensures newcomers { result.clients.newcomers.newcomers.items ≡ [] }
        ensures refusals { result.clients.guesses.refusals.items ≡ [] }
        ensures requests { result.requests.exchanges.items ≡ [] }
        ensures site { result.site ≡ None }
    {
        Links {
            clients: Clients::new(),
            requests: Requests::new(alloc),
            site: None,
        }
    }

    /// Gives the administration a site of this name, or none. If it has one, each request that
    /// isn't its own is refused ([`adminhttp::Request::read`] says which these are). It is meant
    /// to be given before the first turn. Links begin without: requests of every site are served.
    pub fn set_site(&mut self, site: Option<HostName>)
        ensures site { self.new.site ≡ site }
        ensures clients { self.new.clients ≡ self.old.clients }
        ensures requests { self.new.requests ≡ self.old.requests }
    {
        self.site = site;
    }

    /// Lets a login wait while another session holds its maildrop, until so many seconds, at most
    /// 60, after its connection's last line or taking. Until a client has logged in its lines are
    /// then read one at a time. Links begin with 0: no login waits.
    pub fn set_wait(&mut self, seconds: u64)
        ensures settings { settings self.new ≡ with_wait (min seconds 60) (settings self.old) }
        ensures wait { self.new.clients.wait ≡ min seconds 60 }
        ensures seats { self.new.clients.seats ≡ self.old.clients.seats }
        ensures requests { self.new.requests ≡ self.old.requests }
        ensures site { self.new.site ≡ self.old.site }
    {
        self.clients.wait = seconds.min(MOST_WAIT);
    }

    /// Gives each client that comes from now on so many seconds for its login, at most 600. If
    /// its link was accepted so long ago and it hasn't logged in, its connection is ended and the
    /// link closed, at the end of a turn. The seconds in which its login lies unread, for a lock or
    /// after a refusal, don't count. Links begin with 0: the office's idle time alone counts.
    pub fn set_login_seconds(&mut self, seconds: u64)
        ensures settings { settings self.new ≡ with_login_seconds (min seconds 600)
            (settings self.old) }
        ensures seconds { self.new.clients.newcomers.seconds ≡ min seconds 600 }
        ensures newcomers { self.new.clients.newcomers.newcomers
            ≡ self.old.clients.newcomers.newcomers }
        ensures seats { self.new.clients.seats ≡ self.old.clients.seats }
        ensures requests { self.new.requests ≡ self.old.requests }
        ensures site { self.new.site ≡ self.old.site }
    {
        self.clients.newcomers.seconds = seconds.min(MOST_LOGIN_SECONDS);
    }

    /// Lets clients make room, or keep their places. At a full house a newcomer then gets the place
    /// of a client that isn't logged in: of the address that holds the most such places, the one
    /// that came first. Addresses that aren't known count as one. If all are logged in, the
    /// newcomer's link is closed. Links begin with places that are kept.
    pub fn set_make_room(&mut self, make_room: bool)
        ensures settings { settings self.new ≡ with_make_room make_room (settings self.old) }
        ensures make_room { self.new.clients.make_room ≡ make_room }
        ensures seats { self.new.clients.seats ≡ self.old.clients.seats }
        ensures requests { self.new.requests ≡ self.old.requests }
        ensures site { self.new.site ≡ self.old.site }
    {
        self.clients.make_room = make_room;
    }

    /// Makes guesses slow, or as fast as they come. After a refused PASS or APOP the next one under
    /// the same name from the same address isn't read for a second, and after each further refusal
    /// for twice as long, at most 15 seconds, until one is accepted or none was refused for ten
    /// minutes. No login is kept back so for more than 15 seconds, however many others are refused
    /// meanwhile. An IPv6 address counts by its first 64 bits. The refusals of the newest 1,024
    /// pairs of address and name are kept. Until a client has logged in its lines are read one at a
    /// time. Links begin with fast ones.
    pub fn set_slow_guesses(&mut self, slow: bool)
        ensures settings { settings self.new ≡ with_slow_guesses slow (settings self.old) }
        ensures slow { self.new.clients.guesses.are_slow ≡ slow }
        ensures refusals { self.new.clients.guesses.refusals ≡ self.old.clients.guesses.refusals }
        ensures seats { self.new.clients.seats ≡ self.old.clients.seats }
        ensures requests { self.new.requests ≡ self.old.requests }
        ensures site { self.new.site ≡ self.old.site }
    {
        self.clients.guesses.are_slow = slow;
    }

    /// For how many seconds a login waits while another session holds its maildrop.
    pub fn wait(&self) -> u64
        ensures { result ≡ (settings self.now).wait }
    {
        self.clients.wait
    }

    /// How many seconds each client has for its login; 0 if it has all that the office gives. Only
    /// tests call it.
    pub fn login_seconds(&self) -> u64
        ensures { result ≡ (settings self.now).login_seconds }
    {
        self.clients.newcomers.seconds
    }

    /// Whether clients make room. Only tests call it.
    pub fn makes_room(&self) -> bool
        ensures { result ≡ (settings self.now).make_room }
    {
        self.clients.make_room
    }

    /// Whether guesses are slow. Only tests call it.
    pub fn slow_guesses(&self) -> bool
        ensures { result ≡ (settings self.now).slow_guesses }
    {
        self.clients.guesses.are_slow
    }

    /// How many links of clients are open.
    pub fn count(&self) -> usize
        ensures { result ≡ length self.now.clients.seats.items }
    {
        self.clients.seats.len()
    }

    /// Whether more can be done at once.
    pub(crate) fn poll_now(&self) -> bool
        ensures { result ≡ (self.now.clients.poll_now || self.now.requests.poll_now) }
    {
        self.clients.poll_now || self.requests.poll_now
    }

    /// How many links of the administration are open. Only tests call it.
    pub fn requests(&self) -> usize
        ensures { result ≡ length self.now.requests.exchanges.items }
    {
        self.requests.count()
    }
}

/// The open links of clients, by ascending number of their connections, and which spool file was
/// tried last.
#[derive(Drop)]
pub(crate) struct Clients {
    pub(crate) seats: ArrayVec<Seat, PLACES>,
    /// The spool file that was tried last.
    pub(crate) last: Option<FileName>,
    /// More can be done at once: the next turn doesn't wait.
    pub(crate) poll_now: bool,
    /// For how many seconds a login waits for its maildrop's lock.
    pub(crate) wait: u64,
    /// If logins wait: a session ended while this turn served the links. No further login is
    /// read in it, so that in the next turn those who wait are tried by number.
    pub(crate) lock_released: bool,
    /// At a full house a newcomer gets the place of a client that isn't logged in.
    pub(crate) make_room: bool,
    /// Who hasn't logged in, and how long each may take.
    pub(crate) newcomers: Newcomers,
    /// Which logins were refused.
    pub(crate) guesses: Guesses,
}

impl Clients {
    /// No link is open, and no spool file was tried.
    fn new() -> Clients
        ensures settings { settings_of result ≡ none_set }
        ensures seats { result.seats.items ≡ [] }
        ensures newcomers { result.newcomers.newcomers.items ≡ [] }
        ensures refusals { result.guesses.refusals.items ≡ [] }
    {
        Clients {
            seats: ArrayVec::new(),
            last: None,
            poll_now: false,
            wait: 0,
            lock_released: false,
            make_room: false,
            newcomers: Newcomers::new(),
            guesses: Guesses::new(),
        }
    }
}
