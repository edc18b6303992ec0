//! Clients that haven't logged in since they were accepted.
ghost use Rattle.std.specs.Prelude.{◌≡◌, ◌<◌, option_copied, [], ◌==◌, map};
ghost use Rattle.std.specs.Prelude.{length, true};
ghost use Rattle.serving.specs.Newcomers.{newcomer, others, is_late_by, noted};
ghost use Rattle.serving.specs.Newcomers.{spent as spent_by, waited as waited_by, settled};
ghost use Rattle.serving.specs.Newcomers.{settled_if, settled_in, lies_unread, waited_of};
ghost use Rattle.serving.specs.Newcomers.{held_at as held_at_by, since_at as since_at_by};

use crate::links::PLACES;
use arrayvec::ArrayVec;

/// A client that hasn't logged in.
#[derive(Clone, Copy, PartialEq, Eq, Default, Debug)]
pub(crate) struct Newcomer {
    /// Its connection's number.
    pub(crate) connection: u64,
    /// From which moment on its seconds count: that at which its link was accepted, and later by as
    /// many seconds as its logins lay unread.
    pub(crate) since: u64,
    /// Since when a login of it lies unread, if one does.
    pub(crate) held: Option<u64>,
}

impl Newcomer {
    /// How many of its seconds are over at this moment. While its login lies unread none goes by.
    fn spent(&self, now: u64) -> u64
        ensures { result ≡ spent_by now self.now }
    {
        match self.held {
            None => now.saturating_sub(self.since),
            Some(moment) => moment.min(now).saturating_sub(self.since),
        }
    }

    /// For how many seconds its login has lain unread at this moment; 0 if none does.
    fn waited(&self, now: u64) -> u64
        ensures { result ≡ waited_by now self.now }
    {
        match self.held {
            None => 0,
            Some(moment) => now.saturating_sub(moment),
        }
    }

    /// Notes that its login lies unread at this moment, or that none does: then its seconds count
    /// again.
    fn settle(&mut self, lies_unread: bool, now: u64)
        ensures { self.new ≡ settled lies_unread now self.old }
    {
        if lies_unread {
            self.held = held_at(self.held, now);
            return;
        }
        self.since = since_at(self.held, self.since, now);
        self.held = None;
    }
}

/// The moment since which a login that lies unread now has done so.
fn held_at(held: Option<u64>, now: u64) -> Option<u64>
    ensures { result ≡ held_at_by now held }
{
    match held {
        None => Some(now),
        Some(moment) => Some(moment),
    }
}

/// The moment from which the seconds count: the one before, moved later by the time that a login
/// has lain unread.
fn since_at(held: Option<u64>, since: u64, now: u64) -> u64
    ensures { result ≡ since_at_by now held since }
{
    match held {
        None => since,
        Some(moment) => now.saturating_sub(moment.min(now).saturating_sub(since)),
    }
}

/// Settles a newcomer, if it is of this connection.
fn settle_if(it: &mut Newcomer, connection: u64, lies_unread: bool, now: u64)
    ensures { it.new ≡ settled_if connection lies_unread now it.old }
{
    if it.connection == connection {
        it.settle(lies_unread, now);
    }
}

/// Settles the newcomer of a connection, if there is one.
fn settle_all(newcomers: &mut [Newcomer], connection: u64, lies_unread: bool, now: u64)
    ensures { newcomers.new ≡ map (settled_if connection lies_unread now) newcomers.old }
{
    for entry in newcomers.iter_mut() {
        settle_if(entry, connection, lies_unread, now);
    }
}

/// The first newcomer of a connection.
fn first_of(newcomers: &[Newcomer], connection: u64) -> Option<&Newcomer>
    ensures { option_copied result ≡ newcomer connection newcomers.now }
{
    newcomers.iter().find(|it| it.connection == connection)
}

/// The clients that haven't logged in, in the order in which they were accepted: as many as there
/// are seats at most, so that to note one takes no memory. If there are no login seconds, one that
/// logs in stays noted until its link is closed.
#[derive(Drop)]
pub(crate) struct Newcomers {
    /// How many seconds each has for its login; 0 if that has no limit of its own.
    pub(crate) seconds: u64,
    pub(crate) newcomers: ArrayVec<Newcomer, PLACES>,
}

impl Newcomers {
    /// None came, and none is noted.
    pub(crate) fn new() -> Newcomers
        ensures seconds { result.seconds ≡ 0 }
        ensures newcomers { result.newcomers.items ≡ [] }
    {
        Newcomers {
            seconds: 0,
            newcomers: ArrayVec::new(),
        }
    }

    /// Notes a connection whose link was accepted at this moment. Whether there was room: there is
    /// if each that is noted has a seat, and a seat is free.
    pub(crate) fn note(&mut self, connection: u64, now: u64) -> bool
        ensures seconds { self.new.seconds ≡ self.old.seconds }
        ensures newcomers { self.new.newcomers.items
            ≡ noted result connection now self.old.newcomers.items }
        ensures room { length self.old.newcomers.items < 128 → result ≡ true }
    {
        if self.newcomers.is_full() {
            return false;
        }
        self.newcomers.push(Newcomer {
            connection,
            since: now,
            held: None,
        });
        true
    }

    /// Forgets a connection: it logged in, or ended.
    pub(crate) fn forget(&mut self, connection: u64)
        ensures seconds { self.new.seconds ≡ self.old.seconds }
        ensures newcomers { self.new.newcomers.items ≡ others connection self.old.newcomers.items }
    {
        self.newcomers.retain(|it| it.connection != connection);
    }

    /// Notes that the login of a connection lies unread at this moment, or that none does.
    pub(crate) fn settle(&mut self, connection: u64, lies_unread: bool, now: u64)
        ensures seconds { self.new.seconds ≡ self.old.seconds }
        ensures newcomers { self.new.newcomers.items
            ≡ settled_in connection lies_unread now self.old.newcomers.items }
    {
        settle_all(self.newcomers.as_mut_slice(), connection, lies_unread, now);
    }

    /// The newcomer of a connection.
    fn find(&self, connection: u64) -> Option<Newcomer>
        ensures { result ≡ newcomer connection self.now.newcomers.items }
    {
        first_of(self.newcomers.as_slice(), connection).copied()
    }

    /// Whether a login of a connection lies unread.
    pub(crate) fn lies_unread(&self, connection: u64) -> bool
        ensures { result ≡ lies_unread (newcomer connection self.now.newcomers.items) }
    {
        match self.find(connection) {
            None => false,
            Some(newcomer) => newcomer.held.is_some(),
        }
    }

    /// For how many seconds the login of a connection has lain unread at this moment; 0 if none
    /// does.
    pub(crate) fn waited(&self, connection: u64, now: u64) -> u64
        ensures { result ≡ waited_of now (newcomer connection self.now.newcomers.items) }
    {
        match self.find(connection) {
            None => 0,
            Some(newcomer) => newcomer.waited(now),
        }
    }

    /// Whether a connection hasn't logged in, and so many of its seconds are over at this moment.
    pub(crate) fn is_late(&self, connection: u64, now: u64, seconds: u64) -> bool
        ensures { result ≡ is_late_by now seconds (newcomer connection self.now.newcomers.items) }
    {
        match self.find(connection) {
            None => false,
            Some(newcomer) => newcomer.spent(now) >= seconds,
        }
    }
}
