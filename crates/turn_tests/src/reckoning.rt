//! What must happen on all links, reckoned beside a server.
use crate::guest::Guest;
use crate::heard::Heard;
use office::Office;
use serving::Port;
use std::alloc::{AllocError, Global};
use vault::PlainVault;

/// How often what happened.
#[derive(Clone, Copy, Default)]
pub struct Counts {
    /// Links that came.
    pub came: u64,
    /// Clients' lines that acted.
    pub lines: u64,
    /// Requests that acted.
    pub requests: u64,
    /// Octets that were sent.
    pub told: u64,
    /// Links that were broken, or at their end.
    pub lost: u64,
    /// Links that did nothing for too long.
    pub late: u64,
    /// Links that a command ended.
    pub ended: u64,
    /// Links that were closed.
    pub closed: u64,
    /// Accounts of what was judged.
    pub judged: u64,
}

/// The open links, the office that reckons, and what went wrong first.
#[derive(Drop)]
pub struct Reckoning {
    pub alloc: Global,
    pub office: Office<PlainVault>,
    pub guests: Vec<Guest>,
    /// What the office judged since the last turn.
    pub heard: Heard,
    /// The moment, in seconds.
    pub now: u64,
    pub fault: Option<&'static str>,
    pub counts: Counts,
}

/// Where a link is.
fn place_of(guests: &[Guest], port: Port, link: u64) -> Option<usize> {
    guests.iter().position(|it| it.is(port, link))
}

/// How many links of a port are open.
fn count_at(guests: &[Guest], port: Port) -> usize {
    let mut count = 0usize;
    for it in guests {
        count = count.saturating_add(usize::from(it.is_at(port)));
    }
    count
}

/// How many links of clients are over, and not closed.
fn count_over(guests: &[Guest]) -> usize {
    let mut count = 0usize;
    for it in guests {
        count = count.saturating_add(usize::from(it.is_at(Port::Pop) && it.is_over()));
    }
    count
}

/// A command may have ended connections. How many it ended.
fn look_again(guests: &mut [Guest], office: &Office<PlainVault>) -> u64 {
    let mut count = 0u64;
    for it in guests.iter_mut() {
        count = count.saturating_add(u64::from(it.look_again(office)));
    }
    count
}

/// Ends those that did nothing for too long. How many these are.
fn end_late(guests: &mut [Guest], office: &mut Office<PlainVault>, now: u64) -> u64 {
    let mut count = 0u64;
    for it in guests.iter_mut() {
        if it.is_late(now) {
            it.go(office);
            count = count.saturating_add(1);
        }
    }
    count
}

impl Reckoning {
    /// No link came.
    pub fn new(alloc: Global, office: Office<PlainVault>) -> Reckoning {
        Reckoning {
            alloc,
            office,
            guests: Vec::new(alloc),
            heard: Heard::new(alloc),
            now: 0,
            fault: None,
            counts: Counts::default(),
        }
    }

    /// Something went wrong.
    pub fn note(&mut self, fault: &'static str) {
        if self.fault.is_none() {
            self.fault = Some(fault);
        }
    }

    /// Memory was there, or that is what went wrong.
    fn note_memory(&mut self, done: Result<(), AllocError>) {
        if done.is_err() {
            self.note("memory");
        }
    }

    /// How many links of clients, and of the administration, are open.
    pub fn open(&self) -> (usize, usize) {
        let guests = self.guests.as_slice();
        (count_at(guests, Port::Pop), count_at(guests, Port::Admin))
    }

    /// How many links of clients are over, and not closed.
    pub fn over(&self) -> usize {
        count_over(self.guests.as_slice())
    }

    /// Whether something went wrong, or each link was answered all that it sent.
    pub fn is_done(&self) -> bool {
        self.fault.is_some() || self.guests.iter().all(|it| it.is_quiet())
    }

    /// Whether one more link may be open at a port.
    fn has_room(&self, port: Port) -> bool {
        let (clients, requests) = self.open();
        match port {
            Port::Pop => clients.saturating_sub(self.over()) < 64,
            Port::Admin => requests < 8,
        }
    }

    /// A link is accepted, which sends these octets first. Its number.
    pub fn accept(&mut self, port: Port, sends: &[u8], stalls: bool) -> Result<u64, AllocError> {
        let link = self.counts.came;
        self.counts.came = link.saturating_add(1);
        let mut guest = Guest::new(self.alloc, port, link, sends, self.now)?;
        if stalls {
            guest.stall();
        }
        if self.has_room(port) {
            guest.greet(&mut self.office)?;
        } else {
            guest.go(&mut self.office);
        }
        self.guests.push(guest)?;
        Ok(link)
    }

    /// An open link.
    pub fn guest(&self, port: Port, link: u64) -> Option<&Guest> {
        self.guests
            .get(place_of(self.guests.as_slice(), port, link)?)
    }

    /// The moment is given.
    pub fn tick(&mut self) {
        let ended = end_late(&mut self.guests, &mut self.office, self.now);
        self.counts.late = self.counts.late.saturating_add(ended);
    }

    /// Where a link is that is about to be read.
    pub fn reads(&mut self, port: Port, link: u64) -> Option<usize> {
        let place = place_of(self.guests.as_slice(), port, link)?;
        if !self.guests.get(place)?.may_be_read() {
            self.note("read too early or too late");
        }
        Some(place)
    }

    /// Where a link is that is about to get octets.
    pub fn tells(&mut self, port: Port, link: u64, octets: &[u8]) -> Option<usize> {
        let place = place_of(self.guests.as_slice(), port, link)?;
        if !self.guests.get(place)?.may_be_told(octets) {
            self.note("told otherwise");
        }
        Some(place)
    }

    /// What has acted is counted, and may have ended connections.
    fn count_act(&mut self, port: Port) {
        match port {
            Port::Pop => self.counts.lines = self.counts.lines.saturating_add(1),
            Port::Admin => {
                self.counts.requests = self.counts.requests.saturating_add(1);
                let ended = look_again(&mut self.guests, &self.office);
                self.counts.ended = self.counts.ended.saturating_add(ended);
            }
        }
    }

    /// A link's next line, or its request, acts, if it may.
    fn act(&mut self, port: Port, place: usize) -> Result<(), AllocError> {
        let Some(guest) = self.guests.get_mut(place) else {
            return Ok(());
        };
        if guest.act(self.alloc, &mut self.office, &mut self.heard, self.now)? {
            self.count_act(port);
        }
        Ok(())
    }

    /// These octets were read from a link.
    pub fn was_read(&mut self, port: Port, place: usize, piece: &[u8]) {
        if let Some(guest) = self.guests.get_mut(place) {
            let done = guest.was_read(piece);
            self.note_memory(done);
        }
        let done = self.act(port, place);
        self.note_memory(done);
    }

    /// So many octets were written on a link.
    pub fn was_told(&mut self, port: Port, place: usize, count: usize) {
        self.counts.told = self.counts.told.saturating_add(count as u64);
        if let Some(guest) = self.guests.get_mut(place) {
            guest.was_told(count, self.now);
        }
        let done = self.act(port, place);
        self.note_memory(done);
    }

    /// A link is at its end, or broken.
    pub fn is_lost(&mut self, place: usize) {
        if let Some(guest) = self.guests.get_mut(place) {
            guest.go(&mut self.office);
        }
        self.counts.lost = self.counts.lost.saturating_add(1);
    }

    /// A link is closed: it must be over.
    pub fn closes(&mut self, port: Port, link: u64) {
        let Some(place) = place_of(self.guests.as_slice(), port, link) else {
            self.note("closed twice");
            return;
        };
        if let Some(guest) = self.guests.get(place)
            && !guest.is_over()
        {
            self.note("closed too early");
        }
        if place < self.guests.len() {
            self.guests.remove(place);
        }
        self.counts.closed = self.counts.closed.saturating_add(1);
    }
}
