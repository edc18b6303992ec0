//! What one link must get, computed by an office that gets each line and each request whole, once
//! it may act, and whose output is all taken at once.
use crate::heard::Heard;
use crate::stream::{Stream, front, line_len};
use adminhttp::{Got, Request, response};
use office::{Event, Office, Outcome};
use serving::{Listener, Port};
use std::alloc::{AllocError, Global};
use vault::PlainVault;

/// A link.
#[derive(Drop)]
pub struct Guest {
    port: Port,
    link: u64,
    /// Its connection's number; 0 if it has none.
    connection: u64,
    /// What it sent and was not read.
    comes: Stream,
    /// What was read and has not acted.
    heard: Stream,
    /// What it must get and hasn't got.
    wanted: Stream,
    /// Since when it has done nothing, in seconds; of the administration, when it came.
    since: u64,
    /// Its last line, or its request, has acted: it is over once all is sent.
    is_closing: bool,
    is_over: bool,
    /// It neither sends nor takes.
    stalls: bool,
}

/// Opens a connection. Its number, or 0 if none is opened.
fn connect(office: &mut Office<PlainVault>) -> u64 {
    match office.step(Event::Connect) {
        Outcome::Opened(connection) => connection,
        _ => 0,
    }
}

/// Gives an office a line. What it judged is heard.
fn say(office: &mut Office<PlainVault>, heard: &mut Heard, connection: u64, line: &[u8]) {
    for piece in line.chunks(4096) {
        let report = office.step_with_account(Event::Bytes(connection, piece));
        heard.on_account(connection, &report.account);
    }
}

/// Takes all that a connection is owed.
fn take_all(
    office: &mut Office<PlainVault>,
    connection: u64,
    taken: &mut Stream,
) -> Result<(), AllocError> {
    for _ in 0..u64::MAX {
        let lent = office.owed(connection);
        let count = lent.len();
        if count == 0 {
            break;
        }
        taken.add(lent)?;
        let _ = office.step(Event::Took(connection, count));
    }
    Ok(())
}

/// Puts what an office answers to a request after `told`.
fn answer(
    alloc: Global,
    office: &mut Office<PlainVault>,
    request: &[u8],
    told: &mut Stream,
) -> Result<(), AllocError> {
    match Request::read(alloc, &None, office.admin_access(), request) {
        Got::Command(command) => match office.step(Event::Admin(&command)) {
            Outcome::Answered(answer) => told.add(response(alloc, &answer)?.as_slice()),
            _ => Ok(()),
        },
        Got::Bad(refusal) => told.add(refusal.bytes()),
        _ => Ok(()),
    }
}

impl Guest {
    /// A link that came at a port, and sends these octets first.
    pub fn new(
        alloc: Global,
        port: Port,
        link: u64,
        sends: &[u8],
        now: u64,
    ) -> Result<Guest, AllocError> {
        let mut comes = Stream::new(alloc);
        comes.add(sends)?;
        Ok(Guest {
            port,
            link,
            connection: 0,
            comes,
            heard: Stream::new(alloc),
            wanted: Stream::new(alloc),
            since: now,
            is_closing: false,
            is_over: false,
            stalls: false,
        })
    }

    /// Whether it came at this port.
    pub fn is_at(&self, port: Port) -> bool {
        self.port == port
    }

    /// Whether it is this link.
    pub fn is(&self, port: Port, link: u64) -> bool {
        self.port == port && self.link == link
    }

    /// Its connection's number; 0 if it has none.
    pub fn connection(&self) -> u64 {
        self.connection
    }

    /// Whether nothing may be read from it or written to it any more.
    pub fn is_over(&self) -> bool {
        self.is_over
    }

    /// Whether it neither sends nor takes.
    pub fn stalls(&self) -> bool {
        self.stalls
    }

    /// It neither sends nor takes any more.
    pub fn stall(&mut self) {
        self.stalls = true;
    }

    /// What it sent and was not read.
    pub fn unread(&self) -> &[u8] {
        self.comes.rest()
    }

    /// Whether all that it sent was read and acted, but for the start of a line, and all is sent.
    pub fn is_quiet(&self) -> bool {
        self.is_over || (self.comes.is_empty() && self.may_be_read())
    }

    /// Whether what is to act next is whole: a line, or a request, which has acted then.
    fn is_whole(&self) -> bool {
        match self.port {
            Port::Pop => line_len(self.heard.rest()).is_some(),
            Port::Admin => self.is_closing,
        }
    }

    /// Whether it may be read: nothing is to be sent, and no line or request is whole.
    pub fn may_be_read(&self) -> bool {
        !self.is_over && self.wanted.is_empty() && !self.is_whole()
    }

    /// Whether these octets may be written to it: they come next, and are all that is left, or 512
    /// at least.
    pub fn may_be_told(&self, octets: &[u8]) -> bool {
        let rest = self.wanted.rest();
        let least = rest.len().min(512).max(1);
        !self.is_over && rest.starts_with(octets) && octets.len() >= least
    }

    /// A client's link gets a connection, and is greeted.
    pub fn greet(&mut self, office: &mut Office<PlainVault>) -> Result<(), AllocError> {
        if self.port == Port::Admin {
            return Ok(());
        }
        self.connection = connect(office);
        self.is_over = self.connection == 0;
        take_all(office, self.connection, &mut self.wanted)
    }

    /// A client sends octets.
    pub fn says(&mut self, octets: &[u8]) -> Result<(), AllocError> {
        match self.port {
            Port::Pop => self.comes.add(octets),
            Port::Admin => Ok(()),
        }
    }

    /// These of its octets were read.
    pub fn was_read(&mut self, piece: &[u8]) -> Result<(), AllocError> {
        self.comes.pass(piece.len());
        self.heard.add(piece)
    }

    /// So many octets were written to it.
    pub fn was_told(&mut self, count: usize, now: u64) {
        self.wanted.pass(count);
        self.is_over |= self.is_closing && self.wanted.is_empty();
        if self.port == Port::Pop {
            self.since = now;
        }
    }

    /// A client's next line acts, if there is one.
    fn act_line(
        &mut self,
        office: &mut Office<PlainVault>,
        heard: &mut Heard,
        now: u64,
    ) -> Result<bool, AllocError> {
        let Some(len) = line_len(self.heard.rest()) else {
            return Ok(false);
        };
        say(
            office,
            heard,
            self.connection,
            front(self.heard.rest(), len),
        );
        self.heard.pass(len);
        self.since = now;
        take_all(office, self.connection, &mut self.wanted)?;
        self.is_closing = office.ended(self.connection);
        Ok(true)
    }

    /// A request acts, if it is whole.
    fn act_request(
        &mut self,
        alloc: Global,
        office: &mut Office<PlainVault>,
    ) -> Result<bool, AllocError> {
        if !self.comes.is_empty() {
            return Ok(false);
        }
        answer(alloc, office, self.heard.rest(), &mut self.wanted)?;
        self.is_closing = true;
        Ok(true)
    }

    /// The next line, or the request, acts, if it is whole and all is sent before it. Whether
    /// one did.
    pub fn act(
        &mut self,
        alloc: Global,
        office: &mut Office<PlainVault>,
        heard: &mut Heard,
        now: u64,
    ) -> Result<bool, AllocError> {
        if self.is_over || self.is_closing || !self.wanted.is_empty() {
            return Ok(false);
        }
        match self.port {
            Port::Pop => self.act_line(office, heard, now),
            Port::Admin => self.act_request(alloc, office),
        }
    }

    /// It is gone.
    pub fn go(&mut self, office: &mut Office<PlainVault>) {
        self.is_over = true;
        let _ = office.step(Event::Gone(self.connection));
    }

    /// Whether it did nothing for 600 seconds; of the administration, whether it came 60 seconds
    /// ago.
    pub fn is_late(&self, now: u64) -> bool {
        let most = match self.port {
            Port::Pop => 600,
            Port::Admin => 60,
        };
        !self.is_over && now.saturating_sub(self.since) >= most
    }

    /// A command may have ended its connection. Whether it did.
    pub fn look_again(&mut self, office: &Office<PlainVault>) -> bool {
        let was_over = self.is_over || self.is_closing;
        if self.port == Port::Pop && !was_over {
            self.is_over = office.ended(self.connection);
        }
        self.is_over && !was_over
    }
}
