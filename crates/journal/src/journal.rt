//! Where the lines of a log go.
ghost use Rattle.std.specs.Prelude.{◌≡◌, [], false};

use super::account_text::refusal_text;
use super::administrators::Administrators;
use super::client::Clients;
use super::pipe::takes_a_line;
use super::policy_name::{policy_name, policy_text};
use super::removed_text::{MOST_ON_A_LINE, count_removed, removed_line};
use creds::Name;
use jiff::Timestamp;
use office::{Account, Removal};
use policy::Policy;
use serving::{AdminRequest, Link, LinkEvent, Listener, Port, Refusal, Wire};
use std::alloc::{AllocError, Global};
use std::cell::{Cell, RefCell};
use std::io::Write;
use std::net::{IpAddr, SocketAddr};
use std::time::{Clock, Instant};

/// What the parts of a log share: how many lines were lost, the name of the policy in force, if it
/// is known, and the connections of mail programs and of the administration.
#[derive(Drop)]
pub struct Shared {
    lost: Cell<u64>,
    policy: RefCell<Option<String>>,
    clients: RefCell<Clients>,
    administrators: RefCell<Administrators>,
}

impl Shared {
    /// No line was lost, and nobody is connected.
    pub fn new(alloc: Global) -> Shared {
        Shared {
            lost: Cell::new(0),
            policy: RefCell::new(None),
            clients: RefCell::new(Clients::new(alloc)),
            administrators: RefCell::new(Administrators::new(alloc)),
        }
    }
}

/// Writes the lines of a log to standard error, or none if there is to be no log.
#[derive(Clone, Copy)]
pub struct Journal<'a> {
    rt: &'a HostRuntime,
    is_on: bool,
    /// Whether each RETR has a line.
    reads: bool,
    shared: &'a Shared,
}

impl<'a> Journal<'a> {
    /// A journal that writes its lines, or drops them. It counts those that it lost. A RETR has no
    /// line.
    pub fn new(rt: &'a HostRuntime, is_on: bool, shared: &'a Shared) -> Journal<'a>
        ensures on { result.is_on ≡ is_on }
        ensures reads { result.reads ≡ false }
    {
        Journal {
            rt,
            is_on,
            reads: false,
            shared,
        }
    }

    /// The same journal, which writes a line for each RETR too, or doesn't.
    pub fn with_reads(self, reads: bool) -> Journal<'a>
        ensures on { result.is_on ≡ self.exit.is_on }
        ensures reads { result.reads ≡ reads }
    {
        Journal {
            rt: self.rt,
            is_on: self.is_on,
            reads,
            shared: self.shared,
        }
    }

    /// Whether lines are written.
    pub fn is_on(&self) -> bool
        ensures { result ≡ self.now.is_on }
    {
        self.is_on
    }

    /// The allocator of the lines.
    pub fn alloc(&self) -> Global {
        self.rt.alloc()
    }

    /// Keeps the name of the policy that is in force from now on.
    pub fn keep_policy(&self, policy: &Policy) {
        if self.is_on
            && let Ok(mut kept) = self.shared.policy.try_borrow_mut()
        {
            *kept = policy_name(self.alloc(), policy).ok();
        }
    }

    /// The name of the policy in force, as a value of a line; empty if it isn't known.
    pub fn policy_text(&self) -> Result<String, AllocError> {
        match self.shared.policy.try_borrow() {
            Ok(name) => policy_text(self.alloc(), true, &*name),
            Err(_) => Ok(String::new(self.alloc())),
        }
    }

    /// Writes a line by one write: the moment in UTC, to a second, a space, the text and LF. A line
    /// that can't be put together or written at once is lost; before the next one that can be
    /// stands how many were lost.
    pub fn note(&self, text: Result<String, AllocError>) {
        if !self.is_on {
            return;
        }
        let lost = self.shared.lost.get();
        if lost > 0 && self.write(format!(in self.alloc(); "event=lost lines={lost}")) {
            self.shared.lost.set(0);
        }
        if self.shared.lost.get() > 0 || !self.write(text) {
            let lost = self.shared.lost.get();
            self.shared.lost.set(lost.saturating_add(1));
        }
    }

    /// Notes the line that there is, if there is one.
    fn note_some(&self, text: Option<Result<String, AllocError>>) {
        if let Some(text) = text {
            self.note(text);
        }
    }

    /// Keeps that a mail program's link came.
    fn come(&self, link: Link, address: Option<SocketAddr>) {
        let ip = address.map(|it| it.ip());
        if let Ok(text) = address_text(self.alloc(), address)
            && let Ok(mut clients) = self.shared.clients.try_borrow_mut()
        {
            let _ = clients.come(link, ip, text);
        }
    }

    /// Keeps the address of a mail program's link, if it is known: a proxy may have sent it since.
    fn locate(&self, link: Link, ip: Option<IpAddr>) {
        if let Some(ip) = ip
            && let Ok(mut clients) = self.shared.clients.try_borrow_mut()
        {
            clients.locate(self.alloc(), link, ip);
        }
    }

    /// Keeps that octets lie on a mail program's link, and were looked at without being read.
    fn look(&self, link: Link) {
        if let Ok(now) = Instant::now(self.rt)
            && let Ok(mut clients) = self.shared.clients.try_borrow_mut()
        {
            clients.look(link, now);
        }
    }

    /// Keeps that octets of a mail program's link were read.
    fn read(&self, link: Link) {
        if let Ok(now) = Instant::now(self.rt)
            && let Ok(mut clients) = self.shared.clients.try_borrow_mut()
        {
            clients.read(link, now);
        }
    }

    /// Keeps why a mail program's link is closed, if its first line was refused.
    fn refuse(&self, link: Link, refusal: Option<Refusal>) {
        if let Some(refusal) = refusal
            && let Ok(mut clients) = self.shared.clients.try_borrow_mut()
        {
            clients.end_by(self.alloc(), link, refusal_text(refusal));
        }
    }

    /// Notes that a mail program's link is closed, unless a QUIT was noted.
    fn close(&self, link: Link) {
        let text = match self.shared.clients.try_borrow_mut() {
            Ok(mut clients) => clients.close(self.alloc(), link),
            Err(_) => None,
        };
        self.note_some(text);
    }

    /// Takes what became of a mail program's link: its address and, once octets came, that address
    /// again, and for how long they lay unread; why it ended, if its first line was refused; and
    /// that it is closed.
    fn follow_client<W: Wire>(&self, wire: &W, link: Link, event: LinkEvent) {
        match event {
            LinkEvent::Came => self.come(link, wire.peer(Port::Pop, link)),
            LinkEvent::LiesUnread => self.look(link),
            LinkEvent::WasRead => {
                self.locate(link, wire.address(Port::Pop, link));
                self.read(link);
            }
            LinkEvent::Ended => self.refuse(link, wire.refusal(link)),
            LinkEvent::WasWritten => {}
            LinkEvent::Closed => self.close(link),
        }
    }

    /// Takes what became of a link of the administration: its address, that a response went out,
    /// and that it is closed.
    fn follow_administrator<W: Wire>(&self, wire: &W, link: Link, event: LinkEvent) {
        match event {
            LinkEvent::Came => self.come_asking(link, wire.peer(Port::Admin, link)),
            LinkEvent::WasWritten => self.send(link),
            LinkEvent::Closed => self.close_asking(link),
            LinkEvent::LiesUnread | LinkEvent::WasRead | LinkEvent::Ended => {}
        }
    }

    /// Notes so many unique-ids of what a QUIT removed, 32 on a line.
    fn note_removed(&self, connection: u64, removal: &Removal, count: usize) {
        for place in 0..count {
            if place % MOST_ON_A_LINE == 0 {
                self.note(removed_line(self.alloc(), connection, removal, place));
            }
        }
    }

    /// Keeps that a link of the administration came.
    fn come_asking(&self, link: Link, address: Option<SocketAddr>) {
        if let Ok(text) = address_text(self.alloc(), address)
            && let Ok(mut administrators) = self.shared.administrators.try_borrow_mut()
        {
            let _ = administrators.come(self.alloc(), link, text.as_str());
        }
    }

    /// Keeps that an octet of a response went out on a link of the administration.
    fn send(&self, link: Link) {
        if let Ok(mut administrators) = self.shared.administrators.try_borrow_mut() {
            administrators.send(link);
        }
    }

    /// Notes that a link of the administration is closed, and what was asked over it.
    fn close_asking(&self, link: Link) {
        let text = match self.shared.administrators.try_borrow_mut() {
            Ok(mut administrators) => administrators.close(self.alloc(), link),
            Err(_) => None,
        };
        self.note_some(text);
    }

    /// Who is in a maildrop, as values of a line; empty if that isn't known.
    pub fn holder(&self, maildrop: &Name) -> Result<String, AllocError> {
        match self.shared.clients.try_borrow() {
            Ok(clients) => clients.holder(self.alloc(), maildrop),
            Err(_) => Ok(String::new(self.alloc())),
        }
    }

    /// Writes the line of a text. Says whether it is written.
    fn write(&self, text: Result<String, AllocError>) -> bool {
        if let Ok(text) = text
            && let Ok(line) = self.line(text.as_str())
        {
            takes_a_line(self.rt) && self.rt.stderr().write(line.as_bytes()).is_ok()
        } else {
            false
        }
    }

    /// The line of a text.
    fn line(&self, text: &str) -> Result<String, AllocError> {
        match self.moment() {
            Some(moment) => format!(in self.alloc(); "{moment} {text}\n"),
            None => format!(in self.alloc(); "- {text}\n"),
        }
    }

    /// The moment, to a second; `None` if the system has no clock.
    fn moment(&self) -> Option<Timestamp> {
        let now = self.rt.since_1970().ok()?;
        let seconds = i64::try_from(now.as_secs()).ok()?;
        Timestamp::from_second(seconds).ok()
    }
}

/// Notes each connection that is opened, what the office judged of what came on it, what the
/// administration was asked, and the end of each link. Without a log it asks the wire nothing.
impl Listener for Journal<'_> {
    ghost heard = { λ _ _. ⊥ };

    fn on_link<W: Wire>(&mut self, wire: &W, port: Port, link: Link, event: LinkEvent)
        ensures on { self.new.is_on ≡ self.old.is_on }
        ensures reads { self.new.reads ≡ self.old.reads }
    {
        if !self.is_on {
            return;
        }
        match port {
            Port::Pop => self.follow_client(wire, link, event),
            Port::Admin => self.follow_administrator(wire, link, event),
        }
    }

    fn on_open(&mut self, link: Link, connection: u64)
        ensures on { self.new.is_on ≡ self.old.is_on }
        ensures reads { self.new.reads ≡ self.old.reads }
    {
        if !self.is_on {
            return;
        }
        let text = match self.shared.clients.try_borrow_mut() {
            Ok(mut clients) => clients.open(self.alloc(), link, connection),
            Err(_) => None,
        };
        self.note_some(text);
    }

    fn on_account(&mut self, connection: u64, account: &Account)
        ensures on { self.new.is_on ≡ self.old.is_on }
        ensures reads { self.new.reads ≡ self.old.reads }
    {
        if !self.is_on || matches!(account, Account::Nothing) {
            return;
        }
        if let Account::Quit(removal) = account {
            self.note_removed(connection, removal, count_removed(account));
        }
        let text = match self.shared.clients.try_borrow_mut() {
            Ok(mut clients) => clients.hear(self.alloc(), connection, account, self.reads),
            Err(_) => None,
        };
        self.note_some(text);
    }

    fn on_request(&mut self, link: Link, asked: &AdminRequest<'_>)
        ensures on { self.new.is_on ≡ self.old.is_on }
        ensures reads { self.new.reads ≡ self.old.reads }
    {
        if self.is_on
            && let Ok(policy) = self.shared.policy.try_borrow()
            && let Ok(mut administrators) = self.shared.administrators.try_borrow_mut()
        {
            administrators.ask(self.alloc(), link, asked, &*policy);
        }
    }
}

/// The text of an address.
pub fn address_text(alloc: Global, address: Option<SocketAddr>) -> Result<String, AllocError> {
    match address {
        Some(address) => format!(in alloc; "{address}"),
        None => String::from_str(alloc, "unknown"),
    }
}

/// A text as a value of a line: between quotes, a backslash before each quote and backslash, and
/// each octet outside 0x20 to 0x7E as `\x` and two digits. Its error is want of memory.
pub fn quoted(alloc: Global, text: &[u8]) -> Result<String, AllocError> {
    let mut value = String::from_str(alloc, "\"")?;
    for octet in text {
        put_escaped(&mut value, *octet)?;
    }
    value.push('"')?;
    Ok(value)
}

/// Appends an octet of a text between quotes.
fn put_escaped(value: &mut String, octet: u8) -> Result<(), AllocError> {
    match octet {
        b'"' | b'\\' => {
            value.push('\\')?;
            value.push(char::from(octet))
        }
        b' '..=b'~' => value.push(char::from(octet)),
        _ => value.push_str(format!(in *value.allocator(); "\\x{octet:02x}")?.as_str()),
    }
}

/// The lines that were written last, so that a line that would come each second is written once.
#[derive(Drop)]
pub struct Told {
    lines: Vec<String>,
}

/// How many lines are kept at most.
const MOST_TOLD: usize = 256;

impl Told {
    /// No line was written yet.
    pub fn new(alloc: Global) -> Told
        ensures { result.lines.items ≡ [] }
    {
        Told {
            lines: Vec::new(alloc),
        }
    }

    /// Whether a line is kept.
    fn has(&self, line: &str) -> bool {
        self.lines.iter().any(|told| told.as_str() == line)
    }

    /// Writes a line, unless it is one of those that are kept. If 256 are kept, it forgets them
    /// first. A line that there is no memory to make isn't written.
    pub fn note_once(&mut self, journal: &Journal<'_>, text: Result<String, AllocError>) {
        let Ok(line) = text else {
            return;
        };
        if !journal.is_on() || self.has(line.as_str()) {
            return;
        }
        if self.lines.len() >= MOST_TOLD {
            self.lines.clear();
        }
        journal.note(line.clone());
        let _ = self.lines.push(line);
    }
}
