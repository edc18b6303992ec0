//! What was judged, line by line: as a server's listener heard it, and as the office that reckons
//! gave it.
use creds::{LoginName, Name, Uid};
use office::{Account, MessageCommand, MessageRow, Removal, Verdict, Way};
use serving::{AdminRequest, Link, LinkEvent, Listener, Port, Wire};
use session::Removed;
use std::alloc::{AllocError, Global};

/// How many messages a store that works in parts removes at once.
const PART: u64 = 128;

/// Accounts in their order, each with its connection, as texts.
#[derive(Drop)]
pub struct Heard {
    alloc: Global,
    texts: Vec<String>,
    /// Whether memory was wanting for one.
    is_short: bool,
    long: u64,
}

/// By which command a login came.
fn way_word(by: Way) -> &'static str {
    match by {
        Way::Pass => "pass",
        Way::Apop => "apop",
    }
}

/// How a login was judged.
fn verdict_word(verdict: Verdict) -> &'static str {
    match verdict {
        Verdict::Accepted(_) => "accepted",
        Verdict::WrongCredential => "wrong credential",
        Verdict::ThirdWrongCredential => "third wrong credential",
        Verdict::Denied(_) => "denied",
        Verdict::NoSuchMaildrop => "no such maildrop",
        Verdict::InUse => "in use",
        Verdict::StoreFailed => "store failed",
    }
}

/// A login that was judged.
fn login_text(
    alloc: Global,
    name: &LoginName,
    by: Way,
    verdict: Verdict,
) -> Result<String, AllocError> {
    let by = way_word(by);
    let verdict = verdict_word(verdict);
    format!(in alloc; "login {} {} {by} {verdict}", name.clerk, name.maildrop)
}

/// The unique-ids of what a QUIT removes.
fn uids_text(alloc: Global, removed: &Removed) -> Result<String, AllocError> {
    let mut text = String::new(alloc);
    for place in 0..removed.len() {
        if let Some(message) = removed.get(place) {
            text.push_str(format!(in alloc; " {}", message.uid)?.as_str())?;
        }
    }
    Ok(text)
}

/// A session's QUIT.
fn quit_text(alloc: Global, removal: &Removal) -> Result<String, AllocError> {
    let name = &removal.name;
    let marked = removal.marked;
    let uids = uids_text(alloc, &removal.removed)?;
    let is_denied = removal.denied.is_some();
    let is_done = removal.is_done;
    format!(in alloc;
        "quit {} {} {marked} {is_denied} {is_done}{uids}",
        name.clerk, name.maildrop
    )
}

/// A message that a RETR or TOP began to send.
fn sent_text(alloc: Global, command: &str, message: &MessageRow) -> Result<String, AllocError> {
    format!(in alloc; "{command} {} {}", message.uid, message.octets)
}

/// A command that a rule denied.
fn denied_text(
    alloc: Global,
    command: MessageCommand,
    uid: Uid,
    rule: Name,
) -> Result<String, AllocError> {
    let command = match command {
        MessageCommand::Dele => "dele",
        MessageCommand::Retr => "retr",
        MessageCommand::Top => "top",
    };
    format!(in alloc; "denied {command} {uid} {rule}")
}

/// An account; empty if no line was judged. Of the office that reckons all is taken at once, so
/// that a connection may end at another event.
fn account_text(alloc: Global, account: &Account) -> Result<String, AllocError> {
    match account {
        Account::Login(name, by, verdict) => login_text(alloc, name, *by, *verdict),
        Account::NoName => String::from_str(alloc, "no name"),
        Account::Marked => String::from_str(alloc, "marked"),
        Account::Unmarked => String::from_str(alloc, "unmarked"),
        Account::Quit(removal) => quit_text(alloc, removal),
        Account::QuitBeforeLogin => String::from_str(alloc, "quit before a login"),
        Account::Retrieved(message, _) => sent_text(alloc, "retrieved", message),
        Account::Topped(message, _) => sent_text(alloc, "topped", message),
        Account::Denied(command, uid, rule) => denied_text(alloc, *command, *uid, *rule),
        Account::Ended(_) | Account::Nothing | Account::Taken => Ok(String::new(alloc)),
    }
}

/// Whether it is a QUIT that removed more messages than are removed at once.
fn is_long(account: &Account) -> bool {
    match account {
        Account::Quit(removal) => removal.is_done && removal.marked as u64 > PART,
        _ => false,
    }
}

impl Heard {
    /// Nothing was heard yet.
    pub fn new(alloc: Global) -> Heard {
        Heard {
            alloc,
            texts: Vec::new(alloc),
            is_short: false,
            long: 0,
        }
    }

    /// Keeps an account, if something was judged.
    fn keep(&mut self, connection: u64, account: &Account) -> Result<(), AllocError> {
        let text = account_text(self.alloc, account)?;
        if text.is_empty() {
            return Ok(());
        }
        self.texts
            .push(format!(in self.alloc; "{connection} {text}")?)?;
        Ok(())
    }

    /// How many accounts were heard.
    pub fn len(&self) -> usize {
        self.texts.len()
    }

    /// Whether the other one heard just the same, in the same order.
    pub fn is_as(&self, other: &Heard) -> bool {
        let same = self
            .texts
            .iter()
            .zip(other.texts.iter())
            .all(|(a, b)| a.as_str() == b.as_str());
        same && self.texts.len() == other.texts.len() && !self.is_short && !other.is_short
    }

    /// How many QUITs removed more messages than a store that works in parts removes at once.
    pub fn long_quits(&self) -> u64 {
        self.long
    }

    /// Forgets all.
    pub fn clear(&mut self) {
        self.texts.clear();
    }
}

impl Listener for Heard {
    ghost heard = { λ _ _. ⊥ };

    fn on_link<W: Wire>(&mut self, _wire: &W, _port: Port, _link: Link, _event: LinkEvent) {}

    fn on_open(&mut self, _link: Link, _connection: u64) {}

    fn on_account(&mut self, connection: u64, account: &Account) {
        self.is_short |= self.keep(connection, account).is_err();
        self.long = self.long.saturating_add(u64::from(is_long(account)));
    }

    fn on_request(&mut self, _link: Link, _request: &AdminRequest<'_>) {}
}
