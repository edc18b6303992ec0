//! The mail programs' connections, as the log has them.
ghost use Rattle.std.specs.Prelude.{◌≡◌, ◌≢◌, ◌⊎◌, ◌<◌, ◌==◌, [], ◌∷◌, ◌++◌, Some, None, map};
ghost use Rattle.std.specs.Prelude.{IfOk, IfErr, IfSome, is_some};
ghost use Rattle.std.specs.Prelude.{◌+◌, true, false};
ghost use Rattle.std.specs.Prelude.{find, position, length, string_bytes, vec_len};
ghost use Rattle.journal.specs.Lines.{cause_text as cause_words};
ghost use Rattle.journal.specs.Sessions.{heard_after, heard_of, heard_by, is_in, is_number};
ghost use Rattle.journal.specs.Sessions.{left_client, left_by, who_text, numbered_text};
ghost use Rattle.journal.specs.Sessions.{client_text, held_text, holder_of, who_of, told_of};
ghost use Rattle.journal.specs.Sessions.{loss_text, loss_of, lost_of};
ghost use Rattle.journal.specs.Sessions.{waited_text, behind_account, session_of, who_in};
ghost use Rattle.journal.specs.Sessions.{is_new, gets_told, is_told_of};
ghost use Rattle.journal.specs.Sessions.{link_of, number_of, unheard, address_of};
ghost use Rattle.journal.specs.Sessions.{opened_on, connect_of, connected_of};
ghost use Rattle.journal.specs.declared.client.Client.{Client as AClient};

use super::account_text::{cause_text, has_line, line_of};
use super::denials::{Denial, Denials};
use super::heard::Heard;
use creds::{LoginName, Name};
use office::{Account, Verdict};
use serving::Link;
use std::alloc::{AllocError, Global};
use std::net::IpAddr;
use std::time::Instant;

/// A mail program's connection, and what the office judged of it.
#[derive(Drop)]
pub(crate) struct Client {
    link: Link,
    /// From where it came, if that is known.
    ip: Option<IpAddr>,
    /// The same, as the log writes it.
    address: String,
    /// The connection's number, once it is opened.
    number: Option<u64>,
    heard: Heard,
    /// Which of its denials have a line.
    denials: Denials,
    /// Since when the line that is next has lain unread; `None` if none does.
    unread: Option<Instant>,
    /// For how many seconds the line that was read last had lain unread.
    waited: u64,
    /// Why it ends, as its line says it: the first cause that was heard, or empty.
    cause: String,
}

/// The connection's number, where it was opened, and the client's address.
fn who_text(alloc: Global, number: Option<u64>, address: &str) -> Result<String, AllocError>
    ensures { IfOk result (λ text. string_bytes text ≡ who_text number address.now) }
{
    match number {
        Some(number) => numbered_text(alloc, number, address),
        None => client_text(alloc, address),
    }
}

/// A connection's number and the client's address.
fn numbered_text(alloc: Global, number: u64, address: &str) -> Result<String, AllocError>
    ensures { IfOk result (λ text. string_bytes text ≡ numbered_text number address.now) }
{
    let text = format!(in alloc; "connection={number} client={address}")?;
    Ok(text)
}

/// The client's address.
fn client_text(alloc: Global, address: &str) -> Result<String, AllocError>
    ensures { IfOk result (λ text. string_bytes text ≡ client_text address.now) }
{
    let text = format!(in alloc; "client={address}")?;
    Ok(text)
}

/// A connection's number and its clerk, as values of a line.
fn held_text(alloc: Global, number: u64, name: &LoginName) -> Result<String, AllocError>
    ensures { IfOk result (λ text. string_bytes text ≡ held_text number name.now) }
{
    let text = format!(in alloc; " connection={number} clerk={}", name.clerk)?;
    Ok(text)
}

/// For how many seconds a login waited, as a value of its line; empty if it didn't wait.
fn waited_text(alloc: Global, seconds: u64) -> Result<String, AllocError>
    ensures { IfOk result (λ text. string_bytes text ≡ waited_text seconds) }
{
    if seconds == 0 {
        return Ok(String::new(alloc));
    }
    let text = format!(in alloc; " waited={seconds}")?;
    Ok(text)
}

/// The line of a connection that ended without a QUIT.
fn loss_text(
    alloc: Global,
    who: &str,
    session: &str,
    cut: &str,
    cause: &str,
) -> Result<String, AllocError>
    ensures { IfOk result (λ text. string_bytes text ≡ loss_text who.now session.now cut.now
        cause.now) }
{
    let text = format!(in alloc; "event=closed {who}{session}{cut}{cause}")?;
    Ok(text)
}

impl Client {
    /// The connection's number, if it was opened, and the client's address.
    fn who(&self, alloc: Global) -> Result<String, AllocError>
        ensures { IfOk result (λ text. string_bytes text ≡ who_of self.now) }
    {
        who_text(alloc, self.number, self.address.as_str())
    }

    /// The same, and its clerk and its maildrop.
    fn session(&self, alloc: Global) -> Result<String, AllocError>
        ensures { IfOk result (λ text. string_bytes text ≡ session_of self.now) }
    {
        let who = self.who(alloc)?;
        let name = self.heard.behind_name(alloc)?;
        let text = format!(in alloc; "{who}{name}")?;
        Ok(text)
    }

    /// Who an account's line is about.
    fn who_in(&self, alloc: Global, account: &Account) -> Result<String, AllocError>
        ensures { IfOk result (λ text. string_bytes text ≡ who_in account.now self.now) }
    {
        match account {
            Account::Retrieved(_, _) | Account::Denied(_, _, _) => self.session(alloc),
            Account::Login(_, _, _) | Account::NoName | Account::QuitBeforeLogin => self.who(alloc),
            Account::Quit(_) | Account::Topped(_, _) | Account::Marked => self.who(alloc),
            Account::Unmarked | Account::Nothing | Account::Ended(_) => self.who(alloc),
            Account::Taken => self.who(alloc),
        }
    }

    /// Keeps what an account says of the session, and the first cause of its end.
    fn take(&mut self, alloc: Global, account: &Account)
        ensures heard { self.new.heard ≡ heard_after account.now self.old.heard }
        ensures number { self.new.number ≡ self.old.number }
        ensures link { self.new.link ≡ self.old.link }
        ensures address { self.new.address ≡ self.old.address }
        ensures cause { (self.new.cause ≡ self.old.cause)
            ⊎ (string_bytes self.new.cause ≡ cause_words account.now) }
    {
        self.end_by(alloc, cause_text(account));
        self.heard.take(account);
    }

    /// Keeps why it ends, as its line says it, if that wasn't heard before. Without memory it isn't
    /// kept.
    fn end_by(&mut self, alloc: Global, cause: &str)
        ensures same { (self.new.heard ≡ self.old.heard) × (self.new.number ≡ self.old.number)
            × (self.new.link ≡ self.old.link) × (self.new.address ≡ self.old.address) }
        ensures cause { (self.new.cause ≡ self.old.cause)
            ⊎ (string_bytes self.new.cause ≡ cause.now) }
        ensures first { string_bytes self.old.cause ≢ [] → self.new.cause ≡ self.old.cause }
    {
        if !self.cause.is_empty() {
            return;
        }
        if let Ok(cause) = String::from_str(alloc, cause) {
            self.cause = cause;
        }
    }

    /// Its session, if it is in a maildrop, is over.
    fn leave(&mut self, maildrop: &Name)
        ensures { self.new ≡ left_client maildrop.now self.old }
    {
        self.heard.leave(maildrop);
    }

    /// The line of a connection that ended without a QUIT.
    fn loss(&self, alloc: Global) -> Result<String, AllocError>
        ensures { IfOk result (λ text. string_bytes text ≡ loss_of self.now) }
    {
        let who = self.who(alloc)?;
        let session = self.heard.session_text(alloc)?;
        let cut = self.heard.cut_text(alloc)?;
        loss_text(
            alloc,
            who.as_str(),
            session.as_str(),
            cut.as_str(),
            self.cause.as_str(),
        )
    }

    /// The values of a line about its session.
    fn holder(&self, alloc: Global) -> Result<String, AllocError>
        ensures { IfOk result (λ text. string_bytes text ≡ holder_of (Some self.now)) }
    {
        match self.number {
            Some(number) => match &self.heard.name {
                Some(name) => held_text(alloc, number, name),
                None => Ok(String::new(alloc)),
            },
            None => Ok(String::new(alloc)),
        }
    }

    /// Whether an account is no denial, or one that gets a line. Its error is want of memory.
    fn is_new(&mut self, account: &Account) -> Result<bool, AllocError>
        ensures ok { IfOk result (λ it. it ≡ is_new account.now self.old.denials.told.items) }
        ensures same { self.new ≡ record self.old { denials = self.new.denials } }
    {
        match account {
            Account::Denied(command, uid, rule) => {
                let denial = Denial {
                    command: *command,
                    uid: *uid,
                    rule: *rule,
                };
                self.denials.take(denial)
            }
            Account::Login(_, _, _) | Account::NoName | Account::QuitBeforeLogin => Ok(true),
            Account::Quit(_) | Account::Retrieved(_, _) | Account::Topped(_, _) => Ok(true),
            Account::Marked | Account::Unmarked | Account::Nothing => Ok(true),
            Account::Taken | Account::Ended(_) => Ok(true),
        }
    }

    /// An account's line, if it has one. If `reads`, a RETR has one.
    fn line(
        &mut self,
        alloc: Global,
        account: &Account,
        reads: bool,
    ) -> Option<Result<String, AllocError>>
        ensures same { self.new ≡ record self.old { denials = self.new.denials } }
        ensures line { IfSome result (λ line. IfOk line (λ text. string_bytes text
            ≡ told_of account.now (Some self.old))) }
        ensures told { IfSome result (λ line. IfOk line (λ _. gets_told reads account.now
            self.old.denials.told.items ≡ true)) }
        ensures silent { result ≡ None → gets_told reads account.now self.old.denials.told.items
            ≡ false }
    {
        if !has_line(account, reads) {
            return None;
        }
        let text = told(alloc, self, account);
        match self.is_new(account) {
            Ok(true) => Some(text),
            Ok(false) => None,
            Err(error) => Some(Err(error)),
        }
    }

    /// Takes an account. Its line, if it has one. If `reads`, a RETR has one.
    fn hear(
        &mut self,
        alloc: Global,
        account: &Account,
        reads: bool,
    ) -> Option<Result<String, AllocError>>
        ensures heard { self.new.heard ≡ heard_after account.now self.old.heard }
        ensures line { IfSome result (λ line. IfOk line (λ text. string_bytes text
            ≡ told_of account.now (Some self.old))) }
        ensures told { IfSome result (λ line. IfOk line (λ _. gets_told reads account.now
            self.old.denials.told.items ≡ true)) }
        ensures silent { result ≡ None → gets_told reads account.now self.old.denials.told.items
            ≡ false }
    {
        let line = self.line(alloc, account, reads);
        self.take(alloc, account);
        line
    }

    /// What follows an account's line: of a login how long it waited, of a session's QUIT its
    /// commands.
    fn behind(&self, alloc: Global, account: &Account) -> Result<String, AllocError>
        ensures { IfOk result (λ text. string_bytes text ≡ behind_account account.now self.now) }
    {
        match account {
            Account::Login(_, _, _) => waited_text(alloc, self.waited),
            Account::Quit(_) => self.heard.counts_text(alloc),
            Account::NoName | Account::Marked | Account::Unmarked => Ok(String::new(alloc)),
            Account::Retrieved(_, _) | Account::Topped(_, _) => Ok(String::new(alloc)),
            Account::Denied(_, _, _) | Account::Taken => Ok(String::new(alloc)),
            Account::QuitBeforeLogin | Account::Nothing | Account::Ended(_) => {
                Ok(String::new(alloc))
            }
        }
    }
}

/// The mail programs' connections.
#[derive(Drop)]
pub struct Clients {
    clients: Vec<Client>,
}

impl Clients {
    /// Nobody is connected.
    pub fn new(alloc: Global) -> Clients {
        Clients {
            clients: Vec::new(alloc),
        }
    }

    /// A link came, from this address, also as the log writes it. Its error is want of memory: then
    /// the log doesn't mention this link.
    pub fn come(
        &mut self,
        link: Link,
        ip: Option<IpAddr>,
        address: String,
    ) -> Result<(), AllocError>
        ensures links { IfOk result (λ _. map link_of self.new.clients.items
            ≡ map link_of self.old.clients.items ++ link.number ∷ []) }
        ensures numbers { IfOk result (λ _. map number_of self.new.clients.items
            ≡ map number_of self.old.clients.items ++ None ∷ []) }
        ensures heard { IfOk result (λ _. map heard_of self.new.clients.items
            ≡ map heard_of self.old.clients.items ++ unheard ∷ []) }
        ensures addresses { IfOk result (λ _. map address_of self.new.clients.items
            ≡ map address_of self.old.clients.items ++ string_bytes address ∷ []) }
        ensures err { IfErr result (λ _. self.new.clients.items ≡ self.old.clients.items) }
    {
        let alloc = *address.allocator();
        self.clients.push(Client {
            link,
            ip,
            address,
            number: None,
            heard: Heard::nothing(),
            denials: Denials::none(alloc),
            unread: None,
            waited: 0,
            cause: String::new(alloc),
        })?;
        Ok(())
    }

    /// The place of the client at a link.
    fn place_at(&self, link: Link) -> Option<usize>
        ensures value { result ≡ position (λ (client : AClient). client.link.number == link.number)
            self.now.clients.items }
        ensures within { IfSome result (λ at. at < length self.now.clients.items) }
    {
        self.clients
            .iter()
            .position(|client| client.link.number == link.number)
    }

    /// The place of the client of a connection.
    fn place_of(&self, connection: u64) -> Option<usize>
        ensures value { result ≡ position (λ (client : AClient). is_number connection client.number)
            self.now.clients.items }
        ensures within { IfSome result (λ at. at < length self.now.clients.items) }
    {
        self.clients
            .iter()
            .position(|client| has_number(client, connection))
    }

    /// Takes the address of a link that a proxy sent: it is written without a port.
    pub fn locate(&mut self, alloc: Global, link: Link, ip: IpAddr) {
        let Some(at) = self.place_at(link) else {
            return;
        };
        if self.clients[at].ip == Some(ip) {
            return;
        }
        if let Ok(address) = format!(in alloc; "{ip}") {
            self.clients[at].ip = Some(ip);
            self.clients[at].address = address;
        }
    }

    /// Octets lie on a link, and were looked at without being read.
    pub fn look(&mut self, link: Link, now: Instant) {
        if let Some(at) = self.place_at(link)
            && self.clients[at].unread.is_none()
        {
            self.clients[at].unread = Some(now);
        }
    }

    /// Octets of a link were read, at this moment.
    pub fn read(&mut self, link: Link, now: Instant) {
        let Some(at) = self.place_at(link) else {
            return;
        };
        self.clients[at].waited = match self.clients[at].unread {
            Some(since) => now.duration_since(since).as_secs(),
            None => 0,
        };
        self.clients[at].unread = None;
    }

    /// Keeps why a link ends, as its line says it, if that wasn't heard before.
    pub fn end_by(&mut self, alloc: Global, link: Link, cause: &str) {
        if let Some(at) = self.place_at(link) {
            self.clients[at].end_by(alloc, cause);
        }
    }

    /// A link got a connection. Its line, if the link is known. Without memory for the line the
    /// connection is kept all the same.
    pub fn open(
        &mut self,
        alloc: Global,
        link: Link,
        connection: u64,
    ) -> Option<Result<String, AllocError>>
        ensures opened { self.new.clients.items
            ≡ opened_on link.number connection self.old.clients.items }
        ensures line { IfSome result (λ line. IfOk line (λ text. string_bytes text
            ≡ connected_of connection (find
            (λ (client : AClient). client.link.number == link.number) self.old.clients.items))) }
        ensures known { is_some result ≡ is_some (position
            (λ (client : AClient). client.link.number == link.number) self.old.clients.items) }
    {
        let at = self.place_at(link)?;
        self.clients[at].number = Some(connection);
        Some(connect_text(alloc, &self.clients[at]))
    }

    /// Takes an account of a connection. Its line, if it has one. If `reads`, a RETR has one.
    pub fn hear(
        &mut self,
        alloc: Global,
        connection: u64,
        account: &Account,
        reads: bool,
    ) -> Option<Result<String, AllocError>>
        ensures line { IfSome result (λ line. IfOk line (λ text. string_bytes text
            ≡ told_of account.now (find (λ (client : AClient). is_number connection client.number)
            (left_by account.now self.old.clients.items)))) }
        ensures told { IfSome result (λ line. IfOk line (λ _. is_told_of reads account.now
            (find (λ (client : AClient). is_number connection client.number)
            (left_by account.now self.old.clients.items)) ≡ true)) }
        ensures heard { map heard_of self.new.clients.items ≡ heard_by connection account.now
            (left_by account.now self.old.clients.items) }
    {
        leave_by(&mut self.clients, account);
        match self.place_of(connection) {
            Some(at) => self.clients[at].hear(alloc, account, reads),
            None => None,
        }
    }

    /// The place of the client who is in a maildrop.
    fn place_in(&self, maildrop: &Name) -> Option<usize>
        ensures value { result ≡ position (λ (client : AClient). is_in maildrop.now client.heard)
            self.now.clients.items }
        ensures within { IfSome result (λ at. at < length self.now.clients.items) }
    {
        self.clients
            .iter()
            .position(|client| client.heard.is_in_maildrop(maildrop))
    }

    /// Who is in a maildrop, as values of a line; empty if that isn't known.
    pub fn holder(&self, alloc: Global, maildrop: &Name) -> Result<String, AllocError>
        ensures { IfOk result (λ text. string_bytes text ≡ holder_of
            (find (λ (client : AClient). is_in maildrop.now client.heard)
            self.now.clients.items)) }
    {
        match self.place_in(maildrop) {
            Some(at) => self.clients[at].holder(alloc),
            None => Ok(String::new(alloc)),
        }
    }

    /// A link is closed, and its client forgotten. Its line, if nobody quit on it.
    pub fn close(&mut self, alloc: Global, link: Link) -> Option<Result<String, AllocError>>
        ensures line { IfSome result (λ line. IfOk line (λ text. string_bytes text
            ≡ lost_of (find (λ (client : AClient). client.link.number == link.number)
            self.old.clients.items))) }
        ensures forgotten { IfSome (position
            (λ (client : AClient). client.link.number == link.number) self.old.clients.items)
            (λ _. vec_len self.new.clients + 1 ≡ vec_len self.old.clients) }
    {
        let Some(at) = self.place_at(link) else {
            return None;
        };
        let client = self.clients.swap_remove(at);
        if client.heard.has_quit {
            return None;
        }
        Some(client.loss(alloc))
    }
}

/// The session in a maildrop, if one is known, is over: another one begins.
fn leave(clients: &mut [Client], maildrop: &Name)
    ensures { clients.new ≡ map (left_client maildrop.now) clients.old }
{
    for client in clients.iter_mut() {
        client.leave(maildrop);
    }
}

/// If an account says that a login was accepted, the session that is kept in its maildrop is over.
fn leave_by(clients: &mut [Client], account: &Account)
    ensures { clients.new ≡ left_by account.now clients.old }
{
    if let Account::Login(name, _, Verdict::Accepted(_)) = account {
        leave(clients, &name.maildrop);
    }
}

/// Whether a client's connection has a number.
fn has_number(client: &Client, connection: u64) -> bool
    ensures { result ≡ is_number connection client.now.number }
{
    match client.number {
        Some(number) => number == connection,
        None => false,
    }
}

/// The line of a connection that was opened.
fn connect_text(alloc: Global, client: &Client) -> Result<String, AllocError>
    ensures { IfOk result (λ text. string_bytes text ≡ connect_of client.now) }
{
    let who = client.who(alloc)?;
    let text = format!(in alloc; "event=connect {who}")?;
    Ok(text)
}

/// The line of an account.
fn told(alloc: Global, client: &Client, account: &Account) -> Result<String, AllocError>
    ensures { IfOk result (λ text. string_bytes text ≡ told_of account.now (Some client.now)) }
{
    let who = client.who_in(alloc, account)?;
    let line = line_of(alloc, who.as_str(), account)?;
    let behind = client.behind(alloc, account)?;
    let text = format!(in alloc; "{line}{behind}")?;
    Ok(text)
}
