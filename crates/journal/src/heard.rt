//! What the log heard of a connection's session.
ghost use Rattle.std.specs.Prelude.{◌≡◌, Some, IfOk, string_bytes};
ghost use Rattle.journal.specs.Sessions.{heard_after, judged_so, left, is_in, session_text};
ghost use Rattle.journal.specs.Sessions.{behind_name, counted_after, cut_text, unheard};
ghost use Rattle.journal.specs.Sessions.{sending_after as still_sent};
ghost use Rattle.journal.specs.Counts.{counts_text};

use super::account_text::name_text;
use super::counts::Counts;
use creds::{LoginName, Name, Uid};
use office::{Account, End, Verdict};
use std::alloc::{AllocError, Global};

/// What was heard of a connection: who logged in on it, and what became of that session.
#[derive(Drop)]
pub(crate) struct Heard {
    /// Who logged in last, and into which maildrop; `None` before a login.
    pub name: Option<LoginName>,
    /// Whether that session goes on, as far as it was heard.
    pub is_in: bool,
    /// How many messages that session has marked.
    pub marked: u64,
    /// What that session's commands did.
    pub counts: Counts,
    /// Whether a QUIT was judged.
    pub has_quit: bool,
    /// The message of which a RETR or TOP began to send, if not all of that reply was taken.
    pub sending: Option<Uid>,
}

/// The message that is being sent after an account, if that was so of `sending` before it.
fn sending_after(account: &Account, sending: Option<Uid>) -> Option<Uid>
    ensures { result ≡ still_sent account.now sending }
{
    match account {
        Account::Retrieved(message, _) => Some(message.uid),
        Account::Topped(message, _) => Some(message.uid),
        Account::Ended(End::NoMemoryForLine) => None,
        Account::Nothing | Account::Ended(_) => sending,
        Account::Taken | Account::Login(_, _, _) | Account::NoName => None,
        Account::Marked | Account::Unmarked | Account::Denied(_, _, _) => None,
        Account::Quit(_) | Account::QuitBeforeLogin => None,
    }
}

impl Heard {
    /// Nothing was heard yet.
    pub fn nothing() -> Heard
        ensures { result ≡ unheard }
    {
        Heard {
            name: None,
            is_in: false,
            marked: 0,
            counts: Counts::none(),
            has_quit: false,
            sending: None,
        }
    }

    /// Keeps what an account says of the session.
    pub fn take(&mut self, account: &Account)
        ensures { self.new ≡ heard_after account.now self.old }
    {
        self.count(account);
        self.sending = sending_after(account, self.sending);
    }

    /// Keeps what an account says of the session's login, marks, commands and end.
    fn count(&mut self, account: &Account)
        ensures { self.new ≡ counted_after account.now self.old }
    {
        match account {
            Account::Login(name, _, verdict) => self.judge(*name, *verdict),
            Account::Marked => {
                self.marked = self.marked.saturating_add(1);
                self.counts.add_dele();
            }
            Account::Unmarked => {
                self.marked = 0;
                self.counts.add_reset();
            }
            Account::Retrieved(message, _) => self.counts.add_retr(message.octets),
            Account::Topped(message, _) => self.counts.add_top(message.octets),
            Account::Denied(_, _, _) => self.counts.add_denial(),
            Account::Quit(_) | Account::QuitBeforeLogin => {
                self.is_in = false;
                self.has_quit = true;
            }
            Account::NoName | Account::Nothing | Account::Taken | Account::Ended(_) => {}
        }
    }

    /// A login was judged so: if it was accepted its session begins, without a mark.
    fn judge(&mut self, name: LoginName, verdict: Verdict)
        ensures { self.new ≡ judged_so name verdict self.old }
    {
        match verdict {
            Verdict::Accepted(_) => {
                self.name = Some(name);
                self.is_in = true;
                self.marked = 0;
                self.counts = Counts::none();
            }
            Verdict::WrongCredential | Verdict::ThirdWrongCredential => {}
            Verdict::Denied(_) | Verdict::NoSuchMaildrop => {}
            Verdict::InUse | Verdict::StoreFailed => {}
        }
    }

    /// Whether its session is in a maildrop.
    pub fn is_in_maildrop(&self, maildrop: &Name) -> bool
        ensures { result ≡ is_in maildrop.now self.now }
    {
        match &self.name {
            Some(name) => self.is_in && name.maildrop == *maildrop,
            None => false,
        }
    }

    /// Its session, if it is in a maildrop, is over: another one begins there.
    pub fn leave(&mut self, maildrop: &Name)
        ensures { self.new ≡ left maildrop.now self.old }
    {
        if self.is_in_maildrop(maildrop) {
            self.is_in = false;
        }
    }

    /// The session's clerk and maildrop, as values that follow others on a line; empty without a
    /// session. Its error is want of memory.
    pub fn behind_name(&self, alloc: Global) -> Result<String, AllocError>
        ensures { IfOk result (λ text. string_bytes text ≡ behind_name self.now.name) }
    {
        match &self.name {
            Some(name) => spaced_name(alloc, name),
            None => Ok(String::new(alloc)),
        }
    }

    /// The session's clerk, maildrop, marked messages and commands, as values of a line; empty
    /// without a session. Its error is want of memory.
    pub fn session_text(&self, alloc: Global) -> Result<String, AllocError>
        ensures { IfOk result (λ text. string_bytes text ≡ session_text self.now.name
            self.now.marked self.now.counts) }
    {
        match &self.name {
            Some(name) => named_text(alloc, name, self.marked, &self.counts),
            None => Ok(String::new(alloc)),
        }
    }

    /// The message of which not all was taken, as a value of a line; empty if there is none. Its
    /// error is want of memory.
    pub fn cut_text(&self, alloc: Global) -> Result<String, AllocError>
        ensures { IfOk result (λ text. string_bytes text ≡ cut_text self.now.sending) }
    {
        match self.sending {
            Some(uid) => sent_text(alloc, uid),
            None => Ok(String::new(alloc)),
        }
    }

    /// What the session's commands did, as values of a line.
    pub fn counts_text(&self, alloc: Global) -> Result<String, AllocError>
        ensures { IfOk result (λ text. string_bytes text ≡ counts_text self.now.counts) }
    {
        self.counts.text(alloc)
    }
}

/// A message of which not all was taken.
fn sent_text(alloc: Global, uid: Uid) -> Result<String, AllocError>
    ensures { IfOk result (λ text. string_bytes text ≡ cut_text (Some uid)) }
{
    let text = format!(in alloc; " cut={uid}")?;
    Ok(text)
}

/// A session's clerk and maildrop after a space.
fn spaced_name(alloc: Global, name: &LoginName) -> Result<String, AllocError>
    ensures { IfOk result (λ text. string_bytes text ≡ behind_name (Some name.now)) }
{
    let name = name_text(alloc, *name)?;
    let text = format!(in alloc; " {name}")?;
    Ok(text)
}

/// A session's values: its clerk, its maildrop, how many messages it has marked, and its commands.
fn named_text(
    alloc: Global,
    name: &LoginName,
    marked: u64,
    counts: &Counts,
) -> Result<String, AllocError>
    ensures { IfOk result (λ text. string_bytes text ≡ session_text (Some name.now) marked
        counts.now) }
{
    let counts = counts.text(alloc)?;
    let text = format!(in alloc;
        " clerk={} maildrop={} marked={marked}{counts}",
        name.clerk, name.maildrop
    )?;
    Ok(text)
}
