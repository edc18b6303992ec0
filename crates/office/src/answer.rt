//! What a deposit or an administrator's command is answered.
ghost use Rattle.std.specs.Prelude.{◌≡◌};

use creds::{LoginName, Uid};
use policy::{Decision, Policy};
use std::marker::Model;
use vault::{ClerkKind, Total};

/// What a deposit or a command is answered, if the store didn't refuse it.
#[derive(Drop)]
pub enum Answer {
    /// The deposit was put into the maildrop, under this unique-id.
    New(Uid),
    /// The same deposit came before, under this unique-id; nothing was changed.
    Known(Uid),
    /// The deposit's text has no octet.
    EmptyText,
    /// The deposit's text is over 26,214,400 octets in its kept form.
    TextTooLarge,
    /// There is no maildrop of that name.
    NoSuchMaildrop,
    /// The deposit's id came before with another class or text; nothing was changed.
    Conflict,
    /// There is no room for one more message, maildrop or clerk; nothing was changed.
    Full,
    /// The maildrops, by name.
    Maildrops(Totals),
    /// The messages of a maildrop, in order of arrival.
    Messages(Messages),
    /// The maildrop or the clerk is new.
    Added,
    /// The maildrop was there.
    WasThere,
    /// The maildrop or the clerk is dropped.
    Dropped,
    /// A session holds the maildrop, which stays.
    MaildropInUse,
    /// The maildrop has a message, and stays.
    NotEmpty,
    /// The clerks, by name.
    Clerks(Clerks),
    /// The clerk logs in by APOP.
    ByApopSecret,
    /// The clerk logs in by USER and PASS.
    ByPassword,
    /// There is no clerk of that name.
    NoSuchClerk,
    /// The clerk was there and has the new credential.
    Replaced,
    /// The policy in force.
    PolicyIs(Policy),
    /// The policy is set, and has so many rules.
    RuleCount(u64),
    /// A copy of the policy in force; only its groups are shown.
    GroupsOf(Policy),
    /// The sessions, by their connections' numbers.
    Sessions(Sessions),
    /// The session is ended, and its connection with it.
    Ended,
    /// No connection of that number has a session.
    NoSuchSession,
    /// Whether the policy allows the action, and by which rule.
    Explained(Decision),
}

/// Maildrops with what lies in each.
#[derive(Drop)]
pub struct Totals {
    rows: Vec<Total>,
}

impl Model for Totals {
    ghost use Rattle.std.specs.Prelude.{List};
    ghost use Rattle.vault.specs.declared.answer.Total.{Total};

    ghost Value = { List Total };

    ghost view = { λ t. t.rows.items };
}

impl Totals {
    pub(crate) fn new(rows: Vec<Total>) -> Totals
        ensures { result ≡ rows.items }
    {
        Totals { rows }
    }

    /// The maildrops, in the order of their names' octets.
    pub fn rows(&self) -> &[Total]
        ensures { result.now ≡ self.now }
    {
        &self.rows
    }
}

/// Clerks with the kind of each one's credential.
#[derive(Drop)]
pub struct Clerks {
    rows: Vec<ClerkKind>,
}

impl Model for Clerks {
    ghost use Rattle.std.specs.Prelude.{List};
    ghost use Rattle.vault.specs.declared.answer.ClerkKind.{ClerkKind};

    ghost Value = { List ClerkKind };

    ghost view = { λ c. c.rows.items };
}

impl Clerks {
    pub(crate) fn new(rows: Vec<ClerkKind>) -> Clerks
        ensures { result ≡ rows.items }
    {
        Clerks { rows }
    }

    /// The clerks, in the order of their names' octets.
    pub fn rows(&self) -> &[ClerkKind]
        ensures { result.now ≡ self.now }
    {
        &self.rows
    }
}

/// A message's unique-id and its octets.
#[derive(Clone, Copy, PartialEq, Eq)]
pub struct MessageRow {
    /// Its unique-id.
    pub uid: Uid,
    /// How many octets its kept form has.
    pub octets: u64,
}

/// Messages of a maildrop.
#[derive(Drop)]
pub struct Messages {
    rows: Vec<MessageRow>,
}

impl Model for Messages {
    ghost use Rattle.std.specs.Prelude.{List};
    ghost use Rattle.office.specs.declared.answer.MessageRow.{MessageRow};

    ghost Value = { List MessageRow };

    ghost view = { λ m. m.rows.items };
}

impl Messages {
    pub(crate) fn new(rows: Vec<MessageRow>) -> Messages
        ensures { result ≡ rows.items }
    {
        Messages { rows }
    }

    /// The messages, in order of arrival.
    pub fn rows(&self) -> &[MessageRow]
        ensures { result.now ≡ self.now }
    {
        &self.rows
    }
}

/// A session: its connection's number, its clerk and its maildrop.
#[derive(Clone, Copy, PartialEq, Eq)]
pub struct SessionRow {
    /// The number of its connection.
    pub number: u64,
    /// Who is logged in to which maildrop.
    pub name: LoginName,
}

/// Sessions.
#[derive(Drop)]
pub struct Sessions {
    rows: Vec<SessionRow>,
}

impl Model for Sessions {
    ghost use Rattle.std.specs.Prelude.{List};
    ghost use Rattle.office.specs.declared.answer.SessionRow.{SessionRow};

    ghost Value = { List SessionRow };

    ghost view = { λ s. s.rows.items };
}

impl Sessions {
    pub(crate) fn new(rows: Vec<SessionRow>) -> Sessions
        ensures { result ≡ rows.items }
    {
        Sessions { rows }
    }

    /// The sessions, by their connections' numbers.
    pub fn rows(&self) -> &[SessionRow]
        ensures { result.now ≡ self.now }
    {
        &self.rows
    }
}
