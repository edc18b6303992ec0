//! What an administrator asks about sessions.
ghost use Rattle.std.specs.Prelude.{◌≡◌, ◌∷◌, ◌++◌, [], map, IfOk, OnOk};
ghost use Rattle.std.specs.List.{filter_map};
ghost use Rattle.std.specs.Ordering.{nat_cmp};
ghost use Rattle.std.specs.BTreeMap.{get, IsOrdered};
ghost use Rattle.office.specs.Events as event;
ghost use Rattle.office.specs.Answers as asked;
ghost use Rattle.office.specs.Seen.{outcome_seen, session_seen};
ghost use Rattle.office.specs.Stands.{vault_of};
ghost use Rattle.office.specs.AfterEvent.{AfterEvent};
ghost use Rattle.office.specs.InSession.{name_at, kept_row};

use crate::connection::Connection;
use crate::locks::release;
use crate::{Answer, Office, Outcome, SessionRow, Sessions};
use creds::LoginName;
use std::alloc::{AllocError, Global};
use std::collections::BTreeMap;
use vault::Vault;

/// Adds a connection's session to the rows, if it has one.
fn put_session(
    rows: &mut Vec<SessionRow>,
    number: u64,
    connection: &Connection,
) -> Result<(), AllocError>
    ensures { OnOk result (map session_seen rows.new.items ≡ map session_seen rows.old.items
        ++ filter_map kept_row ((number, connection.now) ∷ [])) }
{
    if let Some(name) = connection.login() {
        rows.push(SessionRow { number, name })?;
    }
    Ok(())
}

/// The sessions of the connections that are kept, by number.
fn sessions_of(
    alloc: Global,
    connections: &BTreeMap<u64, Connection>,
) -> Result<Vec<SessionRow>, AllocError>
    ensures rows { IfOk result (λ rows. map session_seen rows.items
        ≡ filter_map kept_row connections.now.entries) }
    ensures ordered { IsOrdered nat_cmp connections.now }
{
    let mut rows = Vec::new(alloc);
    for (number, connection) in connections.iter() {
        put_session(&mut rows, *number, connection)?;
    }
    Ok(rows)
}

impl<V: Vault> Office<V> {
    /// Who is in session on a connection.
    fn login_at(&self, c: u64) -> Option<LoginName>
        ensures { result ≡ name_at (get nat_cmp self.now.connections c) }
    {
        match self.connections.get(&c) {
            None => None,
            Some(connection) => connection.login(),
        }
    }

    /// The sessions, by their connections' numbers.
    pub(crate) fn list_sessions(&mut self) -> Outcome
        ensures after { AfterEvent V.Vault self.old self.new (event.Admin asked.ListSessions)
            (outcome_seen result) }
        ensures unasked { vault_of self.new ≡ vault_of self.old }
    {
        match sessions_of(self.alloc, &self.connections) {
            Ok(rows) => Outcome::Answered(Answer::Sessions(Sessions::new(rows))),
            Err(_) => Outcome::NoMemory,
        }
    }

    /// Ends a connection's session and the connection, with nothing removed, and lets its maildrop
    /// go.
    pub(crate) fn end_session(&mut self, c: u64) -> Outcome
        ensures after { AfterEvent V.Vault self.old self.new (event.Admin (asked.EndSession c))
            (outcome_seen result) }
        ensures unasked { vault_of self.new ≡ vault_of self.old }
    {
        match self.login_at(c) {
            None => Outcome::Answered(Answer::NoSuchSession),
            Some(name) => {
                let _ = self.connections.remove(&c);
                release(&mut self.locks, Some(name.maildrop));
                Outcome::Answered(Answer::Ended)
            }
        }
    }
}
