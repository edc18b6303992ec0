//! Logins that wait for a lock.
ghost use Rattle.std.specs.Prelude.{◌≡◌, ◌&&◌, not, ℕ, List, Some};
ghost use Rattle.office.specs.Answered.{is_locked_by};
ghost use Rattle.office.specs.Events.{Trace};
ghost use Rattle.office.specs.Idle.{is_idle};
ghost use Rattle.office.specs.Logins.{login_brought};
ghost use Rattle.office.specs.Stands.{StandsFor};
ghost use Rattle.office.specs.Waiting.{waits as waits_at};

use crate::Office;
use crate::connection::Connection;
use crate::locks::Locks;
use creds::LoginName;
use vault::Vault;

/// Whether another session holds the maildrop of a login, and the connection's last line or taking
/// was less than so many seconds ago.
fn may_wait(
    connection: &Connection,
    locks: &Locks,
    login: &LoginName,
    moment: u64,
    seconds: u64,
) -> bool
    ensures { result ≡ (is_locked_by locks.now login.now.maildrop
        && not (is_idle moment seconds connection.now)) }
{
    locks.contains_key(&login.maildrop) && !connection.is_idle(moment, seconds)
}

impl<V: Vault> Office<V> {
    /// Whether a login may wait that the next line of connection `c` brings, because it would find
    /// its maildrop in use: another session holds it, and the connection's last line or taking was
    /// less than so many seconds ago.
    ///
    /// It asks no store, takes no memory and changes nothing; whether the credential is right isn't
    /// looked at.
    pub fn waits(&self, c: u64, login: &LoginName, seconds: u64) -> bool
        ensures { (T : Trace) (piece : List ℕ) → StandsFor V.holds self.now T
            → login_brought T c piece ≡ Some login.now → result ≡ waits_at T c piece seconds }
    {
        match self.connections.get(&c) {
            None => false,
            Some(connection) => may_wait(connection, &self.locks, login, self.moment, seconds),
        }
    }
}
