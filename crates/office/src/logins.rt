//! Questions about logins: whether a connection is logged in, and how many credentials it had
//! refused.
ghost use Rattle.std.specs.Prelude.{◌≡◌};
ghost use Rattle.office.specs.Events.{Trace};
ghost use Rattle.office.specs.Trace.{history};
ghost use Rattle.office.specs.Sessions.{live};
ghost use Rattle.office.specs.Stands.{StandsFor};
ghost use Rattle.office.specs.Logins.{refusals as refusals_at};

use crate::Office;
use vault::Vault;

impl<V: Vault> Office<V> {
    /// Whether connection `c` is logged in: it is open, a PASS or an APOP of it was accepted, and
    /// its session lives (POP3's TRANSACTION state).
    ///
    /// It asks no store, takes no memory and changes nothing.
    pub fn is_logged_in(&self, c: u64) -> bool
        ensures { (T : Trace) → StandsFor V.holds self.now T → result ≡ live (history T) c }
    {
        match self.connections.get(&c) {
            None => false,
            Some(connection) => connection.is_in_session(),
        }
    }

    /// How many credentials connection `c` had refused since it opened; 0 if it isn't open. The
    /// third refusal closes the connection, which stays open, and has 3 here, until the reply to it
    /// is taken.
    ///
    /// It asks no store, takes no memory and changes nothing.
    pub fn refusals(&self, c: u64) -> u8
        ensures { (T : Trace) → StandsFor V.holds self.now T → result ≡ refusals_at T c }
    {
        match self.connections.get(&c) {
            None => 0,
            Some(connection) => connection.refusals(),
        }
    }
}
