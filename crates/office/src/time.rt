//! The present moment, and restarts.
ghost use Rattle.std.specs.Prelude.{◌≡◌, ℕ, List};
ghost use Rattle.std.specs.Ordering.{nat_cmp};
ghost use Rattle.std.specs.BTreeMap.{get};
ghost use Rattle.office.specs.Answered.{name_cmp};
ghost use Rattle.office.specs.Idle.{unless_idle, lock_of_kept};
ghost use Rattle.office.specs.Events as event;
ghost use Rattle.office.specs.Seen.{outcome_seen};
ghost use Rattle.office.specs.Stands.{vault_of};
ghost use Rattle.office.specs.AfterEvent.{AfterEvent};

use crate::connection::Connection;
use crate::locks::Locks;
use crate::{Office, Outcome};
use std::collections::BTreeMap;
use vault::Vault;

/// Ends the connections that have done nothing for so many seconds at this moment.
fn end_idle(connections: &mut BTreeMap<u64, Connection>, moment: u64, seconds: u64)
    ensures { (c : ℕ) → get nat_cmp connections.new c
        ≡ unless_idle moment seconds (get nat_cmp connections.old c) }
{
    connections.retain(|_, connection| !connection.is_idle(moment, seconds));
}

/// Lets the maildrop of each ended connection go.
fn release_ended(locks: &mut Locks, connections: &BTreeMap<u64, Connection>)
    ensures { (d : List ℕ) → get name_cmp locks.new d
        ≡ lock_of_kept connections.now (get name_cmp locks.old d) }
{
    locks.retain(|_, number| connections.contains_key(&*number));
}

impl<V: Vault> Office<V> {
    /// Sets the moment, and ends each connection that has done nothing for the idle seconds. It
    /// takes no memory.
    pub(crate) fn tick(&mut self, now: u64) -> Outcome
        ensures after { AfterEvent V.Vault self.old self.new (event.Tick now)
            (outcome_seen result) }
        ensures unasked { vault_of self.new ≡ vault_of self.old }
        ensures done { result ≡ Outcome.Done }
    {
        self.moment = self.moment.max(now);
        end_idle(&mut self.connections, self.moment, self.limits.idle());
        release_ended(&mut self.locks, &self.connections);
        Outcome::Done
    }

    /// Ends every connection, and counts connections from 1 again, under a new boot number. It
    /// takes no memory.
    pub(crate) fn restart(&mut self, boot: u64) -> Outcome
        ensures after { AfterEvent V.Vault self.old self.new (event.Restart boot)
            (outcome_seen result) }
        ensures unasked { vault_of self.new ≡ vault_of self.old }
        ensures done { result ≡ Outcome.Done }
    {
        self.connections.clear();
        self.locks.clear();
        self.opened = 0;
        self.moment = 0;
        self.boot = boot;
        Outcome::Done
    }
}
