//! The locks of maildrops: a session holds its maildrop's lock from its login to its end.
ghost use Rattle.std.specs.Prelude.{◌≡◌, ℕ, List, None, OnOk, OnErr};
ghost use Rattle.office.specs.Locks.{Released};
ghost use Rattle.std.specs.BTreeMap.{get};
ghost use Rattle.office.specs.Answered.{name_cmp, LocksFollow};
ghost use Rattle.office.specs.Locks.{Released};

use creds::Name;
use session::Session;
use std::alloc::AllocError;
use std::collections::BTreeMap;

/// The connection that holds each locked maildrop.
pub type Locks = BTreeMap<Name, u64>;

/// Locks the maildrop of a session that begins, if one does. Nothing is locked if memory is
/// refused.
pub fn lock(locks: &mut Locks, number: u64, begun: &Option<Session>) -> Result<(), AllocError>
    ensures ok { OnOk result (LocksFollow number None begun.now locks.old locks.new) }
    ensures err { OnErr result ((d : List ℕ)
        → get name_cmp locks.new d ≡ get name_cmp locks.old d) }
{
    if let Some(session) = begun {
        locks.insert(session.maildrop(), number)?;
    }
    Ok(())
}

/// Lets a maildrop go, if one is held.
pub fn release(locks: &mut Locks, held: Option<Name>)
    ensures { Released held locks.old locks.new }
{
    if let Some(maildrop) = held {
        let _ = locks.remove(&maildrop);
    }
}
