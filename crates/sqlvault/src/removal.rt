//! A removal in parts, in one open transaction.
ghost use Rattle.std.specs.Prelude.{◌≡◌, ℕ, List, Some, None, Ok, IsTrue, IfSome, OnOk, bytes_eq};
ghost use Rattle.vault.specs.Changes.{is_named};
ghost use Rattle.vault.specs.Calls.{AreRemoved, IsAnswer};
ghost use Rattle.sqlvault.specs.Frame.{IsMet};
ghost use Rattle.sqlvault.specs.Refusals.{answer_of};
ghost use Rattle.sqlvault.specs.Removals.{removal_of};
ghost use Rattle.sqlvault.specs.declared.work.Work.TheVariants as works;
ghost use Rattle.sqlvault.specs.UnderWay.{Prepares, Finishes, under_way};

use crate::mail::remove_all;
use crate::refusal::Refusal;
use crate::transaction::{begin, conclude, undo};
use creds::Name;
use sqlite::{Alter, Connection};
use std::alloc::Global;
use std::marker::Model;
use vault::MessageKey;

/// How many messages are removed at once.
pub(crate) const PIECE: usize = 128;

/// A removal that is under way. Messages are removed from the last key to the first.
#[derive(Drop)]
pub(crate) struct Removing {
    maildrop: Name,
    keys: Vec<MessageKey>,
    /// How many keys, from the front on, are left to be done.
    left: usize,
}

impl Model for Removing {
    ghost use Rattle.std.specs.Prelude.{◌≤◌, length};
    ghost use Rattle.sqlvault.specs.Removals.{Removal};

    ghost Value = { Removal };

    ghost view = { λ r. record { maildrop = r.maildrop; keys = r.keys.items; left = r.left } };

    ghost invariant = { λ r. r.left ≤ length r.keys.items };
}

impl Removing {
    /// A removal of which nothing is done; `None` if memory runs out.
    pub(crate) fn new(alloc: Global, maildrop: &Name, keys: &[MessageKey]) -> Option<Removing>
        ensures { IfSome result (λ r. r ≡ removal_of maildrop.now keys.now) }
    {
        let Ok(copy) = Vec::from_slice(alloc, keys) else {
            return None;
        };
        Some(Removing {
            maildrop: *maildrop,
            left: copy.len(),
            keys: copy,
        })
    }

    /// Whether it is the removal of these messages.
    pub(crate) fn is_of(&self, maildrop: &Name, keys: &[MessageKey]) -> bool
        ensures { IsTrue result
            → (self.now.maildrop ≡ maildrop.now) × (self.now.keys ≡ keys.now) }
    {
        self.maildrop == *maildrop && self.keys.as_slice() == keys
    }

    /// Whether it is one from this maildrop.
    pub(crate) fn is_in(&self, maildrop: &Name) -> bool
        ensures { result ≡ bytes_eq self.now.maildrop maildrop.now }
    {
        self.maildrop == *maildrop
    }

    /// Whether it names this message.
    pub(crate) fn names(&self, key: MessageKey) -> bool
        ensures { result ≡ is_named self.now.keys key }
    {
        self.keys.iter().any(|named| *named == key)
    }

    /// How many messages it names.
    pub(crate) fn len(&self) -> u64 {
        self.keys.len() as u64
    }

    /// Whether all is done but the commit.
    pub(crate) fn is_done(&self) -> bool {
        self.left == 0
    }
}

/// Begins a transaction, in which nothing is removed yet.
///
/// Answers the error that a statement met.
pub(crate) fn begin_removal<S: Alter>(conn: &mut Connection<S>) -> Result<(), Refusal>
    ensures prepares { (d keys : List ℕ) → Prepares S.Store conn.old conn.new None
        (under_way result (works.Removal (removal_of d keys))) (IsMet result) }
    ensures answer { IsAnswer (Ok tt) (answer_of result) }
{
    Ok(begin(conn)?)
}

/// Removes some more messages, [`PIECE`] at most, in the open transaction.
///
/// Answers the error that a statement met; the transaction is then gone, and nothing is removed.
pub(crate) fn remove_piece<S: Alter>(
    conn: &mut Connection<S>,
    removing: &mut Removing,
) -> Result<(), Refusal>
    ensures prepares { Prepares S.Store conn.old conn.new (Some (works.Removal removing.old))
        (under_way result (works.Removal removing.new)) (IsMet result) }
    ensures same { OnOk result ((removing.new.maildrop ≡ removing.old.maildrop)
        × (removing.new.keys ≡ removing.old.keys)) }
    ensures answer { IsAnswer (Ok tt) (answer_of result) }
{
    let from = removing.left.saturating_sub(PIECE);
    match remove_all(
        conn,
        &removing.maildrop,
        &removing.keys[from..removing.left],
    ) {
        Ok(()) => {}
        Err(error) => return Err(Refusal::Met(undo(conn, error))),
    }
    removing.left = from;
    Ok(())
}

/// Removes the messages that are left, and commits the removal.
///
/// Answers the error that a statement met; nothing is then removed.
pub(crate) fn finish_removal<S: Alter>(
    conn: &mut Connection<S>,
    removing: &Removing,
) -> Result<(), Refusal>
    ensures { Finishes S.Store conn.old conn.new (works.Removal removing.now)
        (λ c Held answered. AreRemoved Held c removing.now.maildrop removing.now.keys answered)
        (answer_of result) }
{
    let removed = remove_all(conn, &removing.maildrop, &removing.keys[..removing.left]);
    conclude(conn, removed)
}
