//! What a QUIT does with the marked messages (RFC 1939, 6).
ghost use Rattle.std.specs.Prelude.{◌≡◌, List, [], ◌∷◌, ◌++◌, OnOk};
ghost use Rattle.creds.specs.declared.login_name.LoginName.{LoginName};
ghost use Rattle.policy.specs.Policy.{Policy};
ghost use Rattle.session.specs.declared.row.Row.{Row};
ghost use Rattle.session.specs.Rows.{login_of, Plans};

use crate::removed::{Removed, RemovedMessage};
use crate::row::{Row, removal};
use creds::{Name, Uid};
use policy::Lane;
use std::alloc::{AllocError, Global};
use vault::MessageKey;

/// What the QUIT of a session does under a policy: the removal, the farewell and the account of it
/// go by these judgements.
#[derive(Drop)]
pub struct QuitPlan {
    /// How many messages are marked.
    pub marked: usize,
    /// The keys of those that the policy lets the clerk remove, in the order of their numbers.
    pub keys: Vec<MessageKey>,
    /// The same messages, each with the rule that allows it.
    pub removed: Removed,
    /// The rule that keeps the lowest numbered of the other marked messages, if there is one.
    pub denied: Option<Name>,
}

impl QuitPlan {
    /// For a session with so many marks, none of them judged. It takes no memory.
    pub(crate) fn new(alloc: Global, marked: usize) -> QuitPlan
        ensures marked { result.marked ≡ marked }
        ensures plans { (p : Policy) (name : LoginName) → Plans p name [] result }
    {
        QuitPlan {
            marked,
            keys: Vec::new(alloc),
            removed: Removed::new(alloc),
            denied: None,
        }
    }

    /// Adds the message of the next row, if it is marked, by the policy's decision on its removal.
    /// An `Err` is want of memory.
    pub(crate) fn add(&mut self, lane: &Lane<'_>, row: &Row) -> Result<(), AllocError>
        ensures marked { OnOk result (self.new.marked ≡ self.old.marked) }
        ensures plans { OnOk result ((rows : List Row)
            → Plans lane.now.policy (login_of lane.now) rows self.old
            → Plans lane.now.policy (login_of lane.now) (rows ++ row.now ∷ []) self.new) }
    {
        if !row.is_marked {
            return Ok(());
        }
        let decision = removal(lane, &row.head.class);
        if !decision.allowed {
            self.denied = self.denied.or(Some(decision.rule));
            return Ok(());
        }
        let uid = Uid {
            class: row.head.class,
            k: row.head.k,
        };
        self.keys.push(row.head.key)?;
        self.removed.push(RemovedMessage {
            uid,
            rule: decision.rule,
        })?;
        Ok(())
    }
}
