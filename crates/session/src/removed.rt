//! What a QUIT removes, by the rules that allow it.
ghost use Rattle.std.specs.Prelude.{◌≡◌, [], ◌∷◌, ◌++◌, length, slice_get, OnOk};

use creds::{Name, Uid};
use std::alloc::{AllocError, Global};
use std::marker::Model;

/// A message that a QUIT removes.
#[derive(Clone, Copy)]
pub struct RemovedMessage {
    /// Its unique-id.
    pub uid: Uid,
    /// The rule that lets the clerk remove it.
    pub rule: Name,
}

/// The messages that the QUIT of a session removes, in the order of their numbers.
#[derive(Drop)]
pub struct Removed {
    messages: Vec<RemovedMessage>,
}

impl Model for Removed {
    ghost use Rattle.std.specs.Prelude.{List};
    ghost use Rattle.session.specs.declared.removed.RemovedMessage.{RemovedMessage};

    ghost Value = { List RemovedMessage };

    ghost view = { λ r. r.messages.items };
}

impl Removed {
    /// No messages.
    pub(crate) fn new(alloc: Global) -> Removed
        ensures { result ≡ [] }
    {
        Removed {
            messages: Vec::new(alloc),
        }
    }

    /// Appends a message.
    pub(crate) fn push(&mut self, message: RemovedMessage) -> Result<(), AllocError>
        ensures { OnOk result (self.new ≡ self.old ++ message ∷ []) }
    {
        self.messages.push(message)?;
        Ok(())
    }

    /// How many messages they are.
    pub fn len(&self) -> usize
        ensures { result ≡ length self.now }
    {
        self.messages.len()
    }

    /// The message at a place, counted from 0.
    pub fn get(&self, place: usize) -> Option<RemovedMessage>
        ensures { result ≡ slice_get self.now place }
    {
        self.messages.get(place).copied()
    }
}
