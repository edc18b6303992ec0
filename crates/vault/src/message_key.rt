//! The keys by which messages are found.
ghost use Rattle.std.specs.Prelude.{◌≡◌};

use std::marker::Model;

/// A message's key. No other message has it while the message is there. Contracts see its number.
#[derive(Clone, Copy, PartialEq, Eq)]
pub struct MessageKey {
    number: u64,
}

impl Model for MessageKey {
    ghost use Rattle.std.specs.Prelude.{ℕ};

    ghost Value = { ℕ };

    ghost view = { λ k. k.number };

    ghost inverse = { λ n. record { number = n } };
}

impl MessageKey {
    /// The key of this number.
    pub fn new(number: u64) -> MessageKey
        ensures { result ≡ number }
    {
        MessageKey { number }
    }

    /// The number of the key.
    pub fn number(&self) -> u64
        ensures { result ≡ self.now }
    {
        self.number
    }
}
