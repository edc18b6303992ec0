//! The records that a vault keeps.
use crate::message_key::MessageKey;
use crate::sheets::SheetText;
use creds::{Credential, DepositId, Name};

/// A clerk, with a credential of one kind. It has no `Debug`, as the credential has none.
#[derive(Clone, Copy, PartialEq, Eq)]
pub struct Clerk {
    /// The clerk's name.
    pub name: Name,
    /// The clerk's credential.
    pub credential: Credential,
}

/// A message in its maildrop.
#[derive(Drop)]
pub struct Message {
    /// The maildrop's name.
    pub maildrop: Name,
    /// Its class.
    pub class: Name,
    /// Its number among the deposits of its class ever accepted in the maildrop, counted from 1.
    pub k: u64,
    /// Its text, in the kept form.
    pub text: SheetText,
}

/// A message under its key.
#[derive(Drop)]
pub struct Keyed {
    /// The key. No other message has it while this one is there.
    pub key: MessageKey,
    /// The message.
    pub message: Message,
}

/// A deposit that was ever accepted. It outlives its message and its maildrop.
#[derive(Clone, Copy, PartialEq, Eq)]
pub struct Receipt {
    /// The maildrop's name.
    pub maildrop: Name,
    /// The deposit id, which brings at most one message into a maildrop's name.
    pub id: DepositId,
    /// The class of the message.
    pub class: Name,
    /// Its number among the deposits of its class in the maildrop's name, counted from 1.
    pub k: u64,
    /// SHA-256 (FIPS 180-4) of the kept form.
    pub digest: [u8; 32],
}
