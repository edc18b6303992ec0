//! What the calls of a vault answer.
use crate::message_key::MessageKey;
use creds::{Name, Uid};

/// The answer to a deposit that wasn't refused.
#[derive(Clone, Copy, PartialEq, Eq)]
pub enum Deposited {
    /// The message was put into the maildrop and got this unique-id.
    New(Uid),
    /// The deposit id was used before, for the same class and text, and that message got this
    /// unique-id. Nothing was changed.
    Known(Uid),
}

/// A message as a login sees it.
#[derive(Clone, Copy, PartialEq, Eq)]
pub struct Head {
    /// The key by which its pages are read and by which it is removed.
    pub key: MessageKey,
    /// Its class.
    pub class: Name,
    /// Its number among the deposits of its class ever accepted in the maildrop, counted from 1.
    pub k: u64,
    /// The octets of its kept form (RFC 1939, section 11).
    pub octets: u64,
}

/// A maildrop, and how much lies in it.
#[derive(Clone, Copy, PartialEq, Eq)]
pub struct Total {
    /// The maildrop's name.
    pub maildrop: Name,
    /// How many messages it has.
    pub messages: u64,
    /// The sum of their octets.
    pub octets: u64,
}

/// How far a removal or a deposit is prepared.
#[derive(Clone, Copy, PartialEq, Eq, Debug)]
pub enum Progress {
    /// More of it can be prepared.
    More,
    /// No more of it can be prepared.
    Ready,
}

/// The two kinds of a clerk's credential.
#[derive(Clone, Copy, PartialEq, Eq, Debug)]
pub enum CredentialKind {
    /// A secret for APOP (RFC 1939, section 7).
    Apop,
    /// A password for USER and PASS (RFC 1939, section 7), of which a digest is kept.
    Pass,
}

/// A clerk, and the kind of the credential.
#[derive(Clone, Copy, PartialEq, Eq)]
pub struct ClerkKind {
    /// The clerk's name.
    pub clerk: Name,
    /// The kind of the clerk's credential.
    pub kind: CredentialKind,
}
