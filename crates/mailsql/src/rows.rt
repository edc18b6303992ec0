//! The rows of the store's tables, as the tables' columns hold them: texts and blobs as octets,
//! numbers as signed 64-bit integers. They have no `Debug`, since they hold mail and secrets.

use sqlite_value::value::Bytes;

/// A row of `meta`: the one named `popbox` holds the version of the layout.
#[derive(Drop)]
pub struct MetaRow {
    pub name: Bytes,
    pub value: i64,
}

/// A row of `clerks`. The kind is 1 for an APOP secret and 2 for the digest of a password.
#[derive(Drop)]
pub struct Clerk {
    pub name: Bytes,
    pub kind: i64,
    pub secret: Bytes,
}

/// A row of `counts`: the greatest number that a message of the class got in the maildrop.
#[derive(Drop)]
pub struct Count {
    pub maildrop: Bytes,
    pub class: Bytes,
    pub k: i64,
}

/// A row of `deposits`: a deposit that was ever accepted. `k` is its number in its class, `digest`
/// the SHA-256 of its text.
#[derive(Drop)]
pub struct Deposit {
    pub maildrop: Bytes,
    pub id: Bytes,
    pub class: Bytes,
    pub k: i64,
    pub digest: Bytes,
}

/// A row of `mail`: a message that is present, without its sheets. `octets` is its length in
/// octets.
#[derive(Drop)]
pub struct Message {
    pub key: i64,
    pub maildrop: Bytes,
    pub class: Bytes,
    pub k: i64,
    pub octets: i64,
}

/// A row of `sheets`: a sheet of the message whose key is `mail`, at `place`, counted from 0.
#[derive(Drop)]
pub struct Sheet {
    pub mail: i64,
    pub place: i64,
    pub octets: Bytes,
}

/// A row of `rules`. The effect is 1 for allow and 0 for deny; the actions are the sum of 1 for
/// open, 2 for read and 4 for remove.
#[derive(Drop)]
pub struct Rule {
    pub place: i64,
    pub name: Bytes,
    pub effect: i64,
    pub clerk: Bytes,
    pub maildrop: Bytes,
    pub class: Bytes,
    pub actions: i64,
}

/// A row of `groups`: a group of clerks that the policy names. Groups are in the order of their
/// places.
#[derive(Drop)]
pub struct Group {
    pub place: i64,
    pub name: Bytes,
}

/// A row of `members`: a clerk's name in a group. `group` is the group's place; a group's members
/// are in the order of their own places.
#[derive(Drop)]
pub struct Member {
    pub group: i64,
    pub place: i64,
    pub clerk: Bytes,
}

/// A row of `messages`, the table of version 1: a message that is present, with its octets.
#[derive(Drop)]
pub struct Body {
    pub head: Message,
    pub body: Bytes,
}
