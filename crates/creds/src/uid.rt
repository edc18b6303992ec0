//! Unique-ids of messages (RFC 1939, 7: UIDL).
use crate::name::Name;
use std::fmt;

/// The unique-id of a message within its maildrop, written as the class, `.` and `k`.
#[derive(Clone, Copy, PartialEq, Eq, Debug)]
pub struct Uid {
    /// The class of the message.
    pub class: Name,
    /// The place of the message, from 1, among the deposits ever accepted of that class in the
    /// maildrop.
    pub k: u64,
}

impl fmt::Display for Uid {
    ghost use Rattle.std.specs.Prelude.{Some};
    ghost use Rattle.creds.specs.Uid.{uid_text};

    ghost output = { λ u. Some (uid_text u) };

    fn fmt<W: fmt::Write>(&self, f: &mut fmt::Formatter<W>) -> fmt::Result {
        let class = self.class;
        let k = self.k;
        write!(f, "{class}.{k}")
    }
}
