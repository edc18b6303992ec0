//! What a reference to a message gives.
use creds::Name;
use vault::Head;

/// A message that the clerk may read.
#[derive(Clone, Copy)]
pub struct Readable {
    pub head: Head,
    /// The rule that lets the clerk read it.
    pub rule: Name,
}

/// Why a reference to a message number is refused.
#[derive(Clone, Copy, PartialEq, Eq, Debug)]
pub enum Pick {
    /// No message of the view has the number.
    NoSuch,
    /// The message is marked as deleted.
    Deleted,
    /// The policy denies the reading or the removal, by the rule of this name, or by `default`
    /// if none matches.
    Denied(Name),
}
