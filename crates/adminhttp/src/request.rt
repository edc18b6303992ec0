//! Requests: the command that the octets of one give, or why there is none.

use crate::refusal::Refusal;
use office::AdminCommand;
use policy::PolicyFault;

/// A request of an administrator, HTTP/1.0 or HTTP/1.1 (RFC 9112): the first on a connection, and
/// the only one.
#[derive(Clone, Copy, Debug)]
pub struct Request;

/// What the octets of a request that have come so far give.
#[derive(Drop)]
pub enum Got {
    /// More octets are to come.
    More,
    /// The request is refused; if several causes hold, for the first in order.
    Bad(Refusal),
    /// The body of PUT on the policy is no policy, for this cause (never want of memory).
    BadPolicy(PolicyFault),
    /// The request is whole, and gives this command.
    Command(AdminCommand),
    /// Memory ran out.
    NoMemory,
}

mod read;
