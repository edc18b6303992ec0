//! What the target of a request names.

use creds::Name;
use policy::Action;

/// What the target of a request names.
#[derive(Clone, Copy)]
pub enum Target {
    /// The maildrops.
    Maildrops,
    /// A maildrop.
    Maildrop(Name),
    /// The clerks.
    Clerks,
    /// A clerk.
    Clerk(Name),
    /// The policy.
    Policy,
    /// The policy's groups.
    Groups,
    /// The sessions.
    Sessions,
    /// The session of the connection of this number.
    Session(u64),
    /// What the policy says of a clerk, a maildrop, a class and an action.
    Explain {
        /// The clerk's name.
        clerk: Name,
        /// The maildrop's name.
        maildrop: Name,
        /// The class of a message.
        class: Name,
        /// What the clerk wants to do.
        action: Action,
    },
}

mod read;

pub use read::read_target;
