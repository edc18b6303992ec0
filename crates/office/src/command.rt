//! What an administrator asks for.
use creds::{Credential, Name};
use policy::{Action, Policy};

/// A command of an administrator. It has no `Debug`, since it may hold a credential.
#[derive(Drop)]
pub enum AdminCommand {
    /// Each maildrop with how many messages it has and their octets.
    ListMaildrops,
    /// The unique-id and the octets of each message of a maildrop, in order of arrival.
    ShowMaildrop(Name),
    /// Adds a maildrop; at most 1,000 are kept.
    AddMaildrop(Name),
    /// Drops an empty maildrop that no session holds. Its name's deposit ids and counts stay.
    DropMaildrop(Name),
    /// Each clerk with the kind of the credential.
    ListClerks,
    /// Which kind of credential a clerk has.
    ShowClerk(Name),
    /// Puts a clerk's credential, in place of the one that is there; at most 1,000 clerks are kept.
    PutClerk(Name, Credential),
    /// Drops a clerk.
    DropClerk(Name),
    /// The policy in force.
    ShowPolicy,
    /// Sets the policy.
    SetPolicy(Policy),
    /// The groups of the policy in force, each with how many members it has.
    ListGroups,
    /// The sessions, by their connections' numbers.
    ListSessions,
    /// Ends the session of a connection, and the connection with it, as [`crate::Event::Gone`]
    /// does.
    EndSession(u64),
    /// What the policy says of a clerk, a maildrop, a class and an action. The names need not
    /// exist.
    Explain {
        /// The clerk's name.
        clerk: Name,
        /// The maildrop's name.
        maildrop: Name,
        /// The class of a message.
        class: Name,
        /// What the clerk wants to do.
        action: Action,
    },
}
