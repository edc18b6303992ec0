//! A rule and its parts.
ghost use Rattle.std.specs.Prelude.{◌≡◌};
ghost use Rattle.policy.specs.PolicyText.{action_of};

use creds::Name;

/// What a clerk asks to do.
#[derive(Clone, Copy, PartialEq, Eq)]
pub enum Action {
    /// To open a maildrop, at login.
    Open,
    /// To read a message.
    Read,
    /// To remove a message.
    Remove,
}

impl Action {
    /// The action that a text names: `open`, `read` or `remove`.
    pub fn read(text: &[u8]) -> Option<Action>
        ensures { result ≡ action_of text.now }
    {
        if text == b"open".as_slice() {
            Some(Action::Open)
        } else if text == b"read".as_slice() {
            Some(Action::Read)
        } else if text == b"remove".as_slice() {
            Some(Action::Remove)
        } else {
            None
        }
    }
}

/// What a rule decides.
#[derive(Clone, Copy, PartialEq, Eq)]
pub enum Effect {
    /// The actions are allowed.
    Allow,
    /// The actions are denied.
    Deny,
}

/// Which maildrops or classes a rule is about.
#[derive(Clone, Copy, PartialEq, Eq, PartialOrd, Ord)]
pub enum Pattern {
    /// All of them, written `*`.
    Any,
    /// The one of this name.
    Is(Name),
}

/// Which clerks a rule is about.
#[derive(Clone, Copy, PartialEq, Eq, PartialOrd, Ord)]
pub enum Clerks {
    /// All of them, written `*`.
    Any,
    /// The one of this name.
    Is(Name),
    /// The members of the policy's group of this name, written `@` and the name.
    MembersOf(Name),
}

/// The actions that a rule lists.
#[derive(Clone, Copy, PartialEq, Eq)]
pub struct Actions {
    /// Whether `open` is listed.
    pub open: bool,
    /// Whether `read` is listed.
    pub read: bool,
    /// Whether `remove` is listed.
    pub remove: bool,
}

/// A rule. It takes no memory of its own: its names hold their texts in place.
#[derive(Clone, Copy, PartialEq, Eq)]
pub struct Rule {
    /// The rule's name, which denials and explanations give.
    pub name: Name,
    /// What it decides.
    pub effect: Effect,
    /// Which clerks it is about.
    pub clerk: Clerks,
    /// Which maildrops it is about.
    pub maildrop: Pattern,
    /// Which classes of messages it is about; `Any` if it lists `open`.
    pub class: Pattern,
    /// The actions that it decides, at least one of them.
    pub actions: Actions,
}
