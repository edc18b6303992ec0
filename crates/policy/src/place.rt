//! Where in a policy's text its first fault lies.
ghost use Rattle.std.specs.Prelude.{◌≡◌};

use crate::fault::PolicyFault;

/// Where in a policy's text its first fault lies: a key of the group or the rule that the fault
/// numbers, or what a variant says. Items and keys are counted from 0.
#[derive(Clone, Copy, PartialEq, Eq)]
pub enum Place {
    /// The text as a whole, which is no TOML 1.0.
    Text,
    /// The array `group`.
    Groups,
    /// The array `rule`.
    Rules,
    /// The key of this place in its table, which may not have it: a group, a rule, or the table of
    /// top keys.
    Stray(usize),
    /// `name`, of a group or a rule.
    Name,
    /// `members`, of a group.
    Members,
    /// The item of this place in `members`, which is no name.
    Member(usize),
    /// The item of this place in `members`, which stands there again.
    Again(usize),
    /// `effect`, of a rule.
    Effect,
    /// `clerk`, of a rule.
    Clerk,
    /// `maildrop`, of a rule.
    Maildrop,
    /// `class`, of a rule.
    Class,
    /// `actions`, of a rule.
    Actions,
}

/// The first fault of a policy's text, and where it lies.
#[derive(Clone, Copy, PartialEq, Eq)]
pub struct PlacedFault {
    /// The fault.
    pub fault: PolicyFault,
    /// Where it lies; of `NoMemory` it says nothing.
    pub place: Place,
}

impl PolicyFault {
    /// The fault, at this place.
    pub(crate) fn at(self, place: Place) -> PlacedFault
        ensures { result ≡ record { fault = self; place = place } }
    {
        PlacedFault { fault: self, place }
    }
}
