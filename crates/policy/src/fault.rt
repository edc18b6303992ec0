//! Why a text is no policy.
ghost use Rattle.std.specs.Prelude.{◌≡◌, Some};
ghost use Rattle.policy.specs.WrittenText.{fault_name, fault_number, fault_text, group_number};

use std::error::Error;
use std::fmt;

/// Why a text is no policy: its first fault, and the number, counted from 1, of the group or the
/// rule that has it.
///
/// It prints as `group N: NAME` or `rule N: NAME`, and as `NAME` alone if no group or rule has
/// the fault.
#[derive(Clone, Copy, PartialEq, Eq)]
pub enum PolicyFault {
    /// The text is no TOML 1.0, or `group` or `rule` isn't an array of nothing but tables.
    NotToml,
    /// A group lacks one of its two keys, or has a third.
    GroupKeys(usize),
    /// The group's name hasn't the form of a name.
    GroupName(usize),
    /// An earlier group has the name.
    GroupDouble(usize),
    /// The members are no array of 1 to 200 names, all different.
    GroupMembers(usize),
    /// A rule lacks one of its six keys.
    MissingKey(usize),
    /// A rule has a seventh key; number 0 says that the text has a top key beside `group` and
    /// `rule`.
    UnknownKey(usize),
    /// The rule's name is no name or is `default`; or its maildrop or class is neither a name nor
    /// `*`; or its clerk is neither a name nor `*` nor `@` with a name.
    BadName(usize),
    /// The clerk is `@` with a name that no group has.
    UnknownGroup(usize),
    /// An earlier rule has the name.
    DoubleName(usize),
    /// The effect is neither `allow` nor `deny`.
    BadEffect(usize),
    /// The actions are no array of at least one of `open`, `read` and `remove`, each at most once.
    BadActions(usize),
    /// The rule lists `open`, and its class isn't `*`.
    OpenWithClass(usize),
    /// There are more than 1,000 rules.
    TooMany,
    /// There are more than 100 groups.
    TooManyGroups,
    /// Memory ran out.
    NoMemory,
}

impl PolicyFault {
    /// The variant's name.
    pub fn name(&self) -> &'static str
        ensures { result.now ≡ fault_name self.now }
    {
        match self {
            PolicyFault::NotToml => "NotToml",
            PolicyFault::GroupKeys(_) => "GroupKeys",
            PolicyFault::GroupName(_) => "GroupName",
            PolicyFault::GroupDouble(_) => "GroupDouble",
            PolicyFault::GroupMembers(_) => "GroupMembers",
            PolicyFault::MissingKey(_) => "MissingKey",
            PolicyFault::UnknownKey(_) => "UnknownKey",
            PolicyFault::BadName(_) => "BadName",
            PolicyFault::UnknownGroup(_) => "UnknownGroup",
            PolicyFault::DoubleName(_) => "DoubleName",
            PolicyFault::BadEffect(_) => "BadEffect",
            PolicyFault::BadActions(_) => "BadActions",
            PolicyFault::OpenWithClass(_) => "OpenWithClass",
            PolicyFault::TooMany => "TooMany",
            PolicyFault::TooManyGroups => "TooManyGroups",
            PolicyFault::NoMemory => "NoMemory",
        }
    }

    /// The number of the rule that has the fault, counted from 1; 0 for an unknown top key; `None`
    /// if no rule has it.
    pub fn rule_number(&self) -> Option<usize>
        ensures { result ≡ fault_number self.now }
    {
        match self {
            PolicyFault::MissingKey(n)
            | PolicyFault::UnknownKey(n)
            | PolicyFault::BadName(n)
            | PolicyFault::UnknownGroup(n)
            | PolicyFault::DoubleName(n)
            | PolicyFault::BadEffect(n)
            | PolicyFault::BadActions(n)
            | PolicyFault::OpenWithClass(n) => Some(*n),
            PolicyFault::NotToml
            | PolicyFault::GroupKeys(_)
            | PolicyFault::GroupName(_)
            | PolicyFault::GroupDouble(_)
            | PolicyFault::GroupMembers(_)
            | PolicyFault::TooMany
            | PolicyFault::TooManyGroups
            | PolicyFault::NoMemory => None,
        }
    }

    /// The number of the group that has the fault, counted from 1; `None` if no group has it.
    pub fn group_number(&self) -> Option<usize>
        ensures { result ≡ group_number self.now }
    {
        match self {
            PolicyFault::GroupKeys(n)
            | PolicyFault::GroupName(n)
            | PolicyFault::GroupDouble(n)
            | PolicyFault::GroupMembers(n) => Some(*n),
            PolicyFault::NotToml
            | PolicyFault::MissingKey(_)
            | PolicyFault::UnknownKey(_)
            | PolicyFault::BadName(_)
            | PolicyFault::UnknownGroup(_)
            | PolicyFault::DoubleName(_)
            | PolicyFault::BadEffect(_)
            | PolicyFault::BadActions(_)
            | PolicyFault::OpenWithClass(_)
            | PolicyFault::TooMany
            | PolicyFault::TooManyGroups
            | PolicyFault::NoMemory => None,
        }
    }
}

impl fmt::Display for PolicyFault {
    ghost output = { λ fault. Some (fault_text fault) };

    fn fmt<W: fmt::Write>(&self, f: &mut fmt::Formatter<W>) -> fmt::Result {
        let name = self.name();
        match (self.group_number(), self.rule_number()) {
            (Some(n), _) => write!(f, "group {n}: {name}"),
            (None, Some(n)) => write!(f, "rule {n}: {name}"),
            (None, None) => f.write_str(name),
        }
    }
}

impl fmt::Debug for PolicyFault {
    fn fmt<W: fmt::Write>(&self, f: &mut fmt::Formatter<W>) -> fmt::Result {
        fmt::Display::fmt(self, f)
    }
}

impl Error for PolicyFault {}
