//! Where the rules about a clerk's groups and a maildrop begin.
ghost use Rattle.std.specs.Prelude.{◌≡◌, ◌≤◌, List, length, take};
ghost use Rattle.policy.specs.declared.rule.Rule.{Rule};
ghost use Rattle.policy.specs.Index.{IsIndexOf};
ghost use Rattle.policy.specs.Lane.{AreGroupStarts, group_start};

use crate::group::Group;
use crate::index::{Index, first_place};
use crate::policy::MAX_GROUPS;
use crate::rule::{Clerks, Pattern};
use creds::Name;

/// Where the rules about one group begin: the place of the first that names the maildrop, and of
/// the first about all maildrops (`*`).
#[derive(Clone, Copy, Drop)]
pub(crate) struct GroupStart {
    pub(crate) maildrop: usize,
    pub(crate) all: usize,
}

/// A [`GroupStart`] for each of a clerk's groups, in the order of the policy's groups.
#[derive(Drop)]
pub(crate) struct GroupStarts {
    starts: [GroupStart; MAX_GROUPS],
    len: usize,
}

fn group_start(index: &Index, maildrop: &Name, group: &Name) -> GroupStart
    ensures { (rules : List Rule) → IsIndexOf rules index.now
        → result ≡ group_start rules maildrop.now group.now }
{
    let clerks = Clerks::MembersOf(*group);
    GroupStart {
        maildrop: first_place(index, &clerks, &Pattern::Is(*maildrop)),
        all: first_place(index, &clerks, &Pattern::Any),
    }
}

/// Where the rules about the clerk's groups and the maildrop begin. It looks at every member of
/// every group.
pub(crate) fn group_starts_of(
    index: &Index,
    groups: &[Group],
    clerk: &Name,
    maildrop: &Name,
) -> GroupStarts
    requires { length groups.now ≤ 100 }
    ensures { (rules : List Rule) → IsIndexOf rules index.now
        → AreGroupStarts groups.now clerk.now maildrop.now rules result }
{
    let none = GroupStart {
        maildrop: 0,
        all: 0,
    };
    let mut starts = [none; MAX_GROUPS];
    let mut len = 0;
    for group in groups {
        if group.has(clerk) {
            starts[len] = group_start(index, maildrop, group.name());
            len += 1;
        }
    }
    GroupStarts { starts, len }
}

impl GroupStarts {
    /// The starts that are set, one for each of the clerk's groups.
    pub(crate) fn as_slice(&self) -> &[GroupStart]
        requires { self.now.len ≤ length self.now.starts }
        ensures { result.now ≡ take self.now.len self.now.starts }
    {
        &self.starts[..self.len]
    }
}
