//! A group of clerks.
ghost use Rattle.std.specs.Prelude.{◌≡◌, IfOk};
ghost use Rattle.policy.specs.Policy.{has_member};

use creds::Name;
use std::alloc::{AllocError, Global};
use std::marker::Model;

/// A named group of clerks, which a rule can name in place of one clerk.
///
/// Its members need not be clerks of the store.
#[derive(Drop)]
pub struct Group {
    name: Name,
    members: Vec<Name>,
}

impl Model for Group {
    ghost use Rattle.policy.specs.Policy.{Group};

    ghost Value = { Group };

    ghost view = { λ g. record { name = g.name; members = g.members.items } };
}

impl Group {
    /// The group of this name with these members.
    pub fn new(name: Name, members: Vec<Name>) -> Group
        ensures { result ≡ record { name = name; members = members.items } }
    {
        Group { name, members }
    }

    /// The name by which rules name the group.
    pub fn name(&self) -> &Name
        ensures { result.now ≡ self.now.name }
    {
        &self.name
    }

    /// The members, in order.
    pub fn members(&self) -> &[Name]
        ensures { result.now ≡ self.now.members }
    {
        self.members.as_slice()
    }

    /// Whether the clerk is a member.
    pub fn has(&self, clerk: &Name) -> bool
        ensures { result ≡ has_member self.now clerk.now }
    {
        self.members.iter().any(|member| *member == *clerk)
    }

    /// A copy in memory of its own, from the members' allocator. An `Err` is want of memory.
    pub fn try_copy(&self) -> Result<Group, AllocError>
        ensures { IfOk result (λ copy. copy ≡ self.now) }
    {
        let mut members = Vec::new(*self.members.allocator());
        members.extend_from_slice(&self.members)?;
        Ok(Group {
            name: self.name,
            members,
        })
    }
}

/// Copies of the groups, in order.
pub(crate) fn copies_of(alloc: Global, groups: &[Group]) -> Result<Vec<Group>, AllocError>
    ensures { IfOk result (λ copies. copies.items ≡ groups.now) }
{
    let mut copies = Vec::new(alloc);
    for group in groups {
        copies.push(group.try_copy()?)?;
    }
    Ok(copies)
}
