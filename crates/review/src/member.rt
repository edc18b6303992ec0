//! A clerk, and the groups that the clerk is in.
ghost use Rattle.std.specs.Prelude.{◌≡◌, ◌++◌, IfOk, OnOk, map};
ghost use Rattle.policy.specs.Policy.{has_member};
ghost use Rattle.review.specs.Steps.{fits_member, groups_of, is_among, is_label_of, member_of};
ghost use Rattle.review.specs.Steps.{name_if, names_of_groups};

use crate::label::Label;
use creds::Name;
use policy::{Clerks, Group};
use std::alloc::{AllocError, Global};
use std::marker::Model;

/// A clerk that a review speaks of, and the names of the groups that the clerk is in: asked once,
/// since every rule about a group asks it.
#[derive(Drop)]
pub(crate) struct Member {
    pub(crate) label: Label,
    pub(crate) groups: Vec<Name>,
}

impl Model for Member {
    ghost use Rattle.review.specs.Steps.{Member};

    ghost Value = { Member };

    ghost view = { λ m. record { label = m.label; groups = m.groups.items } };
}

fn add_group(names: &mut Vec<Name>, group: &Group, clerk: &Name) -> Result<(), AllocError>
    ensures { OnOk result (names.new.items
        ≡ names.old.items ++ name_if (has_member group.now clerk.now) group.now.name) }
{
    if group.has(clerk) {
        names.push(*group.name())?;
    }
    Ok(())
}

fn names_of_groups(alloc: Global, groups: &[Group], clerk: &Name) -> Result<Vec<Name>, AllocError>
    ensures { IfOk result (λ names. names.items ≡ names_of_groups groups.now clerk.now) }
{
    let mut names = Vec::new(alloc);
    for group in groups {
        add_group(&mut names, group, clerk)?;
    }
    Ok(names)
}

/// The names of the groups that have the clerk; all others are in none.
fn groups_of(alloc: Global, groups: &[Group], clerk: &Label) -> Result<Vec<Name>, AllocError>
    ensures { IfOk result (λ names. names.items ≡ groups_of groups.now clerk.now) }
{
    match clerk {
        Label::Named(name) => names_of_groups(alloc, groups, name),
        Label::Others => Ok(Vec::new(alloc)),
    }
}

/// The clerk, and which of the groups have the clerk.
pub(crate) fn member_of(
    alloc: Global,
    groups: &[Group],
    clerk: &Label,
) -> Result<Member, AllocError>
    ensures { IfOk result (λ member. member ≡ member_of groups.now clerk.now) }
{
    let names = groups_of(alloc, groups, clerk)?;
    Ok(Member {
        label: *clerk,
        groups: names,
    })
}

/// The clerks, each with the groups that have the clerk.
pub(crate) fn members_of(
    alloc: Global,
    groups: &[Group],
    clerks: &[Label],
) -> Result<Vec<Member>, AllocError>
    ensures { IfOk result (λ members. members.items ≡ map (member_of groups.now) clerks.now) }
{
    let mut members = Vec::new(alloc);
    for clerk in clerks {
        members.push(member_of(alloc, groups, clerk)?)?;
    }
    Ok(members)
}

fn is_label_of(name: &Name, label: &Label) -> bool
    ensures { result ≡ is_label_of name.now label.now }
{
    match label {
        Label::Named(other) => name == other,
        Label::Others => false,
    }
}

fn is_among(name: &Name, names: &[Name]) -> bool
    ensures { result ≡ is_among name.now names.now }
{
    names.iter().any(|other| *name == *other)
}

/// Whether a rule's clerks have this one among them. `*` alone has all others.
pub(crate) fn fits_member(clerks: &Clerks, member: &Member) -> bool
    ensures { result ≡ fits_member clerks.now member.now }
{
    match clerks {
        Clerks::Any => true,
        Clerks::Is(name) => is_label_of(name, &member.label),
        Clerks::MembersOf(name) => is_among(name, &member.groups),
    }
}
