//! What a policy speaks of that a store doesn't have.
ghost use Rattle.std.specs.Prelude.{◌≡◌, ◌<◌, ◌++◌, IfOk, OnOk, length, slice_get};
ghost use Rattle.std.specs.List.{flat_map};
ghost use Rattle.review.specs.Names.{is_one_of};
ghost use Rattle.review.specs.Notes.{clerk_note, group_note, has_kept, has_one_of, maildrop_note};
ghost use Rattle.review.specs.Notes.{member_note, missing_words, notes_of_group, notes_of_rule};
ghost use Rattle.review.specs.Notes.{missing_lines, rule_note};
ghost use Rattle.review.specs.Places.{text_at, text_by_rule};

use crate::covers::put_rule;
use crate::label::put;
use crate::names::Kept;
use creds::Name;
use policy::{Clerks, Group, Pattern, Policy, Rule};
use std::alloc::{AllocError, Global};

fn is_one_of(names: &[Name], name: &Name) -> bool
    ensures { result ≡ is_one_of name.now names.now }
{
    names.iter().any(|other| other == name)
}

fn has_one_of(clerks: &[Name], members: &[Name]) -> bool
    ensures { result ≡ has_one_of clerks.now members.now }
{
    members.iter().any(|member| is_one_of(clerks, member))
}

/// Whether a member of the group of this name is one of the clerks.
fn has_kept(clerks: &[Name], groups: &[Group], name: &Name) -> bool
    ensures { result ≡ has_kept clerks.now groups.now name.now }
{
    groups.iter().any(|group| *name == *group.name() && has_one_of(clerks, group.members()))
}

#[tactic(auto, unfolding(crate::specs::Notes::missing_words))]
fn put_missing(out: &mut Vec<u8>, what: &[u8], name: &Name) -> Result<(), AllocError>
    ensures { OnOk result (out.new.items ≡ out.old.items ++ missing_words what.now name.now) }
{
    put(out, b": no ")?;
    put(out, what)?;
    put(out, b" ")?;
    put(out, name.as_bytes())?;
    put(out, b" in the store\n")
}

#[tactic(auto, unfolding(crate::specs::Notes::rule_note))]
fn put_rule_note(
    out: &mut Vec<u8>,
    rules: &[Rule],
    place: usize,
    what: &[u8],
    name: &Name,
) -> Result<(), AllocError>
    requires { place < length rules.now }
    ensures { OnOk result (out.new.items
        ≡ out.old.items ++ rule_note rules.now place what.now name.now) }
{
    put(out, b"note: ")?;
    put_rule(out, rules, place)?;
    put_missing(out, what, name)
}

#[tactic(auto, unfolding(crate::specs::Notes::group_note))]
fn put_group_note(out: &mut Vec<u8>, group: &Name, member: &Name) -> Result<(), AllocError>
    ensures { OnOk result (out.new.items ≡ out.old.items ++ group_note group.now member.now) }
{
    put(out, b"note: group ")?;
    put(out, group.as_bytes())?;
    put_missing(out, b"clerk", member)
}

fn put_clerk_note(
    out: &mut Vec<u8>,
    policy: &Policy,
    kept: &Kept,
    place: usize,
    clerks: &Clerks,
) -> Result<(), AllocError>
    requires { place < length policy.now.rules }
    ensures { OnOk result (out.new.items
        ≡ out.old.items ++ clerk_note policy.now kept.now place clerks.now) }
{
    match clerks {
        Clerks::Any => Ok(()),
        Clerks::Is(name) if is_one_of(&kept.clerks, name) => Ok(()),
        Clerks::Is(name) => put_rule_note(out, policy.rules(), place, b"clerk", name),
        Clerks::MembersOf(name) if has_kept(&kept.clerks, policy.groups(), name) => Ok(()),
        Clerks::MembersOf(name) => {
            put_rule_note(out, policy.rules(), place, b"clerk of group", name)
        }
    }
}

fn put_maildrop_note(
    out: &mut Vec<u8>,
    policy: &Policy,
    kept: &Kept,
    place: usize,
    maildrop: &Pattern,
) -> Result<(), AllocError>
    requires { place < length policy.now.rules }
    ensures { OnOk result (out.new.items
        ≡ out.old.items ++ maildrop_note policy.now kept.now place maildrop.now) }
{
    match maildrop {
        Pattern::Any => Ok(()),
        Pattern::Is(name) if is_one_of(&kept.maildrops, name) => Ok(()),
        Pattern::Is(name) => put_rule_note(out, policy.rules(), place, b"maildrop", name),
    }
}

/// Appends the notes of the rule at a place.
fn put_notes_at(
    out: &mut Vec<u8>,
    policy: &Policy,
    kept: &Kept,
    place: usize,
) -> Result<(), AllocError>
    requires { place < length policy.now.rules }
    ensures { OnOk result (out.new.items
        ≡ out.old.items ++ text_at (notes_of_rule policy.now kept.now) place
        (slice_get policy.now.rules place)) }
{
    let Some(rule) = policy.rules().get(place) else {
        return Ok(());
    };
    put_clerk_note(out, policy, kept, place, &rule.clerk)?;
    put_maildrop_note(out, policy, kept, place, &rule.maildrop)
}

fn put_notes_of_rules(out: &mut Vec<u8>, policy: &Policy, kept: &Kept) -> Result<(), AllocError>
    ensures { OnOk result (out.new.items
        ≡ out.old.items ++ text_by_rule (notes_of_rule policy.now kept.now) policy.now.rules) }
{
    for place in 0..policy.len() {
        put_notes_at(out, policy, kept, place)?;
    }
    Ok(())
}

fn put_member_note(
    out: &mut Vec<u8>,
    clerks: &[Name],
    group: &Name,
    member: &Name,
) -> Result<(), AllocError>
    ensures { OnOk result (out.new.items
        ≡ out.old.items ++ member_note clerks.now group.now member.now) }
{
    if is_one_of(clerks, member) {
        return Ok(());
    }
    put_group_note(out, group, member)
}

fn put_notes_of_members(
    out: &mut Vec<u8>,
    clerks: &[Name],
    group: &Name,
    members: &[Name],
) -> Result<(), AllocError>
    ensures { OnOk result (out.new.items
        ≡ out.old.items ++ flat_map (member_note clerks.now group.now) members.now) }
{
    for member in members {
        put_member_note(out, clerks, group, member)?;
    }
    Ok(())
}

fn put_notes_of_groups(
    out: &mut Vec<u8>,
    clerks: &[Name],
    groups: &[Group],
) -> Result<(), AllocError>
    ensures { OnOk result (out.new.items
        ≡ out.old.items ++ flat_map (notes_of_group clerks.now) groups.now) }
{
    for group in groups {
        put_notes_of_members(out, clerks, group.name(), group.members())?;
    }
    Ok(())
}

/// The text of what the policy speaks of and the store doesn't have: a line for each rule that
/// names such a clerk, such a maildrop, or a group of whose members none is a clerk of the store;
/// then one for each member of a group who isn't one. It is empty if the store has all. An `Err`
/// is want of memory.
pub fn missing(alloc: Global, policy: &Policy, kept: &Kept) -> Result<Vec<u8>, AllocError>
    ensures { IfOk result (λ text. text.items ≡ missing_lines policy.now kept.now) }
{
    let mut text = Vec::new(alloc);
    put_notes_of_rules(&mut text, policy, kept)?;
    put_notes_of_groups(&mut text, &kept.clerks, policy.groups())?;
    Ok(text)
}
