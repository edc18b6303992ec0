//! Which rules never decide, since an earlier one matches whatever they match.
ghost use Rattle.std.specs.Prelude.{◌≡◌, ◌<◌, ◌++◌, Some, IfOk, IfSome, OnOk, length, slice_get};
ghost use Rattle.std.specs.List.{list_all, position};
ghost use Rattle.policy.specs.Policy.{fits, fits_clerk, is_member};
ghost use Rattle.review.specs.Covers.{NeverDecides, covers, covers_actions, covers_clerks};
ghost use Rattle.review.specs.Covers.{covers_members, cover_line, covered_text, covers_pattern};
ghost use Rattle.review.specs.Covers.{first_cover, is_everyone, name_of_rule, rule_words};

use crate::label::put;
use creds::Name;
use policy::{Actions, Clerks, Group, Pattern, Policy, Rule};
use std::alloc::{AllocError, Global};

pub(crate) fn pattern_fits(pattern: &Pattern, name: &Name) -> bool
    ensures { result ≡ fits pattern.now name.now }
{
    match pattern {
        Pattern::Any => true,
        Pattern::Is(wanted) => wanted == name,
    }
}

fn pattern_covers(wide: &Pattern, narrow: &Pattern) -> bool
    ensures { result ≡ covers_pattern wide.now narrow.now }
{
    match narrow {
        Pattern::Any => matches!(wide, Pattern::Any),
        Pattern::Is(name) => pattern_fits(wide, name),
    }
}

fn is_member(groups: &[Group], name: &Name, clerk: &Name) -> bool
    ensures { result ≡ is_member groups.now name.now clerk.now }
{
    groups
        .iter()
        .any(|group| *name == *group.name() && group.has(clerk))
}

fn clerk_fits(groups: &[Group], clerks: &Clerks, clerk: &Name) -> bool
    ensures { result ≡ fits_clerk groups.now clerks.now clerk.now }
{
    match clerks {
        Clerks::Any => true,
        Clerks::Is(wanted) => wanted == clerk,
        Clerks::MembersOf(name) => is_member(groups, name, clerk),
    }
}

fn all_fit(groups: &[Group], wide: &Clerks, names: &[Name]) -> bool
    ensures { result ≡ list_all (fits_clerk groups.now wide.now) names.now }
{
    names.iter().all(|name| clerk_fits(groups, wide, name))
}

fn members_are_covered(groups: &[Group], wide: &Clerks, name: &Name) -> bool
    ensures { result ≡ covers_members groups.now wide.now name.now }
{
    groups.iter().all(|group| *name != *group.name() || all_fit(groups, wide, group.members()))
}

fn is_everyone(clerks: &Clerks) -> bool
    ensures { result ≡ is_everyone clerks.now }
{
    match clerks {
        Clerks::Any => true,
        Clerks::Is(_) | Clerks::MembersOf(_) => false,
    }
}

fn clerks_cover(groups: &[Group], wide: &Clerks, narrow: &Clerks) -> bool
    ensures { result ≡ covers_clerks groups.now wide.now narrow.now }
{
    match narrow {
        Clerks::Any => is_everyone(wide),
        Clerks::Is(name) => clerk_fits(groups, wide, name),
        Clerks::MembersOf(name) => members_are_covered(groups, wide, name),
    }
}

fn actions_cover(wide: Actions, narrow: Actions) -> bool
    ensures { result ≡ covers_actions wide narrow }
{
    (!narrow.open || wide.open) && (!narrow.read || wide.read) && (!narrow.remove || wide.remove)
}

/// Whether the wide rule matches whatever the narrow one matches.
pub(crate) fn rule_covers(groups: &[Group], wide: &Rule, narrow: &Rule) -> bool
    ensures { result ≡ covers groups.now wide.now narrow.now }
{
    actions_cover(wide.actions, narrow.actions)
        && pattern_covers(&wide.maildrop, &narrow.maildrop)
        && pattern_covers(&wide.class, &narrow.class)
        && clerks_cover(groups, &wide.clerk, &narrow.clerk)
}

/// The place of the first of the rules that covers this one.
fn first_covering(groups: &[Group], rules: &[Rule], narrow: &Rule) -> Option<usize>
    ensures { result ≡ position (λ wide. covers groups.now wide narrow.now) rules.now }
{
    rules
        .iter()
        .position(|wide| rule_covers(groups, wide, narrow))
}

/// The place, counted from 0, of the first rule that stands before the one at this place and
/// matches whatever that one matches, so that it never decides: without it every decision is the
/// same. `None` if no single rule does so, or if no rule has the place.
///
/// A rule about a group is matched whole by one about `*`, and by one that has each member of the
/// group among its clerks.
pub fn covering(policy: &Policy, place: usize) -> Option<usize>
    ensures first { result ≡ first_cover policy.now place }
    ensures before { IfSome result (λ by. by < place) }
    ensures never { IfSome result (λ by. NeverDecides policy.now place) }
{
    let rules = policy.rules();
    match rules.get(place) {
        Some(narrow) => first_covering(policy.groups(), &rules[..place], narrow),
        None => None,
    }
}

// ---- the text

fn name_at(rules: &[Rule], place: usize) -> &str
    ensures { result.now ≡ name_of_rule (slice_get rules.now place) }
{
    match rules.get(place) {
        Some(rule) => rule.name.as_str(),
        None => "",
    }
}

#[tactic(auto, unfolding(crate::specs::Covers::rule_words))]
pub(crate) fn put_rule(out: &mut Vec<u8>, rules: &[Rule], place: usize) -> Result<(), AllocError>
    requires { place < length rules.now }
    ensures { OnOk result (out.new.items ≡ out.old.items ++ rule_words rules.now place) }
{
    let number = place + 1;
    let name = name_at(rules, place);
    let words = format!(in *out.allocator(); "rule {number} {name}")?;
    put(out, words.as_bytes())
}

#[tactic(auto, unfolding(crate::specs::Covers::cover_line))]
fn put_line(out: &mut Vec<u8>, rules: &[Rule], place: usize, by: usize) -> Result<(), AllocError>
    requires placed { place < length rules.now }
    requires before { by < place }
    ensures { OnOk result (out.new.items ≡ out.old.items ++ cover_line rules.now place (Some by)) }
{
    put_rule(out, rules, place)?;
    put(out, b" never decides: ")?;
    put_rule(out, rules, by)?;
    put(out, b" matches first\n")
}

#[tactic(auto, unfolding(crate::specs::Covers::cover_line))]
fn put_covered(out: &mut Vec<u8>, policy: &Policy, place: usize) -> Result<(), AllocError>
    requires { place < length policy.now.rules }
    ensures { OnOk result (out.new.items
        ≡ out.old.items ++ cover_line policy.now.rules place (first_cover policy.now place)) }
{
    match covering(policy, place) {
        Some(by) => put_line(out, policy.rules(), place, by),
        None => Ok(()),
    }
}

/// The text of the rules that never decide, since an earlier single rule matches whatever they
/// match: a line for each, in order, with both rules' numbers, counted from 1, and names. An `Err`
/// is want of memory.
pub fn covered(alloc: Global, policy: &Policy) -> Result<Vec<u8>, AllocError>
    ensures { IfOk result (λ text. text.items ≡ covered_text policy.now) }
{
    let mut text = Vec::new(alloc);
    for place in 0..policy.len() {
        put_covered(&mut text, policy, place)?;
    }
    Ok(text)
}
