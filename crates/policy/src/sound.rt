//! Which groups and rules make a policy.
ghost use Rattle.std.specs.Prelude.{◌≡◌};
ghost use Rattle.std.specs.List.{list_all, list_any};
ghost use Rattle.creds.specs.Names.{is_name};
ghost use Rattle.std.specs.Str.{bytes_eq};
ghost use Rattle.policy.specs.Policy.{are_clerks, are_known, are_members, are_sound_groups};
ghost use Rattle.policy.specs.Policy.{has_group, is_any, is_pattern, is_sound_group};
ghost use Rattle.policy.specs.Policy.{is_sound_policy, know_groups, lists_any, is_sound_rule};
ghost use Rattle.policy.specs.Policy.{are_distinct, same_group, same_name, are_sound_rules};
ghost use Rattle.policy.specs.PolicyText.{has_name};
ghost use Rattle.policy.specs.Places.{single_before as singles_of};

use crate::group::Group;
use crate::policy::{MAX_GROUPS, MAX_MEMBERS, MAX_RULES};
use crate::rule::{Actions, Clerks, Pattern, Rule};
use creds::Name;

/// Whether the name has a name's form. Every `Name` has it; the call lets a contract say so.
fn is_formed(name: &Name) -> bool
    ensures { result ≡ is_name name.now }
{
    Name::read(name.as_bytes()).is_some()
}

fn is_formed_pattern(pattern: &Pattern) -> bool
    ensures { result ≡ is_pattern pattern.now }
{
    match pattern {
        Pattern::Any => true,
        Pattern::Is(name) => is_formed(name),
    }
}

fn are_formed_clerks(clerks: &Clerks) -> bool
    ensures { result ≡ are_clerks clerks.now }
{
    match clerks {
        Clerks::Any => true,
        Clerks::Is(name) | Clerks::MembersOf(name) => is_formed(name),
    }
}

/// Whether the pattern is `*`.
pub(crate) fn is_any_pattern(pattern: &Pattern) -> bool
    ensures { result ≡ is_any pattern.now }
{
    match pattern {
        Pattern::Any => true,
        Pattern::Is(_) => false,
    }
}

fn list_some(actions: Actions) -> bool
    ensures { result ≡ lists_any actions }
{
    actions.open || actions.read || actions.remove
}

fn rule_is_sound(rule: &Rule) -> bool
    ensures { result ≡ is_sound_rule rule.now }
{
    is_formed(&rule.name)
        && rule.name.as_bytes() != b"default".as_slice()
        && are_formed_clerks(&rule.clerk)
        && is_formed_pattern(&rule.maildrop)
        && is_formed_pattern(&rule.class)
        && list_some(rule.actions)
        && (!rule.actions.open || is_any_pattern(&rule.class))
}

fn each_is_sound(rules: &[Rule]) -> bool
    ensures { result ≡ list_all is_sound_rule rules.now }
{
    rules.iter().all(|rule| rule_is_sound(rule))
}

/// Whether one of the rules has the name.
pub(crate) fn is_taken(rules: &[Rule], name: &Name) -> bool
    ensures { result ≡ has_name rules.now name.now }
{
    rules.iter().any(|rule| rule.name == *name)
}

fn is_taken_later(rule: &Rule, rules: &[Rule]) -> bool
    ensures { result ≡ list_any (same_name rule.now) rules.now }
{
    rules.iter().any(|later| rule.name == later.name)
}

fn have_own_names(rules: &[Rule]) -> bool
    ensures { result ≡ are_distinct same_name rules.now }
{
    for (i, rule) in rules.iter().enumerate() {
        if is_taken_later(rule, &rules[i + 1..]) {
            return false;
        }
    }
    true
}

fn are_sound_in_order(rules: &[Rule]) -> bool
    ensures { result ≡ are_sound_rules rules.now }
{
    each_is_sound(rules) && have_own_names(rules) && rules.len() <= MAX_RULES
}

// ---- groups

fn are_formed(names: &[Name]) -> bool
    ensures { result ≡ list_all is_name names.now }
{
    names.iter().all(|name| is_formed(name))
}

fn is_among(name: &Name, names: &[Name]) -> bool
    ensures { result ≡ list_any (bytes_eq name.now) names.now }
{
    names.iter().any(|other| *name == *other)
}

fn are_apart(names: &[Name]) -> bool
    ensures { result ≡ are_distinct bytes_eq names.now }
{
    for (i, name) in names.iter().enumerate() {
        if is_among(name, &names[i + 1..]) {
            return false;
        }
    }
    true
}

/// How many names stand before the first that stands again.
pub(crate) fn single_before(names: &[Name]) -> usize
    ensures { result ≡ singles_of names.now }
{
    for (i, name) in names.iter().enumerate() {
        if is_among(name, &names[i + 1..]) {
            return i;
        }
    }
    names.len()
}

/// Whether the names can be a group's members: 1 to 200 of them, all different.
pub(crate) fn make_members(names: &[Name]) -> bool
    ensures { result ≡ are_members names.now }
{
    !names.is_empty() && names.len() <= MAX_MEMBERS && are_apart(names)
}

fn group_is_sound(group: &Group) -> bool
    ensures { result ≡ is_sound_group group.now }
{
    is_formed(group.name()) && are_formed(group.members()) && make_members(group.members())
}

fn each_group_is_sound(groups: &[Group]) -> bool
    ensures { result ≡ list_all is_sound_group groups.now }
{
    groups.iter().all(|group| group_is_sound(group))
}

/// Whether one of the groups has the name.
pub(crate) fn is_group(groups: &[Group], name: &Name) -> bool
    ensures { result ≡ has_group groups.now name.now }
{
    groups.iter().any(|group| *group.name() == *name)
}

fn is_group_later(group: &Group, groups: &[Group]) -> bool
    ensures { result ≡ list_any (same_group group.now) groups.now }
{
    groups.iter().any(|later| *group.name() == *later.name())
}

fn have_own_group_names(groups: &[Group]) -> bool
    ensures { result ≡ are_distinct same_group groups.now }
{
    for (i, group) in groups.iter().enumerate() {
        if is_group_later(group, &groups[i + 1..]) {
            return false;
        }
    }
    true
}

fn are_groups(groups: &[Group]) -> bool
    ensures { result ≡ are_sound_groups groups.now }
{
    each_group_is_sound(groups) && have_own_group_names(groups) && groups.len() <= MAX_GROUPS
}

/// Whether the clerks name no group, or one of these.
pub(crate) fn is_known(groups: &[Group], clerks: &Clerks) -> bool
    ensures { result ≡ are_known groups.now clerks.now }
{
    match clerks {
        Clerks::Any | Clerks::Is(_) => true,
        Clerks::MembersOf(name) => is_group(groups, name),
    }
}

fn all_are_known(groups: &[Group], rules: &[Rule]) -> bool
    ensures { result ≡ know_groups groups.now rules.now }
{
    rules.iter().all(|rule| is_known(groups, &rule.clerk))
}

/// Whether the groups and the rules, in this order, make a policy.
pub(crate) fn are_sound(groups: &[Group], rules: &[Rule]) -> bool
    ensures { result ≡ is_sound_policy (record { groups = groups.now; rules = rules.now }) }
{
    are_groups(groups) && are_sound_in_order(rules) && all_are_known(groups, rules)
}
