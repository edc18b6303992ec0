//! Reading a policy's text: its groups and rules, or its first fault.
ghost use Rattle.std.specs.Prelude.{◌≡◌, ◌≢◌, ◌≤◌, [], length, not, true, false, IfOk, IfErr};
ghost use Rattle.std.specs.Prelude.{MatchOption, Some, None, Ok, Err, codes};
ghost use Rattle.std.specs.Prelude.{option_map, option_and_then, is_some, string_bytes, take, drop};
ghost use Rattle.std.specs.List.{list_all, position};
ghost use Rattle.std.specs.Str.{bytes_eq};
ghost use Rattle.std.specs.BTreeMap.{keys};
ghost use Rattle.toml.specs.Data.{Members, get_member, as_str, as_array, as_table};
ghost use Rattle.toml.specs.View.{view, table_view, items_view};
ghost use Rattle.policy.specs.Policy.{are_known, are_sound_rules, is_sound_policy, is_sound_rule};
ghost use Rattle.policy.specs.Policy.{know_groups};
ghost use Rattle.policy.specs.PolicyText.{clerks_named, clerks_of, has_name, seen, settings_of};
ghost use Rattle.policy.specs.PolicyText.{is_sound_subject, subject_of, decided, rule_of, rules_in};
ghost use Rattle.policy.specs.PolicyText.{rules_of, rule_name_of, pattern_of, effect_of};
ghost use Rattle.policy.specs.PolicyText.{actions_of, actions_of_items, with_action, with_item};
ghost use Rattle.policy.specs.PolicyText.{is_rule_key, is_top_key, are_tables, tables_of};
ghost use Rattle.policy.specs.PolicyText.{tables_at, rule_at, rules_from};
ghost use Rattle.policy.specs.Places.{AreValuesOf, IsStray, LiesInRule, LiesInRules, place_in};
ghost use Rattle.policy.specs.Places.{place_of};

use crate::fault::PolicyFault;
use crate::group::Group;
use crate::place::{Place, PlacedFault};
use crate::policy::{MAX_GROUPS, MAX_RULES};
use crate::read_groups::read_groups;
use crate::rule::{Action, Actions, Clerks, Effect, Pattern, Rule};
use crate::sound::{is_any_pattern, is_known, is_taken};
use creds::Name;
use std::alloc::Global;
use toml::{Table, Value};

/// The six values of a rule's table.
#[derive(Drop)]
struct Settings<'a> {
    name: &'a Value,
    effect: &'a Value,
    clerk: &'a Value,
    maildrop: &'a Value,
    class: &'a Value,
    actions: &'a Value,
}

/// A rule's name, and the clerks, the maildrops and the classes that the rule is about.
#[derive(Drop)]
struct Subject {
    name: Name,
    clerk: Clerks,
    maildrop: Pattern,
    class: Pattern,
}

fn read_rule_name(value: &Value) -> Option<Name>
    ensures { result ≡ rule_name_of (view value.now) }
{
    let text = value.as_str()?;
    if text == "default" {
        return None;
    }
    Name::read(text.as_bytes())
}

fn read_pattern(value: &Value) -> Option<Pattern>
    ensures { result ≡ pattern_of (view value.now) }
{
    let text = value.as_str()?;
    if text == "*" {
        return Some(Pattern::Any);
    }
    Name::read(text.as_bytes()).map(Pattern::Is)
}

/// The text after its first octet, if that is `@`.
fn behind_at(text: &[u8]) -> Option<&[u8]>
    ensures { MatchOption result (bytes_eq (take 1 text.now) (codes "@") ≡ false)
        (λ name. (bytes_eq (take 1 text.now) (codes "@") ≡ true) × (name.now ≡ drop 1 text.now)) }
{
    text.strip_prefix(b"@".as_slice())
}

fn clerks_from(text: &str) -> Option<Clerks>
    ensures { result ≡ clerks_named text.now }
{
    if text == "*" {
        return Some(Clerks::Any);
    }
    match behind_at(text.as_bytes()) {
        Some(name) => Name::read(name).map(Clerks::MembersOf),
        None => Name::read(text.as_bytes()).map(Clerks::Is),
    }
}

fn read_clerks(value: &Value) -> Option<Clerks>
    ensures { result ≡ clerks_of (view value.now) }
{
    clerks_from(value.as_str()?)
}

fn read_effect(value: &Value) -> Option<Effect>
    ensures { result ≡ effect_of (view value.now) }
{
    match value.as_str()? {
        "allow" => Some(Effect::Allow),
        "deny" => Some(Effect::Deny),
        _ => None,
    }
}

fn with_one(actions: Actions, action: Action) -> Option<Actions>
    ensures { result ≡ with_action actions action }
{
    let mut actions = actions;
    match action {
        Action::Open if !actions.open => actions.open = true,
        Action::Read if !actions.read => actions.read = true,
        Action::Remove if !actions.remove => actions.remove = true,
        _ => return None,
    }
    Some(actions)
}

#[tactic(auto, unfolding(crate::specs::PolicyText::is_rule_key))]
fn rule_key(key: &str) -> bool
    ensures { result ≡ is_rule_key key.now }
{
    matches!(
        key,
        "name" | "effect" | "clerk" | "maildrop" | "class" | "actions"
    )
}

fn with_one_item(actions: Actions, item: &Value) -> Option<Actions>
    ensures { result ≡ with_item actions (view item.now) }
{
    with_one(actions, Action::read(item.as_str()?.as_bytes())?)
}

fn read_action_items(items: &[Value]) -> Option<Actions>
    ensures { result ≡ actions_of_items (items_view items.now) }
{
    if items.is_empty() {
        return None;
    }
    let mut actions = Actions {
        open: false,
        read: false,
        remove: false,
    };
    for item in items {
        actions = with_one_item(actions, item)?;
    }
    Some(actions)
}

fn read_actions(value: &Value) -> Option<Actions>
    ensures { result ≡ actions_of (view value.now) }
{
    read_action_items(value.as_array()?)
}

fn other_than_rule_keys(table: &Table) -> Option<usize>
    ensures { result ≡ position (λ k. not (is_rule_key (string_bytes k))) (keys table.now) }
{
    table.keys().position(|key| !rule_key(key.as_str()))
}

/// The place of the first key that no rule has, if there is one.
fn stray_rule_key(table: &Table) -> Option<usize>
    ensures { IsStray is_rule_key (table_view table.now) result }
{
    other_than_rule_keys(table)
}

#[tactic(auto, unfolding(crate::specs::PolicyText::settings_of, crate::specs::Places::in_rule))]
fn read_settings(n: usize, table: &Table) -> Result<Settings<'_>, PlacedFault>
    ensures ok { IfOk result (λ s. settings_of n (table_view table.now) ≡ Ok (seen s)) }
    ensures values { IfOk result (λ s. AreValuesOf (table_view table.now) (seen s)) }
    ensures fault { IfErr result (λ e. settings_of n (table_view table.now) ≡ Err e.fault) }
    ensures place { IfErr result (LiesInRule n (table_view table.now)) }
{
    let missing = PolicyFault::MissingKey(n);
    let name = lookup(table, "name").ok_or(missing.at(Place::Name))?;
    let effect = lookup(table, "effect").ok_or(missing.at(Place::Effect))?;
    let clerk = lookup(table, "clerk").ok_or(missing.at(Place::Clerk))?;
    let maildrop = lookup(table, "maildrop").ok_or(missing.at(Place::Maildrop))?;
    let class = lookup(table, "class").ok_or(missing.at(Place::Class))?;
    let actions = lookup(table, "actions").ok_or(missing.at(Place::Actions))?;
    if let Some(at) = stray_rule_key(table) {
        return Err(PolicyFault::UnknownKey(n).at(Place::Stray(at)));
    }
    Ok(Settings {
        name,
        effect,
        clerk,
        maildrop,
        class,
        actions,
    })
}

#[tactic(auto, unfolding(crate::specs::PolicyText::subject_of, crate::specs::Places::in_rule))]
fn read_subject(
    groups: &[Group],
    n: usize,
    before: &[Rule],
    settings: &Settings<'_>,
) -> Result<Subject, PlacedFault>
    ensures ok { IfOk result (λ s. subject_of groups.now n before.now (seen settings.now) ≡ Ok s) }
    ensures fault { IfErr result (λ e. subject_of groups.now n before.now (seen settings.now)
        ≡ Err e.fault) }
    ensures place { IfErr result (λ e. (ms : Members) → AreValuesOf ms (seen settings.now)
        → LiesInRule n ms e) }
    ensures sound { IfOk result (λ s. is_sound_subject s ≡ true) }
    ensures own_name { IfOk result (λ s. has_name before.now s.name ≡ false) }
    ensures known { IfOk result (λ s. are_known groups.now s.clerk ≡ true) }
{
    let bad = PolicyFault::BadName(n);
    let name = read_rule_name(settings.name).ok_or(bad.at(Place::Name))?;
    let clerk = read_clerks(settings.clerk).ok_or(bad.at(Place::Clerk))?;
    let maildrop = read_pattern(settings.maildrop).ok_or(bad.at(Place::Maildrop))?;
    let class = read_pattern(settings.class).ok_or(bad.at(Place::Class))?;
    if !is_known(groups, &clerk) {
        return Err(PolicyFault::UnknownGroup(n).at(Place::Clerk));
    }
    if is_taken(before, &name) {
        return Err(PolicyFault::DoubleName(n).at(Place::Name));
    }
    Ok(Subject {
        name,
        clerk,
        maildrop,
        class,
    })
}

#[tactic(auto, unfolding(crate::specs::PolicyText::decided, crate::specs::Places::in_rule))]
fn read_decided(n: usize, subject: Subject, settings: &Settings<'_>) -> Result<Rule, PlacedFault>
    ensures ok { IfOk result (λ r. decided n subject (seen settings.now) ≡ Ok r) }
    ensures fault { IfErr result (λ e. decided n subject (seen settings.now) ≡ Err e.fault) }
    ensures place { IfErr result (λ e. (ms : Members) → LiesInRule n ms e) }
    ensures sound { is_sound_subject subject ≡ true → IfOk result (λ r. is_sound_rule r ≡ true) }
    ensures name { IfOk result (λ r. r.name ≡ subject.name) }
    ensures clerk { IfOk result (λ r. r.clerk ≡ subject.clerk) }
{
    let effect = read_effect(settings.effect).ok_or(PolicyFault::BadEffect(n).at(Place::Effect))?;
    let actions = read_actions(settings.actions).ok_or(PolicyFault::BadActions(n).at(
        Place::Actions,
    ))?;
    if actions.open && !is_any_pattern(&subject.class) {
        return Err(PolicyFault::OpenWithClass(n).at(Place::Class));
    }
    Ok(Rule {
        name: subject.name,
        effect,
        clerk: subject.clerk,
        maildrop: subject.maildrop,
        class: subject.class,
        actions,
    })
}

#[tactic(auto, unfolding(crate::specs::PolicyText::rule_of))]
fn read_rule(
    groups: &[Group],
    n: usize,
    before: &[Rule],
    table: &Table,
) -> Result<Rule, PlacedFault>
    ensures ok { IfOk result (λ r. rule_of groups.now n before.now (table_view table.now) ≡ Ok r) }
    ensures fault { IfErr result (λ e. rule_of groups.now n before.now (table_view table.now)
        ≡ Err e.fault) }
    ensures place { IfErr result (LiesInRule n (table_view table.now)) }
    ensures sound { IfOk result (λ r. is_sound_rule r ≡ true) }
    ensures own_name { IfOk result (λ r. has_name before.now r.name ≡ false) }
    ensures known { IfOk result (λ r. are_known groups.now r.clerk ≡ true) }
{
    let settings = read_settings(n, table)?;
    let subject = read_subject(groups, n, before, &settings)?;
    read_decided(n, subject, &settings)
}

fn top_key(key: &str) -> bool
    ensures { result ≡ is_top_key key.now }
{
    matches!(key, "group" | "rule")
}

fn other_than_top_keys(table: &Table) -> Option<usize>
    ensures { result ≡ position (λ k. not (is_top_key (string_bytes k))) (keys table.now) }
{
    table.keys().position(|key| !top_key(key.as_str()))
}

/// The place of the first key that no text has at its top, if there is one.
fn stray_top_key(table: &Table) -> Option<usize>
    ensures { IsStray is_top_key (table_view table.now) result }
{
    other_than_top_keys(table)
}

fn have_tables(values: &[Value]) -> bool
    ensures { result ≡ list_all (λ v. is_some (as_table (view v))) values.now }
{
    values.iter().all(|value| value.is_table())
}

#[tactic(auto, using(crate::proofs::Views::are_tables_view))]
fn are_all_tables(values: &[Value]) -> bool
    ensures { result ≡ are_tables (items_view values.now) }
{
    have_tables(values)
}

fn tables_in(value: &Value) -> Option<&[Value]>
    ensures { option_map (λ v. items_view v.now) result
        ≡ option_and_then tables_of (as_array (view value.now)) }
{
    let values = value.as_array()?;
    if are_all_tables(values) {
        Some(values)
    } else {
        None
    }
}

/// The value at a key of the table.
pub(crate) fn lookup<'a>(table: &'a Table, key: &str) -> Option<&'a Value>
    ensures { option_map (λ v. view v.now) result ≡ get_member key.now (table_view table.now) }
{
    table.get(key)
}

fn read_tables<'a>(table: &'a Table, key: &str) -> Option<&'a [Value]>
    ensures { option_map (λ v. items_view v.now) result
        ≡ tables_at (get_member key.now (table_view table.now)) }
{
    match lookup(table, key) {
        None => Some(&[]),
        Some(value) => tables_in(value),
    }
}

fn read_one(groups: &[Group], n: usize, before: &[Rule], value: &Value) -> Result<Rule, PlacedFault>
    ensures ok { IfOk result (λ r. rule_at groups.now n before.now (view value.now) ≡ Ok r) }
    ensures fault { IfErr result (λ e. rule_at groups.now n before.now (view value.now)
        ≡ Err e.fault) }
    ensures place { (ms : Members) → as_table (view value.now) ≡ Some ms
        → IfErr result (LiesInRule n ms) }
    ensures sound { IfOk result (λ r. is_sound_rule r ≡ true) }
    ensures own_name { IfOk result (λ r. has_name before.now r.name ≡ false) }
    ensures known { IfOk result (λ r. are_known groups.now r.clerk ≡ true) }
{
    match value.as_table() {
        Some(table) => read_rule(groups, n, before, table),
        None => Err(PolicyFault::NotToml.at(Place::Rules)),
    }
}

fn read_rules(alloc: Global, groups: &[Group], values: &[Value]) -> Result<Vec<Rule>, PlacedFault>
    requires { length values.now ≤ 1000 }
    ensures ok { IfOk result (λ v. rules_from groups.now 1 [] (items_view values.now)
        ≡ Ok v.items) }
    ensures fault { IfErr result (λ e. e.fault ≢ PolicyFault.NoMemory
        → rules_from groups.now 1 [] (items_view values.now) ≡ Err e.fault) }
    ensures place { are_tables (items_view values.now) ≡ true
        → IfErr result (λ e. e.fault ≢ PolicyFault.NoMemory
        → LiesInRules (items_view values.now) e) }
    ensures sound { IfOk result (λ v. are_sound_rules v.items ≡ true) }
    ensures known { IfOk result (λ v. know_groups groups.now v.items ≡ true) }
{
    let mut rules = Vec::new(alloc);
    for (i, value) in values.iter().enumerate() {
        let rule = read_one(groups, i + 1, &rules, value)?;
        if rules.push(rule).is_err() {
            return Err(PolicyFault::NoMemory.at(Place::Text));
        }
    }
    Ok(rules)
}

/// The groups and the rules that a text holds.
#[derive(Drop)]
pub(crate) struct Parts {
    pub(crate) groups: Vec<Group>,
    pub(crate) rules: Vec<Rule>,
}

#[tactic(auto, using(crate::proofs::Views::items_len_view), unfolding(crate::specs::PolicyText::rules_in, crate::specs::Places::place_in))]
fn read_table(alloc: Global, table: &Table) -> Result<Parts, PlacedFault>
    ensures ok { IfOk result (λ p. rules_in (table_view table.now)
        ≡ Ok (record { groups = p.groups.items; rules = p.rules.items })) }
    ensures fault { IfErr result (λ e. e.fault ≢ PolicyFault.NoMemory
        → rules_in (table_view table.now) ≡ Err e.fault) }
    ensures place { IfErr result (λ e. e.fault ≢ PolicyFault.NoMemory
        → place_in (table_view table.now) e.fault ≡ e.place) }
    ensures sound { IfOk result (λ p. is_sound_policy
        (record { groups = p.groups.items; rules = p.rules.items }) ≡ true) }
{
    let groups = read_tables(table, "group").ok_or(PolicyFault::NotToml.at(Place::Groups))?;
    let rules = read_tables(table, "rule").ok_or(PolicyFault::NotToml.at(Place::Rules))?;
    if let Some(at) = stray_top_key(table) {
        return Err(PolicyFault::UnknownKey(0).at(Place::Stray(at)));
    }
    if rules.len() > MAX_RULES {
        return Err(PolicyFault::TooMany.at(Place::Rules));
    }
    if groups.len() > MAX_GROUPS {
        return Err(PolicyFault::TooManyGroups.at(Place::Groups));
    }
    let groups = read_groups(alloc, groups)?;
    let rules = read_rules(alloc, &groups, rules)?;
    Ok(Parts { groups, rules })
}

/// The groups and the rules of a text, or its first fault, and where it lies.
#[tactic(auto, unfolding(crate::specs::PolicyText::rules_of, crate::specs::Places::place_of))]
pub(crate) fn read_text(alloc: Global, text: &str) -> Result<Parts, PlacedFault>
    ensures ok { IfOk result (λ p. rules_of text.now
        ≡ Ok (record { groups = p.groups.items; rules = p.rules.items })) }
    ensures fault { IfErr result (λ e. e.fault ≢ PolicyFault.NoMemory
        → rules_of text.now ≡ Err e.fault) }
    ensures place { IfErr result (λ e. e.fault ≢ PolicyFault.NoMemory
        → place_of text.now e.fault ≡ e.place) }
    ensures sound { IfOk result (λ p. is_sound_policy
        (record { groups = p.groups.items; rules = p.rules.items }) ≡ true) }
{
    match toml::table_from_str(alloc, text) {
        Ok(table) => read_table(alloc, &table),
        Err(e) if e.is_memory() => Err(PolicyFault::NoMemory.at(Place::Text)),
        Err(_) => Err(PolicyFault::NotToml.at(Place::Text)),
    }
}
