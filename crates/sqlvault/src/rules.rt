//! The policy, read from its rows and written to them.
ghost use Rattle.std.specs.Prelude.{◌≡◌, true, false, codes, take, drop, pos, List, [], ◌∷◌, map};
ghost use Rattle.std.specs.Prelude.{Some, MatchOption, IsTrue, OnOk, IfOk, IfSome, IsSomeAnd};
ghost use Rattle.std.specs.List.{list_all};
ghost use Rattle.std.specs.Str.{bytes_eq};
ghost use Rattle.sqlite.specs.Held.{state};
ghost use Rattle.sqlite.specs.State.{HasCleanDisk};
ghost use Rattle.policy.specs.declared.rule.Actions as actions;
ghost use Rattle.policy.specs.declared.rule.Pattern as pattern;
ghost use Rattle.policy.specs.declared.rule.Rule as rule;
ghost use Rattle.policy.specs.Policy.{Policy, is_pattern, is_sound_rule, is_sound_policy};
ghost use Rattle.policy.specs.PolicyText.{clerks_named};
ghost use Rattle.vault.specs.Changes.{Contents};
ghost use Rattle.vault.specs.Calls.{IsPolicy, IsPolicySet};
ghost use Rattle.sqlvault.specs.Keeps.{clerks_text, pattern_text, effect_number, actions_number};
ghost use Rattle.sqlvault.specs.Keeps.{rule_row, at_place};
ghost use Rattle.sqlvault.specs.Rules.{AddsRules, SetsRules, SetsPolicy};
ghost use Rattle.sqlvault.specs.Refusals.{answer_of};
ghost use Rattle.sqlvault.specs.Frame.{IsMet, Looks, Acts, Writes};
ghost use Rattle.sqlvault.specs.Stands.{Holds};

use crate::groups::{read_groups, replace_groups};
use crate::refusal::{Refusal, unreadable};
use crate::transaction::{begin, conclude};
use creds::Name;
use mailsql::{rows, rules};
use policy::{Actions, Clerks, Effect, Group, Pattern, Policy, Rule};
use sqlite::{Alter, Connection, Error};
use std::alloc::{AllocError, Global};

fn pattern_text(pattern: &Pattern) -> &[u8]
    ensures { result.now ≡ pattern_text pattern.now }
{
    match pattern {
        Pattern::Any => b"*",
        Pattern::Is(name) => name.as_bytes(),
    }
}

/// The text of the clerks that a rule is about: `*`, a clerk's name, or `@` and a group's name.
fn clerks_text(alloc: Global, clerks: &Clerks) -> Result<Vec<u8>, AllocError>
    ensures { IfOk result (λ text. text.items ≡ clerks_text clerks.now) }
{
    let mut text = Vec::new(alloc);
    match clerks {
        Clerks::Any => text.extend_from_slice(b"*")?,
        Clerks::Is(name) => text.extend_from_slice(name.as_bytes())?,
        Clerks::MembersOf(name) => {
            text.extend_from_slice(b"@")?;
            text.extend_from_slice(name.as_bytes())?;
        }
    }
    Ok(text)
}

fn effect_number(effect: Effect) -> i64
    ensures { result ≡ effect_number effect }
{
    match effect {
        Effect::Allow => 1,
        Effect::Deny => 0,
    }
}

fn actions_number(actions: Actions) -> i64
    ensures { result ≡ actions_number actions }
{
    let open = if actions.open { 1 } else { 0 };
    let read = if actions.read { 2 } else { 0 };
    let remove = if actions.remove { 4 } else { 0 };
    open + (read + remove)
}

fn read_pattern(text: &[u8]) -> Option<Pattern>
    ensures text { IfSome result (λ p. text.now ≡ pattern_text p) }
    ensures read { (p : pattern.Pattern) → is_pattern p ≡ true → text.now ≡ pattern_text p
        → result ≡ Some p }
{
    if text == b"*".as_slice() {
        Some(Pattern::Any)
    } else {
        match Name::read(text) {
            Some(name) => Some(Pattern::Is(name)),
            None => None,
        }
    }
}

/// What follows the `@` of a text that begins with one.
fn behind_at(text: &[u8]) -> Option<&[u8]>
    ensures { MatchOption result (bytes_eq (take 1 text.now) (codes "@") ≡ false)
        (λ name. (bytes_eq (take 1 text.now) (codes "@") ≡ true) × (name.now ≡ drop 1 text.now)) }
{
    text.strip_prefix(b"@".as_slice())
}

/// The clerks of a text: `*`, `@` and a group's name, or a clerk's name.
fn read_clerks(text: &[u8]) -> Option<Clerks>
    ensures { result ≡ clerks_named text.now }
{
    if text == b"*".as_slice() {
        return Some(Clerks::Any);
    }
    match behind_at(text) {
        Some(name) => Name::read(name).map(Clerks::MembersOf),
        None => Name::read(text).map(Clerks::Is),
    }
}

fn read_effect(number: i64) -> Option<Effect>
    ensures number { IfSome result (λ e. number ≡ effect_number e) }
    ensures read { (e : _) → number ≡ effect_number e → result ≡ Some e }
{
    match number {
        0 => Some(Effect::Deny),
        1 => Some(Effect::Allow),
        _ => None,
    }
}

fn read_actions(number: i64) -> Option<Actions>
    ensures number { IfSome result (λ a. number ≡ actions_number a) }
    ensures read { (a : actions.Actions) → number ≡ actions_number a → result ≡ Some a }
{
    let (open, read, remove) = match number {
        0 => (false, false, false),
        1 => (true, false, false),
        2 => (false, true, false),
        3 => (true, true, false),
        4 => (false, false, true),
        5 => (true, false, true),
        6 => (false, true, true),
        7 => (true, true, true),
        _ => return None,
    };
    Some(Actions { open, read, remove })
}

/// The rule of a row, whatever its place; `None` if the row is no rule's.
fn read_rule(row: &rows::Rule) -> Option<Rule>
    ensures row { IfSome result (λ r. at_place (pos 0) row.now ≡ rule_row (pos 0) r) }
    ensures read { (r : rule.Rule) → is_sound_rule r ≡ true
        → at_place (pos 0) row.now ≡ rule_row (pos 0) r → result ≡ Some r }
{
    Some(Rule {
        name: Name::read(row.name.as_slice())?,
        effect: read_effect(row.effect)?,
        clerk: read_clerks(row.clerk.as_slice())?,
        maildrop: read_pattern(row.maildrop.as_slice())?,
        class: read_pattern(row.class.as_slice())?,
        actions: read_actions(row.actions)?,
    })
}

/// The rules of the rows, in order; `None` if a row is no sound rule's.
pub(crate) fn rules_of(alloc: Global, rows: &[rows::Rule]) -> Result<Option<Vec<Rule>>, AllocError>
    ensures rows { IfOk result (λ read. IfSome read
        (λ rules. map (at_place (pos 0)) rows.now ≡ map (rule_row (pos 0)) rules.items)) }
    ensures all { (rs : List rule.Rule) → list_all is_sound_rule rs ≡ true
        → map (at_place (pos 0)) rows.now ≡ map (rule_row (pos 0)) rs
        → IfOk result (λ read. IsSomeAnd read (λ rules. rules.items ≡ rs)) }
{
    let mut rules = Vec::new(alloc);
    for row in rows {
        let Some(rule) = read_rule(row) else {
            return Ok(None);
        };
        rules.extend_from_slice(&[rule])?;
    }
    Ok(Some(rules))
}

/// The policy of these groups and of the rules of these rows.
fn read_policy(alloc: Global, groups: Vec<Group>, rows: &[rows::Rule]) -> Result<Policy, Error>
    ensures { (p : Policy) → is_sound_policy p ≡ true → groups.items ≡ p.groups
        → map (at_place (pos 0)) rows.now ≡ map (rule_row (pos 0)) p.rules
        → IfOk result (λ read. read ≡ p) }
{
    match rules_of(alloc, rows)? {
        Some(rules) => match Policy::from_parts(groups, rules)? {
            Some(policy) => Ok(policy),
            None => Err(unreadable()),
        },
        None => Err(unreadable()),
    }
}

/// The policy of these groups and of the store's rules.
fn policy_with<S: Alter>(
    alloc: Global,
    conn: &mut Connection<S>,
    groups: Vec<Group>,
) -> Result<Policy, Refusal>
    ensures done { (c : Contents) → HasCleanDisk (state S.Store conn.new)
        → Holds (state S.Store conn.old) c → groups.items ≡ c.policy.groups
        → IsPolicy (Holds (state S.Store conn.new)) c (answer_of result) }
    ensures looks { Looks S.Store conn.old conn.new (IsMet result) }
{
    let rows = rules::all_rules(alloc, conn)?;
    Ok(read_policy(alloc, groups, rows.as_slice())?)
}

/// The policy.
pub(crate) fn policy<S: Alter>(alloc: Global, conn: &mut Connection<S>) -> Result<Policy, Refusal>
    ensures done { (c : Contents) → HasCleanDisk (state S.Store conn.new)
        → Holds (state S.Store conn.old) c
        → IsPolicy (Holds (state S.Store conn.new)) c (answer_of result) }
    ensures looks { Looks S.Store conn.old conn.new (IsMet result) }
{
    match read_groups(alloc, conn)? {
        Some(groups) => policy_with(alloc, conn, groups),
        None => Err(Refusal::Met(unreadable())),
    }
}

/// Adds a rule after the others, inside a transaction.
fn add_rule<S: Alter>(alloc: Global, conn: &mut Connection<S>, rule: &Rule) -> Result<(), Error>
    ensures { Writes S.Store conn.old conn.new (λ _. AddsRules (rule.now ∷ [])) result }
{
    let clerk = clerks_text(alloc, &rule.clerk)?;
    rules::add_rule(
        conn,
        rule.name.as_bytes(),
        effect_number(rule.effect),
        clerk.as_slice(),
        pattern_text(&rule.maildrop),
        pattern_text(&rule.class),
        actions_number(rule.actions),
    )
}

/// Adds the rules after the others, inside a transaction.
fn add_rules<S: Alter>(alloc: Global, conn: &mut Connection<S>, rules: &[Rule]) -> Result<(), Error>
    ensures { Writes S.Store conn.old conn.new (λ _. AddsRules rules.now) result }
{
    for rule in rules {
        add_rule(alloc, conn, rule)?;
    }
    Ok(())
}

/// Puts these rules in place of the store's, inside a transaction.
fn replace_rules<S: Alter>(
    alloc: Global,
    conn: &mut Connection<S>,
    rules: &[Rule],
) -> Result<(), Error>
    ensures { Writes S.Store conn.old conn.new (λ _. SetsRules rules.now) result }
{
    rules::clear_rules(conn)?;
    add_rules(alloc, conn, rules)
}

/// Puts this policy in place of the store's, inside a transaction.
fn replace_policy<S: Alter>(
    alloc: Global,
    conn: &mut Connection<S>,
    policy: &Policy,
) -> Result<(), Error>
    ensures written { Writes S.Store conn.old conn.new (λ _. SetsPolicy policy.now) result }
    ensures sound { OnOk result (IsTrue (is_sound_policy policy.now)) }
{
    replace_groups(conn, policy)?;
    replace_rules(alloc, conn, policy.rules())
}

/// Sets the policy, in one transaction.
pub(crate) fn set_policy<S: Alter>(
    alloc: Global,
    conn: &mut Connection<S>,
    policy: &Policy,
) -> Result<(), Refusal>
    ensures { Acts S.Store conn.old conn.new
        (λ c Held answered. IsPolicySet Held c policy.now answered) (answer_of result) }
{
    begin(conn)?;
    let replaced = replace_policy(alloc, conn, policy);
    conclude(conn, replaced)
}
