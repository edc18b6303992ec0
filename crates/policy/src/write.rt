//! The text that a policy is written as.
ghost use Rattle.std.specs.Prelude.{◌≡◌, ◌++◌, codes, map, IfOk, OnOk};
ghost use Rattle.policy.specs.WrittenText.{action_words, array_text, clerks_text, effect_text};
ghost use Rattle.policy.specs.WrittenText.{group_text, joined, pattern_text, quoted, rule_text};
ghost use Rattle.policy.specs.WrittenText.{setting};

use crate::group::Group;
use crate::rule::{Actions, Clerks, Effect, Pattern, Rule};
use creds::Name;
use std::alloc::{AllocError, Global};

fn words_of_pattern(pattern: &Pattern) -> &[u8]
    ensures { result.now ≡ pattern_text pattern.now }
{
    match pattern {
        Pattern::Any => b"*",
        Pattern::Is(name) => name.as_bytes(),
    }
}

fn word_of_effect(effect: Effect) -> &'static str
    ensures { result.now ≡ effect_text effect }
{
    match effect {
        Effect::Allow => "allow",
        Effect::Deny => "deny",
    }
}

fn array_of_actions(actions: Actions) -> &'static str
    ensures { result.now ≡ array_text (action_words actions) }
{
    match (actions.open, actions.read, actions.remove) {
        (true, true, true) => "[\"open\", \"read\", \"remove\"]",
        (true, true, false) => "[\"open\", \"read\"]",
        (true, false, true) => "[\"open\", \"remove\"]",
        (true, false, false) => "[\"open\"]",
        (false, true, true) => "[\"read\", \"remove\"]",
        (false, true, false) => "[\"read\"]",
        (false, false, true) => "[\"remove\"]",
        (false, false, false) => "[]",
    }
}

fn put(out: &mut Vec<u8>, octets: &[u8]) -> Result<(), AllocError>
    ensures { OnOk result (out.new.items ≡ out.old.items ++ octets.now) }
{
    out.extend_from_slice(octets)
}

#[tactic(auto, unfolding(crate::specs::WrittenText::setting))]
fn put_setting(out: &mut Vec<u8>, key: &str, value: &[u8]) -> Result<(), AllocError>
    ensures { OnOk result (out.new.items ≡ out.old.items ++ setting key.now value.now) }
{
    put(out, key.as_bytes())?;
    put(out, b" = ")?;
    put(out, value)?;
    put(out, b"\n")
}

#[tactic(auto, unfolding(crate::specs::WrittenText::setting))]
fn put_quoted(out: &mut Vec<u8>, key: &str, text: &[u8]) -> Result<(), AllocError>
    ensures { OnOk result (out.new.items ≡ out.old.items ++ setting key.now (quoted text.now)) }
{
    put(out, key.as_bytes())?;
    put(out, b" = \"")?;
    put(out, text)?;
    put(out, b"\"\n")
}

#[tactic(auto, unfolding(crate::specs::WrittenText::setting))]
fn put_group_quoted(out: &mut Vec<u8>, key: &str, group: &[u8]) -> Result<(), AllocError>
    ensures { OnOk result (out.new.items ≡ out.old.items ++ setting key.now (quoted (codes "@" ++ group.now))) }
{
    put(out, key.as_bytes())?;
    put(out, b" = \"@")?;
    put(out, group)?;
    put(out, b"\"\n")
}

fn put_clerks(out: &mut Vec<u8>, clerks: &Clerks) -> Result<(), AllocError>
    ensures { OnOk result (out.new.items ≡ out.old.items ++ setting (codes "clerk") (quoted (clerks_text clerks.now))) }
{
    match clerks {
        Clerks::Any => put_quoted(out, "clerk", b"*"),
        Clerks::Is(name) => put_quoted(out, "clerk", name.as_bytes()),
        Clerks::MembersOf(name) => put_group_quoted(out, "clerk", name.as_bytes()),
    }
}

fn put_word(out: &mut Vec<u8>, word: &[u8]) -> Result<(), AllocError>
    ensures { OnOk result (out.new.items ≡ out.old.items ++ quoted word.now) }
{
    put(out, b"\"")?;
    put(out, word)?;
    put(out, b"\"")
}

/// The names in quotes, with a comma and a space between each two.
fn listed(alloc: Global, names: &[Name]) -> Result<Vec<u8>, AllocError>
    ensures { IfOk result (λ text. text.items ≡ joined (codes ", ") (map quoted names.now)) }
{
    let mut text = Vec::new(alloc);
    for (i, name) in names.iter().enumerate() {
        if i > 0 {
            text.extend_from_slice(b", ")?;
        }
        put_word(&mut text, name.as_bytes())?;
    }
    Ok(text)
}

/// The array of the names, in brackets.
fn array_of(alloc: Global, names: &[Name]) -> Result<Vec<u8>, AllocError>
    ensures { IfOk result (λ text. text.items ≡ array_text names.now) }
{
    let words = listed(alloc, names)?;
    let mut text = Vec::new(alloc);
    put(&mut text, b"[")?;
    put(&mut text, &words)?;
    put(&mut text, b"]")?;
    Ok(text)
}

fn put_members(out: &mut Vec<u8>, members: &[Name]) -> Result<(), AllocError>
    ensures { OnOk result (out.new.items ≡ out.old.items ++ setting (codes "members") (array_text members.now)) }
{
    let names = array_of(*out.allocator(), members)?;
    put_setting(out, "members", &names)
}

#[tactic(auto, unfolding(crate::specs::WrittenText::group_text))]
fn put_group(out: &mut Vec<u8>, group: &Group) -> Result<(), AllocError>
    ensures { OnOk result (out.new.items ≡ out.old.items ++ group_text group.now) }
{
    put(out, b"[[group]]\n")?;
    put_quoted(out, "name", group.name().as_bytes())?;
    put_members(out, group.members())
}

#[tactic(auto, unfolding(crate::specs::WrittenText::rule_text))]
fn put_rule(out: &mut Vec<u8>, rule: &Rule) -> Result<(), AllocError>
    ensures { OnOk result (out.new.items ≡ out.old.items ++ rule_text rule.now) }
{
    put(out, b"[[rule]]\n")?;
    put_quoted(out, "name", rule.name.as_bytes())?;
    put_quoted(out, "effect", word_of_effect(rule.effect).as_bytes())?;
    put_clerks(out, &rule.clerk)?;
    put_quoted(out, "maildrop", words_of_pattern(&rule.maildrop))?;
    put_quoted(out, "class", words_of_pattern(&rule.class))?;
    put_setting(out, "actions", array_of_actions(rule.actions).as_bytes())
}

fn groups_text(alloc: Global, groups: &[Group]) -> Result<Vec<u8>, AllocError>
    ensures { IfOk result (λ text. text.items ≡ joined (codes "\n") (map group_text groups.now)) }
{
    let mut text = Vec::new(alloc);
    for (i, group) in groups.iter().enumerate() {
        if i > 0 {
            text.extend_from_slice(b"\n")?;
        }
        put_group(&mut text, group)?;
    }
    Ok(text)
}

fn rules_text(alloc: Global, rules: &[Rule]) -> Result<Vec<u8>, AllocError>
    ensures { IfOk result (λ text. text.items ≡ joined (codes "\n") (map rule_text rules.now)) }
{
    let mut text = Vec::new(alloc);
    for (i, rule) in rules.iter().enumerate() {
        if i > 0 {
            text.extend_from_slice(b"\n")?;
        }
        put_rule(&mut text, rule)?;
    }
    Ok(text)
}

/// What stands between the groups' text and the rules' text: an LF if there are both.
fn gap(groups: &[Group], rules: &[Rule]) -> &'static [u8]
    ensures { joined (codes "\n") (map group_text groups.now ++ map rule_text rules.now)
        ≡ joined (codes "\n") (map group_text groups.now) ++ result.now ++ joined (codes "\n") (map rule_text rules.now) }
{
    if groups.is_empty() {
        return b"";
    }
    if rules.is_empty() {
        return b"";
    }
    b"\n"
}

/// The text of the groups and the rules.
pub(crate) fn text_of(
    alloc: Global,
    groups: &[Group],
    rules: &[Rule],
) -> Result<Vec<u8>, AllocError>
    ensures { IfOk result (λ text. text.items ≡ joined (codes "\n") (map group_text groups.now ++ map rule_text rules.now)) }
{
    let mut text = groups_text(alloc, groups)?;
    let behind = rules_text(alloc, rules)?;
    text.extend_from_slice(gap(groups, rules))?;
    text.extend_from_slice(&behind)?;
    Ok(text)
}
