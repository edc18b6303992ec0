//! Which rules of a new policy say what a rule of the old one said under another name, which rules
//! are gone, and which are new.
ghost use Rattle.std.specs.Prelude.{◌≡◌, ◌<◌, ◌++◌, ◌&&◌, not, Some, IfOk, IfSome, OnOk, length};
ghost use Rattle.std.specs.Prelude.{slice_get};
ghost use Rattle.std.specs.List.{list_any, position};
ghost use Rattle.review.specs.Renames.{exchanged_text, has_rule, is_line, is_unmatched};
ghost use Rattle.review.specs.Renames.{renamed_from, renamed_line, renamed_text, said_before};
ghost use Rattle.review.specs.Renames.{same_effect, says_same, unmatched_line, was_line, was_words};
ghost use Rattle.review.specs.Places.{text_at, text_by_rule};

use crate::covers::{put_rule, rule_covers};
use crate::label::put;
use creds::Name;
use policy::{Effect, Group, Policy, Rule};
use std::alloc::{AllocError, Global};

fn has_rule(rules: &[Rule], name: &Name) -> bool
    ensures { result ≡ has_rule rules.now name.now }
{
    rules.iter().any(|rule| rule.name == *name)
}

fn same_effect(was: Effect, is: Effect) -> bool
    ensures { result ≡ same_effect was is }
{
    match was {
        Effect::Allow => matches!(is, Effect::Allow),
        Effect::Deny => matches!(is, Effect::Deny),
    }
}

fn says_same(groups: &[Group], was: &Rule, is: &Rule) -> bool
    ensures { result ≡ says_same groups.now was.now is.now }
{
    same_effect(was.effect, is.effect)
        && rule_covers(groups, was, is)
        && rule_covers(groups, is, was)
}

fn said_before(groups: &[Group], olds: &[Rule], news: &[Rule], is: &Rule) -> Option<usize>
    ensures { result ≡ position (λ was. says_same groups.now was is.now
        && not (has_rule news.now was.name)) olds.now }
{
    olds.iter().position(|was| says_same(groups, was, is) && !has_rule(news, &was.name))
}

/// The place of the old rule that this one was, if it got another name.
fn renamed_from(old: &Policy, new: &Policy, is: &Rule) -> Option<usize>
    ensures first { result ≡ renamed_from old.now new.now is.now }
    ensures placed { IfSome result (λ was. was < length old.now.rules) }
{
    if has_rule(old.rules(), &is.name) {
        return None;
    }
    said_before(new.groups(), old.rules(), new.rules(), is)
}

#[tactic(auto, unfolding(crate::specs::Renames::was_words))]
fn put_was_words(
    out: &mut Vec<u8>,
    olds: &[Rule],
    news: &[Rule],
    was: usize,
    is: usize,
) -> Result<(), AllocError>
    requires placed { was < length olds.now }
    requires here { is < length news.now }
    ensures { OnOk result (out.new.items ≡ out.old.items ++ was_words olds.now news.now was is) }
{
    put_rule(out, news, is)?;
    put(out, b" was ")?;
    put_rule(out, olds, was)?;
    put(out, b"\n")
}

fn put_was_line(
    out: &mut Vec<u8>,
    olds: &[Rule],
    news: &[Rule],
    was: usize,
    is: usize,
) -> Result<(), AllocError>
    requires placed { was < length olds.now }
    requires here { is < length news.now }
    ensures { OnOk result (out.new.items
        ≡ out.old.items ++ was_line olds.now news.now is (Some was)) }
{
    put(out, b"note: ")?;
    put_was_words(out, olds, news, was, is)
}

/// Appends the line of the rule at a place, if it was another.
fn put_renamed(
    out: &mut Vec<u8>,
    old: &Policy,
    new: &Policy,
    place: usize,
) -> Result<(), AllocError>
    requires { place < length new.now.rules }
    ensures { OnOk result (out.new.items ≡ out.old.items
        ++ text_at (renamed_line old.now new.now) place (slice_get new.now.rules place)) }
{
    let Some(is) = new.rules().get(place) else {
        return Ok(());
    };
    match renamed_from(old, new, is) {
        Some(was) => put_was_line(out, old.rules(), new.rules(), was, place),
        None => Ok(()),
    }
}

/// The renamed rules, a line each: a new name and a vanished one, with equal matcher (by the new
/// groups) and effect. A line has both names and both numbers, counted from 1. An `Err` means out
/// of memory.
pub fn renamed(alloc: Global, old: &Policy, new: &Policy) -> Result<Vec<u8>, AllocError>
    ensures { IfOk result (λ text. text.items ≡ renamed_text old.now new.now) }
{
    let mut text = Vec::new(alloc);
    for place in 0..new.len() {
        put_renamed(&mut text, old, new, place)?;
    }
    Ok(text)
}

// ---- rules that are gone, and new ones

/// Whether one of these rules says the same as this one, under a name that its own rules don't
/// have.
fn is_said(groups: &[Group], these: &[Rule], own: &[Rule], rule: &Rule) -> bool
    ensures { result ≡ list_any (λ s. says_same groups.now s rule.now
        && not (has_rule own.now s.name)) these.now }
{
    these.iter().any(|other| says_same(groups, other, rule) && !has_rule(own, &other.name))
}

fn is_unmatched(groups: &[Group], these: &[Rule], own: &[Rule], rule: &Rule) -> bool
    ensures { result ≡ is_unmatched groups.now these.now own.now rule.now }
{
    !has_rule(these, &rule.name) && !is_said(groups, these, own, rule)
}

#[tactic(auto, unfolding(crate::specs::Renames::is_line))]
fn put_is_line(out: &mut Vec<u8>, own: &[Rule], place: usize, how: &[u8]) -> Result<(), AllocError>
    requires { place < length own.now }
    ensures { OnOk result (out.new.items ≡ out.old.items ++ is_line own.now place how.now) }
{
    put(out, b"note: ")?;
    put_rule(out, own, place)?;
    put(out, b" is ")?;
    put(out, how)?;
    put(out, b"\n")
}

/// Appends the line of the rule at a place, if these rules have none for it.
fn put_unmatched(
    out: &mut Vec<u8>,
    groups: &[Group],
    these: &[Rule],
    own: &[Rule],
    how: &[u8],
    place: usize,
) -> Result<(), AllocError>
    requires { place < length own.now }
    ensures { OnOk result (out.new.items ≡ out.old.items
        ++ text_at (unmatched_line groups.now these.now own.now how.now) place
        (slice_get own.now place)) }
{
    let Some(rule) = own.get(place) else {
        return Ok(());
    };
    if is_unmatched(groups, these, own, rule) {
        put_is_line(out, own, place, how)?;
    }
    Ok(())
}

fn put_all_unmatched(
    out: &mut Vec<u8>,
    groups: &[Group],
    these: &[Rule],
    own: &[Rule],
    how: &[u8],
) -> Result<(), AllocError>
    ensures { OnOk result (out.new.items ≡ out.old.items
        ++ text_by_rule (unmatched_line groups.now these.now own.now how.now) own.now) }
{
    for place in 0..own.len() {
        put_unmatched(out, groups, these, own, how, place)?;
    }
    Ok(())
}

/// The text of the rules that come and go: a line for each rule of the old policy that is gone, and
/// then one for each of the new policy that is new. No rule of the other policy has its name, nor
/// says the same under a name that is new or gone: those are what `renamed` tells. A line has the
/// rule's name and its number, counted from 1. An `Err` is want of memory.
pub fn exchanged(alloc: Global, old: &Policy, new: &Policy) -> Result<Vec<u8>, AllocError>
    ensures { IfOk result (λ text. text.items ≡ exchanged_text old.now new.now) }
{
    let mut text = Vec::new(alloc);
    put_all_unmatched(&mut text, new.groups(), new.rules(), old.rules(), b"gone")?;
    put_all_unmatched(&mut text, new.groups(), old.rules(), new.rules(), b"new")?;
    Ok(text)
}
