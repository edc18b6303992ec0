//! Walks over the rules about a clerk and a maildrop, from place to place.
ghost use Rattle.std.specs.Prelude.{◌≡◌, List, ℕ, ◌&&◌};
ghost use Rattle.policy.specs.declared.key.Key.{Key};
ghost use Rattle.policy.specs.Index.{IsIndexOf, has_key, place_from};
ghost use Rattle.policy.specs.Lane.{AreStarts, group_start, group_starts, is_about_action};
ghost use Rattle.policy.specs.Lane.{is_about_group, is_about_groups, is_about_one};
ghost use Rattle.policy.specs.Policy.{Group};

use crate::decide::{actions_list, class_fits};
use crate::group_starts::GroupStart;
use crate::index::{Index, Starts};
use crate::rule::{Action, Rule};
use creds::Name;

fn is_about_action(rule: &Rule, class: &Name, action: Action) -> bool
    ensures { result ≡ is_about_action action class.now rule.now }
{
    actions_list(rule.actions, action) && class_fits(action, &rule.class, class)
}

/// `start` is the place of a key's first rule. The place of the first rule of that key that is
/// about the action and the class; the number of rules if there is none.
fn first_of_key(index: &Index, rules: &[Rule], start: usize, class: &Name, action: Action) -> usize
    requires { IsIndexOf rules.now index.now }
    ensures { (k : Key) → start ≡ place_from (has_key k) 0 rules.now
        → result ≡ place_from (λ r. has_key k r && is_about_action action class.now r) 0 rules.now }
{
    let mut place = start;
    while let Some(rule) = rules.get(place) {
        if is_about_action(rule, class, action) {
            return place;
        }
        place = index.next[place];
    }
    place
}

/// The place of the first rule that matches and names no group; the number of rules if none
/// does.
pub(crate) fn first_by_name(
    index: &Index,
    rules: &[Rule],
    starts: &Starts,
    class: &Name,
    action: Action,
) -> usize
    requires { IsIndexOf rules.now index.now }
    ensures { (clerk maildrop : List ℕ) → AreStarts clerk maildrop rules.now starts.now
        → result ≡ place_from (λ r. is_about_one clerk maildrop r
        && is_about_action action class.now r) 0 rules.now }
{
    first_of_key(index, rules, starts.both, class, action)
        .min(first_of_key(index, rules, starts.clerk, class, action))
        .min(first_of_key(index, rules, starts.maildrop, class, action))
        .min(first_of_key(index, rules, starts.all, class, action))
}

/// The place of the first rule about one group that matches; the number of rules if none does.
fn first_of_group(
    index: &Index,
    rules: &[Rule],
    start: &GroupStart,
    class: &Name,
    action: Action,
) -> usize
    requires { IsIndexOf rules.now index.now }
    ensures { (maildrop group : List ℕ) → start.now ≡ group_start rules.now maildrop group
        → result ≡ place_from (λ r. is_about_group group maildrop r
        && is_about_action action class.now r) 0 rules.now }
{
    first_of_key(index, rules, start.maildrop, class, action).min(first_of_key(
        index, rules, start.all, class, action,
    ))
}

/// The place of the first rule that matches and names one of the clerk's groups; the number of
/// rules if none does.
pub(crate) fn first_by_group(
    index: &Index,
    rules: &[Rule],
    starts: &[GroupStart],
    class: &Name,
    action: Action,
) -> usize
    requires { IsIndexOf rules.now index.now }
    ensures { (groups : List Group) (clerk maildrop : List ℕ)
        → starts.now ≡ group_starts groups clerk maildrop rules.now
        → result ≡ place_from (λ r. is_about_groups groups clerk maildrop r
        && is_about_action action class.now r) 0 rules.now }
{
    let mut place = rules.len();
    for start in starts {
        place = place.min(first_of_group(index, rules, start, class, action));
    }
    place
}
