//! Where the rules about a clerk and a maildrop stand.
ghost use Rattle.std.specs.Prelude.{◌≡◌, List, [], length, IfOk};
ghost use Rattle.policy.specs.declared.rule.Rule.{Rule};
ghost use Rattle.policy.specs.Index.{IsIndexOf, first_place, key_of};
ghost use Rattle.policy.specs.Lane.{AreStarts};

use crate::key::Key;
use crate::rule::{Clerks, Pattern, Rule};
use creds::Name;
use std::alloc::{AllocError, Global};
use std::collections::BTreeMap;

/// Where the rules of each key stand: the place of the key's first rule, and for each rule the
/// place of the next one with the same key.
///
/// A place counts from 0; the number of rules stands for no place.
#[derive(Drop)]
pub(crate) struct Index {
    pub(crate) first: BTreeMap<Key, usize>,
    pub(crate) next: Vec<usize>,
}

fn key_of(rule: &Rule) -> Key
    ensures { result ≡ key_of rule.now }
{
    Key {
        clerk: rule.clerk,
        maildrop: rule.maildrop,
    }
}

/// The index of the rules. It takes memory for a place per rule and an entry per key; an `Err` is
/// want of it.
pub(crate) fn index_of(alloc: Global, rules: &[Rule]) -> Result<Index, AllocError>
    ensures { IfOk result (IsIndexOf rules.now) }
{
    let none = rules.len();
    let mut first = BTreeMap::new(alloc);
    let mut next = vec![in alloc; none; none]?;
    for i in (0..rules.len()).rev() {
        let later = first.insert(key_of(&rules[i]), i)?;
        next[i] = later.unwrap_or(none);
    }
    Ok(Index { first, next })
}

/// The index of no rules. It takes no memory.
pub(crate) fn no_index(alloc: Global) -> Index
    ensures { IsIndexOf [] result }
{
    Index {
        first: BTreeMap::new(alloc),
        next: Vec::new(alloc),
    }
}

/// The place of the first rule that names these clerks and this maildrop.
pub(crate) fn first_place(index: &Index, clerk: &Clerks, maildrop: &Pattern) -> usize
    ensures { result ≡ first_place index.now.first
        (record { clerk = clerk.now; maildrop = maildrop.now }) (length index.now.next.items) }
{
    let key = Key {
        clerk: *clerk,
        maildrop: *maildrop,
    };
    match index.first.get(&key) {
        Some(place) => *place,
        None => index.next.len(),
    }
}

/// Where the rules about a clerk and a maildrop that name no group begin: the places of the first
/// rule that names both, that names the clerk alone, the maildrop alone, and neither.
#[derive(Clone, Copy, Drop)]
pub(crate) struct Starts {
    pub(crate) both: usize,
    pub(crate) clerk: usize,
    pub(crate) maildrop: usize,
    pub(crate) all: usize,
}

/// Where the rules about the clerk and the maildrop that name no group begin.
pub(crate) fn starts_of(index: &Index, clerk: &Name, maildrop: &Name) -> Starts
    ensures { (rules : List Rule) → IsIndexOf rules index.now
        → AreStarts clerk.now maildrop.now rules result }
{
    let clerk = Clerks::Is(*clerk);
    let maildrop = Pattern::Is(*maildrop);
    let any = Pattern::Any;
    let all = Clerks::Any;
    Starts {
        both: first_place(index, &clerk, &maildrop),
        clerk: first_place(index, &clerk, &any),
        maildrop: first_place(index, &all, &maildrop),
        all: first_place(index, &all, &any),
    }
}
