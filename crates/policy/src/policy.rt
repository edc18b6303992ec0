//! A policy and its calls.
ghost use Rattle.std.specs.Prelude.{◌≡◌, ◌≢◌, ◌==◌, ◌++◌, [], length, true, IsTrue, IfOk, IfErr};
ghost use Rattle.std.specs.Prelude.{OnOk, OnErr};
ghost use Rattle.policy.specs.Policy.{decide, is_sound_policy, policy_of, policy_with};
ghost use Rattle.policy.specs.PolicyText.{rules_of};
ghost use Rattle.policy.specs.Places.{place_of};
ghost use Rattle.policy.specs.WrittenText.{policy_text};

use crate::decide::Decision;
use crate::fault::PolicyFault;
use crate::group::{Group, copies_of};
use crate::group_starts::group_starts_of;
use crate::index::{Index, index_of, no_index, starts_of};
use crate::lane::Lane;
use crate::place::{Place, PlacedFault};
use crate::read::read_text;
use crate::rule::{Action, Rule};
use crate::sound::are_sound;
use crate::write::text_of;
use creds::Name;
use std::alloc::{AllocError, Global};
use std::marker::Model;

/// The greatest number of rules of a policy.
pub const MAX_RULES: usize = 1000;

/// The greatest number of groups of a policy.
pub const MAX_GROUPS: usize = 100;

/// The greatest number of members of a group.
pub const MAX_MEMBERS: usize = 200;

/// An office's policy: at most 1,000 rules in order, of which the first that matches decides, and
/// at most 100 groups of 1 to 200 clerks. No two rules share a name, and no two groups.
///
/// It is always sound: no rule is named `default`, each rule lists an action, a rule that lists
/// `open` is about any class, and each group that a rule names is there.
#[derive(Drop)]
pub struct Policy {
    pub(crate) groups: Vec<Group>,
    pub(crate) rules: Vec<Rule>,
    pub(crate) index: Index,
}

impl Model for Policy {
    ghost use Rattle.std.specs.Prelude.{◌≡◌, true};
    ghost use Rattle.policy.specs.Index.{IsIndexOf};
    ghost use Rattle.policy.specs.Policy.{Policy, is_sound_policy};

    ghost Value = { Policy };

    ghost view = { λ p. record { groups = p.groups.items; rules = p.rules.items } };

    ghost invariant = { λ p. (is_sound_policy
        (record { groups = p.groups.items; rules = p.rules.items }) ≡ true)
        × IsIndexOf p.rules.items p.index };
}

/// The policy of these groups and rules, which must be sound. An `Err` is want of memory.
fn indexed(groups: Vec<Group>, rules: Vec<Rule>) -> Result<Policy, AllocError>
    requires { is_sound_policy (record { groups = groups.items; rules = rules.items }) ≡ true }
    ensures { IfOk result (λ policy. policy
        ≡ record { groups = groups.items; rules = rules.items }) }
{
    let index = index_of(*rules.allocator(), &rules)?;
    Ok(Policy {
        groups,
        rules,
        index,
    })
}

impl Policy {
    /// The policy without groups and rules, which denies everything. It takes no memory.
    pub fn new(alloc: Global) -> Policy
        ensures { result ≡ record { groups = []; rules = [] } }
    {
        Policy {
            groups: Vec::new(alloc),
            rules: Vec::new(alloc),
            index: no_index(alloc),
        }
    }

    /// Reads a policy's text, TOML 1.0 with the arrays of tables `group` and `rule`.
    ///
    /// It reports the first fault in this order: `NotToml`, `UnknownKey(0)` for another top key,
    /// `TooMany`, `TooManyGroups`, then the faults of the groups by number, then those of the rules
    /// by number. A group or a rule with several faults has the first in the order of
    /// `PolicyFault`'s variants. `NoMemory` may come instead if memory runs out.
    pub fn read(alloc: Global, text: &str) -> Result<Policy, PolicyFault>
        ensures ok { IfOk result (λ policy. rules_of text.now ≡ Ok policy) }
        ensures fault { IfErr result (λ e. e ≢ PolicyFault.NoMemory → rules_of text.now ≡ Err e) }
        ensures sound { IfOk result (λ policy. IsTrue (is_sound_policy policy)) }
    {
        match Policy::read_placed(alloc, text) {
            Ok(policy) => Ok(policy),
            Err(placed) => Err(placed.fault),
        }
    }

    /// Reads a policy's text as `read` does, and says where its first fault lies too.
    pub fn read_placed(alloc: Global, text: &str) -> Result<Policy, PlacedFault>
        ensures ok { IfOk result (λ policy. rules_of text.now ≡ Ok policy) }
        ensures fault { IfErr result (λ e. e.fault ≢ PolicyFault.NoMemory
            → rules_of text.now ≡ Err e.fault) }
        ensures place { IfErr result (λ e. e.fault ≢ PolicyFault.NoMemory
            → place_of text.now e.fault ≡ e.place) }
        ensures sound { IfOk result (λ policy. IsTrue (is_sound_policy policy)) }
    {
        let parts = read_text(alloc, text)?;
        match indexed(parts.groups, parts.rules) {
            Ok(policy) => Ok(policy),
            Err(_) => Err(PolicyFault::NoMemory.at(Place::Text)),
        }
    }

    /// The policy of these rules, in this order, without groups. `None` if they aren't sound:
    /// more than 1,000, two of one name, or one that no text without groups could spell. An `Err`
    /// is want of memory. Only tests call it.
    pub fn from_rules(rules: Vec<Rule>) -> Result<Option<Policy>, AllocError>
        ensures { IfOk result (λ policy. policy ≡ policy_of rules.items) }
    {
        Policy::from_parts(Vec::new(*rules.allocator()), rules)
    }

    /// The policy of these groups and rules, in this order. `None` if they aren't sound: more
    /// than 100 groups or 1,000 rules, two groups or two rules of one name, a group or a rule that
    /// no text could spell, or a rule that names a missing group. An `Err` is want of memory.
    pub fn from_parts(groups: Vec<Group>, rules: Vec<Rule>) -> Result<Option<Policy>, AllocError>
        ensures { IfOk result (λ policy. policy ≡ policy_with groups.items rules.items) }
    {
        if !are_sound(&groups, &rules) {
            return Ok(None);
        }
        let policy = indexed(groups, rules)?;
        Ok(Some(policy))
    }

    /// The groups, in order, at most 100.
    pub fn groups(&self) -> &[Group]
        ensures value { result.now ≡ self.now.groups }
        ensures sound { IsTrue (is_sound_policy self.now) }
    {
        self.groups.as_slice()
    }

    /// The rules, in order.
    pub fn rules(&self) -> &[Rule]
        ensures value { result.now ≡ self.now.rules }
        ensures sound { IsTrue (is_sound_policy self.now) }
    {
        self.rules.as_slice()
    }

    /// How many rules there are, at most 1,000.
    pub fn len(&self) -> usize
        ensures value { result ≡ length self.now.rules }
        ensures sound { IsTrue (is_sound_policy self.now) }
    {
        self.rules.len()
    }

    /// Whether there is no rule.
    pub fn is_empty(&self) -> bool
        ensures { result ≡ (length self.now.rules == 0) }
    {
        self.rules.is_empty()
    }

    /// Whether the clerk may do this to messages of the class in the maildrop, and which rule
    /// decides.
    ///
    /// For `Open` the class plays no part. It takes no memory.
    pub fn decide(&self, clerk: &Name, maildrop: &Name, class: &Name, action: Action) -> Decision
        ensures { result ≡ decide self.now clerk.now maildrop.now class.now action }
    {
        self.lane(clerk, maildrop).decide(class, action)
    }

    /// The rules about the clerk and the maildrop, for a caller that asks about them often. It
    /// takes no memory.
    pub fn lane(&self, clerk: &Name, maildrop: &Name) -> Lane<'_>
        ensures { result ≡ record {
          policy = self.now;
          clerk = clerk.now;
          maildrop =
              maildrop.now;
        } }
    {
        Lane {
            policy: self,
            clerk: *clerk,
            maildrop: *maildrop,
            starts: starts_of(&self.index, clerk, maildrop),
            group_starts: group_starts_of(&self.index, &self.groups, clerk, maildrop),
        }
    }

    /// Appends the policy's text: its groups, then its rules, with an empty line between each two.
    ///
    /// On an `Err`, want of memory, nothing is appended.
    pub fn write(&self, out: &mut Vec<u8>) -> Result<(), AllocError>
        ensures ok { OnOk result (out.new.items ≡ out.old.items ++ policy_text self.now) }
        ensures err { OnErr result (out.new.items ≡ out.old.items) }
    {
        let text = text_of(*out.allocator(), &self.groups, &self.rules)?;
        out.extend_from_slice(&text)
    }

    /// A copy in memory of its own, from this policy's allocator. An `Err` is want of memory.
    pub fn try_copy(&self) -> Result<Policy, AllocError>
        ensures ok { IfOk result (λ copy. copy ≡ self.now) }
    {
        let mut rules = Vec::new(*self.rules.allocator());
        rules.extend_from_slice(&self.rules)?;
        let groups = copies_of(*self.rules.allocator(), &self.groups)?;
        indexed(groups, rules)
    }
}
