//! The rules about one clerk and one maildrop.
ghost use Rattle.std.specs.Prelude.{◌≡◌, length, filter};
ghost use Rattle.policy.specs.Lane.{is_about, rules_about};
ghost use Rattle.policy.specs.Policy.{decide};

use crate::decide::{Decision, clerk_fits, decided_at, pattern_fits};
use crate::group::Group;
use crate::group_starts::GroupStarts;
use crate::index::Starts;
use crate::policy::Policy;
use crate::rule::{Action, Rule};
use crate::walk::{first_by_group, first_by_name};
use creds::Name;
use std::marker::Model;

/// The rules of a policy that are about one clerk and one maildrop. It takes no memory.
///
/// Making one costs a search through all groups' members, four look-ups, and two more for each
/// group that the clerk is in. A decision then costs time by the number of the clerk's groups and
/// of the lane's rules, whatever else the policy holds.
#[derive(Drop)]
pub struct Lane<'a> {
    pub(crate) policy: &'a Policy,
    pub(crate) clerk: Name,
    pub(crate) maildrop: Name,
    pub(crate) starts: Starts,
    pub(crate) group_starts: GroupStarts,
}

impl<'a> Model for Lane<'a> {
    ghost use Rattle.policy.specs.Lane.{AreGroupStarts, AreStarts, Lane};

    ghost Value = { Lane };

    ghost view = { λ l. record { policy = l.policy.now; clerk = l.clerk; maildrop = l.maildrop } };

    ghost invariant = { λ l. AreStarts l.clerk l.maildrop l.policy.now.rules l.starts
        × AreGroupStarts l.policy.now.groups l.clerk l.maildrop l.policy.now.rules l.group_starts };
}

fn is_about(groups: &[Group], clerk: &Name, maildrop: &Name, rule: &Rule) -> bool
    ensures { result ≡ is_about groups.now clerk.now maildrop.now rule.now }
{
    clerk_fits(groups, &rule.clerk, clerk) && pattern_fits(&rule.maildrop, maildrop)
}

fn count(groups: &[Group], rules: &[Rule], clerk: &Name, maildrop: &Name) -> usize
    ensures { result ≡ length (filter (is_about groups.now clerk.now maildrop.now) rules.now) }
{
    let mut count = 0;
    for rule in rules {
        if is_about(groups, clerk, maildrop, rule) {
            count += 1;
        }
    }
    count
}

impl<'a> Lane<'a> {
    /// Whether the lane's clerk may do this to messages of the class in the lane's maildrop, and
    /// which rule decides: the policy's first that matches.
    ///
    /// For `Open` the class plays no part. It takes no memory.
    pub fn decide(&self, class: &Name, action: Action) -> Decision
        ensures { result ≡ decide self.now.policy self.now.clerk self.now.maildrop class.now
            action }
    {
        let policy = self.policy;
        let named = first_by_name(&policy.index, &policy.rules, &self.starts, class, action);
        let grouped = first_by_group(
            &policy.index,
            &policy.rules,
            self.group_starts.as_slice(),
            class,
            action,
        );
        decided_at(&policy.rules, named.min(grouped))
    }

    /// How many rules of the policy are about the clerk and the maildrop. It looks at every rule
    /// of the policy, and takes no memory. Only tests call it.
    pub fn places(&self) -> usize
        ensures { result ≡ length (rules_about self.now) }
    {
        let policy = self.policy;
        count(&policy.groups, &policy.rules, &self.clerk, &self.maildrop)
    }
}
