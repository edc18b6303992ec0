//! Commands about the policy in force.
ghost use Rattle.office.specs.Events as event;
ghost use Rattle.office.specs.Answers as asked;
ghost use Rattle.office.specs.Seen.{outcome_seen};
ghost use Rattle.office.specs.AfterEvent.{AfterEvent};

use crate::deposits::refused;
use crate::{Answer, Office, Outcome};
use policy::Policy;
use vault::Vault;

impl<V: Vault> Office<V> {
    /// A copy of the policy in force.
    pub(crate) fn show_policy(&mut self) -> Outcome
        ensures { AfterEvent V.Vault self.old self.new (event.Admin asked.ShowPolicy)
            (outcome_seen result) }
    {
        match self.policy.try_copy() {
            Ok(policy) => Outcome::Answered(Answer::PolicyIs(policy)),
            Err(_) => Outcome::NoMemory,
        }
    }

    /// A copy of the policy in force, of which only the groups are shown.
    pub(crate) fn list_groups(&mut self) -> Outcome
        ensures { AfterEvent V.Vault self.old self.new (event.Admin asked.ListGroups)
            (outcome_seen result) }
    {
        match self.policy.try_copy() {
            Ok(policy) => Outcome::Answered(Answer::GroupsOf(policy)),
            Err(_) => Outcome::NoMemory,
        }
    }

    /// Sets the policy, in the store and then here. A session keeps its view of messages.
    pub(crate) fn set_policy(&mut self, policy: &Policy) -> Outcome
        ensures { AfterEvent V.Vault self.old self.new (event.Admin (asked.SetPolicy policy.now))
            (outcome_seen result) }
    {
        let rules = policy.len() as u64;
        let Ok(copy) = policy.try_copy() else {
            return Outcome::NoMemory;
        };
        match self.vault.set_policy(policy) {
            Ok(()) => {
                self.policy = copy;
                Outcome::Answered(Answer::RuleCount(rules))
            }
            Err(fault) => refused(fault),
        }
    }
}
