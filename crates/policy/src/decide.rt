//! Which rule decides.
ghost use Rattle.std.specs.Prelude.{◌≡◌, slice_get};
ghost use Rattle.policy.specs.Policy.{default_rule, fits, fits_clerk, is_member, lists, fits_class};
ghost use Rattle.policy.specs.Policy.{decision_of};

use crate::group::Group;
use crate::rule::{Action, Actions, Clerks, Effect, Pattern, Rule};
use creds::Name;

/// What a policy answers.
#[derive(Clone, Copy, PartialEq, Eq)]
pub struct Decision {
    /// Whether the action is allowed.
    pub allowed: bool,
    /// The name of the rule that decides, or `default` if none matches.
    pub rule: Name,
}

fn default_name() -> Name
    ensures { result ≡ default_rule }
{
    match Name::read(b"default") {
        Some(name) => name,
        None => unreachable!(),
    }
}

/// Whether the pattern fits the name.
pub(crate) fn pattern_fits(pattern: &Pattern, name: &Name) -> bool
    ensures { result ≡ fits pattern.now name.now }
{
    match pattern {
        Pattern::Any => true,
        Pattern::Is(wanted) => wanted == name,
    }
}

fn is_member(groups: &[Group], name: &Name, clerk: &Name) -> bool
    ensures { result ≡ is_member groups.now name.now clerk.now }
{
    groups
        .iter()
        .any(|group| *name == *group.name() && group.has(clerk))
}

/// Whether the rule is about the clerk, by `*`, by name or by a group.
pub(crate) fn clerk_fits(groups: &[Group], clerks: &Clerks, clerk: &Name) -> bool
    ensures { result ≡ fits_clerk groups.now clerks.now clerk.now }
{
    match clerks {
        Clerks::Any => true,
        Clerks::Is(wanted) => wanted == clerk,
        Clerks::MembersOf(name) => is_member(groups, name, clerk),
    }
}

/// Whether the action is listed.
pub(crate) fn actions_list(actions: Actions, action: Action) -> bool
    ensures { result ≡ lists actions action }
{
    match action {
        Action::Open => actions.open,
        Action::Read => actions.read,
        Action::Remove => actions.remove,
    }
}

/// Whether the pattern fits the class. For `Open` it always does, since opening is about no class.
pub(crate) fn class_fits(action: Action, pattern: &Pattern, class: &Name) -> bool
    ensures { result ≡ fits_class action pattern.now class.now }
{
    match action {
        Action::Open => true,
        Action::Read | Action::Remove => pattern_fits(pattern, class),
    }
}

/// What the rule at the place, counted from 0, decides; a denial by `default` if there is none.
pub(crate) fn decided_at(rules: &[Rule], place: usize) -> Decision
    ensures { result ≡ decision_of (slice_get rules.now place) }
{
    match rules.get(place) {
        Some(rule) => Decision {
            allowed: rule.effect == Effect::Allow,
            rule: rule.name,
        },
        None => Decision {
            allowed: false,
            rule: default_name(),
        },
    }
}
