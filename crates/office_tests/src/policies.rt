//! What no clause says: that the calls succeed if there is memory, the sample policy, one of
//! groups, and the lanes of a large one. The faults of texts are tested by tools/transcripts.
use creds::Name;
use policy::{
    Action, Actions, Clerks, Decision, Effect, Group, Pattern, Policy, PolicyFault, Rule,
};
use std::alloc::{AllocError, Global};
use std::test::Fail;

/// The sample policy, as `Policy::write` writes it.
const SAMPLE: &str = r#"[[rule]]
name = "ann-all"
effect = "allow"
clerk = "ann"
maildrop = "orders"
class = "*"
actions = ["open", "read", "remove"]

[[rule]]
name = "bob-open"
effect = "allow"
clerk = "bob"
maildrop = "orders"
class = "*"
actions = ["open"]

[[rule]]
name = "bob-no-pay"
effect = "deny"
clerk = "bob"
maildrop = "orders"
class = "pay"
actions = ["read", "remove"]

[[rule]]
name = "bob-read"
effect = "allow"
clerk = "bob"
maildrop = "orders"
class = "*"
actions = ["read"]

[[rule]]
name = "bob-rm"
effect = "allow"
clerk = "bob"
maildrop = "orders"
class = "note"
actions = ["remove"]

[[rule]]
name = "cat-open"
effect = "allow"
clerk = "cat"
maildrop = "orders"
class = "*"
actions = ["open"]

[[rule]]
name = "eve-any"
effect = "allow"
clerk = "eve"
maildrop = "*"
class = "*"
actions = ["open"]

[[rule]]
name = "mrose-open"
effect = "allow"
clerk = "mrose"
maildrop = "*"
class = "*"
actions = ["open"]
"#;

/// A policy of two groups and a rule about each, as `Policy::write` writes it.
const TWO: &str = r#"[[group]]
name = "sales"
members = ["ann", "bob"]

[[group]]
name = "default"
members = ["cat"]

[[rule]]
name = "d-deny"
effect = "deny"
clerk = "@default"
maildrop = "*"
class = "*"
actions = ["open", "read", "remove"]

[[rule]]
name = "s-read"
effect = "allow"
clerk = "@sales"
maildrop = "orders"
class = "note"
actions = ["read"]
"#;

/// A policy's text, whether its rules are a policy without its groups, and clerks and maildrops,
/// with how many of its rules are about both.
type Row = (
    &'static str,
    bool,
    &'static [(&'static str, &'static str, usize)],
);

static ROWS: [Row; 2] = [
    (
        SAMPLE,
        true,
        &[
            ("bob", "orders", 4),
            ("eve", "nowhere", 1),
            ("dan", "orders", 0),
        ],
    ),
    (
        TWO,
        false,
        &[
            ("ann", "orders", 1),
            ("cat", "orders", 1),
            ("dan", "orders", 0),
        ],
    ),
];

/// The policy that a text is, without the clauses of `Policy::read`.
pub(super) fn read(alloc: Global, text: &str) -> Result<Policy, PolicyFault> {
    Policy::read(alloc, text)
}

/// Whether a policy is written after an octet as this text, or nothing of it if memory is refused.
fn is_written_or_not(alloc: Global, policy: &Policy, text: &str) -> bool {
    let mut out = Vec::new(alloc);
    let before = match out.push(b'#') {
        Ok(()) => b"#".as_slice(),
        Err(_) => b"".as_slice(),
    };
    match policy.write(&mut out) {
        Ok(()) => {
            out.starts_with(before)
                && out.ends_with(text.as_bytes())
                && out.len() == before.len().saturating_add(text.len())
        }
        Err(_) => out.as_slice() == before,
    }
}

/// Whether two policies have the same rules, and groups of the same names and members.
fn are_alike(policy: &Policy, other: &Policy) -> bool {
    let mut all = policy.groups().len() == other.groups().len();
    for (group, copy) in policy.groups().iter().zip(other.groups()) {
        all = all && group.name() == copy.name() && group.members() == copy.members();
    }
    all && policy.rules() == other.rules()
}

/// Whether a policy's copy is like it, or memory for it is refused.
fn is_copied_or_not(policy: &Policy) -> bool {
    match policy.try_copy() {
        Ok(copy) => are_alike(policy, &copy),
        Err(_) => true,
    }
}

/// Whether a text is read, written and copied, or memory is refused for one of these.
fn is_kept_or_not(alloc: Global, text: &str) -> bool {
    match read(alloc, text) {
        Ok(policy) => is_written_or_not(alloc, &policy, text) && is_copied_or_not(&policy),
        Err(fault) => fault == PolicyFault::NoMemory,
    }
}

/// A call whose growth of memory is refused answers so, and changes nothing. Run with each
/// allocation failing in turn.
#[test]
fn refused_growths_of_policies(rt: HostRuntime) {
    for (text, _, _) in &ROWS {
        assert!(rt; is_kept_or_not(rt.alloc(), *text), "{text}");
    }
}

/// Whether a policy is written as this text.
pub(super) fn is_written_as(
    alloc: Global,
    policy: &Policy,
    text: &str,
) -> Result<bool, AllocError> {
    let mut out = Vec::new(alloc);
    policy.write(&mut out)?;
    Ok(out.as_slice() == text.as_bytes())
}

/// Copies of groups.
fn copies_of(alloc: Global, groups: &[Group]) -> Result<Vec<Group>, AllocError> {
    let mut copies = Vec::new(alloc);
    for group in groups {
        copies.push(group.try_copy()?)?;
    }
    Ok(copies)
}

/// The policy that is made of another's groups and rules, if they are sound.
fn of_parts(alloc: Global, policy: &Policy) -> Result<Option<Policy>, AllocError> {
    let mut rules = Vec::new(alloc);
    rules.extend_from_slice(policy.rules())?;
    Policy::from_parts(copies_of(alloc, policy.groups())?, rules)
}

/// The policy that is made of another's rules alone, if they are sound.
fn of_rules(alloc: Global, policy: &Policy) -> Result<Option<Policy>, AllocError> {
    let mut rules = Vec::new(alloc);
    rules.extend_from_slice(policy.rules())?;
    Policy::from_rules(rules)
}

/// Questions to the sample policy: the clerk, the class, the action, whether it is allowed, and by
/// which rule.
static DECISIONS: [(&str, &str, &str, bool, &str); 9] = [
    ("bob", "pay", "read", false, "bob-no-pay"),
    ("bob", "pay", "remove", false, "bob-no-pay"),
    ("bob", "note", "read", true, "bob-read"),
    ("bob", "note", "remove", true, "bob-rm"),
    ("bob", "todo", "remove", false, "default"),
    ("bob", "pay", "open", true, "bob-open"),
    ("ann", "pay", "remove", true, "ann-all"),
    ("dan", "note", "open", false, "default"),
    ("dan", "note", "read", false, "default"),
];

fn name(text: &str) -> Result<Name, Fail> {
    Ok(Name::read(text.as_bytes()).ok_or("a name")?)
}

fn decision(policy: &Policy, clerk: &str, class: &str, action: &str) -> Result<Decision, Fail> {
    let clerk = name(clerk)?;
    let maildrop = name("orders")?;
    let class = name(class)?;
    let action = Action::read(action.as_bytes()).ok_or("an action")?;
    Ok(policy.decide(&clerk, &maildrop, &class, action))
}

/// Whether each question is decided so.
fn are_decided(policy: &Policy) -> Result<bool, Fail> {
    for (clerk, class, action, allowed, rule) in &DECISIONS {
        let decided = decision(policy, *clerk, *class, *action)?;
        if decided.allowed != *allowed || decided.rule.as_str() != *rule {
            return Ok(false);
        }
    }
    Ok(true)
}

/// Whether a policy is the sample policy: its rules, and what it decides.
fn is_sample(policy: &Policy) -> Result<bool, Fail> {
    Ok(policy.len() == 8 && !policy.is_empty() && are_decided(policy)?)
}

/// Whether so many rules of a policy are about each clerk and maildrop.
fn has_places(policy: &Policy, places: &[(&str, &str, usize)]) -> Result<bool, Fail> {
    for (clerk, maildrop, count) in places {
        if policy.lane(&name(*clerk)?, &name(*maildrop)?).places() != *count {
            return Ok(false);
        }
    }
    Ok(true)
}

/// Whether another policy, made of parts of one, is written as this text.
fn is_made_as(alloc: Global, made: Option<Policy>, text: &str) -> Result<bool, AllocError> {
    match &made {
        Some(policy) => is_written_as(alloc, policy, text),
        None => Ok(false),
    }
}

/// Whether the rules alone are the sample policy, or none if they may not be one.
fn are_sound_alone(alloc: Global, policy: &Policy, may_be: bool) -> Result<bool, Fail> {
    match &of_rules(alloc, policy)? {
        Some(alone) => Ok(may_be && is_sample(alone)?),
        None => Ok(!may_be),
    }
}

/// Whether a policy is written as its row's text, so that it is read again as it was, and so is its
/// copy and the policy of its parts.
fn is_as_its_row(alloc: Global, policy: &Policy, row: &Row) -> Result<bool, Fail> {
    let (text, is_sound, places) = row;
    Ok(
        is_written_as(alloc, policy, *text)?
            && is_written_as(alloc, &policy.try_copy()?, *text)?
            && is_made_as(alloc, of_parts(alloc, policy)?, *text)?
            && are_sound_alone(alloc, policy, *is_sound)?
            && has_places(policy, *places)?,
    )
}

#[test]
fn policies_and_their_parts(rt: HostRuntime) -> Result<(), Fail> {
    for row in &ROWS {
        assert!(rt;
            is_as_its_row(rt.alloc(), &read(rt.alloc(), row.0)?, row)?,
            "{}",
            row.0
        );
    }
    assert!(rt; Policy::new(rt.alloc()).is_empty());
    Ok(())
}

/// The clerk of rule `n`. Some rules are about all clerks, and some about a group.
fn clerk_of(alloc: Global, n: usize) -> Result<String, AllocError> {
    if n % 50 == 49 {
        return String::from_str(alloc, "*");
    }
    if n % 3 == 1 {
        let group = n % 8;
        return format!(in alloc; "@g{group}");
    }
    let clerk = n % 40;
    format!(in alloc; "c{clerk}")
}

/// Puts eight groups into a policy's text. Clerks are in none, in one or in two of them, and c39 is
/// in all.
fn put_groups(text: &mut String) -> Result<(), AllocError> {
    for n in 0..8usize {
        let next = n.saturating_add(8);
        let other = 15usize.saturating_sub(n);
        let last = n.saturating_add(20);
        writeln!(
            text,
            "[[group]]\nname = \"g{n}\"\nmembers = [\"c{n}\", \"c{next}\", \"c{other}\", \"c{last}\", \"c39\"]"
        )?;
    }
    Ok(())
}

/// The maildrop of rule `n`. Some rules are about all maildrops.
fn maildrop_of(alloc: Global, n: usize) -> Result<String, AllocError> {
    if n % 45 == 44 {
        return String::from_str(alloc, "*");
    }
    let maildrop = n % 30;
    format!(in alloc; "m{maildrop}")
}

/// The rest of rule `n`: its effect, its class and its actions.
fn rest_of(n: usize) -> &'static str {
    match n % 5 {
        0 => "effect = \"allow\"\nclass = \"k0\"\nactions = [\"read\"]\n",
        1 => "effect = \"deny\"\nclass = \"*\"\nactions = [\"remove\"]\n",
        2 => "effect = \"deny\"\nclass = \"k0\"\nactions = [\"read\", \"remove\"]\n",
        3 => "effect = \"allow\"\nclass = \"*\"\nactions = [\"open\", \"read\", \"remove\"]\n",
        _ => "effect = \"deny\"\nclass = \"*\"\nactions = [\"open\"]\n",
    }
}

/// A policy of a thousand rules, about 40 clerks, eight groups of them or all, and about 30
/// maildrops or all.
fn a_thousand_rules(alloc: Global) -> Result<Policy, Fail> {
    let mut text = String::new(alloc);
    put_groups(&mut text)?;
    for n in 0..1000usize {
        let clerk = clerk_of(alloc, n)?;
        let maildrop = maildrop_of(alloc, n)?;
        let rest = rest_of(n);
        writeln!(
            text,
            "[[rule]]\nname = \"r{n}\"\nclerk = \"{clerk}\"\nmaildrop = \"{maildrop}\"\n{rest}"
        )?;
    }
    Ok(read(alloc, text.as_str())?)
}

fn fits(pattern: &Pattern, name: &Name) -> bool {
    match pattern {
        Pattern::Any => true,
        Pattern::Is(wanted) => wanted == name,
    }
}

/// Whether a group of this name has the clerk.
fn has_member(policy: &Policy, group: &Name, clerk: &Name) -> bool {
    for one in policy.groups() {
        if one.name() == group {
            return one.members().iter().any(|member| member == clerk);
        }
    }
    false
}

fn are_with(policy: &Policy, clerks: &Clerks, clerk: &Name) -> bool {
    match clerks {
        Clerks::Any => true,
        Clerks::Is(wanted) => wanted == clerk,
        Clerks::MembersOf(group) => has_member(policy, group, clerk),
    }
}

fn is_listed(actions: Actions, action: Action) -> bool {
    match action {
        Action::Open => actions.open,
        Action::Read => actions.read,
        Action::Remove => actions.remove,
    }
}

/// The first rule that matches, found by a walk over all rules.
fn walked(
    policy: &Policy,
    clerk: &Name,
    maildrop: &Name,
    class: &Name,
    action: Action,
) -> Option<Rule> {
    for rule in policy.rules() {
        let fits_class = action == Action::Open || fits(&rule.class, class);
        let fits_rest = fits(&rule.maildrop, maildrop) && fits_class;
        if fits_rest && is_listed(rule.actions, action) && are_with(policy, &rule.clerk, clerk) {
            return Some(*rule);
        }
    }
    None
}

/// Whether a lane decides as the walk does.
fn agrees(policy: &Policy, clerk: &Name, maildrop: &Name, class: &Name, action: Action) -> bool {
    let decided = policy.lane(clerk, maildrop).decide(class, action);
    match walked(policy, clerk, maildrop, class, action) {
        Some(rule) => decided.rule == rule.name
            && decided.allowed == (rule.effect == Effect::Allow),
        None => decided.rule.as_str() == "default" && !decided.allowed,
    }
}

/// Whether the lane of a clerk and a maildrop agrees with the walk, at each class and action.
fn lane_agrees(policy: &Policy, clerk: &Name, maildrop: &Name) -> Result<bool, Fail> {
    for class in ["k0", "k1"] {
        let class = name(class)?;
        for action in [Action::Open, Action::Read, Action::Remove] {
            if !agrees(policy, clerk, maildrop, &class, action) {
                return Ok(false);
            }
        }
    }
    Ok(true)
}

/// Whether the lanes of a clerk agree with the walk.
fn lanes_agree(alloc: Global, policy: &Policy, clerk: usize) -> Result<bool, Fail> {
    let clerk = format!(in alloc; "c{clerk}")?;
    let clerk = name(clerk.as_str())?;
    for n in 0..31usize {
        let maildrop = format!(in alloc; "m{n}")?;
        if !lane_agrees(policy, &clerk, &name(maildrop.as_str())?)? {
            return Ok(false);
        }
    }
    Ok(true)
}

/// In a policy of a thousand rules, the lane of each clerk and maildrop decides as a walk over all
/// rules. So does that of a clerk and a maildrop that no rule and no group names.
#[test]
fn lanes_of_a_thousand_rules(rt: HostRuntime) -> Result<(), Fail> {
    let policy = a_thousand_rules(rt.alloc())?;
    assert_eq!(rt; policy.len(), 1000);
    for clerk in 0..41usize {
        assert!(rt; lanes_agree(rt.alloc(), &policy, clerk)?);
    }
    Ok(())
}
