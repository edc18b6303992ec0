//! What no clause says: that the calls of a session succeed, and bob's view of the sample store.
use creds::Name;
use policy::Policy;
use session::{Pick, Removals, Session};
use std::alloc::{AllocError, Global};
use std::test::Fail;
use vault::{Head, MessageKey};

/// The sample policy's rules about bob.
pub(super) static RULES: &str = r#"
[[rule]]
name = "bob-open"
effect = "allow"
clerk = "bob"
maildrop = "orders"
class = "*"
actions = ["open"]

[[rule]]
name = "bob-no-pay"
effect = "deny"
clerk = "bob"
maildrop = "orders"
class = "pay"
actions = ["read", "remove"]

[[rule]]
name = "bob-read"
effect = "allow"
clerk = "bob"
maildrop = "orders"
class = "*"
actions = ["read"]

[[rule]]
name = "bob-rm"
effect = "allow"
clerk = "bob"
maildrop = "orders"
class = "note"
actions = ["remove"]
"#;

/// A rule that, put in front, lets nobody remove anything from `orders`.
const FREEZE: &str = r#"
[[rule]]
name = "freeze"
effect = "deny"
clerk = "*"
maildrop = "orders"
class = "*"
actions = ["remove"]
"#;

/// A rule that, put in front, lets nobody read notes.
const HIDE: &str = r#"
[[rule]]
name = "hide"
effect = "deny"
clerk = "*"
maildrop = "*"
class = "note"
actions = ["read"]
"#;

/// The heads of the sample store's maildrop `orders`.
fn sample_heads(alloc: Global) -> Result<Vec<Head>, Fail> {
    let mut heads = Vec::new(alloc);
    for (key, class, k, octets) in [
        (11, "note", 1, 21),
        (12, "pay", 1, 19),
        (13, "note", 2, 15),
        (14, "todo", 1, 25),
    ] {
        let class = Name::read(class.as_bytes()).ok_or("a class")?;
        let key = MessageKey::new(key);
        heads.push(Head {
            key,
            class,
            k,
            octets,
        })?;
    }
    Ok(heads)
}

pub(super) fn bob_session(alloc: Global, policy: &Policy) -> Result<Session, Fail> {
    bob_session_with(alloc, policy, Removals::JudgedAtDele)
}

/// Bob's session, with this way of judging removals.
fn bob_session_with(alloc: Global, policy: &Policy, removals: Removals) -> Result<Session, Fail> {
    let clerk = Name::read(b"bob").ok_or("a clerk")?;
    let maildrop = Name::read(b"orders").ok_or("a maildrop")?;
    let heads = sample_heads(alloc)?;
    Ok(Session::start(alloc, clerk, maildrop, &heads, policy, removals)?)
}

/// Whether a number is refused for this cause.
fn is_picked(session: &Session, number: u64, pick: &Pick) -> bool {
    match session.pick(number) {
        Ok(_) => false,
        Err(refusal) => refusal == *pick,
    }
}

/// Marks a number. Whether that has this answer.
fn is_marked(
    session: &mut Session,
    number: u64,
    policy: &Policy,
    answer: &Result<(), Pick>,
) -> bool {
    session.mark(number, policy) == *answer
}

/// Whether the session shows so many messages of so many octets.
fn has_total(session: &Session, messages: u64, octets: u64) -> bool {
    session.stat() == (messages, octets)
}

/// Whether a QUIT under a policy removes these keys, and names this rule, or none.
fn removes(
    session: &Session,
    policy: &Policy,
    keys: &[MessageKey],
    rule: Option<Name>,
) -> Result<bool, Fail> {
    let plan = session.plan_quit(policy)?;
    Ok(plan.keys.as_slice() == keys && plan.removed.len() == keys.len() && plan.denied == rule)
}

fn name(text: &[u8]) -> Result<Name, Fail> {
    Ok(Name::read(text).ok_or("a name")?)
}

/// The session's clerk, its maildrop, its totals, and its scan and unique-id listings as they are
/// sent.
fn shown(alloc: Global, session: &Session) -> Result<String, AllocError> {
    let clerk = session.clerk();
    let maildrop = session.maildrop();
    let (messages, octets) = session.stat();
    let mut text = format!(in alloc; "{clerk} {maildrop}\n{messages} {octets}\n")?;
    for (number, octets) in session.list() {
        writeln!(text, "{number} {octets}")?;
    }
    for (number, uid) in session.uidl() {
        writeln!(text, "{number} {uid}")?;
    }
    Ok(text)
}

/// What is shown of bob's session.
static FILTERED: &str = "bob orders\n3 61\n1 21\n2 15\n3 25\n1 note.1\n2 note.2\n3 todo.1\n";

/// Whether no number but those of the view is picked.
fn has_no_others(session: &Session) -> bool {
    is_picked(session, 0, &Pick::NoSuch)
        && is_picked(session, 4, &Pick::NoSuch)
        && is_picked(session, u64::MAX, &Pick::NoSuch)
}

/// Marks message 3, and message 2 twice. Whether the first is denied, the second is done and the
/// third finds it marked.
fn marks_one(session: &mut Session, policy: &Policy) -> Result<bool, Fail> {
    let denied = Pick::Denied(name(b"default")?);
    Ok(
        is_marked(session, 3, policy, &Err(denied))
            && is_marked(session, 2, policy, &Ok(()))
            && is_marked(session, 2, policy, &Err(Pick::Deleted)),
    )
}

/// Whether the marked message 2 is hidden, and shown again after a reset.
fn is_reset(session: &mut Session) -> bool {
    let is_hidden = is_picked(session, 2, &Pick::Deleted) && has_total(session, 2, 46);
    session.reset();
    is_hidden && has_total(session, 3, 61) && has_k(session, 2, 2)
}

/// Whether the message of a number has the number `k` in its class.
fn has_k(session: &Session, number: u64, k: u64) -> bool {
    match session.pick(number) {
        Ok(head) => head.k == k,
        Err(_) => false,
    }
}

/// Whether numbers are picked, marked and reset as they must be.
fn is_marked_once(session: &mut Session, policy: &Policy) -> Result<bool, Fail> {
    Ok(has_no_others(session) && marks_one(session, policy)? && is_reset(session))
}

/// Marks message 2, and then message 1. Whether both are done.
fn marks_two(session: &mut Session, policy: &Policy) -> bool {
    is_marked(session, 2, policy, &Ok(())) && is_marked(session, 1, policy, &Ok(()))
}

/// Whether the keys of two marked messages are removed, and none and by which rule under a policy
/// that freezes `orders`.
fn is_frozen(session: &mut Session, policy: &Policy, frozen: &Policy) -> Result<bool, Fail> {
    let keys = [MessageKey::new(11), MessageKey::new(13)];
    Ok(
        marks_two(session, policy)
            && removes(session, policy, &keys, None)?
            && removes(session, frozen, &[], Some(name(b"freeze")?))?,
    )
}

/// Marks message 3, which the policy denies, and message 2. Whether both are marked, and each once.
fn marks_both(session: &mut Session, policy: &Policy) -> bool {
    is_marked(session, 3, policy, &Ok(()))
        && is_marked(session, 3, policy, &Err(Pick::Deleted))
        && is_marked(session, 2, policy, &Ok(()))
        && is_marked(session, 4, policy, &Err(Pick::NoSuch))
}

/// Whether a QUIT removes what the policy lets it of both that are marked.
fn is_judged_late(session: &mut Session, policy: &Policy) -> Result<bool, Fail> {
    let kept = name(b"default")?;
    Ok(
        marks_both(session, policy)
            && has_total(session, 1, 21)
            && removes(session, policy, &[MessageKey::new(13)], Some(kept))?,
    )
}

/// Whether reading a number under a policy gives the message with number `k` in its class, or is
/// refused for this cause.
fn is_read(session: &Session, number: u64, policy: &Policy, k: Result<u64, Pick>) -> bool {
    match session.pick_for(number, policy) {
        Ok(readable) => k == Ok(readable.head.k),
        Err(refusal) => k == Err(refusal),
    }
}

/// Whether a policy that hides notes is asked of those that aren't marked alone.
fn is_hidden_unmarked(session: &mut Session, policy: &Policy, hidden: &Policy) -> bool {
    marks_two(session, policy)
        && is_read(session, 1, hidden, Err(Pick::Deleted))
        && is_read(session, 3, hidden, Ok(1))
        && is_read(session, 4, hidden, Err(Pick::NoSuch))
}

/// Whether it denies a note, which is one of the view's still.
fn is_hidden(session: &Session, policy: &Policy, hidden: &Policy) -> Result<bool, Fail> {
    let hide = Pick::Denied(name(b"hide")?);
    Ok(
        is_read(session, 2, hidden, Err(hide))
            && is_read(session, 2, policy, Ok(2))
            && session.pick(2).is_ok(),
    )
}

/// What is tried of a session.
#[derive(Clone, Copy)]
enum Part {
    Shown,
    Marked,
    Frozen,
    JudgedLate,
    HiddenUnmarked,
    Hidden,
}

/// Each with the rule that a later policy has in front of bob's, and how removals are judged.
static PARTS: [(&str, Part, &str, Removals); 6] = [
    ("filtered view", Part::Shown, "", Removals::JudgedAtDele),
    (
        "marked numbers and reset",
        Part::Marked,
        "",
        Removals::JudgedAtDele,
    ),
    (
        "removals under a new policy",
        Part::Frozen,
        FREEZE,
        Removals::JudgedAtDele,
    ),
    (
        "removals judged at the quit",
        Part::JudgedLate,
        "",
        Removals::JudgedAtQuit,
    ),
    (
        "read under a new policy, marked",
        Part::HiddenUnmarked,
        HIDE,
        Removals::JudgedAtDele,
    ),
    (
        "read under a new policy",
        Part::Hidden,
        HIDE,
        Removals::JudgedAtDele,
    ),
];

/// Whether a part is so, in a session under bob's policy, and a later one.
fn is_so(
    alloc: Global,
    session: &mut Session,
    part: Part,
    policy: &Policy,
    later: &Policy,
) -> Result<bool, Fail> {
    match part {
        Part::Shown => Ok(shown(alloc, session)?.as_str() == FILTERED),
        Part::Marked => is_marked_once(session, policy),
        Part::Frozen => is_frozen(session, policy, later),
        Part::JudgedLate => is_judged_late(session, policy),
        Part::HiddenUnmarked => Ok(is_hidden_unmarked(session, policy, later)),
        Part::Hidden => is_hidden(session, policy, later),
    }
}

/// The rules about bob after another one.
fn rules_after(alloc: Global, rule: &str) -> Result<Policy, Fail> {
    let text = format!(in alloc; "{rule}{RULES}")?;
    Ok(Policy::read(alloc, text.as_str())?)
}

#[test]
fn session_of_bob(rt: HostRuntime) -> Result<(), Fail> {
    let alloc = rt.alloc();
    for (name, part, rule, removals) in &PARTS {
        let policy = rules_after(alloc, "")?;
        let later = rules_after(alloc, *rule)?;
        let mut session = bob_session_with(alloc, &policy, *removals)?;
        assert!(rt;
            is_so(alloc, &mut session, *part, &policy, &later)?,
            "{name}"
        );
    }
    Ok(())
}
