//! The texts of answers: what deposits and an administrator's commands are answered.

ghost use Rattle.std.specs.Prelude.{◌≡◌, IfOk, map};
ghost use Rattle.office.specs.Answers.{body_of, body_line, body_lines, total_text, message_text};
ghost use Rattle.office.specs.Answers.{session_text, group_line, New, Known, Explained, PolicyIs};
ghost use Rattle.office.specs.Answers.{RuleCount, clerk_text, kind_text};
ghost use Rattle.office.specs.Seen.{answer_seen, row_seen, session_seen};

use crate::answer::{Answer, MessageRow, SessionRow};
use creds::Uid;
use policy::{Decision, Group, Policy};
use std::alloc::{AllocError, Global};
use vault::{ClerkKind, CredentialKind, Total};

/// The body of an answer, as scripts and HTTP show it: the written policy, or lines that each end
/// with LF. A list without rows has an empty body. An error means want of memory.
pub fn answer_body(alloc: Global, answer: &Answer) -> Result<Vec<u8>, AllocError>
    ensures { IfOk result (λ body. body.items ≡ body_of (answer_seen answer.now)) }
{
    match answer {
        Answer::New(uid) => new_line(alloc, *uid),
        Answer::Known(uid) => known_line(alloc, *uid),
        Answer::EmptyText => octets_of(alloc, "empty text\n"),
        Answer::TextTooLarge => octets_of(alloc, "too large\n"),
        Answer::NoSuchMaildrop => octets_of(alloc, "no such maildrop\n"),
        Answer::Conflict => octets_of(alloc, "conflict\n"),
        Answer::Full => octets_of(alloc, "full\n"),
        Answer::Maildrops(totals) => total_lines(alloc, totals.rows()),
        Answer::Messages(messages) => message_lines(alloc, messages.rows()),
        Answer::Added => octets_of(alloc, "added\n"),
        Answer::WasThere => octets_of(alloc, "was there\n"),
        Answer::Dropped => octets_of(alloc, "dropped\n"),
        Answer::MaildropInUse => octets_of(alloc, "in use\n"),
        Answer::NotEmpty => octets_of(alloc, "not empty\n"),
        Answer::Clerks(clerks) => clerk_lines(alloc, clerks.rows()),
        Answer::ByApopSecret => octets_of(alloc, "apop\n"),
        Answer::ByPassword => octets_of(alloc, "pass\n"),
        Answer::NoSuchClerk => octets_of(alloc, "no such clerk\n"),
        Answer::Replaced => octets_of(alloc, "replaced\n"),
        Answer::PolicyIs(policy) => written(alloc, policy),
        Answer::RuleCount(rules) => count_line(alloc, *rules),
        Answer::GroupsOf(policy) => group_lines(alloc, policy.groups()),
        Answer::Sessions(sessions) => session_lines(alloc, sessions.rows()),
        Answer::Ended => octets_of(alloc, "ended\n"),
        Answer::NoSuchSession => octets_of(alloc, "no such session\n"),
        Answer::Explained(decision) => decision_line(alloc, *decision),
    }
}

/// The octets of a text.
fn octets_of(alloc: Global, text: &str) -> Result<Vec<u8>, AllocError>
    ensures { IfOk result (λ octets. octets.items ≡ text.now) }
{
    let mut octets = Vec::new(alloc);
    octets.extend_from_slice(text.as_bytes())?;
    Ok(octets)
}

/// The written text of a policy.
fn written(alloc: Global, policy: &Policy) -> Result<Vec<u8>, AllocError>
    ensures { IfOk result (λ text. text.items ≡ body_of (PolicyIs policy.now)) }
{
    let mut text = Vec::new(alloc);
    policy.write(&mut text)?;
    Ok(text)
}

/// The line that says how many rules a policy has.
fn count_line(alloc: Global, rules: u64) -> Result<Vec<u8>, AllocError>
    ensures { IfOk result (λ line. line.items ≡ body_of (RuleCount rules)) }
{
    let text = format!(in alloc; "{rules} rules\n")?;
    Ok(text.into_bytes())
}

/// The line with the unique-id of a new deposit.
fn new_line(alloc: Global, uid: Uid) -> Result<Vec<u8>, AllocError>
    ensures { IfOk result (λ line. line.items ≡ body_of (New uid)) }
{
    let text = format!(in alloc; "new {uid}\n")?;
    Ok(text.into_bytes())
}

/// The line with the unique-id of a deposit that came before.
fn known_line(alloc: Global, uid: Uid) -> Result<Vec<u8>, AllocError>
    ensures { IfOk result (λ line. line.items ≡ body_of (Known uid)) }
{
    let text = format!(in alloc; "known {uid}\n")?;
    Ok(text.into_bytes())
}

/// The line that says what the policy says, and by which rule.
fn decision_line(alloc: Global, decision: Decision) -> Result<Vec<u8>, AllocError>
    ensures { IfOk result (λ line. line.items ≡ body_of (Explained decision)) }
{
    let rule = decision.rule;
    if decision.allowed {
        let text = format!(in alloc; "allow by rule {rule}\n")?;
        Ok(text.into_bytes())
    } else {
        let text = format!(in alloc; "deny by rule {rule}\n")?;
        Ok(text.into_bytes())
    }
}

/// A line for each maildrop.
fn total_lines(alloc: Global, rows: &[Total]) -> Result<Vec<u8>, AllocError>
    ensures { IfOk result (λ text. text.items ≡ body_lines total_text rows.now) }
{
    let mut text = Vec::new(alloc);
    for row in rows {
        let line = total_line(alloc, *row)?;
        text.extend_from_slice(&line)?;
    }
    Ok(text)
}

/// The line of a maildrop: its name, how many messages it has, and their octets.
fn total_line(alloc: Global, row: Total) -> Result<Vec<u8>, AllocError>
    ensures { IfOk result (λ line. line.items ≡ body_line (total_text row)) }
{
    let maildrop = row.maildrop;
    let messages = row.messages;
    let octets = row.octets;
    let text = format!(in alloc; "{maildrop} {messages} {octets}\n")?;
    Ok(text.into_bytes())
}

/// A line for each clerk.
fn clerk_lines(alloc: Global, rows: &[ClerkKind]) -> Result<Vec<u8>, AllocError>
    ensures { IfOk result (λ text. text.items ≡ body_lines clerk_text rows.now) }
{
    let mut text = Vec::new(alloc);
    for row in rows {
        let line = clerk_line(alloc, *row)?;
        text.extend_from_slice(&line)?;
    }
    Ok(text)
}

/// The line of a clerk: the name, and the kind of the credential.
fn clerk_line(alloc: Global, row: ClerkKind) -> Result<Vec<u8>, AllocError>
    ensures { IfOk result (λ line. line.items ≡ body_line (clerk_text row)) }
{
    let clerk = row.clerk;
    let kind = kind_word(row.kind);
    let text = format!(in alloc; "{clerk} {kind}\n")?;
    Ok(text.into_bytes())
}

/// The word for a kind of credential.
fn kind_word(kind: CredentialKind) -> &'static str
    ensures { result.now ≡ kind_text kind }
{
    match kind {
        CredentialKind::Apop => "apop",
        CredentialKind::Pass => "pass",
    }
}

/// A line for each message.
fn message_lines(alloc: Global, rows: &[MessageRow]) -> Result<Vec<u8>, AllocError>
    ensures { IfOk result (λ text. text.items ≡ body_lines message_text (map row_seen rows.now)) }
{
    let mut text = Vec::new(alloc);
    for row in rows {
        let line = message_line(alloc, *row)?;
        text.extend_from_slice(&line)?;
    }
    Ok(text)
}

/// The line of a message: its unique-id and its octets.
fn message_line(alloc: Global, row: MessageRow) -> Result<Vec<u8>, AllocError>
    ensures { IfOk result (λ line. line.items ≡ body_line (message_text (row_seen row))) }
{
    let uid = row.uid;
    let octets = row.octets;
    let text = format!(in alloc; "{uid} {octets}\n")?;
    Ok(text.into_bytes())
}

/// A line for each group.
fn group_lines(alloc: Global, groups: &[Group]) -> Result<Vec<u8>, AllocError>
    ensures { IfOk result (λ text. text.items ≡ body_lines group_line groups.now) }
{
    let mut text = Vec::new(alloc);
    for group in groups {
        let line = group_line(alloc, group)?;
        text.extend_from_slice(&line)?;
    }
    Ok(text)
}

/// The line of a group: its name, and how many members it has.
fn group_line(alloc: Global, group: &Group) -> Result<Vec<u8>, AllocError>
    ensures { IfOk result (λ line. line.items ≡ body_line (group_line group.now)) }
{
    let name = group.name();
    let members = group.members().len();
    let text = format!(in alloc; "{name} {members}\n")?;
    Ok(text.into_bytes())
}

/// A line for each session.
fn session_lines(alloc: Global, rows: &[SessionRow]) -> Result<Vec<u8>, AllocError>
    ensures { IfOk result (λ text. text.items
        ≡ body_lines session_text (map session_seen rows.now)) }
{
    let mut text = Vec::new(alloc);
    for row in rows {
        let line = session_line(alloc, *row)?;
        text.extend_from_slice(&line)?;
    }
    Ok(text)
}

/// The line of a session: its connection's number, its clerk and its maildrop.
fn session_line(alloc: Global, row: SessionRow) -> Result<Vec<u8>, AllocError>
    ensures { IfOk result (λ line. line.items ≡ body_line (session_text (session_seen row))) }
{
    let number = row.number;
    let clerk = row.name.clerk;
    let maildrop = row.name.maildrop;
    let text = format!(in alloc; "{number} {clerk} {maildrop}\n")?;
    Ok(text.into_bytes())
}
