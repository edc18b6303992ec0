//! What a response says, as a log has it: its status code, and the line of its body.

ghost use Rattle.std.specs.Prelude.{◌≡◌, ◌++◌, IfOk, option_map, string_bytes, Some, codes};
ghost use Rattle.std.specs.Fmt.{decimal};
ghost use Rattle.creds.specs.Uid.{uid_text};
ghost use Rattle.policy.specs.PolicyText.{fault_text as text_of_fault};
ghost use Rattle.office.specs.Answers.{decision_text};
ghost use Rattle.office.specs.Seen.{answer_seen};
ghost use Rattle.adminhttp.specs.Contents.{response_of, status_code as code_of, line_told};
ghost use Rattle.adminhttp.specs.Contents.{answer_line as line_of_answer, refusal_text};
ghost use Rattle.adminhttp.specs.Responses.{answer_response, refusal_response};

use crate::refusal::Refusal;
use creds::Uid;
use office::Answer;
use policy::{Decision, PolicyFault};
use std::alloc::{AllocError, Global};

/// What a response says.
#[derive(Clone, Copy)]
pub enum Content<'a> {
    /// The answer to a command.
    Answer(&'a Answer),
    /// Why the request isn't done.
    Refusal(Refusal),
    /// Why a body is no policy.
    Fault(PolicyFault),
}

impl Content<'_> {
    /// The status code of the response.
    #[tactic(auto, unfolding(crate::specs::Responses::response_text))]
    pub fn status_code(&self) -> &'static str
        ensures { result.now ≡ code_of (response_of self.now) }
    {
        match self {
            Content::Answer(answer) => code_of_answer(answer),
            Content::Refusal(refusal) => code_of_refusal(*refusal),
            Content::Fault(_) => "400",
        }
    }

    /// The line of the response's body, without its LF; `None` if it is rows or a policy. An
    /// `Err` is want of memory.
    pub fn line(&self, alloc: Global) -> Result<Option<String>, AllocError>
        ensures { IfOk result (λ line. option_map string_bytes line ≡ line_told self.now) }
    {
        match self {
            Content::Answer(answer) => answer_line(alloc, answer),
            Content::Refusal(refusal) => refusal_line(alloc, *refusal),
            Content::Fault(fault) => fault_line(alloc, *fault),
        }
    }
}

/// The status code of an answer's response.
#[tactic(auto, unfolding(crate::specs::Responses::response_text))]
fn code_of_answer(answer: &Answer) -> &'static str
    ensures { result.now ≡ code_of (answer_response (answer_seen answer.now)) }
{
    match answer {
        Answer::New(_) | Answer::Added => "201",
        Answer::Known(_)
        | Answer::Maildrops(_)
        | Answer::Messages(_)
        | Answer::WasThere
        | Answer::Dropped
        | Answer::Clerks(_)
        | Answer::ByApopSecret
        | Answer::ByPassword
        | Answer::Replaced
        | Answer::PolicyIs(_)
        | Answer::RuleCount(_)
        | Answer::GroupsOf(_)
        | Answer::Sessions(_)
        | Answer::Ended
        | Answer::Explained(_) => "200",
        Answer::EmptyText => "400",
        Answer::NoSuchMaildrop | Answer::NoSuchClerk | Answer::NoSuchSession => "404",
        Answer::Conflict | Answer::Full | Answer::MaildropInUse | Answer::NotEmpty => "409",
        Answer::TextTooLarge => "413",
    }
}

/// The status code of a refusal's response.
#[tactic(auto, unfolding(crate::specs::Responses::response_text, crate::specs::Responses::refusal_response))]
fn code_of_refusal(refusal: Refusal) -> &'static str
    ensures { result.now ≡ code_of (refusal_response refusal) }
{
    match refusal {
        Refusal::BadRequest => "400",
        Refusal::ForeignSite => "403",
        Refusal::NotFound => "404",
        Refusal::NotAllowed(_) => "405",
        Refusal::LengthRequired => "411",
        Refusal::TooLarge => "413",
        Refusal::StoreFailed | Refusal::OutOfMemory => "503",
    }
}

/// The line of an answer's body; `None` if it is rows or a policy.
fn answer_line(alloc: Global, answer: &Answer) -> Result<Option<String>, AllocError>
    ensures { IfOk result (λ line. option_map string_bytes line
        ≡ line_of_answer (answer_seen answer.now)) }
{
    match answer {
        Answer::Maildrops(_)
        | Answer::Messages(_)
        | Answer::Clerks(_)
        | Answer::PolicyIs(_)
        | Answer::GroupsOf(_)
        | Answer::Sessions(_) => Ok(None),
        Answer::New(uid) => new_line(alloc, *uid),
        Answer::Known(uid) => known_line(alloc, *uid),
        Answer::RuleCount(rules) => count_line(alloc, *rules),
        Answer::Explained(decision) => decision_line(alloc, *decision),
        Answer::EmptyText => word(alloc, "empty text"),
        Answer::TextTooLarge => word(alloc, "too large"),
        Answer::NoSuchMaildrop => word(alloc, "no such maildrop"),
        Answer::Conflict => word(alloc, "conflict"),
        Answer::Full => word(alloc, "full"),
        Answer::Added => word(alloc, "added"),
        Answer::WasThere => word(alloc, "was there"),
        Answer::Dropped => word(alloc, "dropped"),
        Answer::MaildropInUse => word(alloc, "in use"),
        Answer::NotEmpty => word(alloc, "not empty"),
        Answer::ByApopSecret => word(alloc, "apop"),
        Answer::ByPassword => word(alloc, "pass"),
        Answer::NoSuchClerk => word(alloc, "no such clerk"),
        Answer::Replaced => word(alloc, "replaced"),
        Answer::Ended => word(alloc, "ended"),
        Answer::NoSuchSession => word(alloc, "no such session"),
    }
}

/// A line of these words.
fn word(alloc: Global, text: &str) -> Result<Option<String>, AllocError>
    ensures { IfOk result (λ line. option_map string_bytes line ≡ Some text.now) }
{
    let line = String::from_str(alloc, text)?;
    Ok(Some(line))
}

/// The unique-id of a new deposit.
fn new_line(alloc: Global, uid: Uid) -> Result<Option<String>, AllocError>
    ensures { IfOk result (λ line. option_map string_bytes line
        ≡ Some (codes "new " ++ uid_text uid)) }
{
    let line = format!(in alloc; "new {uid}")?;
    Ok(Some(line))
}

/// The unique-id of a deposit that came before.
fn known_line(alloc: Global, uid: Uid) -> Result<Option<String>, AllocError>
    ensures { IfOk result (λ line. option_map string_bytes line
        ≡ Some (codes "known " ++ uid_text uid)) }
{
    let line = format!(in alloc; "known {uid}")?;
    Ok(Some(line))
}

/// How many rules a policy has.
fn count_line(alloc: Global, rules: u64) -> Result<Option<String>, AllocError>
    ensures { IfOk result (λ line. option_map string_bytes line
        ≡ Some (decimal rules ++ codes " rules")) }
{
    let line = format!(in alloc; "{rules} rules")?;
    Ok(Some(line))
}

/// What the policy says, and by which rule.
fn decision_line(alloc: Global, decision: Decision) -> Result<Option<String>, AllocError>
    ensures { IfOk result (λ line. option_map string_bytes line
        ≡ Some (decision_text decision.allowed decision.rule)) }
{
    let rule = decision.rule;
    if decision.allowed {
        let line = format!(in alloc; "allow by rule {rule}")?;
        Ok(Some(line))
    } else {
        let line = format!(in alloc; "deny by rule {rule}")?;
        Ok(Some(line))
    }
}

/// What a refusal is logged as.
fn refusal_line(alloc: Global, refusal: Refusal) -> Result<Option<String>, AllocError>
    ensures { IfOk result (λ line. option_map string_bytes line ≡ Some (refusal_text refusal)) }
{
    match refusal {
        Refusal::BadRequest => word(alloc, "bad request"),
        Refusal::ForeignSite => word(alloc, "another site's request"),
        Refusal::NotFound => word(alloc, "not found"),
        Refusal::NotAllowed(_) => word(alloc, "method not allowed"),
        Refusal::LengthRequired => word(alloc, "length required"),
        Refusal::TooLarge => word(alloc, "too large"),
        Refusal::StoreFailed => word(alloc, "store failed"),
        Refusal::OutOfMemory => word(alloc, "out of memory"),
    }
}

/// A policy's fault.
fn fault_line(alloc: Global, fault: PolicyFault) -> Result<Option<String>, AllocError>
    ensures { IfOk result (λ line. option_map string_bytes line ≡ Some (text_of_fault fault)) }
{
    let line = format!(in alloc; "{fault}")?;
    Ok(Some(line))
}
