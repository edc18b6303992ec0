//! Responses to answers, and to a body that is no policy (RFC 9112, 4).

ghost use Rattle.std.specs.Prelude.{◌≡◌, [], IfOk};
ghost use Rattle.std.specs.String.{string_bytes};
ghost use Rattle.office.specs.Answers.{body_line};
ghost use Rattle.office.specs.Seen.{answer_seen};
ghost use Rattle.policy.specs.PolicyText.{fault_text as text_of_fault};
ghost use Rattle.adminhttp.specs.Responses.{answer_response, fault_response, response_head};
ghost use Rattle.adminhttp.specs.Responses.{response_text, status_of as status_told};

use office::{Answer, answer_body};
use policy::PolicyFault;
use std::alloc::{AllocError, Global};

/// The octets of the response to an answer. An `Err` is want of memory.
pub fn response(alloc: Global, answer: &Answer) -> Result<Vec<u8>, AllocError>
    ensures { IfOk result (λ octets. octets.items ≡ answer_response (answer_seen answer.now)) }
{
    let body = answer_body(alloc, answer)?;
    respond(alloc, status_of(answer), &body)
}

/// The octets of the response to a body that is no policy. An `Err` is want of memory.
pub fn policy_response(alloc: Global, fault: &PolicyFault) -> Result<Vec<u8>, AllocError>
    ensures { IfOk result (λ octets. octets.items ≡ fault_response fault.now) }
{
    let body = fault_line(alloc, *fault)?;
    respond(alloc, "400 Bad Request", body.as_bytes())
}

/// The line of a policy's fault.
fn fault_line(alloc: Global, fault: PolicyFault) -> Result<String, AllocError>
    ensures { IfOk result (λ line. string_bytes line ≡ body_line (text_of_fault fault)) }
{
    format!(in alloc; "{fault}\n")
}

/// A response: its status with the reason, and its body.
#[tactic(auto, unfolding(crate::specs::Responses::response_text))]
fn respond(alloc: Global, status: &str, body: &[u8]) -> Result<Vec<u8>, AllocError>
    ensures { IfOk result (λ octets. octets.items ≡ response_text status.now [] body.now) }
{
    let head = head_text(alloc, status, body.len())?;
    let mut octets = head.into_bytes();
    octets.extend_from_slice(body)?;
    Ok(octets)
}

/// The head of a response, for a body of so many octets.
fn head_text(alloc: Global, status: &str, len: usize) -> Result<String, AllocError>
    ensures { IfOk result (λ head. string_bytes head ≡ response_head status.now [] len) }
{
    let text = format!(in alloc;
        "HTTP/1.1 {status}\r\nContent-Type: text/plain\r\nContent-Length: {len}\r\nConnection: close\r\n\r\n"
    )?;
    Ok(text)
}

/// The status of the response to an answer, with its reason.
fn status_of(answer: &Answer) -> &'static str
    ensures { result.now ≡ status_told (answer_seen answer.now) }
{
    match answer {
        Answer::New(_) | Answer::Added => "201 Created",
        Answer::Known(_)
        | Answer::Maildrops(_)
        | Answer::Messages(_)
        | Answer::WasThere
        | Answer::Dropped
        | Answer::Clerks(_)
        | Answer::ByApopSecret
        | Answer::ByPassword
        | Answer::Replaced
        | Answer::PolicyIs(_)
        | Answer::RuleCount(_)
        | Answer::GroupsOf(_)
        | Answer::Sessions(_)
        | Answer::Ended
        | Answer::Explained(_) => "200 OK",
        Answer::EmptyText => "400 Bad Request",
        Answer::NoSuchMaildrop | Answer::NoSuchClerk | Answer::NoSuchSession => "404 Not Found",
        Answer::Conflict | Answer::Full | Answer::MaildropInUse | Answer::NotEmpty =>
            "409 Conflict",
        Answer::TextTooLarge => "413 Content Too Large",
    }
}
