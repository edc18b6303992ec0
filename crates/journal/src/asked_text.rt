//! The line of what the administration was asked.
ghost use Rattle.std.specs.Prelude.{◌≡◌, IfOk, Some, option_map, string_bytes};
ghost use Rattle.adminhttp.specs.Contents.{line_told};
ghost use Rattle.journal.specs.AdminLines.{request_text as request_words, status_text};
ghost use Rattle.journal.specs.AdminLines.{sets_policy};
ghost use Rattle.journal.specs.AdminLines.{answer_text as answer_words, asked_text, unasked_text};

use super::policy_name::policy_text;
use adminhttp::{Content, RequestLine};
use office::Answer;
use serving::AdminRequest;
use std::alloc::{AllocError, Global};

/// The values of a request's line, if it has one.
fn request_text(alloc: Global, line: &Option<RequestLine>) -> Result<String, AllocError>
    ensures { IfOk result (λ text. string_bytes text ≡ request_words line.now) }
{
    let Some(line) = line else {
        return Ok(String::new(alloc));
    };
    let method = line.method.text();
    let path = line.path(alloc)?;
    let text = format!(in alloc; " method={method} path={path}")?;
    Ok(text)
}

/// The status; `none` if no response went out.
fn status_word(content: &Content<'_>, is_sent: bool) -> &'static str
    ensures { result.now ≡ status_text content.now is_sent }
{
    if is_sent {
        content.status_code()
    } else {
        "none"
    }
}

/// The value of the line of the response's body, if that is logged.
fn answer_text(alloc: Global, content: &Content<'_>) -> Result<String, AllocError>
    ensures { IfOk result (λ text. string_bytes text ≡ answer_words (line_told content.now)) }
{
    match content.line(alloc)? {
        Some(line) => told_text(alloc, line.as_str()),
        None => Ok(String::new(alloc)),
    }
}

/// The value of this line.
fn told_text(alloc: Global, line: &str) -> Result<String, AllocError>
    ensures { IfOk result (λ text. string_bytes text ≡ answer_words (Some line.now)) }
{
    let text = format!(in alloc; " answer=\"{line}\"")?;
    Ok(text)
}

/// Whether a response says that a policy was put in force.
fn sets_policy(content: &Content<'_>) -> bool
    ensures { result ≡ sets_policy content.now }
{
    match content {
        Content::Answer(answer) => matches!(answer, Answer::RuleCount(_)),
        Content::Refusal(_) | Content::Fault(_) => false,
    }
}

/// The line of what was asked, after the client's address. If it put a policy in force, the line
/// has that policy's name, `in_force`.
pub fn asked_line(
    alloc: Global,
    who: &str,
    asked: &AdminRequest<'_>,
    is_sent: bool,
    in_force: &Option<String>,
) -> Result<String, AllocError>
    ensures { IfOk result (λ text. string_bytes text ≡ asked_text who.now asked.now is_sent
        (option_map string_bytes in_force.now)) }
{
    let request = request_text(alloc, &asked.line)?;
    let status = status_word(&asked.content, is_sent);
    let answer = answer_text(alloc, &asked.content)?;
    let policy = policy_text(alloc, sets_policy(&asked.content), in_force)?;
    let text = format!(in alloc; "event=admin {who}{request} status={status}{answer}{policy}")?;
    Ok(text)
}

/// The line of a link that asked nothing.
pub fn unasked_line(alloc: Global, who: &str) -> Result<String, AllocError>
    ensures { IfOk result (λ text. string_bytes text ≡ unasked_text who.now) }
{
    let text = format!(in alloc; "event=admin {who} status=none answer=\"\"")?;
    Ok(text)
}
