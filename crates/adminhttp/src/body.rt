//! The bodies of requests: a clerk's credential, and a policy's text.

ghost use Rattle.std.specs.Prelude.{◌≡◌, ◌≢◌, IfOk, IfErr, Ok, Err};
ghost use Rattle.adminhttp.specs.Head.{headers_of, LieIn};
ghost use Rattle.adminhttp.specs.Steps.{map_ok};
ghost use Rattle.adminhttp.specs.Bodies.{body_of, without_line_end as text_of, credential_of};
ghost use Rattle.adminhttp.specs.Bodies.{policy_of, no_command_of as no_command_told};

use crate::fields::body_len;
use crate::head::Head;
use crate::no_command::NoCommand;
use creds::{Credential, Name, Secret, pass_digest};
use httparse::spans::HeaderSpan;
use policy::{Policy, PolicyFault};
use std::alloc::Global;
use std::str;

/// The body that follows a head, or why there is none: its length isn't given, is too great or
/// isn't of its form, or more octets are to come.
#[tactic(auto, unfolding(crate::specs::Bodies::body_of))]
pub fn read_body<'b>(head: &Head<'b>, headers: &[HeaderSpan]) -> Result<&'b [u8], NoCommand>
    requires { LieIn head.now headers.now }
    ensures { map_ok (λ v. v.now) result ≡ body_of (headers_of head.now headers.now)
        head.now.behind.now }
{
    let len = body_len(head.text, headers)?;
    if head.behind.len() < len {
        return Err(NoCommand::More);
    }
    Ok(&head.behind[..len])
}

/// A text without the LF, or the CR LF, at its end.
#[tactic(auto, unfolding(crate::specs::Bodies::without_line_end))]
pub fn without_line_end(text: &[u8]) -> &[u8]
    ensures { result.now ≡ text_of text.now }
{
    if text.ends_with(b"\r\n") {
        return &text[..text.len() - 2];
    }
    if text.ends_with(b"\n") {
        return &text[..text.len() - 1];
    }
    text
}

/// The credential that a clerk's body spells: `apop` or `pass`, a space, and the secret or the
/// password. `None` if it isn't of that form.
#[tactic(auto, unfolding(crate::specs::Bodies::credential_of))]
pub fn read_credential(clerk: &Name, text: &[u8]) -> Option<Credential>
    ensures { result ≡ credential_of clerk.now text.now }
{
    if text.starts_with(b"apop ") {
        let secret = Secret::read(&text[5..])?;
        Some(Credential::Apop(secret))
    } else if text.starts_with(b"pass ") {
        let password = Secret::read(&text[5..])?;
        Some(Credential::Pass(pass_digest(clerk, password.as_bytes())))
    } else {
        None
    }
}

/// The policy that a body spells, or its first fault. A body that isn't UTF-8 is
/// [`PolicyFault::NotToml`].
pub fn read_policy(alloc: Global, body: &[u8]) -> Result<Policy, NoCommand>
    ensures ok { IfOk result (λ policy. policy_of body.now ≡ Ok policy) }
    ensures fault { IfErr result (λ stop. stop ≢ NoCommand.NoMemory
        → policy_of body.now ≡ Err stop) }
{
    let Ok(text) = str::from_utf8(body) else {
        return Err(NoCommand::BadPolicy(PolicyFault::NotToml));
    };
    match Policy::read(alloc, text) {
        Ok(policy) => Ok(policy),
        Err(fault) => Err(no_command_of(fault)),
    }
}

/// Why a request whose body is no policy gives no command.
fn no_command_of(fault: PolicyFault) -> NoCommand
    ensures { result ≡ no_command_told fault }
{
    match fault {
        PolicyFault::NoMemory => NoCommand::NoMemory,
        _ => NoCommand::BadPolicy(fault),
    }
}
