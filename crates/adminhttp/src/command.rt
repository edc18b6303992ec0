//! The command that a method asks of a target.

ghost use Rattle.std.specs.Prelude.{◌≡◌, ◌≢◌, IfOk, IfErr, Ok, Err};
ghost use Rattle.office.specs.Seen.{command_seen};
ghost use Rattle.adminhttp.specs.Head.{headers_of, LieIn};
ghost use Rattle.adminhttp.specs.Steps.{map_ok};
ghost use Rattle.adminhttp.specs.Request.{asked_of, by_get, clerks_asked, clerk_asked, clerk_put};
ghost use Rattle.adminhttp.specs.Request.{maildrop_asked, policy_asked, policy_put, session_asked};

use crate::body::{read_body, read_credential, read_policy, without_line_end};
use crate::head::Head;
use crate::no_command::NoCommand;
use crate::refusal::Refusal;
use crate::route::Route;
use crate::target::Target;
use creds::Name;
use httparse::spans::HeaderSpan;
use office::{AdminAccess, AdminCommand};
use std::alloc::Global;

/// The command that a request gives, by its target, its method and its body.
///
/// [`Refusal::NotFound`] for the list of the clerks, unless `access` has it;
/// [`Refusal::NotAllowed`] for a method that the route doesn't have; else, for PUT on a clerk or
/// the policy, what is wrong with the body.
pub fn read_command(
    alloc: Global,
    access: AdminAccess,
    target: &Target,
    head: &Head<'_>,
    headers: &[HeaderSpan],
) -> Result<AdminCommand, NoCommand>
    requires { LieIn head.now headers.now }
    ensures ok { IfOk result (λ command. asked_of access target.now head.now.method.now
        (headers_of head.now headers.now) head.now.behind.now ≡ Ok (command_seen command)) }
    ensures fault { IfErr result (λ stop. stop ≢ NoCommand.NoMemory
        → asked_of access target.now head.now.method.now (headers_of head.now headers.now)
        head.now.behind.now ≡ Err stop) }
{
    match target {
        Target::Maildrops => by_get(Route::Maildrops, head.method, AdminCommand::ListMaildrops),
        Target::Maildrop(maildrop) => maildrop_command(maildrop, head.method),
        Target::Clerks => clerks_command(access, head.method),
        Target::Clerk(clerk) => clerk_command(clerk, head, headers),
        Target::Policy => policy_command(alloc, head, headers),
        Target::Groups => by_get(Route::Groups, head.method, AdminCommand::ListGroups),
        Target::Sessions => by_get(Route::Sessions, head.method, AdminCommand::ListSessions),
        Target::Session(number) => session_command(*number, head.method),
        Target::Explain {
            clerk,
            maildrop,
            class,
            action,
        } => {
            let command = AdminCommand::Explain {
                clerk: *clerk,
                maildrop: *maildrop,
                class: *class,
                action: *action,
            };
            by_get(Route::Explain, head.method, command)
        }
    }
}

/// The command, if the method is GET, which is the route's only one.
fn by_get(route: Route, method: &[u8], command: AdminCommand) -> Result<AdminCommand, NoCommand>
    ensures { map_ok command_seen result ≡ by_get route method.now (command_seen command) }
{
    if method == b"GET".as_slice() {
        Ok(command)
    } else {
        Err(NoCommand::Bad(Refusal::NotAllowed(route)))
    }
}

/// The command that a method gives on a maildrop. A body isn't read.
#[tactic(auto, unfolding(crate::specs::Request::maildrop_asked))]
fn maildrop_command(maildrop: &Name, method: &[u8]) -> Result<AdminCommand, NoCommand>
    ensures { map_ok command_seen result ≡ maildrop_asked maildrop.now method.now }
{
    if method == b"GET".as_slice() {
        Ok(AdminCommand::ShowMaildrop(*maildrop))
    } else if method == b"PUT".as_slice() {
        Ok(AdminCommand::AddMaildrop(*maildrop))
    } else if method == b"DELETE".as_slice() {
        Ok(AdminCommand::DropMaildrop(*maildrop))
    } else {
        Err(NoCommand::Bad(Refusal::NotAllowed(Route::Maildrop)))
    }
}

/// The command that a method gives on the list of the clerks.
#[tactic(auto, unfolding(crate::specs::Request::clerks_asked))]
fn clerks_command(access: AdminAccess, method: &[u8]) -> Result<AdminCommand, NoCommand>
    ensures { map_ok command_seen result ≡ clerks_asked access method.now }
{
    if access.lists_clerks {
        by_get(Route::Clerks, method, AdminCommand::ListClerks)
    } else {
        Err(NoCommand::Bad(Refusal::NotFound))
    }
}

/// The command that a method gives on a clerk.
#[tactic(auto, unfolding(crate::specs::Request::clerk_asked))]
fn clerk_command(
    clerk: &Name,
    head: &Head<'_>,
    headers: &[HeaderSpan],
) -> Result<AdminCommand, NoCommand>
    requires { LieIn head.now headers.now }
    ensures { map_ok command_seen result ≡ clerk_asked clerk.now head.now.method.now
        (headers_of head.now headers.now) head.now.behind.now }
{
    if head.method == b"GET".as_slice() {
        Ok(AdminCommand::ShowClerk(*clerk))
    } else if head.method == b"PUT".as_slice() {
        put_clerk(clerk, head, headers)
    } else if head.method == b"DELETE".as_slice() {
        Ok(AdminCommand::DropClerk(*clerk))
    } else {
        Err(NoCommand::Bad(Refusal::NotAllowed(Route::Clerk)))
    }
}

/// The command that puts a clerk's credential.
#[tactic(auto, unfolding(crate::specs::Request::clerk_put))]
fn put_clerk(
    clerk: &Name,
    head: &Head<'_>,
    headers: &[HeaderSpan],
) -> Result<AdminCommand, NoCommand>
    requires { LieIn head.now headers.now }
    ensures { map_ok command_seen result ≡ clerk_put clerk.now (headers_of head.now headers.now)
        head.now.behind.now }
{
    let body = read_body(head, headers)?;
    match read_credential(clerk, without_line_end(body)) {
        Some(credential) => Ok(AdminCommand::PutClerk(*clerk, credential)),
        None => Err(NoCommand::Bad(Refusal::BadRequest)),
    }
}

/// The command that a method gives on the policy.
#[tactic(auto, unfolding(crate::specs::Request::policy_asked))]
fn policy_command(
    alloc: Global,
    head: &Head<'_>,
    headers: &[HeaderSpan],
) -> Result<AdminCommand, NoCommand>
    requires { LieIn head.now headers.now }
    ensures ok { IfOk result (λ command. policy_asked head.now.method.now
        (headers_of head.now headers.now) head.now.behind.now ≡ Ok (command_seen command)) }
    ensures fault { IfErr result (λ stop. stop ≢ NoCommand.NoMemory
        → policy_asked head.now.method.now (headers_of head.now headers.now) head.now.behind.now
        ≡ Err stop) }
{
    if head.method == b"GET".as_slice() {
        Ok(AdminCommand::ShowPolicy)
    } else if head.method == b"PUT".as_slice() {
        put_policy(alloc, head, headers)
    } else {
        Err(NoCommand::Bad(Refusal::NotAllowed(Route::Policy)))
    }
}

/// The command that sets the policy.
#[tactic(auto, unfolding(crate::specs::Request::policy_put))]
fn put_policy(
    alloc: Global,
    head: &Head<'_>,
    headers: &[HeaderSpan],
) -> Result<AdminCommand, NoCommand>
    requires { LieIn head.now headers.now }
    ensures ok { IfOk result (λ command. policy_put (headers_of head.now headers.now)
        head.now.behind.now ≡ Ok (command_seen command)) }
    ensures fault { IfErr result (λ stop. stop ≢ NoCommand.NoMemory
        → policy_put (headers_of head.now headers.now) head.now.behind.now ≡ Err stop) }
{
    let body = read_body(head, headers)?;
    let policy = read_policy(alloc, body)?;
    Ok(AdminCommand::SetPolicy(policy))
}

/// The command that a method gives on a session.
#[tactic(auto, unfolding(crate::specs::Request::session_asked))]
fn session_command(number: u64, method: &[u8]) -> Result<AdminCommand, NoCommand>
    ensures { map_ok command_seen result ≡ session_asked number method.now }
{
    if method == b"DELETE".as_slice() {
        Ok(AdminCommand::EndSession(number))
    } else {
        Err(NoCommand::Bad(Refusal::NotAllowed(Route::Session)))
    }
}
