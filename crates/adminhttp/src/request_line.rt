//! The line of a request, as far as a log may show it: its method, and what its target names.

ghost use Rattle.std.specs.Prelude.{◌≡◌, IfOk, string_bytes};
ghost use Rattle.office.specs.Seen.{command_seen};
ghost use Rattle.adminhttp.specs.RequestLines.{method_text, path_of, line_of, method_of, IsLine};
ghost use Rattle.adminhttp.specs.RequestLines.{action_text};

use crate::head::{MAX_HEADERS, read_head};
use crate::no_command::NoCommand;
use crate::target::{Target, read_target};
use creds::Name;
use httparse::spans::EMPTY_HEADER_SPAN;
use office::AdminCommand;
use policy::Action;
use std::alloc::{AllocError, Global};

/// A method that a route has.
#[derive(Clone, Copy, PartialEq, Eq, Debug)]
pub enum Method {
    /// GET.
    Get,
    /// PUT.
    Put,
    /// DELETE.
    Delete,
}

impl Method {
    /// The method, as a request spells it.
    pub fn text(&self) -> &'static str
        ensures { result.now ≡ method_text self.now }
    {
        match self {
            Method::Get => "GET",
            Method::Put => "PUT",
            Method::Delete => "DELETE",
        }
    }

    /// The method that is spelled so; `None` if no route has it.
    fn read(text: &[u8]) -> Option<Method>
        ensures { result ≡ method_of text.now }
    {
        if text == b"GET".as_slice() {
            Some(Method::Get)
        } else if text == b"PUT".as_slice() {
            Some(Method::Put)
        } else if text == b"DELETE".as_slice() {
            Some(Method::Delete)
        } else {
            None
        }
    }
}

/// The method of a request, and what its target names. It has nothing of a body, and so no password
/// and no secret.
#[derive(Clone, Copy)]
pub struct RequestLine {
    /// Its method.
    pub method: Method,
    /// What its target names.
    pub target: Target,
}

impl RequestLine {
    /// The line that asks for a command.
    pub fn of(command: &AdminCommand) -> RequestLine
        ensures { result ≡ line_of (command_seen command.now) }
    {
        match command {
            AdminCommand::ListMaildrops => get(Target::Maildrops),
            AdminCommand::ShowMaildrop(maildrop) => get(Target::Maildrop(*maildrop)),
            AdminCommand::AddMaildrop(maildrop) => put(Target::Maildrop(*maildrop)),
            AdminCommand::DropMaildrop(maildrop) => delete(Target::Maildrop(*maildrop)),
            AdminCommand::ListClerks => get(Target::Clerks),
            AdminCommand::ShowClerk(clerk) => get(Target::Clerk(*clerk)),
            AdminCommand::PutClerk(clerk, _) => put(Target::Clerk(*clerk)),
            AdminCommand::DropClerk(clerk) => delete(Target::Clerk(*clerk)),
            AdminCommand::ShowPolicy => get(Target::Policy),
            AdminCommand::SetPolicy(_) => put(Target::Policy),
            AdminCommand::ListGroups => get(Target::Groups),
            AdminCommand::ListSessions => get(Target::Sessions),
            AdminCommand::EndSession(number) => delete(Target::Session(*number)),
            AdminCommand::Explain {
                clerk,
                maildrop,
                class,
                action,
            } => get(Target::Explain {
                clerk: *clerk,
                maildrop: *maildrop,
                class: *class,
                action: *action,
            }),
        }
    }

    /// The line of a request's octets; `None` if their head hasn't ended or is none, its target
    /// names nothing, or no route has its method. An `Err` is want of memory.
    pub fn read(alloc: Global, octets: &[u8]) -> Result<Option<RequestLine>, AllocError>
        ensures { IfOk result (IsLine octets.now) }
    {
        let mut headers = [EMPTY_HEADER_SPAN; MAX_HEADERS];
        let Ok(head) = read_head(octets, &mut headers) else {
            return Ok(None);
        };
        let target = match read_target(alloc, head.target) {
            Ok(target) => target,
            Err(NoCommand::NoMemory) => return Err(AllocError),
            Err(_) => return Ok(None),
        };
        match Method::read(head.method) {
            Some(method) => Ok(Some(RequestLine { method, target })),
            None => Ok(None),
        }
    }

    /// The path of what its target names. An `Err` is want of memory.
    pub fn path(&self, alloc: Global) -> Result<String, AllocError>
        ensures { IfOk result (λ path. string_bytes path ≡ path_of self.now.target) }
    {
        match &self.target {
            Target::Maildrops => String::from_str(alloc, "/maildrops"),
            Target::Maildrop(maildrop) => maildrop_path(alloc, *maildrop),
            Target::Clerks => String::from_str(alloc, "/clerks"),
            Target::Clerk(clerk) => clerk_path(alloc, *clerk),
            Target::Policy => String::from_str(alloc, "/policy"),
            Target::Groups => String::from_str(alloc, "/groups"),
            Target::Sessions => String::from_str(alloc, "/sessions"),
            Target::Session(number) => session_path(alloc, *number),
            Target::Explain {
                clerk,
                maildrop,
                class,
                action,
            } => explain_path(alloc, *clerk, *maildrop, *class, *action),
        }
    }
}

/// The line of GET on a target.
fn get(target: Target) -> RequestLine
    ensures method { result.method ≡ Method.Get }
    ensures target { result.target ≡ target }
{
    RequestLine {
        method: Method::Get,
        target,
    }
}

/// The line of PUT on a target.
fn put(target: Target) -> RequestLine
    ensures method { result.method ≡ Method.Put }
    ensures target { result.target ≡ target }
{
    RequestLine {
        method: Method::Put,
        target,
    }
}

/// The line of DELETE on a target.
fn delete(target: Target) -> RequestLine
    ensures method { result.method ≡ Method.Delete }
    ensures target { result.target ≡ target }
{
    RequestLine {
        method: Method::Delete,
        target,
    }
}

/// The path of a maildrop.
fn maildrop_path(alloc: Global, maildrop: Name) -> Result<String, AllocError>
    ensures { IfOk result (λ path. string_bytes path ≡ path_of (Target.Maildrop maildrop)) }
{
    let text = format!(in alloc; "/maildrops/{maildrop}")?;
    Ok(text)
}

/// The path of a clerk.
fn clerk_path(alloc: Global, clerk: Name) -> Result<String, AllocError>
    ensures { IfOk result (λ path. string_bytes path ≡ path_of (Target.Clerk clerk)) }
{
    let text = format!(in alloc; "/clerks/{clerk}")?;
    Ok(text)
}

/// The path of a session.
fn session_path(alloc: Global, number: u64) -> Result<String, AllocError>
    ensures { IfOk result (λ path. string_bytes path ≡ path_of (Target.Session number)) }
{
    let text = format!(in alloc; "/sessions/{number}")?;
    Ok(text)
}

/// The path of what the policy says.
fn explain_path(
    alloc: Global,
    clerk: Name,
    maildrop: Name,
    class: Name,
    action: Action,
) -> Result<String, AllocError>
    ensures { IfOk result (λ path. string_bytes path
        ≡ path_of (Target.Explain clerk maildrop class action)) }
{
    let action = action_word(action);
    let text = format!(in alloc; "/explain/{clerk}/{maildrop}/{class}/{action}")?;
    Ok(text)
}

/// An action, as a path names it.
fn action_word(action: Action) -> &'static str
    ensures { result.now ≡ action_text action }
{
    match action {
        Action::Open => "open",
        Action::Read => "read",
        Action::Remove => "remove",
    }
}
