//! The reader of requests.

ghost use Rattle.std.specs.Prelude.{◌≡◌, ◌≢◌, IfOk, IfErr, IfSome, Ok, Err};
ghost use Rattle.std.specs.Str.{IsUtf8};
ghost use Rattle.office.specs.Seen.{command_seen};
ghost use Rattle.adminhttp.specs.Head.{headers_of, LieIn};
ghost use Rattle.adminhttp.specs.Request.{IsRequest, asked_in, asked_by};
ghost use Rattle.adminhttp.specs.Request.{asked_of_site};

use super::{Got, Request};
use crate::command::read_command;
use crate::head::{Head, MAX_HEADERS, read_head};
use crate::no_command::NoCommand;
use crate::refusal::Refusal;
use crate::sites::is_own;
use crate::target::read_target;
use creds::HostName;
use httparse::spans::{EMPTY_HEADER_SPAN, HeaderSpan};
use office::{AdminAccess, AdminCommand};
use std::alloc::Global;

impl Request {
    /// What the octets that have come of a request come to, in an administration that was opened
    /// to answer `access`.
    ///
    /// Empty lines in front are dropped. Faults are looked for in this order: a head that hasn't
    /// ended within 8,192 octets or is none; if the administration has a site, headers by which the
    /// request isn't the site's own: no one Host (RFC 9110, 7.2) that is the site's name,
    /// `localhost`, `[::1]` or an address of 127.0.0.0/8, with a port or without, or an Origin that
    /// isn't of that Host, or a Sec-Fetch-Site but `same-origin` and `none`; a target of no route
    /// (`/clerks` is of one only if `access` has it), or with a part of another form; a method that
    /// the route has not; for PUT on a clerk and on the policy a length that isn't given, isn't one
    /// number, or is over 1,048,576 octets, and then the body's own. What follows the body is
    /// ignored.
    pub fn read(alloc: Global, site: &Option<HostName>, access: AdminAccess, octets: &[u8]) -> Got
        ensures { IfSome (asked_in result) (IsRequest site.now access octets.now) }
    {
        match ask(alloc, site, access, octets) {
            Ok(command) => Got::Command(command),
            Err(NoCommand::More) => Got::More,
            Err(NoCommand::Bad(refusal)) => Got::Bad(refusal),
            Err(NoCommand::BadPolicy(fault)) => Got::BadPolicy(fault),
            Err(NoCommand::NoMemory) => Got::NoMemory,
        }
    }
}

/// The command that octets ask, or why there is none.
fn ask(
    alloc: Global,
    site: &Option<HostName>,
    access: AdminAccess,
    octets: &[u8],
) -> Result<AdminCommand, NoCommand>
    ensures ok { IfOk result (λ command. IsRequest site.now access octets.now
        (Ok (command_seen command))) }
    ensures fault { IfErr result (λ stop. stop ≢ NoCommand.NoMemory
        → IsRequest site.now access octets.now (Err stop)) }
{
    let mut headers = [EMPTY_HEADER_SPAN; MAX_HEADERS];
    let head = read_head(octets, &mut headers)?;
    ask_of_site(alloc, site, access, &head, &headers[..head.headers])
}

/// The command that a head and what is after it ask of a site.
#[tactic(auto, unfolding(crate::specs::Request::asked_of_site))]
fn ask_of_site(
    alloc: Global,
    site: &Option<HostName>,
    access: AdminAccess,
    head: &Head<'_>,
    headers: &[HeaderSpan],
) -> Result<AdminCommand, NoCommand>
    requires within { LieIn head.now headers.now }
    requires utf8 { IsUtf8 head.now.target.now }
    ensures ok { IfOk result (λ command. asked_of_site site.now access head.now.method.now
        head.now.target.now (headers_of head.now headers.now) head.now.behind.now
        ≡ Ok (command_seen command)) }
    ensures fault { IfErr result (λ stop. stop ≢ NoCommand.NoMemory
        → asked_of_site site.now access head.now.method.now head.now.target.now
        (headers_of head.now headers.now) head.now.behind.now ≡ Err stop) }
{
    if !is_own(site, head.text, headers) {
        return Err(NoCommand::Bad(Refusal::ForeignSite));
    }
    ask_by(alloc, access, head, headers)
}

/// The command that a head and what is after it ask.
#[tactic(auto, unfolding(crate::specs::Request::asked_by))]
fn ask_by(
    alloc: Global,
    access: AdminAccess,
    head: &Head<'_>,
    headers: &[HeaderSpan],
) -> Result<AdminCommand, NoCommand>
    requires within { LieIn head.now headers.now }
    requires utf8 { IsUtf8 head.now.target.now }
    ensures ok { IfOk result (λ command. asked_by access head.now.method.now head.now.target.now
        (headers_of head.now headers.now) head.now.behind.now ≡ Ok (command_seen command)) }
    ensures fault { IfErr result (λ stop. stop ≢ NoCommand.NoMemory
        → asked_by access head.now.method.now head.now.target.now
        (headers_of head.now headers.now) head.now.behind.now ≡ Err stop) }
{
    let target = read_target(alloc, head.target)?;
    read_command(alloc, access, &target, head, headers)
}
