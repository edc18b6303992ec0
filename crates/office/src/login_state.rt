//! What a connection remembers from one line to the next, and what a line is judged by.

ghost use Rattle.std.specs.Prelude.{◌≡◌, Option, IfOk};
ghost use Rattle.popline.specs.Seen.{reply_seen};
ghost use Rattle.vault.specs.Changes.{Contents};
ghost use Rattle.session.specs.Session.{Session as State};
ghost use Rattle.office.specs.Kept.{nothing_said};
ghost use Rattle.office.specs.Output.{nothing_owed, OwesReply};

use crate::output::Output;
use creds::LoginName;
use policy::Policy;
use popline::Reply;
use session::Removals;
use std::alloc::{AllocError, Global};

/// What a connection remembers from one line to the next, beside its session.
#[derive(Clone, Copy)]
pub struct LoginState {
    /// The login name that the last line left in force.
    pub user: Option<LoginName>,
    /// How many credentials were refused; at most 255 are counted.
    pub failures: u8,
    /// A QUIT acted, or the third refusal was answered: the connection ends once all is taken.
    pub closing: bool,
    /// When the removals of the connection's session are judged.
    pub removals: Removals,
}

impl LoginState {
    /// For a new connection: no name in force and no credential refused.
    pub fn new(removals: Removals) -> LoginState
        ensures { result ≡ nothing_said removals }
    {
        LoginState {
            user: None,
            failures: 0,
            closing: false,
            removals,
        }
    }
}

/// What a line is judged by, beside the store, the locks and what is remembered.
#[derive(Clone, Copy)]
pub struct LineContext<'a> {
    /// The policy in force.
    pub policy: &'a Policy,
    /// The timestamp of the connection's greeting.
    pub stamp: &'a [u8],
    /// The connection's number.
    pub number: u64,
}

/// How a line was answered.
#[derive(Clone, Copy)]
pub enum LineOutcome {
    Done,
    /// The store failed, and the reply says so.
    Failed,
}

/// Puts a reply for which no store was asked.
pub(crate) fn say(
    alloc: Global,
    output: &mut Output,
    reply: &Reply<'_>,
) -> Result<LineOutcome, AllocError>
    requires { output.old ≡ nothing_owed }
    ensures outcome { IfOk result (λ outcome. outcome ≡ LineOutcome.Done) }
    ensures owed { IfOk result (λ _. (c : Contents) (s : Option State)
        → OwesReply c s output.new (reply_seen reply.now)) }
{
    output.say(alloc, reply)?;
    Ok(LineOutcome::Done)
}
