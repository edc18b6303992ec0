//! The reply to a line, and what is remembered after it.
ghost use Rattle.std.specs.Prelude.{◌≡◌, Option, None, Some, true, false, Ok, OnOk, OnErr, IfOk};
ghost use Rattle.std.specs.Prelude.{IsOkAnd, is_some};
ghost use Rattle.popline.specs.Commands.{keyword_of};
ghost use Rattle.popline.specs.Seen.{cut_seen, command_seen, reply_seen};
ghost use Rattle.vault.specs.Changes.{Contents};
ghost use Rattle.vault.specs.Calls.{IsDone, seen_as, has_grown};
ghost use Rattle.vault.specs.Call.{Looks};
ghost use Rattle.vault.specs.Parts.{OnlyLooks};
ghost use Rattle.office.specs.History.{Says};
ghost use Rattle.office.specs.Connections.{reading, is_quit, user_after_line, closes, is_failure};
ghost use Rattle.office.specs.Accounts.{let_in_by};
ghost use Rattle.office.specs.Sessions.{logs_in};
ghost use Rattle.office.specs.Replying.{is_allowed};
ghost use Rattle.office.specs.Stopping.{WasDone, ActsOnce};
ghost use Rattle.office.specs.Output.{nothing_owed};
ghost use Rattle.office.specs.Transaction.{Transaction};
ghost use Rattle.office.specs.Kept.{authorization_said, authorization_line, authorization_asks};
ghost use Rattle.office.specs.Kept.{asks, login_state_after};
ghost use Rattle.office.specs.Answered.{context_over, HasTransaction, SessionAfter};
ghost use Rattle.office.specs.Answered.{Becomes, LocksFollow, held_after};
ghost use Rattle.office.specs.AfterLine.{AfterLine, NothingDone};

use crate::account::{Account, LineReport};
use crate::command_line::CommandLine;
use crate::locks::{Locks, lock, release};
use crate::login::judge;
use crate::login_state::{LineContext, LineOutcome, LoginState};
use crate::output::Output;
use crate::transaction;
use creds::{LoginName, Name, Proof};
use popline::{Command, Cut, Reply};
use session::Session;
use std::alloc::{AllocError, Global};
use vault::{Vault, VaultFault};

/// The reply to a command that may be given before a login; and if a session begins, it and the
/// rule that lets the clerk in.
fn command_reply<V: Vault>(
    alloc: Global,
    vault: &mut V,
    context: LineContext<'_>,
    locks: &Locks,
    command: &Command<'_>,
    state: LoginState,
) -> Result<(Reply<'static>, Option<Session>, Option<Name>), VaultFault>
    requires { is_allowed (keyword_of (command_seen command.now)) false (is_some state.user)
        ≡ true }
    ensures said { (c : Contents) → V.holds vault.old c → V.is_clean vault.new
        → IsDone (V.holds vault.new) c c
        (Ok (authorization_said (context_over c context.entry locks.now) state
        (Ok (command_seen command.now)))) (seen_as result (λ r. reply_seen r.0)) }
    ensures session { IfOk result (λ r. (c : Contents) → V.holds vault.old c → V.is_clean vault.new
        → SessionAfter (is_quit (Ok (command_seen command.now)))
        (logs_in (Ok (command_seen command.now)) (Says (reply_seen r.0)) state.user) c
        context.entry.policy.now state.removals (reply_seen r.0) None r.1) }
    ensures rule { IfOk result (λ r. r.2 ≡ let_in_by context.entry.policy.now
        (Ok (command_seen command.now)) state.user (reply_seen r.0)) }
    ensures asked { OnErr result (authorization_asks state (Ok (command_seen command.now))
        ≡ true) }
    ensures looks { Looks V.holds V.faults V.is_clean V.is_up V.may_leave vault.old vault.new
        result }
    ensures unasked { authorization_asks state (Ok (command_seen command.now)) ≡ false
        → vault.new ≡ vault.old }
{
    let user = state.user;
    let failures = state.failures;
    let removals = state.removals;
    match command {
        Command::Capa => Ok((Reply::Capabilities, None, None)),
        Command::User(_) => Ok((Reply::SendPass, None, None)),
        Command::Pass(password) => match user {
            None => unreachable!(),
            Some(name) => {
                let proof = Proof::Pass(*password);
                judge(
                    alloc, vault, context, locks, failures, removals, &name, &proof,
                )
            }
        },
        Command::Apop(name, digest) => {
            let proof = Proof::Apop(*digest);
            judge(
                alloc, vault, context, locks, failures, removals, name, &proof,
            )
        }
        Command::Quit => Ok((Reply::Bye, None, None)),
        _ => unreachable!(),
    }
}

/// The reply to a line before a login; and if a session begins, it and the rule that lets the clerk
/// in.
fn reply_to<V: Vault>(
    alloc: Global,
    vault: &mut V,
    context: LineContext<'_>,
    locks: &Locks,
    line: &CommandLine<'_>,
    state: LoginState,
) -> Result<(Reply<'static>, Option<Session>, Option<Name>), VaultFault>
    ensures said { (c : Contents) → V.holds vault.old c → V.is_clean vault.new
        → IsDone (V.holds vault.new) c c
        (Ok (authorization_line (context_over c context.entry locks.now) state
        line.now)) (seen_as result (λ r. reply_seen r.0)) }
    ensures session { IfOk result (λ r. (c : Contents) → V.holds vault.old c → V.is_clean vault.new
        → Becomes c context.entry.policy.now state line.now (reply_seen r.0) None r.1) }
    ensures rule { IfOk result (λ r. r.2 ≡ let_in_by context.entry.policy.now (reading line.now)
        state.user (reply_seen r.0)) }
    ensures asked { OnErr result (authorization_asks state (reading line.now) ≡ true) }
    ensures looks { Looks V.holds V.faults V.is_clean V.is_up V.may_leave vault.old vault.new
        result }
    ensures unasked { authorization_asks state (reading line.now) ≡ false
        → vault.new ≡ vault.old }
{
    match line.permitted(false, state.user.is_some()) {
        Ok(command) => command_reply(alloc, vault, context, locks, command, state),
        Err(reply) => Ok((reply, None, None)),
    }
}

/// The login name that a line with this reply leaves in force.
fn next_user(
    line: &CommandLine<'_>,
    reply: &Reply<'_>,
    user: Option<LoginName>,
) -> Option<LoginName>
    ensures { result ≡ user_after_line (reading line.now) (Says (reply_seen reply.now)) user }
{
    match line.reading() {
        Ok(Command::User(name)) if matches!(*reply, Reply::SendPass) => Some(*name),
        Ok(Command::Capa) if matches!(*reply, Reply::Capabilities) => user,
        _ => None,
    }
}

/// Whether a line with this reply closes its connection.
fn is_closing(line: &CommandLine<'_>, reply: &Reply<'_>) -> bool
    ensures { result ≡ closes (reading line.now) (Says (reply_seen reply.now)) }
{
    matches!(*reply, Reply::LoginFailedClosing) || line.is_quit()
}

/// Whether a credential was refused.
fn is_refusal(reply: &Reply<'_>) -> bool
    ensures { result ≡ is_failure (Says (reply_seen reply.now)) }
{
    matches!(*reply, Reply::LoginFailed | Reply::LoginFailedClosing)
}

/// What is remembered after a line that got this reply.
fn next_login_state(line: &CommandLine<'_>, reply: &Reply<'_>, state: LoginState) -> LoginState
    ensures { result ≡ login_state_after line.now (reply_seen reply.now) state }
{
    LoginState {
        user: next_user(line, reply, state.user),
        failures: if is_refusal(reply) {
            state.failures.saturating_add(1)
        } else {
            state.failures
        },
        closing: is_closing(line, reply) || state.closing,
        removals: state.removals,
    }
}

/// Answers a line before a login: puts its reply, and remembers what it leaves. If a session
/// begins, returns it and locks its maildrop. If the store fails, the reply says so. The account is
/// that of the login that was judged, if one was.
fn authorization_answer<V: Vault>(
    alloc: Global,
    vault: &mut V,
    context: LineContext<'_>,
    locks: &mut Locks,
    line: &CommandLine<'_>,
    output: &mut Output,
    state: &mut LoginState,
) -> Result<(LineReport, Option<Session>), AllocError>
    requires { output.old ≡ nothing_owed }
    ensures answered { IfOk result (λ r. (c : Contents) → V.holds vault.old c
        → V.is_clean vault.new
        → AfterLine (V.holds vault.new) (has_grown (V.faults vault.old) (V.faults vault.new)) c
        (context_over c context.entry locks.old) line.now r.0.outcome None None r.1 state.old
        state.new output.new r.0.account) }
    ensures locks { IfOk result (λ r. LocksFollow context.entry.number None r.1 locks.old
        locks.new) }
    ensures err { OnErr result (NothingDone V.Vault vault.old vault.new locks.old locks.new) }
    ensures looks { OnlyLooks V.Vault vault.old vault.new
        (IsOkAnd result (λ r. WasDone r.0.outcome)) }
    ensures unasked { authorization_asks state.old (reading line.now) ≡ false
        → vault.new ≡ vault.old }
{
    let (reply, begun, rule, outcome) = match reply_to(alloc, vault, context, locks, line, *state) {
        Ok((reply, begun, rule)) => (reply, begun, rule, LineOutcome::Done),
        Err(VaultFault::NoMemory) => return Err(AllocError),
        Err(_) => (Reply::StoreFailed, None, None, LineOutcome::Failed),
    };
    output.say(alloc, &reply)?;
    lock(locks, context.number, &begun)?;
    let account = Account::of_line(line, &reply, rule, state.user);
    *state = next_login_state(line, &reply, *state);
    Ok((LineReport { outcome, account }, begun))
}

/// Answers a line of a session, and returns the session. A QUIT ends it, and lets its maildrop's
/// lock go. The account is what the line did to the marks or to a message, or what the QUIT
/// removed.
fn transaction_answer<V: Vault>(
    alloc: Global,
    vault: &mut V,
    context: LineContext<'_>,
    locks: &mut Locks,
    line: &CommandLine<'_>,
    output: &mut Output,
    state: &mut LoginState,
    session: Session,
) -> Result<(LineReport, Option<Session>), AllocError>
    requires { output.old ≡ nothing_owed }
    ensures answered { IfOk result (λ r. (c : Contents) (v : Transaction) → V.holds vault.old c
        → V.is_clean vault.new → HasTransaction c (Some session) (Some v)
        → AfterLine (V.holds vault.new) (has_grown (V.faults vault.old) (V.faults vault.new)) c
        (context_over c context.entry locks.old) line.now r.0.outcome (Some v) (Some session) r.1
        state.old state.new output.new r.0.account) }
    ensures locks { IfOk result (λ r. LocksFollow context.entry.number (Some session) r.1 locks.old
        locks.new) }
    ensures err { OnErr result (NothingDone V.Vault vault.old vault.new locks.old locks.new) }
    ensures acts { ActsOnce V.Vault vault.old vault.new (IsOkAnd result (λ r. WasDone r.0.outcome))
        (held_after LineOutcome.Done context.entry.policy.now (Some session) (reading line.now)) }
    ensures unasked { (c : Contents) (v : Transaction) → HasTransaction c (Some session) (Some v)
        → asks context.entry.policy.now state.old (Some v) (reading line.now) ≡ false
        → vault.new ≡ vault.old }
{
    let mut session = session;
    let maildrop = session.maildrop();
    let answered = transaction::answer(alloc, vault, context.policy, line, output, &mut session)?;
    *state = transaction::next_login_state(line, answered.outcome, *state);
    if line.is_quit() {
        release(locks, Some(maildrop));
        return Ok((answered, None));
    }
    Ok((answered, Some(session)))
}

/// Answers a line: puts its reply, and keeps what the line leaves: what is remembered, the session
/// and its maildrop's lock. If the store fails, the reply says so. The report has what was judged.
/// An error is want of memory.
pub fn answer<V: Vault>(
    alloc: Global,
    vault: &mut V,
    context: LineContext<'_>,
    locks: &mut Locks,
    cut: Cut<'_>,
    output: &mut Output,
    state: &mut LoginState,
    session: &mut Option<Session>,
) -> Result<LineReport, AllocError>
    requires { output.old ≡ nothing_owed }
    ensures answered { IfOk result (λ r. (c : Contents) (v : Option Transaction)
        → V.holds vault.old c → V.is_clean vault.new → HasTransaction c session.old v
        → AfterLine (V.holds vault.new) (has_grown (V.faults vault.old) (V.faults vault.new)) c
        (context_over c context.entry locks.old) (cut_seen cut.entry) r.outcome v session.old
        session.new state.old state.new output.new r.account) }
    ensures locks { OnOk result (LocksFollow context.entry.number session.old session.new locks.old
        locks.new) }
    ensures err { OnErr result (NothingDone V.Vault vault.old vault.new locks.old locks.new) }
    ensures acts { ActsOnce V.Vault vault.old vault.new (IsOkAnd result (λ r. WasDone r.outcome))
        (held_after LineOutcome.Done context.entry.policy.now session.old
        (reading (cut_seen cut.entry))) }
    ensures unasked { (c : Contents) (v : Option Transaction) → HasTransaction c session.old v
        → asks context.entry.policy.now state.old v (reading (cut_seen cut.entry)) ≡ false
        → vault.new ≡ vault.old }
{
    let line = CommandLine::read(cut);
    match session.take() {
        None => {
            let (answered, begun) = authorization_answer(
                alloc, vault, context, locks, &line, output, state,
            )?;
            *session = begun;
            Ok(answered)
        }
        Some(current) => {
            let (answered, after) = transaction_answer(
                alloc, vault, context, locks, &line, output, state, current,
            )?;
            *session = after;
            Ok(answered)
        }
    }
}
