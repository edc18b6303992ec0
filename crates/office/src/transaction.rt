//! A line of a session: what it is answered, what it changes, and what is remembered of it (RFC
//! 1939, 5 and 6).
ghost use Rattle.std.specs.Prelude.{◌≡◌, List, Option, None, true, false, Ok, OnErr};
ghost use Rattle.std.specs.Prelude.{IfOk, IsOkAnd};
ghost use Rattle.popline.specs.Commands.{keyword_of};
ghost use Rattle.popline.specs.Seen.{command_seen, reply_seen};
ghost use Rattle.policy.specs.Policy.{Policy};
ghost use Rattle.vault.specs.Changes.{Contents};
ghost use Rattle.vault.specs.Calls.{has_grown};
ghost use Rattle.vault.specs.declared.record.Keyed.{Keyed};
ghost use Rattle.session.specs.Session.{Session as State};
ghost use Rattle.office.specs.History.{Says};
ghost use Rattle.office.specs.Connections.{reading};
ghost use Rattle.office.specs.Kept.{login_state_after};
ghost use Rattle.office.specs.Accounts.{command_account, transaction_account, row_kept, named_in};
ghost use Rattle.office.specs.Accounts.{named as row_named};
ghost use Rattle.office.specs.Telling.{is_told};
ghost use Rattle.office.specs.Stopping.{WasDone, ActsOnce};
ghost use Rattle.office.specs.Output.{nothing_owed, OwesReply};
ghost use Rattle.office.specs.Replying.{is_allowed};
ghost use Rattle.office.specs.Transaction.{Transaction, transaction_of, LiesIn};
ghost use Rattle.office.specs.Transaction.{GoesOn, IsAnswered, IsAnsweredBy};
ghost use Rattle.office.specs.Transaction.{transaction_said, transaction_reply, transaction_asks};
ghost use Rattle.office.specs.Transaction.{held_after_line};
ghost use Rattle.office.specs.Transaction.{transaction_user};
ghost use Rattle.office.specs.Transaction.{transaction_answered};

use crate::account::{Account, LineReport, report};
use crate::answer::MessageRow;
use crate::command_line::CommandLine;
use crate::listing::{drop_listing, list, list_uids};
use crate::login_state::{LineOutcome, LoginState, say};
use crate::message::{retrieve, row_at};
use crate::output::Output;
use crate::quit::quit;
use crate::referring::{delete, reset, scan_line, uid_line};
use creds::LoginName;
use policy::Policy;
use popline::{Command, Reply};
use session::Session;
use std::alloc::{AllocError, Global};
use vault::Vault;

/// The reply to a command that may be given in a session, sends no listing and asks no store. DELE
/// marks a message, RSET takes all marks away.
fn plain_reply(session: &mut Session, policy: &Policy, command: &Command<'_>) -> Reply<'static>
    requires told { is_told (command_seen command.now) ≡ true }
    requires allowed { is_allowed (keyword_of (command_seen command.now)) true false ≡ true }
    ensures said { (c : Contents) (kept : List Keyed) → LiesIn c session.old kept
        → reply_seen result ≡ transaction_said policy.now (transaction_of session.old kept)
        (Ok (command_seen command.now)) }
    ensures session { GoesOn (reply_seen result) session.old session.new }
{
    match command {
        Command::Capa => Reply::Capabilities,
        Command::Stat => drop_listing(session),
        Command::List(Some(n)) => scan_line(session, *n),
        Command::Uidl(Some(n)) => uid_line(session, *n),
        Command::Dele(n) => delete(session, policy, *n),
        Command::Rset => reset(session),
        Command::Noop => Reply::Okay,
        _ => unreachable!(),
    }
}

/// The message that a DELE names, unless it is marked.
fn message_named(session: &Session, command: &Command<'_>) -> Option<MessageRow>
    requires { is_told (command_seen command.now) ≡ true }
    ensures { result ≡ row_named (row_kept session.now) (Ok (command_seen command.now)) }
{
    match command {
        Command::Dele(n) => row_at(session, *n),
        _ => None,
    }
}

/// Puts the reply to a command that asks no store. Its account is what it did to the marks, or
/// which rule denied it for the message that it names.
fn put(
    alloc: Global,
    output: &mut Output,
    command: &Command<'_>,
    reply: &Reply<'_>,
    named: Option<MessageRow>,
) -> Result<LineReport, AllocError>
    requires { output.old ≡ nothing_owed }
    ensures outcome { IfOk result (λ r. r.outcome ≡ LineOutcome.Done) }
    ensures owed { IfOk result (λ _. (c : Contents) (s : Option State)
        → OwesReply c s output.new (reply_seen reply.now)) }
    ensures account { IfOk result (λ r. r.account ≡ command_account (command_seen command.now)
        (Says (reply_seen reply.now)) None None named) }
{
    let outcome = say(alloc, output, reply)?;
    let account = Account::of_command(command, reply, None, None, named);
    Ok(LineReport { outcome, account })
}

/// Does what a command says that may be given in a session, and puts the reply. Its account is what
/// it did to the marks or to the message that it names, or what it removed. A QUIT leaves the
/// session to the caller.
fn answer_command<V: Vault>(
    alloc: Global,
    vault: &mut V,
    policy: &Policy,
    command: &Command<'_>,
    output: &mut Output,
    session: &mut Session,
) -> Result<LineReport, AllocError>
    requires empty { output.old ≡ nothing_owed }
    requires allowed { is_allowed (keyword_of (command_seen command.now)) true false ≡ true }
    ensures done { IfOk result (λ r. (c : Contents) (kept : List Keyed)
        → V.holds vault.old c
        → V.is_clean vault.new → LiesIn c session.old kept
        → IsAnswered (V.holds vault.new) (has_grown (V.faults vault.old) (V.faults vault.new)) c
        policy.now session.old session.new kept output.new
        (Ok (command_seen command.now)) r.outcome) }
    ensures err { OnErr result ((c : Contents) → V.holds vault.old c → V.is_clean vault.new
        → V.holds vault.new c) }
    ensures acts { ActsOnce V.Vault vault.old vault.new (IsOkAnd result (λ r. WasDone r.outcome))
        (held_after_line LineOutcome.Done policy.now session.old (Ok (command_seen command.now))) }
    ensures account { IfOk result (λ r. (c : Contents) (kept : List Keyed)
        → LiesIn c session.old kept → r.account ≡ transaction_account r.outcome policy.now
        session.old (Ok (command_seen command.now)) (Says (transaction_answered r.outcome policy.now
        (transaction_of session.old kept) (Ok (command_seen command.now))))
        (named_in (transaction_of session.old kept) (Ok (command_seen command.now)))) }
    ensures unasked { (c : Contents) (kept : List Keyed) → LiesIn c session.old kept
        → transaction_asks policy.now (transaction_of session.old kept)
        (Ok (command_seen command.now))
        ≡ false → vault.new ≡ vault.old }
{
    match command {
        Command::Quit => quit(alloc, vault, policy, output, session),
        Command::List(None) => {
            let answered = list(alloc, session, output);
            report(answered, Account::Nothing)
        }
        Command::Uidl(None) => {
            let answered = list_uids(alloc, session, output);
            report(answered, Account::Nothing)
        }
        Command::Retr(n) => retrieve(alloc, vault, policy, output, session, *n, None),
        Command::Top(n, lines) => {
            retrieve(alloc, vault, policy, output, session, *n, Some(*lines))
        }
        _ => {
            let named = message_named(session, command);
            let reply = plain_reply(session, policy, command);
            put(alloc, output, command, &reply, named)
        }
    }
}

/// Answers a line of a session: puts its reply, and sets or takes away marks. Its account is what
/// the line did to the marks or to a message, or what it removed. A QUIT removes the marked
/// messages; the caller then ends the session.
pub(crate) fn answer<V: Vault>(
    alloc: Global,
    vault: &mut V,
    policy: &Policy,
    line: &CommandLine<'_>,
    output: &mut Output,
    session: &mut Session,
) -> Result<LineReport, AllocError>
    requires { output.old ≡ nothing_owed }
    ensures answered { IfOk result (λ r. (c : Contents) (kept : List Keyed)
        → V.holds vault.old c
        → V.is_clean vault.new → LiesIn c session.old kept
        → IsAnsweredBy (V.holds vault.new) (has_grown (V.faults vault.old) (V.faults vault.new)) c
        policy.now session.old session.new kept output.new (reading line.now) r.outcome
        (transaction_reply r.outcome policy.now (transaction_of session.old kept) line.now)) }
    ensures err { OnErr result ((c : Contents) → V.holds vault.old c → V.is_clean vault.new
        → V.holds vault.new c) }
    ensures acts { ActsOnce V.Vault vault.old vault.new (IsOkAnd result (λ r. WasDone r.outcome))
        (held_after_line LineOutcome.Done policy.now session.old (reading line.now)) }
    ensures account { IfOk result (λ r. (c : Contents) (kept : List Keyed)
        → LiesIn c session.old kept → r.account ≡ transaction_account r.outcome policy.now
        session.old (reading line.now) (Says (transaction_reply r.outcome policy.now
        (transaction_of session.old kept) line.now))
        (named_in (transaction_of session.old kept) (reading line.now))) }
    ensures unasked { (c : Contents) (kept : List Keyed) → LiesIn c session.old kept
        → transaction_asks policy.now (transaction_of session.old kept) (reading line.now) ≡ false
        → vault.new ≡ vault.old }
{
    match line.permitted(true, false) {
        Ok(command) => answer_command(alloc, vault, policy, command, output, session),
        Err(reply) => {
            let answered = say(alloc, output, &reply);
            report(answered, Account::Nothing)
        }
    }
}

/// The login name in force after a line.
fn next_user(
    line: &CommandLine<'_>,
    outcome: LineOutcome,
    user: Option<LoginName>,
) -> Option<LoginName>
    ensures { result ≡ transaction_user outcome (reading line.now) user }
{
    match (outcome, line.reading()) {
        (LineOutcome::Done, Ok(Command::Capa)) => user,
        _ => None,
    }
}

/// What is remembered after a line of a session. Only an answered CAPA leaves a login name in
/// force, no line counts as a refused credential, and a QUIT closes the connection.
pub(crate) fn next_login_state(
    line: &CommandLine<'_>,
    outcome: LineOutcome,
    state: LoginState,
) -> LoginState
    ensures { (p : Policy) (v : Transaction) → result
        ≡ login_state_after line.now (transaction_reply outcome p v line.now) state }
{
    LoginState {
        user: next_user(line, outcome, state.user),
        failures: state.failures,
        closing: line.is_quit() || state.closing,
        removals: state.removals,
    }
}
