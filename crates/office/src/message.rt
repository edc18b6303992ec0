//! A message, whole or its top (RFC 1939, 5: RETR; 7: TOP).
ghost use Rattle.std.specs.Prelude.{◌≡◌, ◌++◌, ℕ, List, length, Ok, IfOk, OnOk, IsOkAnd, false};
ghost use Rattle.mailtext.specs.Text.{kept_form};
ghost use Rattle.policy.specs.Policy.{Policy};
ghost use Rattle.popline.specs.Replies.{bytes_of};
ghost use Rattle.vault.specs.Changes.{Contents};
ghost use Rattle.vault.specs.Calls.{has_grown};
ghost use Rattle.vault.specs.declared.record.Keyed.{Keyed};
ghost use Rattle.session.specs.Session.{Session as State};
ghost use Rattle.session.specs.Session.{picked_for};
ghost use Rattle.office.specs.History.{Says};
ghost use Rattle.office.specs.Output.{nothing_owed, text_coming, Reads, IsBegunAt};
ghost use Rattle.vault.specs.Parts.{OnlyLooks};
ghost use Rattle.office.specs.Accounts.{row_kept, named_in, transaction_account, sent_by};
ghost use Rattle.office.specs.Stopping.{WasDone};
ghost use Rattle.office.specs.Transaction.{LiesIn, IsAnswered, IsServed, transaction_asks};
ghost use Rattle.office.specs.Transaction.{transaction_of, transaction_answered};
ghost use Rattle.office.specs.Transaction.{sending, text_reply};

use crate::account::{Account, LineReport, MessageCommand, report};
use crate::answer::MessageRow;
use crate::login_state::{LineOutcome, say};
use crate::output::{Output, Source};
use crate::reading::Reading;
use crate::referring::refused;
use creds::Uid;
use policy::Policy;
use popline::Reply;
use session::{Pick, Readable, Session};
use std::alloc::{AllocError, Global};
use vault::{Head, Vault};

/// Begins to send a message after the first line of its reply. If the store refuses the first
/// pages, the reply is that the store failed.
fn serve<V: Vault>(
    alloc: Global,
    vault: &mut V,
    output: &mut Output,
    text: Reading,
) -> Result<LineOutcome, AllocError>
    requires { output.old.source ≡ Source.Nothing }
    ensures served { IfOk result (λ outcome. (c : Contents) (s : State) (coming : List ℕ)
        → V.holds vault.old c → V.is_clean vault.new → Reads c s text coming
        → IsServed (V.holds vault.new) (has_grown (V.faults vault.old) (V.faults vault.new)) c s
        (output.old.ready ++ coming) output.new outcome) }
    ensures looks { OnlyLooks V.Vault vault.old vault.new (IsOkAnd result WasDone) }
{
    if output.send_text(vault, text)? {
        return Ok(LineOutcome::Done);
    }
    output.clear();
    output.say(alloc, &Reply::StoreFailed)?;
    Ok(LineOutcome::Failed)
}

/// Puts the first line of a reply that sends a message, or the top of it with so many lines, and
/// begins to read it.
fn begin(
    alloc: Global,
    output: &mut Output,
    head: &Head,
    lines: Option<u64>,
) -> Result<Reading, AllocError>
    requires { output.old ≡ nothing_owed }
    ensures begun { IfOk result (λ text. IsBegunAt head.now text) }
    ensures source { OnOk result (output.new.source ≡ Source.Nothing) }
    ensures coming { IfOk result (λ reading. (text : List ℕ) → kept_form text ≡ text
        → length text ≡ head.now.octets
        → output.new.ready ++ text_coming reading text ≡ bytes_of (text_reply lines text)) }
{
    match lines {
        None => {
            output.begin_message(alloc, head.octets)?;
            Ok(Reading::whole(head.key, head.octets))
        }
        Some(lines) => {
            output.begin_top()?;
            Ok(Reading::top(head.key, head.octets, lines))
        }
    }
}

/// Begins to send a message that the clerk may read, or the top of it with so many lines, or says
/// why not.
fn send<V: Vault>(
    alloc: Global,
    vault: &mut V,
    output: &mut Output,
    readable: &Result<Readable, Pick>,
    n: u64,
    lines: Option<u64>,
) -> Result<LineOutcome, AllocError>
    requires { output.old ≡ nothing_owed }
    ensures done { IfOk result (λ outcome. (p : Policy) (s : State) (c : Contents)
        (kept : List Keyed) → readable.now ≡ picked_for p s n → V.holds vault.old c
        → V.is_clean vault.new → LiesIn c s kept
        → IsAnswered (V.holds vault.new) (has_grown (V.faults vault.old) (V.faults vault.new)) c
        p s s kept output.new (Ok (sending n lines)) outcome) }
    ensures looks { OnlyLooks V.Vault vault.old vault.new (IsOkAnd result WasDone) }
    ensures unasked { (p : Policy) (s : State) (c : Contents) (kept : List Keyed)
        → readable.now ≡ picked_for p s n → LiesIn c s kept
        → transaction_asks p (transaction_of s kept) (Ok (sending n lines)) ≡ false
        → vault.new ≡ vault.old }
{
    match readable {
        Err(why) => say(alloc, output, &refused(*why, n)),
        Ok(readable) => {
            let text = begin(alloc, output, &readable.head, lines)?;
            serve(alloc, vault, output, text)
        }
    }
}

/// The message of a number, unless it is marked.
pub(crate) fn row_at(session: &Session, n: u64) -> Option<MessageRow>
    ensures { result ≡ row_kept session.now n }
{
    match session.pick(n) {
        Ok(head) => Some(MessageRow {
            uid: Uid {
                class: head.class,
                k: head.k,
            },
            octets: head.octets,
        }),
        Err(_) => None,
    }
}

/// Which of the two commands sends a message, or the top of it with so many lines.
fn command_for(lines: Option<u64>) -> MessageCommand
    ensures { result ≡ sent_by lines }
{
    match lines {
        None => MessageCommand::Retr,
        Some(_) => MessageCommand::Top,
    }
}

/// Begins to send a message of a session (RFC 1939, 5: RETR), or the top of it with so many lines
/// (7: TOP), if the policy in force lets the clerk read it. The policy is asked once: the reply,
/// the account and the store's call go by its answer.
pub(crate) fn retrieve<V: Vault>(
    alloc: Global,
    vault: &mut V,
    policy: &Policy,
    output: &mut Output,
    session: &Session,
    n: u64,
    lines: Option<u64>,
) -> Result<LineReport, AllocError>
    requires { output.old ≡ nothing_owed }
    ensures done { IfOk result (λ r. (c : Contents) (kept : List Keyed)
        → V.holds vault.old c
        → V.is_clean vault.new → LiesIn c session.now kept
        → IsAnswered (V.holds vault.new) (has_grown (V.faults vault.old) (V.faults vault.new)) c
        policy.now session.now session.now kept output.new (Ok (sending n lines)) r.outcome) }
    ensures looks { OnlyLooks V.Vault vault.old vault.new
        (IsOkAnd result (λ r. WasDone r.outcome)) }
    ensures account { IfOk result (λ r. (c : Contents) (kept : List Keyed)
        → LiesIn c session.now kept → r.account ≡ transaction_account r.outcome policy.now
        session.now (Ok (sending n lines)) (Says (transaction_answered r.outcome policy.now
        (transaction_of session.now kept) (Ok (sending n lines))))
        (named_in (transaction_of session.now kept) (Ok (sending n lines)))) }
    ensures unasked { (c : Contents) (kept : List Keyed) → LiesIn c session.now kept
        → transaction_asks policy.now (transaction_of session.now kept) (Ok (sending n lines))
        ≡ false → vault.new ≡ vault.old }
{
    let readable = session.pick_for(n, policy);
    let told = Account::of_sending(command_for(lines), &readable, row_at(session, n));
    let answered = send(alloc, vault, output, &readable, n, lines);
    report(answered, told)
}
