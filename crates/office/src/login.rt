//! Logging in: the credential is looked at first, then the policy, the maildrop and its lock (RFC
//! 1939, 4 and 7).
ghost use Rattle.std.specs.Prelude.{◌≡◌, [], Some, Ok, IfOk};
ghost use Rattle.creds.specs.Credential.{shown as proof_shown, is_admitted};
ghost use Rattle.popline.specs.Seen.{reply_seen};
ghost use Rattle.policy.specs.Policy.{decide};
ghost use Rattle.policy.specs.declared.rule.Action.TheVariants as to;
ghost use Rattle.vault.specs.Records.{credential_in};
ghost use Rattle.vault.specs.Changes.{Contents, heads};
ghost use Rattle.vault.specs.Calls.{IsDone, seen_as};
ghost use Rattle.vault.specs.Call.{Looks};
ghost use Rattle.session.specs.Session.{started};
ghost use Rattle.office.specs.Replying.{login_failed};
ghost use Rattle.office.specs.Accounts.{let_in, opening_rule};
ghost use Rattle.office.specs.Kept.{judged};
ghost use Rattle.office.specs.Answered.{context_over};
ghost use Rattle.office.specs.Entering.{entered, began};

use crate::locks::Locks;
use crate::login_state::LineContext;
use creds::{LoginName, Name, Proof};
use policy::{Action, Decision, Policy};
use popline::Reply;
use session::{Removals, Session};
use std::alloc::Global;
use vault::{Vault, VaultFault};

/// How many refused credentials a connection has before the next one closes it.
const FAILURES_BEFORE_CLOSING: u8 = 2;

/// The reply to a refused credential, if so many were refused before it.
fn refusal(failures: u8) -> Reply<'static>
    ensures { reply_seen result ≡ login_failed failures }
{
    if failures >= FAILURES_BEFORE_CLOSING {
        Reply::LoginFailedClosing
    } else {
        Reply::LoginFailed
    }
}

/// Whether the policy lets a clerk open a maildrop.
fn opening(policy: &Policy, name: &LoginName) -> Decision
    ensures { result ≡ decide policy.now name.now.clerk name.now.maildrop [] to.Open }
{
    // Opening concerns no message, so the class, here the maildrop's name, plays no part.
    policy.decide(&name.clerk, &name.maildrop, &name.maildrop, Action::Open)
}

/// Whether a clerk's credential admits the password or digest that was sent.
fn is_admitted<V: Vault>(
    vault: &mut V,
    stamp: &[u8],
    name: &LoginName,
    proof: &Proof<'_>,
) -> Result<bool, VaultFault>
    ensures said { (c : Contents) → V.holds vault.old c → V.is_clean vault.new
        → IsDone (V.holds vault.new) c c (Ok (is_admitted (credential_in name.now.clerk c.clerks)
        name.now.clerk stamp.now (proof_shown proof.now))) result }
    ensures looks { Looks V.holds V.faults V.is_clean V.is_up V.may_leave vault.old vault.new
        result }
{
    Ok(match vault.credential(&name.clerk)? {
        None => false,
        Some(credential) => credential.admits(&name.clerk, stamp, proof),
    })
}

/// Opens a maildrop for a clerk whom a rule lets in: the reply, and the session and the rule,
/// unless the maildrop is missing or locked.
fn enter<V: Vault>(
    alloc: Global,
    vault: &mut V,
    policy: &Policy,
    removals: Removals,
    locks: &Locks,
    name: &LoginName,
    rule: Name,
) -> Result<(Reply<'static>, Option<Session>, Option<Name>), VaultFault>
    ensures said { (c : Contents) → V.holds vault.old c → V.is_clean vault.new
        → IsDone (V.holds vault.new) c c (Ok (entered c policy.now locks.now name.now))
        (seen_as result (λ r. reply_seen r.0)) }
    ensures session { IfOk result (λ r. (c : Contents) → V.holds vault.old c → V.is_clean vault.new
        → r.1 ≡ began (reply_seen r.0) (started policy.now removals name.now.clerk name.now.maildrop
        (heads name.now.maildrop c))) }
    ensures rule { IfOk result (λ r. r.2 ≡ let_in (reply_seen r.0) (Some rule)) }
    ensures looks { Looks V.holds V.faults V.is_clean V.is_up V.may_leave vault.old vault.new
        result }
{
    let heads = match vault.heads(&name.maildrop) {
        Ok(heads) => heads,
        Err(VaultFault::NoMaildrop) => return Ok((Reply::NoSuchMaildrop, None, None)),
        Err(fault) => return Err(fault),
    };
    if locks.contains_key(&name.maildrop) {
        return Ok((Reply::InUse, None, None));
    }
    let Ok(session) = Session::start(alloc, name.clerk, name.maildrop, &heads, policy, removals)
    else {
        return Err(VaultFault::NoMemory);
    };
    let (messages, octets) = session.stat();
    Ok((
        Reply::MaildropHas { messages, octets },
        Some(session),
        Some(rule),
    ))
}

/// The reply to a login; and if a session begins, it and the rule that lets the clerk in.
pub(crate) fn judge<V: Vault>(
    alloc: Global,
    vault: &mut V,
    context: LineContext<'_>,
    locks: &Locks,
    failures: u8,
    removals: Removals,
    name: &LoginName,
    proof: &Proof<'_>,
) -> Result<(Reply<'static>, Option<Session>, Option<Name>), VaultFault>
    ensures said { (c : Contents) → V.holds vault.old c → V.is_clean vault.new
        → IsDone (V.holds vault.new) c c
        (Ok (judged (context_over c context.entry locks.now) failures
        name.now (proof_shown proof.now))) (seen_as result (λ r. reply_seen r.0)) }
    ensures session { IfOk result (λ r. (c : Contents) → V.holds vault.old c → V.is_clean vault.new
        → r.1 ≡ began (reply_seen r.0) (started context.entry.policy.now removals name.now.clerk
        name.now.maildrop (heads name.now.maildrop c))) }
    ensures rule { IfOk result (λ r. r.2 ≡ let_in (reply_seen r.0)
        (Some (opening_rule context.entry.policy.now name.now))) }
    ensures looks { Looks V.holds V.faults V.is_clean V.is_up V.may_leave vault.old vault.new
        result }
{
    if !is_admitted(vault, context.stamp, name, proof)? {
        return Ok((refusal(failures), None, None));
    }
    let opening = opening(context.policy, name);
    if !opening.allowed {
        return Ok((Reply::DeniedBy(opening.rule), None, None));
    }
    let rule = opening.rule;
    enter(alloc, vault, context.policy, removals, locks, name, rule)
}
