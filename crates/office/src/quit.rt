//! The end of a session: what its QUIT removes, and the farewell (RFC 1939, 6).
ghost use Rattle.std.specs.Prelude.{◌≡◌, List, [], Ok, OnErr, IfOk, IsOkAnd};
ghost use Rattle.popline.specs.Commands.{Quit};
ghost use Rattle.popline.specs.Seen.{reply_seen};
ghost use Rattle.policy.specs.Policy.{Policy};
ghost use Rattle.session.specs.Session.{IsPlan};
ghost use Rattle.vault.specs.Changes.{Contents};
ghost use Rattle.vault.specs.Call.{Looks};
ghost use Rattle.vault.specs.Calls.{has_grown, IsPrepared};
ghost use Rattle.vault.specs.declared.record.Keyed.{Keyed};
ghost use Rattle.office.specs.Accounts.{removal_told};
ghost use Rattle.office.specs.Replying.{quit_says};
ghost use Rattle.office.specs.Output.{nothing_owed};
ghost use Rattle.office.specs.Transaction.{LiesIn, IsAnswered, keys_to_remove, without_marked};
ghost use Rattle.office.specs.Stopping.{ActsOnce, WasDone};

use crate::account::{Account, LineReport};
use crate::login_state::LineOutcome;
use crate::output::Output;
use creds::Name;
use policy::Policy;
use popline::Reply;
use session::{QuitPlan, Session};
use std::alloc::{AllocError, Global};
use vault::{Progress, Vault, VaultFault};

/// The octets of [`Reply::RemovalFailed`], whose room is made before the store is asked.
const REFUSAL_OCTETS: usize = 40;

/// The farewell; or the name of the rule that kept a marked message from removal.
fn farewell(denied: &Option<Name>) -> Reply<'static>
    ensures { reply_seen result ≡ quit_says denied.now }
{
    match denied {
        None => Reply::Bye,
        Some(rule) => Reply::RemovalDenied(*rule),
    }
}

/// Says farewell, and removes what is planned, all or none. The removal comes last: whatever else
/// may fail is done before it.
fn carry_out<V: Vault>(
    alloc: Global,
    vault: &mut V,
    output: &mut Output,
    session: &Session,
    plan: &QuitPlan,
) -> Result<LineOutcome, AllocError>
    requires { output.old ≡ nothing_owed }
    ensures done { IfOk result (λ outcome. (p : Policy) (c : Contents) (kept : List Keyed)
        → IsPlan p session.now plan.now → V.holds vault.old c
        → V.is_clean vault.new → LiesIn c session.now kept
        → IsAnswered (V.holds vault.new) (has_grown (V.faults vault.old) (V.faults vault.new)) c
        p session.now session.now kept output.new (Ok Quit) outcome) }
    ensures err { OnErr result ((c : Contents) → V.holds vault.old c → V.is_clean vault.new
        → V.holds vault.new c) }
    ensures acts { (p : Policy) → IsPlan p session.now plan.now
        → ActsOnce V.Vault vault.old vault.new (IsOkAnd result WasDone)
        (without_marked p session.now) }
    // If nothing is to be removed, no store is asked.
    ensures unasked { plan.now.keys.items ≡ [] → vault.new ≡ vault.old }
{
    output.reserve(REFUSAL_OCTETS)?;
    output.say(alloc, &farewell(&plan.denied))?;
    if plan.keys.is_empty() {
        return Ok(LineOutcome::Done);
    }
    match vault.remove(&session.maildrop(), &plan.keys) {
        Ok(()) => Ok(LineOutcome::Done),
        Err(VaultFault::NoMemory) => Err(AllocError),
        Err(_) => {
            output.clear();
            output.say(alloc, &Reply::RemovalFailed)?;
            Ok(LineOutcome::Failed)
        }
    }
}

/// Removes the marked messages that the policy lets the clerk remove, all or none, and says
/// farewell. Each mark is judged once, and all memory is taken before the store is asked. The
/// session stays as it is: the caller ends it.
pub(crate) fn quit<V: Vault>(
    alloc: Global,
    vault: &mut V,
    policy: &Policy,
    output: &mut Output,
    session: &Session,
) -> Result<LineReport, AllocError>
    requires { output.old ≡ nothing_owed }
    ensures done { IfOk result (λ r. (c : Contents) (kept : List Keyed)
        → V.holds vault.old c
        → V.is_clean vault.new → LiesIn c session.now kept
        → IsAnswered (V.holds vault.new) (has_grown (V.faults vault.old) (V.faults vault.new)) c
        policy.now session.now session.now kept output.new (Ok Quit) r.outcome) }
    ensures err { OnErr result ((c : Contents) → V.holds vault.old c → V.is_clean vault.new
        → V.holds vault.new c) }
    ensures acts { ActsOnce V.Vault vault.old vault.new (IsOkAnd result (λ r. WasDone r.outcome))
        (without_marked policy.now session.now) }
    ensures account { IfOk result (λ r. r.account
        ≡ Account.Quit (removal_told r.outcome policy.now session.now)) }
    ensures unasked { keys_to_remove policy.now session.now ≡ [] → vault.new ≡ vault.old }
{
    let plan = session.plan_quit(policy)?;
    let outcome = carry_out(alloc, vault, output, session, &plan)?;
    let account = Account::of_quit(session, plan, outcome);
    Ok(LineReport { outcome, account })
}

/// Has the vault prepare what this session's QUIT would remove now. If memory is wanting for that,
/// nothing is prepared.
pub(crate) fn prepare<V: Vault>(
    vault: &mut V,
    policy: &Policy,
    session: &Session,
) -> Result<Progress, VaultFault>
    ensures answer { IsPrepared result }
    ensures looks { Looks V.holds V.faults V.is_clean V.is_up V.may_leave vault.old vault.new
        result }
{
    match session.plan_quit(policy) {
        Ok(plan) => vault.prepare_removal(&session.maildrop(), &plan.keys),
        Err(_) => Ok(Progress::Ready),
    }
}
