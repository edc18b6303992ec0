//! `popbox review-policy`: prints what a policy means as a whole, and what it would change.

ghost use Rattle.std.specs.Prelude.{◌≡◌, ◌⊎◌, true, IfOk, IfErr, OnOk, IsOk};
ghost use Rattle.converse.specs.Causes.{IsPolicyEnd, Reports, Tells};
ghost use Rattle.converse.specs.PolicyFile.{IsFaultOf, IsFaultOfEither, IsNoPolicyText};
ghost use Rattle.converse.specs.Reviewed.{TellsChange, TellsChangePart, TellsReview};
ghost use Rattle.converse.specs.Reviewed.{TellsReviewPart, TellsStored, TellsStoredChange};
ghost use Rattle.converse.specs.Reviewed.{TellsStoredChangePart, TellsStoredPart, status_of};
ghost use Rattle.converse.specs.Streams.{writes_failed};

use crate::check_policy::read_octets;
use crate::fault::{Fault, tell_fault};
use crate::streams::Sink;
use crate::writing::write_text;
use policy::Policy;
use review::{Choice, Kept, review_against, review_policy, review_stored};
use std::alloc::Global;
use std::io::Write;

/// Prints the review of the policy that a text spells to `out`, which is flushed.
///
/// Gives the exit status, 0 or 1. A fault has status 1 and its text on `err`. Faults are found in
/// the order: the policy has a fault, memory runs out, `out` refuses octets. Before the last of
/// them nothing is on `out`; then a beginning of the review may be.
pub fn review_alone<W: Sink, E: Write>(
    alloc: Global,
    text: &[u8],
    choice: &Choice,
    out: &mut W,
    err: &mut E,
) -> u8
    ensures good { result ≡ 0 → TellsReview choice.now text.now (W.seen out.old) (W.seen out.new) }
    ensures flushed { result ≡ 0 → (W.seen out.new).flushed ≡ true }
    ensures faulty { IsNoPolicyText text.now → out.new ≡ out.old }
    ensures part { (out.new ≡ out.old)
        ⊎ TellsReviewPart choice.now text.now (W.seen out.old) (W.seen out.new) }
    ensures reports { Reports E.contents err.old err.new result
        (IsPolicyEnd (IsFaultOf text.now) (writes_failed (W.seen out.old) (W.seen out.new))) }
{
    match tell_review(alloc, text, choice, out) {
        Ok(()) => 0,
        Err(fault) => tell_fault(err, fault),
    }
}

fn tell_review<W: Sink>(
    alloc: Global,
    text: &[u8],
    choice: &Choice,
    out: &mut W,
) -> Result<(), Fault>
    ensures ok { OnOk result (TellsReview choice.now text.now (W.seen out.old) (W.seen out.new)) }
    ensures flushed { OnOk result ((W.seen out.new).flushed ≡ true) }
    ensures faulty { IsNoPolicyText text.now → out.new ≡ out.old }
    ensures part { (out.new ≡ out.old)
        ⊎ TellsReviewPart choice.now text.now (W.seen out.old) (W.seen out.new) }
    ensures cause { IfErr result
        (IsPolicyEnd (IsFaultOf text.now) (writes_failed (W.seen out.old) (W.seen out.new))) }
{
    let policy = read_octets(alloc, text)?;
    let review = review_policy(alloc, &policy, text, choice)?;
    write_text(out, &review)?;
    Ok(())
}

/// Prints the review of the policy that a text spells against that of an older text to `out`,
/// which is flushed.
///
/// Gives the exit status: 0 if no decision differs, 3 if one does, and 1 at a fault, as
/// `review_alone` tells it. The older text's fault is found first.
pub fn review_change<W: Sink, E: Write>(
    alloc: Global,
    old: &[u8],
    text: &[u8],
    choice: &Choice,
    out: &mut W,
    err: &mut E,
) -> u8
    ensures silent { (result ≡ 1 → ⊥) → err.new ≡ err.old }
    ensures good { (result ≡ 1 → ⊥) → TellsChange choice.now result old.now text.now
        (W.seen out.old) (W.seen out.new) }
    ensures flushed { (result ≡ 1 → ⊥) → (W.seen out.new).flushed ≡ true }
    ensures part { (out.new ≡ out.old)
        ⊎ TellsChangePart choice.now old.now text.now (W.seen out.old) (W.seen out.new) }
    ensures why { result ≡ 1 → Tells (E.contents err.old) (E.contents err.new)
        (IsPolicyEnd (IsFaultOfEither old.now text.now)
        (writes_failed (W.seen out.old) (W.seen out.new))) }
{
    match tell_change(alloc, old, text, choice, out) {
        Ok(true) => 3,
        Ok(false) => 0,
        Err(fault) => tell_fault(err, fault),
    }
}

fn tell_change<W: Sink>(
    alloc: Global,
    old: &[u8],
    text: &[u8],
    choice: &Choice,
    out: &mut W,
) -> Result<bool, Fault>
    ensures ok { IfOk result (λ differ. TellsChange choice.now (status_of differ) old.now text.now
        (W.seen out.old) (W.seen out.new)) }
    ensures flushed { IsOk result → (W.seen out.new).flushed ≡ true }
    ensures part { (out.new ≡ out.old)
        ⊎ TellsChangePart choice.now old.now text.now (W.seen out.old) (W.seen out.new) }
    ensures cause { IfErr result (IsPolicyEnd (IsFaultOfEither old.now text.now)
        (writes_failed (W.seen out.old) (W.seen out.new))) }
{
    let before = read_octets(alloc, old)?;
    let policy = read_octets(alloc, text)?;
    let none = Kept::nobody(alloc);
    let (review, differ) = review_against(alloc, &before, &policy, &none, text, choice)?;
    write_text(out, &review)?;
    Ok(differ)
}

/// Prints the review of the policy that a text spells against the old one, beside a store that has
/// these clerks and maildrops, to `out`, which is flushed.
///
/// Gives the exit status as `review_change` does.
pub fn review_in_store<W: Sink, E: Write>(
    alloc: Global,
    before: &Policy,
    kept: &Kept,
    text: &[u8],
    choice: &Choice,
    out: &mut W,
    err: &mut E,
) -> u8
    ensures silent { (result ≡ 1 → ⊥) → err.new ≡ err.old }
    ensures good { (result ≡ 1 → ⊥) → TellsStored choice.now result before.now kept.now text.now
        (W.seen out.old) (W.seen out.new) }
    ensures flushed { (result ≡ 1 → ⊥) → (W.seen out.new).flushed ≡ true }
    ensures part { (out.new ≡ out.old)
        ⊎ TellsStoredPart choice.now before.now kept.now text.now
        (W.seen out.old) (W.seen out.new) }
    ensures why { result ≡ 1 → Tells (E.contents err.old) (E.contents err.new)
        (IsPolicyEnd (IsFaultOf text.now) (writes_failed (W.seen out.old) (W.seen out.new))) }
{
    match tell_stored(alloc, before, kept, text, choice, out) {
        Ok(true) => 3,
        Ok(false) => 0,
        Err(fault) => tell_fault(err, fault),
    }
}

fn tell_stored<W: Sink>(
    alloc: Global,
    before: &Policy,
    kept: &Kept,
    text: &[u8],
    choice: &Choice,
    out: &mut W,
) -> Result<bool, Fault>
    ensures ok { IfOk result (λ differ. TellsStored choice.now (status_of differ) before.now
        kept.now text.now (W.seen out.old) (W.seen out.new)) }
    ensures flushed { IsOk result → (W.seen out.new).flushed ≡ true }
    ensures part { (out.new ≡ out.old)
        ⊎ TellsStoredPart choice.now before.now kept.now text.now
        (W.seen out.old) (W.seen out.new) }
    ensures cause { IfErr result
        (IsPolicyEnd (IsFaultOf text.now) (writes_failed (W.seen out.old) (W.seen out.new))) }
{
    let policy = read_octets(alloc, text)?;
    let (review, differ) = review_stored(alloc, before, &policy, kept, text, choice)?;
    write_text(out, &review)?;
    Ok(differ)
}

/// The same against the policy that an older text spells.
pub fn review_change_in_store<W: Sink, E: Write>(
    alloc: Global,
    old: &[u8],
    kept: &Kept,
    text: &[u8],
    choice: &Choice,
    out: &mut W,
    err: &mut E,
) -> u8
    ensures silent { (result ≡ 1 → ⊥) → err.new ≡ err.old }
    ensures good { (result ≡ 1 → ⊥) → TellsStoredChange choice.now result kept.now old.now text.now
        (W.seen out.old) (W.seen out.new) }
    ensures flushed { (result ≡ 1 → ⊥) → (W.seen out.new).flushed ≡ true }
    ensures part { (out.new ≡ out.old)
        ⊎ TellsStoredChangePart choice.now kept.now old.now text.now
        (W.seen out.old) (W.seen out.new) }
    ensures why { result ≡ 1 → Tells (E.contents err.old) (E.contents err.new)
        (IsPolicyEnd (IsFaultOfEither old.now text.now)
        (writes_failed (W.seen out.old) (W.seen out.new))) }
{
    match read_octets(alloc, old) {
        Ok(before) => review_in_store(alloc, &before, kept, text, choice, out, err),
        Err(fault) => tell_fault(err, fault),
    }
}
