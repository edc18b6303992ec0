//! What a session lists of its messages (RFC 1939, 5: STAT and LIST; 7: UIDL).
ghost use Rattle.std.specs.Prelude.{◌≡◌, List, Some, IfOk};
ghost use Rattle.popline.specs.Commands.{Stat};
ghost use Rattle.popline.specs.Replies.{ScanListing, UidListing};
ghost use Rattle.popline.specs.Seen.{reply_seen};
ghost use Rattle.policy.specs.Policy.{Policy};
ghost use Rattle.vault.specs.declared.record.Keyed.{Keyed};
ghost use Rattle.vault.specs.Changes.{Contents};
ghost use Rattle.session.specs.Session.{octets_of, uid_of};
ghost use Rattle.session.specs.View.{unmarked, sizes_of, uids_of};
ghost use Rattle.office.specs.Output.{nothing_owed, OwesReply};
ghost use Rattle.office.specs.Transaction.{LiesIn, GoesOn, transaction_told};

use crate::login_state::LineOutcome;
use crate::output::Output;
use popline::Reply;
use session::Session;
use std::alloc::{AllocError, Global};

/// How many messages aren't marked, and their octets.
pub(crate) fn drop_listing(session: &Session) -> Reply<'static>
    ensures said { (p : Policy) (c : Contents) (kept : List Keyed) → LiesIn c session.now kept
        → reply_seen result ≡ transaction_told p session.now kept Stat }
    ensures session { GoesOn (reply_seen result) session.now session.now }
{
    let (messages, octets) = session.stat();
    Reply::DropListing { messages, octets }
}

/// Puts the scan listing: number and octets of each message that isn't marked.
pub(crate) fn list(
    alloc: Global,
    session: &Session,
    output: &mut Output,
) -> Result<LineOutcome, AllocError>
    requires { output.old ≡ nothing_owed }
    ensures outcome { IfOk result (λ outcome. outcome ≡ LineOutcome.Done) }
    ensures owed { IfOk result (λ _. (c : Contents)
        → OwesReply c (Some session.now) output.new
        (ScanListing (sizes_of octets_of (unmarked session.now.marks session.now.view)))) }
{
    output.begin_sizes()?;
    output.send_sizes(alloc, session, 0)?;
    Ok(LineOutcome::Done)
}

/// Puts the listing of unique-ids: number and unique-id of each message that isn't marked.
pub(crate) fn list_uids(
    alloc: Global,
    session: &Session,
    output: &mut Output,
) -> Result<LineOutcome, AllocError>
    requires { output.old ≡ nothing_owed }
    ensures outcome { IfOk result (λ outcome. outcome ≡ LineOutcome.Done) }
    ensures owed { IfOk result (λ _. (c : Contents)
        → OwesReply c (Some session.now) output.new
        (UidListing (uids_of uid_of (unmarked session.now.marks session.now.view)))) }
{
    output.begin_uids()?;
    output.send_uids(alloc, session, 0)?;
    Ok(LineOutcome::Done)
}
