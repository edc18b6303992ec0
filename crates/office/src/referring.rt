//! Replies to commands that name a message of a session by its number, without its text (RFC 1939,
//! 5: LIST and DELE; 7: UIDL).
ghost use Rattle.std.specs.Prelude.{◌≡◌, List};
ghost use Rattle.popline.specs.Commands.{ListOne, UidlOne, Dele, Rset};
ghost use Rattle.popline.specs.Seen.{reply_seen};
ghost use Rattle.policy.specs.Policy.{Policy};
ghost use Rattle.vault.specs.Changes.{Contents};
ghost use Rattle.vault.specs.declared.record.Keyed.{Keyed};
ghost use Rattle.office.specs.Transaction.{LiesIn, GoesOn, transaction_told, refused_pick};

use creds::Uid;
use policy::Policy;
use popline::Reply;
use session::{Pick, Session};

/// The reply to a number under which no message may be read or marked: none is there, it is marked
/// already, or the rule that denies it.
pub(crate) fn refused(why: Pick, n: u64) -> Reply<'static>
    ensures { reply_seen result ≡ refused_pick n why }
{
    match why {
        Pick::NoSuch => Reply::NoSuchMessage,
        Pick::Deleted => Reply::AlreadyMarked(n),
        Pick::Denied(rule) => Reply::DeniedBy(rule),
    }
}

/// The scan listing of one message.
pub(crate) fn scan_line(session: &Session, n: u64) -> Reply<'static>
    ensures said { (p : Policy) (c : Contents) (kept : List Keyed) → LiesIn c session.now kept
        → reply_seen result ≡ transaction_told p session.now kept (ListOne n) }
    ensures session { GoesOn (reply_seen result) session.now session.now }
{
    match session.pick(n) {
        Ok(head) => Reply::ScanLine {
            number: n,
            octets: head.octets,
        },
        Err(why) => refused(why, n),
    }
}

/// The unique-id of one message.
pub(crate) fn uid_line(session: &Session, n: u64) -> Reply<'static>
    ensures said { (p : Policy) (c : Contents) (kept : List Keyed) → LiesIn c session.now kept
        → reply_seen result ≡ transaction_told p session.now kept (UidlOne n) }
    ensures session { GoesOn (reply_seen result) session.now session.now }
{
    match session.pick(n) {
        Ok(head) => Reply::UidLine {
            number: n,
            uid: Uid {
                class: head.class,
                k: head.k,
            },
        },
        Err(why) => refused(why, n),
    }
}

/// Marks a message, if the policy lets the clerk remove its class.
pub(crate) fn delete(session: &mut Session, policy: &Policy, n: u64) -> Reply<'static>
    ensures said { (c : Contents) (kept : List Keyed) → LiesIn c session.old kept
        → reply_seen result ≡ transaction_told policy.now session.old kept (Dele n) }
    ensures session { GoesOn (reply_seen result) session.old session.new }
{
    match session.mark(n, policy) {
        Ok(()) => Reply::Marked(n),
        Err(why) => refused(why, n),
    }
}

/// Takes all marks away.
pub(crate) fn reset(session: &mut Session) -> Reply<'static>
    ensures said { (p : Policy) (c : Contents) (kept : List Keyed) → LiesIn c session.old kept
        → reply_seen result ≡ transaction_told p session.old kept Rset }
    ensures session { GoesOn (reply_seen result) session.old session.new }
{
    session.reset();
    let (messages, octets) = session.stat();
    Reply::MaildropHas { messages, octets }
}
