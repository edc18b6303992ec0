//! Laws over every history, each on a function of its own.

ghost use Rattle.std.specs.Prelude.{◌≡◌, ℕ, List, true};
ghost use Rattle.policy.specs.Policy.{are_distinct};
ghost use Rattle.popline.specs.ReplyForm.{IsWellFormed};
ghost use Rattle.office.specs.Events.{Trace};
ghost use Rattle.office.specs.History.{deposits};
ghost use Rattle.office.specs.Trace.{acts, history};
ghost use Rattle.office.specs.Laws.{OneHolder, ViewStaysPresent, UniqueIdsAreUnique};
ghost use Rattle.office.specs.Laws.{OwnRecordsAgree, MarksAreByView, GreetingsDiffer};
ghost use Rattle.office.specs.Laws.{DepositIdsActOnce, RepliesHaveTheirForm, UniqueIdTextsDiffer};
ghost use Rattle.office.specs.Laws.{TakenIsSent, OpeningsAreAdmitted, TimestampsDiffer, AllReplies};
ghost use Rattle.office.specs.Laws.{same_uid_text};
ghost use Rattle.office.specs.Served.{AllServed, ServedIsAllowed};
ghost use Rattle.office.specs.Vanishing.{AllRemovedSo, RemovedIsAllowed, AllAccountedFor};
ghost use Rattle.office.specs.Vanishing.{NothingElseVanishes, StaysGone, NoneComesBack};
ghost use Rattle.office.specs.Reviewed.{AllEnforced, DecisionsAreEnforced};
ghost use Rattle.office.specs.Sights.{IsSentBySight, HiddenMailLeavesNoTrace};
ghost use Rattle.office.specs.Sights.{HidesDeposits, HiddenDepositLeavesNoTrace};
ghost use Rattle.office.specs.Runs.{FailuresAreCounted};
ghost use Rattle.vault.specs.Changes.{Contents, records_of};
ghost use Rattle.office.specs.Stands.{Keeps, StandsFor, begun};

use crate::Office;
use vault::Vault;

/// After any history, at most one session holds a maildrop.
pub fn one_holder()
    ensures { OneHolder }
{}

/// While a session lives, its messages stay in the maildrop.
pub fn view_stays_present()
    ensures { ViewStaysPresent }
{}

/// No two accepted deposits into a maildrop's name have one unique-id.
pub fn unique_ids_are_unique()
    ensures { UniqueIdsAreUnique }
{}

/// Over a sound store and events of their types, no two accepted deposits into a maildrop's name
/// have one unique-id as it is written.
pub fn unique_id_texts_differ()
    ensures { UniqueIdTextsDiffer }
{}

/// Each store's records agree with themselves when nothing was done since.
pub fn own_records_agree()
    ensures { OwnRecordsAgree }
{}

/// The marks of a session, as replies set them, are those that its view and the policy give.
pub fn marks_are_by_view()
    ensures { MarksAreByView }
{}

/// If all boot numbers differ, all timestamps of greetings differ.
pub fn greetings_differ()
    ensures { GreetingsDiffer }
{}

/// No two accepted deposits into a maildrop's name have one id.
pub fn deposit_ids_act_once()
    ensures { DepositIdsActOnce }
{}

/// Over a sound store and events of their types, every reply's first line has at most 512 octets,
/// and its text begins with `[` only if the maildrop is in use.
pub fn replies_have_their_form()
    ensures { RepliesHaveTheirForm }
{}

/// Each reply that has a message's octets answers a RETR or a TOP of a clerk in session, and has
/// the octets of that message of the session's view; at the front of that line the policy in force
/// let that clerk read the message's class. No other reply has a message's octets.
pub fn served_is_allowed()
    ensures { ServedIsAllowed }
{}

/// Each message that was ever removed was removed by a QUIT that was done, of a clerk in session,
/// under a number that a DELE marked in that session; and a rule of the policy in force at that
/// QUIT let the clerk remove the message's class.
pub fn removed_is_allowed()
    ensures { RemovedIsAllowed }
{}

/// Over sound records, each message that arrived, with them or by a deposit, is in its maildrop and
/// no QUIT removed it; or it isn't, and exactly one such QUIT did.
pub fn nothing_else_vanishes()
    ensures { NothingElseVanishes }
{}

/// Over sound records, a message that is gone stays so, whatever is done later.
pub fn none_comes_back()
    ensures { NoneComesBack }
{}

/// What the policy in force at a line decides on its clerk's reading of a class is what the line is
/// answered: if that is no, no octets of a message of that class; if it is yes, a RETR of an
/// unmarked number that is done gets them. These decisions are those that a review of that policy
/// shows (`asks_the_policy` in the crate `review`).
pub fn decisions_are_enforced()
    ensures { DecisionsAreEnforced }
{}

/// What a connection is sent depends on its own acts, and else only on the policy, the setting, the
/// credential, the maildrop and the lock that its lines meet, and on the messages that its accepted
/// logins find, all of which the policy lets that clerk read.
pub fn hidden_mail_leaves_no_trace()
    ensures { HiddenMailLeavesNoTrace }
{}

/// Without a deposit of a class that the policy didn't let a connection's clerk read when he logged
/// in, the connection is sent the same, so long as the same other messages and maildrops are there.
pub fn hidden_deposit_leaves_no_trace()
    ensures { HiddenDepositLeavesNoTrace }
{}

/// If each event is answered as it may be, what a connection took, followed by what it is still
/// owed, is exactly what the history sends it. Once it is ended, it took a beginning of that; and
/// all of it, if its own closing ended it.
pub fn taken_is_sent()
    ensures { TakenIsSent }
{}

/// The opening of an office may always be answered as `open` answers it.
pub fn openings_are_admitted()
    ensures { OpeningsAreAdmitted }
{}

/// Over a run, the store's count of faults grew at least by the number of steps that were answered
/// `Failed`, while the count is below its greatest value. So if it didn't grow, none failed.
pub fn failures_are_counted()
    ensures { FailuresAreCounted }
{}

/// A clean store keeps the empty trace over its own records, so that an office can be opened over
/// it.
pub fn own_trace_is_kept<V: Vault>(vault: &V)
    ensures { (c : Contents) → V.holds vault.now c → V.is_clean vault.now
        → Keeps (V.holds vault.now) (begun (records_of c)) }
{
    let _vault = vault;
}

/// Of the trace that an office stands for: if boot numbers differ, the greetings' timestamps
/// differ; unique-ids as they are written differ; replies have their form; each message that is
/// served or removed was allowed, nothing else vanishes, and none comes back; what the policy
/// decides on reading is done; and hidden mail leaves no trace.
pub fn laws_of_its_trace<V: Vault>(office: &Office<V>)
    ensures greetings { (T : Trace) → StandsFor V.holds office.now T → TimestampsDiffer T }
    ensures unique_ids { (T : Trace) → StandsFor V.holds office.now T → (d : List ℕ)
        → are_distinct same_uid_text (deposits T.base (history T) d) ≡ true }
    ensures replies { (T : Trace) → StandsFor V.holds office.now T
        → AllReplies IsWellFormed (history T) }
    ensures served { (T : Trace) → StandsFor V.holds office.now T → AllServed T.base (history T) }
    ensures removed { (T : Trace) → StandsFor V.holds office.now T
        → AllRemovedSo T.base (history T) }
    ensures accounted { (T : Trace) → StandsFor V.holds office.now T
        → AllAccountedFor T.base (history T) }
    ensures gone { (T : Trace) → StandsFor V.holds office.now T → StaysGone T.base (acts T) }
    ensures enforced { (T : Trace) → StandsFor V.holds office.now T
        → AllEnforced T.base (history T) }
    ensures hidden { (T : Trace) → StandsFor V.holds office.now T
        → IsSentBySight T.base (history T) }
    ensures deposits { (T : Trace) → StandsFor V.holds office.now T
        → HidesDeposits T.base (acts T) }
{
    let _office = office;
}
