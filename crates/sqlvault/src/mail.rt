//! The heads of a maildrop's messages, and their removal.
ghost use Rattle.std.specs.Prelude.{◌≡◌, ◌<◌, ◌^◌, Some, true, List, [], map, nat_lt, IfOk, IfErr};
ghost use Rattle.std.specs.Prelude.{false, bytes_eq};
ghost use Rattle.std.specs.List.{list_all};
ghost use Rattle.creds.specs.Names.{is_name};
ghost use Rattle.mailsql.specs.Errors.{IsWantOfMemory};
ghost use Rattle.vault.specs.declared.record.Keyed.{Keyed};
ghost use Rattle.vault.specs.Changes.{Contents, head_of, kept_in, without_keys};
ghost use Rattle.vault.specs.Changes.{with_messages};
ghost use Rattle.vault.specs.Calls.{IsAnswer, seen_as, heads_result, AreRemoved};
ghost use Rattle.sqlvault.specs.Keeps.{Keeps, message_row};
ghost use Rattle.sqlvault.specs.Refusals.{answer_of};
ghost use Rattle.sqlvault.specs.RowForms.{AreMailRows};
ghost use Rattle.sqlvault.specs.Frame.{IsOk, IsMet, Sees, Learns, Acts, Writes};
ghost use Rattle.sqlvault.specs.UnderWay.{TellsBeside};

use crate::maildrops::find_maildrop;
use crate::refusal::{Refusal, unreadable};
use crate::transaction::{begin, conclude};
use creds::Name;
use mailsql::mail;
use mailsql::rows::Message;
use sqlite::{Alter, Connection, Error};
use std::alloc::Global;
use vault::{Head, MessageKey, VaultFault};

/// The head of a message's row; `None` if its class hasn't the form of a name.
fn read_head(row: &Message) -> Option<Head>
    ensures { (x : Keyed) → row.now ≡ message_row x → is_name x.message.class ≡ true
        → x.key < 2 ^ 64 → result ≡ Some (head_of x) }
{
    match Name::read(row.class.as_slice()) {
        Some(class) => Some(Head {
            key: MessageKey::new(row.key.cast_unsigned()),
            class,
            k: row.k.cast_unsigned(),
            octets: row.octets.cast_unsigned(),
        }),
        None => None,
    }
}

/// The heads of these rows, in order. If each row is that of a message, the only error is that
/// memory ran out.
fn read_heads(alloc: Global, rows: &[Message]) -> Result<Vec<Head>, Error>
    ensures items { (ms : List Keyed) → rows.now ≡ map message_row ms
        → list_all (λ x. is_name x.message.class) ms ≡ true
        → list_all (λ x. nat_lt x.key (2 ^ 64)) ms ≡ true
        → IfOk result (λ heads. heads.items ≡ map head_of ms) }
    ensures memory { (ms : List Keyed) → rows.now ≡ map message_row ms
        → list_all (λ x. is_name x.message.class) ms ≡ true
        → list_all (λ x. nat_lt x.key (2 ^ 64)) ms ≡ true → IfErr result IsWantOfMemory }
{
    let mut heads = Vec::new(alloc);
    for row in rows {
        match read_head(row) {
            Some(head) => heads.push(head)?,
            None => return Err(unreadable()),
        }
    }
    Ok(heads)
}

/// The rows of a maildrop's messages, in order of arrival, also inside a transaction.
fn find_rows<S: Alter>(
    alloc: Global,
    conn: &mut Connection<S>,
    maildrop: &Name,
) -> Result<Vec<Message>, Error>
    ensures sees { Sees S.Store conn.old conn.new (IsOk result)
        (λ c. IfOk result (λ rows. AreMailRows maildrop.now c rows.items)) }
    ensures beside { TellsBeside S.Store conn.old conn.new
        (λ a. bytes_eq a.maildrop maildrop.now ≡ false)
        (λ c. IfOk result (λ rows. AreMailRows maildrop.now c rows.items)) }
{
    mail::heads(alloc, conn, maildrop.as_bytes())
}

/// The rows of a maildrop's messages, in order of arrival.
pub(crate) fn rows_of<S: Alter>(
    alloc: Global,
    conn: &mut Connection<S>,
    maildrop: &Name,
) -> Result<Vec<Message>, Error>
    ensures { Learns S.Store conn.old conn.new (IsOk result)
        (λ c. IfOk result (λ rows. AreMailRows maildrop.now c rows.items)) }
{
    find_rows(alloc, conn, maildrop)
}

/// The heads of a maildrop without messages.
fn no_heads<S: Alter>(
    alloc: Global,
    conn: &mut Connection<S>,
    maildrop: &Name,
) -> Result<Vec<Head>, Refusal>
    ensures sees { Sees S.Store conn.old conn.new (IsMet result)
        (λ c. kept_in maildrop.now c.messages ≡ [] → IsAnswer (heads_result maildrop.now c)
        (seen_as (answer_of result) (λ v. v.items))) }
    ensures beside { TellsBeside S.Store conn.old conn.new
        (λ a. bytes_eq a.maildrop maildrop.now ≡ false)
        (λ c. kept_in maildrop.now c.messages ≡ [] → IsAnswer (heads_result maildrop.now c)
        (seen_as (answer_of result) (λ v. v.items))) }
{
    let there = find_maildrop(conn, maildrop)?;
    if !there {
        return Err(Refusal::Answered(VaultFault::NoMaildrop));
    }
    Ok(Vec::new(alloc))
}

/// The heads of a maildrop's messages, in order of arrival. Nothing is changed. Only if there are
/// none is the maildrop looked up.
///
/// Answers [`VaultFault::NoMaildrop`] if the maildrop is missing, else the error that a query
/// met.
pub(crate) fn heads<S: Alter>(
    alloc: Global,
    conn: &mut Connection<S>,
    maildrop: &Name,
) -> Result<Vec<Head>, Refusal>
    ensures sees { Sees S.Store conn.old conn.new (IsMet result)
        (λ c. IsAnswer (heads_result maildrop.now c) (seen_as (answer_of result) (λ v. v.items))) }
    ensures beside { TellsBeside S.Store conn.old conn.new
        (λ a. bytes_eq a.maildrop maildrop.now ≡ false)
        (λ c. IsAnswer (heads_result maildrop.now c) (seen_as (answer_of result) (λ v. v.items))) }
{
    let rows = find_rows(alloc, conn, maildrop)?;
    if rows.is_empty() {
        return no_heads(alloc, conn, maildrop);
    }
    Ok(read_heads(alloc, rows.as_slice())?)
}

/// Removes each of the messages, inside a transaction, the last one first: so what is left of a
/// page of the store needn't move.
pub(crate) fn remove_all<S: Alter>(
    conn: &mut Connection<S>,
    maildrop: &Name,
    keys: &[MessageKey],
) -> Result<(), Error>
    ensures { Writes S.Store conn.old conn.new
        (λ _ before after. (c : Contents) → Keeps before c
        → Keeps after (with_messages (without_keys maildrop.now keys.now c.messages) c)) result }
{
    let mut left = keys.len();
    while left > 0 {
        left -= 1;
        let key = keys[left].number().cast_signed();
        mail::remove_message(conn, key, maildrop.as_bytes())?;
    }
    Ok(())
}

/// Removes the maildrop's messages with these keys, in one transaction. A key that isn't in the
/// maildrop is passed over; so are all keys if the maildrop is missing.
///
/// Answers the error that a statement met; no message is then removed.
pub(crate) fn remove<S: Alter>(
    conn: &mut Connection<S>,
    maildrop: &Name,
    keys: &[MessageKey],
) -> Result<(), Refusal>
    ensures { Acts S.Store conn.old conn.new
        (λ c Held answered. AreRemoved Held c maildrop.now keys.now answered) (answer_of result) }
{
    begin(conn)?;
    let removed = remove_all(conn, maildrop, keys);
    conclude(conn, removed)
}
