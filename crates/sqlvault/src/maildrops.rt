//! Adding and dropping maildrops.
ghost use Rattle.std.specs.Prelude.{◌≡◌, IfOk, min, length, ⊤};
ghost use Rattle.vault.specs.Records.{is_one_of};
ghost use Rattle.vault.specs.Calls.{IsMaildropAdded, IsMaildropDropped, present_in};
ghost use Rattle.sqlvault.specs.Frame.{IsOk, Sees, Learns, Acts};
ghost use Rattle.sqlvault.specs.UnderWay.{TellsBeside};
ghost use Rattle.sqlvault.specs.Refusals.{answer_of};

use crate::refusal::Refusal;
use creds::Name;
use mailsql::{mail, maildrops};
use sqlite::{Alter, Connection, Error};
use vault::VaultFault;

/// The greatest number of maildrops.
pub(crate) const MAX_MAILDROPS: u64 = vault::MAX_MAILDROPS as u64;

/// Whether there is a maildrop of this name, also inside a transaction.
pub(crate) fn find_maildrop<S: Alter>(conn: &mut Connection<S>, name: &Name) -> Result<bool, Error>
    ensures sees { Sees S.Store conn.old conn.new (IsOk result)
        (λ c. IfOk result (λ there. there ≡ is_one_of name.now c.maildrops)) }
    ensures beside { TellsBeside S.Store conn.old conn.new (λ _. ⊤)
        (λ c. IfOk result (λ there. there ≡ is_one_of name.now c.maildrops)) }
{
    maildrops::has_maildrop(conn, name.as_bytes())
}

/// Whether there is a maildrop of this name.
pub(crate) fn has_maildrop<S: Alter>(conn: &mut Connection<S>, name: &Name) -> Result<bool, Error>
    ensures { Learns S.Store conn.old conn.new (IsOk result)
        (λ c. IfOk result (λ there. there ≡ is_one_of name.now c.maildrops)) }
{
    find_maildrop(conn, name)
}

/// How many maildrops there are.
fn maildrop_count<S: Alter>(conn: &mut Connection<S>) -> Result<u64, Error>
    ensures { Learns S.Store conn.old conn.new (IsOk result)
        (λ c. IfOk result (λ count. count ≡ min (length c.maildrops) 9223372036854775807)) }
{
    maildrops::maildrop_count(conn)
}

/// How many messages lie in the maildrop of this name.
pub(crate) fn message_count<S: Alter>(conn: &mut Connection<S>, name: &Name) -> Result<u64, Error>
    ensures { Learns S.Store conn.old conn.new (IsOk result)
        (λ c. IfOk result (λ count. count ≡ min (present_in name.now c) 9223372036854775807)) }
{
    mail::message_count(conn, name.as_bytes())
}

/// Adds a maildrop of this name. Answers whether it was new.
///
/// Answers [`VaultFault::Full`] for a new name beyond 1,000. After any refusal the maildrops are as
/// they were.
pub(crate) fn add_maildrop<S: Alter>(conn: &mut Connection<S>, name: &Name) -> Result<bool, Refusal>
    ensures { Acts S.Store conn.old conn.new
        (λ c Held answered. IsMaildropAdded Held c name.now answered) (answer_of result) }
{
    let there = has_maildrop(conn, name)?;
    if there {
        return Ok(false);
    }
    let count = maildrop_count(conn)?;
    if count >= MAX_MAILDROPS {
        return Err(Refusal::Answered(VaultFault::Full));
    }
    maildrops::add_maildrop(conn, name.as_bytes())?;
    Ok(true)
}

/// Drops an empty maildrop. The receipts and the counts under its name stay.
///
/// Answers [`VaultFault::NoMaildrop`] if the maildrop is missing, else [`VaultFault::NotEmpty`]
/// if it has a message. After any refusal the maildrops are as they were.
pub(crate) fn drop_maildrop<S: Alter>(conn: &mut Connection<S>, name: &Name) -> Result<(), Refusal>
    ensures { Acts S.Store conn.old conn.new
        (λ c Held answered. IsMaildropDropped Held c name.now answered) (answer_of result) }
{
    let there = has_maildrop(conn, name)?;
    if !there {
        return Err(Refusal::Answered(VaultFault::NoMaildrop));
    }
    let count = message_count(conn, name)?;
    if count > 0 {
        return Err(Refusal::Answered(VaultFault::NotEmpty));
    }
    Ok(maildrops::drop_maildrop(conn, name.as_bytes())?)
}
