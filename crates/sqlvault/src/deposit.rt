//! A deposit, in one transaction.
ghost use Rattle.std.specs.Prelude.{◌≡◌, ◌≤◌, ◌&&◌, ◌+◌, ℕ, List, length, pos, true, None, Ok};
ghost use Rattle.std.specs.Prelude.{IfOk};
ghost use Rattle.std.specs.Str.{bytes_eq};
ghost use Rattle.creds.specs.Names.{is_name, is_deposit_id};
ghost use Rattle.creds.specs.Digests.{text_digest};
ghost use Rattle.creds.specs.declared.uid.Uid as uid;
ghost use Rattle.sqlite.specs.Held.{state};
ghost use Rattle.sqlite.specs.State.{HasCleanDisk};
ghost use Rattle.vault.specs.declared.answer.Deposited.TheVariants as stored;
ghost use Rattle.vault.specs.declared.record.Receipt as receipt;
ghost use Rattle.vault.specs.Records.{receipts_of, class_count, most_deposits};
ghost use Rattle.vault.specs.Changes.{Contents, deposit_answered, is_full, known_or_conflict};
ghost use Rattle.vault.specs.Calls.{IsAnswer, IsDeposited, deposit_result, deposit_answer_in};
ghost use Rattle.vault.specs.Calls.{present_in};
ghost use Rattle.sqlvault.specs.Keeps.{deposit_row, number_in};
ghost use Rattle.sqlvault.specs.Deposits.{PutsReceipt, PutsMessage, PutsDeposit, Accepts, Stores};
ghost use Rattle.sqlvault.specs.Deposits.{message_of};
ghost use Rattle.sqlvault.specs.Refusals.{answer_of};
ghost use Rattle.sqlvault.specs.Frame.{IsOk, IsMet, Looks, Acts, Writes};
ghost use Rattle.sqlvault.specs.Stands.{Holds, WasClean};

use crate::maildrops::{has_maildrop, message_count};
use crate::refusal::{Refusal, unreadable};
use crate::transaction::{begin, conclude};
use creds::{DepositId, Name, Uid};
use mailsql::{counts, deposits, mail, rows, sheets};
use mailtext::MailText;
use sqlite::{Alter, Connection, Error};
use std::alloc::Global;
use vault::{Deposited, Receipt, VaultFault};

/// The greatest number of messages in a maildrop.
pub(crate) const MAX_MESSAGES: u64 = vault::MAX_MESSAGES as u64;

/// The greatest number of deposits of one class under one maildrop name.
pub(crate) const MAX_DEPOSITS: u64 = vault::MAX_DEPOSITS as u64;

/// The number of a row. An error if it is below 0, which a sound store's never is.
pub(crate) fn read_number(number: i64) -> Result<u64, Error>
    ensures { (n : ℕ) → number ≡ pos n → result ≡ Ok n }
{
    if number < 0 {
        return Err(unreadable());
    }
    Ok(number.cast_unsigned())
}

/// The number of a count; 0 if there is none.
fn number_of(count: &Option<rows::Count>) -> Result<u64, Error>
    ensures { (n : ℕ) → number_in count.now ≡ pos n → result ≡ Ok n }
{
    match count {
        Some(row) => read_number(row.k),
        None => Ok(0),
    }
}

/// Whether the row is of this class and digest.
fn is_same(row: &rows::Deposit, class: &Name, digest: &[u8; 32]) -> bool
    ensures { result ≡ (bytes_eq row.now.class class.now && bytes_eq row.now.digest digest.now) }
{
    row.class.as_slice() == class.as_bytes() && row.digest.as_slice() == digest.as_slice()
}

/// The answer to a deposit whose id was used before, by this row: the old unique-id if class and
/// text are the same, else `Conflict`.
fn known_or_conflict(
    row: &rows::Deposit,
    class: &Name,
    digest: &[u8; 32],
) -> Result<Deposited, Refusal>
    ensures answered { (r : receipt.Receipt) (text : List ℕ) → row.now ≡ deposit_row r
        → digest.now ≡ text_digest text → answer_of result
        ≡ deposit_result (known_or_conflict class.now text r) }
    ensures old { (u : uid.Uid) → ¬ (result ≡ Ok (stored.New u)) }
{
    if !is_same(row, class, digest) {
        return Err(Refusal::Answered(VaultFault::Conflict));
    }
    let k = read_number(row.k)?;
    Ok(Deposited::Known(Uid { class: *class, k }))
}

/// How many deposits of the class there were under the maildrop's name.
fn find_before<S: Alter>(
    alloc: Global,
    conn: &mut Connection<S>,
    maildrop: &Name,
    class: &Name,
) -> Result<u64, Error>
    ensures answered { (c : Contents) → HasCleanDisk (state S.Store conn.new)
        → Holds (state S.Store conn.old) c → IfOk result
        (λ n. n ≡ class_count class.now (receipts_of maildrop.now c.deposits)) }
    ensures looks { Looks S.Store conn.old conn.new (IsOk result) }
{
    let count = counts::find_count(alloc, conn, maildrop.as_bytes(), class.as_bytes())?;
    number_of(&count)
}

/// The answer to a deposit with a new id into a maildrop that is there: its unique-id, or `Full`.
pub(crate) fn judge_new<S: Alter>(
    alloc: Global,
    conn: &mut Connection<S>,
    maildrop: &Name,
    class: &Name,
) -> Result<Deposited, Refusal>
    ensures answered { (c : Contents) (text : List ℕ) → HasCleanDisk (state S.Store conn.new)
        → Holds (state S.Store conn.old) c
        → IsAnswer (deposit_result (deposit_answered None class.now text
        (is_full (present_in maildrop.now c) (receipts_of maildrop.now c.deposits) class.now)
        (class_count class.now (receipts_of maildrop.now c.deposits) + 1))) (answer_of result) }
    ensures looks { Looks S.Store conn.old conn.new (IsMet result) }
    ensures within { (u : uid.Uid) → result ≡ Ok (stored.New u) → u.k ≤ most_deposits }
{
    let present = message_count(conn, maildrop)?;
    if present >= MAX_MESSAGES {
        return Err(Refusal::Answered(VaultFault::Full));
    }
    let before = find_before(alloc, conn, maildrop, class)?;
    if before >= MAX_DEPOSITS {
        return Err(Refusal::Answered(VaultFault::Full));
    }
    Ok(Deposited::New(Uid {
        class: *class,
        k: before + 1,
    }))
}

/// The answer to a deposit of a text with this digest. Nothing is changed yet.
fn judge<S: Alter>(
    alloc: Global,
    conn: &mut Connection<S>,
    maildrop: &Name,
    class: &Name,
    id: &DepositId,
    digest: &[u8; 32],
) -> Result<Deposited, Refusal>
    ensures answered { (c : Contents) (text : List ℕ) → HasCleanDisk (state S.Store conn.new)
        → Holds (state S.Store conn.old) c → digest.now ≡ text_digest text
        → IsAnswer (deposit_result (deposit_answer_in c maildrop.now class.now id.now text))
        (answer_of result) }
    ensures looks { Looks S.Store conn.old conn.new (IsMet result) }
    ensures within { (u : uid.Uid) → result ≡ Ok (stored.New u) → u.k ≤ most_deposits }
{
    let there = has_maildrop(conn, maildrop)?;
    if !there {
        return Err(Refusal::Answered(VaultFault::NoMaildrop));
    }
    let used = deposits::find_deposit(alloc, conn, maildrop.as_bytes(), id.as_bytes())?;
    match used {
        Some(row) => known_or_conflict(&row, class, digest),
        None => judge_new(alloc, conn, maildrop, class),
    }
}

/// Sets the count of the receipt's class and adds the receipt, inside a transaction.
pub(crate) fn put_receipt<S: Alter>(
    conn: &mut Connection<S>,
    receipt: &Receipt,
) -> Result<(), Error>
    requires { receipt.now.k ≤ most_deposits }
    ensures { Writes S.Store conn.old conn.new (λ _. PutsReceipt receipt.now) result }
{
    let k = receipt.k as i64;
    counts::set_count(
        conn,
        receipt.maildrop.as_bytes(),
        receipt.class.as_bytes(),
        k,
    )?;
    deposits::add_deposit(
        conn,
        receipt.maildrop.as_bytes(),
        receipt.id.as_bytes(),
        receipt.class.as_bytes(),
        k,
        receipt.digest.as_slice(),
    )
}

/// Adds the message of the receipt and its sheets, inside a transaction.
fn put_message<S: Alter>(
    conn: &mut Connection<S>,
    receipt: &Receipt,
    text: &MailText,
) -> Result<(), Error>
    requires { receipt.now.k ≤ most_deposits }
    ensures { Writes S.Store conn.old conn.new
        (λ _. PutsMessage (message_of receipt.now text.now)) result }
{
    let k = receipt.k as i64;
    let octets = text.octets() as i64;
    let key = mail::add_message(
        conn,
        receipt.maildrop.as_bytes(),
        receipt.class.as_bytes(),
        k,
        octets,
    )?;
    sheets::add_sheets(conn, key, text.bytes())
}

/// Sets the count, and adds the receipt, the message and its sheets, inside a transaction.
fn put_deposit<S: Alter>(
    conn: &mut Connection<S>,
    receipt: &Receipt,
    text: &MailText,
) -> Result<(), Error>
    requires { receipt.now.k ≤ most_deposits }
    ensures { Writes S.Store conn.old conn.new (λ _. PutsDeposit receipt.now text.now) result }
{
    put_receipt(conn, receipt)?;
    put_message(conn, receipt, text)
}

/// Keeps a deposit that was judged new, in one transaction.
fn store<S: Alter>(
    conn: &mut Connection<S>,
    receipt: &Receipt,
    text: &MailText,
) -> Result<(), Refusal>
    requires { receipt.now.k ≤ most_deposits }
    ensures clean { WasClean (state S.Store conn.old) (state S.Store conn.new) }
    ensures answer { IsAnswer (Ok tt) (answer_of result) }
    ensures stored { (c : Contents) → HasCleanDisk (state S.Store conn.new)
        → Holds (state S.Store conn.old) c → Accepts c receipt.now text.now
        → Stores S.Store conn.old conn.new receipt.now text.now c result }
{
    begin(conn)?;
    let put = put_deposit(conn, receipt, text);
    conclude(conn, put)
}

/// The receipt of a deposit that gets this number.
pub(crate) fn receipt_for(
    maildrop: &Name,
    class: &Name,
    id: &DepositId,
    k: u64,
    digest: [u8; 32],
) -> Receipt
    ensures value { result ≡ record {
      maildrop = maildrop.now;
      id = id.now;
      class = class.now;
      k =
          k;
      digest = digest;
    } }
    ensures maildrop_form { is_name maildrop.now ≡ true }
    ensures id_form { is_deposit_id id.now ≡ true }
    ensures class_form { is_name class.now ≡ true }
    ensures sized { length digest ≡ 32 }
{
    // For the proof: a name and an id have their forms.
    let _ = maildrop.as_bytes();
    let _ = id.as_bytes();
    let _ = class.as_bytes();
    Receipt {
        maildrop: *maildrop,
        id: *id,
        class: *class,
        k,
        digest,
    }
}

/// Puts a message into a maildrop, once for each deposit id under the maildrop's name. The message,
/// its sheets, its receipt and the count of its class are committed together.
///
/// Answers [`VaultFault::NoMaildrop`] if the maildrop is missing, else [`VaultFault::Conflict`]
/// if the id was used with another class or text, else [`VaultFault::Full`] if the maildrop
/// has 10,000 messages or there were 1,000,000,000 deposits of the class under its name. After any
/// error nothing is changed.
pub(crate) fn deposit<S: Alter>(
    alloc: Global,
    conn: &mut Connection<S>,
    maildrop: &Name,
    class: &Name,
    id: &DepositId,
    text: &MailText,
) -> Result<Deposited, Refusal>
    ensures { Acts S.Store conn.old conn.new
        (λ c Held answered. IsDeposited Held c maildrop.now class.now id.now text.now answered)
        (answer_of result) }
{
    let digest = creds::text_digest(text.bytes());
    let answer = judge(alloc, conn, maildrop, class, id, &digest)?;
    let Deposited::New(uid) = answer else {
        return Ok(answer);
    };
    let receipt = receipt_for(maildrop, class, id, uid.k, digest);
    store(conn, &receipt, text)?;
    Ok(Deposited::New(uid))
}
