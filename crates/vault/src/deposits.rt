//! Deposits into a store in memory: how each is answered, and how it is kept.
ghost use Rattle.std.specs.Prelude.{◌≡◌, ◌&&◌, find, option_copied, ◌+◌, ℕ, List, [], ◌∷◌};
ghost use Rattle.std.specs.Prelude.{◌++◌, length, is_ok, true, if◌then◌else◌};
ghost use Rattle.std.specs.Str.{bytes_eq};
ghost use Rattle.creds.specs.Names.{is_name, is_deposit_id};
ghost use Rattle.creds.specs.Digests.{text_digest};
ghost use Rattle.mailtext.specs.MailText.{IsMailText};
ghost use Rattle.vault.specs.Records.{is_one_of, receipts_of, receipt_of, class_count};
ghost use Rattle.vault.specs.Changes.{kept_in, deposit_answer, known_or_conflict, message_for};
ghost use Rattle.vault.specs.Changes.{receipt_for};
ghost use Rattle.vault.specs.Calls.{deposit_result};
ghost use Rattle.vault.specs.Plain.{with_message};

use crate::answer::Deposited;
use crate::fault::VaultFault;
use crate::lists::{count_in, has_name};
use crate::message_key::MessageKey;
use crate::record::{Keyed, Message, Receipt};
use crate::sheets::SheetText;
use creds::{DepositId, Name, Uid};
use mailtext::MailText;
use std::alloc::{AllocError, Global};

/// The greatest number of messages in a maildrop.
pub const MAX_MESSAGES: usize = 10_000;

/// The greatest number of deposits of one class that one maildrop's name ever has.
pub const MAX_DEPOSITS: usize = 1_000_000_000;

/// A deposit's maildrop, class, id and digest.
#[derive(Clone, Copy)]
pub(crate) struct Asked {
    pub(crate) maildrop: Name,
    pub(crate) class: Name,
    pub(crate) id: DepositId,
    pub(crate) digest: [u8; 32],
}

/// Whether the receipt has this id and this maildrop's name.
fn is_of(receipt: &Receipt, maildrop: &Name, id: &DepositId) -> bool
    ensures { result ≡ (bytes_eq receipt.now.maildrop maildrop.now
        && bytes_eq receipt.now.id id.now) }
{
    receipt.maildrop == *maildrop && receipt.id == *id
}

/// The first receipt with the id and the maildrop's name.
fn first_receipt<'a>(
    deposits: &'a [Receipt],
    maildrop: &Name,
    id: &DepositId,
) -> Option<&'a Receipt>
    ensures { option_copied result ≡ find (λ r. bytes_eq r.maildrop maildrop.now
        && bytes_eq r.id id.now) deposits.now }
{
    deposits.iter().find(|receipt| is_of(receipt, maildrop, id))
}

/// A copy of the receipt with the id and the maildrop's name, if there is one.
fn receipt_of(deposits: &[Receipt], maildrop: &Name, id: &DepositId) -> Option<Receipt>
    ensures { result ≡ receipt_of id.now (receipts_of maildrop.now deposits.now) }
{
    first_receipt(deposits, maildrop, id).copied()
}

/// How many deposits of the class the maildrop's name had.
fn class_count(deposits: &[Receipt], maildrop: &Name, class: &Name) -> usize
    ensures { result ≡ class_count class.now (receipts_of maildrop.now deposits.now) }
{
    deposits
        .iter()
        .filter(|receipt| receipt.maildrop == *maildrop)
        .filter(|receipt| receipt.class == *class)
        .count()
}

/// The answer to a deposit whose id was used before.
fn known_or_conflict(receipt: &Receipt, asked: &Asked) -> Result<Deposited, VaultFault>
    ensures { (text : List ℕ) → asked.now.digest ≡ text_digest text
        → result ≡ deposit_result (known_or_conflict asked.now.class text receipt.now) }
{
    if receipt.class == asked.class && receipt.digest == asked.digest {
        Ok(Deposited::Known(Uid {
            class: receipt.class,
            k: receipt.k,
        }))
    } else {
        Err(VaultFault::Conflict)
    }
}

/// The answer to a deposit, leaving aside that memory may run out.
pub(crate) fn judge(
    names: &[Name],
    messages: &[Keyed],
    deposits: &[Receipt],
    asked: &Asked,
) -> Result<Deposited, VaultFault>
    ensures { (text : List ℕ) → asked.now.digest ≡ text_digest text
        → result ≡ deposit_result (deposit_answer (is_one_of asked.now.maildrop names.now)
        (length (kept_in asked.now.maildrop messages.now))
        (receipts_of asked.now.maildrop deposits.now) asked.now.class asked.now.id text) }
{
    if !has_name(names, &asked.maildrop) {
        return Err(VaultFault::NoMaildrop);
    }
    if let Some(receipt) = receipt_of(deposits, &asked.maildrop, &asked.id) {
        return known_or_conflict(&receipt, asked);
    }
    let present = count_in(messages, &asked.maildrop);
    let before = class_count(deposits, &asked.maildrop, &asked.class);
    if present >= MAX_MESSAGES || before >= MAX_DEPOSITS {
        return Err(VaultFault::Full);
    }
    Ok(Deposited::New(Uid {
        class: asked.class,
        k: before as u64 + 1,
    }))
}

/// Adds a message and its receipt at the end, or on an error neither. The message's key is the
/// number of deposits, this one counted.
fn put_both(
    messages: &mut Vec<Keyed>,
    deposits: &mut Vec<Receipt>,
    message: Message,
    receipt: Receipt,
) -> Result<(), AllocError>
    ensures messages { messages.new.items ≡ (if is_ok result then with_message message
        deposits.new.items messages.old.items else messages.old.items) }
    ensures deposits { deposits.new.items ≡ (if is_ok result then deposits.old.items ++ receipt
        ∷ [] else deposits.old.items) }
{
    messages.reserve(1)?;
    deposits.push(receipt)?;
    let key = MessageKey::new(deposits.len() as u64);
    messages.push(Keyed { key, message }).unwrap();
    Ok(())
}

/// Keeps a deposit that `judge` found new, as number `k` of its class.
pub(crate) fn accept(
    alloc: Global,
    messages: &mut Vec<Keyed>,
    deposits: &mut Vec<Receipt>,
    asked: &Asked,
    k: u64,
    text: &MailText,
) -> Result<(), AllocError>
    requires { asked.now.digest ≡ text_digest text.now }
    ensures messages { messages.new.items ≡ (if is_ok result then with_message
        (message_for asked.now.maildrop asked.now.class text.now k) deposits.new.items
        messages.old.items else messages.old.items) }
    ensures deposits { deposits.new.items ≡ (if is_ok result then deposits.old.items
        ++ receipt_for asked.now.maildrop asked.now.class asked.now.id text.now k
        ∷ [] else deposits.old.items) }
{
    let message = Message {
        maildrop: asked.maildrop,
        class: asked.class,
        k,
        text: SheetText::copy_of(alloc, text)?,
    };
    let receipt = Receipt {
        maildrop: asked.maildrop,
        id: asked.id,
        class: asked.class,
        k,
        digest: asked.digest,
    };
    put_both(messages, deposits, message, receipt)
}

/// A deposit, with the digest of its text.
pub(crate) fn ask(maildrop: &Name, class: &Name, id: &DepositId, text: &MailText) -> Asked
    ensures maildrop { result.maildrop ≡ maildrop.now }
    ensures class { result.class ≡ class.now }
    ensures id { result.id ≡ id.now }
    ensures digest { result.digest ≡ text_digest text.now }
    ensures maildrop_form { is_name maildrop.now ≡ true }
    ensures class_form { is_name class.now ≡ true }
    ensures id_form { is_deposit_id id.now ≡ true }
    ensures text_form { IsMailText text.now }
    ensures digest_form { length (text_digest text.now) ≡ 32 }
{
    // For the proof: a name and an id have their forms.
    let _ = maildrop.as_bytes();
    let _ = class.as_bytes();
    let _ = id.as_bytes();
    Asked {
        maildrop: *maildrop,
        class: *class,
        id: *id,
        digest: creds::text_digest(text.bytes()),
    }
}
