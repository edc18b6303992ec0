//! Callers over a store in memory, which show that the premises of the calls can be met.

ghost use Rattle.std.specs.Prelude.{◌≡◌, ℕ, [], IfOk, IfErr, OnOk};
ghost use Rattle.vault.specs.Plain.{no_contents};
ghost use Rattle.sqlvault.specs.Uses.{IsOfAnyCall, filled, emptied, WasNew, ShowsMail, ShowsKept};
ghost use Rattle.sqlvault.specs.Uses.{Saw};

use crate::SqlVault;
use creds::{Credential, DepositId, Name};
use mailtext::MailText;
use policy::Policy;
use std::alloc::Global;
use vault::{ClerkKind, Deposited, Head, MessageKey, Total, Vault, VaultFault};

/// What the sample puts into a store.
#[derive(Drop)]
pub struct Stock {
    /// The name of the maildrop.
    pub maildrop: Name,
    /// The name of the clerk.
    pub clerk: Name,
    /// The clerk's credential.
    pub credential: Credential,
    /// The class of the message.
    pub class: Name,
    /// The id of its deposit.
    pub id: DepositId,
    /// Its text.
    pub text: MailText,
    /// The policy.
    pub policy: Policy,
}

/// The answers of the calls that put the stock into the store.
#[derive(Drop)]
pub struct Filled {
    /// Whether the maildrop was new.
    pub maildrop_is_new: bool,
    /// Whether the clerk was new.
    pub clerk_is_new: bool,
    /// What became of the deposit.
    pub deposited: Deposited,
}

/// Puts the stock into a store that holds nothing. An error is that of a call.
fn fill<V: Vault>(vault: &mut V, stock: &Stock) -> Result<Filled, VaultFault>
    ensures answers { V.is_clean vault.new → V.holds vault.old no_contents
        → IfOk result (WasNew stock.now) }
    ensures held { V.is_clean vault.new → V.holds vault.old no_contents
        → OnOk result ((key : ℕ) × V.holds vault.new (filled key stock.now)) }
    ensures cause { V.is_clean vault.new → V.holds vault.old no_contents
        → IfErr result IsOfAnyCall }
    ensures clean { V.is_clean vault.new → V.is_clean vault.old }
{
    let maildrop_is_new = vault.add_maildrop(&stock.maildrop)?;
    let clerk_is_new = vault.put_clerk(&stock.clerk, &stock.credential)?;
    vault.set_policy(&stock.policy)?;
    let deposited = vault.deposit(&stock.maildrop, &stock.class, &stock.id, &stock.text)?;
    Ok(Filled {
        maildrop_is_new,
        clerk_is_new,
        deposited,
    })
}

/// The answers of the calls that look at the mail.
#[derive(Drop)]
pub struct Mail {
    /// Each maildrop with its messages and octets.
    pub totals: Vec<Total>,
    /// The heads of the stock's maildrop.
    pub heads: Vec<Head>,
    /// The key of the first head.
    pub key: MessageKey,
    /// How many octets of that message were read.
    pub octets_read: usize,
}

/// Looks at the mail, and reads the message into the front of the buffer. An error is that of a
/// call.
fn look<V: Vault>(vault: &mut V, stock: &Stock, buffer: &mut [u8]) -> Result<Mail, VaultFault>
    ensures shown { (key : ℕ) → V.is_clean vault.new → V.holds vault.old (filled key stock.now)
        → IfOk result (ShowsMail stock.now buffer.new) }
    ensures key { (key : ℕ) → V.is_clean vault.new → V.holds vault.old (filled key stock.now)
        → IfOk result (λ mail. mail.key ≡ key) }
    ensures same { (key : ℕ) → V.is_clean vault.new → V.holds vault.old (filled key stock.now)
        → OnOk result (V.holds vault.new (filled key stock.now)) }
    ensures cause { (key : ℕ) → V.is_clean vault.new → V.holds vault.old (filled key stock.now)
        → IfErr result IsOfAnyCall }
    ensures clean { V.is_clean vault.new → V.is_clean vault.old }
{
    let totals = vault.maildrops()?;
    let heads = vault.heads(&stock.maildrop)?;
    let key = match heads.first() {
        Some(head) => head.key,
        None => return Err(VaultFault::Store),
    };
    let octets_read = vault.page(key, 0, buffer)?;
    Ok(Mail {
        totals,
        heads,
        key,
        octets_read,
    })
}

/// The answers of the calls that look up the clerk and the policy.
#[derive(Drop)]
pub struct Kept {
    /// The clerk's credential.
    pub credential: Option<Credential>,
    /// Each clerk with the kind of the credential.
    pub clerks: Vec<ClerkKind>,
    /// The policy.
    pub policy: Policy,
}

/// Looks up the clerk's credential, the clerks and the policy. An error is that of a call.
fn look_up<V: Vault>(vault: &mut V, stock: &Stock) -> Result<Kept, VaultFault>
    ensures shown { (key : ℕ) → V.is_clean vault.new → V.holds vault.old (filled key stock.now)
        → IfOk result (ShowsKept stock.now) }
    ensures same { (key : ℕ) → V.is_clean vault.new → V.holds vault.old (filled key stock.now)
        → OnOk result (V.holds vault.new (filled key stock.now)) }
    ensures cause { (key : ℕ) → V.is_clean vault.new → V.holds vault.old (filled key stock.now)
        → IfErr result IsOfAnyCall }
    ensures clean { V.is_clean vault.new → V.is_clean vault.old }
{
    let credential = vault.credential(&stock.clerk)?;
    let clerks = vault.clerks()?;
    let policy = vault.policy()?;
    Ok(Kept {
        credential,
        clerks,
        policy,
    })
}

/// Removes the message, and drops the clerk and the maildrop. Answers the heads that were left. An
/// error is that of a call.
fn empty<V: Vault>(vault: &mut V, stock: &Stock, key: MessageKey) -> Result<Vec<Head>, VaultFault>
    ensures none { V.is_clean vault.new → V.holds vault.old (filled key stock.now)
        → IfOk result (λ left. left.items ≡ []) }
    ensures held { V.is_clean vault.new → V.holds vault.old (filled key stock.now)
        → OnOk result (V.holds vault.new (emptied stock.now)) }
    ensures cause { V.is_clean vault.new → V.holds vault.old (filled key stock.now)
        → IfErr result IsOfAnyCall }
    ensures clean { V.is_clean vault.new → V.is_clean vault.old }
{
    vault.remove(&stock.maildrop, &[key])?;
    let left = vault.heads(&stock.maildrop)?;
    vault.drop_clerk(&stock.clerk)?;
    vault.drop_maildrop(&stock.maildrop)?;
    Ok(left)
}

/// What `sample` saw.
#[derive(Drop)]
pub struct Seen {
    /// The answers as the stock was put.
    pub filled: Filled,
    /// What was read of the mail.
    pub mail: Mail,
    /// The clerk's credential and the policy.
    pub kept: Kept,
    /// The heads of the maildrop after the message was removed.
    pub left: Vec<Head>,
}

/// Puts the stock into a store that holds nothing, looks at all of it, and takes it out again. An
/// error is that of a call.
fn go_through<V: Vault>(vault: &mut V, stock: &Stock, buffer: &mut [u8]) -> Result<Seen, VaultFault>
    ensures saw { V.is_clean vault.new → V.holds vault.old no_contents
        → IfOk result (Saw stock.now buffer.new) }
    ensures left { V.is_clean vault.new → V.holds vault.old no_contents
        → OnOk result (V.holds vault.new (emptied stock.now)) }
    ensures cause { V.is_clean vault.new → V.holds vault.old no_contents
        → IfErr result IsOfAnyCall }
    ensures clean { V.is_clean vault.new → V.is_clean vault.old }
{
    let filled = fill(vault, stock)?;
    let mail = look(vault, stock, buffer)?;
    let kept = look_up(vault, stock)?;
    let left = empty(vault, stock, mail.key)?;
    Ok(Seen {
        filled,
        mail,
        kept,
        left,
    })
}

/// Puts the stock into a new store in memory, looks at all of it, and takes it out again, using
/// every call of a vault but `maintain`. An error is that memory ran out, or that the store refused
/// a statement.
pub fn sample(alloc: Global, stock: &Stock, buffer: &mut [u8]) -> Result<Seen, VaultFault>
    ensures saw { IfOk result (Saw stock.now buffer.new) }
    ensures cause { IfErr result IsOfAnyCall }
{
    let mut vault = SqlVault::in_memory(alloc)?;
    go_through(&mut vault, stock, buffer)
}
