//! The report on a store over tables, with all its clerks, its texts compared with its deposits.
ghost use Rattle.std.specs.Prelude.{◌≡◌, ◌≤◌, true, IfOk, IfErr};
ghost use Rattle.sqlite.specs.Held.{state};
ghost use Rattle.sqlite.specs.State.{HasCleanDisk};
ghost use Rattle.vault.specs.Calls.{has_grown};
ghost use Rattle.vault.specs.Changes.{Contents};
ghost use Rattle.sqlvault.specs.Clerks.{clerk_names};
ghost use Rattle.sqlvault.specs.Stands.{Holds};
ghost use Rattle.converse.specs.Causes.{IsRefused, Reports};
ghost use Rattle.converse.specs.Exports.{Checks, WhyNotIntact};
ghost use Rattle.converse.specs.Held.{OverHeld, StillHeld};
ghost use Rattle.converse.specs.Texts.{against};
ghost use Rattle.jobs.specs.Checks.{held_against};

use converse::check_store::{StoreFile, check_store};
use converse::{Fault, Sink, Texts, tell_fault};
use sqlite::Alter;
use sqlvault::SqlVault;
use std::alloc::Global;
use std::io::Write;
use vault::{Vault, VaultFault};

/// What the texts of a store's messages are compared with: the digests of all its deposits, or
/// nothing.
pub(crate) fn texts_of<S: Alter>(
    vault: &mut SqlVault<S>,
    compared: bool,
) -> Result<Texts, VaultFault>
    ensures told { (c : Contents) → Holds (state S.Store vault.old.conn) c
        → HasCleanDisk (state S.Store vault.new.conn)
        → IfOk result (λ texts. against texts ≡ held_against compared c) }
    ensures held { (c : Contents) → Holds (state S.Store vault.old.conn) c
        → HasCleanDisk (state S.Store vault.new.conn) → Holds (state S.Store vault.new.conn) c }
    ensures clean { HasCleanDisk (state S.Store vault.new.conn)
        → HasCleanDisk (state S.Store vault.old.conn) }
    ensures counted { vault.old.faults ≤ vault.new.faults }
    ensures cause { IfErr result (λ fault. (c : Contents) → Holds (state S.Store vault.old.conn) c
        → HasCleanDisk (state S.Store vault.new.conn)
        → IsRefused true (has_grown vault.old.faults vault.new.faults) fault) }
{
    if !compared {
        return Ok(Texts::Taken);
    }
    match vault.receipts() {
        Ok(receipts) => Ok(Texts::Compared(receipts)),
        Err(fault) => Err(fault),
    }
}

/// Prints what lies in a store, as [`check_store`] of `converse` does, with a line for each of its
/// clerks, by name. If texts are `compared`, each message's is compared with the digest that the
/// store keeps of its deposit.
pub fn check_all<S: Alter, W: Sink, E: Write>(
    alloc: Global,
    vault: &mut SqlVault<S>,
    compared: bool,
    file: &StoreFile,
    out: &mut W,
    err: &mut E,
) -> u8
    ensures checks { Checks ⟦<SqlVault<S> as Vault>⟧ W.Sink vault.old vault.new out.old out.new
        file.now (λ c. clerk_names c.clerks) (held_against compared) (result ≡ 0) }
    ensures reports { Reports E.contents err.old err.new result
        (WhyNotIntact ⟦<SqlVault<S> as Vault>⟧ W.Sink vault.old vault.new out.old out.new
        file.now (λ c. clerk_names c.clerks) (held_against compared)
        (λ fault. OverHeld ⟦<SqlVault<S> as Vault>⟧ vault.old vault.new
        (λ _. IsRefused true (has_grown vault.old.faults vault.new.faults) fault))) }
    ensures still { StillHeld ⟦<SqlVault<S> as Vault>⟧ vault.old vault.new }
{
    let texts = match texts_of(vault, compared) {
        Ok(texts) => texts,
        Err(fault) => return tell_fault(err, Fault::from(fault)),
    };
    match vault.clerk_names() {
        Ok(names) => check_store(alloc, vault, names.as_slice(), &texts, file, out, err),
        Err(fault) => tell_fault(err, Fault::from(fault)),
    }
}
