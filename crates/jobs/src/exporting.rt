//! A maildrop's messages as files, their texts compared with a store's deposits.
ghost use Rattle.converse.specs.Causes.{Reports};
ghost use Rattle.converse.specs.Exports.{Exports, WhyNotWhole};
ghost use Rattle.converse.specs.Held.{StillHeld};
ghost use Rattle.jobs.specs.Checks.{held_against};

use crate::checking::texts_of;
use converse::export::{Folder, export};
use converse::{Fault, Sink, tell_fault};
use creds::Name;
use sqlite::Alter;
use sqlvault::SqlVault;
use std::alloc::Global;
use std::io::Write;
use vault::Vault;

/// Puts the messages of a maildrop as files into a folder, as [`export`] of `converse` does. If
/// texts are `compared`, each message's is compared with the digest that the store keeps of its
/// deposit, and one whose text differs is left out.
pub fn export_from<S: Alter, F: Folder, W: Sink, E: Write>(
    alloc: Global,
    vault: &mut SqlVault<S>,
    maildrop: &Name,
    compared: bool,
    folder: &mut F,
    out: &mut W,
    err: &mut E,
) -> u8
    ensures exports { Exports ⟦<SqlVault<S> as Vault>⟧ F.Folder W.Sink vault.old vault.new
        folder.old folder.new out.old out.new (held_against compared) maildrop.now result }
    ensures reports { Reports E.contents err.old err.new result
        (WhyNotWhole ⟦<SqlVault<S> as Vault>⟧ F.Folder W.Sink vault.old vault.new
        folder.old folder.new out.old out.new (held_against compared) maildrop.now) }
    ensures still { StillHeld ⟦<SqlVault<S> as Vault>⟧ vault.old vault.new }
{
    match texts_of(vault, compared) {
        Ok(texts) => export(alloc, vault, maildrop, &texts, folder, out, err),
        Err(fault) => tell_fault(err, Fault::from(fault)),
    }
}
