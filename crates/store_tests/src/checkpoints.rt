//! What no clause says: that a checkpoint copies the log into the database file, and when
//! `maintain` makes one.
use crate::stopping::{adopted, files_of};
use creds::{DepositId, Name};
use mailtext::canon;
use sqlite::{FileStore, Files};
use sqlite_disk::Memory;
use sqlvault::SqlVault;
use std::alloc::Global;
use std::test::Fail;
use vault::Vault;

/// How many octets a deposited text has: more than a new store's tables.
const OCTETS: usize = 100_000;

/// How many octets a text has that makes the log long: more than 1,000 pages.
const LONG: usize = 4_100_000;

/// A store in two files in memory, which copies its log once that has eight pages.
type Store = SqlVault<FileStore<Memory>>;

/// Deposits a text of this many octets.
fn deposit(alloc: Global, vault: &mut Store, id: &[u8], octets: usize) -> Result<(), Fail> {
    let name = Name::read(b"orders").ok_or("a name")?;
    let id = DepositId::read(id).ok_or("an id")?;
    let text = canon(alloc, vec![in alloc; b'a'; octets]?.as_slice())?;
    let _ = vault.deposit(&name, &name, &id, &text)?;
    Ok(())
}

/// A new store with one message.
fn filled(alloc: Global) -> Result<Store, Fail> {
    let files = Files {
        log: Memory::new(alloc),
        db: Memory::new(alloc),
    };
    let Ok(mut vault) = adopted(alloc, files) else {
        return Err(Fail::new("not opened"));
    };
    let name = Name::read(b"orders").ok_or("a name")?;
    vault.add_maildrop(&name)?;
    deposit(alloc, &mut vault, b"d1", OCTETS)?;
    Ok(vault)
}

/// A store with one message, whose log was copied, and then another message of this many octets.
fn maintained(alloc: Global, octets: usize) -> Result<Store, Fail> {
    let mut vault = filled(alloc)?;
    vault.maintain()?;
    deposit(alloc, &mut vault, b"d2", octets)?;
    vault.maintain()?;
    Ok(vault)
}

/// How many octets the database file has.
fn octets_in(vault: Store) -> usize {
    files_of(vault).db.bytes().len()
}

#[test]
fn a_deposit_stays_in_the_log(rt: HostRuntime) -> Result<(), Fail> {
    assert!(rt; octets_in(filled(rt.alloc())?) < OCTETS);
    Ok(())
}

#[test]
fn a_checkpoint_copies_the_log(rt: HostRuntime) -> Result<(), Fail> {
    let mut vault = filled(rt.alloc())?;
    vault.checkpoint()?;
    assert!(rt; octets_in(vault) > OCTETS);
    Ok(())
}

#[test]
fn the_first_maintenance_copies_the_log(rt: HostRuntime) -> Result<(), Fail> {
    let octets = octets_in(maintained(rt.alloc(), OCTETS)?);
    assert!(rt; octets > OCTETS);
    Ok(())
}

#[test]
fn maintenance_leaves_a_short_log(rt: HostRuntime) -> Result<(), Fail> {
    let mut copied = filled(rt.alloc())?;
    copied.maintain()?;
    let octets = octets_in(maintained(rt.alloc(), OCTETS)?);
    assert!(rt; octets == octets_in(copied));
    Ok(())
}

#[test]
fn maintenance_copies_a_long_log(rt: HostRuntime) -> Result<(), Fail> {
    let octets = octets_in(maintained(rt.alloc(), LONG)?);
    assert!(rt; octets > LONG);
    Ok(())
}
