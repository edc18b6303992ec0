//! An office for turns: some maildrops, and the clerks ann and bob, who may do all.
use creds::{Credential, Name, pass_digest};
use office::{AdminCommand, Event, Limits, Office};
use policy::Policy;
use std::alloc::Global;
use std::test::Fail;
use vault::{PlainVault, Vault};

/// Each clerk may do all.
static ALL: &str = "[[rule]]\nname = \"all\"\neffect = \"allow\"\nclerk = \"*\"\nmaildrop = \"*\"\n\
    class = \"*\"\nactions = [\"open\", \"read\", \"remove\"]\n";

/// The name that this text is.
pub fn name(text: &str) -> Result<Name, Fail> {
    Ok(Name::read(text.as_bytes()).ok_or("name")?)
}

/// Adds a maildrop.
fn add_maildrop<V: Vault>(office: &mut Office<V>, maildrop: &str) -> Result<(), Fail> {
    let maildrop = name(maildrop)?;
    let _ = office.step(Event::Admin(&AdminCommand::AddMaildrop(maildrop)));
    Ok(())
}

/// Adds a clerk with a password.
fn add_clerk<V: Vault>(office: &mut Office<V>, clerk: &str, password: &[u8]) -> Result<(), Fail> {
    let clerk = name(clerk)?;
    let credential = Credential::Pass(pass_digest(&clerk, password));
    let _ = office.step(Event::Admin(&AdminCommand::PutClerk(clerk, credential)));
    Ok(())
}

/// An empty office, which ends a connection that did nothing for 600 seconds.
fn empty_office(alloc: Global) -> Result<Office<PlainVault>, Fail> {
    let limits = Limits::new(600).ok_or("idle")?;
    match Office::open(alloc, PlainVault::new(alloc), "h.test", 7, limits) {
        Ok(office) => Ok(office),
        Err((fault, _)) => Err(Fail::from(fault)),
    }
}

/// An office of ann and bob, with these maildrops, without messages.
pub fn office_of_two(alloc: Global, maildrops: &[&str]) -> Result<Office<PlainVault>, Fail> {
    let mut office = empty_office(alloc)?;
    admit_two(alloc, &mut office, maildrops)?;
    Ok(office)
}

/// Gives an empty office these maildrops, and the clerks ann and bob.
pub fn admit_two<V: Vault>(
    alloc: Global,
    office: &mut Office<V>,
    maildrops: &[&str],
) -> Result<(), Fail> {
    let policy = Policy::read(alloc, ALL)?;
    let _ = office.step(Event::Admin(&AdminCommand::SetPolicy(policy)));
    for maildrop in maildrops {
        add_maildrop(office, *maildrop)?;
    }
    add_clerk(office, "ann", b"s3 cret")?;
    add_clerk(office, "bob", b"hunter")
}
