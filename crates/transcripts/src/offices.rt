//! Offices for the tests of what serves them, with a maildrop and a clerk.
use creds::{Credential, DepositId, Name, pass_digest};
use office::{AdminCommand, Event, Limits, Office, Outcome};
use policy::Policy;
use std::alloc::Global;
use std::test::Fail;
use vault::Vault;

/// The policy under which ann may do all.
static POLICY: &str =
    "[[rule]]\nname = \"ann-all\"\neffect = \"allow\"\nclerk = \"ann\"\nmaildrop = \"*\"\nclass = \"*\"\nactions = [\"open\", \"read\", \"remove\"]\n";

/// Reads a name. Fails if the text hasn't the form of one.
pub fn name(text: &str) -> Result<Name, Fail> {
    Ok(Name::read(text.as_bytes()).ok_or("name")?)
}

/// An office over this vault, with the host name `h.test`, boot number 7, and 600 seconds until an
/// idle connection is ended.
pub fn opened<V: Vault + Drop>(alloc: Global, vault: V) -> Result<Office<V>, Fail> {
    let limits = Limits::new(600).ok_or("idle")?;
    match Office::open(alloc, vault, "h.test", 7, limits) {
        Ok(office) => Ok(office),
        Err((fault, _)) => Err(Fail::from(fault)),
    }
}

/// An office with the maildrop `orders`, and the clerk ann.
pub fn prepared<V: Vault + Drop>(alloc: Global, vault: V) -> Result<Office<V>, Fail> {
    let mut office = opened(alloc, vault)?;
    add_maildrop(&mut office, "orders")?;
    let ann = name("ann")?;
    let credential = Credential::Pass(pass_digest(&ann, b"s3 cret"));
    let _ = office.step(Event::Admin(&AdminCommand::PutClerk(ann, credential)));
    let policy = Policy::read(alloc, POLICY)?;
    let _ = office.step(Event::Admin(&AdminCommand::SetPolicy(policy)));
    Ok(office)
}

/// Adds a maildrop.
pub fn add_maildrop<V: Vault>(office: &mut Office<V>, maildrop: &str) -> Result<(), Fail> {
    let maildrop = name(maildrop)?;
    let _ = office.step(Event::Admin(&AdminCommand::AddMaildrop(maildrop)));
    Ok(())
}

/// Puts a note into a maildrop, as the deposit d1.
pub fn deposit<V: Vault>(office: &mut Office<V>, maildrop: &str, text: &[u8]) -> Result<(), Fail> {
    let maildrop = name(maildrop)?;
    let note = name("note")?;
    let id = DepositId::read(b"d1").ok_or("id")?;
    match office.step(Event::Deposit(&maildrop, &note, &id, text)) {
        Outcome::Answered(_) => Ok(()),
        _ => Err(Fail::new("not deposited")),
    }
}
