//! What the measures do in an office. The clerk `ann` may do everything in every maildrop.

use crate::desk::Desk;
use crate::fault::Fault;
use crate::rules::{grouped_text_of, text_of};
use creds::{Credential, DepositId, Name, pass_digest};
use office::{AdminCommand, Event};
use policy::Policy;
use std::alloc::{AllocError, Global};

/// The most octets that are taken at once.
const AT_ONCE: usize = 16_384;

static ANNS_RULE: &str = r#"
[[rule]]
name = "ann-all"
effect = "allow"
clerk = "ann"
maildrop = "*"
class = "*"
actions = ["open", "read", "remove"]
"#;

fn name(text: &[u8]) -> Result<Name, Fault> {
    match Name::read(text) {
        Some(name) => Ok(name),
        None => Err(Fault::Name),
    }
}

/// The name of the maildrop of this number.
fn maildrop(alloc: Global, number: u32) -> Result<Name, Fault> {
    let called = format!(in alloc; "m{number}")?;
    name(called.as_bytes())
}

/// The deposit id of this number.
fn deposit_id(alloc: Global, number: u32) -> Result<DepositId, Fault> {
    let called = format!(in alloc; "d{number}")?;
    match DepositId::read(called.as_bytes()) {
        Some(id) => Ok(id),
        None => Err(Fault::Name),
    }
}

fn administer(desk: &mut impl Desk, command: &AdminCommand) -> Result<u64, Fault> {
    desk.perform(Event::Admin(command), Fault::Command)
}

/// The text of a policy, with ann's rule as its last.
fn with_ann(text: String) -> Result<String, AllocError> {
    let mut text = text;
    text.push_str(ANNS_RULE)?;
    Ok(text)
}

/// Sets the policy that a text is.
fn set_text(alloc: Global, desk: &mut impl Desk, text: &str) -> Result<u64, Fault> {
    match Policy::read(alloc, text) {
        Ok(policy) => administer(desk, &AdminCommand::SetPolicy(policy)),
        Err(_) => Err(Fault::Policy),
    }
}

/// Sets a policy of `others` rules about other clerks, with ann's rule as its last.
pub fn set_policy(alloc: Global, desk: &mut impl Desk, others: usize) -> Result<u64, Fault> {
    let text = with_ann(text_of(alloc, others)?)?;
    set_text(alloc, desk, text.as_str())
}

/// Sets a policy of `others` rules about groups of other clerks, with ann's rule as its last.
pub fn set_groups(alloc: Global, desk: &mut impl Desk, others: usize) -> Result<u64, Fault> {
    let text = with_ann(grouped_text_of(alloc, others)?)?;
    set_text(alloc, desk, text.as_str())
}

/// Gives ann a password, and a policy of one rule.
pub fn let_in(alloc: Global, desk: &mut impl Desk) -> Result<u64, Fault> {
    let ann = name(b"ann")?;
    let credential = Credential::Pass(pass_digest(&ann, b"secret"));
    administer(desk, &AdminCommand::PutClerk(ann, credential))?;
    set_policy(alloc, desk, 0)
}

/// Adds the maildrop of this number, with `count` messages of this text.
pub fn fill(
    alloc: Global,
    desk: &mut impl Desk,
    number: u32,
    count: u32,
    text: &[u8],
) -> Result<(), Fault> {
    let maildrop = maildrop(alloc, number)?;
    administer(desk, &AdminCommand::AddMaildrop(maildrop))?;
    for k in 0..count {
        let id = deposit_id(alloc, k)?;
        let event = Event::Deposit(&maildrop, &maildrop, &id, text);
        desk.perform(event, Fault::Deposit)?;
    }
    Ok(())
}

/// Takes all that a connection is owed.
fn take(desk: &mut impl Desk, c: u64) -> Result<(), Fault> {
    for _ in 0..u64::MAX {
        let octets = desk.lent(c).len().min(AT_ONCE);
        if octets == 0 {
            break;
        }
        desk.perform(Event::Took(c, octets), Fault::Taking)?;
    }
    Ok(())
}

/// Sends a line, and takes the reply, which must begin with `+OK`.
pub fn say(desk: &mut impl Desk, c: u64, line: &[u8]) -> Result<(), Fault> {
    desk.perform(Event::Bytes(c, line), Fault::Line)?;
    if !desk.lent(c).starts_with(b"+OK") {
        return Err(Fault::Line);
    }
    take(desk, c)
}

/// Opens a connection, and logs ann in to the maildrop `m0`. Answers the connection's number.
pub fn log_in(desk: &mut impl Desk) -> Result<u64, Fault> {
    let c = desk.perform(Event::Connect, Fault::Connection)?;
    take(desk, c)?;
    say(desk, c, b"USER ann/m0\r\n")?;
    say(desk, c, b"PASS secret\r\n")?;
    Ok(c)
}

/// Marks the first `count` messages as deleted.
pub fn mark(alloc: Global, desk: &mut impl Desk, c: u64, count: u32) -> Result<(), Fault> {
    for number in 1..=count {
        let line = format!(in alloc; "DELE {number}\r\n")?;
        say(desk, c, line.as_bytes())?;
    }
    Ok(())
}
