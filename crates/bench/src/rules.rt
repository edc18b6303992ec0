//! How long it takes to read, write and copy a policy, with groups and without, and to decide by
//! it; and policies that are held in memory.

use crate::since;
use creds::Name;
use policy::{Action, MAX_GROUPS, MAX_MEMBERS, Policy};
use std::alloc::{AllocError, Global};
use std::io;
use std::rt::Clock;
use std::time::Instant;

/// How many decisions are timed together.
const DECISIONS: u32 = 1000;

/// The text of a policy of `rules` rules, each about a clerk of its own.
pub fn text_of(alloc: Global, rules: usize) -> Result<String, AllocError> {
    let mut text = String::new(alloc);
    for n in 0..rules {
        writeln!(text, "[[rule]]\nname = \"rule-{n}\"\neffect = \"allow\"")?;
        writeln!(
            text,
            "clerk = \"clerk-{n}\"\nmaildrop = \"orders\"\nclass = \"*\""
        )?;
        writeln!(text, "actions = [\"open\", \"read\", \"remove\"]\n")?;
    }
    Ok(text)
}

/// The members of each group, as an array: `member-0` to `member-199`.
fn members_text(alloc: Global) -> Result<String, AllocError> {
    let mut text = String::from_str(alloc, "[\"member-0\"")?;
    for n in 1..MAX_MEMBERS {
        write!(text, ", \"member-{n}\"")?;
    }
    text.push_str("]")?;
    Ok(text)
}

/// Puts 100 groups, the most that a policy may have, after a text, each of the same 200 members.
fn put_groups(alloc: Global, text: &mut String) -> Result<(), AllocError> {
    let members = members_text(alloc)?;
    for n in 0..MAX_GROUPS {
        writeln!(
            text,
            "[[group]]\nname = \"group-{n}\"\nmembers = {members}\n"
        )?;
    }
    Ok(())
}

/// The text of a policy of 100 groups of 200 members, and of `rules` rules, each of which lets a
/// group remove what lies in `orders`.
pub fn grouped_text_of(alloc: Global, rules: usize) -> Result<String, AllocError> {
    let mut text = String::new(alloc);
    put_groups(alloc, &mut text)?;
    for n in 0..rules {
        let group = n % MAX_GROUPS;
        writeln!(text, "[[rule]]\nname = \"rule-{n}\"\neffect = \"allow\"")?;
        writeln!(
            text,
            "clerk = \"@group-{group}\"\nmaildrop = \"orders\"\nclass = \"*\""
        )?;
        writeln!(text, "actions = [\"remove\"]\n")?;
    }
    Ok(text)
}

/// How many of the decisions let a clerk read.
fn allowed_decisions(policy: &Policy, clerk: &str) -> u32 {
    let (Some(clerk), Some(maildrop)) = (Name::read(clerk.as_bytes()), Name::read(b"orders")) else {
        return 0;
    };
    let mut allowed = 0u32;
    for _ in 0..DECISIONS {
        if policy
            .decide(&clerk, &maildrop, &maildrop, Action::Read)
            .allowed
        {
            allowed = allowed.saturating_add(1);
        }
    }
    allowed
}

/// How many microseconds it takes to write the policy.
fn writing(rt: &(impl AllocGlobal + Clock), policy: &Policy) -> io::Result<u64> {
    let mut written = Vec::new(rt.alloc());
    let start = Instant::now(rt)?;
    policy.write(&mut written)?;
    since(rt, start)
}

/// How many rules a copy has, and how many microseconds it takes.
fn copying(rt: &impl Clock, policy: &Policy) -> io::Result<(usize, u64)> {
    let start = Instant::now(rt)?;
    let copy = policy.try_copy()?;
    let took = since(rt, start)?;
    Ok((copy.len(), took))
}

/// Prints how many microseconds decisions about a clerk take.
fn tell_decisions(rt: &(impl Print + Clock), policy: &Policy, clerk: &str) -> io::Result<()> {
    let start = Instant::now(rt)?;
    let allowed = allowed_decisions(policy, clerk);
    let deciding = since(rt, start)?;
    println!(rt; "{DECISIONS} decisions about {clerk}, of which {allowed} allow: {deciding} us")
}

/// Prints how long the policy's uses take. Its text has `octets` octets and took `reading`
/// microseconds to read.
fn tell(
    rt: &(impl Print + AllocGlobal + Clock),
    policy: &Policy,
    octets: usize,
    reading: u64,
) -> io::Result<()> {
    let writing = writing(rt, policy)?;
    let (copied, copying) = copying(rt, policy)?;
    println!(rt; "{copied} rules of {octets} octets: read {reading} us, written {writing} us")?;
    println!(rt; "{copied} rules copied: {copying} us")?;
    tell_decisions(rt, policy, "nobody")
}

/// Reads a policy, and prints how many microseconds its uses take. `None` if the text is no
/// policy.
fn measure_text(rt: &(impl Print + AllocGlobal + Clock), text: &str) -> io::Result<Option<Policy>> {
    let start = Instant::now(rt)?;
    let read = Policy::read(rt.alloc(), text);
    let reading = since(rt, start)?;
    match read {
        Ok(policy) => {
            tell(rt, &policy, text.len(), reading)?;
            Ok(Some(policy))
        }
        Err(_) => {
            println!(rt; "not read")?;
            Ok(None)
        }
    }
}

/// Measures a policy of `rules` rules, each about a clerk of its own.
pub fn measure(rt: &(impl Print + AllocGlobal + Clock), rules: usize) -> io::Result<()> {
    let text = text_of(rt.alloc(), rules)?;
    measure_text(rt, text.as_str())?;
    Ok(())
}

/// Measures a policy whose `rules` rules all name groups; and decisions about a clerk who stands
/// last in each group, so that each rule is looked at.
pub fn measure_groups(rt: &(impl Print + AllocGlobal + Clock), rules: usize) -> io::Result<()> {
    let text = grouped_text_of(rt.alloc(), rules)?;
    match measure_text(rt, text.as_str())? {
        Some(policy) => tell_decisions(rt, &policy, "member-199"),
        None => Ok(()),
    }
}

/// Reads a policy of 1,000 rules, holds `copies` copies of it, and prints how many rules they have.
pub fn hold(rt: &(impl Print + AllocGlobal), copies: u32) -> io::Result<()> {
    let text = text_of(rt.alloc(), 1000)?;
    let Ok(policy) = Policy::read(rt.alloc(), &text) else {
        return println!(rt; "not read");
    };
    let mut held = Vec::new(rt.alloc());
    for _ in 0..copies {
        held.push(policy.try_copy()?)?;
    }
    let rules: usize = held.len().saturating_mul(policy.len());
    println!(rt; "held: {rules} rules")
}
