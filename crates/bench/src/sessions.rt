//! How fast an office's sessions are, over any store.

use crate::acts::{fill, let_in, log_in, mark, say, set_groups, set_policy};
use crate::desk::{Desk, opened};
use crate::fault::Fault;
use crate::since;
use crate::stores::Job;
use crate::texts::text_of;
use std::rt::Clock;
use std::time::Instant;
use vault::Vault;

/// How often ann logs in under each policy.
const LOGINS: u32 = 1000;

/// How often ann logs in under a policy of groups.
const GROUPED_LOGINS: u32 = 20;

/// How many other rules stand before ann's.
const OTHERS: [usize; 2] = [0, 999];

/// How many octets each message has in a file that is opened again.
const SHORT: usize = 1000;

/// Fills ten maildrops with `count` messages together.
fn measure_filling(
    rt: &(impl Print + AllocGlobal + Clock),
    desk: &mut impl Desk,
    count: u32,
) -> Result<(), Fault> {
    let text = text_of(rt.alloc(), b"a line of the message ..\r\n", SHORT)?;
    let start = Instant::now(rt)?;
    for number in 0..10 {
        fill(rt.alloc(), desk, number, count / 10, text.as_slice())?;
    }
    let took = since(rt, start)? / 1000;
    println!(rt; "filling: {count} messages into ten maildrops in {took} ms")?;
    Ok(())
}

/// Marks every message of a maildrop of `count`, and sends QUIT.
fn measure_removal(
    rt: &(impl Print + AllocGlobal + Clock),
    desk: &mut impl Desk,
    count: u32,
) -> Result<(), Fault> {
    fill(rt.alloc(), desk, 0, count, b"x")?;
    let c = log_in(desk)?;
    let start = Instant::now(rt)?;
    mark(rt.alloc(), desk, c, count)?;
    let marking = since(rt, start)?;
    let start = Instant::now(rt)?;
    say(desk, c, b"QUIT\r\n")?;
    let quitting = since(rt, start)?;
    println!(rt; "QUIT: {count} marks set in {marking} us, removed in {quitting} us")?;
    Ok(())
}

/// How many microseconds `visits` sessions of a greeting, a login and a QUIT take together.
fn time_visits(rt: &impl Clock, desk: &mut impl Desk, visits: u32) -> Result<u64, Fault> {
    let start = Instant::now(rt)?;
    for _ in 0..visits {
        let c = log_in(desk)?;
        say(desk, c, b"QUIT\r\n")?;
    }
    Ok(since(rt, start)?)
}

/// Measures sessions in a maildrop of `count` messages, under a policy of one rule and under one in
/// which 999 others stand before it.
fn measure_logins(
    rt: &(impl Print + AllocGlobal + Clock),
    desk: &mut impl Desk,
    count: u32,
) -> Result<(), Fault> {
    fill(rt.alloc(), desk, 0, count, b"x")?;
    for others in OTHERS {
        set_policy(rt.alloc(), desk, others)?;
        let took = time_visits(rt, desk, LOGINS)? / u64::from(LOGINS);
        println!(rt; "login: {took} us into {count} messages, behind {others} other rules")?;
    }
    Ok(())
}

/// Measures sessions in a maildrop of `count` messages, under a policy in which 999 rules about
/// groups stand before ann's.
fn measure_grouped(
    rt: &(impl Print + AllocGlobal + Clock),
    desk: &mut impl Desk,
    count: u32,
) -> Result<(), Fault> {
    fill(rt.alloc(), desk, 0, count, b"x")?;
    set_groups(rt.alloc(), desk, 999)?;
    let took = time_visits(rt, desk, GROUPED_LOGINS)? / u64::from(GROUPED_LOGINS);
    println!(rt; "login: {took} us into {count} messages, behind 999 rules about groups")?;
    Ok(())
}

/// Gives ann a password and a policy, and runs a measure in an office. `Standing` measures nothing.
fn measure_in(
    rt: &(impl Print + AllocGlobal + Clock),
    desk: &mut impl Desk,
    job: Job,
    count: u32,
) -> Result<(), Fault> {
    let_in(rt.alloc(), desk)?;
    match job {
        Job::Filling => measure_filling(rt, desk, count),
        Job::Removal => measure_removal(rt, desk, count),
        Job::Logins => measure_logins(rt, desk, count),
        Job::Grouped => measure_grouped(rt, desk, count),
        _ => Ok(()),
    }
}

/// Runs a measure in a new office over a vault, and gives the vault back.
pub fn measure<V: Vault>(
    rt: &(impl Print + AllocGlobal + Clock),
    vault: V,
    job: Job,
    count: u32,
) -> (Result<(), Fault>, V) {
    let mut office = match opened(rt.alloc(), vault) {
        Ok(office) => office,
        Err((fault, vault)) => return (Err(fault), vault),
    };
    let measured = measure_in(rt, &mut office, job, count);
    (measured, office.into_vault())
}
