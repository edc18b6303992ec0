//! The worked rows over stores that refuse one call: first the opening's, then a row's first call,
//! its second, and so on until a row is over before its refusal comes.
use crate::twins::{play, twins_of};
use office::{Limits, Office, OpenFault};
use sqlvault::SqlVault;
use std::alloc::Global;
use std::test::Fail;
use transcripts::sessions::RETRIEVING;
use transcripts::worked::{OFFICE_ROWS, Row, SESSION_ROWS, Setting, filled, opened_at};
use vault::{PlainVault, Refusing, Vault};

/// The most calls that a row may make.
const MOST_CALLS: u64 = 100;

/// Plays a row over a filled vault that refuses its call number `call`. Answers whether the row got
/// to that call.
fn meets<V: Vault + Drop>(alloc: Global, vault: V, row: &Row, call: u64) -> Result<bool, Fail> {
    let setting = row.1;
    let free = filled(alloc, PlainVault::new(alloc), setting)?;
    let free = opened_at(alloc, free, setting)?;
    let tested = opened_at(alloc, Refusing::new(vault, call), setting)?;
    let mut twins = twins_of(alloc, tested, free, false)?;
    play(&mut twins, row)?;
    let is_met = twins.is_met;
    if twins.tested.into_vault().refusals() == u64::from(is_met) {
        Ok(is_met)
    } else {
        Err(Fail::new("a refusal that no event told"))
    }
}

/// Plays a row again and again, over stores of vectors or of tables, each of which refuses another
/// of the row's calls. Answers how many calls the row has. The first call is the opening's.
fn calls_of(alloc: Global, row: &Row, is_over_tables: bool) -> Result<u64, Fail> {
    for call in 2..MOST_CALLS {
        let is_met = if is_over_tables {
            let vault = filled(alloc, SqlVault::in_memory(alloc)?, row.1)?;
            meets(alloc, vault, row, call)?
        } else {
            let vault = filled(alloc, PlainVault::new(alloc), row.1)?;
            meets(alloc, vault, row, call)?
        };
        if !is_met {
            return Ok(call.saturating_sub(2));
        }
    }
    Err(Fail::new("a call was refused in each run"))
}

/// Opens an office over a vault that refuses its first call, and gives the vault back.
fn opening_refused<V: Vault + Drop>(alloc: Global, vault: V) -> Result<Refusing<V>, Fail> {
    let limits = Limits::new(600).ok_or("idle")?;
    match Office::open(alloc, Refusing::new(vault, 1), "h.test", 7, limits) {
        Err((OpenFault::Store, vault)) => Ok(vault),
        _ => Err(Fail::new("opened, or refused otherwise")),
    }
}

/// Plays a row over a vault that refused an opening and is opened again. Fails unless the office
/// answers as ever.
fn opens_again<V: Vault + Drop>(alloc: Global, vault: V, row: &Row) -> Result<(), Fail> {
    let free = filled(alloc, PlainVault::new(alloc), row.1)?;
    let free = opened_at(alloc, free, row.1)?;
    let vault = opening_refused(alloc, filled(alloc, vault, row.1)?)?;
    let tested = opened_at(alloc, vault, row.1)?;
    let mut twins = twins_of(alloc, tested, free, true)?;
    play(&mut twins, row)?;
    if twins.tested.into_vault().refusals() == 1 {
        Ok(())
    } else {
        Err(Fail::new("not refused once"))
    }
}

#[test]
fn calls_of_openings(rt: HostRuntime) -> Result<(), Fail> {
    let alloc = rt.alloc();
    let row: Row = ("opening", Setting::Sample, &[RETRIEVING]);
    opens_again(alloc, PlainVault::new(alloc), &row)?;
    opens_again(alloc, SqlVault::in_memory(alloc)?, &row)
}

#[test]
fn calls_of_administration(rt: HostRuntime) -> Result<(), Fail> {
    for row in &OFFICE_ROWS {
        assert!(rt; calls_of(rt.alloc(), row, false)? > 0);
    }
    Ok(())
}

#[test]
fn calls_of_administration_over_tables(rt: HostRuntime) -> Result<(), Fail> {
    for row in &OFFICE_ROWS {
        assert!(rt; calls_of(rt.alloc(), row, true)? > 0);
    }
    Ok(())
}

#[test]
fn calls_of_sessions(rt: HostRuntime) -> Result<(), Fail> {
    for row in &SESSION_ROWS {
        assert!(rt; calls_of(rt.alloc(), row, false)? > 0);
    }
    Ok(())
}

#[test]
fn calls_of_sessions_over_tables(rt: HostRuntime) -> Result<(), Fail> {
    for row in &SESSION_ROWS {
        assert!(rt; calls_of(rt.alloc(), row, true)? > 0);
    }
    Ok(())
}
