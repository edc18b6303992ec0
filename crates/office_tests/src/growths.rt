//! The worked rows, and a reply that is taken in several pieces, if a growth of memory is
//! refused. An event that meets the refusal answers so and changes nothing, or ends its connection.
//!
//! Without a refusal the tests pass too. tools/check-growths runs them with each growth refused,
//! and counts them by the rows that they print.
use crate::twins::{play, twins_of};
use sqlvault::SqlVault;
use std::alloc::Global;
use std::test::Fail;
use transcripts::worked::{LONG, OFFICE_ROWS, Row, SESSION_ROWS, filled, opened_at};
use vault::{PlainVault, Vault};

/// Plays a row in two offices, in the first of which a growth may be refused. Answers whether one
/// was.
fn meets<V: Vault + Drop>(alloc: Global, vault: V, row: &Row) -> Result<bool, Fail> {
    let setting = row.1;
    let free = filled(alloc, PlainVault::new(alloc), setting)?;
    let free = opened_at(alloc, free, setting)?;
    let tested = opened_at(alloc, filled(alloc, vault, setting)?, setting)?;
    let mut twins = twins_of(alloc, tested, free, true)?;
    play(&mut twins, row)?;
    Ok(twins.is_met)
}

/// Prints the row's name, and plays it over a store of vectors.
fn meets_over_vectors(rt: &HostRuntime, row: &Row) -> Result<bool, Fail> {
    println!(rt; "row {}", row.0)?;
    meets(rt.alloc(), PlainVault::new(rt.alloc()), row)
}

/// Prints the row's name, and plays it over a store of tables.
fn meets_over_tables(rt: &HostRuntime, row: &Row) -> Result<bool, Fail> {
    println!(rt; "row {}", row.0)?;
    meets(rt.alloc(), SqlVault::in_memory(rt.alloc())?, row)
}

#[test]
fn growths_of_administration(rt: HostRuntime) -> Result<(), Fail> {
    for row in &OFFICE_ROWS {
        if meets_over_vectors(&rt, row)? {
            break;
        }
    }
    Ok(())
}

#[test]
fn growths_of_administration_over_tables(rt: HostRuntime) -> Result<(), Fail> {
    for row in &OFFICE_ROWS {
        if meets_over_tables(&rt, row)? {
            break;
        }
    }
    Ok(())
}

#[test]
fn growths_of_sessions(rt: HostRuntime) -> Result<(), Fail> {
    for row in &SESSION_ROWS {
        if meets_over_vectors(&rt, row)? {
            break;
        }
    }
    Ok(())
}

#[test]
fn growths_of_sessions_over_tables(rt: HostRuntime) -> Result<(), Fail> {
    for row in &SESSION_ROWS {
        if meets_over_tables(&rt, row)? {
            break;
        }
    }
    Ok(())
}

#[test]
fn growths_of_a_long_reply(rt: HostRuntime) -> Result<(), Fail> {
    let _ = meets_over_vectors(&rt, &LONG)?;
    Ok(())
}

#[test]
fn growths_of_a_long_reply_over_tables(rt: HostRuntime) -> Result<(), Fail> {
    let _ = meets_over_tables(&rt, &LONG)?;
    Ok(())
}
