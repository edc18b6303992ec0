//! How fast sheets are written to the empty tables of a store, and read.

use crate::fault::Fault;
use crate::stores::Job;
use crate::tables::Tables;
use crate::texts::text_of;
use crate::{rate, since};
use std::alloc::Global;
use std::rt::Clock;
use std::time::Instant;

/// Reads the message's sheets one by one. Answers how many octets they have.
fn read_text(alloc: Global, tables: &mut impl Tables, key: i64) -> Result<u64, Fault> {
    let mut octets = 0u64;
    for place in 0..i64::MAX {
        let more = tables.sheet_octets(alloc, key, place)?;
        if more == 0 {
            break;
        }
        octets = octets.saturating_add(more);
    }
    Ok(octets)
}

/// Writes the sheets of one text in one transaction, and reads them one by one.
fn measure_sheets(
    rt: &(impl Print + AllocGlobal + Clock),
    tables: &mut impl Tables,
    octets: u32,
) -> Result<(), Fault> {
    let text = text_of(rt.alloc(), b"a line of the message ..\r\n", octets as usize)?;
    let start = Instant::now(rt)?;
    let key = tables.write_message(text.as_slice(), octets)?;
    let writing = rate(text.len() as u64, since(rt, start)?);
    let start = Instant::now(rt)?;
    let read = read_text(rt.alloc(), tables, key)?;
    let reading = rate(read, since(rt, start)?);
    println!(rt; "sheets: {read} octets, written {writing} MB/s, read {reading} MB/s")?;
    Ok(())
}

/// Writes a row or two in each table, for `trials/older-store`.
fn write_sample(tables: &mut impl Tables) -> Result<(), Fault> {
    tables.write_others()?;
    let mut text = [0; 4097];
    text[4096] = 255;
    tables.write_message(&text, 4097)?;
    Ok(())
}

/// Runs a measure over the tables of a store.
pub fn measure(
    rt: &(impl Print + AllocGlobal + Clock),
    tables: &mut impl Tables,
    job: Job,
    count: u32,
) -> Result<(), Fault> {
    match job {
        Job::Sheets => measure_sheets(rt, tables, count),
        Job::Sample => write_sample(tables),
        _ => Err(Fault::NoMeasure),
    }
}
