//! How fast popbox's layers are. `bench WHAT N [STORE]` runs the measure WHAT with the number N and
//! prints its times; without a number it prints nothing.
//!
//! - `texts OCTETS`: keeping, sending and reading message texts.
//! - `rules COUNT`: a policy of that many rules. `groups COUNT`: the same, if all rules are
//!   about 100 groups of 200 members. `copies COUNT`: holds that many policies of 1,000 rules, so
//!   that their memory can be seen from outside.
//! - `sheets OCTETS [FILE]`: the tables of a store in memory, or in a file that isn't there yet.
//!   `sample 0 FILE` writes a small store.
//! - `removal MESSAGES [STORE]`, `logins MESSAGES [STORE]`: sessions in an office. `grouped
//!   MESSAGES [STORE]`: logins with 999 rules about groups before ann's. STORE is `plain`
//!   (vectors in memory, the default), `tables` (in memory too) or `file PATH` (not there yet).
//! - `opening MESSAGES file PATH`: fills a new file, and opens it again. `floor 0 file PATH` opens
//!   one by the toolchain's SQLite alone: the least that an opening takes.
#![tactic(auto)]

mod acts;
mod desk;
mod fault;
mod rules;
mod sessions;
mod store;
mod stores;
mod tables;
mod texts;

use fault::Fault;
use std::rt::{Clock, Env};
use std::time::Instant;
use std::{env, io};
use stores::Job;

/// The microseconds since `start`.
fn since(rt: &impl Clock, start: Instant) -> io::Result<u64> {
    let took = start.elapsed(rt)?.as_micros();
    Ok(u64::try_from(took).unwrap_or(u64::MAX))
}

/// `count` in `took` microseconds, as millions a second.
fn rate(count: u64, took: u64) -> u64 {
    count / took.max(1)
}

/// Runs the measure of this name.
fn run(rt: &HostRuntime, what: &str, count: u32, over: &str, path: &str) -> Result<(), Fault> {
    match what {
        "texts" => Ok(texts::texts(rt, count as usize)?),
        "rules" => Ok(rules::measure(rt, count as usize)?),
        "groups" => Ok(rules::measure_groups(rt, count as usize)?),
        "copies" => Ok(rules::hold(rt, count)?),
        "opening" => stores::measure_opening(rt, path, count),
        "floor" => stores::measure_floor(rt, path),
        "removal" => stores::measure(rt, Job::Removal, count, over, path),
        "logins" => stores::measure(rt, Job::Logins, count, over, path),
        "grouped" => stores::measure(rt, Job::Grouped, count, over, path),
        "sheets" => stores::measure_tables(rt, Job::Sheets, count, over),
        "sample" => stores::measure_tables(rt, Job::Sample, count, over),
        _ => Err(Fault::NoMeasure),
    }
}

/// The word, or an empty one if there is none.
fn said(word: &Option<String>) -> &str {
    match word {
        Some(word) => word.as_str(),
        None => "",
    }
}

fn main(rt: HostRuntime) -> Result<(), Fault> {
    let mut words = env::args(&rt)?;
    let _program = words.next();
    let what = words.next();
    let count = words.next();
    let over = words.next();
    let path = words.next();
    let Ok(count) = said(&count).parse::<u32>() else {
        return Ok(());
    };
    run(&rt, said(&what), count, said(&over), said(&path))
}
