//! A server's start and its end, and its store's size.
use super::beside::path_beside;
use super::journal::{Journal, quoted};
use super::settings::{Settings, settings_text};
use super::watch::Loss;
use std::alloc::{AllocError, Global};
use std::fs;
use std::net::SocketAddr;
use std::os::unix::fs::PermissionsExt;
use vault::Total;

/// Notes that a store is about to be opened, and how many octets its file and its log have: if
/// the opening is ended for want of memory, this is the last line.
pub fn note_opening(journal: &Journal<'_>, rt: &HostRuntime, store: &str) {
    if journal.is_on() {
        journal.note(opening_text(journal.alloc(), rt, store));
    }
}

/// How many octets the file at a path has; 0 if there is none.
fn octets_of(rt: &HostRuntime, path: &str) -> u64 {
    match fs::metadata(rt, path) {
        Ok(metadata) => metadata.len(),
        Err(_) => 0,
    }
}

/// The line of an opening.
fn opening_text(alloc: Global, rt: &HostRuntime, store: &str) -> Result<String, AllocError> {
    let log = path_beside(rt, store, "-wal")?;
    let (file, log) = (octets_of(rt, store), octets_of(rt, log.as_str()));
    let store = quoted(alloc, store.as_bytes())?;
    format!(in alloc; "event=open store={store} file={file} log={log}")
}

/// Notes a start, what the store holds, which options and which policy are in force, and where
/// others than its owner may read it. Without totals what it holds isn't known.
pub fn note_start(
    journal: &Journal<'_>,
    rt: &HostRuntime,
    pop: SocketAddr,
    admin_port: u16,
    store: &str,
    totals: &Option<Vec<Total>>,
    settings: &Settings,
) {
    if !journal.is_on() {
        return;
    }
    let alloc = journal.alloc();
    let policy = journal.policy_text();
    journal.note(start_text(alloc, pop, admin_port, store, totals, settings, policy));
    if let Ok(metadata) = fs::metadata(rt, store) {
        let mode = metadata.permissions().mode() & 0o777;
        if mode & 0o044 != 0 {
            journal.note(store_text(alloc, store, mode));
        }
    }
}

/// The line of a start.
fn start_text(
    alloc: Global,
    pop: SocketAddr,
    admin_port: u16,
    store: &str,
    totals: &Option<Vec<Total>>,
    settings: &Settings,
    policy: Result<String, AllocError>,
) -> Result<String, AllocError> {
    let policy = policy?;
    let store = quoted(alloc, store.as_bytes())?;
    let held = held_text(alloc, totals)?;
    let settings = settings_text(alloc, settings)?;
    format!(in alloc;
        "event=start pop={pop} admin=127.0.0.1:{admin_port} store={store}{held}{settings}{policy}"
    )
}

/// What a store holds, as it stands in a line; nothing if it isn't known.
fn held_text(alloc: Global, totals: &Option<Vec<Total>>) -> Result<String, AllocError> {
    let Some(totals) = totals else {
        return Ok(String::new(alloc));
    };
    let maildrops = totals.len();
    let (mut messages, mut octets) = (0u64, 0u64);
    for total in totals {
        messages = messages.saturating_add(total.messages);
        octets = octets.saturating_add(total.octets);
    }
    format!(in alloc; " maildrops={maildrops} messages={messages} octets={octets}")
}

/// The line of a store that others may read.
fn store_text(alloc: Global, store: &str, mode: u32) -> Result<String, AllocError> {
    let store = quoted(alloc, store.as_bytes())?;
    format!(in alloc; "event=store store={store} mode={mode:03o} warning=\"others may read it\"")
}

/// Notes that a store's files aren't those any more that the server has open.
pub fn note_loss(journal: &Journal<'_>, store: &str, loss: Loss) {
    if journal.is_on() {
        journal.note(loss_text(journal.alloc(), store, loss));
    }
}

/// The line of a store that was lost.
fn loss_text(alloc: Global, store: &str, loss: Loss) -> Result<String, AllocError> {
    let store = quoted(alloc, store.as_bytes())?;
    format!(in alloc; "event=store store={store} warning=\"{loss}\"")
}

/// Notes an end.
pub fn note_end(journal: &Journal<'_>) {
    journal.note(end_text(journal.alloc()));
}

/// The line of an end.
fn end_text(alloc: Global) -> Result<String, AllocError> {
    String::from_str(alloc, "event=end")
}
