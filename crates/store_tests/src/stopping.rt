//! Stops a store: one of its files fails from some call on, in an event or in an opening. The store
//! is then opened again from what is left in its files.
use converse::Printer;
use converse::replay::replay;
use session::Removals;
use sqlite::{Connection, FileStore, Files, Options};
use sqlite_disk::{Crash, Disk, Fuse, Memory, digest_of};
use sqlvault::SqlVault;
use std::alloc::{AllocError, Global};
use std::io;
use std::io::{ErrorKind, Write};
use std::test::Fail;
use transcripts::playing::expect;
use vault::Vault;

/// An event, as a line of a script; what is printed of it; and what a look prints after it.
#[derive(Clone, Copy)]
pub struct Act {
    pub line: &'static str,
    pub told: &'static str,
    pub after: &'static str,
}

/// What is done to a store, and what it must hold when it is opened again.
#[derive(Clone, Copy)]
pub struct Row<'a> {
    /// The store's files before it.
    pub begun: Held<'a>,
    pub acts: &'static [Act],
    /// A look: a script that lists what the store holds, and makes a deposit again.
    pub look: &'static str,
    /// What a look prints before the first act.
    pub before: &'static str,
}

/// What a store's two files hold.
#[derive(Clone, Copy)]
pub struct Held<'a> {
    log: &'a [u8],
    db: &'a [u8],
}

/// The files of no store.
pub const NOTHING_HELD: Held<'static> = Held { log: &[], db: &[] };

/// A file that fails from some call on.
pub type Stopping = Fuse<Memory>;

/// What replay prints, up to the first event that is answered `failed` or `no memory`. This writer
/// refuses that line, so that replay ends there.
#[derive(Drop)]
struct Told {
    text: Vec<u8>,
}

impl Write for Told {
    fn write(&mut self, octets: &[u8]) -> io::Result<usize> {
        if is_stop(octets) {
            return Err(ErrorKind::BrokenPipe.into());
        }
        self.text.extend_from_slice(octets)?;
        Ok(octets.len())
    }

    fn flush(&mut self) -> io::Result<()> {
        Ok(())
    }
}

impl Printer for Told {
    ghost use Rattle.std.specs.Prelude.{true};

    ghost flushed = { λ _. true };

    fn hand_on(&mut self) -> io::Result<()> {
        self.flush()
    }
}

fn is_stop(octets: &[u8]) -> bool {
    octets == b"failed\n".as_slice() || octets == b"no memory\n".as_slice()
}

/// Opens the store in two files, or gives the files back. Its log is copied into the database file
/// once it has eight pages. The cache has only 32 pages, since making a larger one takes time.
pub fn adopted<D: Disk + Drop>(
    alloc: Global,
    files: Files<D>,
) -> Result<SqlVault<FileStore<D>>, Files<D>> {
    if !files.may_be_used() {
        return Err(files);
    }
    let options = Options {
        cache_pages: 32,
        checkpoint_frames: 8,
        ..Options::new(1)
    };
    match Connection::open_files(alloc, files, options) {
        Ok(conn) => taken(alloc, conn),
        Err((_, left)) => Err(left.into_files()),
    }
}

/// Adopts a connection, or gives its files back.
fn taken<D: Disk + Drop>(
    alloc: Global,
    conn: Connection<FileStore<D>>,
) -> Result<SqlVault<FileStore<D>>, Files<D>> {
    match SqlVault::adopt(alloc, conn) {
        Ok(vault) => Ok(vault),
        Err((_, conn)) => Err(conn.into_store().close()),
    }
}

/// The files of a store, as they are.
pub fn files_of<D: Disk + Drop>(vault: SqlVault<FileStore<D>>) -> Files<D> {
    vault.into_connection().into_store().close()
}

/// Plays a script over a store, up to a stop, and gives the store back.
fn played<V: Vault>(alloc: Global, vault: V, script: &str, told: &mut Told) -> V {
    let mut script = script.as_bytes();
    let mut err = Vec::new(alloc);
    let removals = Removals::JudgedAtDele;
    let host = "h.test";
    let (_, vault) = replay(alloc, &mut script, vault, host, 7, removals, told, &mut err);
    vault
}

/// Opens the store in two files, and plays a script over it, up to a stop. Answers whether it was
/// opened, and the files.
fn ran<D: Disk + Drop>(
    alloc: Global,
    files: Files<D>,
    script: &str,
    told: &mut Told,
) -> (bool, Files<D>) {
    match adopted(alloc, files) {
        Ok(vault) => (true, files_of(played(alloc, vault, script, told))),
        Err(files) => (false, files),
    }
}

/// Runs statements over a store, and gives its files as they then are: as an error if a
/// statement failed.
fn filled<D: Disk + Drop>(conn: Connection<FileStore<D>>, sql: &str) -> Result<Files<D>, Files<D>> {
    let mut conn = conn;
    let is_filled = conn.execute_batch(sql).is_ok();
    let files = conn.into_store().close();
    if is_filled { Ok(files) } else { Err(files) }
}

/// Makes a store by these statements in two files, or gives the files back.
fn made<D: Disk + Drop>(alloc: Global, files: Files<D>, sql: &str) -> Result<Files<D>, Files<D>> {
    if !files.may_be_used() {
        return Err(files);
    }
    match Connection::open_files(alloc, files, Options::new(1)) {
        Ok(conn) => filled(conn, sql),
        Err((_, left)) => Err(left.into_files()),
    }
}

/// A file with these octets, which fails after `calls` calls.
fn file_of(alloc: Global, octets: &[u8], calls: u64) -> Result<Stopping, Fail> {
    let mut file = Memory::new(alloc);
    file.write_at(0, octets)?;
    file.sync()?;
    Ok(Fuse::new(file, calls))
}

/// Which file fails, and after how many calls.
#[derive(Clone, Copy)]
pub struct Stop {
    pub is_log: bool,
    pub calls: u64,
}

/// No file fails.
pub const NEVER: Stop = Stop {
    is_log: true,
    calls: u64::MAX,
};

/// Files with these octets, one of which fails.
pub fn files_with(alloc: Global, held: Held<'_>, stop: Stop) -> Result<Files<Stopping>, Fail> {
    let log_calls = if stop.is_log { stop.calls } else { u64::MAX };
    let db_calls = if stop.is_log { u64::MAX } else { stop.calls };
    let log = file_of(alloc, held.log, log_calls)?;
    let db = file_of(alloc, held.db, db_calls)?;
    Ok(Files { log, db })
}

/// What the files hold.
pub fn held_in(files: &Files<Stopping>) -> Held<'_> {
    Held {
        log: files.log.inner().bytes(),
        db: files.db.inner().bytes(),
    }
}

/// The files of a store that these statements made.
pub fn made_by(alloc: Global, sql: &str) -> Result<Files<Stopping>, Fail> {
    let files = files_with(alloc, NOTHING_HELD, NEVER)?;
    match made(alloc, files, sql) {
        Ok(files) => Ok(files),
        Err(_) => Err(Fail::new("not made")),
    }
}

/// The files of a new store after a script was played over it. Fails unless it prints this.
pub fn left_after(alloc: Global, script: &str, want: &str) -> Result<Files<Stopping>, Fail> {
    let files = files_with(alloc, NOTHING_HELD, NEVER)?;
    let mut told = Told {
        text: Vec::new(alloc),
    };
    let (_, files) = ran(alloc, files, script, &mut told);
    expect(String::from_utf8(told.text)?, want)?;
    Ok(files)
}

/// Opens the store in the files. Fails unless it opens, and a look prints one of these two.
fn expect_held(
    alloc: Global,
    held: Held<'_>,
    look: &str,
    wants: (&'static str, &'static str),
) -> Result<(), Fail> {
    let files = files_with(alloc, held, NEVER)?;
    let mut told = Told {
        text: Vec::new(alloc),
    };
    let (is_open, _) = ran(alloc, files, look, &mut told);
    if !is_open {
        return Err(Fail::new("not opened again"));
    }
    if told.text.as_slice() == wants.0.as_bytes() {
        return Ok(());
    }
    expect(String::from_utf8(told.text)?, wants.1)
}

/// How a run ended.
#[derive(Clone, Copy)]
struct End {
    /// Whether the store was opened.
    is_open: bool,
    /// How many acts were answered.
    done: usize,
    /// Whether the file failed, or would at its next call.
    is_stopped: bool,
}

/// Whether a file failed, or would at its next call.
fn has_failed(file: &mut Stopping) -> bool {
    !file.may_be_used() || file.len().is_err()
}

pub fn is_stopped(files: &mut Files<Stopping>, stop: Stop) -> bool {
    if stop.is_log {
        has_failed(&mut files.log)
    } else {
        has_failed(&mut files.db)
    }
}

/// Opens the store and plays a script, up to a stop. Answers how that ended, and the files.
fn run_to(
    alloc: Global,
    row: &Row<'_>,
    script: &str,
    stop: Stop,
) -> Result<(End, Files<Stopping>), Fail> {
    let files = files_with(alloc, row.begun, stop)?;
    let mut told = Told {
        text: Vec::new(alloc),
    };
    let (is_open, mut files) = ran(alloc, files, script, &mut told);
    let done = acts_told(row.acts, told.text.as_slice())?;
    let is_stopped = is_stopped(&mut files, stop);
    let end = End {
        is_open,
        done,
        is_stopped,
    };
    Ok((end, files))
}

/// How many acts were answered, by what was printed. Fails if what was printed after them isn't
/// a beginning of the next act's answer.
fn acts_told(acts: &[Act], told: &[u8]) -> Result<usize, Fail> {
    let mut rest = told;
    let mut done = 0usize;
    for act in acts {
        let Some(behind) = rest.strip_prefix(act.told.as_bytes()) else {
            break;
        };
        rest = behind;
        done = done.saturating_add(1);
    }
    expect_begun(acts.get(done), rest)?;
    Ok(done)
}

/// Fails unless a text is a beginning of what is printed of an act.
fn expect_begun(act: Option<&Act>, told: &[u8]) -> Result<(), Fail> {
    let (line, want) = match act {
        Some(act) => (act.line, act.told),
        None => ("told behind the last act", ""),
    };
    if want.as_bytes().starts_with(told) {
        Ok(())
    } else {
        Err(Fail::new(line))
    }
}

/// What a look prints after `done` acts.
fn look_after(row: &Row<'_>, done: usize) -> &'static str {
    match done.checked_sub(1) {
        Some(last) => match row.acts.get(last) {
            Some(act) => act.after,
            None => row.before,
        },
        None => row.before,
    }
}

/// The two things that a look may print after a run: that of the acts that were answered and, if
/// the store was opened, that of the next act too.
fn looks_of(row: &Row<'_>, end: End) -> (&'static str, &'static str) {
    let without = look_after(row, end.done);
    if !end.is_open {
        return (without, without);
    }
    match row.acts.get(end.done) {
        Some(act) => (without, act.after),
        None => (without, without),
    }
}

/// Fails unless a look prints what it may over what a run left in the files: once with nothing
/// lost, and once without all that wasn't synced.
fn expect_ended(
    alloc: Global,
    row: &Row<'_>,
    end: End,
    files: Files<Stopping>,
    seen: &mut Vec<u64>,
) -> Result<(), Fail> {
    let mut files = files;
    expect_anew(alloc, row, end, held_in(&files), seen)?;
    files.log.crash();
    files.db.crash();
    expect_anew(alloc, row, end, held_in(&files), seen)
}

/// Fails unless a look prints what it may over what a run left. Passes over what was seen before.
fn expect_anew(
    alloc: Global,
    row: &Row<'_>,
    end: End,
    held: Held<'_>,
    seen: &mut Vec<u64>,
) -> Result<(), Fail> {
    let digest = digest_of_left(end, held);
    if seen.contains(&digest) {
        return Ok(());
    }
    seen.push(digest)?;
    expect_held(alloc, held, row.look, looks_of(row, end))
}

/// A digest of what a run left, and of how it ended.
fn digest_of_left(end: End, held: Held<'_>) -> u64 {
    let ended = (end.done as u64)
        .wrapping_mul(2)
        .wrapping_add(u64::from(end.is_open));
    digest_of(digest_of(ended, held.log), held.db)
}

/// The script of the acts.
fn script_of(alloc: Global, acts: &[Act]) -> Result<String, AllocError> {
    let mut script = String::new(alloc);
    for act in acts {
        script.push_str(act.line)?;
        script.push_str("\n")?;
    }
    Ok(script)
}

/// How many runs were stopped: in the opening, and in an act.
#[derive(Clone, Copy)]
pub struct Count {
    pub refused: u64,
    pub failed: u64,
}

impl Count {
    /// Counts one run more.
    fn with(self, row: &Row<'_>, end: End) -> Count {
        if !end.is_open {
            return Count {
                refused: self.refused.saturating_add(1),
                failed: self.failed,
            };
        }
        Count {
            refused: self.refused,
            failed: self
                .failed
                .saturating_add(u64::from(end.done < row.acts.len())),
        }
    }
}

/// Has a file fail from this call on, in the next run from the call after it, and so on until a run
/// meets no stop. That run must answer each act.
fn counted(alloc: Global, row: &Row<'_>, first: Stop) -> Result<Count, Fail> {
    let script = script_of(alloc, row.acts)?;
    let mut seen = Vec::new(alloc);
    let mut count = Count {
        refused: 0,
        failed: 0,
    };
    for calls in first.calls..u64::MAX {
        let stop = Stop { calls, ..first };
        let (end, files) = run_to(alloc, row, script.as_str(), stop)?;
        expect_ended(alloc, row, end, files, &mut seen)?;
        if !end.is_stopped {
            expect_whole(row, end)?;
            break;
        }
        count = count.with(row, end);
    }
    Ok(count)
}

/// Fails unless each act was answered.
fn expect_whole(row: &Row<'_>, end: End) -> Result<(), Fail> {
    if end.is_open && end.done == row.acts.len() {
        Ok(())
    } else {
        Err(Fail::new("ended with no stop"))
    }
}

/// How many acts change what a look prints.
pub fn changes(row: &Row<'_>) -> u64 {
    let mut last = row.before;
    let mut count = 0u64;
    for act in row.acts {
        if act.after != last {
            count = count.saturating_add(1);
            last = act.after;
        }
    }
    count
}

/// Stops a run after each number of calls of a file, in the store's opening and in the acts.
pub fn stops_from_opening(alloc: Global, row: &Row<'_>, is_log: bool) -> Result<Count, Fail> {
    counted(alloc, row, Stop { is_log, calls: 0 })
}

/// Stops a run after each number of calls of a file, in the acts alone.
pub fn stops_in_acts(alloc: Global, row: &Row<'_>, is_log: bool) -> Result<Count, Fail> {
    let calls = opening_calls(alloc, row, is_log)?;
    counted(alloc, row, Stop { is_log, calls })
}

/// Opens the store, and has it do what it put off, up to a stop. Answers how that ended, and the
/// files.
fn maintained(alloc: Global, row: &Row<'_>, stop: Stop) -> Result<(End, Files<Stopping>), Fail> {
    let (is_open, mut files) = match adopted(alloc, files_with(alloc, row.begun, stop)?) {
        Ok(vault) => (true, files_after_maintenance(vault)),
        Err(files) => (false, files),
    };
    let is_stopped = is_stopped(&mut files, stop);
    let end = End {
        is_open,
        done: 0,
        is_stopped,
    };
    Ok((end, files))
}

/// Has a store do what it put off, and gives its files.
fn files_after_maintenance(vault: SqlVault<FileStore<Stopping>>) -> Files<Stopping> {
    let mut vault = vault;
    let _ = vault.maintain();
    files_of(vault)
}

/// Stops a store after each number of calls of a file, while it does what it put off. Fails unless
/// it then holds what it held. Returns how many runs were stopped so, those of openings not
/// counted.
pub fn stops_in_maintenance(alloc: Global, row: &Row<'_>, is_log: bool) -> Result<u64, Fail> {
    let mut seen = Vec::new(alloc);
    let mut count = 0u64;
    for calls in 0..u64::MAX {
        let stop = Stop { is_log, calls };
        let (end, files) = maintained(alloc, row, stop)?;
        expect_ended(alloc, row, end, files, &mut seen)?;
        if !end.is_stopped {
            expect_whole(row, end)?;
            break;
        }
        count = count.saturating_add(u64::from(end.is_open));
    }
    Ok(count)
}

/// The most calls of a file that an opening may take.
const MOST_CALLS: u64 = 4096;

/// How many calls of a file it takes to open the store and an office over it.
fn opening_calls(alloc: Global, row: &Row<'_>, is_log: bool) -> Result<u64, Fail> {
    let stop = Stop {
        is_log,
        calls: MOST_CALLS,
    };
    let (_, mut files) = run_to(alloc, row, "", stop)?;
    let left = if is_log {
        calls_left(&mut files.log)
    } else {
        calls_left(&mut files.db)
    };
    // `is_stopped` spent one call.
    Ok(MOST_CALLS.saturating_sub(left).saturating_sub(1))
}

/// How many calls a file still answers.
fn calls_left(file: &mut Stopping) -> u64 {
    let mut left = 0u64;
    for _ in 0..MOST_CALLS {
        if has_failed(file) {
            break;
        }
        left = left.saturating_add(1);
    }
    left
}
