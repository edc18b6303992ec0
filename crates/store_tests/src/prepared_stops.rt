//! Stops while a removal or a deposit is prepared: a file of the store fails from each of its calls
//! on, in turn. The store is then opened again over what is left: once with nothing lost, and once
//! without all that wasn't synced. Until the work itself is done, it holds what it held.
use crate::stopping::{
    Held, NEVER, NOTHING_HELD, Stop, Stopping, adopted, files_of, files_with, held_in, is_stopped,
};
use creds::{DepositId, Name};
use mailtext::{MailText, canon};
use sqlite::{FileStore, Files};
use sqlite_disk::Crash;
use sqlvault::{Ahead, SqlVault};
use std::alloc::Global;
use std::test::Fail;
use vault::{Head, MessageKey, Progress, Vault, VaultFault};

/// Two pieces of a removal.
const MESSAGES: u32 = 150;

/// How many octets a message has: the removal changes more pages than the store keeps in memory.
const OCTETS: usize = 1_000;

/// How many octets a deposit has: a piece of it and a rest.
const LARGE: usize = 300_000;

/// A deposit, which makes more calls than a removal, is stopped at every fifth call.
const ONE_OF: u64 = 5;

/// More calls of a file than a run makes.
const MOST_CALLS: u64 = 4_000;

/// Opens the store in the files. Fails if it isn't opened.
fn opened(alloc: Global, files: Files<Stopping>) -> Result<SqlVault<FileStore<Stopping>>, Fail> {
    match adopted(alloc, files) {
        Ok(vault) => Ok(vault),
        Err(_) => Err(Fail::new("not opened")),
    }
}

/// Deposits the messages.
fn fill<V: Vault>(
    alloc: Global,
    vault: &mut V,
    maildrop: &Name,
    text: &MailText,
) -> Result<(), Fail> {
    for n in 0..MESSAGES {
        let id = DepositId::read(format!(in alloc; "d{n}")?.as_bytes()).ok_or("an id")?;
        let _ = vault.deposit(maildrop, maildrop, &id, text)?;
    }
    Ok(())
}

/// A text of this many octets, and the end of its line.
fn text_of(alloc: Global, octets: usize) -> Result<MailText, Fail> {
    Ok(canon(alloc, vec![in alloc; b'a'; octets]?.as_slice())?)
}

/// The files of a store with the messages in a maildrop.
fn begun(alloc: Global, maildrop: &Name) -> Result<Files<Stopping>, Fail> {
    let text = text_of(alloc, OCTETS)?;
    let mut vault = opened(alloc, files_with(alloc, NOTHING_HELD, NEVER)?)?;
    vault.add_maildrop(maildrop)?;
    fill(alloc, &mut vault, maildrop, &text)?;
    Ok(files_of(vault))
}

fn key_of(head: &Head) -> MessageKey {
    head.key
}

/// The keys of these heads.
fn keys_of(alloc: Global, heads: &[Head]) -> Result<Vec<MessageKey>, Fail> {
    let mut keys = Vec::new(alloc);
    for head in heads {
        keys.push(key_of(head))?;
    }
    Ok(keys)
}

/// What is prepared, and then done, in a maildrop.
#[derive(Drop)]
enum Work {
    /// The removal of these messages.
    Removal(Vec<MessageKey>),
    /// The deposit of this text.
    Deposit(DepositId, MailText),
}

impl Work {
    /// Has it prepared. Whether more of it can be, or a fault came.
    fn prepare<V: Vault>(&self, vault: &mut V, maildrop: &Name) -> Result<Progress, VaultFault> {
        match self {
            Work::Removal(keys) => vault.prepare_removal(maildrop, keys.as_slice()),
            Work::Deposit(id, text) => vault.prepare_deposit(maildrop, maildrop, id, text),
        }
    }

    /// Does it. Whether no fault came.
    fn is_done<V: Vault>(&self, vault: &mut V, maildrop: &Name) -> bool {
        match self {
            Work::Removal(keys) => vault.remove(maildrop, keys.as_slice()).is_ok(),
            Work::Deposit(id, text) => vault.deposit(maildrop, maildrop, id, text).is_ok(),
        }
    }

    /// It is stopped at each call of a file whose number is a multiple of this.
    fn step(&self) -> u64 {
        match self {
            Work::Removal(_) => 1,
            Work::Deposit(_, _) => ONE_OF,
        }
    }

    /// How many messages there are after it.
    fn messages(&self) -> usize {
        match self {
            Work::Removal(_) => 0,
            Work::Deposit(_, _) => MESSAGES as usize + 1,
        }
    }
}

/// Prepares some work as far as it can be. Whether no fault came.
fn is_prepared<V: Vault>(vault: &mut V, maildrop: &Name, work: &Work) -> bool {
    for _ in 0..10 {
        match work.prepare(vault, maildrop) {
            Ok(Progress::More) => {}
            Ok(Progress::Ready) => return true,
            Err(_) => return false,
        }
    }
    true
}

/// How far a run came.
#[derive(Clone, Copy, PartialEq, Eq)]
enum End {
    /// A file failed before the work itself was asked for.
    Before,
    /// The work was refused.
    Refused,
    /// The work was done.
    Done,
}

/// Prepares the work, and does it.
fn works<V: Vault>(vault: &mut V, maildrop: &Name, work: &Work) -> End {
    if !is_prepared(vault, maildrop, work) {
        return End::Before;
    }
    if work.is_done(vault, maildrop) {
        End::Done
    } else {
        End::Refused
    }
}

/// Opens the store in the files, prepares the work and does it, up to a stop.
fn ran(
    alloc: Global,
    files: Files<Stopping>,
    maildrop: &Name,
    work: &Work,
) -> (End, Files<Stopping>) {
    match adopted(alloc, files) {
        Ok(vault) => {
            let mut ahead = Ahead::new(vault);
            let end = works(&mut ahead, maildrop, work);
            (end, files_of(ahead.into_vault()))
        }
        Err(files) => (End::Before, files),
    }
}

/// How many messages the store in these files holds.
fn count_in(alloc: Global, held: Held<'_>, maildrop: &Name) -> Result<usize, Fail> {
    let mut vault = opened(alloc, files_with(alloc, held, NEVER)?)?;
    Ok(vault.heads(maildrop)?.len())
}

/// Whether this many messages may be held after a run.
fn may_hold(end: End, count: usize, after: usize) -> bool {
    match end {
        End::Before => count == MESSAGES as usize,
        End::Refused => count == MESSAGES as usize || count == after,
        End::Done => count == after,
    }
}

/// Fails unless what a run left in the files holds all of the work or nothing, as it may: with
/// nothing lost, and without all that wasn't synced.
fn expect_whole(
    alloc: Global,
    end: End,
    files: Files<Stopping>,
    maildrop: &Name,
    after: usize,
) -> Result<(), Fail> {
    let mut files = files;
    let kept = count_in(alloc, held_in(&files), maildrop)?;
    files.log.crash();
    files.db.crash();
    let synced = count_in(alloc, held_in(&files), maildrop)?;
    if may_hold(end, kept, after) && may_hold(end, synced, after) {
        Ok(())
    } else {
        Err(Fail::new("held in part"))
    }
}

/// Stops the run at each call of one file, or at every fifth. Answers how many runs were stopped,
/// and how many of these in the work itself.
fn stops(
    alloc: Global,
    held: Held<'_>,
    is_log: bool,
    maildrop: &Name,
    work: &Work,
) -> Result<(u64, u64), Fail> {
    let mut stopped = 0u64;
    let mut refused = 0u64;
    for n in 0..MOST_CALLS {
        let calls = n.saturating_mul(work.step());
        let stop = Stop { is_log, calls };
        let (end, mut files) = ran(alloc, files_with(alloc, held, stop)?, maildrop, work);
        let is_over = !is_stopped(&mut files, stop);
        expect_whole(alloc, end, files, maildrop, work.messages())?;
        if is_over {
            break;
        }
        stopped = stopped.saturating_add(1);
        refused = refused.saturating_add(u64::from(end == End::Refused));
    }
    Ok((stopped, refused))
}

/// Stops the removal of all messages, or a deposit, at calls of a file. Answers how many runs were
/// stopped, and how many of these in the work itself.
fn stopped_in(alloc: Global, is_log: bool, removes: bool) -> Result<(u64, u64), Fail> {
    let maildrop = Name::read(b"orders").ok_or("a name")?;
    let files = begun(alloc, &maildrop)?;
    let mut vault = opened(alloc, files_with(alloc, held_in(&files), NEVER)?)?;
    let work = if removes {
        Work::Removal(keys_of(alloc, vault.heads(&maildrop)?.as_slice())?)
    } else {
        let id = DepositId::read(b"large").ok_or("an id")?;
        Work::Deposit(id, text_of(alloc, LARGE)?)
    };
    stops(alloc, held_in(&files), is_log, &maildrop, &work)
}

#[test]
fn the_log_fails(rt: HostRuntime) -> Result<(), Fail> {
    let (stopped, refused) = stopped_in(rt.alloc(), true, true)?;
    assert!(rt; stopped > 10 && refused > 0, "{stopped} {refused}");
    Ok(())
}

#[test]
fn the_database_file_fails(rt: HostRuntime) -> Result<(), Fail> {
    let (stopped, refused) = stopped_in(rt.alloc(), false, true)?;
    assert!(rt; stopped > 10, "{stopped} {refused}");
    Ok(())
}

#[test]
fn the_log_fails_in_a_deposit(rt: HostRuntime) -> Result<(), Fail> {
    let (stopped, refused) = stopped_in(rt.alloc(), true, false)?;
    assert!(rt; stopped > 5 && refused > 0, "{stopped} {refused}");
    Ok(())
}

#[test]
fn the_database_file_fails_in_a_deposit(rt: HostRuntime) -> Result<(), Fail> {
    let (stopped, refused) = stopped_in(rt.alloc(), false, false)?;
    assert!(rt; stopped > 0, "{stopped} {refused}");
    Ok(())
}
