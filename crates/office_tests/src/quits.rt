//! A QUIT that is prepared before its line is given, while another session is served: all are sent
//! what they are sent without that, and the same messages are left. And what the store prepares is
//! what the QUIT, or a deposit, then changes.
use creds::DepositId;
use mailtext::canon;
use office::{Event, Office};
use sqlite::MemStore;
use sqlvault::{Ahead, SqlVault};
use std::alloc::{AllocError, Global};
use std::test::Fail;
use transcripts::offices::{add_maildrop, deposit, name, prepared};
use vault::{Head, MessageKey, Progress, Vault};

/// An office over a store that does a removal in parts.
type Quitting = Office<Ahead<MemStore>>;

/// Two pieces of a removal.
const MESSAGES: u64 = 200;

/// Puts the messages into the maildrop `orders`.
fn fill(alloc: Global, office: &mut Quitting) -> Result<(), Fail> {
    let orders = name("orders")?;
    let note = name("note")?;
    for n in 0..MESSAGES {
        let id = DepositId::read(format!(in alloc; "d{n}")?.as_bytes()).ok_or("an id")?;
        let _ = office.step(Event::Deposit(&orders, &note, &id, b"a text"));
    }
    Ok(())
}

/// Takes all that a connection is owed.
fn takes_all(office: &mut Quitting, c: u64, sent: &mut Vec<u8>) -> Result<(), AllocError> {
    for _ in 0..u64::MAX {
        let count = office.owed(c).len();
        if count == 0 {
            return Ok(());
        }
        sent.extend_from_slice(office.owed(c))?;
        let _ = office.step(Event::Took(c, count));
    }
    Ok(())
}

/// Sends lines on a connection, and takes all that it is owed.
fn says(office: &mut Quitting, c: u64, lines: &[u8], sent: &mut Vec<u8>) -> Result<(), AllocError> {
    let _ = office.step(Event::Bytes(c, lines));
    takes_all(office, c, sent)
}

/// Connects, takes the greeting, and sends a login.
fn enters(
    office: &mut Quitting,
    c: u64,
    login: &[u8],
    sent: &mut Vec<u8>,
) -> Result<(), AllocError> {
    let _ = office.step(Event::Connect);
    takes_all(office, c, sent)?;
    says(office, c, login, sent)
}

/// Marks each message of `orders`, on connection 1.
fn mark_all(alloc: Global, office: &mut Quitting, sent: &mut Vec<u8>) -> Result<(), Fail> {
    for n in 0..MESSAGES {
        let number = n.saturating_add(1);
        let line = format!(in alloc; "DELE {number}\r\n")?;
        says(office, 1, line.as_bytes(), sent)?;
    }
    Ok(())
}

/// Prepares the QUIT of connection 1 so often. Answers how often more of it could be prepared.
fn prepare(office: &mut Quitting, times: u32) -> Result<u32, Fail> {
    let mut more = 0u32;
    for _ in 0..times {
        if office.prepare_quit(1)? == Progress::More {
            more = more.saturating_add(1);
        }
    }
    Ok(more)
}

/// An office with the messages in `orders`, and one message in `billing`. Ann is logged in to
/// `orders`, on connection 1, and to `billing`, on connection 2, and has marked all of `orders`.
fn begun(alloc: Global, sent: &mut Vec<u8>) -> Result<Quitting, Fail> {
    let mut office = prepared(alloc, Ahead::new(SqlVault::in_memory(alloc)?))?;
    add_maildrop(&mut office, "billing")?;
    deposit(&mut office, "billing", b"a bill")?;
    fill(alloc, &mut office)?;
    enters(&mut office, 1, b"USER ann/orders\r\nPASS s3 cret\r\n", sent)?;
    enters(
        &mut office,
        2,
        b"USER ann/billing\r\nPASS s3 cret\r\n",
        sent,
    )?;
    mark_all(alloc, &mut office, sent)?;
    Ok(office)
}

/// Prepares the QUIT so often, has connection 2 read its message, prepares the QUIT so often again,
/// and gives it. Then ann enters `orders` again. Answers how often more could be prepared.
fn quit(
    office: &mut Quitting,
    before: u32,
    after: u32,
    sent: &mut Vec<u8>,
) -> Result<(u32, u32), Fail> {
    let first = prepare(office, before)?;
    says(office, 2, b"RETR 1\r\n", sent)?;
    let second = prepare(office, after)?;
    says(office, 1, b"QUIT\r\n", sent)?;
    enters(office, 3, b"USER ann/orders\r\nPASS s3 cret\r\n", sent)?;
    Ok((first, second))
}

/// What all are sent, and how often more of the QUIT could be prepared.
fn sent_with(alloc: Global, before: u32, after: u32) -> Result<(Vec<u8>, u32, u32), Fail> {
    let mut sent = Vec::new(alloc);
    let mut office = begun(alloc, &mut sent)?;
    let (first, second) = quit(&mut office, before, after, &mut sent)?;
    Ok((sent, first, second))
}

/// Whether all are sent what they are sent without preparing, so that `orders` is left empty. The
/// QUIT can be prepared further so often.
fn is_as_without(alloc: Global, before: u32, after: u32, more: (u32, u32)) -> Result<bool, Fail> {
    let (without, _, _) = sent_with(alloc, 0, 0)?;
    let (sent, first, second) = sent_with(alloc, before, after)?;
    let is_left_empty = sent
        .as_slice()
        .ends_with(b"+OK maildrop has 0 messages (0 octets)\r\n");
    Ok(sent.as_slice() == without.as_slice() && is_left_empty && (first, second) == more)
}

#[test]
fn a_prepared_quit_sends_the_same(rt: HostRuntime) -> Result<(), Fail> {
    assert!(rt; is_as_without(rt.alloc(), 0, 2, (0, 1))?);
    Ok(())
}

#[test]
fn another_reads_while_a_quit_is_prepared(rt: HostRuntime) -> Result<(), Fail> {
    assert!(rt; is_as_without(rt.alloc(), 1, 1, (1, 0))?);
    Ok(())
}

#[test]
fn another_reads_once_a_quit_is_prepared(rt: HostRuntime) -> Result<(), Fail> {
    assert!(rt; is_as_without(rt.alloc(), 2, 0, (1, 0))?);
    Ok(())
}

fn key_of(head: &Head) -> MessageKey {
    head.key
}

/// The keys of the messages in `orders`, as a QUIT of all removes them.
fn keys_in_orders(alloc: Global) -> Result<Vec<MessageKey>, Fail> {
    let mut sent = Vec::new(alloc);
    let mut vault = begun(alloc, &mut sent)?.into_vault();
    let heads = vault.heads(&name("orders")?)?;
    let mut keys = Vec::new(alloc);
    for head in heads.as_slice() {
        keys.push(key_of(head))?;
    }
    Ok(keys)
}

/// Once a QUIT is prepared, the store has nothing more to prepare of what that removes.
#[test]
fn what_a_quit_removes_is_prepared(rt: HostRuntime) -> Result<(), Fail> {
    let alloc = rt.alloc();
    let keys = keys_in_orders(alloc)?;
    let mut sent = Vec::new(alloc);
    let mut office = begun(alloc, &mut sent)?;
    assert!(rt; prepare(&mut office, 2)? == 1);
    let mut vault = office.into_vault();
    let orders = name("orders")?;
    assert!(rt; vault.prepare_removal(&orders, keys.as_slice())? == Progress::Ready);
    vault.remove(&orders, keys.as_slice())?;
    assert!(rt; vault.heads(&orders)?.is_empty());
    Ok(())
}

/// How many octets a large text has: two pieces, and a rest.
const LARGE: usize = 600_000;

/// Once a deposit is prepared, the store has nothing more to prepare of it.
#[test]
fn what_a_deposit_adds_is_prepared(rt: HostRuntime) -> Result<(), Fail> {
    let alloc = rt.alloc();
    let orders = name("orders")?;
    let note = name("note")?;
    let id = DepositId::read(b"large").ok_or("an id")?;
    let text = canon(alloc, vec![in alloc; b'a'; LARGE]?.as_slice())?;
    let mut office = prepared(alloc, Ahead::new(SqlVault::in_memory(alloc)?))?;
    assert!(rt; office.prepare_deposit(&orders, &note, &id, &text)? == Progress::More);
    assert!(rt; office.prepare_deposit(&orders, &note, &id, &text)? == Progress::Ready);
    let mut vault = office.into_vault();
    assert!(rt; vault.prepare_deposit(&orders, &note, &id, &text)? == Progress::Ready);
    let _ = vault.deposit(&orders, &note, &id, &text)?;
    assert!(rt; vault.heads(&orders)?.len() == 1);
    Ok(())
}
