//! What no clause says of `Ahead`: how much of a removal is done each time that it is prepared,
//! when it is given up, and that it is then done at once.
use creds::{DepositId, Name};
use mailtext::canon;
use sqlite::MemStore;
use sqlvault::{Ahead, SqlVault};
use std::alloc::Global;
use std::test::Fail;
use vault::{Head, MessageKey, Progress, Vault, VaultFault};

/// Three pieces of a removal, of which the last is short.
const MESSAGES: u32 = 300;

type Store = Ahead<MemStore>;

/// Puts 300 messages into a maildrop, whose ids begin so.
fn fill(alloc: Global, vault: &mut Store, maildrop: &Name, ids: &str) -> Result<(), Fail> {
    let text = canon(alloc, b"a text")?;
    for n in 0..MESSAGES {
        let id = DepositId::read(format!(in alloc; "{ids}{n}")?.as_bytes()).ok_or("an id")?;
        let _ = vault.deposit(maildrop, maildrop, &id, &text)?;
    }
    Ok(())
}

/// A store with a maildrop of 300 messages.
fn filled(alloc: Global, maildrop: &Name) -> Result<Store, Fail> {
    let mut vault = Ahead::new(SqlVault::in_memory(alloc)?);
    vault.add_maildrop(maildrop)?;
    fill(alloc, &mut vault, maildrop, "d")?;
    Ok(vault)
}

/// The keys of a maildrop's messages.
fn keys_in(alloc: Global, vault: &mut Store, maildrop: &Name) -> Result<Vec<MessageKey>, Fail> {
    let heads = vault.heads(maildrop)?;
    let mut keys = Vec::new(alloc);
    for head in heads.as_slice() {
        keys.push(key_of(head))?;
    }
    Ok(keys)
}

fn key_of(head: &Head) -> MessageKey {
    head.key
}

/// How often a removal is asked for until no more of it can be prepared; at most ten times.
fn asked(vault: &mut Store, maildrop: &Name, keys: &[MessageKey]) -> Result<u32, Fail> {
    let mut count = 0u32;
    for _ in 0..10 {
        count = count.saturating_add(1);
        if vault.prepare_removal(maildrop, keys)? == Progress::Ready {
            break;
        }
    }
    Ok(count)
}

/// Prepares a piece of a removal, and then makes another call, so often.
fn interrupted(
    vault: &mut Store,
    maildrop: &Name,
    keys: &[MessageKey],
    times: u32,
) -> Result<(), Fail> {
    for _ in 0..times {
        let _ = vault.prepare_removal(maildrop, keys)?;
        let _ = vault.maildrops()?;
    }
    Ok(())
}

/// How often a removal of 300 messages is asked for after `times` were given up; and how many
/// messages are there before it is done, and after it.
fn removed_after(alloc: Global, times: u32) -> Result<(u32, usize, usize), Fail> {
    let maildrop = Name::read(b"orders").ok_or("a name")?;
    let mut vault = filled(alloc, &maildrop)?;
    let keys = keys_in(alloc, &mut vault, &maildrop)?;
    interrupted(&mut vault, &maildrop, &keys, times)?;
    let before = keys_in(alloc, &mut vault, &maildrop)?.len();
    let count = asked(&mut vault, &maildrop, &keys)?;
    vault.remove(&maildrop, &keys)?;
    Ok((count, before, keys_in(alloc, &mut vault, &maildrop)?.len()))
}

#[test]
fn a_removal_is_prepared_piece_by_piece(rt: HostRuntime) -> Result<(), Fail> {
    assert!(rt; removed_after(rt.alloc(), 0)? == (3, 300, 0));
    Ok(())
}

#[test]
fn a_removal_that_was_given_up_begins_anew(rt: HostRuntime) -> Result<(), Fail> {
    assert!(rt; removed_after(rt.alloc(), 1)? == (3, 300, 0));
    Ok(())
}

#[test]
fn after_three_that_were_given_up_one_is_done_at_once(rt: HostRuntime) -> Result<(), Fail> {
    assert!(rt; removed_after(rt.alloc(), 3)? == (1, 300, 0));
    Ok(())
}

/// How often the removal of the messages that are left is asked for, after three that were given up
/// and the removal of the first `count` ones.
fn asked_after_removing(alloc: Global, count: usize) -> Result<u32, Fail> {
    let maildrop = Name::read(b"orders").ok_or("a name")?;
    let mut vault = filled(alloc, &maildrop)?;
    let keys = keys_in(alloc, &mut vault, &maildrop)?;
    interrupted(&mut vault, &maildrop, &keys, 3)?;
    vault.remove(&maildrop, keys.as_slice().get(..count).ok_or("keys")?)?;
    let left = keys_in(alloc, &mut vault, &maildrop)?;
    asked(&mut vault, &maildrop, &left)
}

/// A removal that is never prepared leaves it at that; after a long one they are prepared again.
#[test]
fn only_a_long_removal_ends_three_that_were_given_up(rt: HostRuntime) -> Result<(), Fail> {
    assert!(rt; asked_after_removing(rt.alloc(), 1)? == 1);
    assert!(rt; asked_after_removing(rt.alloc(), 129)? == 2);
    Ok(())
}

/// Work that was prepared and done ends the count of what was given up.
#[test]
fn a_prepared_removal_ends_those_that_were_given_up(rt: HostRuntime) -> Result<(), Fail> {
    let maildrop = Name::read(b"orders").ok_or("a name")?;
    let mut vault = filled(rt.alloc(), &maildrop)?;
    let keys = keys_in(rt.alloc(), &mut vault, &maildrop)?;
    interrupted(&mut vault, &maildrop, &keys, 2)?;
    assert!(rt; asked(&mut vault, &maildrop, &keys)? == 3);
    vault.remove(&maildrop, &keys)?;
    fill(rt.alloc(), &mut vault, &maildrop, "e")?;
    let keys = keys_in(rt.alloc(), &mut vault, &maildrop)?;
    interrupted(&mut vault, &maildrop, &keys, 2)?;
    assert!(rt; asked(&mut vault, &maildrop, &keys)? == 3);
    Ok(())
}

/// How often a removal is asked for, if credentials, heads and pages beside it are asked for after
/// each piece.
fn asked_beside(alloc: Global) -> Result<u32, Fail> {
    let maildrop = Name::read(b"orders").ok_or("a name")?;
    let other = Name::read(b"billing").ok_or("a name")?;
    let mut vault = filled(alloc, &maildrop)?;
    vault.add_maildrop(&other)?;
    let keys = keys_in(alloc, &mut vault, &maildrop)?;
    let (first, rest) = keys.as_slice().split_first().ok_or("keys")?;
    let mut count = 0u32;
    for _ in 0..10 {
        count = count.saturating_add(1);
        if vault.prepare_removal(&maildrop, rest)? == Progress::Ready {
            break;
        }
        asks_beside(&mut vault, &other, *first)?;
    }
    Ok(count)
}

/// Asks for a credential, for the heads of another maildrop and of a missing one, and for a message
/// that stays.
fn asks_beside(vault: &mut Store, other: &Name, key: MessageKey) -> Result<(), Fail> {
    let _ = vault.credential(other)?;
    let _ = vault.heads(other)?;
    let missing = vault.heads(&Name::read(b"missing").ok_or("a name")?);
    if !matches!(missing, Err(VaultFault::NoMaildrop)) {
        return Err(Fail::new("heads of a missing maildrop"));
    }
    let mut page = [0; 16];
    let _ = vault.page(key, 0, &mut page)?;
    vault.maintain()?;
    Ok(())
}

#[test]
fn queries_beside_a_removal_dont_give_it_up(rt: HostRuntime) -> Result<(), Fail> {
    assert!(rt; asked_beside(rt.alloc())? == 3);
    Ok(())
}

#[test]
fn a_deposit_gives_a_removal_up(rt: HostRuntime) -> Result<(), Fail> {
    let maildrop = Name::read(b"orders").ok_or("a name")?;
    let mut vault = filled(rt.alloc(), &maildrop)?;
    let keys = keys_in(rt.alloc(), &mut vault, &maildrop)?;
    let _ = vault.prepare_removal(&maildrop, &keys)?;
    let id = DepositId::read(b"new").ok_or("an id")?;
    let _ = vault.deposit(&maildrop, &maildrop, &id, &canon(rt.alloc(), b"new")?)?;
    assert!(rt; keys_in(rt.alloc(), &mut vault, &maildrop)?.len() == 301);
    vault.remove(&maildrop, &keys)?;
    assert!(rt; keys_in(rt.alloc(), &mut vault, &maildrop)?.len() == 1);
    Ok(())
}

#[test]
fn a_removal_is_given_up_at_the_end(rt: HostRuntime) -> Result<(), Fail> {
    let maildrop = Name::read(b"orders").ok_or("a name")?;
    let mut vault = filled(rt.alloc(), &maildrop)?;
    let keys = keys_in(rt.alloc(), &mut vault, &maildrop)?;
    let _ = vault.prepare_removal(&maildrop, &keys)?;
    let mut left = vault.into_vault();
    assert!(rt; left.heads(&maildrop)?.len() == 300);
    Ok(())
}
