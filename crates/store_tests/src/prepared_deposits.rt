//! What no clause says of `Ahead`: how much of a deposit is done each time that it is prepared,
//! when it is given up, and that it is then done at once. Clauses say what is held after it.
use creds::{DepositId, Name};
use mailtext::{MailText, canon};
use sqlite::MemStore;
use sqlvault::{Ahead, SqlVault};
use std::alloc::Global;
use std::test::Fail;
use vault::{Deposited, MessageKey, Progress, Vault, VaultFault};

/// How many octets a text has, of which 262,144 are put each time: three times, and a rest.
const OCTETS: usize = 1_000_000;

/// How many octets a text has that is put at once.
const SMALL: usize = 262_100;

type Store = Ahead<MemStore>;

/// The maildrop, and the class of each message.
fn orders() -> Result<Name, Fail> {
    Ok(Name::read(b"orders").ok_or("a name")?)
}

/// The id of the large deposit.
fn large() -> Result<DepositId, Fail> {
    Ok(DepositId::read(b"large").ok_or("an id")?)
}

/// A text of this many octets, of lines of fifty octets that this octet fills.
fn text_of(alloc: Global, octets: usize, fill: u8) -> Result<MailText, Fail> {
    let line = [fill; 48];
    let mut text = Vec::new(alloc);
    for _ in 0..octets / 50 {
        text.extend_from_slice(&line)?;
        text.extend_from_slice(b"\r\n")?;
    }
    Ok(canon(alloc, text.as_slice())?)
}

/// A store with a maildrop and a small message.
fn begun(alloc: Global) -> Result<Store, Fail> {
    let maildrop = orders()?;
    let mut vault = Ahead::new(SqlVault::in_memory(alloc)?);
    vault.add_maildrop(&maildrop)?;
    let id = DepositId::read(b"small").ok_or("an id")?;
    let _ = vault.deposit(&maildrop, &maildrop, &id, &canon(alloc, b"small")?)?;
    Ok(vault)
}

/// How often a deposit is asked for until no more of it can be prepared; at most ten times.
fn asked(vault: &mut Store, text: &MailText) -> Result<u32, Fail> {
    let maildrop = orders()?;
    let mut count = 0u32;
    for _ in 0..10 {
        count = count.saturating_add(1);
        if vault.prepare_deposit(&maildrop, &maildrop, &large()?, text)? == Progress::Ready {
            break;
        }
    }
    Ok(count)
}

/// Does the large deposit, and answers the number that its message has in its class.
fn deposit(vault: &mut Store, text: &MailText) -> Result<(bool, u64), Fail> {
    let maildrop = orders()?;
    match vault.deposit(&maildrop, &maildrop, &large()?, text)? {
        Deposited::New(uid) => Ok((true, uid.k)),
        Deposited::Known(uid) => Ok((false, uid.k)),
    }
}

/// Whether the newest of this many messages has this text.
fn is_last(vault: &mut Store, count: usize, text: &MailText) -> Result<bool, Fail> {
    let heads = vault.heads(&orders()?)?;
    let Some(head) = heads.as_slice().last() else {
        return Ok(false);
    };
    let key = head.key;
    let mut sheet = [0; 4096];
    let mut from = 0usize;
    for _ in 0..=text.octets() / 4096 {
        let read = vault.page(key, from as u64, &mut sheet)?;
        let (Some(rest), Some(got)) = (text.bytes().get(from..), sheet.get(..read)) else {
            return Ok(false);
        };
        if !rest.starts_with(got) {
            return Ok(false);
        }
        from = from.saturating_add(read);
    }
    Ok(heads.len() == count && from == text.octets())
}

#[test]
fn a_deposit_is_prepared_piece_by_piece(rt: HostRuntime) -> Result<(), Fail> {
    let text = text_of(rt.alloc(), OCTETS, b'a')?;
    let mut vault = begun(rt.alloc())?;
    assert!(rt; asked(&mut vault, &text)? == 3);
    assert!(rt; deposit(&mut vault, &text)? == (true, 2));
    assert!(rt; is_last(&mut vault, 2, &text)?);
    // One that is known has nothing to prepare.
    assert!(rt; asked(&mut vault, &text)? == 1);
    assert!(rt; deposit(&mut vault, &text)? == (false, 2));
    assert!(rt; is_last(&mut vault, 2, &text)?);
    Ok(())
}

#[test]
fn a_small_deposit_isnt_prepared(rt: HostRuntime) -> Result<(), Fail> {
    let text = text_of(rt.alloc(), SMALL, b'a')?;
    let mut vault = begun(rt.alloc())?;
    assert!(rt; asked(&mut vault, &text)? == 1);
    assert!(rt; deposit(&mut vault, &text)? == (true, 2));
    Ok(())
}

/// A deposit of another text of as many octets, after this one was prepared in part.
#[test]
fn another_text_than_was_prepared(rt: HostRuntime) -> Result<(), Fail> {
    let text = text_of(rt.alloc(), OCTETS, b'a')?;
    let other = text_of(rt.alloc(), OCTETS, b'b')?;
    let maildrop = orders()?;
    let mut vault = begun(rt.alloc())?;
    let _ = vault.prepare_deposit(&maildrop, &maildrop, &large()?, &text)?;
    let _ = vault.prepare_deposit(&maildrop, &maildrop, &large()?, &other)?;
    assert!(rt; deposit(&mut vault, &other)? == (true, 2));
    assert!(rt; is_last(&mut vault, 2, &other)?);
    let refused = vault.deposit(&maildrop, &maildrop, &large()?, &text);
    assert!(rt; matches!(refused, Err(VaultFault::Conflict)));
    Ok(())
}

/// How often a deposit is asked for after `times` were given up, and how many messages are
/// there before and after it.
fn deposited_after(alloc: Global, times: u32) -> Result<(u32, usize, usize), Fail> {
    let text = text_of(alloc, OCTETS, b'a')?;
    let maildrop = orders()?;
    let mut vault = begun(alloc)?;
    for _ in 0..times {
        let _ = vault.prepare_deposit(&maildrop, &maildrop, &large()?, &text)?;
        let _ = vault.maildrops()?;
    }
    let before = vault.heads(&maildrop)?.len();
    let count = asked(&mut vault, &text)?;
    let _ = deposit(&mut vault, &text)?;
    Ok((count, before, vault.heads(&maildrop)?.len()))
}

#[test]
fn a_deposit_that_was_given_up_begins_anew(rt: HostRuntime) -> Result<(), Fail> {
    assert!(rt; deposited_after(rt.alloc(), 1)? == (3, 1, 2));
    Ok(())
}

#[test]
fn after_three_that_were_given_up_a_deposit_is_done_at_once(rt: HostRuntime) -> Result<(), Fail> {
    assert!(rt; deposited_after(rt.alloc(), 3)? == (1, 1, 2));
    Ok(())
}

/// A small deposit beside it gives it up, and its message gets the number that comes next.
#[test]
fn a_deposit_beside_gives_one_up(rt: HostRuntime) -> Result<(), Fail> {
    let text = text_of(rt.alloc(), OCTETS, b'a')?;
    let maildrop = orders()?;
    let mut vault = begun(rt.alloc())?;
    let _ = vault.prepare_deposit(&maildrop, &maildrop, &large()?, &text)?;
    let id = DepositId::read(b"beside").ok_or("an id")?;
    let _ = vault.deposit(&maildrop, &maildrop, &id, &canon(rt.alloc(), b"beside")?)?;
    assert!(rt; asked(&mut vault, &text)? == 3);
    assert!(rt; deposit(&mut vault, &text)? == (true, 3));
    assert!(rt; is_last(&mut vault, 3, &text)?);
    Ok(())
}

/// Looks at the message of this key, for a clerk, and at a maildrop without messages. Whether that
/// was answered.
fn is_looked_at(vault: &mut Store, key: MessageKey, other: &Name) -> Result<bool, Fail> {
    let mut sheet = [0; 4096];
    let has_text = vault.page(key, 0, &mut sheet)? == 7;
    let has_clerk = vault.credential(other)?.is_some();
    Ok(has_text && !has_clerk && vault.heads(other)?.is_empty())
}

/// The key of the oldest message.
fn first_key(vault: &mut Store) -> Result<MessageKey, Fail> {
    let heads = vault.heads(&orders()?)?;
    Ok(heads.as_slice().first().ok_or("a message")?.key)
}

/// What a login and a reader of other messages ask for doesn't give it up.
#[test]
fn others_look_beside_a_deposit(rt: HostRuntime) -> Result<(), Fail> {
    let text = text_of(rt.alloc(), OCTETS, b'a')?;
    let maildrop = orders()?;
    let other = Name::read(b"other").ok_or("a name")?;
    let mut vault = begun(rt.alloc())?;
    vault.add_maildrop(&other)?;
    let key = first_key(&mut vault)?;
    let _ = vault.prepare_deposit(&maildrop, &maildrop, &large()?, &text)?;
    assert!(rt; is_looked_at(&mut vault, key, &other)?);
    assert!(rt; asked(&mut vault, &text)? == 2);
    assert!(rt; deposit(&mut vault, &text)? == (true, 2));
    Ok(())
}

#[test]
fn a_deposit_is_given_up_at_the_end(rt: HostRuntime) -> Result<(), Fail> {
    let text = text_of(rt.alloc(), OCTETS, b'a')?;
    let mut vault = begun(rt.alloc())?;
    assert!(rt; asked(&mut vault, &text)? == 3);
    let mut left = vault.into_vault();
    assert!(rt; left.heads(&orders()?)?.len() == 1);
    Ok(())
}
