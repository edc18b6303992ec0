//! What no clause says: which calls are answered without the vault inside.
use creds::{DepositId, Name};
use mailtext::canon;
use recent::Recent;
use std::alloc::Global;
use std::test::Fail;
use vault::{PlainVault, Refusing, Vault, VaultFault};

/// A call of a vault. `Deposit` has a maildrop and an id, and so has `Other`, which is of another
/// text; `Remove` removes the first message.
#[derive(Clone, Copy)]
enum Call {
    Add(&'static str),
    Drop(&'static str),
    Deposit(&'static str, &'static str),
    Other(&'static str, &'static str),
    Remove(&'static str),
    Heads(&'static str),
    Totals,
    Policy,
}

/// Calls of a new store, each with how many calls reach the vault inside, and its answer. The
/// answer of `Heads` is how many there are.
static HEADS: [(Call, u64, &str); 15] = [
    (Call::Heads("orders"), 1, "no such maildrop"),
    (Call::Add("orders"), 1, "done"),
    (Call::Heads("orders"), 1, "0"),
    (Call::Heads("orders"), 0, "0"),
    (Call::Deposit("orders", "d1"), 1, "done"),
    (Call::Heads("orders"), 1, "1"),
    (Call::Heads("orders"), 0, "1"),
    (Call::Policy, 1, "done"),
    (Call::Heads("orders"), 0, "1"),
    (Call::Deposit("orders", "d2"), 1, "done"),
    (Call::Heads("orders"), 1, "2"),
    (Call::Heads("billing"), 1, "no such maildrop"),
    (Call::Heads("orders"), 1, "2"),
    (Call::Add("billing"), 1, "done"),
    (Call::Heads("billing"), 1, "0"),
];

/// The same of two maildrops: a deposit, a removal or a drop forgets the heads of its own alone,
/// and a fault of a look forgets those of both.
static TWO: [(Call, u64, &str); 20] = [
    (Call::Add("orders"), 1, "done"),
    (Call::Add("billing"), 1, "done"),
    (Call::Heads("orders"), 1, "0"),
    (Call::Heads("billing"), 1, "0"),
    (Call::Heads("orders"), 0, "0"),
    (Call::Heads("billing"), 0, "0"),
    (Call::Deposit("orders", "d1"), 1, "done"),
    (Call::Heads("billing"), 0, "0"),
    (Call::Heads("orders"), 1, "1"),
    (Call::Heads("billing"), 0, "0"),
    (Call::Deposit("billing", "d1"), 1, "done"),
    (Call::Remove("orders"), 1, "done"),
    (Call::Heads("billing"), 1, "1"),
    (Call::Heads("orders"), 1, "0"),
    (Call::Heads("billing"), 0, "1"),
    (Call::Drop("orders"), 1, "done"),
    (Call::Heads("billing"), 0, "1"),
    (Call::Heads("orders"), 1, "no such maildrop"),
    (Call::Heads("billing"), 1, "1"),
    (Call::Heads("billing"), 0, "1"),
];

/// The same: a deposit without a maildrop, and one that is in conflict with an earlier one, forget
/// nothing.
static REFUSED: [(Call, u64, &str); 15] = [
    (Call::Add("orders"), 1, "done"),
    (Call::Add("billing"), 1, "done"),
    (Call::Deposit("orders", "d1"), 1, "done"),
    (Call::Heads("orders"), 1, "1"),
    (Call::Heads("billing"), 1, "0"),
    (Call::Totals, 1, "1"),
    (Call::Deposit("nobody", "d1"), 1, "no such maildrop"),
    (Call::Heads("orders"), 0, "1"),
    (Call::Heads("billing"), 0, "0"),
    (Call::Totals, 0, "1"),
    (Call::Other("orders", "d1"), 1, "conflict"),
    (Call::Heads("orders"), 0, "1"),
    (Call::Heads("billing"), 0, "0"),
    (Call::Totals, 0, "1"),
    (Call::Policy, 1, "done"),
];

/// The same of three maildrops of 3,400 messages each, whose heads aren't all kept: those of the
/// maildrop that was asked for longest ago go first.
static ROOM: [(Call, u64, &str); 8] = [
    (Call::Heads("a"), 1, "more"),
    (Call::Heads("b"), 1, "more"),
    (Call::Heads("a"), 0, "more"),
    (Call::Heads("c"), 1, "more"),
    (Call::Heads("a"), 0, "more"),
    (Call::Heads("c"), 0, "more"),
    (Call::Heads("b"), 1, "more"),
    (Call::Heads("b"), 0, "more"),
];

/// The same. The answer of `Totals` is how many messages there are in all maildrops. Two maildrops
/// that changed are two calls, and then the totals of the others aren't asked for.
static TOTALS: [(Call, u64, &str); 19] = [
    (Call::Totals, 1, "0"),
    (Call::Add("orders"), 1, "done"),
    (Call::Add("billing"), 1, "done"),
    (Call::Totals, 1, "0"),
    (Call::Totals, 0, "0"),
    (Call::Deposit("orders", "d1"), 1, "done"),
    (Call::Deposit("billing", "d1"), 1, "done"),
    (Call::Totals, 2, "2"),
    (Call::Totals, 0, "2"),
    (Call::Heads("orders"), 1, "1"),
    (Call::Policy, 1, "done"),
    (Call::Totals, 0, "2"),
    (Call::Remove("orders"), 1, "done"),
    (Call::Remove("billing"), 2, "done"),
    (Call::Totals, 2, "0"),
    (Call::Deposit("orders", "d2"), 1, "done"),
    (Call::Totals, 1, "1"),
    (Call::Drop("billing"), 1, "done"),
    (Call::Totals, 1, "1"),
];

/// The text of a message.
const TEXT: &[u8] = b"Subject: a\n\nhi\n";

fn name(text: &str) -> Result<Name, Fail> {
    Ok(Name::read(text.as_bytes()).ok_or("a name")?)
}

/// In a word what a fault is.
fn word_of(fault: VaultFault) -> &'static str {
    match fault {
        VaultFault::NoMaildrop => "no such maildrop",
        VaultFault::Conflict => "conflict",
        VaultFault::Store => "store failed",
        _ => "another fault",
    }
}

/// In a word what an answer without a number is.
fn word_of_done<T: Drop>(answer: Result<T, VaultFault>) -> &'static str {
    match answer {
        Ok(_) => "done",
        Err(fault) => word_of(fault),
    }
}

/// In a word how many there are.
fn word_of_count(count: usize) -> &'static str {
    ["0", "1", "2"].get(count).copied().unwrap_or("more")
}

/// Deposits this text into the maildrop.
fn deposit<V: Vault>(
    alloc: Global,
    vault: &mut V,
    maildrop: &str,
    id: &str,
    text: &[u8],
) -> Result<&'static str, Fail> {
    let id = DepositId::read(id.as_bytes()).ok_or("an id")?;
    let text = canon(alloc, text)?;
    let answer = vault.deposit(&name(maildrop)?, &name("note")?, &id, &text);
    Ok(word_of_done(answer))
}

/// How many heads a maildrop has.
fn count<V: Vault>(vault: &mut V, maildrop: &str) -> Result<&'static str, Fail> {
    match vault.heads(&name(maildrop)?) {
        Ok(heads) => Ok(word_of_count(heads.len())),
        Err(fault) => Ok(word_of(fault)),
    }
}

/// Asks for a maildrop's heads, and removes the first message.
fn remove<V: Vault>(vault: &mut V, maildrop: &str) -> Result<&'static str, Fail> {
    match vault.heads(&name(maildrop)?) {
        Ok(heads) => {
            let head = heads.first().ok_or("a message")?;
            Ok(word_of_done(vault.remove(&name(maildrop)?, &[head.key])))
        }
        Err(fault) => Ok(word_of(fault)),
    }
}

/// How many messages there are in all maildrops.
fn count_all<V: Vault>(vault: &mut V) -> &'static str {
    match vault.maildrops() {
        Ok(totals) => {
            let count = totals
                .iter()
                .fold(0, |sum: u64, total| sum.saturating_add(total.messages));
            word_of_count(count as usize)
        }
        Err(fault) => word_of(fault),
    }
}

/// Makes the call, and answers its answer in a word.
fn said<V: Vault>(alloc: Global, vault: &mut V, call: Call) -> Result<&'static str, Fail> {
    match call {
        Call::Add(maildrop) => Ok(word_of_done(vault.add_maildrop(&name(maildrop)?))),
        Call::Drop(maildrop) => Ok(word_of_done(vault.drop_maildrop(&name(maildrop)?))),
        Call::Deposit(maildrop, id) => deposit(alloc, vault, maildrop, id, TEXT),
        Call::Other(maildrop, id) => deposit(alloc, vault, maildrop, id, b"another text"),
        Call::Remove(maildrop) => remove(vault, maildrop),
        Call::Heads(maildrop) => count(vault, maildrop),
        Call::Totals => Ok(count_all(vault)),
        Call::Policy => Ok(word_of_done(vault.policy())),
    }
}

/// Makes the calls over this store, but refuses the one of this number among those that reach it,
/// and makes that one again. Fails unless each is answered as it should be. Answers how many were
/// refused.
fn refusals(
    alloc: Global,
    plain: PlainVault,
    story: &[(Call, u64, &'static str)],
    n: u64,
) -> Result<u64, Fail> {
    let mut vault = Recent::new(alloc, Refusing::new(plain, n));
    let mut to_come = n;
    for (call, reaches, answer) in story {
        let is_refused = 0 < to_come && to_come <= *reaches;
        if is_refused && said(alloc, &mut vault, *call)? != "store failed" {
            return Err(Fail::from("a call that isn't refused"));
        }
        to_come = to_come.saturating_sub(*reaches);
        if said(alloc, &mut vault, *call)? != *answer {
            return Err(Fail::from(*answer));
        }
    }
    Ok(vault.into_vault().refusals())
}

#[test]
fn kept_heads_ask_nothing(rt: HostRuntime) -> Result<(), Fail> {
    for n in 0..13 {
        assert!(rt;
            refusals(rt.alloc(), PlainVault::new(rt.alloc()), &HEADS, n)? == n.min(1),
            "{n}"
        );
    }
    Ok(())
}

#[test]
fn each_maildrop_keeps_its_own(rt: HostRuntime) -> Result<(), Fail> {
    for n in 0..14 {
        assert!(rt;
            refusals(rt.alloc(), PlainVault::new(rt.alloc()), &TWO, n)? == n.min(1),
            "{n}"
        );
    }
    Ok(())
}

#[test]
fn refused_deposits_forget_nothing(rt: HostRuntime) -> Result<(), Fail> {
    for n in 0..10 {
        assert!(rt;
            refusals(rt.alloc(), PlainVault::new(rt.alloc()), &REFUSED, n)? == n.min(1),
            "{n}"
        );
    }
    Ok(())
}

/// Deposits 3,400 messages into a new maildrop.
fn fill(alloc: Global, vault: &mut PlainVault, maildrop: &str) -> Result<(), Fail> {
    if word_of_done(vault.add_maildrop(&name(maildrop)?)) != "done" {
        return Err(Fail::from("a new maildrop"));
    }
    for number in 0..3400 {
        let id = format!(in alloc; "{number}")?;
        if deposit(alloc, vault, maildrop, id.as_str(), TEXT)? != "done" {
            return Err(Fail::from("a deposit"));
        }
    }
    Ok(())
}

#[test]
fn the_one_asked_for_longest_ago_goes_first(rt: HostRuntime) -> Result<(), Fail> {
    let mut plain = PlainVault::new(rt.alloc());
    for maildrop in ["a", "b", "c"] {
        fill(rt.alloc(), &mut plain, maildrop)?;
    }
    assert!(rt; refusals(rt.alloc(), plain, &ROOM, 4)? == 1);
    Ok(())
}

#[test]
fn kept_totals_ask_for_what_changed(rt: HostRuntime) -> Result<(), Fail> {
    for n in 0..20 {
        assert!(rt;
            refusals(rt.alloc(), PlainVault::new(rt.alloc()), &TOTALS, n)? == n.min(1),
            "{n}"
        );
    }
    Ok(())
}
