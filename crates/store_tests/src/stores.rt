//! What no clause says: that the calls of a vault succeed if there is memory, and the sample
//! store's deposits, counts and pages.
use creds::{Credential, DepositId, Name, Secret};
use mailtext::canon;
use policy::Policy;
use sqlvault::SqlVault;
use std::alloc::{AllocError, Global};
use std::str;
use std::test::Fail;
use transcripts::playing::{expect, plays_over_vectors};
use vault::{Deposited, Head, MessageKey, PlainVault, Refusing, Total, Vault, VaultFault};

/// A policy of two groups and a rule about one of them, as it is written.
const POLICY: &str = r#"[[group]]
name = "sales"
members = ["bob", "ann"]

[[group]]
name = "books"
members = ["cat"]

[[rule]]
name = "sales-all"
effect = "allow"
clerk = "@sales"
maildrop = "orders"
class = "*"
actions = ["open", "read", "remove"]
"#;

/// A call of a vault. `Deposit` has a class, an id and a text, and goes into the maildrop `orders`.
/// `Page` has a message's key and the place from which eight octets are read. `Remove` has the
/// maildrop and a message's key. `SetPolicy` sets the policy above.
#[derive(Clone, Copy)]
enum Call {
    Add(&'static str),
    Drop(&'static str),
    Maildrops,
    Deposit(&'static str, &'static str, &'static str),
    Heads(&'static str),
    Page(u64, u64),
    Remove(&'static str, u64),
    Put(&'static str, &'static str),
    PutDigest(&'static str),
    Credential(&'static str),
    DropClerk(&'static str),
    SetPolicy,
    Policy,
}

/// Calls of a new store with their answers.
static STORY: [(Call, &str); 44] = [
    (Call::Deposit("note", "d1", "x"), "no such maildrop"),
    (Call::Heads("orders"), "no such maildrop"),
    (Call::Drop("orders"), "no such maildrop"),
    (Call::Add("orders"), "new"),
    (Call::Add("orders"), "known"),
    (
        Call::Deposit("note", "d1", "Subject: a\n\nhi\n.\n"),
        "new note.1",
    ),
    (
        Call::Deposit("note", "d1", "Subject: a\n\nhi\n.\n"),
        "known note.1",
    ),
    (
        Call::Deposit("pay", "d1", "Subject: a\n\nhi\n.\n"),
        "conflict",
    ),
    (Call::Deposit("note", "d1", "x"), "conflict"),
    (Call::Heads("orders"), "note.1 21;"),
    (Call::Maildrops, "orders 1 21;"),
    (Call::Drop("orders"), "not empty"),
    (
        Call::Deposit("pay", "d2", "Subject: pay\n\nx\n"),
        "new pay.1",
    ),
    (Call::Deposit("note", "d3", "no header end"), "new note.2"),
    (
        Call::Deposit("todo", "d4", "A: 1\r\n\r\none\r\ntwo\r\nthree\r\n"),
        "new todo.1",
    ),
    (Call::Add("accounts"), "new"),
    (Call::Maildrops, "accounts 0 0;orders 4 80;"),
    (Call::Remove("accounts", 2), "done"),
    (Call::Remove("nowhere", 2), "done"),
    (Call::Remove("orders", 99), "done"),
    (
        Call::Heads("orders"),
        "note.1 21;pay.1 19;note.2 15;todo.1 25;",
    ),
    (Call::Remove("orders", 2), "done"),
    (Call::Remove("orders", 3), "done"),
    (Call::Heads("orders"), "note.1 21;todo.1 25;"),
    (Call::Remove("orders", 1), "done"),
    (Call::Remove("orders", 4), "done"),
    (Call::Drop("orders"), "done"),
    (Call::Maildrops, "accounts 0 0;"),
    (Call::Add("orders"), "new"),
    (
        Call::Deposit("note", "d1", "Subject: a\n\nhi\n.\n"),
        "known note.1",
    ),
    (Call::Heads("orders"), ""),
    (Call::Deposit("note", "d5", "x"), "new note.3"),
    (Call::Put("ann", "s3 cret"), "new"),
    (Call::Put("ann", "hunter"), "known"),
    (Call::DropClerk("ann"), "done"),
    (Call::DropClerk("ann"), "no such clerk"),
    (Call::Put("ann", "s3 cret"), "new"),
    (Call::PutDigest("ann"), "known"),
    (Call::Credential("ann"), "pass 7"),
    (Call::Credential("bob"), "none"),
    (Call::SetPolicy, "done"),
    (Call::Policy, POLICY),
    (Call::Put("ann", "s3 cret"), "known"),
    (Call::Credential("ann"), "apop s3 cret"),
];

fn name(text: &str) -> Result<Name, Fail> {
    Ok(Name::read(text.as_bytes()).ok_or("a name")?)
}

/// Deposits a text into the maildrop `orders`.
fn deposit<V: Vault>(
    alloc: Global,
    vault: &mut V,
    class: &str,
    id: &str,
    text: &str,
) -> Result<Result<Deposited, VaultFault>, Fail> {
    let orders = name("orders")?;
    let class = name(class)?;
    let id = DepositId::read(id.as_bytes()).ok_or("an id")?;
    let text = canon(alloc, text.as_bytes())?;
    Ok(vault.deposit(&orders, &class, &id, &text))
}

/// Stores a clerk with a secret for APOP.
fn put<V: Vault>(vault: &mut V, clerk: &str, text: &str) -> Result<Result<bool, VaultFault>, Fail> {
    let secret = Secret::read(text.as_bytes()).ok_or("a secret")?;
    Ok(vault.put_clerk(&name(clerk)?, &Credential::Apop(secret)))
}

fn fault_text(alloc: Global, fault: VaultFault) -> Result<String, Fail> {
    Ok(fault.to_string(alloc)?)
}

fn said_of_put(alloc: Global, answer: Result<bool, VaultFault>) -> Result<String, Fail> {
    match answer {
        Ok(true) => Ok(String::from_str(alloc, "new")?),
        Ok(false) => Ok(String::from_str(alloc, "known")?),
        Err(fault) => fault_text(alloc, fault),
    }
}

fn said_of_done(alloc: Global, answer: Result<(), VaultFault>) -> Result<String, Fail> {
    match answer {
        Ok(()) => Ok(String::from_str(alloc, "done")?),
        Err(fault) => fault_text(alloc, fault),
    }
}

fn said_of_deposit(alloc: Global, answer: Result<Deposited, VaultFault>) -> Result<String, Fail> {
    match answer {
        Ok(Deposited::New(uid)) => Ok(format!(in alloc; "new {uid}")?),
        Ok(Deposited::Known(uid)) => Ok(format!(in alloc; "known {uid}")?),
        Err(fault) => fault_text(alloc, fault),
    }
}

fn text_of_heads(alloc: Global, heads: &[Head]) -> Result<String, AllocError> {
    let mut text = String::new(alloc);
    for head in heads {
        let class = head.class;
        let k = head.k;
        let octets = head.octets;
        write!(text, "{class}.{k} {octets};")?;
    }
    Ok(text)
}

fn said_of_heads(alloc: Global, answer: Result<Vec<Head>, VaultFault>) -> Result<String, Fail> {
    match answer {
        Ok(heads) => Ok(text_of_heads(alloc, heads.as_slice())?),
        Err(fault) => fault_text(alloc, fault),
    }
}

fn text_of_totals(alloc: Global, totals: &[Total]) -> Result<String, AllocError> {
    let mut text = String::new(alloc);
    for total in totals {
        let maildrop = total.maildrop;
        let messages = total.messages;
        let octets = total.octets;
        write!(text, "{maildrop} {messages} {octets};")?;
    }
    Ok(text)
}

fn said_of_totals(alloc: Global, answer: Result<Vec<Total>, VaultFault>) -> Result<String, Fail> {
    match answer {
        Ok(totals) => Ok(text_of_totals(alloc, totals.as_slice())?),
        Err(fault) => fault_text(alloc, fault),
    }
}

/// In a word what is kept of a clerk: the secret `s3 cret`, the digest of sevens, or nothing.
fn word_of_credential(
    answer: &Result<Option<Credential>, VaultFault>,
) -> Result<&'static str, Fail> {
    let secret = Secret::read(b"s3 cret").ok_or("a secret")?;
    if *answer == Ok(Some(Credential::Apop(secret))) {
        return Ok("apop s3 cret");
    }
    if *answer == Ok(Some(Credential::Pass([7; 32]))) {
        return Ok("pass 7");
    }
    if *answer == Ok(None) {
        return Ok("none");
    }
    if *answer == Err(VaultFault::Store) {
        return Ok("store failed");
    }
    Ok("another answer")
}

fn said_of_policy(alloc: Global, answer: Result<Policy, VaultFault>) -> Result<String, Fail> {
    match answer {
        Ok(policy) => {
            let mut text = Vec::new(alloc);
            policy.write(&mut text)?;
            Ok(String::from_utf8(text)?)
        }
        Err(fault) => fault_text(alloc, fault),
    }
}

fn said_of_page<V: Vault>(
    alloc: Global,
    vault: &mut V,
    key: u64,
    from: u64,
) -> Result<String, Fail> {
    let mut page = [0; 8];
    match vault.page(MessageKey::new(key), from, &mut page) {
        Ok(octets) => {
            let read = page.get(..octets).ok_or("more octets than a page has")?;
            Ok(String::from_str(alloc, str::from_utf8(read)?)?)
        }
        Err(fault) => fault_text(alloc, fault),
    }
}

/// Makes the call, and answers its answer in words.
fn said<V: Vault>(alloc: Global, vault: &mut V, call: Call) -> Result<String, Fail> {
    match call {
        Call::Add(maildrop) => said_of_put(alloc, vault.add_maildrop(&name(maildrop)?)),
        Call::Drop(maildrop) => said_of_done(alloc, vault.drop_maildrop(&name(maildrop)?)),
        Call::Maildrops => said_of_totals(alloc, vault.maildrops()),
        Call::Deposit(class, id, text) => {
            said_of_deposit(alloc, deposit(alloc, vault, class, id, text)?)
        }
        Call::Heads(maildrop) => said_of_heads(alloc, vault.heads(&name(maildrop)?)),
        Call::Page(key, from) => said_of_page(alloc, vault, key, from),
        Call::Remove(maildrop, key) => {
            let keys = [MessageKey::new(key)];
            said_of_done(alloc, vault.remove(&name(maildrop)?, &keys))
        }
        _ => said_of_office(alloc, vault, call),
    }
}

/// Does so for the calls about clerks and the policy.
fn said_of_office<V: Vault>(alloc: Global, vault: &mut V, call: Call) -> Result<String, Fail> {
    match call {
        Call::Put(clerk, text) => said_of_put(alloc, put(vault, clerk, text)?),
        Call::PutDigest(clerk) => {
            let given = Credential::Pass([7; 32]);
            said_of_put(alloc, vault.put_clerk(&name(clerk)?, &given))
        }
        Call::Credential(clerk) => {
            let word = word_of_credential(&vault.credential(&name(clerk)?))?;
            Ok(String::from_str(alloc, word)?)
        }
        Call::DropClerk(clerk) => said_of_done(alloc, vault.drop_clerk(&name(clerk)?)),
        Call::SetPolicy => said_of_done(alloc, vault.set_policy(&Policy::read(alloc, POLICY)?)),
        _ => said_of_policy(alloc, vault.policy()),
    }
}

/// Makes the calls one after the other. Fails with the first answer that isn't the one wanted.
fn tells<V: Vault>(alloc: Global, vault: &mut V, calls: &[(Call, &str)]) -> Result<(), Fail> {
    for (call, answer) in calls {
        expect(said(alloc, vault, *call)?, *answer)?;
    }
    Ok(())
}

#[test]
fn story_of_a_store(rt: HostRuntime) -> Result<(), Fail> {
    let mut vault = PlainVault::new(rt.alloc());
    tells(rt.alloc(), &mut vault, STORY.as_slice())
}

#[test]
fn story_of_a_store_over_tables(rt: HostRuntime) -> Result<(), Fail> {
    let mut vault = SqlVault::in_memory(rt.alloc())?;
    tells(rt.alloc(), &mut vault, STORY.as_slice())
}

/// The sample store's first deposit.
const FIRST: Call = Call::Deposit("note", "d1", "Subject: a\n\nhi\n.\n");

/// Makes the sample store's first deposit. If memory for it is refused, nothing of it may be
/// left, and it is made again.
fn is_deposited<V: Vault>(alloc: Global, vault: &mut V) -> Result<(), Fail> {
    let first = said(alloc, vault, FIRST)?;
    if first.as_str() != "out of memory" {
        return expect(first, "new note.1");
    }
    tells(
        alloc,
        vault,
        &[(Call::Heads("orders"), ""), (FIRST, "new note.1")],
    )
}

/// The pages of its kept text, one after its end, and one of no message.
static PAGES: [(Call, &str); 5] = [
    (Call::Page(1, 0), "Subject:"),
    (Call::Page(1, 8), " a\r\n\r\nhi"),
    (Call::Page(1, 16), "\r\n.\r\n"),
    (Call::Page(1, 21), ""),
    (Call::Page(u64::MAX, 0), ""),
];

/// This passes too if one of the deposit's growths of memory is refused.
#[test]
fn pages_join_to_the_kept_text(rt: HostRuntime) -> Result<(), Fail> {
    let mut vault = PlainVault::new(rt.alloc());
    tells(rt.alloc(), &mut vault, &[(Call::Add("orders"), "new")])?;
    is_deposited(rt.alloc(), &mut vault)?;
    tells(rt.alloc(), &mut vault, PAGES.as_slice())
}

/// After a thousand maildrops and clerks one more of each is refused, and the last are still known.
static FULL: &str = "> maildrop add n1000
answer full
> clerk apop n1000 s3 cret
answer full
> maildrop add n999
answer was there
> clerk apop n999 s3 cret
answer replaced
";

// A full maildrop, of 10,000 messages, is tried by tools/serve/large.py.
#[test]
fn maildrops_and_clerks_up_to_a_thousand(rt: HostRuntime) -> Result<(), Fail> {
    let mut text = String::new(rt.alloc());
    for n in 0..1000 {
        writeln!(
            text,
            "> maildrop add n{n}\nanswer added\n> clerk apop n{n} s3 cret\nanswer added"
        )?;
    }
    text.push_str(FULL)?;
    plays_over_vectors(rt.alloc(), text.as_str())
}

/// One call of each kind, with its answer.
static EACH: [(Call, &str); 12] = [
    (Call::Add("orders"), "new"),
    (FIRST, "new note.1"),
    (Call::Heads("orders"), "note.1 21;"),
    (Call::Page(1, 0), "Subject:"),
    (Call::Maildrops, "orders 1 21;"),
    (Call::Remove("orders", 1), "done"),
    (Call::Drop("orders"), "done"),
    (Call::Put("ann", "s3 cret"), "new"),
    (Call::Credential("ann"), "apop s3 cret"),
    (Call::DropClerk("ann"), "done"),
    (Call::SetPolicy, "done"),
    (Call::Policy, POLICY),
];

/// Makes the calls over a store that refuses call `n`, and makes that one again. Fails unless each
/// is answered as it should be. Answers how many were refused.
fn refusals(alloc: Global, n: u64) -> Result<u64, Fail> {
    let mut vault = Refusing::new(PlainVault::new(alloc), n);
    let mut to_come = n;
    for (call, answer) in &EACH {
        if to_come == 1 {
            expect(said(alloc, &mut vault, *call)?, "store failed")?;
        }
        let refused = vault.refusals();
        if refused != u64::from(0 < n && to_come < 2) {
            return Err(Fail::from("another count of refusals"));
        }
        to_come = to_come.saturating_sub(1);
        expect(said(alloc, &mut vault, *call)?, *answer)?;
    }
    Ok(vault.refusals())
}

#[test]
fn one_call_is_refused(rt: HostRuntime) -> Result<(), Fail> {
    for n in 0..13 {
        assert!(rt; refusals(rt.alloc(), n)? == n.min(1), "{n}");
    }
    Ok(())
}
