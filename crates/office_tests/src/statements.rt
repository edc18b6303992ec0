//! Each statement once over a store in memory.

use mailsql::rows::Sheet;
use mailsql::uses::Seen;
use mailsql::{clerks, counts, deposits, mail, maildrops, meta, rules, sheets, transaction, uses};
use sqlite::{Connection, Error, ErrorCode, MemStore};
use std::alloc::Global;
use std::test::Fail;

type Store = Connection<MemStore>;

// A helper has no clauses, so that a test need not carry those of the statements.

fn new_store(alloc: Global) -> Result<Store, Error> {
    uses::open_new(alloc, 2)
}

fn holds_clerk(
    alloc: Global,
    store: &mut Store,
    name: &[u8],
    kind: i64,
    secret: &[u8],
) -> Result<bool, Error> {
    match clerks::find_clerk(alloc, store, name)? {
        Some(clerk) => Ok(clerk.kind == kind && clerk.secret.as_slice() == secret),
        None => Ok(false),
    }
}

// Adds two clerks. Whether each has its credential.
fn has_both(alloc: Global, store: &mut Store) -> Result<bool, Error> {
    clerks::add_clerk(store, b"ann", 2, &[200; 32])?;
    clerks::put_clerk(store, b"mrose", 1, b"tanstaaf")?;
    let ann = holds_clerk(alloc, store, b"ann", 2, &[200; 32])?;
    Ok(ann && holds_clerk(alloc, store, b"mrose", 1, b"tanstaaf")?)
}

// Gives ann another credential. Whether she has it, and there are still two clerks.
fn has_ann_anew(alloc: Global, store: &mut Store) -> Result<bool, Error> {
    clerks::put_clerk(store, b"ann", 1, b"s3 cret")?;
    let ann = holds_clerk(alloc, store, b"ann", 1, b"s3 cret")?;
    let count = clerks::clerk_count(store)?;
    Ok(ann && count == 2 && clerks::all_clerks(alloc, store)?.len() == 2)
}

// Drops ann. Whether she is gone.
fn has_no_ann(alloc: Global, store: &mut Store) -> Result<bool, Error> {
    clerks::drop_clerk(store, b"ann")?;
    Ok(clerks::find_clerk(alloc, store, b"ann")?.is_none())
}

// Whether a clerk has the credential of either kind that was last given, until he is dropped.
fn has_credentials(alloc: Global, store: &mut Store) -> Result<bool, Error> {
    Ok(has_both(alloc, store)? && has_ann_anew(alloc, store)? && has_no_ann(alloc, store)?)
}

// Adds two maildrops. Whether the first name is then refused, and there are two.
fn is_taken_once(store: &mut Store) -> Result<bool, Error> {
    maildrops::add_maildrop(store, b"orders")?;
    maildrops::add_maildrop(store, b"Books")?;
    let is_refused = matches!(
        maildrops::add_maildrop(store, b"orders"),
        Err(Error::SqliteFailure(ErrorCode::ConstraintViolation(_)))
    );
    Ok(is_refused && maildrops::maildrop_count(store)? == 2)
}

// Whether the maildrops are these two, in order of arrival.
fn are_maildrops(alloc: Global, store: &mut Store) -> Result<bool, Error> {
    let all = maildrops::all_maildrops(alloc, store)?;
    Ok(
        all.len() == 2
            && all[0].as_slice() == b"orders".as_slice()
            && all[1].as_slice() == b"Books".as_slice(),
    )
}

// Drops the first maildrop. Whether it alone is gone.
fn is_dropped(store: &mut Store) -> Result<bool, Error> {
    maildrops::drop_maildrop(store, b"orders")?;
    let is_there = maildrops::has_maildrop(store, b"orders")?;
    Ok(!is_there && maildrops::has_maildrop(store, b"Books")?)
}

// Whether a name is taken once, until its maildrop is dropped.
fn has_names(alloc: Global, store: &mut Store) -> Result<bool, Error> {
    Ok(is_taken_once(store)? && are_maildrops(alloc, store)? && is_dropped(store)?)
}

fn has_octets(sheet: &Option<Sheet>, octets: &[u8]) -> bool {
    match sheet {
        Some(sheet) => sheet.octets.as_slice() == octets,
        None => false,
    }
}

// Whether a message of these two sheets was read as it was written, and both went with it.
fn are_seen(seen: &Seen, first: &[u8], second: &[u8]) -> bool {
    !seen.heads.is_empty()
        && seen.heads[0].octets == 4097
        && has_octets(&seen.before.first, first)
        && has_octets(&seen.before.second, second)
        && seen.after.first.is_none()
        && seen.after.second.is_none()
}

#[test]
fn sheets_of_any_octets(rt: HostRuntime) -> Result<(), Fail> {
    let seen = uses::sample(rt.alloc(), &[0; 4096], &[255])?;
    assert!(rt; are_seen(&seen, &[0; 4096], &[255]));
    Ok(())
}

// Adds a maildrop and a message with this text. Answers its key.
fn add_text(store: &mut Store, text: &[u8]) -> Result<i64, Error> {
    maildrops::add_maildrop(store, b"orders")?;
    let key = mail::add_message(store, b"orders", b"note", 1, 0)?;
    sheets::add_sheets(store, key, text)?;
    Ok(key)
}

// Whether a message has a sheet of 4,096 zeros and one of one octet, and there are no other sheets.
fn has_sheets(alloc: Global, store: &mut Store, key: i64) -> Result<bool, Error> {
    let first = has_octets(&sheets::find_sheet(alloc, store, key, 0)?, &[0; 4096]);
    let second = has_octets(&sheets::find_sheet(alloc, store, key, 1)?, &[255]);
    Ok(first && second && sheets::sheet_count(store)? == 2)
}

// Whether the sheets at the places from `from` on that are below `end` have these lengths.
fn has_between(
    alloc: Global,
    store: &mut Store,
    key: i64,
    from: i64,
    end: i64,
    lengths: &[usize],
) -> Result<bool, Error> {
    let found = sheets::sheets_between(alloc, store, key, from, end)?;
    let mut all = found.len() == lengths.len();
    for (sheet, length) in found.iter().zip(lengths) {
        all = all && sheet.octets.as_slice().len() == *length;
    }
    Ok(all)
}

// Whether a text of more than a sheet is kept as two, of which each part is found.
fn has_text(alloc: Global, store: &mut Store) -> Result<bool, Error> {
    let mut text = [0; 4097];
    text[4096] = 255;
    let key = add_text(store, &text)?;
    Ok(
        has_sheets(alloc, store, key)?
            && has_between(alloc, store, key, 0, 2, &[4096, 1])?
            && has_between(alloc, store, key, 1, 9, &[1])?,
    )
}

// Adds the maildrop `orders` with a count, a deposit and a message. Answers its key.
fn add_message(store: &mut Store) -> Result<i64, Error> {
    maildrops::add_maildrop(store, b"orders")?;
    counts::set_count(store, b"orders", b"note", 1)?;
    counts::set_count(store, b"orders", b"note", 2)?;
    deposits::add_deposit(store, b"orders", b"d1", b"note", 2, &[9; 32])?;
    let key = mail::add_message(store, b"orders", b"note", 2, 3)?;
    sheets::add_sheet(store, key, 0, b"a\r\n")?;
    Ok(key)
}

fn has_count(alloc: Global, store: &mut Store) -> Result<bool, Error> {
    let is_one = counts::all_counts(alloc, store)?.len() == 1;
    match counts::find_count(alloc, store, b"orders", b"note")? {
        Some(count) => Ok(is_one && count.k == 2),
        None => Ok(false),
    }
}

fn has_deposit(alloc: Global, store: &mut Store) -> Result<bool, Error> {
    let is_one = deposits::all_deposits(alloc, store)?.len() == 1;
    match deposits::find_deposit(alloc, store, b"orders", b"d1")? {
        Some(deposit) => Ok(
            is_one && deposit.k == 2 && deposit.digest.as_slice() == [9; 32].as_slice(),
        ),
        None => Ok(false),
    }
}

// Whether `orders` has `messages` messages and no other maildrop has any, with as many sheets.
fn has_mail(alloc: Global, store: &mut Store, messages: u64) -> Result<bool, Error> {
    let here = mail::message_count(store, b"orders")?;
    let there = mail::message_count(store, b"books")?;
    let all = mail::all_messages(alloc, store)?.len();
    let are_counted = here == messages && there == 0 && all as u64 == messages;
    Ok(are_counted && sheets::sheet_count(store)? == messages)
}

// Whether the last message of `orders` has this key.
fn is_last_key(alloc: Global, store: &mut Store, key: i64) -> Result<bool, Error> {
    match mail::heads(alloc, store, b"orders")?.last() {
        Some(message) => Ok(message.key == key),
        None => Ok(false),
    }
}

// Whether a maildrop with a message isn't dropped, and a removed message's sheets go with it.
fn loses_mail(alloc: Global, store: &mut Store, key: i64) -> Result<bool, Error> {
    let is_kept = maildrops::drop_maildrop(store, b"orders").is_err();
    mail::remove_message(store, key, b"orders")?;
    Ok(is_kept && has_mail(alloc, store, 0)?)
}

// Whether a message, its deposit and its count are kept until it is removed.
fn has_message(alloc: Global, store: &mut Store) -> Result<bool, Error> {
    let key = add_message(store)?;
    Ok(
        has_count(alloc, store)?
            && has_deposit(alloc, store)?
            && has_mail(alloc, store, 1)?
            && is_last_key(alloc, store, key)?
            && loses_mail(alloc, store, key)?,
    )
}

// Whether the mark is of version 2, and the only one.
fn is_marked(alloc: Global, store: &mut Store) -> Result<bool, Error> {
    let is_one = meta::all_meta_rows(alloc, store)?.len() == 1;
    match meta::find_meta_row(alloc, store, b"popbox")? {
        Some(mark) => Ok(is_one && mark.value == 2),
        None => Ok(false),
    }
}

fn add_rule(store: &mut Store, name: &[u8]) -> Result<(), Error> {
    rules::add_rule(store, name, 1, b"ann", b"orders", b"*", 7)
}

fn add_rules(alloc: Global, store: &mut Store) -> Result<(), Fail> {
    for n in 0..1000 {
        let name = format!(in alloc; "rule{n}")?;
        add_rule(store, name.as_bytes())?;
    }
    Ok(())
}

fn clear_and_roll_back(store: &mut Store) -> Result<(), Error> {
    transaction::begin(store)?;
    rules::clear_rules(store)?;
    transaction::rollback(store)
}

// Whether there are a thousand rules, in the order in which they were added.
fn are_rules(alloc: Global, store: &mut Store) -> Result<bool, Error> {
    let all = rules::all_rules(alloc, store)?;
    Ok(all.len() == 1000 && all[999].name.as_slice() == b"rule999".as_slice())
}

// Whether a thousand rules are kept in their order, and are there again after a rollback.
fn has_rules(alloc: Global, store: &mut Store) -> Result<bool, Fail> {
    let is_marked = is_marked(alloc, store)?;
    add_rules(alloc, store)?;
    let were_rules = are_rules(alloc, store)?;
    clear_and_roll_back(store)?;
    Ok(is_marked && were_rules && are_rules(alloc, store)?)
}

// What is tried of the statements, each over a store of its own.
#[derive(Clone, Copy)]
enum Part {
    Credentials,
    Names,
    Text,
    Message,
    Rules,
}

static PARTS: [(&str, Part); 5] = [
    ("credentials of both kinds", Part::Credentials),
    ("a name taken twice", Part::Names),
    ("a text as sheets", Part::Text),
    ("a message and its deposit", Part::Message),
    ("rules in order and a rollback", Part::Rules),
];

fn is_kept(alloc: Global, store: &mut Store, part: Part) -> Result<bool, Fail> {
    match part {
        Part::Credentials => Ok(has_credentials(alloc, store)?),
        Part::Names => Ok(has_names(alloc, store)?),
        Part::Text => Ok(has_text(alloc, store)?),
        Part::Message => Ok(has_message(alloc, store)?),
        Part::Rules => has_rules(alloc, store),
    }
}

// The only function that has a store to drop, which costs a proof the most.
#[test]
fn statements(rt: HostRuntime) -> Result<(), Fail> {
    for (name, part) in &PARTS {
        let mut store = new_store(rt.alloc())?;
        assert!(rt; is_kept(rt.alloc(), &mut store, *part)?, "{name}");
    }
    Ok(())
}
