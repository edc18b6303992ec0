//! A deposit in parts, in one open transaction.
ghost use Rattle.std.specs.Prelude.{◌≡◌, ◌≤◌, ◌%◌, ◌/◌, ◌++◌, length, take, true};
ghost use Rattle.std.specs.Prelude.{Some, None, Ok, IsTrue, OnOk, bytes_eq, ◌==◌};
ghost use Rattle.creds.specs.Names.{is_name, is_deposit_id};
ghost use Rattle.creds.specs.declared.uid.Uid as uid;
ghost use Rattle.sqlite.specs.Held.{state};
ghost use Rattle.sqlite.specs.State.{HasCleanDisk};
ghost use Rattle.vault.specs.Records.{most_deposits};
ghost use Rattle.vault.specs.Changes.{Contents, receipt_for};
ghost use Rattle.vault.specs.Calls.{IsDeposited};
ghost use Rattle.mailsql.specs.Changes.{AddsRest};
ghost use Rattle.sqlvault.specs.Keeps.{row_key};
ghost use Rattle.sqlvault.specs.Arrivals.{AcceptsAny, AddsRow, PutsRest, with_put, arrival_uid};
ghost use Rattle.sqlvault.specs.Frame.{IsMet, Looks, Writes};
ghost use Rattle.sqlvault.specs.Refusals.{answer_of};
ghost use Rattle.sqlvault.specs.Stands.{Holds};
ghost use Rattle.sqlvault.specs.UnderWay.{Prepares, Finishes, IsStep, begun, under_way};
ghost use Rattle.sqlvault.specs.declared.work.Work.TheVariants as works;

use crate::deposit::{judge_new, put_receipt, receipt_for};
use crate::maildrops::has_maildrop;
use crate::refusal::Refusal;
use crate::transaction::{begin, conclude, undo};
use creds::{DepositId, Name, Uid};
use mailsql::{deposits, mail, sheets};
use mailtext::MailText;
use sha2::{Digest, Sha256};
use sqlite::{Alter, Connection, Error};
use std::alloc::Global;
use std::marker::Model;
use vault::{Deposited, MessageKey, Receipt};

/// How many octets of a text are put at once: 64 sheets.
pub(crate) const PIECE: usize = 262_144;

/// A deposit that is under way: the row of its message and its first sheets stand.
#[derive(Drop)]
pub(crate) struct Coming {
    maildrop: Name,
    class: Name,
    id: DepositId,
    k: u64,
    key: u64,
    /// How many octets the text has.
    octets: usize,
    /// The octets that were put so far; all their sheets are whole.
    put: Vec<u8>,
    /// The digest of these, so far.
    hasher: Sha256,
}

impl Model for Coming {
    ghost use Rattle.std.specs.Prelude.{◌≡◌, ◌≤◌, ◌%◌, length};
    ghost use Rattle.sha2.specs.Hashers.{Holds256};
    ghost use Rattle.vault.specs.Records.{most_deposits};
    ghost use Rattle.sqlvault.specs.Arrivals.{Arrival};

    ghost Value = { Arrival };

    ghost view = { λ a. record {
      maildrop = a.maildrop;
      class = a.class;
      id = a.id;
      k = a.k;
      key = a.key;
      octets = a.octets;
      put = a.put.items;
    } };

    ghost invariant = { λ a. (length a.put.items % 4096 ≡ 0) × (a.k ≤ most_deposits)
        × Holds256 a.hasher a.put.items };
}

impl Coming {
    /// Whether it is of these names, and of a text with this many octets.
    pub(crate) fn is_of(&self, maildrop: &Name, class: &Name, id: &DepositId, octets: usize) -> bool
        ensures { IsTrue result → (self.now.maildrop ≡ maildrop.now)
            × (self.now.class ≡ class.now) × (self.now.id ≡ id.now) × (self.now.octets ≡ octets) }
    {
        self.maildrop == *maildrop
            && self.class == *class
            && self.id == *id
            && self.octets == octets
    }

    /// Whether the text begins with the octets that are put.
    pub(crate) fn begins(&self, text: &[u8]) -> bool
        ensures { IsTrue result → take (length self.now.put) text.now ≡ self.now.put }
    {
        let put = self.put.as_slice();
        put.len() <= text.len() && &text[..put.len()] == put
    }

    /// The octets that are put.
    fn bytes(&self) -> &[u8]
        ensures { result.now ≡ self.now.put }
    {
        self.put.as_slice()
    }

    /// How many sheets stand, which are all whole.
    fn sheets(&self) -> usize
        ensures value { result ≡ length self.now.put / 4096 }
        ensures whole { length self.now.put % 4096 ≡ 0 }
    {
        self.put.len() / sheets::SHEET_OCTETS
    }

    /// The key of its message.
    fn key(&self) -> u64
        ensures { result ≡ self.now.key }
    {
        self.key
    }

    /// Whether this is the key of its message.
    pub(crate) fn has_key(&self, key: MessageKey) -> bool
        ensures { result ≡ (key == self.now.key) }
    {
        key.number() == self.key
    }

    /// Whether it is one into this maildrop.
    pub(crate) fn is_in(&self, maildrop: &Name) -> bool
        ensures { result ≡ bytes_eq self.now.maildrop maildrop.now }
    {
        self.maildrop == *maildrop
    }

    /// The unique-id that it gets.
    fn uid(&self) -> Uid
        ensures { result ≡ arrival_uid self.now }
    {
        Uid {
            class: self.class,
            k: self.k,
        }
    }

    /// Whether less than a piece is left.
    pub(crate) fn is_done(&self) -> bool {
        self.octets.saturating_sub(self.put.len()) < PIECE
    }

    /// Takes in some more octets, whose sheets are whole.
    fn take_in(&mut self, octets: &[u8]) -> Result<(), Error>
        requires { length octets.now % 4096 ≡ 0 }
        ensures { OnOk result (self.new ≡ with_put (self.old.put ++ octets.now) self.old) }
    {
        self.put.extend_from_slice(octets)?;
        self.hasher.update(octets);
        Ok(())
    }

    /// Its receipt, if this is its text.
    fn into_receipt(self, text: &[u8]) -> Receipt
        requires { length self.put ≤ length text.now }
        ensures value { take (length self.put) text.now ≡ self.put
            → result ≡ receipt_for self.maildrop self.class self.id text.now self.k }
        ensures maildrop_form { is_name self.maildrop ≡ true }
        ensures id_form { is_deposit_id self.id ≡ true }
        ensures class_form { is_name self.class ≡ true }
        ensures sized { length result.digest ≡ 32 }
        ensures within { result.k ≤ most_deposits }
    {
        let Coming {
            maildrop,
            class,
            id,
            k,
            key: _,
            octets: _,
            put,
            hasher,
        } = self;
        let mut hasher = hasher;
        hasher.update(&text[put.len()..]);
        receipt_for(&maildrop, &class, &id, k, hasher.finalize())
    }
}

/// The unique-id that a deposit with this new id would get, whatever its text is; `None` if the id
/// was used, the maildrop is missing, or it is full.
///
/// An `Err` is the error that a query met.
fn judge<S: Alter>(
    alloc: Global,
    conn: &mut Connection<S>,
    maildrop: &Name,
    class: &Name,
    id: &DepositId,
) -> Result<Option<Uid>, Refusal>
    ensures accepted { (c : Contents) (u : uid.Uid) → HasCleanDisk (state S.Store conn.new)
        → Holds (state S.Store conn.old) c → result ≡ Ok (Some u)
        → AcceptsAny c maildrop.now class.now id.now u }
    ensures looks { Looks S.Store conn.old conn.new (IsMet result) }
    ensures within { (u : uid.Uid) → result ≡ Ok (Some u) → u.k ≤ most_deposits }
    ensures step { IsStep (answer_of result) }
{
    let there = has_maildrop(conn, maildrop)?;
    if !there {
        return Ok(None);
    }
    let used = deposits::find_deposit(alloc, conn, maildrop.as_bytes(), id.as_bytes())?;
    if used.is_some() {
        return Ok(None);
    }
    match judge_new(alloc, conn, maildrop, class) {
        Ok(Deposited::New(uid)) => Ok(Some(uid)),
        Ok(Deposited::Known(_uid)) => Ok(None),
        Err(Refusal::Answered(_fault)) => Ok(None),
        Err(Refusal::Met(error)) => Err(Refusal::Met(error)),
    }
}

/// Adds the row of a message without its sheets, inside a transaction. Answers its key.
fn add_row<S: Alter>(
    conn: &mut Connection<S>,
    maildrop: &Name,
    class: &Name,
    k: u64,
    text: &MailText,
) -> Result<u64, Error>
    requires { k ≤ most_deposits }
    ensures { Writes S.Store conn.old conn.new
        (λ key. AddsRow key maildrop.now class.now k (length text.now)) result }
{
    let octets = text.octets() as i64;
    let key = mail::add_message(
        conn,
        maildrop.as_bytes(),
        class.as_bytes(),
        k as i64,
        octets,
    )?;
    Ok(key.cast_unsigned())
}

/// Begins a deposit, if its id is new and it would be accepted: adds the row of its message, in a
/// transaction that stays open. `None` if there is nothing to begin, or no memory.
///
/// Answers the error that a statement met; nothing is then under way.
pub(crate) fn start<S: Alter>(
    alloc: Global,
    conn: &mut Connection<S>,
    maildrop: &Name,
    class: &Name,
    id: &DepositId,
    text: &MailText,
) -> Result<Option<Coming>, Refusal>
    ensures prepares { Prepares S.Store conn.old conn.new None (begun result) (IsMet result) }
    ensures step { IsStep (answer_of result) }
{
    let Some(uid) = judge(alloc, conn, maildrop, class, id)? else {
        return Ok(None);
    };
    let octets = text.octets();
    let Ok(room) = Vec::with_capacity(alloc, octets) else {
        return Ok(None);
    };
    begin(conn)?;
    match add_row(conn, maildrop, class, uid.k, text) {
        Ok(key) => Ok(Some(Coming {
            maildrop: *maildrop,
            class: *class,
            id: *id,
            k: uid.k,
            key,
            octets,
            put: room,
            hasher: Sha256::new(),
        })),
        Err(error) => Err(Refusal::Met(undo(conn, error))),
    }
}

/// Adds the sheets of a text that are left, from this place on, inside a transaction.
fn add_rest<S: Alter>(
    conn: &mut Connection<S>,
    key: u64,
    text: &[u8],
    from: usize,
) -> Result<(), Error>
    ensures { Writes S.Store conn.old conn.new (λ _. AddsRest from (row_key key) text.now) result }
{
    let mail = key.cast_signed();
    sheets::add_rest(conn, mail, text, from)
}

/// Takes in some more octets, and adds their sheets, which are whole, inside a transaction.
fn put_sheets<S: Alter>(
    conn: &mut Connection<S>,
    coming: &mut Coming,
    octets: &[u8],
) -> Result<(), Error>
    requires { length octets.now % 4096 ≡ 0 }
    ensures writes { Writes S.Store conn.old conn.new (λ _. AddsRest (length coming.old.put / 4096)
        (row_key coming.old.key) (coming.old.put ++ octets.now)) result }
    ensures taken { OnOk result (coming.new ≡ with_put (coming.old.put ++ octets.now) coming.old) }
    ensures whole { length coming.old.put % 4096 ≡ 0 }
{
    let from = coming.sheets();
    let key = coming.key();
    coming.take_in(octets)?;
    add_rest(conn, key, coming.bytes(), from)
}

/// Puts the next piece of the text, [`PIECE`] octets, in the open transaction; nothing if less is
/// left.
///
/// Answers the error that a statement met; the transaction is then gone, and nothing is put.
pub(crate) fn put_piece<S: Alter>(
    conn: &mut Connection<S>,
    coming: &mut Coming,
    text: &MailText,
) -> Result<(), Refusal>
    ensures prepares { Prepares S.Store conn.old conn.new (Some (works.Deposit coming.old))
        (under_way result (works.Deposit coming.new)) (IsMet result) }
    ensures step { IsStep (answer_of result) }
{
    let bytes = text.bytes();
    let from = coming.bytes().len();
    if bytes.len().saturating_sub(from) < PIECE {
        return Ok(());
    }
    match put_sheets(conn, coming, &bytes[from..from + PIECE]) {
        Ok(()) => Ok(()),
        Err(error) => Err(Refusal::Met(undo(conn, error))),
    }
}

/// Adds the sheets that are left, from this place on, and the receipt, inside a transaction.
fn put_rest<S: Alter>(
    conn: &mut Connection<S>,
    key: u64,
    text: &[u8],
    from: usize,
    receipt: &Receipt,
) -> Result<(), Error>
    requires { receipt.now.k ≤ most_deposits }
    ensures { Writes S.Store conn.old conn.new (λ _. PutsRest from key text.now receipt.now)
        result }
{
    add_rest(conn, key, text, from)?;
    put_receipt(conn, receipt)
}

/// Puts what is left of the text, and commits the deposit.
///
/// Answers the error that a statement met; nothing is then changed.
pub(crate) fn finish<S: Alter>(
    conn: &mut Connection<S>,
    coming: Coming,
    text: &MailText,
) -> Result<Deposited, Refusal>
    requires begins { take (length coming.put) text.now ≡ coming.put }
    requires sized { coming.octets ≡ length text.now }
    ensures { Finishes S.Store conn.old conn.new (works.Deposit coming) (λ c Held answered.
        IsDeposited Held c coming.maildrop coming.class coming.id text.now answered)
        (answer_of result) }
{
    let uid = coming.uid();
    let key = coming.key();
    let from = coming.sheets();
    let receipt = coming.into_receipt(text.bytes());
    let put = put_rest(conn, key, text.bytes(), from, &receipt);
    conclude(conn, put)?;
    Ok(Deposited::New(uid))
}
