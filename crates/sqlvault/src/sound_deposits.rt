//! Whether the rows of the deposits are sound records, with counts that agree.
ghost use Rattle.std.specs.Prelude.{◌≡◌, ◌==◌, ◌&&◌, List, map, sum_by, true, false, Some, None};
ghost use Rattle.std.specs.Prelude.{IfOk, IfSome, MatchOption, if◌then◌else◌};
ghost use Rattle.std.specs.List.{list_all};
ghost use Rattle.sqlite.specs.Held.{state};
ghost use Rattle.sqlite.specs.State.{HasCleanDisk};
ghost use Rattle.creds.specs.Names.{is_name};
ghost use Rattle.mailsql.specs.Rows.{HasTables, rows_in};
ghost use Rattle.mailsql.specs.Apart.{AreApart};
ghost use Rattle.sqlvault.specs.Frame.{Asks};
ghost use Rattle.sqlvault.specs.Numbers as spec;
ghost use Rattle.sqlvault.specs.Parts.{Finds, DepositsAre};

use crate::deposit::MAX_DEPOSITS;
use creds::{DepositId, Name};
use mailsql::rows::{Count, Deposit};
use mailsql::{counts, deposits};
use sqlite::{Alter, Connection, Error};
use std::alloc::{AllocError, Global};
use std::collections::BTreeSet;

/// A deposit's maildrop name, its class, and its number in them.
type Number = (Name, Name, u64);

/// The number of a row; `None` if it is below 0.
fn natural(number: i64) -> Option<u64>
    ensures { result ≡ spec.natural_of number }
{
    if number < 0 {
        return None;
    }
    Some(number.cast_unsigned())
}

/// The number of a deposit's row; `None` if the row is no deposit's.
fn read_deposit(row: &Deposit) -> Option<Number>
    ensures { result ≡ (if spec.is_deposit_row row.now then Some (spec.number_of row.now) else
        None) }
{
    let maildrop = Name::read(row.maildrop.as_slice())?;
    let _id = DepositId::read(row.id.as_slice())?;
    let class = Name::read(row.class.as_slice())?;
    let k = natural(row.k)?;
    if k == 0 {
        return None;
    }
    if row.digest.as_slice().len() != 32 {
        return None;
    }
    Some((maildrop, class, k))
}

/// The numbers of the rows; `None` if one is no deposit's.
fn read_deposits(alloc: Global, rows: &[Deposit]) -> Result<Option<BTreeSet<Number>>, AllocError>
    ensures { IfOk result (λ read. MatchOption read (list_all spec.is_deposit_row rows.now ≡ false)
        (λ s. (list_all spec.is_deposit_row rows.now ≡ true)
        × spec.IsSetOf (map spec.number_of rows.now) s)) }
{
    let mut numbers = BTreeSet::new(alloc);
    for row in rows {
        let Some(number) = read_deposit(row) else {
            return Ok(None);
        };
        numbers.insert(number)?;
    }
    Ok(Some(numbers))
}

/// The number of a count; `None` if it is out of its range.
fn read_count(count: &Count) -> Option<u64>
    ensures { result ≡ (if spec.is_within count.now.k then Some (spec.asked count.now) else None) }
{
    let k = natural(count.k)?;
    if k > MAX_DEPOSITS {
        return None;
    }
    Some(k)
}

/// Whether the numbers 1 to `count` of the class are all there.
fn has_all(numbers: &BTreeSet<Number>, maildrop: &Name, class: &Name, count: u64) -> bool
    ensures { (ns : List spec.Number) → spec.IsSetOf ns numbers.now
        → result ≡ spec.has_all ns maildrop.now class.now count }
{
    for before in 0..count {
        if !numbers.contains(&(*maildrop, *class, before + 1)) {
            return false;
        }
    }
    true
}

/// Whether the row's names have their form, and its class has all the numbers 1 to `count`.
fn has_named(numbers: &BTreeSet<Number>, row: &Count, count: u64) -> bool
    ensures { (ns : List spec.Number) → spec.IsSetOf ns numbers.now
        → result ≡ (is_name row.now.maildrop && is_name row.now.class
        && spec.has_all ns row.now.maildrop row.now.class count) }
{
    let Some(maildrop) = Name::read(row.maildrop.as_slice()) else {
        return false;
    };
    let Some(class) = Name::read(row.class.as_slice()) else {
        return false;
    };
    has_all(numbers, &maildrop, &class, count)
}

/// The number of a count; `None` if it is out of its range or a number from 1 to it is missing.
fn filled(numbers: &BTreeSet<Number>, row: &Count) -> Option<u64>
    ensures value { (ns : List spec.Number) → spec.IsSetOf ns numbers.now
        → result ≡ (if spec.is_filled ns row.now then Some (spec.asked row.now) else None) }
    ensures asked { IfSome result (λ count. count ≡ spec.asked row.now) }
{
    let count = read_count(row)?;
    if count == 0 {
        return Some(0);
    }
    if has_named(numbers, row, count) {
        Some(count)
    } else {
        None
    }
}

/// Whether the numbers of each count are there, and their sum is the number of deposits.
fn are_filled(numbers: &BTreeSet<Number>, rows: &[Count], deposits: usize) -> bool
    ensures { (ns : List spec.Number) → spec.IsSetOf ns numbers.now
        → result ≡ (list_all (spec.is_filled ns) rows.now
        && sum_by spec.asked rows.now == deposits) }
{
    let mut left = deposits as u64;
    for row in rows {
        let Some(count) = filled(numbers, row) else {
            return false;
        };
        if count > left {
            return false;
        }
        left -= count;
    }
    left == 0
}

/// Whether each row is a deposit's, and their numbers are just those that the counts ask for.
fn are_sound(alloc: Global, rows: &[Deposit], counts: &[Count]) -> Result<bool, AllocError>
    ensures { IfOk result (λ sound. sound ≡ spec.are_sound_rows rows.now counts.now) }
{
    match read_deposits(alloc, rows)? {
        Some(numbers) => Ok(are_filled(&numbers, counts, rows.len())),
        None => Ok(false),
    }
}

/// Whether the rows of the deposits are sound: names, ids and digests have their forms, and the
/// numbers of each class under a maildrop's name are 1 to its count, 1,000,000,000 at most.
pub(crate) fn are_deposits_sound<S: Alter>(
    alloc: Global,
    conn: &mut Connection<S>,
) -> Result<bool, Error>
    ensures judged { HasCleanDisk (state S.Store conn.new) → HasTables (state S.Store conn.old)
        → AreApart (rows_in (state S.Store conn.old).now.trees)
        → IfOk result (Finds (DepositsAre (rows_in (state S.Store conn.old).now.trees))) }
    ensures asks { Asks S.Store conn.old conn.new result }
{
    let rows = deposits::all_deposits(alloc, conn)?;
    let counts = counts::all_counts(alloc, conn)?;
    Ok(are_sound(alloc, rows.as_slice(), counts.as_slice())?)
}
