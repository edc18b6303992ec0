//! Rows of an answer, read into the crate's types.

ghost use Rattle.std.specs.Prelude.{◌≡◌, ◌<◌, ℕ, pos, length, map, slice_get, IfOk, IfErr};
ghost use Rattle.std.specs.Option.{option_map};
ghost use Rattle.std.specs.List.{AllByRecursion};
ghost use Rattle.sqlite_value.specs.declared.value.Value.TheVariants.{Int};
ghost use Rattle.sqlite_value.specs.Order.{column, bytes};
ghost use Rattle.sqlite_rules.specs.Edit.{id_in};
ghost use Rattle.mailsql.specs.Rows.{HoldsOctets, HoldsNumber};
ghost use Rattle.mailsql.specs.Errors.{IsWantOfMemory};

use crate::rows::{Body, Clerk, Count, Deposit, Group, Member, Message, MetaRow, Rule, Sheet};
use sqlite::types::Type;
use sqlite::{Error, Row};
use sqlite_value::value::{Bytes, ValueRef};
use std::alloc::Global;

/// The octets of a column that holds a text or a blob; else `InvalidColumnType`.
fn octets(alloc: Global, row: &Row, at: usize) -> Result<Bytes, Error>
    ensures ok { IfOk result (λ octets. octets ≡ bytes (column row.now at)) }
    ensures memory { HoldsOctets row.now at → IfErr result IsWantOfMemory }
{
    match row.get_ref(at)? {
        ValueRef::Text(octets) => Ok(Bytes::from_slice(alloc, octets)?),
        ValueRef::Blob(octets) => Ok(Bytes::from_slice(alloc, octets)?),
        other => Err(Error::InvalidColumnType(at, Type::of(other))),
    }
}

fn number(row: &Row, at: usize) -> Result<i64, Error>
    ensures ok { IfOk result (λ number. number ≡ id_in (column row.now at)) }
    ensures memory { HoldsNumber row.now at → IfErr result IsWantOfMemory }
{
    row.get(at)
}

/// A type that a row of an answer is read into.
pub(crate) trait Stored: Sized + Drop {
    ghost use Rattle.sqlite_value.specs.Order.{Row as SqlRow};

    // `stored` is the value that the row holds; `holds` says that each column has its type.
    ghost stored: { SqlRow → Self };

    ghost holds: { SqlRow → Type 0 };

    fn read(alloc: Global, row: &Row) -> Result<Self, Error>
        ensures ok { IfOk result (λ it. it ≡ stored row.now) }
        ensures memory { holds row.now → IfErr result IsWantOfMemory };
}

impl Stored for MetaRow {
    ghost use Rattle.std.specs.Prelude.{◌∷◌};
    ghost use Rattle.sqlite_value.specs.declared.value.Value.TheVariants.{Null};
    ghost use Rattle.mailsql.specs.Rows.{meta_row_of, HoldsMetaRow};

    ghost stored = { λ row. meta_row_of (Null ∷ row) };

    ghost holds = { λ row. HoldsMetaRow (Null ∷ row) };

    fn read(alloc: Global, row: &Row) -> Result<MetaRow, Error> {
        Ok(MetaRow {
            value: number(row, 1)?,
            name: octets(alloc, row, 0)?,
        })
    }
}

impl Stored for Clerk {
    ghost use Rattle.std.specs.Prelude.{◌∷◌};
    ghost use Rattle.sqlite_value.specs.declared.value.Value.TheVariants.{Null};
    ghost use Rattle.mailsql.specs.Rows.{clerk_of, HoldsClerk};

    ghost stored = { λ row. clerk_of (Null ∷ row) };

    ghost holds = { λ row. HoldsClerk (Null ∷ row) };

    fn read(alloc: Global, row: &Row) -> Result<Clerk, Error> {
        Ok(Clerk {
            kind: number(row, 1)?,
            name: octets(alloc, row, 0)?,
            secret: octets(alloc, row, 2)?,
        })
    }
}

impl Stored for Bytes {
    ghost use Rattle.std.specs.Prelude.{◌∷◌};
    ghost use Rattle.sqlite_value.specs.declared.value.Value.TheVariants.{Null};
    ghost use Rattle.mailsql.specs.Rows.{maildrop_of, HoldsName};

    ghost stored = { λ row. maildrop_of (Null ∷ row) };

    ghost holds = { λ row. HoldsName (Null ∷ row) };

    fn read(alloc: Global, row: &Row) -> Result<Bytes, Error> {
        octets(alloc, row, 0)
    }
}

impl Stored for Count {
    ghost use Rattle.std.specs.Prelude.{◌∷◌};
    ghost use Rattle.sqlite_value.specs.declared.value.Value.TheVariants.{Null};
    ghost use Rattle.mailsql.specs.Rows.{count_of, HoldsCount};

    ghost stored = { λ row. count_of (Null ∷ row) };

    ghost holds = { λ row. HoldsCount (Null ∷ row) };

    fn read(alloc: Global, row: &Row) -> Result<Count, Error> {
        Ok(Count {
            k: number(row, 2)?,
            maildrop: octets(alloc, row, 0)?,
            class: octets(alloc, row, 1)?,
        })
    }
}

impl Stored for Deposit {
    ghost use Rattle.std.specs.Prelude.{◌∷◌};
    ghost use Rattle.sqlite_value.specs.declared.value.Value.TheVariants.{Null};
    ghost use Rattle.mailsql.specs.Rows.{deposit_of, HoldsDeposit};

    ghost stored = { λ row. deposit_of (Null ∷ row) };

    ghost holds = { λ row. HoldsDeposit (Null ∷ row) };

    fn read(alloc: Global, row: &Row) -> Result<Deposit, Error> {
        Ok(Deposit {
            k: number(row, 3)?,
            maildrop: octets(alloc, row, 0)?,
            id: octets(alloc, row, 1)?,
            class: octets(alloc, row, 2)?,
            digest: octets(alloc, row, 4)?,
        })
    }
}

impl Stored for Message {
    ghost use Rattle.std.specs.Prelude.{◌∷◌};
    ghost use Rattle.sqlite_value.specs.Order.{column};
    ghost use Rattle.mailsql.specs.Rows.{message_of, HoldsMessage};

    ghost stored = { λ row. message_of (column row 0 ∷ row) };

    ghost holds = { λ row. HoldsMessage (column row 0 ∷ row) };

    fn read(alloc: Global, row: &Row) -> Result<Message, Error> {
        Ok(Message {
            key: number(row, 0)?,
            k: number(row, 3)?,
            octets: number(row, 4)?,
            maildrop: octets(alloc, row, 1)?,
            class: octets(alloc, row, 2)?,
        })
    }
}

impl Stored for Sheet {
    ghost use Rattle.std.specs.Prelude.{◌∷◌};
    ghost use Rattle.sqlite_value.specs.declared.value.Value.TheVariants.{Null};
    ghost use Rattle.mailsql.specs.Rows.{sheet_of, HoldsSheet};

    ghost stored = { λ row. sheet_of (Null ∷ row) };

    ghost holds = { λ row. HoldsSheet (Null ∷ row) };

    fn read(alloc: Global, row: &Row) -> Result<Sheet, Error> {
        Ok(Sheet {
            mail: number(row, 0)?,
            place: number(row, 1)?,
            octets: octets(alloc, row, 2)?,
        })
    }
}

impl Stored for Rule {
    ghost use Rattle.std.specs.Prelude.{◌∷◌};
    ghost use Rattle.sqlite_value.specs.Order.{column};
    ghost use Rattle.mailsql.specs.Rows.{rule_of, HoldsRule};

    ghost stored = { λ row. rule_of (column row 0 ∷ row) };

    ghost holds = { λ row. HoldsRule (column row 0 ∷ row) };

    fn read(alloc: Global, row: &Row) -> Result<Rule, Error> {
        Ok(Rule {
            place: number(row, 0)?,
            effect: number(row, 2)?,
            actions: number(row, 6)?,
            name: octets(alloc, row, 1)?,
            clerk: octets(alloc, row, 3)?,
            maildrop: octets(alloc, row, 4)?,
            class: octets(alloc, row, 5)?,
        })
    }
}

impl Stored for Group {
    ghost use Rattle.std.specs.Prelude.{◌∷◌};
    ghost use Rattle.sqlite_value.specs.Order.{column};
    ghost use Rattle.mailsql.specs.Rows.{group_of, HoldsGroup};

    ghost stored = { λ row. group_of (column row 0 ∷ row) };

    ghost holds = { λ row. HoldsGroup (column row 0 ∷ row) };

    fn read(alloc: Global, row: &Row) -> Result<Group, Error> {
        Ok(Group {
            place: number(row, 0)?,
            name: octets(alloc, row, 1)?,
        })
    }
}

impl Stored for Member {
    ghost use Rattle.std.specs.Prelude.{◌∷◌};
    ghost use Rattle.sqlite_value.specs.declared.value.Value.TheVariants.{Null};
    ghost use Rattle.mailsql.specs.Rows.{member_of, HoldsMember};

    ghost stored = { λ row. member_of (Null ∷ row) };

    ghost holds = { λ row. HoldsMember (Null ∷ row) };

    fn read(alloc: Global, row: &Row) -> Result<Member, Error> {
        Ok(Member {
            group: number(row, 0)?,
            place: number(row, 1)?,
            clerk: octets(alloc, row, 2)?,
        })
    }
}

impl Stored for Body {
    ghost use Rattle.std.specs.Prelude.{◌∷◌};
    ghost use Rattle.sqlite_value.specs.Order.{column};
    ghost use Rattle.mailsql.specs.Rows.{body_of, HoldsBody};

    ghost stored = { λ row. body_of (column row 0 ∷ row) };

    ghost holds = { λ row. HoldsBody (column row 0 ∷ row) };

    fn read(alloc: Global, row: &Row) -> Result<Body, Error> {
        Ok(Body {
            head: Message::read(alloc, row)?,
            body: octets(alloc, row, 5)?,
        })
    }
}

/// Every row of the answer, read.
pub(crate) fn read_all<T: Stored>(alloc: Global, rows: &[Row]) -> Result<Vec<T>, Error>
    ensures ok { IfOk result (λ all. all.items ≡ map T.stored rows.now) }
    ensures memory { AllByRecursion T.holds rows.now → IfErr result IsWantOfMemory }
{
    let mut all = Vec::new(alloc);
    for row in rows {
        all.push(T::read(alloc, row)?)?;
    }
    Ok(all)
}

/// The first row of the answer, read; `None` if the answer has no row.
pub(crate) fn read_first<T: Stored>(alloc: Global, rows: &[Row]) -> Result<Option<T>, Error>
    ensures ok { IfOk result (λ first. first ≡ option_map T.stored (slice_get rows.now 0)) }
    ensures memory { AllByRecursion T.holds rows.now → IfErr result IsWantOfMemory }
{
    match rows.first() {
        Some(row) => Ok(Some(T::read(alloc, row)?)),
        None => Ok(None),
    }
}

/// The number in the row that a `count(*)` answers.
pub(crate) fn read_count(row: &Row) -> Result<u64, Error>
    ensures ok { IfOk result (λ count. (0 < length row.now)
        × (column row.now 0 ≡ Int (pos count))) }
    ensures memory { (count : ℕ) → column row.now 0 ≡ Int (pos count)
        → IfErr result IsWantOfMemory }
{
    row.get(0)
}
