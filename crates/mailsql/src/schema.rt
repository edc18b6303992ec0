//! What the schema of a store tells: whether our tables' names are taken, and whether our columns
//! and keys are there.

ghost use Rattle.std.specs.Prelude.{◌≡◌, ◌≢◌, pos, true, false, map, bytes_eq};
ghost use Rattle.std.specs.Prelude.{option_copied};
ghost use Rattle.std.specs.List.{find, list_any};
ghost use Rattle.sqlite.specs.Held.{state};
ghost use Rattle.mailsql.specs.MetaTable.{HasMetaRows};
ghost use Rattle.mailsql.specs.Apart.{AreApart};
ghost use Rattle.mailsql.specs.Rows.{IsOurs, IsOldSchema, IsReady, rows_in};
ghost use Rattle.mailsql.specs.Tables.{no_schema, first_schema, second_schema, members_at};
ghost use Rattle.mailsql.specs.Tables.{mail_at, messages_at, sheets_at, groups_at};
ghost use Rattle.mailsql.specs.Names.{first_there, our_table, is_our_name, first_named};
ghost use Rattle.mailsql.specs.Names.{first_taken, is_taken, is_kind, is_column, are_columns};
ghost use Rattle.mailsql.specs.Names.{is_table, has_keys, are_places, has_meta_rows};
ghost use Rattle.mailsql.specs.Names.{has_first_columns, has_second_columns, has_columns};
ghost use Rattle.mailsql.specs.Names.{first_lacked, lacked_common, made, table_made};
ghost use Rattle.mailsql.specs.Names.{lacked_of_first, lacked_of_second, lacked_of_third};

use sqlite::{Alter, Connection};
use sqlite_schema::names::same_name;
use sqlite_schema::schema::{Column, Index, Kind, Schema, Table, View};

/// A table of a store. `Messages` is of version 1 alone, `Mail` and `Sheets` came with version 2,
/// `Groups` and `Members` with version 3.
#[derive(Clone, Copy, Debug, PartialEq, Eq)]
pub enum OurTable {
    Meta,
    Clerks,
    Maildrops,
    Counts,
    Deposits,
    Rules,
    Messages,
    Mail,
    Sheets,
    Groups,
    Members,
}

/// What has the name of one of our tables: a table, an index or a view.
#[derive(Clone, Copy, Debug, PartialEq, Eq)]
pub enum Taken {
    Table(OurTable),
    Index(OurTable),
    View(OurTable),
}

/// The first that is there.
fn first_there(found: &[(OurTable, bool)]) -> Option<OurTable>
    ensures { result ≡ first_there found.now }
{
    match found {
        [] => None,
        [(table, is_there), found @ ..] => {
            if *is_there {
                Some(*table)
            } else {
                first_there(found)
            }
        }
    }
}

/// Our table of this name, in ASCII letters of any case; `None` if none of ours has it.
fn our_table(name: &[u8]) -> Option<OurTable>
    ensures { result ≡ our_table name.now }
{
    first_there(&[
        (OurTable::Meta, same_name(name, b"meta")),
        (OurTable::Clerks, same_name(name, b"clerks")),
        (OurTable::Maildrops, same_name(name, b"maildrops")),
        (OurTable::Counts, same_name(name, b"counts")),
        (OurTable::Deposits, same_name(name, b"deposits")),
        (OurTable::Mail, same_name(name, b"mail")),
        (OurTable::Rules, same_name(name, b"rules")),
        (OurTable::Sheets, same_name(name, b"sheets")),
        (OurTable::Groups, same_name(name, b"groups")),
        (OurTable::Members, same_name(name, b"members")),
        (OurTable::Messages, same_name(name, b"messages")),
    ])
}

fn is_our_name(name: &[u8]) -> bool
    ensures { result ≡ is_our_name name.now }
{
    our_table(name).is_some()
}

fn table_named(tables: &[Table]) -> Option<&Table>
    ensures { option_copied result ≡ find (λ t. is_our_name t.name) tables.now }
{
    tables
        .iter()
        .find(|table| is_our_name(table.name.as_slice()))
}

fn index_named(indexes: &[Index]) -> Option<&Index>
    ensures { option_copied result ≡ find (λ i. is_our_name i.name) indexes.now }
{
    indexes
        .iter()
        .find(|index| is_our_name(index.name.as_slice()))
}

fn view_named(views: &[View]) -> Option<&View>
    ensures { option_copied result ≡ find (λ v. is_our_name v.name) views.now }
{
    views.iter().find(|view| is_our_name(view.name.as_slice()))
}

fn taken_by_table(tables: &[Table]) -> Option<OurTable>
    ensures { result ≡ first_named (λ t. t.name) tables.now }
{
    match table_named(tables) {
        Some(table) => our_table(table.name.as_slice()),
        None => None,
    }
}

fn taken_by_index(indexes: &[Index]) -> Option<OurTable>
    ensures { result ≡ first_named (λ i. i.name) indexes.now }
{
    match index_named(indexes) {
        Some(index) => our_table(index.name.as_slice()),
        None => None,
    }
}

fn taken_by_view(views: &[View]) -> Option<OurTable>
    ensures { result ≡ first_named (λ v. v.name) views.now }
{
    match view_named(views) {
        Some(view) => our_table(view.name.as_slice()),
        None => None,
    }
}

fn first_taken(schema: &Schema) -> Option<Taken>
    ensures { result ≡ first_taken schema.now }
{
    if let Some(table) = taken_by_table(schema.tables.as_slice()) {
        return Some(Taken::Table(table));
    }
    if let Some(table) = taken_by_index(schema.indexes.as_slice()) {
        return Some(Taken::Index(table));
    }
    match taken_by_view(schema.views.as_slice()) {
        Some(table) => Some(Taken::View(table)),
        None => None,
    }
}

/// The first table of the store that has one of our tables' names, in ASCII letters of any case;
/// else the first such index, else the first such view; `None` if no name of ours is taken.
pub fn taken_name<S: Alter>(conn: &Connection<S>) -> Option<Taken>
    ensures { result ≡ first_taken (state S.Store conn.now).now.schema }
{
    first_taken(conn.schema())
}

/// Whether a table, an index or a view of the store has one of our tables' names, in ASCII letters
/// of any case.
pub fn is_taken<S: Alter>(conn: &Connection<S>) -> bool
    ensures value { result ≡ is_taken (state S.Store conn.now).now.schema }
    ensures ours { IsOurs (state S.Store conn.now).now → result ≡ true }
    ensures none { (state S.Store conn.now).now.schema ≡ no_schema → result ≡ false }
    ensures old { IsOldSchema (state S.Store conn.now).now → result ≡ true }
    ensures marked { HasMetaRows (state S.Store conn.now).now → result ≡ true }
{
    taken_name(conn).is_some()
}

fn is_kind(column: &Column, kind: Kind) -> bool
    ensures { result ≡ is_kind kind column.now }
{
    match column.kind {
        Kind::Integer => matches!(kind, Kind::Integer),
        Kind::Real => matches!(kind, Kind::Real),
        Kind::Text => matches!(kind, Kind::Text),
        Kind::Blob => matches!(kind, Kind::Blob),
        Kind::Any => matches!(kind, Kind::Any),
    }
}

/// Whether the column is STRICT, has this name and this kind, and is NOT NULL if `required`.
fn is_column(column: &Column, name: &[u8], kind: Kind, required: bool) -> bool
    ensures { result ≡ is_column name.now kind required column.now }
{
    (column.name.as_slice() == name)
        & is_kind(column, kind)
        & column.is_strict
        & (!required | column.not_null)
}

fn is_named(table: &Table, name: &[u8]) -> bool
    ensures { result ≡ bytes_eq table.now.name name.now }
{
    table.name.as_slice() == name
}

/// Whether a unique key of the table is over just these columns.
fn is_unique(table: &Table, places: &[usize]) -> bool
    ensures { result ≡ list_any (λ key. are_places key places.now) table.now.uniques }
{
    table
        .uniques
        .as_slice()
        .iter()
        .any(|key| key.as_slice() == places)
}

/// Whether the table's primary key is over `primary`, and a unique key over `unique`.
fn has_keys(table: &Table, primary: &[usize], unique: &[usize]) -> bool
    ensures { result ≡ has_keys primary.now unique.now table.now }
{
    (table.primary.as_slice() == primary) & is_unique(table, unique)
}

/// A column that a CREATE TABLE of ours makes: its name, its kind, and whether it is NOT NULL.
type Made = (&'static [u8], Kind, bool);

const META: [Made; 2] = [(b"name", Kind::Text, true), (b"value", Kind::Integer, true)];

const CLERKS: [Made; 3] = [
    (b"name", Kind::Text, true),
    (b"kind", Kind::Integer, true),
    (b"secret", Kind::Blob, true),
];

const MAILDROPS: [Made; 1] = [(b"name", Kind::Text, true)];

const COUNTS: [Made; 3] = [
    (b"maildrop", Kind::Text, true),
    (b"class", Kind::Text, true),
    (b"k", Kind::Integer, true),
];

const DEPOSITS: [Made; 5] = [
    (b"maildrop", Kind::Text, true),
    (b"id", Kind::Text, true),
    (b"class", Kind::Text, true),
    (b"k", Kind::Integer, true),
    (b"digest", Kind::Blob, true),
];

const MAIL: [Made; 5] = [
    (b"key", Kind::Integer, false),
    (b"maildrop", Kind::Text, true),
    (b"class", Kind::Text, true),
    (b"k", Kind::Integer, true),
    (b"octets", Kind::Integer, true),
];

const MESSAGES: [Made; 6] = [
    (b"key", Kind::Integer, false),
    (b"maildrop", Kind::Text, true),
    (b"class", Kind::Text, true),
    (b"k", Kind::Integer, true),
    (b"octets", Kind::Integer, true),
    (b"body", Kind::Blob, true),
];

const RULES: [Made; 7] = [
    (b"place", Kind::Integer, false),
    (b"name", Kind::Text, true),
    (b"effect", Kind::Integer, true),
    (b"clerk", Kind::Text, true),
    (b"maildrop", Kind::Text, true),
    (b"class", Kind::Text, true),
    (b"actions", Kind::Integer, true),
];

const SHEETS: [Made; 3] = [
    (b"mail", Kind::Integer, true),
    (b"place", Kind::Integer, true),
    (b"octets", Kind::Blob, true),
];

const GROUPS: [Made; 2] = [
    (b"place", Kind::Integer, false),
    (b"name", Kind::Text, true),
];

const MEMBERS: [Made; 3] = [
    (b"grp", Kind::Integer, true),
    (b"place", Kind::Integer, true),
    (b"clerk", Kind::Text, true),
];

/// Whether the columns are STRICT, have the names and kinds of ours, in the same order, and are NOT
/// NULL where ours are.
fn are_columns(columns: &[Column], ours: &[Made]) -> bool
    ensures { result ≡ are_columns (map made ours.now) columns.now }
{
    match ours {
        [] => columns.is_empty(),
        [(name, kind, required), ours @ ..] => match columns {
            [] => false,
            [column, columns @ ..] => {
                is_column(column, *name, *kind, *required) & are_columns(columns, ours)
            }
        },
    }
}

/// Whether a table of this name is there, with these columns and keys.
fn has_table(
    tables: &[Table],
    name: &[u8],
    columns: &[Made],
    primary: &[usize],
    unique: &[usize],
) -> bool
    ensures { result ≡ list_any (is_table (table_made name.now columns.now primary.now unique.now))
        tables.now }
{
    tables.iter().any(|table| {
        is_named(table, name)
            & are_columns(table.columns.as_slice(), columns)
            & has_keys(table, primary, unique)
    })
}

fn has_meta(tables: &[Table]) -> bool
    ensures { result ≡ has_meta_rows tables.now }
{
    has_table(tables, b"meta", &META, &[1], &[1])
}

/// Whether the table `meta` is there, with our columns and key. A store of any version has it.
pub fn has_meta_rows<S: Alter>(conn: &Connection<S>) -> bool
    ensures value { result ≡ has_meta_rows (state S.Store conn.now).now.schema.tables }
    ensures ours { IsOurs (state S.Store conn.now).now → result ≡ true }
    ensures old { IsOldSchema (state S.Store conn.now).now → result ≡ true }
    ensures marked { HasMetaRows (state S.Store conn.now).now → result ≡ true }
{
    has_meta(conn.schema().tables.as_slice())
}

/// Whether the table of members is there, with unique keys over group and place and over group and
/// clerk.
fn has_members(tables: &[Table]) -> bool
    ensures { result ≡ list_any (is_table (members_at 19)) tables.now }
{
    tables.iter().any(|table| {
        is_named(table, b"members")
            & are_columns(table.columns.as_slice(), &MEMBERS)
            & (has_keys(table, &[1, 2], &[1, 2]) & has_keys(table, &[1, 2], &[1, 3]))
    })
}

/// The first that isn't there.
fn first_lacked(found: &[(OurTable, bool)]) -> Option<OurTable>
    ensures { result ≡ first_lacked found.now }
{
    match found {
        [] => None,
        [(table, is_there), found @ ..] => {
            if *is_there {
                first_lacked(found)
            } else {
                Some(*table)
            }
        }
    }
}

/// The first that isn't there of the tables that stores of every version have.
fn lacked_common(tables: &[Table]) -> Option<OurTable>
    ensures { result ≡ lacked_common tables.now }
{
    first_lacked(&[
        (OurTable::Meta, has_meta(tables)),
        (
            OurTable::Clerks,
            has_table(tables, b"clerks", &CLERKS, &[1], &[1]),
        ),
        (
            OurTable::Maildrops,
            has_table(tables, b"maildrops", &MAILDROPS, &[1], &[1]),
        ),
        (
            OurTable::Counts,
            has_table(tables, b"counts", &COUNTS, &[1, 2], &[1, 2]),
        ),
        (
            OurTable::Deposits,
            has_table(tables, b"deposits", &DEPOSITS, &[1, 2], &[1, 2]),
        ),
        (
            OurTable::Rules,
            has_table(tables, b"rules", &RULES, &[0], &[2]),
        ),
    ])
}

fn has_messages(tables: &[Table]) -> bool
    ensures { result ≡ list_any (is_table (messages_at 10)) tables.now }
{
    has_table(tables, b"messages", &MESSAGES, &[0], &[2, 3, 4])
}

fn has_mail(tables: &[Table]) -> bool
    ensures { result ≡ list_any (is_table (mail_at 10)) tables.now }
{
    has_table(tables, b"mail", &MAIL, &[0], &[2, 3, 4])
}

fn has_sheets(tables: &[Table]) -> bool
    ensures { result ≡ list_any (is_table (sheets_at 15)) tables.now }
{
    has_table(tables, b"sheets", &SHEETS, &[1, 2], &[1, 2])
}

fn has_groups(tables: &[Table]) -> bool
    ensures { result ≡ list_any (is_table (groups_at 17)) tables.now }
{
    has_table(tables, b"groups", &GROUPS, &[0], &[2])
}

/// The first that isn't there of the tables of version 1.
fn lacked_of_first(tables: &[Table]) -> Option<OurTable>
    ensures { result ≡ lacked_of_first tables.now }
{
    match lacked_common(tables) {
        Some(table) => Some(table),
        None => first_lacked(&[(OurTable::Messages, has_messages(tables))]),
    }
}

/// The first that isn't there of the tables of version 2.
fn lacked_of_second(tables: &[Table]) -> Option<OurTable>
    ensures { result ≡ lacked_of_second tables.now }
{
    match lacked_common(tables) {
        Some(table) => Some(table),
        None => first_lacked(&[
            (OurTable::Mail, has_mail(tables)),
            (OurTable::Sheets, has_sheets(tables)),
        ]),
    }
}

/// The first that isn't there of our tables.
fn lacked_of_third(tables: &[Table]) -> Option<OurTable>
    ensures { result ≡ lacked_of_third tables.now }
{
    match lacked_common(tables) {
        Some(table) => Some(table),
        None => first_lacked(&[
            (OurTable::Mail, has_mail(tables)),
            (OurTable::Sheets, has_sheets(tables)),
            (OurTable::Groups, has_groups(tables)),
            (OurTable::Members, has_members(tables)),
        ]),
    }
}

/// The first table that isn't there with its columns and keys, of those that stores of this version
/// have (`has_columns`, `has_second_columns`, `has_first_columns`); `None` if each is there. The
/// older versions are 1 and 2, and any other number stands for ours.
pub fn lacked_table<S: Alter>(conn: &Connection<S>, version: i64) -> Option<OurTable>
    ensures first { version ≡ pos 1
        → result ≡ lacked_of_first (state S.Store conn.now).now.schema.tables }
    ensures second { version ≡ pos 2
        → result ≡ lacked_of_second (state S.Store conn.now).now.schema.tables }
    ensures ours { version ≢ pos 1 → version ≢ pos 2
        → result ≡ lacked_of_third (state S.Store conn.now).now.schema.tables }
{
    let tables = conn.schema().tables.as_slice();
    match version {
        1 => lacked_of_first(tables),
        2 => lacked_of_second(tables),
        _ => lacked_of_third(tables),
    }
}

fn has_messages_columns(tables: &[Table]) -> bool
    ensures { result ≡ has_first_columns tables.now }
{
    lacked_of_first(tables).is_none()
}

fn has_mail_columns(tables: &[Table]) -> bool
    ensures { result ≡ has_second_columns tables.now }
{
    lacked_of_second(tables).is_none()
}

fn has_our_columns(tables: &[Table]) -> bool
    ensures { result ≡ has_columns tables.now }
{
    lacked_of_third(tables).is_none()
}

/// Whether each of our tables is there with our columns and keys: STRICT, the same names and kinds
/// in the same order, NOT NULL where ours are, the same primary key, and unique keys over the same
/// columns.
pub fn has_columns<S: Alter>(conn: &Connection<S>) -> bool
    ensures value { result ≡ has_columns (state S.Store conn.now).now.schema.tables }
    ensures ours { IsOurs (state S.Store conn.now).now → result ≡ true }
    ensures old { IsOldSchema (state S.Store conn.now).now → result ≡ false }
{
    has_our_columns(conn.schema().tables.as_slice())
}

/// Whether the tables of version 2 are there, with their columns and keys: ours but `groups` and
/// `members`.
pub fn has_second_columns<S: Alter>(conn: &Connection<S>) -> bool
    ensures value { result ≡ has_second_columns (state S.Store conn.now).now.schema.tables }
    ensures second { (state S.Store conn.now).now.schema ≡ second_schema → result ≡ true }
    ensures first { (state S.Store conn.now).now.schema ≡ first_schema → result ≡ false }
{
    has_mail_columns(conn.schema().tables.as_slice())
}

/// Whether the tables of version 1 are there, with their columns and keys: those of version 2, but
/// `messages` in place of `mail` and `sheets`.
pub fn has_first_columns<S: Alter>(conn: &Connection<S>) -> bool
    ensures value { result ≡ has_first_columns (state S.Store conn.now).now.schema.tables }
    ensures first { (state S.Store conn.now).now.schema ≡ first_schema → result ≡ true }
    ensures second { (state S.Store conn.now).now.schema ≡ second_schema → result ≡ false }
{
    has_messages_columns(conn.schema().tables.as_slice())
}

/// Does nothing. Its contract says what the tables' keys and references ensure of the rows.
pub fn keys_hold<S: Alter>(conn: &Connection<S>)
    ensures apart { IsReady (state S.Store conn.now)
        → AreApart (rows_in (state S.Store conn.now).now.trees) }
{
    // For the proof: while a connection is open, its database lists its tables.
    let _schema = conn.schema();
}
