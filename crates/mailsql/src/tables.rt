//! Making the tables.

ghost use Rattle.std.specs.Prelude.{◌≡◌, ◌<◌, length, IfErr, OnOk, OnErr};
ghost use Rattle.sqlite.specs.Held.{state};
ghost use Rattle.sqlite.specs.State.{HasCleanDisk, Survives};
ghost use Rattle.mailsql.specs.Tables.{create_text as text_at, lacked_text, lacked_texts};
ghost use Rattle.mailsql.specs.OlderVersions.{is_first};
ghost use Rattle.mailsql.specs.Rows.{IsBegun, IsBegunOn, IsHalted, MakesTables, CompletesTables};
ghost use Rattle.mailsql.specs.Rows.{is_carried};
ghost use Rattle.mailsql.specs.Errors.{FailsToCreate, FailsToComplete};

use sqlite::{Alter, Connection, Error};

const TABLES: usize = 10;

/// A version of the layout of the tables before the newest one.
#[derive(Clone, Copy)]
pub enum OlderVersion {
    /// Version 1: one table has the messages and their texts, and there are no groups.
    First,
    /// Version 2: there are no groups.
    Second,
}

/// The text that makes table number `at`, counted from 0 in the order of making.
fn create_text(at: usize) -> &'static str
    requires { at < TABLES }
    ensures { result.now ≡ text_at at }
{
    match at {
        0 => "CREATE TABLE meta (name TEXT PRIMARY KEY, value INTEGER NOT NULL) STRICT",
        1 =>
            "CREATE TABLE clerks (name TEXT PRIMARY KEY, kind INTEGER NOT NULL, secret BLOB NOT NULL) STRICT",
        2 => "CREATE TABLE maildrops (name TEXT PRIMARY KEY) STRICT",
        3 =>
            "CREATE TABLE counts (maildrop TEXT, class TEXT, k INTEGER NOT NULL, PRIMARY KEY (maildrop, class)) STRICT",
        4 =>
            "CREATE TABLE deposits (maildrop TEXT, id TEXT, class TEXT NOT NULL, k INTEGER NOT NULL, digest BLOB NOT NULL, PRIMARY KEY (maildrop, id)) STRICT",
        5 =>
            "CREATE TABLE mail (key INTEGER PRIMARY KEY AUTOINCREMENT, maildrop TEXT NOT NULL REFERENCES maildrops, class TEXT NOT NULL, k INTEGER NOT NULL, octets INTEGER NOT NULL, UNIQUE (maildrop, class, k)) STRICT",
        6 =>
            "CREATE TABLE rules (place INTEGER PRIMARY KEY, name TEXT NOT NULL UNIQUE, effect INTEGER NOT NULL, clerk TEXT NOT NULL, maildrop TEXT NOT NULL, class TEXT NOT NULL, actions INTEGER NOT NULL) STRICT",
        7 =>
            "CREATE TABLE sheets (mail INTEGER REFERENCES mail ON DELETE CASCADE, place INTEGER, octets BLOB NOT NULL, PRIMARY KEY (mail, place)) STRICT",
        8 => "CREATE TABLE groups (place INTEGER PRIMARY KEY, name TEXT NOT NULL UNIQUE) STRICT",
        _ =>
            "CREATE TABLE members (grp INTEGER REFERENCES groups ON DELETE CASCADE, place INTEGER, clerk TEXT NOT NULL, PRIMARY KEY (grp, place), UNIQUE (grp, clerk)) STRICT",
    }
}

/// Makes the tables. Call it inside a transaction, over a store without tables. After an error the
/// transaction is still under way, or gone with all that it wrote.
pub fn create_tables<S: Alter>(conn: &mut Connection<S>) -> Result<(), Error>
    ensures ok { HasCleanDisk (state S.Store conn.new) → IsBegun (state S.Store conn.old)
        → OnOk result (MakesTables (state S.Store conn.old) (state S.Store conn.new)) }
    ensures err { HasCleanDisk (state S.Store conn.new) → IsBegun (state S.Store conn.old)
        → OnErr result (IsHalted (state S.Store conn.old) (state S.Store conn.new)) }
    ensures cause { HasCleanDisk (state S.Store conn.new) → IsBegun (state S.Store conn.old)
        → IfErr result (FailsToCreate S.Store conn.old conn.new) }
    ensures survives { Survives (state S.Store conn.old) (state S.Store conn.new)
        (λ _. ¬ IsBegun (state S.Store conn.old)) }
{
    for at in 0..TABLES {
        match conn.execute(create_text(at), &[]) {
            Ok(_) => {}
            Err(error) => return Err(error),
        }
    }
    // For the proof: while a connection is open, its database lists its tables.
    let _schema = conn.schema();
    Ok(())
}

/// How many tables a store of an older version lacks.
fn lacked(version: OlderVersion) -> usize
    ensures { result ≡ length (lacked_texts (is_first version)) }
{
    match version {
        OlderVersion::First => 4,
        OlderVersion::Second => 2,
    }
}

/// The number, among all the tables, of lacked table number `at`; both count from 0.
fn lacked_place(version: OlderVersion, at: usize) -> usize
    requires { at < length (lacked_texts (is_first version)) }
    ensures low { result < TABLES }
    ensures text { text_at result ≡ lacked_text (is_first version) at }
{
    match version {
        OlderVersion::First => match at {
            0 => 7,
            1 => 8,
            2 => 9,
            _ => 5,
        },
        OlderVersion::Second => match at {
            0 => 8,
            _ => 9,
        },
    }
}

/// Makes the tables that a store of an older version lacks: `groups` and `members`, and over
/// version 1 `sheets` and `mail` too. Call it inside a transaction, with the version that the store
/// has. The other tables stay as they are. After an error the transaction is still under way, or
/// gone with all that it wrote.
pub fn complete_tables<S: Alter>(
    conn: &mut Connection<S>,
    version: OlderVersion,
) -> Result<(), Error>
    ensures ok { HasCleanDisk (state S.Store conn.new) → IsBegunOn (state S.Store conn.old)
        → is_carried (state S.Store conn.old).now.trees ≡ is_first version
        → OnOk result (CompletesTables (state S.Store conn.old) (state S.Store conn.new)) }
    ensures err { HasCleanDisk (state S.Store conn.new) → IsBegunOn (state S.Store conn.old)
        → is_carried (state S.Store conn.old).now.trees ≡ is_first version
        → OnErr result (IsHalted (state S.Store conn.old) (state S.Store conn.new)) }
    ensures cause { HasCleanDisk (state S.Store conn.new) → IsBegunOn (state S.Store conn.old)
        → is_carried (state S.Store conn.old).now.trees ≡ is_first version
        → IfErr result (FailsToComplete S.Store (is_first version) conn.old conn.new) }
    ensures survives { Survives (state S.Store conn.old) (state S.Store conn.new)
        (λ _. IsBegunOn (state S.Store conn.old)
        → is_carried (state S.Store conn.old).now.trees ≡ is_first version → ⊥) }
{
    let count = lacked(version);
    for at in 0..count {
        match conn.execute(create_text(lacked_place(version, at)), &[]) {
            Ok(_) => {}
            Err(error) => return Err(error),
        }
    }
    // For the proof: while a connection is open, its database lists its tables.
    let _schema = conn.schema();
    Ok(())
}
