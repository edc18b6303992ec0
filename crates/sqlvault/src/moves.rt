//! Moving the messages of version 1 into our tables.
ghost use Rattle.std.specs.Prelude.{◌≡◌, true, OnOk};
ghost use Rattle.sqlite.specs.Held.{state};
ghost use Rattle.sqlite.specs.State.{HasCleanDisk};
ghost use Rattle.mailsql.specs.OlderVersions.{is_first};
ghost use Rattle.mailsql.specs.Rows.{is_carried};
ghost use Rattle.sqlvault.specs.Moves.{MovesBody, MovesKey, MovesEach, MovesAll, MovesOld};
ghost use Rattle.sqlvault.specs.Moves.{IsInside, IsInsideOf, IsUnmoved, HasHeads, Builds};

use crate::refusal::unreadable;
use mailsql::rows::{Body, Message};
use mailsql::schema::keys_hold;
use mailsql::tables::OlderVersion;
use mailsql::{bodies, mail, sheets};
use sqlite::{Alter, Connection, Error};
use std::alloc::Global;

/// Puts a message of version 1 into our tables, under its key, inside a transaction.
fn put_body<S: Alter>(conn: &mut Connection<S>, body: &Body) -> Result<(), Error>
    ensures { Builds S.Store conn.old conn.new IsInside (MovesBody body.now) result }
{
    let head = &body.head;
    mail::add_keyed(
        conn,
        head.key,
        head.maildrop.as_slice(),
        head.class.as_slice(),
        head.k,
        head.octets,
    )?;
    sheets::add_sheets(conn, head.key, body.body.as_slice())
}

/// Puts the message that version 1 has under a key into our tables, inside a transaction.
fn move_one<S: Alter>(alloc: Global, conn: &mut Connection<S>, key: i64) -> Result<(), Error>
    ensures { Builds S.Store conn.old conn.new (IsInsideOf true) (MovesKey key) result }
{
    match bodies::find_body(alloc, conn, key)? {
        Some(body) => put_body(conn, &body),
        None => Err(unreadable()),
    }
}

/// Puts the messages of version 1, which have these heads, into our tables, which have no message
/// yet, inside a transaction.
fn move_all<S: Alter>(
    alloc: Global,
    conn: &mut Connection<S>,
    heads: &[Message],
) -> Result<(), Error>
    ensures part { Builds S.Store conn.old conn.new (HasHeads heads.now) MovesEach result }
    ensures carried { HasCleanDisk (state S.Store conn.new)
        → HasHeads heads.now (state S.Store conn.old)
        → OnOk result (is_carried (state S.Store conn.new).now.trees ≡ true) }
{
    for head in heads {
        move_one(alloc, conn, head.key)?;
    }
    Ok(())
}

/// Moves every message of version 1 into our tables, which have no message yet, and empties the old
/// table, inside a transaction.
fn move_messages<S: Alter>(alloc: Global, conn: &mut Connection<S>) -> Result<(), Error>
    ensures { Builds S.Store conn.old conn.new (IsUnmoved true) MovesAll result }
{
    let heads = bodies::old_messages(alloc, conn)?;
    keys_hold(conn);
    move_all(alloc, conn, heads.as_slice())?;
    bodies::clear_bodies(conn)
}

/// Moves the messages of a store of version 1, inside a transaction. A store of version 2 has them
/// in our tables already.
pub(crate) fn move_old<S: Alter>(
    alloc: Global,
    conn: &mut Connection<S>,
    version: OlderVersion,
) -> Result<(), Error>
    ensures { Builds S.Store conn.old conn.new (IsUnmoved (is_first version))
        (MovesOld (is_first version)) result }
{
    match version {
        OlderVersion::First => move_messages(alloc, conn),
        OlderVersion::Second => Ok(()),
    }
}
