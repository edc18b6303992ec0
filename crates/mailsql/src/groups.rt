//! The groups of clerks that the policy names, and their members, both in the order of places.

ghost use Rattle.std.specs.Prelude.{◌≡◌, filter, IfOk, IfErr, OnOk, OnErr, [], ◌∷◌};
ghost use Rattle.sqlite.specs.Held.{state};
ghost use Rattle.sqlite.specs.State.{HasCleanDisk, IsUnchanged, Survives};
ghost use Rattle.mailsql.specs.Changes as changes;
ghost use Rattle.mailsql.specs.Rows as rows;
ghost use Rattle.mailsql.specs.Rows.{IsOurs, IsReady, HasTables, MayLeave, Changes, IsUndone};
ghost use Rattle.mailsql.specs.Rows.{rows_in};
ghost use Rattle.sqlite_value.specs.declared.value.Value.TheVariants.{Int, Text};
ghost use Rattle.mailsql.specs.Errors.{FailsToRun, FailsToRead};
ghost use Rattle.mailsql.specs.Statements.{add_group_text, clear_groups_text, all_groups_text};
ghost use Rattle.mailsql.specs.Statements.{add_member_text, members_text, all_members_text};

use crate::decode::read_all;
use crate::rows::{Group, Member};
use crate::run::{list, run};
use sqlite::{Alter, Connection, Error};
use sqlite_value::value::ValueRef;
use std::alloc::Global;

/// Adds a group without members, at the place above the last one's, or at 1. The table refuses a
/// name that is there.
pub fn add_group<S: Alter>(conn: &mut Connection<S>, name: &[u8]) -> Result<(), Error>
    ensures ok { HasCleanDisk (state S.Store conn.new) → IsReady (state S.Store conn.old)
        → OnOk result (Changes (changes.AddsGroup name.now) (state S.Store conn.old)
        (state S.Store conn.new)) }
    ensures err { HasCleanDisk (state S.Store conn.new)
        → OnErr result (IsUndone (state S.Store conn.old) (state S.Store conn.new)) }
    ensures cause { HasCleanDisk (state S.Store conn.new)
        → IfErr result (FailsToRun add_group_text (Text name.now ∷ []) (state S.Store conn.old)
        (state S.Store conn.new)) }
    ensures survives { Survives (state S.Store conn.old) (state S.Store conn.new)
        (MayLeave (changes.AddsGroup name.now) (state S.Store conn.old)) }
{
    run(
        conn,
        "INSERT INTO groups (name) VALUES (?1)",
        &[ValueRef::Text(name)],
    )
}

/// Adds a clerk's name to a group, at this place. The tables refuse a group that isn't there, and a
/// place or a name that the group has.
pub fn add_member<S: Alter>(
    conn: &mut Connection<S>,
    group: i64,
    place: i64,
    clerk: &[u8],
) -> Result<(), Error>
    ensures ok { HasCleanDisk (state S.Store conn.new) → IsReady (state S.Store conn.old)
        → OnOk result (Changes (changes.AddsMember
        (record { group = group; place = place; clerk = clerk.now })) (state S.Store conn.old)
        (state S.Store conn.new)) }
    ensures err { HasCleanDisk (state S.Store conn.new)
        → OnErr result (IsUndone (state S.Store conn.old) (state S.Store conn.new)) }
    ensures cause { HasCleanDisk (state S.Store conn.new)
        → IfErr result (FailsToRun add_member_text (Int group ∷ Int place ∷ Text clerk.now ∷ [])
        (state S.Store conn.old) (state S.Store conn.new)) }
    ensures survives { Survives (state S.Store conn.old) (state S.Store conn.new)
        (MayLeave (changes.AddsMember (record { group = group; place = place; clerk = clerk.now }))
        (state S.Store conn.old)) }
{
    run(
        conn,
        "INSERT INTO members (grp, place, clerk) VALUES (?1, ?2, ?3)",
        &[
            ValueRef::Int(group),
            ValueRef::Int(place),
            ValueRef::Text(clerk),
        ],
    )
}

/// Removes every group with its members.
pub fn clear_groups<S: Alter>(conn: &mut Connection<S>) -> Result<(), Error>
    ensures ok { HasCleanDisk (state S.Store conn.new) → IsReady (state S.Store conn.old)
        → OnOk result (Changes changes.ClearsGroups (state S.Store conn.old)
        (state S.Store conn.new)) }
    ensures err { HasCleanDisk (state S.Store conn.new)
        → OnErr result (IsUndone (state S.Store conn.old) (state S.Store conn.new)) }
    ensures cause { HasCleanDisk (state S.Store conn.new)
        → IfErr result (FailsToRun clear_groups_text [] (state S.Store conn.old)
        (state S.Store conn.new)) }
    ensures survives { Survives (state S.Store conn.old) (state S.Store conn.new)
        (MayLeave changes.ClearsGroups (state S.Store conn.old)) }
{
    run(conn, "DELETE FROM groups", &[])
}

/// Every group, in the order of places.
pub fn all_groups<S: Alter>(alloc: Global, conn: &mut Connection<S>) -> Result<Vec<Group>, Error>
    ensures ok { HasCleanDisk (state S.Store conn.new) → HasTables (state S.Store conn.old)
        → IfOk result (λ all. all.items ≡ (rows_in (state S.Store conn.old).now.trees).groups) }
    ensures same { HasCleanDisk (state S.Store conn.new) → HasTables (state S.Store conn.old)
        → OnOk result (IsUnchanged (state S.Store conn.old) (state S.Store conn.new)) }
    ensures err { HasCleanDisk (state S.Store conn.new) → HasTables (state S.Store conn.old)
        → OnErr result (IsUndone (state S.Store conn.old) (state S.Store conn.new)) }
    ensures cause { HasCleanDisk (state S.Store conn.new) → HasTables (state S.Store conn.old)
        → IfErr result (FailsToRead all_groups_text [] (state S.Store conn.old)
        (state S.Store conn.new)) }
    ensures survives { Survives (state S.Store conn.old) (state S.Store conn.new)
        (λ _. ¬ IsOurs (state S.Store conn.old).now) }
{
    list(
        alloc,
        conn,
        "SELECT place, name FROM groups ORDER BY place",
        &[],
    )
}

/// The members of the group, in the order of places.
pub fn members<S: Alter>(
    alloc: Global,
    conn: &mut Connection<S>,
    group: i64,
) -> Result<Vec<Member>, Error>
    ensures ok { HasCleanDisk (state S.Store conn.new) → HasTables (state S.Store conn.old)
        → IfOk result (λ all. rows.IsByPlace (filter (rows.is_member_of group)
        (rows_in (state S.Store conn.old).now.trees).members) all.items) }
    ensures same { HasCleanDisk (state S.Store conn.new) → HasTables (state S.Store conn.old)
        → OnOk result (IsUnchanged (state S.Store conn.old) (state S.Store conn.new)) }
    ensures err { HasCleanDisk (state S.Store conn.new) → HasTables (state S.Store conn.old)
        → OnErr result (IsUndone (state S.Store conn.old) (state S.Store conn.new)) }
    ensures cause { HasCleanDisk (state S.Store conn.new) → HasTables (state S.Store conn.old)
        → IfErr result (FailsToRead members_text (Int group ∷ []) (state S.Store conn.old)
        (state S.Store conn.new)) }
    ensures survives { Survives (state S.Store conn.old) (state S.Store conn.new)
        (λ _. ¬ IsOurs (state S.Store conn.old).now) }
{
    // For the proof: while a connection is open, its database lists its tables.
    let _schema = conn.schema();
    match conn.query_all(
        "SELECT grp, place, clerk FROM members WHERE grp = ?1 ORDER BY place",
        &[ValueRef::Int(group)],
    ) {
        Ok(rows) => read_all(alloc, rows.as_slice()),
        Err(error) => Err(error),
    }
}

/// Every member of every group, in the order of adding.
pub fn all_members<S: Alter>(alloc: Global, conn: &mut Connection<S>) -> Result<Vec<Member>, Error>
    ensures ok { HasCleanDisk (state S.Store conn.new) → HasTables (state S.Store conn.old)
        → IfOk result (λ all. all.items ≡ (rows_in (state S.Store conn.old).now.trees).members) }
    ensures same { HasCleanDisk (state S.Store conn.new) → HasTables (state S.Store conn.old)
        → OnOk result (IsUnchanged (state S.Store conn.old) (state S.Store conn.new)) }
    ensures err { HasCleanDisk (state S.Store conn.new) → HasTables (state S.Store conn.old)
        → OnErr result (IsUndone (state S.Store conn.old) (state S.Store conn.new)) }
    ensures cause { HasCleanDisk (state S.Store conn.new) → HasTables (state S.Store conn.old)
        → IfErr result (FailsToRead all_members_text [] (state S.Store conn.old)
        (state S.Store conn.new)) }
    ensures survives { Survives (state S.Store conn.old) (state S.Store conn.new)
        (λ _. ¬ IsOurs (state S.Store conn.old).now) }
{
    list(
        alloc,
        conn,
        "SELECT grp, place, clerk FROM members ORDER BY rowid",
        &[],
    )
}
