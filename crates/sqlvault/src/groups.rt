//! The groups of the policy.
ghost use Rattle.std.specs.Prelude.{◌≡◌, ◌≤◌, true, Some, length, map, IfOk, IfSome, IsSomeAnd};
ghost use Rattle.std.specs.List.{list_all};
ghost use Rattle.creds.specs.Names.{is_name};
ghost use Rattle.sqlite.specs.Held.{state};
ghost use Rattle.sqlite.specs.State.{HasCleanDisk};
ghost use Rattle.policy.specs.Policy.{most_members};
ghost use Rattle.mailsql.specs.Rows.{HasTables, rows_in};
ghost use Rattle.sqlvault.specs.Keeps.{member_names, group_in, groups_in};
ghost use Rattle.sqlvault.specs.Rules.{AddsMembers, AddsGroup, AddsGroups, SetsGroups};
ghost use Rattle.sqlvault.specs.Frame.{Asks, Writes};
ghost use Rattle.sqlvault.specs.Parts.{is_named_group};

use creds::Name;
use mailsql::{groups, rows};
use policy::{Group, Policy};
use sqlite::{Alter, Connection, Error};
use std::alloc::{AllocError, Global};

/// The names of the group's members, in the order of their rows; `None` if one hasn't the form
/// of a name.
fn members_of(
    alloc: Global,
    rows: &[rows::Member],
    group: i64,
) -> Result<Option<Vec<Name>>, AllocError>
    ensures names { IfOk result (λ read. IfSome read
        (λ names. names.items ≡ member_names group rows.now)) }
    ensures all { list_all is_name (member_names group rows.now) ≡ true
        → IfOk result (λ read. IsSomeAnd read (λ names. names.items
        ≡ member_names group rows.now)) }
    ensures named { IfOk result (λ read. IfSome read (λ names. list_all is_name names.items
        ≡ true)) }
{
    let mut names = Vec::new(alloc);
    for row in rows {
        if row.group == group {
            let Some(name) = Name::read(row.clerk.as_slice()) else {
                return Ok(None);
            };
            names.extend_from_slice(&[name])?;
        }
    }
    Ok(Some(names))
}

/// The group of a row, with its members; `None` if a name hasn't its form.
fn group_of(
    alloc: Global,
    row: &rows::Group,
    members: &[rows::Member],
) -> Result<Option<Group>, AllocError>
    ensures row { IfOk result (λ read. IfSome read
        (λ group. group ≡ group_in members.now row.now)) }
    ensures all { is_named_group (group_in members.now row.now) ≡ true
        → IfOk result (λ read. read ≡ Some (group_in members.now row.now)) }
    ensures named { IfOk result (λ read. IfSome read (λ group. is_named_group group ≡ true)) }
{
    let Some(name) = Name::read(row.name.as_slice()) else {
        return Ok(None);
    };
    match members_of(alloc, members, row.place)? {
        Some(members) => Ok(Some(Group::new(name, members))),
        None => Ok(None),
    }
}

/// The groups of the rows, in order, each with its members; `None` if a name hasn't its form.
fn groups_of(
    alloc: Global,
    rows: &[rows::Group],
    members: &[rows::Member],
) -> Result<Option<Vec<Group>>, AllocError>
    ensures rows { IfOk result (λ read. IfSome read
        (λ groups. groups.items ≡ map (group_in members.now) rows.now)) }
    ensures all { list_all is_named_group (map (group_in members.now) rows.now) ≡ true
        → IfOk result (λ read. IsSomeAnd read (λ groups. groups.items
        ≡ map (group_in members.now) rows.now)) }
    ensures named { IfOk result (λ read. IfSome read (λ groups. list_all is_named_group groups.items
        ≡ true)) }
{
    let mut groups = Vec::new(alloc);
    for row in rows {
        let Some(group) = group_of(alloc, row, members)? else {
            return Ok(None);
        };
        groups.push(group)?;
    }
    Ok(Some(groups))
}

/// The groups of the store, in order; `None` if a name hasn't its form.
pub(crate) fn read_groups<S: Alter>(
    alloc: Global,
    conn: &mut Connection<S>,
) -> Result<Option<Vec<Group>>, Error>
    ensures rows { HasCleanDisk (state S.Store conn.new) → HasTables (state S.Store conn.old)
        → IfOk result (λ read. IfSome read (λ groups. groups.items
        ≡ groups_in (rows_in (state S.Store conn.old).now.trees))) }
    ensures all { HasCleanDisk (state S.Store conn.new) → HasTables (state S.Store conn.old)
        → list_all is_named_group (groups_in (rows_in (state S.Store conn.old).now.trees)) ≡ true
        → IfOk result (λ read. IsSomeAnd read (λ groups. groups.items
        ≡ groups_in (rows_in (state S.Store conn.old).now.trees))) }
    ensures named { IfOk result (λ read. IfSome read (λ groups. list_all is_named_group groups.items
        ≡ true)) }
    ensures asks { Asks S.Store conn.old conn.new result }
{
    let rows = groups::all_groups(alloc, conn)?;
    let members = groups::all_members(alloc, conn)?;
    Ok(groups_of(alloc, rows.as_slice(), members.as_slice())?)
}

/// Adds members to the group at place `group`, which has none yet, inside a transaction. The first
/// member is at place 1.
fn add_members<S: Alter>(
    conn: &mut Connection<S>,
    group: i64,
    members: &[Name],
) -> Result<(), Error>
    requires { length members.now ≤ most_members }
    ensures { Writes S.Store conn.old conn.new (λ _. AddsMembers group members.now) result }
{
    let mut place: i64 = 0;
    for member in members {
        place += 1;
        groups::add_member(conn, group, place, member.as_bytes())?;
    }
    Ok(())
}

/// Adds a group with its members after the others, inside a transaction. `place` is the next free
/// place.
fn add_group<S: Alter>(conn: &mut Connection<S>, place: i64, group: &Group) -> Result<(), Error>
    requires { length group.now.members ≤ most_members }
    ensures { Writes S.Store conn.old conn.new (λ _. AddsGroup place group.now) result }
{
    groups::add_group(conn, group.name().as_bytes())?;
    add_members(conn, place, group.members())
}

/// Adds the policy's groups to a store without groups, inside a transaction.
fn add_groups<S: Alter>(conn: &mut Connection<S>, policy: &Policy) -> Result<(), Error>
    ensures { Writes S.Store conn.old conn.new (λ _. AddsGroups policy.now.groups) result }
{
    let mut place: i64 = 0;
    for group in policy.groups() {
        place += 1;
        add_group(conn, place, group)?;
    }
    Ok(())
}

/// Puts the policy's groups in place of those that are there, inside a transaction.
pub(crate) fn replace_groups<S: Alter>(
    conn: &mut Connection<S>,
    policy: &Policy,
) -> Result<(), Error>
    ensures { Writes S.Store conn.old conn.new (λ _. SetsGroups policy.now.groups) result }
{
    groups::clear_groups(conn)?;
    add_groups(conn, policy)
}
