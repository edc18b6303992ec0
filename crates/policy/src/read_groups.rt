//! Reading the groups of a policy's text: the groups, or their first fault.
ghost use Rattle.std.specs.Prelude.{◌≡◌, ◌≢◌, ◌≤◌, [], length, not, true, false, IfOk, IfErr};
ghost use Rattle.std.specs.Prelude.{Some};
ghost use Rattle.std.specs.Prelude.{None, Ok, Err, string_bytes};
ghost use Rattle.std.specs.List.{list_all, position};
ghost use Rattle.std.specs.BTreeMap.{keys};
ghost use Rattle.toml.specs.Data.{Members, as_array, as_table};
ghost use Rattle.toml.specs.View.{view, table_view, items_view};
ghost use Rattle.creds.specs.Names.{is_name};
ghost use Rattle.policy.specs.Policy.{are_members, are_sound_groups, has_group, is_sound_group};
ghost use Rattle.policy.specs.PolicyText.{group_at, group_of, groups_from, is_group_key};
ghost use Rattle.policy.specs.PolicyText.{are_tables, members_of, name_at, names_from};
ghost use Rattle.policy.specs.Places.{IsStray, LiesInGroup, LiesInGroups, names_before};
ghost use Rattle.policy.specs.Places.{of_names, of_members as place_in_members};

use crate::fault::PolicyFault;
use crate::group::Group;
use crate::place::{Place, PlacedFault};
use crate::policy::MAX_MEMBERS;
use crate::read::lookup;
use crate::sound::{is_group, make_members, single_before};
use creds::Name;
use std::alloc::Global;
use toml::{Table, Value};

#[tactic(auto, unfolding(crate::specs::PolicyText::is_group_key))]
fn group_key(key: &str) -> bool
    ensures { result ≡ is_group_key key.now }
{
    matches!(key, "name" | "members")
}

fn other_than_group_keys(table: &Table) -> Option<usize>
    ensures { result ≡ position (λ k. not (is_group_key (string_bytes k))) (keys table.now) }
{
    table.keys().position(|key| !group_key(key.as_str()))
}

/// The place of the first key that no group has, if there is one.
fn stray_group_key(table: &Table) -> Option<usize>
    ensures { IsStray is_group_key (table_view table.now) result }
{
    other_than_group_keys(table)
}

fn read_name(value: &Value) -> Option<Name>
    ensures { result ≡ name_at (view value.now) }
{
    Name::read(value.as_str()?.as_bytes())
}

/// The names that the values hold, or the fault of group `n`.
fn read_names(alloc: Global, n: usize, values: &[Value]) -> Result<Vec<Name>, PlacedFault>
    ensures ok { IfOk result (λ v. names_from [] (items_view values.now) ≡ Some v.items) }
    ensures fault { IfErr result (λ e. e.fault ≢ PolicyFault.NoMemory
        → (names_from [] (items_view values.now) ≡ None) × (e.fault ≡ PolicyFault.GroupMembers n)
        × (e.place ≡ Place.Member (names_before (items_view values.now)))) }
    ensures formed { IfOk result (λ v. list_all is_name v.items ≡ true) }
{
    let mut names = Vec::new(alloc);
    for (i, value) in values.iter().enumerate() {
        let name = read_name(value).ok_or(PolicyFault::GroupMembers(n).at(Place::Member(i)))?;
        if names.push(name).is_err() {
            return Err(PolicyFault::NoMemory.at(Place::Text));
        }
    }
    Ok(names)
}

/// Where names that can't be a group's members are at fault.
fn place_in_names(names: &[Name]) -> Place
    ensures { result ≡ of_names names.now }
{
    if names.is_empty() || names.len() > MAX_MEMBERS {
        return Place::Members;
    }
    Place::Again(single_before(names))
}

/// The members that the value lists, or the fault of group `n`.
fn read_members(alloc: Global, n: usize, value: &Value) -> Result<Vec<Name>, PlacedFault>
    ensures ok { IfOk result (λ v. members_of (view value.now) ≡ Some v.items) }
    ensures fault { IfErr result (λ e. e.fault ≢ PolicyFault.NoMemory
        → (members_of (view value.now) ≡ None) × (e.fault ≡ PolicyFault.GroupMembers n)
        × (e.place ≡ place_in_members (as_array (view value.now)))) }
    ensures formed { IfOk result (λ v. list_all is_name v.items ≡ true) }
    ensures members { IfOk result (λ v. are_members v.items ≡ true) }
{
    let fault = PolicyFault::GroupMembers(n);
    let values = value.as_array().ok_or(fault.at(Place::Members))?;
    let names = read_names(alloc, n, values)?;
    if !make_members(&names) {
        return Err(fault.at(place_in_names(&names)));
    }
    Ok(names)
}

#[tactic(auto, unfolding(crate::specs::PolicyText::group_of, crate::specs::Places::in_group))]
fn read_group(
    alloc: Global,
    n: usize,
    before: &[Group],
    table: &Table,
) -> Result<Group, PlacedFault>
    ensures ok { IfOk result (λ g. group_of n before.now (table_view table.now) ≡ Ok g) }
    ensures fault { IfErr result (λ e. e.fault ≢ PolicyFault.NoMemory
        → group_of n before.now (table_view table.now) ≡ Err e.fault) }
    ensures place { IfErr result (λ e. e.fault ≢ PolicyFault.NoMemory
        → LiesInGroup n (table_view table.now) e) }
    ensures sound { IfOk result (λ g. is_sound_group g ≡ true) }
    ensures own_name { IfOk result (λ g. has_group before.now g.name ≡ false) }
{
    let name = lookup(table, "name").ok_or(PolicyFault::GroupKeys(n).at(Place::Name))?;
    let members = lookup(table, "members").ok_or(PolicyFault::GroupKeys(n).at(Place::Members))?;
    if let Some(at) = stray_group_key(table) {
        return Err(PolicyFault::GroupKeys(n).at(Place::Stray(at)));
    }
    let name = read_name(name).ok_or(PolicyFault::GroupName(n).at(Place::Name))?;
    if is_group(before, &name) {
        return Err(PolicyFault::GroupDouble(n).at(Place::Name));
    }
    let members = read_members(alloc, n, members)?;
    Ok(Group::new(name, members))
}

fn read_one(alloc: Global, n: usize, before: &[Group], value: &Value) -> Result<Group, PlacedFault>
    ensures ok { IfOk result (λ g. group_at n before.now (view value.now) ≡ Ok g) }
    ensures fault { IfErr result (λ e. e.fault ≢ PolicyFault.NoMemory
        → group_at n before.now (view value.now) ≡ Err e.fault) }
    ensures place { (ms : Members) → as_table (view value.now) ≡ Some ms
        → IfErr result (λ e. e.fault ≢ PolicyFault.NoMemory → LiesInGroup n ms e) }
    ensures sound { IfOk result (λ g. is_sound_group g ≡ true) }
    ensures own_name { IfOk result (λ g. has_group before.now g.name ≡ false) }
{
    match value.as_table() {
        Some(table) => read_group(alloc, n, before, table),
        None => Err(PolicyFault::NotToml.at(Place::Groups)),
    }
}

/// The groups that the values hold, at most 100, or the first fault.
pub(crate) fn read_groups(alloc: Global, values: &[Value]) -> Result<Vec<Group>, PlacedFault>
    requires { length values.now ≤ 100 }
    ensures ok { IfOk result (λ v. groups_from 1 [] (items_view values.now) ≡ Ok v.items) }
    ensures fault { IfErr result (λ e. e.fault ≢ PolicyFault.NoMemory
        → groups_from 1 [] (items_view values.now) ≡ Err e.fault) }
    ensures place { are_tables (items_view values.now) ≡ true
        → IfErr result (λ e. e.fault ≢ PolicyFault.NoMemory
        → LiesInGroups (items_view values.now) e) }
    ensures sound { IfOk result (λ v. are_sound_groups v.items ≡ true) }
{
    let mut groups = Vec::new(alloc);
    for (i, value) in values.iter().enumerate() {
        let group = read_one(alloc, i + 1, &groups, value)?;
        if groups.push(group).is_err() {
            return Err(PolicyFault::NoMemory.at(Place::Text));
        }
    }
    Ok(groups)
}
