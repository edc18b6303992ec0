//! Why a text isn't a policy: the line that isn't TOML, or the group or rule and its key. The
//! policy's reader says which key that is; here it is worded.

use super::bad_line::tell_value;
use creds::Name;
use policy::{Place, PlacedFault, Policy, PolicyFault};
use std::alloc::Global;
use std::io::Write;
use std::{io, str};
use toml::{Table, Value};

/// Prints why octets aren't a policy; nothing if they are one.
pub fn tell_bad_policy<E: Write>(
    alloc: Global,
    err: &mut E,
    name: &str,
    octets: &[u8],
) -> io::Result<()> {
    let text = match str::from_utf8(octets) {
        Ok(text) => text,
        Err(error) => {
            let line = line_at(octets, error.valid_up_to());
            return writeln!(err, "why: {name}, line {line}: it isn't UTF-8");
        }
    };
    let Err(placed) = Policy::read_placed(alloc, text) else {
        return Ok(());
    };
    match toml::table_from_str(alloc, text) {
        Ok(table) => tell_fault_in(err, name, &table, placed),
        Err(error) => match error.span() {
            Some(span) => {
                let line = line_at(octets, span.start);
                writeln!(err, "why: {name}, line {line}: {}", error.message())
            }
            None => Ok(()),
        },
    }
}

/// The line of the octet at a place, counted from 1.
fn line_at(octets: &[u8], place: usize) -> usize {
    let before = octets.get(..place).unwrap_or(octets);
    let mut line = 1usize;
    for octet in before {
        if *octet == b'\n' {
            line = line.saturating_add(1);
        }
    }
    line
}

/// Prints a fault of a policy whose text is TOML.
fn tell_fault_in<E: Write>(
    err: &mut E,
    name: &str,
    table: &Table,
    placed: PlacedFault,
) -> io::Result<()> {
    let (list, number) = match (placed.fault.group_number(), placed.fault.rule_number()) {
        (Some(number), _) => ("group", number),
        (None, Some(0)) => {
            write!(err, "why: {name}: the key ")?;
            tell_stray(err, table, placed.place)?;
            return writeln!(
                err,
                " stands at the top, where `group` and `rule` alone may"
            );
        }
        (None, Some(number)) => ("rule", number),
        (None, None) => return tell_whole(err, name, placed),
    };
    write!(err, "why: {name}, {list} {number}")?;
    match table_at(table, list, number) {
        Some(one) => {
            tell_name(err, one, placed.place)?;
            tell_in(err, table, list, one, placed)
        }
        None => writeln!(err, ": {}", placed.fault.name()),
    }
}

/// Prints the name of a group or rule, unless it has none or the fault lies in it.
fn tell_name<E: Write>(err: &mut E, one: &Table, place: Place) -> io::Result<()> {
    let name = text_at(one, "name");
    if key_at(place) != "name" && Name::read(name.as_bytes()).is_some() {
        write!(err, " {name}")?;
    }
    write!(err, ": ")
}

/// Prints a fault of the policy as a whole.
fn tell_whole<E: Write>(err: &mut E, name: &str, placed: PlacedFault) -> io::Result<()> {
    match placed.fault {
        PolicyFault::NotToml => {
            let key = key_at(placed.place);
            writeln!(
                err,
                "why: {name}: `{key}` is no array of tables, each under [[{key}]]"
            )
        }
        PolicyFault::TooMany => writeln!(err, "why: {name}: it has more than 1,000 rules"),
        PolicyFault::TooManyGroups => writeln!(err, "why: {name}: it has more than 100 groups"),
        _ => Ok(()),
    }
}

/// The table of the group or rule of this number, counted from 1.
fn table_at<'a>(table: &'a Table, list: &str, number: usize) -> Option<&'a Table> {
    let values = table.get(list)?.as_array()?;
    values.get(number.checked_sub(1)?)?.as_table()
}

/// The key that a place is; empty if it is none by its name.
fn key_at(place: Place) -> &'static str {
    match place {
        Place::Groups => "group",
        Place::Rules => "rule",
        Place::Name => "name",
        Place::Members | Place::Member(_) | Place::Again(_) => "members",
        Place::Effect => "effect",
        Place::Clerk => "clerk",
        Place::Maildrop => "maildrop",
        Place::Class => "class",
        Place::Actions => "actions",
        Place::Text | Place::Stray(_) => "",
    }
}

/// Prints the key of a group's or a rule's table that has a fault.
fn tell_in<E: Write>(
    err: &mut E,
    table: &Table,
    list: &str,
    one: &Table,
    placed: PlacedFault,
) -> io::Result<()> {
    match placed.fault {
        PolicyFault::GroupKeys(_) | PolicyFault::MissingKey(_) | PolicyFault::UnknownKey(_) => {
            tell_keys(err, one, placed.place, list)
        }
        PolicyFault::GroupDouble(_) | PolicyFault::DoubleName(_) => {
            tell_double(err, table, list, one)
        }
        PolicyFault::GroupMembers(_) => tell_members(err, one, placed.place),
        PolicyFault::BadActions(_) => writeln!(
            err,
            "`actions` is no array of at least one of open, read and remove, each at most once"
        ),
        _ => {
            let form = form_at(placed);
            tell_of_key(err, one, key_at(placed.place), form)
        }
    }
}

/// The form that a value of this place must have, if it has this fault.
fn form_at(placed: PlacedFault) -> &'static str {
    match (placed.fault, placed.place) {
        (PolicyFault::UnknownGroup(_), _) => "and no group has this name",
        (PolicyFault::BadEffect(_), _) => "and not allow or deny",
        (PolicyFault::OpenWithClass(_), _) => "and a rule with the action open has `*`",
        (PolicyFault::GroupName(_), _) => "and not 1 to 32 of a-z, 0-9 and -",
        (_, Place::Name) => "and not 1 to 32 of a-z, 0-9 and -, other than `default`",
        (_, Place::Clerk) => "and not `*`, 1 to 32 of a-z, 0-9 and -, or `@` and such a name",
        _ => "and not `*` or 1 to 32 of a-z, 0-9 and -",
    }
}

/// Prints the key that a table lacks, and the first one that none of its kind has: it may be the
/// one that is missing, with a letter wrong.
fn tell_keys<E: Write>(err: &mut E, one: &Table, place: Place, list: &str) -> io::Result<()> {
    let is_missing = !matches!(place, Place::Stray(_));
    if is_missing {
        write!(err, "the key `{}` is missing", key_at(place))?;
    }
    let Some(at) = one.keys().position(|key| !is_key_of(list, key.as_str())) else {
        return writeln!(err);
    };
    write!(err, "{}the key ", if is_missing { ", and " } else { "" })?;
    tell_stray(err, one, Place::Stray(at))?;
    match list {
        "group" => writeln!(err, " is none of name and members"),
        _ => writeln!(
            err,
            " is none of name, effect, clerk, maildrop, class and actions"
        ),
    }
}

/// Whether a group, or a rule, has this key.
fn is_key_of(list: &str, key: &str) -> bool {
    match list {
        "group" => matches!(key, "name" | "members"),
        _ => matches!(
            key,
            "name" | "effect" | "clerk" | "maildrop" | "class" | "actions"
        ),
    }
}

/// Prints the key of this place in a table.
fn tell_stray<E: Write>(err: &mut E, table: &Table, place: Place) -> io::Result<()> {
    let Place::Stray(at) = place else {
        return Ok(());
    };
    match table.keys().nth(at) {
        Some(key) => tell_value(err, key.as_bytes()),
        None => Ok(()),
    }
}

/// Prints what is wrong with a group's members.
fn tell_members<E: Write>(err: &mut E, group: &Table, place: Place) -> io::Result<()> {
    let Some(members) = members_of(group) else {
        let form = "and not an array of 1 to 200 names";
        return tell_of_key(err, group, "members", form);
    };
    match place {
        Place::Member(at) => {
            write!(err, "a member is ")?;
            tell_item(err, members, at)?;
            writeln!(err, ", and not 1 to 32 of a-z, 0-9 and -")
        }
        Place::Again(at) => {
            write!(err, "the member ")?;
            tell_item(err, members, at)?;
            writeln!(err, " stands twice")
        }
        _ => writeln!(
            err,
            "`members` has {} items, and not 1 to 200",
            members.len()
        ),
    }
}

/// The array at the key `members`.
fn members_of(group: &Table) -> Option<&[Value]> {
    Some(group.get("members")?.as_array()?)
}

/// Prints the item of this place.
fn tell_item<E: Write>(err: &mut E, items: &[Value], at: usize) -> io::Result<()> {
    match items.get(at) {
        Some(item) => tell_setting(err, item),
        None => Ok(()),
    }
}

/// Prints which earlier group or rule has the name of this one.
fn tell_double<E: Write>(err: &mut E, table: &Table, list: &str, one: &Table) -> io::Result<()> {
    let text = text_at(one, "name");
    write!(err, "`name` is ")?;
    tell_value(err, text.as_bytes())?;
    match first_of_name(table, list, text) {
        Some(number) => writeln!(err, ", as of {list} {number}"),
        None => writeln!(err),
    }
}

/// The first group or rule of a name, counted from 1.
fn first_of_name(table: &Table, list: &str, name: &str) -> Option<usize> {
    let mut number = 0usize;
    for value in table.get(list)?.as_array()? {
        number = number.saturating_add(1);
        if value
            .as_table()
            .is_some_and(|one| text_at(one, "name") == name)
        {
            return Some(number);
        }
    }
    None
}

/// The text at a key; empty if there is none.
fn text_at<'a>(table: &'a Table, key: &str) -> &'a str {
    match table.get(key) {
        Some(value) => value.as_str().unwrap_or(""),
        None => "",
    }
}

/// Prints the value at a key of a group or rule, and the form that it must have.
fn tell_of_key<E: Write>(err: &mut E, table: &Table, key: &str, form: &str) -> io::Result<()> {
    write!(err, "`{key}` is ")?;
    if let Some(value) = table.get(key) {
        tell_setting(err, value)?;
    }
    writeln!(err, ", {form}")
}

/// Prints a value: a text itself, of any other value its type.
fn tell_setting<E: Write>(err: &mut E, value: &Value) -> io::Result<()> {
    match value {
        Value::String(text) => tell_value(err, text.as_bytes()),
        other => write!(err, "of type {}", other.type_str()),
    }
}
