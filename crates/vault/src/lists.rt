//! The lists of a store in memory: names of maildrops, their order, and totals.
ghost use Rattle.std.specs.Prelude.{◌≡◌, ◌≢◌, ◌-◌, ◌^◌, length, filter, map, min};
ghost use Rattle.std.specs.Prelude.{sum_by, true, not, is_ok, if◌then◌else◌, unwrap_or, position};
ghost use Rattle.std.specs.Prelude.{OnOk, IfOk, insert};
ghost use Rattle.creds.specs.Names.{is_name, comes_before, put_by_name, by_name};
ghost use Rattle.vault.specs.Records.{is_one_of};
ghost use Rattle.vault.specs.Changes.{kept_in, put_maildrop_answer, with_maildrop, drop_answer};
ghost use Rattle.vault.specs.Changes.{without_maildrop};
ghost use Rattle.vault.specs.Calls.{IsAnswer, put_result, seen_as, drop_result};
ghost use Rattle.vault.specs.Plain.{capped_total};

use crate::answer::Total;
use crate::fault::VaultFault;
use crate::record::Keyed;
use creds::Name;
use std::alloc::{AllocError, Global};

/// The greatest number of maildrops.
pub const MAX_MAILDROPS: usize = 1000;

/// Whether the name is among the names.
pub(crate) fn has_name(names: &[Name], name: &Name) -> bool
    ensures { result ≡ is_one_of name.now names.now }
{
    names.iter().any(|other| other == name)
}

/// Adds a maildrop's name at the end if it isn't there. Answers whether it was new, or `Full` for
/// a new one beyond 1,000.
pub(crate) fn put_name(names: &mut Vec<Name>, name: &Name) -> Result<bool, VaultFault>
    ensures answer { IsAnswer (put_result (put_maildrop_answer name.now names.old.items)) result }
    ensures in_memory { result ≢ Err VaultFault.Store }
    ensures items { names.new.items ≡ (if is_ok result then with_maildrop name.now names.old.items
        else names.old.items) }
    ensures form { is_name name.now ≡ true }
{
    // For the proof: a name has its form.
    let _ = name.as_bytes();
    if has_name(names, name) {
        return Ok(false);
    }
    if names.len() >= MAX_MAILDROPS {
        return Err(VaultFault::Full);
    }
    names.push(*name)?;
    Ok(true)
}

/// Drops a maildrop's name. Answers `NoMaildrop` if it isn't there, else `NotEmpty` if a
/// message lies in the maildrop.
pub(crate) fn drop_name(
    names: &mut Vec<Name>,
    messages: &[Keyed],
    name: &Name,
) -> Result<(), VaultFault>
    ensures answer { IsAnswer (drop_result (drop_answer (is_one_of name.now names.old.items)
        (length (kept_in name.now messages.now)))) result }
    ensures in_memory { result ≢ Err VaultFault.Store }
    ensures has_memory { result ≢ Err VaultFault.NoMemory }
    ensures items { names.new.items ≡ (if is_ok result then without_maildrop name.now
        names.old.items else names.old.items) }
{
    if !has_name(names, name) {
        return Err(VaultFault::NoMaildrop);
    }
    if count_in(messages, name) != 0 {
        return Err(VaultFault::NotEmpty);
    }
    names.retain(|other| other != name);
    Ok(())
}

/// Whether the first name comes before the second, in the order of their octets.
fn comes_first(first: &Name, second: &Name) -> bool
    ensures { result ≡ comes_before first.now second.now }
{
    first < second
}

/// The place of the first of the names that doesn't come before the name.
fn first_behind(names: &[Name], name: &Name) -> Option<usize>
    ensures { result ≡ position (λ x. not (comes_before x name.now)) names.now }
{
    names.iter().position(|other| !comes_first(other, name))
}

/// The place where the name belongs among sorted names.
fn place_of(names: &[Name], name: &Name) -> usize
    ensures { result ≡ unwrap_or (position (λ x. not (comes_before x name.now)) names.now)
        (length names.now) }
{
    first_behind(names, name).unwrap_or(names.len())
}

/// Puts the name in its place among sorted names.
fn put_in_order(names: &mut Vec<Name>, name: &Name) -> Result<(), AllocError>
    ensures { OnOk result (names.new.items ≡ put_by_name name.now names.old.items) }
{
    let place = place_of(names, name);
    names.insert(place, *name)?;
    Ok(())
}

/// The names, sorted by their octets. An `Err` means that memory ran out.
pub fn in_order(alloc: Global, names: &[Name]) -> Result<Vec<Name>, AllocError>
    ensures { IfOk result (λ sorted. sorted.items ≡ by_name names.now) }
{
    let mut sorted = Vec::new(alloc);
    for i in 0..names.len() {
        put_in_order(&mut sorted, &names[names.len() - 1 - i])?;
    }
    Ok(sorted)
}

/// How many messages lie in the maildrop.
pub(crate) fn count_in(messages: &[Keyed], maildrop: &Name) -> usize
    ensures { result ≡ length (kept_in maildrop.now messages.now) }
{
    messages
        .iter()
        .filter(|kept| kept.message.maildrop == *maildrop)
        .count()
}

/// The octets of the messages that lie in the maildrop, capped at 2^64 - 1.
fn octets_in(messages: &[Keyed], maildrop: &Name) -> u64
    ensures { result ≡ min (sum_by (λ x. length x.message.text) (kept_in maildrop.now messages.now))
        (2 ^ 64 - 1) }
{
    let mut octets: u64 = 0;
    for kept in messages {
        if kept.message.maildrop == *maildrop {
            octets = octets.saturating_add(kept.message.text.octets() as u64);
        }
    }
    octets
}

/// The maildrop's total, its octets capped at 2^64 - 1.
fn total_of(messages: &[Keyed], maildrop: &Name) -> Total
    ensures { result ≡ capped_total messages.now maildrop.now }
{
    Total {
        maildrop: *maildrop,
        messages: count_in(messages, maildrop) as u64,
        octets: octets_in(messages, maildrop),
    }
}

/// The total of each of these maildrops, octets capped at 2^64 - 1.
fn totals_in(alloc: Global, names: &[Name], messages: &[Keyed]) -> Result<Vec<Total>, AllocError>
    ensures { IfOk result (λ totals. totals.items ≡ map (capped_total messages.now) names.now) }
{
    names
        .iter()
        .map(|name| total_of(messages, name))
        .collect(alloc)
}

/// Every maildrop's total, sorted by name, octets capped at 2^64 - 1.
pub(crate) fn totals_of(
    alloc: Global,
    names: &[Name],
    messages: &[Keyed],
) -> Result<Vec<Total>, VaultFault>
    ensures answer { IsAnswer (Ok (map (capped_total messages.now) (by_name names.now)))
        (seen_as result (λ v. v.items)) }
    ensures in_memory { result ≢ Err VaultFault.Store }
{
    let sorted = in_order(alloc, names)?;
    Ok(totals_in(alloc, &sorted, messages)?)
}
