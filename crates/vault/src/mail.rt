//! Messages of a store in memory: their heads, their pages, and their removal.
ghost use Rattle.std.specs.Prelude.{◌≡◌, ◌≢◌, ◌==◌, ◌≤◌, length, map, take};
ghost use Rattle.std.specs.Prelude.{filter, ◌&&◌, if◌then◌else◌, IfOk};
ghost use Rattle.std.specs.Prelude.{option_copied, find};
ghost use Rattle.vault.specs.Records.{is_one_of};
ghost use Rattle.vault.specs.Changes.{head_of, kept_in, IsPage, is_named, without_keys};
ghost use Rattle.vault.specs.Calls.{IsAnswer, seen_as, text_under};

use crate::answer::Head;
use crate::fault::VaultFault;
use crate::lists::has_name;
use crate::message_key::MessageKey;
use crate::record::Keyed;
use creds::Name;
use std::alloc::{AllocError, Global};

fn head_of(kept: &Keyed) -> Head
    ensures { result ≡ head_of kept.now }
{
    Head {
        key: kept.key,
        class: kept.message.class,
        k: kept.message.k,
        octets: kept.message.text.octets() as u64,
    }
}

/// The heads of the messages that lie in the maildrop.
fn heads_in(alloc: Global, messages: &[Keyed], maildrop: &Name) -> Result<Vec<Head>, AllocError>
    ensures { IfOk result (λ heads. heads.items ≡ map head_of (kept_in maildrop.now messages.now)) }
{
    messages
        .iter()
        .filter(|kept| kept.message.maildrop == *maildrop)
        .map(|kept| head_of(kept))
        .collect(alloc)
}

/// The heads of a maildrop's messages, or `NoMaildrop` if it isn't there.
pub(crate) fn heads_of(
    alloc: Global,
    names: &[Name],
    messages: &[Keyed],
    maildrop: &Name,
) -> Result<Vec<Head>, VaultFault>
    ensures answer { IsAnswer (if is_one_of maildrop.now names.now then Ok
        (map head_of (kept_in maildrop.now messages.now)) else Err VaultFault.NoMaildrop)
        (seen_as result (λ v. v.items)) }
    ensures in_memory { result ≢ Err VaultFault.Store }
{
    if !has_name(names, maildrop) {
        return Err(VaultFault::NoMaildrop);
    }
    Ok(heads_in(alloc, messages, maildrop)?)
}

/// The message under the key.
fn message_under(messages: &[Keyed], key: MessageKey) -> Option<&Keyed>
    ensures { option_copied result ≡ find (λ x. x.key == key) messages.now }
{
    messages.iter().find(|kept| kept.key == key)
}

/// Copies octets of the message under the key, from octet `from` on, into the front of the buffer,
/// and returns how many. Under an unknown key there are none.
pub(crate) fn read_page(messages: &[Keyed], key: MessageKey, from: u64, buffer: &mut [u8]) -> usize
    ensures within { result ≤ length buffer.new }
    ensures page { IsPage (text_under key messages.now) from (length buffer.new)
        (take result buffer.new) }
{
    match message_under(messages, key) {
        Some(kept) => kept.message.text.read(from as usize, buffer),
        None => 0,
    }
}

fn is_named(keys: &[MessageKey], key: MessageKey) -> bool
    ensures { result ≡ is_named keys.now key }
{
    keys.iter().any(|other| *other == key)
}

/// Removes the maildrop's messages that have one of the keys.
pub(crate) fn remove_named(messages: &mut Vec<Keyed>, maildrop: &Name, keys: &[MessageKey])
    ensures { messages.new.items ≡ without_keys maildrop.now keys.now messages.old.items }
{
    messages.retain(|kept| !(kept.message.maildrop == *maildrop && is_named(keys, kept.key)));
}
