//! Clerks of a store in memory, and their credentials.
ghost use Rattle.std.specs.Prelude.{◌≡◌, ◌≢◌, length, map, is_ok, is_some};
ghost use Rattle.std.specs.Prelude.{true, if◌then◌else◌, find, IfOk};
ghost use Rattle.creds.specs.Names.{is_name, by_name};
ghost use Rattle.vault.specs.Records.{credential_in, is_sound_credential};
ghost use Rattle.vault.specs.Changes.{put_clerk_answer, with_credential, with_clerk, without_clerk};
ghost use Rattle.vault.specs.Calls.{IsAnswer, put_result, drop_clerk_result, seen_as};
ghost use Rattle.vault.specs.Clerks.{kind_of, kind_under, clerk_kinds};

use crate::answer::{ClerkKind, CredentialKind};
use crate::fault::VaultFault;
use crate::lists::in_order;
use crate::record::Clerk;
use creds::{Credential, Name};
use std::alloc::{AllocError, Global};

/// The greatest number of clerks.
pub const MAX_CLERKS: usize = 1000;

/// The credential of the clerk of that name, if there is one.
pub(crate) fn credential_of(clerks: &[Clerk], name: &Name) -> Option<Credential>
    ensures { result ≡ credential_in name.now clerks.now }
{
    clerks
        .iter()
        .find(|clerk| clerk.name == *name)
        .map(|clerk| clerk.credential)
}

/// The kind of a credential.
fn kind_of(credential: &Credential) -> CredentialKind
    ensures { result ≡ kind_of credential.now }
{
    match credential {
        Credential::Apop(_) => CredentialKind::Apop,
        Credential::Pass(_) => CredentialKind::Pass,
    }
}

/// The clerk of that name, with the kind of the credential, if there is one.
fn kind_under(clerks: &[Clerk], name: &Name) -> Option<ClerkKind>
    ensures { result ≡ kind_under clerks.now name.now }
{
    match credential_of(clerks, name) {
        Some(credential) => Some(ClerkKind {
            clerk: *name,
            kind: kind_of(&credential),
        }),
        None => None,
    }
}

/// The clerks' names. An `Err` means that memory ran out.
fn names_of(alloc: Global, clerks: &[Clerk]) -> Result<Vec<Name>, AllocError>
    ensures { IfOk result (λ names. names.items ≡ map (λ x. x.name) clerks.now) }
{
    clerks.iter().map(|clerk| clerk.name).collect(alloc)
}

/// The clerks' names, sorted by their octets. An `Err` means that memory ran out.
fn names_in_order(alloc: Global, clerks: &[Clerk]) -> Result<Vec<Name>, AllocError>
    ensures { IfOk result (λ names. names.items ≡ by_name (map (λ x. x.name) clerks.now)) }
{
    let names = names_of(alloc, clerks)?;
    Ok(in_order(alloc, &names)?)
}

/// Every clerk with the kind of the credential, sorted by the octets of the name. An `Err` is want
/// of memory.
pub fn clerk_kinds(alloc: Global, clerks: &[Clerk]) -> Result<Vec<ClerkKind>, AllocError>
    ensures { IfOk result (λ kinds. kinds.items ≡ clerk_kinds clerks.now) }
{
    let names = names_in_order(alloc, clerks)?;
    names
        .iter()
        .filter_map(|name| kind_under(clerks, name))
        .collect(alloc)
}

/// Every clerk with the kind of the credential, as a call of a vault answers it.
pub(crate) fn list_clerks(alloc: Global, clerks: &[Clerk]) -> Result<Vec<ClerkKind>, VaultFault>
    ensures answer { IsAnswer (Ok (clerk_kinds clerks.now)) (seen_as result (λ v. v.items)) }
    ensures in_memory { result ≢ Err VaultFault.Store }
{
    Ok(clerk_kinds(alloc, clerks)?)
}

/// Gives the clerk this credential, if the clerk has that name.
fn replace_in(clerk: &mut Clerk, name: &Name, credential: &Credential)
    ensures { clerk.new ≡ with_credential name.now credential.now clerk.old }
{
    if clerk.name == *name {
        clerk.credential = *credential;
    }
}

/// Gives every clerk of that name this credential.
fn replace_credential(clerks: &mut [Clerk], name: &Name, credential: &Credential)
    ensures { clerks.new ≡ map (with_credential name.now credential.now) clerks.old }
{
    for clerk in clerks.iter_mut() {
        replace_in(clerk, name, credential);
    }
}

/// Replaces the credential of a clerk who is there; adds a new clerk at the end. Answers whether
/// the clerk was new, or `Full` for a new one beyond 1,000.
pub(crate) fn put_credential(
    clerks: &mut Vec<Clerk>,
    name: &Name,
    credential: &Credential,
) -> Result<bool, VaultFault>
    ensures answer { IsAnswer (put_result (put_clerk_answer name.now clerks.old.items)) result }
    ensures in_memory { result ≢ Err VaultFault.Store }
    ensures items { clerks.new.items ≡ (if is_ok result then with_clerk name.now credential.now
        clerks.old.items else clerks.old.items) }
    ensures form { is_name name.now ≡ true }
{
    // For the proof: a name has its form.
    let _ = name.as_bytes();
    if credential_of(clerks, name).is_some() {
        replace_credential(clerks, name, credential);
        return Ok(false);
    }
    if clerks.len() >= MAX_CLERKS {
        return Err(VaultFault::Full);
    }
    clerks.push(Clerk {
        name: *name,
        credential: *credential,
    })?;
    Ok(true)
}

/// Drops the clerk of that name, or answers `NoClerk`.
pub(crate) fn drop_credential(clerks: &mut Vec<Clerk>, name: &Name) -> Result<(), VaultFault>
    ensures answer { IsAnswer (drop_clerk_result name.now clerks.old.items) result }
    ensures in_memory { result ≢ Err VaultFault.Store }
    ensures has_memory { result ≢ Err VaultFault.NoMemory }
    ensures items { clerks.new.items ≡ (if is_ok result then without_clerk name.now clerks.old.items
        else clerks.old.items) }
{
    if credential_of(clerks, name).is_none() {
        return Err(VaultFault::NoClerk);
    }
    clerks.retain(|clerk| clerk.name != *name);
    Ok(())
}

/// For the proof: a digest has 32 octets.
fn is_whole(digest: [u8; 32])
    ensures { length digest ≡ 32 }
{
    let _ = digest;
}

/// For the proof: a credential has its form.
pub(crate) fn has_form(credential: &Credential)
    ensures { is_sound_credential credential.now ≡ true }
{
    match credential {
        Credential::Apop(secret) => {
            let _ = secret.as_bytes();
        }
        Credential::Pass(digest) => is_whole(*digest),
    }
}
