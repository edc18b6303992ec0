//! The clerks.
ghost use Rattle.std.specs.Prelude.{◌≡◌, List, [], ◌∷◌, ◌++◌, length, map, min, true, is_some};
ghost use Rattle.std.specs.Prelude.{Some, Ok, IfOk, OnOk, ⊤};
ghost use Rattle.std.specs.List.{list_all};
ghost use Rattle.sqlite.specs.Held.{state};
ghost use Rattle.sqlite.specs.State.{HasCleanDisk};
ghost use Rattle.creds.specs.Names.{is_name, by_name};
ghost use Rattle.vault.specs.declared.record.Clerk as vault;
ghost use Rattle.vault.specs.Records.{is_sound_credential, is_sound_clerk, credential_in};
ghost use Rattle.vault.specs.Changes.{Contents, put_clerk_answer};
ghost use Rattle.vault.specs.Calls.{IsAnswer, seen_as, put_result, IsClerkPut};
ghost use Rattle.vault.specs.Calls.{IsClerkDropped};
ghost use Rattle.vault.specs.Clerks.{clerk_kinds, AreClerkKinds};
ghost use Rattle.mailsql.specs.Rows as tables;
ghost use Rattle.mailsql.specs.Changes as changes;
ghost use Rattle.sqlvault.specs.Clerks.{row_name, row_of, AreClerks};
ghost use Rattle.sqlvault.specs.Keeps.{Keeps, kind_of, secret_of, clerk_row};
ghost use Rattle.sqlvault.specs.Refusals.{answer_of};
ghost use Rattle.sqlvault.specs.RowForms.{is_credential_row};
ghost use Rattle.sqlvault.specs.Frame.{IsOk, IsMet, Looks, Learns, Sees, Acts, Becomes};
ghost use Rattle.sqlvault.specs.Stands.{Holds, WasClean};
ghost use Rattle.sqlvault.specs.UnderWay.{TellsBeside};

use crate::refusal::{Refusal, unreadable};
use crate::totals::push_name;
use crate::transaction::{begin, conclude};
use creds::{Credential, Name, Secret};
use mailsql::clerks;
use mailsql::rows::Clerk;
use sqlite::{Alter, Connection, Error};
use std::alloc::Global;
use vault::{ClerkKind, VaultFault, clerk_kinds, in_order};

/// The greatest number of clerks.
pub(crate) const MAX_CLERKS: u64 = vault::MAX_CLERKS as u64;

/// The kind of a credential, as a row has it.
fn kind_of(credential: &Credential) -> i64
    ensures { result ≡ kind_of credential.now }
{
    match credential {
        Credential::Apop(_) => 1,
        Credential::Pass(_) => 2,
    }
}

/// For the proof: a digest has 32 octets.
fn is_whole(digest: [u8; 32])
    ensures { length digest ≡ 32 }
{
    let _ = digest;
}

/// The octets that a row keeps of a credential; and, for the proof, that the credential is sound.
fn secret_of(credential: &Credential) -> &[u8]
    ensures value { result.now ≡ secret_of credential.now }
    ensures form { is_sound_credential credential.now ≡ true }
{
    match credential {
        Credential::Apop(secret) => secret.as_bytes(),
        Credential::Pass(digest) => {
            is_whole(*digest);
            digest.as_slice()
        }
    }
}

/// These 32 octets, as a digest.
pub(crate) fn digest_of(octets: &[u8]) -> [u8; 32]
    requires { length octets.now ≡ 32 }
    ensures { result ≡ octets.now }
{
    let mut digest = [0; 32];
    digest.copy_from_slice(octets);
    digest
}

/// The credential of a clerk's row; `None` if the row is no clerk's.
pub(crate) fn read_credential(row: &Clerk) -> Option<Credential>
    ensures sound { is_some result ≡ is_credential_row row.now }
    ensures read { (c : vault.Clerk) → row.now ≡ clerk_row c
        → is_sound_credential c.credential ≡ true → result ≡ Some c.credential }
{
    let octets = row.secret.as_slice();
    match row.kind {
        1 => match Secret::read(octets) {
            Some(secret) => Some(Credential::Apop(secret)),
            None => None,
        },
        2 => {
            if octets.len() == 32 {
                Some(Credential::Pass(digest_of(octets)))
            } else {
                None
            }
        }
        _ => None,
    }
}

/// The credential of a clerk, if there is one of that name.
pub(crate) fn find_credential<S: Alter>(
    alloc: Global,
    conn: &mut Connection<S>,
    clerk: &Name,
) -> Result<Option<Credential>, Refusal>
    ensures sees { Sees S.Store conn.old conn.new (IsMet result)
        (λ c. IsAnswer (Ok (credential_in clerk.now c.clerks)) (answer_of result)) }
    ensures beside { TellsBeside S.Store conn.old conn.new (λ _. ⊤)
        (λ c. IsAnswer (Ok (credential_in clerk.now c.clerks)) (answer_of result)) }
{
    let Some(row) = clerks::find_clerk(alloc, conn, clerk.as_bytes())? else {
        return Ok(None);
    };
    match read_credential(&row) {
        Some(credential) => Ok(Some(credential)),
        None => Err(Refusal::Met(unreadable())),
    }
}

/// The names in the rows, in the order of the rows.
fn row_names(alloc: Global, rows: &[Clerk]) -> Result<Vec<Name>, Error>
    ensures { list_all is_name (map row_name rows.now) ≡ true
        → IfOk result (λ names. names.items ≡ map row_name rows.now) }
{
    let mut names = Vec::new(alloc);
    for row in rows {
        push_name(&mut names, &row.name)?;
    }
    Ok(names)
}

/// The names in the rows, in the order of their octets.
fn sorted_names(alloc: Global, rows: &[Clerk]) -> Result<Vec<Name>, Error>
    ensures { list_all is_name (map row_name rows.now) ≡ true
        → IfOk result (λ names. names.items ≡ by_name (map row_name rows.now)) }
{
    let names = row_names(alloc, rows)?;
    Ok(in_order(alloc, &names)?)
}

/// The names of the clerks, in the order of their octets. Nothing is changed.
///
/// An `Err` is the error that the query met.
pub(crate) fn clerk_names<S: Alter>(
    alloc: Global,
    conn: &mut Connection<S>,
) -> Result<Vec<Name>, Refusal>
    ensures done { (c : Contents) → HasCleanDisk (state S.Store conn.new)
        → Holds (state S.Store conn.old) c → AreClerks (Holds (state S.Store conn.new)) c
        (seen_as (answer_of result) (λ v. v.items)) }
    ensures looks { Looks S.Store conn.old conn.new (IsMet result) }
{
    let rows = clerks::all_clerks(alloc, conn)?;
    Ok(sorted_names(alloc, rows.as_slice())?)
}

/// The clerk of a row; `None` if the row is no clerk's.
fn read_clerk(row: &Clerk) -> Option<vault::Clerk>
    ensures { (c : vault.Clerk) → row.now ≡ clerk_row c → is_sound_clerk c ≡ true
        → result ≡ Some c }
{
    match Name::read(row.name.as_slice()) {
        Some(name) => match read_credential(row) {
            Some(credential) => Some(vault::Clerk { name, credential }),
            None => None,
        },
        None => None,
    }
}

/// Adds the clerk of a row after the others.
fn push_clerk(clerks: &mut Vec<vault::Clerk>, row: &Clerk) -> Result<(), Error>
    ensures { (c : vault.Clerk) → row.now ≡ clerk_row c → is_sound_clerk c ≡ true
        → OnOk result (clerks.new.items ≡ clerks.old.items ++ c ∷ []) }
{
    match read_clerk(row) {
        Some(clerk) => {
            clerks.extend_from_slice(&[clerk])?;
            Ok(())
        }
        None => Err(unreadable()),
    }
}

/// The clerks of the rows, in the order of the rows.
fn read_clerks(alloc: Global, rows: &[Clerk]) -> Result<Vec<vault::Clerk>, Error>
    ensures { (cs : List vault.Clerk) → rows.now ≡ map clerk_row cs
        → list_all is_sound_clerk cs ≡ true → IfOk result (λ clerks. clerks.items ≡ cs) }
{
    let mut clerks = Vec::new(alloc);
    for row in rows {
        push_clerk(&mut clerks, row)?;
    }
    Ok(clerks)
}

/// The clerks of the rows with the kinds of their credentials, in the order of the names' octets.
fn kinds_in(alloc: Global, rows: &[Clerk]) -> Result<Vec<ClerkKind>, Error>
    ensures { (cs : List vault.Clerk) → rows.now ≡ map clerk_row cs
        → list_all is_sound_clerk cs ≡ true
        → IfOk result (λ kinds. kinds.items ≡ clerk_kinds cs) }
{
    let clerks = read_clerks(alloc, rows)?;
    Ok(clerk_kinds(alloc, &clerks)?)
}

/// Every clerk with the kind of the credential, in the order of the names' octets. Nothing is
/// changed.
pub(crate) fn list_clerks<S: Alter>(
    alloc: Global,
    conn: &mut Connection<S>,
) -> Result<Vec<ClerkKind>, Refusal>
    ensures done { (c : Contents) → HasCleanDisk (state S.Store conn.new)
        → Holds (state S.Store conn.old) c → AreClerkKinds (Holds (state S.Store conn.new)) c
        (seen_as (answer_of result) (λ v. v.items)) }
    ensures looks { Looks S.Store conn.old conn.new (IsMet result) }
{
    let rows = clerks::all_clerks(alloc, conn)?;
    Ok(kinds_in(alloc, rows.as_slice())?)
}

/// Whether there is a clerk of that name.
fn has_clerk<S: Alter>(alloc: Global, conn: &mut Connection<S>, clerk: &Name) -> Result<bool, Error>
    ensures { Learns S.Store conn.old conn.new (IsOk result)
        (λ c. IfOk result (λ there. there ≡ is_some (credential_in clerk.now c.clerks))) }
{
    let found = clerks::find_clerk(alloc, conn, clerk.as_bytes())?;
    Ok(found.is_some())
}

/// How many clerks there are.
fn clerk_count<S: Alter>(conn: &mut Connection<S>) -> Result<u64, Error>
    ensures { Learns S.Store conn.old conn.new (IsOk result)
        (λ c. IfOk result (λ count. count ≡ min (length c.clerks) 9223372036854775807)) }
{
    clerks::clerk_count(conn)
}

/// Puts the clerk's row in place of the one of that name, if there is one, in a transaction of its
/// own.
fn write_clerk<S: Alter>(
    conn: &mut Connection<S>,
    clerk: &Name,
    credential: &Credential,
) -> Result<(), Refusal>
    ensures written { (c after : Contents) → HasCleanDisk (state S.Store conn.new)
        → Holds (state S.Store conn.old) c
        → ((from to : tables.Rows) → changes.PutsClerk (row_of clerk.now credential.now) from to
        → Keeps from c → Keeps to after)
        → Becomes S.Store conn.old conn.new result after c }
    ensures answer { IsAnswer (Ok tt) (answer_of result) }
    ensures name { is_name clerk.now ≡ true }
    ensures form { is_sound_credential credential.now ≡ true }
    ensures clean { WasClean (state S.Store conn.old) (state S.Store conn.new) }
{
    let name = clerk.as_bytes();
    let secret = secret_of(credential);
    begin(conn)?;
    let put = clerks::put_clerk(conn, name, kind_of(credential), secret);
    conclude(conn, put)
}

/// Whether a clerk of that name would be new.
///
/// Answers [`VaultFault::Full`] for a new name beyond 1,000.
fn judge_clerk<S: Alter>(
    alloc: Global,
    conn: &mut Connection<S>,
    clerk: &Name,
) -> Result<bool, Refusal>
    ensures judged { (c : Contents) → HasCleanDisk (state S.Store conn.new)
        → Holds (state S.Store conn.old) c
        → IsAnswer (put_result (put_clerk_answer clerk.now c.clerks)) (answer_of result) }
    ensures looks { Looks S.Store conn.old conn.new (IsMet result) }
{
    let there = has_clerk(alloc, conn, clerk)?;
    if there {
        return Ok(false);
    }
    let count = clerk_count(conn)?;
    if count >= MAX_CLERKS {
        return Err(Refusal::Answered(VaultFault::Full));
    }
    Ok(true)
}

/// Sets a clerk's credential, in place of the one that is there. Answers whether the clerk was new.
///
/// Answers [`VaultFault::Full`] for a new name beyond 1,000. After any refusal the clerks are as
/// they were.
pub(crate) fn put_clerk<S: Alter>(
    alloc: Global,
    conn: &mut Connection<S>,
    clerk: &Name,
    credential: &Credential,
) -> Result<bool, Refusal>
    ensures { Acts S.Store conn.old conn.new
        (λ c Held answered. IsClerkPut Held c clerk.now credential.now answered)
        (answer_of result) }
{
    let is_new = judge_clerk(alloc, conn, clerk)?;
    write_clerk(conn, clerk, credential)?;
    Ok(is_new)
}

/// Drops a clerk.
///
/// Answers [`VaultFault::NoClerk`] if there is none of that name. After any refusal the clerks
/// are as they were.
pub(crate) fn drop_clerk<S: Alter>(
    alloc: Global,
    conn: &mut Connection<S>,
    clerk: &Name,
) -> Result<(), Refusal>
    ensures { Acts S.Store conn.old conn.new
        (λ c Held answered. IsClerkDropped Held c clerk.now answered) (answer_of result) }
{
    let there = has_clerk(alloc, conn, clerk)?;
    if !there {
        return Err(Refusal::Answered(VaultFault::NoClerk));
    }
    Ok(clerks::drop_clerk(conn, clerk.as_bytes())?)
}
