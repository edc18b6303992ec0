//! What a store has, for a review beside it.

use crate::copies::{is_copy, open_copy, tell_copy, tell_lost_log};
use crate::resting::{Closed, adopt, look_at, tell_closed};
use converse::{Fault, tell_fault};
use creds::Name;
use jobs::open_fault;
use policy::Policy;
use review::Kept;
use sqlite::{Connection, FileStore, Wary};
use sqlite_disk::Disk;
use sqlvault::let_go;
use std::alloc::Global;
use std::io::Write;
use vault::{Total, Vault, VaultFault};

/// What a store has: the policy in force, and the names of its clerks and maildrops.
#[derive(Drop)]
pub struct Stored {
    pub policy: Policy,
    pub kept: Kept,
}

/// Reads the store in the file at a path, which no server has open, and which stays as it is. If
/// it can't be opened or read, that is reported as by `check`, and an `Err` is the exit status.
pub fn read_store<E: Write>(
    rt: &HostRuntime,
    path: &str,
    is_verbose: bool,
    err: &mut E,
) -> Result<Stored, u8> {
    let _ = look_at(rt, path, is_verbose, err)?;
    tell_lost_log(rt, err, path);
    if is_copy(rt, path) {
        return match open_copy(rt, path) {
            Ok(conn) => read_connection(rt, conn, path, is_verbose, err),
            Err(error) => Err(tell_copy(err, is_verbose, path, &error)),
        };
    }
    let closed = match Connection::open_from(rt, path, false, Wary) {
        Ok(conn) => return read_connection(rt, conn, path, is_verbose, err),
        Err((error, _)) => Closed::Refused(open_fault(&error)),
    };
    Err(tell_closed(rt, err, is_verbose, path, &closed))
}

/// Reads the store of a connection.
fn read_connection<D: Disk + Drop, E: Write>(
    rt: &HostRuntime,
    conn: Connection<FileStore<D>>,
    path: &str,
    is_verbose: bool,
    err: &mut E,
) -> Result<Stored, u8> {
    let mut vault = match adopt(rt.alloc(), conn) {
        Ok(vault) => vault,
        Err(closed) => return Err(tell_closed(rt, err, is_verbose, path, &closed)),
    };
    let policy = vault.policy();
    let clerks = vault.clerk_names();
    let totals = vault.maildrops();
    let_go(vault.into_connection());
    match stored_of(rt.alloc(), policy, clerks, totals) {
        Ok(stored) => Ok(stored),
        Err(fault) => Err(tell_fault(err, Fault::from(fault))),
    }
}

/// The names of the maildrops.
fn maildrop_names(alloc: Global, totals: &[Total]) -> Result<Vec<Name>, VaultFault> {
    let mut names = Vec::new(alloc);
    for total in totals {
        names.push(total.maildrop)?;
    }
    Ok(names)
}

/// What was read, or the first refusal.
fn stored_of(
    alloc: Global,
    policy: Result<Policy, VaultFault>,
    clerks: Result<Vec<Name>, VaultFault>,
    totals: Result<Vec<Total>, VaultFault>,
) -> Result<Stored, VaultFault> {
    let policy = policy?;
    let clerks = clerks?;
    let totals = totals?;
    let maildrops = maildrop_names(alloc, totals.as_slice())?;
    let kept = Kept { clerks, maildrops };
    Ok(Stored { policy, kept })
}
