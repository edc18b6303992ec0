//! A store that isn't adopted because a transaction is under way, and conversations that are broken
//! off.

use converse::talk_over_store::talk_over_store;
use converse::{Noted, fault_text};
use session::Removals;
use sqlite::{Connection, MemStore};
use sqlvault::SqlVault;
use std::alloc::Global;
use std::io::Write;
use std::test::Fail;
use transcripts::playing::Refusing;
use vault::{PlainVault, VaultFault};

/// The connection of a new store, with a transaction under way.
fn begun(alloc: Global) -> Result<Connection<MemStore>, Fail> {
    let mut conn = SqlVault::in_memory(alloc)?.into_connection();
    conn.execute_batch("BEGIN")?;
    Ok(conn)
}

/// Whether a store is refused with this fault, which has this name.
fn is_refused(alloc: Global, conn: Connection<MemStore>, fault: VaultFault, text: &str) -> bool {
    match SqlVault::adopt(alloc, conn) {
        Ok(_) => false,
        Err((other, _)) => other == fault && fault_text(&other) == text,
    }
}

#[test]
fn a_store_in_a_transaction_is_refused(rt: HostRuntime) -> Result<(), Fail> {
    let conn = begun(rt.alloc())?;
    assert!(rt; is_refused(rt.alloc(), conn, VaultFault::NotOurs, "NotOurs"));
    Ok(())
}

/// Whether a conversation with a reader that refuses has status 1. Its fault goes to `err`.
fn is_broken_off<W: Write>(alloc: Global, writer: &mut W, err: &mut Vec<u8>) -> bool {
    let vault = PlainVault::new(alloc);
    let removals = Removals::JudgedAtDele;
    let (mut reader, mut writer) = (Noted::new(Refusing), Noted::new(writer));
    let (status, _) = talk_over_store(
        alloc,
        vault,
        "h",
        1,
        removals,
        &mut reader,
        &mut writer,
        err,
    );
    status == 1
}

/// Whether the fault of a reader that refuses comes, and also that of a writer that refuses, which
/// is asked before the reader.
fn are_broken_off(alloc: Global) -> bool {
    let mut out = Vec::new(alloc);
    let mut err = Vec::new(alloc);
    is_broken_off(alloc, &mut out, &mut err)
        && is_broken_off(alloc, &mut Refusing, &mut err)
        && err.as_slice() == b"popbox: Read\npopbox: Write\n".as_slice()
}

#[test]
fn conversations_are_broken_off(rt: HostRuntime) -> Result<(), Fail> {
    assert!(rt; are_broken_off(rt.alloc()));
    Ok(())
}
