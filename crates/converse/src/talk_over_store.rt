//! `popbox talk`: one conversation over a store.

ghost use Rattle.std.specs.Prelude.{◌≡◌, ◌≤◌, false};
ghost use Rattle.creds.specs.Names.{is_host};
ghost use Rattle.converse.specs.Printed.{PrintsPart};
ghost use Rattle.converse.specs.Runs.{StillHolds, opened_on};
ghost use Rattle.converse.specs.TalksOver.{TalksInOffice, TalksOverStore};
ghost use Rattle.converse.specs.Told.{fault_line};

use crate::fault::{Fault, tell_fault};
use crate::replay::open_office;
use crate::streams::{Sink, Source};
use crate::talk;
use office::Office;
use session::Removals;
use std::alloc::Global;
use std::io::Write;
use vault::Vault;

/// Opens an office over the vault, and has one conversation in it: `reader` gives the client's
/// octets, `writer` takes the replies. `removals` says when a denied removal is refused.
///
/// Gives the exit status, 0 or 1, and the vault as the conversation left it. At a fault the status
/// is 1, and `err` gets its text. If the host is bad nothing is read or written.
pub fn talk_over_store<V: Vault, R: Source, W: Sink, E: Write>(
    alloc: Global,
    vault: V,
    host: &str,
    boot: u64,
    removals: Removals,
    reader: &mut R,
    writer: &mut W,
    err: &mut E,
) -> (u8, V)
    ensures status { result.0 ≤ 1 }
    ensures silent { result.0 ≡ 0 → err.new ≡ err.old }
    ensures bad_host { is_host host.now ≡ false → (result.0 ≡ 1) × (reader.new ≡ reader.old)
        × (writer.new ≡ writer.old) × StillHolds V.holds V.is_clean vault result.1 }
    ensures talked { TalksOverStore V.Vault R.Source W.Sink vault result.1 reader.old reader.new
        writer.old writer.new (λ T. opened_on T host.now boot removals) result.0 }
    ensures host_told { is_host host.now ≡ false
        → PrintsPart (E.contents err.old) (E.contents err.new) (fault_line Fault.BadHost) }
{
    let mut office = match open_office(alloc, vault, host, boot, removals) {
        Ok(office) => office,
        Err((fault, vault)) => return (tell_fault(err, fault), vault),
    };
    let status = talk_and_tell(&mut office, reader, writer, err);
    (status, office.into_vault())
}

/// Has one conversation in an office, and prints its fault on `err`. Gives the exit status.
fn talk_and_tell<V: Vault, R: Source, W: Sink, E: Write>(
    office: &mut Office<V>,
    reader: &mut R,
    writer: &mut W,
    err: &mut E,
) -> u8
    ensures status { result ≤ 1 }
    ensures silent { result ≡ 0 → err.new ≡ err.old }
    ensures talked { TalksInOffice V.Vault R.Source W.Sink office.old office.new
        reader.old reader.new writer.old writer.new result }
{
    match talk::talk(office, reader, writer) {
        Ok(()) => 0,
        Err(fault) => tell_fault(err, Fault::Talk(fault)),
    }
}
