//! An office that is opened over a store for one event.
ghost use Rattle.std.specs.Prelude.{IfOk, IfErr};
ghost use Rattle.office.specs.Events.{Trace};
ghost use Rattle.office.specs.Seen.{event_seen};
ghost use Rattle.office.specs.Stands.{Keeps};
ghost use Rattle.jobs.specs.Sittings.{sat};

use office::{Event, Limits, Office, OpenFault, Outcome};
use std::alloc::Global;
use vault::Vault;

/// Opens an office over a store, does one event in it, and ends it. Gives the outcome, and the
/// store back; if the office isn't opened, its fault, and the store with what it held.
pub fn sit_once<V: Vault>(
    alloc: Global,
    vault: V,
    host: &str,
    boot: u64,
    limits: Limits,
    event: Event<'_>,
) -> Result<(Outcome, V), (OpenFault, V)>
    ensures done { IfOk result (λ it. (T : Trace) → Keeps (V.holds vault) T → V.is_clean it.1
        → Keeps (V.holds it.1) (sat T host.now boot limits (event_seen event.entry) it.0)) }
    ensures kept { IfErr result (λ it. (T : Trace) → Keeps (V.holds vault) T → V.is_clean it.1
        → Keeps (V.holds it.1) T) }
{
    match Office::open(alloc, vault, host, boot, limits) {
        Ok(office) => {
            let mut office = office;
            let outcome = office.step(event);
            Ok((outcome, office.into_vault()))
        }
        Err(refused) => Err(refused),
    }
}
