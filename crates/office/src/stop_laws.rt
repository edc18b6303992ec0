//! What a stop of the device (a crash, the power gone) leaves, and the office that is opened again
//! over that.
ghost use Rattle.std.specs.Prelude.{IfOk};
ghost use Rattle.vault.specs.Changes.{Contents};
ghost use Rattle.office.specs.Events.{Trace, Tagged, given};
ghost use Rattle.office.specs.Events as events;
ghost use Rattle.office.specs.History.{Done};
ghost use Rattle.office.specs.Seen.{event_seen, outcome_seen};
ghost use Rattle.office.specs.Stands.{StandsFor, vault_of};
ghost use Rattle.office.specs.Stopping.{EitherOrWith, with_it_done, SaysTrace};

use crate::{Event, Limits, Office, OpenFault, Outcome};
use std::alloc::Global;
use vault::Vault;

/// Does an event and opens an office over a vault that holds what a stop in that event may leave.
/// The new office stands for the trace before the event or for that with the event taken as done,
/// and then its opening. The event is in wherever it was answered otherwise than `Failed` or
/// `NoMemory`.
pub fn step_and_open<V: Vault>(
    alloc: Global,
    office: &mut Office<V>,
    event: Event<'_>,
    reopened: V,
    host: &str,
    boot: u64,
    limits: Limits,
) -> (Outcome, Result<Office<V>, (OpenFault, V)>)
    ensures { IfOk result.1 (λ o. (T : Trace) (left : Contents) → StandsFor V.holds office.old T
        → V.is_clean (vault_of office.new) → V.is_up (vault_of office.old)
        → V.may_leave (vault_of office.new) left → V.holds reopened left → V.is_clean (vault_of o)
        → EitherOrWith (outcome_seen result.0) (StandsFor V.holds o
        (given T (events.Start host.now boot limits) (Tagged Done)))
        (StandsFor V.holds o (given (with_it_done T (event_seen event.entry)
        (outcome_seen result.0)) (events.Start host.now boot limits) (Tagged Done)))) }
{
    let outcome = office.step(event);
    let opened = Office::open(alloc, reopened, host, boot, limits);
    (outcome, opened)
}

/// While the device is up, a stop between two events leaves what the trace says: every event that
/// was answered is in.
pub fn stop_between_events<V: Vault>(office: &Office<V>)
    ensures { (T : Trace) → StandsFor V.holds office.now T → V.is_clean (vault_of office.now)
        → V.is_up (vault_of office.now) → (left : Contents) → V.may_leave (vault_of office.now) left
        → SaysTrace left T }
{
    let _office = office;
}
