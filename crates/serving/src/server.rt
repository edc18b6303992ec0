//! What serves: an office, its wire and its listener.
ghost use Rattle.std.specs.Prelude.{◌≡◌, ℕ, false};
ghost use Rattle.office.specs.Events.{Trace};
ghost use Rattle.office.specs.Trace.{is_open};
ghost use Rattle.office.specs.Taken.{AreAdmitted};
ghost use Rattle.office.specs.Stands.{StandsFor};
ghost use Rattle.serving.specs.Served.{Serves};
ghost use Rattle.serving.specs.HttpTurns.{AreFew};
ghost use Rattle.serving.specs.HttpWorks.{AreShort};
ghost use Rattle.serving.specs.Newcomers.{AllHaveSeats};
ghost use Rattle.serving.specs.Guesses.{AllArePacing};
ghost use Rattle.serving.specs.Settings.{settings, none_set};
ghost use Rattle.adminhttp.specs.Sites.{Site};

use crate::links::Links;
use crate::listener::Listener;
use crate::noted_spool::NotedSpool;
use crate::noted_wire::NotedWire;
use crate::spool::Spool;
use crate::wire::Wire;
use office::Office;
use std::alloc::Global;
use vault::Vault;

/// An office, the wire by which its clients and its administration come, and who hears what the
/// office judged. What a turn does with them is in `turn`, `arrivals`, `clients`, `ends`,
/// `requests` and `files`.
#[derive(Drop)]
pub struct Server<V: Vault, W: Wire, L: Listener> {
    pub office: Office<V>,
    pub wire: W,
    pub listener: L,
}

/// Begins to serve any wire and any spool, with no link open. From now on all answers of both are
/// noted, for the proofs alone, and `serves` speaks of these notes. The office must have no open
/// connection.
pub fn begin_noted<V: Vault, W: Wire, S: Spool, L: Listener>(
    alloc: Global,
    office: Office<V>,
    wire: W,
    spool: S,
    listener: L,
) -> (Server<V, NotedWire<W>, L>, NotedSpool<S>, Links)
    ensures serves { (T : Trace) (site : Site) → StandsFor V.holds office T → AreAdmitted T
        → ((c : ℕ) → is_open T c ≡ false) → Serves V.holds ⟦<NotedWire<W> as Wire>⟧.tells
        ⟦<NotedSpool<S> as Spool>⟧.tells T result.0.office result.0.wire result.1
        result.2.clients.seats.items result.2.requests.exchanges.items site }
    ensures few { AreFew result.2 }
    ensures seated { AllHaveSeats result.2 }
    ensures pacing { AllArePacing result.2 }
    ensures short { AreShort result.2 }
    ensures settings { settings result.2 ≡ none_set }
{
    let wire = NotedWire::new(wire);
    let spool = NotedSpool::new(spool);
    let server = Server {
        office,
        wire,
        listener,
    };
    let links = server.begin(alloc, &spool);
    (server, spool, links)
}
