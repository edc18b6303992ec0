//! One turn of serving.
ghost use Rattle.std.specs.Prelude.{◌≡◌, ◌<◌, ℕ, true, false, List, [], ◌∷◌};
ghost use Rattle.office.specs.Events.{Trace};
ghost use Rattle.office.specs.Trace.{is_open};
ghost use Rattle.office.specs.Taken.{AreAdmitted};
ghost use Rattle.office.specs.Stands.{StandsFor, vault_of};
ghost use Rattle.serving.specs.Wires.{ToldOfPorts, AreFresh};
ghost use Rattle.serving.specs.Calls.{Waited, WasAsked};
ghost use Rattle.serving.specs.Served.{Serves};
ghost use Rattle.serving.specs.Newcomers.{AllHaveSeats};
ghost use Rattle.serving.specs.Guesses.{AllArePacing};
ghost use Rattle.serving.specs.Settings.{settings, none_set};
ghost use Rattle.serving.specs.Parts.{Does, KeepsServing};
ghost use Rattle.serving.specs.ClientParts.{IsPassed};
ghost use Rattle.serving.specs.Turns.{Works, millis_of};
ghost use Rattle.serving.specs.HttpTurns.{AllGoOn, AreFew};
ghost use Rattle.serving.specs.HttpWorks.{AreShort};
ghost use Rattle.serving.specs.Running.{LeavesAsFound};
ghost use Rattle.serving.specs.declared.links.Seat as declared;
ghost use Rattle.adminhttp.specs.Sites.{Site};

use crate::ends::report_idle_ones;
use crate::links::{Links, MOST_LINKS};
use crate::listener::Listener;
use crate::quits::Quits;
use crate::server::Server;
use crate::spool::Spool;
use crate::wire::Wire;
use office::{Event, taken_is_sent};
use std::alloc::Global;
use vault::Vault;

/// How many milliseconds a turn waits at most.
const MOST_MILLIS: u32 = 1000;

/// How many milliseconds a turn waits at most: none if more can be done at once.
pub(crate) fn millis_for(links: &Links) -> u32
    ensures { result ≡ millis_of links.now }
{
    if links.poll_now() { 0 } else { MOST_MILLIS }
}

impl<V: Vault, W: Wire, L: Listener> Server<V, W, L> {
    /// Sends the office a Tick of this moment, in seconds.
    fn tick(&mut self, now: u64)
        ensures serves { (seats these : List declared.Seat)
            → KeepsServing V.Vault W.Wire self.old self.new seats these seats [] }
        ensures works { Does V.Vault W.Wire L.Listener self.old self.new (IsPassed [] now) }
    {
        let _ = self.office.step(Event::Tick(now));
    }

    /// One turn: waits for at most a second, and not at all if more can be done at once; sends the
    /// office a Tick of this moment, in seconds; accepts the links that came, at most 64 at each
    /// port; serves each client's link, and then each link of the administration; ends the clients
    /// that took too long to log in; closes the links whose connections ended; and tries one file
    /// of the spool.
    /// The listener hears of each connection that is opened, what was judged of what came on it,
    /// that it was idle or late, and what the administration was asked.
    ///
    /// `few`: at most eight links of the administration are open. `short`: what was read of a
    /// request that isn't whole is below its size limit.
    pub fn serve_turn<S: Spool>(&mut self, links: &mut Links, spool: &mut S, now: u64)
        ensures serves { (T : Trace)
            → Serves V.holds W.tells S.tells T self.old.office self.old.wire spool.old
            links.old.clients.seats.items links.old.requests.exchanges.items links.old.site
            → V.is_clean (vault_of self.new.office)
            → Serves V.holds W.tells S.tells T self.new.office self.new.wire spool.new
            links.new.clients.seats.items links.new.requests.exchanges.items links.new.site }
        ensures clean { V.is_clean (vault_of self.new.office)
            → V.is_clean (vault_of self.old.office) }
        ensures works { (T : Trace) → StandsFor V.holds self.old.office T
            → V.is_clean (vault_of self.new.office)
            → Works V.Vault W.asked S.asked L.heard T now
            links.old self.old.office self.old.wire spool.old self.old.listener
            self.new.office links.new self.new.wire spool.new self.new.listener }
        ensures ongoing { AllGoOn now links.new }
        ensures few { AreFew links.old → AreFew links.new }
        ensures seated { AllHaveSeats links.old → AllHaveSeats links.new }
        ensures pacing { AllArePacing links.old → AllArePacing links.new }
        ensures short { (T : Trace) → StandsFor V.holds self.old.office T
            → V.is_clean (vault_of self.new.office) → AreShort links.old → AreShort links.new }
        ensures settings { settings links.new ≡ settings links.old }
        ensures site { links.new.site ≡ links.old.site }
    {
        self.wire.wait(millis_for(links));
        let mut quits = Quits::read_at_once();
        self.serve_after_wait(links, spool, &mut quits, now);
    }

    /// All that a turn does after its wait. `wire` is the wire before that wait.
    pub(crate) fn serve_after_wait<S: Spool>(
        &mut self,
        links: &mut Links,
        spool: &mut S,
        quits: &mut Quits,
        now: u64,
    )
        ensures serves { (T : Trace)
            → Serves V.holds W.tells S.tells T self.old.office self.old.wire spool.old
            links.old.clients.seats.items links.old.requests.exchanges.items links.old.site
            → V.is_clean (vault_of self.new.office)
            → Serves V.holds W.tells S.tells T self.new.office self.new.wire spool.new
            links.new.clients.seats.items links.new.requests.exchanges.items links.new.site }
        ensures clean { V.is_clean (vault_of self.new.office)
            → V.is_clean (vault_of self.old.office) }
        ensures works { (wire : W)
            → WasAsked W.asked wire self.old.wire (Waited (millis_of links.old) ∷ [])
            → (T : Trace) → StandsFor V.holds self.old.office T
            → V.is_clean (vault_of self.new.office)
            → (turn : Works V.Vault W.asked S.asked L.heard T now
            links.old self.old.office wire spool.old self.old.listener
            self.new.office links.new self.new.wire spool.new self.new.listener)
            × (turn.seen.is_preparing ≡ quits.new.is_preparing) }
        ensures left { LeavesAsFound now links.old links.new }
        ensures turns_left { quits.new.is_preparing ≡ true → 0 < quits.old.turns_left }
        ensures counts { quits.new.turns_left ≡ quits.old.turns_left }
    {
        links.clients.poll_now = false;
        self.tick(now);
        report_idle_ones(&self.office, &mut self.listener, &links.clients);
        self.accept_links(&mut links.clients, now);
        self.accept_admin_links(&mut links.requests, MOST_LINKS, now);
        self.serve_links(&mut links.clients, quits, now);
        let site = &links.site;
        self.serve_requests(&mut links.requests, site, now);
        let seconds = links.clients.newcomers.seconds;
        self.end_late_ones(&mut links.clients, now, seconds);
        self.close_links(&mut links.clients);
        self.serve_spool(&mut links.clients, spool);
        // For the proof: what each connection took was sent to it.
        taken_is_sent();
    }

    /// Begins to serve the wire and a spool, with no link open. The office must have no open
    /// connection.
    pub fn begin<S: Spool>(&self, alloc: Global, _spool: &S) -> Links
        ensures serves { (T : Trace) (t : ToldOfPorts) (site : Site)
            → StandsFor V.holds self.now.office T → AreAdmitted T
            → ((c : ℕ) → is_open T c ≡ false) → W.tells self.now.wire t → AreFresh t
            → S.tells _spool.now []
            → Serves V.holds W.tells S.tells T self.now.office self.now.wire _spool.now
            result.clients.seats.items result.requests.exchanges.items site }
        ensures few { AreFew result }
        ensures seated { AllHaveSeats result }
        ensures pacing { AllArePacing result }
        ensures short { AreShort result }
        ensures settings { settings result ≡ none_set }
    {
        // For the proof: what each connection took was sent to it.
        taken_is_sent();
        Links::new(alloc)
    }
}
