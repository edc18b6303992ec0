//! Serving turn by turn, as long as a clock gives moments.
ghost use Rattle.std.specs.Prelude.{◌≡◌, ◌<◌, ℕ, true, false, List, ◌∷◌, [], ◌++◌, Option};
ghost use Rattle.office.specs.Events.{Trace};
ghost use Rattle.office.specs.Stands.{OfEachTrace, StandsFor, vault_of};
ghost use Rattle.serving.specs.Served.{Serves};
ghost use Rattle.serving.specs.Settings.{settings};
ghost use Rattle.serving.specs.HttpTurns.{AreFew};
ghost use Rattle.serving.specs.HttpWorks.{AreShort};
ghost use Rattle.serving.specs.Newcomers.{AllHaveSeats};
ghost use Rattle.serving.specs.Guesses.{AllArePacing};
ghost use Rattle.serving.specs.Quits.{HasStayedFor, in_a_row};
ghost use Rattle.serving.specs.Running.{HasRun, PreparesFile, Pauses, PollsForFile};
ghost use Rattle.serving.specs.Spools.{FileAct};
ghost use Rattle.serving.specs.NotedFiles.{StaysAsItWas};

use crate::links::Links;
use crate::listener::Listener;
use crate::quits::Quits;
use crate::server::Server;
use crate::spool::Spool;
use crate::turn::millis_for;
use crate::wire::Wire;
use vault::{Progress, Vault};

/// Gives a server the moment of each turn, once the turn has waited, and says when it is to stop.
///
/// `gave c answers`: c was asked so often and gave these answers. Of the machine's own clock this
/// is known only if a [`NotedClock`](crate::NotedClock) wraps it.
pub trait Clock {
    /// `gave c answers`: c gave these answers, the newest last.
    ghost gave: { Self → List (Option ℕ) → Type 0 };

    /// The moment of a turn that has waited, in whole seconds; `None` if neither it nor any further
    /// turn is to be done.
    fn moment(&mut self) -> Option<u64>
        ensures called { (a : List (Option ℕ)) → gave self.old a
            → gave self.new (a ++ result ∷ []) };
}

impl<V: Vault, W: Wire, L: Listener> Server<V, W, L> {
    /// If a large file is coming, has the spool read the next piece of it; once all of it was read,
    /// has the store prepare a part of its deposit. Returns whether there is such a file.
    fn prepare_file<S: Spool>(&mut self, spool: &mut S) -> bool
        ensures prepares { PreparesFile V.Vault result self.old.office self.new.office }
        ensures coming { PollsForFile S.is_coming false result }
        ensures stands { OfEachTrace V.Vault self.old.office self.new.office (λ T.
            StandsFor V.holds self.new.office T) }
        ensures spool { StaysAsItWas S.tells S.asked spool.old spool.new }
        ensures wire { self.new.wire ≡ self.old.wire }
        ensures listener { self.new.listener ≡ self.old.listener }
    {
        spool.read_on();
        let Some(coming) = spool.coming() else {
            return false;
        };
        let Some(text) = &coming.text else {
            return true;
        };
        let name = &coming.name;
        let prepared = self
            .office
            .prepare_deposit(&name.maildrop, &name.class, &name.id, text);
        if prepared != Ok(Progress::More) {
            spool.note_prepared();
        }
        true
    }

    /// The pause after a turn. Has the store prepare a part of what a QUIT removes, if one stays
    /// unread; otherwise a part of the deposit of a large file, if one is coming, and then the next
    /// turn doesn't wait; otherwise do what it has put off, if the next turn waits.
    fn use_pause<S: Spool>(&mut self, links: &mut Links, spool: &mut S, quits: &mut Quits)
        ensures pauses { Pauses V.Vault S.asked quits.old.is_preparing
            links.old self.old.office spool.old links.new self.new.office spool.new }
        ensures stands { OfEachTrace V.Vault self.old.office self.new.office (λ T.
            StandsFor V.holds self.new.office T) }
        ensures coming { PollsForFile S.is_coming links.old.clients.poll_now
            links.new.clients.poll_now }
        ensures told { (a : List FileAct) → S.tells spool.old a → S.tells spool.new a }
        ensures wire { self.new.wire ≡ self.old.wire }
        ensures listener { self.new.listener ≡ self.old.listener }
        ensures counts { (row : ℕ) → HasStayedFor row quits.old
            → (quits.old.is_preparing ≡ true → 0 < quits.old.turns_left)
            → HasStayedFor (in_a_row quits.old.is_preparing row) quits.new }
    {
        if let Some(connection) = quits.next() {
            let prepared = self.office.prepare_quit(connection);
            quits.note_progress(matches!(prepared, Ok(Progress::More)));
            return;
        }
        if self.prepare_file(spool) {
            links.clients.poll_now = true;
            return;
        }
        if links.poll_now() {
            return;
        }
        let _ = self.office.maintain();
    }

    /// Does one turn after the other, until so many were done. Each waits, and then asks the clock
    /// for its moment. If the clock gives none it ends there: it accepts, reads and writes nothing
    /// more, and the office gets no event. After a turn that has nothing more to do, the store does
    /// what it has put off. A QUIT that removes many messages stays unread at first: before each
    /// further turn the store prepares a part of what it removes, while the turns serve others. The
    /// QUIT is read once no more can be prepared, if the store refuses, or after 1,000 turns. So it
    /// is with a large file of the spool, which is also read in pieces.
    ///
    /// What held before the first turn holds before each: the settings and the site are the same,
    /// all who haven't logged in have seats, and a refusal keeps a login back for 1 to 15 seconds.
    /// No clause says which refusals are kept between turns. If something moved, none says whether
    /// the next turn waits, except after a whole share, a file that was removed or renamed, and, if
    /// logins wait for locks, a client's link that was closed.
    pub fn serve_while<S: Spool, C: Clock>(
        &mut self,
        links: &mut Links,
        spool: &mut S,
        clock: &mut C,
        most: u64,
    )
        ensures serves { (T : Trace)
            → Serves V.holds W.tells S.tells T self.old.office self.old.wire spool.old
            links.old.clients.seats.items links.old.requests.exchanges.items links.old.site
            → V.is_clean (vault_of self.new.office)
            → Serves V.holds W.tells S.tells T self.new.office self.new.wire spool.new
            links.new.clients.seats.items links.new.requests.exchanges.items links.new.site }
        ensures clean { V.is_clean (vault_of self.new.office)
            → V.is_clean (vault_of self.old.office) }
        ensures runs { HasRun V.Vault W.asked S.asked L.heard C.gave most
            links.old self.old.office self.old.wire spool.old self.old.listener clock.old
            links.new self.new.office self.new.wire spool.new self.new.listener clock.new }
        ensures few { AreFew links.old → AreFew links.new }
        ensures seated { AllHaveSeats links.old → AllHaveSeats links.new }
        ensures pacing { AllArePacing links.old → AllArePacing links.new }
        ensures short { (T : Trace) → StandsFor V.holds self.old.office T
            → V.is_clean (vault_of self.new.office) → AreShort links.old → AreShort links.new }
        ensures settings { settings links.new ≡ settings links.old }
        ensures site { links.new.site ≡ links.old.site }
    {
        let mut quits = Quits::new();
        for _turn in 0..most {
            self.wire.wait(millis_for(links));
            let Some(now) = clock.moment() else {
                return;
            };
            self.serve_after_wait(links, spool, &mut quits, now);
            self.use_pause(links, spool, &mut quits);
        }
    }
}
