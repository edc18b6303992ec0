//! What a turn does for the clients whose links are open: it writes what they are owed, and reads
//! what comes.
ghost use Rattle.std.specs.Prelude.{◌≡◌, ◌<◌, ◌≤◌, ◌==◌, ◌||◌, not, true, false};
ghost use Rattle.std.specs.Prelude.{[], length, if◌then◌else◌};
ghost use Rattle.office.specs.Events.{Trace};
ghost use Rattle.office.specs.Trace.{history};
ghost use Rattle.office.specs.Sessions.{live};
ghost use Rattle.office.specs.Stands.{StandsFor};
ghost use Rattle.office.specs.Quitting.{brings_long_quit};
ghost use Rattle.serving.specs.Newcomers.{newcomer, lies_unread, AreSettled, Settles};
ghost use Rattle.serving.specs.Paces.{releases_lock};
ghost use Rattle.serving.specs.Parts.{Does, KeepsServing, KeepsServingOne, Also, PollsBy};
ghost use Rattle.serving.specs.Parts.{KeepsSeats, ReleasesMore, ReleasesLock};
ghost use Rattle.serving.specs.Quits.{PreparesMore, KeepsCount};
ghost use Rattle.serving.specs.Settings.{settings_of};
ghost use Rattle.serving.specs.ClientParts.{IsWritten, IsWrittenOut, IsReadOnce, IsReadPiece};
ghost use Rattle.serving.specs.ClientParts.{HasLookedForQuit};
ghost use Rattle.serving.specs.ClientParts.{HadOwnTurn, WereServed, may_keep, may_at, way_at};
ghost use Rattle.serving.specs.Works.{share_by, reads_by_line};
ghost use Rattle.arrayvec.specs.ArrayVec.{array_vec_len};

use crate::links::{Clients, MOST_WRITES, SHARE_AMONG_OTHERS, Seat};
use crate::listener::{LinkEvent, Listener};
use crate::pace::{next_part, note_guess, pace_at};
use crate::quits::Quits;
use crate::server::Server;
use crate::wire::{Io, Port, Wire};
use office::{Event, MOST_IN_A_PIECE, Office};
use vault::Vault;

/// How many octets are written in one turn on a link that is alone: 64 full writes.
const SHARE_ALONE: usize = 1_048_576;

/// The share of each link.
fn share_of(clients: &Clients) -> usize
    ensures { result ≡ share_by (array_vec_len clients.now.seats) }
{
    if clients.seats.len() > 1 {
        SHARE_AMONG_OTHERS
    } else {
        SHARE_ALONE
    }
}

/// Notes that a connection's session ended, if logins wait for locks: no further login is read in
/// this turn, and the next turn doesn't wait.
fn note_release<V: Vault>(
    office: &Office<V>,
    clients: &mut Clients,
    connection: u64,
    was_logged_in: bool,
)
    ensures keeps { KeepsSeats clients.old clients.new }
    ensures newcomers { clients.new.newcomers ≡ clients.old.newcomers }
    ensures lock_released { (T : Trace) → StandsFor V.holds office.now T
        → clients.new.lock_released ≡ (clients.old.lock_released
        || releases_lock clients.old.wait was_logged_in (live (history T) connection)) }
    ensures more { ReleasesMore clients.old clients.new }
    ensures poll_now { clients.new.poll_now ≡ true
        → (clients.old.poll_now || clients.new.lock_released) ≡ true }
{
    if clients.wait == 0 {
        return;
    }
    if !was_logged_in {
        return;
    }
    if office.is_logged_in(connection) {
        return;
    }
    clients.lock_released = true;
    clients.poll_now = true;
}

/// Whether octets may come on a connection, and a QUIT there may remove many messages.
fn may_quit_long<V: Vault>(office: &Office<V>, connection: u64) -> bool {
    office.ready(connection) && office.sees_many(connection)
}

/// Whether a piece brings a QUIT of a session that has marked many messages.
fn is_long_quit<V: Vault>(office: &Office<V>, connection: u64, piece: &[u8]) -> bool
    ensures { (T : Trace) → StandsFor V.holds office.now T → result ≡ true
        → brings_long_quit T connection piece.now ≡ true }
{
    office.brings(connection, piece).is_quit() && office.marks_many(connection)
}

impl<V: Vault, W: Wire, L: Listener> Server<V, W, L> {
    /// Writes once what the office lends of a connection's output. Ends the connection if its link
    /// is broken or at its end. Returns how many octets the link took.
    fn write_once(&mut self, seat: Seat) -> usize
        ensures serves { KeepsServingOne V.Vault W.Wire seat self.old self.new }
        ensures works { Does V.Vault W.Wire L.Listener self.old self.new
            (IsWritten V.holds V.is_clean self.old.office self.new.office seat
            (if result == 0 then 0 else 1) 1 result (not (result == 0))) }
    {
        let lent = self.office.owed(seat.connection);
        if lent.is_empty() {
            return 0;
        }
        match self.wire.write(Port::Pop, seat.link, lent) {
            Io::Count(count) => {
                let took = Event::Took(seat.connection, count);
                let report = self.office.step_with_account(took);
                self.listener.on_account(seat.connection, &report.account);
                count
            }
            Io::Later => 0,
            Io::End | Io::Broken => {
                let report = self.office.step_with_account(Event::Gone(seat.connection));
                self.listener.on_account(seat.connection, &report.account);
                0
            }
        }
    }

    /// Writes what a connection is owed until the link takes no more, nothing is owed, its share is
    /// reached, or 64 writes were made. Returns whether the link may take more at once.
    fn write_owed(&mut self, seat: Seat, share: usize) -> bool
        ensures serves { KeepsServingOne V.Vault W.Wire seat self.old self.new }
        ensures works { Does V.Vault W.Wire L.Listener self.old self.new
            (IsWrittenOut V.holds V.is_clean self.old.office self.new.office seat share result) }
    {
        let mut written: usize = 0;
        for _times in 0..MOST_WRITES {
            let count = self.write_once(seat);
            if count == 0 {
                return false;
            }
            written = written.saturating_add(count);
            if written >= share {
                return true;
            }
        }
        true
    }

    /// Reads once from a link, at most as many octets as the buffer holds, if its connection is
    /// ready: open, and owed nothing. Ends the connection if the link is broken or at its end.
    /// Returns whether octets came.
    fn read_once(&mut self, seat: Seat, buffer: &mut [u8]) -> bool
        requires { length buffer.old ≤ 4096 }
        ensures serves { KeepsServingOne V.Vault W.Wire seat self.old self.new }
        ensures works { Does V.Vault W.Wire L.Listener self.old self.new
            (Also (IsReadOnce V.holds self.old.office seat (length buffer.old))
            (PollsBy false result)) }
    {
        let connection = seat.connection;
        if !self.office.ready(connection) {
            return false;
        }
        match self.wire.read(Port::Pop, seat.link, buffer) {
            Io::Count(count) => {
                self.listener
                    .on_link(&self.wire, Port::Pop, seat.link, LinkEvent::WasRead);
                let piece = Event::Bytes(connection, &buffer[..count]);
                let report = self.office.step_with_account(piece);
                self.listener.on_account(connection, &report.account);
                true
            }
            Io::Later => false,
            Io::End | Io::Broken => {
                self.listener
                    .on_link(&self.wire, Port::Pop, seat.link, LinkEvent::Ended);
                let report = self.office.step_with_account(Event::Gone(connection));
                self.listener.on_account(connection, &report.account);
                false
            }
        }
    }

    /// Looks whether a link's next line is a long QUIT that stays unread, while the store prepares
    /// what it removes. Returns whether it stays unread.
    fn keeps_quit(&mut self, quits: &mut Quits, seat: Seat) -> bool
        ensures serves { KeepsServingOne V.Vault W.Wire seat self.old self.new }
        ensures kept { result ≡ true → quits.new.is_preparing ≡ true }
        ensures prepares { PreparesMore quits.old.is_preparing quits.new.is_preparing result }
        ensures counts { KeepsCount quits.old quits.new }
        ensures works { Does V.Vault W.Wire L.Listener self.old self.new
            (HasLookedForQuit V.holds self.old.office seat result) }
    {
        if !quits.may_keep() {
            return false;
        }
        if !may_quit_long(&self.office, seat.connection) {
            return false;
        }
        let mut room = [0; MOST_IN_A_PIECE];
        match self.wire.look(Port::Pop, seat.link, &mut room) {
            Io::Count(count) => {
                if !is_long_quit(&self.office, seat.connection, &room[..count]) {
                    return false;
                }
                quits.keep(seat.connection)
            }
            _ => false,
        }
    }

    /// Reads a piece from a link, if its connection is ready, unless its next line is a login that
    /// is kept back; notes whether it is. Returns whether octets came. After a line that was read
    /// by itself the next turn doesn't wait.
    fn read_piece(&mut self, clients: &mut Clients, seat: Seat, now: u64) -> bool
        ensures serves { KeepsServingOne V.Vault W.Wire seat self.old self.new }
        ensures keeps { KeepsSeats clients.old clients.new }
        ensures lock_released { clients.new.lock_released ≡ clients.old.lock_released }
        ensures settles { Settles now seat.connection clients.old clients.new }
        ensures works { Does V.Vault W.Wire L.Listener self.old self.new
            (Also (IsReadPiece V.holds self.old.office seat clients.old.wait
            (reads_by_line clients.old.wait (may_keep clients.old))
            (may_at now clients.old seat.connection)
            (lies_unread (newcomer seat.connection clients.new.newcomers.newcomers.items)))
            (PollsBy clients.old.poll_now (clients.new.poll_now || result))) }
    {
        if !self.office.ready(seat.connection) {
            clients.newcomers.settle(seat.connection, false, now);
            return false;
        }
        let pace = pace_at(&self.office, &self.wire, clients, seat, now);
        let part = next_part(&self.office, &mut self.wire, &clients.guesses, seat, pace);
        clients
            .newcomers
            .settle(seat.connection, part.count == 0, now);
        if part.count == 0 {
            self.listener
                .on_link(&self.wire, Port::Pop, seat.link, LinkEvent::LiesUnread);
            return false;
        }
        let before = self.office.refusals(seat.connection);
        let mut room = [0; MOST_IN_A_PIECE];
        if !self.read_once(seat, &mut room[..part.count]) {
            return false;
        }
        clients.poll_now |= pace.by_line;
        note_guess(
            &self.office,
            clients,
            seat.connection,
            pace,
            &part.login,
            before,
        );
        true
    }

    /// Writes what the connection is owed until its share is reached. If nothing is owed any more,
    /// reads once, unless a long QUIT stays unread, and writes what that gave. Returns whether more
    /// can be done at once.
    fn serve_link(&mut self, clients: &mut Clients, quits: &mut Quits, seat: Seat, now: u64) -> bool
        ensures serves { KeepsServingOne V.Vault W.Wire seat self.old self.new }
        ensures keeps { KeepsSeats clients.old clients.new }
        ensures lock_released { clients.new.lock_released ≡ clients.old.lock_released }
        ensures settles { Settles now seat.connection clients.old clients.new }
        ensures works { Does V.Vault W.Wire L.Listener self.old self.new
            (Also (HadOwnTurn V.holds V.is_clean self.old.office self.new.office
            (way_at now clients.old quits.new.is_preparing (clients.new.poll_now || result))
            quits.old.is_preparing clients.new.newcomers.newcomers.items seat)
            (PollsBy (clients.old.poll_now || quits.new.is_preparing)
            (clients.new.poll_now || result))) }
        ensures prepares { PreparesMore quits.old.is_preparing quits.new.is_preparing
            (clients.new.poll_now || result) }
        ensures counts { KeepsCount quits.old quits.new }
    {
        let share = share_of(clients);
        if self.write_owed(seat, share) {
            clients.newcomers.settle(seat.connection, false, now);
            return true;
        }
        if self.keeps_quit(quits, seat) {
            clients.newcomers.settle(seat.connection, false, now);
            return true;
        }
        if !self.read_piece(clients, seat, now) {
            return false;
        }
        self.write_owed(seat, share)
    }

    /// Serves a client's link, and notes whether its session ended.
    fn serve_client(&mut self, clients: &mut Clients, quits: &mut Quits, seat: Seat, now: u64)
        ensures serves { KeepsServingOne V.Vault W.Wire seat self.old self.new }
        ensures keeps { KeepsSeats clients.old clients.new }
        ensures releases { ReleasesLock V.holds self.old.office self.new.office
            clients.old clients.new seat.connection }
        ensures settles { Settles now seat.connection clients.old clients.new }
        ensures works { Does V.Vault W.Wire L.Listener self.old self.new
            (Also (HadOwnTurn V.holds V.is_clean self.old.office self.new.office
            (way_at now clients.old quits.new.is_preparing clients.new.poll_now)
            quits.old.is_preparing clients.new.newcomers.newcomers.items seat)
            (PollsBy (clients.old.poll_now || (quits.new.is_preparing
            || clients.new.lock_released)) clients.new.poll_now)) }
        ensures prepares { PreparesMore quits.old.is_preparing quits.new.is_preparing
            clients.new.poll_now }
        ensures counts { KeepsCount quits.old quits.new }
    {
        let was_logged_in = self.office.is_logged_in(seat.connection);
        let more = self.serve_link(clients, quits, seat, now);
        clients.poll_now |= more;
        note_release(&self.office, clients, seat.connection, was_logged_in);
    }

    /// Serves each link, by ascending number of the connections.
    pub(crate) fn serve_links(&mut self, clients: &mut Clients, quits: &mut Quits, now: u64)
        ensures serves { KeepsServing V.Vault W.Wire self.old self.new
            clients.old.seats.items [] clients.new.seats.items [] }
        ensures keeps { KeepsSeats clients.old clients.new }
        ensures settled { AreSettled now clients.old.newcomers.newcomers.items
            clients.new.newcomers.newcomers.items }
        ensures releases { clients.new.lock_released ≡ true → clients.new.poll_now ≡ true }
        ensures prepares { quits.new.is_preparing ≡ true → clients.new.poll_now ≡ true }
        ensures left { quits.new.is_preparing ≡ true → 0 < quits.old.turns_left }
        ensures counts { quits.new.turns_left ≡ quits.old.turns_left }
        ensures works { Does V.Vault W.Wire L.Listener self.old self.new
            (Also (WereServed V.holds V.is_clean self.old.office self.new.office
            (settings_of clients.old) now clients.old.newcomers.newcomers.items
            clients.new.lock_released quits.new.is_preparing clients.new.poll_now
            clients.new.newcomers.newcomers.items clients.old.seats.items clients.old.seats.items)
            (PollsBy (clients.old.poll_now || (quits.new.is_preparing
            || clients.new.lock_released)) clients.new.poll_now)) }
    {
        clients.lock_released = false;
        quits.begin_turn();
        let mut place = 0;
        while place < clients.seats.len() {
            let seat = clients.seats[place];
            self.serve_client(clients, quits, seat, now);
            place += 1;
        }
    }
}
