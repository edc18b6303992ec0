//! How what comes on a client's link is read: as it comes, or a line at a time, and but for logins
//! that are kept back.
ghost use Rattle.std.specs.Prelude.{◌≡◌, ◌≤◌, ◌<◌, ◌==◌, ◌&&◌, ℕ, List, not, true, false};
ghost use Rattle.std.specs.Prelude.{None};
ghost use Rattle.std.specs.Prelude.{length, position, nat_lt};
ghost use Rattle.office.specs.Events.{Trace};
ghost use Rattle.office.specs.Trace.{history};
ghost use Rattle.office.specs.Sessions.{live};
ghost use Rattle.office.specs.Logins.{login_brought as login_brought_at, refusals};
ghost use Rattle.office.specs.Waiting.{waits};
ghost use Rattle.serving.specs.Guesses.{AreNotedSo, IsOriginOf};
ghost use Rattle.office.specs.Stands.{StandsFor};
ghost use Rattle.serving.specs.Wires.{ToldOfPorts};
ghost use Rattle.serving.specs.Parts.{Asking};
ghost use Rattle.serving.specs.ClientParts.{HasLooked, IsPaceAt};
ghost use Rattle.serving.specs.Paces.{reads_lines as reads_lines_by, is_paced as is_paced_by};
ghost use Rattle.serving.specs.Paces.{keeps as keeps_by, is_held};
ghost use Rattle.serving.specs.Parts.{NotesGuesses};
ghost use Rattle.serving.specs.Paces.{first_line as first_line_of, part_by};

use crate::guesses::{Guesses, MOST_SECONDS, origin_of};
use crate::links::{Clients, Seat};
use crate::wire::{Io, Port, Wire};
use creds::LoginName;
use office::{MOST_IN_A_PIECE, Office};
use vault::Vault;

/// How what comes on a client's link is read at a moment.
#[derive(Clone, Copy, PartialEq, Eq, Debug)]
pub(crate) struct Pace {
    /// A line at a time, each of which is looked at first: a login may be kept back.
    pub(crate) by_line: bool,
    /// No login is read: a session ended in this turn.
    pub(crate) is_shut: bool,
    /// For how many seconds a login waits for its maildrop's lock.
    pub(crate) wait: u64,
    /// By which number the client's guesses count, if they do.
    pub(crate) origin: Option<u64>,
    /// For how many seconds the login that comes next has lain unread; 0 for a new one.
    pub(crate) waited: u64,
    /// The moment, in seconds.
    pub(crate) now: u64,
}

/// How much of what comes on a link is read, and whom its next line would log in.
#[derive(Drop)]
pub(crate) struct Part {
    /// How many octets are read; 0 if what came stays unread.
    pub(crate) count: usize,
    /// `None` if nothing was looked at.
    pub(crate) login: Option<LoginName>,
}

/// By which number a client's guesses count: by none if guesses aren't slow, if the client is
/// logged in, or if its address isn't known.
fn origin_at<V: Vault, W: Wire>(
    office: &Office<V>,
    wire: &W,
    seat: Seat,
    guesses: &Guesses,
) -> Option<u64>
    ensures fast { guesses.now.are_slow ≡ false → result ≡ None }
    ensures whose { (T : Trace) → StandsFor V.holds office.now T
        → IsOriginOf guesses.now.are_slow (live (history T) seat.connection)
        (W.address_of wire.now Port.Pop seat.link) result }
{
    if !guesses.are_slow {
        return None;
    }
    if office.is_logged_in(seat.connection) {
        return None;
    }
    match wire.address(Port::Pop, seat.link) {
        None => None,
        Some(address) => Some(origin_of(&address)),
    }
}

/// Whether lines are read one at a time before a login: if one may be kept back.
fn reads_lines(wait: u64, lock_released: bool, origin: Option<u64>) -> bool
    ensures { result ≡ reads_lines_by wait lock_released origin }
{
    if wait > 0 || lock_released {
        return true;
    }
    origin.is_some()
}

/// How what comes on a link is read at this moment.
pub(crate) fn pace_at<V: Vault, W: Wire>(
    office: &Office<V>,
    wire: &W,
    clients: &Clients,
    seat: Seat,
    now: u64,
) -> Pace
    ensures fast { clients.now.guesses.are_slow ≡ false → result.origin ≡ None }
    ensures whose { (T : Trace) → StandsFor V.holds office.now T
        → IsOriginOf clients.now.guesses.are_slow (live (history T) seat.connection)
        (W.address_of wire.now Port.Pop seat.link) result.origin }
    ensures pace { IsPaceAt clients.now seat.connection now result }
    ensures lines { result.by_line ≡ true
        → reads_lines_by result.wait result.is_shut result.origin ≡ true }
    ensures line { (T : Trace) → StandsFor V.holds office.now T
        → result.by_line ≡ (reads_lines_by result.wait result.is_shut result.origin
        && not (live (history T) seat.connection)) }
{
    let origin = origin_at(office, wire, seat, &clients.guesses);
    let is_logged_in = office.is_logged_in(seat.connection);
    Pace {
        by_line: reads_lines(clients.wait, clients.lock_released, origin) && !is_logged_in,
        is_shut: clients.lock_released,
        wait: clients.wait,
        origin,
        waited: clients.newcomers.waited(seat.connection, now),
        now,
    }
}

/// Whether a login of an origin is kept back after a refusal of the same name.
fn is_paced(guesses: &Guesses, origin: Option<u64>, name: &LoginName, now: u64) -> bool
    ensures { result ≡ is_paced_by now origin name.now guesses.now.refusals.items }
{
    match origin {
        None => false,
        Some(origin) => guesses.hold_back(origin, name, now),
    }
}

/// Whether a login is kept back, whatever its maildrop; `None`, no login, never is.
fn keeps(guesses: &Guesses, pace: Pace, login: &Option<LoginName>) -> bool
    ensures { result ≡ keeps_by pace guesses.now.refusals.items login.now }
{
    match login {
        None => false,
        Some(name) => {
            if pace.is_shut {
                return true;
            }
            pace.waited < MOST_SECONDS && is_paced(guesses, pace.origin, name, pace.now)
        }
    }
}

/// Whether a login that came on a connection waits for its maildrop's lock, so many seconds at
/// most; `None`, no login, never does.
fn awaits_lock<V: Vault>(
    office: &Office<V>,
    connection: u64,
    login: &Option<LoginName>,
    seconds: u64,
) -> bool
    ensures { (T : Trace) (piece : List ℕ) → StandsFor V.holds office.now T
        → login.now ≡ login_brought_at T connection piece
        → result ≡ waits T connection piece seconds }
{
    match login {
        None => false,
        Some(name) => office.waits(connection, name, seconds),
    }
}

/// Whether a piece that came, with this login in its next line, stays unread, because the login
/// waits for its maildrop's lock or is kept back.
fn is_held_back<V: Vault>(
    office: &Office<V>,
    guesses: &Guesses,
    connection: u64,
    pace: Pace,
    login: &Option<LoginName>,
) -> bool
    ensures { (T : Trace) (piece : List ℕ) → StandsFor V.holds office.now T
        → login.now ≡ login_brought_at T connection piece
        → result ≡ is_held T connection piece pace guesses.now.refusals.items }
{
    if awaits_lock(office, connection, login, pace.wait) {
        return true;
    }
    keeps(guesses, pace, login)
}

/// Where the first LF of a piece is.
fn first_newline(piece: &[u8]) -> Option<usize>
    ensures { result ≡ position (λ b. b == 10) piece.now }
{
    piece.iter().position(|octet| *octet == b'\n')
}

/// How many octets the first line of a piece has, with its LF; all, if it has none.
fn first_line(piece: &[u8]) -> usize
    ensures value { result ≡ first_line_of piece.now }
    ensures some { 0 < length piece.now → 0 < result }
    ensures most { result ≤ length piece.now }
{
    match first_newline(piece) {
        None => piece.len(),
        Some(at) => at + 1,
    }
}

/// How much of a piece that came is read: its first line, or nothing if it stays unread.
fn part_of_piece<V: Vault>(
    office: &Office<V>,
    guesses: &Guesses,
    connection: u64,
    piece: &[u8],
    pace: Pace,
) -> Part
    requires { length piece.now ≤ 4096 }
    ensures part { (T : Trace) → StandsFor V.holds office.now T
        → result.count ≡ part_by (is_held T connection piece.now pace guesses.now.refusals.items)
        piece.now }
    ensures login { (T : Trace) → StandsFor V.holds office.now T
        → result.login ≡ login_brought_at T connection piece.now }
    ensures some { (result.count == 0) ≡ false → result.count ≡ first_line_of piece.now }
    ensures most { result.count ≤ 4096 }
{
    let login = office.brings(connection, piece).login();
    if is_held_back(office, guesses, connection, pace, &login) {
        return Part { count: 0, login };
    }
    Part {
        count: first_line(piece),
        login,
    }
}

/// How much is read of what comes next on a link, 4,096 octets at most. If nothing may be kept
/// back, nothing is looked at.
pub(crate) fn next_part<V: Vault, W: Wire>(
    office: &Office<V>,
    wire: &mut W,
    guesses: &Guesses,
    seat: Seat,
    pace: Pace,
) -> Part
    ensures told { (t : ToldOfPorts) → W.tells wire.old t → W.tells wire.new t }
    ensures works { Asking W.asked wire.old wire.new
        (HasLooked V.holds office.now seat pace guesses.now.refusals.items result.count
        result.login) }
    ensures most { result.count ≤ 4096 }
    ensures all { pace.by_line ≡ false → result.count ≡ 4096 }
    ensures alone { pace.by_line ≡ false → wire.new ≡ wire.old }
{
    let all = Part {
        count: MOST_IN_A_PIECE,
        login: None,
    };
    if !pace.by_line {
        return all;
    }
    let mut room = [0; MOST_IN_A_PIECE];
    match wire.look(Port::Pop, seat.link, &mut room) {
        Io::Count(count) => part_of_piece(office, guesses, seat.connection, &room[..count], pace),
        _ => all,
    }
}

/// Updates the guesses after a line of a client that hadn't logged in: if its refusals rose above
/// `before`, logins of its origin and name are kept back; once it has logged in, its refusals are
/// forgotten. A line that brought no login changes nothing.
pub(crate) fn note_guess<V: Vault>(
    office: &Office<V>,
    clients: &mut Clients,
    connection: u64,
    pace: Pace,
    login: &Option<LoginName>,
    before: u8,
)
    ensures keeps { NotesGuesses clients.old clients.new }
    ensures noted { (T : Trace) → StandsFor V.holds office.now T
        → AreNotedSo pace.now pace.origin login.now (nat_lt before (refusals T connection))
        (live (history T) connection) clients.old.guesses.refusals.items
        clients.new.guesses.refusals.items }
{
    let Some(origin) = pace.origin else {
        return;
    };
    let Some(name) = login else {
        return;
    };
    if office.refusals(connection) > before {
        clients.guesses.refuse(origin, name, pace.now);
        return;
    }
    if office.is_logged_in(connection) {
        clients.guesses.forget(origin, name);
    }
}
