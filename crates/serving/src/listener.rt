//! Who hears what an office judges while it is served.
ghost use Rattle.std.specs.Prelude.{◌∷◌, [], ◌++◌, List};
ghost use Rattle.serving.specs.Hearing.{Hearing};

use crate::wire::{Link, Port, Wire};
use adminhttp::{Content, RequestLine};
use office::Account;

/// What was asked over a link of the administration, and what its response tells. It has nothing of
/// a request's body, and so no password and no secret.
#[derive(Clone, Copy)]
pub struct AdminRequest<'a> {
    /// The request's line; `None` if it is of no route.
    pub line: Option<RequestLine>,
    /// The content of the response.
    pub content: Content<'a>,
}

/// What became of a link.
#[derive(Clone, Copy, PartialEq, Eq)]
pub enum LinkEvent {
    /// It came.
    Came,
    /// What came on it was looked at, and stays unread.
    LiesUnread,
    /// Octets of it were read.
    WasRead,
    /// A read reported that it ended, or is broken.
    Ended,
    /// Octets were written on it.
    WasWritten,
    /// It was closed.
    Closed,
}

/// Hears of links and connections, what the office judged of what came on them, and what the
/// administration was asked. It is lent an account, or an answer, and nothing of the office.
///
/// `heard l h`: `h` is a true record of the accounts that l heard. Of one that writes a log it
/// isn't known.
pub trait Listener {
    /// `heard l h`: l heard these accounts, each of its connection, the newest last.
    ghost heard: { Self → List Hearing → Type 0 };

    /// Something happened to a link; the wire can say more about it. Of a client's link every event
    /// but `WasWritten` is told; of one of the administration only `Came`, `WasWritten` and
    /// `Closed`.
    fn on_link<W: Wire>(&mut self, wire: &W, port: Port, link: Link, event: LinkEvent)
        ensures heard { (h : List Hearing) → heard self.old h → heard self.new h };

    /// A connection was opened for a client's link.
    fn on_open(&mut self, link: Link, connection: u64)
        ensures heard { (h : List Hearing) → heard self.old h → heard self.new h };

    /// What the office judged in one event of a connection; for most events, nothing.
    fn on_account(&mut self, connection: u64, account: &Account)
        ensures heard { (h : List Hearing) → heard self.old h
            → heard self.new (h ++ (connection, account.now) ∷ []) };

    /// What was asked over a link of the administration, once its request is whole or refused.
    fn on_request(&mut self, link: Link, request: &AdminRequest<'_>)
        ensures heard { (h : List Hearing) → heard self.old h → heard self.new h };
}

/// A listener that keeps nothing.
#[derive(Clone, Copy, Debug)]
pub struct NoListener;

impl Listener for NoListener {
    ghost heard = { λ _ _. ⊥ };

    fn on_link<W: Wire>(&mut self, _wire: &W, _port: Port, _link: Link, _event: LinkEvent) {}

    fn on_open(&mut self, _link: Link, _connection: u64) {}

    fn on_account(&mut self, _connection: u64, _account: &Account) {}

    fn on_request(&mut self, _link: Link, _request: &AdminRequest<'_>) {}
}
