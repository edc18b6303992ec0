//! A listener that notes what the one inside hears.
ghost use Rattle.std.specs.Prelude.{◌≡◌, List, [], ◌∷◌, ◌++◌};
ghost use Rattle.serving.specs.Hearing.{Hearing};

use crate::hearings::Hearings;
use crate::listener::{AdminRequest, LinkEvent, Listener};
use crate::wire::{Link, Port, Wire};
use office::Account;

/// A listener that lets the one inside hear all, and notes the accounts.
///
/// Of any listener inside, `heard` is known of this one: the accounts that it handed on. The notes
/// are in the proofs alone and take no memory.
#[derive(Drop)]
pub struct NotedListener<L: Listener> {
    pub listener: L,
    pub notes: Hearings,
}

impl<L: Listener> NotedListener<L> {
    /// A listener around this one, that heard nothing yet.
    pub fn new(listener: L) -> NotedListener<L>
        ensures listener { result.listener ≡ listener }
        ensures fresh { result.notes.heard ≡ [] }
    {
        NotedListener {
            listener,
            notes: Hearings::new(),
        }
    }
}

impl<L: Listener> Listener for NotedListener<L> {
    ghost heard = { λ noted h. h ≡ noted.notes.heard };

    fn on_link<W: Wire>(&mut self, wire: &W, port: Port, link: Link, event: LinkEvent)
        ensures heard { (h : List Hearing) → h ≡ self.old.notes.heard → h ≡ self.new.notes.heard }
        ensures inside { (h : List Hearing) → L.heard self.old.listener h
            → L.heard self.new.listener h }
    {
        self.listener.on_link(wire, port, link, event);
    }

    fn on_open(&mut self, link: Link, connection: u64)
        ensures heard { (h : List Hearing) → h ≡ self.old.notes.heard → h ≡ self.new.notes.heard }
        ensures inside { (h : List Hearing) → L.heard self.old.listener h
            → L.heard self.new.listener h }
    {
        self.listener.on_open(link, connection);
    }

    fn on_account(&mut self, connection: u64, account: &Account)
        ensures heard { (h : List Hearing) → h ≡ self.old.notes.heard
            → h ++ (connection, account.now) ∷ [] ≡ self.new.notes.heard }
        ensures inside { (h : List Hearing) → L.heard self.old.listener h
            → L.heard self.new.listener (h ++ (connection, account.now) ∷ []) }
    {
        self.listener.on_account(connection, account);
        self.notes.note(connection, account);
    }

    fn on_request(&mut self, link: Link, request: &AdminRequest<'_>)
        ensures heard { (h : List Hearing) → h ≡ self.old.notes.heard → h ≡ self.new.notes.heard }
        ensures inside { (h : List Hearing) → L.heard self.old.listener h
            → L.heard self.new.listener h }
    {
        self.listener.on_request(link, request);
    }
}
