//! Notes of what a listener heard, which only proofs read.
ghost use Rattle.std.specs.Prelude.{◌≡◌, [], ◌∷◌, ◌++◌};

use notes::Notes;
use office::Account;
use std::marker::Model;

/// The accounts that a listener heard, the newest last. They are in the proofs alone: a value takes
/// no memory, and to note an account does nothing when the program runs.
#[derive(Drop)]
pub struct Hearings {
    list: Notes<(u64, Notes<Account>)>,
}

impl Model for Hearings {
    ghost use Rattle.serving.specs.NotedHearings.{NotedHearings, hearings_of};

    ghost Value = { NotedHearings };

    ghost view = { λ n. record { heard = hearings_of n.list.items } };
}

impl Hearings {
    /// Nothing was heard.
    pub(crate) fn new() -> Hearings
        ensures { result.heard ≡ [] }
    {
        Hearings { list: Notes::new() }
    }

    /// Notes an account, and its connection.
    #[inline(always)]
    pub(crate) fn note(&mut self, connection: u64, account: &Account)
        ensures { self.new.heard ≡ self.old.heard ++ (connection, account.now) ∷ [] }
    {
        let mut accounts = Notes::new();
        accounts.note(account);
        self.list.note(&(connection, accounts));
    }
}
