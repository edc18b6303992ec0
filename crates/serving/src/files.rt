//! One file of a spool in a turn.
ghost use Rattle.std.specs.Prelude.{◌≡◌, ◌||◌, List};
ghost use Rattle.office.specs.Events.{Trace};
ghost use Rattle.office.specs.Seen.{outcome_seen};
ghost use Rattle.office.specs.Stands.{StandsFor, vault_of};
ghost use Rattle.serving.specs.Spools.{FileAct, disposal_of};
ghost use Rattle.serving.specs.Deposits.{IsTried};
ghost use Rattle.serving.specs.SpoolTurns.{Tries, KeepsClients, IsTrying, IsSpoolTurn, has_dealt};

use crate::file_name::FileName;
use crate::links::Clients;
use crate::listener::Listener;
use crate::server::Server;
use crate::spool::Spool;
use crate::wire::Wire;
use office::{Answer, Event, Outcome};
use vault::Vault;

/// What becomes of a spool file.
#[derive(Clone, Copy, PartialEq, Eq, Debug)]
pub(crate) enum Disposal {
    /// Its message is in the store.
    Remove,
    /// It can never be deposited: its text is empty or too large, or its id has another text.
    Rename,
    /// It stays, and is tried again later.
    Leave,
}

/// What becomes of a file whose deposit had this outcome.
fn disposal_by(outcome: Outcome) -> Disposal
    ensures { result ≡ disposal_of (outcome_seen outcome) }
{
    match outcome {
        Outcome::Answered(Answer::New(_) | Answer::Known(_)) => Disposal::Remove,
        Outcome::Answered(Answer::EmptyText | Answer::TextTooLarge | Answer::Conflict) => {
            Disposal::Rename
        }
        _ => Disposal::Leave,
    }
}

impl<V: Vault, W: Wire, L: Listener> Server<V, W, L> {
    /// Deposits a file, and removes, renames or leaves it by the office's answer; one that can't be
    /// read is left. Returns whether it was removed or renamed.
    fn try_file<S: Spool>(&mut self, spool: &mut S, name: &FileName) -> bool
        ensures works { Tries V.Vault S.Spool self.old spool.old self.new spool.new
            (λ T given calls. IsTrying name.now T given calls × (result ≡ has_dealt calls)) }
        ensures tried { (T : Trace) (acts : List FileAct) → StandsFor V.holds self.old.office T
            → S.tells spool.old acts → V.is_clean (vault_of self.new.office)
            → IsTried V.holds S.tells T acts self.new.office spool.new }
    {
        let Some(text) = spool.read(name) else {
            return false;
        };
        let event = Event::Deposit(&name.maildrop, &name.class, &name.id, text.as_slice());
        let fate = disposal_by(self.office.step(event));
        match fate {
            Disposal::Remove => spool.remove(name),
            Disposal::Rename => spool.rename(name),
            Disposal::Leave => false,
        }
    }

    /// Tries the next file of the spool in the order of names, after the one tried last; after the
    /// last name, the first again. If it was removed or renamed, the next turn doesn't wait.
    pub(crate) fn serve_spool<S: Spool>(&mut self, clients: &mut Clients, spool: &mut S)
        ensures works { Tries V.Vault S.Spool self.old spool.old self.new spool.new
            (λ T given calls. IsSpoolTurn clients.old.last clients.new.last T given calls
            × (clients.new.poll_now ≡ (clients.old.poll_now || has_dealt calls))) }
        ensures tried { (T : Trace) (acts : List FileAct) → StandsFor V.holds self.old.office T
            → S.tells spool.old acts → V.is_clean (vault_of self.new.office)
            → IsTried V.holds S.tells T acts self.new.office spool.new }
        ensures keeps { KeepsClients clients.old clients.new }
    {
        let Some(name) = spool.next_name(&clients.last) else {
            return;
        };
        let is_dealt = self.try_file(spool, &name);
        clients.poll_now |= is_dealt;
        clients.last = Some(name);
    }
}
