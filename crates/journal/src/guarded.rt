//! A spool that gives no file once the server's store is lost.
ghost use Rattle.std.specs.Prelude.{◌≡◌, List};
ghost use Rattle.serving.specs.Spools.{FileCall};
ghost use Rattle.journal.specs.Guards.{AreFilesHandedOn, AreGuarded};

use super::spool::LoggedSpool;
use super::watch::{NotedWatch, Watch};
use serving::{Coming, FileName, NotedSpool, Spool};

/// A spool that does what the one inside does, but has a watch look before each file. Once that
/// says that the store is lost, that its files are others than those that are open, it gives none.
#[derive(Drop)]
pub struct GuardedSpool<S: Spool, X: Watch> {
    pub spool: S,
    pub watch: X,
}

impl<S: Spool, X: Watch> GuardedSpool<S, X> {
    /// Guards a spool.
    pub fn new(spool: S, watch: X) -> GuardedSpool<S, X>
        ensures spool { result.spool ≡ spool }
        ensures watch { result.watch ≡ watch }
    {
        GuardedSpool { spool, watch }
    }
}

/// Each call as in the spool inside, while the store is there.
impl<S: Spool, X: Watch> Spool for GuardedSpool<S, X> {
    ghost tells = { λ r. S.tells r.spool };

    ghost asked = { λ r calls. AreGuarded S.asked X.answered r.spool r.watch calls };

    ghost parted = { λ r. S.parted r.spool };

    ghost is_coming = { λ r. S.is_coming r.spool };

    ghost tells_once = { λ r. S.tells_once r.spool };

    fn next_name(&mut self, last: &Option<FileName>) -> Option<FileName> {
        let name = self.spool.next_name(last)?;
        self.watch.look_now();
        if self.watch.is_lost() {
            return None;
        }
        Some(name)
    }

    fn read(&mut self, name: &FileName) -> Option<Vec<u8>> {
        self.spool.read(name)
    }

    fn remove(&mut self, name: &FileName) -> bool {
        self.spool.remove(name)
    }

    fn rename(&mut self, name: &FileName) -> bool {
        self.spool.rename(name)
    }

    fn coming(&self) -> Option<&Coming> {
        self.spool.coming()
    }

    fn read_on(&mut self) {
        self.spool.read_on();
    }

    fn note_prepared(&mut self) {
        self.spool.note_prepared();
    }
}

/// A law: of the calls of the spool that a server's loop uses, these reached the folder, in this
/// order, and were answered so: those that stand in the notes right around the folder. Each call is
/// handed on as it is, but a file's name isn't handed back if the watch answered that the store is
/// lost (`AreFilesHandedOn`).
pub fn folder_was_asked<'a, S: Spool, X: Watch>(
    spool: &GuardedSpool<LoggedSpool<'a, NotedSpool<S>>, NotedWatch<X>>,
)
    ensures { (calls : List FileCall)
        → ⟦<GuardedSpool<LoggedSpool<'a, NotedSpool<S>>, NotedWatch<X>> as Spool>⟧.asked
        spool.now calls
        → AreFilesHandedOn spool.now.spool.spool.notes.calls spool.now.watch.notes.items calls }
{}
