//! A clock that notes what the one inside gives.
ghost use Rattle.std.specs.Prelude.{◌≡◌, ℕ, List, Option, [], ◌∷◌, ◌++◌};

use crate::running::Clock;
use notes::Notes;

/// A clock that gives what the one inside gives, and notes it.
///
/// Of any clock inside, `gave` is known of this one: the moments that it handed on, and that it
/// gave none. The notes are in the proofs alone and take no memory. What time it really was is no
/// more known than before.
#[derive(Drop)]
pub struct NotedClock<C: Clock> {
    pub clock: C,
    pub notes: Notes<Option<u64>>,
}

impl<C: Clock> NotedClock<C> {
    /// A clock around this one, that gave nothing yet.
    pub fn new(clock: C) -> NotedClock<C>
        ensures clock { result.clock ≡ clock }
        ensures fresh { result.notes.items ≡ [] }
    {
        NotedClock {
            clock,
            notes: Notes::new(),
        }
    }
}

impl<C: Clock> Clock for NotedClock<C> {
    ghost gave = { λ noted answers. answers ≡ noted.notes.items };

    fn moment(&mut self) -> Option<u64>
        ensures called { (a : List (Option ℕ)) → a ≡ self.old.notes.items
            → a ++ result ∷ [] ≡ self.new.notes.items }
        ensures inside { (a : List (Option ℕ)) → C.gave self.old.clock a
            → C.gave self.new.clock (a ++ result ∷ []) }
    {
        let moment = self.clock.moment();
        self.notes.note(&moment);
        moment
    }
}
