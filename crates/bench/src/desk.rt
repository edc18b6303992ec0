//! What the measures ask of an office, as a trait without clauses, so that their proofs need not
//! carry the clauses of an office.

use crate::fault::Fault;
use office::{Answer, Event, Limits, Office, Outcome};
use std::alloc::Global;
use vault::Vault;

/// An office, as the measures use it.
pub trait Desk {
    /// Does an event. Answers the number of the connection that it opens, and 0 for other events.
    ///
    /// Gives `fault` if the event isn't done, or if it is a deposit that isn't new.
    fn perform(&mut self, event: Event<'_>, fault: Fault) -> Result<u64, Fault>;

    /// The octets that a connection is owed.
    fn lent(&self, c: u64) -> &[u8];
}

impl<V: Vault> Desk for Office<V> {
    fn perform(&mut self, event: Event<'_>, fault: Fault) -> Result<u64, Fault> {
        match self.step(event) {
            Outcome::Opened(c) => Ok(c),
            Outcome::Done => Ok(0),
            Outcome::Answered(
                Answer::New(_)
                | Answer::Added
                | Answer::WasThere
                | Answer::Replaced
                | Answer::RuleCount(_),
            ) => Ok(0),
            _ => Err(fault),
        }
    }

    fn lent(&self, c: u64) -> &[u8] {
        self.owed(c)
    }
}

/// Opens an office over a vault. Gives the vault back if it isn't opened.
pub fn opened<V: Vault>(alloc: Global, vault: V) -> Result<Office<V>, (Fault, V)> {
    let Some(limits) = Limits::new(600) else {
        return Err((Fault::Opening, vault));
    };
    match Office::open(alloc, vault, "localhost", 1, limits) {
        Ok(office) => Ok(office),
        Err((_, vault)) => Err((Fault::Opening, vault)),
    }
}
