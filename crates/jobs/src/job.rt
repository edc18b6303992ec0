//! What is done over a store, from its opening to its closing.
ghost use Rattle.std.specs.Prelude.{ℕ};
ghost use Rattle.office.specs.Events.{Trace};
ghost use Rattle.office.specs.Stands.{Keeps};

use vault::Vault;

/// A job over a store: a script, a conversation, a server's turns, or one event.
///
/// Contracts see what it does to the trace that the store keeps. Of a job that doesn't tell what it
/// does they say nothing.
pub trait Job {
    /// What it answers.
    type Answer;

    /// It says what it does.
    ghost tells: { Self → Type 0 };

    /// The job over a store that kept the first trace, and whose count of faults was the first
    /// number, left a store that keeps the second, with the second count, and answered this.
    ghost does: { Self → Trace → Trace → ℕ → ℕ → Self.Answer → Type 0 };

    /// Does the job over a store, and gives the store back.
    fn run<V: Vault>(self, vault: V) -> (Self::Answer, V)
        ensures done { tells self → (T : Trace) → Keeps (V.holds vault) T → V.is_clean result.1
            → (U : Trace) × does self T U (V.faults vault) (V.faults result.1) result.0
            × Keeps (V.holds result.1) U }
        ensures clean { tells self → V.is_clean result.1 → V.is_clean vault };
}
