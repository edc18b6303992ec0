//! A job that only looks.
use crate::Job;
use vault::{Total, Vault, VaultFault};

/// Asks which maildrops a store has, and changes nothing.
#[derive(Drop)]
pub struct Looking;

impl Job for Looking {
    ghost use Rattle.std.specs.Prelude.{◌≡◌, ⊤};
    ghost use Rattle.vault.specs.Calls.{seen_as};
    ghost use Rattle.vault.specs.Changes.{totals};
    ghost use Rattle.office.specs.Sessions.{records};
    ghost use Rattle.office.specs.Trace.{history};
    ghost use Rattle.jobs.specs.Commands.{IsLook};

    type Answer = Result<Vec<Total>, VaultFault>;

    ghost tells = { λ _. ⊤ };

    ghost does = { λ _ T U first last answer. (U ≡ T)
        × IsLook (totals (records T.base (history T))) first last
        (seen_as answer (λ found. found.items)) };

    fn run<V: Vault>(self, vault: V) -> (Result<Vec<Total>, VaultFault>, V) {
        let mut vault = vault;
        let totals = vault.maildrops();
        (totals, vault)
    }
}
