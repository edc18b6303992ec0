//! Why a call over the tables is not done.
ghost use Rattle.std.specs.Prelude.{◌≡◌, ◌≤◌, true};
ghost use Rattle.vault.specs.declared.fault.VaultFault.TheVariants.{Store};
ghost use Rattle.vault.specs.Calls.{has_grown};
ghost use Rattle.sqlite.specs.declared.error.Error.TheVariants.{SqliteFailure};
ghost use Rattle.sqlite.specs.declared.error.ErrorCode.TheVariants.{DatabaseCorrupt};
ghost use Rattle.sqlvault.specs.Refusals.{is_memory, told, counted_by};

use sqlite::{Error, ErrorCode};
use vault::VaultFault;

/// Why a call over the tables is not done.
#[derive(Drop)]
pub enum Refusal {
    /// The contents forbid it: the vault's own answer.
    Answered(VaultFault),
    /// A statement met this error, or a row is no record of a vault.
    Met(Error),
}

impl From<Error> for Refusal {
    ghost use Rattle.sqlvault.specs.declared.refusal.Refusal.TheVariants.{Met};

    ghost from_gives = { λ error refusal. refusal ≡ Met error };

    fn from(error: Error) -> Refusal {
        Refusal::Met(error)
    }
}

impl From<VaultFault> for Refusal {
    ghost use Rattle.sqlvault.specs.declared.refusal.Refusal.TheVariants.{Answered};

    ghost from_gives = { λ fault refusal. refusal ≡ Answered fault };

    fn from(fault: VaultFault) -> Refusal {
        Refusal::Answered(fault)
    }
}

/// The error for a row that is no record of a vault. A sound store has no such row.
pub(crate) fn unreadable() -> Error
    ensures { result ≡ SqliteFailure DatabaseCorrupt }
{
    Error::SqliteFailure(ErrorCode::DatabaseCorrupt)
}

/// Whether the error is that memory ran out.
pub(crate) fn is_memory(error: &Error) -> bool
    ensures { result ≡ is_memory error.now }
{
    matches!(error, Error::SqliteFailure(ErrorCode::OutOfMemory))
}

/// The refusal as the vault's fault.
pub(crate) fn fault_of(refusal: Refusal) -> VaultFault
    ensures { result ≡ told refusal }
{
    match refusal {
        Refusal::Answered(fault) => fault,
        Refusal::Met(error) => {
            if is_memory(&error) {
                VaultFault::NoMemory
            } else {
                VaultFault::Store
            }
        }
    }
}

/// The refusal as the vault's fault. Adds one to `faults`, `u64::MAX` at most, if it is `Store`.
pub(crate) fn tell(faults: &mut u64, refusal: Refusal) -> VaultFault
    ensures told { result ≡ told refusal }
    ensures counted { faults.new ≡ counted_by (told refusal) faults.old }
    ensures kept { faults.old ≤ faults.new }
    ensures grown { told refusal ≡ Store → has_grown faults.old faults.new ≡ true }
{
    let fault = fault_of(refusal);
    if matches!(fault, VaultFault::Store) {
        *faults = faults.saturating_add(1);
    }
    fault
}
