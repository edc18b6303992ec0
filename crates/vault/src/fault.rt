//! Why a call of a vault is refused.
ghost use Rattle.std.specs.Prelude.{◌≡◌, Some};
ghost use Rattle.vault.specs.Faults.{fault_text};
ghost use Rattle.vault.specs.declared.fault.VaultFault.TheVariants.{NoMemory};

use std::alloc::{AllocError, AllocFailed};
use std::error::Error;
use std::fmt;

/// Why a call of a vault is refused. A refused call changes nothing of what the vault holds.
#[derive(Clone, Copy, PartialEq, Eq, Debug)]
pub enum VaultFault {
    /// There is no maildrop of that name.
    NoMaildrop,
    /// The deposit id was used before, with another class or another text.
    Conflict,
    /// A limit is reached: 10,000 messages in a maildrop, 1,000,000,000 deposits of a class in a
    /// maildrop's name, 1,000 maildrops or 1,000 clerks.
    Full,
    /// What the store stands on refused a statement.
    Store,
    /// Memory ran out.
    NoMemory,
    /// The maildrop still has messages.
    NotEmpty,
    /// The file is no store of ours.
    NotOurs,
    /// The file is a store of another version.
    OldVersion,
    /// There is no clerk of that name.
    NoClerk,
}

impl VaultFault {
    /// The fault in words.
    fn text(self) -> &'static str
        ensures { result.now ≡ fault_text self }
    {
        match self {
            VaultFault::NoMaildrop => "no such maildrop",
            VaultFault::Conflict => "conflict",
            VaultFault::Full => "full",
            VaultFault::Store => "store failed",
            VaultFault::NoMemory => "out of memory",
            VaultFault::NotEmpty => "not empty",
            VaultFault::NotOurs => "not ours",
            VaultFault::OldVersion => "old version",
            VaultFault::NoClerk => "no such clerk",
        }
    }
}

impl fmt::Display for VaultFault {
    ghost output = { λ fault. Some (fault_text fault) };

    fn fmt<W: fmt::Write>(&self, f: &mut fmt::Formatter<W>) -> fmt::Result {
        f.write_str(self.text())
    }
}

impl Error for VaultFault {}

impl From<AllocError> for VaultFault {
    ghost from_gives = { λ _ fault. fault ≡ NoMemory };

    fn from(_error: AllocError) -> VaultFault {
        VaultFault::NoMemory
    }
}

impl<T: Drop> From<AllocFailed<T>> for VaultFault {
    ghost from_gives = { λ _ fault. fault ≡ NoMemory };

    fn from(_failed: AllocFailed<T>) -> VaultFault {
        VaultFault::NoMemory
    }
}
