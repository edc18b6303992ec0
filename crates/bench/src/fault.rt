//! Why a measure stops.

use sqlite::Error;
use std::alloc::{AllocError, AllocFailed};
use std::io;
use vault::VaultFault;

/// Why a measure stops.
#[derive(Clone, Copy, Debug)]
pub enum Fault {
    /// Memory was refused.
    NoMemory,
    /// The clock, the command line or the standard output.
    System,
    /// SQLite refused a statement, or can't close a file.
    Statement,
    /// A store can't be opened.
    Store(VaultFault),
    /// An office wasn't opened.
    Opening,
    /// A text is no name, or no deposit id.
    Name,
    /// An office refused a command of the administration.
    Command,
    /// A text is no policy.
    Policy,
    /// An office refused a deposit, or had it already.
    Deposit,
    /// An office opened no connection.
    Connection,
    /// An office refused a line, or its reply is no `+OK`.
    Line,
    /// An office refused that octets were taken.
    Taking,
    /// There is no measure of this name.
    NoMeasure,
    /// There is no store of this name.
    NoStore,
}

impl From<AllocError> for Fault {
    fn from(_: AllocError) -> Fault {
        Fault::NoMemory
    }
}

impl<T: Drop> From<AllocFailed<T>> for Fault {
    fn from(_: AllocFailed<T>) -> Fault {
        Fault::NoMemory
    }
}

impl From<io::Error> for Fault {
    fn from(_: io::Error) -> Fault {
        Fault::System
    }
}

impl From<Error> for Fault {
    fn from(_: Error) -> Fault {
        Fault::Statement
    }
}

impl From<VaultFault> for Fault {
    fn from(fault: VaultFault) -> Fault {
        Fault::Store(fault)
    }
}
