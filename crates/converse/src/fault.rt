//! Why a run stops, and how that is printed on standard error.

ghost use Rattle.std.specs.Prelude.{◌≡◌, ◌↔◌, ◌⊎◌, IfOk, Some};
ghost use Rattle.std.specs.IoError.{error_kind};
ghost use Rattle.converse.specs.Told.{fault_text as text_of, fault_line};
ghost use Rattle.converse.specs.FaultNames.{store_fault_name, talk_fault_name};
ghost use Rattle.converse.specs.Causes.{of_script, of_opening};
ghost use Rattle.converse.specs.Printed.{PrintsPart};
ghost use Rattle.converse.specs.declared.fault.Fault.TheVariants.{OutOfMemory, Store};

use crate::printing::print;
use crate::script::ScriptFault;
use crate::talk::TalkFault;
use arrayvec::ArrayVec;
use office::OpenFault;
use policy::PolicyFault;
use std::alloc::{AllocError, AllocFailed};
use std::io::{ErrorKind, Write};
use std::{fmt, io};
use vault::VaultFault;

/// Why a run stopped. Its text is what standard error says after `popbox: `.
#[derive(Clone, Copy, Debug)]
pub enum Fault {
    /// The file can't be opened or read.
    CannotRead,
    /// The script's line of this number, from 1, is no event.
    BadEvent(u64),
    /// The host name isn't of its form.
    BadHost,
    /// The store can't be opened, or it refused a call, for this cause.
    Store(VaultFault),
    /// The conversation was broken off.
    Talk(TalkFault),
    /// The file holds no policy: its first fault, which isn't want of memory.
    NoPolicy(PolicyFault),
    /// The clock can't be read.
    NoClock,
    /// A file can't be put into a folder.
    CannotPut,
    /// Standard output refuses octets.
    CannotWrite,
    /// Texts of messages don't have the digests of their deposits. Standard output names them.
    Differs,
    /// Memory ran out.
    OutOfMemory,
}

impl fmt::Display for Fault {
    ghost output = { λ fault. Some (text_of fault) };

    fn fmt<W: fmt::Write>(&self, f: &mut fmt::Formatter<W>) -> fmt::Result {
        match self {
            Fault::CannotRead => f.write_str("cannot read file"),
            Fault::BadEvent(number) => write!(f, "line {number}: bad event"),
            Fault::BadHost => f.write_str("BadHost"),
            Fault::Store(fault) => f.write_str(fault_text(fault)),
            Fault::Talk(fault) => f.write_str(talk_fault_text(fault)),
            Fault::NoPolicy(fault) => write!(f, "{fault}"),
            Fault::NoClock => f.write_str("cannot read clock"),
            Fault::CannotPut => f.write_str("cannot write file"),
            Fault::CannotWrite => f.write_str("cannot write"),
            Fault::Differs => f.write_str("texts differ from their digests"),
            Fault::OutOfMemory => f.write_str("out of memory"),
        }
    }
}

impl From<AllocError> for Fault {
    ghost from_gives = { λ _ fault. fault ≡ OutOfMemory };

    fn from(_: AllocError) -> Fault {
        Fault::OutOfMemory
    }
}

impl<T: Drop> From<AllocFailed<T>> for Fault {
    ghost from_gives = { λ _ fault. fault ≡ OutOfMemory };

    fn from(_: AllocFailed<T>) -> Fault {
        Fault::OutOfMemory
    }
}

impl From<ScriptFault> for Fault {
    ghost from_gives = { λ met fault. fault ≡ of_script met };

    fn from(fault: ScriptFault) -> Fault {
        match fault {
            ScriptFault::BadEvent(number) => Fault::BadEvent(number),
            ScriptFault::NoMemory => Fault::OutOfMemory,
        }
    }
}

impl From<OpenFault> for Fault {
    ghost from_gives = { λ met fault. fault ≡ of_opening met };

    fn from(fault: OpenFault) -> Fault {
        match fault {
            OpenFault::BadHost => Fault::BadHost,
            OpenFault::Store => Fault::Store(VaultFault::Store),
            OpenFault::NoMemory => Fault::OutOfMemory,
        }
    }
}

impl From<VaultFault> for Fault {
    ghost from_gives = { λ met fault. fault ≡ Store met };

    fn from(fault: VaultFault) -> Fault {
        Fault::Store(fault)
    }
}

/// The name of a store's fault, as the variant is spelled.
pub fn fault_text(fault: &VaultFault) -> &'static str
    ensures { result.now ≡ store_fault_name fault.now }
{
    match fault {
        VaultFault::NoMaildrop => "NoMaildrop",
        VaultFault::Conflict => "Conflict",
        VaultFault::Full => "Full",
        VaultFault::Store => "Store",
        VaultFault::NoMemory => "NoMemory",
        VaultFault::NotEmpty => "NotEmpty",
        VaultFault::NotOurs => "NotOurs",
        VaultFault::OldVersion => "OldVersion",
        VaultFault::NoClerk => "NoClerk",
    }
}

/// The name of a conversation's fault, as the variant is spelled.
fn talk_fault_text(fault: &TalkFault) -> &'static str
    ensures { result.now ≡ talk_fault_name fault.now }
{
    match fault {
        TalkFault::Read => "Read",
        TalkFault::Write => "Write",
        TalkFault::TooManyConnections => "TooManyConnections",
        TalkFault::NoMemory => "NoMemory",
        TalkFault::Endless => "Endless",
    }
}

/// The fault that says that a file can't be opened or read.
pub fn read_fault(error: &io::Error) -> Fault
    ensures memory { (result ≡ Fault.OutOfMemory) ↔ (error_kind error.now ≡ ErrorKind.OutOfMemory) }
    ensures cause { (result ≡ Fault.CannotRead) ⊎ (result ≡ Fault.OutOfMemory) }
{
    match error.kind() {
        ErrorKind::OutOfMemory => Fault::OutOfMemory,
        _ => Fault::CannotRead,
    }
}

/// The fault that says that a folder refused a file.
pub fn put_fault(error: &io::Error) -> Fault
    ensures memory { (result ≡ Fault.OutOfMemory) ↔ (error_kind error.now ≡ ErrorKind.OutOfMemory) }
    ensures cause { (result ≡ Fault.CannotPut) ⊎ (result ≡ Fault.OutOfMemory) }
{
    match error.kind() {
        ErrorKind::OutOfMemory => Fault::OutOfMemory,
        _ => Fault::CannotPut,
    }
}

/// How many octets the line of a fault has at most.
const MOST_OCTETS: usize = 128;

/// The line of a fault.
fn line_of(fault: Fault) -> io::Result<ArrayVec<u8, MOST_OCTETS>>
    ensures { IfOk result (λ line. line.items ≡ fault_line fault) }
{
    let mut line = ArrayVec::new();
    writeln!(line, "popbox: {fault}")?;
    Ok(line)
}

/// Prints the line of a fault on standard error, and gives the exit status, which is 1.
/// If `err` refuses octets a beginning of the line may be written; the status alone tells it
/// then.
pub fn tell_fault<E: Write>(err: &mut E, fault: Fault) -> u8
    ensures status { result ≡ 1 }
    ensures line { PrintsPart (E.contents err.old) (E.contents err.new) (fault_line fault) }
{
    match line_of(fault) {
        Ok(line) => {
            let _ = print(err, line.as_slice());
            1
        }
        Err(_) => 1,
    }
}
