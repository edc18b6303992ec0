//! What `--verbose` adds to a fault: a line `why: ..` on standard error, which says what the fault
//! is about: the file, the line, the key or the value, and what is wrong with it.
#![tactic(auto)]

ghost use Rattle.std.specs.Prelude.{◌≡◌};

mod bad_line;
mod bad_rule;
mod closed_store;
mod keeping;
mod watched;

pub use bad_line::tell_bad_line;
pub use bad_rule::tell_bad_policy;
pub use closed_store::{tell_closed_store, tell_tables};
use converse::{Fault, read_fault, tell_fault};
use creds::HostName;
pub use keeping::Keeping;
use std::io::{Error, Write};
pub use watched::Watched;

/// Prints that a file, or standard input, can't be opened or read. Gives the exit status.
pub fn tell_unread<E: Write>(err: &mut E, is_verbose: bool, name: &str, error: &Error) -> u8
    ensures { result ≡ 1 }
{
    let status = tell_fault(err, read_fault(error));
    if is_verbose {
        let _ = writeln!(err, "why: {name}: {error}");
    }
    status
}

/// Prints what the system answered to standard input or output, if it refused.
pub fn tell_refusal<E: Write>(err: &mut E, name: &str, refusal: Option<Error>) {
    if let Some(error) = refusal {
        let _ = writeln!(err, "why: {name}: {error}");
    }
}

/// Prints the form of a host's name, if this is none.
pub fn tell_host<E: Write>(err: &mut E, host: &str) {
    if HostName::read(host.as_bytes()).is_none() {
        let _ = writeln!(
            err,
            "why: --host {host:?}: 1 to 64 of a-z, 0-9, . and -; no part between dots is empty, or has - at an end"
        );
    }
}

/// Prints a fault of a command that ran under a host's name, and with `--verbose` what it is about.
/// Gives the exit status.
pub fn tell_stop<E: Write>(err: &mut E, is_verbose: bool, host: &str, fault: Fault) -> u8
    ensures { result ≡ 1 }
{
    let status = tell_fault(err, fault);
    if is_verbose {
        match fault {
            Fault::BadHost => tell_host(err, host),
            Fault::NoClock => {
                let _ = writeln!(err, "why: the system's clock gives no time since 1970");
            }
            Fault::CannotWrite => {
                let _ = writeln!(err, "why: standard output takes nothing more");
            }
            _ => {}
        }
    }
    status
}
