//! Prints a text whole, or a beginning of it.

ghost use Rattle.std.specs.Prelude.{◌≡◌, ◌≤◌, IfOk, IfErr, OnOk, length};
ghost use Rattle.std.specs.Io.KnownBytes.{Appends, WriteAppends};
ghost use Rattle.converse.specs.Printed.{PrintsPart};
ghost use Rattle.converse.specs.declared.fault.Fault.TheVariants.{CannotWrite};

use crate::fault::Fault;
use std::io::{ErrorKind, Write};

/// Writes some of the text, which isn't empty, and gives how many octets: none if a signal broke
/// in. An `Err` is a writer that refuses, or takes none.
fn put_some<W: Write>(out: &mut W, text: &[u8]) -> Result<usize, Fault>
    ensures bound { IfOk result (λ count. count ≤ length text.now) }
    ensures bytes { WriteAppends (W.contents out.old) (W.contents out.new) result text.now }
    ensures cause { IfErr result (λ fault. fault ≡ CannotWrite) }
{
    match out.write(text) {
        Ok(0) => Err(Fault::CannotWrite),
        Ok(count) => Ok(count),
        Err(error) if error.kind() == ErrorKind::Interrupted => Ok(0),
        Err(_) => Err(Fault::CannotWrite),
    }
}

/// Prints a text, and flushes. Answers [`Fault::CannotWrite`] if `out` refuses octets; a
/// beginning of the text may then be printed.
pub(crate) fn print<W: Write>(out: &mut W, text: &[u8]) -> Result<(), Fault>
    ensures ok { OnOk result (Appends (W.contents out.old) (W.contents out.new) text.now) }
    ensures part { PrintsPart (W.contents out.old) (W.contents out.new) text.now }
    ensures cause { IfErr result (λ fault. fault ≡ CannotWrite) }
{
    let mut done: usize = 0;
    for _ in 0..u64::MAX {
        if done == text.len() {
            return match out.flush() {
                Ok(()) => Ok(()),
                Err(_) => Err(Fault::CannotWrite),
            };
        }
        done += put_some(out, &text[done..])?;
    }
    Err(Fault::CannotWrite)
}
