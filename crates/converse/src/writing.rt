//! Writes a text to a sink, whole, or a beginning of it.

ghost use Rattle.std.specs.Prelude.{◌≡◌, ◌<◌, ◌≤◌, [], length, take, IfOk, IfErr, OnOk};
ghost use Rattle.std.specs.Prelude.{MatchResult, true};
ghost use Rattle.converse.specs.Streams.{Writes, WritesPart, writes_failed};
ghost use Rattle.converse.specs.declared.fault.Fault.TheVariants.{CannotWrite};

use crate::fault::Fault;
use crate::streams::Sink;
use std::io::ErrorKind;

/// Writes some of the text, and gives how many octets: none if a signal broke in. An `Err` is a
/// sink that refuses, or takes none.
fn write_some<S: Sink>(out: &mut S, text: &[u8]) -> Result<usize, Fault>
    requires { 0 < length text.now }
    ensures bound { IfOk result (λ count. count ≤ length text.now) }
    ensures took { MatchResult result (λ count. Writes (S.seen out.old) (S.seen out.new)
        (take count text.now)
        × (count ≡ 0 → writes_failed (S.seen out.old) (S.seen out.new) ≡ true))
        (λ fault. Writes (S.seen out.old) (S.seen out.new) []
        × (fault ≡ CannotWrite)
        × (writes_failed (S.seen out.old) (S.seen out.new) ≡ true)) }
{
    match out.write(text) {
        Ok(count) => {
            if count == 0 {
                return Err(Fault::CannotWrite);
            }
            Ok(count)
        }
        Err(error) if error.kind() == ErrorKind::Interrupted => Ok(0),
        Err(_) => Err(Fault::CannotWrite),
    }
}

/// Hands on what was written.
fn flush<S: Sink>(out: &mut S) -> Result<(), Fault>
    ensures took { Writes (S.seen out.old) (S.seen out.new) [] }
    ensures flushed { OnOk result ((S.seen out.new).flushed ≡ true) }
    ensures cause { IfErr result (λ fault. (fault ≡ CannotWrite)
        × (writes_failed (S.seen out.old) (S.seen out.new) ≡ true)) }
{
    match out.flush() {
        Ok(()) => Ok(()),
        Err(_) => Err(Fault::CannotWrite),
    }
}

/// Writes a text, and flushes. Answers [`Fault::CannotWrite`] if a call of the sink failed, or
/// took none of some octets; a beginning of the text may then be written.
pub(crate) fn write_text<S: Sink>(out: &mut S, text: &[u8]) -> Result<(), Fault>
    ensures ok { OnOk result (Writes (S.seen out.old) (S.seen out.new) text.now) }
    ensures flushed { OnOk result ((S.seen out.new).flushed ≡ true) }
    ensures part { WritesPart (S.seen out.old) (S.seen out.new) text.now }
    ensures cause { IfErr result (λ fault. (fault ≡ CannotWrite)
        × (writes_failed (S.seen out.old) (S.seen out.new) ≡ true)) }
{
    let mut done: usize = 0;
    for _ in 0..u64::MAX {
        if done == text.len() {
            return flush(out);
        }
        done += write_some(out, &text[done..])?;
    }
    Err(Fault::CannotWrite)
}
