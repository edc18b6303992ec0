//! `popbox check-policy`: prints how many rules a policy's text has, or the policy in its written
//! form, or the text's first fault.

ghost use Rattle.std.specs.Prelude.{◌≡◌, ◌⊎◌, true, false, IfOk, IfErr, OnOk, string_bytes};
ghost use Rattle.policy.specs.WrittenText.{policy_text};
ghost use Rattle.converse.specs.Causes.{IsPolicyEnd, Reports};
ghost use Rattle.converse.specs.PolicyFile.{IsPolicyText, IsFaultOf, IsNoPolicyText, TellsCount};
ghost use Rattle.converse.specs.PolicyFile.{TellsCountPart, TellsWritten, TellsWrittenPart};
ghost use Rattle.converse.specs.Streams.{writes_failed};
ghost use Rattle.converse.specs.Told.{count_line as line_of};

use crate::fault::{Fault, tell_fault};
use crate::streams::Sink;
use crate::writing::write_text;
use policy::{Policy, PolicyFault};
use std::alloc::{AllocError, Global};
use std::io::Write;
use std::str;

/// Prints `ok, N rules` of a policy's text to `out`, which is flushed.
///
/// Gives the exit status, 0 or 1. A fault has status 1 and its text on `err`: of a text that is no
/// policy its first fault, `NotToml` even if it isn't UTF-8. Faults are found in the order: the
/// policy has a fault, memory runs out, `out` refuses octets. Before the last of them nothing is on
/// `out`; then a beginning of the line may be.
pub fn check_policy<W: Sink, E: Write>(alloc: Global, octets: &[u8], out: &mut W, err: &mut E) -> u8
    ensures good { result ≡ 0 → TellsCount octets.now (W.seen out.old) (W.seen out.new) }
    ensures flushed { result ≡ 0 → (W.seen out.new).flushed ≡ true }
    ensures faulty { IsNoPolicyText octets.now → out.new ≡ out.old }
    ensures part { (out.new ≡ out.old)
        ⊎ TellsCountPart octets.now (W.seen out.old) (W.seen out.new) }
    ensures reports { Reports E.contents err.old err.new result
        (IsPolicyEnd (IsFaultOf octets.now) (writes_failed (W.seen out.old) (W.seen out.new))) }
{
    match tell_count(alloc, octets, out) {
        Ok(()) => 0,
        Err(fault) => tell_fault(err, fault),
    }
}

/// Prints how many rules the policy of a text has.
fn tell_count<W: Sink>(alloc: Global, octets: &[u8], out: &mut W) -> Result<(), Fault>
    ensures ok { OnOk result (TellsCount octets.now (W.seen out.old) (W.seen out.new)) }
    ensures flushed { OnOk result ((W.seen out.new).flushed ≡ true) }
    ensures faulty { IsNoPolicyText octets.now → out.new ≡ out.old }
    ensures part { (out.new ≡ out.old)
        ⊎ TellsCountPart octets.now (W.seen out.old) (W.seen out.new) }
    ensures cause { IfErr result
        (IsPolicyEnd (IsFaultOf octets.now) (writes_failed (W.seen out.old) (W.seen out.new))) }
{
    let count = read_octets(alloc, octets)?.len();
    let line = count_line(alloc, count)?;
    write_text(out, line.as_bytes())?;
    Ok(())
}

/// Prints the policy of a text as it is written, without the text's comments, to `out`, which is
/// flushed.
///
/// Gives the exit status, 0 or 1. Faults are told as `check_policy` tells them. Before `out`
/// refuses octets nothing is on it; then a beginning of the text may be.
pub fn write_policy<W: Sink, E: Write>(alloc: Global, octets: &[u8], out: &mut W, err: &mut E) -> u8
    ensures good { result ≡ 0 → TellsWritten octets.now (W.seen out.old) (W.seen out.new) }
    ensures flushed { result ≡ 0 → (W.seen out.new).flushed ≡ true }
    ensures faulty { IsNoPolicyText octets.now → out.new ≡ out.old }
    ensures part { (out.new ≡ out.old)
        ⊎ TellsWrittenPart octets.now (W.seen out.old) (W.seen out.new) }
    ensures reports { Reports E.contents err.old err.new result
        (IsPolicyEnd (IsFaultOf octets.now) (writes_failed (W.seen out.old) (W.seen out.new))) }
{
    match tell_written(alloc, octets, out) {
        Ok(()) => 0,
        Err(fault) => tell_fault(err, fault),
    }
}

/// Prints the policy of a text as it is written.
fn tell_written<W: Sink>(alloc: Global, octets: &[u8], out: &mut W) -> Result<(), Fault>
    ensures ok { OnOk result (TellsWritten octets.now (W.seen out.old) (W.seen out.new)) }
    ensures flushed { OnOk result ((W.seen out.new).flushed ≡ true) }
    ensures faulty { IsNoPolicyText octets.now → out.new ≡ out.old }
    ensures part { (out.new ≡ out.old)
        ⊎ TellsWrittenPart octets.now (W.seen out.old) (W.seen out.new) }
    ensures cause { IfErr result
        (IsPolicyEnd (IsFaultOf octets.now) (writes_failed (W.seen out.old) (W.seen out.new))) }
{
    let policy = read_octets(alloc, octets)?;
    let text = text_of(alloc, &policy)?;
    write_text(out, &text)
}

/// A policy's written text.
fn text_of(alloc: Global, policy: &Policy) -> Result<Vec<u8>, AllocError>
    ensures { IfOk result (λ text. text.items ≡ policy_text policy.now) }
{
    let mut text = Vec::new(alloc);
    policy.write(&mut text)?;
    Ok(text)
}

/// The policy that octets spell, or their first fault.
pub(crate) fn read_octets(alloc: Global, octets: &[u8]) -> Result<Policy, Fault>
    ensures ok { IfOk result (λ policy. IsPolicyText octets.now policy) }
    ensures cause { IfErr result (IsPolicyEnd (IsFaultOf octets.now) false) }
{
    let Ok(text) = str::from_utf8(octets) else {
        return Err(Fault::NoPolicy(PolicyFault::NotToml));
    };
    match Policy::read(alloc, text) {
        Ok(policy) => Ok(policy),
        Err(PolicyFault::NoMemory) => Err(Fault::OutOfMemory),
        Err(fault) => Err(Fault::NoPolicy(fault)),
    }
}

/// The line that says how many rules there are.
fn count_line(alloc: Global, count: usize) -> Result<String, AllocError>
    ensures { IfOk result (λ line. string_bytes line ≡ line_of count) }
{
    format!(in alloc; "ok, {count} rules\n")
}
