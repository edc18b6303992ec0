//! One conversation of a client over an office.
ghost use Rattle.std.specs.Prelude.{◌≡◌, ◌<◌, ◌≤◌, ◌++◌, ℕ, List, [], true, false, length, Ok};
ghost use Rattle.std.specs.Prelude.{MatchResult, IfErr, OnOk, cond};
ghost use Rattle.std.specs.Io.KnownBytes.{IsAtEnd};
ghost use Rattle.vault.specs.Calls.{has_grown};
ghost use Rattle.office.specs.Events.{Trace};
ghost use Rattle.office.specs.Log.{next_number};
ghost use Rattle.office.specs.Trace.{acts};
ghost use Rattle.office.specs.Expected.{most_in_a_piece};
ghost use Rattle.office.specs.Seen.{outcome_seen};
ghost use Rattle.office.specs.Stands.{StandsFor, vault_of};
ghost use Rattle.converse.specs.Streams.{Reads, Writes, reads_failed, writes_failed};
ghost use Rattle.converse.specs.Talked.{StandsSo, ComesOut, HasFailed, IsFlushedBy};
ghost use Rattle.converse.specs.Conversing.{GoesOn, Waits, Midway, IsPaid, IsDone, IsCut, Refuses};
ghost use Rattle.converse.specs.Conversing.{opened_by, memory_by};

use crate::streams::{Sink, Source};
use office::{Event, MOST_IN_A_PIECE, Office, Outcome};
use vault::Vault;

/// Why a conversation was broken off.
#[derive(Clone, Copy, Debug, PartialEq, Eq)]
pub enum TalkFault {
    /// A call of the source failed.
    Read,
    /// A call of the sink failed, or took no octet.
    Write,
    /// The office opens no further connection.
    TooManyConnections,
    NoMemory,
    /// 2^64 - 1 octets were read or written without an end.
    Endless,
}

/// The number of the connection that `Connect` opened, or why it opened none.
fn opened(outcome: Outcome) -> Result<u64, TalkFault>
    ensures is { result ≡ opened_by (outcome_seen outcome) }
    ensures failed { IfErr result (HasFailed false false) }
{
    match outcome {
        Outcome::Opened(c) => Ok(c),
        Outcome::NoMemory => Err(TalkFault::NoMemory),
        _ => Err(TalkFault::TooManyConnections),
    }
}

/// Answers [`TalkFault::NoMemory`] if the office had no memory for an event.
fn had_memory(outcome: Outcome) -> Result<(), TalkFault>
    ensures is { result ≡ memory_by (outcome_seen outcome) }
    ensures failed { IfErr result (HasFailed false false) }
{
    match outcome {
        Outcome::NoMemory => Err(TalkFault::NoMemory),
        _ => Ok(()),
    }
}

/// Opens a connection, and answers its number.
fn connect<V: Vault>(office: &mut Office<V>) -> Result<u64, TalkFault>
    ensures began { (T : Trace) → StandsFor V.holds office.old T → V.is_clean (vault_of office.new)
        → StandsSo V.holds V.faults (V.faults (vault_of office.old)) office.new T
        (next_number T.log) (λ L. MatchResult result
        (λ c. (c ≡ next_number T.log) × GoesOn T.base (next_number T.log) (acts T) [] [] L)
        (λ e. Refuses T e L)) }
    ensures failed { IfErr result (HasFailed false false) }
    ensures counted { V.faults (vault_of office.old) ≤ V.faults (vault_of office.new) }
    ensures clean { V.is_clean (vault_of office.new) → V.is_clean (vault_of office.old) }
{
    opened(office.step(Event::Connect))
}

/// Gives a piece of input to an office that waits for input.
fn hear<V: Vault>(office: &mut Office<V>, c: u64, piece: &[u8]) -> Result<(), TalkFault>
    requires { length piece.now ≤ most_in_a_piece }
    ensures heard { (before : ℕ) (T : Trace) (octets written : List ℕ)
        → before ≤ V.faults (vault_of office.old) → V.is_clean (vault_of office.new)
        → StandsSo V.holds V.faults before office.old T c (Waits T.base c (acts T) octets written)
        → StandsSo V.holds V.faults before office.new T c
        (λ L. MatchResult result (λ _. GoesOn T.base c (acts T) (octets ++ piece.now) written L)
        (λ e. IsCut e T.base c (acts T) (octets ++ piece.now) written L)) }
    ensures failed { IfErr result (HasFailed false false) }
    ensures counted { V.faults (vault_of office.old) ≤ V.faults (vault_of office.new) }
    ensures clean { V.is_clean (vault_of office.new) → V.is_clean (vault_of office.old) }
{
    had_memory(office.step(Event::Bytes(c, piece)))
}

/// Reads once, and gives what was read to an office that waits for input. `false` if the reader
/// is at its end. Of the writer nothing is held back meanwhile, so that the client has all that it
/// may wait for.
fn listen<V: Vault, R: Source, W: Sink>(
    office: &mut Office<V>,
    c: u64,
    reader: &mut R,
    _writer: &W,
) -> Result<bool, TalkFault>
    requires { (W.seen _writer.now).flushed ≡ true }
    ensures read { (piece : List ℕ) × Reads (R.seen reader.old) (R.seen reader.new) piece
        × (result ≡ Ok true → 0 < length piece)
        × (result ≡ Ok false → IsAtEnd (R.seen reader.new).left)
        × ((before : ℕ) (T : Trace) (octets written : List ℕ)
        → before ≤ V.faults (vault_of office.old) → V.is_clean (vault_of office.new)
        → StandsSo V.holds V.faults before office.old T c (Waits T.base c (acts T) octets written)
        → StandsSo V.holds V.faults before office.new T c
        (λ L. MatchResult result (λ more. cond more
        (GoesOn T.base c (acts T) (octets ++ piece) written L)
        (Waits T.base c (acts T) (octets ++ piece) written L))
        (λ e. IsCut e T.base c (acts T) (octets ++ piece) written L))) }
    ensures failed { IfErr result
        (HasFailed (reads_failed (R.seen reader.old) (R.seen reader.new)) false) }
    ensures counted { V.faults (vault_of office.old) ≤ V.faults (vault_of office.new) }
    ensures clean { V.is_clean (vault_of office.new) → V.is_clean (vault_of office.old) }
{
    let mut room = [0; MOST_IN_A_PIECE];
    let Ok(count) = reader.read(&mut room) else {
        return Err(TalkFault::Read);
    };
    if count == 0 {
        return Ok(false);
    }
    hear(office, c, &room[..count])?;
    Ok(true)
}

/// Writes some of what the connection is owed. `false` if nothing is owed.
fn write_some<V: Vault, W: Sink>(
    office: &mut Office<V>,
    c: u64,
    writer: &mut W,
) -> Result<bool, TalkFault>
    ensures wrote { (more : List ℕ) × Writes (W.seen writer.old) (W.seen writer.new) more
        × (result ≡ Ok true → 0 < length more)
        × ((before : ℕ) (T : Trace) (octets written : List ℕ)
        → before ≤ V.faults (vault_of office.old) → V.is_clean (vault_of office.new)
        → StandsSo V.holds V.faults before office.old T c
        (Midway before (V.faults (vault_of office.old)) T.base c (acts T) octets written)
        → StandsSo V.holds V.faults before office.new T c
        (λ L. MatchResult result (λ some. cond some
        (Midway before (V.faults (vault_of office.new)) T.base c (acts T) octets (written ++ more)
        L) (IsPaid before (V.faults (vault_of office.new)) T.base c (acts T) octets
        (written ++ more) L)) (λ e. IsCut e T.base c (acts T) octets (written ++ more) L))) }
    ensures failed { IfErr result
        (HasFailed false (writes_failed (W.seen writer.old) (W.seen writer.new))) }
    ensures counted { V.faults (vault_of office.old) ≤ V.faults (vault_of office.new) }
    ensures clean { V.is_clean (vault_of office.new) → V.is_clean (vault_of office.old) }
{
    let lent = office.owed(c);
    if lent.is_empty() {
        return Ok(false);
    }
    let Ok(count) = writer.write(lent) else {
        return Err(TalkFault::Write);
    };
    if count == 0 {
        return Err(TalkFault::Write);
    }
    had_memory(office.step(Event::Took(c, count)))?;
    Ok(true)
}

/// Flushes what was written.
fn flush<W: Sink>(writer: &mut W) -> Result<(), TalkFault>
    ensures took { Writes (W.seen writer.old) (W.seen writer.new) [] }
    ensures flushed { OnOk result ((W.seen writer.new).flushed ≡ true) }
    ensures cause { IfErr result (λ fault. (fault ≡ TalkFault.Write)
        × (writes_failed (W.seen writer.old) (W.seen writer.new) ≡ true)) }
{
    match writer.flush() {
        Ok(()) => Ok(()),
        Err(_) => Err(TalkFault::Write),
    }
}

/// Writes all that the connection is owed, and flushes the writer.
fn write_owed<V: Vault, W: Sink>(
    office: &mut Office<V>,
    c: u64,
    writer: &mut W,
) -> Result<(), TalkFault>
    ensures wrote { (more : List ℕ) × Writes (W.seen writer.old) (W.seen writer.new) more
        × ((before : ℕ) (T : Trace) (octets written : List ℕ)
        → before ≤ V.faults (vault_of office.old) → V.is_clean (vault_of office.new)
        → StandsSo V.holds V.faults before office.old T c
        (Midway before (V.faults (vault_of office.old)) T.base c (acts T) octets written)
        → StandsSo V.holds V.faults before office.new T c
        (λ L. MatchResult result (λ _. IsPaid before (V.faults (vault_of office.new)) T.base c
        (acts T) octets (written ++ more) L) (λ e. IsCut e T.base c (acts T) octets
        (written ++ more) L))) }
    ensures flushed { OnOk result ((W.seen writer.new).flushed ≡ true) }
    ensures failed { IfErr result
        (HasFailed false (writes_failed (W.seen writer.old) (W.seen writer.new))) }
    ensures counted { V.faults (vault_of office.old) ≤ V.faults (vault_of office.new) }
    ensures clean { V.is_clean (vault_of office.new) → V.is_clean (vault_of office.old) }
{
    for _ in 0..u64::MAX {
        if !write_some(office, c, writer)? {
            flush(writer)?;
            return Ok(());
        }
    }
    Err(TalkFault::Endless)
}

/// Writes and reads in turn, until the connection is ended or the reader is at its end.
fn converse<V: Vault, R: Source, W: Sink>(
    office: &mut Office<V>,
    c: u64,
    reader: &mut R,
    writer: &mut W,
) -> Result<(), TalkFault>
    ensures talked { (octets written : List ℕ)
        × Reads (R.seen reader.old) (R.seen reader.new) octets
        × Writes (W.seen writer.old) (W.seen writer.new) written
        × ((before : ℕ) (T : Trace) → before ≤ V.faults (vault_of office.old)
        → V.is_clean (vault_of office.new)
        → StandsSo V.holds V.faults before office.old T c (GoesOn T.base c (acts T) [] [])
        → StandsSo V.holds V.faults before office.new T c
        (λ L. MatchResult result (λ _. IsDone (IsAtEnd (R.seen reader.new).left) before
        (V.faults (vault_of office.new)) T.base c (acts T) octets written L)
        (λ e. IsCut e T.base c (acts T) octets written L))) }
    ensures flushed { IsFlushedBy result (W.seen writer.new).flushed }
    ensures failed { IfErr result (HasFailed (reads_failed (R.seen reader.old) (R.seen reader.new))
        (writes_failed (W.seen writer.old) (W.seen writer.new))) }
    ensures counted { V.faults (vault_of office.old) ≤ V.faults (vault_of office.new) }
    ensures clean { V.is_clean (vault_of office.new) → V.is_clean (vault_of office.old) }
{
    for _ in 0..u64::MAX {
        write_owed(office, c, writer)?;
        if office.ended(c) {
            return Ok(());
        }
        if !listen(office, c, reader, writer)? {
            return Ok(());
        }
    }
    Err(TalkFault::Endless)
}

/// One conversation over an office, from a source and to a sink: a connection is opened, and all
/// that it is owed is written and flushed before each read, until its last line closed it or the
/// source gave its end. Its connection is then ended, after a fault too.
pub fn talk<V: Vault, R: Source, W: Sink>(
    office: &mut Office<V>,
    reader: &mut R,
    writer: &mut W,
) -> Result<(), TalkFault>
    ensures talked { (octets written : List ℕ)
        × Reads (R.seen reader.old) (R.seen reader.new) octets
        × Writes (W.seen writer.old) (W.seen writer.new) written
        × ((T : Trace) → StandsFor V.holds office.old T → V.is_clean (vault_of office.new)
        → StandsSo V.holds V.faults (V.faults (vault_of office.old)) office.new T
        (next_number T.log) (ComesOut (IsAtEnd (R.seen reader.new).left)
        (has_grown (V.faults (vault_of office.old)) (V.faults (vault_of office.new))) T
        (next_number T.log) octets written result)) }
    ensures flushed { IsFlushedBy result (W.seen writer.new).flushed }
    ensures failed { IfErr result (HasFailed (reads_failed (R.seen reader.old) (R.seen reader.new))
        (writes_failed (W.seen writer.old) (W.seen writer.new))) }
    ensures counted { V.faults (vault_of office.old) ≤ V.faults (vault_of office.new) }
    ensures clean { V.is_clean (vault_of office.new) → V.is_clean (vault_of office.old) }
{
    let c = connect(office)?;
    let talked = converse(office, c, reader, writer);
    let _ = office.step(Event::Gone(c));
    talked
}
