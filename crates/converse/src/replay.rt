//! `popbox replay`: does the events of a script in an office, and prints what each gives.

ghost use Rattle.std.specs.Prelude.{◌≤◌, ◌≡◌, ◌∷◌, ◌++◌, [], false, true, ℕ, map, option_map};
ghost use Rattle.std.specs.Prelude.{IfErr, IfOk, IfSome, IsErr, IsOk, List, MatchResult, Ok, OnErr};
ghost use Rattle.std.specs.Prelude.{OnOk, Some, codes, if◌then◌else◌, ◌⊎◌};
ghost use Rattle.std.specs.Io.KnownBytes.{Appends, IsAtEnd, Keeps as Unchanged};
ghost use Rattle.std.specs.List.{filter};
ghost use Rattle.creds.specs.Names.{is_host};
ghost use Rattle.office.specs.Events.{Trace, Took};
ghost use Rattle.office.specs.Seen.{outcome_seen, reason_seen};
ghost use Rattle.office.specs.Stands.{Keeps, StandsFor, vault_of};
ghost use Rattle.office.specs.Trace.{is_open};
ghost use Rattle.converse.specs.declared.fault.Fault.TheVariants.{CannotWrite, OutOfMemory};
ghost use Rattle.converse.specs.Causes.{IsWhyNot, Tells};
ghost use Rattle.converse.specs.Runs.{StillHolds, opened_on};
ghost use Rattle.converse.specs.Script.{ScriptLine, Does, Drains, line_seen, script_of};
ghost use Rattle.converse.specs.Played.{Acts, Begun, TakesAll, PlaysLine, HasPlayed, PlaysInPart};
ghost use Rattle.converse.specs.Played.{ComesTo, WithCause, Reaches, HasRun, HasRunInPart, point};
ghost use Rattle.converse.specs.Played.{known_with, still_known, told_text, taken_text};
ghost use Rattle.converse.specs.Escapes.{by_digits, escape, escaped};
ghost use Rattle.converse.specs.Told.{sent_line, outcome_lines, answer_lines, ended_lines};
ghost use Rattle.converse.specs.Told.{has_ended, no_policy_line, reason_name as name_of_reason};

use crate::fault::{Fault, read_fault, tell_fault};
use crate::printer::Printer;
use crate::script::{Line, read_script};
use crate::talk::TalkFault;
use office::{Event, Limits, Office, Outcome, Reason, answer_body};
use policy::PolicyFault;
use session::Removals;
use std::alloc::Global;
use std::io;
use std::io::{Read, Write};
use vault::Vault;

/// After so many seconds without an act a connection is ended.
const IDLE_SECONDS: u32 = 600;

/// Reads a whole script, opens an office over the vault, does the script's events in it, and prints
/// the outcome of each to `out`, which is flushed before the next event. `removals` says when a
/// denied removal is refused.
///
/// Gives the exit status, 0 or 1, and the vault as the events left it. At a fault the status is 1,
/// and `err` gets its text. If the script can't be read, has a line that is no event, or the
/// host is bad, no event is done and nothing is on `out`; faults are found in that order. What was
/// done before another fault stays done, and no line after it is begun.
pub fn replay<R: Read, V: Vault, W: Printer, E: Write>(
    alloc: Global,
    script: &mut R,
    vault: V,
    host: &str,
    boot: u64,
    removals: Removals,
    out: &mut W,
    err: &mut E,
) -> (u8, V)
    ensures status { result.0 ≤ 1 }
    ensures silent { result.0 ≡ 0 → err.new ≡ err.old }
    ensures unread { (IsAtEnd (R.remaining script.new) → ⊥) → (result.0 ≡ 1) × (out.new ≡ out.old)
        × (result.1 ≡ vault) }
    ensures bad_line { IfSome (R.remaining script.old)
        (λ text. IsErr (script_of text) → (result.0 ≡ 1) × (out.new ≡ out.old)
        × (result.1 ≡ vault)) }
    ensures bad_host { is_host host.now ≡ false → (result.0 ≡ 1) × (out.new ≡ out.old)
        × StillHolds V.holds V.is_clean vault result.1 }
    ensures told { result.0 ≡ 0 → IfSome (R.remaining script.old)
        (λ text. (lines : List ScriptLine) → script_of text ≡ Ok lines → (T : Trace)
        → Keeps (V.holds vault) T → V.is_clean result.1
        → HasRun V.holds result.1 (V.faults vault) (V.faults result.1) (W.contents out.old)
        (W.contents out.new) (opened_on T host.now boot removals) lines) }
    ensures kept { (T : Trace) → Keeps (V.holds vault) T → V.is_clean result.1
        → Keeps (V.holds result.1) T ⊎ ((lines : List ScriptLine)
        × IfSome (R.remaining script.old) (λ text. script_of text ≡ Ok lines)
        × HasRunInPart V.holds result.1 (V.faults vault) (V.faults result.1)
        (opened_on T host.now boot removals) lines) }
    ensures ran { result.0 ≡ 0 → (lines : List ScriptLine)
        × IfSome (R.remaining script.old) (λ text. script_of text ≡ Ok lines)
        × ((T : Trace) → Keeps (V.holds vault) T → V.is_clean result.1
        → HasRun V.holds result.1 (V.faults vault) (V.faults result.1) (W.contents out.old)
        (W.contents out.new) (opened_on T host.now boot removals) lines) }
    ensures flushed { result.0 ≡ 0 → W.flushed out.new ≡ true }
    ensures clean { V.is_clean result.1 → V.is_clean vault }
    ensures why_not { IfSome (R.remaining script.old) (λ text.
        IsErr (script_of text) ⊎ (is_host host.now ≡ false)
        → Tells (E.contents err.old) (E.contents err.new) (IsWhyNot text host.now)) }
{
    let lines = match read_all(alloc, script) {
        Ok(lines) => lines,
        Err(fault) => return (tell_fault(err, fault), vault),
    };
    let mut office = match open_office(alloc, vault, host, boot, removals) {
        Ok(office) => office,
        Err((fault, vault)) => return (tell_fault(err, fault), vault),
    };
    let status = play_over(alloc, &mut office, lines.as_slice(), out, err);
    (status, office.into_vault())
}

/// Does the lines in order in an office. A fault is printed on `err` after what its line printed.
/// Gives the exit status.
fn play_over<V: Vault, W: Printer, E: Write>(
    alloc: Global,
    office: &mut Office<V>,
    lines: &[Line],
    out: &mut W,
    err: &mut E,
) -> u8
    ensures status { result ≤ 1 }
    ensures silent { result ≡ 0 → err.new ≡ err.old }
    ensures played { result ≡ 0 → (T : Trace) → StandsFor V.holds office.old T
        → V.is_clean (vault_of office.new) → ComesTo V.holds office.new (W.contents out.old)
        (W.contents out.new) (WithCause (V.faults (vault_of office.old))
        (V.faults (vault_of office.new)) T (HasPlayed T (map line_seen lines.now))) }
    ensures flushed { result ≡ 0 → W.flushed out.new ≡ true }
    ensures kept { (T : Trace) → StandsFor V.holds office.old T → V.is_clean (vault_of office.new)
        → Reaches V.holds office.new (V.faults (vault_of office.old))
        (V.faults (vault_of office.new)) T (PlaysInPart (point T []) (map line_seen lines.now)) }
    ensures counted { V.faults (vault_of office.old) ≤ V.faults (vault_of office.new) }
    ensures clean { V.is_clean (vault_of office.new) → V.is_clean (vault_of office.old) }
{
    let played = play(alloc, office, lines, out);
    let flushed = out.hand_on();
    if let Err(fault) = played {
        return tell_fault(err, fault);
    }
    match flushed {
        Ok(()) => 0,
        Err(_) => tell_fault(err, Fault::CannotWrite),
    }
}

/// Reads a script to its end.
fn read_all<R: Read>(alloc: Global, script: &mut R) -> Result<Vec<Line>, Fault>
    ensures end { IsOk result → IsAtEnd (R.remaining script.new) }
    ensures lines { IfOk result (λ lines. IfSome (R.remaining script.old)
        (λ text. script_of text ≡ Ok (map line_seen lines.items))) }
    ensures fault { IfErr result (λ fault. IfSome (R.remaining script.old) (λ text.
        (host : List ℕ) → IsWhyNot text host fault)) }
{
    let mut text = Vec::new(alloc);
    match script.read_to_end(&mut text) {
        Ok(_) => read_lines(alloc, text.as_slice()),
        Err(error) => Err(read_fault(&error)),
    }
}

/// Reads a script's text.
fn read_lines(alloc: Global, text: &[u8]) -> Result<Vec<Line>, Fault>
    ensures lines { IfOk result (λ lines. script_of text.now ≡ Ok (map line_seen lines.items)) }
    ensures fault { IfErr result (λ fault. (host : List ℕ) → IsWhyNot text.now host fault) }
{
    let lines = read_script(alloc, text)?;
    Ok(lines)
}

/// Opens an office that ends idle connections after 600 seconds. `removals` says when a denied
/// removal is refused.
pub(crate) fn open_office<V: Vault>(
    alloc: Global,
    vault: V,
    host: &str,
    boot: u64,
    removals: Removals,
) -> Result<Office<V>, (Fault, V)>
    ensures opened { IfOk result (λ office. (T : Trace) → Keeps (V.holds vault) T
        → V.is_clean (vault_of office) → StandsFor V.holds office
        (opened_on T host.now boot removals)) }
    ensures host { IsOk result → is_host host.now ≡ true }
    ensures kept { IfErr result (λ e. StillHolds V.holds V.is_clean vault e.1) }
    ensures counted { IfOk result (λ office. V.faults vault ≤ V.faults (vault_of office)) }
    ensures clean { MatchResult result (λ office. V.is_clean (vault_of office) → V.is_clean vault)
        (λ e. V.is_clean e.1 → V.is_clean vault) }
    ensures bad_host { IfErr result (λ e. is_host host.now ≡ false → e.0 ≡ Fault.BadHost) }
{
    let Some(limits) = Limits::new(IDLE_SECONDS) else {
        return Err((Fault::BadHost, vault));
    };
    match Office::open(alloc, vault, host, boot, limits.with_removals(removals)) {
        Ok(office) => Ok(office),
        Err((fault, vault)) => Err((Fault::from(fault), vault)),
    }
}

/// Does the lines in order.
fn play<V: Vault, W: Printer>(
    alloc: Global,
    office: &mut Office<V>,
    lines: &[Line],
    out: &mut W,
) -> Result<(), Fault>
    ensures played { OnOk result ((T : Trace) → StandsFor V.holds office.old T
        → V.is_clean (vault_of office.new) → ComesTo V.holds office.new (W.contents out.old)
        (W.contents out.new) (WithCause (V.faults (vault_of office.old))
        (V.faults (vault_of office.new)) T (HasPlayed T (map line_seen lines.now)))) }
    ensures broken { OnErr result ((T : Trace) → StandsFor V.holds office.old T
        → V.is_clean (vault_of office.new) → Reaches V.holds office.new
        (V.faults (vault_of office.old)) (V.faults (vault_of office.new)) T
        (PlaysInPart (point T []) (map line_seen lines.now))) }
    ensures counted { V.faults (vault_of office.old) ≤ V.faults (vault_of office.new) }
    ensures clean { V.is_clean (vault_of office.new) → V.is_clean (vault_of office.old) }
{
    let mut known = Vec::new(alloc);
    for line in lines {
        play_line(alloc, office, line, &mut known, out)?;
    }
    Ok(())
}

/// Does one line, prints what comes of it, and flushes. The connections that were opened and not
/// yet printed as ended are `known`.
fn play_line<V: Vault, W: Printer>(
    alloc: Global,
    office: &mut Office<V>,
    line: &Line,
    known: &mut Vec<u64>,
    out: &mut W,
) -> Result<(), Fault>
    ensures played { OnOk result ((T : Trace) → StandsFor V.holds office.old T
        → V.is_clean (vault_of office.new) → ComesTo V.holds office.new (W.contents out.old)
        (W.contents out.new) (WithCause (V.faults (vault_of office.old))
        (V.faults (vault_of office.new)) T (λ printed U. PlaysLine (point T known.old.items)
        (line_seen line.now) printed (point U known.new.items)))) }
    ensures flushed { OnOk result (W.flushed out.new ≡ true) }
    ensures broken { OnErr result ((T : Trace) → StandsFor V.holds office.old T
        → V.is_clean (vault_of office.new) → Reaches V.holds office.new
        (V.faults (vault_of office.old)) (V.faults (vault_of office.new)) T
        (Begun T (line_seen line.now))) }
    ensures counted { V.faults (vault_of office.old) ≤ V.faults (vault_of office.new) }
    ensures clean { V.is_clean (vault_of office.new) → V.is_clean (vault_of office.old) }
{
    match act(office, line, out)? {
        Some(outcome) => tell_whole(alloc, office, &outcome, known, out),
        None => flush(out),
    }
}

/// Prints an outcome and the connections that ended, and flushes. A connection that was opened is
/// added to those that are known.
fn tell_whole<V: Vault, W: Printer>(
    alloc: Global,
    office: &Office<V>,
    outcome: &Outcome,
    known: &mut Vec<u64>,
    out: &mut W,
) -> Result<(), Fault>
    ensures told { (T : Trace) → StandsFor V.holds office.now T
        → OnOk result (Appends (W.contents out.old) (W.contents out.new)
        (told_text T known.old.items (Some (outcome_seen outcome.now)))) }
    ensures kept { (T : Trace) → StandsFor V.holds office.now T
        → OnOk result (known.new.items ≡ still_known T known.old.items
        (Some (outcome_seen outcome.now))) }
    ensures flushed { OnOk result (W.flushed out.new ≡ true) }
{
    add_opened(outcome, known)?;
    tell(alloc, out, outcome)?;
    match tell_ended(office, known, out) {
        Ok(()) => flush(out),
        Err(_) => Err(Fault::CannotWrite),
    }
}

/// Flushes what was printed.
fn flush<W: Printer>(out: &mut W) -> Result<(), Fault>
    ensures kept { Unchanged (W.contents out.old) (W.contents out.new) }
    ensures flushed { OnOk result (W.flushed out.new ≡ true) }
{
    match out.hand_on() {
        Ok(()) => Ok(()),
        Err(_) => Err(Fault::CannotWrite),
    }
}

/// Adds the connection that an outcome opened to those that are known.
fn add_opened(outcome: &Outcome, known: &mut Vec<u64>) -> Result<(), Fault>
    ensures { OnOk result (known.new.items ≡ known_with (outcome_seen outcome.now)
        known.old.items) }
{
    match outcome {
        Outcome::Opened(number) => {
            known.push(*number)?;
            Ok(())
        }
        _ => Ok(()),
    }
}

/// Does the events of one line, prints the octets that a client takes, and gives the last outcome.
/// Of a text that is no policy it prints the fault, and gives none.
fn act<V: Vault, W: Printer>(
    office: &mut Office<V>,
    line: &Line,
    out: &mut W,
) -> Result<Option<Outcome>, Fault>
    ensures acted { IfOk result (λ told. (T : Trace) → StandsFor V.holds office.old T
        → V.is_clean (vault_of office.new) → ComesTo V.holds office.new (W.contents out.old)
        (W.contents out.new) (WithCause (V.faults (vault_of office.old))
        (V.faults (vault_of office.new)) T (Acts T (line_seen line.now)
        (option_map outcome_seen told)))) }
    ensures broken { OnErr result ((T : Trace) → StandsFor V.holds office.old T
        → V.is_clean (vault_of office.new) → Reaches V.holds office.new
        (V.faults (vault_of office.old)) (V.faults (vault_of office.new)) T
        (Begun T (line_seen line.now))) }
    ensures counted { V.faults (vault_of office.old) ≤ V.faults (vault_of office.new) }
    ensures clean { V.is_clean (vault_of office.new) → V.is_clean (vault_of office.old) }
{
    match line {
        Line::Connect => Ok(Some(office.step(Event::Connect))),
        Line::Bytes(number, octets) => Ok(Some(office.step(Event::Bytes(
            *number,
            octets.as_slice(),
        )))),
        Line::Took(number, count) => Ok(Some(take(office, *number, *count, out)?)),
        Line::Drain(number) => Ok(Some(drain(office, *number, out)?)),
        Line::Gone(number) => Ok(Some(office.step(Event::Gone(*number)))),
        Line::Tick(now) => Ok(Some(office.step(Event::Tick(*now)))),
        Line::Restart(boot) => Ok(Some(office.step(Event::Restart(*boot)))),
        Line::Deposit {
            maildrop,
            class,
            id,
            text,
        } => Ok(Some(office.step(Event::Deposit(maildrop, class, id, text.as_slice())))),
        Line::Admin(command) => Ok(Some(office.step(Event::Admin(command)))),
        Line::NoPolicy(fault) => match tell_no_policy(out, *fault) {
            Ok(()) => Ok(None),
            Err(_) => Err(Fault::CannotWrite),
        },
    }
}

/// Prints the fault of a text that is no policy.
fn tell_no_policy<W: Write>(out: &mut W, fault: PolicyFault) -> io::Result<()>
    ensures { OnOk result (Appends (W.contents out.old) (W.contents out.new)
        (no_policy_line fault)) }
{
    writeln!(out, "answer {fault}")
}

/// Takes `count` octets of what a connection is owed, and prints them; none if the office
/// ignores the event.
fn take<V: Vault, W: Write>(
    office: &mut Office<V>,
    number: u64,
    count: usize,
    out: &mut W,
) -> Result<Outcome, Fault>
    ensures taken { IfOk result (λ outcome. (T : Trace) → StandsFor V.holds office.old T
        → V.is_clean (vault_of office.new) → ComesTo V.holds office.new (W.contents out.old)
        (W.contents out.new) (WithCause (V.faults (vault_of office.old))
        (V.faults (vault_of office.new)) T (Acts T (Does (Took number count))
        (Some (outcome_seen outcome))))) }
    ensures broken { OnErr result ((T : Trace) → StandsFor V.holds office.old T
        → V.is_clean (vault_of office.new) → Reaches V.holds office.new
        (V.faults (vault_of office.old)) (V.faults (vault_of office.new)) T
        (Begun T (Does (Took number count)))) }
    ensures counted { V.faults (vault_of office.old) ≤ V.faults (vault_of office.new) }
    ensures clean { V.is_clean (vault_of office.new) → V.is_clean (vault_of office.old) }
{
    tell_taken(out, number, office.owed(number), count)?;
    let outcome = office.step(Event::Took(number, count));
    Ok(outcome)
}

/// Prints the first `count` octets of what a connection is owed; nothing if it is owed fewer.
fn tell_taken<W: Write>(out: &mut W, number: u64, owed: &[u8], count: usize) -> Result<(), Fault>
    ensures { OnOk result (Appends (W.contents out.old) (W.contents out.new)
        (taken_text number owed.now count)) }
{
    if count == 0 {
        return Ok(());
    }
    if owed.len() < count {
        return Ok(());
    }
    match tell_sent(out, number, &owed[..count]) {
        Ok(()) => Ok(()),
        Err(_) => Err(Fault::CannotWrite),
    }
}

/// Prints what a connection was sent.
fn tell_sent<W: Write>(out: &mut W, number: u64, octets: &[u8]) -> io::Result<()>
    ensures { OnOk result (Appends (W.contents out.old) (W.contents out.new)
        (sent_line number octets.now)) }
{
    write!(out, "sent {number} ")?;
    write_escaped(out, octets)?;
    out.write_all(b"\n")
}

/// Takes all that a connection is owed, and prints it in one line.
fn drain<V: Vault, W: Printer>(
    office: &mut Office<V>,
    number: u64,
    out: &mut W,
) -> Result<Outcome, Fault>
    ensures drained { IfOk result (λ outcome. (T : Trace) → StandsFor V.holds office.old T
        → V.is_clean (vault_of office.new) → ComesTo V.holds office.new (W.contents out.old)
        (W.contents out.new) (WithCause (V.faults (vault_of office.old))
        (V.faults (vault_of office.new)) T (Acts T (Drains number)
        (Some (outcome_seen outcome))))) }
    ensures broken { OnErr result ((T : Trace) → StandsFor V.holds office.old T
        → V.is_clean (vault_of office.new) → Reaches V.holds office.new
        (V.faults (vault_of office.old)) (V.faults (vault_of office.new)) T
        (Begun T (Drains number))) }
    ensures counted { V.faults (vault_of office.old) ≤ V.faults (vault_of office.new) }
    ensures clean { V.is_clean (vault_of office.new) → V.is_clean (vault_of office.old) }
{
    if office.owed(number).is_empty() {
        return Ok(Outcome::Done);
    }
    let Ok(()) = write!(out, "sent {number} ") else {
        return Err(Fault::CannotWrite);
    };
    let outcome = take_all(office, number, out)?;
    match writeln!(out) {
        Ok(()) => Ok(outcome),
        Err(_) => Err(Fault::CannotWrite),
    }
}

/// Takes what a connection is owed, and prints it, until nothing more is owed. Answers
/// [`TalkFault::Endless`] after 2^64 - 1 takings.
fn take_all<V: Vault, W: Printer>(
    office: &mut Office<V>,
    number: u64,
    out: &mut W,
) -> Result<Outcome, Fault>
    ensures taken { IfOk result (λ outcome. (T : Trace) → StandsFor V.holds office.old T
        → V.is_clean (vault_of office.new) → ComesTo V.holds office.new (W.contents out.old)
        (W.contents out.new) (WithCause (V.faults (vault_of office.old))
        (V.faults (vault_of office.new)) T (TakesAll T number (outcome_seen outcome)))) }
    ensures broken { OnErr result ((T : Trace) → StandsFor V.holds office.old T
        → V.is_clean (vault_of office.new) → Reaches V.holds office.new
        (V.faults (vault_of office.old)) (V.faults (vault_of office.new)) T
        (Begun T (Drains number))) }
    ensures counted { V.faults (vault_of office.old) ≤ V.faults (vault_of office.new) }
    ensures clean { V.is_clean (vault_of office.new) → V.is_clean (vault_of office.old) }
{
    let mut outcome = Outcome::Done;
    for _ in 0..u64::MAX {
        let owed = office.owed(number);
        if owed.is_empty() {
            return Ok(outcome);
        }
        let count = owed.len();
        let Ok(()) = tell_lent(out, owed) else {
            return Err(Fault::CannotWrite);
        };
        outcome = office.step(Event::Took(number, count));
    }
    Err(Fault::Talk(TalkFault::Endless))
}

/// Prints the octets that a client takes, and flushes.
fn tell_lent<W: Printer>(out: &mut W, octets: &[u8]) -> io::Result<()>
    ensures told { OnOk result (Appends (W.contents out.old) (W.contents out.new)
        (escaped octets.now)) }
    ensures flushed { OnOk result (W.flushed out.new ≡ true) }
{
    write_escaped(out, octets)?;
    out.hand_on()
}

/// Writes octets as a script's TEXT: printable ASCII as it is, but for `\`.
pub fn write_escaped<W: Write>(out: &mut W, octets: &[u8]) -> io::Result<()>
    ensures { OnOk result (Appends (W.contents out.old) (W.contents out.new) (escaped octets.now)) }
{
    for octet in octets {
        write_octet(out, *octet)?;
    }
    Ok(())
}

/// Writes an octet as a script's TEXT does.
fn write_octet<W: Write>(out: &mut W, octet: u8) -> io::Result<()>
    ensures { OnOk result (Appends (W.contents out.old) (W.contents out.new) (escape octet)) }
{
    match octet {
        b'\r' => out.write_all(b"\\r"),
        b'\n' => out.write_all(b"\\n"),
        b'\\' => out.write_all(b"\\\\"),
        b' '..=b'~' => out.write_all(&[octet]),
        other => write_digits(out, other),
    }
}

/// Writes the escape of an octet by its two hexadecimal digits.
fn write_digits<W: Write>(out: &mut W, octet: u8) -> io::Result<()>
    ensures { OnOk result (Appends (W.contents out.old) (W.contents out.new) (by_digits octet)) }
{
    write!(out, "\\x{octet:02x}")
}

/// Prints an outcome. Answers [`Fault::CannotWrite`] if `out` refuses octets, and
/// [`Fault::OutOfMemory`] if the text of an answer finds no memory; some of the lines may then
/// be on `out`.
pub fn tell<W: Write>(alloc: Global, out: &mut W, outcome: &Outcome) -> Result<(), Fault>
    ensures told { OnOk result (Appends (W.contents out.old) (W.contents out.new)
        (outcome_lines (outcome_seen outcome.now))) }
    ensures cause { IfErr result (λ fault. (fault ≡ CannotWrite) ⊎ (fault ≡ OutOfMemory)) }
{
    let told = match outcome {
        Outcome::Opened(number) => writeln!(out, "opened {number}"),
        Outcome::Done => out.write_all(b"done\n"),
        Outcome::Failed => out.write_all(b"failed\n"),
        Outcome::NoMemory => out.write_all(b"no memory\n"),
        Outcome::Ignored(reason) => {
            let name = reason_name(*reason);
            writeln!(out, "ignored: {name}")
        }
        Outcome::Answered(answer) => tell_body(out, &answer_body(alloc, answer)?),
    };
    match told {
        Ok(()) => Ok(()),
        Err(_) => Err(Fault::CannotWrite),
    }
}

/// The name of a reason for which an event is ignored.
fn reason_name(reason: Reason) -> &'static str
    ensures { result.now ≡ name_of_reason (reason_seen reason) }
{
    match reason {
        Reason::NoSuchConnection => "NoSuchConnection",
        Reason::NotReady => "NotReady",
        Reason::PieceTooLong => "PieceTooLong",
        Reason::TooManyConnections => "TooManyConnections",
    }
}

/// Prints each line of an answer's body after `answer `; of an empty body the word alone.
fn tell_body<W: Write>(out: &mut W, body: &[u8]) -> io::Result<()>
    ensures { OnOk result (Appends (W.contents out.old) (W.contents out.new)
        (answer_lines body.now)) }
{
    if body.is_empty() {
        return out.write_all(b"answer\n");
    }
    let mut at_start = true;
    for octet in body {
        tell_octet(out, at_start, *octet)?;
        at_start = *octet == b'\n';
    }
    Ok(())
}

/// Prints an octet of an answer's body, after the word if it begins a line.
fn tell_octet<W: Write>(out: &mut W, at_start: bool, octet: u8) -> io::Result<()>
    ensures { OnOk result (Appends (W.contents out.old) (W.contents out.new) ((if at_start then codes "answer " else []) ++ octet ∷ [])) }
{
    if at_start {
        out.write_all(b"answer ")?;
    }
    out.write_all(&[octet])
}

/// Prints the connections that ended since the last event, by ascending number, and keeps the
/// others.
fn tell_ended<V: Vault, W: Write>(
    office: &Office<V>,
    connections: &mut Vec<u64>,
    out: &mut W,
) -> io::Result<()>
    ensures told { (T : Trace) → StandsFor V.holds office.now T
        → OnOk result (Appends (W.contents out.old) (W.contents out.new)
        (ended_lines (filter (has_ended T) connections.old.items))) }
    ensures kept { (T : Trace) → StandsFor V.holds office.now T
        → OnOk result (connections.new.items ≡ filter (is_open T) connections.old.items) }
{
    for number in connections.iter() {
        tell_if_ended(office, *number, out)?;
    }
    connections.retain(|number| !office.ended(*number));
    Ok(())
}

/// Prints that a connection ended, if it did.
fn tell_if_ended<V: Vault, W: Write>(office: &Office<V>, number: u64, out: &mut W) -> io::Result<()>
    ensures { (T : Trace) → StandsFor V.holds office.now T
        → OnOk result (Appends (W.contents out.old) (W.contents out.new)
        (ended_lines (filter (has_ended T) (number ∷ [])))) }
{
    if office.ended(number) {
        writeln!(out, "ended {number}")?;
    }
    Ok(())
}
