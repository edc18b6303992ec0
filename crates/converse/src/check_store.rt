//! `popbox check`: prints what is in a store.

ghost use Rattle.std.specs.Prelude.{◌≡◌, ◌≤◌, ◌++◌, true, false, sum_by, is_some};
ghost use Rattle.std.specs.Prelude.{IfOk, IfErr, IsOk, OnOk, List, Option};
ghost use Rattle.std.specs.List.{All, flat_map};
ghost use Rattle.std.specs.Io.KnownBytes.{Appends};
ghost use Rattle.vault.specs.declared.answer.Total.{Total as Sum};
ghost use Rattle.vault.specs.Records.{credential_in, is_one_of};
ghost use Rattle.vault.specs.declared.record.Receipt as receipt;
ghost use Rattle.converse.specs.Checked.{kind_text, counted, file_lines, maildrop_line, clerk_line};
ghost use Rattle.converse.specs.Checked.{counts_front, counts_rest, counts_line, last_line};
ghost use Rattle.converse.specs.Checked.{store_text, AreKnown};
ghost use Rattle.converse.specs.Causes.{IsExportFault, IsRefusedCheck, IsRefusedRead};
ghost use Rattle.converse.specs.Causes.{IsRefusedExport, Reports};
ghost use Rattle.converse.specs.Exports.{Checks, WhyNotIntact};
ghost use Rattle.converse.specs.Held.{OverHeld, StillHeld};
ghost use Rattle.converse.specs.Texts.{AreMarks, HasNone, against};
ghost use Rattle.converse.specs.Texts.{differing, differing_in, differs_line};

use crate::fault::{Fault, tell_fault};
use crate::streams::Sink;
use crate::texts::{Mark, Texts, marks_of, print_differing, sift};
use crate::writing::write_text;
use creds::{Credential, Name};
use std::alloc::Global;
use std::collections::BTreeSet;
use std::io;
use std::io::Write;
use vault::{Total, Vault, VaultFault};

/// The file of a store with its log, as they were before the store was opened.
#[derive(Clone, Copy, Debug)]
pub struct StoreFile {
    /// The version of its tables.
    pub version: u64,
    /// How many octets both have.
    pub octets: u64,
}

/// Prints what lies in a store to `out`, which is flushed: the version of its tables; the octets of
/// its file and log; a line for each maildrop with its messages and their octets, by name; a line
/// for each of these clerks, in this order, with the kind of credential, `apop` or `pass`; and a
/// last line `ok, ..` with how many there are. Nothing in the store is changed.
///
/// If texts are compared, each message is read, one at a time. If its text doesn't have the digest
/// of its deposit, a line `differs MAILDROP UNIQUE-ID` is printed, by the maildrop's name, the
/// oldest first; then there is no last line, and the fault is [`Fault::Differs`].
///
/// Gives the exit status, 0 or 1. A fault has status 1 and its text on `err`: messages differ, the
/// store refuses or has no such clerk, memory runs out, `out` refuses octets. With the first of
/// them all of it is on `out`, with the last a beginning may be, with the others nothing is.
pub fn check_store<V: Vault, W: Sink, E: Write>(
    alloc: Global,
    vault: &mut V,
    clerks: &[Name],
    texts: &Texts,
    file: &StoreFile,
    out: &mut W,
    err: &mut E,
) -> u8
    ensures checks { Checks V.Vault W.Sink vault.old vault.new out.old out.new file.now
        (λ _. clerks.now) (λ _. against texts.now) (result ≡ 0) }
    ensures reports { Reports E.contents err.old err.new result
        (WhyNotIntact V.Vault W.Sink vault.old vault.new out.old out.new file.now
        (λ _. clerks.now) (λ _. against texts.now)
        (IsRefusedCheck V.holds V.is_clean V.faults vault.old vault.new (AreKnown clerks.now))) }
    ensures still { StillHeld V.Vault vault.old vault.new }
{
    match tell_store(alloc, vault, clerks, texts, file, out) {
        Ok(()) => 0,
        Err(fault) => tell_fault(err, fault),
    }
}

/// Prints what lies in a store.
fn tell_store<V: Vault, W: Sink>(
    alloc: Global,
    vault: &mut V,
    clerks: &[Name],
    texts: &Texts,
    file: &StoreFile,
    out: &mut W,
) -> Result<(), Fault>
    ensures checks { Checks V.Vault W.Sink vault.old vault.new out.old out.new file.now
        (λ _. clerks.now) (λ _. against texts.now) (IsOk result) }
    ensures why { IfErr result (WhyNotIntact V.Vault W.Sink vault.old vault.new out.old out.new
        file.now (λ _. clerks.now) (λ _. against texts.now)
        (IsRefusedCheck V.holds V.is_clean V.faults vault.old vault.new (AreKnown clerks.now))) }
    ensures still { StillHeld V.Vault vault.old vault.new }
{
    let mut text = Vec::new(alloc);
    let marks = marks_of(alloc, texts)?;
    let are_intact = put_store(alloc, vault, clerks, &marks, file, &mut text)?;
    write_text(out, text.as_slice())?;
    if are_intact {
        return Ok(());
    }
    Err(Fault::Differs)
}

/// Adds what lies in a store to a text. Whether all its messages have the texts of their deposits.
fn put_store<V: Vault>(
    alloc: Global,
    vault: &mut V,
    clerks: &[Name],
    marks: &Option<BTreeSet<Mark>>,
    file: &StoreFile,
    text: &mut Vec<u8>,
) -> Result<bool, Fault>
    ensures told { OnOk result ((rs : Option (List receipt.Receipt)) → AreMarks rs marks.now
        → OverHeld V.Vault vault.old vault.new
        (λ c. text.new.items ≡ text.old.items ++ store_text file.now c clerks.now rs)) }
    ensures intact { IfOk result (λ intact. (rs : Option (List receipt.Receipt))
        → AreMarks rs marks.now → OverHeld V.Vault vault.old vault.new
        (λ c. HasNone intact (differing rs c))) }
    ensures known { OnOk result (OverHeld V.Vault vault.old vault.new
        (λ c. AreKnown clerks.now c)) }
    ensures held { OverHeld V.Vault vault.old vault.new (V.holds vault.new) }
    ensures clean { V.is_clean vault.new → V.is_clean vault.old }
    ensures cause { IfErr result (IsExportFault false false
        (IsRefusedCheck V.holds V.is_clean V.faults vault.old vault.new (AreKnown clerks.now))) }
{
    let totals = vault.maildrops()?;
    let rules = vault.policy()?.len();
    let Ok(()) = print_front(text, file, totals.as_slice()) else {
        return Err(Fault::OutOfMemory);
    };
    tell_clerks(vault, clerks, text)?;
    let before = text.len();
    tell_differing(alloc, vault, marks, totals.as_slice(), text)?;
    let after = text.len();
    if after > before {
        return Ok(false);
    }
    match print_last(text, totals.as_slice(), clerks.len(), rules) {
        Ok(()) => Ok(true),
        Err(_) => Err(Fault::OutOfMemory),
    }
}

/// Prints a line for each message of these maildrops whose text isn't that of its deposit.
fn tell_differing<V: Vault>(
    alloc: Global,
    vault: &mut V,
    marks: &Option<BTreeSet<Mark>>,
    totals: &[Total],
    text: &mut Vec<u8>,
) -> Result<(), Fault>
    ensures told { OnOk result ((rs : Option (List receipt.Receipt)) → AreMarks rs marks.now
        → OverHeld V.Vault vault.old vault.new
        (λ c. text.new.items ≡ text.old.items ++ flat_map (λ (s : Sum). flat_map differs_line
        (differing_in rs s.maildrop c)) totals.now)) }
    ensures held { OverHeld V.Vault vault.old vault.new (V.holds vault.new) }
    ensures clean { V.is_clean vault.new → V.is_clean vault.old }
    ensures counted { V.faults vault.old ≤ V.faults vault.new }
    ensures cause { IfErr result (IsExportFault false false
        (IsRefusedRead V.holds V.is_clean V.faults vault.old vault.new
        (λ c. All (λ (s : Sum). is_one_of s.maildrop c.maildrops ≡ true) totals.now))) }
{
    for total in totals {
        tell_maildrop(alloc, vault, marks, &total.maildrop, text)?;
    }
    Ok(())
}

/// Prints a line for each message of a maildrop whose text isn't that of its deposit.
fn tell_maildrop<V: Vault>(
    alloc: Global,
    vault: &mut V,
    marks: &Option<BTreeSet<Mark>>,
    maildrop: &Name,
    text: &mut Vec<u8>,
) -> Result<(), Fault>
    ensures told { OnOk result ((rs : Option (List receipt.Receipt)) → AreMarks rs marks.now
        → OverHeld V.Vault vault.old vault.new
        (λ c. text.new.items ≡ text.old.items ++ flat_map differs_line
        (differing_in rs maildrop.now c))) }
    ensures held { OverHeld V.Vault vault.old vault.new (V.holds vault.new) }
    ensures clean { V.is_clean vault.new → V.is_clean vault.old }
    ensures counted { V.faults vault.old ≤ V.faults vault.new }
    ensures cause { IfErr result (IsExportFault false false
        (IsRefusedExport V.holds V.is_clean V.faults vault.old vault.new maildrop.now)) }
{
    let mut intact = Vec::new(alloc);
    let mut differing = Vec::new(alloc);
    sift(alloc, vault, marks, maildrop, &mut intact, &mut differing)?;
    match print_differing(text, maildrop, differing.as_slice()) {
        Ok(()) => Ok(()),
        Err(_) => Err(Fault::OutOfMemory),
    }
}

/// Prints the lines of a store's file and of its maildrops.
fn print_front<W: Write>(out: &mut W, file: &StoreFile, totals: &[Total]) -> io::Result<()>
    ensures { OnOk result (Appends (W.contents out.old) (W.contents out.new)
        (file_lines file.now ++ flat_map maildrop_line totals.now)) }
{
    let version = file.version;
    let octets = file.octets;
    write!(out, "version {version}\nsize {octets}\n")?;
    print_totals(out, totals)
}

/// Prints a line for each maildrop.
fn print_totals<W: Write>(out: &mut W, totals: &[Total]) -> io::Result<()>
    ensures { OnOk result (Appends (W.contents out.old) (W.contents out.new)
        (flat_map maildrop_line totals.now)) }
{
    for total in totals {
        print_total(out, total)?;
    }
    Ok(())
}

/// Prints the line of a maildrop.
fn print_total<W: Write>(out: &mut W, total: &Total) -> io::Result<()>
    ensures { OnOk result (Appends (W.contents out.old) (W.contents out.new)
        (maildrop_line total.now)) }
{
    let maildrop = total.maildrop;
    let messages = total.messages;
    let octets = total.octets;
    writeln!(out, "maildrop {maildrop} {messages} {octets}")
}

/// Prints a line for each of these clerks.
fn tell_clerks<V: Vault>(vault: &mut V, clerks: &[Name], text: &mut Vec<u8>) -> Result<(), Fault>
    ensures told { OnOk result (OverHeld V.Vault vault.old vault.new
        (λ c. text.new.items ≡ text.old.items ++ flat_map (clerk_line c.clerks) clerks.now)) }
    ensures known { OnOk result (OverHeld V.Vault vault.old vault.new
        (λ c. AreKnown clerks.now c)) }
    ensures held { OverHeld V.Vault vault.old vault.new (V.holds vault.new) }
    ensures clean { V.is_clean vault.new → V.is_clean vault.old }
    ensures counted { V.faults vault.old ≤ V.faults vault.new }
    ensures cause { IfErr result (IsExportFault false false
        (IsRefusedCheck V.holds V.is_clean V.faults vault.old vault.new (AreKnown clerks.now))) }
{
    for name in clerks {
        tell_clerk(vault, name, text)?;
    }
    Ok(())
}

/// Prints the line of a clerk, who is asked of the store.
fn tell_clerk<V: Vault>(vault: &mut V, name: &Name, text: &mut Vec<u8>) -> Result<(), Fault>
    ensures told { OnOk result (OverHeld V.Vault vault.old vault.new
        (λ c. text.new.items ≡ text.old.items ++ clerk_line c.clerks name.now)) }
    ensures known { OnOk result (OverHeld V.Vault vault.old vault.new
        (λ c. is_some (credential_in name.now c.clerks) ≡ true)) }
    ensures held { OverHeld V.Vault vault.old vault.new (V.holds vault.new) }
    ensures clean { V.is_clean vault.new → V.is_clean vault.old }
    ensures counted { V.faults vault.old ≤ V.faults vault.new }
    ensures cause { IfErr result (IsExportFault false false
        (IsRefusedCheck V.holds V.is_clean V.faults vault.old vault.new
        (λ c. is_some (credential_in name.now c.clerks) ≡ true))) }
{
    let Some(credential) = vault.credential(name)? else {
        return Err(Fault::Store(VaultFault::NoClerk));
    };
    let kind = kind_of(&credential);
    match writeln!(text, "clerk {name} {kind}") {
        Ok(()) => Ok(()),
        Err(_) => Err(Fault::OutOfMemory),
    }
}

/// The kind of a credential.
fn kind_of(credential: &Credential) -> &'static str
    ensures { result.now ≡ kind_text credential.now }
{
    match credential {
        Credential::Apop(_) => "apop",
        Credential::Pass(_) => "pass",
    }
}

/// Prints the last line.
fn print_last<W: Write>(
    out: &mut W,
    totals: &[Total],
    clerks: usize,
    rules: usize,
) -> io::Result<()>
    ensures { OnOk result (Appends (W.contents out.old) (W.contents out.new)
        (last_line totals.now clerks rules)) }
{
    let maildrops = totals.len();
    let messages = count_messages(totals);
    let octets = count_octets(totals);
    print_counts(out, maildrops, messages, octets, clerks, rules)?;
    Ok(())
}

/// Prints how many there are of each.
fn print_counts<W: Write>(
    out: &mut W,
    maildrops: usize,
    messages: u64,
    octets: u64,
    clerks: usize,
    rules: usize,
) -> io::Result<()>
    ensures { OnOk result (Appends (W.contents out.old) (W.contents out.new)
        (counts_line maildrops messages octets clerks rules)) }
{
    print_counts_front(out, maildrops, messages)?;
    print_counts_rest(out, octets, clerks, rules)
}

/// Prints how many maildrops and messages there are.
fn print_counts_front<W: Write>(out: &mut W, maildrops: usize, messages: u64) -> io::Result<()>
    ensures { OnOk result (Appends (W.contents out.old) (W.contents out.new)
        (counts_front maildrops messages)) }
{
    write!(out, "ok, {maildrops} maildrops, {messages} messages, ")
}

/// Prints how many octets, clerks and rules there are, and ends the line.
fn print_counts_rest<W: Write>(
    out: &mut W,
    octets: u64,
    clerks: usize,
    rules: usize,
) -> io::Result<()>
    ensures { OnOk result (Appends (W.contents out.old) (W.contents out.new)
        (counts_rest octets clerks rules)) }
{
    writeln!(out, "{octets} octets, {clerks} clerks, {rules} rules")
}

/// The messages of all maildrops, at most 2^64 - 1.
fn count_messages(totals: &[Total]) -> u64
    ensures { result ≡ counted (sum_by (λ (t : Sum). t.messages) totals.now) }
{
    let mut count = 0u64;
    for total in totals {
        count = count.saturating_add(total.messages);
    }
    count
}

/// Their octets, at most 2^64 - 1.
fn count_octets(totals: &[Total]) -> u64
    ensures { result ≡ counted (sum_by (λ (t : Sum). t.octets) totals.now) }
{
    let mut count = 0u64;
    for total in totals {
        count = count.saturating_add(total.octets);
    }
    count
}
