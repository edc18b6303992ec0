//! `popbox export`: puts the messages of a maildrop as files into a folder.

ghost use Rattle.std.specs.Prelude.{◌≡◌, ◌≤◌, ◌<◌, ◌∷◌, [], true, false, length, map};
ghost use Rattle.std.specs.Prelude.{IsOk, IfOk, IfErr, OnOk, OnErr};
ghost use Rattle.std.specs.List.{All};
ghost use Rattle.vault.specs.Calls.{text_under, has_grown};
ghost use Rattle.converse.specs.Causes.{IsExportFault, IsRefusedRead, Reports};
ghost use Rattle.std.specs.Io.KnownBytes.{Appends};
ghost use Rattle.converse.specs.Exported.{Takes, TakesFirst, export_line, IsFront};
ghost use Rattle.converse.specs.Exported.{IsMeasured, file_under, told_of};
ghost use Rattle.converse.specs.Exports.{Exports, PutsMaildrop, WhyNotWhole};
ghost use Rattle.converse.specs.Held.{OverHeld, StillHeld};
ghost use Rattle.converse.specs.Texts.{against};
ghost use Rattle.converse.specs.declared.fault.Fault.TheVariants as faults;

use crate::fault::{Fault, put_fault, tell_fault};
pub use crate::folder::Folder;
use crate::streams::Sink;
use crate::texts::{Texts, marks_of, print_differing, sift};
use crate::writing::write_text;
use creds::{Name, Uid};
use office::PAGE_OCTETS;
use std::alloc::Global;
use std::io;
use std::io::Write;
use vault::{Head, MessageKey, Vault, VaultFault};

/// Puts each message of a maildrop, the oldest first, as a file into a folder, and prints
/// `ok, N messages` to `out`, which is flushed, once the names of the files last a power cut. The
/// file's name is the message's unique-id with `.eml` after it; its octets are the message's text
/// with CRLF after each line. Nothing in the store is changed. One message at a time is in memory.
///
/// If texts are compared, a message whose text doesn't have the digest of its deposit is left out,
/// and in place of that line a line `differs MAILDROP UNIQUE-ID` is printed for each of them, the
/// oldest first; the fault is then [`Fault::Differs`].
///
/// Gives the exit status, 0 or 1. A fault has status 1 and its text on `err`: there is no such
/// maildrop, the store refuses, memory runs out, the folder refuses, `out` refuses octets, messages
/// were left out. The files that were put before a fault stay; none is put in part. Only before the
/// last two of these faults all messages are put, and a beginning of the lines may be on `out`.
pub fn export<V: Vault, F: Folder, W: Sink, E: Write>(
    alloc: Global,
    vault: &mut V,
    maildrop: &Name,
    texts: &Texts,
    folder: &mut F,
    out: &mut W,
    err: &mut E,
) -> u8
    ensures exports { Exports V.Vault F.Folder W.Sink vault.old vault.new folder.old folder.new
        out.old out.new (λ _. against texts.now) maildrop.now result }
    ensures reports { Reports E.contents err.old err.new result
        (WhyNotWhole V.Vault F.Folder W.Sink vault.old vault.new folder.old folder.new
        out.old out.new (λ _. against texts.now) maildrop.now) }
    ensures still { StillHeld V.Vault vault.old vault.new }
{
    match put_maildrop(alloc, vault, maildrop, texts, folder, out) {
        Ok(true) => 0,
        Ok(false) => tell_fault(err, Fault::Differs),
        Err(fault) => tell_fault(err, fault),
    }
}

/// Puts the messages of a maildrop that have the texts of their deposits into a folder, and prints
/// how many or, if messages are left out, which. Whether none is left out.
fn put_maildrop<V: Vault, F: Folder, W: Sink>(
    alloc: Global,
    vault: &mut V,
    maildrop: &Name,
    texts: &Texts,
    folder: &mut F,
    out: &mut W,
) -> Result<bool, Fault>
    ensures puts { PutsMaildrop V.Vault F.Folder W.Sink vault.old vault.new folder.old folder.new
        out.old out.new (λ _. against texts.now) maildrop.now result }
    ensures still { StillHeld V.Vault vault.old vault.new }
{
    let marks = marks_of(alloc, texts)?;
    let mut intact = Vec::new(alloc);
    let mut differing = Vec::new(alloc);
    sift(alloc, vault, &marks, maildrop, &mut intact, &mut differing)?;
    let report = report(alloc, maildrop, intact.len(), differing.as_slice())?;
    put_messages(alloc, vault, intact.as_slice(), folder)?;
    write_text(out, report.as_slice())?;
    Ok(differing.is_empty())
}

/// What is printed if so many messages were put, and these were left out.
fn report(
    alloc: Global,
    maildrop: &Name,
    count: usize,
    differing: &[Head],
) -> Result<Vec<u8>, Fault>
    ensures told { IfOk result (λ text. text.items ≡ told_of maildrop.now count differing.now) }
    ensures memory { IfErr result (λ fault. fault ≡ faults.OutOfMemory) }
{
    let mut text = Vec::new(alloc);
    match print_report(&mut text, maildrop, count, differing) {
        Ok(()) => Ok(text),
        Err(_) => Err(Fault::OutOfMemory),
    }
}

/// Prints it.
fn print_report<W: Write>(
    out: &mut W,
    maildrop: &Name,
    count: usize,
    differing: &[Head],
) -> io::Result<()>
    ensures { OnOk result (Appends (W.contents out.old) (W.contents out.new)
        (told_of maildrop.now count differing.now)) }
{
    if differing.is_empty() {
        return print_count(out, count);
    }
    print_differing(out, maildrop, differing)
}

/// Prints how many messages were put.
fn print_count<W: Write>(out: &mut W, count: usize) -> io::Result<()>
    ensures { OnOk result (Appends (W.contents out.old) (W.contents out.new) (export_line count)) }
{
    writeln!(out, "ok, {count} messages")
}

/// Puts the messages of these heads into a folder, in their order, and has their names last.
fn put_messages<V: Vault, F: Folder>(
    alloc: Global,
    vault: &mut V,
    heads: &[Head],
    folder: &mut F,
) -> Result<(), Fault>
    ensures whole { OnOk result (OverHeld V.Vault vault.old vault.new
        (λ c. All (IsMeasured c) heads.now → Takes (F.files folder.old) (F.files folder.new)
        (map (file_under c) heads.now))) }
    ensures part { OnErr result (OverHeld V.Vault vault.old vault.new
        (λ c. All (IsMeasured c) heads.now → TakesFirst (F.files folder.old) (F.files folder.new)
        (map (file_under c) heads.now))) }
    ensures held { OverHeld V.Vault vault.old vault.new (V.holds vault.new) }
    ensures clean { V.is_clean vault.new → V.is_clean vault.old }
    ensures settled { IsOk result → F.is_settled folder.new ≡ true }
    ensures cause { IfErr result
        (IsExportFault (has_grown (F.faults folder.old) (F.faults folder.new))
        false
        (IsRefusedRead V.holds V.is_clean V.faults vault.old vault.new
        (λ c. All (IsMeasured c) heads.now))) }
{
    match put_each(alloc, vault, heads, folder) {
        Ok(()) => settle(folder),
        Err(fault) => Err(fault),
    }
}

/// Has the names of the files that a folder took last.
fn settle<F: Folder>(folder: &mut F) -> Result<(), Fault>
    ensures kept { Takes (F.files folder.old) (F.files folder.new) [] }
    ensures settled { IsOk result → F.is_settled folder.new ≡ true }
    ensures cause { IfErr result (IsExportFault
        (has_grown (F.faults folder.old) (F.faults folder.new)) false (λ _. ⊥)) }
{
    match folder.settle() {
        Ok(()) => Ok(()),
        Err(error) => Err(put_fault(&error)),
    }
}

/// Puts the messages of these heads into a folder, in their order.
fn put_each<V: Vault, F: Folder>(
    alloc: Global,
    vault: &mut V,
    heads: &[Head],
    folder: &mut F,
) -> Result<(), Fault>
    ensures whole { OnOk result (OverHeld V.Vault vault.old vault.new
        (λ c. All (IsMeasured c) heads.now → Takes (F.files folder.old) (F.files folder.new)
        (map (file_under c) heads.now))) }
    ensures part { OnErr result (OverHeld V.Vault vault.old vault.new
        (λ c. All (IsMeasured c) heads.now → TakesFirst (F.files folder.old) (F.files folder.new)
        (map (file_under c) heads.now))) }
    ensures held { OverHeld V.Vault vault.old vault.new (V.holds vault.new) }
    ensures clean { V.is_clean vault.new → V.is_clean vault.old }
    ensures counted { F.faults folder.old ≤ F.faults folder.new }
    ensures counted_too { V.faults vault.old ≤ V.faults vault.new }
    ensures cause { IfErr result
        (IsExportFault (has_grown (F.faults folder.old) (F.faults folder.new))
        false
        (IsRefusedRead V.holds V.is_clean V.faults vault.old vault.new
        (λ c. All (IsMeasured c) heads.now))) }
{
    for head in heads {
        put_message(alloc, vault, head, folder)?;
    }
    Ok(())
}

/// Puts the message of a head into a folder.
fn put_message<V: Vault, F: Folder>(
    alloc: Global,
    vault: &mut V,
    head: &Head,
    folder: &mut F,
) -> Result<(), Fault>
    ensures whole { OnOk result (OverHeld V.Vault vault.old vault.new
        (λ c. IsMeasured c head.now → Takes (F.files folder.old) (F.files folder.new)
        (file_under c head.now ∷ []))) }
    ensures refused { OnErr result (Takes (F.files folder.old) (F.files folder.new) []) }
    ensures held { OverHeld V.Vault vault.old vault.new (V.holds vault.new) }
    ensures clean { V.is_clean vault.new → V.is_clean vault.old }
    ensures counted { F.faults folder.old ≤ F.faults folder.new }
    ensures counted_too { V.faults vault.old ≤ V.faults vault.new }
    ensures cause { IfErr result
        (IsExportFault (has_grown (F.faults folder.old) (F.faults folder.new))
        false
        (IsRefusedRead V.holds V.is_clean V.faults vault.old vault.new
        (λ c. IsMeasured c head.now))) }
{
    let text = read_text(alloc, vault, head)?;
    let uid = Uid {
        class: head.class,
        k: head.k,
    };
    let name = format!(in alloc; "{uid}.eml")?;
    match folder.put(name.as_str(), text.as_slice()) {
        Ok(()) => Ok(()),
        Err(error) => Err(put_fault(&error)),
    }
}

/// Reads the whole text of the message of a head.
pub(crate) fn read_text<V: Vault>(
    alloc: Global,
    vault: &mut V,
    head: &Head,
) -> Result<Vec<u8>, Fault>
    ensures text { IfOk result (λ text. OverHeld V.Vault vault.old vault.new
        (λ c. IsMeasured c head.now → text.items ≡ text_under head.now.key c.messages)) }
    ensures held { OverHeld V.Vault vault.old vault.new (V.holds vault.new) }
    ensures clean { V.is_clean vault.new → V.is_clean vault.old }
    ensures counted { V.faults vault.old ≤ V.faults vault.new }
    ensures cause { IfErr result (IsExportFault false false
        (IsRefusedRead V.holds V.is_clean V.faults vault.old vault.new
        (λ c. IsMeasured c head.now))) }
{
    let mut text = Vec::new(alloc);
    while (text.len() as u64) < head.octets {
        read_more(vault, head.key, &mut text)?;
    }
    Ok(text)
}

/// Reads the next octets of the message under a key to the end of those that were read, at least
/// one.
///
/// Answers [`Fault::OutOfMemory`] if memory was refused, and [`Fault::Store`] if the store
/// refused, or gave a page that no clean store gives.
fn read_more<V: Vault>(vault: &mut V, key: MessageKey, text: &mut Vec<u8>) -> Result<(), Fault>
    ensures grown { IsOk result → length text.old.items < length text.new.items }
    ensures front { OnOk result (OverHeld V.Vault vault.old vault.new
        (λ c. IsFront text.old.items (text_under key c.messages)
        → IsFront text.new.items (text_under key c.messages))) }
    ensures held { OverHeld V.Vault vault.old vault.new (V.holds vault.new) }
    ensures clean { V.is_clean vault.new → V.is_clean vault.old }
    ensures counted { V.faults vault.old ≤ V.faults vault.new }
    ensures cause { IfErr result (IsExportFault false false
        (IsRefusedRead V.holds V.is_clean V.faults vault.old vault.new
        (λ c. length text.old.items < length (text_under key c.messages)))) }
{
    let mut page = [0u8; PAGE_OCTETS];
    let count = vault.page(key, text.len() as u64, &mut page)?;
    if count == 0 {
        return Err(Fault::Store(VaultFault::Store));
    }
    if count > PAGE_OCTETS {
        return Err(Fault::Store(VaultFault::Store));
    }
    text.extend_from_slice(&page[..count])?;
    Ok(())
}
