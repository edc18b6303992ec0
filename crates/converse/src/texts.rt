//! Which messages have the text that came with their deposit.

ghost use Rattle.std.specs.Prelude.{◌≡◌, ◌≤◌, ◌∷◌, ◌++◌, [], true, false, not, List, Option, map};
ghost use Rattle.std.specs.Prelude.{filter, IfOk, IfErr, OnOk};
ghost use Rattle.std.specs.Prelude.{if◌then◌else◌};
ghost use Rattle.std.specs.List.{All, flat_map};
ghost use Rattle.std.specs.Io.KnownBytes.{Appends};
ghost use Rattle.vault.specs.Records.{is_one_of};
ghost use Rattle.vault.specs.declared.record.Receipt as receipt;
ghost use Rattle.vault.specs.Changes.{head_of};
ghost use Rattle.converse.specs.Causes.{IsExportFault, IsRefusedExport, IsRefusedRead};
ghost use Rattle.converse.specs.Exported.{IsMeasured};
ghost use Rattle.converse.specs.Held.{OverHeld};
ghost use Rattle.converse.specs.declared.fault.Fault.TheVariants.{OutOfMemory};
ghost use Rattle.converse.specs.Texts.{IsSetOf, AreMarks, mark_of, has_intact, head_line, against};
ghost use Rattle.converse.specs.Texts.{intact_in, differing_in};

use crate::export::read_text;
use crate::fault::Fault;
use creds::{Name, Uid, text_digest};
use std::alloc::{AllocError, Global};
use std::collections::BTreeSet;
use std::io;
use std::io::Write;
use vault::{Head, Receipt, Vault};

/// What the texts of messages are compared with.
#[derive(Drop)]
pub enum Texts {
    /// Nothing: each text counts as it is.
    Taken,
    /// The digests of these deposits.
    Compared(Vec<Receipt>),
}

/// A deposit's maildrop, its class, its number among those of both, and the digest of its text.
pub(crate) type Mark = (Name, Name, u64, [u8; 32]);

/// The marks of the deposits that texts are compared with; `None` if texts aren't compared.
pub(crate) fn marks_of(alloc: Global, texts: &Texts) -> Result<Option<BTreeSet<Mark>>, AllocError>
    ensures { IfOk result (AreMarks (against texts.now)) }
{
    match texts {
        Texts::Taken => Ok(None),
        Texts::Compared(receipts) => Ok(Some(collect_marks(alloc, receipts.as_slice())?)),
    }
}

/// The marks of these deposits.
fn collect_marks(alloc: Global, receipts: &[Receipt]) -> Result<BTreeSet<Mark>, AllocError>
    ensures { IfOk result (λ marks. IsSetOf (map mark_of receipts.now) marks) }
{
    let mut marks = BTreeSet::new(alloc);
    for receipt in receipts {
        marks.insert((receipt.maildrop, receipt.class, receipt.k, receipt.digest))?;
    }
    Ok(marks)
}

/// Whether the message of a head in this maildrop has the text of its deposit.
fn is_intact<V: Vault>(
    alloc: Global,
    vault: &mut V,
    marks: &Option<BTreeSet<Mark>>,
    maildrop: &Name,
    head: &Head,
) -> Result<bool, Fault>
    ensures told { IfOk result (λ intact. (rs : Option (List receipt.Receipt))
        → AreMarks rs marks.now → OverHeld V.Vault vault.old vault.new
        (λ c. IsMeasured c head.now → intact ≡ has_intact rs maildrop.now c head.now)) }
    ensures held { OverHeld V.Vault vault.old vault.new (V.holds vault.new) }
    ensures clean { V.is_clean vault.new → V.is_clean vault.old }
    ensures counted { V.faults vault.old ≤ V.faults vault.new }
    ensures cause { IfErr result (IsExportFault false false
        (IsRefusedRead V.holds V.is_clean V.faults vault.old vault.new
        (λ c. IsMeasured c head.now))) }
{
    let Some(marks) = marks else {
        return Ok(true);
    };
    let text = read_text(alloc, vault, head)?;
    let digest = text_digest(text.as_slice());
    Ok(marks.contains(&(*maildrop, head.class, head.k, digest)))
}

/// Adds a head at the end.
fn add_head(heads: &mut Vec<Head>, head: &Head) -> Result<(), Fault>
    ensures added { OnOk result (heads.new.items ≡ heads.old.items ++ head.now ∷ []) }
    ensures memory { IfErr result (λ fault. fault ≡ OutOfMemory) }
{
    heads.extend_from_slice(&[*head])?;
    Ok(())
}

/// Adds a head at the end of `intact` if it was found to be, and of `differing` otherwise.
fn add_sifted(
    found: bool,
    head: &Head,
    intact: &mut Vec<Head>,
    differing: &mut Vec<Head>,
) -> Result<(), Fault>
    ensures intact { OnOk result (intact.new.items
        ≡ intact.old.items ++ (if found then head.now ∷ [] else [])) }
    ensures differing { OnOk result (differing.new.items
        ≡ differing.old.items ++ (if not found then head.now ∷ [] else [])) }
    ensures memory { IfErr result (λ fault. fault ≡ OutOfMemory) }
{
    if found {
        add_head(intact, head)
    } else {
        add_head(differing, head)
    }
}

/// Adds those of a maildrop's heads whose messages have the texts of their deposits to `intact`,
/// and the others to `differing`, both in their order.
fn sift_heads<V: Vault>(
    alloc: Global,
    vault: &mut V,
    marks: &Option<BTreeSet<Mark>>,
    maildrop: &Name,
    heads: &[Head],
    intact: &mut Vec<Head>,
    differing: &mut Vec<Head>,
) -> Result<(), Fault>
    ensures sifted { OnOk result ((rs : Option (List receipt.Receipt)) → AreMarks rs marks.now
        → OverHeld V.Vault vault.old vault.new
        (λ c. All (IsMeasured c) heads.now
        → (intact.new.items ≡ intact.old.items ++ filter (has_intact rs maildrop.now c) heads.now)
        × (differing.new.items ≡ differing.old.items
        ++ filter (λ h. not (has_intact rs maildrop.now c h)) heads.now))) }
    ensures held { OverHeld V.Vault vault.old vault.new (V.holds vault.new) }
    ensures clean { V.is_clean vault.new → V.is_clean vault.old }
    ensures counted { V.faults vault.old ≤ V.faults vault.new }
    ensures cause { IfErr result (IsExportFault false false
        (IsRefusedRead V.holds V.is_clean V.faults vault.old vault.new
        (λ c. All (IsMeasured c) heads.now))) }
{
    for head in heads {
        let found = is_intact(alloc, vault, marks, maildrop, head)?;
        add_sifted(found, head, intact, differing)?;
    }
    Ok(())
}

/// Adds the heads of a maildrop's messages that have the texts of their deposits to `intact`, and
/// those of the others to `differing`.
pub(crate) fn sift<V: Vault>(
    alloc: Global,
    vault: &mut V,
    marks: &Option<BTreeSet<Mark>>,
    maildrop: &Name,
    intact: &mut Vec<Head>,
    differing: &mut Vec<Head>,
) -> Result<(), Fault>
    ensures sifted { OnOk result ((rs : Option (List receipt.Receipt)) → AreMarks rs marks.now
        → OverHeld V.Vault vault.old vault.new
        (λ c. (is_one_of maildrop.now c.maildrops ≡ true)
        × (intact.new.items ≡ intact.old.items ++ map head_of (intact_in rs maildrop.now c))
        × (differing.new.items ≡ differing.old.items
        ++ map head_of (differing_in rs maildrop.now c)))) }
    ensures held { OverHeld V.Vault vault.old vault.new (V.holds vault.new) }
    ensures clean { V.is_clean vault.new → V.is_clean vault.old }
    ensures counted { V.faults vault.old ≤ V.faults vault.new }
    ensures cause { IfErr result (IsExportFault false false
        (IsRefusedExport V.holds V.is_clean V.faults vault.old vault.new maildrop.now)) }
{
    let heads = vault.heads(maildrop)?;
    sift_heads(
        alloc,
        vault,
        marks,
        maildrop,
        heads.as_slice(),
        intact,
        differing,
    )?;
    Ok(())
}

/// Prints a line for each of these messages of a maildrop, whose texts aren't those of their
/// deposits.
pub(crate) fn print_differing<W: Write>(
    out: &mut W,
    maildrop: &Name,
    heads: &[Head],
) -> io::Result<()>
    ensures { OnOk result (Appends (W.contents out.old) (W.contents out.new)
        (flat_map (head_line maildrop.now) heads.now)) }
{
    for head in heads {
        print_head(out, maildrop, head)?;
    }
    Ok(())
}

/// Prints the line of a message whose text isn't that of its deposit.
fn print_head<W: Write>(out: &mut W, maildrop: &Name, head: &Head) -> io::Result<()>
    ensures { OnOk result (Appends (W.contents out.old) (W.contents out.new)
        (head_line maildrop.now head.now)) }
{
    let uid = Uid {
        class: head.class,
        k: head.k,
    };
    writeln!(out, "differs {maildrop} {uid}")
}
