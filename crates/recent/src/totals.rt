//! The totals that are kept of all maildrops.
ghost use Rattle.std.specs.Prelude.{◌≡◌, ◌≤◌, ◌^◌, ◌-◌, Some, map, length, min, sum_by};
ghost use Rattle.std.specs.Prelude.{IfOk, IfSome};
ghost use Rattle.std.specs.List.{list_any};
ghost use Rattle.vault.specs.declared.answer.Head.{Head as HeadSeen};
ghost use Rattle.vault.specs.Records.{most_maildrops};
ghost use Rattle.vault.specs.Call.{Looks};
ghost use Rattle.recent.specs.Recalling.{fresh, changed_in, marked};
ghost use Rattle.recent.specs.Counting.{summed, CountsOne, CountsRows, CountsKept};

use creds::Name;
use std::alloc::{AllocError, Global};
use std::marker::Model;
use vault::{Head, MAX_MAILDROPS, Total, Vault, VaultFault};

/// How many totals are kept at most: those of a full store.
const MOST_TOTALS: usize = MAX_MAILDROPS;

/// A maildrop's total, and whether something may have changed in the maildrop since it was counted.
#[derive(Clone, Copy, PartialEq, Eq)]
pub(crate) struct KeptTotal {
    pub(crate) total: Total,
    pub(crate) is_stale: bool,
}

/// The totals of all maildrops, at most 1,000, in the order in which they were answered.
#[derive(Drop)]
pub(crate) struct Totals {
    rows: Vec<KeptTotal>,
}

impl Model for Totals {
    ghost use Rattle.std.specs.Prelude.{List};
    ghost use Rattle.recent.specs.declared.totals.KeptTotal.{KeptTotal};

    ghost Value = { List KeptTotal };

    ghost view = { λ t. t.rows.items };
}

fn fresh(total: &Total) -> KeptTotal
    ensures { result ≡ fresh total.now }
{
    KeptTotal {
        total: *total,
        is_stale: false,
    }
}

/// The totals as rows, none of them stale.
fn fresh_rows(alloc: Global, totals: &[Total]) -> Result<Vec<KeptTotal>, AllocError>
    ensures { IfOk result (λ rows. rows.items ≡ map fresh totals.now) }
{
    totals.iter().map(|total| fresh(total)).collect(alloc)
}

/// The totals of rows, stale or not.
fn totals_in(alloc: Global, rows: &[KeptTotal]) -> Result<Vec<Total>, AllocError>
    ensures { IfOk result (λ totals. totals.items ≡ map (λ row. row.total) rows.now) }
{
    rows.iter().map(|row| row.total).collect(alloc)
}

/// Whether one of the rows is stale.
fn is_any_stale(rows: &[KeptTotal]) -> bool
    ensures { result ≡ list_any (λ row. row.is_stale) rows.now }
{
    rows.iter().any(|row| row.is_stale)
}

/// Marks the row as stale, if it is of this maildrop.
fn mark(row: &mut KeptTotal, maildrop: &Name)
    ensures { row.new ≡ changed_in maildrop.now row.old }
{
    if row.total.maildrop == *maildrop {
        row.is_stale = true;
    }
}

/// Marks the rows of this maildrop as stale.
fn mark_all(rows: &mut [KeptTotal], maildrop: &Name)
    ensures { rows.new ≡ map (changed_in maildrop.now) rows.old }
{
    for row in rows.iter_mut() {
        mark(row, maildrop);
    }
}

/// The octets of the messages, capped at 2^64 - 1.
fn octets_of(heads: &[Head]) -> u64
    ensures { result ≡ min (sum_by (λ (h : HeadSeen). h.octets) heads.now) (2 ^ 64 - 1) }
{
    let mut octets: u64 = 0;
    for head in heads {
        octets = octets.saturating_add(head.octets);
    }
    octets
}

/// The total of a maildrop that has these heads.
fn total_of(maildrop: &Name, heads: &[Head]) -> Total
    ensures { result ≡ summed maildrop.now heads.now }
{
    Total {
        maildrop: *maildrop,
        messages: heads.len() as u64,
        octets: octets_of(heads),
    }
}

/// Counts a stale row again, by the heads of its maildrop. After a fault it is as it was.
fn count_again<V: Vault>(vault: &mut V, row: &mut KeptTotal) -> Result<(), VaultFault>
    ensures answer { CountsOne V.holds V.is_clean vault.old vault.new row.old row.new result }
    ensures looks { Looks V.holds V.faults V.is_clean V.is_up V.may_leave
        vault.old vault.new result }
{
    if !row.is_stale {
        return Ok(());
    }
    match vault.heads(&row.total.maildrop) {
        Ok(heads) => {
            *row = fresh(&total_of(&row.total.maildrop, heads.as_slice()));
            Ok(())
        }
        Err(fault) => Err(fault),
    }
}

/// Counts the stale rows again. After a fault some of them may be counted.
fn count_all<V: Vault>(vault: &mut V, rows: &mut [KeptTotal]) -> Result<(), VaultFault>
    ensures answer { CountsRows V.holds V.is_clean vault.old vault.new rows.old rows.new result }
    ensures looks { Looks V.holds V.faults V.is_clean V.is_up V.may_leave
        vault.old vault.new result }
{
    for row in rows.iter_mut() {
        count_again(vault, row)?;
    }
    Ok(())
}

impl Totals {
    /// Keeps a copy of the totals; `None` if they are more than 1,000, or if memory
    /// runs out.
    pub(crate) fn of(alloc: Global, totals: &[Total]) -> Option<Totals>
        ensures copy { IfSome result (λ kept. kept ≡ map fresh totals.now) }
        ensures within { IfSome result (λ kept. length kept ≤ most_maildrops) }
    {
        if totals.len() > MOST_TOTALS {
            return None;
        }
        match fresh_rows(alloc, totals) {
            Ok(rows) => Some(Totals { rows }),
            Err(_) => None,
        }
    }

    /// A copy of the totals, if none is stale and there is memory for it.
    fn recall(&self, alloc: Global) -> Option<Vec<Total>>
        ensures { IfSome result (λ totals. self.now ≡ map fresh totals.items) }
    {
        let rows = self.rows.as_slice();
        if is_any_stale(rows) {
            return None;
        }
        match totals_in(alloc, rows) {
            Ok(totals) => Some(totals),
            Err(_) => None,
        }
    }

    /// Marks the total of this maildrop as stale.
    fn mark(&mut self, maildrop: &Name)
        ensures { self.new ≡ map (changed_in maildrop.now) self.old }
    {
        mark_all(&mut self.rows, maildrop);
    }
}

/// The totals that are kept, if none is stale and there is memory for a copy.
pub(crate) fn recalled_totals(alloc: Global, kept: &Option<Totals>) -> Option<Vec<Total>>
    ensures { IfSome result (λ totals. kept.now ≡ Some (map fresh totals.items)) }
{
    match kept {
        Some(totals) => totals.recall(alloc),
        None => None,
    }
}

/// Marks the total of this maildrop as stale, if totals are kept.
pub(crate) fn mark_kept(kept: &mut Option<Totals>, maildrop: &Name)
    ensures { kept.new ≡ marked maildrop.now kept.old }
{
    if let Some(totals) = kept {
        totals.mark(maildrop);
    }
}

/// Counts the stale ones among the kept totals again. After a fault some of them may be counted.
pub(crate) fn count_kept<V: Vault>(
    vault: &mut V,
    kept: &mut Option<Totals>,
) -> Result<(), VaultFault>
    ensures answer { CountsKept V.holds V.is_clean vault.old vault.new kept.old kept.new result }
    ensures looks { Looks V.holds V.faults V.is_clean V.is_up V.may_leave
        vault.old vault.new result }
{
    match kept {
        Some(totals) => count_all(vault, &mut totals.rows),
        None => Ok(()),
    }
}
