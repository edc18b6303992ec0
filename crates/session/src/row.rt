//! The messages of a view, each with its mark.
ghost use Rattle.std.specs.Prelude.{◌≡◌, ◌<◌, ◌≤◌, not, length, map, count_by, sum_by, min};
ghost use Rattle.std.specs.Prelude.{IfOk, OnOk};
ghost use Rattle.session.specs.declared.row.Row.{Row};
ghost use Rattle.session.specs.Session.{class_of, mark_answer};
ghost use Rattle.session.specs.Rows.{login_of, heads_of, unmarked_row, octets_unless_marked};
ghost use Rattle.session.specs.Rows.{row_picked, Plans};
ghost use Rattle.session.specs.View.{visible, retrieval, removal};

use crate::pick::Pick;
use crate::quit_plan::QuitPlan;
use crate::removals::Removals;
use creds::Name;
use policy::{Action, Decision, Lane};
use std::alloc::{AllocError, Global};
use vault::Head;

/// A message of the view, and whether it is marked as deleted.
#[derive(Clone, Copy)]
pub(crate) struct Row {
    pub(crate) head: Head,
    pub(crate) is_marked: bool,
}

/// The policy's decision on the clerk's reading messages of a class in the maildrop.
pub(crate) fn retrieval(lane: &Lane<'_>, class: &Name) -> Decision
    ensures { result ≡ retrieval lane.now.policy (login_of lane.now) class.now }
{
    lane.decide(class, Action::Read)
}

/// The policy's decision on the clerk's removing messages of a class from the maildrop.
pub(crate) fn removal(lane: &Lane<'_>, class: &Name) -> Decision
    ensures { result ≡ removal lane.now.policy (login_of lane.now) class.now }
{
    lane.decide(class, Action::Remove)
}

/// Whether a DELE may mark a message of a class: `Denied` if removals are judged at the DELE
/// and the policy denies this one.
pub(crate) fn judge_mark(removals: Removals, lane: &Lane<'_>, class: &Name) -> Result<(), Pick>
    ensures { result ≡ mark_answer removals
        (removal lane.now.policy (login_of lane.now) class.now) }
{
    match removals {
        Removals::JudgedAtDele => {
            let decision = removal(lane, class);
            if !decision.allowed {
                return Err(Pick::Denied(decision.rule));
            }
            Ok(())
        }
        Removals::JudgedAtQuit => Ok(()),
    }
}

/// An unmarked row for each head that the policy lets the clerk read, in order.
pub(crate) fn visible_rows(
    alloc: Global,
    lane: &Lane<'_>,
    heads: &[Head],
) -> Result<Vec<Row>, AllocError>
    ensures { IfOk result (λ rows. rows.items
        ≡ map unmarked_row (visible class_of lane.now.policy (login_of lane.now) heads.now)) }
{
    heads
        .iter()
        .filter(|head| retrieval(lane, &head.class).allowed)
        .map(|head| Row {
            head: *head,
            is_marked: false,
        })
        .collect(alloc)
}

/// The number of unmarked rows, and the sum of their octets, `u64::MAX` at most.
pub(crate) fn totals(rows: &[Row]) -> (u64, u64)
    ensures messages { result.0 ≡ count_by (λ (row : Row). not row.is_marked) rows.now }
    ensures octets { result.1 ≡ min (sum_by octets_unless_marked rows.now) u64.MAX }
{
    let mut messages = 0u64;
    let mut octets = 0u64;
    for row in rows {
        if !row.is_marked {
            messages += 1;
            octets = octets.saturating_add(row.head.octets);
        }
    }
    (messages, octets)
}

/// How many rows are marked.
pub(crate) fn marked_count(rows: &[Row]) -> usize
    ensures { result ≡ count_by (λ (row : Row). row.is_marked) rows.now }
{
    rows.iter().filter(|row| row.is_marked).count()
}

/// The head of message `n`, counted from 1. `NoSuch` if there is none, `Deleted` if it is
/// marked.
pub(crate) fn head_at(rows: &[Row], n: u64) -> Result<Head, Pick>
    ensures answer { result ≡ row_picked rows.now n }
    ensures within { OnOk result ((0 < n) × (n ≤ length rows.now)) }
{
    if n == 0 {
        return Err(Pick::NoSuch);
    }
    match rows.get(n as usize - 1) {
        None => Err(Pick::NoSuch),
        Some(row) if row.is_marked => Err(Pick::Deleted),
        Some(row) => Ok(row.head),
    }
}

/// What a QUIT does with these rows: one pass, in which each marked message is judged once. An
/// `Err` is want of memory.
pub(crate) fn planned(alloc: Global, lane: &Lane<'_>, rows: &[Row]) -> Result<QuitPlan, AllocError>
    ensures marked { IfOk result (λ plan. plan.marked
        ≡ count_by (λ (row : Row). row.is_marked) rows.now) }
    ensures plans { IfOk result (λ plan. Plans lane.now.policy (login_of lane.now) rows.now plan) }
{
    let mut plan = QuitPlan::new(alloc, marked_count(rows));
    for row in rows {
        plan.add(lane, row)?;
    }
    Ok(plan)
}

/// Unmarks all rows.
pub(crate) fn unmark_all(rows: &mut [Row])
    ensures { rows.new ≡ map unmarked_row (heads_of rows.old) }
{
    for row in rows.iter_mut() {
        row.is_marked = false;
    }
}
