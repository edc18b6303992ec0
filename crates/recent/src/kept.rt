//! The heads that are kept of maildrops, and when what is kept is forgotten.
ghost use Rattle.std.specs.Prelude.{◌≡◌, ◌≤◌, ◌<◌, ◌+◌, [], length, take, find, option_copied};
ghost use Rattle.std.specs.Prelude.{None, Ok, is_ok, if◌then◌else◌, IfSome};
ghost use Rattle.std.specs.Str.{bytes_eq};
ghost use Rattle.vault.specs.Changes.{Contents};
ghost use Rattle.vault.specs.Calls.{heads_result};
ghost use Rattle.vault.specs.Records.{most_messages};
ghost use Rattle.recent.specs.Recalling.{count, kept_heads, without, Fits, KeptHeads};
ghost use Rattle.recent.specs.Recalling.{is_of_deposit, heads_after, totals_after};

use crate::totals::{Totals, mark_kept};
use creds::Name;
use std::alloc::Global;
use std::marker::Model;
use vault::{Head, MAX_MESSAGES, VaultFault};

/// How many heads are kept at most, of all maildrops together: those of a full one.
const MOST_HEADS: usize = MAX_MESSAGES;

/// The heads of a maildrop, as it was last asked for.
#[derive(Drop)]
pub(crate) struct Kept {
    maildrop: Name,
    heads: Vec<Head>,
}

impl Model for Kept {
    ghost use Rattle.recent.specs.Recalling.{KeptHeads};

    ghost Value = { KeptHeads };

    ghost view = { λ k. record { maildrop = k.maildrop; heads = k.heads.items } };
}

/// A copy of heads; `None` if memory runs out.
fn copied(alloc: Global, heads: &[Head]) -> Option<Vec<Head>>
    ensures { IfSome result (λ copy. copy.items ≡ heads.now) }
{
    let mut copy = Vec::new(alloc);
    match copy.extend_from_slice(heads) {
        Ok(()) => Some(copy),
        Err(_) => None,
    }
}

impl Kept {
    /// A copy of a maildrop's heads; `None` if they are more than 10,000, or if memory runs out.
    fn of(alloc: Global, maildrop: &Name, heads: &[Head]) -> Option<Kept>
        ensures copy { IfSome result (λ kept. kept ≡ kept_heads maildrop.now heads.now) }
        ensures few { IfSome result (λ kept. length kept.heads ≤ most_messages) }
    {
        if heads.len() > MOST_HEADS {
            return None;
        }
        let heads = copied(alloc, heads)?;
        Some(Kept {
            maildrop: *maildrop,
            heads,
        })
    }

    /// Whether these are the heads of this maildrop.
    fn is_of(&self, maildrop: &Name) -> bool
        ensures { result ≡ bytes_eq self.now.maildrop maildrop.now }
    {
        self.maildrop == *maildrop
    }

    /// How many heads these are.
    fn len(&self) -> usize
        ensures { result ≡ length self.now.heads }
    {
        self.heads.len()
    }

    /// A copy of the heads; `None` if memory runs out.
    fn copy(&self, alloc: Global) -> Option<Vec<Head>>
        ensures { IfSome result (λ copy. copy.items ≡ self.now.heads) }
    {
        copied(alloc, self.heads.as_slice())
    }
}

/// What is kept of a maildrop.
fn found<'a>(kept: &'a [Kept], maildrop: &Name) -> Option<&'a Kept>
    ensures { option_copied result
        ≡ find (λ (k : KeptHeads). bytes_eq k.maildrop maildrop.now) kept.now }
{
    kept.iter().find(|one| one.is_of(maildrop))
}

/// A copy of what is kept of a maildrop, if there is memory for it.
fn recalled(alloc: Global, kept: &[Kept], maildrop: &Name) -> Option<Vec<Head>>
    ensures { IfSome result (λ heads. (c : Contents) → Fits kept.now c
        → heads_result maildrop.now c ≡ Ok heads.items) }
{
    match found(kept, maildrop) {
        Some(one) => one.copy(alloc),
        None => None,
    }
}

/// The place of what is kept of a maildrop.
fn place_of(kept: &[Kept], maildrop: &Name) -> Option<usize>
    ensures { IfSome result (λ place. place < length kept.now) }
{
    kept.iter().position(|one| one.is_of(maildrop))
}

/// Puts one more in front; if memory runs out, it isn't kept.
fn put_first(kept: &mut Vec<Kept>, one: Kept)
    ensures fits { (c : Contents) → heads_result one.maildrop c ≡ Ok one.heads
        → Fits kept.old.items c → Fits kept.new.items c }
    ensures few { count kept.new.items ≤ count kept.old.items + length one.heads }
{
    let _ = kept.insert(0, one);
}

/// Brings what is kept of a maildrop to the front.
fn bring_first(kept: &mut Vec<Kept>, maildrop: &Name)
    ensures fits { (c : Contents) → Fits kept.old.items c → Fits kept.new.items c }
    ensures few { count kept.new.items ≤ count kept.old.items }
{
    if let Some(place) = place_of(kept.as_slice(), maildrop) {
        let one = kept.remove(place);
        put_first(kept, one);
    }
}

/// Forgets what is kept of a maildrop.
fn forget_one(kept: &mut Vec<Kept>, maildrop: &Name)
    ensures rows { kept.new.items ≡ without maildrop.now kept.old.items }
    ensures few { count kept.new.items ≤ count kept.old.items }
{
    kept.retain(|one| !one.is_of(maildrop));
}

/// How many, from the front on, have at most `most` heads in all.
fn fitting(kept: &[Kept], most: usize) -> usize
    ensures { count (take result kept.now) ≤ most }
{
    let mut left = most;
    let mut fitting: usize = 0;
    for one in kept {
        if one.len() > left {
            return fitting;
        }
        left -= one.len();
        fitting += 1;
    }
    fitting
}

/// Forgets the last ones, until at most `most` heads are left.
fn shorten(kept: &mut Vec<Kept>, most: usize)
    ensures fits { (c : Contents) → Fits kept.old.items c → Fits kept.new.items c }
    ensures few { count kept.new.items ≤ most }
{
    let fitting = fitting(kept.as_slice(), most);
    kept.truncate(fitting);
}

/// Keeps a copy of a maildrop's heads in front, in place of what was kept of it, and forgets as
/// many of the last ones as need be. If memory runs out, or if the heads are more than 10,000,
/// nothing is kept of the maildrop.
fn keep_first(alloc: Global, kept: &mut Vec<Kept>, maildrop: &Name, heads: &[Head])
    ensures fits { (c : Contents) → heads_result maildrop.now c ≡ Ok heads.now
        → Fits kept.old.items c → Fits kept.new.items c }
    ensures few { count kept.old.items ≤ most_messages → count kept.new.items ≤ most_messages }
{
    forget_one(kept, maildrop);
    if let Some(one) = Kept::of(alloc, maildrop, heads) {
        shorten(kept, MOST_HEADS.saturating_sub(one.len()));
        put_first(kept, one);
    }
}

/// The heads that are kept, 10,000 at most in all: first those of the maildrop that was asked for
/// last.
#[derive(Drop)]
pub(crate) struct AllKept {
    of: Vec<Kept>,
}

impl Model for AllKept {
    ghost use Rattle.std.specs.Prelude.{◌≤◌, List};
    ghost use Rattle.vault.specs.Records.{most_messages};
    ghost use Rattle.recent.specs.Recalling.{count, KeptHeads};

    ghost Value = { List KeptHeads };

    ghost view = { λ k. k.of.items };

    ghost invariant = { λ k. count k.of.items ≤ most_messages };
}

impl AllKept {
    /// No heads. It takes no memory.
    pub(crate) fn new(alloc: Global) -> AllKept
        ensures { result ≡ [] }
    {
        AllKept {
            of: Vec::new(alloc),
        }
    }

    /// Forgets all heads.
    pub(crate) fn clear(&mut self)
        ensures { self.new ≡ [] }
    {
        self.of.clear();
    }

    /// Forgets those of a maildrop.
    pub(crate) fn forget(&mut self, maildrop: &Name)
        ensures { self.new ≡ without maildrop.now self.old }
    {
        forget_one(&mut self.of, maildrop);
    }

    /// Keeps a copy of a maildrop's heads, and forgets those of the maildrops that were asked for
    /// longest ago, so that no more than 10,000 are kept in all. If memory runs out, or if the
    /// heads are more than 10,000, none are kept of the maildrop.
    pub(crate) fn keep(&mut self, alloc: Global, maildrop: &Name, heads: &[Head])
        ensures { (c : Contents) → heads_result maildrop.now c ≡ Ok heads.now → Fits self.old c
            → Fits self.new c }
    {
        keep_first(alloc, &mut self.of, maildrop, heads);
    }

    /// A copy of what is kept of a maildrop, if there is memory for it. It is then the maildrop
    /// that was asked for last.
    pub(crate) fn recall(&mut self, alloc: Global, maildrop: &Name) -> Option<Vec<Head>>
        ensures heads { IfSome result (λ heads. (c : Contents) → Fits self.old c
            → heads_result maildrop.now c ≡ Ok heads.items) }
        ensures fits { (c : Contents) → Fits self.old c → Fits self.new c }
    {
        let heads = recalled(alloc, self.of.as_slice(), maildrop);
        bring_first(&mut self.of, maildrop);
        heads
    }
}

/// Hands on the answer of a call that may change any record, and forgets what is kept.
pub(crate) fn after_change<T>(
    kept: &mut AllKept,
    totals: &mut Option<Totals>,
    answer: Result<T, VaultFault>,
) -> Result<T, VaultFault>
    ensures answer { result ≡ answer }
    ensures kept { kept.new ≡ [] }
    ensures totals { totals.new ≡ None }
{
    kept.clear();
    *totals = None;
    answer
}

/// Whether a deposit with this fault was refused because of what the vault holds, and not because
/// the device failed or memory ran out.
fn is_of_deposit(fault: VaultFault) -> bool
    ensures { result ≡ is_of_deposit fault }
{
    match fault {
        VaultFault::NoMaildrop | VaultFault::Conflict | VaultFault::Full => true,
        _ => false,
    }
}

/// Hands on the answer of a call that changes messages of this maildrop alone. Forgets its heads,
/// and marks its total as stale. If the answer is such a fault of a deposit, all is kept; if it is
/// another fault, forgets what is kept of all maildrops.
pub(crate) fn after_mail<T>(
    kept: &mut AllKept,
    totals: &mut Option<Totals>,
    maildrop: &Name,
    answer: Result<T, VaultFault>,
) -> Result<T, VaultFault>
    ensures answer { result ≡ answer }
    ensures kept { kept.new ≡ heads_after maildrop.now answer kept.old }
    ensures totals { totals.new ≡ totals_after maildrop.now answer totals.old }
{
    match answer {
        Ok(value) => {
            kept.forget(maildrop);
            mark_kept(totals, maildrop);
            Ok(value)
        }
        Err(fault) => {
            if is_of_deposit(fault) {
                return Err(fault);
            }
            after_change(kept, totals, Err(fault))
        }
    }
}

/// Hands on the answer of a call that drops this maildrop. Forgets its heads, and all totals; if
/// the answer is a fault, forgets what is kept of all maildrops.
pub(crate) fn after_drop<T>(
    kept: &mut AllKept,
    totals: &mut Option<Totals>,
    maildrop: &Name,
    answer: Result<T, VaultFault>,
) -> Result<T, VaultFault>
    ensures answer { result ≡ answer }
    ensures kept { kept.new ≡ (if is_ok answer then without maildrop.now kept.old else []) }
    ensures totals { totals.new ≡ None }
{
    *totals = None;
    match answer {
        Ok(value) => after_mail(kept, totals, maildrop, Ok(value)),
        Err(fault) => after_change(kept, totals, Err(fault)),
    }
}

/// Hands on the answer of a call that only looks, and forgets what is kept if it is a fault.
pub(crate) fn after_look<T>(
    kept: &mut AllKept,
    totals: &mut Option<Totals>,
    answer: Result<T, VaultFault>,
) -> Result<T, VaultFault>
    ensures answer { result ≡ answer }
    ensures kept { kept.new ≡ (if is_ok answer then kept.old else []) }
    ensures totals { totals.new ≡ (if is_ok answer then totals.old else None) }
{
    match answer {
        Ok(value) => Ok(value),
        Err(fault) => after_change(kept, totals, Err(fault)),
    }
}
