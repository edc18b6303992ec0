//! What a connection is owed: octets that stand ready, and what feeds them (RFC 1939, 3: replies of
//! many lines).
ghost use Rattle.std.specs.Prelude.{◌≡◌, ◌≤◌, ◌<◌, ◌++◌, ◌⊎◌, ℕ, List, [], Some, true};
ghost use Rattle.std.specs.Prelude.{false, IfOk, IsOkAnd, IsTrue, OnOk, drop, length, codes};
ghost use Rattle.std.specs.Fmt.{decimal};
ghost use Rattle.popline.specs.Replies.{bytes_of, one_line, scan_text, uid_row_text, scan_begun};
ghost use Rattle.popline.specs.Replies.{uids_begun};
ghost use Rattle.popline.specs.Seen.{reply_seen};
ghost use Rattle.vault.specs.Changes.{Contents};
ghost use Rattle.vault.specs.Calls.{has_grown};
ghost use Rattle.session.specs.Session.{Session as State};
ghost use Rattle.session.specs.Session.{octets_of, uid_of};
ghost use Rattle.session.specs.View.{unmarked, sizes_of, uids_of};
ghost use Rattle.office.specs.Replying.{is_empty};
ghost use Rattle.office.specs.Output.{nothing_owed, is_feeding, reads_text, most_output, last_line};
ghost use Rattle.office.specs.Output.{lent_of, IsFilled, Owes, Reads, IsListed, sizes_coming};
ghost use Rattle.office.specs.Output.{uids_coming};
ghost use Rattle.office.specs.Trace.{most_lent};
ghost use Rattle.vault.specs.Parts.{OnlyLooks};

use crate::reading::{MOST_LENT, PutPage, Reading};
use creds::Uid;
use popline::{
    Reply, begin_message, begin_scan_listing, begin_top, begin_uid_listing, end_lines,
    put_scan_row, put_uid_row,
};
use session::{Session, Sizes, Uids};
use std::alloc::{AllocError, Global};
use std::marker::Model;
use std::mem;
use vault::Vault;

/// Lines of a listing are put until at least so many octets stand ready.
const LISTED: usize = 20_480;
/// The octets for which room is made at the opening: the most that is lent, a page of a message
/// with each dot doubled, and a line. An output never outgrows it.
const ROOM: usize = 49_408;

/// What feeds an output.
#[derive(Drop)]
pub enum Source {
    Nothing,
    /// A scan listing, of which so many lines were put.
    Sizes(usize),
    /// A listing of unique-ids, of which so many lines were put.
    Uids(usize),
    /// A message, or its top.
    Text(Reading),
}

/// Octets that stand ready, and what feeds them. While more is to come, at least 16,384 octets are
/// ready. At most 49,408 octets are kept, those that were taken included.
#[derive(Drop)]
pub struct Output {
    /// Octets to send, of which the first `taken` were taken.
    ready: Vec<u8>,
    taken: usize,
    source: Source,
}

impl Model for Output {
    ghost use Rattle.std.specs.Prelude.{◌≡◌, true, drop, length, ◌≤◌};
    ghost use Rattle.office.specs.Output.{Output, is_feeding, most_output};
    ghost use Rattle.office.specs.Trace.{most_lent};

    ghost Value = { Output };

    ghost view = { λ o. record { ready = drop o.taken o.ready.items; source = o.source } };

    ghost invariant = { λ o. (o.taken ≤ length o.ready.items)
        × (is_feeding o.source ≡ true → most_lent ≤ length (drop o.taken o.ready.items))
        × (length o.ready.items ≤ most_output) };
}

/// Takes back what was put after the first octets if it outgrows the room, and reports want of
/// memory. No reply and no line is so long.
fn keep_within_room(octets: &mut Vec<u8>, first: usize) -> Result<(), AllocError>
    requires { (first ≤ length octets.old.items) × (first ≤ most_output) }
    ensures ok { OnOk result (octets.new.items ≡ octets.old.items) }
    ensures least { first ≤ length octets.new.items }
    ensures most { length octets.new.items ≤ most_output }
{
    if octets.len() > ROOM {
        octets.truncate(first);
        return Err(AllocError);
    }
    Ok(())
}

/// Removes octets from the front.
fn remove_front(octets: &mut Vec<u8>, n: usize)
    requires { n ≤ length octets.old.items }
    ensures is { octets.new.items ≡ drop n octets.old.items }
    ensures most { length octets.new.items ≤ length octets.old.items }
{
    let left = octets.len() - n;
    octets.copy_within(n.., 0);
    octets.truncate(left);
}

/// A scan listing without its first rows.
fn sizes_behind(session: &Session, done: usize) -> Sizes<'_>
    ensures { result ≡ drop done (sizes_of octets_of
        (unmarked session.now.marks session.now.view)) }
{
    let mut rows = session.list();
    for _ in 0..done {
        let _ = rows.next();
    }
    rows
}

/// A listing of unique-ids without its first rows.
fn uids_behind(session: &Session, done: usize) -> Uids<'_>
    ensures { result ≡ drop done (uids_of uid_of (unmarked session.now.marks session.now.view)) }
{
    let mut rows = session.uidl();
    for _ in 0..done {
        let _ = rows.next();
    }
    rows
}

/// Puts the line of one message and its octets, if it fits into the room.
fn put_size(alloc: Global, ready: &mut Vec<u8>, number: u64, octets: u64) -> Result<(), AllocError>
    requires { length ready.old.items ≤ most_output }
    ensures ok { OnOk result (ready.new.items ≡ ready.old.items
        ++ one_line (scan_text (number, octets))) }
    ensures most { length ready.new.items ≤ most_output }
{
    let before = ready.len();
    put_scan_row(alloc, ready, number, octets)?;
    keep_within_room(ready, before)
}

/// The same of its unique-id.
fn put_uid(alloc: Global, ready: &mut Vec<u8>, number: u64, uid: Uid) -> Result<(), AllocError>
    requires { length ready.old.items ≤ most_output }
    ensures ok { OnOk result (ready.new.items ≡ ready.old.items
        ++ one_line (uid_row_text (number, uid))) }
    ensures most { length ready.new.items ≤ most_output }
{
    let before = ready.len();
    put_uid_row(alloc, ready, number, uid)?;
    keep_within_room(ready, before)
}

/// Puts the dot after a listing, if it fits into the room.
fn end_listing(ready: &mut Vec<u8>) -> Result<(), AllocError>
    requires { length ready.old.items ≤ most_output }
    ensures ok { OnOk result (ready.new.items ≡ ready.old.items ++ last_line) }
    ensures most { length ready.new.items ≤ most_output }
{
    let before = ready.len();
    end_lines(ready)?;
    keep_within_room(ready, before)
}

/// Puts rows of a scan listing, from row `passed` on, while there is room, and returns what
/// is then still to come. More rows than can be counted are want of memory.
fn put_sizes(
    alloc: Global,
    session: &Session,
    passed: usize,
    ready: &mut Vec<u8>,
) -> Result<Source, AllocError>
    requires { length ready.old.items ≤ most_output }
    ensures put { IfOk result (λ source. IsListed session.now source ready.old.items ready.new.items
        (sizes_coming passed session.now)) }
    ensures full { IfOk result (λ source. is_feeding source ≡ true
        → most_lent ≤ length ready.new.items) }
    ensures most { length ready.new.items ≤ most_output }
{
    let mut rows = sizes_behind(session, passed);
    let mut done = passed;
    while ready.len() < LISTED {
        let Some((number, octets)) = rows.next() else {
            end_listing(ready)?;
            return Ok(Source::Nothing);
        };
        put_size(alloc, ready, number, octets)?;
        let Some(next) = done.checked_add(1) else {
            return Err(AllocError);
        };
        done = next;
    }
    Ok(Source::Sizes(done))
}

/// The same of unique-ids.
fn put_uids(
    alloc: Global,
    session: &Session,
    passed: usize,
    ready: &mut Vec<u8>,
) -> Result<Source, AllocError>
    requires { length ready.old.items ≤ most_output }
    ensures put { IfOk result (λ source. IsListed session.now source ready.old.items ready.new.items
        (uids_coming passed session.now)) }
    ensures full { IfOk result (λ source. is_feeding source ≡ true
        → most_lent ≤ length ready.new.items) }
    ensures most { length ready.new.items ≤ most_output }
{
    let mut rows = uids_behind(session, passed);
    let mut done = passed;
    while ready.len() < LISTED {
        let Some((number, uid)) = rows.next() else {
            end_listing(ready)?;
            return Ok(Source::Nothing);
        };
        put_uid(alloc, ready, number, uid)?;
        let Some(next) = done.checked_add(1) else {
            return Err(AllocError);
        };
        done = next;
    }
    Ok(Source::Uids(done))
}

impl Output {
    /// An output that owes nothing, with its room of 49,408 octets.
    pub fn new(alloc: Global) -> Result<Output, AllocError>
        ensures { IfOk result (λ o. o ≡ nothing_owed) }
    {
        Ok(Output {
            ready: Vec::with_capacity(alloc, ROOM)?,
            taken: 0,
            source: Source::Nothing,
        })
    }

    /// The octets that may be taken now: all that stand ready, but at most 16,384.
    pub fn lent(&self) -> &[u8]
        ensures { result.now ≡ lent_of self.now }
    {
        let ready = &self.ready[self.taken..];
        &ready[..ready.len().min(MOST_LENT)]
    }

    /// Whether nothing is owed.
    pub fn is_empty(&self) -> bool
        ensures value { result ≡ is_empty self.now.ready }
        ensures nothing { result ≡ true → self.now ≡ nothing_owed }
    {
        self.ready.len() == self.taken
    }

    /// Forgets all that is owed.
    pub fn clear(&mut self)
        ensures { self.new ≡ nothing_owed }
    {
        self.source = Source::Nothing;
        self.ready.clear();
        self.taken = 0;
    }

    /// Makes room for so many octets more.
    pub fn reserve(&mut self, octets: usize) -> Result<(), AllocError>
        ensures { self.new ≡ self.old }
    {
        self.ready.reserve(octets)
    }

    /// Puts a reply.
    pub fn say(&mut self, alloc: Global, reply: &Reply<'_>) -> Result<(), AllocError>
        ensures { OnOk result (self.new ≡ record self.old
            { ready = self.old.ready ++ bytes_of (reply_seen reply.now) }) }
    {
        let before = self.ready.len();
        reply.put(alloc, &mut self.ready)?;
        keep_within_room(&mut self.ready, before)
    }

    /// Puts the first line of a scan listing.
    pub fn begin_sizes(&mut self) -> Result<(), AllocError>
        ensures { OnOk result (self.new ≡ record self.old
            { ready = self.old.ready ++ scan_begun [] }) }
    {
        let before = self.ready.len();
        begin_scan_listing(&mut self.ready)?;
        keep_within_room(&mut self.ready, before)
    }

    /// Puts the first line of a listing of unique-ids.
    pub fn begin_uids(&mut self) -> Result<(), AllocError>
        ensures { OnOk result (self.new ≡ record self.old
            { ready = self.old.ready ++ uids_begun [] }) }
    {
        let before = self.ready.len();
        begin_uid_listing(&mut self.ready)?;
        keep_within_room(&mut self.ready, before)
    }

    /// Puts the first line of a message of so many octets.
    pub fn begin_message(&mut self, alloc: Global, octets: u64) -> Result<(), AllocError>
        ensures { OnOk result (self.new ≡ record self.old { ready = self.old.ready ++ one_line (codes "+OK " ++ decimal octets ++ codes " octets") }) }
    {
        let before = self.ready.len();
        begin_message(alloc, &mut self.ready, octets)?;
        keep_within_room(&mut self.ready, before)
    }

    /// Puts the first line of a message's top.
    pub fn begin_top(&mut self) -> Result<(), AllocError>
        ensures { OnOk result (self.new ≡ record self.old { ready = self.old.ready ++ one_line (codes "+OK top follows") }) }
    {
        let before = self.ready.len();
        begin_top(&mut self.ready)?;
        keep_within_room(&mut self.ready, before)
    }

    /// Takes octets that stand ready. If few are left, returns what feeds the output: the caller
    /// puts more of it.
    pub fn take(&mut self, octets: usize) -> Source
        requires { octets ≤ length self.old.ready }
        ensures ready { self.new.ready ≡ drop octets self.old.ready }
        ensures filled { IsFilled self.new }
        ensures source { ((result ≡ Source.Nothing) × (self.new.source ≡ self.old.source))
            ⊎ ((result ≡ self.old.source) × (self.new.source ≡ Source.Nothing)) }
    {
        let source = mem::replace(&mut self.source, Source::Nothing);
        self.taken += octets;
        if self.ready.len() - self.taken < MOST_LENT {
            return source;
        }
        self.source = source;
        Source::Nothing
    }

    /// Puts lines of a scan listing, from row `done` on.
    pub fn send_sizes(
        &mut self,
        alloc: Global,
        session: &Session,
        done: usize,
    ) -> Result<(), AllocError>
        requires { self.old.source ≡ Source.Nothing }
        ensures owes { OnOk result ((c : Contents)
            → Owes c (Some session.now) self.new (self.old.ready
            ++ sizes_coming done session.now)) }
        ensures kind { OnOk result (reads_text self.new.source ≡ false) }
    {
        remove_front(&mut self.ready, self.taken);
        self.taken = 0;
        self.source = put_sizes(alloc, session, done, &mut self.ready)?;
        Ok(())
    }

    /// Puts lines of a listing of unique-ids, from row `done` on.
    pub fn send_uids(
        &mut self,
        alloc: Global,
        session: &Session,
        done: usize,
    ) -> Result<(), AllocError>
        requires { self.old.source ≡ Source.Nothing }
        ensures owes { OnOk result ((c : Contents)
            → Owes c (Some session.now) self.new (self.old.ready ++ uids_coming done session.now)) }
        ensures kind { OnOk result (reads_text self.new.source ≡ false) }
    {
        remove_front(&mut self.ready, self.taken);
        self.taken = 0;
        self.source = put_uids(alloc, session, done, &mut self.ready)?;
        Ok(())
    }

    /// Puts pages of a message, until 16,384 octets stand ready. `false` if the store refused a
    /// page.
    pub fn send_text<V: Vault>(&mut self, vault: &mut V, text: Reading) -> Result<bool, AllocError>
        requires { self.old.source ≡ Source.Nothing }
        ensures owes { IfOk result (λ sent. sent ≡ true
            → (c : Contents) (s : State) (coming : List ℕ) → V.holds vault.old c
            → V.is_clean vault.new → Reads c s text coming
            → Owes c (Some s) self.new (self.old.ready ++ coming)) }
        ensures cause { IfOk result (λ sent. sent ≡ false
            → (c : Contents) (s : State) (coming : List ℕ) → V.holds vault.old c
            → V.is_clean vault.new → Reads c s text coming
            → has_grown (V.faults vault.old) (V.faults vault.new) ≡ true) }
        ensures looks { OnlyLooks V.Vault vault.old vault.new (IsOkAnd result IsTrue) }
    {
        remove_front(&mut self.ready, self.taken);
        self.taken = 0;
        let mut text = text;
        match text.fill(vault, &mut self.ready)? {
            PutPage::More => {
                self.source = Source::Text(text);
                Ok(true)
            }
            PutPage::Last => Ok(true),
            PutPage::Refused => Ok(false),
        }
    }
}
