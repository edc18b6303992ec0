//! Links in memory, of one port of a wire.
ghost use Rattle.std.specs.Prelude.{◌≡◌, ℕ, List, ◌<◌, ◌≤◌, ◌++◌, ◌||◌, true, false, [], length};
ghost use Rattle.std.specs.Prelude.{MatchOption};
ghost use Rattle.serving.specs.Wires.{Told, IsWithin, counted, has_accepted, has_read, has_written};
ghost use Rattle.serving.specs.Wires.{has_closed, is_fault};
ghost use Rattle.serving.specs.Scripts.{TellsOf, taken_of};

use crate::octets::rest_of;
use crate::wire::{Io, Link};
use std::alloc::{AllocError, Global};

/// A link that was accepted: what comes on it, how much of that was read, and what was written on
/// it.
#[derive(Drop)]
pub struct ScriptLink {
    comes: Vec<u8>,
    at: usize,
    written: Vec<u8>,
    is_closed: bool,
    /// A read or a write gave its end or that it is broken, or it was closed.
    is_over: bool,
    /// Its client takes what is written.
    takes: bool,
}

/// A fault that comes in place of a read or a write.
#[derive(Clone, Copy, PartialEq, Eq, Debug)]
pub enum Stop {
    End,
    Broken,
}

/// The links of one port.
#[derive(Drop)]
pub(crate) struct ScriptLinks {
    pub(crate) accepted: Vec<ScriptLink>,
    /// A read or a write came on a link that was over, or was never accepted.
    pub(crate) strayed: bool,
    /// What comes on the links that wait to be accepted, the next one last.
    waiting: Vec<Vec<u8>>,
}

impl ScriptLinks {
    /// No link was accepted. Those that wait come the last one first.
    pub(crate) fn new(alloc: Global, waiting: Vec<Vec<u8>>) -> ScriptLinks
        ensures accepted { result.accepted.items ≡ [] }
        ensures strayed { result.strayed ≡ false }
    {
        ScriptLinks {
            accepted: Vec::new(alloc),
            strayed: false,
            waiting,
        }
    }

    /// A further link comes.
    pub(crate) fn connect(&mut self, comes: Vec<u8>) -> Result<(), AllocError> {
        Ok(self.waiting.push(comes)?)
    }

    /// Further octets come on a link.
    pub(crate) fn send(&mut self, place: usize, octets: &[u8]) -> Result<(), AllocError> {
        match self.accepted.get_mut(place) {
            Some(link) => link.comes.extend_from_slice(octets),
            None => Ok(()),
        }
    }

    /// A link's client takes nothing any more.
    pub(crate) fn stall(&mut self, place: usize) {
        if let Some(link) = self.accepted.get_mut(place) {
            link.takes = false;
        }
    }

    /// What was written on a link.
    pub(crate) fn written(&self, place: usize) -> &[u8] {
        match self.accepted.get(place) {
            Some(link) => link.written.as_slice(),
            None => &[],
        }
    }

    /// Whether a link was closed.
    pub(crate) fn is_closed(&self, place: usize) -> bool {
        match self.accepted.get(place) {
            Some(link) => link.is_closed,
            None => false,
        }
    }

    /// The next link that came.
    pub(crate) fn accept(&mut self, alloc: Global) -> Option<Link>
        ensures { (t : Told) → TellsOf self.old.accepted.items self.old.strayed t
            → MatchOption result (TellsOf self.new.accepted.items self.new.strayed t)
            (λ link. (link.number ≡ t.accepted) × TellsOf self.new.accepted.items self.new.strayed
            (has_accepted t)) }
    {
        let number = u64::try_from(self.accepted.len()).ok()?;
        if self.accepted.reserve(1).is_err() {
            return None;
        }
        let comes = self.waiting.pop()?;
        let link = ScriptLink {
            comes,
            at: 0,
            written: Vec::new(alloc),
            is_closed: false,
            is_over: false,
            takes: true,
        };
        let _ = self.accepted.push(link);
        Some(Link { number })
    }

    /// Reads at most `piece` octets from a link, unless a fault comes in place of that.
    pub(crate) fn read(
        &mut self,
        link: Link,
        stop: Option<Stop>,
        piece: usize,
        ends: bool,
        buffer: &mut [u8],
    ) -> Io
        ensures within { IsWithin (length buffer.old) result }
        ensures told { (t : Told) → TellsOf self.old.accepted.items self.old.strayed t
            → TellsOf self.new.accepted.items self.new.strayed
            (has_read t link.number result (counted result buffer.new)) }
    {
        let Some(place) = place_of(self.accepted.as_slice(), link) else {
            self.strayed = true;
            return Io::Broken;
        };
        self.strayed |= self.accepted[place].is_over;
        read_at(&mut self.accepted[place], stop, piece, ends, buffer)
    }

    /// Shows what a read of a link would give, without its end and without faults.
    pub(crate) fn look(&self, link: Link, piece: usize, buffer: &mut [u8]) -> Io
        ensures { IsWithin (length buffer.old) result }
    {
        match place_of(self.accepted.as_slice(), link) {
            Some(place) => look_at(&self.accepted[place], piece, buffer),
            None => Io::Later,
        }
    }

    /// Writes at most `piece` octets on a link, unless a fault comes in place of that.
    pub(crate) fn write(
        &mut self,
        link: Link,
        stop: Option<Stop>,
        piece: usize,
        octets: &[u8],
    ) -> Io
        ensures within { IsWithin (length octets.now) result }
        ensures told { (t : Told) → TellsOf self.old.accepted.items self.old.strayed t
            → TellsOf self.new.accepted.items self.new.strayed
            (has_written t link.number result (counted result octets.now)) }
    {
        let Some(place) = place_of(self.accepted.as_slice(), link) else {
            self.strayed = true;
            return Io::Broken;
        };
        self.strayed |= self.accepted[place].is_over;
        write_at(&mut self.accepted[place], stop, piece, octets)
    }

    /// Closes a link.
    pub(crate) fn close(&mut self, link: Link)
        ensures { (t : Told) → TellsOf self.old.accepted.items self.old.strayed t
            → TellsOf self.new.accepted.items self.new.strayed (has_closed t link.number) }
    {
        if let Some(place) = place_of(self.accepted.as_slice(), link) {
            shut(&mut self.accepted[place]);
        }
    }
}

/// A fault, as a read or a write gives it.
fn stopped(stop: Stop) -> Io
    ensures fault { is_fault result ≡ true }
    ensures within { (n : ℕ) → IsWithin n result }
    ensures counted { (octets : List ℕ) → counted result octets ≡ [] }
{
    match stop {
        Stop::End => Io::End,
        Stop::Broken => Io::Broken,
    }
}

/// Reads what comes next on a link, into the front of a buffer.
fn read_from(link: &mut ScriptLink, piece: usize, ends: bool, buffer: &mut [u8]) -> Io
    ensures within { IsWithin (length buffer.old) result }
    ensures read { taken_of link.new ≡ taken_of link.old ++ counted result buffer.new }
    ensures written { link.new.written ≡ link.old.written }
    ensures over { link.new.is_over ≡ link.old.is_over }
{
    if link.is_closed {
        return Io::Broken;
    }
    let rest = rest_of(link.comes.as_slice(), link.at);
    let count = rest.len().min(piece).min(buffer.len());
    if count == 0 {
        return if ends { Io::End } else { Io::Later };
    }
    buffer[..count].copy_from_slice(&rest[..count]);
    link.at += count;
    Io::Count(count)
}

/// Shows what comes next on a link, in the front of a buffer.
fn look_at(link: &ScriptLink, piece: usize, buffer: &mut [u8]) -> Io
    ensures { IsWithin (length buffer.old) result }
{
    let rest = rest_of(link.comes.as_slice(), link.at);
    let count = rest.len().min(piece).min(buffer.len());
    if count == 0 {
        return Io::Later;
    }
    buffer[..count].copy_from_slice(&rest[..count]);
    Io::Count(count)
}

/// Writes octets on a link.
fn write_on(link: &mut ScriptLink, piece: usize, octets: &[u8]) -> Io
    ensures within { IsWithin (length octets.now) result }
    ensures written { link.new.written.items ≡ link.old.written.items ++ counted result octets.now }
    ensures read { taken_of link.new ≡ taken_of link.old }
    ensures over { link.new.is_over ≡ link.old.is_over }
{
    if link.is_closed {
        return Io::Broken;
    }
    let count = octets.len().min(piece);
    if !link.takes || count == 0 {
        return Io::Later;
    }
    match link.written.extend_from_slice(&octets[..count]) {
        Ok(()) => Io::Count(count),
        Err(_) => Io::Later,
    }
}

/// Whether this is the end of a link, or tells that it is broken.
fn faults(io: Io) -> bool
    ensures { result ≡ is_fault io }
{
    matches!(io, Io::End | Io::Broken)
}

/// Reads from a link, unless a fault comes in place of that.
fn read_at(
    link: &mut ScriptLink,
    stop: Option<Stop>,
    piece: usize,
    ends: bool,
    buffer: &mut [u8],
) -> Io
    ensures within { IsWithin (length buffer.old) result }
    ensures read { taken_of link.new ≡ taken_of link.old ++ counted result buffer.new }
    ensures written { link.new.written ≡ link.old.written }
    ensures over { link.new.is_over ≡ (link.old.is_over || is_fault result) }
{
    if let Some(stop) = stop {
        link.is_over = true;
        return stopped(stop);
    }
    let io = read_from(link, piece, ends, buffer);
    link.is_over |= faults(io);
    io
}

/// Writes on a link, unless a fault comes in place of that.
fn write_at(link: &mut ScriptLink, stop: Option<Stop>, piece: usize, octets: &[u8]) -> Io
    ensures within { IsWithin (length octets.now) result }
    ensures written { link.new.written.items ≡ link.old.written.items ++ counted result octets.now }
    ensures read { taken_of link.new ≡ taken_of link.old }
    ensures over { link.new.is_over ≡ (link.old.is_over || is_fault result) }
{
    if let Some(stop) = stop {
        link.is_over = true;
        return stopped(stop);
    }
    let io = write_on(link, piece, octets);
    link.is_over |= faults(io);
    io
}

/// Closes a link.
fn shut(link: &mut ScriptLink)
    ensures over { link.new.is_over ≡ true }
    ensures read { taken_of link.new ≡ taken_of link.old }
    ensures written { link.new.written ≡ link.old.written }
{
    link.is_over = true;
    link.is_closed = true;
}

/// Where a link is kept.
fn place_of(accepted: &[ScriptLink], link: Link) -> Option<usize>
    ensures { MatchOption result (length accepted.now ≤ link.number)
        (λ place. (place < length accepted.now) × (place ≡ link.number)) }
{
    let place = usize::try_from(link.number).ok()?;
    if place < accepted.len() {
        Some(place)
    } else {
        None
    }
}
