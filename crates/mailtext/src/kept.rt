//! A message in its kept form: its lines, each followed by CRLF, and what POP3 asks of it.

ghost use Rattle.std.specs.Prelude.{◌≡◌, ◌<◌, ◌↔◌, ◌+◌, ◌++◌, [], true, length, take};
ghost use Rattle.std.specs.Prelude.{IfOk, OnOk, OnErr};
ghost use Rattle.mailtext.specs.Text.{kept_form, lines_of, ended, top_part, header_len};
ghost use Rattle.mailtext.specs.MailText.{IsMailText, most_octets};
ghost use Rattle.mailtext.specs.declared.kept.TextFault.TheVariants.{NoMemory};

use crate::lines::{Dots, are_ended_lines, write_lines, written_len};
use crate::parts::{header_end, line_ends, top_end};
use std::alloc::{AllocError, Global};
use std::error::Error;
use std::fmt;
use std::marker::Model;

/// The octets that a message in its kept form may have at most.
pub const MAX_OCTETS: usize = 26_214_400;

/// Why a text can't be kept.
#[derive(Clone, Copy, Debug, PartialEq, Eq)]
pub enum TextFault {
    /// It has no octet.
    Empty,
    /// Its kept form has more than [`MAX_OCTETS`] octets.
    TooLarge,
    /// Memory for its kept form was refused.
    NoMemory,
}

impl fmt::Display for TextFault {
    ghost use Rattle.std.specs.Prelude.{Some};
    ghost use Rattle.mailtext.specs.Fault.{fault_text};

    ghost output = { λ fault. Some (fault_text fault) };

    fn fmt<W: fmt::Write>(&self, f: &mut fmt::Formatter<W>) -> fmt::Result {
        match self {
            TextFault::Empty => f.write_str("empty text"),
            TextFault::TooLarge => f.write_str("too large"),
            TextFault::NoMemory => f.write_str("out of memory"),
        }
    }
}

impl Error for TextFault {}

impl From<AllocError> for TextFault {
    ghost from_gives = { λ _ fault. fault ≡ NoMemory };

    fn from(_error: AllocError) -> TextFault {
        TextFault::NoMemory
    }
}

/// A message in its kept form: at least one line, each followed by CRLF, and at most [`MAX_OCTETS`]
/// octets. Contracts see its octets. It has no `Debug`, so that no mail is shown by accident.
#[derive(Drop)]
pub struct MailText {
    octets: Vec<u8>,
}

impl Model for MailText {
    ghost use Rattle.std.specs.Prelude.{List, ℕ};
    ghost use Rattle.mailtext.specs.MailText.{IsMailText, most_octets};

    ghost Value = { List ℕ };

    ghost view = { λ text. text.octets.items };

    ghost invariant = { λ text. IsMailText text.octets.items };
}

impl Clone for MailText {
    ghost is_clone = { λ text copy. copy ≡ text };

    fn clone(&self) -> Result<MailText, AllocError> {
        let alloc = *self.octets.allocator();
        let octets = Vec::from_slice(alloc, &self.octets)?;
        Ok(MailText { octets })
    }
}

/// The kept form of a text: LF ends a line, one CR directly before it belongs to the line's end,
/// and a last line needs no end. All other octets stay.
///
/// Answers [`TextFault::Empty`] for a text without an octet, else [`TextFault::TooLarge`] for one
/// whose kept form has more than [`MAX_OCTETS`] octets, else [`TextFault::NoMemory`] if memory
/// for the kept form was refused.
pub fn canon(alloc: Global, text: &[u8]) -> Result<MailText, TextFault>
    ensures ok { IfOk result (λ kept. kept ≡ kept_form text.now) }
    ensures lines { IfOk result (λ kept. lines_of kept ≡ lines_of text.now) }
    ensures empty { (result ≡ Err TextFault.Empty) ↔ (text.now ≡ []) }
    ensures too_large { (result ≡ Err TextFault.TooLarge) ↔
        (most_octets < length (kept_form text.now)) }
{
    if text.is_empty() {
        return Err(TextFault::Empty);
    }
    let octets = match written_len(text, Dots::Kept) {
        Some(octets) if octets <= MAX_OCTETS => octets,
        _ => return Err(TextFault::TooLarge),
    };
    let mut kept = Vec::with_capacity(alloc, octets)?;
    write_lines(&mut kept, text, Dots::Kept);
    Ok(MailText { octets: kept })
}

/// Whether the octets are a message in its kept form. It takes no memory.
pub fn is_kept(octets: &[u8]) -> bool
    ensures { (result ≡ true) ↔ IsMailText octets.now }
{
    if octets.is_empty() {
        return false;
    }
    if octets.len() > MAX_OCTETS {
        return false;
    }
    are_ended_lines(octets)
}

impl MailText {
    /// The octets.
    pub fn bytes(&self) -> &[u8]
        ensures value { result.now ≡ self.now }
        ensures kept { IsMailText self.now }
    {
        self.octets.as_slice()
    }

    /// How many octets it has, which is its size in POP3 (RFC 1939, section 11).
    pub fn octets(&self) -> usize
        ensures value { result ≡ length self.now }
        ensures kept { IsMailText self.now }
    {
        self.octets.len()
    }

    /// Adds the lines of another text after its own.
    ///
    /// Answers [`TextFault::TooLarge`] if both together have more than [`MAX_OCTETS`] octets, else
    /// [`TextFault::NoMemory`] if memory was refused. After an error it is as it was.
    pub fn append(&mut self, more: &MailText) -> Result<(), TextFault>
        ensures ok { OnOk result (self.new ≡ self.old ++ more.now) }
        ensures err { OnErr result (self.new ≡ self.old) }
        ensures too_large { (result ≡ Err TextFault.TooLarge) ↔
            (most_octets < length self.old + length more.now) }
    {
        if self.octets() + more.octets() > MAX_OCTETS {
            return Err(TextFault::TooLarge);
        }
        self.octets.extend_from_slice(&more.octets)?;
        Ok(())
    }

    /// How many lines it has.
    pub fn lines(&self) -> usize
        ensures { result ≡ length (lines_of self.now) }
    {
        line_ends(&self.octets)
    }

    /// How many octets it has through its first empty line, or all if no line is empty (RFC 822,
    /// section 3.1). Only tests call it.
    pub fn header_len(&self) -> usize
        ensures { result ≡ header_len (lines_of self.now) }
    {
        header_end(&self.octets)
    }

    /// What TOP sends of it: its lines through the first empty one and then the first `n`, or all
    /// if none is empty (RFC 1939, section 7). It is a beginning of the octets.
    pub fn top(&self, n: u64) -> &[u8]
        ensures part { result.now ≡ ended (top_part (lines_of self.now) n) }
        ensures lines { lines_of result.now ≡ top_part (lines_of self.now) n }
        ensures beginning { result.now ≡ take (length result.now) self.now }
    {
        &self.octets[..top_end(&self.octets, n)]
    }
}
