//! A message that is sent page by page (RFC 1939, 5: RETR; 7: TOP).
ghost use Rattle.std.specs.Prelude.{◌≡◌, ◌≤◌, ◌<◌, ◌++◌, ◌+◌, ℕ, List, [], Some, None, true, false};
ghost use Rattle.std.specs.Prelude.{length, take, drop, OnOk, IfOk, IfSome, IsOkAnd};
ghost use Rattle.std.specs.Prelude.{if◌then◌else◌};
ghost use Rattle.mailtext.specs.Text.{kept_form, lines_of, stuffed_lines, top_part};
ghost use Rattle.mailtext.specs.Streams.{stuffed_from, nothing_come};
ghost use Rattle.vault.specs.Changes.{Contents};
ghost use Rattle.vault.specs.Calls.{has_grown, text_under};
ghost use Rattle.office.specs.Output.{most_output, cut_from, text_coming, last_line};
ghost use Rattle.office.specs.PutPages.{PutsPages};
ghost use Rattle.office.specs.Trace.{most_lent};
ghost use Rattle.vault.specs.Parts.{OnlyLooks};
ghost use Rattle.office.specs.Stopping.{HasRead};

use mailtext::{Stuffer, TopCut};
use popline::end_lines;
use std::alloc::AllocError;
use vault::{MessageKey, Vault, VaultFault};

/// At most so many octets are lent at once; while more are owed, so many at least stand ready.
pub const MOST_LENT: usize = 16_384;
/// How many octets of a message are read from the store at once.
pub const PAGE_OCTETS: usize = 16_384;
/// How many octets a page has at most once its dots are doubled.
const STUFFED_OCTETS: usize = 32_768;

/// A message that is being sent: its key, how many octets it has and how many of them were read
/// (`place`), and the state in which dot-stuffing and TOP's cut stand there.
#[derive(Drop)]
pub struct Reading {
    key: MessageKey,
    octets: u64,
    place: u64,
    stuffer: Stuffer,
    /// Where TOP cuts the message off; `None` if all of it is sent.
    cut: Option<TopCut>,
}

/// What came of reading and putting a page.
#[derive(Clone, Copy)]
pub enum PutPage {
    /// It was put, and more is to come.
    More,
    /// It was put, and the dot after it.
    Last,
    /// The store refused it, or gave what no clean store gives.
    Refused,
}

impl Reading {
    /// The whole message under a key, of so many octets, before its first page.
    pub fn whole(key: MessageKey, octets: u64) -> Reading
        ensures is { result ≡ record {
          key = key;
          octets = octets;
          place = 0;
          stuffer = true;
          cut =
              None;
        } }
        ensures coming { (text : List ℕ) → kept_form text ≡ text
            → text_coming result text ≡ stuffed_lines (lines_of text) ++ last_line }
    {
        Reading {
            key,
            octets,
            place: 0,
            stuffer: Stuffer::new(),
            cut: None,
        }
    }

    /// The header of the message under a key, and so many lines of its body, before its first page.
    pub fn top(key: MessageKey, octets: u64, lines: u64) -> Reading
        ensures is { result ≡ record {
          key = key;
          octets = octets;
          place = 0;
          stuffer = true;
          cut =
              Some (nothing_come lines);
        } }
        ensures coming { (text : List ℕ) → kept_form text ≡ text
            → text_coming result text ≡ stuffed_lines (top_part (lines_of text) lines)
            ++ last_line }
    {
        Reading {
            key,
            octets,
            place: 0,
            stuffer: Stuffer::new(),
            cut: Some(TopCut::new(lines)),
        }
    }

    /// Reads the next page into the front of a buffer, and answers how many octets it has. `None`
    /// if the store refused, or gave a page that no clean store gives.
    fn read<V: Vault>(&self, vault: &mut V, page: &mut [u8]) -> Result<Option<usize>, AllocError>
        requires { 0 < length page.old }
        ensures some { IfOk result (λ read. IfSome read (λ n. (0 < n) × (n ≤ length page.new))) }
        ensures text { IfOk result (λ read. IfSome read
            (λ n. (c : Contents) → V.holds vault.old c → V.is_clean vault.new
            → take n page.new ≡ take n (drop self.now.place
            (text_under self.now.key c.messages)))) }
        ensures cause { IfOk result (λ read. read ≡ None → (c : Contents) → V.holds vault.old c
            → V.is_clean vault.new → self.now.place < length (text_under self.now.key c.messages)
            → has_grown (V.faults vault.old) (V.faults vault.new) ≡ true) }
        ensures looks { OnlyLooks V.Vault vault.old vault.new (IsOkAnd result HasRead) }
    {
        let room = page.len();
        match vault.page(self.key, self.place, page) {
            Ok(octets) if octets == 0 || octets > room => Ok(None),
            Ok(octets) => Ok(Some(octets)),
            Err(VaultFault::NoMemory) => Err(AllocError),
            Err(_) => Ok(None),
        }
    }

    /// How many octets of a page, from its front, belong to what is sent.
    fn part_of(&mut self, page: &[u8]) -> usize
        ensures within { result ≤ length page.now }
        ensures part { (more : List ℕ) → cut_from self.old.cut (page.now ++ more)
            ≡ take result page.now ++ cut_from self.new.cut (drop result page.now ++ more) }
        ensures over { result < length page.now → (more : List ℕ)
            → cut_from self.new.cut more ≡ [] }
        ensures same { self.new ≡ record self.old { cut = self.new.cut } }
    {
        match &mut self.cut {
            None => page.len(),
            Some(cut) => cut.feed(page),
        }
    }

    /// Puts octets of a page, with a dot before each line that begins with one.
    fn put_stuffed(&mut self, octets: &[u8], ready: &mut Vec<u8>) -> Result<(), AllocError>
        requires { length octets.now ≤ PAGE_OCTETS }
        ensures ok { OnOk result ((more : List ℕ)
            → ready.old.items ++ stuffed_from self.old.stuffer (octets.now ++ more)
            ≡ ready.new.items ++ stuffed_from self.new.stuffer more) }
        ensures same { self.new ≡ record self.old { stuffer = self.new.stuffer } }
        ensures most { length ready.new.items ≤ length ready.old.items + STUFFED_OCTETS }
    {
        let mut out = [0u8; STUFFED_OCTETS];
        let (_, put) = self.stuffer.feed(octets, &mut out);
        ready.extend_from_slice(&out[..put])
    }

    /// Puts a page of the message. Returns whether more is to come; else it puts the last dot too.
    fn put(&mut self, page: &[u8], ready: &mut Vec<u8>) -> Result<bool, AllocError>
        requires { length page.now ≤ PAGE_OCTETS }
        ensures put { IfOk result (λ more. (text : List ℕ) → length text ≡ self.old.octets
            → page.now ≡ take (length page.now) (drop self.old.place text)
            → ready.old.items ++ text_coming self.old text ≡ ready.new.items
            ++ (if more then text_coming self.new text else [])) }
        ensures left { IfOk result (λ more. more ≡ true → self.new.place < self.new.octets) }
        ensures passed { IfOk result (λ more. more ≡ true
            → self.new.place ≡ self.old.place + length page.now) }
        ensures key { self.new.key ≡ self.old.key }
        ensures octets { self.new.octets ≡ self.old.octets }
        ensures most { length ready.new.items ≤ length ready.old.items + STUFFED_OCTETS + 3 }
    {
        let part = self.part_of(page);
        self.put_stuffed(&page[..part], ready)?;
        self.place = self.place.saturating_add(page.len() as u64);
        if part == page.len() && self.place < self.octets {
            return Ok(true);
        }
        end_lines(ready)?;
        Ok(false)
    }

    /// Reads the next page and puts it.
    fn put_page<V: Vault>(
        &mut self,
        vault: &mut V,
        ready: &mut Vec<u8>,
    ) -> Result<PutPage, AllocError>
        ensures puts { PutsPages V.Vault vault.old vault.new self.old self.new ready.old.items
            ready.new.items result }
        ensures left { IfOk result (λ page. page ≡ PutPage.More → (self.new.place < self.new.octets)
            × (self.old.place < self.new.place)) }
        ensures most { length ready.new.items ≤ length ready.old.items + STUFFED_OCTETS + 3 }
    {
        let mut page = [0u8; PAGE_OCTETS];
        let Some(octets) = self.read(vault, &mut page)? else {
            return Ok(PutPage::Refused);
        };
        if self.put(&page[..octets], ready)? {
            Ok(PutPage::More)
        } else {
            Ok(PutPage::Last)
        }
    }

    /// Reads and puts pages until 16,384 octets stand ready, the message ends, or the store refuses
    /// a page.
    pub fn fill<V: Vault>(
        &mut self,
        vault: &mut V,
        ready: &mut Vec<u8>,
    ) -> Result<PutPage, AllocError>
        requires { length ready.old.items ≤ most_output }
        ensures puts { PutsPages V.Vault vault.old vault.new self.old self.new ready.old.items
            ready.new.items result }
        ensures more { IfOk result (λ page. page ≡ PutPage.More → (self.old.place < self.old.octets)
            → self.new.place < self.new.octets) }
        ensures full { IfOk result (λ page. page ≡ PutPage.More
            → most_lent ≤ length ready.new.items) }
        // Whatever the store does.
        ensures most { length ready.new.items ≤ most_output }
    {
        while ready.len() < MOST_LENT {
            match self.put_page(vault, ready)? {
                PutPage::More => {}
                PutPage::Last => return Ok(PutPage::Last),
                PutPage::Refused => return Ok(PutPage::Refused),
            }
        }
        Ok(PutPage::More)
    }
}
