//! A large file, which is read in pieces.

use crate::file_name::FileName;
use crate::spool::{Coming, MOST_OCTETS};
use mailtext::{MailText, canon};
use memchr::memrchr;
use std::alloc::Global;
use std::fs::{Metadata, OpenFile};
use std::io::Read;
use std::time::SystemTime;

/// How many octets are read in one piece. A file with more is large.
pub(crate) const PIECE: usize = 262_144;

/// A large file is read and prepared in at most so many pauses between turns.
const MOST_PAUSES: u32 = 1_000;

/// A large file that is read in pieces. It was opened once, and stays open until all of it was read
/// and its text is taken.
#[derive(Drop)]
pub(crate) struct LargeFile<F> {
    alloc: Global,
    /// Its name, and its kept form once all of it was read.
    coming: Coming,
    file: F,
    /// How many octets it had when it was opened, and when it was changed last.
    octets: u64,
    changed: SystemTime,
    /// What was read of it.
    raw: Vec<u8>,
    /// How many octets of that are whole lines, and their kept form.
    cut: usize,
    lines: Option<MailText>,
    /// The store has no more of its deposit to prepare.
    is_prepared: bool,
    pauses_left: u32,
}

impl<F: Read + OpenFile + Drop> LargeFile<F> {
    /// A file that was opened, of which nothing is read yet. It is given back if it isn't large, or
    /// too large for a message.
    pub(crate) fn begin(alloc: Global, name: &FileName, file: F) -> Result<LargeFile<F>, F> {
        let Ok(opened) = file.metadata() else {
            return Err(file);
        };
        let Ok(changed) = opened.modified() else {
            return Err(file);
        };
        if opened.len() <= PIECE as u64 || opened.len() >= MOST_OCTETS as u64 {
            return Err(file);
        }
        Ok(LargeFile {
            alloc,
            coming: Coming {
                name: *name,
                text: None,
            },
            file,
            octets: opened.len(),
            changed,
            raw: Vec::new(alloc),
            cut: 0,
            lines: None,
            is_prepared: false,
            pauses_left: MOST_PAUSES,
        })
    }

    /// Its name.
    pub(crate) fn name(&self) -> FileName {
        self.coming.name
    }

    /// The file, while it is read or prepared.
    pub(crate) fn coming(&self) -> Option<&Coming> {
        if self.is_prepared {
            None
        } else {
            Some(&self.coming)
        }
    }

    /// Reads one more piece, if not all of it was read. Returns whether it can be prepared still:
    /// not if it can't be read, its text is too large, memory is short, or so many pauses are over.
    pub(crate) fn read_on(&mut self) -> bool {
        if self.is_prepared {
            return true;
        }
        if self.pauses_left == 0 {
            return false;
        }
        self.pauses_left -= 1;
        if self.coming.text.is_some() {
            return true;
        }
        match self.read_piece() {
            Some(0) => self.finish(),
            Some(count) => self.keep_lines(count),
            None => false,
        }
    }

    /// Reads one more piece. Returns how many octets that gave, 0 at the end of the file; `None` if
    /// it can't be read, is too large by now, or memory is short.
    fn read_piece(&mut self) -> Option<usize> {
        let start = self.raw.len();
        if start >= MOST_OCTETS {
            return None;
        }
        if start == 0 {
            // The last read, which gives nothing, has room too.
            let most = MOST_OCTETS.min(self.octets as usize);
            self.raw.reserve(most + PIECE).ok()?;
        }
        self.raw.resize(start + PIECE, 0).ok()?;
        let count = self.file.read(&mut self.raw[start..]).ok()?;
        self.raw.truncate(start + count);
        Some(count)
    }

    /// After so many octets were read, brings the lines that are whole by now into their kept form.
    /// Whether that could be done.
    fn keep_lines(&mut self, count: usize) -> bool {
        let start = self.raw.len().saturating_sub(count);
        match memrchr(b'\n', &self.raw[start..]) {
            Some(place) => self.keep_until(start + place + 1),
            None => true,
        }
    }

    /// Brings what was read before a place into its kept form. Whether that could be done.
    fn keep_until(&mut self, end: usize) -> bool {
        let Some(lines) = self.raw.as_slice().get(self.cut..end) else {
            return false;
        };
        let Ok(more) = canon(self.alloc, lines) else {
            return false;
        };
        self.cut = end;
        match &mut self.lines {
            Some(lines) => lines.append(&more).is_ok(),
            None => {
                self.lines = Some(more);
                true
            }
        }
    }

    /// All of it was read: brings the rest into its kept form. Whether that could be done.
    fn finish(&mut self) -> bool {
        let end = self.raw.len();
        if self.cut < end && !self.keep_until(end) {
            return false;
        }
        self.coming.text = self.lines.take();
        self.coming.text.is_some()
    }

    /// No more of its deposit can be prepared: its kept form is forgotten.
    pub(crate) fn note_prepared(&mut self) {
        self.is_prepared = true;
        self.coming.text = None;
    }

    /// What is known of the open file; `None` if it was changed since it was opened.
    pub(crate) fn unchanged(&self) -> Option<Metadata> {
        let opened = self.file.metadata().ok()?;
        let changed = opened.modified().ok()?;
        let is_same = changed == self.changed
            && opened.len() == self.octets
            && self.raw.len() as u64 == self.octets;
        if is_same { Some(opened) } else { None }
    }

    /// Its text, as it was read.
    pub(crate) fn into_text(self) -> Vec<u8> {
        self.raw
    }
}
