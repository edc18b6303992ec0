//! Files of a spool that were tried and left.

use crate::file_name::FileName;
use crate::large_file::PIECE;
use crate::next_name::{Look, LooksWithout};
use std::alloc::Global;
use std::collections::BTreeSet;
use std::time::{Clock, Duration, Instant};

/// How many files are remembered at most; after more of them all are forgotten.
const MOST: usize = 10_000;

/// The files that were tried and left: they couldn't be read, or the store didn't take them. Others
/// are tried before them, but no more than 1,000 in a row. Only [`MOST`] of them are remembered,
/// and any others are tried as if they were new.
///
/// After one was left, none of them is tried for a second, and for one more for each [`PIECE`] of
/// what was read of it.
#[derive(Drop)]
pub(crate) struct LeftFiles {
    alloc: Global,
    names: BTreeSet<String>,
    /// The file that was tried last, unless it was removed or renamed; and how many octets were
    /// read of it.
    tried: Option<FileName>,
    octets: usize,
    /// The file that was left last.
    last: Option<FileName>,
    /// When that was noticed, if none of them is to be tried for some seconds from then on.
    at: Option<Instant>,
    rest: Duration,
    looks: LooksWithout,
}

impl LeftFiles {
    /// None was left yet.
    pub(crate) fn new(alloc: Global) -> LeftFiles {
        LeftFiles {
            alloc,
            names: BTreeSet::new(alloc),
            tried: None,
            octets: 0,
            last: None,
            at: None,
            rest: Duration::from_secs(0),
            looks: LooksWithout::new(),
        }
    }

    /// A file is tried.
    pub(crate) fn begin(&mut self, name: &FileName) {
        self.tried = Some(*name);
        self.octets = 0;
    }

    /// So many octets were read of the file that is tried.
    pub(crate) fn note_octets(&mut self, octets: usize) {
        self.octets = octets;
    }

    /// The file that was tried isn't left: it was removed or renamed, or is read in pieces.
    pub(crate) fn forget(&mut self) {
        if let Some(name) = self.tried.take()
            && let Ok(text) = name.text(self.alloc)
        {
            self.names.remove(text.as_str());
        }
    }

    /// Notes that the file that was tried last was left, if it was.
    pub(crate) fn note<C: Clock>(&mut self, clock: &C) {
        let Some(name) = self.tried.take() else {
            return;
        };
        self.last = Some(name);
        self.at = Instant::now(clock).ok();
        self.rest = Duration::from_secs(1 + (self.octets / PIECE) as u64);
        if self.names.len() >= MOST {
            self.names.clear();
        }
        // Without memory it is tried again as if it were new.
        if let Ok(text) = name.text(self.alloc) {
            let _ = self.names.insert(text);
        }
    }

    /// Whether a file of this name was left before.
    pub(crate) fn has(&self, name: &str) -> bool {
        self.names.contains(name)
    }

    /// The file that was left last.
    pub(crate) fn last(&self) -> Option<FileName> {
        self.last
    }

    /// The file that is to be tried, of the next new one and the next of those that were left.
    pub(crate) fn choose<C: Clock>(
        &mut self,
        clock: &C,
        new: Option<FileName>,
        left: Option<FileName>,
    ) -> Option<FileName> {
        let rests = self.rests(clock);
        self.looks.choose(&Look { new, left, rests })
    }

    /// Whether one was left so few seconds ago that none of them is tried.
    fn rests<C: Clock>(&mut self, clock: &C) -> bool {
        let Some(at) = self.at else {
            return false;
        };
        if let Ok(age) = at.elapsed(clock)
            && age < self.rest
        {
            return true;
        }
        self.at = None;
        false
    }
}
